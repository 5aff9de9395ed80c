//! Tests of the switch's rules: where a flow goes, also after redirects, and how many groups the routes take.
use basics::NoMemory;
use flow_filter::{Filter, Flow, Prefix};
use std::process::Abort;
use std::test::Fail;
use switch_rules::{Classifier, Rules, Target};

/// How many prefixes of addresses have routes, and how many ports of each.
const PREFIXES: u8 = 250;

const PORTS: u16 = 4;

/// The instance of the route of a prefix and a port.
fn instance_of(prefix: u8, port: u16) -> u8 {
    ((u32::from(prefix) * 7 + u32::from(port)) % 16) as u8
}

#[test]
fn routes_by_two_halves_have_two_groups(rt: HostRuntime) -> Result<(), Fail> {
    let rules = [
        (Filter::parse("local=10.0.0.0/25")?, Target::Instance(1)),
        (Filter::parse("local=10.0.0.128/25")?, Target::Instance(2)),
        (Filter::ANY, Target::Instance(0)),
    ];
    assert_eq!(rt; Classifier::build(rt.alloc(), &rules)?.groups(), 2);
    Ok(())
}

#[test]
fn the_first_rule_counts_and_not_the_longest_mask(rt: HostRuntime) -> Result<(), Fail> {
    let rules = [
        (Filter::parse("rport=80")?, Target::Controller),
        (
            Filter::parse("proto=tcp,local=10.0.0.9/32,rport=80")?,
            Target::Instance(1),
        ),
        (Filter::parse("local=0.0.0.0/0")?, Target::Instance(2)),
        (Filter::ANY, Target::Instance(3)),
    ];
    let web = Flow {
        local: 0x0a00_0009,
        remote: 0xc633_6407,
        lport: 40000,
        rport: 80,
        proto: 6,
    };
    let other = Flow { rport: 81, ..web };
    assert_eq!(rt;
        Classifier::build(rt.alloc(), &rules[..2])?.target(&other),
        None
    );
    let classifier = Classifier::build(rt.alloc(), &rules)?;
    assert_eq!(rt; classifier.groups(), 3);
    assert_eq!(rt; classifier.target(&web), Some(Target::Controller));
    assert_eq!(rt; classifier.target(&other), Some(Target::Instance(2)));
    Ok(())
}

#[test]
fn each_of_2000_flows_goes_by_its_own_of_1000_routes(rt: HostRuntime) -> Result<(), Fail> {
    let mut rules = Vec::new(rt.alloc());
    push_routes(&mut rules)?;
    let classifier = Classifier::build(rt.alloc(), &rules)?;
    assert_eq!(rt; classifier.groups(), 2);
    assert_routed(&rt, &classifier);
    Ok(())
}

/// Puts the route of each prefix and port after others, and the controller's after them.
fn push_routes(rules: &mut Vec<(Filter, Target)>) -> Result<(), NoMemory> {
    for prefix in 0..PREFIXES {
        for port in 0..PORTS {
            let filter = Filter {
                local: Some(Prefix {
                    bits: 0x0a00_0000 + u32::from(prefix) * 0x100,
                    len: 24,
                }),
                lport: Some(port),
                ..Filter::ANY
            };
            rules.push((filter, Target::Instance(instance_of(prefix, port))))?;
        }
    }
    rules.push((Filter::ANY, Target::Controller))?;
    Ok(())
}

/// Asserts that flows to the ports with routes go by them, and as many others to the controller.
fn assert_routed(rt: &impl Abort, classifier: &Classifier) {
    for prefix in 0..PREFIXES {
        for port in 0..2 * PORTS {
            let flow = Flow {
                local: 0x0a00_0000 + u32::from(prefix) * 0x100 + 9,
                remote: 0xc000_0209,
                lport: port,
                rport: 53,
                proto: 17,
            };
            let target = if port < PORTS {
                Target::Instance(instance_of(prefix, port))
            } else {
                Target::Controller
            };
            assert_eq!(rt; classifier.target(&flow), Some(target));
        }
    }
}

/// A UDP flow of a host of 10.0.0.0/16, by the last two bytes of its address.
fn flow_at(net: u8, host: u8, lport: u16) -> Flow {
    Flow {
        local: 0x0a00_0000 + u32::from(net) * 0x100 + u32::from(host),
        remote: 0xc000_0209,
        lport,
        rport: 53,
        proto: 17,
    }
}

#[test]
fn a_redirect_of_all_flows_leaves_those_of_a_third_instance(rt: HostRuntime) -> Result<(), Fail> {
    let routes = [(Filter::parse("local=10.0.0.9/32")?, 2)];
    let mut rules = Rules::open(rt.alloc(), &routes)?;
    assert_led(&rt, &mut rules)
}

/// Asserts where flows go before and after a redirect from instance 0, with a route of one host to instance 2.
fn assert_led(rt: &impl Abort, rules: &mut Rules) -> Result<(), Fail> {
    assert_eq!(rt; rules.target(&flow_at(0, 1, 5000)), Target::Instance(0));
    assert_eq!(rt; rules.target(&flow_at(0, 9, 5000)), Target::Instance(2));
    rules.redirect(&Filter::ANY, Target::Instance(0), Target::Instance(1))?;
    assert_eq!(rt; rules.target(&flow_at(0, 1, 5000)), Target::Instance(1));
    assert_eq!(rt; rules.target(&flow_at(0, 9, 5000)), Target::Instance(2));
    Ok(())
}

#[test]
fn a_redirect_takes_flows_from_all_rules_of_the_old_target(rt: HostRuntime) -> Result<(), Fail> {
    let routes = [
        (Filter::parse("local=10.0.0.0/25")?, 1),
        (Filter::parse("local=10.0.1.0/24")?, 3),
        (Filter::parse("local=10.0.2.0/24")?, 1),
    ];
    let dns = Filter::parse("lport=53")?;
    let mut rules = Rules::open(rt.alloc(), &routes)?;
    rules.redirect(&dns, Target::Instance(1), Target::Controller)?;
    assert_redirected(&rt, &rules);
    Ok(())
}

/// Asserts where flows of four nets go once those to port 53 of instance 1 go to the controller.
fn assert_redirected(rt: &impl Abort, rules: &Rules) {
    assert_eq!(rt; rules.target(&flow_at(0, 1, 53)), Target::Controller);
    assert_eq!(rt; rules.target(&flow_at(0, 1, 54)), Target::Instance(1));
    assert_eq!(rt; rules.target(&flow_at(1, 1, 53)), Target::Instance(3));
    assert_eq!(rt; rules.target(&flow_at(2, 1, 53)), Target::Controller);
    assert_eq!(rt; rules.target(&flow_at(3, 1, 53)), Target::Instance(0));
}
