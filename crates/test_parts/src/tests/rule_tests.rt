use event_filter::{Action, Decide, EventRules, Mark};
use flow_filter::Filter;
use std::test::Fail;
use test_packets::FLOW;

/// A parcel that can't be copied.
#[derive(Debug, PartialEq, Eq, Drop)]
struct Parcel(u32);

#[test]
fn the_first_rule_that_matches_a_plain_packet_decides(rt: HostRuntime) -> Result<(), Fail> {
    let mut rules: EventRules<Parcel> = EventRules::open(rt.alloc());
    assert_eq!(rt; rules.decide(&FLOW, &Mark::Plain), Decide::Process);
    rules.enable(1, Filter::parse("rport=80")?, Action::Drop)?;
    rules.enable(2, Filter::parse("local=10.0.0.0/24")?, Action::Buffer)?;
    rules.enable(3, Filter::ANY, Action::Process)?;
    assert_eq!(rt; rules.decide(&FLOW, &Mark::Plain), Decide::Buffer(2));
    assert_eq!(rt; rules.decide(&FLOW, &Mark::Pass(2)), Decide::Process);
    rules.disable(2);
    assert_eq!(rt;
        rules.decide(&FLOW, &Mark::Plain),
        Decide::ProcessAndEvent(3)
    );
    Ok(())
}

#[test]
fn what_is_held_stays_when_the_rule_is_replaced_and_comes_out_in_order(
    rt: HostRuntime,
) -> Result<(), Fail> {
    let mut rules = EventRules::open(rt.alloc());
    rules.enable(7, Filter::ANY, Action::Buffer)?;
    rules.enable(8, Filter::ANY, Action::Buffer)?;
    for number in 1..=3 {
        assert!(rt; rules.has_rule(7));
        let held = rules.hold(7, Parcel(number)).is_ok();
        assert!(rt; held);
    }
    rules.enable(7, Filter::ANY, Action::Drop)?;
    assert_eq!(rt; rules.decide(&FLOW, &Mark::Plain), Decide::Event(7));
    assert_eq!(rt; rules.held(8), [].as_slice());
    let parcels = rules.release(7);
    assert_eq!(rt;
        parcels.as_slice(),
        [Parcel(1), Parcel(2), Parcel(3)].as_slice()
    );
    assert!(rt; !rules.has_rule(7));
    assert_eq!(rt; rules.decide(&FLOW, &Mark::Plain), Decide::Buffer(8));
    Ok(())
}
