//! Tests of `run_input`: what a run is given, of a setting, a script and packets.

use crate::tests::script_tests::{shown, two_packets};
use command_words::instances::instances_of;
use flow_filter::{Filter, Prefix, Site};
use net_world::Config;
use nf_function::Kind;
use nf_msgs::Msg;
use op_script::read_script;
use run_input::{Setting, input_of};
use std::alloc::Global;
use std::process::Abort;
use std::test::Fail;

/// A network of 10.0.0.0/8.
fn site() -> Site {
    let inside = Prefix {
        bits: 0x0a00_0000,
        len: 8,
    };
    Site {
        inside,
        outside: None,
    }
}

/// What the tracker's instances `a` and `b` are given, by the text of a script.
fn given(alloc: Global, text: &[u8]) -> Result<(Config, Vec<Msg>), Fail> {
    let instances = instances_of(alloc, Some("a:5,b:7:v1"))?.ok_or("no instances")?;
    let names = instances.names(alloc)?;
    let script = read_script(alloc, text, Kind::Conntrack, names.items())?;
    let setting = Setting {
        kind: Kind::Conntrack,
        instances: &instances,
        site: site(),
        window: 3,
    };
    Ok(input_of(alloc, &setting, &script, two_packets(alloc)?)?)
}

#[test]
fn the_setting_the_routes_and_the_lines_are_taken_over(rt: HostRuntime) -> Result<(), Fail> {
    let text =
        b"route rport=53 b\nroute any a\nat 0 settle\nat 0 share b,a any strict\nat 1 move a b any order\nat 9 copy b a all\n";
    let routes = [(Filter::parse("rport=53")?, 1), (Filter::ANY, 0)];
    let (config, items) = given(rt.alloc(), text.as_slice())?;
    see_config(&rt, &config, &routes);
    drop(config);
    see_items(&rt, rt.alloc(), items.as_slice())?;
    Ok(())
}

/// Looks at a network with these routes.
fn see_config(rt: &impl Abort, config: &Config, routes: &[(Filter, u8)]) {
    assert_eq!(rt;
        (config.names.items().len(), config.window, config.site),
        (2, 3, site())
    );
    assert_eq!(rt;
        (
            config.limits.items(),
            config.marked.items(),
            config.routes.items()
        ),
        ([5, 7].as_slice(), [false, true].as_slice(), routes)
    );
}

/// Looks at the packets and the lines between them.
fn see_items(rt: &impl Abort, alloc: Global, items: &[Msg]) -> Result<(), Fail> {
    let (kinds, numbers) = shown(alloc, items)?;
    assert_eq!(rt;
        (kinds.as_slice(), numbers.as_slice()),
        (b"scpcpce".as_slice(), [1, 2, 3].as_slice())
    );
    Ok(())
}
