//! Tests of the switch.
use actor_net::{Actor, Outbox};
use basics::{Boxed, NoMemory};
use flow_filter::{CapturedPacket, Filter};
use nf_msgs::{Msg, Note};
use std::alloc::Global;
use std::process::Abort;
use std::test::Fail;
use switch_node::Switch;
use switch_rules::Target;
use test_packets::{SITE, packet};

/// The message of the packet with this number of the host 10.0.0.9.
fn came(alloc: Global, number: u32) -> Result<Msg, NoMemory> {
    Ok(Msg::InPacket(CapturedPacket::of(alloc, &packet(number, 9, 5000))?))
}

/// The order that packets of instance 1 go to instance 0.
fn install(alloc: Global) -> Result<Msg, NoMemory> {
    let filter = Boxed::new(alloc, Filter::ANY)?;
    let to = Target::Instance(0);
    Ok(Msg::Install {
        op: 7,
        filter,
        from: 1,
        to,
    })
}

/// The node that gets what is sent first for a message.
fn receiver(
    switch: &mut Switch,
    port: u8,
    message: Msg,
    out: &mut Outbox<Msg, Note>,
) -> Result<Option<u8>, NoMemory> {
    switch.step(port, message, out)?;
    Ok(out.next_sent().map(|sent| sent.0))
}

/// Whether the switch takes a message in.
fn is_ready(switch: &Switch, message: Msg) -> bool {
    let ready = switch.ready(&message);
    drop(message);
    ready
}

#[test]
fn packets_go_by_the_rules_until_a_redirect_and_no_more_than_the_window(
    rt: HostRuntime,
) -> Result<(), Fail> {
    let routes = [(Filter::parse("local=10.0.0.9")?, 1u8)];
    let mut switch = Switch::open(rt.alloc(), 2, 2, SITE, &routes)?;
    let mut out = Outbox::open(rt.alloc());
    assert_steered(&rt, rt.alloc(), &mut switch, &mut out)
}

/// Asserts where packets go before and after a redirect, and that a third one has to wait.
fn assert_steered(
    rt: &impl Abort,
    alloc: Global,
    switch: &mut Switch,
    out: &mut Outbox<Msg, Note>,
) -> Result<(), Fail> {
    assert_eq!(rt; receiver(switch, 0, came(alloc, 1)?, out)?, Some(3));
    assert_eq!(rt; receiver(switch, 1, install(alloc)?, out)?, Some(3));
    assert_eq!(rt; receiver(switch, 0, came(alloc, 2)?, out)?, Some(2));
    assert_eq!(rt; switch.home(), 0);
    assert!(rt; !is_ready(switch, came(alloc, 3)?));
    Ok(())
}
