//! Tests of copies and shares by the messages that they send.
use crate::tests::common::{said, write_done};
use actor_net::Outbox;
use basics::Text;
use copy_share::{CopyOp, ShareOp};
use event_store::EventStore;
use flow_filter::{Filter, Packet};
use nf_msgs::{Msg, Note};
use packet_pool::Cell;
use std::alloc::Global;
use std::process::Abort;
use std::test::Fail;
use test_packets::{PACKET, SITE, packet, parcel};

/// What a copy of everything with number 7 from instance 0 to instance 1 sends at these messages, and its answer.
fn copied(alloc: Global, messages: &str) -> Result<Text, Fail> {
    let mut text = Text::open(alloc);
    write_copied(&mut text, alloc, messages)?;
    Ok(text)
}

/// Writes the same.
fn write_copied(text: &mut Text, alloc: Global, messages: &str) -> Result<(), Fail> {
    let mut out = Outbox::open(alloc);
    let mut copy = CopyOp::begin(alloc, 7, 0, 1, Some(Filter::ANY), &mut out)?;
    write_done(text, alloc, out, None)?;
    for words in messages.split(',') {
        let (node, message) = said(alloc, 7, words)?;
        let mut out = Outbox::open(alloc);
        let answer = copy.on(node, message, &mut out)?;
        write_done(text, alloc, out, answer)?;
    }
    Ok(())
}

/// The packet that comes beside what is said. The ports and the remote address of [`PACKET`] have the sum 3221231046, which is 0 modulo 3; those
/// of the first packet that comes have one that is 1, and those of the second one that is 2.
fn packet_of(words: &str) -> Option<Packet> {
    match words {
        "2 first" => Some(packet(1, 1, 5001)),
        "2 second" => Some(Packet {
            dst: PACKET.dst + 2,
            ..packet(2, 1, 5000)
        }),
        _ => None,
    }
}

/// A packet waits for the share.
fn wait(alloc: Global, store: &mut EventStore<Cell>, packet: Packet) -> Result<(), Fail> {
    match store.put(7, parcel(alloc, packet)?) {
        Ok(()) => Ok(()),
        Err((full, _parcel)) => Err(full.into()),
    }
}

/// Writes what the share does with a message, and then with the next packet.
fn write_told(
    text: &mut Text,
    alloc: Global,
    share: &mut ShareOp,
    store: &mut EventStore<Cell>,
    words: &str,
) -> Result<(), Fail> {
    if let Some(packet) = packet_of(words) {
        wait(alloc, store, packet)?;
    }
    let (node, message) = said(alloc, 7, words)?;
    let mut out = Outbox::open(alloc);
    let answer = share.on(node, message, &mut out)?;
    share.serve(store, &mut out)?;
    Ok(write_done(text, alloc, out, answer)?)
}

/// What a share with number 7 of the instances 2, 0 and 1 sends at these messages, its answer, and whether it is idle then.
fn shared(alloc: Global, messages: &str) -> Result<(Text, bool), Fail> {
    let mut text = Text::open(alloc);
    let is_idle = write_shared(&mut text, alloc, messages)?;
    Ok((text, is_idle))
}

/// Writes the same, and tells whether the share is idle then.
fn write_shared(text: &mut Text, alloc: Global, messages: &str) -> Result<bool, Fail> {
    let members = Vec::from_array(alloc, [2, 0, 1])?;
    let mut out = Outbox::open(alloc);
    let mut share = ShareOp::begin(alloc, 7, members, &Filter::ANY, SITE, &mut out)?;
    let is_idle = write_begun(text, alloc, out, &mut share, messages);
    drop(share);
    is_idle
}

/// Writes what a share has sent that has begun, and what it sends at these messages. Tells whether it is idle then.
fn write_begun(
    text: &mut Text,
    alloc: Global,
    out: Outbox<Msg, Note>,
    share: &mut ShareOp,
    messages: &str,
) -> Result<bool, Fail> {
    write_done(text, alloc, out, None)?;
    let mut store = EventStore::open(alloc);
    for words in messages.split(',') {
        write_told(text, alloc, share, &mut store, words)?;
    }
    Ok(share.idle(&store))
}

#[test]
fn a_copy_is_over_once_it_is_kept(rt: HostRuntime) -> Result<(), Fail> {
    let text = copied(rt.alloc(), "2 chunks,3 kept")?;
    assert_eq!(rt;
        text.items(),
        b"2 get op 7\n3 standby op 7\ndone\n".as_slice()
    );
    Ok(())
}

#[test]
fn others_of_three_members_are_synced_before_the_next_packet(rt: HostRuntime) -> Result<(), Fail> {
    let messages =
        "4 fenced,4 chunks,2 synced,2 first,3 synced,2 second,2 shared,4 synced,3 synced";
    let wanted =
        "0 install op 7\n4 get op 7\n2 sync op 7 standby\n3 sync op 7 standby\n0 forward packet 1 to 0 standby\ndone\n\
         4 sync op 7 live\n3 sync op 7 standby\n0 forward packet 2 to 1 standby\n";
    assert_shared(&rt, rt.alloc(), messages, wanted)
}

/// Asserts what a share of three members sends at these messages, and that it isn't idle then.
fn assert_shared(rt: &impl Abort, alloc: Global, messages: &str, wanted: &str) -> Result<(), Fail> {
    let (text, is_idle) = shared(alloc, messages)?;
    assert_eq!(rt; text.items(), wanted.as_bytes());
    assert!(rt; !is_idle);
    Ok(())
}
