//! Tests of a move by the messages that it sends, one row of its table after the other.
use crate::tests::common::{said, write_done};
use actor_net::Outbox;
use basics::Text;
use event_store::EventStore;
use flow_filter::Filter;
use move_op::MoveOp;
use nf_msgs::{Msg, Note};
use packet_pool::Cell;
use std::alloc::Global;
use std::process::Abort;
use std::test::Fail;

/// What a move with number 7 from instance 0 to instance 1 sends at these messages, and its answer.
fn told(alloc: Global, keep: bool, messages: &str) -> Result<Text, Fail> {
    let mut text = Text::open(alloc);
    write_told(&mut text, alloc, keep, messages)?;
    Ok(text)
}

/// Writes the same.
fn write_told(text: &mut Text, alloc: Global, keep: bool, messages: &str) -> Result<(), Fail> {
    let mut out = Outbox::open(alloc);
    let mut operation = MoveOp::begin(alloc, 7, 0, 1, &Filter::ANY, keep, &mut out)?;
    let written = write_begun(text, alloc, out, &mut operation, messages);
    drop(operation);
    written
}

/// Writes what a move has sent that has begun, and what it sends at these messages.
fn write_begun(
    text: &mut Text,
    alloc: Global,
    out: Outbox<Msg, Note>,
    operation: &mut MoveOp,
    messages: &str,
) -> Result<(), Fail> {
    write_done(text, alloc, out, None)?;
    let mut store = EventStore::open(alloc);
    for words in messages.split(',') {
        write_next(text, alloc, operation, &mut store, words)?;
    }
    Ok(())
}

/// Writes what the move does with a message.
fn write_next(
    text: &mut Text,
    alloc: Global,
    operation: &mut MoveOp,
    store: &mut EventStore<Cell>,
    words: &str,
) -> Result<(), Fail> {
    let (node, message) = said(alloc, 7, words)?;
    let mut out = Outbox::open(alloc);
    let answer = operation.on(node, message, store, &mut out)?;
    Ok(write_done(text, alloc, out, answer)?)
}

#[test]
fn a_move_sends_what_its_table_says(rt: HostRuntime) -> Result<(), Fail> {
    let rows = [
        // A move that keeps order goes on once the destination holds.
        (
            true,
            "2 enabled,2 last,2 deleted,2 event,3 ok,3 enabled,2 fenced,3 fenced",
            "2 enable op 7\n2 stream op 7\n2 delete op 7\n3 put op 7\n3 enable op 7\n\
             0 forward packet 5 to 1 unmarked\n0 install op 7\n0 fence to op 7 to 1\ndone\n",
        ),
        // A refused move gives back what it took.
        (
            false,
            "2 enabled,2 piece,2 deleted,3 no,2 last,2 event,2 deleted,2 restored,2 enabled,2 fenced",
            "2 enable op 7\n2 stream op 7\n2 delete op 7\n3 put op 7\n2 delete op 7\n2 restore op 7\n2 enable op 7\n\
             0 forward packet 5 to 0 unmarked\n0 fence to op 7 to 0\nimport 2 3 4\n",
        ),
    ];
    for (keep, messages, wanted) in rows {
        assert_told(&rt, rt.alloc(), keep, messages, wanted)?;
    }
    Ok(())
}

/// Asserts what a move sends at these messages, and its answer.
fn assert_told(
    rt: &impl Abort,
    alloc: Global,
    keep: bool,
    messages: &str,
    wanted: &str,
) -> Result<(), Fail> {
    let text = told(alloc, keep, messages)?;
    assert_eq!(rt; text.items(), wanted.as_bytes());
    Ok(())
}
