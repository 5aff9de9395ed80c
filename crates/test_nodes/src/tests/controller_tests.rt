//! Tests of the controller by what it sends and notes for the messages that it gets.
use crate::tests::common::{said, write_answer, write_messages};
use actor_net::{Actor, Outbox};
use basics::{NoMemory, Text};
use ctrl_node::Ctrl;
use nf_msgs::{Msg, Note};
use std::alloc::Global;
use std::process::Abort;
use std::test::Fail;
use test_packets::{SITE, names};

/// Writes what was sent, and then the answers.
fn write_noted(text: &mut Text, alloc: Global, out: Outbox<Msg, Note>) -> Result<(), NoMemory> {
    let (messages, notes) = out.parts();
    write_messages(text, alloc, messages.as_slice())?;
    for note in notes.as_slice() {
        if let Note::Answered { answer, .. } = note {
            write_answer(text, alloc, answer.get())?;
        }
    }
    Ok(())
}

/// Writes what the controller does with a message.
fn write_told(
    text: &mut Text,
    alloc: Global,
    controller: &mut Ctrl,
    words: &str,
) -> Result<(), Fail> {
    let (node, message) = said(alloc, 3, words)?;
    let mut out = Outbox::open(alloc);
    controller.step(node, message, &mut out)?;
    Ok(write_noted(text, alloc, out)?)
}

/// What a controller of a and b sends and answers at these messages, and whether it has then ended.
fn told(alloc: Global, messages: &str) -> Result<(Text, bool), Fail> {
    let mut controller = Ctrl::open(alloc, names(alloc)?, SITE)?;
    let text = all_told(alloc, &mut controller, messages);
    let ended = controller.ended();
    drop(controller);
    Ok((text?, ended))
}

/// What the controller sends and answers at these messages.
fn all_told(alloc: Global, controller: &mut Ctrl, messages: &str) -> Result<Text, Fail> {
    let mut text = Text::open(alloc);
    for words in messages.split(',') {
        write_told(&mut text, alloc, controller, words)?;
    }
    Ok(text)
}

#[test]
fn each_command_is_answered_before_all_is_told_to_finish(rt: HostRuntime) -> Result<(), Fail> {
    let rows = [
        // A move is answered once it is over, and all end then.
        (
            "0 move,0 end,2 enabled,2 last,2 deleted,3 ok,2 fenced,3 fenced,2 final,3 final",
            "2 enable op 3\n2 stream op 3\n2 delete op 3\n3 put op 3\n0 install op 3\n0 fence to op 3 to 1\n\
             0 answered op 3\n0 finish\ndone\n",
            true,
        ),
        // A share is answered before it serves, and finishes when it is idle.
        (
            "0 share,0 diverted,2 fenced,2 nothing,0 end,3 synced,0 diverted,2 shared,3 synced,2 shared,3 synced",
            "0 install op 3\n2 get op 3\n3 sync op 3 standby\n0 answered op 3\n0 forward packet 5 to 0 live\ndone\n\
             3 sync op 3 standby\n0 forward packet 5 to 0 live\n3 sync op 3 standby\n0 finish\n",
            false,
        ),
    ];
    for (messages, wanted, ended) in rows {
        assert_told(&rt, rt.alloc(), messages, wanted, ended)?;
    }
    Ok(())
}

/// Asserts what a controller sends and answers at these messages, and whether it has then ended.
fn assert_told(
    rt: &impl Abort,
    alloc: Global,
    messages: &str,
    wanted: &str,
    ended: bool,
) -> Result<(), Fail> {
    let (text, has_ended) = told(alloc, messages)?;
    assert_eq!(rt; text.items(), wanted.as_bytes());
    assert_eq!(rt; has_ended, ended);
    Ok(())
}
