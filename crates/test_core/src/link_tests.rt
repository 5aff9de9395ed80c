//! Tests of links: a full one hands a message back, an empty one gives none, and what is sent comes in order, also from another thread.
ghost use Rattle.std.specs.Prelude.{◌≡◌};

use basics::NoMemory;
use fifo_link::{Full, Link, SendEnd, TakeEnd, close};
use std::process::Abort;
use std::sync::Wait;
use std::test::Fail;
use std::thread;

/// The message that a send hands back, if it does.
fn handed_back(sent: Result<(), Full<u64>>) -> Option<u64> {
    match sent {
        Ok(()) => None,
        Err(Full { message }) => Some(message),
    }
}

/// Fills an empty link of one place with 1, sends 2, and takes all that there is.
fn fill_and_send<R: Wait + Abort>(rt: &R, send: &mut SendEnd<u64>, take: &mut TakeEnd<u64>) {
    assert!(rt; send.send(rt, 1).is_ok());
    assert_eq!(rt; handed_back(send.send(rt, 2)), Some(2));
    assert_eq!(rt; take.take(rt), Some(1));
    assert!(rt; take.take(rt).is_none());
}

#[test]
fn a_full_link_hands_the_message_back(rt: HostRuntime) -> Result<(), Fail> {
    let (mut send, mut take) = Link::<u64>::open(rt.alloc(), 1)?;
    fill_and_send(&rt, &mut send, &mut take);
    Ok(())
}

/// Fills an empty link of one place with this number, and empties it.
fn fill_and_empty<R: Wait + Abort>(
    rt: &R,
    send: &mut SendEnd<u64>,
    take: &mut TakeEnd<u64>,
    number: u64,
) {
    assert!(rt; take.take(rt).is_none());
    assert!(rt; send.send(rt, number).is_ok());
    assert!(rt; send.send(rt, 9).is_err());
    assert_eq!(rt; take.take(rt), Some(number));
}

// A taker that answered none for good after its first none would keep its clauses, and so would a sender that stayed full.
#[test]
fn ends_go_on_after_an_empty_link_and_a_full_one(rt: HostRuntime) -> Result<(), Fail> {
    let (mut send, mut take) = Link::<u64>::open(rt.alloc(), 1)?;
    for number in 0u64..3 {
        fill_and_empty(&rt, &mut send, &mut take, number);
    }
    Ok(())
}

fn send_all(rt: &impl Wait, mut send: SendEnd<u64>, count: u64) -> SendEnd<u64>
    ensures { result.link ≡ send.link }
{
    for number in 0..count {
        let _ = send.send(rt, number);
    }
    send
}

fn take_all(rt: &impl Wait, mut take: TakeEnd<u64>, count: u64) -> (TakeEnd<u64>, u64)
    ensures { result.0.link ≡ take.link }
{
    let mut taken = 0u64;
    for _ in rt.forever() {
        if taken >= count {
            break;
        }
        match take.take(rt) {
            Some(number) if number == taken => taken += 1,
            Some(_) => break,
            None => thread::yield_now(),
        }
    }
    (take, taken)
}

#[test]
fn what_was_not_taken_is_left_in_order(rt: HostRuntime) -> Result<(), Fail> {
    let (send, take) = Link::<u64>::open(rt.alloc(), 4)?;
    let send = send_all(&rt, send, 3);
    let (take, taken) = take_all(&rt, take, 1);
    let left = close(&rt, send, take).left;
    assert_eq!(rt; (taken, left.len()), (1, 2));
    assert_eq!(rt; (left[0], left[1]), (1, 2));
    Ok(())
}

#[test]
fn messages_cross_threads_in_order(rt: HostRuntime) -> Result<(), NoMemory> {
    let (send, take) = Link::<u64>::open(rt.alloc(), 64)?;
    let (send, (take, taken)) = thread::join(
        &rt,
        || send_all(&rt, send, 64),
        || take_all(&rt, take, 32),
    );
    let left = close(&rt, send, take).left;
    assert_eq!(rt; (taken, left.len()), (32, 32));
    Ok(())
}
