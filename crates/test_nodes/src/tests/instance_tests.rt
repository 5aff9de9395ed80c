//! Tests of an instance by the messages that it sends.
use actor_net::{Actor, Outbox};
use basics::{Boxed, NoMemory};
use conn_tracker::Conntrack;
use event_filter::{Action, Mark};
use flow_filter::{Filter, Packet};
use instance_worker::Instance;
use nf_function::Chunks;
use nf_msgs::{Answer, Msg, Note, Piece, Refused};
use std::alloc::Global;
use std::process::Abort;
use std::test::Fail;
use test_packets::{SITE, packet, parcel};

type Out = Outbox<Msg, Note>;

/// An instance of the connection tracker with number 3.
fn instance(alloc: Global, limit: u32, marked: bool) -> Instance<Conntrack> {
    Instance::open(alloc, 3, limit, marked, SITE)
}

/// Lets the instance process the first packets of so many hosts.
fn feed(
    alloc: Global,
    it: &mut Instance<Conntrack>,
    hosts: u8,
    nanos: u64,
    out: &mut Out,
) -> Result<(), Fail> {
    for host in 1..=hosts {
        let packet = Packet {
            nanos,
            ..packet(u32::from(host), host, 5000)
        };
        let parcel = parcel(alloc, packet)?;
        let mark = Mark::Plain;
        it.step(0, Msg::Carry { mark, parcel }, out)?;
    }
    Ok(())
}

/// Asserts what the next messages say in numbers.
fn assert_next(rt: &impl Abort, out: &mut Out, wanted: &[Option<[u32; 4]>]) {
    for numbers in wanted {
        assert_eq!(rt; next_numbers(out), *numbers);
    }
}

/// What the next message says in numbers.
fn next_numbers(out: &mut Out) -> Option<[u32; 4]> {
    let message = out.next_sent()?.1;
    let numbers = numbers_of(&message);
    drop(message);
    numbers
}

/// What a message says in numbers. Of a piece: its chunks, all chunks, the newest version, and 1 where it is the last. Of a refusal:
/// the answer's numbers, and how many chunks come back. Of a cell that comes back: the packet's number.
fn numbers_of(message: &Msg) -> Option<[u32; 4]> {
    match message {
        Msg::Piece { piece, .. } => Some(piece_numbers(piece.get())),
        Msg::PutNo { refused, .. } => Some(refusal_numbers(refused.get())),
        Msg::Credit(cell) => Some([cell.packet().number, 0, 0, 0]),
        _ => None,
    }
}

/// The numbers of a piece.
fn piece_numbers(piece: &Piece) -> [u32; 4] {
    [
        count(&piece.chunks),
        piece.total,
        u32::from(piece.newest),
        u32::from(piece.last),
    ]
}

/// The numbers of a piece that comes back.
fn refusal_numbers(refused: &Refused) -> [u32; 4] {
    let [a, b, c] = answer_numbers(&refused.why);
    [a, b, c, count(&refused.chunks)]
}

/// The numbers of a refusal.
fn answer_numbers(answer: &Answer) -> [u32; 3] {
    match answer {
        Answer::Import {
            held,
            coming,
            limit,
        } => [*held, *coming, *limit],
        Answer::Old { newest, reads } => [u32::from(*newest), u32::from(*reads), 0],
        _ => [0; 3],
    }
}

/// How many chunks there are.
fn count(chunks: &Chunks) -> u32 {
    u32::try_from(chunks.items().len()).unwrap_or(u32::MAX)
}

/// The order to stream the units that a filter takes.
fn stream(alloc: Global, op: u32, filter: Filter) -> Result<Msg, NoMemory> {
    let filter = Boxed::new(alloc, filter)?;
    Ok(Msg::Stream { op, filter })
}

/// A piece of all chunks of an instance that is put first, with more to come.
fn put(alloc: Global, from: &Instance<Conntrack>, total: u32) -> Result<Msg, NoMemory> {
    let piece = Piece {
        chunks: from.table().select(&Filter::ANY)?,
        total,
        newest: 2,
        last: false,
    };
    let piece = Boxed::new(alloc, piece)?;
    Ok(Msg::Put {
        op: 7,
        piece,
        first: true,
    })
}

/// The order to hold all packets.
fn enable(alloc: Global) -> Result<Msg, NoMemory> {
    let filter = Boxed::new(alloc, Filter::ANY)?;
    Ok(Msg::Enable {
        op: 7,
        filter,
        action: Action::Buffer,
    })
}

#[test]
fn sixty_five_units_are_streamed_as_pieces_of_64_and_1(rt: HostRuntime) -> Result<(), Fail> {
    let mut it = instance(rt.alloc(), 1000, false);
    let mut out = Outbox::open(rt.alloc());
    assert_streamed(&rt, rt.alloc(), &mut it, &mut out)
}

/// Asserts in which pieces an instance streams 65 units, and none.
fn assert_streamed(
    rt: &impl Abort,
    alloc: Global,
    it: &mut Instance<Conntrack>,
    out: &mut Out,
) -> Result<(), Fail> {
    feed(alloc, it, 65, 1, out)?;
    out.clear();
    it.step(1, stream(alloc, 7, Filter::ANY)?, out)?;
    assert_next(rt, out, &[Some([64, 65, 2, 0]), Some([1, 65, 2, 1]), None]);
    it.step(1, stream(alloc, 8, Filter::parse("lport=1")?)?, out)?;
    assert_next(rt, out, &[Some([0, 0, 1, 1]), None]);
    Ok(())
}

#[test]
fn a_piece_is_refused_for_its_total_first_and_then_for_its_version(
    rt: HostRuntime,
) -> Result<(), Fail> {
    let mut from = instance(rt.alloc(), 9, false);
    let mut it = instance(rt.alloc(), 3, true);
    let mut out = Outbox::open(rt.alloc());
    assert_refused(&rt, rt.alloc(), &mut from, &mut it, &mut out)
}

/// Asserts for what an instance refuses pieces of another.
fn assert_refused(
    rt: &impl Abort,
    alloc: Global,
    from: &mut Instance<Conntrack>,
    it: &mut Instance<Conntrack>,
    out: &mut Out,
) -> Result<(), Fail> {
    feed(alloc, from, 2, 1, out)?;
    feed(alloc, it, 1, 0, out)?;
    out.clear();
    for (total, numbers) in [(3, [1, 3, 3, 2]), (2, [2, 1, 0, 2])] {
        it.step(1, put(alloc, from, total)?, out)?;
        assert_next(rt, out, &[Some(numbers)]);
    }
    assert_eq!(rt; it.table().live_count(), 1);
    Ok(())
}

#[test]
fn what_is_held_is_processed_at_the_fence_in_order(rt: HostRuntime) -> Result<(), Fail> {
    let mut it = instance(rt.alloc(), 9, false);
    let mut out = Outbox::open(rt.alloc());
    assert_held(&rt, rt.alloc(), &mut it, &mut out)
}

/// Asserts when an instance that holds packets processes them.
fn assert_held(
    rt: &impl Abort,
    alloc: Global,
    it: &mut Instance<Conntrack>,
    out: &mut Out,
) -> Result<(), Fail> {
    it.step(1, enable(alloc)?, out)?;
    feed(alloc, it, 2, 0, out)?;
    assert_eq!(rt; it.tally().slots[3], 0);
    out.clear();
    it.step(0, Msg::Fence { op: 7 }, out)?;
    assert_next(rt, out, &[Some([1, 0, 0, 0]), Some([2, 0, 0, 0])]);
    assert_eq!(rt; it.tally().slots[3], 2);
    it.step(0, Msg::Stop, out)?;
    assert!(rt; it.ended());
    Ok(())
}
