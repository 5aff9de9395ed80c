//! Tests of messages, notes and answers: their words, and how much room they take.
use crate::tests::common::assert_text;
use basics::{Boxed, Bytes, NoMemory, Text};
use event_filter::Mark;
use flow_filter::Name;
use nf_function::{Chunk, ChunkBytes, Chunks, Scope, Unit};
use nf_msgs::{Answer, KeptUnits, Msg, Note, Piece, print_answer, show};
use packet_pool::Pool;
use std::alloc::Global;
use std::process::Abort;
use std::test::Fail;
use test_packets::{FLOW, PACKET};

#[test]
fn each_answer_has_its_words(rt: HostRuntime) -> Result<(), Fail> {
    let alloc = rt.alloc();
    let Some(name) = Name::read(alloc, b"z9")? else {
        return Ok(());
    };
    assert_printed(&rt, alloc, Answer::Unknown(name), "unknown z9")?;
    assert_printed(&rt, alloc, Answer::Done, "done")?;
    assert_printed(&rt, alloc, Answer::Overlap(12), "overlap 12")?;
    let import = Answer::Import {
        held: 2,
        coming: 3,
        limit: 4,
    };
    assert_printed(&rt, alloc, import, "import 2 3 4")?;
    let old = Answer::Old {
        newest: 2,
        reads: 1,
    };
    assert_printed(&rt, alloc, old, "old 2 1")?;
    Ok(())
}

/// Asserts that an answer is printed as these words.
fn assert_printed(
    rt: &impl Abort,
    alloc: Global,
    answer: Answer,
    words: &str,
) -> Result<(), NoMemory> {
    let text = print_answer(alloc, &answer);
    drop(answer);
    assert_text(rt, text?, words);
    Ok(())
}

#[test]
fn a_message_is_shown_by_its_kind_and_numbers(rt: HostRuntime) -> Result<(), Fail> {
    let alloc = rt.alloc();
    let mut pool = Pool::open(0, 1);
    if let Some(forward) = forward_shown(alloc, &mut pool)? {
        assert_text(&rt, forward, "forward packet 1 to 1");
    }
    assert_eq!(rt; pool.home(), 0);
    assert_text(&rt, put_shown(alloc)?, "put op 4");
    assert_text(&rt, shown(alloc, Msg::Finish)?, "finish");
    Ok(())
}

/// The text of a message.
fn shown(alloc: Global, message: Msg) -> Result<Text, NoMemory> {
    let text = show(alloc, &message);
    drop(message);
    text
}

/// The text of a packet that is forwarded in a cell of this pool, if one is at home.
fn forward_shown(alloc: Global, pool: &mut Pool) -> Result<Option<Text>, NoMemory> {
    match pool.take(Boxed::new(alloc, PACKET)?) {
        Ok(parcel) => {
            let mark = Mark::Pass(3);
            let text = shown(
                alloc,
                Msg::Forward {
                    parcel,
                    mark,
                    to: 1,
                },
            )?;
            Ok(Some(text))
        }
        Err(_packet) => Ok(None),
    }
}

/// The text of a move's first piece, which has no chunks.
fn put_shown(alloc: Global) -> Result<Text, NoMemory> {
    let piece = Piece {
        chunks: Chunks::open(alloc),
        total: 0,
        newest: 1,
        last: true,
    };
    let piece = Boxed::new(alloc, piece)?;
    shown(
        alloc,
        Msg::Put {
            op: 4,
            piece,
            first: true,
        },
    )
}

#[test]
fn messages_and_notes_are_small(rt: HostRuntime) -> Result<(), Fail> {
    assert_eq!(rt; size_of::<Msg>(), 48);
    assert_eq!(rt; size_of::<Note>(), 24);
    assert_eq!(rt; size_of::<KeptUnits>(), 16);
    Ok(())
}

#[test]
fn kept_units_are_those_of_the_chunks_that_have_one(rt: HostRuntime) -> Result<(), Fail> {
    let alloc = rt.alloc();
    let flow = Some(Unit::Flow(FLOW));
    let host = Some(Unit::Host(0x0a00_0007));
    let cases: [(&[Option<Unit>], &[Unit]); 6] = [
        (&[], &[]),
        (&[None], &[]),
        (&[flow], &[Unit::Flow(FLOW)]),
        (&[host], &[Unit::Host(0x0a00_0007)]),
        (&[host, None], &[Unit::Host(0x0a00_0007)]),
        (
            &[host, None, flow],
            &[Unit::Host(0x0a00_0007), Unit::Flow(FLOW)],
        ),
    ];
    for (units, wanted) in cases {
        assert_kept(&rt, alloc, units, wanted)?;
    }
    Ok(())
}

/// Asserts that the kept units of chunks of some units are the wanted ones.
fn assert_kept(
    rt: &impl Abort,
    alloc: Global,
    units: &[Option<Unit>],
    wanted: &[Unit],
) -> Result<(), NoMemory> {
    let kept = kept_of(alloc, units)?;
    assert_eq!(rt; kept.list(alloc)?.items(), wanted);
    assert_eq!(rt; kept.count(), wanted.len());
    Ok(())
}

/// The kept units of chunks of these units.
fn kept_of(alloc: Global, units: &[Option<Unit>]) -> Result<KeptUnits, NoMemory> {
    let chunks = chunks_of(alloc, units)?;
    KeptUnits::of(alloc, chunks.items())
}

/// Chunks without bytes, of these units.
fn chunks_of(alloc: Global, units: &[Option<Unit>]) -> Result<Chunks, NoMemory> {
    let mut chunks = Chunks::open(alloc);
    push_each(&mut chunks, alloc, units)?;
    Ok(chunks)
}

/// Puts a chunk without bytes of each of these units after others.
fn push_each(chunks: &mut Chunks, alloc: Global, units: &[Option<Unit>]) -> Result<(), NoMemory> {
    for unit in units {
        chunks.push(Chunk {
            scope: Scope::PerFlow,
            unit: *unit,
            bytes: ChunkBytes::spelled(Bytes::open(alloc)),
        })?;
    }
    Ok(())
}
