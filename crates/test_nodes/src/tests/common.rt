//! What several of these tests use: messages by their words, and what was sent as a text.
use actor_net::Outbox;
use basics::{Boxed, Bytes, NoMemory, Text};
use event_filter::Mark;
use flow_filter::{Filter, Packet};
use nf_function::{Chunk, ChunkBytes, Chunks, Scope};
use nf_msgs::{Answer, Command, Msg, Note, Order, Piece, Refused, print_answer, show};
use std::alloc::Global;
use std::test::Fail;
use test_packets::{names, packet, parcel, two_names};

/// The packet with number 5 of 10.0.0.1.
fn fifth() -> Packet {
    packet(5, 1, 5000)
}

/// A node and the message of what it says of an operation: a digit and a word.
pub(crate) fn said(alloc: Global, op: u32, words: &str) -> Result<(u8, Msg), Fail> {
    let Some((digit, word)) = words.split_once(' ') else {
        return Err("no word".into());
    };
    let [node @ b'0'..=b'9'] = digit.as_bytes() else {
        return Err("no node".into());
    };
    Ok((node - b'0', message_of(alloc, op, word)?))
}

/// The message of a word. A piece comes with `piece`, and the last one with `last`; chunks come with `chunks`, and none of them with `nothing`.
fn message_of(alloc: Global, op: u32, word: &str) -> Result<Msg, Fail> {
    match word {
        "move" => move_of(alloc, op),
        "share" => share_of(alloc, op),
        "piece" => piece(alloc, op, false),
        "last" => piece(alloc, op, true),
        "no" => refusal(alloc, op),
        "event" => event(alloc, op),
        "diverted" => diverted(alloc),
        "chunks" => one_chunk(alloc, op),
        "nothing" => Ok(no_chunks(alloc, op)),
        "shared" => shared(alloc, op),
        _ => plain_message(op, word),
    }
}

/// The message of a word that brings no more than its number. With `first` and `second` a packet comes of which no message tells.
fn plain_message(op: u32, word: &str) -> Result<Msg, Fail> {
    match word {
        "enabled" => Ok(Msg::Enabled { op }),
        "deleted" => Ok(Msg::Deleted { op }),
        "ok" => Ok(Msg::PutOk { op }),
        "restored" => Ok(Msg::Restored { op }),
        "fenced" => Ok(Msg::Fenced { op }),
        "kept" => Ok(Msg::Kept { op }),
        "synced" => Ok(Msg::Synced { op }),
        "end" => Ok(Msg::End),
        "final" | "first" | "second" => Ok(Msg::Final),
        _ => Err("no message".into()),
    }
}

/// A command of the operation.
fn asked(alloc: Global, op: u32, what: Order) -> Result<Msg, Fail> {
    Ok(Msg::Asked(Boxed::new(alloc, Command { op, what })?))
}

/// A command to move everything from a to b, in any order of packets.
fn move_of(alloc: Global, op: u32) -> Result<Msg, Fail> {
    let (src, dst) = two_names(alloc, b'b')?;
    let what = Order::Move {
        src,
        dst,
        filter: Filter::ANY,
        keep: false,
    };
    asked(alloc, op, what)
}

/// A command to share everything between a and b.
fn share_of(alloc: Global, op: u32) -> Result<Msg, Fail> {
    let what = Order::Share {
        members: names(alloc)?,
        filter: Filter::ANY,
    };
    asked(alloc, op, what)
}

/// The event of a packet.
fn event(alloc: Global, op: u32) -> Result<Msg, Fail> {
    let parcel = parcel(alloc, fifth())?;
    Ok(Msg::Event { op, parcel })
}

/// A packet whose target is the controller.
fn diverted(alloc: Global) -> Result<Msg, Fail> {
    Ok(Msg::Diverted(parcel(alloc, fifth())?))
}

/// The refusal of a piece.
fn refusal(alloc: Global, op: u32) -> Result<Msg, Fail> {
    let refused = Refused {
        why: Answer::Import {
            held: 2,
            coming: 3,
            limit: 4,
        },
        chunks: Chunks::open(alloc),
    };
    let refused = Boxed::new(alloc, refused)?;
    Ok(Msg::PutNo { op, refused })
}

/// A chunk without bytes.
fn chunk(alloc: Global) -> Chunk {
    Chunk {
        scope: Scope::PerFlow,
        unit: None,
        bytes: ChunkBytes::spelled(Bytes::open(alloc)),
    }
}

/// The chunks of a copy or a share: one without bytes.
fn one_chunk(alloc: Global, op: u32) -> Result<Msg, Fail> {
    let mut chunks = Chunks::open(alloc);
    chunks.push(chunk(alloc))?;
    Ok(Msg::Chunks { op, chunks })
}

/// The same where there are none.
fn no_chunks(alloc: Global, op: u32) -> Msg {
    let chunks = Chunks::open(alloc);
    Msg::Chunks { op, chunks }
}

/// The chunk of a packet of a share.
fn shared(alloc: Global, op: u32) -> Result<Msg, Fail> {
    let chunk = Boxed::new(alloc, chunk(alloc))?;
    Ok(Msg::Shared { op, chunk })
}

/// A piece without chunks, which may be the last.
fn piece(alloc: Global, op: u32, last: bool) -> Result<Msg, Fail> {
    let piece = Piece {
        chunks: Chunks::open(alloc),
        total: 0,
        newest: 1,
        last,
    };
    let piece = Boxed::new(alloc, piece)?;
    Ok(Msg::Piece { op, piece })
}

/// Writes what was sent, each message in a line, and then the answer, if there is one.
pub(crate) fn write_done(
    text: &mut Text,
    alloc: Global,
    out: Outbox<Msg, Note>,
    answer: Option<Answer>,
) -> Result<(), NoMemory> {
    let (messages, notes) = out.parts();
    let written = write_sent(text, alloc, messages.as_slice(), answer.as_ref());
    drop(messages);
    drop(notes);
    drop(answer);
    written
}

/// Writes messages, and then an answer, if there is one.
fn write_sent(
    text: &mut Text,
    alloc: Global,
    messages: &[(u8, Msg)],
    answer: Option<&Answer>,
) -> Result<(), NoMemory> {
    write_messages(text, alloc, messages)?;
    match answer {
        Some(answer) => write_answer(text, alloc, answer),
        None => Ok(()),
    }
}

/// Writes an answer, in a line.
pub(crate) fn write_answer(
    text: &mut Text,
    alloc: Global,
    answer: &Answer,
) -> Result<(), NoMemory> {
    write_line(text, print_answer(alloc, answer)?, b"")
}

/// Writes messages after their receivers, each in a line.
pub(crate) fn write_messages(
    text: &mut Text,
    alloc: Global,
    messages: &[(u8, Msg)],
) -> Result<(), NoMemory> {
    for (receiver, message) in messages {
        text.push_decimal(u64::from(*receiver))?;
        text.push_bytes(b" ")?;
        write_line(text, show(alloc, message)?, said_of_home(message))?;
    }
    Ok(())
}

/// Writes a line of these words, and of more after them.
fn write_line(text: &mut Text, words: Text, more: &[u8]) -> Result<(), NoMemory> {
    text.push_bytes(words.items())?;
    text.push_bytes(more)?;
    text.push_bytes(b"\n")
}

/// What a message says of the home.
fn said_of_home(message: &Msg) -> &'static [u8] {
    match message {
        Msg::Sync { home: true, .. } => b" live",
        Msg::Sync { home: false, .. } => b" standby",
        Msg::Forward { mark, .. } => match mark {
            Mark::Shared { home: true, .. } => b" live",
            Mark::Shared { home: false, .. } => b" standby",
            _ => b" unmarked",
        },
        _ => b"",
    }
}
