//! The pieces in which a move's chunks are sent.
ghost use Rattle.std.specs.Prelude.{◌≡◌, ◌<◌, ◌^◌, length, take, drop, IfOk, OnOk};
ghost use Rattle.instance_worker.specs.Pieces.{newest_version, piece_of, version_of, whole_of, PieceLaws};

use basics::NoMemory;
use nf_function::{Chunk, Chunks};
use nf_msgs::Piece;
use std::alloc::Global;
use std::collections::VecDeque;

/// The most chunks of a piece.
pub const MOST_CHUNKS: usize = 64;

/// The law of pieces: one after another they are all chunks, none has too many, and the last alone is marked so.
pub fn pieces_are_whole()
    ensures { PieceLaws }
{}

/// What all pieces of chunks say.
#[derive(Clone, Copy, Debug, PartialEq, Eq)]
pub struct WholePieces {
    /// How many chunks there are.
    pub total: u32,
    /// The highest version among them, and at least 1.
    pub newest: u8,
}

impl WholePieces {
    /// What all pieces of these chunks say.
    pub(crate) fn of(chunks: &Chunks) -> Self
        requires { length chunks.now < 2 ^ 32 }
        ensures { result ≡ whole_of chunks.now }
    {
        WholePieces {
            total: chunks.items().len() as u32,
            newest: newest_version(chunks.items()),
        }
    }

    /// A piece with some of the chunks.
    pub(crate) fn piece(self, last: bool, chunks: Chunks) -> Piece
        ensures { result ≡ piece_of self last chunks }
    {
        Piece {
            chunks,
            total: self.total,
            newest: self.newest,
            last,
        }
    }
}

/// The highest version of chunks, and at least 1.
fn newest_version(chunks: &[Chunk]) -> u8
    ensures { result ≡ newest_version chunks.now }
{
    let mut newest = 1;
    for chunk in chunks {
        newest = newest.max(version_of(chunk));
    }
    newest
}

/// The version of a chunk: its first byte.
fn version_of(chunk: &Chunk) -> u8
    ensures { result ≡ version_of chunk.now }
{
    chunk.bytes.first().unwrap_or(0)
}

/// Takes the chunks of one piece from the front of those that are left.
pub(crate) fn next_chunks(alloc: Global, left: &mut VecDeque<Chunk>) -> Result<Chunks, NoMemory>
    requires { MOST_CHUNKS < length left.old.items }
    ensures chunks { IfOk result (λ chunks. chunks ≡ take MOST_CHUNKS left.old.items) }
    ensures left { OnOk result (left.new.items ≡ drop MOST_CHUNKS left.old.items) }
{
    let mut chunks = Chunks::from_vec(Vec::with_capacity(alloc, MOST_CHUNKS)?);
    while chunks.items().len() < MOST_CHUNKS {
        let Some(chunk) = left.pop_front() else {
            unreachable!()
        };
        chunks.push(chunk)?;
    }
    Ok(chunks)
}
