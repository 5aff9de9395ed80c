//! Records that are written at once.
ghost use Rattle.std.specs.Prelude.{◌≡◌, ◌≤◌, ◌<◌, ◌+◌, ◌++◌, ◌^◌, ℕ, [], vec_len, IfOk};
ghost use Rattle.trace_reader.specs.declared.piece.TheConstants.{PIECE_BYTES};
ghost use Rattle.flow_filter.specs.Limits.{most_hosts};

use crate::drawn::Drawn;
use crate::encode::{LONGEST_RECORD, write_record};
use basics::NoMemory;
use rand_core::utils::NextWord;
use rand_xoshiro::SplitMix64;
use std::alloc::Global;

/// How many records a piece has at most.
pub(crate) const PIECE_RECORDS: u32 = 1000;

/// How many bytes it has room for.
const PIECE_BYTES: usize = PIECE_RECORDS as usize * LONGEST_RECORD;

/// Records one after the other. The bytes before `used` are theirs.
#[derive(Drop)]
pub(crate) struct Piece {
    bytes: Vec<u8>,
    used: usize,
    ghost size: { vec_len bytes ≡ PIECE_BYTES },
    ghost within: { used ≤ PIECE_BYTES },
}

impl Piece {
    ghost use Rattle.rand_core.specs.Steps.{first_words};
    ghost use Rattle.rand_xoshiro.specs.SplitMix64.{mix_u64};
    ghost use Rattle.trace_reader.specs.Generated.{records, record_bytes, payload_lengths};
    ghost use Rattle.trace_reader.specs.Pieces.{piece_bytes};

    /// A piece without records.
    pub(crate) fn open(alloc: Global) -> Result<Piece, NoMemory>
        ensures { IfOk result (λ piece. piece_bytes piece ≡ []) }
    {
        let bytes = Vec::from_elem(alloc, 0, PIECE_BYTES)?;
        Ok(Piece { bytes, used: 0 })
    }

    /// Puts the records of so many packets with the numbers from `first` on in place of those that it has, and draws their words.
    pub(crate) fn fill(&mut self, first: u32, count: u32, hosts: u32, words: &mut SplitMix64)
        requires few { count ≤ PIECE_RECORDS }
        requires numbers { first + count < 2 ^ 32 }
        requires hosts { (1 ≤ hosts) × (hosts ≤ most_hosts) }

        // The records of these packets, and then those of any number of packets after them.
        ensures { (more : ℕ) → records hosts first (first_words mix_u64 (count + more) words.old)
            ≡ piece_bytes self.new ++ records hosts (first + count) (first_words mix_u64 more words.new) }
    {
        self.used = 0;
        for number in first..first + count {
            let drawn = Drawn::of(words.next_word(), hosts);
            self.push(number, &drawn);
        }
    }

    /// Puts one more record after those that it has.
    fn push(&mut self, number: u32, drawn: &Drawn)
        requires room { self.old.used + LONGEST_RECORD ≤ PIECE_BYTES }
        requires payload { drawn.now.payload < payload_lengths }
        ensures bytes { piece_bytes self.new ≡ piece_bytes self.old ++ record_bytes number drawn.now }
        ensures used { self.new.used ≤ self.old.used + LONGEST_RECORD }
    {
        let end = self.used + LONGEST_RECORD;
        self.used += write_record(&mut self.bytes[self.used..end], number, drawn);
    }

    /// The bytes of the records.
    pub(crate) fn bytes(&self) -> &[u8]
        ensures { result.now ≡ piece_bytes self.now }
    {
        &self.bytes[..self.used]
    }
}
