//! Generated captures.
ghost use Rattle.std.specs.Prelude.{◌≡◌, ◌≤◌, ℕ, Err};
ghost use Rattle.nf_io.specs.Meaning.{Rose, StaysOpen, untouched};
ghost use Rattle.flow_filter.specs.Limits.{most_packets, most_hosts};
ghost use Rattle.trace_reader.specs.Records.{capture_of};
ghost use Rattle.trace_reader.specs.Making.{Makes, IsReadWhole};
ghost use Rattle.trace_reader.specs.Generated.{capture};

use crate::encode::file_header;
use crate::piece::{PIECE_RECORDS, Piece};
use basics::NoMemory;
use nf_io::{Failed, Sink, write_all};
use rand_core::SeedableRng;
use rand_xoshiro::SplitMix64;
use std::alloc::Global;
use thiserror::Error;

/// Why a capture wasn't made.
#[derive(Clone, Copy, Debug, PartialEq, Eq, Error)]
pub enum MakeFault {
    #[error("the outside failed")]
    Write,
    #[error("out of memory")]
    NoMemory,
}

impl From<Failed> for MakeFault {
    ghost use Rattle.std.specs.Prelude.{◌≡◌};
    ghost use Rattle.trace_reader.specs.declared.make.MakeFault.TheVariants.{Write};

    ghost from_gives = { λ _ e. e ≡ Write };

    fn from(_: Failed) -> Self {
        MakeFault::Write
    }
}

impl From<NoMemory> for MakeFault {
    ghost use Rattle.std.specs.Prelude.{◌≡◌};
    ghost use Rattle.trace_reader.specs.declared.make.MakeFault.TheVariants.{NoMemory};

    ghost from_gives = { λ _ e. e ≡ NoMemory };

    fn from(_: NoMemory) -> Self {
        MakeFault::NoMemory
    }
}

/// Writes the capture of so many packets and hosts inside that is drawn from a number. All memory is taken before the first byte is
/// written.
pub fn make_trace<S: Sink>(
    alloc: Global,
    number: u64,
    packets: u32,
    hosts: u32,
    sink: &mut S,
) -> Result<(), MakeFault>
    requires open { S.IsOpen sink.old }
    requires packets { (1 ≤ packets) × (packets ≤ most_packets) }
    requires hosts { (1 ≤ hosts) × (hosts ≤ most_hosts) }
    ensures bytes { Makes (capture number packets hosts) (S.written sink.old) (S.written sink.new) result }
    ensures later { S.faults sink.old ≤ S.faults sink.new }
    ensures cause { result ≡ Err MakeFault.Write → Rose (S.faults sink.old) (S.faults sink.new) }
    ensures stays { StaysOpen S.IsOpen (untouched S.loan S.rest) sink.old sink.new }
{
    let mut piece = Piece::open(alloc)?;
    write_all(sink, &file_header())?;
    let mut words = SplitMix64::seed_from_u64(number);
    let mut made = 0;
    while made < packets {
        let count = PIECE_RECORDS.min(packets - made);
        piece.fill(made + 1, count, hosts, &mut words);
        write_all(sink, piece.bytes())?;
        made += count;
    }
    Ok(())
}

/// A law of generated captures: each is read whole, with all its packets steered.
pub fn made_captures()
    ensures { (number packets hosts : ℕ) → packets ≤ most_packets → IsReadWhole packets (capture_of (capture number packets hosts)) }
{}
