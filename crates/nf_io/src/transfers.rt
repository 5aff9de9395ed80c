ghost use Rattle.std.specs.Prelude.{◌≡◌, ◌+◌, ◌≤◌, Some, IfOk, MatchResult, length, take, drop};
ghost use Rattle.std.specs.Option.{ForSome};
ghost use Rattle.std.specs.Io.KnownBytes.{Appends};
ghost use Rattle.nf_io.specs.Meaning.{AppendsFront, HasCause, StaysOpen, untouched};
ghost use Rattle.nf_io.specs.Transfers.{HasUptoCause};

use crate::outside::Failed;
use crate::streams::{Sink, Source};
use basics::{Bytes, NoMemory};
use std::alloc::Global;
use thiserror::Error;

/// How many bytes `read_upto` asks for at once.
const PIECE: usize = 8_192;

/// Why `read_upto` gave up.
#[derive(Clone, Copy, Debug, PartialEq, Eq, Error)]
pub enum UptoFault {
    #[error("the outside failed")]
    Failed,
    #[error("out of memory")]
    NoMemory,
}

impl From<Failed> for UptoFault {
    ghost use Rattle.std.specs.Prelude.{◌≡◌};
    ghost use Rattle.nf_io.specs.declared.transfers.UptoFault.TheVariants.{Failed as GaveUp};

    ghost from_gives = { λ _ e. e ≡ GaveUp };

    fn from(_: Failed) -> Self {
        UptoFault::Failed
    }
}

impl From<NoMemory> for UptoFault {
    ghost use Rattle.std.specs.Prelude.{◌≡◌};
    ghost use Rattle.nf_io.specs.declared.transfers.UptoFault.TheVariants.{NoMemory};

    ghost from_gives = { λ _ e. e ≡ NoMemory };

    fn from(_: NoMemory) -> Self {
        UptoFault::NoMemory
    }
}

/// Appends all the bytes. After `Failed` a front of them is appended.
pub fn write_all<S: Sink>(sink: &mut S, bytes: &[u8]) -> Result<(), Failed>
    requires { S.IsOpen sink.old }
    ensures bytes { MatchResult result (λ _. Appends (S.written sink.old) (S.written sink.new) bytes.now)
        (λ _. AppendsFront (S.written sink.old) (S.written sink.new) bytes.now) }
    ensures cause { HasCause (S.faults sink.old) (S.faults sink.new) result }
    ensures stays { StaysOpen S.IsOpen (untouched S.loan S.rest) sink.old sink.new }
{
    let mut at = 0;
    while at < bytes.len() {
        at += sink.write(&bytes[at..])?;
    }
    Ok(())
}

/// Takes all bytes left where they are at most `most`, else the first `most + 1`.
pub fn read_upto<S: Source>(alloc: Global, source: &mut S, most: u64) -> Result<Bytes, UptoFault>
    requires { S.IsOpen source.old }
    ensures bytes { ForSome (S.left source.old) (λ bytes. IfOk result (λ found.
        (found ≡ take (most + 1) bytes) × (S.left source.new ≡ Some (drop (most + 1) bytes)))) }
    ensures bound { IfOk result (λ found. length found ≤ most + 1) }
    ensures cause { HasUptoCause (S.faults source.old) (S.faults source.new) result }
    ensures stays { StaysOpen S.IsOpen (untouched S.loan S.rest) source.old source.new }
{
    let mut found = Vec::new(alloc);
    let mut piece = [0; PIECE];
    let mut left = most;
    loop {
        let room = left.min(PIECE as u64 - 1) as usize + 1;
        let taken = source.read(&mut piece[..room])?;
        found.extend_from_slice(&piece[..taken])?;
        if taken == 0 || taken as u64 > left {
            return Ok(Bytes::from_vec(found));
        }
        left -= taken as u64;
    }
}
