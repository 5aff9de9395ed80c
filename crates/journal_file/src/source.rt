ghost use Rattle.std.specs.Prelude.{◌≤◌, ◌<◌, drop, length, IfOk};
ghost use Rattle.std.specs.Option.{ForSome};
ghost use Rattle.nf_io.specs.Meaning.{StaysOpen, untouched};
ghost use Rattle.journal_file.specs.Format.{journal_choices};
ghost use Rattle.journal_file.specs.Reading.{journal_of, count_of, looked_at, GivesFrom, HasReadCause};
ghost use Rattle.journal_file.specs.Pieces.{piece_size, TakesBytes, TakesChoices};

use crate::choices::push_choices_in;
use crate::fault::JournalFault;
use crate::header::{SIZE, count_of};
use actor_net::Choices;
use basics::Bytes;
use nf_function::Kind;
use nf_io::{Source, read_upto};
use std::alloc::Global;

/// How many choices are read at once.
const PIECE: u64 = 4_096;

/// The choices of the journal that a source gives, or the first check of its bytes that fails.
pub fn read_journal_from<S: Source>(
    alloc: Global,
    source: &mut S,
    kind: Kind,
    instances: u8,
) -> Result<Choices, JournalFault>
    requires { S.IsOpen source.old }

    // Its answer is that of the bytes left, and none after the first part that shows a fault is taken.
    ensures value { ForSome (S.left source.old) (λ bytes.
        GivesFrom (journal_of kind instances bytes) (drop (looked_at (count_of kind instances bytes)) bytes) (S.left source.new) result) }
    ensures cause { HasReadCause (S.faults source.old) (S.faults source.new) result }
    ensures stays { StaysOpen S.IsOpen (untouched S.loan S.rest) source.old source.new }
{
    let header = first_bytes(alloc, source, SIZE as u64)?;
    let count = count_of(header.items(), kind, instances)?;
    let choices = take_choices(alloc, source, count)?;
    if !first_bytes(alloc, source, 1)?.items().is_empty() {
        return Err(JournalFault::Extra);
    }
    Ok(choices)
}

/// Takes that many choices, piece by piece.
fn take_choices<S: Source>(
    alloc: Global,
    source: &mut S,
    count: u64,
) -> Result<Choices, JournalFault>
    requires open { S.IsOpen source.old }
    requires bound { count ≤ journal_choices }
    ensures value { ForSome (S.left source.old) (λ bytes. TakesChoices count bytes (S.left source.new) result) }
    ensures cause { HasReadCause (S.faults source.old) (S.faults source.new) result }
    ensures stays { StaysOpen S.IsOpen (untouched S.loan S.rest) source.old source.new }
{
    let mut choices = Choices::open(alloc);
    let mut done = 0;
    while done < count {
        let wanted = (count - done).min(PIECE);
        let piece = first_bytes(alloc, source, 2 * wanted)?;
        if (piece.items().len() as u64) < 2 * wanted {
            return Err(JournalFault::Short);
        }
        push_choices_in(&mut choices, piece.items())?;
        done += wanted;
    }
    Ok(choices)
}

/// Takes the next bytes: so many, or as many as there are left.
fn first_bytes<S: Source>(alloc: Global, source: &mut S, wanted: u64) -> Result<Bytes, JournalFault>
    requires open { S.IsOpen source.old }
    requires some { 0 < wanted }
    requires few { wanted ≤ piece_size }
    ensures value { ForSome (S.left source.old) (λ bytes. TakesBytes wanted bytes (S.left source.new) result) }
    ensures bound { IfOk result (λ found. length found ≤ wanted) }
    ensures cause { HasReadCause (S.faults source.old) (S.faults source.new) result }
    ensures stays { StaysOpen S.IsOpen (untouched S.loan S.rest) source.old source.new }
{
    Ok(read_upto(alloc, source, wanted - 1)?)
}
