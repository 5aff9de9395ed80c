ghost use Rattle.std.specs.Prelude.{◌≡◌, ◌≤◌, ◌++◌, [], length, Ok, IfOk, OnOk};
ghost use Rattle.journal_file.specs.Format.{journal_bytes, journal_choices};
ghost use Rattle.journal_file.specs.Reading.{journal_of, AnswersWith};

use crate::choices::{push_bytes_of, push_choices_in};
use crate::fault::JournalFault;
use crate::header::{SIZE, count_of, push_header};
use actor_net::Choices;
use basics::{Bytes, NoMemory};
use nf_function::Kind;
use std::alloc::Global;

/// The journal of a run of so many instances of a function.
pub fn write_journal(
    alloc: Global,
    kind: Kind,
    instances: u8,
    choices: &Choices,
) -> Result<Bytes, NoMemory>
    ensures bytes { IfOk result (λ bytes. bytes ≡ journal_bytes kind instances choices.now) }

    // What was written is read again.
    ensures again { length choices.now ≤ journal_choices → IfOk result (λ bytes. journal_of kind instances bytes ≡ Ok choices.now) }
{
    let mut bytes = with_room(alloc, choices.len())?;
    push_journal(&mut bytes, kind, instances, choices)?;
    Ok(bytes)
}

/// No bytes yet, with room for a journal of so many choices.
fn with_room(alloc: Global, choices: usize) -> Result<Bytes, NoMemory>
    ensures { IfOk result (λ bytes. bytes ≡ []) }
{
    let room = choices.saturating_mul(2).saturating_add(SIZE);
    Ok(Bytes::from_vec(Vec::with_capacity(alloc, room)?))
}

/// Puts the bytes of a journal after others.
#[tactic(auto, unfolding(crate::specs::Format::journal_bytes))]
fn push_journal(
    bytes: &mut Bytes,
    kind: Kind,
    instances: u8,
    choices: &Choices,
) -> Result<(), NoMemory>
    ensures { OnOk result (bytes.new ≡ bytes.old ++ journal_bytes kind instances choices.now) }
{
    push_header(bytes, kind, instances, choices.len() as u64)?;
    push_bytes_of(bytes, choices)
}

/// The choices of a journal of so many instances of a function, or the first check of its bytes that fails.
pub fn read_journal(
    alloc: Global,
    bytes: &[u8],
    kind: Kind,
    instances: u8,
) -> Result<Choices, JournalFault>
    ensures value { AnswersWith (journal_of kind instances bytes.now) result }

    // What is read has no other spelling.
    ensures spelled { IfOk result (λ choices. bytes.now ≡ journal_bytes kind instances choices) }
{
    journal_of(alloc, bytes, kind, instances)
}

/// The choices of a journal, check by check.
#[tactic(auto, unfolding(crate::specs::Reading::journal_of))]
fn journal_of(
    alloc: Global,
    bytes: &[u8],
    kind: Kind,
    instances: u8,
) -> Result<Choices, JournalFault>
    ensures { AnswersWith (journal_of kind instances bytes.now) result }
{
    let count = count_of(bytes, kind, instances)?;
    let rest = &bytes[SIZE..];
    let wanted = 2 * count as usize;
    if rest.len() < wanted {
        return Err(JournalFault::Short);
    }
    if rest.len() > wanted {
        return Err(JournalFault::Extra);
    }
    let mut choices = Choices::with_capacity(alloc, count as usize)?;
    push_choices_in(&mut choices, rest)?;
    Ok(choices)
}
