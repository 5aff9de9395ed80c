//! What rounds did, put in order: the choices and the log.
ghost use Rattle.std.specs.Prelude.{◌≡◌, ◌++◌, List, ◌∷◌, IfOk, OnOk};
ghost use Rattle.actor_net.specs.Histories.{notes_of_choices};
ghost use Rattle.actor_net.specs.declared.choice.Choice.{Choice};
ghost use Rattle.actor_threads.specs.LinkTable.{row_at};

use crate::notes::NoteQueue;
use actor_net::{Choice, Choices, History, merge};
use basics::NoMemory;
use std::alloc::Global;

/// What the workers did in a round: a history for each, and the notes of its steps.
#[derive(Drop)]
pub(crate) struct Unmerged<N> {
    pub(crate) histories: Vec<History>,
    pub(crate) notes: Vec<NoteQueue<N>>,
}

/// The choices of rounds, and the log after them.
#[derive(Drop)]
pub(crate) struct Merged<N> {
    pub(crate) choices: Choices,
    pub(crate) log: Vec<N>,
}

impl<N: Drop> Merged<N> {
    ghost use Rattle.std.specs.Prelude.{◌≡◌, [], IfOk};
    ghost use Rattle.actor_threads.specs.Round.{MergesMore};

    /// No round yet, and the log before the first.
    pub(crate) fn open(alloc: Global, log: Vec<N>) -> Self
        ensures { (result.choices ≡ []) × (result.log ≡ log) }
    {
        Merged {
            choices: Choices::open(alloc),
            log,
        }
    }

    /// Adds what was done in one more round.
    pub(crate) fn add(self, alloc: Global, unmerged: Unmerged<N>) -> Result<Self, NoMemory>
        ensures { IfOk result (λ all. MergesMore unmerged self all) }
    {
        let Unmerged {
            histories,
            mut notes,
        } = unmerged;
        let Merged { choices, mut log } = self;
        let more = merge(alloc, histories.as_slice())?;
        deal_all(&more, &mut notes, &mut log)?;
        Ok(Merged {
            choices: join(choices, more)?,
            log,
        })
    }
}

/// The notes of all nodes, in the order of the choices.
fn deal_all<N: Drop>(
    choices: &Choices,
    notes: &mut Vec<NoteQueue<N>>,
    log: &mut Vec<N>,
) -> Result<(), NoMemory>
    ensures { OnOk result (log.new.items ≡ log.old.items ++ notes_of_choices (λ j. row_at notes.old.items j) choices.now) }
{
    for choice in choices.iter() {
        deal_one(choice, notes, log)?;
    }
    Ok(())
}

/// The notes of one step. They are the next of its node's.
fn deal_one<N: Drop>(
    choice: Choice,
    notes: &mut Vec<NoteQueue<N>>,
    log: &mut Vec<N>,
) -> Result<(), NoMemory>
    ensures { OnOk result ((cs : List Choice) → log.new.items ++ notes_of_choices (λ j. row_at notes.new.items j) cs
        ≡ log.old.items ++ notes_of_choices (λ j. row_at notes.old.items j) (choice ∷ cs)) }
{
    let node = choice.node as usize;
    if node >= notes.len() {
        return Ok(());
    }
    notes[node].deal(log)?;
    Ok(())
}

/// Choices, and after them more.
fn join(choices: Choices, more: Choices) -> Result<Choices, NoMemory>
    ensures { IfOk result (λ all. all ≡ choices ++ more) }
{
    if choices.is_empty() {
        return Ok(more);
    }
    let mut all = choices;
    all.append(&more)?;
    Ok(all)
}
