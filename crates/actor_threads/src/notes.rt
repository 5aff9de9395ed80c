//! What the steps of a worker noted.
ghost use Rattle.std.specs.Prelude.{◌≡◌, ◌≤◌, ◌+◌, [], ◌∷◌, ◌++◌, length, take, drop, OnOk, OnErr, MatchOption};
ghost use Rattle.actor_net.specs.Histories.{without_first_list, first_list};

use actor_net::Outbox;
use basics::NoMemory;
use std::alloc::Global;
use std::collections::VecDeque;
use std::marker::Model;

/// Steps that noted nothing, and how much the step after them noted.
#[derive(Clone, Copy, Debug)]
struct Run {
    silent: u32,
    count: u32,
}

/// How much each step noted. A step that noted nothing takes no memory.
#[derive(Drop)]
struct Counts {
    runs: Vec<Run>,
    /// How many steps after the last run noted nothing.
    silent: u32,
}

impl Model for Counts {
    ghost use Rattle.std.specs.Prelude.{List, ℕ};

    ghost Value = { List ℕ };

    ghost use Rattle.actor_threads.specs.NoteCounts.{counts_of};

    ghost view = { λ s. counts_of s.runs.items s.silent };
}

impl Counts {
    /// No step yet. This takes no memory.
    fn open(alloc: Global) -> Self
        ensures { result ≡ [] }
    {
        Counts {
            runs: Vec::new(alloc),
            silent: 0,
        }
    }

    /// Adds the count of one more step.
    #[inline(always)]
    fn push(&mut self, count: u32) -> Result<(), NoMemory>
        ensures ok { OnOk result (self.new ≡ self.old ++ count ∷ []) }
        ensures err { OnErr result (self.new ≡ self.old) }
    {
        if count == 0 && self.silent < u32::MAX {
            self.silent += 1;
            return Ok(());
        }
        let silent = self.silent;
        self.runs.push(Run { silent, count })?;
        self.silent = 0;
        Ok(())
    }

    /// The counts, to be given out.
    fn into_queue(self) -> CountQueue
        ensures { result ≡ self }
    {
        CountQueue {
            runs: VecDeque::from_vec(self.runs),
            silent: self.silent,
        }
    }
}

/// Counts that are given out from the first on.
#[derive(Drop)]
struct CountQueue {
    runs: VecDeque<Run>,
    silent: u32,
}

impl Model for CountQueue {
    ghost use Rattle.std.specs.Prelude.{List, ℕ};

    ghost Value = { List ℕ };

    ghost use Rattle.actor_threads.specs.NoteCounts.{counts_of};

    ghost view = { λ s. counts_of s.runs.items s.silent };
}

impl CountQueue {
    /// The count of the next step, where one is left.
    fn pop(&mut self) -> Option<u32>
        ensures { MatchOption result ((self.old ≡ []) × (self.new ≡ [])) (λ count. self.old ≡ count ∷ self.new) }
    {
        let Some(Run { silent, count }) = self.runs.pop_front() else {
            if self.silent == 0 {
                return None;
            }
            self.silent -= 1;
            return Some(0);
        };
        if silent > 0 {
            let silent = silent - 1;
            self.runs.push_front_reserved(Run { silent, count });
            return Some(0);
        }
        Some(count)
    }
}

/// The notes of steps: a list for each step, in order.
#[derive(Drop)]
pub struct Notes<N> {
    counts: Counts,
    all: Vec<N>,
}

impl<N> Model for Notes<N> {
    ghost use Rattle.std.specs.Prelude.{◌≡◌, List, length, sum};

    ghost Value = { List (List N) };

    ghost use Rattle.actor_threads.specs.NoteCounts.{by_counts};

    ghost view = { λ s. by_counts s.counts s.all.items };

    ghost invariant = { λ s. sum s.counts ≡ length s.all.items };
}

impl<N: Drop> Notes<N> {
    /// No step yet.
    pub fn open(alloc: Global) -> Self
        ensures { result ≡ [] }
    {
        Notes {
            counts: Counts::open(alloc),
            all: Vec::new(alloc),
        }
    }

    /// Moves what a step noted to the end of what the steps before it noted.
    #[inline(always)]
    pub fn add<M>(&mut self, out: &mut Outbox<M, N>) -> Result<(), NoMemory>
        ensures list { OnOk result (self.new ≡ self.old ++ out.old.1 ∷ []) }
        ensures sent { out.new.0 ≡ out.old.0 }
    {
        let before = self.all.len();
        out.move_notes(&mut self.all)?;
        let Ok(count) = u32::try_from(self.all.len() - before) else {
            self.all.truncate(before);
            return Err(NoMemory);
        };
        if let Err(fault) = self.counts.push(count) {
            self.all.truncate(before);
            return Err(fault);
        }
        Ok(())
    }

    /// The notes, to be given out again step by step.
    pub fn into_queue(self) -> NoteQueue<N>
        ensures { result ≡ self }
    {
        NoteQueue {
            counts: self.counts.into_queue(),
            all: VecDeque::from_vec(self.all),
        }
    }
}

/// Notes that are given out step by step.
#[derive(Drop)]
pub struct NoteQueue<N> {
    counts: CountQueue,
    all: VecDeque<N>,
}

impl<N> Model for NoteQueue<N> {
    ghost use Rattle.std.specs.Prelude.{◌≤◌, List, length, sum};

    ghost Value = { List (List N) };

    ghost use Rattle.actor_threads.specs.NoteCounts.{by_counts};

    ghost view = { λ s. by_counts s.counts s.all.items };

    ghost invariant = { λ s. sum s.counts ≤ length s.all.items };
}

impl<N: Drop> NoteQueue<N> {
    /// Moves the notes of the next step to the end of a log.
    pub fn deal(&mut self, log: &mut Vec<N>) -> Result<(), NoMemory>
        ensures queue { OnOk result (self.new ≡ without_first_list self.old) }
        ensures log { OnOk result (log.new.items ≡ log.old.items ++ first_list self.old) }
    {
        let Some(count) = self.counts.pop() else {
            return Ok(());
        };
        give(&mut self.all, count, log)
    }
}

/// Moves the first notes of a queue to the end of a log. At most so many leave the queue, also where memory runs out.
fn give<N: Drop>(all: &mut VecDeque<N>, count: u32, log: &mut Vec<N>) -> Result<(), NoMemory>
    requires { count ≤ length all.old.items }
    ensures all { OnOk result (all.new.items ≡ drop count all.old.items) }
    ensures log { OnOk result (log.new.items ≡ log.old.items ++ take count all.old.items) }
    ensures err { length all.old.items ≤ length all.new.items + count }
{
    for _ in 0..count {
        match all.pop_front() {
            Some(note) => log.push(note)?,
            None => unreachable!(),
        }
    }
    Ok(())
}
