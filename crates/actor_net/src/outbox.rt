//! What one step sends and notes.
ghost use Rattle.std.specs.Prelude.{◌≡◌, ◌==◌, [], ◌∷◌, ◌++◌, length, not, OnOk, OnErr, MatchOption, IfNone};

use basics::NoMemory;
use std::alloc::Global;
use std::collections::VecDeque;
use std::marker::Model;

/// What a step sends and notes. Contracts see two lists: what was sent, each message with its receiver, and the notes.
/// A world's outbox stays over all steps: what was sent leaves it after each of them, and the notes stay as the log.
#[derive(Drop)]
pub struct Outbox<M, N> {
    sent: VecDeque<(u8, M)>,
    notes: Vec<N>,
}

impl<M, N> Model for Outbox<M, N> {
    ghost use Rattle.std.specs.Prelude.{List, ℕ};

    ghost Value = { List (ℕ × M) × List N };

    ghost view = { λ o. (o.sent.items, o.notes.items) };
}

impl<M, N> Outbox<M, N> {
    /// Nothing sent and nothing noted. This takes no memory.
    pub fn open(alloc: Global) -> Self
        ensures { result ≡ ([], []) }
    {
        Outbox {
            sent: VecDeque::new(alloc),
            notes: Vec::new(alloc),
        }
    }

    /// Nothing sent, after these notes. This takes no memory.
    pub(crate) fn with_notes(alloc: Global, notes: Vec<N>) -> Self
        ensures { result ≡ ([], notes.items) }
    {
        Outbox {
            sent: VecDeque::new(alloc),
            notes,
        }
    }

    /// Sends a message to a node, after what was sent before.
    #[inline(always)]
    pub fn send(&mut self, to: u8, message: M) -> Result<(), NoMemory>
    where
        M: Drop,
        ensures ok { OnOk result (self.new ≡ (self.old.0 ++ (to, message) ∷ [], self.old.1)) }
        ensures err { OnErr result (self.new ≡ self.old) }
    {
        if self.sent.len() == self.sent.capacity() {
            self.sent.reserve(1)?;
        }
        self.sent.push_back_reserved((to, message));
        Ok(())
    }

    /// Notes something, after what was noted before.
    #[inline(always)]
    pub fn note(&mut self, note: N) -> Result<(), NoMemory>
    where
        N: Drop,
        ensures ok { OnOk result (self.new ≡ (self.old.0, self.old.1 ++ note ∷ [])) }
        ensures err { OnErr result (self.new ≡ self.old) }
    {
        if self.notes.len() == self.notes.capacity() {
            self.notes.reserve(1)?;
        }
        self.notes.push_reserved(note);
        Ok(())
    }

    /// The notes, in the order in which they were made.
    pub(crate) fn notes(&self) -> &[N]
        ensures { result.now ≡ self.now.1 }
    {
        self.notes.as_slice()
    }

    /// What was sent and what was noted, without a copy.
    pub fn parts(self) -> (Vec<(u8, M)>, Vec<N>)
        ensures sent { result.0.items ≡ self.0 }
        ensures notes { result.1.items ≡ self.1 }
    {
        (self.sent.into_vec(), self.notes)
    }

    /// Whether something was sent that isn't taken out.
    #[inline(always)]
    pub(crate) fn has_sent(&self) -> bool
        ensures { result ≡ not (length self.now.0 == 0) }
    {
        !self.sent.is_empty()
    }

    /// The first of what was sent, taken out. Its place is used again.
    #[inline(always)]
    pub fn next_sent(&mut self) -> Option<(u8, M)>
        ensures sent { MatchOption result (self.old.0 ≡ []) (λ x. self.old.0 ≡ x ∷ self.new.0) }
        ensures none { IfNone result (self.new.0 ≡ []) }
        ensures notes { self.new.1 ≡ self.old.1 }
    {
        self.sent.pop_front()
    }

    /// Moves the notes to the end of a log. Their places are used again. Most steps have none.
    #[inline(always)]
    pub fn move_notes(&mut self, log: &mut Vec<N>) -> Result<(), NoMemory>
        ensures log { OnOk result (log.new.items ≡ log.old.items ++ self.old.1) }
        ensures notes { OnOk result (self.new ≡ (self.old.0, [])) }
        ensures err { OnErr result ((log.new.items ≡ log.old.items) × (self.new ≡ self.old)) }
    {
        if self.notes.is_empty() {
            return Ok(());
        }
        log.append(&mut self.notes)
    }

    /// Drops what was sent, and keeps the room and the notes.
    #[cold]
    #[inline(never)]
    pub(crate) fn drop_sent(&mut self)
    where
        M: Drop,
        ensures { self.new ≡ ([], self.old.1) }
    {
        self.sent.clear();
    }

    /// Drops what was sent and noted, and keeps the room.
    #[inline]
    pub fn clear(&mut self)
    where
        M: Drop,
        N: Drop,
        ensures { self.new ≡ ([], []) }
    {
        self.sent.truncate(0);
        self.notes.clear();
    }
}
