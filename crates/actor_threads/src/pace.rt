//! The pace of a round: how many threads its workers take. Where much is under way, groups of workers have a thread each. Where
//! little is, a message that goes from thread to thread waits for the other thread to look, or to wake; then all workers take turns
//! in one thread, and no message waits. What a run comes to doesn't rest on the pace.
ghost use Rattle.std.specs.Prelude.{◌<◌, ◌≤◌};

use std::sync::atomic::{AtomicU64, Ordering};

/// The first group looks at the pace after so many sleeps.
const SLEEPS: u32 = 16;

/// Little is under way where the first group did fewer steps between two sleeps.
const FEW_STEPS: u32 = 64;

/// In one thread the pace is looked at after so many turns, and after twice as many each time that it has changed: a change costs
/// the start of threads, and the wait for them.
const TURNS: u32 = 256;

/// Much is under way where all workers do as many steps in a turn.
const MANY_STEPS: u32 = 128;

/// The number of changes from which on the pace is looked at no more often or rarely.
const MOST_CHANGES: u64 = 12;

/// A round in threads ends where the first group did so many steps. What it did is then merged beside the next round, from memory that
/// the processors still have at hand.
const ROUND_STEPS: u32 = 1 << 16;

/// What the groups of a round know of one another, and the pace at which the next round goes.
#[derive(Drop)]
pub(crate) struct Crew {
    /// How many groups are busy.
    pub(crate) busy: AtomicU64,
    /// Not 0 where all workers share one thread.
    calm: AtomicU64,
    /// Not 0 where the round is to end.
    ending: AtomicU64,
    /// How often the pace has changed.
    changes: AtomicU64,
    /// There is one processor.
    is_narrow: bool,
}

impl Crew {
    /// A crew at the busy pace.
    pub(crate) fn new(is_narrow: bool) -> Self {
        Crew {
            busy: AtomicU64::new(0),
            calm: AtomicU64::new(0),
            ending: AtomicU64::new(0),
            changes: AtomicU64::new(0),
            is_narrow,
        }
    }

    /// A round of so many groups begins.
    pub(crate) fn begin(&self, groups: u64) {
        self.busy.store(groups, Ordering::SeqCst);
        self.ending.store(0, Ordering::SeqCst);
    }

    /// How many of so many workers share the thread of the first.
    pub(crate) fn alone(&self, workers: usize) -> usize
        requires { 0 < workers }
        ensures { (0 < result) × (result ≤ workers) }
    {
        if self.is_calm() { workers } else { 1 }
    }

    /// Whether all workers share one thread.
    pub(crate) fn is_calm(&self) -> bool {
        self.calm.load(Ordering::SeqCst) != 0
    }

    /// Whether the round is to end.
    pub(crate) fn ends(&self) -> bool {
        self.ending.load(Ordering::SeqCst) != 0
    }

    /// Ends the round.
    fn end_round(&self) {
        self.ending.store(1, Ordering::SeqCst);
    }

    /// Ends the round, so that the next one goes at the other pace.
    fn change_pace(&self) {
        let calm = if self.is_calm() { 0 } else { 1 };
        self.calm.store(calm, Ordering::SeqCst);
        self.changes.fetch_add(1, Ordering::SeqCst);
        self.end_round();
    }

    /// How many turns in one thread are looked at together.
    fn turns(&self) -> u32 {
        let changes = self.changes.load(Ordering::SeqCst).min(MOST_CHANGES);
        TURNS << changes as u32
    }
}

/// What the first group saw since it last looked at the pace, and how many steps it did before in this round.
#[derive(Drop)]
pub(crate) struct Watch {
    turns: u32,
    sleeps: u32,
    steps: u32,
    before: u32,
}

impl Watch {
    pub(crate) fn new() -> Self {
        Watch {
            turns: 0,
            sleeps: 0,
            steps: 0,
            before: 0,
        }
    }

    /// Counts a turn with so many steps, after a sleep or not, and ends the round where another pace is wanted or it was long: whether it
    /// did.
    pub(crate) fn ends_round(&mut self, crew: &Crew, steps: u32, slept: bool) -> bool {
        if self.wants_another_pace(crew, steps, slept) {
            crew.change_pace();
            return true;
        }
        if self.is_long() && !crew.is_calm() {
            crew.end_round();
            return true;
        }
        false
    }

    /// Whether the group did the steps of a round.
    fn is_long(&self) -> bool {
        self.before.saturating_add(self.steps) >= ROUND_STEPS
    }

    /// Begins to count anew, but for the steps of the round.
    fn look_anew(&mut self) {
        self.turns = 0;
        self.sleeps = 0;
        self.before = self.before.saturating_add(self.steps);
        self.steps = 0;
    }

    /// Counts a turn with so many steps, after a sleep or not. Tells whether another pace is wanted.
    fn wants_another_pace(&mut self, crew: &Crew, steps: u32, slept: bool) -> bool {
        self.steps = self.steps.saturating_add(steps);
        if crew.is_calm() {
            self.wants_threads(crew)
        } else {
            slept && self.wants_one_thread()
        }
    }

    /// Counts a turn in one thread. Tells whether much is under way.
    fn wants_threads(&mut self, crew: &Crew) -> bool {
        self.turns = self.turns.saturating_add(1);
        if self.turns < crew.turns() {
            return false;
        }
        let is_much = self.steps / MANY_STEPS >= self.turns && !crew.is_narrow;
        self.look_anew();
        is_much
    }

    /// Counts a sleep. Tells whether little is under way.
    fn wants_one_thread(&mut self) -> bool {
        self.sleeps = self.sleeps.saturating_add(1);
        if self.sleeps < SLEEPS {
            return false;
        }
        let is_little = self.steps / FEW_STEPS < self.sleeps;
        self.look_anew();
        is_little
    }
}
