//! Groups of workers. A group has a thread, in which its workers take turns.
ghost use Rattle.std.specs.Prelude.{◌≡◌, ◌<◌, length, IfOk, All};
ghost use Rattle.actor_threads.specs.Groups.{IsInRound, AllInRound, AllGoOn};

use crate::gate::Gate;
use crate::pace::{Crew, Watch};
use crate::worker::Worker;
use actor_net::Actor;
use basics::NoMemory;
use std::sync::Wait;
use std::sync::atomic::{AtomicU64, Ordering};
use std::thread::Threads;
use std::time::Duration;
use std::{hint, thread};

/// A group waits so many turns in a row that did no step without giving its processor away. Its workers then see at once what
/// others send, as long as these have a processor.
const SPIN_TURNS: u32 = 16;

/// From then on it sleeps so long after each turn. A thread that sleeps gets its processor back before those of programs that
/// never sleep, and one that only gives it away gets it back after them.
const SLEEP_MICROSECONDS: u64 = 50;

/// A group in which so many turns in a row did no step isn't busy. They are a few, since a round that ends while a thread waits for
/// its processor costs another round: about a third of a millisecond.
const REST_TURNS: u32 = 32;

/// A group ends its part of a round after so many turns in a row that did no step, also where others are busy: no thread may have
/// been made for one of them. That is some fifth of a second.
const IDLE_TURNS: u32 = 2000;

/// How often a group that found nothing to do looks whether others are busy, before it looks for messages again. So several of
/// them have come meanwhile, where the others have a processor. After each look the processor pauses, some ten to a hundred of its cycles.
const PAUSE_LOOKS: u32 = 300;

/// There are at least so many groups, where there are workers for them. So the workers of a small world never wait for each
/// other's turns, however few processors there are.
const FEWEST_GROUPS: usize = 4;

/// A worker as a member of a group, and how far it is in its round: whether it looked for a message, did a step, and ran out of
/// memory.
#[derive(Drop)]
pub(crate) struct Member<A: Actor> {
    pub(crate) worker: Worker<A>,
    looked: bool,
    moved: bool,
    failed: bool,
}

impl<A: Actor> Member<A> {
    ghost use Rattle.std.specs.Prelude.{◌≡◌};
    ghost use Rattle.actor_threads.specs.Groups.{IsInRound, GoesOn, has_run};

    /// A worker at the start of its round.
    pub(crate) fn open(worker: Worker<A>) -> Self
        ensures worker { result.worker ≡ worker }
        ensures begin { IsInRound A.is_ready A.stepped worker result }
    {
        Member {
            worker,
            looked: false,
            moved: false,
            failed: false,
        }
    }

    /// Whether the worker did its round, as far as there was something to do.
    pub(crate) fn has_run(&self) -> bool
        ensures { result ≡ has_run self.now }
    {
        self.looked && !self.failed
    }

    /// A turn, unless the worker ran out of memory. Tells how many steps there were.
    #[inline(always)]
    pub(crate) fn turn<R: Wait, G: Gate>(&mut self, rt: &R, gate: &G) -> u32
        ensures { GoesOn A.is_ready A.stepped self.old self.new }
    {
        if self.failed {
            return 0;
        }
        match self.worker.work(rt, gate, self.moved) {
            Ok(0) => {
                self.looked = true;
                0
            }
            Ok(steps) => {
                self.looked = true;
                self.moved = true;
                steps
            }
            Err(_) => {
                self.failed = true;
                0
            }
        }
    }
}

/// All workers do their rounds. At the busy pace that of node 0 has a thread of its own, and so has each group of the others, where
/// threads can be made; at the calm pace all of them take turns in one thread. The members come back in their order.
pub(crate) fn run_all<R: Threads + Wait + Sync, A: Actor + Send, G: Gate>(
    rt: &R,
    gate: &G,
    crew: &Crew,
    mut first: Vec<Member<A>>,
) -> Result<Vec<Member<A>>, NoMemory>
where
    A::Message: Send,
    A::Note: Send,
    requires some { 0 < length first.items }
    requires begin { All (λ m. IsInRound A.is_ready A.stepped m.worker m) first.items }
    ensures count { IfOk result (λ after. length after.items ≡ length first.items) }
    ensures round { IfOk result (λ after. AllInRound A.is_ready A.stepped first.items after.items) }
{
    let alone = crew.alone(first.len());
    let rest = first.split_off(alone)?;
    let size = group_size(rt, rest.len());
    crew.begin(1 + rest.len().div_ceil(size) as u64);
    let (mut first, mut rest) = thread::join(
        rt,
        || -> Vec<Member<A>>
            ensures count { length result.items ≡ length first.items }
            ensures on { AllGoOn A.is_ready A.stepped first.items result.items }
        { run_alone(rt, gate, crew, first) },
        || -> Vec<Member<A>>
            requires { 0 < size }
            ensures count { length result.items ≡ length rest.items }
            ensures on { AllGoOn A.is_ready A.stepped rest.items result.items }
        { run_groups(rt, gate, crew, size, rest) },
    );
    first.append(&mut rest)?;
    Ok(first)
}

/// All members in one group, which looks after the pace.
fn run_alone<R: Wait, A: Actor, G: Gate>(
    rt: &R,
    gate: &G,
    crew: &Crew,
    mut members: Vec<Member<A>>,
) -> Vec<Member<A>>
    ensures count { length result.items ≡ length members.items }
    ensures on { AllGoOn A.is_ready A.stepped members.items result.items }
{
    run_group(rt, gate, crew, true, members.as_mut_slice());
    members
}

/// The members in groups of this size.
fn run_groups<R: Threads + Wait + Sync, A: Actor + Send, G: Gate>(
    rt: &R,
    gate: &G,
    crew: &Crew,
    size: usize,
    mut members: Vec<Member<A>>,
) -> Vec<Member<A>>
where
    A::Message: Send,
    A::Note: Send,
    requires { 0 < size }
    ensures count { length result.items ≡ length members.items }
    ensures on { AllGoOn A.is_ready A.stepped members.items result.items }
{
    let run = |_start: usize, group: &mut [Member<A>]|
        ensures { AllGoOn A.is_ready A.stepped group.entry.now group.exit.now }
    { run_group(rt, gate, crew, false, group) };
    thread::for_each_chunk_mut(rt, members.as_mut_slice(), size, &run);
    members
}

/// The workers of one group take turns, until no group is busy or the round is to end. One group looks after that.
fn run_group<R: Wait, A: Actor, G: Gate>(
    rt: &R,
    gate: &G,
    crew: &Crew,
    leads: bool,
    members: &mut [Member<A>],
)
    ensures { AllGoOn A.is_ready A.stepped members.old members.new }
{
    let mut idle = Idleness::new();
    let mut watch = Watch::new();
    for _ in rt.forever() {
        let steps = turn_all(rt, gate, members);
        if leads && watch.ends_round(crew, steps, idle.has_slept()) {
            return;
        }
        if idle.is_over(rt, crew, steps > 0) {
            return;
        }
    }
}

/// A turn of each worker of a group. Tells how many steps they did.
#[inline(always)]
fn turn_all<R: Wait, A: Actor, G: Gate>(rt: &R, gate: &G, members: &mut [Member<A>]) -> u32
    ensures { AllGoOn A.is_ready A.stepped members.old members.new }
{
    let mut steps: u32 = 0;
    for at in 0..members.len() {
        steps = steps.saturating_add(members[at].turn(rt, gate));
    }
    steps
}

/// How many turns in a row of a group did no step.
#[derive(Drop)]
struct Idleness {
    turns: u32,
}

impl Idleness {
    fn new() -> Self {
        Idleness { turns: 0 }
    }

    /// Whether the group slept after its latest turn.
    fn has_slept(&self) -> bool {
        self.turns >= SPIN_TURNS
    }

    /// Counts a turn, and waits a little after one that did no step. Tells whether the group's part of the round is over.
    fn is_over<R: Wait>(&mut self, rt: &R, crew: &Crew, moved: bool) -> bool {
        if moved {
            if self.turns >= REST_TURNS {
                crew.busy.fetch_add(1, Ordering::SeqCst);
            }
            self.turns = 0;
            return false;
        }
        if self.turns >= IDLE_TURNS || crew.is_calm() || crew.ends() {
            return true;
        }
        self.turns += 1;
        if self.turns == REST_TURNS {
            crew.busy.fetch_sub(1, Ordering::SeqCst);
        }
        if self.turns >= REST_TURNS && crew.busy.load(Ordering::SeqCst) == 0 {
            return true;
        }
        pause(&crew.busy);
        if self.turns >= SPIN_TURNS {
            sleep(rt, &crew.busy);
        }
        false
    }
}

/// Lets some time pass.
fn pause(busy: &AtomicU64) {
    for _ in 0..PAUSE_LOOKS {
        if busy.load(Ordering::SeqCst) == 0 {
            return;
        }
        hint::spin_loop();
    }
}

/// Lets others have the processor for a while.
fn sleep<R: Wait>(rt: &R, busy: &AtomicU64) {
    let seen = busy.load(Ordering::SeqCst) % 0x1_0000_0000;
    let time = Duration::from_micros(SLEEP_MICROSECONDS);
    busy.park_timeout(rt, seen as u32, time);
}

/// How many workers are in a group, of so many beside that of node 0: but for the fewest groups, there is at most one for each
/// processor.
fn group_size<R: Threads>(rt: &R, workers: usize) -> usize
    ensures { 0 < result }
{
    workers
        .div_ceil(processors(rt).max(FEWEST_GROUPS) - 1)
        .max(1)
}

/// How many processors there are, as far as the system tells.
pub(crate) fn processors<R: Threads>(rt: &R) -> usize {
    match thread::available_parallelism(rt) {
        Ok(processors) => processors.get(),
        Err(_) => 1,
    }
}
