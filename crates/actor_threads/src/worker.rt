//! One node in a round, with a way in from each node and a way out to each: what it does in a turn.
ghost use Rattle.std.specs.Prelude.{◌≡◌, ◌<◌, ◌+◌, ◌≢◌, ℕ, true, false, Ok, [], length, max, map, slice_index_or, IfOk, OnOk};
ghost use Rattle.actor_net.specs.Network.{node_numbers};
ghost use Rattle.actor_threads.specs.Ways.{Sends, last_clock};
ghost use Rattle.actor_threads.specs.Work.{fresh_worker, queues_at, all_in, all_out, out_at, put_for, Idled, Acted, IsQuiet, DoesStep, Worked};

mod look;

use crate::gate::Gate;
use crate::notes::Notes;
use crate::ways::{Batch, Rooms, WayIn, WayOut};
use actor_net::{Actor, Link, Outbox, Stamped};
use basics::NoMemory;
use crossbeam_utils::CachePadded;
use fifo_link::{SendEnd, TakeEnd};
use std::alloc::Global;
use std::collections::VecDeque;
use std::marker::Model;
use std::sync::Wait;

/// A worker's turn has at most so many steps.
const TURN_STEPS: u32 = 256;

/// A worker goes on to the next take end after so many messages at most.
const MOST_IN_ROW: u32 = 32;

/// One node for one round. It owns the node and its ends of the links.
#[derive(Drop)]
pub struct Worker<A: Actor> {
    number: u8,
    node: A,
    clock: u64,
    steps: Vec<(u64, u8)>,
    notes: Notes<A::Note>,
    ins: Vec<WayIn<A::Message>>,
    outs: Vec<WayOut<A::Message>>,
    outbox: Outbox<A::Message, A::Note>,
    rooms: Rooms<A::Message>,
    /// Whether something may wait to be sent.
    unsent: bool,
    /// Whether something but the input may be kept.
    keeping: bool,
    /// Where the next look at the take ends begins, and how many messages were taken since it went on by itself.
    turn: usize,
    in_row: u32,
    /// Keeps the workers of two threads out of one line of the processors' memory.
    apart: CachePadded<()>,
}

impl<A: Actor> Model for Worker<A> {
    ghost use Rattle.std.specs.Prelude.{◌≡◌, ◌<◌, length};
    ghost use Rattle.actor_net.specs.Network.{node_numbers};
    ghost use Rattle.actor_threads.specs.Work.{WorkerView};

    ghost Value = { WorkerView A A.Message A.Note };

    ghost view = { λ w.
        record { number = w.number; node = w.node; clock = w.clock; steps = w.steps.items; notes = w.notes; ins = w.ins.items; outs = w.outs.items } };

    ghost invariant = { λ w. (length w.ins.items < node_numbers) × (length w.outs.items ≡ length w.ins.items) };
}

/// A worker taken apart.
#[derive(Drop)]
pub struct WorkerParts<A: Actor> {
    pub number: u8,
    pub node: A,
    pub steps: Vec<(u64, u8)>,
    pub notes: Notes<A::Note>,
    pub ins: Vec<WayIn<A::Message>>,
    pub outs: Vec<WayOut<A::Message>>,
}

impl<A: Actor> Worker<A> {
    /// A worker without steps. `kept` has what stood on the link from each node before the round, and `input` is the input,
    /// which is that of node 0.
    pub fn open(
        alloc: Global,
        number: u8,
        node: A,
        input: Link<A::Message>,
        kept: Vec<Link<A::Message>>,
        takes: Vec<TakeEnd<Batch<A::Message>>>,
        sends: Vec<SendEnd<Batch<A::Message>>>,
    ) -> Result<Worker<A>, NoMemory>
        requires lengths { (length kept.items ≡ length takes.items) × (length sends.items ≡ length takes.items) }
        requires few { length takes.items < node_numbers }
        requires node { number < length takes.items }
        requires input { (number ≡ 0 → slice_index_or kept.items 0 [] ≡ []) × (number ≢ 0 → input ≡ []) }
        ensures { IfOk result (λ w. w ≡ fresh_worker number node (queues_at number input kept.items) takes.items sends.items) }
    {
        let kept = with_input(number, input, VecDeque::from_vec(kept))?;
        let ins = ways_in(alloc, VecDeque::from_vec(takes), kept)?;
        let outs = ways_out(alloc, sends)?;
        Ok(Worker {
            number,
            node,
            clock: 0,
            steps: Vec::new(alloc),
            notes: Notes::open(alloc),
            ins,
            outs,
            outbox: Outbox::open(alloc),
            rooms: Rooms::open(alloc),
            unsent: false,
            keeping: true,
            turn: 0,
            in_row: 0,
            apart: CachePadded::new(()),
        })
    }

    /// All that the worker holds.
    pub fn parts(self) -> WorkerParts<A>
        ensures { self ≡ record {
          number = result.number;
          node = result.node;
          clock = self.clock;
          steps = result.steps.items;
          notes = result.notes;
          ins = result.ins.items;
          outs = result.outs.items;
        } }
    {
        WorkerParts {
            number: self.number,
            node: self.node,
            steps: self.steps,
            notes: self.notes,
            ins: self.ins,
            outs: self.outs,
        }
    }

    /// Does steps of a round, as long as it finds messages and at most so many in a row, and sends what they sent as far as the links
    /// have room: how many there were. `moved` says that it did one before in this round. After it ran out of memory the
    /// worker is only taken apart.
    #[inline(always)]
    pub fn work<R: Wait, G: Gate>(&mut self, rt: &R, gate: &G, moved: bool) -> Result<u32, NoMemory>
        ensures worked { OnOk result (Worked A.is_ready A.stepped self.old self.new) }
        ensures count { IfOk result (λ steps. length self.new.steps ≡ length self.old.steps + steps) }

        // Where a step could be done with what is kept, there is one.
        ensures moves { IfOk result (λ steps. steps ≡ 0 → moved ≡ false → IsQuiet A.is_ready self.old) }
    {
        let steps = self.turn(rt, gate, moved)?;
        self.flush(rt);
        Ok(steps)
    }

    /// The steps of this round, each a clock and a port.
    pub fn steps(&self) -> &[(u64, u8)]
        ensures { result.now ≡ self.now.steps }
    {
        self.steps.as_slice()
    }

    /// Does at most so many steps in a row: how many.
    #[inline(always)]
    fn turn<R: Wait, G: Gate>(&mut self, rt: &R, gate: &G, moved: bool) -> Result<u32, NoMemory>
        ensures worked { OnOk result (Worked A.is_ready A.stepped self.old self.new) }
        ensures count { IfOk result (λ steps. length self.new.steps ≡ length self.old.steps + steps) }
        ensures moves { IfOk result (λ steps. steps ≡ 0 → moved ≡ false → IsQuiet A.is_ready self.old) }
    {
        if !self.act(rt, gate, moved)? {
            return Ok(0);
        }
        for done in 1..TURN_STEPS {
            if !self.act(rt, gate, true)? {
                return Ok(done);
            }
        }
        Ok(TURN_STEPS)
    }

    /// Looks for a message, and does a step where one is found: whether it did.
    #[inline(always)]
    fn act<R: Wait, G: Gate>(&mut self, rt: &R, gate: &G, moved: bool) -> Result<bool, NoMemory>
        ensures stepped { result ≡ Ok true → DoesStep A.is_ready A.stepped self.old self.new }
        ensures idle { result ≡ Ok false → Idled self.old self.new }
        ensures quiet { result ≡ Ok false → moved ≡ false → IsQuiet A.is_ready self.old }
    {
        match self.look(rt, moved) {
            Some((port, message)) => {
                self.pass(gate);
                self.step(rt, port, message)?;
                Ok(true)
            }
            None => Ok(false),
        }
    }

    /// Passes the gate before the next step.
    #[inline(always)]
    fn pass<G: Gate>(&self, gate: &G) {
        gate.pass(self.number, self.steps.len() as u64);
    }

    /// Sends what waits, as far as the links have room.
    pub fn flush<R: Wait>(&mut self, rt: &R)
        ensures { self.new ≡ self.old }
    {
        if !self.unsent {
            return;
        }
        let mut unsent = false;
        for out in self.outs.iter_mut() {
            out.flush(rt);
            if out.waits() {
                unsent = true;
            }
        }
        self.unsent = unsent;
    }

    /// Does one step: the node takes the message, and what it sends carries the step's clock.
    #[inline(always)]
    fn step<R: Wait>(&mut self, rt: &R, port: u8, took: Stamped<A::Message>) -> Result<(), NoMemory>
        requires clock { self.old.clock < last_clock }
        requires stamp { took.clock < last_clock }
        ensures { OnOk result (Acted A.stepped self.old self.new (port, took)) }
    {
        let clock = next_clock(self.clock, took.clock);
        self.unsent = true;
        self.outbox.clear();
        self.node.step(port, took.message, &mut self.outbox)?;
        self.clock = clock;
        self.steps.push((clock, port))?;
        self.notes.add(&mut self.outbox)?;
        put_all(
            rt,
            self.number,
            clock,
            &mut self.rooms,
            &mut self.outbox,
            &mut self.outs,
        )?;
        Ok(())
    }
}

/// What waits at each port: at node 0 the input stands first.
fn with_input<M: Drop>(
    number: u8,
    input: Link<M>,
    mut kept: VecDeque<Link<M>>,
) -> Result<VecDeque<Link<M>>, NoMemory>
    requires { 0 < length kept.items }
    ensures lists { IfOk result (λ lists. lists.items ≡ queues_at number input kept.items) }
    ensures count { IfOk result (λ lists. length lists.items ≡ length kept.items) }
{
    if number != 0 {
        return Ok(kept);
    }
    let _first = kept.pop_front();
    kept.push_front(input)?;
    Ok(kept)
}

/// A way in from each node, with what is kept from it.
fn ways_in<M: Drop>(
    alloc: Global,
    mut takes: VecDeque<TakeEnd<Batch<M>>>,
    mut kept: VecDeque<Link<M>>,
) -> Result<Vec<WayIn<M>>, NoMemory>
    requires { length kept.items ≡ length takes.items }
    ensures { IfOk result (λ ways. ways.items ≡ all_in takes.items kept.items) }
{
    let mut ways = Vec::with_capacity(alloc, takes.len())?;
    while let Some(take) = takes.pop_front() {
        let Some(messages) = kept.pop_front() else {
            unreachable!()
        };
        ways.push(WayIn::open(alloc, take, messages))?;
    }
    Ok(ways)
}

/// A way out to each node.
fn ways_out<M: Drop>(
    alloc: Global,
    sends: Vec<SendEnd<Batch<M>>>,
) -> Result<Vec<WayOut<M>>, NoMemory>
    ensures { IfOk result (λ ways. ways.items ≡ map all_out sends.items) }
{
    let mut ways = Vec::with_capacity(alloc, sends.len())?;
    for send in sends {
        ways.push(WayOut::open(alloc, send))?;
    }
    Ok(ways)
}

/// The clock of a step: one more than the node's clock and the stamp of the message that it takes.
#[inline(always)]
fn next_clock(clock: u64, stamp: u64) -> u64
    requires { (clock < last_clock) × (stamp < last_clock) }
    ensures { result ≡ max clock stamp + 1 }
{
    clock.max(stamp) + 1
}

/// Puts what a step sent on the ways out. What no node takes is dropped.
#[inline(always)]
fn put_all<R: Wait, M: Drop, N>(
    rt: &R,
    from: u8,
    clock: u64,
    rooms: &mut Rooms<M>,
    outbox: &mut Outbox<M, N>,
    outs: &mut Vec<WayOut<M>>,
) -> Result<(), NoMemory>
    ensures sent { OnOk result ((r : ℕ) → r < length outs.old.items
        → Sends (out_at outs.old.items r) (out_at outs.new.items r) (put_for (length outs.old.items) from r clock outbox.old.0)) }
    ensures count { length outs.new.items ≡ length outs.old.items }
{
    while let Some((to, message)) = outbox.next_sent() {
        if (to as usize) < outs.len() && !(from == 0 && to == 0) {
            outs[to as usize].push(rt, rooms, Stamped { clock, message })?;
        }
    }
    Ok(())
}
