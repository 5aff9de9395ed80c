//! A round: all workers run beside each other, and then the world is made anew.
ghost use Rattle.std.specs.Prelude.{◌≡◌, ◌≢◌, ◌↔◌, false, ◌<◌, ◌+◌, ◌*◌, ◌++◌, ℕ, true, [], ◌∷◌, length, map, IfOk, OnOk, All};
ghost use Rattle.std.specs.List.{list_all};
ghost use Rattle.actor_net.specs.Network.{node_numbers, IsWorld, IsRun, run, is_enabled, is_done};
ghost use Rattle.actor_net.specs.declared.choice.Choice.{Choice};
ghost use Rattle.actor_threads.specs.Groups.{IsInRound, has_run};
ghost use Rattle.actor_threads.specs.LinkTable.{row_at, ways_of};
ghost use Rattle.actor_threads.specs.Round.{AllStart, CanCloseAll, AllClosed, OpenedWith, StageLeft, IsRound, MergesMore};

use crate::gate::Gate;
use crate::groups::{Member, processors, run_all};
use crate::links::{Ends, close_row, open_all};
use crate::merged::{Merged, Unmerged};
use crate::notes::NoteQueue;
use crate::pace::Crew;
use crate::stage::{Stage, StageParts};
use crate::ways::{Batch, WayIn, WayOut};
use crate::worker::{Worker, WorkerParts};
use actor_net::{Actor, Choices, History, Link, World};
use basics::{NoMemory, Sequence};
use fifo_link::{SendEnd, TakeEnd};
use std::alloc::Global;
use std::collections::VecDeque;
use std::sync::Wait;
use std::thread::Threads;
use std::{mem, thread};

/// Rounds of a world until it is complete. The choices are those of all rounds. What a round did is merged while the next one goes on.
pub fn run_threads<R: Threads + Wait + Sync, A: Actor + Send, G: Gate>(
    rt: &R,
    alloc: Global,
    world: World<A>,
    gate: &G,
) -> Result<(World<A>, Choices), NoMemory>
where
    A::Message: Send,
    A::Note: Send,
    ensures run { IfOk result (λ r. IsRun A.is_ready A.stepped r.1 world × (r.0 ≡ run A.stepped r.1 world)) }
    ensures complete { IfOk result (λ r. is_done A.has_ended r.0 ≡ true) }
{
    if world.complete() {
        return Ok((world, Choices::open(alloc)));
    }
    let crew = crew(rt);
    let (stage, log) = Stage::open(alloc, world)?;
    let mut merged = Merged::open(alloc, log);
    let mut round = round_of(rt, alloc, stage, gate, &crew)?;
    for _ in rt.forever() {
        let Round { stage, unmerged } = round;
        if stage.complete() {
            let all = merged.add(alloc, unmerged)?;
            return stage.close(alloc, all);
        }
        let (all, next) = beside(rt, alloc, merged, unmerged, stage, gate, &crew);
        merged = all?;
        round = next?;
    }
    unreachable!()
}

/// One round of a world: its workers run until each of them found nothing to do for a while. The choices are those that
/// they made, and the world is the replay of these.
pub fn run_round<R: Threads + Wait + Sync, A: Actor + Send, G: Gate>(
    rt: &R,
    alloc: Global,
    world: World<A>,
    gate: &G,
) -> Result<(World<A>, Choices), NoMemory>
where
    A::Message: Send,
    A::Note: Send,
    ensures run { IfOk result (λ r. IsRun A.is_ready A.stepped r.1 world × (r.0 ≡ run A.stepped r.1 world)) }
    ensures moves { IfOk result (λ r. (r.1 ≡ []) ↔ ((c : Choice) → is_enabled A.is_ready world c ≡ false)) }
{
    let (stage, log) = Stage::open(alloc, world)?;
    let Round { stage, unmerged } = round_of(rt, alloc, stage, gate, &crew(rt))?;
    let all = Merged::open(alloc, log).add(alloc, unmerged)?;
    let (world, choices) = stage.close(alloc, all)?;
    Ok((world, choices))
}

/// The groups of a run, at the busy pace.
fn crew<R: Threads>(rt: &R) -> Crew {
    Crew::new(processors(rt) == 1)
}

/// What a round came to: what the next one begins with, and what is still to be merged.
#[derive(Drop)]
struct Round<A: Actor> {
    stage: Stage<A>,
    unmerged: Unmerged<A::Note>,
}

/// One more round, and what the round before it did is merged meanwhile.
fn beside<R: Threads + Wait + Sync, A: Actor + Send, G: Gate>(
    rt: &R,
    alloc: Global,
    merged: Merged<A::Note>,
    unmerged: Unmerged<A::Note>,
    stage: Stage<A>,
    gate: &G,
    crew: &Crew,
) -> (
    Result<Merged<A::Note>, NoMemory>,
    Result<Round<A>, NoMemory>,
)
where
    A::Message: Send,
    A::Note: Send,
    ensures merged { IfOk result.0 (λ all. MergesMore unmerged merged all) }
    ensures round { IfOk result.1 (λ r. IsRound A.is_ready A.stepped stage r) }
{
    thread::join(
        rt,
        || -> Result<Merged<A::Note>, NoMemory>
            ensures { IfOk result (λ all. MergesMore unmerged merged all) }
        { merged.add(alloc, unmerged) },
        || -> Result<Round<A>, NoMemory>
            ensures { IfOk result (λ r. IsRound A.is_ready A.stepped stage r) }
        { round_of(rt, alloc, stage, gate, crew) },
    )
}

/// A round by these groups.
fn round_of<R: Threads + Wait + Sync, A: Actor + Send, G: Gate>(
    rt: &R,
    alloc: Global,
    stage: Stage<A>,
    gate: &G,
    crew: &Crew,
) -> Result<Round<A>, NoMemory>
where
    A::Message: Send,
    A::Note: Send,
    ensures { IfOk result (λ r. IsRound A.is_ready A.stepped stage r) }
{
    let members = members_of(alloc, stage)?;
    let after = run_all(rt, gate, crew, members)?;
    let round_parts = take_apart(alloc, after)?;
    let round = close_round(rt, alloc, round_parts)?;
    Ok(round)
}

/// The workers of all nodes, none of which has done a step.
pub(crate) fn members_of<A: Actor>(
    alloc: Global,
    stage: Stage<A>,
) -> Result<Vec<Member<A>>, NoMemory>
    ensures members { IfOk result (λ s. AllStart stage (map (λ x. x.worker) s.items)) }
    ensures begin { IfOk result (λ s. All (λ m. IsInRound A.is_ready A.stepped m.worker m) s.items) }
    ensures world { IsWorld stage }
    ensures log { stage.log ≡ [] }
{
    let StageParts {
        nodes,
        mut links,
        mut input,
    } = stage.parts();
    let mut nodes = VecDeque::from_vec(nodes);
    let count = nodes.len();
    let Ends { sends, takes } = open_all(alloc, count)?;
    let mut sends = VecDeque::from_vec(sends);
    let mut takes = VecDeque::from_vec(takes);
    let mut members = Vec::with_capacity(alloc, count)?;
    for number in 0..count {
        let Some(node) = nodes.pop_front() else {
            unreachable!()
        };
        let Some(sends) = sends.pop_front() else {
            unreachable!()
        };
        let Some(takes) = takes.pop_front() else {
            unreachable!()
        };
        let items = mem::replace(&mut input, Link::open(alloc));
        let worker = worker_of(alloc, number, node, items, &mut links, takes, sends)?;
        members.push(Member::open(worker))?;
    }
    Ok(members)
}

/// The worker of one node, with what stands on the links to it.
fn worker_of<A: Actor>(
    alloc: Global,
    number: usize,
    node: A,
    input: Link<A::Message>,
    links: &mut Vec<Link<A::Message>>,
    takes: Vec<TakeEnd<Batch<A::Message>>>,
    sends: Vec<SendEnd<Batch<A::Message>>>,
) -> Result<Worker<A>, NoMemory>
    requires count { (number < length takes.items) × (length takes.items < node_numbers) }
    requires square { length links.old.items ≡ length takes.items * length takes.items }
    requires ends { length sends.items ≡ length takes.items }
    requires input { (number ≡ 0 → row_at links.old.items 0 ≡ []) × (number ≢ 0 → input ≡ []) }
    ensures worker { IfOk result
        (λ w. OpenedWith (record { number = number; node = node; links = links.old.items; input = input; takes = takes.items; sends = sends.items }) w) }
    ensures others { (p j : ℕ) → j < length takes.items → j ≢ number
        → row_at links.new.items (p * length takes.items + j) ≡ row_at links.old.items (p * length takes.items + j) }
    ensures square { length links.new.items ≡ length links.old.items }
{
    let kept = column(alloc, links, takes.len(), number)?;
    Worker::open(alloc, number as u8, node, input, kept, takes, sends)
}

/// What stands on the links to one node, taken out of the table.
fn column<M: Drop>(
    alloc: Global,
    links: &mut Vec<Link<M>>,
    count: usize,
    node: usize,
) -> Result<Vec<Link<M>>, NoMemory>
    requires count { (node < count) × (count < node_numbers) }
    requires square { length links.old.items ≡ count * count }
    ensures kept { IfOk result (λ kept. length kept.items ≡ count) }
    ensures lists { IfOk result (λ kept. (p : ℕ) → p < count → row_at kept.items p ≡ row_at links.old.items (p * count + node)) }
    ensures others { (p j : ℕ) → j < count → j ≢ node → row_at links.new.items (p * count + j) ≡ row_at links.old.items (p * count + j) }
    ensures square { length links.new.items ≡ length links.old.items }
{
    let mut kept = Vec::with_capacity(alloc, count)?;
    for port in 0..count {
        let at = place(count, port, node);
        kept.push(mem::replace(&mut links[at], Link::open(alloc)))?;
    }
    Ok(kept)
}

/// The place of the link from one node to another.
fn place(count: usize, from: usize, to: usize) -> usize
    requires { (from < count) × (to < count) × (count < node_numbers) }
    ensures value { result ≡ from * count + to }
    ensures small { result < count * count }
{
    from * count + to
}

/// What all workers left. Out of memory where one of them was.
fn take_apart<A: Actor>(alloc: Global, members: Vec<Member<A>>) -> Result<RoundParts<A>, NoMemory>
    ensures done { OnOk result (list_all has_run members.items ≡ true) }
    ensures nodes { IfOk result (λ f. f.nodes.items ≡ map (λ s. s.worker.node) members.items) }
    ensures histories { IfOk result (λ f. f.histories.items ≡ map (λ s. record { node = s.worker.number; steps = s.worker.steps }) members.items) }
    ensures notes { IfOk result (λ f. f.notes.items ≡ map (λ s. s.worker.notes) members.items) }
    ensures ins { IfOk result (λ f. map (λ v. v.items) f.ins.items ≡ map (λ s. s.worker.ins) members.items) }
    ensures outs { IfOk result (λ f. map (λ v. v.items) f.outs.items ≡ map (λ s. s.worker.outs) members.items) }
{
    let mut round_parts = RoundParts::open(alloc, members.len())?;
    let mut members = VecDeque::from_vec(members);
    while let Some(member) = members.pop_front() {
        if !member.has_run() {
            return Err(NoMemory);
        }
        round_parts.add(member.worker)?;
    }
    Ok(round_parts)
}

/// What the workers left.
#[derive(Drop)]
struct RoundParts<A: Actor> {
    nodes: Vec<A>,
    histories: Vec<History>,
    notes: Vec<NoteQueue<A::Note>>,
    ins: Vec<VecDeque<WayIn<A::Message>>>,
    outs: Vec<VecDeque<WayOut<A::Message>>>,
}

impl<A: Actor> RoundParts<A> {
    /// Nothing yet, with room for so many workers.
    fn open(alloc: Global, count: usize) -> Result<Self, NoMemory>
        ensures { IfOk result (λ f. (f.nodes.items ≡ []) × (f.histories.items ≡ []) × (f.notes.items ≡ []) × (f.ins.items ≡ []) × (f.outs.items ≡ [])) }
    {
        Ok(RoundParts {
            nodes: Vec::with_capacity(alloc, count)?,
            histories: Vec::with_capacity(alloc, count)?,
            notes: Vec::with_capacity(alloc, count)?,
            ins: Vec::with_capacity(alloc, count)?,
            outs: Vec::with_capacity(alloc, count)?,
        })
    }

    /// Adds what the next worker left.
    fn add(&mut self, worker: Worker<A>) -> Result<(), NoMemory>
        ensures nodes { OnOk result (self.new.nodes.items ≡ self.old.nodes.items ++ worker.node ∷ []) }
        ensures histories { OnOk result (self.new.histories.items ≡ self.old.histories.items ++ record { node = worker.number; steps = worker.steps } ∷ []) }
        ensures notes { OnOk result (self.new.notes.items ≡ self.old.notes.items ++ worker.notes ∷ []) }
        ensures ins { OnOk result (map (λ v. v.items) self.new.ins.items ≡ map (λ v. v.items) self.old.ins.items ++ worker.ins ∷ []) }
        ensures outs { OnOk result (map (λ v. v.items) self.new.outs.items ≡ map (λ v. v.items) self.old.outs.items ++ worker.outs ∷ []) }
    {
        let WorkerParts {
            number,
            node,
            steps,
            notes,
            ins,
            outs,
        } = worker.parts();
        add_ways(&mut self.ins, &mut self.outs, ins, outs)?;
        self.notes.push(notes.into_queue())?;
        self.histories.push(History {
            node: number,
            steps: Sequence::from_vec(steps),
        })?;
        self.nodes.push(node)?;
        Ok(())
    }
}

/// Adds the ways in and the ways out of one worker.
fn add_ways<M: Drop>(
    all_ins: &mut Vec<VecDeque<WayIn<M>>>,
    all_outs: &mut Vec<VecDeque<WayOut<M>>>,
    ins: Vec<WayIn<M>>,
    outs: Vec<WayOut<M>>,
) -> Result<(), NoMemory>
    ensures ins { OnOk result (map (λ v. v.items) all_ins.new.items ≡ map (λ v. v.items) all_ins.old.items ++ ins.items ∷ []) }
    ensures outs { OnOk result (map (λ v. v.items) all_outs.new.items ≡ map (λ v. v.items) all_outs.old.items ++ outs.items ∷ []) }
{
    all_ins.push(VecDeque::from_vec(ins))?;
    all_outs.push(VecDeque::from_vec(outs))?;
    Ok(())
}

/// What the workers left, with all links closed.
fn close_round<R: Wait, A: Actor>(
    rt: &R,
    alloc: Global,
    round_parts: RoundParts<A>,
) -> Result<Round<A>, NoMemory>
    requires some { (0 < length round_parts.nodes.items) × (length round_parts.nodes.items < node_numbers) }
    requires close { CanCloseAll (length round_parts.nodes.items) (map (λ v. v.items) round_parts.ins.items) (map (λ v. v.items) round_parts.outs.items) }
    ensures stage { IfOk result (λ r. StageLeft (record {
      nodes = round_parts.nodes.items;
      ways = ways_of (map (λ v. v.items) round_parts.ins.items) (map (λ v. v.items) round_parts.outs.items);
    }) r.stage) }
    ensures histories { IfOk result (λ r. r.unmerged.histories ≡ round_parts.histories) }
    ensures notes { IfOk result (λ r. r.unmerged.notes ≡ round_parts.notes) }
{
    let RoundParts {
        nodes,
        histories,
        notes,
        ins,
        outs,
    } = round_parts;
    let mut links = close_all(rt, alloc, ins, outs)?;
    let input = mem::replace(&mut links[0], Link::open(alloc));
    Ok(Round {
        stage: Stage::from_parts(StageParts {
            nodes,
            links,
            input,
        }),
        unmerged: Unmerged { histories, notes },
    })
}

/// Closes all links. The list of the link from s to r stands at place s * n + r.
fn close_all<M: Drop, R: Wait>(
    rt: &R,
    alloc: Global,
    mut ins: Vec<VecDeque<WayIn<M>>>,
    outs: Vec<VecDeque<WayOut<M>>>,
) -> Result<Vec<Link<M>>, NoMemory>
    requires { CanCloseAll (length ins.items) (map (λ v. v.items) ins.items) (map (λ v. v.items) outs.items) }
    ensures { IfOk result
        (λ links. AllClosed (length ins.items) (length ins.items) (ways_of (map (λ v. v.items) ins.items) (map (λ v. v.items) outs.items)) links.items) }
{
    let mut outs = VecDeque::from_vec(outs);
    let mut links = Vec::new(alloc);
    for _ in 0..outs.len() {
        let Some(row) = outs.pop_front() else {
            unreachable!()
        };
        close_row(rt, row, &mut ins, &mut links)?;
    }
    Ok(links)
}
