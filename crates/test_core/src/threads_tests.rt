//! Tests of runs by threads: their choices replay to the world that they leave, and two workers are in a step at once.
ghost use Rattle.std.specs.Prelude.{◌==◌, ◌-◌, ◌<◌, true, if◌then◌else◌, [], ◌∷◌, ◌≡◌, length, IfOk};

use crate::meeting::Meeting;
use actor_net::{Actor, Choice, Choices, Outbox, TakeFault, World, replay};
use actor_threads::{Gate, OpenGate, run_round, run_threads};
use basics::NoMemory;
use std::alloc::Global;
use std::process::Abort;
use std::sync::Wait;
use std::sync::atomic::{AtomicU64, Ordering};
use std::test::Fail;
use std::thread::Threads;

/// A node that passes what it hears on to two others, counted down, and notes it.
#[derive(Drop)]
struct Chatter {
    first: u8,
    second: u8,
}

impl Actor for Chatter {
    type Message = u8;

    type Note = u8;

    ghost stepped = { λ c port m. record { node = c; sends = (if m == 0 then [] else (c.first, m - 1) ∷ (c.second, m - 1) ∷ []); notes = m ∷ [] } };

    ghost is_ready = { λ c m. true };

    ghost has_ended = { λ c. true };

    fn ready(&self, _item: &u8) -> bool {
        true
    }

    fn step(&mut self, _port: u8, message: u8, out: &mut Outbox<u8, u8>) -> Result<(), NoMemory> {
        out.note(message)?;
        if message != 0 {
            out.send(self.first, message - 1)?;
            out.send(self.second, message - 1)?;
        }
        Ok(())
    }

    fn ended(&self) -> bool {
        true
    }
}

/// So many chatting nodes.
fn chatters(alloc: Global, nodes: u8) -> Result<Vec<Chatter>, NoMemory>
    requires { (0 < nodes) × (nodes < 250) }
    ensures { IfOk result (λ all. length all.items ≡ nodes) }
{
    let mut all = Vec::new(alloc);
    for number in 0..nodes {
        all.push(Chatter {
            first: (number + 1) % nodes,
            second: (number + 2) % nodes,
        })?;
    }
    Ok(all)
}

/// A world of chatting nodes, with as many items, each of this value.
fn chat(alloc: Global, nodes: u8, items: usize, value: u8) -> Result<World<Chatter>, NoMemory>
    requires { (0 < nodes) × (nodes < 250) }
{
    let items = Vec::from_elem(alloc, value, items)?;
    World::start(alloc, chatters(alloc, nodes)?, items)
}

/// Whether each choice of a run to this end made a note, and a replay of the choices makes the same ones.
fn is_replay(alloc: Global, end: &World<Chatter>, choices: &Choices) -> Result<bool, Fail> {
    let again = replay(chat(alloc, 16, 16, 3)?, choices)?;
    Ok(end.complete() && choices.len() == end.log().len() && again.log() == end.log())
}

/// Runs sixteen chatting nodes to their end by threads, and then by the choices of that run. Whether both make the same notes.
fn is_replayed<R: Threads + Wait + Sync>(rt: &R, alloc: Global) -> Result<bool, Fail> {
    let world = chat(alloc, 16, 16, 3)?;
    let (end, choices) = run_threads(rt, alloc, world, &OpenGate)?;
    is_replay(alloc, &end, &choices)
}

#[test]
fn sixteen_chatting_nodes_are_replayed_100_times(rt: HostRuntime) -> Result<(), Fail> {
    for _ in 0..100 {
        assert!(rt; is_replayed(&rt, rt.alloc())?);
    }
    Ok(())
}

/// Takes so many items at node 0.
fn take_items(world: &mut World<Chatter>, items: usize) -> Result<(), TakeFault> {
    for _ in 0..items {
        world.take(Choice { node: 0, port: 0 })?;
    }
    Ok(())
}

/// A world of three chatting nodes in which so many messages wait for each of nodes 1 and 2, and none for node 0.
fn crowded(alloc: Global, items: usize) -> Result<World<Chatter>, Fail> {
    let mut world = chat(alloc, 3, items, 1)?;
    take_items(&mut world, items)?;
    Ok(world)
}

/// The choices of a run of a crowded world by threads through a gate.
fn crowded_run<R: Threads + Wait + Sync>(
    rt: &R,
    alloc: Global,
    gate: &Meeting,
) -> Result<Choices, Fail> {
    let world = crowded(alloc, 1024)?;
    let (_, choices) = run_threads(rt, alloc, world, gate)?;
    Ok(choices)
}

/// Both workers have messages from the start, and so many that neither is through before the other begins.
#[test]
fn two_workers_are_in_a_pass_at_once(rt: HostRuntime) -> Result<(), Fail> {
    let gate = Meeting::open(1, 2);
    let choices = crowded_run(&rt, rt.alloc(), &gate)?.len();
    assert!(rt; gate.met());
    assert_eq!(rt; gate.passes(), choices as u64);
    Ok(())
}

/// A gate that counts the passes of each of three nodes, and those that are told another number than that of the passes before.
#[derive(Drop)]
struct Counting {
    passes: [AtomicU64; 3],
    wrong: AtomicU64,
}

impl Gate for Counting {
    fn pass(&self, node: u8, step: u64) {
        match self.passes.get(node as usize) {
            Some(passes) if passes.load(Ordering::SeqCst) == step => {
                passes.fetch_add(1, Ordering::SeqCst);
            }
            _ => {
                self.wrong.fetch_add(1, Ordering::SeqCst);
            }
        }
    }
}

/// A round of three chatting nodes through a gate. Its choices.
fn told_round<R: Threads + Wait + Sync>(
    rt: &R,
    alloc: Global,
    gate: &Counting,
) -> Result<Choices, Fail> {
    let world = chat(alloc, 3, 16, 3)?;
    let (_, choices) = run_round(rt, alloc, world, gate)?;
    Ok(choices)
}

/// Looks whether a gate was told the steps of a round with these choices.
fn see_told(rt: &impl Abort, gate: &Counting, choices: &Choices) {
    assert_eq!(rt; gate.wrong.load(Ordering::SeqCst), 0);
    for node in 0..3u8 {
        let steps = choices.iter().filter(|choice| choice.node == node).count();
        assert_eq!(rt;
            gate.passes[node as usize].load(Ordering::SeqCst),
            steps as u64
        );
    }
}

#[test]
fn a_gate_is_told_the_steps_of_each_node_in_the_round(rt: HostRuntime) -> Result<(), Fail> {
    for _ in 0..2 {
        let gate = Counting {
            passes: [AtomicU64::new(0), AtomicU64::new(0), AtomicU64::new(0)],
            wrong: AtomicU64::new(0),
        };
        let choices = told_round(&rt, rt.alloc(), &gate)?;
        see_told(&rt, &gate, &choices);
    }
    Ok(())
}
