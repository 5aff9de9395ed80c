//! Tests of worlds: what a step does, what schedules and replays give, and that a merge is the same both ways.
ghost use Rattle.std.specs.Prelude.{◌≡◌, [], ◌∷◌, ◌++◌, length, OnOk, IfOk};

use actor_net::{
    Actor, Choice, Choices, History, Outbox, Parts, Schedule, TakeFault, World, merge, replay,
    run_schedule,
};
use basics::{NoMemory, Sequence};
use std::alloc::Global;
use std::process::Abort;
use std::test::Fail;

/// Notes each message, and sends one less to its receiver until none is left. Node 0 is ready for an item below 100.
#[derive(Debug, Drop)]
struct Relay {
    to: u8,
}

impl Actor for Relay {
    ghost use Rattle.std.specs.Prelude.{◌-◌, [], ◌∷◌, nat_lt, if◌then◌else◌, true};

    type Message = u8;

    type Note = u8;

    ghost stepped = { λ node port m. record { node = node; sends = if nat_lt 0 m then (node.to, m - 1) ∷ [] else []; notes = m ∷ [] } };

    ghost is_ready = { λ node m. nat_lt m 100 };

    ghost has_ended = { λ node. true };

    fn ready(&self, item: &u8) -> bool {
        *item < 100
    }

    fn step(&mut self, _port: u8, message: u8, out: &mut Outbox<u8, u8>) -> Result<(), NoMemory> {
        if message > 0 {
            out.send(self.to, message - 1)?;
        }
        out.note(message)
    }

    fn ended(&self) -> bool {
        true
    }
}

const INPUT: Choice = Choice { node: 0, port: 0 };

const FROM_ZERO: Choice = Choice { node: 1, port: 0 };

/// Two nodes that send to each other.
fn two_nodes(alloc: Global) -> Result<Vec<Relay>, NoMemory>
    ensures { IfOk result (λ nodes. length nodes.items ≡ 2) }
{
    let mut nodes = Vec::new(alloc);
    nodes.push(Relay { to: 1 })?;
    nodes.push(Relay { to: 0 })?;
    Ok(nodes)
}

/// A world of two nodes that send to each other.
fn two(alloc: Global, items: Vec<u8>) -> Result<World<Relay>, NoMemory> {
    World::start(alloc, two_nodes(alloc)?, items)
}

/// Puts a link with one message after the others.
fn push_one(alloc: Global, links: &mut Sequence<Sequence<u8>>) -> Result<(), NoMemory>
    ensures { OnOk result (links.new ≡ links.old ++ (0 ∷ []) ∷ []) }
{
    let mut link = Sequence::open(alloc);
    link.push(0)?;
    links.push(link)
}

/// Puts an empty link and three with one message each after the others.
fn push_links(alloc: Global, links: &mut Sequence<Sequence<u8>>) -> Result<(), NoMemory>
    ensures { OnOk result (links.new ≡ links.old ++ [] ∷ (0 ∷ []) ∷ (0 ∷ []) ∷ (0 ∷ []) ∷ []) }
{
    links.push(Sequence::open(alloc))?;
    push_one(alloc, links)?;
    push_one(alloc, links)?;
    push_one(alloc, links)
}

/// The links of two nodes and three messages, which wait at the choices (0, 1), (1, 0) and (1, 1).
fn three_links(alloc: Global) -> Result<Sequence<Sequence<u8>>, NoMemory>
    ensures { IfOk result (λ links. links ≡ [] ∷ (0 ∷ []) ∷ (0 ∷ []) ∷ (0 ∷ []) ∷ []) }
{
    let mut links = Sequence::open(alloc);
    push_links(alloc, &mut links)?;
    Ok(links)
}

/// Two nodes and three messages, which wait at the choices (0, 1), (1, 0) and (1, 1).
fn three(alloc: Global) -> Result<World<Relay>, NoMemory> {
    let links = three_links(alloc)?;
    let nodes = Sequence::from_vec(two_nodes(alloc)?);
    let input = Sequence::open(alloc);
    let log = Sequence::open(alloc);
    World::from_parts(
        alloc,
        Parts {
            nodes,
            links,
            input,
            log,
        },
    )
}

/// Looks at a world of two nodes that has taken an item 1 and what it made node 0 send.
fn see_end(rt: &impl Abort, world: &World<Relay>) {
    assert_eq!(rt; world.log(), [1, 0].as_slice());
    assert!(rt; world.complete());
    assert_eq!(rt; world.nodes().len(), 2);
}

/// Takes the item of a world and what it makes node 0 send, and looks at the world before, between and after.
fn take_both(rt: &impl Abort, world: &mut World<Relay>) -> Result<(), Fail> {
    assert!(rt; world.enabled(INPUT));
    assert!(rt; !world.enabled(FROM_ZERO));
    world.take(INPUT)?;
    assert!(rt; !world.complete());
    world.take(FROM_ZERO)?;
    see_end(rt, world);
    Ok(())
}

#[test]
fn a_step_sends_and_notes(rt: HostRuntime) -> Result<(), Fail> {
    let alloc = rt.alloc();
    let mut world = two(alloc, vec![in alloc; 1]?)?;
    take_both(&rt, &mut world)
}

/// A world of two nodes of which node 0 has taken an item 5, while an item 7 waits.
fn after_input(alloc: Global) -> Result<World<Relay>, Fail> {
    let mut world = two(alloc, vec![in alloc; 5, 7]?)?;
    world.take(INPUT)?;
    Ok(world)
}

/// Looks at the parts of the world `after_input`.
fn see_parts(rt: &impl Abort, parts: &Parts<Relay>) {
    assert_eq!(rt; parts.input.items(), [7].as_slice());
    assert_eq!(rt; parts.log.items(), [5].as_slice());
    assert_eq!(rt; parts.links.items().len(), 4);
    assert_eq!(rt; parts.links.items()[1].items(), [4].as_slice());
}

#[test]
fn the_parts_are_what_the_world_holds(rt: HostRuntime) -> Result<(), Fail> {
    let alloc = rt.alloc();
    let parts = after_input(alloc)?.parts()?;
    see_parts(&rt, &parts);
    let world = World::from_parts(alloc, parts)?;
    assert!(rt; world.enabled(FROM_ZERO));
    Ok(())
}

/// The choices that a schedule makes of the three messages.
fn scheduled(alloc: Global, schedule: Schedule) -> Result<Choices, Fail> {
    let start = three(alloc)?;
    let (_, choices) = run_schedule(alloc, start, schedule)?;
    Ok(choices)
}

/// Looks whether a schedule makes these choices of the three messages.
fn see_schedule(
    rt: &impl Abort,
    alloc: Global,
    schedule: Schedule,
    wanted: [Choice; 3],
) -> Result<(), Fail> {
    let choices = scheduled(alloc, schedule)?;
    assert_eq!(rt; choices.to_vec(alloc)?.as_slice(), wanted.as_slice());
    Ok(())
}

#[test]
fn the_schedules_take_the_first_the_last_and_by_words(rt: HostRuntime) -> Result<(), Fail> {
    let alloc = rt.alloc();
    let a = Choice { node: 0, port: 1 };
    let b = Choice { node: 1, port: 0 };
    let c = Choice { node: 1, port: 1 };
    see_schedule(&rt, alloc, Schedule::First, [a, b, c])?;
    see_schedule(&rt, alloc, Schedule::Last, [c, b, a])?;
    // The words from 1234567 begin 6457827717110365317 and 3203168211198807973.
    see_schedule(&rt, alloc, Schedule::Number(1234567), [a, c, b])
}

/// A world of two nodes, of which node 0 hears of an item 2 and then of an item 1.
fn two_items(alloc: Global) -> Result<World<Relay>, Fail> {
    Ok(two(alloc, vec![in alloc; 2, 1]?)?)
}

/// Looks whether two worlds have the notes of the world `two_items` at its end.
fn see_notes(rt: &impl Abort, world: &World<Relay>, again: &World<Relay>) {
    assert_eq!(rt; again.log(), world.log());
    assert_eq!(rt; world.log(), [2, 1, 0, 1, 0].as_slice());
}

/// Looks whether a replay of these choices makes the notes of a world.
fn see_replay(
    rt: &impl Abort,
    alloc: Global,
    world: &World<Relay>,
    choices: &Choices,
) -> Result<(), Fail> {
    let again = replay(two_items(alloc)?, choices)?;
    see_notes(rt, world, &again);
    Ok(())
}

#[test]
fn a_replay_of_a_schedule_is_its_world(rt: HostRuntime) -> Result<(), Fail> {
    let alloc = rt.alloc();
    let start = two_items(alloc)?;
    let (world, choices) = run_schedule(alloc, start, Schedule::Last)?;
    see_replay(&rt, alloc, &world, &choices)
}

/// Steps of a node, each with its stamp and its port.
type Steps = [(u64, u8); 2];

/// A history of a node with these steps.
fn history(alloc: Global, node: u8, steps: Steps) -> Result<History, NoMemory> {
    let steps = Sequence::from_vec(Vec::from_slice(alloc, steps.as_slice())?);
    Ok(History { node, steps })
}

/// The histories of nodes 0 and 1 with these steps.
fn histories(alloc: Global, zero: Steps, one: Steps) -> Result<Vec<History>, NoMemory> {
    let mut all = Vec::new(alloc);
    all.push(history(alloc, 0, zero)?)?;
    all.push(history(alloc, 1, one)?)?;
    Ok(all)
}

/// Looks whether the histories of nodes 0 and 1 with these steps merge to the order of their stamps, by nodes where these are equal.
fn see_merge(rt: &impl Abort, alloc: Global, zero: Steps, one: Steps) -> Result<(), Fail> {
    let merged = merge(alloc, histories(alloc, zero, one)?.as_slice())?;
    let back = Choice { node: 0, port: 1 };
    let wanted = [INPUT, FROM_ZERO, FROM_ZERO, back];
    assert_eq!(rt; merged.to_vec(alloc)?.as_slice(), wanted.as_slice());
    Ok(())
}

#[test]
fn a_merge_is_the_same_from_fronts_and_by_sorting(rt: HostRuntime) -> Result<(), Fail> {
    let alloc = rt.alloc();
    see_merge(&rt, alloc, [(1, 0), (3, 1)], [(1, 0), (2, 0)])?;
    see_merge(&rt, alloc, [(3, 1), (1, 0)], [(2, 0), (1, 0)])
}
