//! The nodes that pass tokens on, and the worlds that are made of them.
ghost use Rattle.std.specs.Prelude.{◌≡◌, ◌==◌, ◌<◌, ◌≤◌, ◌+◌, ◌-◌, ◌/◌, ◌%◌, true, if◌then◌else◌, [], ◌∷◌, length, map, replicate, IfOk};
ghost use Rattle.speed_core.specs.TokenWorlds.{most_nodes, reach_of, reaches_below};

use actor_net::{Actor, Outbox, World};
use basics::NoMemory;
use std::alloc::Global;

/// How the nodes send to each other.
#[derive(Clone, Copy, Debug, PartialEq, Eq)]
pub enum Shape {
    /// Each node sends to the next, and the last to node 0.
    Ring,
    /// Node 0 sends to one of the others, which half of the hops that are left chooses, and those send back.
    Hub,
}

/// A node. It sends a token to one of `count` nodes from `first` on, which half of the hops that are left chooses.
#[derive(Debug, Drop)]
pub struct Passer {
    first: u8,
    count: u8,
    ghost some: { 0 < count },
    ghost few: { first + count < 256 },
}

impl Passer {
    /// The node of this number.
    fn of(shape: Shape, number: u8, nodes: u8) -> Self
        requires { (number < nodes) × (1 < nodes) × (nodes ≤ most_nodes) }
        ensures { (result.first, result.count) ≡ reach_of shape nodes number }
    {
        match shape {
            Shape::Ring => Passer {
                first: (number + 1) % nodes,
                count: 1,
            },
            Shape::Hub if number == 0 => Passer {
                first: 1,
                count: nodes - 1,
            },
            Shape::Hub => Passer { first: 0, count: 1 },
        }
    }

    /// The node that a token with so many hops left is sent to.
    fn receiver(&self, hops: u32) -> u8
        ensures { result ≡ self.now.first + hops / 2 % self.now.count }
    {
        self.first + (hops / 2 % self.count as u32) as u8
    }
}

impl Actor for Passer {
    type Message = u32;

    type Note = u8;

    // A token with hops left goes on with one less, and one without is dropped.
    ghost stepped = { λ c port m. record { node = c; sends = if m == 0 then [] else (c.first + m / 2 % c.count, m - 1) ∷ []; notes = [] } };

    ghost is_ready = { λ c m. true };

    ghost has_ended = { λ c. true };

    fn ready(&self, _item: &u32) -> bool {
        true
    }

    fn step(&mut self, _port: u8, message: u32, out: &mut Outbox<u32, u8>) -> Result<(), NoMemory> {
        if message == 0 {
            return Ok(());
        }
        out.send(self.receiver(message), message - 1)
    }

    fn ended(&self) -> bool {
        true
    }
}

/// A world at its start, whose input is so many tokens with so many hops each.
pub fn token_world(
    alloc: Global,
    shape: Shape,
    nodes: u8,
    items: usize,
    hops: u32,
) -> Result<World<Passer>, NoMemory>
    requires { (1 < nodes) × (nodes ≤ most_nodes) }
    ensures nodes { IfOk result (λ w. map (λ p. (p.first, p.count)) w.nodes ≡ reaches_below shape nodes nodes) }
    ensures input { IfOk result (λ w. w.input ≡ replicate items hops) }
{
    let all = nodes_of(alloc, shape, nodes)?;
    World::start(alloc, all, Vec::from_elem(alloc, hops, items)?)
}

/// The nodes of a world.
fn nodes_of(alloc: Global, shape: Shape, nodes: u8) -> Result<Vec<Passer>, NoMemory>
    requires { (1 < nodes) × (nodes ≤ most_nodes) }
    ensures count { IfOk result (λ all. length all.items ≡ nodes) }
    ensures reaches { IfOk result (λ all. map (λ p. (p.first, p.count)) all.items ≡ reaches_below shape nodes nodes) }
{
    let mut all = Vec::new(alloc);
    for number in 0..nodes {
        all.push(Passer::of(shape, number, nodes))?;
    }
    Ok(all)
}
