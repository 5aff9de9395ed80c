//! The words of the command line.
ghost use Rattle.std.specs.Prelude.{◌<◌, ◌≤◌};
ghost use Rattle.speed_core.specs.TokenWorlds.{most_nodes};
ghost use Rattle.speed_core.specs.NetworkWorld.{most_instances};

use crate::runs::Chooser;
use crate::tokens::Shape;
use actor_net::Schedule;

/// The most nodes of a world of tokens.
const MOST_NODES: u8 = 17;

/// The most instances of a network.
const MOST_INSTANCES: u8 = 16;

/// What the words ask for: a world, and who makes its choices.
#[derive(Clone, Copy, Debug)]
pub struct Task {
    pub chooser: Chooser,
    pub world: Setup,
}

/// Which world.
#[derive(Clone, Copy, Debug)]
pub enum Setup {
    Tokens(Tokens),
    Network(Network),
}

/// Nodes of a shape, with so many tokens that have so many hops each.
#[derive(Clone, Copy, Debug)]
pub struct Tokens {
    pub shape: Shape,
    pub nodes: u8,
    pub items: usize,
    pub hops: u32,
    ghost sized: { (1 < nodes) × (nodes ≤ most_nodes) },
}

/// A switch, a controller and so many instances, with so many packets and rounds of work on each.
#[derive(Clone, Copy, Debug)]
pub struct Network {
    pub instances: u8,
    pub packets: u64,
    pub rounds: u32,
    ghost sized: { (0 < instances) × (instances ≤ most_instances) },
}

/// What the words ask for, the program's name first; none where they are bad.
pub fn task_of(words: &[String]) -> Option<Task> {
    let [_program, world, chooser, nodes, items, each] = words else {
        return None;
    };
    let chooser = chooser_of(chooser.as_str())?;
    let nodes = nodes.as_str().parse::<u8>().ok()?;
    let items = items.as_str().parse::<usize>().ok()?;
    let each = each.as_str().parse::<u32>().ok()?;
    let world = match world.as_str() {
        "ring" => Setup::Tokens(tokens_of(Shape::Ring, nodes, items, each)?),
        "hub" => Setup::Tokens(tokens_of(Shape::Hub, nodes, items, each)?),
        "network" => Setup::Network(network_of(nodes, items as u64, each)?),
        _ => return None,
    };
    Some(Task { chooser, world })
}

/// Who makes the choices: `threads`, `first`, `last` or a number.
fn chooser_of(word: &str) -> Option<Chooser> {
    match word {
        "threads" => Some(Chooser::Threads),
        "first" => Some(Chooser::Scheduled(Schedule::First)),
        "last" => Some(Chooser::Scheduled(Schedule::Last)),
        number => {
            let number = number.parse::<u64>().ok()?;
            Some(Chooser::Scheduled(Schedule::Number(number)))
        }
    }
}

/// A world of tokens, where it has from 2 to 17 nodes.
fn tokens_of(shape: Shape, nodes: u8, items: usize, hops: u32) -> Option<Tokens> {
    if nodes < 2 || nodes > MOST_NODES {
        return None;
    }
    Some(Tokens {
        shape,
        nodes,
        items,
        hops,
    })
}

/// A world like the program's network, where it has from 3 to 18 nodes, of which all but two are instances.
fn network_of(nodes: u8, packets: u64, rounds: u32) -> Option<Network> {
    if nodes < 3 || nodes > MOST_INSTANCES + 2 {
        return None;
    }
    Some(Network {
        instances: nodes - 2,
        packets,
        rounds,
    })
}
