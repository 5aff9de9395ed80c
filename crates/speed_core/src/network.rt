//! A world like the program's network at its start.
ghost use Rattle.std.specs.Prelude.{◌≡◌, ◌<◌, ◌≤◌, ◌+◌, IfOk, vec_len};
ghost use Rattle.actor_net.specs.Opening.{opening};
ghost use Rattle.speed_core.specs.NetworkWorld.{most_instances, network_nodes, packets_below};

use crate::nodes::{Instance, Message, Node, Packet, Switch};
use crate::work::scramble;
use actor_net::World;
use basics::NoMemory;
use std::alloc::Global;

/// The world at its start: a switch, a controller and so many instances, with so many packets before them.
pub fn network_world(
    alloc: Global,
    instances: u8,
    packets: u64,
    rounds: u32,
) -> Result<World<Node>, NoMemory>
    requires { (0 < instances) × (instances ≤ most_instances) }
    ensures { IfOk result (λ w. w ≡ opening (network_nodes instances rounds instances) (packets_below packets)) }
{
    let nodes = nodes_of(alloc, instances, rounds)?;
    let items = packets_of(alloc, packets)?;
    World::start(alloc, nodes, items)
}

/// The switch, the controller, and then so many instances.
fn nodes_of(alloc: Global, instances: u8, rounds: u32) -> Result<Vec<Node>, NoMemory>
    requires { (0 < instances) × (instances ≤ most_instances) }
    ensures nodes { IfOk result (λ all. all.items ≡ network_nodes instances rounds instances) }
    ensures count { IfOk result (λ all. vec_len all ≡ instances + 2) }
{
    let mut all = Vec::new(alloc);
    all.push(Node::Switch(Switch {
        last: instances - 1,
        under_way: 0,
    }))?;
    all.push(Node::Controller)?;
    for _number in 0..instances {
        all.push(Node::Instance(Instance { rounds, digest: 0 }))?;
    }
    Ok(all)
}

/// So many packets, numbered from 0, each with a flow drawn from its number.
fn packets_of(alloc: Global, packets: u64) -> Result<Vec<Message>, NoMemory>
    ensures { IfOk result (λ all. all.items ≡ packets_below packets) }
{
    let mut all = Vec::new(alloc);
    for number in 0..packets {
        all.push(Message::Packet(Packet {
            number,
            flow: scramble(2, number),
            bytes: 0,
        }))?;
    }
    Ok(all)
}
