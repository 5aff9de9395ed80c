//! The run of a world by threads.
ghost use Rattle.std.specs.Prelude.{◌≡◌, true, IfOk};
ghost use Rattle.actor_net.specs.Network.{is_done};
ghost use Rattle.net_world.specs.Nodes.{node_ended};
ghost use Rattle.net_world.specs.Runs.{LeadsTo};

use actor_net::{Choices, World};
use actor_threads::{Gate, run_threads};
use basics::NoMemory;
use net_world::Node;
use nf_function::Function;
use std::alloc::Global;
use std::sync::Wait;
use std::thread::Threads;

/// Runs a world until nothing is left to do. The workers make the choices, which no clause says.
pub fn run_world<R: Threads + Wait + Sync, F: Function + Send, G: Gate>(
    rt: &R,
    alloc: Global,
    world: World<Node<F>>,
    gate: &G,
) -> Result<(World<Node<F>>, Choices), NoMemory>
where
    F::Record: Send,
    ensures leads { IfOk result (λ r. LeadsTo F.semantics world r.1 r.0) }
    ensures complete { IfOk result (λ r. is_done node_ended r.0 ≡ true) }
{
    run_threads(rt, alloc, world, gate)
}
