//! The run of a network by threads.
ghost use Rattle.std.specs.Prelude.{◌≡◌, ◌<◌, true, length, IfOk};
ghost use Rattle.actor_net.specs.Network.{is_done};
ghost use Rattle.actor_net.specs.declared.schedule.TheConstants.{MOST_CHOICES};
ghost use Rattle.net_world.specs.Length.{IsShort};
ghost use Rattle.net_world.specs.Input.{IsInput};
ghost use Rattle.net_world.specs.Jobs.{course_of, job_of};
ghost use Rattle.net_world.specs.Nodes.{node_ended};
ghost use Rattle.run_headline.specs.nf_net.specs.Promises.{Completed, Promises, Standbys, Verdicts};
ghost use Rattle.net_world.specs.Runs.{LeadsTo};
ghost use Rattle.net_world.specs.Start.{started_with};
ghost use Rattle.net_world.specs.Window.{AllHome};

use actor_net::{Choices, World};
use basics::NoMemory;
use net_threads::{Gate, run_world};
use net_world::{Config, Node, start};
use nf_function::Function;
use nf_msgs::Msg;
use std::alloc::Global;
use std::sync::Wait;
use std::thread::Threads;

/// Runs a network from its start, with a worker for each node, until nothing is left to do. The workers make the choices, which no
/// clause says.
pub fn run_network<R: Threads + Wait + Sync, F: Function + Send, G: Gate>(
    rt: &R,
    alloc: Global,
    config: &Config,
    items: Vec<Msg>,
    gate: &G,
) -> Result<(World<Node<F>>, Choices), NoMemory>
where
    F::Record: Send,
    requires { IsInput F.semantics.kind config.now items.items }
    ensures leads { IfOk result (λ r. LeadsTo F.semantics (started_with alloc config.now items.items) r.1 r.0) }
    ensures complete { IfOk result (λ r. is_done node_ended r.0 ≡ true) }
    ensures promises { IfOk result (λ r. Promises F.semantics config.now items.items r.0) }
    ensures verdicts { IfOk result
        (λ r. Verdicts {F = F.row.Denot} (job_of F.semantics config.now items.items) (course_of (started_with alloc config.now items.items) r.1)) }
    ensures standbys { IfOk result
        (λ r. Standbys {F = F.row.Denot} (job_of F.semantics config.now items.items) (course_of (started_with alloc config.now items.items) r.1)) }
    ensures completed { IfOk result (λ r. Completed F.semantics config.now items.items r.0) }
    ensures home { IfOk result (λ r. AllHome config.now r.0) }
    ensures few { IsShort items.items → IfOk result (λ r. length r.1 < MOST_CHOICES) }
{
    let opening = start::<F>(alloc, config, items)?;
    let (world, choices) = run_world(rt, alloc, opening, gate)?;
    Ok((world, choices))
}
