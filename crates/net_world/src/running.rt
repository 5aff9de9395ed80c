//! How a world is run: by a schedule, or by choices that are told. These calls are generic in the function alone, so that what nodes, links and messages are
//! dropped by is proved here, and not in each crate above.
ghost use Rattle.std.specs.Prelude.{◌≡◌, ◌≢◌, ℕ, true, length, IfOk};
ghost use Rattle.actor_net.specs.Network.{IsRun, is_done, run};
ghost use Rattle.actor_net.specs.Replays.{replay_of};
ghost use Rattle.actor_net.specs.Schedules.{scheduled, StopsShort};
ghost use Rattle.actor_net.specs.declared.schedule.TheConstants.{MOST_CHOICES};
ghost use Rattle.net_world.specs.Nodes.{node_ended, node_ready, node_step};

use crate::node::Node;
use actor_net::{Choices, ReplayFault, Schedule, ScheduleFault, World, replay, run_schedule};
use nf_function::Function;
use std::alloc::Global;

/// Takes choices by a schedule until nothing is left to do.
pub fn run_by_schedule<F: Function>(
    alloc: Global,
    world: World<Node<F>>,
    schedule: Schedule,
) -> Result<(World<Node<F>>, Choices), ScheduleFault>
    ensures choices { IfOk result
        (λ r. r.1 ≡ scheduled node_ready node_ended (node_step {F = F.row.Denot} F.semantics) MOST_CHOICES schedule world) }
    ensures world { IfOk result (λ r. r.0 ≡ run (node_step F.semantics) r.1 world) }
    ensures run { IfOk result (λ r. IsRun node_ready (node_step F.semantics) r.1 world) }
    ensures complete { IfOk result (λ r. is_done node_ended r.0 ≡ true) }
    ensures unfinished { (step : ℕ) → result ≡ Err (ScheduleFault.Unfinished step)
        → (length (scheduled node_ready node_ended (node_step {F = F.row.Denot} F.semantics) MOST_CHOICES schedule world) ≡ step)
        × StopsShort node_ready node_ended
        (run (node_step F.semantics) (scheduled node_ready node_ended (node_step {F = F.row.Denot} F.semantics) MOST_CHOICES schedule world) world) step }
{
    run_schedule(alloc, world, schedule)
}

/// Takes the choices in order. What isn't handed back is dropped.
pub fn run_as_told<F: Function>(
    world: World<Node<F>>,
    choices: &Choices,
) -> Result<World<Node<F>>, ReplayFault>
    ensures { result ≢ Err ReplayFault.NoMemory → result ≡ replay_of node_ready (node_step F.semantics) choices.now world }
{
    replay(world, choices)
}
