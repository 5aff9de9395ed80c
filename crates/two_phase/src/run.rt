ghost use Rattle.std.specs.Prelude.{◌≡◌, ◌≢◌, ℕ, true, IfOk};
ghost use Rattle.std.specs.declared.alloc.Global.{Global as AnAllocator};
ghost use Rattle.actor_net.specs.Network.{is_done, run};
ghost use Rattle.actor_net.specs.Replays.{replay_of};
ghost use Rattle.actor_net.specs.Schedules.{scheduled};
ghost use Rattle.actor_net.specs.declared.schedule.TheConstants.{MOST_CHOICES};
ghost use Rattle.two_phase.specs.Start.{UpdateJob as AJob, IsUpdateJob, two_start};
ghost use Rattle.two_phase.specs.Tables.{node_ended, node_ready, node_step};
ghost use Rattle.two_phase.specs.Promises.{Published};

use crate::node::TwoNode;
use crate::starting::start;
use actor_net::{Choices, ReplayFault, Schedule, ScheduleFault, World, replay, run_schedule};
use flow_filter::{Filter, Packets, Site};
use nf_function::Function;
use std::alloc::Global;

/// Takes the choices in order, each by its node's row of the tables. What isn't handed back is dropped.
pub fn run_two<F: Function>(
    world: World<TwoNode<F>>,
    choices: &Choices,
) -> Result<World<TwoNode<F>>, ReplayFault>
    ensures replay { result ≢ Err ReplayFault.NoMemory → result ≡ replay_of node_ready (node_step F.semantics) choices.now world }
    ensures published { (alloc : AnAllocator) (job : AJob) → IsUpdateJob F.semantics.kind job → world ≡ two_start alloc job
        → IfOk result (λ reached. Published F.semantics job choices.now reached) }
{
    replay(world, choices)
}

/// Runs an update from its start by a schedule, until nothing is left to do.
pub fn simulate_two<F: Function>(
    alloc: Global,
    site: Site,
    window: u32,
    filter: Filter,
    at: u32,
    packets: Packets,
    schedule: Schedule,
) -> Result<(World<TwoNode<F>>, Choices), ScheduleFault>
    requires { IsUpdateJob F.semantics.kind (record { site = site; window = window; filter = filter; at = at; packets = packets }) }
    ensures choices { let job : AJob = record { site = site; window = window; filter = filter; at = at; packets = packets } in
        IfOk result (λ r. r.1 ≡ scheduled node_ready node_ended (node_step {F = F.row.Denot} F.semantics) MOST_CHOICES schedule (two_start alloc job)) }
    ensures world { let job : AJob = record { site = site; window = window; filter = filter; at = at; packets = packets } in
        IfOk result (λ r. r.0 ≡ run (node_step F.semantics) r.1 (two_start alloc job)) }
    ensures complete { IfOk result (λ r. is_done node_ended r.0 ≡ true) }
    ensures published { let job : AJob = record { site = site; window = window; filter = filter; at = at; packets = packets } in
        IfOk result (λ r. Published F.semantics job r.1 r.0) }
    ensures finished { (step : ℕ) → result ≢ Err (ScheduleFault.Unfinished step) }
{
    let world = start::<F>(alloc, site, window, filter, at, packets)?;
    run_schedule(alloc, world, schedule)
}

/// Drops a world that is done with, as `drop` does: what nodes and links are dropped by is proved here, and not in each crate above.
pub fn discard<F: Function>(world: World<TwoNode<F>>) {
    drop(world);
}
