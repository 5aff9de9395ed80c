//! Runs of strong sharing: by a schedule, or by given choices.
ghost use Rattle.std.specs.Prelude.{◌≡◌, ◌≢◌, ◌<◌, ℕ, true, length, IfOk};
ghost use Rattle.std.specs.declared.alloc.Global.{Global as AnAllocator};
ghost use Rattle.flow_filter.specs.Limits.{most_packets};
ghost use Rattle.actor_net.specs.Network.{is_done};
ghost use Rattle.actor_net.specs.Replays.{replay_of};
ghost use Rattle.strong_share.specs.Start.{StrongJob as AJob, IsStrongJob, job_of, strong_start};
ghost use Rattle.strong_share.specs.Tables.{node_ended, node_ready, node_step};
ghost use Rattle.strong_share.specs.Runs.{choices_of, LeadsTo};
ghost use Rattle.strong_share.specs.Promises.{StrongCompleted, StrongEnds, StrongPromises};

use crate::node::StrongNode;
use crate::starting::start;
use actor_net::{Choices, ReplayFault, Schedule, ScheduleFault, World, replay, run_schedule};
use flow_filter::{Filter, Packets, Site};
use nf_function::Function;
use std::alloc::Global;

/// Runs strong sharing from its start by a schedule, until nothing is left to do. A schedule that stops short took the most choices that one may take, and
/// had more packets than a capture gives.
pub fn simulate_strong<F: Function>(
    alloc: Global,
    site: Site,
    window: u32,
    members: u8,
    filter: Filter,
    packets: Packets,
    schedule: Schedule,
) -> Result<(World<StrongNode<F>>, Choices), ScheduleFault>
    requires { IsStrongJob F.semantics.kind (job_of site window members filter packets) }
    ensures choices { IfOk result
        (λ r. r.1 ≡ choices_of {F = F.row.Denot} F.semantics (strong_start alloc (job_of site window members filter packets)) schedule) }
    ensures leads { IfOk result (λ r. LeadsTo F.semantics (strong_start alloc (job_of site window members filter packets)) r.1 r.0) }
    ensures complete { IfOk result (λ r. is_done node_ended r.0 ≡ true) }
    ensures promises { IfOk result (λ r. StrongPromises F.semantics (job_of site window members filter packets) r.0) }
    ensures completed { IfOk result (λ r. StrongCompleted F.semantics (job_of site window members filter packets) r.0) }
    ensures ends { IfOk result (λ r. StrongEnds (job_of site window members filter packets) r.1 r.0) }
    ensures unfinished { (step : ℕ) → result ≡ Err (ScheduleFault.Unfinished step) → most_packets < length packets }
{
    let world = start::<F>(alloc, site, window, members, filter, packets)?;
    run_schedule(alloc, world, schedule)
}

/// Takes the choices in order, each by its node's row of the tables. What isn't handed back is dropped.
pub fn run_strong<F: Function>(
    world: World<StrongNode<F>>,
    choices: &Choices,
) -> Result<World<StrongNode<F>>, ReplayFault>
    ensures replay { result ≢ Err ReplayFault.NoMemory → result ≡ replay_of node_ready (node_step F.semantics) choices.now world }
    ensures promises { (alloc : AnAllocator) (job : AJob) → IsStrongJob F.semantics.kind job → world ≡ strong_start alloc job
        → IfOk result (λ reached. StrongPromises F.semantics job reached) }
    ensures completed { (alloc : AnAllocator) (job : AJob) → IsStrongJob F.semantics.kind job → world ≡ strong_start alloc job
        → IfOk result (λ reached. is_done node_ended reached ≡ true → StrongCompleted F.semantics job reached) }
    ensures ends { (alloc : AnAllocator) (job : AJob) → IsStrongJob F.semantics.kind job → world ≡ strong_start alloc job
        → IfOk result (λ reached. StrongEnds job choices.now reached) }
{
    replay(world, choices)
}

/// Drops a world that is done with, as `drop` does: what nodes and links are dropped by is proved here, and not in each crate above.
pub fn discard<F: Function>(world: World<StrongNode<F>>) {
    drop(world);
}
