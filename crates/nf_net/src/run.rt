ghost use Rattle.std.specs.Prelude.{◌≡◌, ◌≢◌, ℕ, true, List, IfOk};
ghost use Rattle.std.specs.declared.alloc.Global.{Global as AnAllocator};
ghost use Rattle.nf_msgs.specs.declared.msg.Msg.{Msg as AMessage};
ghost use Rattle.actor_net.specs.Network.{is_done};
ghost use Rattle.actor_net.specs.Replays.{replay_of};
ghost use Rattle.net_world.specs.declared.config.Config.{Config as AConfig};
ghost use Rattle.net_world.specs.Input.{IsInput};
ghost use Rattle.net_world.specs.Jobs.{course_of, job_of};
ghost use Rattle.net_world.specs.Nodes.{node_ended, node_ready, node_step};
ghost use Rattle.nf_net.specs.Promises.{Completed, Promises, Standbys, Verdicts};
ghost use Rattle.net_world.specs.Runs.{choices_of, EndsIn, StopsAt};
ghost use Rattle.net_world.specs.Start.{started_with};
ghost use Rattle.net_world.specs.Window.{AllHome};

use actor_net::{Choices, ReplayFault, Schedule, ScheduleFault, World};
use net_world::{Config, Node, run_as_told, run_by_schedule, start};
use nf_function::Function;
use nf_msgs::Msg;
use std::alloc::Global;

/// Runs a network from its start by a schedule, until nothing is left to do.
pub fn simulate<F: Function>(
    alloc: Global,
    config: &Config,
    items: Vec<Msg>,
    schedule: Schedule,
) -> Result<(World<Node<F>>, Choices), ScheduleFault>
    requires { IsInput F.semantics.kind config.now items.items }
    ensures choices { IfOk result (λ r. r.1 ≡ choices_of {F = F.row.Denot} F.semantics (started_with alloc config.now items.items) schedule) }
    ensures end { IfOk result (λ r. EndsIn F.semantics (started_with alloc config.now items.items) schedule r.0) }
    ensures promises { IfOk result (λ r. Promises F.semantics config.now items.items r.0) }
    ensures verdicts { IfOk result
        (λ r. Verdicts {F = F.row.Denot} (job_of F.semantics config.now items.items) (course_of (started_with alloc config.now items.items) r.1)) }
    ensures standbys { IfOk result
        (λ r. Standbys {F = F.row.Denot} (job_of F.semantics config.now items.items) (course_of (started_with alloc config.now items.items) r.1)) }
    ensures completed { IfOk result (λ r. Completed F.semantics config.now items.items r.0) }
    ensures home { IfOk result (λ r. AllHome config.now r.0) }
    ensures unfinished { (step : ℕ) → result ≡ Err (ScheduleFault.Unfinished step)
        → StopsAt {F = F.row.Denot} F.semantics (started_with alloc config.now items.items) schedule step }
{
    let world = start::<F>(alloc, config, items)?;
    run_by_schedule(alloc, world, schedule)
}

/// Takes the choices in order, each by its node's row of the tables. What isn't handed back is dropped.
pub fn run_choices<F: Function>(
    world: World<Node<F>>,
    choices: &Choices,
) -> Result<World<Node<F>>, ReplayFault>
    ensures replay { result ≢ Err ReplayFault.NoMemory → result ≡ replay_of node_ready (node_step F.semantics) choices.now world }
    ensures promises { (alloc : AnAllocator) (config : AConfig) (items : List AMessage) → IsInput F.semantics.kind config items
        → world ≡ started_with alloc config items → IfOk result (λ reached. Promises F.semantics config items reached) }
    ensures verdicts { (alloc : AnAllocator) (config : AConfig) (items : List AMessage) → IsInput F.semantics.kind config items
        → world ≡ started_with alloc config items → IfOk result (λ reached. Verdicts (job_of F.semantics config items) (course_of world choices.now)) }
    ensures standbys { (alloc : AnAllocator) (config : AConfig) (items : List AMessage) → IsInput F.semantics.kind config items
        → world ≡ started_with alloc config items → IfOk result (λ reached. Standbys (job_of F.semantics config items) (course_of world choices.now)) }
    ensures completed { (alloc : AnAllocator) (config : AConfig) (items : List AMessage) → IsInput F.semantics.kind config items
        → world ≡ started_with alloc config items → IfOk result (λ reached. is_done node_ended reached ≡ true → Completed F.semantics config items reached) }
    ensures home { (alloc : AnAllocator) (config : AConfig) (items : List AMessage) → IsInput F.semantics.kind config items
        → world ≡ started_with alloc config items → IfOk result (λ reached. is_done node_ended reached ≡ true → AllHome config reached) }
{
    run_as_told(world, choices)
}
