//! The run of a world by a chooser.
ghost use Rattle.std.specs.Prelude.{◌≡◌, ◌≢◌, ℕ, length, true, Err, IfOk};
ghost use Rattle.actor_net.specs.Network.{IsRun, run, is_done};
ghost use Rattle.actor_net.specs.Schedules.{scheduled, StopsShort};
ghost use Rattle.speed_core.specs.Choosers.{AreMadeBy, IsBySchedule};

use crate::fault::Fault;
use actor_net::{Actor, Choices, MOST_CHOICES, Schedule, World, run_schedule};
use actor_threads::{OpenGate, run_threads};
use std::alloc::Global;
use std::sync::Wait;
use std::thread::Threads;

/// Who makes the choices: a schedule, or the threads of the nodes.
#[derive(Clone, Copy, Debug, PartialEq, Eq)]
pub enum Chooser {
    Scheduled(Schedule),
    Threads,
}

/// The choices of a run of the world, after which nothing is left to do.
pub fn play<R: Threads + Wait + Sync, A: Actor + Send>(
    rt: &R,
    alloc: Global,
    world: World<A>,
    chooser: Chooser,
) -> Result<Choices, Fault>
where
    A::Message: Send,
    A::Note: Send,
    ensures run { IfOk result (λ choices. IsRun A.is_ready A.stepped choices world) }
    ensures complete { IfOk result (λ choices. is_done A.has_ended (run A.stepped choices world) ≡ true) }
    ensures chooser { IfOk result (AreMadeBy chooser (λ schedule. scheduled A.is_ready A.has_ended A.stepped MOST_CHOICES schedule world)) }

    // Only a schedule leaves a run unfinished, where it stops short after so many choices.
    ensures unfinished { (step : ℕ) → result ≡ Err (Fault.Unfinished step) → IsBySchedule chooser (λ schedule.
        (length (scheduled A.is_ready A.has_ended A.stepped MOST_CHOICES schedule world) ≡ step)
        × StopsShort A.is_ready A.has_ended (run A.stepped (scheduled A.is_ready A.has_ended A.stepped MOST_CHOICES schedule world) world) step) }
    ensures words { result ≢ Err Fault.Words }
{
    match chooser {
        Chooser::Scheduled(schedule) => {
            let (_end, choices) = run_schedule(alloc, world, schedule)?;
            Ok(choices)
        }
        Chooser::Threads => {
            let (_end, choices) = run_threads(rt, alloc, world, &OpenGate)?;
            Ok(choices)
        }
    }
}
