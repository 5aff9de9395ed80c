//! A two-phase update, for each function.
ghost use Rattle.std.specs.Prelude.{◌≡◌, IfOk};
ghost use Rattle.command_words.specs.RequestViews.{published_view};
ghost use Rattle.two_phase.specs.Report.{two_text};
ghost use Rattle.two_phase.specs.Start.{IsUpdateJob};
ghost use Rattle.call_files.specs.Phases.{reports};
ghost use Rattle.network_calls.specs.RunSteps.{AreRead, made_with};
ghost use Rattle.network_calls.specs.UpdateRuns.{HasUpdate, IsUpdateOf, scene_of, update_for};

use crate::ranges::are_in_range;
use actor_net::{Choices, Schedule, ScheduleFault, World};
use basics::NoMemory;
use call_files::Made;
use command_words::Publishing;
use function_kinds::{ForFunction, for_kind};
use nf_function::Function;
use std::alloc::Global;
use trace_reader::Trace;
use two_phase::{TwoHead, TwoNode, discard, report_two, simulate_two};

/// Runs an update by a schedule. Its instances have the function that the words name.
pub fn run_update(
    alloc: Global,
    asked: &Publishing<'_>,
    trace: Trace,
    schedule: Schedule,
) -> Result<Made, NoMemory>
    requires { AreRead trace.packets }
    ensures { IfOk result (λ made. HasUpdate (published_view asked.now) (scene_of asked.now trace) schedule (reports made)) }
{
    are_in_range(asked.site, asked.filter);
    let updating = Updating {
        alloc,
        asked,
        trace,
        schedule,
    };
    for_kind(asked.kind, updating)
}

/// An update, for any function.
#[derive(Drop)]
struct Updating<'a, 'w> {
    alloc: Global,
    asked: &'a Publishing<'w>,
    trace: Trace,
    schedule: Schedule,
}

impl ForFunction for Updating<'_, '_> {
    type Output = Result<Made, NoMemory>;

    ghost may = { λ w kind. (kind ≡ w.asked.now.kind) × IsUpdateJob w.asked.now.kind (update_for (published_view w.asked.now) (scene_of w.asked.now w.trace)) };

    ghost gives = { λ w R F f r. IfOk r (λ made. IsUpdateOf F f (published_view w.asked.now) (scene_of w.asked.now w.trace) w.schedule (reports made)) };

    /// The schedule comes to the end of the run.
    fn call<F: Function + Send>(self) -> Result<Made, NoMemory>
    where
        F::Record: Send,
    {
        let Trace {
            packets,
            skipped,
            cut,
        } = self.trace;
        let head = TwoHead {
            kind: self.asked.kind,
            window: self.asked.window,
            packets: packets.items().len() as u32,
            skipped,
            cut,
        };
        let (site, window) = (self.asked.site, self.asked.window);
        let ended = simulate_two::<F>(
            self.alloc,
            site,
            window,
            self.asked.filter,
            self.asked.at,
            packets,
            self.schedule,
        );
        let (world, choices) = match ended {
            Ok(ended) => ended,
            Err(ScheduleFault::Unfinished { step: _step }) => unreachable!(),
            Err(ScheduleFault::NoMemory) => return Err(NoMemory),
        };
        report_update(self.alloc, &head, world, choices)
    }
}

/// What comes of a run that led to a world. The world is dropped.
fn report_update<F: Function>(
    alloc: Global,
    head: &TwoHead,
    world: World<TwoNode<F>>,
    choices: Choices,
) -> Result<Made, NoMemory>
    ensures { IfOk result (λ made. made ≡ made_with choices (two_text F.semantics head.now world)) }
{
    let report = report_two(alloc, head, &world);
    discard(world);
    let report = report?;
    Ok(Made { choices, report })
}
