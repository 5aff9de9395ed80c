//! Strong sharing, for each function.
ghost use Rattle.std.specs.Prelude.{◌≡◌, ◌≤◌, IfOk, length};
ghost use Rattle.flow_filter.specs.Limits.{most_packets};
ghost use Rattle.command_words.specs.RequestViews.{strong_view};
ghost use Rattle.network_calls.specs.RunSteps.{AreRead, CanShare, made_with};
ghost use Rattle.call_files.specs.Phases.{reports};
ghost use Rattle.strong_share.specs.Report.{strong_text};
ghost use Rattle.network_calls.specs.StrongRuns.{HasSharing, IsSharingHead, IsSharingOf, sharing_scene};

use crate::ranges::are_in_range;
use actor_net::{Choices, Schedule, ScheduleFault, World};
use basics::NoMemory;
use call_files::Made;
use command_words::StrongRequest;
use function_kinds::{ForFunction, for_kind};
use nf_function::Function;
use std::alloc::Global;
use strong_share::{StrongHead, StrongNode, discard, report_strong, simulate_strong};
use trace_reader::Trace;

/// Runs strong sharing by a schedule. Its members have the function that the words name.
pub fn run_sharing(
    alloc: Global,
    asked: &StrongRequest<'_>,
    trace: Trace,
    schedule: Schedule,
) -> Result<Made, NoMemory>
    requires { AreRead trace.packets }
    ensures { IfOk result (λ made. HasSharing (strong_view asked.now) (sharing_scene asked.now trace) schedule (reports made)) }
{
    are_in_range(asked.site, asked.filter);
    let sharing = Sharing {
        alloc,
        asked,
        trace,
        schedule,
    };
    for_kind(asked.kind, sharing)
}

/// Strong sharing, for any function.
#[derive(Drop)]
struct Sharing<'a, 'w> {
    alloc: Global,
    asked: &'a StrongRequest<'w>,
    trace: Trace,
    schedule: Schedule,
}

impl ForFunction for Sharing<'_, '_> {
    type Output = Result<Made, NoMemory>;

    ghost may = { λ w kind. (kind ≡ w.asked.now.kind) × CanShare (strong_view w.asked.now) (sharing_scene w.asked.now w.trace) };

    ghost gives = { λ w R F f r. IfOk r (λ made. IsSharingOf F f (strong_view w.asked.now) (sharing_scene w.asked.now w.trace) w.schedule (reports made)) };

    /// The schedule comes to the end of the run.
    fn call<F: Function + Send>(self) -> Result<Made, NoMemory>
    where
        F::Record: Send,
    {
        let head = head_of(self.asked, &self.trace)?;
        let Trace { packets, .. } = self.trace;
        let (site, window) = (self.asked.site, self.asked.window);
        let members = member_count(self.asked);
        let ended = simulate_strong::<F>(
            self.alloc,
            site,
            window,
            members,
            self.asked.filter,
            packets,
            self.schedule,
        );
        let (world, choices) = match ended {
            Ok(ended) => ended,
            Err(ScheduleFault::Unfinished { step: _step }) => unreachable!(),
            Err(ScheduleFault::NoMemory) => return Err(NoMemory),
        };
        report_sharing(self.alloc, &head, world, choices)
    }
}

/// What comes of a run that led to a world. The world is dropped.
fn report_sharing<F: Function>(
    alloc: Global,
    head: &StrongHead,
    world: World<StrongNode<F>>,
    choices: Choices,
) -> Result<Made, NoMemory>
    ensures { IfOk result (λ made. made ≡ made_with choices (strong_text F.semantics head.now world)) }
{
    let report = report_strong(alloc, head, &world);
    discard(world);
    let report = report?;
    Ok(Made { choices, report })
}

/// How many members there are.
fn member_count(asked: &StrongRequest<'_>) -> u8
    ensures { result ≡ length asked.now.names }
{
    asked.names.items().len() as u8
}

/// What the report repeats of the words and the capture.
fn head_of(asked: &StrongRequest<'_>, trace: &Trace) -> Result<StrongHead, NoMemory>
    requires { length trace.now.packets ≤ most_packets }
    ensures { IfOk result (IsSharingHead (strong_view asked.now) trace.now) }
{
    let names = asked.names.copy()?;
    Ok(StrongHead {
        kind: asked.kind,
        names: names.into_vec(),
        window: asked.window,
        packets: trace.packets.items().len() as u32,
        skipped: trace.skipped,
        cut: trace.cut,
    })
}
