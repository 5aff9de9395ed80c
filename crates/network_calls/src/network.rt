//! The run of a network, and what comes of it: by a schedule, by threads, or by choices that are told.
ghost use Rattle.std.specs.Prelude.{◌≡◌, Some, None, IfOk, MatchResult};
ghost use Rattle.command_words.specs.RequestViews.{network_view};
ghost use Rattle.network_calls.specs.Ends.{EndLaw};
ghost use Rattle.network_calls.specs.NetworkRuns.{HasRun, IsRunOf, run_given};
ghost use Rattle.call_files.specs.Phases.{CanBegin, scenario_of, gives};
ghost use Rattle.network_calls.specs.RunSteps.{IsOpening, IsRefusedRun, IsRefusedAs, audit_status, made_with};
ghost use Rattle.run_headline.specs.run_report.specs.Lines.{report_text};

use crate::threads::run_network;
use actor_net::{Choices, Schedule, ScheduleFault, World};
use addr_translator::Nat;
use asset_monitor::Monitor;
use basics::{NoMemory, TryCopy};
use call_files::{Inputs, Made, Setting, Status, input_of};
use command_words::NetworkRequest;
use conn_tracker::Conntrack;
use function_kinds::{ForFunction, for_kind};
use net_threads::Gate;
use net_world::{Config, Node, discard};
use nf_function::{Function, Kind};
use nf_msgs::Msg;
use run_headline::{AuditFault, Head, audit, report, simulate};
use std::alloc::Global;
use std::sync::Wait;
use std::thread::Threads;

/// A network before its start: what it is made of, its input, and what its report repeats.
#[derive(Drop)]
pub struct Opening {
    pub(crate) config: Config,
    pub(crate) items: Vec<Msg>,
    pub(crate) head: Head,
}

/// Runs the network by a schedule. Its instances have the function that the words name, as below.
pub fn run_scheduled(
    alloc: Global,
    asked: &NetworkRequest<'_>,
    inputs: Inputs,
    schedule: Schedule,
) -> Result<Made, NoMemory>
    requires { CanBegin (network_view asked.now) (scenario_of asked.now.site inputs) }
    ensures { IfOk result (λ made. HasRun (network_view asked.now) (scenario_of asked.now.site inputs) (Some schedule) (gives (network_view asked.now) made)) }
{
    let scheduled = Scheduled {
        alloc,
        asked,
        inputs,
        schedule,
    };
    for_kind(asked.kind, scheduled)
}

/// Runs the network by threads. What goes to other threads has to be known where the function is chosen, so this doesn't go through
/// [`for_kind`].
pub fn run_threaded<R: Threads + Wait + Sync, G: Gate>(
    rt: &R,
    alloc: Global,
    asked: &NetworkRequest<'_>,
    inputs: Inputs,
    gate: &G,
) -> Result<Made, NoMemory>
    requires { CanBegin (network_view asked.now) (scenario_of asked.now.site inputs) }
    ensures { IfOk result (λ made. HasRun (network_view asked.now) (scenario_of asked.now.site inputs) None (gives (network_view asked.now) made)) }
{
    let kind = asked.kind;
    match kind {
        Kind::Conntrack => thread_network::<R, Conntrack, G>(rt, alloc, asked, inputs, gate),
        Kind::Nat => thread_network::<R, Nat, G>(rt, alloc, asked, inputs, gate),
        Kind::Monitor => thread_network::<R, Monitor, G>(rt, alloc, asked, inputs, gate),
    }
}

/// Runs the network by choices, which are to be a complete run.
pub fn run_told(
    alloc: Global,
    asked: &NetworkRequest<'_>,
    inputs: Inputs,
    choices: Choices,
) -> Result<Made, Status>
    requires { CanBegin (network_view asked.now) (scenario_of asked.now.site inputs) }
    ensures { MatchResult result
        (λ made. HasRun (network_view asked.now) (scenario_of asked.now.site inputs) None (gives (network_view asked.now) made) × (made.choices ≡ choices))
        (IsRefusedRun (network_view asked.now) (scenario_of asked.now.site inputs) choices) }
{
    let told = Told {
        alloc,
        asked,
        inputs,
        choices,
    };
    for_kind(asked.kind, told)
}

/// A run by a schedule, for any function.
#[derive(Drop)]
struct Scheduled<'a, 'w> {
    alloc: Global,
    asked: &'a NetworkRequest<'w>,
    inputs: Inputs,
    schedule: Schedule,
}

impl ForFunction for Scheduled<'_, '_> {
    type Output = Result<Made, NoMemory>;

    ghost may = { λ w kind. (kind ≡ w.asked.now.kind) × CanBegin (network_view w.asked.now) (scenario_of w.asked.now.site w.inputs) };

    ghost gives = { λ w R F f r. IfOk r (λ made.
        IsRunOf (run_given F f (network_view w.asked.now) (scenario_of w.asked.now.site w.inputs)) (Some w.schedule) (gives (network_view w.asked.now) made)) };

    /// The schedule comes to the end of the run.
    fn call<F: Function + Send>(self) -> Result<Made, NoMemory>
    where
        F::Record: Send,
    {
        let Opening {
            config,
            items,
            head,
        } = open(self.alloc, self.asked, self.inputs)?;
        let ended = simulate::<F>(self.alloc, &config, items, self.schedule);
        drop(config);
        let (world, choices) = match ended {
            Ok(ended) => ended,
            Err(ScheduleFault::Unfinished { step: _step }) => unreachable!(),
            Err(ScheduleFault::NoMemory) => return Err(NoMemory),
        };
        report_run(self.alloc, &head, world, choices, self.asked.summary)
    }
}

/// A run by choices, for any function.
#[derive(Drop)]
struct Told<'a, 'w> {
    alloc: Global,
    asked: &'a NetworkRequest<'w>,
    inputs: Inputs,
    choices: Choices,
}

impl ForFunction for Told<'_, '_> {
    type Output = Result<Made, Status>;

    ghost may = { λ w kind. (kind ≡ w.asked.now.kind) × CanBegin (network_view w.asked.now) (scenario_of w.asked.now.site w.inputs) };

    ghost gives = { λ w R F f r. MatchResult r
        (λ made. IsRunOf (run_given F f (network_view w.asked.now) (scenario_of w.asked.now.site w.inputs)) None (gives (network_view w.asked.now) made)
        × (made.choices ≡ w.choices))
        (IsRefusedAs (run_given F f (network_view w.asked.now) (scenario_of w.asked.now.site w.inputs)) w.choices) };

    fn call<F: Function + Send>(self) -> Result<Made, Status>
    where
        F::Record: Send,
    {
        let Told {
            alloc,
            asked,
            inputs,
            choices,
        } = self;
        let Opening {
            config,
            items,
            head,
        } = open(alloc, asked, inputs)?;
        let audited = audit::<F>(alloc, &config, items, &head, &choices, asked.summary);
        drop(config);
        match audited {
            Ok(report) => Ok(Made { choices, report }),
            Err(fault) => Err(status_of(fault)),
        }
    }
}

/// Runs the network by threads.
fn thread_network<R: Threads + Wait + Sync, F: Function + Send, G: Gate>(
    rt: &R,
    alloc: Global,
    asked: &NetworkRequest<'_>,
    inputs: Inputs,
    gate: &G,
) -> Result<Made, NoMemory>
where
    F::Record: Send,
    requires kind { F.semantics.kind ≡ asked.now.kind }
    requires sound { CanBegin (network_view asked.now) (scenario_of asked.now.site inputs) }
    ensures { IfOk result (λ made. IsRunOf (run_given F.row.Denot F.semantics (network_view asked.now) (scenario_of asked.now.site inputs)) None
        (gives (network_view asked.now) made)) }
{
    let Opening {
        config,
        items,
        head,
    } = open(alloc, asked, inputs)?;
    let ended = run_network::<R, F, G>(rt, alloc, &config, items, gate);
    drop(config);
    let (world, choices) = ended?;
    report_run(alloc, &head, world, choices, asked.summary)
}

/// What comes of a run that led to a world. The world is dropped.
fn report_run<F: Function>(
    alloc: Global,
    head: &Head,
    world: World<Node<F>>,
    choices: Choices,
    summary: bool,
) -> Result<Made, NoMemory>
    ensures { IfOk result (λ made. made ≡ made_with choices (report_text F.semantics head.now summary world)) }
{
    let report = report(alloc, head, &world, summary);
    discard(world);
    let report = report?;
    Ok(Made { choices, report })
}

/// The status of choices that have no report, or don't lead to a failover.
pub(crate) fn status_of(fault: AuditFault) -> Status
    ensures { result ≡ audit_status fault }
{
    match fault {
        AuditFault::NotARun { step } => Status::NotARun { step },
        AuditFault::NoMemory => Status::NoMemory,
    }
}

/// The network before its start.
pub(crate) fn open(
    alloc: Global,
    asked: &NetworkRequest<'_>,
    inputs: Inputs,
) -> Result<Opening, NoMemory>
    requires sound { CanBegin (network_view asked.now) (scenario_of asked.now.site inputs) }
    ensures { IfOk result (IsOpening (network_view asked.now) (scenario_of asked.now.site inputs)) }
{
    let setting = Setting {
        kind: asked.kind,
        instances: &asked.instances,
        site: asked.site,
        window: asked.window,
    };
    let Inputs { script, trace } = inputs;
    let end = trace.end();
    let made = input_of(alloc, &setting, &script, trace.into_packets());
    drop(script);
    let (config, items) = made?;
    let names = config.names.copy()?;
    let head = Head {
        kind: asked.kind,
        names,
        window: asked.window,
        packets: end.packets,
        skipped: end.skipped,
        cut: end.cut,
    };
    Ok(Opening {
        config,
        items,
        head,
    })
}

/// The law of ends: each run of an input that ends once has few choices, and where none is enabled after them nothing is left to do.
pub fn runs_end<F: Function>()
    ensures { EndLaw F.row.Denot F.semantics }
{}
