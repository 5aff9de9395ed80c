//! A failover in the run of a network, for each function.
ghost use Rattle.std.specs.Prelude.{◌≡◌, ◌≢◌, ◌<◌, length, MatchResult};
ghost use Rattle.trace_reader.specs.Records.{AreNumbered};
ghost use Rattle.command_words.specs.Requests.{FailAsked, NetworkAsked};
ghost use Rattle.command_words.specs.RequestViews.{fail_view, network_view};
ghost use Rattle.net_world.specs.Input.{packets, IsInput};
ghost use Rattle.call_files.specs.Scenarios.{Scenario};
ghost use Rattle.network_calls.specs.FailRuns.{HasFailover, IsFailover};
ghost use Rattle.network_calls.specs.NetworkRuns.{run_given};
ghost use Rattle.call_files.specs.Phases.{CanBegin, reports, scenario_of};
ghost use Rattle.network_calls.specs.RunSteps.{IsNoFailoverAs, IsOpening, IsRefusedFailover, audit_status, made_with};

use crate::network::{Opening, open, status_of};
use actor_net::Choices;
use basics::Text;
use call_files::{Inputs, Made, Status};
use command_words::FailRequest;
use function_kinds::{ForFunction, for_kind};
use net_world::Config;
use nf_function::Function;
use nf_msgs::Msg;
use run_headline::{AuditFault, Failing, Head, packets_of, promote_with, report_failover};
use std::alloc::Global;

/// Takes the first of some choices, and makes the report of what is left where the instance fails.
pub fn run_failed(
    alloc: Global,
    asked: &FailRequest<'_>,
    inputs: Inputs,
    choices: Choices,
) -> Result<Made, Status>
    requires { CanBegin (network_view asked.now.network) (scenario_of asked.now.network.site inputs) }
    ensures { MatchResult result
        (λ made. HasFailover (fail_view asked.now) (scenario_of asked.now.network.site inputs) choices (reports made))
        (IsRefusedFailover (fail_view asked.now) (scenario_of asked.now.network.site inputs) choices) }
{
    let failed = Failed {
        alloc,
        asked,
        inputs,
        choices,
    };
    for_kind(asked.network.kind, failed)
}

/// A failover, for any function.
#[derive(Drop)]
struct Failed<'a, 'w> {
    alloc: Global,
    asked: &'a FailRequest<'w>,
    inputs: Inputs,
    choices: Choices,
}

impl ForFunction for Failed<'_, '_> {
    type Output = Result<Made, Status>;

    ghost may = { λ w kind. (kind ≡ w.asked.now.network.kind) × CanBegin (network_view w.asked.now.network) (scenario_of w.asked.now.network.site w.inputs) };

    ghost gives = { λ w R F f r. MatchResult r
        (λ made. IsFailover (run_given F f (network_view w.asked.now.network) (scenario_of w.asked.now.network.site w.inputs))
        (fail_view w.asked.now) w.choices (reports made))
        (IsNoFailoverAs (run_given F f (network_view w.asked.now.network) (scenario_of w.asked.now.network.site w.inputs)) (fail_view w.asked.now) w.choices) };

    fn call<F: Function + Send>(self) -> Result<Made, Status>
    where
        F::Record: Send,
    {
        let mut choices = self.choices;
        match fail_told::<F>(self.alloc, self.asked, self.inputs, &mut choices) {
            Ok(report) => Ok(Made { choices, report }),
            Err(fault) => Err(status_of(fault)),
        }
    }
}

/// The report of what is left. Of the choices the first so many are then left.
fn fail_told<F: Function>(
    alloc: Global,
    asked: &FailRequest<'_>,
    inputs: Inputs,
    choices: &mut Choices,
) -> Result<Text, AuditFault>
    requires kind { F.semantics.kind ≡ asked.now.network.kind }
    requires sound { CanBegin (network_view asked.now.network) (scenario_of asked.now.network.site inputs) }
    ensures { MatchResult result
        (λ report. IsFailover (run_given F.row.Denot F.semantics (network_view asked.now.network) (scenario_of asked.now.network.site inputs))
        (fail_view asked.now) choices.old (reports (made_with choices.new report)))
        (λ fault. IsNoFailoverAs (run_given F.row.Denot F.semantics (network_view asked.now.network) (scenario_of asked.now.network.site inputs))
        (fail_view asked.now) choices.old (audit_status fault)) }
{
    let Opening {
        config,
        items,
        head,
    } = open(alloc, &asked.network, inputs)?;
    let failing = Failing {
        failed: asked.failed,
        to: asked.to,
        after: asked.after,
    };
    fail_opened::<F>(alloc, &config, items, &head, choices, &failing)
}

/// The same, of a network before its start, whatever words and files it is of.
fn fail_opened<F: Function>(
    alloc: Global,
    config: &Config,
    items: Vec<Msg>,
    head: &Head,
    choices: &mut Choices,
    failing: &Failing,
) -> Result<Text, AuditFault>
    requires input { IsInput F.semantics.kind config.now items.items }
    requires numbered { AreNumbered 1 (packets items.items) }
    requires failed { failing.now.failed < length config.now.names }
    requires to { failing.now.to < length config.now.names }
    requires two { failing.now.failed ≢ failing.now.to }
    ensures { (s : NetworkAsked) (g : Scenario)
        → let asked : FailAsked = record { network = s; failed = failing.now.failed; to = failing.now.to; after = failing.now.after } in
        IsOpening s g (record { config = config.now; items = items; head = head.now }) → MatchResult result
        (λ report. IsFailover (run_given F.row.Denot F.semantics s g) asked choices.old (reports (made_with choices.new report)))
        (λ fault. IsNoFailoverAs (run_given F.row.Denot F.semantics s g) asked choices.old (audit_status fault)) }
{
    let trace = packets_of(alloc, items.as_slice())?;
    let promoted = match promote_with::<F>(alloc, config, items, &trace, choices, failing) {
        Ok(promoted) => promoted,
        Err(fault) => return Err(fault),
    };
    let made = report_failover(alloc, head, failing, promoted, config, &trace);
    drop(trace);
    let (report, table) = made?;
    drop(table);
    Ok(report)
}
