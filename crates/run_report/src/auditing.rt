//! The report of the run that choices are, and why they are none.
ghost use Rattle.std.specs.Prelude.{◌≡◌, ℕ, true, false, IfOk};
ghost use Rattle.actor_net.specs.Network.{is_done};
ghost use Rattle.net_world.specs.Input.{IsInput};
ghost use Rattle.net_world.specs.Jobs.{course_of, job_of};
ghost use Rattle.net_world.specs.Nodes.{node_ended};
ghost use Rattle.nf_net.specs.Promises.{Completed, Promises, Standbys, Verdicts};
ghost use Rattle.net_world.specs.Start.{IsConfig, started_with};
ghost use Rattle.net_world.specs.Window.{AllHome};
ghost use Rattle.run_report.specs.Audits.{IsAuditCause, IsCompleteRun, world_after};
ghost use Rattle.run_report.specs.Lines.{report_text};

use crate::reporting::report;
use actor_net::{Choices, World};
use basics::Text;
use net_world::{Config, Node, discard, is_complete};
use nf_function::Function;
use nf_msgs::Msg;
use nf_net::{AuditFault, run_course};
use report_lines::Head;
use std::alloc::Global;

/// The report of a network that takes these choices from its start. They must be a complete run.
pub fn audit<F: Function>(
    alloc: Global,
    config: &Config,
    items: Vec<Msg>,
    head: &Head,
    choices: &Choices,
    summary: bool,
) -> Result<Text, AuditFault>
    requires { IsConfig config.now }
    ensures run { IfOk result (λ _. IsCompleteRun {F = F.row.Denot} F.semantics (started_with alloc config.now items.items) choices.now) }
    ensures text { IfOk result (λ text. text
        ≡ report_text F.semantics head.now summary (world_after {F = F.row.Denot} F.semantics (started_with alloc config.now items.items) choices.now)) }
    ensures promises { IsInput F.semantics.kind config.now items.items → IfOk result
        (λ _. Promises F.semantics config.now items.items (world_after {F = F.row.Denot} F.semantics (started_with alloc config.now items.items) choices.now)) }
    ensures verdicts { IsInput F.semantics.kind config.now items.items → IfOk result
        (λ _. Verdicts {F = F.row.Denot} (job_of F.semantics config.now items.items) (course_of (started_with alloc config.now items.items) choices.now)) }
    ensures standbys { IsInput F.semantics.kind config.now items.items → IfOk result
        (λ _. Standbys {F = F.row.Denot} (job_of F.semantics config.now items.items) (course_of (started_with alloc config.now items.items) choices.now)) }
    ensures completed { IsInput F.semantics.kind config.now items.items → IfOk result (λ _. Completed F.semantics config.now items.items
        (world_after {F = F.row.Denot} F.semantics (started_with alloc config.now items.items) choices.now)) }
    ensures home { IsInput F.semantics.kind config.now items.items
        → IfOk result (λ _. AllHome config.now (world_after {F = F.row.Denot} F.semantics (started_with alloc config.now items.items) choices.now)) }
    ensures not_a_run { (step : ℕ) → result ≡ Err (AuditFault.NotARun step)
        → IsAuditCause {F = F.row.Denot} F.semantics (started_with alloc config.now items.items) choices.now step }
{
    let world = run_course::<F>(alloc, config, items, choices)?;
    let text = report_ended(alloc, head, &world, choices.len() as u64 + 1, summary);
    discard(world);
    text
}

/// The report of a world at its end. Else it lacks this step.
fn report_ended<F: Function>(
    alloc: Global,
    head: &Head,
    world: &World<Node<F>>,
    next: u64,
    summary: bool,
) -> Result<Text, AuditFault>
    ensures complete { IfOk result (λ _. is_done node_ended world.now ≡ true) }
    ensures text { IfOk result (λ text. text ≡ report_text F.semantics head.now summary world.now) }
    ensures not_a_run { (step : ℕ) → result ≡ Err (AuditFault.NotARun step) → (step ≡ next) × (is_done node_ended world.now ≡ false) }
{
    if !is_complete(world) {
        return Err(AuditFault::NotARun { step: next });
    }
    Ok(report(alloc, head, world, summary)?)
}
