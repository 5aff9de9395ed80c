//! The command `audit`: the run that a journal tells, again.
ghost use Rattle.command_words.specs.Requests.{asks_audit};
ghost use Rattle.command_words.specs.RequestViews.{network_view};
ghost use Rattle.opennf_calls.specs.Again.{AuditLaw};
ghost use Rattle.call_files.specs.Files.{IsBound};
ghost use Rattle.call_files.specs.Phases.{OnlyRead};
ghost use Rattle.opennf_calls.specs.Ended.{Performs, Prepares};

use call_files::{Made, Outcome, Status, read_choices, read_inputs, write_report};
use command_words::Auditing;
use network_calls::run_told;
use nf_io::Outside;
use std::alloc::Global;

/// Reads the script, the capture and the journal, whose files are bound, and writes the report of the run that the journal tells.
pub fn audit<O: Outside>(alloc: Global, asked: &Auditing<'_>, outside: &mut O) -> Outcome
    requires { IsBound (asks_audit (network_view asked.now.network)) (O.seen outside.old) }
    ensures { Performs (asks_audit (network_view asked.now.network)) (O.seen outside.old) (O.seen outside.new) result }
{
    match make(alloc, asked, outside) {
        Ok(made) => write_report(made, outside),
        Err(status) => Outcome::without_run(alloc, status),
    }
}

/// Reads the inputs and the journal, and takes its choices.
fn make<O: Outside>(alloc: Global, asked: &Auditing<'_>, outside: &mut O) -> Result<Made, Status>
    requires { IsBound (asks_audit (network_view asked.now.network)) (O.seen outside.old) }
    ensures only { OnlyRead (O.seen outside.old) (O.seen outside.new) }
    ensures row { Prepares (asks_audit (network_view asked.now.network)) (O.seen outside.old) (O.seen outside.new) result }
{
    let network = &asked.network;
    let inputs = read_inputs(alloc, network, outside)?;
    let count = network.instances.rows.len() as u8;
    let choices = read_choices(alloc, network.kind, count, outside)?;
    run_told(alloc, network, inputs, choices)
}

/// The law of audits: with the same words and inputs, that of the journal of a run isn't refused, and its report is the same.
pub fn audits_again()
    ensures { AuditLaw }
{}
