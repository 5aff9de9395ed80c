//! The command `fail`: what is left where an instance fails in the middle of the run that a journal tells.
ghost use Rattle.command_words.specs.Requests.{asks_fail};
ghost use Rattle.command_words.specs.RequestViews.{fail_view};
ghost use Rattle.call_files.specs.Files.{IsBound};
ghost use Rattle.call_files.specs.Phases.{OnlyRead};
ghost use Rattle.opennf_calls.specs.Ended.{Performs, Prepares};

use call_files::{Made, Outcome, Status, read_choices, read_inputs, write_report};
use command_words::FailRequest;
use network_calls::run_failed;
use nf_io::Outside;
use std::alloc::Global;

/// Reads the script, the capture and the journal, whose files are bound, and writes the report of what is left.
pub fn fail<O: Outside>(alloc: Global, asked: &FailRequest<'_>, outside: &mut O) -> Outcome
    requires { IsBound (asks_fail (fail_view asked.now)) (O.seen outside.old) }
    ensures { Performs (asks_fail (fail_view asked.now)) (O.seen outside.old) (O.seen outside.new) result }
{
    match make(alloc, asked, outside) {
        Ok(made) => write_report(made, outside),
        Err(status) => Outcome::without_run(alloc, status),
    }
}

/// Reads the inputs and the journal, and takes its first choices.
fn make<O: Outside>(alloc: Global, asked: &FailRequest<'_>, outside: &mut O) -> Result<Made, Status>
    requires { IsBound (asks_fail (fail_view asked.now)) (O.seen outside.old) }
    ensures only { OnlyRead (O.seen outside.old) (O.seen outside.new) }
    ensures row { Prepares (asks_fail (fail_view asked.now)) (O.seen outside.old) (O.seen outside.new) result }
{
    let network = &asked.network;
    let inputs = read_inputs(alloc, network, outside)?;
    let count = network.instances.rows.len() as u8;
    let choices = read_choices(alloc, network.kind, count, outside)?;
    run_failed(alloc, asked, inputs, choices)
}
