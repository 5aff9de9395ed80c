//! The command `sim`: a run of the network by a schedule.
ghost use Rattle.command_words.specs.Requests.{asks_sim};
ghost use Rattle.command_words.specs.RequestViews.{network_view};
ghost use Rattle.call_files.specs.Files.{IsBound};
ghost use Rattle.call_files.specs.Phases.{OnlyRead};
ghost use Rattle.opennf_calls.specs.Ended.{Performs, Prepares};

use actor_net::Schedule;
use call_files::{Made, Outcome, Status, read_inputs, write_results};
use command_words::NetworkRequest;
use network_calls::run_scheduled;
use nf_io::Outside;
use std::alloc::Global;

/// Reads the script and the capture, whose files are bound, runs the network by the schedule, and writes its journal, if the words name a
/// file for it, and its report.
pub fn simulate<O: Outside>(
    alloc: Global,
    asked: &NetworkRequest<'_>,
    schedule: Schedule,
    outside: &mut O,
) -> Outcome
    requires { IsBound (asks_sim (network_view asked.now) schedule) (O.seen outside.old) }
    ensures { Performs (asks_sim (network_view asked.now) schedule) (O.seen outside.old) (O.seen outside.new) result }
{
    match make(alloc, asked, schedule, outside) {
        Ok(made) => write_results(alloc, asked, made, outside),
        Err(status) => Outcome::without_run(alloc, status),
    }
}

/// Reads the inputs and runs the network.
fn make<O: Outside>(
    alloc: Global,
    asked: &NetworkRequest<'_>,
    schedule: Schedule,
    outside: &mut O,
) -> Result<Made, Status>
    requires { IsBound (asks_sim (network_view asked.now) schedule) (O.seen outside.old) }
    ensures only { OnlyRead (O.seen outside.old) (O.seen outside.new) }
    ensures row { Prepares (asks_sim (network_view asked.now) schedule) (O.seen outside.old) (O.seen outside.new) result }
{
    let inputs = read_inputs(alloc, asked, outside)?;
    let made = run_scheduled(alloc, asked, inputs, schedule)?;
    Ok(made)
}
