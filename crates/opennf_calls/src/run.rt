//! The command `run`: a run of the network by threads.
ghost use Rattle.command_words.specs.Requests.{asks_run};
ghost use Rattle.command_words.specs.RequestViews.{network_view};
ghost use Rattle.call_files.specs.Files.{IsBound};
ghost use Rattle.call_files.specs.Phases.{OnlyRead};
ghost use Rattle.opennf_calls.specs.Ended.{Performs, Prepares};

use actor_threads::Gate;
use call_files::{Made, Outcome, Status, read_inputs, write_results};
use command_words::NetworkRequest;
use network_calls::run_threaded;
use nf_io::Outside;
use std::alloc::Global;
use std::sync::Wait;
use std::thread::Threads;

/// Reads the script and the capture, whose files are bound, runs the network by threads, and writes its journal, if the words name a file
/// for it, and its report.
pub fn run<R: Threads + Wait + Sync, O: Outside, G: Gate>(
    rt: &R,
    alloc: Global,
    asked: &NetworkRequest<'_>,
    outside: &mut O,
    gate: &G,
) -> Outcome
    requires { IsBound (asks_run (network_view asked.now)) (O.seen outside.old) }
    ensures { Performs (asks_run (network_view asked.now)) (O.seen outside.old) (O.seen outside.new) result }
{
    match make(rt, alloc, asked, outside, gate) {
        Ok(made) => write_results(alloc, asked, made, outside),
        Err(status) => Outcome::without_run(alloc, status),
    }
}

/// Reads the inputs and runs the network.
fn make<R: Threads + Wait + Sync, O: Outside, G: Gate>(
    rt: &R,
    alloc: Global,
    asked: &NetworkRequest<'_>,
    outside: &mut O,
    gate: &G,
) -> Result<Made, Status>
    requires { IsBound (asks_run (network_view asked.now)) (O.seen outside.old) }
    ensures only { OnlyRead (O.seen outside.old) (O.seen outside.new) }
    ensures row { Prepares (asks_run (network_view asked.now)) (O.seen outside.old) (O.seen outside.new) result }
{
    let inputs = read_inputs(alloc, asked, outside)?;
    let made = run_threaded(rt, alloc, asked, inputs, gate)?;
    Ok(made)
}
