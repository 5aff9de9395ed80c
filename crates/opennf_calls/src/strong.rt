//! The command `strong`: strong sharing by a schedule.
ghost use Rattle.command_words.specs.Requests.{asks_strong};
ghost use Rattle.command_words.specs.RequestViews.{strong_view};
ghost use Rattle.call_files.specs.Files.{IsBound};
ghost use Rattle.call_files.specs.Phases.{OnlyRead};
ghost use Rattle.opennf_calls.specs.Ended.{Performs, Prepares};

use actor_net::Schedule;
use call_files::{Made, Outcome, Status, read_packets, write_report};
use command_words::StrongRequest;
use network_calls::run_sharing;
use nf_io::Outside;
use std::alloc::Global;

/// Reads the capture, whose file is bound, runs strong sharing by the schedule, and writes its report.
pub fn share<O: Outside>(
    alloc: Global,
    asked: &StrongRequest<'_>,
    schedule: Schedule,
    outside: &mut O,
) -> Outcome
    requires { IsBound (asks_strong (strong_view asked.now) schedule) (O.seen outside.old) }
    ensures { Performs (asks_strong (strong_view asked.now) schedule) (O.seen outside.old) (O.seen outside.new) result }
{
    match make(alloc, asked, schedule, outside) {
        Ok(made) => write_report(made, outside),
        Err(status) => Outcome::without_run(alloc, status),
    }
}

/// Reads the capture and runs the sharing.
fn make<O: Outside>(
    alloc: Global,
    asked: &StrongRequest<'_>,
    schedule: Schedule,
    outside: &mut O,
) -> Result<Made, Status>
    requires { IsBound (asks_strong (strong_view asked.now) schedule) (O.seen outside.old) }
    ensures only { OnlyRead (O.seen outside.old) (O.seen outside.new) }
    ensures row { Prepares (asks_strong (strong_view asked.now) schedule) (O.seen outside.old) (O.seen outside.new) result }
{
    let trace = read_packets(alloc, outside)?;
    let made = run_sharing(alloc, asked, trace, schedule)?;
    Ok(made)
}
