//! The command `published`: a two-phase update by a schedule.
ghost use Rattle.command_words.specs.Requests.{asks_published};
ghost use Rattle.command_words.specs.RequestViews.{published_view};
ghost use Rattle.call_files.specs.Files.{IsBound};
ghost use Rattle.call_files.specs.Phases.{OnlyRead};
ghost use Rattle.opennf_calls.specs.Ended.{Performs, Prepares};

use actor_net::Schedule;
use call_files::{Made, Outcome, Status, read_packets, write_report};
use command_words::Publishing;
use network_calls::run_update;
use nf_io::Outside;
use std::alloc::Global;

/// Reads the capture, whose file is bound, runs the update by the schedule, and writes its report.
pub fn publish<O: Outside>(
    alloc: Global,
    asked: &Publishing<'_>,
    schedule: Schedule,
    outside: &mut O,
) -> Outcome
    requires { IsBound (asks_published (published_view asked.now) schedule) (O.seen outside.old) }
    ensures { Performs (asks_published (published_view asked.now) schedule) (O.seen outside.old) (O.seen outside.new) result }
{
    match make(alloc, asked, schedule, outside) {
        Ok(made) => write_report(made, outside),
        Err(status) => Outcome::without_run(alloc, status),
    }
}

/// Reads the capture and runs the update.
fn make<O: Outside>(
    alloc: Global,
    asked: &Publishing<'_>,
    schedule: Schedule,
    outside: &mut O,
) -> Result<Made, Status>
    requires { IsBound (asks_published (published_view asked.now) schedule) (O.seen outside.old) }
    ensures only { OnlyRead (O.seen outside.old) (O.seen outside.new) }
    ensures row { Prepares (asks_published (published_view asked.now) schedule) (O.seen outside.old) (O.seen outside.new) result }
{
    let trace = read_packets(alloc, outside)?;
    let made = run_update(alloc, asked, trace, schedule)?;
    Ok(made)
}
