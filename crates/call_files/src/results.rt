//! Writing what comes of a run: its journal, and then its report.
ghost use Rattle.std.specs.Prelude.{◌≡◌, ◌≢◌, None};
ghost use Rattle.nf_io.specs.declared.outside.Role.TheVariants.{Report as ReportRole, JournalOut as JournalRole};
ghost use Rattle.nf_io.specs.Meaning.{CanWrite};
ghost use Rattle.command_words.specs.RequestViews.{network_view};
ghost use Rattle.call_files.specs.Writing.{WroteReport, WroteRun};

use crate::outcome::Outcome;
use crate::status::Status;
use crate::writing::put;
use actor_net::Choices;
use command_words::NetworkRequest;
use flow_filter::Text;
use journal_file::write_journal;
use nf_io::{Outside, Role};
use std::alloc::Global;

/// What comes of a run: its choices, and its report.
#[derive(Drop)]
pub struct Made {
    pub choices: Choices,
    pub report: Text,
}

/// Writes the journal of a run, if the words name a file for it, and then the report. All memory is taken before the first byte goes out.
pub fn write_results<O: Outside>(
    alloc: Global,
    asked: &NetworkRequest<'_>,
    made: Made,
    outside: &mut O,
) -> Outcome
    requires report { CanWrite ReportRole (O.seen outside.old ReportRole) }
    requires journal { asked.now.journal ≢ None → CanWrite JournalRole (O.seen outside.old JournalRole) }
    ensures { WroteRun (record { asked = network_view asked.now; made = made }) (O.seen outside.old) (O.seen outside.new) result }
{
    if asked.journal.is_none() {
        return write_report(made, outside);
    }
    let count = asked.instances.rows.len() as u8;
    let Ok(journal) = write_journal(alloc, asked.kind, count, &made.choices) else {
        return Outcome::without_run(alloc, Status::NoMemory);
    };
    match put(outside, Role::JournalOut, journal.items()) {
        Ok(()) => write_report(made, outside),
        Err(_) => Outcome {
            status: Status::WriteFault {
                role: Role::JournalOut,
            },
            choices: made.choices,
        },
    }
}

/// Writes the report of a run.
pub fn write_report<O: Outside>(made: Made, outside: &mut O) -> Outcome
    requires { CanWrite ReportRole (O.seen outside.old ReportRole) }
    ensures { WroteReport made (O.seen outside.old) (O.seen outside.new) result }
{
    let status = match put(outside, Role::Report, made.report.items()) {
        Ok(()) => Status::Ok,
        Err(_) => Status::WriteFault { role: Role::Report },
    };
    Outcome {
        status,
        choices: made.choices,
    }
}
