//! The command `check`: the canonical text of a script.
ghost use Rattle.std.specs.Prelude.{MatchResult, []};
ghost use Rattle.nf_io.specs.declared.outside.Role.TheVariants.{Script as ScriptRole};
ghost use Rattle.command_words.specs.Requests.{asks_check};
ghost use Rattle.command_words.specs.RequestViews.{check_view};
ghost use Rattle.call_files.specs.Files.{IsBound};
ghost use Rattle.opennf_calls.specs.Outcome.{ForResults, RowOf};
ghost use Rattle.call_files.specs.Phases.{GivesReport, ReadAlone};
ghost use Rattle.opennf_calls.specs.Ended.{Performs};

use crate::reporting::put_report;
use call_files::{Status, read_said};
use command_words::Checking;
use flow_filter::Text;
use nf_io::Outside;
use op_script::print_script;
use std::alloc::Global;

/// Reads the script, whose file is bound, and writes its canonical text.
pub fn check<O: Outside>(alloc: Global, asked: &Checking<'_>, outside: &mut O) -> Status
    requires { IsBound (asks_check (check_view asked.now)) (O.seen outside.old) }
    ensures { Performs (asks_check (check_view asked.now)) (O.seen outside.old) (O.seen outside.new) (record { status = result; choices = [] }) }
{
    match read_canonical(alloc, asked, outside) {
        Ok(text) => put_report(outside, text.items()),
        Err(status) => status,
    }
}

/// Reads the script, and makes its canonical text. All memory that the command needs is taken here.
fn read_canonical<O: Outside>(
    alloc: Global,
    asked: &Checking<'_>,
    outside: &mut O,
) -> Result<Text, Status>
    requires { IsBound (asks_check (check_view asked.now)) (O.seen outside.old) }
    ensures alone { ReadAlone ScriptRole (O.seen outside.old) (O.seen outside.new) }

    // The text is the one that the command has for the script, or the status has its row.
    ensures row { MatchResult result
        (λ text. ForResults (asks_check (check_view asked.now)) (O.seen outside.old) (O.seen outside.new) (GivesReport [] text))
        (λ status. RowOf (asks_check (check_view asked.now)) (O.seen outside.old) (O.seen outside.new) (record { status = status; choices = [] })) }
{
    let names = asked.instances.names(alloc)?;
    let script = match read_said(alloc, asked.kind, names.items(), outside) {
        Ok(script) => script,
        Err(status) => return Err(status),
    };
    let text = print_script(alloc, &script, names.items())?;
    Ok(text)
}
