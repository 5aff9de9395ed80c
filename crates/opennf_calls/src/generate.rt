ghost use Rattle.std.specs.Prelude.{◌≡◌, MatchResult, []};
ghost use Rattle.nf_io.specs.declared.outside.Role.TheVariants.{TraceOut as TraceOutRole};
ghost use Rattle.trace_reader.specs.Generated.{capture};
ghost use Rattle.command_words.specs.Requests.{asks_gen};
ghost use Rattle.command_words.specs.RequestViews.{gen_view};
ghost use Rattle.call_files.specs.Files.{IsBound};
ghost use Rattle.opennf_calls.specs.Outcome.{gen_line};
ghost use Rattle.opennf_calls.specs.Ended.{Performs};
ghost use Rattle.call_files.specs.Writing.{Wrote, all_of};

use crate::reporting::put_report;
use call_files::{Line, Status};
use command_words::Generating;
use itoa::Buffer;
use nf_io::{Outside, Role, RoleSink};
use std::alloc::Global;
use trace_reader::make_trace;

/// Writes the capture to its file, which is bound, and then a line with its numbers.
pub fn generate<O: Outside>(alloc: Global, asked: &Generating<'_>, outside: &mut O) -> Status
    requires { IsBound (asks_gen (gen_view asked.now)) (O.seen outside.old) }
    ensures { Performs (asks_gen (gen_view asked.now)) (O.seen outside.old) (O.seen outside.new) (record { status = result; choices = [] }) }
{
    match write_capture(alloc, asked, outside) {
        Ok(()) => put_report(outside, numbers_line(asked).as_bytes()),
        Err(status) => status,
    }
}

fn write_capture<O: Outside>(
    alloc: Global,
    asked: &Generating<'_>,
    outside: &mut O,
) -> Result<(), Status>
    requires { IsBound (asks_gen (gen_view asked.now)) (O.seen outside.old) }

    // The capture was written and nothing else changed, or the command ended with this status.
    ensures { MatchResult result
        (λ _. Wrote TraceOutRole (O.seen outside.old) (O.seen outside.new) (all_of (capture asked.now.number asked.now.packets asked.now.hosts)))
        (λ status. Performs (asks_gen (gen_view asked.now)) (O.seen outside.old) (O.seen outside.new) (record { status = status; choices = [] })) }
{
    let mut sink = RoleSink {
        outside,
        role: Role::TraceOut,
    };
    make_trace(alloc, asked.number, asked.packets, asked.hosts, &mut sink)?;
    Ok(())
}

/// The line with the capture's numbers.
#[tactic(auto, unfolding(crate::specs::Outcome::gen_line))]
fn numbers_line(asked: &Generating<'_>) -> Line
    ensures { result.bytes ≡ gen_line (gen_view asked.now) }
{
    let mut buffer = Buffer::new();
    let mut line = Line::new();
    line.push_str("gen number ");
    line.push_str(buffer.format(asked.number));
    line.push_str(" packets ");
    line.push_str(buffer.format(asked.packets));
    line.push_str(" hosts ");
    line.push_str(buffer.format(asked.hosts));
    line.push_str("\n");
    line
}
