//! The line that goes to the standard error where a command did not end well.
ghost use Rattle.std.specs.Prelude.{◌≡◌, ◌≤◌, ◌+◌, ◌++◌, decimal, length};
ghost use Rattle.call_files.specs.Status.{line_of, script_line_of, trace_line_of, journal_line_of, no_run_line_of, fault_line_of, trace_kind_number};
ghost use Rattle.call_files.specs.LineRoom.{line_room, front_room, digits_room};

use crate::status::{
    JournalKind, Status, TraceKind, journal_kind_name, role_name, script_kind_name,
};
use arrayvec::ArrayString;
use itoa::Buffer;
use nf_io::Role;
use op_script::ScriptKind;

/// A line for the standard error, which takes no memory.
pub type Line = ArrayString<128>;

/// The line that says how a run ended, and no bytes where all is well.
#[tactic(auto, unfolding(crate::specs::Status::line_of))]
pub fn line(status: &Status) -> Line
    ensures { result.bytes ≡ line_of status.now }
{
    match *status {
        Status::Ok => Line::new(),
        Status::Usage => whole_line("opennf: bad words\n"),
        Status::BadScript { line, kind } => script_line(line, kind),
        Status::BadTrace { offset, kind } => trace_line(offset, kind),
        Status::BadJournal { kind } => journal_line(kind),
        Status::NotARun { step } => no_run_line(step),
        Status::ReadFault { role } => fault_line("opennf: read fault ", role),
        Status::WriteFault { role } => fault_line("opennf: write fault ", role),
        Status::NoMemory => whole_line("opennf: no memory\n"),
    }
}

/// A line with this text.
fn whole_line(text: &str) -> Line
    requires { length text.now ≤ line_room }
    ensures { result.bytes ≡ text.now }
{
    let mut line = Line::new();
    line.push_str(text);
    line
}

/// The front of a line, and a number in decimal digits.
fn counted_line(front: &str, number: u64) -> Line
    requires { length front.now ≤ front_room }
    ensures value { result.bytes ≡ front.now ++ decimal number }
    ensures short { length result.bytes ≤ front_room + digits_room }
{
    let mut line = whole_line(front);
    let mut buffer = Buffer::new();
    line.push_str(buffer.format(number));
    line
}

/// The line of a file that could not be read or written: what failed, and its role.
fn fault_line(front: &str, role: Role) -> Line
    requires { length front.now ≤ front_room }
    ensures { result.bytes ≡ fault_line_of front.now role }
{
    let mut line = whole_line(front);
    line.push_str(role_name(role));
    line.push_str("\n");
    line
}

/// The line of a script that breaks a rule: the number of its line, and the rule.
fn script_line(number: u32, kind: ScriptKind) -> Line
    ensures { result.bytes ≡ script_line_of number kind }
{
    let mut line = counted_line("opennf: script line ", u64::from(number));
    line.push_str(": ");
    line.push_str(script_kind_name(kind));
    line.push_str("\n");
    line
}

/// The line of a capture that breaks a rule: the byte, and the rule.
fn trace_line(offset: u64, kind: TraceKind) -> Line
    ensures { result.bytes ≡ trace_line_of offset kind }
{
    let mut line = whole_line("opennf: trace byte ");
    let mut buffer = Buffer::new();
    line.push_str(buffer.format(offset));
    line.push_str(": ");
    line.push_str(kind.name());
    line.push_str(kind_digits(&mut buffer, kind));
    line.push_str("\n");
    line
}

/// The line of a journal that breaks a rule.
fn journal_line(kind: JournalKind) -> Line
    ensures { result.bytes ≡ journal_line_of kind }
{
    let mut line = whole_line("opennf: journal: ");
    line.push_str(journal_kind_name(kind));
    line.push_str("\n");
    line
}

/// The line of a journal whose choices aren't a complete run.
fn no_run_line(step: u64) -> Line
    ensures { result.bytes ≡ no_run_line_of step }
{
    let mut line = counted_line("opennf: not a run at step ", step);
    line.push_str("\n");
    line
}

/// The number of a kind, in decimal digits, or no bytes where it has none.
fn kind_digits(buffer: &mut Buffer, kind: TraceKind) -> &str
    ensures value { result.now ≡ trace_kind_number kind }
    ensures short { length result.now ≤ digits_room }
{
    match kind {
        TraceKind::LinkType(number) => buffer.format(number),
        TraceKind::RecordLength(number) => buffer.format(number),
        _ => "",
    }
}
