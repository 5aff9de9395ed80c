//! The report of a command that makes no run.
ghost use Rattle.std.specs.Prelude.{[]};
ghost use Rattle.nf_io.specs.declared.outside.Role.TheVariants.{Report as ReportRole};
ghost use Rattle.nf_io.specs.Meaning.{CanWrite};
ghost use Rattle.call_files.specs.Writing.{WroteReport};

use call_files::{Status, put};
use nf_io::{Outside, Role};

/// Writes a text as the report. The status is that of the whole command.
pub(crate) fn put_report<O: Outside>(outside: &mut O, text: &[u8]) -> Status
    requires { CanWrite ReportRole (O.seen outside.old ReportRole) }
    ensures { WroteReport (record { choices = []; report = text.now }) (O.seen outside.old) (O.seen outside.new) (record { status = result; choices = [] }) }
{
    match put(outside, Role::Report, text) {
        Ok(()) => Status::Ok,
        Err(_) => Status::WriteFault { role: Role::Report },
    }
}
