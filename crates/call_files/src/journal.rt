//! Reading a journal: the choices of the run that it tells.
ghost use Rattle.std.specs.Prelude.{drop};
ghost use Rattle.std.specs.Option.{ForSome};
ghost use Rattle.nf_io.specs.declared.outside.Role.TheVariants.{JournalIn as JournalRole};
ghost use Rattle.nf_io.specs.Meaning.{CanRead};
ghost use Rattle.journal_file.specs.Reading.{GivesFrom, HasReadCause, count_of, journal_of, looked_at};
ghost use Rattle.call_files.specs.Phases.{ReadAlone};

use actor_net::Choices;
use journal_file::{JournalFault, read_journal_from};
use nf_function::Kind;
use nf_io::{Outside, Role, RoleSource};
use std::alloc::Global;

/// Reads the journal of so many instances.
pub fn read_choices<O: Outside>(
    alloc: Global,
    kind: Kind,
    instances: u8,
    outside: &mut O,
) -> Result<Choices, JournalFault>
    requires { CanRead JournalRole (O.seen outside.old JournalRole) }
    ensures journal { ForSome (O.seen outside.old JournalRole).left (λ bytes.
        GivesFrom (journal_of kind instances bytes) (drop (looked_at (count_of kind instances bytes)) bytes) (O.seen outside.new JournalRole).left result) }
    ensures cause { HasReadCause (O.seen outside.old JournalRole).faults (O.seen outside.new JournalRole).faults result }
    ensures alone { ReadAlone JournalRole (O.seen outside.old) (O.seen outside.new) }
{
    let mut source = RoleSource {
        outside,
        role: Role::JournalIn,
    };
    read_journal_from(alloc, &mut source, kind, instances)
}
