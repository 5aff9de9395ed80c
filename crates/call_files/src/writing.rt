//! Writing to the roles of the outside.
ghost use Rattle.nf_io.specs.Meaning.{CanWrite};
ghost use Rattle.call_files.specs.Writing.{Wrote, written};

use nf_io::{Failed, Outside, Role, RoleSink, write_all};

/// Writes a whole text to a role.
pub fn put<O: Outside>(outside: &mut O, role: Role, text: &[u8]) -> Result<(), Failed>
    requires { CanWrite role (O.seen outside.old role) }
    ensures { Wrote role (O.seen outside.old) (O.seen outside.new) (written text.now result) }
{
    let mut sink = RoleSink { outside, role };
    write_all(&mut sink, text)
}
