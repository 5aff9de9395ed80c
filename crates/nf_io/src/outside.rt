//! What the program reads and writes, by roles: what each call promises of the bytes, the faults and the names.
ghost use Rattle.std.specs.Prelude.{◌≡◌, ◌<◌, ◌≤◌, ℕ, List, Some, length, take, IfOk, OnOk, OnErr};
ghost use Rattle.std.specs.Option.{ForSome};
ghost use Rattle.std.specs.Io.{ReadsAtMost, WritesAtMost, StartsWith};
ghost use Rattle.std.specs.Io.KnownBytes.{ReadConsumes, WriteAppends, Consumes};

use basics::NoMemory;
use thiserror::Error;

/// A call that the outside couldn't serve, which it has counted.
#[derive(Clone, Copy, Debug, PartialEq, Eq, Error)]
#[error("the outside failed")]
pub struct Failed;

/// What a file is for.
#[derive(Clone, Copy, Debug, PartialEq, Eq)]
pub enum Role {
    /// The capture that is read.
    Trace,
    /// The script that is read.
    Script,
    /// The journal that is read.
    JournalIn,
    /// The report, which goes to the standard output.
    Report,
    /// The journal that is written.
    JournalOut,
    /// The capture that is written.
    TraceOut,
    /// The lines on what went wrong, which go to the standard error.
    Errors,
}

impl Role {
    ghost use Rattle.nf_io.specs.Roles.{role_place};

    /// Its place in a table of all seven.
    pub(crate) fn place(self) -> usize
        ensures place { result ≡ role_place self }
        ensures within { result < 7 }
    {
        self as usize
    }
}

/// What the program reads and writes. `Trace`, `Script` and `JournalIn` are read, the other roles
/// are written; `Report` and `Errors` need no name.
pub trait Outside {
    ghost use Rattle.nf_io.specs.declared.outside.Role.{Role};
    ghost use Rattle.nf_io.specs.Meaning.{Meaning, Shown, HasCause, OthersStay, CanRead, CanWrite, CanBind, with_bytes};

    /// What callers know of each role. Of a named file they know the bytes once the role has its name.
    ghost seen: { Self → Role → Meaning };

    /// The bytes that a role's file shows under a name, before the role has it.
    ghost shown: { Self → Role → List ℕ → Shown };

    /// The bytes of a role at hand: those that were read ahead and not yet taken.
    ghost ahead: { Self → Role → List ℕ };

    /// Notes the file that a role stands for, whose bytes are then the role's. It opens nothing.
    fn bind(&mut self, role: Role, name: &str) -> Result<(), NoMemory>
        requires { CanBind role (seen self.old role) }
        ensures ok { OnOk result (seen self.new role ≡ record (with_bytes (shown self.old role name.now) (seen self.old role)) { name = Some name.now }) }
        ensures err { OnErr result (seen self.new role ≡ seen self.old role) }
        ensures others { OthersStay role (seen self.old) (seen self.new) }
        ensures shown { (other : Role) (file : List ℕ) → shown self.new other file ≡ shown self.old other file };

    /// Takes the next bytes of a role into the front of a buffer. `Ok(0)` on a buffer that isn't
    /// empty is the end of input.
    fn read(&mut self, role: Role, buf: &mut [u8]) -> Result<usize, Failed>
        requires { CanRead role (seen self.old role) }
        ensures bound { ReadsAtMost result buf.new }
        ensures bytes { ReadConsumes (seen self.old role).left (seen self.new role).left result buf.new }
        ensures cause { HasCause (seen self.old role).faults (seen self.new role).faults result }
        ensures written { (seen self.new role).written ≡ (seen self.old role).written }
        ensures name { (seen self.new role).name ≡ (seen self.old role).name }
        ensures others { OthersStay role (seen self.old) (seen self.new) };

    /// The bytes of a role at hand, which are its next ones. There may be none.
    fn at_hand(&self, role: Role) -> &[u8]
        requires { CanRead role (seen self.now role) }
        ensures bytes { result.now ≡ ahead self.now role }
        ensures next { ForSome (seen self.now role).left (λ left. StartsWith left result.now) };

    /// Takes bytes that are at hand.
    fn skip(&mut self, role: Role, count: usize)
        requires read { CanRead role (seen self.old role) }
        requires at_hand { count ≤ length (ahead self.old role) }
        ensures bytes { Consumes (seen self.old role).left (seen self.new role).left (take count (ahead self.old role)) }
        ensures rest { seen self.new role ≡ record (seen self.old role) { left = (seen self.new role).left } }
        ensures others { OthersStay role (seen self.old) (seen self.new) };

    /// Appends a front of the bytes to a role. Of a piece that isn't empty at least one byte is
    /// taken.
    fn write(&mut self, role: Role, bytes: &[u8]) -> Result<usize, Failed>
        requires { CanWrite role (seen self.old role) }
        ensures bound { WritesAtMost result bytes.now }
        ensures moves { 0 < length bytes.now → IfOk result (λ n. 0 < n) }
        ensures bytes { WriteAppends (seen self.old role).written (seen self.new role).written result bytes.now }
        ensures cause { HasCause (seen self.old role).faults (seen self.new role).faults result }
        ensures left { (seen self.new role).left ≡ (seen self.old role).left }
        ensures name { (seen self.new role).name ≡ (seen self.old role).name }
        ensures others { OthersStay role (seen self.old) (seen self.new) };
}
