//! An outside in memory in which no read fails, and no write while there is room.
ghost use Rattle.std.specs.Prelude.{ℕ, List, ◌≡◌, ◌<◌, ◌-◌, ◌^◌, Some, min, length, IsOk, IfOk, OnOk, OnErr};
ghost use Rattle.std.specs.Option.{ForSome};
ghost use Rattle.std.specs.Io.{ReadsAtMost, WritesAtMost};
ghost use Rattle.std.specs.Io.KnownBytes.{ReadConsumes, WriteAppends, append_known};

use crate::outside::{Failed, Outside, Role};
use crate::tape::Tape;
use basics::NoMemory;
use std::alloc::Global;

/// An outside in memory in which no read fails, and no write while there is room. A write that
/// wants more memory than there is has no other answer than `Failed`, and that alone is counted.
#[derive(Drop)]
pub struct CalmOutside {
    tapes: [Tape; 7],
    most: usize,
    ghost moves: { 0 < most },
}

impl CalmOutside {
    ghost use Rattle.nf_io.specs.declared.outside.Role.{Role};
    ghost use Rattle.nf_io.specs.Meaning.{OthersStay, blank};
    ghost use Rattle.nf_io.specs.Calm.{calm_in};

    /// No contents, no faults and no names. This takes no memory.
    pub fn open(alloc: Global) -> Self
        ensures seen { (role : Role) → calm_in result role ≡ blank }
        ensures piece { result.most ≡ 2 ^ 64 - 1 }
    {
        CalmOutside {
            tapes: [
                Tape::open(alloc),
                Tape::open(alloc),
                Tape::open(alloc),
                Tape::open(alloc),
                Tape::open(alloc),
                Tape::open(alloc),
                Tape::open(alloc),
            ],
            most: usize::MAX,
        }
    }

    /// Puts bytes after those that a role has left.
    pub fn put(&mut self, role: Role, bytes: &[u8]) -> Result<(), NoMemory>
        ensures ok { OnOk result (calm_in self.new role ≡ record (calm_in self.old role) {
          left = append_known (calm_in self.old role).left bytes.now;
        }) }
        ensures err { OnErr result (calm_in self.new role ≡ calm_in self.old role) }
        ensures others { OthersStay role (calm_in self.old) (calm_in self.new) }
        ensures names { (other : Role) → (calm_in self.new other).name ≡ (calm_in self.old other).name }
        ensures piece { self.new.most ≡ self.old.most }
    {
        let tape = &mut self.tapes[role.place()];
        tape.put(bytes)
    }

    /// Lets no call take more than `most` bytes.
    pub fn piece(&mut self, most: usize)
        requires { 0 < most }
        ensures piece { self.new.most ≡ most }
        ensures seen { (role : Role) → calm_in self.new role ≡ calm_in self.old role }
    {
        self.most = most;
    }

    /// The bytes written to a role.
    pub fn written(&self, role: Role) -> &[u8]
        ensures { (calm_in self.now role).written ≡ Some result.now }
    {
        self.tapes[role.place()].written()
    }
}

impl Outside for CalmOutside {
    ghost use Rattle.nf_io.specs.Meaning.{HasCause, OthersStay, CanRead, CanWrite, CanBind};
    ghost use Rattle.nf_io.specs.Calm.{calm_in, calm_shown, calm_ahead, calm_room};

    ghost seen = { calm_in };

    ghost shown = { calm_shown };

    ghost ahead = { calm_ahead };

    fn bind(&mut self, role: Role, name: &str) -> Result<(), NoMemory>
        requires { CanBind role (calm_in self.old role) }
        ensures ok { OnOk result (calm_in self.new role ≡ record (calm_in self.old role) { name = Some name.now }) }
        ensures err { OnErr result (calm_in self.new role ≡ calm_in self.old role) }
        ensures others { OthersStay role (calm_in self.old) (calm_in self.new) }
        ensures shown { (other : Role) (file : List ℕ) → calm_shown self.new other file ≡ calm_shown self.old other file }
        ensures piece { self.new.most ≡ self.old.most }
    {
        let tape = &mut self.tapes[role.place()];
        tape.bind(name)
    }

    /// As in the trait. It never fails, and takes as much as it can.
    fn read(&mut self, role: Role, buf: &mut [u8]) -> Result<usize, Failed>
        requires { CanRead role (calm_in self.old role) }
        ensures bound { ReadsAtMost result buf.new }
        ensures bytes { ReadConsumes (calm_in self.old role).left (calm_in self.new role).left result buf.new }
        ensures cause { HasCause (calm_in self.old role).faults (calm_in self.new role).faults result }
        ensures written { (calm_in self.new role).written ≡ (calm_in self.old role).written }
        ensures name { (calm_in self.new role).name ≡ (calm_in self.old role).name }
        ensures others { OthersStay role (calm_in self.old) (calm_in self.new) }
        ensures calm { IsOk result }
        ensures takes { ForSome (calm_in self.old role).left (λ left. IfOk result (λ n. n ≡ min (min (length buf.new) self.old.most) (length left))) }
        ensures piece { self.new.most ≡ self.old.most }
    {
        let most = self.most;
        let tape = &mut self.tapes[role.place()];
        Ok(tape.read(buf, most))
    }

    /// All that is left is at hand, as far as one call may take it.
    fn at_hand(&self, role: Role) -> &[u8] {
        let left = self.tapes[role.place()].left();
        &left[..left.len().min(self.most)]
    }

    fn skip(&mut self, role: Role, count: usize) {
        let tape = &mut self.tapes[role.place()];
        tape.skip(count)
    }

    /// As in the trait. It fails only where the room is too small.
    fn write(&mut self, role: Role, bytes: &[u8]) -> Result<usize, Failed>
        requires { CanWrite role (calm_in self.old role) }
        ensures bound { WritesAtMost result bytes.now }
        ensures moves { 0 < length bytes.now → IfOk result (λ n. 0 < n) }
        ensures bytes { WriteAppends (calm_in self.old role).written (calm_in self.new role).written result bytes.now }
        ensures cause { HasCause (calm_in self.old role).faults (calm_in self.new role).faults result }
        ensures left { (calm_in self.new role).left ≡ (calm_in self.old role).left }
        ensures name { (calm_in self.new role).name ≡ (calm_in self.old role).name }
        ensures others { OthersStay role (calm_in self.old) (calm_in self.new) }
        ensures room { OnErr result (calm_room self.old role < length bytes.now) }
        ensures calm { OnOk result ((calm_in self.new role).faults ≡ (calm_in self.old role).faults) }
        ensures takes { IfOk result (λ n. n ≡ min (length bytes.now) self.old.most) }
        ensures piece { self.new.most ≡ self.old.most }
    {
        let most = self.most;
        let tape = &mut self.tapes[role.place()];
        tape.write(bytes, most)
    }
}
