//! An outside in memory whose calls can be made to fail.
ghost use Rattle.std.specs.Prelude.{ℕ, List, ◌≡◌, ◌≢◌, ◌<◌, ◌-◌, ◌^◌, ◌++◌, ◌∷◌, [], false, Some, min, length, is_err, IsTrue, IsErr, IfOk, OnOk, OnErr};
ghost use Rattle.std.specs.Option.{ForSome};
ghost use Rattle.std.specs.Io.{ReadsAtMost, WritesAtMost};
ghost use Rattle.std.specs.Io.KnownBytes.{ReadConsumes, WriteAppends, append_known};

use crate::outside::{Failed, Outside, Role};
use crate::planned::PlannedTape;
use basics::NoMemory;
use std::alloc::Global;

/// An outside in memory, in which calls can be made to fail.
#[derive(Drop)]
pub struct MemoryOutside {
    tapes: [PlannedTape; 7],
    most: usize,
    ghost moves: { 0 < most },
}

impl MemoryOutside {
    ghost use Rattle.nf_io.specs.declared.outside.Role.{Role};
    ghost use Rattle.nf_io.specs.Meaning.{OthersStay, blank};
    ghost use Rattle.nf_io.specs.Memory.{seen_in, plan_in, SamePlans};
    ghost use Rattle.nf_io.specs.Planned.{unplanned};

    /// No contents, no faults and no names, and no call is to fail. This takes no memory.
    pub fn open(alloc: Global) -> Self
        ensures seen { (role : Role) → seen_in result role ≡ blank }
        ensures plans { (role : Role) → plan_in result role ≡ unplanned }
        ensures piece { result.most ≡ 2 ^ 64 - 1 }
    {
        MemoryOutside {
            tapes: [
                PlannedTape::open(alloc),
                PlannedTape::open(alloc),
                PlannedTape::open(alloc),
                PlannedTape::open(alloc),
                PlannedTape::open(alloc),
                PlannedTape::open(alloc),
                PlannedTape::open(alloc),
            ],
            most: usize::MAX,
        }
    }

    /// Puts bytes after those that a role has left.
    pub fn put(&mut self, role: Role, bytes: &[u8]) -> Result<(), NoMemory>
        ensures ok { OnOk result (seen_in self.new role ≡ record (seen_in self.old role) {
          left = append_known (seen_in self.old role).left bytes.now;
        }) }
        ensures err { OnErr result (seen_in self.new role ≡ seen_in self.old role) }
        ensures others { OthersStay role (seen_in self.old) (seen_in self.new) }
        ensures names { (other : Role) → (seen_in self.new other).name ≡ (seen_in self.old other).name }
        ensures plans { SamePlans self.old self.new }
    {
        let tape = &mut self.tapes[role.place()];
        tape.tape.put(bytes)
    }

    /// Makes the call of that number on a role fail. Its calls are counted from 1.
    pub fn fail(&mut self, role: Role, call: u64) -> Result<(), NoMemory>
        ensures ok { OnOk result (plan_in self.new role ≡ record (plan_in self.old role) {
          fails = (plan_in self.old role).fails ++ call ∷ [];
        }) }
        ensures err { OnErr result (plan_in self.new role ≡ plan_in self.old role) }
        ensures others { (other : Role) → other ≢ role → plan_in self.new other ≡ plan_in self.old other }
        ensures piece { self.new.most ≡ self.old.most }
        ensures seen { (other : Role) → seen_in self.new other ≡ seen_in self.old other }
    {
        let tape = &mut self.tapes[role.place()];
        tape.fail(call)
    }

    /// Lets no call take more than `most` bytes.
    pub fn piece(&mut self, most: usize)
        requires { 0 < most }
        ensures piece { self.new.most ≡ most }
        ensures seen { (role : Role) → seen_in self.new role ≡ seen_in self.old role }
        ensures plans { (role : Role) → plan_in self.new role ≡ plan_in self.old role }
    {
        self.most = most;
    }

    /// The bytes written to a role.
    pub fn written(&self, role: Role) -> &[u8]
        ensures { (seen_in self.now role).written ≡ Some result.now }
    {
        self.tapes[role.place()].tape.written()
    }
}

impl Outside for MemoryOutside {
    ghost use Rattle.nf_io.specs.Meaning.{HasCause, OthersStay, CanRead, CanWrite, CanBind};
    ghost use Rattle.nf_io.specs.Memory.{seen_in, shown_in, plan_in, room_in, CountsCall, SamePlans};
    ghost use Rattle.nf_io.specs.Planned.{is_failing};

    ghost seen = { seen_in };

    ghost shown = { shown_in };

    ghost ahead = { λ _ _. [] };

    fn bind(&mut self, role: Role, name: &str) -> Result<(), NoMemory>
        requires { CanBind role (seen_in self.old role) }
        ensures ok { OnOk result (seen_in self.new role ≡ record (seen_in self.old role) { name = Some name.now }) }
        ensures err { OnErr result (seen_in self.new role ≡ seen_in self.old role) }
        ensures others { OthersStay role (seen_in self.old) (seen_in self.new) }
        ensures shown { (other : Role) (file : List ℕ) → shown_in self.new other file ≡ shown_in self.old other file }
        ensures plans { SamePlans self.old self.new }
    {
        let tape = &mut self.tapes[role.place()];
        tape.tape.bind(name)
    }

    /// As in the trait. It fails exactly where the call is to fail, and takes as much as it can.
    fn read(&mut self, role: Role, buf: &mut [u8]) -> Result<usize, Failed>
        requires { CanRead role (seen_in self.old role) }
        ensures bound { ReadsAtMost result buf.new }
        ensures bytes { ReadConsumes (seen_in self.old role).left (seen_in self.new role).left result buf.new }
        ensures cause { HasCause (seen_in self.old role).faults (seen_in self.new role).faults result }
        ensures written { (seen_in self.new role).written ≡ (seen_in self.old role).written }
        ensures name { (seen_in self.new role).name ≡ (seen_in self.old role).name }
        ensures others { OthersStay role (seen_in self.old) (seen_in self.new) }
        ensures planned { is_err result ≡ is_failing (plan_in self.old role) }
        ensures takes { ForSome (seen_in self.old role).left (λ left. IfOk result (λ n. n ≡ min (min (length buf.new) self.old.most) (length left))) }
        ensures plans { CountsCall role self.old self.new }
    {
        let most = self.most;
        let tape = &mut self.tapes[role.place()];
        tape.read(buf, most)
    }

    /// Nothing is at hand: each read is a call that can be made to fail.
    fn at_hand(&self, _role: Role) -> &[u8] {
        &[]
    }

    fn skip(&mut self, _role: Role, _count: usize) {}

    /// As in the trait. It fails where the call is to fail, else only where the room is too small.
    fn write(&mut self, role: Role, bytes: &[u8]) -> Result<usize, Failed>
        requires { CanWrite role (seen_in self.old role) }
        ensures bound { WritesAtMost result bytes.now }
        ensures moves { 0 < length bytes.now → IfOk result (λ n. 0 < n) }
        ensures bytes { WriteAppends (seen_in self.old role).written (seen_in self.new role).written result bytes.now }
        ensures cause { HasCause (seen_in self.old role).faults (seen_in self.new role).faults result }
        ensures left { (seen_in self.new role).left ≡ (seen_in self.old role).left }
        ensures name { (seen_in self.new role).name ≡ (seen_in self.old role).name }
        ensures others { OthersStay role (seen_in self.old) (seen_in self.new) }
        ensures planned { IsTrue (is_failing (plan_in self.old role)) → IsErr result }
        ensures room { is_failing (plan_in self.old role) ≡ false → OnErr result (room_in self.old role < length bytes.now) }
        ensures takes { IfOk result (λ n. n ≡ min (length bytes.now) self.old.most) }
        ensures plans { CountsCall role self.old self.new }
    {
        let most = self.most;
        let tape = &mut self.tapes[role.place()];
        tape.write(bytes, most)
    }
}
