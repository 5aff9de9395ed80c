ghost use Rattle.std.specs.Prelude.{◌≡◌, ◌<◌, ◌++◌, ◌∷◌, [], false, min, length, is_err, IsTrue, IsErr, IfOk, OnOk, OnErr};
ghost use Rattle.std.specs.Option.{ForSome};
ghost use Rattle.std.specs.Io.{ReadsAtMost, WritesAtMost};
ghost use Rattle.std.specs.Io.KnownBytes.{ReadConsumes, WriteAppends};

use crate::outside::Failed;
use crate::tape::Tape;
use basics::NoMemory;
use std::alloc::Global;

/// A tape on which calls can be made to fail.
#[derive(Drop)]
pub(crate) struct PlannedTape {
    pub(crate) tape: Tape,
    calls: u64,
    fails: Vec<u64>,
}

impl PlannedTape {
    ghost use Rattle.nf_io.specs.Meaning.{blank, HasCause};
    ghost use Rattle.nf_io.specs.Planned.{unplanned, meaning_of, plan_of, room_of, is_failing, after_call};

    /// Nothing on the tape, and no call is to fail. This takes no memory.
    pub(crate) fn open(alloc: Global) -> Self
        ensures meaning { meaning_of result ≡ blank }
        ensures plan { plan_of result ≡ unplanned }
    {
        PlannedTape {
            tape: Tape::open(alloc),
            calls: 0,
            fails: Vec::new(alloc),
        }
    }

    /// Makes the call of that number fail.
    pub(crate) fn fail(&mut self, call: u64) -> Result<(), NoMemory>
        ensures ok { OnOk result (plan_of self.new ≡ record (plan_of self.old) { fails = (plan_of self.old).fails ++ call ∷ [] }) }
        ensures err { OnErr result (plan_of self.new ≡ plan_of self.old) }
        ensures meaning { meaning_of self.new ≡ meaning_of self.old }
    {
        self.fails.push(call)?;
        Ok(())
    }

    /// Counts a call, and tells whether it is to fail.
    fn begin(&mut self) -> bool
        ensures failing { result ≡ is_failing (plan_of self.old) }
        ensures plan { plan_of self.new ≡ after_call (plan_of self.old) }
        ensures tape { self.new.tape ≡ self.old.tape }
    {
        self.calls = self.calls.saturating_add(1);
        self.fails.contains(&self.calls)
    }

    /// Takes the next bytes. It fails exactly where the call is to fail.
    pub(crate) fn read(&mut self, buf: &mut [u8], most: usize) -> Result<usize, Failed>
        requires { 0 < most }
        ensures bound { ReadsAtMost result buf.new }
        ensures bytes { ReadConsumes (meaning_of self.old).left (meaning_of self.new).left result buf.new }
        ensures cause { HasCause (meaning_of self.old).faults (meaning_of self.new).faults result }
        ensures written { (meaning_of self.new).written ≡ (meaning_of self.old).written }
        ensures name { (meaning_of self.new).name ≡ (meaning_of self.old).name }
        ensures planned { is_err result ≡ is_failing (plan_of self.old) }
        ensures takes { ForSome (meaning_of self.old).left (λ left. IfOk result (λ n. n ≡ min (min (length buf.new) most) (length left))) }
        ensures plan { plan_of self.new ≡ after_call (plan_of self.old) }
    {
        if self.begin() {
            self.tape.fail();
            return Err(Failed);
        }
        Ok(self.tape.read(buf, most))
    }

    /// Appends bytes. It fails where the call is to fail, else only where the room is too small.
    pub(crate) fn write(&mut self, bytes: &[u8], most: usize) -> Result<usize, Failed>
        requires { 0 < most }
        ensures bound { WritesAtMost result bytes.now }
        ensures moves { 0 < length bytes.now → IfOk result (λ n. 0 < n) }
        ensures bytes { WriteAppends (meaning_of self.old).written (meaning_of self.new).written result bytes.now }
        ensures cause { HasCause (meaning_of self.old).faults (meaning_of self.new).faults result }
        ensures left { (meaning_of self.new).left ≡ (meaning_of self.old).left }
        ensures name { (meaning_of self.new).name ≡ (meaning_of self.old).name }
        ensures planned { IsTrue (is_failing (plan_of self.old)) → IsErr result }
        ensures room { is_failing (plan_of self.old) ≡ false → OnErr result (room_of self.old < length bytes.now) }
        ensures takes { IfOk result (λ n. n ≡ min (length bytes.now) most) }
        ensures plan { plan_of self.new ≡ after_call (plan_of self.old) }
    {
        if self.begin() {
            self.tape.fail();
            return Err(Failed);
        }
        self.tape.write(bytes, most)
    }
}
