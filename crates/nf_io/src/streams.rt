//! The traits of one role's bytes to read and to write, and their implementations over an outside.
ghost use Rattle.std.specs.Prelude.{◌≡◌, ◌<◌, ◌≤◌, ℕ, Option, List, length, take, IfOk};
ghost use Rattle.std.specs.Option.{ForSome};
ghost use Rattle.std.specs.Io.{ReadsAtMost, WritesAtMost, StartsWith};
ghost use Rattle.std.specs.Io.KnownBytes.{ReadConsumes, WriteAppends, Consumes};

use crate::outside::{Failed, Outside, Role};

/// One role's bytes to read.
pub trait Source {
    ghost use Rattle.nf_io.specs.Meaning.{HasCause, StaysOpen, untouched};

    /// What `rest` tells.
    ghost Rest: { Type 0 };

    /// The bytes left, where they are told.
    ghost left: { Self → Option (List ℕ) };

    /// The faults so far.
    ghost faults: { Self → ℕ };

    /// The condition of each call, which each call keeps.
    ghost IsOpen: { Self → Type 0 };

    /// The name of the loan that the source holds, if it holds one.
    ghost loan: { Self → ℕ };

    /// All that a read leaves as it was.
    ghost rest: { Self → Self.Rest };

    /// The bytes at hand: those that were read ahead and not yet taken.
    ghost ahead: { Self → List ℕ };

    /// Takes the next bytes into the front of a buffer. `Ok(0)` on a buffer that isn't empty is
    /// the end of input.
    fn read(&mut self, buf: &mut [u8]) -> Result<usize, Failed>
        requires { IsOpen self.old }
        ensures bound { ReadsAtMost result buf.new }
        ensures bytes { ReadConsumes (left self.old) (left self.new) result buf.new }
        ensures cause { HasCause (faults self.old) (faults self.new) result }
        ensures stays { StaysOpen IsOpen (untouched loan rest) self.old self.new };

    /// The bytes at hand, which are the next ones. There may be none.
    fn at_hand(&self) -> &[u8]
        requires { IsOpen self.now }
        ensures bytes { result.now ≡ ahead self.now }
        ensures next { ForSome (left self.now) (λ left. StartsWith left result.now) };

    /// Takes bytes that are at hand.
    fn skip(&mut self, count: usize)
        requires open { IsOpen self.old }
        requires at_hand { count ≤ length (ahead self.old) }
        ensures bytes { Consumes (left self.old) (left self.new) (take count (ahead self.old)) }
        ensures faults { faults self.new ≡ faults self.old }
        ensures stays { StaysOpen IsOpen (untouched loan rest) self.old self.new };
}

/// One role's bytes to write.
pub trait Sink {
    ghost use Rattle.nf_io.specs.Meaning.{HasCause, StaysOpen, untouched};

    /// What `rest` tells.
    ghost Rest: { Type 0 };

    /// The bytes written, where they are told.
    ghost written: { Self → Option (List ℕ) };

    /// The faults so far.
    ghost faults: { Self → ℕ };

    /// The condition of each call, which each call keeps.
    ghost IsOpen: { Self → Type 0 };

    /// The name of the loan that the sink holds, if it holds one.
    ghost loan: { Self → ℕ };

    /// All that a write leaves as it was.
    ghost rest: { Self → Self.Rest };

    /// Appends a front of the bytes. Of a piece that isn't empty at least one byte is taken.
    fn write(&mut self, bytes: &[u8]) -> Result<usize, Failed>
        requires { IsOpen self.old }
        ensures bound { WritesAtMost result bytes.now }
        ensures moves { 0 < length bytes.now → IfOk result (λ n. 0 < n) }
        ensures bytes { WriteAppends (written self.old) (written self.new) result bytes.now }
        ensures cause { HasCause (faults self.old) (faults self.new) result }
        ensures stays { StaysOpen IsOpen (untouched loan rest) self.old self.new };
}

/// A role of an outside, to read.
#[derive(Drop)]
pub struct RoleSource<'a, O> {
    pub outside: &'a mut O,
    pub role: Role,
}

/// A role of an outside, to write.
#[derive(Drop)]
pub struct RoleSink<'a, O> {
    pub outside: &'a mut O,
    pub role: Role,
}

impl<O: Outside> Source for RoleSource<'_, O> {
    ghost use Rattle.nf_io.specs.declared.outside.Role.{Role};
    ghost use Rattle.nf_io.specs.Meaning.{Meaning, CanRead, without_left};

    ghost Rest = { Role × (Role → Meaning) };

    ghost left = { λ s. (O.seen s.outside.now s.role).left };

    ghost faults = { λ s. (O.seen s.outside.now s.role).faults };

    ghost IsOpen = { λ s. CanRead s.role (O.seen s.outside.now s.role) };

    ghost loan = { λ s. s.outside.ghost_name };

    ghost rest = { λ s. (s.role, without_left s.role (O.seen s.outside.now)) };

    ghost ahead = { λ s. O.ahead s.outside.now s.role };

    #[tactic(auto, unfolding(crate::specs::Meaning::without_left))]
    #[inline(always)]
    fn read(&mut self, buf: &mut [u8]) -> Result<usize, Failed> {
        self.outside.read(self.role, buf)
    }

    #[inline(always)]
    fn at_hand(&self) -> &[u8] {
        self.outside.at_hand(self.role)
    }

    #[tactic(auto, unfolding(crate::specs::Meaning::without_left))]
    #[inline(always)]
    fn skip(&mut self, count: usize) {
        self.outside.skip(self.role, count)
    }
}

impl<O: Outside> Sink for RoleSink<'_, O> {
    ghost use Rattle.nf_io.specs.declared.outside.Role.{Role};
    ghost use Rattle.nf_io.specs.Meaning.{Meaning, CanWrite, without_written};

    ghost Rest = { Role × (Role → Meaning) };

    ghost written = { λ s. (O.seen s.outside.now s.role).written };

    ghost faults = { λ s. (O.seen s.outside.now s.role).faults };

    ghost IsOpen = { λ s. CanWrite s.role (O.seen s.outside.now s.role) };

    ghost loan = { λ s. s.outside.ghost_name };

    ghost rest = { λ s. (s.role, without_written s.role (O.seen s.outside.now)) };

    #[tactic(auto, unfolding(crate::specs::Meaning::without_written))]
    fn write(&mut self, bytes: &[u8]) -> Result<usize, Failed> {
        self.outside.write(self.role, bytes)
    }
}
