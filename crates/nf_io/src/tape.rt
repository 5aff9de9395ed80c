//! One role's file in memory.
ghost use Rattle.std.specs.Prelude.{◌≡◌, ◌<◌, ◌≤◌, ◌+◌, ◌-◌, ◌^◌, ◌++◌, Some, min, length, take, drop, IfOk, OnOk, OnErr, vec_len};
ghost use Rattle.std.specs.Io.KnownBytes.{append_known};

use crate::outside::Failed;
use basics::NoMemory;
use std::alloc::Global;

/// One role's file in memory: `bytes[taken..]` is left to read.
#[derive(Drop)]
pub(crate) struct Tape {
    bytes: Vec<u8>,
    taken: usize,
    written: Vec<u8>,
    faults: u64,
    name: Option<String>,
    ghost in_bytes: { taken ≤ vec_len bytes },
}

impl Tape {
    ghost use Rattle.nf_io.specs.Meaning.{blank, HasCause};
    ghost use Rattle.nf_io.specs.Tapes.{left_on, room_on, meaning_on};

    /// No contents, no faults and no name. This takes no memory.
    pub(crate) fn open(alloc: Global) -> Self
        ensures { meaning_on result ≡ blank }
    {
        Tape {
            bytes: Vec::new(alloc),
            taken: 0,
            written: Vec::new(alloc),
            faults: 0,
            name: None,
        }
    }

    /// Puts bytes after those that are left.
    pub(crate) fn put(&mut self, bytes: &[u8]) -> Result<(), NoMemory>
        ensures ok { OnOk result (meaning_on self.new ≡ record (meaning_on self.old) { left = Some (left_on self.old ++ bytes.now) }) }
        ensures err { OnErr result (meaning_on self.new ≡ meaning_on self.old) }
    {
        self.bytes.extend_from_slice(bytes)
    }

    /// Notes a name, on the tape's allocator.
    pub(crate) fn bind(&mut self, name: &str) -> Result<(), NoMemory>
        ensures ok { OnOk result (meaning_on self.new ≡ record (meaning_on self.old) { name = Some name.now }) }
        ensures err { OnErr result (meaning_on self.new ≡ meaning_on self.old) }
    {
        self.name = Some(String::from_str(*self.bytes.allocator(), name)?);
        Ok(())
    }

    /// The bytes left to read.
    pub(crate) fn left(&self) -> &[u8]
        ensures { result.now ≡ left_on self.now }
    {
        &self.bytes[self.taken..]
    }

    /// Takes the next bytes.
    pub(crate) fn skip(&mut self, count: usize)
        requires { count ≤ length (left_on self.old) }
        ensures left { left_on self.new ≡ drop count (left_on self.old) }
        ensures same { meaning_on self.new ≡ record (meaning_on self.old) { left = Some (left_on self.new) } }
    {
        self.taken += count;
    }

    /// Takes as many bytes as are left, at most `most`, into the front of a buffer.
    pub(crate) fn read(&mut self, buf: &mut [u8], most: usize) -> usize
        ensures count { result ≡ min (min (length buf.new) most) (length (left_on self.old)) }
        ensures bytes { left_on self.old ≡ take result buf.new ++ left_on self.new }
        ensures same { meaning_on self.new ≡ record (meaning_on self.old) { left = Some (left_on self.new) } }
    {
        let left = &self.bytes[self.taken..];
        let n = buf.len().min(most).min(left.len());
        buf[..n].copy_from_slice(&left[..n]);
        self.taken += n;
        n
    }

    /// Appends at most `most` bytes. It fails only where the room is too small, which is counted.
    pub(crate) fn write(&mut self, bytes: &[u8], most: usize) -> Result<usize, Failed>
        ensures count { IfOk result (λ n. n ≡ min (length bytes.now) most) }
        ensures ok { IfOk result (λ n. meaning_on self.new ≡ record (meaning_on self.old) {
          written = append_known (meaning_on self.old).written (take n bytes.now);
        }) }
        ensures err { OnErr result (meaning_on self.new ≡ record (meaning_on self.old) { faults = (meaning_on self.new).faults }) }
        ensures cause { HasCause (meaning_on self.old).faults (meaning_on self.new).faults result }
        ensures room { OnErr result (room_on self.old < length bytes.now) }
    {
        let n = bytes.len().min(most);
        if self.written.extend_from_slice(&bytes[..n]).is_err() {
            self.fail();
            return Err(Failed);
        }
        Ok(n)
    }

    /// Counts a fault.
    pub(crate) fn fail(&mut self)
        ensures faults { (meaning_on self.new).faults ≡ min ((meaning_on self.old).faults + 1) (2 ^ 64 - 1) }
        ensures later { (meaning_on self.old).faults ≤ (meaning_on self.new).faults }
        ensures same { meaning_on self.new ≡ record (meaning_on self.old) { faults = (meaning_on self.new).faults } }
    {
        self.faults = self.faults.saturating_add(1);
    }

    /// The bytes written.
    pub(crate) fn written(&self) -> &[u8]
        ensures { (meaning_on self.now).written ≡ Some result.now }
    {
        self.written.as_slice()
    }
}
