//! Bytes that were read of a file and not yet taken.
ghost use Rattle.std.specs.Prelude.{◌≡◌, ◌≤◌, ◌<◌, ◌++◌, [], min, length, take, drop, vec_len, ◌↔◌, IsTrue, IfOk, OnOk};
ghost use Rattle.std.specs.Io.KnownBytes.{Keeps, IsAtEnd, prepend_known};

use crate::retry::read_retrying;
use basics::NoMemory;
use std::alloc::Global;
use std::io;
use std::io::Read;

/// How many bytes are read ahead of a file.
const ROOM: usize = 65_536;

/// `bytes[start..end]` is read and not yet taken. Contracts see it as `bytes_ahead`.
#[derive(Drop)]
pub(crate) struct ReadAhead {
    bytes: Vec<u8>,
    start: usize,
    end: usize,
    ghost ordered: { start ≤ end },
    ghost in_bytes: { end ≤ vec_len bytes },
    ghost has_room: { 0 < vec_len bytes },
}

impl ReadAhead {
    ghost use Rattle.nf_io.specs.Streams.{bytes_ahead};

    /// Nothing was read.
    pub(crate) fn open(alloc: Global) -> Result<Self, NoMemory>
        ensures { IfOk result (λ ahead. bytes_ahead ahead ≡ []) }
    {
        let mut bytes = Vec::new(alloc);
        bytes.resize(ROOM, 0)?;
        Ok(ReadAhead {
            bytes,
            start: 0,
            end: 0,
        })
    }

    /// Moves as many bytes as both have into the front of a buffer.
    #[inline(always)]
    pub(crate) fn take(&mut self, buf: &mut [u8]) -> usize
        ensures count { result ≡ min (length buf.new) (length (bytes_ahead self.old)) }
        ensures bytes { bytes_ahead self.old ≡ take result buf.new ++ bytes_ahead self.new }
    {
        let held = self.held();
        let n = buf.len().min(held.len());
        buf[..n].copy_from_slice(&held[..n]);
        self.skip(n);
        n
    }

    /// What was read and not yet taken.
    #[inline(always)]
    pub(crate) fn held(&self) -> &[u8]
        ensures { result.now ≡ bytes_ahead self.now }
    {
        &self.bytes[self.start..self.end]
    }

    /// Takes the next bytes.
    #[inline(always)]
    pub(crate) fn skip(&mut self, count: usize)
        requires { count ≤ length (bytes_ahead self.old) }
        ensures { bytes_ahead self.new ≡ drop count (bytes_ahead self.old) }
    {
        self.start += count;
    }

    /// Whether all that was read is taken.
    pub(crate) fn is_empty(&self) -> bool
        ensures { IsTrue result ↔ (bytes_ahead self.now ≡ []) }
    {
        self.start == self.end
    }

    /// Reads more of the file, where all that was read is taken.
    pub(crate) fn refill<R: Read>(&mut self, file: &mut R) -> io::Result<()>
        requires { bytes_ahead self.old ≡ [] }
        ensures bytes { Keeps (prepend_known (bytes_ahead self.old) (R.remaining file.old)) (prepend_known (bytes_ahead self.new) (R.remaining file.new)) }
        ensures end { OnOk result (bytes_ahead self.new ≡ [] → IsAtEnd (R.remaining file.new)) }
    {
        self.start = 0;
        self.end = 0;
        self.end = read_retrying(file, &mut self.bytes)?;
        Ok(())
    }
}
