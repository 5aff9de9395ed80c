//! Reads and writes, made again where a signal interrupts them.
ghost use Rattle.std.specs.Prelude.{◌≡◌, ◌≢◌, IfOk, OnErr, IfErr, take};
ghost use Rattle.std.specs.Io.{ReadsAtMost, WritesAtMost};
ghost use Rattle.std.specs.Io.KnownBytes.{ReadConsumes, WriteAppends, append_known};
ghost use Rattle.std.specs.IoError.{error_kind};

use crate::system::System;
use std::io;
use std::io::{ErrorKind, Read, Write};

/// Reads once. A signal isn't a failure: the read is made again.
pub(crate) fn read_retrying<R: Read>(file: &mut R, buf: &mut [u8]) -> io::Result<usize>
    ensures bound { ReadsAtMost result buf.new }
    ensures bytes { ReadConsumes (R.remaining file.old) (R.remaining file.new) result buf.new }
    ensures retried { IfErr result (λ e. error_kind e ≢ ErrorKind.Interrupted) }
{
    for _ in 0..u64::MAX {
        match file.read(buf) {
            Err(e) if e.kind() == ErrorKind::Interrupted => (),
            answer => return answer,
        }
    }
    Err(io::Error::from(ErrorKind::TimedOut))
}

/// Writes once. A signal isn't a failure: the write is made again.
pub(crate) fn write_retrying<W: Write>(file: &mut W, bytes: &[u8]) -> io::Result<usize>
    ensures bound { WritesAtMost result bytes.now }
    ensures bytes { WriteAppends (W.contents file.old) (W.contents file.new) result bytes.now }
    ensures retried { IfErr result (λ e. error_kind e ≢ ErrorKind.Interrupted) }
{
    for _ in 0..u64::MAX {
        match file.write(bytes) {
            Err(e) if e.kind() == ErrorKind::Interrupted => (),
            answer => return answer,
        }
    }
    Err(io::Error::from(ErrorKind::TimedOut))
}

/// Writes once to the standard output. A signal isn't a failure: the write is made again.
pub(crate) fn print_retrying<S: System>(system: &mut S, bytes: &[u8]) -> io::Result<usize>
    ensures bound { WritesAtMost result bytes.now }
    ensures ok { IfOk result (λ n. S.told system.new ≡ record (S.told system.old) {
      output = append_known (S.told system.old).output (take n bytes.now);
    }) }
    ensures err { OnErr result (S.told system.new ≡ S.told system.old) }
    ensures retried { IfErr result (λ e. error_kind e ≢ ErrorKind.Interrupted) }
{
    for _ in 0..u64::MAX {
        match system.print(bytes) {
            Err(e) if e.kind() == ErrorKind::Interrupted => (),
            answer => return answer,
        }
    }
    Err(io::Error::from(ErrorKind::TimedOut))
}
