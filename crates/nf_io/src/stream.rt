//! A named file, which is opened or made where it is first used.
ghost use Rattle.std.specs.Prelude.{◌≡◌, ◌≤◌, ℕ, List, [], length, take, drop, Option, None, IfOk, OnOk, string_bytes};
ghost use Rattle.std.specs.Io.{ReadsAtMost, WritesAtMost};
ghost use Rattle.std.specs.Io.KnownBytes.{Keeps, Consumes, IsAtEnd, ReadConsumes, WriteAppends};
ghost use Rattle.nf_io.specs.System.{SystemBytes};
ghost use Rattle.nf_io.specs.Streams.{bytes_ahead, stream_left, stream_written};

use crate::outside::Failed;
use crate::read_ahead::ReadAhead;
use crate::retry::write_retrying;
use crate::system::System;
use basics::NoMemory;
use std::alloc::Global;

/// A named file with its read-ahead. It isn't opened or made before its first use.
#[derive(Drop)]
pub(crate) struct Stream<F> {
    name: String,
    file: Option<F>,
    ahead: ReadAhead,
}

impl<F> Stream<F> {
    /// A file of this name, which isn't open yet.
    pub(crate) fn bind(alloc: Global, name: &str) -> Result<Self, NoMemory>
        ensures name { IfOk result (λ stream. string_bytes stream.name ≡ name.now) }
        ensures closed { IfOk result (λ stream. stream.file ≡ None) }
        ensures bytes_ahead { IfOk result (λ stream. bytes_ahead stream.ahead ≡ []) }
    {
        let name = String::from_str(alloc, name)?;
        let ahead = ReadAhead::open(alloc)?;
        Ok(Stream {
            name,
            file: None,
            ahead,
        })
    }

    /// The bytes at hand.
    #[inline(always)]
    pub(crate) fn at_hand(&self) -> &[u8]
        ensures { result.now ≡ bytes_ahead self.now.ahead }
    {
        self.ahead.held()
    }

    /// Takes bytes that are at hand.
    #[inline(always)]
    pub(crate) fn skip(&mut self, count: usize)
        requires { count ≤ length (bytes_ahead self.old.ahead) }
        ensures ahead { bytes_ahead self.new.ahead ≡ drop count (bytes_ahead self.old.ahead) }
        ensures left { (remaining : F → Option (List ℕ)) (told : SystemBytes) →
            Consumes (stream_left remaining told self.old) (stream_left remaining told self.new) (take count (bytes_ahead self.old.ahead)) }
        ensures file { self.new.file ≡ self.old.file }
        ensures name { self.new.name ≡ self.old.name }
    {
        self.ahead.skip(count);
    }
}

/// Takes the next bytes of the file into the front of a buffer.
#[inline(always)]
pub(crate) fn read_stream<S: System>(
    system: &S,
    stream: &mut Stream<S::File>,
    buf: &mut [u8],
) -> Result<usize, Failed>
    ensures bound { ReadsAtMost result buf.new }
    ensures bytes { ReadConsumes (stream_left S.File.Read.remaining (S.told system.now) stream.old)
        (stream_left S.File.Read.remaining (S.told system.now) stream.new) result buf.new }
    ensures name { stream.new.name ≡ stream.old.name }
{
    if stream.ahead.is_empty() {
        refill(system, stream)?;
    }
    Ok(stream.ahead.take(buf))
}

/// Reads ahead. It stands apart, so that what `read_stream` inlines stays small.
#[cold]
#[inline(never)]
fn refill<S: System>(system: &S, stream: &mut Stream<S::File>) -> Result<(), Failed>
    requires { bytes_ahead stream.old.ahead ≡ [] }
    ensures bytes { Keeps (stream_left S.File.Read.remaining (S.told system.now) stream.old)
        (stream_left S.File.Read.remaining (S.told system.now) stream.new) }
    ensures end { OnOk result (bytes_ahead stream.new.ahead ≡ [] →
        IsAtEnd (stream_left S.File.Read.remaining (S.told system.now) stream.new)) }
    ensures name { stream.new.name ≡ stream.old.name }
{
    let mut file = match stream.file.take() {
        Some(file) => file,
        None => match system.open(stream.name.as_str()) {
            Ok(file) => file,
            Err(_) => return Err(Failed),
        },
    };
    let answer = stream.ahead.refill(&mut file);
    stream.file = Some(file);
    match answer {
        Ok(()) => Ok(()),
        Err(_) => Err(Failed),
    }
}

/// Appends a front of the bytes to the file.
pub(crate) fn write_stream<S: System>(
    system: &S,
    stream: &mut Stream<S::File>,
    bytes: &[u8],
) -> Result<usize, Failed>
    ensures bound { WritesAtMost result bytes.now }
    ensures bytes { WriteAppends (stream_written S.File.Write.contents (S.told system.now) stream.old)
        (stream_written S.File.Write.contents (S.told system.now) stream.new) result bytes.now }
    ensures name { stream.new.name ≡ stream.old.name }
{
    let mut file = match stream.file.take() {
        Some(file) => file,
        None => match system.create(stream.name.as_str()) {
            Ok(file) => file,
            Err(_) => return Err(Failed),
        },
    };
    let answer = write_retrying(&mut file, bytes);
    stream.file = Some(file);
    match answer {
        Ok(n) => Ok(n),
        Err(_) => Err(Failed),
    }
}
