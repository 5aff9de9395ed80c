ghost use Rattle.std.specs.Prelude.{◌≤◌, length, IfOk};
ghost use Rattle.nf_io.specs.Meaning.{HasCause, StaysOpen, untouched};
ghost use Rattle.trace_reader.specs.Takes.{Fills, Skips, TakesBody, body};

use nf_io::{Failed, Source};

/// How many bytes are skipped at once.
const PIECE: usize = 4_096;

/// Takes `len` bytes, of which the first fill `front`. False where the source ends before.
pub(crate) fn take_body<S: Source>(
    source: &mut S,
    front: &mut [u8],
    len: usize,
) -> Result<bool, Failed>
    requires open { S.IsOpen source.old }
    requires front { length front.old ≤ len }
    ensures bytes { IfOk result (TakesBody (S.left source.old) (S.left source.new) (body front.new len)) }
    ensures cause { HasCause (S.faults source.old) (S.faults source.new) result }
    ensures stays { StaysOpen S.IsOpen (untouched S.loan S.rest) source.old source.new }
{
    if fill(source, front)? < front.len() {
        return Ok(false);
    }
    let rest = len - front.len();
    if rest == 0 {
        return Ok(true);
    }
    Ok(skip(source, rest)? == rest)
}

/// Fills a buffer, or as much of it as there are bytes left.
pub(crate) fn fill<S: Source>(source: &mut S, buf: &mut [u8]) -> Result<usize, Failed>
    requires { S.IsOpen source.old }
    ensures bytes { IfOk result (Fills (S.left source.old) (S.left source.new) buf.new) }
    ensures bound { IfOk result (λ n. n ≤ length buf.new) }
    ensures cause { HasCause (S.faults source.old) (S.faults source.new) result }
    ensures stays { StaysOpen S.IsOpen (untouched S.loan S.rest) source.old source.new }
{
    let mut at = 0;
    while at < buf.len() {
        let n = source.read(&mut buf[at..])?;
        if n == 0 {
            return Ok(at);
        }
        at += n;
    }
    Ok(at)
}

/// Skips `count` bytes, or as many as there are left.
fn skip<S: Source>(source: &mut S, count: usize) -> Result<usize, Failed>
    requires { S.IsOpen source.old }
    ensures bytes { IfOk result (Skips (S.left source.old) (S.left source.new) count) }
    ensures bound { IfOk result (λ n. n ≤ count) }
    ensures cause { HasCause (S.faults source.old) (S.faults source.new) result }
    ensures stays { StaysOpen S.IsOpen (untouched S.loan S.rest) source.old source.new }
{
    let mut piece = [0; PIECE];
    let mut done = 0;
    while done < count {
        let room = (count - done).min(PIECE);
        let n = source.read(&mut piece[..room])?;
        if n == 0 {
            return Ok(done);
        }
        done += n;
    }
    Ok(done)
}
