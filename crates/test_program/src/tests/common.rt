//! What several of these tests use: captures, outsides with them, and what is seen of a line of words.
ghost use Rattle.std.specs.Prelude.{◌≡◌, None, IfOk};
ghost use Rattle.nf_io.specs.declared.outside.Role.{Role as TheRole};
ghost use Rattle.nf_io.specs.Memory.{seen_in};

use basics::{NoMemory, Text};
use command_words::names_run;
use nf_io::{MemoryOutside, Role};
use opennf_calls::{Outcome, Status, opennf_calm};
use std::alloc::Global;

/// The header of a little-endian capture of raw IP with microseconds.
pub(crate) static HEADER: [u8; 24] = [
    0xd4, 0xc3, 0xb2, 0xa1, 2, 0, 4, 0, 0, 0, 0, 0, 0, 0, 0, 0, 0xff, 0xff, 0, 0, 101, 0, 0, 0,
];

/// A record of one UDP packet with 20 bytes of payload, from 10.0.0.1:5000 to 192.0.2.9:53.
pub(crate) static RECORD: [u8; 64] = [
    1, 0, 0, 0, 0, 0, 0, 0, 48, 0, 0, 0, 48, 0, 0, 0, //
    0x45, 0, 0, 48, 0, 0, 0, 0, 0x40, 17, 0, 0, 10, 0, 0, 1, 192, 0, 2, 9, //
    0x13, 0x88, 0, 53, 0, 28, 0, 0, //
    0, 0, 0, 0, 0, 0, 0, 0, 0, 0, 0, 0, 0, 0, 0, 0, 0, 0, 0, 0,
];

/// What is seen of a simulation of that packet with the instance a of the connection tracker.
pub(crate) static ONE_PACKET: &str =
    "0|opennf report 1\nfunction conntrack instances 1 window 256\ntrace packets 1 skipped 0 whole\nout 1 single\ndone 1 a\n\
     state udp 10.0.0.1:5000 192.0.2.9:53 a single out packets 1 bytes 20 seen 1000000000\ntally a 1\nend\n|";

/// An outside whose capture has these pieces, one after another.
pub(crate) fn outside_of(alloc: Global, pieces: &[&[u8]]) -> Result<MemoryOutside, NoMemory>
    ensures { IfOk result (λ outside. (role : TheRole) → (seen_in outside role).name ≡ None) }
{
    let mut outside = MemoryOutside::open(alloc);
    for piece in pieces {
        outside.put(Role::Trace, piece)?;
    }
    Ok(outside)
}

/// What the program does for words that don't ask for threads. It refuses those that do.
fn calm(alloc: Global, words: &[String], outside: &mut MemoryOutside) -> Outcome
    requires { (role : TheRole) → (seen_in outside.old role).name ≡ None }
{
    if names_run(words) {
        return Outcome::without_run(alloc, Status::Usage);
    }
    opennf_calm(alloc, words, outside)
}

/// How a line of words ends over an outside, which is left as it is then.
pub(crate) fn outcome_of(
    alloc: Global,
    line: &str,
    outside: &mut MemoryOutside,
) -> Result<Outcome, NoMemory>
    requires { (role : TheRole) → (seen_in outside.old role).name ≡ None }
{
    let words: Vec<String> = line
        .split(' ')
        .map(|word| String::from_str(alloc, word))
        .try_collect(alloc)?;
    Ok(calm(alloc, words.as_slice(), outside))
}

/// What is seen of an end: the number of its status, the report, and what stands on the standard error, with strokes between them.
pub(crate) fn told(
    alloc: Global,
    outcome: &Outcome,
    outside: &MemoryOutside,
) -> Result<Text, NoMemory> {
    let mut text = Text::open(alloc);
    text.push_decimal(u64::from(outcome.status.number()))?;
    text.push_bytes(b"|")?;
    text.push_bytes(outside.written(Role::Report))?;
    text.push_bytes(b"|")?;
    text.push_bytes(outside.written(Role::Errors))?;
    Ok(text)
}

/// What is seen of the end of a line of words over an outside, which is left as it is then.
pub(crate) fn seen(alloc: Global, line: &str, outside: &mut MemoryOutside) -> Result<Text, NoMemory>
    requires { (role : TheRole) → (seen_in outside.old role).name ≡ None }
{
    let outcome = outcome_of(alloc, line, outside)?;
    told(alloc, &outcome, outside)
}

/// The same, and what was written to a role.
pub(crate) fn seen_beside(
    alloc: Global,
    line: &str,
    outside: &mut MemoryOutside,
    role: Role,
) -> Result<(Text, Text), NoMemory>
    requires { (role : TheRole) → (seen_in outside.old role).name ≡ None }
{
    let text = seen(alloc, line, outside)?;
    let mut written = Text::open(alloc);
    written.push_bytes(outside.written(role))?;
    Ok((text, written))
}

/// What is seen of the end of a line of words over a capture of these pieces.
pub(crate) fn seen_over(alloc: Global, line: &str, pieces: &[&[u8]]) -> Result<Text, NoMemory> {
    let mut outside = outside_of(alloc, pieces)?;
    seen(alloc, line, &mut outside)
}

/// The same with a script beside the capture.
pub(crate) fn seen_with(
    alloc: Global,
    line: &str,
    pieces: &[&[u8]],
    script: &str,
) -> Result<Text, NoMemory> {
    let mut outside = outside_of(alloc, pieces)?;
    seen_by(alloc, line, script, &mut outside)
}

/// The same over an outside that the script is put into.
fn seen_by(
    alloc: Global,
    line: &str,
    script: &str,
    outside: &mut MemoryOutside,
) -> Result<Text, NoMemory>
    requires { (role : TheRole) → (seen_in outside.old role).name ≡ None }
{
    outside.put(Role::Script, script.as_bytes())?;
    seen(alloc, line, outside)
}
