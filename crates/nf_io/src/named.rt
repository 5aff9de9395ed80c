//! The named files of the roles, and which call of the system serves which role.
ghost use Rattle.std.specs.Prelude.{◌≡◌, ◌≢◌, ◌<◌, None, IsTrue, IfOk, OnOk, OnErr, Some, false, length, take, option_map, option_and_then, ◌≤◌};
ghost use Rattle.std.specs.Io.{ReadsAtMost, WritesAtMost};
ghost use Rattle.std.specs.Io.KnownBytes.{ReadConsumes, WriteAppends, Consumes};
ghost use Rattle.nf_io.specs.declared.outside.Role.{Role};
ghost use Rattle.nf_io.specs.Roles.{is_read, needs_name};
ghost use Rattle.nf_io.specs.System.{SystemBytes};
ghost use Rattle.nf_io.specs.Streams.{FileBytes, file_ahead, stream_left, stream_written, stream_name};
ghost use Rattle.nf_io.specs.Files.{stream_in, ahead_in, name_in, begun, told_in, views};

use crate::outside::{Failed, Role};
use crate::retry::print_retrying;
use crate::stream::{Stream, read_stream, write_stream};
use crate::system::System;
use basics::NoMemory;
use std::alloc::Global;

/// The file of each role that stands for one, where it has a name.
#[derive(Drop)]
pub(crate) struct NamedFiles<F> {
    trace: Option<Stream<F>>,
    script: Option<Stream<F>>,
    journal_in: Option<Stream<F>>,
    journal_out: Option<Stream<F>>,
    trace_out: Option<Stream<F>>,
}

impl<F: Drop> NamedFiles<F> {
    /// No role has a name.
    pub(crate) fn open() -> Self
        ensures { (role : Role) → name_in result role ≡ None }
    {
        NamedFiles {
            trace: None,
            script: None,
            journal_in: None,
            journal_out: None,
            trace_out: None,
        }
    }

    /// Gives a role its name.
    pub(crate) fn bind(&mut self, alloc: Global, role: Role, name: &str) -> Result<(), NoMemory>
        requires { IsTrue (needs_name role) }
        ensures ok { OnOk result (name_in self.new role ≡ Some name.now) }
        ensures err { OnErr result (self.new ≡ self.old) }
        ensures others { (other : Role) → other ≢ role → stream_in self.new other ≡ stream_in self.old other }
        ensures begun { (view : FileBytes F) (told : SystemBytes) → OnOk result (told_in view told self.new role ≡ begun told role name.now) }
    {
        let named = Some(Stream::bind(alloc, name)?);
        match role {
            Role::Trace => self.trace = named,
            Role::Script => self.script = named,
            Role::JournalIn => self.journal_in = named,
            Role::JournalOut => self.journal_out = named,
            _ => self.trace_out = named,
        }
        Ok(())
    }
}

/// Takes the next bytes of a role's own file into the front of a buffer.
#[inline(always)]
pub(crate) fn read_role<S: System>(
    system: &S,
    files: &mut NamedFiles<S::File>,
    role: Role,
    buf: &mut [u8],
) -> Result<usize, Failed>
    requires { IsTrue (is_read role) }
    ensures bound { ReadsAtMost result buf.new }
    ensures bytes { ReadConsumes
        (told_in (views S.File.Read.remaining S.File.Write.contents) (S.told system.now) files.old role)
        (told_in (views S.File.Read.remaining S.File.Write.contents) (S.told system.now) files.new role) result buf.new }
    ensures others { (other : Role) → other ≢ role →
        told_in (views S.File.Read.remaining S.File.Write.contents) (S.told system.now) files.new other
        ≡ told_in (views S.File.Read.remaining S.File.Write.contents) (S.told system.now) files.old other }
    ensures names { (other : Role) → name_in files.new other ≡ name_in files.old other }
{
    match role {
        Role::Trace => read_named(system, &mut files.trace, buf),
        Role::Script => read_named(system, &mut files.script, buf),
        _ => read_named(system, &mut files.journal_in, buf),
    }
}

/// Takes the next bytes of a file, if there is one.
#[inline(always)]
fn read_named<S: System>(
    system: &S,
    named: &mut Option<Stream<S::File>>,
    buf: &mut [u8],
) -> Result<usize, Failed>
    ensures bound { ReadsAtMost result buf.new }
    ensures bytes { ReadConsumes
        (option_and_then (stream_left S.File.Read.remaining (S.told system.now)) named.old)
        (option_and_then (stream_left S.File.Read.remaining (S.told system.now)) named.new) result buf.new }
    ensures name { option_map stream_name named.new ≡ option_map stream_name named.old }
{
    match named {
        Some(stream) => read_stream(system, stream, buf),
        None => Err(Failed),
    }
}

/// The bytes of a role's own file at hand.
#[inline(always)]
pub(crate) fn role_at_hand<F>(files: &NamedFiles<F>, role: Role) -> &[u8]
    requires { IsTrue (is_read role) }
    ensures { result.now ≡ ahead_in files.now role }
{
    match role {
        Role::Trace => named_at_hand(&files.trace),
        Role::Script => named_at_hand(&files.script),
        _ => named_at_hand(&files.journal_in),
    }
}

/// The bytes of a file at hand, if there is one.
#[inline(always)]
fn named_at_hand<F>(named: &Option<Stream<F>>) -> &[u8]
    ensures { result.now ≡ file_ahead named.now }
{
    match named {
        Some(stream) => stream.at_hand(),
        None => &[],
    }
}

/// Takes bytes of a role's own file that are at hand.
#[inline(always)]
pub(crate) fn skip_role<F>(files: &mut NamedFiles<F>, role: Role, count: usize)
    requires read { IsTrue (is_read role) }
    requires at_hand { count ≤ length (ahead_in files.old role) }
    ensures bytes { (view : FileBytes F) (told : SystemBytes) →
        Consumes (told_in view told files.old role) (told_in view told files.new role) (take count (ahead_in files.old role)) }
    ensures others { (other : Role) → other ≢ role → stream_in files.new other ≡ stream_in files.old other }
    ensures names { (other : Role) → name_in files.new other ≡ name_in files.old other }
{
    match role {
        Role::Trace => skip_named(&mut files.trace, count),
        Role::Script => skip_named(&mut files.script, count),
        _ => skip_named(&mut files.journal_in, count),
    }
}

/// Takes bytes of a file that are at hand.
#[inline(always)]
fn skip_named<F>(named: &mut Option<Stream<F>>, count: usize)
    requires { count ≤ length (file_ahead named.old) }
    ensures bytes { (view : FileBytes F) (told : SystemBytes) →
        Consumes (option_and_then (stream_left view.left told) named.old) (option_and_then (stream_left view.left told) named.new)
        (take count (file_ahead named.old)) }
    ensures name { option_map stream_name named.new ≡ option_map stream_name named.old }
{
    if let Some(stream) = named {
        stream.skip(count);
    }
}

/// Appends a front of the bytes to a role's own file or stream.
pub(crate) fn write_role<S: System>(
    system: &mut S,
    files: &mut NamedFiles<S::File>,
    role: Role,
    bytes: &[u8],
) -> Result<usize, Failed>
    requires { is_read role ≡ false }
    ensures bound { WritesAtMost result bytes.now }
    ensures moves { 0 < length bytes.now → IfOk result (λ n. 0 < n) }
    ensures bytes { WriteAppends
        (told_in (views S.File.Read.remaining S.File.Write.contents) (S.told system.old) files.old role)
        (told_in (views S.File.Read.remaining S.File.Write.contents) (S.told system.new) files.new role) result bytes.now }
    ensures others { (other : Role) → other ≢ role →
        told_in (views S.File.Read.remaining S.File.Write.contents) (S.told system.new) files.new other
        ≡ told_in (views S.File.Read.remaining S.File.Write.contents) (S.told system.old) files.old other }
    ensures names { (other : Role) → name_in files.new other ≡ name_in files.old other }
{
    match role {
        Role::Report => write_output(system, bytes),
        Role::Errors => write_errors(system, bytes),
        Role::JournalOut => write_named(system, &mut files.journal_out, bytes),
        _ => write_named(system, &mut files.trace_out, bytes),
    }
}

/// Appends a front of the bytes to the standard output.
#[tactic(auto, using(crate::proofs::TransferLemmas::appended_nothing))]
fn write_output<S: System>(system: &mut S, bytes: &[u8]) -> Result<usize, Failed>
    ensures bound { WritesAtMost result bytes.now }
    ensures moves { 0 < length bytes.now → IfOk result (λ n. 0 < n) }
    ensures bytes { WriteAppends (S.told system.old).output (S.told system.new).output result bytes.now }
    ensures rest { S.told system.new ≡ record (S.told system.old) { output = (S.told system.new).output } }
{
    match print_retrying(system, bytes) {
        Ok(n) if n > 0 || bytes.is_empty() => Ok(n),
        _ => Err(Failed),
    }
}

/// Appends a front of the bytes to the standard error.
#[tactic(auto, using(crate::proofs::TransferLemmas::appended_nothing))]
fn write_errors<S: System>(system: &mut S, bytes: &[u8]) -> Result<usize, Failed>
    ensures bound { WritesAtMost result bytes.now }
    ensures moves { 0 < length bytes.now → IfOk result (λ n. 0 < n) }
    ensures bytes { WriteAppends (S.told system.old).errors (S.told system.new).errors result bytes.now }
    ensures rest { S.told system.new ≡ record (S.told system.old) { errors = (S.told system.new).errors } }
{
    match system.complain(bytes) {
        Ok(n) if n > 0 || bytes.is_empty() => Ok(n),
        _ => Err(Failed),
    }
}

/// Appends a front of the bytes to a file, if there is one.
#[tactic(auto, using(crate::proofs::TransferLemmas::appended_nothing))]
fn write_named<S: System>(
    system: &S,
    named: &mut Option<Stream<S::File>>,
    bytes: &[u8],
) -> Result<usize, Failed>
    ensures bound { WritesAtMost result bytes.now }
    ensures moves { 0 < length bytes.now → IfOk result (λ n. 0 < n) }
    ensures bytes { WriteAppends
        (option_and_then (stream_written S.File.Write.contents (S.told system.now)) named.old)
        (option_and_then (stream_written S.File.Write.contents (S.told system.now)) named.new) result bytes.now }
    ensures name { option_map stream_name named.new ≡ option_map stream_name named.old }
{
    let Some(stream) = named else {
        return Err(Failed);
    };
    match write_stream(system, stream, bytes) {
        Ok(n) if n > 0 || bytes.is_empty() => Ok(n),
        _ => Err(Failed),
    }
}
