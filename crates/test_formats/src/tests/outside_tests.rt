//! Tests of `nf_io`: the outside over files and in memory; and outsides that other tests read and write.
ghost use Rattle.std.specs.Prelude.{◌≡◌, ◌<◌, ◌≤◌, false, length, IsTrue, IfOk};
ghost use Rattle.nf_io.specs.Roles.{is_read, needs_name};
ghost use Rattle.nf_io.specs.Meaning.{CanRead, CanWrite};
ghost use Rattle.nf_io.specs.Memory.{seen_in};

use basics::NoMemory;
use nf_io::{
    CalmOutside, Failed, FileOutside, HostSystem, MemoryOutside, Outside, Role, RoleSink,
    RoleSource, Sink, Source, System, UptoFault, read_upto, write_all,
};
use std::alloc::Global;
use std::io::{ErrorKind, Read, Write};
use std::process::Abort;
use std::test::Fail;
use std::{env, fs, io, process};

/// An outside in memory with three parts to read, in pieces of so many bytes at most, of which one read fails.
pub(crate) fn to_read(
    alloc: Global,
    role: Role,
    parts: [&[u8]; 3],
    failing: u64,
    most: usize,
) -> Result<MemoryOutside, NoMemory>
    requires read { IsTrue (is_read role) }
    requires wanted { IsTrue (needs_name role) }
    requires moves { 0 < most }
    ensures { IfOk result (λ outside. CanRead role (seen_in outside role)) }
{
    let [first, second, third] = parts;
    let mut outside = MemoryOutside::open(alloc);
    outside.bind(role, "name")?;
    outside.put(role, first)?;
    outside.put(role, second)?;
    outside.put(role, third)?;
    outside.fail(role, failing)?;
    outside.piece(most);
    Ok(outside)
}

/// An outside in memory with a role to write.
pub(crate) fn to_write(alloc: Global, role: Role) -> Result<MemoryOutside, NoMemory>
    requires written { is_read role ≡ false }
    requires wanted { IsTrue (needs_name role) }
    ensures { IfOk result (λ outside. CanWrite role (seen_in outside role)) }
{
    let mut outside = MemoryOutside::open(alloc);
    outside.bind(role, "name")?;
    Ok(outside)
}

#[test]
fn write_all_leaves_a_front_where_a_write_fails(rt: HostRuntime) -> Result<(), Fail> {
    let mut outside = MemoryOutside::open(rt.alloc());
    outside.fail(Role::Report, 3)?;
    outside.piece(2);
    let mut sink = RoleSink {
        outside: &mut outside,
        role: Role::Report,
    };
    see_third_fail(&rt, &mut sink);
    assert_eq!(rt; outside.written(Role::Report), b"abcef".as_slice());
    Ok(())
}

/// Writes to a sink that takes two bytes at once and whose third write fails.
fn see_third_fail<S: Sink>(rt: &impl Abort, sink: &mut S)
    requires { S.IsOpen sink.old }
{
    let first = write_all(sink, b"abc");
    let second = write_all(sink, b"d");
    let third = sink.write(b"efg");
    assert_eq!(rt; (first, second, third), (Ok(()), Err(Failed), Ok(2)));
}

#[test]
fn read_upto_takes_all_or_one_more_than_the_most(rt: HostRuntime) -> Result<(), Fail> {
    let parts = [b"ab".as_slice(), b"cd", b"ef"];
    let mut outside = to_read(rt.alloc(), Role::JournalIn, parts, 99, 1)?;
    let mut source = RoleSource {
        outside: &mut outside,
        role: Role::JournalIn,
    };
    see_upto(&rt, rt.alloc(), &mut source, 3, b"abcd")?;
    see_upto(&rt, rt.alloc(), &mut source, 2, b"ef")?;
    Ok(())
}

/// Reads up to so many bytes, which must be these.
fn see_upto<S: Source>(
    rt: &impl Abort,
    alloc: Global,
    source: &mut S,
    most: u64,
    wanted: &[u8],
) -> Result<(), UptoFault>
    requires { S.IsOpen source.old }
    ensures { S.IsOpen source.new }
{
    let found = read_upto(alloc, source, most)?;
    assert_eq!(rt; found.items(), wanted);
    Ok(())
}

#[test]
fn a_calm_outside_gives_and_takes(rt: HostRuntime) -> Result<(), Fail> {
    let mut outside = CalmOutside::open(rt.alloc());
    outside.put(Role::Trace, b"a")?;
    outside.piece(1);
    assert_eq!(rt; outside.write(Role::Errors, b"xy"), Ok(1));
    assert_eq!(rt; outside.written(Role::Errors), b"x".as_slice());
    Ok(())
}

/// A file of the six bytes `abcdef`, and a system of such files. A signal interrupts every second
/// call, and the third read that is served fails.
#[derive(Drop)]
struct Interrupted {
    calls: u32,
    reads: u32,
}

impl Interrupted {
    /// Whether a signal interrupts this call.
    fn begin(&mut self) -> bool {
        self.calls = self.calls.wrapping_add(1);
        self.calls % 2 == 1
    }

    /// Takes two bytes.
    fn take(&mut self, bytes: &[u8]) -> io::Result<usize>
        ensures { IfOk result (λ n. n ≤ length bytes.now) }
    {
        if self.begin() {
            return Err(io::Error::from(ErrorKind::Interrupted));
        }
        Ok(bytes.len().min(2))
    }
}

impl Read for Interrupted {
    fn read(&mut self, buf: &mut [u8]) -> io::Result<usize> {
        if self.begin() {
            return Err(io::Error::from(ErrorKind::Interrupted));
        }
        self.reads = self.reads.wrapping_add(1);
        let piece = match self.reads {
            1 => b"abcd",
            2 => return Err(io::Error::from(ErrorKind::Other)),
            3 => b"efgh",
            _ => return Ok(0),
        };
        let n = buf.len().min(4);
        buf[..n].copy_from_slice(&piece[..n]);
        Ok(n)
    }
}

impl Write for Interrupted {
    fn write(&mut self, bytes: &[u8]) -> io::Result<usize> {
        self.take(bytes)
    }

    fn flush(&mut self) -> io::Result<()> {
        Ok(())
    }
}

impl System for Interrupted {
    ghost use Rattle.nf_io.specs.System.{untold_bytes};

    type File = Interrupted;

    ghost told = { λ _. untold_bytes };

    fn open(&self, _name: &str) -> io::Result<Interrupted> {
        Ok(Interrupted { calls: 0, reads: 0 })
    }

    fn create(&self, _name: &str) -> io::Result<Interrupted> {
        Ok(Interrupted { calls: 0, reads: 0 })
    }

    fn print(&mut self, bytes: &[u8]) -> io::Result<usize> {
        self.take(bytes)
    }

    fn complain(&mut self, bytes: &[u8]) -> io::Result<usize> {
        Ok(bytes.len())
    }
}

/// An outside over this system, in which one role has this name.
fn bound<S: System + Drop>(
    system: S,
    alloc: Global,
    role: Role,
    name: &str,
) -> Result<FileOutside<S>, NoMemory>
    requires { IsTrue (needs_name role) }
    ensures read { IsTrue (is_read role) → IfOk result (λ outside. CanRead role (⟦<FileOutside<S> as Outside>⟧.seen outside role)) }
    ensures written { is_read role ≡ false → IfOk result (λ outside. CanWrite role (⟦<FileOutside<S> as Outside>⟧.seen outside role)) }
{
    let mut outside = FileOutside::over(system, alloc);
    match outside.bind(role, name) {
        Ok(()) => Ok(outside),
        Err(fault) => {
            drop(outside);
            Err(fault)
        }
    }
}

#[test]
fn a_signal_is_no_fault_and_a_failed_read_is_no_end(rt: HostRuntime) -> Result<(), Fail> {
    let system = Interrupted { calls: 0, reads: 0 };
    let mut outside = bound(system, rt.alloc(), Role::Trace, "name")?;
    let mut source = RoleSource {
        outside: &mut outside,
        role: Role::Trace,
    };
    see_read(&rt, &mut source, Ok(b"abc"));
    see_read(&rt, &mut source, Ok(b"d"));
    see_read(&rt, &mut source, Err(Failed));
    see_read(&rt, &mut source, Ok(b"efg"));
    see_read(&rt, &mut source, Ok(b"h"));
    see_read(&rt, &mut source, Ok(b""));
    drop(outside);
    Ok(())
}

/// Reads at most three bytes, which must be these.
fn see_read<S: Source>(rt: &impl Abort, source: &mut S, wanted: Result<&[u8], Failed>)
    requires { S.IsOpen source.old }
    ensures { S.IsOpen source.new }
{
    let mut buf = [0; 3];
    let read = match source.read(&mut buf) {
        Ok(count) => Ok(&buf[..count]),
        Err(fault) => Err(fault),
    };
    assert_eq!(rt; read, wanted);
}

#[test]
fn a_signal_is_no_fault_of_a_write(rt: HostRuntime) -> Result<(), Fail> {
    let system = Interrupted { calls: 0, reads: 0 };
    let mut outside = bound(system, rt.alloc(), Role::JournalOut, "name")?;
    let mut sink = RoleSink {
        outside: &mut outside,
        role: Role::JournalOut,
    };
    assert_eq!(rt; sink.write(b"xyz"), Ok(2));
    drop(outside);
    Ok(())
}

#[test]
fn a_signal_is_no_fault_of_a_report(rt: HostRuntime) {
    let system = Interrupted { calls: 0, reads: 0 };
    let mut outside = FileOutside::over(system, rt.alloc());
    let mut sink = RoleSink {
        outside: &mut outside,
        role: Role::Report,
    };
    assert_eq!(rt; sink.write(b"xyz"), Ok(2));
    drop(outside);
}

#[test]
fn what_is_written_to_a_file_is_read_under_its_name(rt: HostRuntime) -> Result<(), Fail> {
    let folder = env::temp_dir(&rt)?.into_string();
    let id = process::id(rt.process());
    let name = format!(in rt.alloc(); "{folder}/nf_io-{id}")?;
    let system = HostSystem { rt: rt.clone()? };
    see_written(&rt, rt.alloc(), system, name.as_str())?;
    let system = HostSystem { rt: rt.clone()? };
    see_read_back(&rt, rt.alloc(), system, name.as_str())?;
    fs::remove_file(&rt, name.as_str())?;
    Ok(())
}

/// Writes a journal in two parts to the file with this name.
fn see_written(
    rt: &impl Abort,
    alloc: Global,
    system: HostSystem<HostRuntime>,
    name: &str,
) -> Result<(), NoMemory> {
    let mut outside = bound(system, alloc, Role::JournalOut, name)?;
    let mut sink = RoleSink {
        outside: &mut outside,
        role: Role::JournalOut,
    };
    let written = (write_all(&mut sink, b"jour"), write_all(&mut sink, b"nal"));
    assert_eq!(rt; written, (Ok(()), Ok(())));
    drop(outside);
    Ok(())
}

/// Reads that file as a script.
fn see_read_back(
    rt: &impl Abort,
    alloc: Global,
    system: HostSystem<HostRuntime>,
    name: &str,
) -> Result<(), NoMemory> {
    let mut outside = bound(system, alloc, Role::Script, name)?;
    let mut source = RoleSource {
        outside: &mut outside,
        role: Role::Script,
    };
    let mut buf = [0; 8];
    let read = source.read(&mut buf);
    assert_eq!(rt; (read, buf), (Ok(7), *b"journal\0"));
    assert_eq!(rt; source.read(&mut buf), Ok(0));
    drop(outside);
    Ok(())
}
