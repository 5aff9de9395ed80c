//! The outside over files and the standard streams.
ghost use Rattle.std.specs.Prelude.{◌≡◌};
ghost use Rattle.nf_io.specs.declared.outside.Role.{Role};
ghost use Rattle.nf_io.specs.Meaning.{HasCause};
ghost use Rattle.nf_io.specs.System.{untold_bytes};
ghost use Rattle.nf_io.specs.Files.{seen_of, shown_of, ahead_in, untouched_streams, told_in, views};

use crate::named::{NamedFiles, read_role, role_at_hand, skip_role, write_role};
use crate::outside::{Failed, Outside, Role};
use crate::system::{HostSystem, Process, System};
use basics::NoMemory;
use std::alloc::Global;
use std::rt::Files;

/// Named files, the standard output and the standard error, as a system has them.
///
/// It tells the bytes of its files and streams as far as the system does. So each call is known to give and take exactly the bytes
/// of its role's own file or stream, in order and once.
#[derive(Drop)]
pub struct FileOutside<S: System> {
    alloc: Global,
    faults: [u64; 7],
    system: S,
    files: NamedFiles<S::File>,
}

impl<R: Files + Print + Eprint + Drop> FileOutside<HostSystem<R>> {
    /// Over the system that the program runs on. No file is open, and no role has a name. This
    /// takes no memory.
    pub fn open(rt: R, alloc: Global) -> Self
        ensures { (role : Role) → ⟦<FileOutside<HostSystem<R>> as Outside>⟧.seen result role ≡ untouched_streams untold_bytes role }
    {
        FileOutside::over(HostSystem { rt }, alloc)
    }
}

impl<S: System> FileOutside<S> {
    /// Over any system. No file is open, and no role has a name. This takes no memory.
    pub fn over(system: S, alloc: Global) -> Self
        ensures seen { (role : Role) → ⟦<FileOutside<S> as Outside>⟧.seen result role ≡ untouched_streams (S.told system) role }
        ensures system { result.system ≡ system }
    {
        FileOutside {
            alloc,
            faults: [0; 7],
            system,
            files: NamedFiles::open(),
        }
    }
}

impl<S: System> Outside for FileOutside<S> {
    ghost seen = { λ outside. seen_of (told_in (views S.File.Read.remaining S.File.Write.contents) (S.told outside.system) outside.files) outside.faults
        outside.files };

    ghost shown = { λ outside. shown_of (S.told outside.system) };

    ghost ahead = { λ outside. ahead_in outside.files };

    fn bind(&mut self, role: Role, name: &str) -> Result<(), NoMemory> {
        self.files.bind(self.alloc, role, name)
    }

    #[inline(always)]
    fn read(&mut self, role: Role, buf: &mut [u8]) -> Result<usize, Failed> {
        let answer = read_role(&self.system, &mut self.files, role, buf);
        count(&mut self.faults[role.place()], &answer);
        answer
    }

    #[inline(always)]
    fn at_hand(&self, role: Role) -> &[u8] {
        role_at_hand(&self.files, role)
    }

    #[inline(always)]
    fn skip(&mut self, role: Role, count: usize) {
        skip_role(&mut self.files, role, count)
    }

    fn write(&mut self, role: Role, bytes: &[u8]) -> Result<usize, Failed> {
        let answer = write_role(&mut self.system, &mut self.files, role, bytes);
        count(&mut self.faults[role.place()], &answer);
        answer
    }
}

impl<S: System + Process> Process for FileOutside<S> {
    ghost given = { λ outside. S.given outside.system };

    fn arguments(&self) -> Result<Vec<String>, NoMemory> {
        self.system.arguments()
    }
}

/// Counts a fault where a call failed.
fn count<T>(faults: &mut u64, answer: &Result<T, Failed>)
    ensures { HasCause faults.old faults.new answer.now }
{
    if answer.is_err() {
        *faults = faults.saturating_add(1);
    }
}
