//! What a run asks of the operating system. Of files, standard streams and arguments nothing but these calls is trusted.
ghost use Rattle.std.specs.Prelude.{◌≡◌, ℕ, List, take, map, string_bytes, Option, None, IfOk, OnErr};
ghost use Rattle.std.specs.Option.{ForSome};
ghost use Rattle.std.specs.Io.{WritesAtMost};
ghost use Rattle.std.specs.Io.KnownBytes.{Keeps, append_known};
ghost use Rattle.nf_io.specs.System.{SystemBytes, untold_bytes};

use crate::arguments::arguments;
use basics::NoMemory;
use std::env::Env;
use std::io::{ErrorKind, Read, Write};
use std::rt::Files;
use std::{fs, io};

/// Named files, the standard output and the standard error.
pub trait System {
    /// A file that is open.
    type File: Read + Write + Drop;

    /// The bytes of the files and streams, where they are told.
    ghost told: { Self → SystemBytes };

    /// Opens a file to be read.
    fn open(&self, name: &str) -> io::Result<Self::File>
        ensures { IfOk result (λ file. Keeps ((told self.now).opened name.now) (Self.File.Read.remaining file)) };

    /// Makes a file, or empties the one that is there.
    fn create(&self, name: &str) -> io::Result<Self::File>
        ensures { IfOk result (λ file. Keeps ((told self.now).created name.now) (Self.File.Write.contents file)) };

    /// Writes a front of the bytes to the standard output.
    fn print(&mut self, bytes: &[u8]) -> io::Result<usize>
        ensures bound { WritesAtMost result bytes.now }
        ensures ok { IfOk result (λ n. told self.new ≡ record (told self.old) {
          output = append_known (told self.old).output (take n bytes.now);
        }) }
        ensures err { OnErr result (told self.new ≡ told self.old) };

    /// Writes a front of the bytes, which are a text, to the standard error.
    fn complain(&mut self, bytes: &[u8]) -> io::Result<usize>
        ensures bound { WritesAtMost result bytes.now }
        ensures ok { IfOk result (λ n. told self.new ≡ record (told self.old) {
          errors = append_known (told self.old).errors (take n bytes.now);
        }) }
        ensures err { OnErr result (told self.new ≡ told self.old) };
}

/// What a process is given.
pub trait Process {
    /// Its arguments, with the program's name first, where they are told.
    ghost given: { Self → Option (List (List ℕ)) };

    /// Its arguments.
    fn arguments(&self) -> Result<Vec<String>, NoMemory>
        ensures { IfOk result (λ words. ForSome (given self.now) (λ told. map string_bytes words.items ≡ told)) };
}

/// The system that the program runs on. It tells nothing of what its files and streams hold, nor of its arguments.
#[derive(Drop)]
pub struct HostSystem<R: Files + Print + Eprint + Drop> {
    pub rt: R,
}

impl<R: Files + Print + Eprint + Drop> System for HostSystem<R> {
    type File = R::File;

    ghost told = { λ _. untold_bytes };

    fn open(&self, name: &str) -> io::Result<R::File> {
        fs::open(&self.rt, name)
    }

    fn create(&self, name: &str) -> io::Result<R::File> {
        fs::create(&self.rt, name)
    }

    fn print(&mut self, bytes: &[u8]) -> io::Result<usize> {
        self.rt.write_some(bytes)
    }

    fn complain(&mut self, bytes: &[u8]) -> io::Result<usize> {
        let Ok(text) = str::from_utf8(bytes) else {
            return Err(io::Error::from(ErrorKind::InvalidInput));
        };
        self.rt.eprint(text)?;
        Ok(bytes.len())
    }
}

impl<R: Files + Print + Eprint + Env + AllocGlobal + Drop> Process for HostSystem<R> {
    ghost given = { λ _. None };

    fn arguments(&self) -> Result<Vec<String>, NoMemory> {
        arguments(&self.rt)
    }
}
