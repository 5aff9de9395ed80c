//! The arguments of a program.

use basics::NoMemory;
use std::env;
use std::env::Env;
use std::io::ErrorKind;

/// The arguments, with the program's name first. Where one isn't text there are none, which are bad words.
pub fn arguments<R: Env + AllocGlobal>(rt: &R) -> Result<Vec<String>, NoMemory> {
    match env::args(rt) {
        Ok(arguments) => arguments.collect(rt.alloc()),
        Err(fault) if fault.kind() == ErrorKind::OutOfMemory => Err(NoMemory),
        Err(_) => Ok(Vec::new(rt.alloc())),
    }
}
