//! The places of the standard streams.

use std::rt::Files;
use std::{fs, io};

/// Where a standard stream is closed, takes its place with a file that nothing can be written to: a file that is opened takes the lowest free
/// place, and would else get what is meant for the stream. It holds them until it is dropped.
pub fn hold_places<R: Files>(rt: &R) -> [io::Result<R::File>; 3] {
    [hold_place(rt), hold_place(rt), hold_place(rt)]
}

/// Takes the lowest free place, with a file that nothing can be written to.
fn hold_place<R: Files>(rt: &R) -> io::Result<R::File> {
    fs::open(rt, "/dev/null")
}
