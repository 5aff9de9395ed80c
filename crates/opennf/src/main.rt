//! The program `opennf`: its arguments are the words of the top call, and its files and standard streams are the outside.
//! It touches nothing else but threads, and `/dev/null`, which holds the places of standard streams that are closed. The main
//! promise is that of `program`: its exit code is the number of the status, and all that the top call promises holds of the
//! arguments, as far as the outside tells them.
#![tactic(auto)]

mod places;
mod run;

use crate::places::hold_places;
use crate::run::program;
use nf_io::FileOutside;
use std::process::ExitCode;

/// Ends with the exit code of [`program`].
fn main(rt: HostRuntime) -> ExitCode {
    let _places = hold_places(&rt);
    program(&rt, &mut FileOutside::open(&rt, rt.alloc()))
}
