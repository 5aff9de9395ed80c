//! The program `speed_parts`: it works one part of the network many times, and prints a sum of what that answered.
//!
//! Words, each with a SIZE from 1 to 16777216 and a COUNT: `step`: a table of the tracker that holds SIZE flows steps COUNT packets;
//! `select`: such a table gives the chunks of a tenth of its flows, COUNT times; `import`: and each time a new table takes them in;
//! `target`: rules with SIZE routes of one mask, or `target-4` of four, find the targets of COUNT flows. It measures nothing itself:
//! bench/parts.sh takes the time from outside, and bench/parts.rs does the same by plain Rust. It touches its arguments, the standard
//! output and the standard error. What it promises is that the flows are those of `specs/Draws.antt`; its sum is only tested.
#![tactic(auto)]

mod draws;
mod fault;
mod routes;
mod tables;
mod words;

use crate::fault::Fault;
use crate::routes::find_targets;
use crate::tables::{import_chunks, select_chunks, step_packets};
use crate::words::{Part, task_of};
use nf_io::arguments::arguments;
use std::env::Env;
use std::process::ExitCode;

/// Prints the sum, or the fault; its status is the exit code.
fn main(rt: HostRuntime) -> ExitCode {
    match sum_of(&rt) {
        Ok(sum) => match println!(rt; "sum {sum}") {
            Ok(()) => ExitCode::SUCCESS,
            Err(_) => ExitCode::from(1),
        },
        Err(fault) => {
            let _printed = eprintln!(rt; "speed_parts: {fault}");
            ExitCode::from(fault.status())
        }
    }
}

/// The sum of what the part answers that the arguments ask for.
fn sum_of<R: Env + AllocGlobal>(rt: &R) -> Result<u64, Fault> {
    let words = arguments(rt)?;
    let Some(task) = task_of(words.as_slice()) else {
        return Err(Fault::Words);
    };
    let alloc = rt.alloc();
    match task.part {
        Part::Step => step_packets(alloc, task.size, task.count),
        Part::Select => select_chunks(alloc, task.size, task.count),
        Part::Import => import_chunks(alloc, task.size, task.count),
        Part::Target => find_targets(alloc, task.size, 1, task.count),
        Part::TargetOfFour => find_targets(alloc, task.size, 4, task.count),
    }
}
