//! The program `speed_core`: it runs a world of nodes, and prints how many choices that took.
//!
//! Words: `ring|hub first|last|NUMBER|threads NODES ITEMS HOPS`: each of ITEMS tokens starts at node 0 with HOPS hops; or
//! `network first|last|NUMBER|threads NODES PACKETS ROUNDS`: a switch, a controller and instances, with ROUNDS of work on each
//! packet. It measures nothing itself: bench/core.sh takes the time and the memory from outside. It touches its arguments,
//! threads, the standard output and the standard error. Its main promise is that of `play`.
#![tactic(auto)]

mod fault;
mod network;
mod nodes;
mod runs;
mod tokens;
mod words;
mod work;

use crate::fault::Fault;
use crate::network::network_world;
use crate::runs::play;
use crate::tokens::token_world;
use crate::words::{Setup, task_of};
use nf_io::arguments::arguments;
use std::env::Env;
use std::process::ExitCode;
use std::sync::Wait;
use std::thread::Threads;

/// Prints the number of choices, or the fault; its status is the exit code.
fn main(rt: HostRuntime) -> ExitCode {
    match count_choices(&rt) {
        Ok(number) => match println!(rt; "choices {number}") {
            Ok(()) => ExitCode::SUCCESS,
            Err(_) => ExitCode::from(1),
        },
        Err(fault) => {
            let _printed = eprintln!(rt; "speed_core: {fault}");
            ExitCode::from(fault.status())
        }
    }
}

/// How many choices the run takes that the arguments ask for.
fn count_choices<R: Env + AllocGlobal + Threads + Wait + Sync>(rt: &R) -> Result<usize, Fault> {
    let words = arguments(rt)?;
    let Some(task) = task_of(words.as_slice()) else {
        return Err(Fault::Words);
    };
    let alloc = rt.alloc();
    let choices = match task.world {
        Setup::Tokens(tokens) => {
            let world = token_world(alloc, tokens.shape, tokens.nodes, tokens.items, tokens.hops)?;
            play(rt, alloc, world, task.chooser)?
        }
        Setup::Network(size) => {
            let world = network_world(alloc, size.instances, size.packets, size.rounds)?;
            play(rt, alloc, world, task.chooser)?
        }
    };
    Ok(choices.len())
}
