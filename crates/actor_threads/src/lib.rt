//! Actors run by threads: one worker for each node, and one link for each ordered pair of nodes.
//!
//! A [`Worker`] owns one node and its ends of the links, and no lock stands round it. What it did in a round is a history:
//! its steps have clocks, each greater than the one before and than the stamp of the message that the step took, and what
//! a step sends carries its clock. [`run_round`] opens the links, lets all workers run beside each other, closes the links,
//! and merges the histories. Its promise: the choices that it gives are a run of the world handed in, and the world that it
//! gives is the replay of that run, the log included. [`run_threads`] repeats rounds until the world is complete, and merges
//! what each did beside the next one. A [`Gate`] is passed before each step; [`OpenGate`] lets every step pass.
//!
//! The crate touches nothing but memory and threads. Nothing here says that threads ran at once, or that a call returns.
#![tactic(auto)]

pub mod gate;
mod groups;
mod links;
mod merged;
mod notes;
mod pace;
pub mod round;
mod stage;
pub mod ways;
pub mod worker;

pub use gate::{Gate, OpenGate};
pub use round::{run_round, run_threads};
pub use worker::Worker;
