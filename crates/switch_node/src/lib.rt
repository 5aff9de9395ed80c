//! The switch: it lets packets in, sends each to its target by its rules, and does what the controller asks of it.
//!
//! Contracts see a [`Switch`] as its rules, its pool of cells, its site, and its counts. This crate touches nothing but memory.
//! The main promise is that each step is its row of the table `switch_step`, for every message, also for those that come in no run.
#![tactic(auto)]

pub mod switch;

pub use switch::Switch;
