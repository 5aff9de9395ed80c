//! An instance of a network function: it processes packets, and gives, takes and removes the records of its units as the
//! controller asks.
//!
//! Contracts see an [`Instance`] as its fields: its table as two finite maps, its event rules as their list, its tally as 16
//! counts. This crate touches nothing but memory. The main promise is that each step is its row of the table `instance_step`,
//! for every message, also for those that come in no run.
#![tactic(auto)]

mod exports;
mod imports;
pub mod instance;
pub mod number;
pub mod pieces;
mod processing;

pub use instance::Instance;
