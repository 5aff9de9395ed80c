//! The network's runs: by a schedule, or by given choices, over the world of `net_world`.
//!
//! This crate touches nothing but memory. The main promises are those of [`simulate`] and [`run_choices`]: for an input of packets,
//! moves, copies and shares every run keeps `Promises` (of packets, records, places, answers and the window), each move that began is answered
//! by its verdict, what stands by never goes back, and a complete run has processed all. They stand in one file, `specs/Promises.antt`.
//!
//! Of the proofs, `answers` has commands, `paths` packets and records by their places, `length` how long a run can be: a world weighs what
//! its messages, its open operations and its parcels can still cause, and each choice makes it lighter. `ends` shows that where no choice
//! is enabled, nothing is left to be done. What holds of every run stands beside these folders. Nobody has to believe what they define.
#![tactic(auto)]

pub mod course;
pub mod run;

pub use course::{AuditFault, run_course};
pub use run::{run_choices, simulate};
