//! The lines that reports of runs share: the function and its network, the capture, each packet's output, where packets were processed,
//! the records and the tally of each instance, and the end. Each network's own report puts its first line before them, and what it alone
//! tells between them.
//!
//! Contracts see a [`Head`] as its fields, and a [`NamedInstance`] as its name, its records and its tally. This crate touches nothing but
//! memory. The main promise is that each call puts exactly its lines after the text that it is given, unless memory runs out. Notes come as
//! a list, so that a log of notes is taken as it stands; [`processed`] makes a list of those that lines are read off, where a log holds its
//! notes otherwise.
#![tactic(auto)]

pub mod dones;
mod ends;
pub mod heads;
pub mod instances;
mod line_front;
pub mod outs;
pub mod states;
pub mod units;

pub use dones::{name_bytes, processed, push_dones, push_named};
pub use heads::{Head, push_function_line, push_trace_line};
pub use instances::{NamedInstance, push_tail};
pub use outs::push_outs;
pub use states::{push_record, push_standbys, push_states};
pub use units::push_unit;
