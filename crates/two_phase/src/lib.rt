//! A two-phase update: one move of a filter's units from a source to a destination after the published method, in a network of a switch, a
//! controller and these two instances. The switch copies to the controller what it sends to the source, before it sends the packets to the
//! destination; the number of the last copy tells when the destination may go on.
//!
//! Contracts see a [`TwoSwitch`] and a [`TwoCtrl`] as their fields, and a [`TwoNode`] as the value of the node that it is. This crate touches nothing
//! but memory. Each step of a node is its row of the tables in `specs/Tables.antt`; what [`run_two`] and [`simulate_two`] promise of every run stands
//! in one file, `specs/Promises.antt`; and [`report_two`] writes exactly the lines of `specs/Report.antt`.
#![tactic(auto)]

pub mod controller;
mod moving;
pub mod msg;
pub mod node;
pub mod note;
pub mod phase;
pub mod report;
pub mod roles;
pub mod run;
pub mod starting;
pub mod switch;
mod turning;

pub use controller::TwoCtrl;
pub use msg::TwoMsg;
pub use node::TwoNode;
pub use note::TwoNote;
pub use phase::Phase;
pub use report::{TwoHead, report_two};
pub use run::{discard, run_two, simulate_two};
pub use starting::start;
pub use switch::TwoSwitch;
