//! Strong sharing: a switch, a controller and two to sixteen members that share, from the first packet to the last, the units that a filter takes. Each
//! member raises its packets of these units to the controller, which serves them one at a time: the next goes to its member when all others have the record
//! after the packet before.
//!
//! Contracts see a [`StrongSwitch`] and a [`StrongCtrl`] as their fields, a [`Member`] as its instance, and a [`StrongNode`] as the value of the node that it
//! is. This crate touches nothing but memory. The main promises are those of [`simulate_strong`] and [`run_strong`]: each step of a node is its row of the
//! tables in `specs/Tables.antt`, and every run keeps what stands in one file, `specs/Promises.antt`: packets of a unit in the order in which they were
//! queued, outputs and records as of one instance that nothing moves, and an end after a number of choices that is told.
#![tactic(auto)]

pub mod controller;
pub mod member;
pub mod node;
pub mod note;
pub mod queued_packet;
pub mod report;
pub mod run;
pub mod serving;
pub mod starting;
pub mod switch;

pub use controller::StrongCtrl;
pub use member::Member;
pub use node::StrongNode;
pub use note::StrongNote;
pub use report::{StrongHead, report_strong};
pub use run::{discard, run_strong, simulate_strong};
pub use starting::start;
pub use switch::StrongSwitch;
