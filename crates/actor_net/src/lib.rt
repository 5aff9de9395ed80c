//! Actors that pass messages over links: worlds, replays, schedules, and the merge of what nodes did beside each other.
//!
//! An [`Actor`] says what a step does at every node, port and message. A [`World`] holds the nodes, a list for each link,
//! the input and the log, and contracts see it as these lists; it also counts the links that hold something, which no contract
//! sees. A [`Choice`] names the message that is taken next, and [`Choices`] keeps them in order, most of them in one byte. The crate touches
//! nothing but memory.
//!
//! Its main promise: what [`World::take`] does is one definition, [`replay`] repeats it and names the first choice that isn't
//! enabled, and [`run_schedule`] takes exactly the choices that its schedule says, which are a run. [`merge`] puts the histories
//! of nodes in the order of (clock, node). That such choices are a run, and that its replay is the world which the nodes left, is
//! a law on histories that fit a world (`proofs/MergeRun.antt`); it is promised where nodes run, by `run_round` of the crate
//! `actor_threads`. The laws for proofs about a network that is built on these actors stand in `proofs/`.
#![tactic(auto)]

pub mod actor;
pub mod choice;
pub mod choices;
pub mod histories;
pub mod link;
mod link_table;
pub mod outbox;
mod partial_merge;
mod remainders;
pub mod replays;
pub mod schedule;
pub mod stamped;
mod turns;
pub mod world;

pub use actor::Actor;
pub use choice::Choice;
pub use choices::{ChoiceReader, Choices};
pub use histories::{History, merge};
pub use link::{Link, links_of, lists_of};
pub use outbox::Outbox;
pub use replays::{ReplayFault, replay};
pub use schedule::{MOST_CHOICES, Schedule, ScheduleFault, run_schedule};
pub use stamped::Stamped;
pub use world::{Parts, TakeFault, World};
