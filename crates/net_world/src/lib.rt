//! The world of the network: one switch, one controller and up to sixteen instances of a function as the nodes of `actor_net`, and its start.
//!
//! Contracts see a [`Node`] as the value of the node that it is, and a [`Config`] field by field. This crate touches nothing but memory. [`start`]
//! gives the world that the configuration and the input say, and each step of a node is its row of the tables. The words in
//! which `nf_net` makes its promises stand in `specs`: what a run is given, its log, and what is read off its world.
#![tactic(auto)]

pub mod config;
pub mod ending;
pub mod node;
pub mod reading;
pub mod running;
pub mod starting;

pub use config::Config;
pub use ending::{discard, into_table};
pub use node::Node;
pub use reading::{is_complete, log_of, nodes_of};
pub use running::{run_as_told, run_by_schedule};
pub use starting::start;
