//! Runs of the networks by function, as the commands ask for them: of the network by a schedule, by threads or by choices that are told, with its
//! failovers; a two-phase update; and strong sharing.
//!
//! Each run takes what was read, and gives its choices and its report, or out of memory; where choices are told, also the step at which they are no run.
//! It touches nothing but memory; [`run_threaded`] alone starts threads. Contracts see words as what they ask for, and what was read as a `Scenario` or a
//! `CaptureScene`. The main promises are `HasRun` (`specs/NetworkRuns.antt`), `HasFailover`, `HasUpdate` and `HasSharing`: what is given is a complete run of
//! the function that the words name, which keeps what is promised of every run, and its report, with its headline.
#![tactic(auto)]

pub mod failing;
pub mod network;
mod ranges;
pub mod sharing;
pub mod threads;
pub mod update;

pub use failing::run_failed;
pub use net_world::{Config, Node};
pub use network::{run_scheduled, run_threaded, run_told};
pub use run_headline::{Head, audit, report};
pub use sharing::run_sharing;
pub use threads::run_network;
pub use update::run_update;
