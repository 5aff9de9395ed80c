//! Tests of the network: runs of packets, moves, copies and shares by schedules, held to what they write into the log and leave in the nodes.
//!
//! They stand in a crate of their own, so that `nf_net` isn't proved a second time for their sake. There is no other code here.
//! The tests touch nothing but memory.
#![tactic(auto)]

#[cfg(test)]
mod run_tests;
#[cfg(test)]
mod told;
