//! Tests of the concurrency core: worlds and their schedules, lists of choices, links between threads, and runs by threads.
//!
//! They stand in a crate of their own, so that none of the crates below is proved a second time for their sake. There is no other code
//! here but a gate, at which tests of the top calls meet too. The tests touch nothing but memory and threads.
#![tactic(auto)]

#[cfg(test)]
mod choices_tests;
#[cfg(test)]
mod link_tests;
pub mod meeting;
#[cfg(test)]
mod threads_tests;
#[cfg(test)]
mod world_tests;
