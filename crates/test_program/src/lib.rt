//! Tests of the calls that do all that the program does, over outsides in memory, and of the network by threads.
//!
//! They stand in a crate of their own, so that `opennf_calls` isn't proved a second time for their sake. There is no other code
//! here. The tests touch nothing but memory and threads.
#![tactic(auto)]

#[cfg(test)]
mod tests;
