//! Tests of the operations and the nodes of the network, each by itself.
//!
//! They stand in a crate of their own, so that none of the crates below is proved a second time for their sake. There is no other code
//! here. The tests touch nothing but memory.
#![tactic(auto)]

#[cfg(test)]
mod tests;
