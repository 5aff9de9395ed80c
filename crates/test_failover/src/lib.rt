//! Tests of failovers: what is promoted in worlds that choices lead to, held to reports that were worked out by hand.
//!
//! They stand in a crate of their own, so that `standby_failover` isn't proved a second time for their sake. There is no other code here.
//! The tests touch nothing but memory.
#![tactic(auto)]

#[cfg(test)]
mod report_tests;
