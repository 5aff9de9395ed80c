//! Tests of strong sharing: whole reports of runs by schedules and by choices.
//!
//! They stand in a crate of their own, so that `strong_share` isn't proved a second time for their sake. There is no other code here. The
//! tests touch nothing but memory.
#![tactic(auto)]

#[cfg(test)]
mod common;
#[cfg(test)]
mod run_tests;
