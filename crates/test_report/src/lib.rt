//! Tests of the report of a run and of its audit.
//!
//! They stand in a crate of their own, so that `run_report` isn't proved a second time for their sake. There is no other code here. The
//! tests touch nothing but memory.
#![tactic(auto)]

#[cfg(test)]
mod report_tests;
