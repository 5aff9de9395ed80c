//! The tests, by what they are of.

mod common;
mod message_tests;
mod monitor_tests;
mod pool_tests;
mod rule_tests;
mod store_tests;
mod switch_rules_tests;
mod table_tests;
mod tracker_tests;
mod translator_tests;
