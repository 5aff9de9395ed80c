//! The tests, by what they are of.

mod check_tests;
mod common;
mod fail_tests;
mod generate_tests;
mod journal_tests;
mod report_tests;
mod threads_tests;
