//! The tests, by what they are of.

mod common;
mod controller_tests;
mod instance_tests;
mod move_tests;
mod share_tests;
mod switch_tests;
