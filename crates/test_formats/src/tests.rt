//! The tests, by what they are of.

mod capture_tests;
mod filter_tests;
mod function_tests;
mod input_tests;
mod journal_tests;
mod outside_tests;
mod script_tests;
mod word_lines;
mod words_tests;
