//! Tests of what is read and written, and of the small types that all crates name: filters and names, the outside, captures, units and tallies,
//! the words of the command line, journals, scripts, and the input of a run.
//!
//! They stand in a crate of their own, so that none of the crates below is proved a second time for their sake. There is no other code
//! here. The tests touch nothing but memory and one file in the folder for such files.
#![tactic(auto)]

#[cfg(test)]
mod tests;
