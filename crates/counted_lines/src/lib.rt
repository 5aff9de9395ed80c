//! Lines that begin with a word and a number, many of which are printed one after another: they are put together on a page
//! of a fixed size, by blocks of a fixed size, and a number that counts up changes its last digit in place. It touches nothing
//! outside of its arguments and the memory that they bring.
//!
//! Contracts see a [`Block`] as its text. The main promise is that of [`CountedLines::push`]: the text and what is
//! still to go there are together what they were, and then the line.
#![tactic(auto)]

pub mod block;
pub mod counter;
pub mod lines;
pub mod page;

pub use block::{BLOCK, Block, LONGEST_END};
pub use lines::CountedLines;
