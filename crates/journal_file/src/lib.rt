//! Journals: the stored choices of a run, how they are written, and how they are read from bytes that anybody may have made.
//!
//! Contracts see choices as their list. The main promises are that of [`write_journal`] (exactly the bytes of the format, which are read
//! again), that of [`read_journal`] (other bytes are refused by the first check that fails) and that of [`read_journal_from`]: its answer
//! is that of the bytes which the source had left, of which it takes none after the first part that shows a fault. The crate
//! touches nothing but the source that it is given.
#![tactic(auto)]

mod choices;
pub mod fault;
mod header;
pub mod journal;
pub mod source;

pub use fault::JournalFault;
pub use journal::{read_journal, write_journal};
pub use source::read_journal_from;
