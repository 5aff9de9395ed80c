//! A map from keys to records that no choice of keys can slow down: as fast as a hash map on ordinary keys, and bounded on
//! any. A look-up reads at most eight slots of an index and one path of an ordered tree.
//!
//! Contracts see a [`UnitMap`] as the list of its entries, in no order that a caller may rely on: each key stands once, with
//! its record, or with none where the record has left. What callers use is the record of a key, `record_of`. The main
//! promise is that each call changes the records of exactly the keys that it names, and that a record is lent where it
//! stands. Nothing that the index says is believed: each entry that it points to is looked at. The crate touches nothing
//! outside of memory.
#![tactic(auto)]

pub mod index;
pub mod map;

pub use map::UnitMap;
