//! The stored bytes of records and tallies: how they are written, and how they are read from bytes that anybody may have made.
//!
//! Contracts see a record as its function's definition does, and bytes as lists. The main promises are that of [`encode`]
//! (the chunk has exactly the bytes of the format, and they are read again) and that of [`decode_chunk`] and [`decode`] (what is
//! read is valid and has one spelling, and other bytes are refused by the first part that is missing or wrong). A chunk that holds
//! numbers is read from them, without its bytes. The crate touches nothing outside of memory.
#![tactic(auto)]

pub mod fault;
pub mod front;
pub mod header;
pub mod key;
pub mod records;
pub mod tallies;

pub use fault::ChunkFault;
pub use records::{decode, decode_chunk, encode, version};
pub use tallies::{decode_tally, decode_tally_chunk, encode_tally};
