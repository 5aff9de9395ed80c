//! The records of an instance: those that packets step, which are live, and copies that are kept apart, which stand by.
//!
//! Contracts see a [`Table`] as two finite maps from units to records, and chunks as the map of the records that their bytes
//! spell. The main promises: each call changes the records of exactly the units that it names; a packet steps its unit's record
//! where it stands; what comes in chunks is taken in whole or not at all, and is refused exactly where a limit would be passed or
//! a chunk is bad. Each record of a table is valid for its unit. The crate touches nothing outside of memory.
#![tactic(auto)]

mod ordered;
mod reading;
mod record_map;
pub mod refusal;
pub mod table;

pub use refusal::ImportFault;
pub use table::{Stepped, Table};
