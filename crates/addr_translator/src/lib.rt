//! The address translator: which outside ports an inside host has, and how each packet passes the site's border.
//!
//! Contracts see a [`NatRecord`] as its mappings and its two counts. The main promise is that of [`step`]: the record and
//! the output after a packet are those of the table in `specs/Table.antt`, and the step never runs out of memory. The crate
//! touches nothing but its arguments.
#![tactic(auto)]

pub mod body;
pub mod ends;
pub mod mapping;
pub mod nat;
pub mod passage;
pub mod record;
pub mod table;
pub mod text;

pub use mapping::Mapping;
pub use nat::Nat;
pub use passage::Passage;
pub use record::NatRecord;
pub use table::step;
