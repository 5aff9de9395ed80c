//! Stores of parcels: what the controller keeps of each operation's packets until it sends them on.
//!
//! Contracts see an [`EventStore`] as a finite map from the numbers of operations to the lists of their parcels; an operation
//! without parcels isn't noted. A parcel is whatever the caller moves in; it is never copied. This crate touches nothing
//! but memory. The main promise: what is put for an operation comes out in order and once, and the lists of the
//! other operations stay.
#![tactic(auto)]

mod queue;
pub mod store;

pub use store::EventStore;
