//! The connection tracker: what it keeps of a flow, and how each packet changes it.
//!
//! Contracts see a [`TrackRecord`] as its fields. The main promise is that of [`step`]: the record and the output after
//! a packet are those of the table of states in `specs/Table.antt`, for every record and packet. [`first_record`] and
//! [`next_record`] are its two halves, for callers that have the packet's direction and keep the record in place. The crate
//! touches nothing outside of memory.
#![tactic(auto)]

pub mod body;
pub mod class;
pub mod conntrack;
pub mod record;
pub mod state;
pub mod text;
pub mod tracker;

pub use conntrack::Conntrack;
pub use record::TrackRecord;
pub use state::State;
pub use text::{push_output, push_record};
pub use tracker::{first_record, next_record, step};
