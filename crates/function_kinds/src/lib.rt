//! The network functions by their kinds: the one place that knows all of them.
//!
//! [`for_kind`] does some work with the function of a kind, whichever it is. Contracts see a function by its semantics; what is said of the function of a
//! kind is `OfKind` of `specs/Functions.antt`, and that is what [`for_kind`] promises: its work is done with the function of just that kind. The crate
//! touches nothing but what the work does.
#![tactic(auto)]

pub mod functions;

pub use functions::{ForFunction, for_kind};
