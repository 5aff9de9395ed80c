//! Captures in the pcap format, version 2.4: reading them, and making those that are generated. It touches nothing but the source or sink
//! that it is given.
//!
//! Contracts see a [`TraceReader`] as its form, its place, the number of packets given and its
//! end. The main promise is that of [`read_trace`]: its answer is `capture_of` the bytes that the
//! source had left, whatever pieces the source gives them in. [`read_into`] hands the same packets,
//! one after another, to a [`Keeper`] of the caller's. [`make_trace`] writes exactly the bytes of `capture`.
#![tactic(auto)]

mod drawn;
mod encode;
pub mod fault;
pub mod form;
pub mod keeper;
pub mod make;
mod piece;
pub mod reader;
pub mod record;
mod steer;
mod takes;
pub mod trace;

pub use fault::TraceFault;
pub use form::{Endian, Form, Fraction, LinkType, Magic};
pub use keeper::Keeper;
pub use make::{MakeFault, make_trace};
pub use reader::{Stop, TraceReader};
pub use record::Next;
pub use trace::{Trace, TraceEnd, read_into, read_trace};
