//! A move: the operation that takes the state and the packets of units from one instance to another, without loss.
//!
//! Contracts see a [`MoveOp`] as what is to be moved and its [`Phase`], and [`Pieces`] as their list. This crate touches nothing but
//! memory. The main promise is that each message does exactly what its row of the table `row` says, also where it comes in
//! no run. State is moved, and never copied.
#![tactic(auto)]

mod destination;
pub mod door;
pub mod operation;
pub mod phase;
pub mod pieces;
mod plan;
mod source;
pub mod stream;
mod units;

pub use door::Door;
pub use operation::MoveOp;
pub use phase::Phase;
pub use pieces::Pieces;
pub use stream::Stream;
