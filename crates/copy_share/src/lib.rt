//! Copies and strict shares: the operations that put state into standby at another instance, and that let instances process the
//! packets of the same units one at a time, each with the others' state.
//!
//! Contracts see a [`CopyOp`] and a [`ShareOp`] as what is to be done and how far it has come. This crate touches nothing but
//! memory. The main promise is that each message does exactly what its row of the tables `row` says, also where it comes in no
//! run, and that a share serves its packets one at a time, each by `served`.
#![tactic(auto)]

pub mod copy;
pub mod copy_phase;
mod plan;
pub mod share;
pub mod share_phase;

pub use copy::CopyOp;
pub use copy_phase::CopyPhase;
pub use share::ShareOp;
pub use share_phase::SharePhase;
