//! What is left where an instance fails in the middle of a run, and another takes over from the records that stand by there.
//!
//! Contracts see a [`Promoted`] as its fields. This crate touches nothing but memory. The main promises are those of [`promote`] and
//! [`catch_up`], in the words of `specs/Failover.antt`: which units are affected, which records the other instance has of them, exactly
//! which of their packets those records lack, and that with these packets each of them is the record of one instance that nothing moves.
#![tactic(auto)]

pub mod catching_up;
mod numbers;
pub mod packets;
pub mod promoted;
pub mod promoting;
mod replay;
pub mod reporting;
mod scene;

pub use catching_up::catch_up;
pub use nf_net::AuditFault;
pub use packets::packets_of;
pub use promoted::{Failing, Numbers, Promoted};
pub use promoting::{promote, promote_with};
pub use report_lines::Head;
pub use reporting::report_failover;
