//! Event rules: what an instance does with the packets of a filter while an operation on their state is open.
//!
//! An operation has at most one rule. Contracts see [`EventRules`] as the list of its rules, each with the operation, the
//! filter, the action and the parcels that are held under it. A parcel is whatever the caller moves in; it is never copied.
//! This crate touches nothing but memory. The main promise: what is held for an operation comes out by `release`, in order and
//! once, and the first rule whose filter matches a packet's flow decides what becomes of it.
#![tactic(auto)]

pub mod action;
pub mod decide;
pub mod held;
pub mod mark;
pub mod rule;
pub mod rules;

pub use action::Action;
pub use decide::Decide;
pub use held::Held;
pub use mark::Mark;
pub use rule::Rule;
pub use rules::EventRules;
