//! The switch's rules: where the packets of a flow go.
//!
//! Contracts see [`Rules`] as the list of its rules, each a filter and a target, and a [`Classifier`] as the list of its groups,
//! each a mask and the entries of a map from masked flows to places and targets. This crate touches nothing but memory. The
//! main promises: a flow's target is that of the first rule that matches, however it is found; and a redirect
//! changes the targets of exactly the flows that its filter matches and that had the old target.
#![tactic(auto)]

pub mod classifier;
pub mod group;
pub mod mask;
pub mod redirect;
pub mod redirect_list;
pub mod routes;
pub mod rules;
pub mod section;
pub mod span_group;
pub mod spans;
pub mod target;

pub use classifier::Classifier;
pub use group::{Group, Placed};
pub use mask::Mask;
pub use redirect::Redirect;
pub use rules::Rules;
pub use target::Target;
