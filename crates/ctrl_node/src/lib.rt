//! The controller: it begins the operators' operations, hands each message to the operation that it is of, answers, and tells all
//! to finish.
//!
//! Contracts see a [`Ctrl`] as the names, the site, a finite map of open operations, the stored parcels and what has ended. This
//! crate touches nothing but memory. The main promise is that each step is its row of the table `controller_step`, for every
//! message, also for those that come in no run.
#![tactic(auto)]

mod controller;
pub mod operation;
pub mod operations;

pub use controller::Ctrl;
pub use operation::Operation;
pub use operations::Operations;
