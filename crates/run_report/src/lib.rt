//! The report of a run: what the network was, each packet's output, where and in which order packets were processed, the answers
//! of the operator's commands, and the records and the tally that each instance holds.
//!
//! Contracts see a [`Head`] as its fields. This crate touches nothing but memory. The main promise is that of [`report`]: its text is
//! `report_text` of the world's log and nodes, for each world, also for one that isn't at its end; and [`audit`] is the report of the
//! world that choices lead to from a network's start, where they are a complete run, and else names the step that isn't one of a run.
#![tactic(auto)]

mod answers;
pub mod auditing;
mod instances;
pub mod reporting;

pub use auditing::audit;
pub use nf_net::{AuditFault, run_choices, simulate};
pub use report_lines::Head;
pub use reporting::report;
