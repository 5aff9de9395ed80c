//! The calls that do all that the program does.
//!
//! [`opennf_top`], [`opennf_run`] and [`opennf_calm`] take the words of the command line, read the files that these name, and write what they
//! ask for: the report of a run of the network, the canonical text of a script, or a generated capture. They touch nothing but
//! the [`Outside`](nf_io::Outside) that they are handed, and memory; [`opennf_run`] starts threads besides.
//!
//! Contracts see the outside as a function from roles to what is known of each, the words as lists of bytes, and a status as
//! its fields. The main promise is `HasOutcome` of `specs/Outcome.antt`: at `Ok` the report is that of a world to which a
//! complete run leads the network, whose input is what the capture's and the script's bytes are read as: the run of the words'
//! schedule for `sim`, a run whose choices are handed out for `run`, the one that the journal tells for `audit`. Or the report is the
//! canonical text of the script's bytes, or the capture that was drawn is written. Every other status has its cause.
#![tactic(auto)]

pub mod audit;
pub mod check;
pub mod fail;
pub mod generate;
pub mod laws;
pub mod published;
mod reporting;
pub mod run;
pub mod sim;
pub mod strong;
pub mod top;

pub use call_files::{JournalKind, Outcome, Setting, Status, TraceKind, input_of};
pub use network_calls::{Config, Head, Node, audit as audited, report, run_network};
pub use top::{opennf_calm, opennf_run, opennf_top, opennf_unread};
