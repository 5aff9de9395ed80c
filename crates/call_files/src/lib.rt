//! The files of a call: bound to the roles of the outside, read as the inputs of a command, and written as its results; and the status that a call ends
//! with. Nothing here knows what a run of a network does.
//!
//! The crate touches nothing but the [`Outside`](nf_io::Outside) that it is handed, and memory. Contracts see the outside as a function from roles to what is
//! known of each, the words of a command as what it asks for, and a status as its fields. The main promises are those of [`bind_files`], that each role
//! has the name that the words give it (`IsBound`), of [`read_inputs`], that the inputs are what their bytes are read as, or that the status has its cause
//! (`HasInputs`, `InputsFail`), and of [`write_results`], that the journal and then the report were written, in full or up to a fault (`WroteRun`).
#![tactic(auto)]

pub mod binding;
pub mod error_line;
pub mod inputs;
pub mod journal;
pub mod outcome;
pub mod results;
pub mod status;
pub mod writing;

pub use binding::{bind_files, bind_run};
pub use error_line::{Line, line};
pub use inputs::{Inputs, read_inputs, read_packets, read_said};
pub use journal::read_choices;
pub use outcome::Outcome;
pub use results::{Made, write_report, write_results};
pub use run_input::{Setting, input_of};
pub use status::{JournalKind, Status, TraceKind};
pub use writing::put;
