//! The words of the program's command line: which command they ask for, and with which values.
//!
//! Contracts see a [`Request`] through `request_view` of `specs/RequestViews.antt`. The main promise is that of
//! [`parse_command`]: it gives exactly what the definition `request_of` reads, and answers [`ArgumentsFault::Usage`] exactly where
//! that reads nothing, or that memory ran out. Which words a command takes is a grammar of this crate (`specs/Grammar.antt`), and clap reads
//! them: [`grammar::same_as_clap`] is the law that clap's definitions agree with it. The crate touches nothing outside of memory.
#![tactic(auto)]

mod fail;
pub mod fault;
pub mod forms;
pub mod grammar;
pub mod instances;
pub mod published;
pub mod request;
pub mod strong;
pub mod values;
pub mod words;

pub use fault::ArgumentsFault;
pub use request::{
    Auditing, CalmRequest, Checking, FailRequest, Generating, InstanceWords, Instances,
    NetworkRequest, Publishing, Request, StrongRequest,
};
pub use words::{names_run, parse_calm, parse_command, parse_run};
