//! The messages of the network, the commands of its operators, their answers, and the notes of its log.
//!
//! Contracts see each type as its variants and fields, what stands behind a pointer as itself, [`Names`] as the list of the
//! names' bytes, and [`KeptUnits`] as the list of its units. This crate touches nothing but memory. The calls copy and print: what
//! they give is equal to what they were given, or is its text by the definitions `answer_text` and `shown`.
#![tactic(auto)]

pub mod answer;
pub mod answer_text;
pub mod command;
pub mod exports;
pub mod kept;
pub mod message_text;
pub mod msg;
pub mod names;
pub mod nodes;
pub mod note;

pub use answer::Answer;
pub use answer_text::print_answer;
pub use command::{Command, Order};
pub use exports::units_in;
pub use kept::KeptUnits;
pub use message_text::show;
pub use msg::{Msg, Piece, Refused};
pub use names::Names;
pub use nodes::{CONTROLLER, MOST_INSTANCES, SWITCH, instance_node};
pub use note::Note;
