//! Operator scripts: reading them, printing them in canonical form, and laying them between the packets of a trace.
//!
//! Contracts see a [`Script`] through `script_view` of `specs/Reading.antt`: each name as its bytes and each filter as its
//! fields. The main promise is that of [`read_script`]: it accepts exactly the scripts of the definition `script_of`,
//! gives what stands there, and refuses every other by its first line that breaks a rule, by that line's first fault. The
//! crate touches nothing outside of memory.
#![tactic(auto)]

pub mod fault;
mod input;
mod packet_items;
mod printing;
mod reader;
mod reading;
pub mod script;
mod statement;

pub use fault::{ScriptFault, ScriptKind};
pub use input::items;
pub use packet_items::PacketItems;
pub use printing::print_script;
pub use reading::{LONGEST_SCRIPT, read_script};
pub use script::{Line, Script, What};
