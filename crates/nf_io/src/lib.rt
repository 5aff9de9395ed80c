//! Reading and writing outside the program, role by role.
//!
//! An [`Outside`] has seven files, one for each [`Role`]. Contracts see it as a function from
//! roles to a `Meaning`: the bytes left, the bytes written, a count of faults, and the name that
//! was bound. The main promise: a read or a write fails only where the count of faults of its own
//! role rose, and a call leaves every other role as it was. A role that gets a name has the bytes
//! that its file showed under it.
//!
//! Only [`FileOutside`] and [`arguments`](arguments::arguments) touch anything outside of the program: the first
//! named files, the standard output and the standard error, by the four calls of a [`System`] and the reads and
//! writes of its files; the second the words that the program was started with. The other outsides are in memory.
#![tactic(auto)]

pub mod arguments;
pub mod calm;
pub mod file;
pub mod memory;
mod named;
pub mod outside;
mod planned;
mod read_ahead;
mod retry;
mod stream;
pub mod streams;
pub mod system;
mod tape;
pub mod transfers;

pub use calm::CalmOutside;
pub use file::FileOutside;
pub use memory::MemoryOutside;
pub use outside::{Failed, Outside, Role};
pub use streams::{RoleSink, RoleSource, Sink, Source};
pub use system::{HostSystem, Process, System};
pub use transfers::{UptoFault, read_upto, write_all};
