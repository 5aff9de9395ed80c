//! What every network function has in common: the trait [`Function`] with its laws, the units that functions keep
//! records for, the chunks that records travel as, and the tally that belongs to all flows.
//!
//! Contracts see every type as its variants and fields, [`Chunks`] and [`Units`] as lists, and [`ChunkBytes`] as the list of the
//! bytes that it holds or spells. A function is seen as its [`Function`]'s `semantics`: its table, its texts, and what its records
//! are stored as. The main promises are the laws of that trait, which each function proves and generic code uses, and that of
//! [`splits`]: a filter that splits no unit takes the unit of a flow exactly where it matches the flow. The crate touches nothing
//! outside of memory.
#![tactic(auto)]

pub mod chunk;
pub mod function;
pub mod kind;
pub mod output;
pub mod short;
pub mod stored;
pub mod tally;
pub mod unit;

pub use chunk::{Chunk, ChunkBytes, Chunks, Form, Packed};
pub use function::{BodyFault, Function, newer_is_an_order, steps_make_newer};
pub use kind::{Kind, Scope, splits};
pub use output::Output;
pub use short::ShortBody;
pub use tally::Tally;
pub use unit::{Unit, Units, filter_takes, is_transport};
