//! The ground of `opennf`: sequences that contracts see as lists, texts, and numbers in text. Every other crate may stand on
//! it. It touches nothing outside of its arguments and the memory that they bring.
//!
//! Contracts see a [`Sequence`] as the list of its items, and a [`Boxed`] as its value. The main promises are that each call
//! changes exactly that list, and that `parse_number` reads exactly the texts that `push_decimal` writes.
#![tactic(auto)]

pub mod boxed;
pub mod parsing;
pub mod sequence;
pub mod text;
pub mod try_copy;

pub use boxed::Boxed;
pub use sequence::{Bytes, NoMemory, Sequence, Text};
pub use try_copy::TryCopy;
