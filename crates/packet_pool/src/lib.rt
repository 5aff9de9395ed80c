//! The switch's pool of cells: a packet under way stands in a cell, and there are only so many cells.
//!
//! Contracts see a [`Pool`] as its number, how many cells it has and how many of them stand at home, and a [`Cell`] as the
//! number of its pool and its packet. A cell can't be copied, and only [`Pool::take`] makes one: so the cells that are away and
//! the cells at home are together all cells, as long as nobody drops one. This crate touches nothing but memory, and after
//! [`Pool::open`] it takes none. The main promise: a cell is refused exactly where none is at home.
#![tactic(auto)]

pub mod cell;
pub mod pool;

pub use cell::Cell;
pub use pool::Pool;
