//! The switch's window: how many packets may be under way, and how many are.
//!
//! Contracts see a [`Window`] as its pool of cells, its count of packets under way, and whether it is closed. What is under way and what stands at
//! home are together all cells. This crate touches nothing but memory, and that only where a packet comes for which no room is kept. The main
//! promise: a cell is taken home exactly where it is one of the pool's and a packet is under way.
#![tactic(auto)]

pub mod window;

pub use window::Window;
