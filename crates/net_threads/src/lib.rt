//! The world of the network run by threads, with a worker for each node.
//!
//! The crate touches nothing but memory and threads. The promise is that of [`run_world`]: the choices of the workers are a run of the world, and lead to
//! the one that is handed back, in which nothing is left to do; if the call returns. It is generic in the function alone, so what the threads' nodes, links
//! and messages are dropped by is proved here, and not in each crate above.
#![tactic(auto)]

pub mod running;

pub use actor_threads::Gate;
pub use running::run_world;
