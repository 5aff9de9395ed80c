//! What the proof of the network sees of its real tables: each step of a node is a step of the abstract network of `proof_machines`.
//!
//! There is no code here, and nobody has to believe its definitions: they are steps between the network's tables and what is
//! proved of every run. The proofs stand in folders: `outline` has the outline of each message and of each step, `whole` the same
//! with shares, and `joined` each world of a run with moves, copies and shares beside the abstract world that shows it, kept by every step.
#![tactic(auto)]
