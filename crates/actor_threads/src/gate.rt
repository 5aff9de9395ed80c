//! What a worker passes before each step.

/// Called by a worker before each step, with its node and the number of steps that it has done in this round. It may wait.
pub trait Gate: Sync {
    /// Passes before the step of a node, whose number is that of the node's steps before it in the round.
    fn pass(&self, node: u8, step: u64);
}

/// The gate that lets every step pass at once.
#[derive(Clone, Copy, Debug)]
pub struct OpenGate;

impl Gate for OpenGate {
    fn pass(&self, _node: u8, _step: u64) {}
}
