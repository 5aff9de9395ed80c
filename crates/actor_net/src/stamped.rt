/// A message between threads, with the clock of the step that sent it.
#[derive(Debug, Drop)]
pub struct Stamped<M> {
    pub clock: u64,
    pub message: M,
}
