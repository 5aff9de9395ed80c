/// How far a copy has come.
#[derive(Clone, Copy, Debug, PartialEq, Eq)]
pub enum CopyPhase {
    /// The source is to send what is copied.
    Getting,
    /// The destination is to keep it.
    Keeping,
    Over,
}
