/// What becomes of the packets that a rule takes.
#[derive(Clone, Copy, Debug, PartialEq, Eq)]
pub enum Action {
    /// They are processed, and an event tells of each.
    Process,
    /// They are held until the operation releases them.
    Buffer,
    /// They are handed out as events, and not processed here.
    Drop,
}
