/// Whether a packet comes by the switch's rules, or was sent on by an operation.
#[derive(Clone, Copy, Debug, PartialEq, Eq)]
pub enum Mark {
    /// It came by the switch's rules.
    Plain,
    /// The operation with this number sent it on: no rule takes it.
    Pass(u32),
    /// A share with this number serves it, at its home or at another member: no rule takes it.
    Shared { op: u32, home: bool },
}
