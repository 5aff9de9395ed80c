/// How far a share has come.
#[derive(Clone, Copy, Debug, PartialEq, Eq)]
pub enum SharePhase {
    /// Packets of the units are still on their way to the home by the old rules.
    Fencing,
    /// The home is to send its records.
    Getting,
    /// So many members have yet to take the first records.
    Setting(usize),
    /// The share is set up, and no packet is out.
    Idle,
    /// A packet is out at the member with this number.
    Out(u8),
    /// So many members have yet to take the records after a packet.
    Syncing(usize),
}
