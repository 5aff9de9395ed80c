/// What an instance does with a packet.
#[derive(Clone, Copy, Debug, PartialEq, Eq)]
pub enum Decide {
    /// It processes the packet.
    Process,
    /// It processes the packet, and tells the operation of it.
    ProcessAndEvent(u32),
    /// It hands the packet to the operation, unprocessed.
    Event(u32),
    /// It holds the packet for the operation.
    Buffer(u32),
}
