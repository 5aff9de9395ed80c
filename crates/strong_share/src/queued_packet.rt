use instance_worker::number::InstanceNumber;
use packet_pool::Cell;

/// A packet that waits, and the member that raised it.
#[derive(Drop)]
pub struct QueuedPacket {
    pub cell: Cell,
    pub member: InstanceNumber,
}
