use basics::Boxed;
use flow_filter::{CapturedPacket, Packet};
use nf_msgs::Msg;
use packet_pool::Cell;

/// A message between two nodes of the network of an update. `high` tells which of its two rules is meant.
#[derive(Drop)]
pub enum TwoMsg {
    // The input of the switch.
    /// The next packet of the trace.
    InPacket(CapturedPacket),
    /// The update is asked for.
    InStart,
    /// The input has come to its end.
    InEnd,

    // From the switch to the controller.
    /// The update is to begin.
    Start,
    /// The input has come to its end.
    End,
    /// A copy of a packet that went to the source by the low rule.
    Copied(Boxed<Packet>),
    /// The rule is laid.
    Laid { high: bool },

    // From the controller to the switch.
    /// Send the packet on to the destination, past its rules.
    Forward(Cell),
    /// Lay the rule.
    Lay { high: bool },
    /// Stop an instance, by its number from 0; all is done where it is the destination.
    Finish { to: u8 },

    /// A message to or from an instance.
    Inner(Msg),
}
