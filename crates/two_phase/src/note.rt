use nf_msgs::Note;

/// What a step of an update writes into the log.
#[derive(Drop)]
pub enum TwoNote {
    /// A note of the network.
    Inner(Note),
    /// The low rule is laid: the filter's packets go to the source, and copies of them to the controller.
    Low,
    /// The high rule is laid: they go to the destination.
    High,
    /// The update is done.
    Done,
    /// The input has ended, and none of the filter's packets came after the low rule.
    NoPacket,
}
