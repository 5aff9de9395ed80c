/// How far the controller is with the update.
#[derive(Clone, Copy)]
pub enum Phase {
    /// The update isn't asked for yet.
    Idle,
    /// The source is to hand out the filter's packets unprocessed.
    Freezing,
    /// The source sends the chunks of the filter's units.
    Getting,
    /// It is to remove their records.
    Deleting,
    /// The destination is to take them.
    Putting,
    /// The destination is to hold the packets that come by the switch's rules.
    Holding,
    /// The switch is to lay the low rule.
    Laying,
    /// It is laid, and no packet was copied yet.
    Waiting,
    /// The switch is to lay the high rule.
    Turning,
    /// It is laid, and the last packet that was copied wasn't seen yet.
    Settling,
    /// What the destination held is to be processed.
    Ending,
    /// There is nothing more to do.
    Over,
}
