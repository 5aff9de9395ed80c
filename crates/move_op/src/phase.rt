use crate::stream::Stream;
use nf_msgs::Answer;

/// How far a move has come.
#[derive(Debug, Drop)]
pub enum Phase {
    /// The source is to hand out the packets of the move unprocessed.
    Freezing,
    /// The source sends its state by pieces.
    Streaming(Stream),
    /// The destination is to hold the packets that come by the new rules.
    Holding,
    /// Packets go to the destination; those of the old rules are still under way.
    Passing,
    /// What the destination held is to be processed.
    Ending,
    /// The source is to take its state back, since the destination refused it.
    Restoring(Answer),
    /// The source is to hold the packets that come.
    Returning(Answer),
    /// What the source held is to be processed.
    Undoing(Answer),
    Over(Answer),
}
