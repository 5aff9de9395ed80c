use nf_msgs::Answer;

/// What the destination has said to the first piece.
#[derive(Debug, Drop)]
pub enum Door {
    /// It wasn't asked yet.
    Shut,
    /// It was asked; the flag tells whether that piece is the last as well.
    Asked(bool),
    /// It takes all pieces.
    Open,
    /// It takes none.
    Refused(Answer),
}
