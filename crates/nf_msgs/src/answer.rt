use basics::{NoMemory, TryCopy};
use flow_filter::Name;

/// What the operator is told of a command.
#[derive(Debug, Drop)]
pub enum Answer {
    /// It is done.
    Done,
    /// No instance has this name.
    Unknown(Name),
    /// Its filter meets that of the command with this number, which is still open, or of a share.
    Overlap(u32),
    /// The destination holds `held` units and takes at most `limit`, and `coming` came.
    Import { held: u32, coming: u32, limit: u32 },
    /// A chunk of version `newest` came, and the destination reads at most version `reads`.
    Old { newest: u8, reads: u8 },
}

/// Only the answer of an unknown name takes memory.
impl TryCopy for Answer {
    fn copy(&self) -> Result<Self, NoMemory> {
        match self {
            Answer::Done => Ok(Answer::Done),
            Answer::Unknown(name) => Ok(Answer::Unknown(name.copy()?)),
            Answer::Overlap(op) => Ok(Answer::Overlap(*op)),
            Answer::Import {
                held,
                coming,
                limit,
            } => Ok(Answer::Import {
                held: *held,
                coming: *coming,
                limit: *limit,
            }),
            Answer::Old { newest, reads } => Ok(Answer::Old {
                newest: *newest,
                reads: *reads,
            }),
        }
    }
}
