use nf_function::Chunks;
use thiserror::Error;

/// Why chunks weren't taken in. They are handed back, and the table is as before.
#[derive(Debug, Drop, Error)]
pub enum ImportFault {
    /// There would be more live records than the limit.
    #[error("import {held} {coming} {limit}")]
    Limit {
        /// How many records are live.
        held: u32,
        /// How many come, with these chunks and later ones.
        coming: u32,
        limit: u32,
        chunks: Chunks,
    },
    /// The chunk at this place, counted from 0, is the first that spells no record, or that of a unit that an earlier one has.
    #[error("chunk {index} is bad")]
    Bad {
        index: usize,
        chunks: Chunks,
    },
    /// Memory ran out.
    #[error("no memory")]
    NoMemory(Chunks),
}
