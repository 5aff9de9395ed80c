use basics::NoMemory;
use nf_function::BodyFault;
use thiserror::Error;

/// Why bytes aren't the chunk that is asked for: the first part from the front that is missing or wrong.
#[derive(Clone, Copy, Debug, PartialEq, Eq, Error)]
pub enum ChunkFault {
    /// The bytes end within a part.
    #[error("short")]
    Short,
    /// The version is neither 1 nor 2.
    #[error("version {0}")]
    Version(u8),
    /// The kind or the scope is another, or can't be of that version.
    #[error("kind")]
    Kind,
    /// The flow is neither of TCP nor of UDP.
    #[error("key")]
    Key,
    /// The body spells no valid record of that version.
    #[error("body")]
    Body,
    /// Bytes come after the body.
    #[error("extra")]
    Extra,
    /// Memory ran out.
    #[error("no memory")]
    NoMemory,
}

impl From<BodyFault> for ChunkFault {
    ghost use Rattle.state_chunk.specs.Reading.{chunk_fault};
    ghost use Rattle.std.specs.Prelude.{◌≡◌};

    ghost from_gives = { λ e f. f ≡ chunk_fault e };

    fn from(fault: BodyFault) -> ChunkFault {
        match fault {
            BodyFault::Body => ChunkFault::Body,
            BodyFault::NoMemory => ChunkFault::NoMemory,
        }
    }
}

impl From<NoMemory> for ChunkFault {
    ghost use Rattle.std.specs.Prelude.{◌≡◌};
    ghost use Rattle.state_chunk.specs.declared.fault.ChunkFault.TheVariants.{NoMemory as OutOfMemory};

    ghost from_gives = { λ _ e. e ≡ OutOfMemory };

    fn from(_e: NoMemory) -> ChunkFault {
        ChunkFault::NoMemory
    }
}
