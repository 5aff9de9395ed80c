use basics::NoMemory;
use nf_io::Failed;
use thiserror::Error;

/// Why a capture can't be read. Each `offset` is the place of the first byte of a record.
#[derive(Clone, Copy, Debug, PartialEq, Eq, Error)]
pub enum TraceFault {
    #[error("magic")]
    Magic,
    #[error("pcapng")]
    PcapNg,
    #[error("version")]
    Version,
    #[error("link type {0}")]
    LinkType(u16),
    #[error("record length")]
    RecordLength { offset: u64, n: u32 },
    #[error("too long")]
    TooLong { offset: u64 },
    #[error("header")]
    Header(u64),
    #[error("the outside failed")]
    Read,
    #[error("out of memory")]
    NoMemory,
}

impl From<Failed> for TraceFault {
    ghost use Rattle.std.specs.Prelude.{◌≡◌};
    ghost use Rattle.trace_reader.specs.declared.fault.TraceFault.TheVariants.{Read};

    ghost from_gives = { λ _ e. e ≡ Read };

    fn from(_: Failed) -> Self {
        TraceFault::Read
    }
}

impl From<NoMemory> for TraceFault {
    ghost use Rattle.std.specs.Prelude.{◌≡◌};
    ghost use Rattle.trace_reader.specs.declared.fault.TraceFault.TheVariants.{NoMemory};

    ghost from_gives = { λ _ e. e ≡ NoMemory };

    fn from(_: NoMemory) -> Self {
        TraceFault::NoMemory
    }
}
