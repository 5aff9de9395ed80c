use basics::NoMemory;
use nf_io::UptoFault;
use thiserror::Error;

/// Why bytes aren't the journal that is asked for: the first check that fails.
#[derive(Clone, Copy, Debug, PartialEq, Eq, Error)]
pub enum JournalFault {
    /// It doesn't begin with the letters of a journal.
    #[error("magic")]
    Magic,
    /// The version is another than 1.
    #[error("version")]
    Version,
    /// It is of another function.
    #[error("kind")]
    Kind,
    /// It is of another number of instances, or has too many choices.
    #[error("count")]
    Count,
    /// The bytes end within the header or the choices.
    #[error("short")]
    Short,
    /// Bytes come after the choices.
    #[error("extra")]
    Extra,
    /// The source couldn't be read.
    #[error("the outside failed")]
    Read,
    /// Memory ran out.
    #[error("out of memory")]
    NoMemory,
}

impl From<UptoFault> for JournalFault {
    ghost use Rattle.std.specs.Prelude.{◌≡◌};
    ghost use Rattle.journal_file.specs.Reading.{fault_of};

    ghost from_gives = { λ e fault. fault ≡ fault_of e };

    fn from(fault: UptoFault) -> JournalFault {
        match fault {
            UptoFault::Failed => JournalFault::Read,
            UptoFault::NoMemory => JournalFault::NoMemory,
        }
    }
}

impl From<NoMemory> for JournalFault {
    ghost use Rattle.std.specs.Prelude.{◌≡◌};
    ghost use Rattle.journal_file.specs.declared.fault.JournalFault.TheVariants.{NoMemory as OutOfMemory};

    ghost from_gives = { λ _ e. e ≡ OutOfMemory };

    fn from(_e: NoMemory) -> JournalFault {
        JournalFault::NoMemory
    }
}
