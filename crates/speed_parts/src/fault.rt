ghost use Rattle.std.specs.Prelude.{◌≡◌};
ghost use Rattle.speed_parts.specs.Faults.{exit_number};

use basics::NoMemory;
use thiserror::Error;

/// Why no sum is printed.
#[derive(Clone, Copy, Debug, PartialEq, Eq, Error)]
pub enum Fault {
    #[error("bad words")]
    Words,
    #[error("chunks were refused")]
    Refused,
    #[error("out of memory")]
    NoMemory,
}

impl Fault {
    /// The exit status that tells it.
    pub fn status(self) -> u8
        ensures { result ≡ exit_number self }
    {
        match self {
            Fault::Words => 1,
            Fault::Refused => 2,
            Fault::NoMemory => 6,
        }
    }
}

impl From<NoMemory> for Fault {
    ghost use Rattle.std.specs.Prelude.{◌≡◌};
    ghost use Rattle.speed_parts.specs.declared.fault.Fault.TheVariants.{NoMemory};

    ghost from_gives = { λ _ fault. fault ≡ NoMemory };

    fn from(_fault: NoMemory) -> Self {
        Fault::NoMemory
    }
}
