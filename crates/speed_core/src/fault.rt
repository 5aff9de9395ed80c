ghost use Rattle.std.specs.Prelude.{◌≡◌};
ghost use Rattle.speed_core.specs.Faults.{exit_number};

use actor_net::ScheduleFault;
use basics::NoMemory;
use thiserror::Error;

/// Why no count of choices is printed.
#[derive(Clone, Copy, Debug, PartialEq, Eq, Error)]
pub enum Fault {
    #[error("bad words")]
    Words,
    #[error("unfinished after {step} choices")]
    Unfinished { step: u64 },
    #[error("out of memory")]
    NoMemory,
}

impl Fault {
    /// The exit status that tells it.
    pub fn status(self) -> u8
        ensures { result ≡ exit_number self }
    {
        match self {
            Fault::Words | Fault::Unfinished { .. } => 1,
            Fault::NoMemory => 6,
        }
    }
}

impl From<NoMemory> for Fault {
    ghost use Rattle.std.specs.Prelude.{◌≡◌};
    ghost use Rattle.speed_core.specs.declared.fault.Fault.TheVariants.{NoMemory};

    ghost from_gives = { λ _ fault. fault ≡ NoMemory };

    fn from(_fault: NoMemory) -> Self {
        Fault::NoMemory
    }
}

impl From<ScheduleFault> for Fault {
    ghost use Rattle.std.specs.Prelude.{◌≡◌};
    ghost use Rattle.speed_core.specs.Faults.{fault_of};

    ghost from_gives = { λ fault given. given ≡ fault_of fault };

    fn from(fault: ScheduleFault) -> Self {
        match fault {
            ScheduleFault::Unfinished { step } => Fault::Unfinished { step },
            ScheduleFault::NoMemory => Fault::NoMemory,
        }
    }
}
