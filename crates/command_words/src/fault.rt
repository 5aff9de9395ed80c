ghost use Rattle.std.specs.Prelude.{◌≡◌};
ghost use Rattle.command_words.specs.declared.fault.ArgumentsFault.TheVariants.{NoMemory};

use basics::NoMemory;
use std::alloc::AllocFailed;

/// Why words were refused.
#[derive(Clone, Copy, Debug, PartialEq, Eq)]
pub enum ArgumentsFault {
    /// The words aren't in the grammar.
    Usage,
    NoMemory,
}

impl From<NoMemory> for ArgumentsFault {
    ghost from_gives = { λ _ fault. fault ≡ NoMemory };

    fn from(_error: NoMemory) -> Self {
        ArgumentsFault::NoMemory
    }
}

impl<T: Drop> From<AllocFailed<T>> for ArgumentsFault {
    ghost from_gives = { λ _ fault. fault ≡ NoMemory };

    fn from(_error: AllocFailed<T>) -> Self {
        ArgumentsFault::NoMemory
    }
}
