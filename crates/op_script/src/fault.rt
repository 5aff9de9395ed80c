ghost use Rattle.std.specs.Prelude.{◌≡◌};
ghost use Rattle.op_script.specs.declared.fault.LineFault.TheVariants.{NoMemory};

use basics::NoMemory;
use std::alloc::AllocFailed;
use thiserror::Error;

/// Which rule a line of a script breaks.
#[derive(Clone, Copy, Debug, PartialEq, Eq, Error)]
pub enum ScriptKind {
    /// The line is no statement.
    #[error("word")]
    Word,
    /// The line is less far than an earlier one, or a route after an `at` line.
    #[error("order")]
    Order,
    /// The filter can't be read.
    #[error("filter")]
    Filter,
    /// The filter splits a unit of the function.
    #[error("splits unit")]
    SplitsUnit,
    /// An instance stands twice in one command.
    #[error("same instance")]
    SameInstance,
    /// There are too many lines of a sort, or too many bytes.
    #[error("too many")]
    TooMany,
    /// A name is malformed, or that of a route is no instance.
    #[error("name")]
    Name,
    /// The line isn't UTF-8.
    #[error("not utf8")]
    NotUtf8,
}

/// Why a script was refused: the first line that breaks a rule, from 1, or line 0 for the whole; or out of memory.
#[derive(Clone, Copy, Debug, PartialEq, Eq, Error)]
pub enum ScriptFault {
    #[error("script line {line}: {kind}")]
    Bad { line: u32, kind: ScriptKind },
    #[error("no memory")]
    NoMemory,
}

/// Why one line was refused.
#[derive(Clone, Copy, Debug, PartialEq, Eq)]
pub enum LineFault {
    Bad(ScriptKind),
    NoMemory,
}

impl From<NoMemory> for LineFault {
    ghost from_gives = { λ _ fault. fault ≡ NoMemory };

    fn from(_error: NoMemory) -> Self {
        LineFault::NoMemory
    }
}

impl<T: Drop> From<AllocFailed<T>> for LineFault {
    ghost from_gives = { λ _ fault. fault ≡ NoMemory };

    fn from(_error: AllocFailed<T>) -> Self {
        LineFault::NoMemory
    }
}
