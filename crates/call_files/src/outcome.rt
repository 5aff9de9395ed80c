ghost use Rattle.std.specs.Prelude.{◌≡◌, []};

use crate::status::Status;
use actor_net::Choices;
use std::alloc::Global;

/// How a call of the program ended.
#[derive(Debug, Drop)]
pub struct Outcome {
    pub status: Status,
    /// The choices of the run that was made. There are none where no run was, or where its report wasn't to be written.
    pub choices: Choices,
}

impl Outcome {
    /// An end without a run.
    pub fn without_run(alloc: Global, status: Status) -> Self
        ensures { result ≡ record { status = status; choices = [] } }
    {
        Outcome {
            status,
            choices: Choices::open(alloc),
        }
    }
}
