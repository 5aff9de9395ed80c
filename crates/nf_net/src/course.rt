//! The world that choices lead to from a network's start, and why they lead to none.
ghost use Rattle.std.specs.Prelude.{◌≡◌, ℕ, IfOk};
ghost use Rattle.net_world.specs.Runs.{LeadsTo};
ghost use Rattle.net_world.specs.Start.{IsConfig, started_with};
ghost use Rattle.nf_net.specs.Courses.{IsRefusedAt};

use crate::run::run_choices;
use actor_net::{Choices, ReplayFault, World};
use basics::NoMemory;
use net_world::{Config, Node, start};
use nf_function::Function;
use nf_msgs::Msg;
use std::alloc::Global;
use thiserror::Error;

/// The world that these choices lead to from a network's start.
pub fn run_course<F: Function>(
    alloc: Global,
    config: &Config,
    items: Vec<Msg>,
    choices: &Choices,
) -> Result<World<Node<F>>, AuditFault>
    requires { IsConfig config.now }
    ensures leads { IfOk result (λ world. LeadsTo F.semantics (started_with alloc config.now items.items) choices.now world) }
    ensures refused { (step : ℕ) → result ≡ Err (AuditFault.NotARun step)
        → IsRefusedAt {F = F.row.Denot} F.semantics (started_with alloc config.now items.items) choices.now step }
{
    // An index among the choices is less than their number, so its step has room.
    let _count = choices.len();
    let start = start::<F>(alloc, config, items)?;
    match run_choices(start, choices) {
        Ok(world) => Ok(world),
        Err(ReplayFault::NotEnabled { index }) => {
            let step = index as u64 + 1;
            Err(AuditFault::NotARun { step })
        }
        Err(ReplayFault::NoMemory) => Err(AuditFault::NoMemory),
    }
}

/// Why choices aren't the run that is asked for.
#[derive(Clone, Copy, Debug, PartialEq, Eq, Error)]
pub enum AuditFault {
    /// The choice of a step, counted from 1, isn't enabled in its turn; or all are, and the next step is missing.
    #[error("not a run at step {step}")]
    NotARun { step: u64 },
    #[error("out of memory")]
    NoMemory,
}

impl From<NoMemory> for AuditFault {
    ghost use Rattle.std.specs.Prelude.{◌≡◌};
    ghost use Rattle.nf_net.specs.declared.course.AuditFault.TheVariants.{NoMemory};

    ghost from_gives = { λ _ e. e ≡ NoMemory };

    fn from(_fault: NoMemory) -> Self {
        AuditFault::NoMemory
    }
}
