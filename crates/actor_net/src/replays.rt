ghost use Rattle.std.specs.Prelude.{◌≡◌, ◌≢◌, ℕ, None, Some, Err, OnOk};
ghost use Rattle.actor_net.specs.Network.{run, fault_from};
ghost use Rattle.actor_net.specs.Replays.{replay_of};

use super::actor::Actor;
use super::choices::Choices;
use super::world::{TakeFault, World};
use thiserror::Error;

/// Takes the choices in order. What isn't handed back is dropped.
pub fn replay<A: Actor>(world: World<A>, choices: &Choices) -> Result<World<A>, ReplayFault>
    ensures { result ≢ Err ReplayFault.NoMemory → result ≡ replay_of A.is_ready A.stepped choices.now world }
{
    let mut world = world;
    take_all(&mut world, choices)?;
    Ok(world)
}

/// Takes the choices in order, as far as they are enabled.
fn take_all<A: Actor>(world: &mut World<A>, choices: &Choices) -> Result<(), ReplayFault>
    ensures ok { OnOk result ((fault_from A.is_ready A.stepped 0 choices.now world.old ≡ None) × (world.new ≡ run A.stepped choices.now world.old)) }
    ensures not_enabled { (index : ℕ) → result ≡ Err (ReplayFault.NotEnabled index) → fault_from A.is_ready A.stepped 0 choices.now world.old ≡ Some index }
{
    let mut index = 0;
    for choice in choices.iter() {
        match world.take(choice) {
            Ok(()) => index += 1,
            Err(TakeFault::NotEnabled) => return Err(ReplayFault::NotEnabled { index }),
            Err(TakeFault::NoMemory) => return Err(ReplayFault::NoMemory),
        }
    }
    Ok(())
}

/// Why choices aren't replayed.
#[derive(Clone, Copy, Debug, PartialEq, Eq, Error)]
pub enum ReplayFault {
    #[error("choice {index} isn't enabled")]
    NotEnabled { index: usize },
    #[error("out of memory")]
    NoMemory,
}
