//! Schedules: how a simulated run picks each of its choices.
ghost use Rattle.std.specs.Prelude.{◌≡◌, ◌⊎◌, ℕ, [], length, true, Err, IfOk, OnSome};
ghost use Rattle.actor_net.specs.Network.{run, IsRun, is_done};
ghost use Rattle.actor_net.specs.Schedules.{later, pick_of, enabled_choices, scheduled, schedule_of, StopsShort};

use super::actor::Actor;
use super::choice::Choice;
use super::choices::Choices;
use super::remainders::Remainders;
use super::world::World;
use basics::NoMemory;
use rand_core::SeedableRng;
use rand_core::utils::NextWord;
use rand_xoshiro::SplitMix64;
use std::alloc::Global;
use thiserror::Error;

/// The most choices of a scheduled run.
pub const MOST_CHOICES: u64 = 200_000_000;

/// Which of the enabled choices, in order of (node, port), is taken: the first, the last, or the one whose place from 0 is
/// the next word of SplitMix64 from a number, modulo their count.
#[derive(Clone, Copy, Debug, PartialEq, Eq)]
pub enum Schedule {
    First,
    Last,
    Number(u64),
}

/// Takes choices by a schedule until the world is complete.
pub fn run_schedule<A: Actor>(
    alloc: Global,
    world: World<A>,
    schedule: Schedule,
) -> Result<(World<A>, Choices), ScheduleFault>
    ensures choices { IfOk result (λ r. r.1 ≡ scheduled A.is_ready A.has_ended A.stepped MOST_CHOICES schedule world) }
    ensures world { IfOk result (λ r. r.0 ≡ run A.stepped r.1 world) }
    ensures run { IfOk result (λ r. IsRun A.is_ready A.stepped r.1 world) }
    ensures complete { IfOk result (λ r. is_done A.has_ended r.0 ≡ true) }
    ensures unfinished { (step : ℕ) → result ≡ Err (ScheduleFault.Unfinished step)
        → (length (scheduled A.is_ready A.has_ended A.stepped MOST_CHOICES schedule world) ≡ step)
        × StopsShort A.is_ready A.has_ended (run A.stepped (scheduled A.is_ready A.has_ended A.stepped MOST_CHOICES schedule world) world) step }
{
    let mut world = world;
    let choices = take_scheduled(alloc, &mut world, schedule)?;
    if world.complete() {
        Ok((world, choices))
    } else {
        Err(ScheduleFault::Unfinished {
            step: choices.len() as u64,
        })
    }
}

/// Takes choices by a schedule until none is enabled, or as many are taken as a run may have.
fn take_scheduled<A: Actor>(
    alloc: Global,
    world: &mut World<A>,
    schedule: Schedule,
) -> Result<Choices, NoMemory>
    ensures choices { IfOk result (λ cs. cs ≡ scheduled A.is_ready A.has_ended A.stepped MOST_CHOICES schedule world.old) }
    ensures world { IfOk result (λ cs. world.new ≡ run A.stepped cs world.old) }
    ensures end { IfOk result (λ cs. (enabled_choices A.is_ready world.new ≡ []) ⊎ (length cs ≡ MOST_CHOICES)) }
{
    let mut choices = Choices::open(alloc);
    let mut picker = Picker::open(schedule);
    let remainders = Remainders::open();
    for _ in 0..MOST_CHOICES {
        let Some(choice) = picker.pick(world, &remainders) else {
            return Ok(choices);
        };
        world.take_enabled(choice)?;
        choices.push(choice)?;
    }
    Ok(choices)
}

/// Why a scheduled run doesn't end.
#[derive(Clone, Copy, Debug, PartialEq, Eq, Error)]
pub enum ScheduleFault {
    #[error("unfinished after {step} choices")]
    Unfinished { step: u64 },
    #[error("out of memory")]
    NoMemory,
}

impl From<NoMemory> for ScheduleFault {
    ghost use Rattle.std.specs.Prelude.{◌≡◌};
    ghost use Rattle.actor_net.specs.declared.schedule.ScheduleFault.TheVariants.{NoMemory};

    ghost from_gives = { λ _ e. e ≡ NoMemory };

    fn from(_fault: NoMemory) -> Self {
        ScheduleFault::NoMemory
    }
}

/// A schedule as it goes on.
#[derive(Drop)]
enum Picker {
    First,
    Last,
    Word(SplitMix64),
}

impl Picker {
    /// The schedule before its first choice.
    fn open(schedule: Schedule) -> Self
        ensures { schedule_of result ≡ schedule }
    {
        match schedule {
            Schedule::First => Picker::First,
            Schedule::Last => Picker::Last,
            Schedule::Number(number) => Picker::Word(SplitMix64::seed_from_u64(number)),
        }
    }

    /// The choice that the schedule takes.
    #[inline(always)]
    fn pick<A: Actor>(&mut self, world: &World<A>, remainders: &Remainders) -> Option<Choice>
        ensures choice { result ≡ pick_of A.is_ready (schedule_of self.old) world.now }
        ensures later { OnSome result (schedule_of self.new ≡ later (schedule_of self.old)) }
    {
        match self {
            Picker::First => world.nth_enabled(0),
            Picker::Last => world.last_enabled(),
            Picker::Word(words) => {
                let count = world.count_enabled();
                if count == 0 {
                    return None;
                }
                let place = remainders.of(words.next_word(), count as u64);
                world.nth_enabled(place as usize)
            }
        }
    }
}
