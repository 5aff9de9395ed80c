ghost use Rattle.std.specs.Prelude.{◌≡◌, ◌++◌, map, IfOk, OnOk};
ghost use Rattle.actor_net.specs.Merging.{IsMerge, history_steps, all_steps as all_steps_lem, choice_of};

use super::choice::Choice;
use super::choices::Choices;
use super::partial_merge::{merge_by_clock, nodes_rise};
use basics::{NoMemory, Sequence};
use std::alloc::Global;

/// The steps of one node, each a clock and a port.
#[derive(Debug, Drop)]
pub struct History {
    pub node: u8,
    pub steps: Sequence<(u64, u8)>,
}

/// A step of a history with its node.
#[derive(Clone, Copy, Debug)]
pub(crate) struct HistoryStep {
    pub(crate) clock: u64,
    pub(crate) node: u8,
    pub(crate) port: u8,
}

/// All steps of the histories ordered by (clock, node), those that tie as they stand, each as its choice.
pub fn merge(alloc: Global, histories: &[History]) -> Result<Choices, NoMemory>
    ensures { IfOk result (IsMerge histories.now) }
{
    if !nodes_rise(histories) {
        return merge_sorted(alloc, histories);
    }
    match merge_by_clock(alloc, histories)? {
        Some(choices) => Ok(choices),
        None => merge_sorted(alloc, histories),
    }
}

/// A merge by sorting a list of all steps.
fn merge_sorted(alloc: Global, histories: &[History]) -> Result<Choices, NoMemory>
    ensures { IfOk result (IsMerge histories.now) }
{
    let mut steps = all_steps(alloc, histories)?;
    steps.sort_by_key(|step| (step.clock, step.node))?;
    let choices = choices_of(alloc, steps.as_slice())?;
    Ok(choices)
}

/// The steps of all histories, one history after another.
fn all_steps(alloc: Global, histories: &[History]) -> Result<Vec<HistoryStep>, NoMemory>
    ensures { IfOk result (λ steps. steps.items ≡ all_steps_lem histories.now) }
{
    let mut steps = Vec::new(alloc);
    for history in histories {
        push_steps(&mut steps, history)?;
    }
    Ok(steps)
}

/// Adds the steps of a history, in its order.
fn push_steps(steps: &mut Vec<HistoryStep>, history: &History) -> Result<(), NoMemory>
    ensures { OnOk result (steps.new.items ≡ steps.old.items ++ history_steps history.now) }
{
    for step in history.steps.items() {
        steps.push(HistoryStep {
            clock: step.0,
            node: history.node,
            port: step.1,
        })?;
    }
    Ok(())
}

/// The choice of each step, in their order.
fn choices_of(alloc: Global, steps: &[HistoryStep]) -> Result<Choices, NoMemory>
    ensures { IfOk result (λ choices. choices ≡ map choice_of steps.now) }
{
    let mut choices = Choices::with_capacity(alloc, steps.len())?;
    for step in steps {
        choices.push(Choice {
            node: step.node,
            port: step.port,
        })?;
    }
    Ok(choices)
}
