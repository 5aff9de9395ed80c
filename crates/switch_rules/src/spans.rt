//! Between which places of a list filters stand that may match a flow.
ghost use Rattle.std.specs.Prelude.{◌≡◌, ◌≤◌, ◌&&◌, ℕ, true, [], position, length, IfSome, OnOk};
ghost use Rattle.std.specs.List.{list_any};
ghost use Rattle.flow_filter.specs.Filter.{IsFlow, matches};
ghost use Rattle.flow_filter.specs.declared.filter.Filter.{Filter as EachFilter};
ghost use Rattle.switch_rules.specs.declared.target.Target.{Target as EachTarget};
ghost use Rattle.switch_rules.specs.Rules.{target_eq};
ghost use Rattle.switch_rules.specs.Masks.{mask_eq};
ghost use Rattle.switch_rules.specs.Spans.{is_noted, may_take, is_up_to, earlier};

use crate::mask::{Mask, values_of};
use crate::span_group::SpanGroup;
use crate::target::Target;
use basics::NoMemory;
use flow_filter::{Filter, Flow};
use std::alloc::Global;
use std::marker::Model;

/// Where filters stand in a list, as those of redirects, in groups by their masks and by the targets from which they take flows.
///
/// It tells which of them can be passed over for a flow. What it says of the others is looked at before it is believed.
#[derive(Drop)]
pub struct Spans {
    groups: Vec<SpanGroup>,
}

impl Model for Spans {
    ghost use Rattle.std.specs.Prelude.{List};
    ghost use Rattle.switch_rules.specs.declared.span_group.SpanGroup.{SpanGroup};

    ghost Value = { List SpanGroup };

    ghost view = { λ s. s.groups.items };
}

impl Spans {
    /// No groups yet. This takes no memory.
    pub fn open(alloc: Global) -> Self
        ensures { result ≡ [] }
    {
        Spans {
            groups: Vec::new(alloc),
        }
    }

    /// The number of groups: a look-up takes a step for each.
    pub(crate) fn groups(&self) -> usize
        ensures { result ≡ length self.now }
    {
        self.groups.len()
    }

    /// The first place from one on at which a filter may stand that matches a flow and takes it from its target. None stands before it.
    pub fn next(&self, flow: &Flow, target: Target, place: usize) -> Option<usize>
        ensures later { IfSome result (λ next. place ≤ next) }
        ensures before { (i : ℕ) (f : EachFilter) → place ≤ i → is_noted self.now i f target ≡ true → matches f flow.now ≡ true → is_up_to result i ≡ true }
    {
        next_place(&self.groups, *flow, target, place)
    }

    /// Notes the place of a filter that takes flows from a target. What was noted is still noted, also where there is no memory.
    pub fn note(&mut self, place: usize, filter: &Filter, from: Target) -> Result<(), NoMemory>
        ensures kept { (i : ℕ) (f : EachFilter) (t : EachTarget) → is_noted self.old i f t ≡ true → is_noted self.new i f t ≡ true }
        ensures noted { OnOk result (is_noted self.new place filter.now from ≡ true) }
    {
        let mask = Mask::of(filter);
        let key = values_of(filter);
        match place_of(&self.groups, mask, from) {
            Some(at) => self.groups[at].note(key, place),
            None => {
                let mut group = SpanGroup::open(*self.groups.allocator(), mask, from);
                group.note(key, place)?;
                self.groups.push(group)?;
                Ok(())
            }
        }
    }
}

/// The first place from one on that a group's span of the flow holds.
fn next_place(groups: &[SpanGroup], flow: Flow, target: Target, place: usize) -> Option<usize>
    ensures later { IfSome result (λ next. place ≤ next) }
    ensures before { (i : ℕ) → place ≤ i → list_any (may_take flow target i) groups.now ≡ true → is_up_to result i ≡ true }
    ensures flow { IsFlow flow }
{
    let mut first = None;
    for group in groups {
        first = earlier(first, group.next(&flow, target, place));
    }
    first
}

/// Of two places the one that stands first.
fn earlier(one: Option<usize>, other: Option<usize>) -> Option<usize>
    ensures { result ≡ earlier one other }
{
    match (one, other) {
        (Some(one), Some(other)) => Some(one.min(other)),
        (Some(_), None) => one,
        (None, _) => other,
    }
}

/// Where the group of a mask and a target stands.
fn place_of(groups: &[SpanGroup], mask: Mask, from: Target) -> Option<usize>
    ensures { result ≡ position (λ g. mask_eq g.mask mask && target_eq g.from from) groups.now }
{
    groups
        .iter()
        .position(|group| group.mask == mask && group.from == from)
}
