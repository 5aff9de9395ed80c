//! Rules in groups by their masks, so that a look-up takes one step for each mask.
ghost use Rattle.std.specs.Prelude.{◌≡◌, ◌∷◌, ◌++◌, [], length, min, position, IfOk, OnOk, List};
ghost use Rattle.flow_filter.specs.Filter.{IsFlow, IsFilter};
ghost use Rattle.flow_filter.specs.declared.flow.Flow.{Flow as EachFlow};
ghost use Rattle.switch_rules.specs.Rules.{Rule, first_match, AreFilters};
ghost use Rattle.switch_rules.specs.Masks.{mask_eq};
ghost use Rattle.switch_rules.specs.Groups.{AreGroups, answer, entries_met, nearer, least};

use crate::group::{Group, Placed};
use crate::mask::{Mask, values_of};
use crate::target::Target;
use basics::NoMemory;
use flow_filter::{Filter, Flow};
use std::alloc::Global;
use std::marker::Model;

/// Rules by their masks, which contracts see as groups.
///
/// A look-up takes one step for each group, and what a step takes is bounded, whichever rules there are.
#[derive(Drop)]
pub struct Classifier {
    groups: Vec<Group>,
}

impl Model for Classifier {
    ghost use Rattle.std.specs.Prelude.{List};
    ghost use Rattle.switch_rules.specs.declared.group.Group.{Group};

    ghost Value = { List Group };

    ghost view = { λ c. c.groups.items };
}

impl Classifier {
    /// The groups of a list of rules.
    pub fn build(alloc: Global, rules: &[(Filter, Target)]) -> Result<Classifier, NoMemory>
        ensures groups { IfOk result (λ c. AreGroups rules.now c) }
        ensures filters { OnOk result (AreFilters rules.now) }
        ensures first { IfOk result (λ c. (flow : EachFlow) → IsFlow flow → answer c flow ≡ first_match rules.now flow) }
    {
        let mut classifier = Classifier::open(alloc);
        for (place, rule) in rules.iter().enumerate() {
            classifier.add(place, rule.0, rule.1)?;
        }
        Ok(classifier)
    }

    /// The number of groups, which is the number of distinct masks of the rules. It stays at its greatest.
    pub fn groups(&self) -> u32
        ensures { result ≡ min (length self.now) u32.MAX }
    {
        u32::try_from(self.groups.len()).unwrap_or(u32::MAX)
    }

    /// The target of the first rule that matches the flow, if one does.
    pub fn target(&self, flow: &Flow) -> Option<Target>
        ensures value { result ≡ answer self.now flow.now }
        ensures flow { IsFlow flow.now }
    {
        let first = nearest(&self.groups, *flow)?;
        Some(first.target)
    }

    /// No groups yet. This takes no memory.
    pub(crate) fn open(alloc: Global) -> Self
        ensures { result ≡ [] }
    {
        Classifier {
            groups: Vec::new(alloc),
        }
    }

    /// Adds the next rule of the list, which has so many rules before it.
    pub(crate) fn add(
        &mut self,
        place: usize,
        filter: Filter,
        target: Target,
    ) -> Result<(), NoMemory>
        ensures groups { OnOk result
            ((rules : List Rule) → length rules ≡ place → AreGroups rules self.old → AreGroups (rules ++ (filter, target) ∷ []) self.new) }
        ensures filter { IsFilter filter }
    {
        let Ok(place) = u32::try_from(place) else {
            return Err(NoMemory);
        };
        let mask = Mask::of(&filter);
        let key = values_of(&filter);
        let placed = Placed { place, target };
        match place_of(&self.groups, mask) {
            Some(at) => self.groups[at].add(key, placed),
            None => {
                let group = Group::of(*self.groups.allocator(), mask, key, placed)?;
                self.groups.push(group)?;
                Ok(())
            }
        }
    }
}

/// Of the entries that the flow meets, the one with the least place.
fn nearest(groups: &[Group], flow: Flow) -> Option<Placed>
    ensures value { result ≡ least (entries_met groups.now flow) }
    ensures flow { IsFlow flow }
{
    let mut first = None;
    for group in groups {
        let found = group.find(&flow);
        first = nearer(first, found);
    }
    first
}

/// Of two entries the one with the lesser place.
fn nearer(first: Option<Placed>, found: Option<Placed>) -> Option<Placed>
    ensures { result ≡ nearer first found }
{
    match (first, found) {
        (Some(one), Some(other)) if other.place < one.place => Some(other),
        (Some(one), _) => Some(one),
        (None, _) => found,
    }
}

/// Where the group of a mask stands.
fn place_of(groups: &[Group], mask: Mask) -> Option<usize>
    ensures { result ≡ position (λ g. mask_eq g.mask mask) groups.now }
{
    groups.iter().position(|group| group.mask == mask)
}
