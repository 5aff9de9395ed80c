//! The event rules of an instance, with the packets that each of them holds.
ghost use Rattle.std.specs.Prelude.{◌≡◌, ◌==◌, ◌↔◌, ℕ, true, false, if◌then◌else◌, [], ◌∷◌, ◌++◌, option_map};
ghost use Rattle.std.specs.Prelude.{IsSome, IfSome, IsTrue, OnOk, OnErr, IfErr, None, Some, position};
ghost use Rattle.std.specs.Option.{option_copied};
ghost use Rattle.flow_filter.specs.Filter.{matches};
ghost use Rattle.flow_filter.specs.declared.flow.Flow.{Flow as EachFlow};
ghost use Rattle.event_filter.specs.declared.mark.Mark.{Mark as EachMark};
ghost use Rattle.event_filter.specs.declared.mark.Mark.TheVariants.{Plain};
ghost use Rattle.event_filter.specs.Rules.{decide, decided, named_by, first_rule, rule_at, held_at, with_rule, holding, with_held, without_rule};

use crate::action::Action;
use crate::decide::Decide;
use crate::held::Held;
use crate::mark::Mark;
use crate::rule::Rule;
use basics::NoMemory;
use flow_filter::{Filter, Flow};
use std::alloc::Global;
use std::marker::Model;

/// The rules of an instance, at most one for each operation, with the parcels that are held under them.
#[derive(Debug, Drop)]
pub struct EventRules<P> {
    rules: Vec<Rule<P>>,
}

impl<P> Model for EventRules<P> {
    ghost use Rattle.std.specs.Prelude.{List};
    ghost use Rattle.event_filter.specs.declared.rule.Rule.{Rule};
    ghost use Rattle.event_filter.specs.Rules.{HaveOneEach};

    ghost Value = { List (Rule P) };

    ghost view = { λ r. r.rules.items };

    ghost invariant = { λ r. HaveOneEach r.rules.items };
}

impl<P> EventRules<P> {
    /// No rules yet. This takes no memory.
    pub fn open(alloc: Global) -> Self
        ensures { result ≡ [] }
    {
        EventRules {
            rules: Vec::new(alloc),
        }
    }

    /// Sets the rule of an operation: in the place of the one that it has, or else last. What is held for it stays.
    pub fn enable(&mut self, op: u32, filter: Filter, action: Action) -> Result<(), NoMemory>
    where
        P: Drop,
        ensures list { OnOk result (self.new ≡ with_rule self.old op filter action) }
        ensures rule { OnOk result ((q : ℕ) → rule_at self.new q ≡ (if q == op
            then Some (record { op = op; filter = filter; action = action; held = held_at self.old op })
            else rule_at self.old q)) }
        ensures held { (q : ℕ) → held_at self.new q ≡ held_at self.old q }

        // A flow that no other operation's rule matches goes by this rule, and one that it doesn't match by the others.
        ensures taken { OnOk result ((flow : EachFlow) → matches filter flow ≡ true →
            first_rule (without_rule self.old op) flow ≡ None → decide self.new flow Plain ≡ decided op action) }
        ensures passed { OnOk result ((flow : EachFlow) (mark : EachMark) → matches filter flow ≡ false →
            decide self.new flow mark ≡ decide (without_rule self.old op) flow mark) }
        ensures err { OnErr result (self.new ≡ self.old) }
    {
        match place_of(self.rules.as_slice(), op) {
            Some(place) => {
                let rule = &mut self.rules[place];
                rule.filter = filter;
                rule.action = action;
            }
            None => {
                let held = Held::open(*self.rules.allocator());
                self.rules.push(Rule {
                    op,
                    filter,
                    action,
                    held,
                })?;
            }
        }
        Ok(())
    }

    /// What is done with a packet of the flow that comes with the mark: by the first rule whose filter matches a plain one.
    pub fn decide(&self, flow: &Flow, mark: &Mark) -> Decide
        ensures value { result ≡ decide self.now flow.now mark.now }
        ensures own { IfSome (first_rule self.now flow.now) (λ r. rule_at self.now r.op ≡ Some r) }
        ensures named { (op : ℕ) → named_by result ≡ Some op → IsSome (rule_at self.now op) }
    {
        match mark {
            Mark::Plain => match first_rule(self.rules.as_slice(), flow) {
                Some(rule) => decided(rule.op, rule.action),
                None => Decide::Process,
            },
            Mark::Pass(_) | Mark::Shared { .. } => Decide::Process,
        }
    }

    /// Whether the operation has a rule.
    pub fn has_rule(&self, op: u32) -> bool
        ensures { IsTrue result ↔ IsSome (rule_at self.now op) }
    {
        rule_of(self.rules.as_slice(), op).is_some()
    }

    /// The parcels that are held for an operation, in order.
    pub fn held(&self, op: u32) -> &[P]
        ensures { result.now ≡ held_at self.now op }
    {
        match rule_of(self.rules.as_slice(), op) {
            Some(rule) => rule.held.items(),
            None => &[],
        }
    }

    /// Holds a parcel for an operation, after the others, or hands it back when out of memory.
    pub fn hold(&mut self, op: u32, parcel: P) -> Result<(), (NoMemory, P)>
        requires { IsSome (rule_at self.old op) }
        ensures list { OnOk result (self.new ≡ with_held self.old op parcel) }
        ensures rule { OnOk result ((q : ℕ) → rule_at self.new q ≡ (if q == op
            then option_map (holding parcel) (rule_at self.old q) else rule_at self.old q)) }
        ensures held { OnOk result ((q : ℕ) → held_at self.new q ≡ (if q == op
            then held_at self.old q ++ parcel ∷ [] else held_at self.old q)) }
        ensures decided { (flow : EachFlow) (mark : EachMark) → decide self.new flow mark ≡ decide self.old flow mark }
        ensures back { IfErr result (λ refused. refused.1 ≡ parcel) }
        ensures err { OnErr result (self.new ≡ self.old) }
    {
        let Some(place) = place_of(self.rules.as_slice(), op) else {
            unreachable!()
        };
        let rule = &mut self.rules[place];
        rule.held.push(parcel)
    }

    /// Takes an operation's rule away, and gives the parcels that were held for it, in order. This takes no memory.
    pub fn release(&mut self, op: u32) -> Vec<P>
        ensures parcels { result.items ≡ held_at self.old op }
        ensures list { self.new ≡ without_rule self.old op }
        ensures rule { (q : ℕ) → rule_at self.new q ≡ (if q == op then None else rule_at self.old q) }
        ensures held { (q : ℕ) → held_at self.new q ≡ (if q == op then [] else held_at self.old q) }
        ensures passed { (flow : EachFlow) (mark : EachMark) →
            IfSome (rule_at self.old op) (λ r. matches r.filter flow ≡ false) →
            decide self.new flow mark ≡ decide self.old flow mark }
    {
        match place_of(self.rules.as_slice(), op) {
            Some(place) => self.rules.remove(place).held.into_vec(),
            None => Vec::new(*self.rules.allocator()),
        }
    }

    /// Takes an operation's rule away where nothing is held for it.
    pub fn disable(&mut self, op: u32)
    where
        P: Drop,
        requires { held_at self.old op ≡ [] }
        ensures list { self.new ≡ without_rule self.old op }
        ensures rule { (q : ℕ) → rule_at self.new q ≡ (if q == op then None else rule_at self.old q) }
        ensures held { (q : ℕ) → held_at self.new q ≡ held_at self.old q }
        ensures passed { (flow : EachFlow) (mark : EachMark) →
            IfSome (rule_at self.old op) (λ r. matches r.filter flow ≡ false) →
            decide self.new flow mark ≡ decide self.old flow mark }
    {
        let _nothing = self.release(op);
    }
}

/// The place of an operation's rule.
fn place_of<P>(rules: &[Rule<P>], op: u32) -> Option<usize>
    ensures { result ≡ position (λ r. r.op == op) rules.now }
{
    rules.iter().position(|rule| rule.op == op)
}

/// An operation's rule.
fn rule_of<P>(rules: &[Rule<P>], op: u32) -> Option<&Rule<P>>
    ensures { option_copied result ≡ rule_at rules.now op }
{
    rules.iter().find(|rule| rule.op == op)
}

/// The first rule whose filter matches the flow.
fn first_rule<'a, P>(rules: &'a [Rule<P>], flow: &Flow) -> Option<&'a Rule<P>>
    ensures { option_copied result ≡ first_rule rules.now flow.now }
{
    rules.iter().find(|rule| rule.filter.matches(flow))
}

/// What is done with a packet that a rule of the operation with this action takes.
fn decided(op: u32, action: Action) -> Decide
    ensures { result ≡ decided op action }
{
    match action {
        Action::Process => Decide::ProcessAndEvent(op),
        Action::Buffer => Decide::Buffer(op),
        Action::Drop => Decide::Event(op),
    }
}
