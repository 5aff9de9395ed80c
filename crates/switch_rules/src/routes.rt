//! The rules that routes open, and which of them is the first that a flow meets.
ghost use Rattle.std.specs.Prelude.{◌≡◌, true, is_some, IfOk, IfSome, Some};
ghost use Rattle.flow_filter.specs.Filter.{IsFlow};
ghost use Rattle.flow_filter.specs.declared.flow.Flow.{Flow as EachFlow};
ghost use Rattle.switch_rules.specs.Rules.{first_match, opened, route_of, AreFilters};

use crate::classifier::Classifier;
use crate::target::Target;
use basics::NoMemory;
use flow_filter::{Filter, Flow};
use std::alloc::Global;
use std::marker::Model;

/// So many rules are looked at one after another, which takes less time than the classifier.
const FEW_RULES: usize = 4;

/// The rules that routes open, with their classifier. Contracts see the list of rules. Each flow has a rule.
#[derive(Drop)]
pub struct Routes {
    list: Vec<(Filter, Target)>,
    classifier: Classifier,
}

impl Model for Routes {
    ghost use Rattle.std.specs.Prelude.{List};
    ghost use Rattle.switch_rules.specs.Rules.{Rule};
    ghost use Rattle.switch_rules.specs.Groups.{AreClassified};

    ghost Value = { List Rule };

    ghost view = { λ r. r.list.items };

    ghost invariant = { λ r. AreClassified r.list.items r.classifier };
}

impl Routes {
    /// The routes in order, and then every flow to instance 0.
    pub(crate) fn open(alloc: Global, routes: &[(Filter, u8)]) -> Result<Routes, NoMemory>
        ensures list { IfOk result (λ rules. rules ≡ opened routes.now) }
        ensures targets { IfOk result (λ rules. (flow : EachFlow) → first_match rules flow ≡ Some (Target.Instance (route_of routes.now flow))) }
        ensures filters { IfOk result AreFilters }
    {
        let list = opened(alloc, routes)?;
        let classifier = Classifier::build(alloc, &list)?;
        Ok(Routes { list, classifier })
    }

    /// The target of the first rule that matches a flow.
    pub(crate) fn target(&self, flow: &Flow) -> Target
        ensures value { first_match self.now flow.now ≡ Some result }
        ensures flow { IsFlow flow.now }
    {
        match self.first(flow) {
            Some(target) => target,
            None => unreachable!(),
        }
    }

    /// The target of every flow, where there is one rule alone. `None` tells nothing.
    #[inline(always)]
    pub(crate) fn only(&self) -> Option<Target>
        ensures { IfSome result (λ target. (flow : EachFlow) → first_match self.now flow ≡ Some target) }
    {
        match self.list.as_slice() {
            [rule] => Some(rule.1),
            _ => None,
        }
    }

    /// The target of the first rule that matches a flow, by the list where that is short, and else by the groups.
    fn first(&self, flow: &Flow) -> Option<Target>
        ensures value { result ≡ first_match self.now flow.now }
        ensures found { is_some result ≡ true }
        ensures flow { IsFlow flow.now }
    {
        if self.list.len() > FEW_RULES {
            return self.classifier.target(flow);
        }
        first_match(&self.list, *flow)
    }
}

/// The target of the first rule that matches the flow, if one does.
fn first_match(rules: &[(Filter, Target)], flow: Flow) -> Option<Target>
    ensures value { result ≡ first_match rules.now flow }
    ensures flow { IsFlow flow }
{
    let rule = rules.iter().find(|rule| rule.0.matches(&flow))?;
    Some(rule.1)
}

/// The list of rules that routes open.
fn opened(alloc: Global, routes: &[(Filter, u8)]) -> Result<Vec<(Filter, Target)>, NoMemory>
    ensures { IfOk result (λ list. list.items ≡ opened routes.now) }
{
    let mut list = Vec::with_capacity(alloc, routes.len() + 1)?;
    for (filter, instance) in routes {
        list.push((*filter, Target::Instance(*instance)))?;
    }
    list.push((Filter::ANY, Target::Instance(0)))?;
    Ok(list)
}
