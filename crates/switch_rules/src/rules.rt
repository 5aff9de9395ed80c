ghost use Rattle.std.specs.Prelude.{◌≡◌, IfOk, IfSome, OnOk, OnErr, Some};
ghost use Rattle.flow_filter.specs.declared.flow.Flow.{Flow as EachFlow};
ghost use Rattle.switch_rules.specs.Rules.{first_match, opened, route_of, rules_redirected, Redirects};

use crate::redirect::Redirect;
use crate::redirect_list::RedirectList;
use crate::routes::Routes;
use crate::target::Target;
use basics::NoMemory;
use flow_filter::{Filter, Flow};
use std::alloc::Global;
use std::marker::Model;

/// The rules of the switch in order, which contracts see as the list of filters with their targets. Each flow has a rule.
///
/// That list is a meaning: what is kept are the routes and the redirects that were installed, and the target of a flow is that of the
/// routes, led through the redirects. So a redirect takes as much memory as an entry, whatever stood before it.
#[derive(Drop)]
pub struct Rules {
    routes: Routes,
    redirects: RedirectList,
}

impl Model for Rules {
    ghost use Rattle.std.specs.Prelude.{List};
    ghost use Rattle.switch_rules.specs.Rules.{Rule, rules_after, AreFilters, AreRedirects};

    ghost Value = { List Rule };

    ghost view = { λ r. rules_after r.redirects r.routes };

    ghost invariant = { λ r. AreFilters r.routes × AreRedirects r.redirects };
}

impl Rules {
    /// The routes in order, and then every flow to instance 0.
    pub fn open(alloc: Global, routes: &[(Filter, u8)]) -> Result<Rules, NoMemory>
        ensures list { IfOk result (λ rules. rules ≡ opened routes.now) }
        ensures targets { IfOk result (λ rules. (flow : EachFlow) → first_match rules flow ≡ Some (Target.Instance (route_of routes.now flow))) }
    {
        Ok(Rules {
            routes: Routes::open(alloc, routes)?,
            redirects: RedirectList::open(alloc),
        })
    }

    /// Where every flow goes, if that is told without a flow, as it is where one rule stands alone. `None` tells nothing: `target` does.
    #[inline(always)]
    pub fn only(&self) -> Option<Target>
        ensures { IfSome result (λ target. (flow : EachFlow) → first_match self.now flow ≡ Some target) }
    {
        if self.redirects.is_empty() {
            self.routes.only()
        } else {
            None
        }
    }

    /// Where a flow goes: the target of the first rule that matches it.
    pub fn target(&self, flow: &Flow) -> Target
        ensures { first_match self.now flow.now ≡ Some result }
    {
        self.redirects.target_after(flow, self.routes.target(flow))
    }

    /// Sends the flows that the filter matches and whose target is `from` to `to`. Every other flow keeps its target.
    pub fn redirect(&mut self, filter: &Filter, from: Target, to: Target) -> Result<(), NoMemory>
        ensures list { OnOk result (self.new ≡ rules_redirected (record { filter = filter.now; from = from; to = to }) self.old) }
        ensures targets { OnOk result (Redirects (record { filter = filter.now; from = from; to = to }) self.old self.new) }
        ensures err { OnErr result (self.new ≡ self.old) }
    {
        self.redirects.push(Redirect {
            filter: *filter,
            from,
            to,
        })?;
        Ok(())
    }
}
