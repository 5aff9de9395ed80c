ghost use Rattle.std.specs.Prelude.{◌≡◌};
ghost use Rattle.switch_rules.specs.Rules.{redirected_target};

use crate::target::Target;
use flow_filter::{Filter, Flow};

/// An order to the switch: flows of the filter that go to one target are to go to another.
#[derive(Clone, Copy, Debug)]
pub struct Redirect {
    pub filter: Filter,
    pub from: Target,
    pub to: Target,
}

impl Redirect {
    /// The target afterwards of a flow with this target before.
    pub fn target_after(&self, flow: &Flow, before: Target) -> Target
        ensures { result ≡ redirected_target self.now flow.now before }
    {
        if before == self.from && self.filter.matches(flow) {
            self.to
        } else {
            before
        }
    }
}
