ghost use Rattle.std.specs.Prelude.{◌≡◌, ◌++◌, ◌∷◌, [], All, IsTrue, OnOk, OnErr};
ghost use Rattle.switch_rules.specs.Rules.{target_after};
ghost use Rattle.switch_rules.specs.Sections.{IsAlike, target_of_matched};

use crate::mask::{Mask, values_of};
use crate::redirect::Redirect;
use crate::target::Target;
use basics::NoMemory;
use flow_filter::Flow;
use std::alloc::Global;
use std::marker::Model;

/// Redirects one after another whose filters match the same flows, as those of moves that undo one another. Contracts see their list.
#[derive(Drop)]
pub struct Section {
    first: Redirect,
    rest: Vec<Redirect>,
}

impl Model for Section {
    ghost use Rattle.std.specs.Prelude.{◌∷◌, List, All};
    ghost use Rattle.switch_rules.specs.Rules.{Redirect};
    ghost use Rattle.switch_rules.specs.Sections.{IsAlike};

    ghost Value = { List Redirect };

    ghost view = { λ s. s.first ∷ s.rest.items };

    ghost invariant = { λ s. All (IsAlike s.first) s.rest.items };
}

impl Section {
    /// A section of one redirect. This takes no memory.
    pub(crate) fn open(alloc: Global, first: Redirect) -> Section
        ensures { result ≡ first ∷ [] }
    {
        Section {
            first,
            rest: Vec::new(alloc),
        }
    }

    /// Whether the filters match what that of a redirect matches, since they say the same of the same fields.
    pub(crate) fn is_alike(&self, redirect: &Redirect) -> bool
        ensures { IsTrue result → All (IsAlike redirect.now) self.now }
    {
        is_alike(&self.first, redirect)
    }

    /// Adds a redirect after the others.
    pub(crate) fn push(&mut self, redirect: Redirect) -> Result<(), NoMemory>
        requires { All (IsAlike redirect) self.old }
        ensures ok { OnOk result (self.new ≡ self.old ++ redirect ∷ []) }
        ensures err { OnErr result (self.new ≡ self.old) }
    {
        self.rest.push(redirect)?;
        Ok(())
    }

    /// The target of a flow after all of them, which had this target before.
    pub(crate) fn target_after(&self, flow: Flow, before: Target) -> Target
        ensures { result ≡ target_after self.now flow before }
    {
        let target = self.first.target_after(&flow, before);
        if self.rest.is_empty() {
            return target;
        }
        if !self.first.filter.matches(&flow) {
            return before;
        }
        target_of_matched(&self.rest, target)
    }
}

/// Whether the filters of two redirects say the same of the same fields.
fn is_alike(one: &Redirect, other: &Redirect) -> bool
    ensures { IsTrue result → IsAlike one.now other.now }
{
    Mask::of(&one.filter) == Mask::of(&other.filter)
        && values_of(&one.filter) == values_of(&other.filter)
}

/// The target after redirects of a flow that their filters match.
fn target_of_matched(redirects: &[Redirect], before: Target) -> Target
    ensures { result ≡ target_of_matched redirects.now before }
{
    redirects.iter().fold(before, |target, redirect| {
        if target == redirect.from {
            redirect.to
        } else {
            target
        }
    })
}
