//! Which network functions there are, by what units they keep state, and which filters split such a unit.
ghost use Rattle.std.specs.Prelude.{◌≡◌, Some};
ghost use Rattle.std.specs.Bool.{OnFalse};
ghost use Rattle.flow_filter.specs.FilterText.{fields_of};
ghost use Rattle.nf_function.specs.Names.{function_name, function_named};
ghost use Rattle.nf_function.specs.Units.{has_hosts, has_times, unit_of, splits, TakesWhole};
ghost use Rattle.nf_function.specs.UnitSteps.{gives_more_than_local};

use crate::unit::Unit;
use flow_filter::{Filter, Flow};

/// The network functions.
#[derive(Clone, Copy, Debug, PartialEq, Eq, PartialOrd, Ord, Hash)]
pub enum Kind {
    /// The connection tracker.
    Conntrack,
    /// The address translator.
    Nat,
    /// The asset monitor.
    Monitor,
}

/// What a piece of state belongs to.
#[derive(Clone, Copy, Debug, PartialEq, Eq, PartialOrd, Ord, Hash)]
pub enum Scope {
    /// One flow.
    PerFlow,
    /// The flows of one local host.
    MultiFlow,
    /// All flows of an instance.
    AllFlows,
}

impl Kind {
    /// The name of the function in the words of the command line and in reports.
    #[tactic(auto, unfolding(crate::specs::Names::function_named))]
    pub fn name(self) -> &'static str
        ensures name { result.now ≡ function_name self }

        // By that name the function is found again.
        ensures again { function_named result.now ≡ Some self }
    {
        match self {
            Kind::Conntrack => "conntrack",
            Kind::Nat => "nat",
            Kind::Monitor => "monitor",
        }
    }

    /// The function with this name, if there is one.
    #[tactic(auto, unfolding(crate::specs::Names::function_named))]
    pub fn named(name: &str) -> Option<Kind>
        ensures { result ≡ function_named name.now }
    {
        match name {
            "conntrack" => Some(Kind::Conntrack),
            "nat" => Some(Kind::Nat),
            "monitor" => Some(Kind::Monitor),
            _ => None,
        }
    }

    /// Whether the function keeps its records for hosts.
    pub fn has_hosts(self) -> bool
        ensures { result ≡ has_hosts self }
    {
        !matches!(self, Kind::Conntrack)
    }

    /// Whether the function's records hold a time.
    pub fn has_times(self) -> bool
        ensures { result ≡ has_times self }
    {
        matches!(self, Kind::Conntrack)
    }

    /// The unit that a flow belongs to: the flow itself, or its local host.
    pub fn unit_of(self, flow: &Flow) -> Unit
        ensures { result ≡ unit_of self flow.now }
    {
        match self {
            Kind::Conntrack => Unit::Flow(*flow),
            Kind::Nat | Kind::Monitor => Unit::Host(flow.local),
        }
    }
}

/// Whether the filter may match some flows of a unit and not others: it gives more than `local`, where units are hosts.
///
/// A filter that splits no unit takes the unit of a flow exactly where it matches the flow.
pub fn splits(kind: Kind, filter: &Filter) -> bool
    ensures value { result ≡ splits kind (fields_of filter.now) }
    ensures whole { OnFalse result (TakesWhole kind filter.now) }
{
    kind.has_hosts() && gives_more_than_local(filter)
}

/// Whether the filter gives a field besides `local`.
fn gives_more_than_local(filter: &Filter) -> bool
    ensures { result ≡ gives_more_than_local (fields_of filter.now) }
{
    filter.proto.is_some()
        || filter.lport.is_some()
        || filter.remote.is_some()
        || filter.rport.is_some()
}
