ghost use Rattle.std.specs.Prelude.{◌≡◌};
ghost use Rattle.nf_function.specs.Units.{is_transport, takes};

use basics::Sequence;
use flow_filter::{Filter, Flow, TCP, UDP};
use std::cmp::Ordering;
use std::hash::{Hash, Hasher};

/// What a function keeps one record for.
#[derive(Clone, Copy, Debug, PartialEq, Eq)]
pub enum Unit {
    Flow(Flow),
    /// A local host, by its address.
    Host(u32),
}

/// Flows stand in their order, and hosts in that of their addresses.
impl Ord for Unit {
    ghost use Rattle.std.specs.Prelude.{refl};
    ghost use Rattle.std.proofs.Common.{rules};
    ghost use Rattle.std.specs.Cmp.Rules.{comparing};
    ghost use Rattle.nf_function.specs.Units.{unit_cmp};
    ghost use Rattle.nf_function.specs.UnitOrder.{units_total};

    ghost cmp = { unit_cmp };

    ghost total = { units_total };

    ghost matches_partial_cmp = { λ a b. refl };

    ghost matches_eq = { Prim.search (comparing, rules) };

    fn cmp(&self, other: &Unit) -> Ordering {
        match (self, other) {
            (Unit::Flow(mine), Unit::Flow(theirs)) => mine.cmp(theirs),
            (Unit::Flow(_), Unit::Host(_)) => Ordering::Less,
            (Unit::Host(_), Unit::Flow(_)) => Ordering::Greater,
            (Unit::Host(mine), Unit::Host(theirs)) => mine.cmp(theirs),
        }
    }
}

impl PartialOrd for Unit {
    ghost use Rattle.std.proofs.Common.{rules};
    ghost use Rattle.std.specs.Cmp.Rules.{comparing};
    ghost use Rattle.std.specs.Cmp.{partial_order_from_own_ties, partial_order_from_total};
    ghost use Rattle.std.specs.Ordering.{as_partial_cmp};
    ghost use Rattle.nf_function.specs.Units.{unit_cmp};
    ghost use Rattle.nf_function.specs.UnitOrder.{units_total};

    ghost partial_cmp = { as_partial_cmp unit_cmp };

    ghost laws = { partial_order_from_own_ties (partial_order_from_total units_total) (Prim.search (comparing, rules)) };

    fn partial_cmp(&self, other: &Unit) -> Option<Ordering> {
        Some(self.cmp(other))
    }
}

/// A unit is hashed as one number: a flow as itself, and a host as its address.
impl Hash for Unit {
    ghost use Rattle.std.specs.Cmp.Rules.{hashing};
    ghost use Rattle.std.proofs.Common.{rules};
    ghost use Rattle.nf_function.specs.Units.{unit_hashed};

    ghost hash_input = { unit_hashed };

    ghost respects_eq = { Prim.search (hashing, rules) };

    #[inline(always)]
    fn hash<H: Hasher>(&self, state: &mut H) {
        match self {
            Unit::Flow(flow) => flow.hash(state),
            Unit::Host(host) => state.write_u128(u128::from(*host)),
        }
    }
}

/// Whether the functions work on packets of this protocol: TCP and UDP.
pub fn is_transport(proto: u8) -> bool
    ensures { result ≡ is_transport proto }
{
    proto == TCP || proto == UDP
}

/// Units in order, which contracts see as their list.
pub type Units = Sequence<Unit>;

/// Whether the filter takes the unit: a flow that matches, or a host that `local` has, where that is given.
pub fn filter_takes(filter: &Filter, unit: &Unit) -> bool
    ensures { result ≡ takes filter.now unit.now }
{
    match unit {
        Unit::Flow(flow) => filter.matches(flow),
        Unit::Host(host) => filter.local.is_none_or(|local| local.holds(*host)),
    }
}
