//! Filters as values: which flows they match, when two of them meet, and when one covers another.
ghost use Rattle.std.specs.Prelude.{◌≡◌, ◌↔◌, IsTrue, is_some, OnSome, IfSome, IfNone};
ghost use Rattle.flow_filter.specs.Filter.{matches, meet, meets, meet_value, meet_prefix, longer, covers};
ghost use Rattle.flow_filter.specs.Filter.{covers_value, covers_prefix, IsFilter, Meet, IsMeet, Covers};

use crate::flow::Flow;
use crate::prefix::Prefix;

/// Which flows are meant: every field that is given must agree.
#[derive(Clone, Copy, Debug, PartialEq, Eq, Hash)]
pub struct Filter {
    pub proto: Option<u8>,
    pub local: Option<Prefix>,
    pub lport: Option<u16>,
    pub remote: Option<Prefix>,
    pub rport: Option<u16>,
}

impl Filter {
    /// The filter that gives no field, and so matches every flow.
    pub const ANY: Self = Filter {
        proto: None,
        local: None,
        lport: None,
        remote: None,
        rport: None,
    };

    /// Whether every field that is given agrees with the flow.
    pub fn matches(&self, flow: &Flow) -> bool
        ensures { result ≡ matches self.now flow.now }
    {
        self.proto.is_none_or(|proto| proto == flow.proto)
            && self.local.is_none_or(|local| local.holds(flow.local))
            && self.lport.is_none_or(|lport| lport == flow.lport)
            && self.remote.is_none_or(|remote| remote.holds(flow.remote))
            && self.rport.is_none_or(|rport| rport == flow.rport)
    }

    /// The filter that matches exactly what both match, or `None` where no flow matches both.
    ///
    /// It gives each field that one of them gives, and of two prefixes the longer.
    pub fn meet(&self, other: &Filter) -> Option<Filter>
        ensures value { result ≡ meet self.now other.now }
        ensures exact { IfSome result (IsMeet self.now other.now) }
        ensures some { OnSome result (Meet self.now other.now) }
        ensures none { IfNone result (Meet self.now other.now → ⊥) }
        // There is a meet exactly where the two agree in every field that both give.
        ensures agree { is_some result ≡ meets self.now other.now }
    {
        met(*self, *other)
    }

    /// Whether every flow that `other` matches is matched by this filter.
    pub fn covers(&self, other: &Filter) -> bool
        ensures value { result ≡ covers self.now other.now }
        ensures exact { IsTrue result ↔ Covers self.now other.now }
    {
        covered(*self, *other)
    }
}

/// What both filters say, field by field.
fn met(x: Filter, y: Filter) -> Option<Filter>
    ensures value { result ≡ meet x y }
    ensures x_fits { IsFilter x }
    ensures y_fits { IsFilter y }
{
    Some(Filter {
        proto: met_value(x.proto, y.proto)?,
        local: met_prefix(x.local, y.local)?,
        lport: met_value(x.lport, y.lport)?,
        remote: met_prefix(x.remote, y.remote)?,
        rport: met_value(x.rport, y.rport)?,
    })
}

/// What two fields say together, protocols or ports, or `None` where they contradict each other.
fn met_value<T: PartialEq + Copy>(x: Option<T>, y: Option<T>) -> Option<Option<T>>
    ensures { result ≡ meet_value T.eq x y }
{
    match (x, y) {
        (Some(a), Some(b)) => (a == b).then_some(x),
        (Some(_), None) => Some(x),
        (None, _) => Some(y),
    }
}

/// What two prefix fields say together, or `None` where they contradict each other.
fn met_prefix(x: Option<Prefix>, y: Option<Prefix>) -> Option<Option<Prefix>>
    ensures { result ≡ meet_prefix x y }
{
    match (x, y) {
        (Some(p), Some(q)) => longer(p, q),
        (Some(_), None) => Some(x),
        (None, _) => Some(y),
    }
}

/// The longer prefix, where the shorter holds it.
fn longer(p: Prefix, q: Prefix) -> Option<Option<Prefix>>
    ensures { result ≡ longer p q }
{
    let (short, long) = if p.len <= q.len { (p, q) } else { (q, p) };
    short.holds(long.bits).then_some(Some(long))
}

/// Whether each field of the first filter covers that of the second.
fn covered(x: Filter, y: Filter) -> bool
    ensures value { result ≡ covers x y }
    ensures x_fits { IsFilter x }
    ensures y_fits { IsFilter y }
{
    covers_value(x.proto, y.proto)
        && covers_prefix(x.local, y.local)
        && covers_value(x.lport, y.lport)
        && covers_prefix(x.remote, y.remote)
        && covers_value(x.rport, y.rport)
}

/// Whether a field, a protocol or a port, says no more than another.
fn covers_value<T: PartialEq + Copy>(x: Option<T>, y: Option<T>) -> bool
    ensures { result ≡ covers_value T.eq x y }
{
    x.is_none() || x == y
}

/// Whether a prefix field says no more than another.
fn covers_prefix(x: Option<Prefix>, y: Option<Prefix>) -> bool
    ensures { result ≡ covers_prefix x y }
{
    match (x, y) {
        (None, _) => true,
        (Some(p), None) => p.len == 0,
        (Some(p), Some(q)) => p.len <= q.len && p.holds(q.bits),
    }
}
