//! Flows: the two ends of a packet's conversation as the site sees them, and the order of flows.
ghost use Rattle.std.specs.Prelude.{◌≡◌, ◌+◌, ◌*◌, ◌^◌, ◌<◌, true};
ghost use Rattle.flow_filter.specs.Flow.{flow_of, inward, outward, is_mapped};
ghost use Rattle.flow_filter.specs.FieldSteps.{owner_of_port, is_source_first};

use crate::packet::Packet;
use crate::site::Site;
use std::cmp::Ordering;
use std::hash::{Hash, Hasher};

/// The first port of the outside address that belongs to an inside host.
pub const FIRST_PORT: u16 = 1024;

/// How many of these ports each inside host has.
pub const PORTS_PER_HOST: usize = 252;

/// The two ends of a conversation, seen from the site. The widest fields stand first, so that a flow takes 16 bytes.
#[derive(Clone, Copy, Debug)]
pub struct Flow {
    /// The address of the end in the site.
    pub local: u32,
    /// The address of the other end.
    pub remote: u32,
    /// The port of the end in the site.
    pub lport: u16,
    /// The port of the other end.
    pub rport: u16,
    /// The number of the protocol.
    pub proto: u8,
}

impl Flow {
    /// The addresses as one number.
    #[inline(always)]
    fn addresses(&self) -> u64
        ensures value { result ≡ self.now.local * 2 ^ 32 + self.now.remote }
        ensures small { self.now.remote < 2 ^ 32 }
    {
        let Flow { local, remote, .. } = *self;
        u64::from(local) * 0x1_0000_0000 + u64::from(remote)
    }

    /// The ports and the protocol as one number.
    #[inline(always)]
    fn ports(&self) -> u64
        ensures value { result ≡ (self.now.lport * 2 ^ 16 + self.now.rport) * 2 ^ 8 + self.now.proto }
        ensures small { (self.now.rport < 2 ^ 16) × (self.now.proto < 2 ^ 8) }
    {
        let Flow {
            lport,
            rport,
            proto,
            ..
        } = *self;
        (u64::from(lport) * 0x1_0000 + u64::from(rport)) * 0x100 + u64::from(proto)
    }

    /// The protocol and the local end as one number.
    #[inline(always)]
    fn local_end(&self) -> u64
        ensures value { result ≡ (self.now.proto * 2 ^ 32 + self.now.local) * 2 ^ 16 + self.now.lport }
        ensures small { (self.now.local < 2 ^ 32) × (self.now.lport < 2 ^ 16) }
    {
        let Flow {
            local,
            lport,
            proto,
            ..
        } = *self;
        (u64::from(proto) * 0x1_0000_0000 + u64::from(local)) * 0x1_0000 + u64::from(lport)
    }

    /// The remote end as one number.
    #[inline(always)]
    fn remote_end(&self) -> u64
        ensures value { result ≡ self.now.remote * 2 ^ 16 + self.now.rport }
        ensures small { self.now.rport < 2 ^ 16 }
    {
        let Flow { remote, rport, .. } = *self;
        u64::from(remote) * 0x1_0000 + u64::from(rport)
    }
}

/// Flows are compared as two numbers, which takes less than half the time of five.
impl PartialEq for Flow {
    ghost use Rattle.std.proofs.Common.{rules};
    ghost use Rattle.std.specs.Cmp.Rules.{comparing};
    ghost use Rattle.flow_filter.specs.Flow.{flow_eq};

    ghost eq = { flow_eq };

    ghost laws = { Prim.search (comparing, rules) };

    #[inline(always)]
    fn eq(&self, other: &Flow) -> bool {
        self.addresses() == other.addresses() && self.ports() == other.ports()
    }
}

impl Eq for Flow {
    ghost use Rattle.std.proofs.Common.{rules};
    ghost use Rattle.std.specs.Cmp.Rules.{comparing};

    ghost laws = { Prim.search (comparing, rules) };
}

/// Flows are ordered by their protocol, and then by their local and their remote end.
impl Ord for Flow {
    ghost use Rattle.std.proofs.Common.{rules};
    ghost use Rattle.std.specs.Cmp.Rules.{comparing};
    ghost use Rattle.flow_filter.specs.Flow.{flow_cmp};

    ghost cmp = { flow_cmp };

    ghost total = { Prim.search (comparing, rules) depth 12 };

    ghost matches_partial_cmp = { Prim.search (comparing, rules) };

    ghost matches_eq = { Prim.search (comparing, rules) };

    #[inline(always)]
    fn cmp(&self, other: &Flow) -> Ordering {
        let remote = self.remote_end().cmp(&other.remote_end());
        self.local_end().cmp(&other.local_end()).then(remote)
    }
}

impl PartialOrd for Flow {
    ghost use Rattle.std.proofs.Common.{rules};
    ghost use Rattle.std.specs.Cmp.{partial_order_from_own_ties};
    ghost use Rattle.std.specs.Cmp.Rules.{comparing};
    ghost use Rattle.std.specs.Ordering.{as_partial_cmp};
    ghost use Rattle.flow_filter.specs.Flow.{flow_cmp};

    ghost partial_cmp = { as_partial_cmp flow_cmp };

    ghost laws = { partial_order_from_own_ties (Prim.search (comparing, rules) depth 12)
        (Prim.search (comparing, rules) depth 12) };

    fn partial_cmp(&self, other: &Flow) -> Option<Ordering> {
        Some(self.cmp(other))
    }
}

/// The fields are hashed as one number, which takes one multiplication.
impl Hash for Flow {
    ghost use Rattle.std.specs.Prelude.{◌+◌, ◌*◌, ◌^◌};
    ghost use Rattle.std.specs.Cmp.Rules.{hashing};
    ghost use Rattle.std.specs.Hash as fed;
    ghost use Rattle.std.proofs.Common.{rules};

    ghost hash_input = { λ f. fed.u128 ((f.local * 2 ^ 32 + f.remote) * 2 ^ 64 + ((f.lport * 2 ^ 16 + f.rport) * 2 ^ 8 + f.proto)) };

    ghost respects_eq = { Prim.search (hashing, rules) };

    #[inline(always)]
    fn hash<H: Hasher>(&self, state: &mut H) {
        let addresses = u128::from(self.addresses()) * 0x1_0000_0000_0000_0000;
        state.write_u128(addresses + u128::from(self.ports()));
    }
}

/// Which way a packet of a flow goes.
#[derive(Clone, Copy, Debug, PartialEq, Eq, PartialOrd, Ord, Hash)]
pub enum Direction {
    /// From the local end.
    Out,
    /// To the local end.
    In,
}

/// The flow of a packet at a site, and the way that the packet goes.
#[tactic(auto, unfolding(crate::specs::Flow::flow_of))]
pub fn flow_of(site: &Site, packet: &Packet) -> (Flow, Direction)
    ensures { result ≡ flow_of site.now packet.now }
{
    match (site.inside.holds(packet.src), site.inside.holds(packet.dst)) {
        (true, false) => (outward(packet), Direction::Out),
        (false, true) => (inward(packet), Direction::In),
        (false, false) if is_mapped(site, packet) => (mapped(site, packet), Direction::In),
        _ if is_source_first(packet) => (outward(packet), Direction::Out),
        _ => (inward(packet), Direction::In),
    }
}

/// The flow whose local end is the packet's source.
fn outward(packet: &Packet) -> Flow
    ensures { result ≡ outward packet.now }
{
    Flow {
        local: packet.src,
        remote: packet.dst,
        lport: packet.sport,
        rport: packet.dport,
        proto: packet.proto,
    }
}

/// The flow whose local end is the packet's destination.
fn inward(packet: &Packet) -> Flow
    ensures { result ≡ inward packet.now }
{
    Flow {
        local: packet.dst,
        remote: packet.src,
        lport: packet.dport,
        rport: packet.sport,
        proto: packet.proto,
    }
}

/// Whether the packet goes to a port of the outside address that belongs to an inside host.
fn is_mapped(site: &Site, packet: &Packet) -> bool
    ensures { result ≡ is_mapped site.now packet.now }
{
    site.outside == Some(packet.dst) && packet.dport >= FIRST_PORT
}

/// The flow whose local end is the inside host that owns the packet's destination port.
fn mapped(site: &Site, packet: &Packet) -> Flow
    requires { is_mapped site.now packet.now ≡ true }
    ensures { result ≡ record (inward packet.now) { local = owner_of_port site.now packet.now.dport } }
{
    let network = site.inside.bits;
    let host = usize::from(packet.dport - FIRST_PORT) / PORTS_PER_HOST;
    Flow {
        local: network + host as u32,
        ..inward(packet)
    }
}

/// Whether the source is the smaller end by address and then port, or the ends are equal.
fn is_source_first(packet: &Packet) -> bool
    ensures { result ≡ is_source_first packet.now }
{
    (packet.src, packet.sport) <= (packet.dst, packet.dport)
}
