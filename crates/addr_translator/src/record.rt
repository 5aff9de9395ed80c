//! What the translator keeps of an inside host: its mappings by their outside ports, and its counts.
ghost use Rattle.std.specs.Prelude.{◌≡◌, ◌<◌, ◌≤◌, ◌++◌, ◌∷◌, [], nat_lt, length};
ghost use Rattle.std.specs.List.{All, position};
ghost use Rattle.nf_function.specs.Semantics.{count};
ghost use Rattle.addr_translator.specs.Mappings.{HasPort, mapping_eq};
ghost use Rattle.addr_translator.specs.Outputs.{no_mappings, counted};
ghost use Rattle.flow_filter.specs.Flow.{ports_per_host};

use crate::mapping::Mapping;
use flow_filter::PORTS_PER_HOST;
use std::marker::Model;

/// What the translator keeps of an inside host, which contracts see as its mappings and counts.
///
/// It is changed in place, and never grows: the mappings stand in an array, in the order of their outside ports.
#[derive(Debug, Drop)]
pub struct NatRecord {
    packets: u64,
    drops: u64,
    used: usize,
    mappings: [Mapping; PORTS_PER_HOST],
}

impl Model for NatRecord {
    ghost use Rattle.std.specs.Prelude.{◌≤◌, take};
    ghost use Rattle.std.specs.List.{All};
    ghost use Rattle.flow_filter.specs.Flow.{ports_per_host};
    ghost use Rattle.addr_translator.specs.Mappings.{Translation, HasPort};

    ghost Value = { Translation };

    ghost view = { λ r. record { mappings = take r.used r.mappings; packets = r.packets; drops = r.drops } };

    ghost invariant = { λ r. (r.used ≤ ports_per_host) × All HasPort r.mappings };
}

impl NatRecord {
    /// No mappings and no packets.
    pub fn open() -> Self
        ensures { result ≡ no_mappings }
    {
        NatRecord {
            packets: 0,
            drops: 0,
            used: 0,
            mappings: [Mapping { proto: 0, port: 0 }; PORTS_PER_HOST],
        }
    }

    /// The mappings, in the order of their outside ports.
    pub fn mappings(&self) -> &[Mapping]
        ensures value { result.now ≡ self.now.mappings }
        ensures few { length self.now.mappings ≤ ports_per_host }
        ensures ports { All HasPort self.now.mappings }
    {
        &self.mappings[..self.used]
    }

    /// How many packets of the host were counted, those that were dropped among them.
    pub fn packets(&self) -> u64
        ensures { result ≡ self.now.packets }
    {
        self.packets
    }

    /// How many of these were dropped.
    pub fn drops(&self) -> u64
        ensures { result ≡ self.now.drops }
    {
        self.drops
    }

    /// The same record again.
    pub fn same(&self) -> Self
        ensures { result ≡ self.now }
    {
        NatRecord {
            packets: self.packets,
            drops: self.drops,
            used: self.used,
            mappings: self.mappings,
        }
    }

    /// Sets both counts.
    pub fn set_counts(&mut self, packets: u64, drops: u64)
        ensures { self.new ≡ record self.old { packets = packets; drops = drops } }
    {
        self.packets = packets;
        self.drops = drops;
    }

    /// Counts a packet. The count stays at its greatest number.
    pub fn count_packet(&mut self)
        ensures { self.new ≡ counted self.old }
    {
        self.packets = self.packets.saturating_add(1);
    }

    /// Counts a dropped packet. The count stays at its greatest number.
    pub fn count_drop(&mut self)
        ensures { self.new ≡ record self.old { drops = count self.old.drops 1 } }
    {
        self.drops = self.drops.saturating_add(1);
    }

    /// Whether a port of the host is free.
    pub fn has_room(&self) -> bool
        ensures { result ≡ nat_lt (length self.now.mappings) ports_per_host }
    {
        self.mappings().len() < PORTS_PER_HOST
    }

    /// Gives the next port to this end of the host.
    pub fn push(&mut self, mapping: Mapping)
        requires { length self.old.mappings < ports_per_host }
        ensures { self.new ≡ record self.old { mappings = self.old.mappings ++ mapping ∷ [] } }
    {
        self.mappings[self.used] = mapping;
        self.used += 1;
    }
}

/// The place of a mapping among others.
pub fn place_of(mappings: &[Mapping], mapping: Mapping) -> Option<usize>
    ensures { result ≡ position (λ m. mapping_eq m mapping) mappings.now }
{
    mappings.iter().position(|other| *other == mapping)
}
