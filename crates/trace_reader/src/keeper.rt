//! Who takes the packets of a capture while it is read.
ghost use Rattle.std.specs.Prelude.{◌≡◌, List, [], ◌∷◌, ◌++◌, All, OnOk};
ghost use Rattle.flow_filter.specs.Packet.{IsInRange};
ghost use Rattle.flow_filter.specs.declared.packet.Packet.{Packet as ThePacket};

use basics::NoMemory;
use flow_filter::{CapturedPacket, Packet, Packets};
use std::alloc::Global;

/// What takes the packets of a capture, one after another.
pub trait Keeper {
    /// What it is set up with.
    ghost Setup: { Type 0 };

    /// It is set up so, and took these packets in order.
    ghost HasKept: { Self → Self.Setup → List ThePacket → Type 0 };

    /// Takes one more packet. Once memory ran out, it is only dropped.
    fn keep(&mut self, packet: &Packet) -> Result<(), NoMemory>
        ensures { OnOk result
            ((setup : Self.Setup) (before : List ThePacket) → HasKept self.old setup before → HasKept self.new setup (before ++ packet.now ∷ [])) };
}

/// Keeps each packet, to wait for its turn. Of each it is then known that its numbers are in range.
#[derive(Debug, Drop)]
pub(crate) struct PacketKeeper {
    pub(crate) packets: Packets,
    pub(crate) alloc: Global,
}

impl Keeper for PacketKeeper {
    ghost Setup = { Unit {0} };

    ghost HasKept = { λ keeper setup kept. (keeper.packets ≡ kept) × All IsInRange kept };

    #[inline(always)]
    fn keep(&mut self, packet: &Packet) -> Result<(), NoMemory> {
        self.packets.push(CapturedPacket::of(self.alloc, packet)?)
    }
}
