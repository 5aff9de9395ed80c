ghost use Rattle.std.specs.Prelude.{◌≡◌, ◌<◌, [], ◌∷◌, ◌++◌, All, OnOk, OnErr, map, vec_len, vec_capacity};
ghost use Rattle.nf_msgs.specs.declared.msg.Msg.TheVariants.{InPacket};
ghost use Rattle.flow_filter.specs.Packet.{IsInRange};

use basics::NoMemory;
use flow_filter::{CapturedPacket, Packet};
use nf_msgs::Msg;
use std::alloc::Global;
use std::marker::Model;

/// The packets of a trace, each as the item that it is in the input of a run. Contracts see the packets.
#[derive(Debug, Drop)]
pub struct PacketItems {
    items: Vec<Msg>,
}

impl Model for PacketItems {
    ghost use Rattle.std.specs.Prelude.{List};
    ghost use Rattle.flow_filter.specs.declared.packet.Packet.{Packet as ThePacket};
    ghost use Rattle.op_script.specs.PacketItems.{ArePackets, packets_of};

    ghost Value = { List ThePacket };

    ghost view = { λ p. packets_of p.items.items };

    ghost invariant = { λ p. ArePackets p.items.items };
}

impl PacketItems {
    /// No packets yet. This takes no memory.
    pub fn open(alloc: Global) -> Self
        ensures { result ≡ [] }
    {
        PacketItems {
            items: Vec::new(alloc),
        }
    }

    /// Puts a packet after the others.
    #[inline(always)]
    pub fn push(&mut self, alloc: Global, packet: &Packet) -> Result<(), NoMemory>
        ensures ok { OnOk result (self.new ≡ self.old ++ packet.now ∷ []) }
        ensures err { OnErr result (self.new ≡ self.old) }
    {
        make_room(&mut self.items)?;
        let captured = CapturedPacket::of(alloc, packet)?;
        self.items.push_reserved(Msg::InPacket(captured));
        Ok(())
    }

    /// The items, as a slice.
    pub fn items(&self) -> &[Msg]
        ensures items { result.now ≡ map InPacket self.now }
        ensures in_range { All IsInRange self.now }
    {
        self.items.as_slice()
    }

    /// The items as a vector, without a copy.
    pub fn into_items(self) -> Vec<Msg>
        ensures { result.items ≡ map InPacket self }
    {
        self.items
    }
}

/// Makes room for an item after the others, so that it is written once, in its place.
#[inline(always)]
fn make_room(items: &mut Vec<Msg>) -> Result<(), NoMemory>
    ensures room { OnOk result (vec_len items.new < vec_capacity items.new) }
    ensures same { items.new.items ≡ items.old.items }
{
    if items.len() == items.capacity() {
        items.reserve(1)?;
    }
    Ok(())
}
