//! The packets of an input, and each by its number.
ghost use Rattle.std.specs.Prelude.{◌≡◌, ◌==◌, find, IfOk};
ghost use Rattle.trace_reader.specs.Records.{AreNumbered};
ghost use Rattle.net_world.specs.Input.{packets};

use basics::NoMemory;
use flow_filter::{CapturedPacket, Packet, Packets};
use nf_msgs::Msg;
use std::alloc::Global;

/// The packets of an input again, in order.
pub fn packets_of(alloc: Global, items: &[Msg]) -> Result<Packets, NoMemory>
    ensures { IfOk result (λ found. found ≡ packets items.now) }
{
    let mut found = Packets::open(alloc);
    for item in items {
        if let Msg::InPacket(packet) = item {
            let packet = packet.packet();
            found.push(CapturedPacket::of(alloc, &packet)?)?;
        }
    }
    Ok(found)
}

/// The packet with a number, among packets that are numbered from 1.
pub(crate) fn packet_at(packets: &[CapturedPacket], number: u32) -> Option<Packet>
    requires { AreNumbered 1 packets.now }
    ensures { result ≡ find (λ p. p.number == number) packets.now }
{
    if number == 0 {
        return None;
    }
    match packets.get(number as usize - 1) {
        Some(packet) => Some(packet.packet()),
        None => None,
    }
}
