//! A packet as a capture has it, without room for a payload that it doesn't have.
ghost use Rattle.std.specs.Prelude.{◌≡◌, true, replicate, IfOk};
ghost use Rattle.flow_filter.specs.Captured.{bare_packet, header_of};
ghost use Rattle.flow_filter.specs.Packet.{most_held, IsInRange};

use crate::packet::Packet;
use basics::{Boxed, NoMemory, Sequence};
use std::alloc::Global;
use std::marker::Model;

/// Packets in order, as they wait for their turn, which contracts see as their list.
pub type Packets = Sequence<CapturedPacket>;

/// The payload of a packet of which none was captured.
const NO_PAYLOAD: [u8; 64] = [0; 64];

/// A packet that waits for its turn, which contracts see as the packet. Where none of its payload was captured, it takes no room
/// for it: 40 bytes in all.
#[derive(Debug, Drop)]
pub struct CapturedPacket {
    form: CapturedForm,
}

/// How a packet waits.
#[derive(Debug, Drop)]
enum CapturedForm {
    /// Without payload.
    Bare(Header),
    /// As it is.
    Whole(Boxed<Packet>),
}

/// What a packet has beside its payload. The widest fields stand first, so that no room is lost between them.
#[derive(Clone, Copy, Debug)]
struct Header {
    nanos: u64,
    number: u32,
    src: u32,
    dst: u32,
    length: u32,
    sport: u16,
    dport: u16,
    proto: u8,
    flags: u8,
    held: u8,
}

impl Model for CapturedPacket {
    ghost use Rattle.flow_filter.specs.declared.packet.Packet.{Packet as ThePacket};
    ghost use Rattle.flow_filter.specs.Captured.{packet_in};

    ghost Value = { ThePacket };

    ghost view = { λ c. packet_in c.form };
}

impl CapturedPacket {
    /// The packet as it is to wait. Its numbers are read once, so that it is known that they are in the ranges of their types.
    #[inline(always)]
    pub fn of(alloc: Global, packet: &Packet) -> Result<Self, NoMemory>
        ensures same { IfOk result (λ captured. captured ≡ packet.now) }
        ensures in_range { IsInRange packet.now }
    {
        let Packet {
            nanos: _nanos,
            length: _length,
            src: _src,
            sport: _sport,
            dst: _dst,
            dport: _dport,
            proto: _proto,
            ..
        } = *packet;
        if is_zero(&packet.head) {
            let form = CapturedForm::Bare(Header::of(packet));
            return Ok(CapturedPacket { form });
        }
        let form = CapturedForm::Whole(Boxed::new(alloc, *packet)?);
        Ok(CapturedPacket { form })
    }

    /// The packet behind a pointer, for its way.
    pub fn into_boxed(self, alloc: Global) -> Result<Boxed<Packet>, NoMemory>
        ensures { IfOk result (λ boxed. boxed ≡ self) }
    {
        match self.form {
            CapturedForm::Bare(header) => Boxed::new(alloc, header.packet()),
            CapturedForm::Whole(packet) => Ok(packet),
        }
    }

    /// The packet behind a pointer, in the room of one that isn't needed any more.
    pub fn into_room(self, room: Boxed<Packet>) -> Boxed<Packet>
        ensures { result ≡ self }
    {
        match self.form {
            CapturedForm::Bare(header) => {
                let mut room = room;
                room.set(header.packet());
                room
            }
            CapturedForm::Whole(packet) => packet,
        }
    }

    /// The packet.
    pub fn packet(&self) -> Packet
        ensures { result ≡ self.now }
    {
        match &self.form {
            CapturedForm::Bare(header) => header.packet(),
            CapturedForm::Whole(packet) => *packet.get(),
        }
    }

    /// The packet's place among the steered packets of the capture, from 1.
    pub fn number(&self) -> u32
        ensures { result ≡ self.now.number }
    {
        match &self.form {
            CapturedForm::Bare(header) => header.number,
            CapturedForm::Whole(packet) => packet.get().number,
        }
    }
}

/// Whether all bytes are 0. It looks at all of them, which takes less time than to stop at the first that isn't.
#[inline(always)]
fn is_zero(bytes: &[u8; 64]) -> bool
    ensures { result ≡ true → bytes.now ≡ replicate most_held 0 }
{
    let mut greatest = 0;
    for byte in bytes {
        greatest = greatest.max(*byte);
    }
    greatest == 0
}

impl Header {
    /// All of a packet but its payload.
    fn of(packet: &Packet) -> Self
        ensures { result ≡ header_of packet.now }
    {
        Header {
            nanos: packet.nanos,
            number: packet.number,
            src: packet.src,
            dst: packet.dst,
            length: packet.length,
            sport: packet.sport,
            dport: packet.dport,
            proto: packet.proto,
            flags: packet.flags,
            held: packet.held,
        }
    }

    /// The packet, of which no payload was captured.
    fn packet(&self) -> Packet
        ensures { result ≡ bare_packet self.now }
    {
        Packet {
            nanos: self.nanos,
            number: self.number,
            src: self.src,
            dst: self.dst,
            length: self.length,
            sport: self.sport,
            dport: self.dport,
            proto: self.proto,
            flags: self.flags,
            held: self.held,
            head: NO_PAYLOAD,
        }
    }
}
