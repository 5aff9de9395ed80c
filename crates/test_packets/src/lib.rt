//! What tests of many crates look at: a site, packets of its hosts, cells with them, and the names of two instances.
//!
//! They stand in a crate of their own, below all tests that use them. This crate touches nothing but memory.
#![tactic(auto)]

ghost use Rattle.std.specs.Prelude.{◌≡◌, true, length, IfOk};
ghost use Rattle.nf_function.specs.Units.{is_transport};

use basics::Boxed;
use flow_filter::{Flow, Name, Packet, Prefix, Sequence, Site, TCP, UDP};
use packet_pool::{Cell, Pool};
use std::alloc::Global;
use std::test::Fail;

/// The network 10.0.0.0/24, without an outside address.
pub const SITE: Site = Site {
    inside: Prefix {
        bits: 0x0a00_0000,
        len: 24,
    },
    outside: None,
};

/// A UDP packet of 20 bytes without a time, from 10.0.0.1:5000 to 192.0.2.9:53.
pub const PACKET: Packet = Packet {
    nanos: 0,
    number: 1,
    src: 0x0a00_0001,
    dst: 0xc000_0209,
    length: 20,
    sport: 5000,
    dport: 53,
    proto: UDP,
    flags: 0,
    held: 0,
    head: [0; 64],
};

/// The flow of that packet.
pub const FLOW: Flow = Flow {
    proto: UDP,
    local: 0x0a00_0001,
    lport: 5000,
    remote: 0xc000_0209,
    rport: 53,
};

/// The UDP packet with this number, which 10.0.0.H sends from a port.
pub fn packet(number: u32, host: u8, port: u16) -> Packet
    ensures number { result.number ≡ number }
    ensures transport { is_transport result.proto ≡ true }
{
    Packet {
        number,
        src: SITE.inside.bits + u32::from(host),
        sport: port,
        ..PACKET
    }
}

/// A TCP packet with this number and without payload, from 10.0.0.1:40000 to 198.51.100.7:80.
pub fn outward(number: u32, flags: u8) -> Packet
    ensures number { result.number ≡ number }
    ensures transport { is_transport result.proto ≡ true }
{
    Packet {
        number,
        sport: 40_000,
        dst: 0xc633_6407,
        dport: 80,
        length: 0,
        proto: TCP,
        flags,
        ..PACKET
    }
}

/// The packet in the other direction.
pub fn reverse(there: Packet) -> Packet
    ensures number { result.number ≡ there.number }
    ensures transport { is_transport there.proto ≡ true → is_transport result.proto ≡ true }
{
    Packet {
        src: there.dst,
        sport: there.dport,
        dst: there.src,
        dport: there.sport,
        ..there
    }
}

/// A packet in a cell.
pub fn parcel(alloc: Global, packet: Packet) -> Result<Cell, Fail> {
    match Pool::open(0, 1).take(Boxed::new(alloc, packet)?) {
        Ok(parcel) => Ok(parcel),
        Err(_packet) => Err("no cell".into()),
    }
}

/// The name a, and one of another letter or digit.
pub fn two_names(alloc: Global, other: u8) -> Result<(Name, Name), Fail> {
    let a = Name::read(alloc, b"a")?.ok_or("no name")?;
    let other = Name::read(alloc, &[other])?.ok_or("no name")?;
    Ok((a, other))
}

/// The names a and b.
pub fn names(alloc: Global) -> Result<Sequence<Name>, Fail>
    ensures { IfOk result (λ names. length names ≡ 2) }
{
    let (a, b) = two_names(alloc, b'b')?;
    Ok(Sequence::from_vec(Vec::from_array(alloc, [a, b])?))
}
