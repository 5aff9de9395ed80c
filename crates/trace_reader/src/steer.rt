//! Which records hold packets that are steered, and the packet of such a record.
ghost use Rattle.std.specs.Prelude.{◌≡◌, ◌≤◌, ◌+◌, ◌-◌, ◌^◌, ◌++◌, min, length, replicate, true, Some, IfSome};
ghost use Rattle.trace_reader.specs.Limits.{front_size, head_size, most_captured};
ghost use Rattle.trace_reader.specs.Numbers.{u16_at, u32_at};
ghost use Rattle.trace_reader.specs.Steered.{start_of, header_length, is_steered_proto, transport_length};
ghost use Rattle.trace_reader.specs.Steered.{total_length, parts_of, HasParts, packet_with, packet_of};
ghost use Rattle.trace_reader.specs.Opened.{held_of, payload_of};
ghost use Rattle.trace_reader.specs.Layout.{tagged_size, ipv4_size, udp_size, tcp_size, longest_header};
ghost use Rattle.flow_filter.specs.Packet.{tcp, most_held};

use crate::form::{Form, LinkType};
use byteorder::{BigEndian, ByteOrder};
use flow_filter::{Packet, TCP, UDP};

/// How many bytes of a record can matter: those in front of the longest payload that is kept.
pub(crate) const FRONT: usize = 202;

/// Where the datagram of a steered record starts, and how long its parts are.
#[derive(Drop)]
pub(crate) struct Parts {
    start: usize,
    header: usize,
    transport: usize,
    total: usize,
}

/// The packet of a record of `len` bytes, of which `front` has the first; None for one that is
/// skipped.
#[tactic(auto, unfolding(crate::specs::Steered::packet_of))]
#[inline(always)]
pub(crate) fn packet_of(
    form: Form,
    number: u32,
    head: &[u8],
    len: usize,
    front: &[u8],
) -> Option<Packet>
    requires head { length head.now ≡ head_size }
    requires front { length front.now ≡ min len front_size }
    requires len { len ≤ most_captured }
    ensures value { result ≡ packet_of form number head.now len front.now }
    ensures steered { IfSome result (λ packet. (packet.number ≡ number) × (is_steered_proto packet.proto ≡ true)) }
{
    let parts = parts_of(form.link_type, len, front)?;
    Some(packet_with(number, form.nanos(head), len, front, &parts))
}

/// The packet of a record, if none of its payload was captured; None for any other record. It is inlined, so that the zeros in place
/// of the payload are neither copied nor looked at.
#[tactic(auto, unfolding(crate::specs::Steered::packet_of))]
#[inline(always)]
pub(crate) fn bare_packet_of(
    form: Form,
    number: u32,
    head: &[u8],
    len: usize,
    front: &[u8],
) -> Option<Packet>
    requires head { length head.now ≡ head_size }
    requires front { length front.now ≡ min len front_size }
    requires len { len ≤ most_captured }
    ensures value { IfSome result (λ packet. packet_of form number head.now len front.now ≡ Some packet) }
    ensures steered { IfSome result (λ packet. (packet.number ≡ number) × (is_steered_proto packet.proto ≡ true)) }
{
    let parts = parts_of(form.link_type, len, front)?;
    if held_of(len, &parts) > 0 {
        return None;
    }
    let nanos = form.nanos(head);
    Some(packet_around(number, nanos, len, front, &parts, [0; 64]))
}

/// The lengths of a steered record, None for one that is skipped.
#[tactic(auto, unfolding(crate::specs::Steered::parts_of))]
#[inline(always)]
fn parts_of(link_type: LinkType, len: usize, front: &[u8]) -> Option<Parts>
    requires { min len front_size ≤ length front.now }
    ensures value { result ≡ parts_of link_type len front.now }
    ensures parts { IfSome result (HasParts len front.now) }
{
    let start = start_of(link_type, len, front)?;
    let header = header_length(len, front, start)?;
    let transport = transport_length(len, front, front[start + 9], start + header)?;
    let total = total_length(len, front, start);
    if u16_at(front, start + 6) % 0x2000 == 0 && header + transport <= total {
        Some(Parts {
            start,
            header,
            transport,
            total,
        })
    } else {
        None
    }
}

/// Where the IPv4 header starts.
fn start_of(link_type: LinkType, len: usize, front: &[u8]) -> Option<usize>
    requires { min len front_size ≤ length front.now }
    ensures value { result ≡ start_of link_type len front.now }
    ensures bound { IfSome result (λ s. s ≤ tagged_size) }
{
    match link_type {
        LinkType::Raw => Some(0),
        LinkType::Ethernet => {
            if len >= 14 && u16_at(front, 12) == 0x0800 {
                Some(14)
            } else if len >= 18 && u16_at(front, 12) == 0x8100 && u16_at(front, 16) == 0x0800 {
                Some(18)
            } else {
                None
            }
        }
    }
}

/// How long the IPv4 header at `start` is.
fn header_length(len: usize, front: &[u8], start: usize) -> Option<usize>
    requires front { min len front_size ≤ length front.now }
    requires start { start ≤ tagged_size }
    ensures value { result ≡ header_length len front.now start }
    ensures bound { IfSome result (λ h. (ipv4_size ≤ h) × (h ≤ longest_header) × (start + h ≤ len)) }
{
    if len < start + 20 {
        return None;
    }
    let first = front[start];
    let header = 4 * usize::from(first % 16);
    if first / 16 == 4 && header >= 20 && len >= start + header {
        Some(header)
    } else {
        None
    }
}

/// How long the TCP or UDP header at `at` is.
fn transport_length(len: usize, front: &[u8], proto: u8, at: usize) -> Option<usize>
    requires front { min len front_size ≤ length front.now }
    requires at { at ≤ tagged_size + longest_header }
    ensures value { result ≡ transport_length len front.now proto at }
    ensures bound { IfSome result (λ d. (d ≤ longest_header) × (at + udp_size ≤ len) × (proto ≡ tcp → at + tcp_size ≤ len)) }
    ensures steered { IfSome result (λ d. is_steered_proto proto ≡ true) }
{
    match proto {
        UDP if len >= at + 8 => Some(8),
        TCP if len >= at + 20 => {
            let transport = 4 * usize::from(front[at + 12] / 16);
            if transport >= 20 {
                Some(transport)
            } else {
                None
            }
        }
        _ => None,
    }
}

/// How long the datagram at `start` says it is, or else is.
fn total_length(len: usize, front: &[u8], start: usize) -> usize
    requires front { min len front_size ≤ length front.now }
    requires start { start ≤ tagged_size }
    requires header { start + ipv4_size ≤ len }
    ensures { result ≡ total_length len front.now start }
{
    match u16_at(front, start + 2) {
        0 => len - start,
        total => usize::from(total),
    }
}

/// The packet of a steered record.
#[inline(always)]
fn packet_with(number: u32, nanos: u64, len: usize, front: &[u8], parts: &Parts) -> Packet
    requires front { length front.now ≡ min len front_size }
    requires len { len ≤ most_captured }
    requires parts { HasParts len front.now parts.now }
    ensures { result ≡ packet_with number nanos len front.now parts.now }
{
    let head = padded(payload_of(len, front, parts));
    packet_around(number, nanos, len, front, parts, head)
}

/// The packet of a steered record, with this payload.
#[inline(always)]
fn packet_around(
    number: u32,
    nanos: u64,
    len: usize,
    front: &[u8],
    parts: &Parts,
    head: [u8; 64],
) -> Packet
    requires front { length front.now ≡ min len front_size }
    requires len { len ≤ most_captured }
    requires parts { HasParts len front.now parts.now }
    ensures { result ≡ record (packet_with number nanos len front.now parts.now) { head = head } }
{
    let at = parts.start + parts.header;
    let proto = front[parts.start + 9];
    Packet {
        number,
        nanos,
        proto,
        src: u32_at(front, parts.start + 12),
        sport: u16_at(front, at),
        dst: u32_at(front, parts.start + 16),
        dport: u16_at(front, at + 2),
        flags: if proto == TCP { front[at + 13] } else { 0 },
        length: (parts.total - parts.header - parts.transport) as u32,
        held: held_of(len, parts) as u8,
        head,
    }
}

/// The first bytes of the payload, of those that are captured.
fn payload_of<'a>(len: usize, front: &'a [u8], parts: &Parts) -> &'a [u8]
    requires front { length front.now ≡ min len front_size }
    requires len { len ≤ most_captured }
    requires parts { HasParts len front.now parts.now }
    ensures bytes { result.now ≡ payload_of len front.now parts.now }
    ensures held { length result.now ≡ held_of len parts.now }
{
    let at = parts.start + parts.header + parts.transport;
    let from = at.min(front.len());
    &front[from..from + held_of(len, parts)]
}

/// How many bytes of the payload are captured and kept.
#[inline(always)]
fn held_of(len: usize, parts: &Parts) -> usize
    requires sizes { parts.now.start + parts.now.header + parts.now.transport + parts.now.total ≤ 2 ^ 20 }
    ensures value { result ≡ held_of len parts.now }
    ensures bound { result ≤ most_held }
{
    let at = parts.start + parts.header + parts.transport;
    let end = len.min(parts.start + parts.total);
    end.saturating_sub(at).min(64)
}

/// Those bytes, and zeros after them.
fn padded(payload: &[u8]) -> [u8; 64]
    requires { length payload.now ≤ most_held }
    ensures { result ≡ payload.now ++ replicate (most_held - length payload.now) 0 }
{
    let mut head = [0; 64];
    if payload.is_empty() {
        return head;
    }
    head[..payload.len()].copy_from_slice(payload);
    head
}

/// The number of two bytes at a place, the higher byte first.
fn u16_at(bytes: &[u8], at: usize) -> u16
    requires { at + 2 ≤ length bytes.now }
    ensures { result ≡ u16_at bytes.now at }
{
    BigEndian::read_u16(&bytes[at..])
}

/// The number of four bytes at a place, the highest byte first.
fn u32_at(bytes: &[u8], at: usize) -> u32
    requires { at + 4 ≤ length bytes.now }
    ensures { result ≡ u32_at bytes.now at }
{
    BigEndian::read_u32(&bytes[at..])
}
