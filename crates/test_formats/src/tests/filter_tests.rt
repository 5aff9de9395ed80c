//! Tests of `flow_filter`: filters, names, and packets that wait.

ghost use Rattle.std.specs.Prelude.{◌≡◌, length, IfOk};

use basics::{Boxed, NoMemory, TryCopy};
use flow_filter::name::{has_twice, is_name};
use flow_filter::{CapturedPacket, Filter, FilterFault, Flow, Name, Packet};
use std::alloc::Global;
use std::test::Fail;
use test_packets::PACKET;

/// A flow of 10.0.0.9.
const FLOW: Flow = Flow {
    proto: 6,
    local: 0x0a00_0009,
    lport: 40000,
    remote: 0xc633_6407,
    rport: 80,
};

/// A packet without payload.
const BARE: Packet = Packet {
    nanos: 1_000_000_007,
    number: 3,
    ..PACKET
};

#[test]
fn the_first_field_that_breaks_a_rule_is_refused(rt: HostRuntime) {
    let texts = [
        ("proto=tcp,,lport=x", FilterFault::Field),
        ("lport=1,lport=x", FilterFault::Twice),
        ("proto=tcp,rport=080", FilterFault::Number),
        ("local=10.0.0.1/31", FilterFault::Prefix),
    ];
    for (text, fault) in texts {
        assert_eq!(rt; Filter::parse(text), Err(fault));
    }
}

#[test]
fn the_canonical_text_has_the_fields_in_their_order(rt: HostRuntime) -> Result<(), Fail> {
    let filters = [
        (
            Filter::parse("rport=80,local=10.0.0.9,proto=tcp")?,
            "proto=tcp,local=10.0.0.9/32,rport=80",
        ),
        (Filter::ANY, "any"),
    ];
    for (filter, text) in filters {
        assert_eq!(rt; filter.print(rt.alloc())?.items(), text.as_bytes());
    }
    Ok(())
}

#[test]
fn filters_match_meet_and_cover(rt: HostRuntime) -> Result<(), Fail> {
    let prefix = Filter::parse("local=10.0.0.0/25,rport=80")?;
    let host = Filter::parse("local=10.0.0.9,proto=tcp")?;
    let both = Filter::parse("proto=tcp,local=10.0.0.9/32,rport=80")?;
    let other = Filter::parse("local=10.0.0.128/25")?;
    let all = Filter::parse("remote=0.0.0.0/0")?;
    assert_eq!(rt;
        (prefix.meet(&host), prefix.meet(&other)),
        (Some(both), None)
    );
    let covers = (all.covers(&Filter::ANY), prefix.covers(&all));
    assert_eq!(rt; (prefix.matches(&FLOW), covers), (true, (true, false)));
    Ok(())
}

#[test]
fn a_packet_waits_with_and_without_payload(rt: HostRuntime) -> Result<(), Fail> {
    let alloc = rt.alloc();
    let whole = Packet {
        held: 2,
        head: [7; 64],
        ..BARE
    };
    for packet in [BARE, whole] {
        assert_eq!(rt; while_waiting(alloc, &packet)?, (3, packet));
        assert_eq!(rt;
            (through_box(alloc, &packet)?, through_room(alloc, &packet)?),
            (packet, packet)
        );
    }
    Ok(())
}

/// The number of a packet, and the packet, while it waits.
fn while_waiting(alloc: Global, packet: &Packet) -> Result<(u32, Packet), NoMemory> {
    let captured = CapturedPacket::of(alloc, packet)?;
    Ok((captured.number(), captured.packet()))
}

/// A packet that waited, from a box of its own.
fn through_box(alloc: Global, packet: &Packet) -> Result<Packet, NoMemory> {
    let boxed = CapturedPacket::of(alloc, packet)?.into_boxed(alloc)?;
    Ok(boxed.into_inner())
}

/// A packet that waited, from the room of another.
fn through_room(alloc: Global, packet: &Packet) -> Result<Packet, NoMemory> {
    let captured = CapturedPacket::of(alloc, packet)?;
    let room = Boxed::new(alloc, BARE)?;
    Ok(captured.into_room(room).into_inner())
}

#[test]
fn a_name_has_up_to_16_letters_and_digits(rt: HostRuntime) -> Result<(), Fail> {
    let texts = [
        (b"abcdefghijklmno9".as_slice(), true),
        (b"abcdefghijklmnop9", false),
        (b"A", false),
    ];
    for (text, wanted) in texts {
        assert_eq!(rt; is_name(text), wanted);
    }
    let name = Name::read(rt.alloc(), b"b2".as_slice())?.ok_or("no name")?;
    let names = copied(rt.alloc(), name)?;
    let both = has_twice(rt.alloc(), names.as_slice())?;
    let one = has_twice(rt.alloc(), &names[1..])?;
    assert_eq!(rt;
        (names[1].items(), both, one),
        (b"b2".as_slice(), true, false)
    );
    Ok(())
}

/// A name and its copy.
fn copied(alloc: Global, name: Name) -> Result<Vec<Name>, NoMemory>
    ensures { IfOk result (λ names. length names.items ≡ 2) }
{
    let again = name.copy()?;
    Ok(vec![in alloc; name, again]?)
}
