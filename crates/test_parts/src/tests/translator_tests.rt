use crate::tests::common::assert_text;
use addr_translator::{Nat, NatRecord};
use basics::NoMemory;
use flow_filter::{Packet, Prefix, Site, TCP};
use nf_function::{Function, Output};
use std::alloc::Global;
use std::process::Abort;
use std::test::Fail;
use test_packets::PACKET;

/// The network 10.0.0.0/24 behind 203.0.113.1.
const TRANSLATED: Site = Site {
    inside: Prefix {
        bits: 0x0a00_0000,
        len: 24,
    },
    outside: Some(0xcb00_7101),
};

/// A packet of UDP from this port of 10.0.0.7 to 198.51.100.7:53.
fn sent(port: u16) -> Packet {
    Packet {
        src: 0x0a00_0007,
        sport: port,
        dst: 0xc633_6407,
        ..PACKET
    }
}

/// The answer to the last of some packets of one host, the first so many of which come from ports of their own, and what is
/// kept of the host then.
fn answered(
    alloc: Global,
    ports: u16,
    last: &Packet,
) -> Result<(Output, Option<NatRecord>), NoMemory> {
    let mut kept = None;
    for port in 0..ports {
        Nat::step(alloc, &TRANSLATED, &mut kept, &sent(port))?;
    }
    let output = Nat::step(alloc, &TRANSLATED, &mut kept, last)?;
    Ok((output, kept))
}

#[test]
fn the_253rd_port_of_a_host_is_refused(rt: HostRuntime) -> Result<(), Fail> {
    let tcp = Packet {
        proto: TCP,
        ..sent(0)
    };
    let table = [
        // Host 7 has the ports from 1024 + 252 * 7 on.
        (
            251,
            sent(9000),
            "map 203.0.113.1:3039",
            "ports 252 packets 252 drops 0",
        ),
        (
            252,
            sent(9000),
            "drop noport",
            "ports 252 packets 253 drops 1",
        ),
        (252, tcp, "drop noport", "ports 252 packets 253 drops 1"),
        (
            252,
            sent(251),
            "map 203.0.113.1:3039",
            "ports 252 packets 253 drops 0",
        ),
        (
            252,
            sent(0),
            "map 203.0.113.1:2788",
            "ports 252 packets 253 drops 0",
        ),
    ];
    for (ports, last, answer, record) in table {
        let (output, kept) = answered(rt.alloc(), ports, &last)?;
        assert_printed(&rt, rt.alloc(), &output, kept.as_ref(), answer, record)?;
    }
    Ok(())
}

/// Asserts how an output and the record that is then kept are printed.
fn assert_printed(
    rt: &impl Abort,
    alloc: Global,
    output: &Output,
    kept: Option<&NatRecord>,
    answer: &str,
    record: &str,
) -> Result<(), Fail> {
    let kept = kept.ok_or("no record")?;
    assert_text(rt, Nat::print_output(alloc, output)?, answer);
    assert_text(rt, Nat::print_record(alloc, kept)?, record);
    Ok(())
}
