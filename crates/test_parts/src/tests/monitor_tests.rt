//! Tests of the monitor by its outputs and records, as they are printed.
ghost use Rattle.std.specs.Prelude.{◌≤◌, length};

use crate::tests::common::assert_text;
use asset_monitor::{AssetRecord, Banner, Monitor, SERVICES_PER_HOST, Service};
use basics::{NoMemory, Text};
use flow_filter::Packet;
use nf_function::{Function, Output};
use std::alloc::Global;
use std::process::Abort;
use std::test::Fail;
use test_packets::{PACKET, SITE, reverse};

/// A packet that 10.0.0.5 sends from this port to 192.0.2.9:40000.
fn sent(proto: u8, port: u16, flags: u8, payload: &[u8]) -> Packet
    requires { length payload.now ≤ 64 }
{
    let mut head = [0; 64];
    head[..payload.len()].copy_from_slice(payload);
    Packet {
        proto,
        src: 0x0a00_0005,
        sport: port,
        dport: 40_000,
        flags,
        length: payload.len() as u32,
        held: payload.len() as u8,
        head,
        ..PACKET
    }
}

/// What the monitor prints of these packets of one host: a line for each output, and then the record.
fn printed(alloc: Global, packets: &[Packet]) -> Result<Text, NoMemory> {
    let mut text = Text::open(alloc);
    let mut kept = None;
    for packet in packets {
        let output = Monitor::step(alloc, &SITE, &mut kept, packet)?;
        Monitor::push_output(&mut text, &output)?;
        text.push_bytes(b"\n")?;
    }
    if let Some(record) = &kept {
        Monitor::push_record(&mut text, record)?;
    }
    Ok(text)
}

#[test]
fn an_ssh_server_is_found_and_its_banner_kept(rt: HostRuntime) -> Result<(), Fail> {
    let packets = [
        reverse(sent(6, 22, 2, b"")),
        sent(6, 22, 18, b""),
        reverse(sent(6, 22, 16, b"")),
        sent(6, 22, 16, b"SSH-2.0-x"),
    ];
    let wanted = "quiet\nnew tcp 22\nquiet\nbanner tcp 22 ssh\npackets 4 services tcp/22/ssh";
    assert_text(&rt, printed(rt.alloc(), &packets)?, wanted);
    Ok(())
}

#[test]
fn the_first_greeting_of_a_known_service_is_kept(rt: HostRuntime) -> Result<(), Fail> {
    let packets = [
        sent(17, 53, 0, b"220 ready"),
        reverse(sent(17, 53, 0, b"220 ready")),
        sent(17, 53, 0, b"220"),
        sent(17, 53, 0, b"220 ready"),
        sent(17, 53, 0, b"+OK"),
        sent(17, 1024, 0, b"+OK"),
        sent(6, 80, 22, b""),
        sent(6, 80, 16, b"HTTP/1.1 200 OK"),
    ];
    let wanted = "new udp 53\nquiet\nquiet\nbanner udp 53 greeting\nquiet\nquiet\nquiet\nquiet\n\
                  packets 8 services udp/53/greeting";
    assert_text(&rt, printed(rt.alloc(), &packets)?, wanted);
    Ok(())
}

#[test]
fn the_65th_service_of_a_host_isnt_listed(rt: HostRuntime) -> Result<(), Fail> {
    let mut kept = None;
    assert_listed(&rt, rt.alloc(), &mut kept)?;
    let record = kept.ok_or("no record")?;
    assert_eq!(rt; record.packets, 65);
    assert_eq!(rt; record.services.items().len(), SERVICES_PER_HOST);
    assert_eq!(rt;
        record.services.items().last().copied(),
        Some(Service {
            proto: 6,
            port: 64,
            banner: Banner::Unseen,
        })
    );
    Ok(())
}

/// Asserts what is said of 65 services of a host, one after another.
fn assert_listed(
    rt: &impl Abort,
    alloc: Global,
    kept: &mut Option<AssetRecord>,
) -> Result<(), NoMemory> {
    for port in 1..=65u16 {
        let output = Monitor::step(alloc, &SITE, kept, &sent(6, port, 18, b""))?;
        let wanted = if port <= 64 {
            Output {
                code: 1,
                a: 6,
                b: u32::from(port),
            }
        } else {
            Output {
                code: 3,
                a: 0,
                b: 0,
            }
        };
        assert_eq!(rt; output, wanted);
    }
    Ok(())
}
