//! Tests of `sim`, `published` and `strong` by what is seen of them: whole reports, refusals and faults.
ghost use Rattle.std.specs.Prelude.{◌≡◌, ◌≤◌, None};
ghost use Rattle.nf_io.specs.declared.outside.Role.{Role as TheRole};
ghost use Rattle.nf_io.specs.Memory.{seen_in};

use crate::tests::common::{HEADER, ONE_PACKET, RECORD, outside_of, seen, seen_over, seen_with};
use basics::{NoMemory, Text};
use nf_io::{MemoryOutside, Role};
use std::alloc::Global;
use std::test::Fail;

/// The records of a TCP connection from 10.0.0.1:40000 to 198.51.100.7:80: SYN, SYN and ACK, ACK.
static CONNECTION: [u8; 168] = [
    0, 0, 0, 0, 0, 0, 0, 0, 40, 0, 0, 0, 40, 0, 0, 0, //
    0x45, 0, 0, 40, 0, 0, 0, 0, 0x40, 6, 0, 0, 10, 0, 0, 1, 198, 51, 100, 7, //
    0x9c, 0x40, 0, 80, 0, 0, 0, 0, 0, 0, 0, 0, 0x50, 2, 0, 0, 0, 0, 0, 0, //
    0, 0, 0, 0, 0, 0, 0, 0, 40, 0, 0, 0, 40, 0, 0, 0, //
    0x45, 0, 0, 40, 0, 0, 0, 0, 0x40, 6, 0, 0, 198, 51, 100, 7, 10, 0, 0, 1, //
    0, 80, 0x9c, 0x40, 0, 0, 0, 0, 0, 0, 0, 0, 0x50, 0x12, 0, 0, 0, 0, 0, 0, //
    0, 0, 0, 0, 0, 0, 0, 0, 40, 0, 0, 0, 40, 0, 0, 0, //
    0x45, 0, 0, 40, 0, 0, 0, 0, 0x40, 6, 0, 0, 10, 0, 0, 1, 198, 51, 100, 7, //
    0x9c, 0x40, 0, 80, 0, 0, 0, 0, 0, 0, 0, 0, 0x50, 0x10, 0, 0, 0, 0, 0, 0,
];

/// The header of a big-endian capture of Ethernet with nanoseconds.
static ETHERNET: [u8; 24] = [
    0xa1, 0xb2, 0x3c, 0x4d, 0, 2, 0, 4, 0, 0, 0, 0, 0, 0, 0, 0, 0, 0, 0xff, 0xff, 0, 0, 0, 1,
];

/// A record with the packet of [`RECORD`] after one VLAN tag.
static TAGGED: [u8; 82] = [
    0, 0, 0, 0, 0, 0, 0, 0, 0, 0, 0, 66, 0, 0, 0, 66, //
    2, 0, 0, 0, 0, 1, 2, 0, 0, 0, 0, 2, 0x81, 0, 0, 1, 8, 0, //
    0x45, 0, 0, 48, 0, 0, 0, 0, 0x40, 17, 0, 0, 10, 0, 0, 1, 192, 0, 2, 9, //
    0x13, 0x88, 0, 53, 0, 28, 0, 0, //
    0, 0, 0, 0, 0, 0, 0, 0, 0, 0, 0, 0, 0, 0, 0, 0, 0, 0, 0, 0,
];

/// A record of an ICMP packet.
static ICMP: [u8; 58] = [
    0, 0, 0, 0, 0, 0, 0, 0, 0, 0, 0, 42, 0, 0, 0, 42, //
    2, 0, 0, 0, 0, 1, 2, 0, 0, 0, 0, 2, 8, 0, //
    0x45, 0, 0, 28, 0, 0, 0, 0, 0x40, 1, 0, 0, 10, 0, 0, 1, 192, 0, 2, 9, //
    8, 0, 0, 0, 0, 0, 0, 0,
];

/// A record of a later fragment, with offset 185.
static FRAGMENT: [u8; 58] = [
    0, 0, 0, 0, 0, 0, 0, 0, 0, 0, 0, 42, 0, 0, 0, 42, //
    2, 0, 0, 0, 0, 1, 2, 0, 0, 0, 0, 2, 8, 0, //
    0x45, 0, 0, 28, 0, 0, 0, 185, 0x40, 17, 0, 0, 10, 0, 0, 1, 192, 0, 2, 9, //
    0x13, 0x88, 0, 53, 0, 8, 0, 0,
];

/// A record of a TCP SYN from 10.0.0.1:40000 to 192.0.2.9:80 whose datagram states the length 0.
static SYN: [u8; 70] = [
    0, 0, 0, 0, 0, 0, 0, 0, 0, 0, 0, 54, 0, 0, 0, 54, //
    2, 0, 0, 0, 0, 1, 2, 0, 0, 0, 0, 2, 8, 0, //
    0x45, 0, 0, 0, 0, 0, 0, 0, 0x40, 6, 0, 0, 10, 0, 0, 1, 192, 0, 2, 9, //
    0x9c, 0x40, 0, 80, 0, 0, 0, 0, 0, 0, 0, 0, 0x50, 2, 0, 0, 0, 0, 0, 0,
];

/// Commands over that connection, and what is seen of them.
static CONNECTIONS: [(&str, &str); 7] = [
    // A move after the first packet is done.
    (
        "opennf published conntrack --inside 10.0.0.0/24 --schedule last T 1 any",
        "0|opennf published 1\nfunction conntrack instances 2 window 256\ntrace packets 3 skipped 0 whole\n\
         out 1 opening\nout 2 answered\nout 3 established\ndone 1 a\ndone 2 b\ndone 3 b\nanswer 1 done\n\
         state tcp 10.0.0.1:40000 198.51.100.7:80 b established out packets 3 bytes 0\ntally a 1 0\ntally b 0 2\nend\n|",
    ),
    // A packet waits until all have the state after the one before.
    (
        "opennf strong conntrack --instances a,b --inside 10.0.0.0/24 --schedule last T",
        "0|opennf strong 1\nfunction conntrack instances 2 window 256\ntrace packets 3 skipped 0 whole\n\
         out 1 opening\nout 2 answered\nout 3 established\nevent 1 a\nevent 2 b\nevent 3 a\ndone 1 a\ndone 2 b\ndone 3 a\n\
         state tcp 10.0.0.1:40000 198.51.100.7:80 a established out packets 3 bytes 0\n\
         standby tcp 10.0.0.1:40000 198.51.100.7:80 b established out packets 3 bytes 0\ntally a 2 0\ntally b 0 1\nend\n|",
    ),
    // Three monitors share a host.
    (
        "opennf strong monitor --instances a,b,c --inside 10.0.0.0/24 --schedule 7 T local=10.0.0.1",
        "0|opennf strong 1\nfunction monitor instances 3 window 256\ntrace packets 3 skipped 0 whole\n\
         out 1 quiet\nout 2 quiet\nout 3 quiet\nevent 1 a\nevent 3 c\nevent 2 b\ndone 1 a\ndone 3 c\ndone 2 b\n\
         state 10.0.0.1 a packets 3 services none\nstandby 10.0.0.1 b packets 3 services none\n\
         standby 10.0.0.1 c packets 3 services none\ntally a 1 0 0\ntally b 0 1 0\ntally c 0 0 1\nend\n|",
    ),
    // Packets are served in the order in which they were queued.
    (
        "opennf strong conntrack --instances a,b --inside 10.0.0.0/24 --window 4096 T any",
        "0|opennf strong 1\nfunction conntrack instances 2 window 4096\ntrace packets 3 skipped 0 whole\nout 1 opening\nout 2 answered\nout 3 opening\n\
         event 1 a\nevent 3 a\nevent 2 b\ndone 1 a\ndone 3 a\ndone 2 b\n\
         state tcp 10.0.0.1:40000 198.51.100.7:80 a answered out packets 3 bytes 0\n\
         standby tcp 10.0.0.1:40000 198.51.100.7:80 b answered out packets 3 bytes 0\ntally a 2 0\ntally b 0 1\nend\n|",
    ),
    // What the filter doesn't take is processed by the first member.
    (
        "opennf strong monitor --instances a,b --inside 10.0.0.0/24 --window 1 T local=10.0.0.2",
        "0|opennf strong 1\nfunction monitor instances 2 window 1\ntrace packets 3 skipped 0 whole\n\
         out 1 quiet\nout 2 quiet\nout 3 quiet\ndone 1 a\ndone 2 a\ndone 3 a\n\
         state 10.0.0.1 a packets 3 services none\ntally a 3 0\ntally b 0 0\nend\n|",
    ),
    // Two translators share a host.
    (
        "opennf strong nat --instances a,b --inside 10.0.0.0/24 --outside 203.0.113.1 --schedule 7 T local=10.0.0.0/30",
        "0|opennf strong 1\nfunction nat instances 2 window 256\ntrace packets 3 skipped 0 whole\n\
         out 1 map 203.0.113.1:1276\nout 2 drop direct\nout 3 map 203.0.113.1:1276\n\
         event 1 a\nevent 3 a\nevent 2 b\ndone 1 a\ndone 3 a\ndone 2 b\nstate 10.0.0.1 a ports 1 packets 3 drops 1\n\
         standby 10.0.0.1 b ports 1 packets 3 drops 1\ntally a 2 0\ntally b 0 1\nend\n|",
    ),
    // A move after the last packet finds none.
    (
        "opennf published conntrack --inside 10.0.0.0/24 --schedule last T 3 any",
        "0|opennf published 1\nfunction conntrack instances 2 window 256\ntrace packets 3 skipped 0 whole\nout 1 opening\nout 2 answered\nout 3 established\n\
         done 1 a\ndone 2 a\ndone 3 a\nanswer 1 no packet\n\
         state tcp 10.0.0.1:40000 198.51.100.7:80 b established out packets 3 bytes 0\ntally a 3 0\ntally b 0 0\nend\n|",
    ),
];

#[test]
fn each_report_of_a_connection_is_exact(rt: HostRuntime) -> Result<(), Fail> {
    for (line, wanted) in CONNECTIONS {
        let text = seen_over(rt.alloc(), line, &[&HEADER, &CONNECTION])?;
        assert_eq!(rt; text.items(), wanted.as_bytes(), "{line}");
    }
    Ok(())
}

/// The words of a simulation of the capture T.
static SIM: &str = "opennf sim conntrack --instances a --inside 10.0.0.0/24 --schedule last T";

#[test]
fn each_report_of_one_packet_is_exact(rt: HostRuntime) -> Result<(), Fail> {
    let rows: [(&str, &[u8], &str); 4] = [
        (SIM, b"", ONE_PACKET),
        // Ten bytes of a next record are reported as cut.
        (
            SIM,
            &RECORD[..10],
            "0|opennf report 1\nfunction conntrack instances 1 window 256\ntrace packets 1 skipped 0 cut\nout 1 single\ndone 1 a\n\
             state udp 10.0.0.1:5000 192.0.2.9:53 a single out packets 1 bytes 20 seen 1000000000\ntally a 1\nend\n|",
        ),
        (
            "opennf sim nat --instances a,b --inside 10.0.0.0/24 --outside 203.0.113.1 --window 1 T",
            b"",
            "0|opennf report 1\nfunction nat instances 2 window 1\ntrace packets 1 skipped 0 whole\n\
             out 1 map 203.0.113.1:1276\ndone 1 a\nstate 10.0.0.1 a ports 1 packets 1 drops 0\ntally a 1 0\ntally b 0 0\nend\n|",
        ),
        (
            "opennf sim monitor --instances a --inside 192.0.2.0/24 T",
            b"",
            "0|opennf report 1\nfunction monitor instances 1 window 256\ntrace packets 1 skipped 0 whole\n\
             out 1 quiet\ndone 1 a\nstate 192.0.2.9 a packets 1 services none\ntally a 1\nend\n|",
        ),
    ];
    for (line, more, wanted) in rows {
        let text = seen_over(rt.alloc(), line, &[&HEADER, &RECORD, more])?;
        assert_eq!(rt; text.items(), wanted.as_bytes(), "{line}");
    }
    Ok(())
}

#[test]
fn the_report_of_a_big_endian_ethernet_capture_is_exact(rt: HostRuntime) -> Result<(), Fail> {
    let text = seen_over(
        rt.alloc(),
        SIM,
        &[&ETHERNET, &TAGGED, &ICMP, &FRAGMENT, &SYN],
    )?;
    let wanted =
        "0|opennf report 1\nfunction conntrack instances 1 window 256\ntrace packets 2 skipped 2 whole\n\
         out 1 single\nout 2 opening\ndone 1 a\ndone 2 a\nstate tcp 10.0.0.1:40000 192.0.2.9:80 a opening out packets 1 bytes 0\n\
         state udp 10.0.0.1:5000 192.0.2.9:53 a single out packets 1 bytes 20\ntally a 2\nend\n|";
    assert_eq!(rt; text.items(), wanted.as_bytes());
    Ok(())
}

/// The record of a datagram of 20 bytes at a second, which 10.0.0.H:5000 sends to 192.0.2.9:53.
fn sent(second: u8, h: u8) -> [u8; 64] {
    let mut record = RECORD;
    record[0] = second;
    record[31] = h;
    record
}

/// The record of one the other way.
fn received(second: u8, h: u8) -> [u8; 64] {
    let mut record = RECORD;
    record[0] = second;
    record[28..40].copy_from_slice(&[192, 0, 2, 9, 10, 0, 0, h, 0, 53, 0x13, 0x88]);
    record
}

/// What is seen of a simulation of three packets of 10.0.0.1 and one of 10.0.0.2, with a script.
fn four_packets(alloc: Global, line: &str, script: &str) -> Result<Text, NoMemory> {
    let pieces: [&[u8]; 5] = [
        &HEADER,
        &sent(1, 1),
        &received(2, 1),
        &sent(3, 1),
        &sent(4, 2),
    ];
    seen_with(alloc, line, &pieces, script)
}

#[test]
fn a_move_keeps_the_order_of_packets_that_are_under_way(rt: HostRuntime) -> Result<(), Fail> {
    let line = "opennf sim conntrack --instances a,b --inside 10.0.0.0/24 --schedule 6 T S";
    let text = four_packets(rt.alloc(), line, "at 1 move a b local=10.0.0.1 order\n")?;
    let wanted =
        "0|opennf report 1\nfunction conntrack instances 2 window 256\ntrace packets 4 skipped 0 whole\n\
         out 1 single\nout 2 both\nout 3 both\nout 4 single\ndone 1 a\ndone 2 a\ndone 4 a\ndone 3 b\nanswer 1 done\n\
         state udp 10.0.0.1:5000 192.0.2.9:53 b both out packets 3 bytes 60 seen 3000000000\n\
         state udp 10.0.0.2:5000 192.0.2.9:53 a single out packets 1 bytes 20 seen 4000000000\ntally a 3 0\ntally b 0 1\nend\n|";
    assert_eq!(rt; text.items(), wanted.as_bytes());
    Ok(())
}

#[test]
fn words_and_captures_that_break_a_rule_are_refused(rt: HostRuntime) -> Result<(), Fail> {
    let published = "opennf published conntrack --inside 10.0.0.0/24 T 1 any";
    let strong = "opennf strong conntrack --instances a,b --inside 10.0.0.0/24 T";
    let rows: [(&str, &[u8], &str); 8] = [
        ("opennf sim conntrack T", &HEADER, "1||opennf: bad words\n"),
        // A filter that splits a unit.
        (
            "opennf published monitor --inside 10.0.0.0/24 T 1 rport=80",
            &HEADER,
            "1||opennf: bad words\n",
        ),
        // One member.
        (
            "opennf strong conntrack --instances a --inside 10.0.0.0/24 T",
            &HEADER,
            "1||opennf: bad words\n",
        ),
        // A capture without a whole header.
        (SIM, &HEADER[..23], "2||opennf: trace byte 23: header\n"),
        (SIM, &HEADER[..3], "2||opennf: trace byte 0: magic\n"),
        (SIM, &HEADER[..0], "2||opennf: trace byte 0: magic\n"),
        (
            published,
            &HEADER[..23],
            "2||opennf: trace byte 23: header\n",
        ),
        (strong, &HEADER[..23], "2||opennf: trace byte 23: header\n"),
    ];
    for (line, front, wanted) in rows {
        let text = seen_over(rt.alloc(), line, &[front])?;
        assert_eq!(rt; text.items(), wanted.as_bytes(), "{line}");
    }
    Ok(())
}

/// What is seen of a simulation where the second read or write of a role fails, and each is of so many bytes at most.
fn faulty(alloc: Global, role: Role, most: usize) -> Result<Text, NoMemory>
    requires { 1 ≤ most }
{
    let mut outside = outside_of(alloc, &[&HEADER, &RECORD])?;
    outside.piece(most);
    seen_failing(alloc, role, &mut outside)
}

/// What is seen of it over an outside where that call is made to fail.
fn seen_failing(alloc: Global, role: Role, outside: &mut MemoryOutside) -> Result<Text, NoMemory>
    requires { (role : TheRole) → (seen_in outside.old role).name ≡ None }
{
    outside.fail(role, 2)?;
    seen(alloc, SIM, outside)
}

#[test]
fn a_failing_read_or_write_is_a_fault_after_a_front_of_the_report(
    rt: HostRuntime,
) -> Result<(), Fail> {
    let text = faulty(rt.alloc(), Role::Trace, usize::MAX)?;
    assert_eq!(rt; text.items(), b"4||opennf: read fault trace\n".as_slice());
    let text = faulty(rt.alloc(), Role::Report, 16)?;
    let wanted = b"5|opennf report 1\n|opennf: write fault report\n".as_slice();
    assert_eq!(rt; text.items(), wanted);
    Ok(())
}
