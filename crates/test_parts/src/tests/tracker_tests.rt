//! Tests of the tracker by the states that its outputs name.
use crate::tests::common::assert_text;
use conn_tracker::{Conntrack, State, TrackRecord, step};
use flow_filter::{Direction, Packet, flow_of};
use nf_function::{Function, Output};
use std::test::Fail;
use test_packets::{PACKET, SITE, outward, reverse};

/// The UDP packet, so many seconds after the start.
fn asked(seconds: u32) -> Packet {
    Packet {
        nanos: u64::from(seconds) * 1_000_000_000,
        ..PACKET
    }
}

#[test]
fn a_handshake_is_established(rt: HostRuntime) -> Result<(), Fail> {
    let mut kept = None;
    let asked = step(&SITE, &mut kept, &outward(1, 2));
    assert_text(&rt, Conntrack::print_output(rt.alloc(), &asked)?, "opening");
    let last = Packet {
        length: 20,
        ..outward(3, 16)
    };
    let mut kept = Some(TrackRecord {
        packets: 2,
        bytes: 40,
        seen: 0,
        state: State::Answered,
        opener: Direction::Out,
    });
    let confirmed = step(&SITE, &mut kept, &last);
    assert_eq!(rt;
        confirmed,
        Output {
            code: 2,
            a: 0,
            b: 0
        }
    );
    let record = kept.ok_or("no record")?;
    let text = Conntrack::print_record(rt.alloc(), &record)?;
    assert_text(&rt, text, "established out packets 3 bytes 60");
    Ok(())
}

#[test]
fn an_answer_shows_the_opener(rt: HostRuntime) -> Result<(), Fail> {
    let mut kept = None;
    let answered = step(&SITE, &mut kept, &reverse(outward(1, 18)));
    assert_text(
        &rt,
        Conntrack::print_output(rt.alloc(), &answered)?,
        "answered",
    );
    let record = kept.ok_or("no record")?;
    assert_eq!(rt; record.opener, Direction::Out);
    assert_eq!(rt; State::numbered(9), Some(State::Both));
    assert_eq!(rt; State::numbered(10), None);
    Ok(())
}

#[test]
fn a_flow_begins_anew_after_300_seconds(rt: HostRuntime) -> Result<(), Fail> {
    let table = [
        (302, "both out packets 3 bytes 60 seen 302000000000"),
        (303, "single in packets 3 bytes 60 seen 303000000000"),
    ];
    for (last, text) in table {
        let mut kept = None;
        for packet in [asked(1), reverse(asked(2)), reverse(asked(last))] {
            Conntrack::step(rt.alloc(), &SITE, &mut kept, &packet)?;
        }
        let record = kept.ok_or("no record")?;
        assert_eq!(rt;
            Conntrack::print_record(rt.alloc(), &record)?.items(),
            text.as_bytes(),
            "at {last}"
        );
    }
    Ok(())
}

#[test]
fn a_record_is_stored_with_its_time(rt: HostRuntime) -> Result<(), Fail> {
    let timed = b"\x08\x00\0\0\0\0\0\0\0\x01\0\0\0\0\0\0\0\x14\0\0\0\0\x3b\x9a\xca\x00";
    for (seconds, length) in [(0, 18), (1, 26)] {
        let packet = asked(seconds);
        let mut kept = None;
        Conntrack::step(rt.alloc(), &SITE, &mut kept, &packet)?;
        let record = kept.ok_or("no record")?;
        let body = Conntrack::write_record(rt.alloc(), &record)?;
        assert_eq!(rt; body.items(), &timed[..length]);
        assert_eq!(rt; Conntrack::is_timed(&record), seconds == 1);
        let unit = Conntrack::unit(&flow_of(&SITE, &packet).0);
        let again = Conntrack::read_record(rt.alloc(), &unit, body.items())?;
        assert_eq!(rt; again, record);
        assert!(rt; !Conntrack::newer(&record, &again));
    }
    Ok(())
}
