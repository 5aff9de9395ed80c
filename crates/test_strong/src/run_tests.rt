//! Tests of strong sharing by the notes of whole runs.
use crate::common::{handshake, reported, sent};
use actor_net::{Choice, Choices, Schedule};
use basics::{NoMemory, Text};
use conn_tracker::Conntrack;
use flow_filter::{Filter, Site};
use std::alloc::Global;
use std::test::Fail;
use strong_share::{StrongNote, run_strong, simulate_strong, start};
use switch_node::switch::MOST_WINDOW;
use test_packets::SITE;

/// The report of the handshake with the members a and b, where these share the flows of a local port, or all.
fn shared(
    alloc: Global,
    site: Site,
    window: u32,
    lport: Option<u16>,
    schedule: Schedule,
) -> Result<Text, Fail> {
    if window < 1 || window > MOST_WINDOW {
        return Err("no such window".into());
    }
    let filter = Filter {
        lport,
        ..Filter::ANY
    };
    let packets = handshake(alloc, site)?;
    let (world, _choices) = simulate_strong::<Conntrack>(
        alloc, site, window, 2, filter, packets, schedule,
    )?;
    reported(alloc, window, 3, &world)
}

/// Handshakes by their window, the local port and the schedule, each with its report.
static HANDSHAKES: [(u32, Option<u16>, Schedule, &str); 3] = [
    // A packet is served when all have the state after the one before.
    (
        256,
        None,
        Schedule::Last,
        "opennf strong 1
function conntrack instances 2 window 256
trace packets 3 skipped 0 whole
out 1 opening
out 2 answered
out 3 established
event 1 a
event 2 b
event 3 a
done 1 a
done 2 b
done 3 a
state tcp 10.0.0.1:40000 198.51.100.7:80 a established out packets 3 bytes 0
standby tcp 10.0.0.1:40000 198.51.100.7:80 b established out packets 3 bytes 0
tally a 2 0
tally b 0 1
end
",
    ),
    // Packets are served in the order in which they were queued.
    (
        4096,
        None,
        Schedule::First,
        "opennf strong 1
function conntrack instances 2 window 4096
trace packets 3 skipped 0 whole
out 1 opening
out 2 answered
out 3 opening
event 1 a
event 3 a
event 2 b
done 1 a
done 3 a
done 2 b
state tcp 10.0.0.1:40000 198.51.100.7:80 a answered out packets 3 bytes 0
standby tcp 10.0.0.1:40000 198.51.100.7:80 b answered out packets 3 bytes 0
tally a 2 0
tally b 0 1
end
",
    ),
    // What the filter doesn't take is processed by the first member.
    (
        1,
        Some(5000),
        Schedule::First,
        "opennf strong 1
function conntrack instances 2 window 1
trace packets 3 skipped 0 whole
out 1 opening
out 2 answered
out 3 established
done 1 a
done 2 a
done 3 a
state tcp 10.0.0.1:40000 198.51.100.7:80 a established out packets 3 bytes 0
tally a 3 0
tally b 0 0
end
",
    ),
];

#[test]
fn each_handshake_has_its_report(rt: HostRuntime) -> Result<(), Fail> {
    for (window, lport, schedule, whole) in HANDSHAKES {
        let text = shared(rt.alloc(), SITE, window, lport, schedule)?;
        assert_eq!(rt; text.items(), whole.as_bytes());
    }
    Ok(())
}

/// The packets of a log that were queued, each with its member.
fn queued(alloc: Global, log: &[StrongNote]) -> Result<Text, NoMemory> {
    let mut text = Text::open(alloc);
    for note in log {
        if let StrongNote::Queued { number, member } = note {
            text.push_decimal(u64::from(*number))?;
            text.push_bytes(b":")?;
            text.push_decimal(u64::from(*member))?;
            text.push_bytes(b" ")?;
        }
    }
    Ok(text)
}

/// The turns of sixteen members that share all flows, with seventeen packets of one.
fn turns(alloc: Global, site: Site) -> Result<Text, Fail> {
    let packets = sent(alloc, site, 17)?;
    let (world, _choices) = simulate_strong::<Conntrack>(
        alloc,
        site,
        1,
        16,
        Filter::ANY,
        packets,
        Schedule::Last,
    )?;
    Ok(queued(alloc, world.log())?)
}

#[test]
fn sixteen_members_take_turns_by_the_numbers_of_packets(rt: HostRuntime) -> Result<(), Fail> {
    let text = turns(rt.alloc(), SITE)?;
    let turns =
        "1:0 2:1 3:2 4:3 5:4 6:5 7:6 8:7 9:8 10:9 11:10 12:11 13:12 14:13 15:14 16:15 17:0 ";
    assert_eq!(rt; text.items(), turns.as_bytes());
    Ok(())
}

/// A run of one packet in which b stops before it takes the record: its last message is on the link before its answer.
static STOPPED_FIRST: [(u8, u8); 15] = [
    (0, 0),
    (0, 0),
    (2, 0),
    (1, 2),
    (1, 0),
    (0, 1),
    (2, 1),
    (1, 2),
    (2, 0),
    (3, 0),
    (3, 1),
    (1, 2),
    (1, 3),
    (1, 3),
    (0, 2),
];

/// The choices of that run.
fn stopped_first(alloc: Global) -> Result<Choices, NoMemory> {
    let mut choices = Choices::open(alloc);
    for (node, port) in STOPPED_FIRST {
        choices.push(Choice { node, port })?;
    }
    Ok(choices)
}

/// The report of that run, which is to be complete.
fn replayed(alloc: Global, site: Site) -> Result<Text, Fail> {
    let packets = sent(alloc, site, 1)?;
    let world = start::<Conntrack>(alloc, site, 256, 2, Filter::ANY, packets)?;
    let world = run_strong(world, &stopped_first(alloc)?)?;
    if !world.complete() {
        return Err("not at its end".into());
    }
    reported(alloc, 256, 1, &world)
}

#[test]
fn a_member_takes_a_record_after_its_stop(rt: HostRuntime) -> Result<(), Fail> {
    let whole = "opennf strong 1
function conntrack instances 2 window 256
trace packets 1 skipped 0 whole
out 1 loose
event 1 a
done 1 a
state tcp 10.0.0.1:40000 198.51.100.7:80 a loose out packets 1 bytes 0
standby tcp 10.0.0.1:40000 198.51.100.7:80 b loose out packets 1 bytes 0
tally a 1 0
tally b 0 0
end
";
    let text = replayed(rt.alloc(), SITE)?;
    assert_eq!(rt; text.items(), whole.as_bytes());
    Ok(())
}
