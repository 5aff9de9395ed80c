//! Tests of the reports of runs by their whole texts.
ghost use Rattle.std.specs.Prelude.{◌<◌};

use actor_net::{Actor, Choices, Outbox, Schedule, World, run_schedule};
use basics::Text;
use conn_tracker::Conntrack;
use event_filter::Mark;
use flow_filter::{Filter, Prefix};
use instance_worker::Instance;
use net_world::{Node, start};
use nf_function::Kind;
use nf_msgs::{MOST_INSTANCES, Msg};
use run_report::{Head, audit, report};
use std::alloc::Global;
use std::test::Fail;
use test_packets::{SITE, names, packet, parcel, reverse};
use test_scenes::{Asked, came, command, config};

/// How many packets may be under way.
const WINDOW: u32 = 4;

/// The flows of 10.0.0.1.
const FIRST_HOST: Filter = Filter {
    local: Some(Prefix {
        bits: 0x0a00_0001,
        len: 32,
    }),
    ..Filter::ANY
};

/// What the switch takes in.
#[derive(Clone, Copy)]
enum Word {
    /// The packet with a number that the host 10.0.0.H sends.
    Sent(u32, u8),
    /// The packet with a number that it receives.
    Received(u32, u8),
    /// The command with a number: the records of 10.0.0.1 go from a to the instance with a letter.
    Move(u32, u8),
    Settle,
    End,
}

/// The message of a word.
fn message(alloc: Global, word: Word) -> Result<Msg, Fail> {
    match word {
        Word::Sent(number, h) => Ok(came(alloc, SITE, packet(number, h, 5000))?),
        Word::Received(number, h) => Ok(came(alloc, SITE, reverse(packet(number, h, 5000)))?),
        Word::Move(op, letter) => command(alloc, op, Asked::Move, letter, FIRST_HOST),
        Word::Settle => Ok(Msg::InSettle),
        Word::End => Ok(Msg::InEnd),
    }
}

/// The messages of words.
fn input(alloc: Global, words: &[Word]) -> Result<Vec<Msg>, Fail> {
    let mut items = Vec::new(alloc);
    for word in words {
        items.push(message(alloc, *word)?)?;
    }
    Ok(items)
}

/// What the reports repeat.
fn head(alloc: Global) -> Result<Head, Fail> {
    Ok(Head {
        kind: Kind::Conntrack,
        names: names(alloc)?,
        window: WINDOW,
        packets: 4,
        skipped: 2,
        cut: true,
    })
}

/// Packets of 10.0.0.2 and 10.0.0.1, whose records move to b, and a move to an instance that isn't there.
static WORDS: [Word; 9] = [
    Word::Sent(1, 2),
    Word::Sent(2, 1),
    Word::Settle,
    Word::Move(1, b'b'),
    Word::Settle,
    Word::Received(3, 1),
    Word::Move(2, b'z'),
    Word::Sent(4, 2),
    Word::End,
];

/// The run with this input, and its choices. The schedule takes the first choice, so that the switch reads on before a takes packets, and a before b.
fn ran(alloc: Global) -> Result<(World<Node<Conntrack>>, Choices), Fail> {
    let config = config(alloc, WINDOW, 9, false)?;
    let world = start::<Conntrack>(alloc, &config, input(alloc, &WORDS)?)?;
    Ok(run_schedule(alloc, world, Schedule::First)?)
}

/// The report of that run.
fn reported(alloc: Global, summary: bool) -> Result<Text, Fail> {
    let head = head(alloc)?;
    let (world, _choices) = ran(alloc)?;
    Ok(report(alloc, &head, &world, summary)?)
}

/// The choices of that run.
fn choices(alloc: Global) -> Result<Choices, Fail> {
    let (world, choices) = ran(alloc)?;
    drop(world);
    Ok(choices)
}

/// The report of the audit of these choices.
fn audited(alloc: Global, summary: bool) -> Result<Text, Fail> {
    let (config, head) = (config(alloc, WINDOW, 9, false)?, head(alloc)?);
    let choices = choices(alloc)?;
    let items = input(alloc, &WORDS)?;
    Ok(audit::<Conntrack>(alloc, &config, items, &head, &choices, summary)?)
}

/// The report of that run, and its summary.
static REPORTS: [(bool, &str); 2] = [
    (
        false,
        "opennf report 1
function conntrack instances 2 window 4
trace packets 4 skipped 2 cut
out 1 single
out 2 single
out 3 both
out 4 single
done 1 a
done 2 a
done 4 a
done 3 b
answer 1 done
answer 2 unknown z
state udp 10.0.0.1:5000 192.0.2.9:53 b both out packets 2 bytes 40
state udp 10.0.0.2:5000 192.0.2.9:53 a single out packets 2 bytes 40
tally a 3 0
tally b 0 1
end
",
    ),
    (
        true,
        "opennf report 1
function conntrack instances 2 window 4
trace packets 4 skipped 2 cut
answer 1 done
answer 2 unknown z
live a 1
live b 1
tally a 3 0
tally b 0 1
end
",
    ),
];

#[test]
fn a_report_has_each_packet_command_and_record_and_a_summary_counts(
    rt: HostRuntime,
) -> Result<(), Fail> {
    for (summary, whole) in REPORTS {
        let text = reported(rt.alloc(), summary)?;
        assert_eq!(rt; text.items(), whole.as_bytes());
    }
    Ok(())
}

#[test]
fn an_audit_of_a_run_is_its_report(rt: HostRuntime) -> Result<(), Fail> {
    for (summary, whole) in REPORTS {
        let text = audited(rt.alloc(), summary)?;
        assert_eq!(rt; text.items(), whole.as_bytes());
    }
    Ok(())
}

/// The message of a packet of a share whose home is elsewhere.
fn shared(alloc: Global, host: u8) -> Result<Msg, Fail> {
    Ok(Msg::Carry {
        mark: Mark::Shared { op: 1, home: false },
        parcel: parcel(alloc, packet(1, host, 5000))?,
    })
}

/// An instance at which the records of 10.0.0.2 and 10.0.0.1 stand by.
fn standing_by(alloc: Global, index: u8) -> Result<Node<Conntrack>, Fail>
    requires { index < MOST_INSTANCES }
{
    let mut instance = Instance::open(alloc, index, 9, false, SITE);
    let mut out = Outbox::open(alloc);
    instance.step(0, shared(alloc, 2)?, &mut out)?;
    instance.step(0, shared(alloc, 1)?, &mut out)?;
    Ok(Node::Instance(instance))
}

/// The report of two such instances.
fn standbys(alloc: Global) -> Result<Text, Fail> {
    let mut nodes = Vec::new(alloc);
    nodes.push(standing_by(alloc, 0)?)?;
    nodes.push(standing_by(alloc, 1)?)?;
    let world = World::start(alloc, nodes, Vec::new(alloc))?;
    Ok(report(alloc, &head(alloc)?, &world, false)?)
}

#[test]
fn records_that_stand_by_have_lines_by_unit_and_then_instance(rt: HostRuntime) -> Result<(), Fail> {
    let text = standbys(rt.alloc())?;
    let whole = "opennf report 1
function conntrack instances 2 window 4
trace packets 4 skipped 2 cut
standby udp 10.0.0.1:5000 192.0.2.9:53 a single out packets 1 bytes 20
standby udp 10.0.0.1:5000 192.0.2.9:53 b single out packets 1 bytes 20
standby udp 10.0.0.2:5000 192.0.2.9:53 a single out packets 1 bytes 20
standby udp 10.0.0.2:5000 192.0.2.9:53 b single out packets 1 bytes 20
tally a 2 0
tally b 0 2
end
";
    assert_eq!(rt; text.items(), whole.as_bytes());
    Ok(())
}
