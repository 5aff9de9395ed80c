//! Tests of runs of the network with a command, by what they note.
ghost use Rattle.std.specs.Prelude.{◌≡◌, true, All, IfOk};
ghost use Rattle.nf_function.specs.Units.{is_transport};
ghost use Rattle.nf_function.specs.declared.kind.Kind.TheVariants.{Conntrack as OfFlows};
ghost use Rattle.net_world.specs.Input.{IsInput, IsWhole};
ghost use Rattle.net_world.specs.Start.{IsConfig};

use crate::told::told;
use actor_net::{Choices, Schedule, World};
use basics::Text;
use conn_tracker::Conntrack;
use flow_filter::{Filter, Packet};
use net_world::{Config, Node, start};
use nf_msgs::Msg;
use nf_net::{run_choices, simulate};
use std::alloc::Global;
use std::test::Fail;
use test_packets::packet;
use test_scenes::{Asked, came, command, config};

/// How many packets may be under way.
const WINDOW: u32 = 2;

/// The flows of the local port 5001.
const ODD: Filter = Filter {
    lport: Some(5001),
    ..Filter::ANY
};

/// Which run there is: the command, the schedule, what b takes, and when the packets come.
#[derive(Clone, Copy)]
struct Case {
    asked: Asked,
    schedule: Schedule,
    /// How many records b takes.
    limit: u32,
    /// Whether b reads chunks of version 1 alone, which have no times.
    marked: bool,
    /// The time of each packet.
    nanos: u64,
}

/// A run with a move where the first choice is always taken.
const CASE: Case = Case {
    asked: Asked::Move,
    schedule: Schedule::First,
    limit: 9,
    marked: false,
    nanos: 0,
};

/// A packet, a command that asks for its flow, a packet of the other flow, and two more of the first. After a share that flow is to move.
fn items(alloc: Global, config: &Config, case: Case) -> Result<Vec<Msg>, Fail>
    requires config { IsConfig config.now }
    requires routes { All (λ route. IsWhole OfFlows route.0) config.now.routes }
    ensures { IfOk result (λ items. IsInput OfFlows config.now items.items) }
{
    let mut items = Vec::new(alloc);
    items.push(came(alloc, config.site, timed(1, case.nanos))?)?;
    items.push(command(alloc, 1, case.asked, b'b', ODD)?)?;
    items.push(came(alloc, config.site, timed(2, case.nanos))?)?;
    items.push(came(alloc, config.site, timed(3, case.nanos))?)?;
    items.push(came(alloc, config.site, timed(5, case.nanos))?)?;
    if let Asked::Share = case.asked {
        items.push(command(alloc, 2, Asked::Move, b'b', ODD)?)?;
        items.push(Msg::InEnd)?;
        return Ok(items);
    }
    items.push(Msg::InEnd)?;
    Ok(items)
}

/// The packet with this number and time, from the local port 5000 for an even number and from 5001 for an odd one.
fn timed(number: u32, nanos: u64) -> Packet
    ensures number { result.number ≡ number }
    ensures transport { is_transport result.proto ≡ true }
{
    Packet {
        nanos,
        ..packet(number, 1, 5000 + (number % 2) as u16)
    }
}

/// A run, and its choices.
fn ran(alloc: Global, case: Case) -> Result<(World<Node<Conntrack>>, Choices), Fail> {
    let config = config(alloc, WINDOW, case.limit, case.marked)?;
    let items = items(alloc, &config, case)?;
    Ok(simulate::<Conntrack>(alloc, &config, items, case.schedule)?)
}

/// The start of that run.
fn opening(alloc: Global, case: Case) -> Result<World<Node<Conntrack>>, Fail> {
    let config = config(alloc, WINDOW, case.limit, case.marked)?;
    let items = items(alloc, &config, case)?;
    Ok(start::<Conntrack>(alloc, &config, items)?)
}

/// What a run notes and leaves.
fn run_told(alloc: Global, case: Case) -> Result<Text, Fail> {
    let (world, _choices) = ran(alloc, case)?;
    Ok(told(alloc, &world)?)
}

/// The same of the run that takes its choices from the start.
fn replay_told(alloc: Global, case: Case) -> Result<Text, Fail> {
    let (world, choices) = ran(alloc, case)?;
    drop(world);
    let again = run_choices(opening(alloc, case)?, &choices)?;
    Ok(told(alloc, &again)?)
}

/// Runs, each with what it notes and leaves.
static RUNS: [(Case, &str); 8] = [
    // A move keeps the order of its flow.
    (
        CASE,
        "came 1\ncame 2\nbegun 1\ndid 1 at 0 single\ncame 3\ndid 2 at 0 single\ncame 5\ndid 3 at 0 single\n\
         did 5 at 0 single\ngave at 0 units 1\ntook at 1 units 1\ninstalled 1\nanswered 1 done\n\
         live single out packets 1 bytes 20\n--\nlive single out packets 3 bytes 60\n--\n",
    ),
    (
        Case {
            schedule: Schedule::Last,
            ..CASE
        },
        "came 1\ndid 1 at 0 single\nbegun 1\ngave at 0 units 1\ntook at 1 units 1\ninstalled 1\nanswered 1 done\ncame 2\n\
         did 2 at 0 single\ncame 3\ndid 3 at 1 single\ncame 5\ndid 5 at 1 single\nlive single out packets 1 bytes 20\n\
         --\nlive single out packets 3 bytes 60\n--\n",
    ),
    (
        Case {
            schedule: Schedule::Number(29),
            ..CASE
        },
        "came 1\nbegun 1\ngave at 0 units 0\ncame 2\ndid 2 at 0 single\ntook at 1 units 0\ncame 3\ndid 1 at 1 single\n\
         installed 1\ndid 3 at 1 single\ncame 5\ndid 5 at 1 single\nanswered 1 done\nlive single out packets 1 bytes 20\n\
         --\nlive single out packets 3 bytes 60\n--\n",
    ),
    // What the destination refuses goes back: where it is full, and where it takes no chunks of version 2.
    (
        Case { limit: 0, ..CASE },
        "came 1\ncame 2\nbegun 1\ndid 1 at 0 single\ncame 3\ndid 2 at 0 single\ncame 5\ndid 3 at 0 single\n\
         did 5 at 0 single\ngave at 0 units 1\ntook at 0 units 1\nanswered 1 import 0 1 0\n\
         live single out packets 1 bytes 20\nlive single out packets 3 bytes 60\n--\n--\n",
    ),
    (
        Case {
            schedule: Schedule::Last,
            marked: true,
            nanos: 7,
            ..CASE
        },
        "came 1\ndid 1 at 0 single\nbegun 1\ngave at 0 units 1\ntook at 0 units 1\nanswered 1 old 2 1\ncame 2\n\
         did 2 at 0 single\ncame 3\ndid 3 at 0 single\ncame 5\ndid 5 at 0 single\n\
         live single out packets 1 bytes 20 seen 7\nlive single out packets 3 bytes 60 seen 7\n--\n--\n",
    ),
    // A copy takes the records of its moment while packets flow.
    (
        Case {
            asked: Asked::Copy,
            ..CASE
        },
        "came 1\ncame 2\nbegun 1\ndid 1 at 0 single\ncame 3\ndid 2 at 0 single\ncame 5\ndid 3 at 0 single\n\
         did 5 at 0 single\ngave at 0 units 1\nkept at 1 units 1\nanswered 1 done\nlive single out packets 1 bytes 20\n\
         live single out packets 3 bytes 60\n--\nstandby single out packets 3 bytes 60\n--\n",
    ),
    (
        Case {
            asked: Asked::Copy,
            schedule: Schedule::Last,
            ..CASE
        },
        "came 1\ndid 1 at 0 single\nbegun 1\ngave at 0 units 1\nkept at 1 units 1\nanswered 1 done\ncame 2\n\
         did 2 at 0 single\ncame 3\ndid 3 at 0 single\ncame 5\ndid 5 at 0 single\nlive single out packets 1 bytes 20\n\
         live single out packets 3 bytes 60\n--\nstandby single out packets 1 bytes 20\n--\n",
    ),
    // A share hands each record on before its next packet.
    (
        Case {
            asked: Asked::Share,
            schedule: Schedule::Last,
            ..CASE
        },
        "came 1\ndid 1 at 0 single\nbegun 1\ninstalled 1\ngave at 0 units 1\nkept at 1 units 1\nanswered 1 done\ncame 2\n\
         did 2 at 0 single\ncame 3\ndid 3 at 1 single\nkept at 0 units 1\ncame 5\ndid 5 at 1 single\nkept at 0 units 1\n\
         answered 2 overlap 1\nlive single out packets 1 bytes 20\nlive single out packets 3 bytes 60\n--\n\
         standby single out packets 3 bytes 60\n--\n",
    ),
];

#[test]
fn each_run_notes_and_leaves_what_its_command_asks(rt: HostRuntime) -> Result<(), Fail> {
    for (case, expected) in RUNS {
        assert_eq!(rt; run_told(rt.alloc(), case)?.items(), expected.as_bytes());
    }
    Ok(())
}

#[test]
fn the_choices_of_a_run_replay_to_its_log(rt: HostRuntime) -> Result<(), Fail> {
    for (case, expected) in RUNS {
        assert_eq!(rt; replay_told(rt.alloc(), case)?.items(), expected.as_bytes());
    }
    Ok(())
}
