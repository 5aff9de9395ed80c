//! Tests of the report of a failover: which packets and records are lost, and which are promoted.
ghost use Rattle.std.specs.Prelude.{◌≡◌, All, IfOk, length};
ghost use Rattle.trace_reader.specs.Records.{AreNumbered};
ghost use Rattle.nf_function.specs.declared.kind.Kind.TheVariants.{Conntrack as OfFlows};
ghost use Rattle.net_world.specs.Input.{packets, IsInput, IsWhole};
ghost use Rattle.net_world.specs.Start.{IsConfig};

use actor_net::{Choice, Choices};
use basics::{NoMemory, Text};
use conn_tracker::Conntrack;
use flow_filter::Filter;
use net_world::Config;
use nf_function::Kind;
use nf_msgs::Msg;
use standby_failover::{AuditFault, Failing, Head, packets_of, promote, report_failover};
use std::alloc::Global;
use std::test::Fail;
use test_packets::{names, packet};
use test_scenes::{Asked, came, command, config};

/// How many packets may be under way.
const WINDOW: u32 = 8;

/// What a run is given.
#[derive(Clone, Copy)]
enum Given {
    OnePacket,
    ThreePackets(Asked),
    TwoFlows,
}

/// A packet alone.
fn one_packet(alloc: Global, config: &Config) -> Result<Vec<Msg>, Fail>
    requires config { IsConfig config.now }
    requires routes { All (λ route. IsWhole OfFlows route.0) config.now.routes }
    ensures input { IfOk result (λ items. IsInput OfFlows config.now items.items) }
    ensures numbered { IfOk result (λ items. AreNumbered 1 (packets items.items)) }
{
    let mut items = Vec::new(alloc);
    items.push(came(alloc, config.site, packet(1, 1, 5000))?)?;
    items.push(Msg::InEnd)?;
    Ok(items)
}

/// A packet, a command about all units, and two more packets of the same flow.
fn three_packets(alloc: Global, config: &Config, asked: Asked) -> Result<Vec<Msg>, Fail>
    requires config { IsConfig config.now }
    requires routes { All (λ route. IsWhole OfFlows route.0) config.now.routes }
    ensures input { IfOk result (λ items. IsInput OfFlows config.now items.items) }
    ensures numbered { IfOk result (λ items. AreNumbered 1 (packets items.items)) }
{
    let mut items = Vec::new(alloc);
    items.push(came(alloc, config.site, packet(1, 1, 5000))?)?;
    items.push(command(alloc, 1, asked, b'b', Filter::ANY)?)?;
    items.push(Msg::InSettle)?;
    items.push(came(alloc, config.site, packet(2, 1, 5000))?)?;
    items.push(came(alloc, config.site, packet(3, 1, 5000))?)?;
    items.push(Msg::InEnd)?;
    Ok(items)
}

/// A share, and two packets each of a flow that its home serves and of one that the other member serves, in turn.
fn two_flows(alloc: Global, config: &Config) -> Result<Vec<Msg>, Fail>
    requires config { IsConfig config.now }
    requires routes { All (λ route. IsWhole OfFlows route.0) config.now.routes }
    ensures input { IfOk result (λ items. IsInput OfFlows config.now items.items) }
    ensures numbered { IfOk result (λ items. AreNumbered 1 (packets items.items)) }
{
    let mut items = Vec::new(alloc);
    items.push(command(alloc, 1, Asked::Share, b'b', Filter::ANY)?)?;
    items.push(Msg::InSettle)?;
    items.push(came(alloc, config.site, packet(1, 1, 5000))?)?;
    items.push(came(alloc, config.site, packet(2, 1, 5001))?)?;
    items.push(came(alloc, config.site, packet(3, 1, 5000))?)?;
    items.push(came(alloc, config.site, packet(4, 1, 5001))?)?;
    items.push(Msg::InEnd)?;
    Ok(items)
}

/// The items of an input.
fn items(alloc: Global, config: &Config, given: Given) -> Result<Vec<Msg>, Fail>
    requires config { IsConfig config.now }
    requires routes { All (λ route. IsWhole OfFlows route.0) config.now.routes }
    ensures input { IfOk result (λ items. IsInput OfFlows config.now items.items) }
    ensures numbered { IfOk result (λ items. AreNumbered 1 (packets items.items)) }
{
    match given {
        Given::OnePacket => one_packet(alloc, config),
        Given::ThreePackets(asked) => three_packets(alloc, config, asked),
        Given::TwoFlows => two_flows(alloc, config),
    }
}

/// The choices that two digits each spell: the node and its port.
fn choices(alloc: Global, digits: &str) -> Result<Choices, NoMemory> {
    let mut choices = Choices::open(alloc);
    for pair in digits.split(' ') {
        if let [node @ b'0'..=b'9', port @ b'0'..=b'9'] = pair.as_bytes() {
            choices.push(Choice {
                node: node - b'0',
                port: port - b'0',
            })?;
        }
    }
    Ok(choices)
}

/// The report where a fails after the first so many of these choices, and b takes over.
fn failover(
    alloc: Global,
    config: &Config,
    items: Vec<Msg>,
    digits: &str,
    after: u64,
) -> Result<Result<Text, AuditFault>, Fail>
    requires two { length config.now.names ≡ 2 }
    requires input { IsInput OfFlows config.now items.items }
    requires numbered { AreNumbered 1 (packets items.items) }
{
    let failing = Failing {
        failed: 0,
        to: 1,
        after,
    };
    let mut choices = choices(alloc, digits)?;
    let trace = packets_of(alloc, items.as_slice())?;
    let head = Head {
        kind: Kind::Conntrack,
        names: names(alloc)?,
        window: WINDOW,
        packets: u32::try_from(trace.items().len())?,
        skipped: 0,
        cut: false,
    };
    match promote::<Conntrack>(
        alloc,
        config,
        items,
        &mut choices,
        after,
        failing.failed,
        failing.to,
    ) {
        Ok(promoted) => {
            let (text, _table) = report_failover(alloc, &head, &failing, promoted, config, &trace)?;
            Ok(Ok(text))
        }
        Err(fault) => Ok(Err(fault)),
    }
}

/// The same in the run that is given this.
fn reported(
    alloc: Global,
    given: Given,
    digits: &str,
    after: u64,
) -> Result<Result<Text, AuditFault>, Fail> {
    let config = config(alloc, WINDOW, 9, false)?;
    let items = items(alloc, &config, given)?;
    failover(alloc, &config, items, digits, after)
}

/// The copy is done after the first packet, the second is processed, and the third has come.
const COPIED: &str = "00 20 02 00 10 21 12 31 13 01 00 00 20 00";

/// The packet has come and is processed.
const PROCESSED: &str = "00 20";

/// The source of a move has given its record and removed it, and the destination hasn't taken it.
const GIVEN: &str = "00 20 02 00 10 21 12 21 12 21 12";

/// The share is set up, and all four packets are processed.
const SHARED: &str =
    "00 10 01 20 12 21 12 31 13 01 00 00 10 01 20 12 31 13 02 00 10 01 30 13 21 12 03 00 10 01 20 12 31 13 02 00 10 01 30";

#[test]
fn each_failover_has_its_report(rt: HostRuntime) -> Result<(), Fail> {
    let rows: [(Given, &str, u64, u32, &str); 6] = [
        // A copy lags by one packet, and another is open.
        (
            Given::ThreePackets(Asked::Copy),
            COPIED,
            14,
            3,
            "promote udp 10.0.0.1:5000 192.0.2.9:53 to b single out packets 1 bytes 20\nlost 2\nopen 3\n\
             caught udp 10.0.0.1:5000 192.0.2.9:53 b single out packets 3 bytes 60\n",
        ),
        // A unit of which nothing stands by is gone.
        (
            Given::OnePacket,
            PROCESSED,
            2,
            1,
            "gone udp 10.0.0.1:5000 192.0.2.9:53\nlost 1\ncaught udp 10.0.0.1:5000 192.0.2.9:53 b single out packets 1 bytes 20\n",
        ),
        // Before the first choice nothing is affected, and a record on its way in a chunk isn't.
        (Given::OnePacket, PROCESSED, 0, 1, ""),
        (Given::ThreePackets(Asked::Move), GIVEN, 11, 3, ""),
        // The home of a share is ahead of its member, and then the member of its home.
        (
            Given::TwoFlows,
            SHARED,
            31,
            4,
            "promote udp 10.0.0.1:5000 192.0.2.9:53 to b single out packets 1 bytes 20\n\
             promote udp 10.0.0.1:5001 192.0.2.9:53 to b single out packets 1 bytes 20\nlost 3\n\
             caught udp 10.0.0.1:5000 192.0.2.9:53 b single out packets 2 bytes 40\n\
             caught udp 10.0.0.1:5001 192.0.2.9:53 b single out packets 1 bytes 20\n",
        ),
        (
            Given::TwoFlows,
            SHARED,
            39,
            4,
            "promote udp 10.0.0.1:5000 192.0.2.9:53 to b single out packets 2 bytes 40\n\
             promote udp 10.0.0.1:5001 192.0.2.9:53 to b single out packets 2 bytes 40\n\
             caught udp 10.0.0.1:5000 192.0.2.9:53 b single out packets 2 bytes 40\n\
             caught udp 10.0.0.1:5001 192.0.2.9:53 b single out packets 2 bytes 40\n",
        ),
    ];
    for (given, digits, after, count, lines) in rows {
        let text = reported(rt.alloc(), given, digits, after)??;
        let wanted = format!(in rt.alloc();
            "opennf failover 1\nfunction conntrack instances 2 window 8\ntrace packets {count} skipped 0 whole\nfail a after {after}\n{lines}end\n"
        )?;
        assert_eq!(rt; text.items(), wanted.as_bytes());
    }
    Ok(())
}

#[test]
fn the_step_is_told_at_which_choices_are_no_run(rt: HostRuntime) -> Result<(), Fail> {
    for (digits, after, step) in [("00 20", 3, 3), ("00 20", u64::MAX, 3), ("00 30 20", 3, 2)] {
        let fault = reported(rt.alloc(), Given::OnePacket, digits, after)?;
        assert_eq!(rt; fault.err(), Some(AuditFault::NotARun { step }));
    }
    Ok(())
}
