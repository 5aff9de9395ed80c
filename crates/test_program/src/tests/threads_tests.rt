//! Tests of runs of the network by threads.
ghost use Rattle.std.specs.Prelude.{◌≡◌, ◌<◌, ◌≤◌, true, All, IfOk};
ghost use Rattle.flow_filter.specs.Limits.{most_window};
ghost use Rattle.nf_function.specs.Units.{is_transport};
ghost use Rattle.nf_function.specs.declared.kind.Kind.TheVariants.{Conntrack as OfFlows};
ghost use Rattle.trace_reader.specs.Records.{AreNumbered};
ghost use Rattle.opennf_calls.specs.net_world.specs.Input.{IsInput};

use actor_net::{Choices, World};
use actor_threads::OpenGate;
use command_words::instances::instances_of;
use conn_tracker::Conntrack;
use flow_filter::Text;
use nf_function::Kind;
use nf_msgs::{Msg, Note};
use op_script::{PacketItems, read_script};
use opennf_calls::{Config, Head, Node, Setting, audited, input_of, report, run_network};
use std::alloc::Global;
use std::sync::Wait;
use std::test::Fail;
use std::thread::Threads;
use test_core::meeting::Meeting;
use test_packets::{SITE, names, packet};

/// How many packets may be under way in the runs with moves: fewer than there are.
const WINDOW: u32 = 8;

/// So many UDP packets with numbers from 1, of the local port 5000 for even numbers and 5001 for odd ones.
fn packets(alloc: Global, count: u32) -> Result<PacketItems, Fail>
    requires { count < 2000 }
    ensures numbers { IfOk result (AreNumbered 1) }
    ensures steered { IfOk result (All (λ packet. is_transport packet.proto ≡ true)) }
{
    let mut packets = PacketItems::open(alloc);
    for number in 0..count {
        let next = packet(number + 1, 1, 5000 + ((number + 1) % 2) as u16);
        packets.push(alloc, &next)?;
    }
    Ok(packets)
}

/// What the instances a and b are given, by the text of a script.
fn given(alloc: Global, script: &[u8], count: u32, window: u32) -> Result<(Config, Vec<Msg>), Fail>
    requires count { count < 2000 }
    requires window { (1 ≤ window) × (window ≤ most_window) }
    ensures { IfOk result (λ given. IsInput OfFlows given.0 given.1.items) }
{
    let instances = instances_of(alloc, Some("a:9,b:9"))?.ok_or("no instances")?;
    let packets = packets(alloc, count)?;
    let names = instances.names(alloc)?;
    let script = read_script(alloc, script, Kind::Conntrack, names.items())?;
    let setting = Setting {
        kind: Kind::Conntrack,
        instances: &instances,
        site: SITE,
        window,
    };
    Ok(input_of(alloc, &setting, &script, packets)?)
}

/// The number of each packet as often as it was processed, the least first.
fn processed(alloc: Global, world: &World<Node<Conntrack>>) -> Result<Vec<u32>, Fail> {
    let mut numbers = Vec::new(alloc);
    for note in world.log() {
        if let Note::Processed { number, .. } = note {
            numbers.push(*number)?;
        }
    }
    numbers.sort()?;
    Ok(numbers)
}

/// Whether nothing is left to do after a run by threads with two moves, and these numbers of it.
fn run_processed<R: Threads + Wait + Sync>(
    rt: &R,
    alloc: Global,
) -> Result<(bool, Vec<u32>), Fail> {
    let (config, items) = given(alloc, MOVES.as_bytes(), 40, WINDOW)?;
    let (world, _choices) = run_network::<_, Conntrack, _>(rt, alloc, &config, items, &OpenGate)?;
    let numbers = processed(alloc, &world)?;
    Ok((world.complete(), numbers))
}

/// Some packets are under way when the move begins, and some come while it is open.
static MOVES: &str = "route any a\nat 9 move a b lport=5001 order\nat 20 move b a any lossfree\n";

#[test]
fn each_packet_of_two_moves_is_processed_once(rt: HostRuntime) -> Result<(), Fail> {
    let alloc = rt.alloc();
    let mut expected = Vec::new(alloc);
    for number in 0..40u32 {
        expected.push(number + 1)?;
    }
    for _ in 0..20 {
        let (complete, numbers) = run_processed(&rt, alloc)?;
        assert!(rt; complete);
        assert_eq!(rt; numbers.as_slice(), expected.as_slice());
    }
    Ok(())
}

/// What the report of a run of forty packets repeats.
fn head(alloc: Global) -> Result<Head, Fail> {
    Ok(Head {
        kind: Kind::Conntrack,
        names: names(alloc)?,
        window: WINDOW,
        packets: 40,
        skipped: 0,
        cut: false,
    })
}

/// The report of a run by threads, and its choices.
fn run_told<R: Threads + Wait + Sync>(rt: &R, alloc: Global) -> Result<(Text, Choices), Fail> {
    let (config, items) = given(alloc, MOVES.as_bytes(), 40, WINDOW)?;
    let (world, choices) = run_network::<_, Conntrack, _>(rt, alloc, &config, items, &OpenGate)?;
    let text = report::<Conntrack>(alloc, &head(alloc)?, &world, false)?;
    Ok((text, choices))
}

/// The report of the same run, by its choices alone.
fn audit_told(alloc: Global, choices: &Choices) -> Result<Text, Fail> {
    let (config, items) = given(alloc, MOVES.as_bytes(), 40, WINDOW)?;
    let text = audited::<Conntrack>(alloc, &config, items, &head(alloc)?, choices, false)?;
    Ok(text)
}

#[test]
fn the_choices_of_threads_are_audited_to_the_same_report(rt: HostRuntime) -> Result<(), Fail> {
    let (text, choices) = run_told(&rt, rt.alloc())?;
    let again = audit_told(rt.alloc(), &choices)?;
    assert_eq!(rt; text.items(), again.items());
    Ok(())
}

/// The nodes of the instances a and b.
const A: u8 = 2;

const B: u8 = 3;

/// How many choices a run by threads makes whose nodes pass a gate.
fn choices_through<R: Threads + Wait + Sync>(
    rt: &R,
    alloc: Global,
    gate: &Meeting,
) -> Result<u64, Fail> {
    let script = "route lport=5001 b\nroute any a\n";
    let (config, items) = given(alloc, script.as_bytes(), 1024, 64)?;
    let (_world, choices) = run_network::<_, Conntrack, _>(rt, alloc, &config, items, gate)?;
    Ok(choices.len() as u64)
}

#[test]
fn both_instances_are_in_a_pass_at_once(rt: HostRuntime) -> Result<(), Fail> {
    let gate = Meeting::open(A, B);
    let count = choices_through(&rt, rt.alloc(), &gate)?;
    assert!(rt; gate.met());
    assert_eq!(rt; gate.passes(), count);
    Ok(())
}
