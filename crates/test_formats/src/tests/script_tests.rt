//! Tests of `op_script`: scripts that are read, printed, and laid between packets; and instances, packets and what is shown of them for other tests.
ghost use Rattle.std.specs.Prelude.{◌≡◌, ◌≤◌, ◌^◌, true, length, All, IfOk};
ghost use Rattle.std.specs.Option.{ForSome};
ghost use Rattle.flow_filter.specs.Filter.{IsFilter};
ghost use Rattle.nf_function.specs.Units.{is_transport};
ghost use Rattle.trace_reader.specs.Records.{AreNumbered};
ghost use Rattle.op_script.specs.LineFilters.{what_filter};

use basics::Text;
use flow_filter::Name;
use nf_function::Kind;
use nf_msgs::{Command, Msg, Order};
use op_script::{
    Line, PacketItems, Script, ScriptFault, ScriptKind, What, items, print_script, read_script,
};
use std::alloc::Global;
use std::test::Fail;
use test_packets::{names, packet, two_names};

/// The fault of a script, for the monitor and the instances `a` and `b`.
fn fault_of(alloc: Global, text: &[u8]) -> Result<Option<ScriptFault>, Fail> {
    let names = names(alloc)?;
    let read = read_script(alloc, text, Kind::Monitor, names.items());
    Ok(read.err())
}

/// Scripts, and the line and the rule at which each is refused.
static FAULTS: [(&str, u32, ScriptKind); 24] = [
    ("at 0 move a b rport=80 order", 1, ScriptKind::SplitsUnit),
    ("at 9 settle\nat 5 settle", 2, ScriptKind::Order),
    ("at 0 move a a any order", 1, ScriptKind::SameInstance),
    ("# all\n\n at 0 settle now", 3, ScriptKind::Word),
    ("at 07 settle", 1, ScriptKind::Word),
    ("at 4294967296 settle", 1, ScriptKind::Word),
    ("at 0 move a b any", 1, ScriptKind::Word),
    ("at 0 share a any strict", 1, ScriptKind::Word),
    ("at 0 share a, any strict", 1, ScriptKind::Name),
    ("at 0 share a,b,a any strict", 1, ScriptKind::SameInstance),
    ("at 0 settle\nroute any a", 2, ScriptKind::Order),
    ("route any c", 1, ScriptKind::Name),
    ("route local=1 a", 1, ScriptKind::Filter),
    ("at 0 copy a B any", 1, ScriptKind::Name),
    ("at 0 copy a a lport=x", 1, ScriptKind::SameInstance),
    ("at 0 copy a b lport=x", 1, ScriptKind::Filter),
    ("at 0 copy a b lport=1", 1, ScriptKind::SplitsUnit),
    ("move a b any order", 1, ScriptKind::Word),
    (
        "at 0 settle\nat 0 stop\nat 0 move a a any order",
        2,
        ScriptKind::Word,
    ),
    ("at 2 settle\nat 1 copy B B lport=x", 2, ScriptKind::Order),
    ("at 0 copy B B lport=x", 1, ScriptKind::Name),
    ("at 0 settle\nroute lport=x c", 2, ScriptKind::Order),
    ("route lport=x c", 1, ScriptKind::Name),
    (
        "at 0 share a,b,a lport=x strict",
        1,
        ScriptKind::SameInstance,
    ),
];

#[test]
fn the_first_line_that_breaks_a_rule_is_refused(rt: HostRuntime) -> Result<(), Fail> {
    for (text, line, kind) in FAULTS.as_slice() {
        let found = fault_of(rt.alloc(), text.as_bytes())?;
        let expected = ScriptFault::Bad {
            line: *line,
            kind: *kind,
        };
        assert_eq!(rt; found, Some(expected), "{text}");
    }
    Ok(())
}

#[test]
fn the_canonical_text_has_one_space_between_words(rt: HostRuntime) -> Result<(), Fail> {
    let text =
        b"# x\nroute  local=10.0.0.9 b\nat 1 move a b rport=80,proto=tcp order\nat 1\tcopy b a all\nat 2 share b,a any strict\nat 2 settle";
    let names = names(rt.alloc())?;
    let printed = canonical(rt.alloc(), text, names.items())?;
    let expected =
        b"route local=10.0.0.9/32 b\nat 1 move a b proto=tcp,rport=80 order\nat 1 copy b a all\nat 2 share b,a any strict\nat 2 settle\n";
    assert_eq!(rt; printed.items(), expected.as_slice());
    Ok(())
}

/// The canonical text of a script for the connection tracker.
fn canonical(alloc: Global, text: &[u8], names: &[Name]) -> Result<Text, Fail>
    requires { length names.now ≤ 2 ^ 8 }
{
    let script = read_script(alloc, text, Kind::Conntrack, names)?;
    Ok(print_script(alloc, &script, names)?)
}

#[test]
fn lines_in_any_order_stand_after_their_packets(rt: HostRuntime) -> Result<(), Fail> {
    let input = between_packets(rt.alloc(), two_packets(rt.alloc())?)?;
    let (kinds, _numbers) = shown(rt.alloc(), input.as_slice())?;
    assert_eq!(rt; kinds.as_slice(), b"cpscpsce".as_slice());
    Ok(())
}

/// The input of packets and of lines that don't stand in the order of their points.
fn between_packets(alloc: Global, packets: PacketItems) -> Result<Vec<Msg>, Fail> {
    let mut script = Script {
        routes: Vec::new(alloc),
        lines: Vec::new(alloc),
    };
    push_lines(alloc, &mut script.lines)?;
    Ok(items(alloc, packets, &script)?)
}

/// Puts lines that don't stand in the order of their points after others.
fn push_lines(alloc: Global, lines: &mut Vec<Line>) -> Result<(), Fail> {
    for (at, op) in [(1, 0), (0, 1), (9, 0), (1, 2), (7, 3)] {
        let what = what_of(alloc, op)?;
        lines.push(Line { at, what })?;
    }
    Ok(())
}

/// A settle where the number is 0, and else a copy with this number.
fn what_of(alloc: Global, op: u32) -> Result<What, Fail>
    ensures { IfOk result (λ what. ForSome (what_filter what) IsFilter) }
{
    if op == 0 {
        return Ok(What::Settle);
    }
    let (src, dst) = two_names(alloc, b'b')?;
    let what = Order::Copy {
        src,
        dst,
        filter: None,
    };
    Ok(What::Command(Command { op, what }))
}

/// A letter for each message, and the number of each command.
pub(crate) fn shown(alloc: Global, input: &[Msg]) -> Result<(Vec<u8>, Vec<u32>), Fail> {
    let mut kinds = Vec::new(alloc);
    let mut numbers = Vec::new(alloc);
    for msg in input {
        let kind = match msg {
            Msg::InPacket(_) => b'p',
            Msg::InCommand(command) => {
                numbers.push(command.get().op)?;
                b'c'
            }
            Msg::InSettle => b's',
            Msg::InEnd => b'e',
            _ => b'?',
        };
        kinds.push(kind)?;
    }
    Ok((kinds, numbers))
}

/// A trace of two packets.
pub(crate) fn two_packets(alloc: Global) -> Result<PacketItems, Fail>
    ensures numbers { IfOk result (AreNumbered 1) }
    ensures steered { IfOk result (All (λ packet. is_transport packet.proto ≡ true)) }
{
    let mut trace = PacketItems::open(alloc);
    trace.push(alloc, &packet(1, 1, 5000))?;
    trace.push(alloc, &packet(2, 1, 5000))?;
    Ok(trace)
}
