ghost use Rattle.std.specs.Prelude.{◌≡◌, ◌≤◌, ◌+◌, ◌++◌, length, OnOk};
ghost use Rattle.flow_filter.specs.FilterText.{protocol_text};
ghost use Rattle.report_lines.specs.declared.line_front.TheConstants.{ROOM};
ghost use Rattle.report_lines.specs.declared.units.TheConstants.{LONGEST_END_POINT};
ghost use Rattle.report_lines.specs.Lines.{flow_text, unit_text};
ghost use Rattle.report_lines.specs.Pieces.{end_point_text};

use crate::line_front::{LONGEST_ADDRESS, LONGEST_NUMBER, LineFront};
use basics::{NoMemory, Text};
use flow_filter::{Flow, TCP};
use nf_function::Unit;

/// Room for an address and a port.
const LONGEST_END_POINT: usize = LONGEST_ADDRESS + 1 + LONGEST_NUMBER;

/// Puts a unit after a text: a flow as `tcp LOCAL:PORT REMOTE:PORT`, or a host's address.
pub fn push_unit(text: &mut Text, unit: &Unit) -> Result<(), NoMemory>
    ensures { OnOk result (text.new ≡ text.old ++ unit_text unit.now) }
{
    let mut front = LineFront::open();
    put_unit(&mut front, unit);
    text.push_bytes(front.bytes())
}

/// Puts a unit before a short text: a flow, or a host's address.
pub(crate) fn put_unit(front: &mut LineFront, unit: &Unit)
    requires { length front.old ≤ 1 }
    ensures { front.new ≡ unit_text unit.now ++ front.old }
{
    match unit {
        Unit::Flow(flow) => put_flow(front, flow),
        Unit::Host(host) => front.put_address(*host),
    }
}

/// Puts a flow before a short text, back to front: `tcp LOCAL:PORT REMOTE:PORT`.
#[tactic(auto, unfolding(crate::specs::Lines::flow_text))]
fn put_flow(front: &mut LineFront, flow: &Flow)
    requires { length front.old ≤ 1 }
    ensures { front.new ≡ flow_text flow.now ++ front.old }
{
    put_end(front, flow.remote, flow.rport);
    front.put_byte(b' ');
    put_end(front, flow.local, flow.lport);
    front.put_byte(b' ');
    put_protocol(front, flow.proto);
}

/// Puts an end of a flow before a text: `A.B.C.D:PORT`.
fn put_end(front: &mut LineFront, address: u32, port: u16)
    requires { length front.old + LONGEST_END_POINT ≤ ROOM }
    ensures text { front.new ≡ end_point_text address port ++ front.old }
    ensures room { length front.new ≤ length front.old + LONGEST_END_POINT }
{
    front.put_number(u32::from(port));
    front.put_byte(b':');
    front.put_address(address);
}

/// Puts the word of a protocol before a text, its last letter first: `tcp`, or `udp` for any other.
fn put_protocol(front: &mut LineFront, proto: u8)
    requires { length front.old + 3 ≤ ROOM }
    ensures { front.new ≡ protocol_text proto ++ front.old }
{
    front.put_byte(b'p');
    if proto == TCP {
        front.put_byte(b'c');
        front.put_byte(b't');
        return;
    }
    front.put_byte(b'd');
    front.put_byte(b'u');
}
