//! The input of a run: packets and the lines of a script, each line at its point.
ghost use Rattle.std.specs.Prelude.{◌≡◌, ◌<◌, ◌≤◌, ◌^◌, ◌∷◌, [], ◌++◌, ◌==◌, nat_le, length, map, All, IfOk, OnOk};
ghost use Rattle.std.specs.List.{list_all, prefix_len};
ghost use Rattle.op_script.specs.Items.{msg_of, said_where, items_from, AreLinesFrom, items};
ghost use Rattle.flow_filter.specs.Packet.{IsInRange};

use crate::packet_items::PacketItems;
use crate::script::{Line, Script, What};
use basics::{Boxed, NoMemory, TryCopy};
use nf_msgs::Msg;
use std::alloc::Global;
use std::collections::VecDeque;
use std::mem;

/// The input of a run: the packets in order, and each line of the script after the packet that it names, or after
/// the last of a shorter trace; and then the end.
pub fn items(alloc: Global, packets: PacketItems, script: &Script) -> Result<Vec<Msg>, NoMemory>
    ensures items { IfOk result (λ found. found.items ≡ items packets script.now.lines.items) }
    // As many packets as memory holds.
    ensures few { length packets < 2 ^ 64 }
    ensures in_range { All IsInRange packets }
{
    let lines = script.lines.as_slice();
    let count = packets.items().len() as u64;
    let mut out = with_lines(alloc, packets, lines)?;
    push_from(alloc, &mut out, lines, count)?;
    out.push(Msg::InEnd)?;
    Ok(out)
}

/// The packets, and the lines before them. Where there are none, no packet is moved; else those after the first line go on by as many places
/// as lines stand before them, in the room that they have.
fn with_lines(alloc: Global, packets: PacketItems, lines: &[Line]) -> Result<Vec<Msg>, NoMemory>
    ensures { IfOk result (λ out. out.items ++ said_where (λ at. nat_le (length packets) at) lines.now ≡ items_from 0 packets lines.now) }
{
    let count = packets.items().len();
    if stand_after(lines, count as u64) {
        return Ok(packets.into_items());
    }
    let ordered = in_order(alloc, lines)?;
    let mut rest = ordered.as_slice();
    let mut out = packets.into_items();
    // What is to stand at the next places, once a line has taken one.
    let mut late = VecDeque::new(alloc);
    for place in 0..count {
        let here = count_at(rest, place as u64);
        push_lines(alloc, &mut late, &rest[..here])?;
        rest = &rest[here..];
        put_late(&mut out[place], &mut late);
    }
    out.append(&mut late.into_vec())?;
    Ok(out)
}

/// Gives the item's place to the first that is late, if any is. The item is then the last that is late.
#[inline(always)]
fn put_late(item: &mut Msg, late: &mut VecDeque<Msg>)
    ensures { item.new ∷ late.new.items ≡ late.old.items ++ item.old ∷ [] }
{
    if let Some(first) = late.pop_front() {
        late.push_back_reserved(mem::replace(item, first));
    }
}

/// Whether all lines stand at this point or after it.
fn stand_after(lines: &[Line], point: u64) -> bool
    ensures { result ≡ list_all (λ line. nat_le point line.at) lines.now }
{
    lines.iter().all(|line| point <= u64::from(line.at))
}

/// The lines in the order of their points, those of one point in file order.
fn in_order<'a>(alloc: Global, lines: &'a [Line]) -> Result<Vec<&'a Line>, NoMemory>
    ensures { IfOk result (λ found. AreLinesFrom 0 (map (λ line. line.now) found.items) lines.entry.now) }
{
    let mut found: Vec<&Line> = lines.iter().collect(alloc)?;
    found.sort_by_key(|line| line.at)?;
    Ok(found)
}

/// How many of the first lines stand at a point.
fn count_at(lines: &[&Line], point: u64) -> usize
    ensures count { result ≡ prefix_len (λ line. line.at == point) (map (λ line. line.now) lines.now) }
    ensures within { result ≤ length lines.now }
{
    lines
        .iter()
        .take_while(|line| u64::from(line.at) == point)
        .count()
}

/// Appends the messages of lines.
fn push_lines(alloc: Global, late: &mut VecDeque<Msg>, lines: &[&Line]) -> Result<(), NoMemory>
    ensures { OnOk result (late.new.items ≡ late.old.items ++ map (λ line. msg_of line.now.what) lines.now) }
{
    for line in lines {
        late.push_back(msg_of(alloc, &line.what)?)?;
    }
    Ok(())
}

/// Appends the messages of the lines from a point on.
fn push_from(alloc: Global, out: &mut Vec<Msg>, lines: &[Line], point: u64) -> Result<(), NoMemory>
    ensures { OnOk result (out.new.items ≡ out.old.items ++ said_where (λ at. nat_le point at) lines.now) }
{
    for line in lines {
        if point <= u64::from(line.at) {
            out.push(msg_of(alloc, &line.what)?)?;
        }
    }
    Ok(())
}

/// The message of what happens.
fn msg_of(alloc: Global, what: &What) -> Result<Msg, NoMemory>
    ensures { IfOk result (λ msg. msg ≡ msg_of what.now) }
{
    match what {
        What::Command(command) => Ok(Msg::InCommand(Boxed::new(alloc, command.copy()?)?)),
        What::Settle => Ok(Msg::InSettle),
    }
}
