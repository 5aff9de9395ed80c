//! The start of an update: its world, its nodes and its input.
ghost use Rattle.std.specs.Prelude.{◌≡◌, ◌≤◌, [], ◌++◌, map, take, drop, IfOk, OnOk};
ghost use Rattle.two_phase.specs.declared.msg.TwoMsg.TheVariants.{InPacket as APacket};
ghost use Rattle.two_phase.specs.Start.{IsUpdateJob, first_nodes, input_at, two_start};

use crate::controller::TwoCtrl;
use crate::msg::TwoMsg;
use crate::node::TwoNode;
use crate::roles::{DESTINATION, SOURCE};
use crate::switch::TwoSwitch;
use actor_net::World;
use basics::NoMemory;
use flow_filter::{CapturedPacket, Filter, Packets, Site};
use instance_worker::Instance;
use nf_function::Function;
use std::alloc::Global;
use std::collections::VecDeque;
use switch_node::switch::MOST_WINDOW;

/// So many records an instance takes, which no update comes near.
const MOST_RECORDS: u32 = 1_000_000;

/// The world of an update in which nothing has happened yet: the units that a filter takes are to go from the source to the destination, as soon as
/// the switch has taken so many of these packets in, or all of them where there are fewer.
pub fn start<F: Function>(
    alloc: Global,
    site: Site,
    window: u32,
    filter: Filter,
    at: u32,
    packets: Packets,
) -> Result<World<TwoNode<F>>, NoMemory>
    requires { IsUpdateJob F.semantics.kind (record { site = site; window = window; filter = filter; at = at; packets = packets }) }
    ensures { IfOk result (λ world. world ≡ two_start alloc (record { site = site; window = window; filter = filter; at = at; packets = packets })) }
{
    let items = input_at(alloc, at, packets)?;
    let nodes = first_nodes::<F>(alloc, site, window, filter)?;
    World::start(alloc, nodes, items)
}

/// The nodes: the switch, the controller, the source and the destination.
fn first_nodes<F: Function>(
    alloc: Global,
    site: Site,
    window: u32,
    filter: Filter,
) -> Result<Vec<TwoNode<F>>, NoMemory>
    requires { (1 ≤ window) × (window ≤ MOST_WINDOW) }
    ensures { IfOk result (λ nodes. nodes.items ≡ first_nodes alloc (record { site = site; window = window; filter = filter; at = 0; packets = [] })) }
{
    let switch = TwoSwitch::open(alloc, window, filter, site)?;
    let controller = TwoCtrl::open(alloc, filter);
    let source = Instance::open(alloc, SOURCE, MOST_RECORDS, false, site);
    let destination = Instance::open(alloc, DESTINATION, MOST_RECORDS, false, site);
    let nodes = [
        TwoNode::Switch(switch),
        TwoNode::Ctrl(controller),
        TwoNode::Instance(source),
        TwoNode::Instance(destination),
    ];
    Ok(Vec::from_array(alloc, nodes)?)
}

/// The input: so many packets, the start, the other packets, and the end.
fn input_at(alloc: Global, at: u32, packets: Packets) -> Result<Vec<TwoMsg>, NoMemory>
    ensures { IfOk result (λ items. items.items ≡ input_at at packets) }
{
    let mut items = Vec::new(alloc);
    let mut left = VecDeque::from_vec(packets.into_vec());
    push_input(&mut items, &mut left, at as usize)?;
    Ok(items)
}

/// Moves the packets to the end of the input, with the start after so many, and puts the end behind them.
fn push_input(
    items: &mut Vec<TwoMsg>,
    left: &mut VecDeque<CapturedPacket>,
    at: usize,
) -> Result<(), NoMemory>
    ensures { OnOk result (items.new.items ≡ items.old.items ++ input_at at left.old.items) }
{
    push_packets(items, left, at)?;
    items.push(TwoMsg::InStart)?;
    let rest = left.len();
    push_packets(items, left, rest)?;
    Ok(items.push(TwoMsg::InEnd)?)
}

/// Moves so many packets to the end of the input, or all where there are fewer.
fn push_packets(
    items: &mut Vec<TwoMsg>,
    left: &mut VecDeque<CapturedPacket>,
    most: usize,
) -> Result<(), NoMemory>
    ensures items { OnOk result (items.new.items ≡ items.old.items ++ map APacket (take most left.old.items)) }
    ensures left { OnOk result (left.new.items ≡ drop most left.old.items) }
{
    for _count in 0..most {
        let Some(packet) = left.pop_front() else {
            break;
        };
        items.push(TwoMsg::InPacket(packet))?;
    }
    Ok(())
}
