//! What tests of the network are given: a network of two instances, and items of its input.
//!
//! They stand in a crate of their own, below all tests that use them. This crate touches nothing but memory.
#![tactic(auto)]

ghost use Rattle.std.specs.Prelude.{◌≡◌, ◌≤◌, true, length, All, IfOk};
ghost use Rattle.flow_filter.specs.Filter.{IsFlow};
ghost use Rattle.nf_function.specs.Units.{is_transport};
ghost use Rattle.nf_function.specs.declared.kind.Kind.TheVariants.{Conntrack as OfFlows};
ghost use Rattle.nf_msgs.specs.declared.command.Order.{Order as AnOrder};
ghost use Rattle.net_world.specs.Input.{IsProper, IsSteered, IsWhole};
ghost use Rattle.net_world.specs.Start.{IsConfig};
ghost use Rattle.switch_node.specs.declared.switch.TheConstants.{MOST_WINDOW};

use basics::{Boxed, NoMemory};
use flow_filter::{CapturedPacket, Filter, Flow, Packet, Sequence, Site, flow_of};
use net_world::Config;
use nf_msgs::{Command, Msg, Names, Order};
use std::alloc::Global;
use std::test::Fail;
use test_packets::{SITE, names, two_names};

/// A network of the instances a and b in which all flows go to a at first, with a window, and with the limit and the mark of b.
pub fn config(alloc: Global, window: u32, limit: u32, marked: bool) -> Result<Config, Fail>
    requires { (1 ≤ window) × (window ≤ MOST_WINDOW) }
    ensures config { IfOk result IsConfig }
    ensures two { IfOk result (λ config. length config.names ≡ 2) }
    ensures routes { IfOk result (λ config. All (λ route. IsWhole OfFlows route.0) config.routes) }
{
    Ok(Config {
        names: names(alloc)?,
        limits: Sequence::from_vec(Vec::from_array(alloc, [9, limit])?),
        marked: Sequence::from_vec(Vec::from_array(alloc, [false, marked])?),
        site: SITE,
        window,
        routes: Sequence::from_vec(Vec::from_array(alloc, [(Filter::ANY, 0)])?),
    })
}

/// The item of a packet of TCP or UDP.
pub fn came(alloc: Global, site: Site, packet: Packet) -> Result<Msg, NoMemory>
    requires { is_transport packet.proto ≡ true }
    ensures { IfOk result (λ item. (item ≡ Msg.InPacket packet) × IsSteered site packet) }
{
    Ok(Msg::InPacket(captured(alloc, site, packet)?))
}

/// A packet of TCP or UDP as it waits for its turn.
pub fn captured(alloc: Global, site: Site, packet: Packet) -> Result<CapturedPacket, NoMemory>
    requires { is_transport packet.proto ≡ true }
    ensures { IfOk result (λ captured. (captured ≡ packet) × IsSteered site packet) }
{
    let (flow, _direction) = flow_of(&site, &packet);
    is_flow(flow);
    CapturedPacket::of(alloc, &packet)
}

/// The numbers of a flow are within their types.
fn is_flow(_flow: Flow)
    ensures { IsFlow _flow }
{}

/// What a command asks of the units of a filter.
#[derive(Clone, Copy)]
pub enum Asked {
    /// Their records are copied.
    Copy,
    /// They move, and their packets keep their order.
    Move,
    /// They are shared, with the first instance as their home.
    Share,
}

/// The item of the command with this number, which asks something of a and of the instance with another letter.
pub fn command(alloc: Global, op: u32, asked: Asked, other: u8, filter: Filter) -> Result<Msg, Fail>
    requires { IsWhole OfFlows filter }
    ensures { IfOk result (λ item. (what : AnOrder) × (item ≡ Msg.InCommand (record { op = op; what = what })) × IsProper OfFlows what) }
{
    let (src, dst) = two_names(alloc, other)?;
    if src.items() == dst.items() {
        return Err("one instance alone".into());
    }
    let what = match asked {
        Asked::Copy => Order::Copy {
            src,
            dst,
            filter: Some(filter),
        },
        Asked::Move => Order::Move {
            src,
            dst,
            filter,
            keep: true,
        },
        Asked::Share => Order::Share {
            members: Names::from_vec(Vec::from_array(alloc, [src, dst])?),
            filter,
        },
    };
    Ok(Msg::InCommand(Boxed::new(alloc, Command { op, what })?))
}
