//! The start of strong sharing: its world, its nodes and its input.
ghost use Rattle.std.specs.Prelude.{◌≡◌, ◌<◌, ◌≤◌, [], ◌++◌, IfOk, OnOk};
ghost use Rattle.nf_msgs.specs.declared.nodes.TheConstants.{MOST_INSTANCES as MOST};
ghost use Rattle.strong_share.specs.Start.{IsStrongJob, first_members, first_nodes, input_of, job_of, member_at_start, strong_start};

use crate::controller::{StrongCtrl, THE_SHARE};
use crate::member::Member;
use crate::node::StrongNode;
use crate::switch::StrongSwitch;
use actor_net::World;
use basics::NoMemory;
use event_filter::Action;
use flow_filter::{Filter, Packets, Site};
use instance_worker::Instance;
use nf_function::Function;
use nf_msgs::Msg;
use std::alloc::Global;
use std::collections::VecDeque;
use switch_node::switch::MOST_WINDOW;

/// How many records a member takes: as many as there can be, so that it refuses none.
const MEMBER_LIMIT: u32 = 1_000_000;

/// The world of strong sharing in which nothing has happened yet: so many members share the units that a filter takes, and these packets are to come.
pub fn start<F: Function>(
    alloc: Global,
    site: Site,
    window: u32,
    members: u8,
    filter: Filter,
    packets: Packets,
) -> Result<World<StrongNode<F>>, NoMemory>
    requires { IsStrongJob F.semantics.kind (job_of site window members filter packets) }
    ensures { IfOk result (λ world. world ≡ strong_start alloc (job_of site window members filter packets)) }
{
    let items = input_of(alloc, packets)?;
    let nodes = first_nodes::<F>(alloc, site, window, members, filter)?;
    World::start(alloc, nodes, items)
}

/// The nodes: the switch, the controller, and the members in order.
fn first_nodes<F: Function>(
    alloc: Global,
    site: Site,
    window: u32,
    members: u8,
    filter: Filter,
) -> Result<Vec<StrongNode<F>>, NoMemory>
    requires window { (1 ≤ window) × (window ≤ MOST_WINDOW) }
    requires members { (1 ≤ members) × (members ≤ MOST) }
    ensures { IfOk result (λ nodes. nodes.items ≡ first_nodes alloc (job_of site window members filter [])) }
{
    let switch = StrongSwitch::open(alloc, window, members, filter, site);
    let controller = StrongCtrl::open(alloc, members);
    let first = [StrongNode::Switch(switch), StrongNode::Ctrl(controller)];
    let mut nodes = Vec::from_array(alloc, first)?;
    push_members(alloc, &mut nodes, members, filter, site)?;
    Ok(nodes)
}

/// Puts so many members after the nodes, in order.
fn push_members<F: Function>(
    alloc: Global,
    nodes: &mut Vec<StrongNode<F>>,
    members: u8,
    filter: Filter,
    site: Site,
) -> Result<(), NoMemory>
    requires { members ≤ MOST }
    ensures { OnOk result (nodes.new.items ≡ nodes.old.items ++ first_members alloc (job_of site 1 members filter []) members) }
{
    for index in 0..members {
        let member = first_member(alloc, index, filter, site)?;
        nodes.push(StrongNode::Instance(member))?;
    }
    Ok(())
}

/// A member: an instance without records, which raises the filter's packets.
fn first_member<F: Function>(
    alloc: Global,
    index: u8,
    filter: Filter,
    site: Site,
) -> Result<Member<F>, NoMemory>
    requires { index < MOST }
    ensures { IfOk result (λ member. member ≡ member_at_start alloc filter site index) }
{
    let mut member = Instance::open(alloc, index, MEMBER_LIMIT, false, site);
    match member.enable(THE_SHARE, filter, Action::Drop) {
        Ok(()) => Ok(Member::of(member)),
        Err(error) => {
            drop(member);
            Err(error)
        }
    }
}

/// The input: all packets, and then the end.
fn input_of(alloc: Global, packets: Packets) -> Result<Vec<Msg>, NoMemory>
    ensures { IfOk result (λ items. items.items ≡ input_of packets) }
{
    let mut items = Vec::new(alloc);
    let mut left = VecDeque::from_vec(packets.into_vec());
    while let Some(packet) = left.pop_front() {
        items.push(Msg::InPacket(packet))?;
    }
    items.push(Msg::InEnd)?;
    Ok(items)
}
