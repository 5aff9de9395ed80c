//! What is to be shared, and what a share sends to its members.
ghost use Rattle.std.specs.Prelude.{◌≡◌, ◌<◌, ◌∷◌, [], ◌++◌, OnOk, IfOk, All, length, ◌==◌};
ghost use Rattle.nf_msgs.specs.Nodes.{instance_node};
ghost use Rattle.copy_share.specs.Share.{home, member_for, member_of, on_shared, others, service_of, syncing, syncs};

use crate::share_phase::SharePhase;
use actor_net::Outbox;
use basics::NoMemory;
use event_filter::Mark;
use flow_filter::{Filter, Flow, Site, flow_of};
use nf_function::{Chunk, Chunks};
use nf_msgs::{MOST_INSTANCES, Msg, Note, SWITCH, instance_node};
use packet_pool::Cell;
use std::alloc::Global;
use std::marker::Model;

/// What is to be shared, and the calls that go over the members.
#[derive(Drop)]
pub(crate) struct Plan {
    pub(crate) op: u32,
    pub(crate) members: Vec<u8>,
    pub(crate) filter: Filter,
    pub(crate) site: Site,
    pub(crate) alloc: Global,
}

impl Model for Plan {
    ghost use Rattle.std.specs.Prelude.{◌<◌, All, length};
    ghost use Rattle.nf_msgs.specs.declared.nodes.TheConstants.{MOST_INSTANCES};
    ghost use Rattle.copy_share.specs.Share.{SharePlan};

    ghost Value = { SharePlan };

    ghost view = { λ p. record { op = p.op; members = p.members.items; filter = p.filter; site = p.site } };

    ghost invariant = { λ p. (0 < length p.members.items) × All (λ member. member < MOST_INSTANCES) p.members.items };
}

impl Plan {
    /// The packet is sent to its member.
    pub(crate) fn send_out(
        &self,
        parcel: Cell,
        out: &mut Outbox<Msg, Note>,
    ) -> Result<SharePhase, NoMemory>
        ensures phase { IfOk result (λ next. next ≡ (service_of self.now parcel []).phase) }
        ensures out { OnOk result (out.new ≡ (out.old.0 ++ (service_of self.now parcel []).sends, out.old.1)) }
    {
        let member = self.member_of(&parcel);
        let mark = Mark::Shared {
            op: self.op,
            home: member == self.home(),
        };
        let message = Msg::Forward {
            to: member,
            mark,
            parcel,
        };
        out.send(SWITCH, message)?;
        Ok(SharePhase::Out(member))
    }

    /// A member has processed the packet that is out at it. Its record goes to the other members.
    pub(crate) fn processed(
        &self,
        phase: SharePhase,
        sender: u8,
        chunk: Chunk,
        out: &mut Outbox<Msg, Note>,
    ) -> Result<SharePhase, NoMemory>
        ensures phase { IfOk result (λ next. next ≡ (on_shared self.now phase sender chunk).phase) }
        ensures out { OnOk result (out.new ≡ (out.old.0 ++ (on_shared self.now phase sender chunk).sends, out.old.1)) }
    {
        match phase {
            SharePhase::Out(member) if is_node_of(sender, member) => {
                let mut chunks = Chunks::open(self.alloc);
                chunks.push(chunk)?;
                let left = self.sync_others(member, chunks, out)?;
                Ok(syncing(left))
            }
            phase => Ok(phase),
        }
    }

    /// The chunks go to each member but for one. Gives how many these are.
    pub(crate) fn sync_others(
        &self,
        one: u8,
        chunks: Chunks,
        out: &mut Outbox<Msg, Note>,
    ) -> Result<usize, NoMemory>
        ensures count { IfOk result (λ count. count ≡ length (others self.now one)) }
        ensures out { OnOk result (out.new ≡ (out.old.0 ++ syncs self.now one chunks, out.old.1)) }
    {
        let mut others = self.others(one)?;
        let count = others.len();
        let Some(last) = others.pop() else {
            return Ok(count);
        };
        for member in others.as_slice() {
            self.sync(*member, chunks.copy()?, out)?;
        }
        self.sync(last, chunks, out)?;
        Ok(count)
    }

    /// The chunks go to a member.
    fn sync(&self, member: u8, chunks: Chunks, out: &mut Outbox<Msg, Note>) -> Result<(), NoMemory>
        requires { member < MOST_INSTANCES }
        ensures { OnOk result (out.new ≡ (out.old.0 ++ (instance_node member, Msg.Sync (member == home self.now) self.now.op chunks) ∷ [], out.old.1)) }
    {
        let message = Msg::Sync {
            home: member == self.home(),
            op: self.op,
            chunks,
        };
        out.send(instance_node(member), message)
    }

    /// The members but for one, in order.
    fn others(&self, one: u8) -> Result<Vec<u8>, NoMemory>
        ensures others { IfOk result (λ members. members.items ≡ others self.now one) }
        ensures within { IfOk result (λ members. All (λ member. member < MOST_INSTANCES) members.items) }
    {
        let mut others = Vec::new(self.alloc);
        for member in self.members.as_slice() {
            if *member != one {
                others.push(*member)?;
            }
        }
        Ok(others)
    }

    /// The member where the records are live.
    pub(crate) fn home(&self) -> u8
        ensures value { result ≡ home self.now }
        ensures within { result < MOST_INSTANCES }
    {
        self.members[0]
    }

    /// The member that a packet goes to.
    pub(crate) fn member_of(&self, parcel: &Cell) -> u8
        ensures value { result ≡ member_of self.now parcel.now }
        ensures within { result < MOST_INSTANCES }
    {
        let (flow, _direction) = flow_of(&self.site, parcel.packet());
        self.member_for(flow)
    }

    /// The member that a flow's packets go to.
    fn member_for(&self, flow: Flow) -> u8
        ensures value { result ≡ member_for self.now flow }
        ensures within { result < MOST_INSTANCES }
    {
        let sum = u64::from(flow.lport) + u64::from(flow.rport) + u64::from(flow.remote);
        let place = sum % self.members.len() as u64;
        self.members[place as usize]
    }
}

/// The phase in which so many members have yet to take the records after a packet.
pub(crate) fn syncing(left: usize) -> SharePhase
    ensures { result ≡ (syncing left []).phase }
{
    if left > 0 {
        return SharePhase::Syncing(left);
    }
    SharePhase::Idle
}

/// Whether a node is that of an instance.
fn is_node_of(node: u8, instance: u8) -> bool
    ensures { result ≡ (node == instance_node instance) }
{
    node.checked_sub(instance_node(0)) == Some(instance)
}
