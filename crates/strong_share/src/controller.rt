//! The controller of strong sharing: it queues the packets that members raise, and serves them one at a time.
ghost use Rattle.std.specs.Prelude.{◌≡◌, ◌≤◌, ◌<◌, [], ◌∷◌, ◌++◌, IfSome, OnOk};
ghost use Rattle.strong_share.specs.Tables.{all_stopped, controller_step, is_idle, member_at, on_event, on_final};
ghost use Rattle.strong_share.specs.Tables.{serve_step, shared_row, sync_to, synced_row, syncs};

use crate::note::StrongNote;
use crate::queued_packet::QueuedPacket;
use crate::serving::Serving;
use actor_net::Outbox;
use basics::{NoMemory, TryCopy};
use event_filter::Mark;
use instance_worker::number::InstanceNumber;
use nf_function::{Chunk, Chunks};
use nf_msgs::{MOST_INSTANCES, Msg, SWITCH, instance_node};
use packet_pool::Cell;
use std::alloc::Global;
use std::collections::VecDeque;
use std::marker::Model;

/// The number of the one operation of strong sharing.
pub const THE_SHARE: u32 = 1;

/// The controller of strong sharing.
#[derive(Drop)]
pub struct StrongCtrl {
    members: u8,
    queue: VecDeque<QueuedPacket>,
    serving: Serving,
    /// How many members have stopped.
    finals: u8,
    alloc: Global,
}

impl Model for StrongCtrl {
    ghost use Rattle.std.specs.Prelude.{◌≤◌};
    ghost use Rattle.nf_msgs.specs.declared.nodes.TheConstants.{MOST_INSTANCES};
    ghost use Rattle.strong_share.specs.Parts.{ControllerState};

    ghost Value = { ControllerState };

    ghost view = { λ c. record {
      members = c.members;
      queue = c.queue.items;
      serving = c.serving;
      finals = c.finals;
    } };

    ghost invariant = { λ c. (1 ≤ c.members) × (c.members ≤ MOST_INSTANCES) };
}

impl StrongCtrl {
    /// A controller with nothing queued. This takes no memory.
    pub(crate) fn open(alloc: Global, members: u8) -> Self
        requires { (1 ≤ members) × (members ≤ MOST_INSTANCES) }
        ensures { result ≡ record { members = members; queue = []; serving = Serving.Idle; finals = 0 } }
    {
        StrongCtrl {
            members,
            queue: VecDeque::new(alloc),
            serving: Serving::Idle,
            finals: 0,
            alloc,
        }
    }

    /// Whether each member has stopped, nothing is queued and no packet is out.
    pub(crate) fn ended(&self) -> bool
        ensures { result ≡ all_stopped self.now }
    {
        self.finals == self.members && self.queue.is_empty() && self.is_idle()
    }

    /// Whether no packet is out.
    fn is_idle(&self) -> bool
        ensures { result ≡ is_idle self.now.serving }
    {
        matches!(self.serving, Serving::Idle)
    }

    /// Takes a message from a port: its row of the table.
    pub(crate) fn step(
        &mut self,
        port: u8,
        message: Msg,
        out: &mut Outbox<Msg, StrongNote>,
    ) -> Result<(), NoMemory>
        ensures node { OnOk result (self.new ≡ (controller_step self.old port message).node) }
        ensures sends { OnOk result (out.new.0 ≡ out.old.0 ++ (controller_step self.old port message).sends) }
        ensures notes { OnOk result (out.new.1 ≡ out.old.1 ++ (controller_step self.old port message).notes) }
    {
        match (self.member_at(port), message) {
            (Some(member), Msg::Event { parcel, .. }) => self.queue_up(member, parcel, out),
            (Some(member), Msg::Shared { chunk, .. }) => {
                self.spread(member, chunk.into_inner(), out)
            }
            (Some(_), Msg::Synced { .. }) => self.count_synced(out),
            (Some(_), Msg::Final) => {
                self.count_final();
                Ok(())
            }
            // The switch says that the input has ended: all members are to stop.
            (None, Msg::End) => out.send(SWITCH, Msg::Finish),
            (_, message) => {
                drop(message);
                Ok(())
            }
        }
    }

    /// The member that a port is the link from.
    fn member_at(&self, port: u8) -> Option<u8>
        ensures value { result ≡ member_at self.now port }
        ensures within { IfSome result (λ member. member < MOST_INSTANCES) }
    {
        if port < 2 {
            return None;
        }
        let member = port - 2;
        if member < self.members {
            Some(member)
        } else {
            None
        }
    }

    /// Puts a packet that a member raised after those that wait.
    fn queue_up(
        &mut self,
        member: u8,
        cell: Cell,
        out: &mut Outbox<Msg, StrongNote>,
    ) -> Result<(), NoMemory>
        requires { member < MOST_INSTANCES }
        ensures node { OnOk result (self.new ≡ (on_event self.old member cell).node) }
        ensures sends { OnOk result (out.new.0 ≡ out.old.0 ++ (on_event self.old member cell).sends) }
        ensures notes { OnOk result (out.new.1 ≡ out.old.1 ++ (on_event self.old member cell).notes) }
    {
        let number = cell.packet().number;
        let raised = QueuedPacket {
            cell,
            member: InstanceNumber::new(member),
        };
        self.queue.push_back(raised)?;
        out.note(StrongNote::Queued { number, member })?;
        self.serve(out)
    }

    /// Serves the front of the queue, where no packet is out.
    fn serve(&mut self, out: &mut Outbox<Msg, StrongNote>) -> Result<(), NoMemory>
        ensures node { OnOk result (self.new ≡ (serve_step self.old).node) }
        ensures sends { OnOk result (out.new.0 ≡ out.old.0 ++ (serve_step self.old).sends) }
        ensures notes { OnOk result (out.new.1 ≡ out.old.1) }
    {
        let Serving::Idle = self.serving else {
            return Ok(());
        };
        let Some(front) = self.queue.pop_front() else {
            return Ok(());
        };
        let member = front.member.get();
        self.serving = Serving::Out(member);
        let mark = Mark::Shared {
            op: THE_SHARE,
            home: member == 0,
        };
        let message = Msg::Carry {
            mark,
            parcel: front.cell,
        };
        out.send(instance_node(member), message)
    }

    /// The packet that is out is processed: the record of its unit goes to each other member.
    fn spread(
        &mut self,
        member: u8,
        chunk: Chunk,
        out: &mut Outbox<Msg, StrongNote>,
    ) -> Result<(), NoMemory>
        ensures node { OnOk result (self.new ≡ (shared_row self.old self.old.serving member chunk).node) }
        ensures sends { OnOk result (out.new.0 ≡ out.old.0 ++ (shared_row self.old self.old.serving member chunk).sends) }
        ensures notes { OnOk result (out.new.1 ≡ out.old.1) }
    {
        let Serving::Out(at) = self.serving else {
            return Ok(());
        };
        if at != member {
            return Ok(());
        }
        self.serving = Serving::Syncing(self.members - 1);
        self.sync_others(member, &chunk, out)
    }

    /// Sends a chunk to each member but for one, in order.
    fn sync_others(
        &self,
        one: u8,
        chunk: &Chunk,
        out: &mut Outbox<Msg, StrongNote>,
    ) -> Result<(), NoMemory>
        ensures { OnOk result (out.new ≡ (out.old.0 ++ syncs self.now.members one chunk.now, out.old.1)) }
    {
        for member in 0..self.members {
            if member != one {
                self.sync(member, chunk, out)?;
            }
        }
        Ok(())
    }

    /// Sends a chunk to a member.
    fn sync(
        &self,
        member: u8,
        chunk: &Chunk,
        out: &mut Outbox<Msg, StrongNote>,
    ) -> Result<(), NoMemory>
        requires { member < MOST_INSTANCES }
        ensures { OnOk result (out.new ≡ (out.old.0 ++ sync_to chunk.now member ∷ [], out.old.1)) }
    {
        let copy = chunk.copy()?;
        let mut chunks = Chunks::open(self.alloc);
        chunks.push(copy)?;
        let home = member == 0;
        let op = THE_SHARE;
        let message = Msg::Sync { home, op, chunks };
        out.send(instance_node(member), message)
    }

    /// A member has taken the record. Where all have, the next packet is served.
    fn count_synced(&mut self, out: &mut Outbox<Msg, StrongNote>) -> Result<(), NoMemory>
        ensures node { OnOk result (self.new ≡ (synced_row self.old self.old.serving).node) }
        ensures sends { OnOk result (out.new.0 ≡ out.old.0 ++ (synced_row self.old self.old.serving).sends) }
        ensures notes { OnOk result (out.new.1 ≡ out.old.1) }
    {
        let Serving::Syncing(left) = self.serving else {
            return Ok(());
        };
        if left > 1 {
            self.serving = Serving::Syncing(left - 1);
            return Ok(());
        }
        self.serving = Serving::Idle;
        self.serve(out)
    }

    /// A member has stopped.
    fn count_final(&mut self)
        ensures { self.new ≡ (on_final self.old).node }
    {
        if self.finals < self.members {
            self.finals += 1;
        }
    }
}
