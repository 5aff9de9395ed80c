//! What the controller of an update does until the state is moved.
ghost use Rattle.std.specs.Prelude.{◌≡◌, ◌<◌, [], ◌∷◌, ◌++◌, OnOk};
ghost use Rattle.nf_msgs.specs.Nodes.{instance_node};
ghost use Rattle.two_phase.specs.Tables.{forward_messages, is_storing, on_chunks, on_deleted};
ghost use Rattle.two_phase.specs.Tables.{on_enabled, on_event, on_restored, on_start, the_update};

use crate::controller::TwoCtrl;
use crate::msg::TwoMsg;
use crate::note::TwoNote;
use crate::phase::Phase;
use crate::roles::{DESTINATION, INSTANCES, SOURCE, THE_UPDATE};
use actor_net::Outbox;
use basics::{Boxed, NoMemory};
use event_filter::Action;
use nf_function::Chunks;
use nf_msgs::{Msg, SWITCH, instance_node, units_in};
use packet_pool::Cell;
use std::collections::VecDeque;
use std::mem;

impl TwoCtrl {
    /// The update begins: the source is to hand out the filter's packets.
    pub(crate) fn begin(&mut self, out: &mut Outbox<TwoMsg, TwoNote>) -> Result<(), NoMemory>
        ensures node { OnOk result (self.new ≡ (on_start self.old.phase self.old).node) }
        ensures sends { OnOk result (out.new.0 ≡ out.old.0 ++ (on_start self.old.phase self.old).sends) }
        ensures notes { OnOk result (out.new.1 ≡ out.old.1) }
    {
        let Phase::Idle = self.phase else {
            return Ok(());
        };
        self.phase = Phase::Freezing;
        self.enable(SOURCE, Action::Drop, out)
    }

    /// The source hands packets out, and is to give its chunks; or the destination holds packets: what is stored goes on to it, in order, and the low rule is
    /// to be laid.
    pub(crate) fn enabled(&mut self, out: &mut Outbox<TwoMsg, TwoNote>) -> Result<(), NoMemory>
        ensures node { OnOk result (self.new ≡ (on_enabled self.old.phase self.old).node) }
        ensures sends { OnOk result (out.new.0 ≡ out.old.0 ++ (on_enabled self.old.phase self.old).sends) }
        ensures notes { OnOk result (out.new.1 ≡ out.old.1) }
    {
        match self.phase {
            Phase::Freezing => {
                self.phase = Phase::Getting;
                let filter = Boxed::new(self.alloc, self.filter)?;
                let op = THE_UPDATE;
                send_to(SOURCE, Msg::Get { op, filter }, out)
            }
            Phase::Holding => {
                self.phase = Phase::Laying;
                forward_all(&mut self.store, out)?;
                out.send(SWITCH, TwoMsg::Lay { high: false })
            }
            _ => Ok(()),
        }
    }

    /// The chunks came: the source is to remove their records.
    pub(crate) fn take_chunks(
        &mut self,
        chunks: Chunks,
        out: &mut Outbox<TwoMsg, TwoNote>,
    ) -> Result<(), NoMemory>
        ensures node { OnOk result (self.new ≡ (on_chunks self.old.phase self.old chunks).node) }
        ensures sends { OnOk result (out.new.0 ≡ out.old.0 ++ (on_chunks self.old.phase self.old chunks).sends) }
        ensures notes { OnOk result (out.new.1 ≡ out.old.1) }
    {
        let Phase::Getting = self.phase else {
            return Ok(());
        };
        self.phase = Phase::Deleting;
        let units = units_in(self.alloc, chunks.items())?;
        self.kept = chunks;
        let op = THE_UPDATE;
        send_to(SOURCE, Msg::Delete { op, units }, out)
    }

    /// The records are removed: the destination is to take them.
    pub(crate) fn deleted(&mut self, out: &mut Outbox<TwoMsg, TwoNote>) -> Result<(), NoMemory>
        ensures node { OnOk result (self.new ≡ (on_deleted self.old.phase self.old).node) }
        ensures sends { OnOk result (out.new.0 ≡ out.old.0 ++ (on_deleted self.old.phase self.old).sends) }
        ensures notes { OnOk result (out.new.1 ≡ out.old.1) }
    {
        let Phase::Deleting = self.phase else {
            return Ok(());
        };
        self.phase = Phase::Putting;
        let chunks = mem::replace(&mut self.kept, Chunks::open(self.alloc));
        let op = THE_UPDATE;
        send_to(DESTINATION, Msg::Restore { op, chunks }, out)
    }

    /// They are taken: the destination is to hold the packets that come by the switch's rules.
    pub(crate) fn restored(&mut self, out: &mut Outbox<TwoMsg, TwoNote>) -> Result<(), NoMemory>
        ensures node { OnOk result (self.new ≡ (on_restored self.old.phase self.old).node) }
        ensures sends { OnOk result (out.new.0 ≡ out.old.0 ++ (on_restored self.old.phase self.old).sends) }
        ensures notes { OnOk result (out.new.1 ≡ out.old.1) }
    {
        let Phase::Putting = self.phase else {
            return Ok(());
        };
        self.phase = Phase::Holding;
        self.enable(DESTINATION, Action::Buffer, out)
    }

    /// Stores a packet that the source handed out, or sends it on at once.
    pub(crate) fn take_event(
        &mut self,
        cell: Cell,
        out: &mut Outbox<TwoMsg, TwoNote>,
    ) -> Result<(), NoMemory>
        ensures node { OnOk result (self.new ≡ (on_event self.old cell).node) }
        ensures sends { OnOk result (out.new.0 ≡ out.old.0 ++ (on_event self.old cell).sends) }
        ensures notes { OnOk result (out.new.1 ≡ out.old.1) }
    {
        if self.is_storing() {
            return Ok(self.store.push_back(cell)?);
        }
        out.send(SWITCH, TwoMsg::Forward(cell))
    }

    /// Whether the records are still on their way, so that packets wait.
    fn is_storing(&self) -> bool
        ensures { result ≡ is_storing self.now.phase }
    {
        match self.phase {
            Phase::Idle
            | Phase::Freezing
            | Phase::Getting
            | Phase::Deleting
            | Phase::Putting
            | Phase::Holding => true,
            _ => false,
        }
    }

    /// Sets the rule of the update at an instance.
    fn enable(
        &self,
        to: u8,
        action: Action,
        out: &mut Outbox<TwoMsg, TwoNote>,
    ) -> Result<(), NoMemory>
        requires { to < INSTANCES }
        ensures { OnOk result (out.new ≡ (out.old.0 ++ (instance_node to, TwoMsg.Inner (Msg.Enable the_update self.now.filter action)) ∷ [], out.old.1)) }
    {
        let filter = Boxed::new(self.alloc, self.filter)?;
        let op = THE_UPDATE;
        send_to(to, Msg::Enable { op, filter, action }, out)
    }
}

/// Sends a message to an instance.
pub(crate) fn send_to(
    to: u8,
    message: Msg,
    out: &mut Outbox<TwoMsg, TwoNote>,
) -> Result<(), NoMemory>
    requires { to < INSTANCES }
    ensures { OnOk result (out.new ≡ (out.old.0 ++ (instance_node to, TwoMsg.Inner message) ∷ [], out.old.1)) }
{
    out.send(instance_node(to), TwoMsg::Inner(message))
}

/// Sends packets on to the destination, in order.
fn forward_all(
    cells: &mut VecDeque<Cell>,
    out: &mut Outbox<TwoMsg, TwoNote>,
) -> Result<(), NoMemory>
    ensures sent { OnOk result (out.new ≡ (out.old.0 ++ forward_messages cells.old.items, out.old.1)) }
    ensures none { OnOk result (cells.new.items ≡ []) }
{
    while let Some(cell) = cells.pop_front() {
        out.send(SWITCH, TwoMsg::Forward(cell))?;
    }
    Ok(())
}
