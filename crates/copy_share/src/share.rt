//! A share that has begun: how it is set up, and how it serves one packet after the other.
ghost use Rattle.std.specs.Prelude.{◌≡◌, ◌<◌, [], ◌++◌, All, length, OnOk, IfOk};
ghost use Rattle.event_store.specs.Store.{store_after, stored_of};
ghost use Rattle.copy_share.specs.Share.{begin_sends, share_at_start, is_idle, on_chunks, on_fenced, on_shared, on_synced, row, service_if_idle, setting};

use crate::plan::{Plan, syncing};
use crate::share_phase::SharePhase;
use actor_net::Outbox;
use basics::{Boxed, NoMemory};
use event_store::EventStore;
use flow_filter::{Filter, Site};
use nf_function::{Chunk, Chunks};
use nf_msgs::{Answer, MOST_INSTANCES, Msg, Note, SWITCH, instance_node};
use packet_pool::Cell;
use std::alloc::Global;
use std::marker::Model;
use switch_rules::Target;

/// A share that has begun. It lasts to the end of the run.
#[derive(Drop)]
pub struct ShareOp {
    plan: Plan,
    phase: SharePhase,
}

impl Model for ShareOp {
    ghost use Rattle.copy_share.specs.Share.{ShareState};

    ghost Value = { ShareState };

    ghost view = { λ s. record { plan = s.plan; phase = s.phase } };
}

impl ShareOp {
    /// A share of the units that the filter takes. Its members are instances by their numbers, and the first is the home. The
    /// packets of the units are to come to the controller, which tells their flows by the site.
    pub fn begin(
        alloc: Global,
        op: u32,
        members: Vec<u8>,
        filter: &Filter,
        site: Site,
        out: &mut Outbox<Msg, Note>,
    ) -> Result<ShareOp, NoMemory>
        requires some { 0 < length members.items }
        requires instances { All (λ member. member < MOST_INSTANCES) members.items }
        ensures value { IfOk result (λ s. s ≡ share_at_start (record { op = op; members = members.items; filter = filter.now; site = site })) }
        ensures out { OnOk result
            (out.new ≡ (out.old.0 ++ begin_sends (record { op = op; members = members.items; filter = filter.now; site = site }), out.old.1)) }
    {
        let plan = Plan {
            op,
            members,
            filter: *filter,
            site,
            alloc,
        };
        let message = Msg::Install {
            op,
            filter: Boxed::new(alloc, *filter)?,
            from: plan.home(),
            to: Target::Controller,
        };
        out.send(SWITCH, message)?;
        Ok(ShareOp {
            plan,
            phase: SharePhase::Fencing,
        })
    }

    /// What the share does with a message of a node: the row of the table. The answer comes exactly where the share is then set
    /// up. Its plan stays, also where memory runs out.
    pub fn on(
        &mut self,
        sender: u8,
        message: Msg,
        out: &mut Outbox<Msg, Note>,
    ) -> Result<Option<Answer>, NoMemory>
        ensures phase { OnOk result (self.new ≡ record self.old { phase = (row self.old sender message).phase }) }
        ensures plan { self.new.plan ≡ self.old.plan }
        ensures sends { OnOk result (out.new.0 ≡ out.old.0 ++ (row self.old sender message).sends) }
        ensures notes { OnOk result (out.new.1 ≡ out.old.1) }
        ensures answer { IfOk result (λ answer. answer ≡ (row self.old sender message).answer) }
    {
        match message {
            Msg::Fenced { .. } => {
                if sender == instance_node(self.plan.home()) {
                    self.fenced(out)?;
                }
                Ok(None)
            }
            Msg::Chunks { chunks, .. } => {
                if sender == instance_node(self.plan.home()) {
                    return self.first_records(chunks, out);
                }
                Ok(None)
            }
            Msg::Shared { chunk, .. } => {
                self.processed(sender, chunk.into_inner(), out)?;
                Ok(None)
            }
            Msg::Synced { .. } => Ok(self.synced()),
            _ => {
                drop(message);
                Ok(None)
            }
        }
    }

    /// Serves the next packet, where the share is set up, no packet is out and one waits. Its plan stays, also where memory runs out.
    pub fn serve(
        &mut self,
        store: &mut EventStore<Cell>,
        out: &mut Outbox<Msg, Note>,
    ) -> Result<(), NoMemory>
        ensures phase { OnOk result
            (self.new ≡ record self.old { phase = (service_if_idle self.old.plan self.old.phase (stored_of store.old self.old.plan.op)).phase }) }
        ensures plan { self.new.plan ≡ self.old.plan }
        ensures stored { OnOk result
            (store.new ≡ store_after store.old self.old.plan.op (service_if_idle self.old.plan self.old.phase (stored_of store.old self.old.plan.op)).stored) }
        ensures sends { OnOk result (out.new.0 ≡ out.old.0 ++ (service_if_idle self.old.plan self.old.phase (stored_of store.old self.old.plan.op)).sends) }
        ensures notes { OnOk result (out.new.1 ≡ out.old.1) }
    {
        if self.phase != SharePhase::Idle || store.len(self.plan.op) == 0 {
            return Ok(());
        }
        let Some(parcel) = store.first(self.plan.op) else {
            return Ok(());
        };
        self.phase = self.plan.send_out(parcel, out)?;
        Ok(())
    }

    /// Whether the share has nothing to do: it is set up, no packet is out, and none waits.
    pub fn idle(&self, store: &EventStore<Cell>) -> bool
        ensures { result ≡ is_idle self.now.phase (stored_of store.now self.now.plan.op) }
    {
        self.phase == SharePhase::Idle && store.len(self.plan.op) == 0
    }

    /// The number of the share's command.
    pub fn op(&self) -> u32
        ensures { result ≡ self.now.plan.op }
    {
        self.plan.op
    }

    /// The filter of what is shared.
    pub fn filter(&self) -> &Filter
        ensures { result.now ≡ self.now.plan.filter }
    {
        &self.plan.filter
    }

    /// The fence came to the home, which is asked for its records.
    fn fenced(&mut self, out: &mut Outbox<Msg, Note>) -> Result<(), NoMemory>
        ensures phase { OnOk result (self.new ≡ record self.old { phase = (on_fenced self.old.plan self.old.phase).phase }) }
        ensures plan { self.new.plan ≡ self.old.plan }
        ensures out { OnOk result (out.new ≡ (out.old.0 ++ (on_fenced self.old.plan self.old.phase).sends, out.old.1)) }
    {
        if self.phase != SharePhase::Fencing {
            return Ok(());
        }
        self.phase = SharePhase::Getting;
        let message = Msg::Get {
            op: self.plan.op,
            filter: Boxed::new(self.plan.alloc, self.plan.filter)?,
        };
        out.send(instance_node(self.plan.home()), message)
    }

    /// The home's records came, and go to the other members.
    fn first_records(
        &mut self,
        chunks: Chunks,
        out: &mut Outbox<Msg, Note>,
    ) -> Result<Option<Answer>, NoMemory>
        ensures phase { OnOk result (self.new ≡ record self.old { phase = (on_chunks self.old.plan self.old.phase chunks).phase }) }
        ensures plan { self.new.plan ≡ self.old.plan }
        ensures out { OnOk result (out.new ≡ (out.old.0 ++ (on_chunks self.old.plan self.old.phase chunks).sends, out.old.1)) }
        ensures answer { IfOk result (λ answer. answer ≡ (on_chunks self.old.plan self.old.phase chunks).answer) }
    {
        if self.phase != SharePhase::Getting {
            return Ok(None);
        }
        let left = self.plan.sync_others(self.plan.home(), chunks, out)?;
        Ok(self.set_up(left))
    }

    /// A member has processed the packet that is out at it. Its record goes to the other members.
    fn processed(
        &mut self,
        sender: u8,
        chunk: Chunk,
        out: &mut Outbox<Msg, Note>,
    ) -> Result<(), NoMemory>
        ensures phase { OnOk result (self.new ≡ record self.old { phase = (on_shared self.old.plan self.old.phase sender chunk).phase }) }
        ensures plan { self.new.plan ≡ self.old.plan }
        ensures out { OnOk result (out.new ≡ (out.old.0 ++ (on_shared self.old.plan self.old.phase sender chunk).sends, out.old.1)) }
    {
        self.phase = self.plan.processed(self.phase, sender, chunk, out)?;
        Ok(())
    }

    /// A member has taken the records.
    fn synced(&mut self) -> Option<Answer>
        ensures phase { self.new ≡ record self.old { phase = (on_synced self.old.phase).phase } }
        ensures answer { result ≡ (on_synced self.old.phase).answer }
    {
        match self.phase {
            SharePhase::Setting(left) => self.set_up(left.saturating_sub(1)),
            SharePhase::Syncing(left) => {
                self.phase = syncing(left.saturating_sub(1));
                None
            }
            _ => None,
        }
    }

    /// So many members have yet to take the first records. With none the share is set up.
    fn set_up(&mut self, left: usize) -> Option<Answer>
        ensures phase { self.new ≡ record self.old { phase = (setting left []).phase } }
        ensures answer { result ≡ (setting left []).answer }
    {
        if left > 0 {
            self.phase = SharePhase::Setting(left);
            return None;
        }
        self.phase = SharePhase::Idle;
        Some(Answer::Done)
    }
}
