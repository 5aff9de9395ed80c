//! A move that has begun: a plan and a phase, as its callers see it.
ghost use Rattle.std.specs.Prelude.{◌≡◌, ◌<◌, ◌++◌, OnOk, IfOk};
ghost use Rattle.move_op.specs.Move.{answer_of, begin_sends, move_at_start, row_in, store_after};
ghost use Rattle.move_op.specs.Phases.{phase_of};

use crate::phase::Phase;
use crate::plan::Plan;
use actor_net::Outbox;
use basics::{NoMemory, TryCopy};
use event_filter::Action;
use event_store::EventStore;
use flow_filter::Filter;
use nf_msgs::{Answer, MOST_INSTANCES, Msg, Note};
use packet_pool::Cell;
use std::alloc::Global;
use std::marker::Model;
use std::mem;

/// A move that has begun.
#[derive(Drop)]
pub struct MoveOp {
    plan: Plan,
    phase: Phase,
}

impl Model for MoveOp {
    ghost use Rattle.move_op.specs.Move.{MoveState};
    ghost use Rattle.move_op.specs.Phases.{phase_of};

    ghost Value = { MoveState };

    ghost view = { λ m. record { plan = m.plan; phase = phase_of m.phase } };
}

impl MoveOp {
    /// A move between two instances, of the units that the filter takes; `keep` also keeps the order of packets. The source is
    /// to hand out their packets.
    pub fn begin(
        alloc: Global,
        op: u32,
        from: u8,
        to: u8,
        filter: &Filter,
        keep: bool,
        out: &mut Outbox<Msg, Note>,
    ) -> Result<MoveOp, NoMemory>
        requires from { from < MOST_INSTANCES }
        requires to { to < MOST_INSTANCES }
        ensures value { IfOk result (λ m. m ≡ move_at_start (record { op = op; from = from; to = to; filter = filter.now; keep = keep })) }
        ensures out { OnOk result
            (out.new ≡ (out.old.0 ++ begin_sends (record { op = op; from = from; to = to; filter = filter.now; keep = keep }), out.old.1)) }
    {
        let plan = Plan {
            op,
            from,
            to,
            filter: *filter,
            keep,
            alloc,
        };
        plan.enable_at(plan.source(), Action::Drop, out)?;
        Ok(MoveOp {
            plan,
            phase: Phase::Freezing,
        })
    }

    /// What the move does with a message of a node: the row of the table. The answer comes exactly where the move is then over.
    pub fn on(
        &mut self,
        sender: u8,
        message: Msg,
        store: &mut EventStore<Cell>,
        out: &mut Outbox<Msg, Note>,
    ) -> Result<Option<Answer>, NoMemory>
        ensures phase { OnOk result (self.new ≡ record self.old { phase = (row_in self.old store.old sender message).next.phase }) }
        ensures stored { OnOk result (store.new ≡ store_after store.old self.old.plan.op (row_in self.old store.old sender message).stored) }
        ensures sends { OnOk result (out.new.0 ≡ out.old.0 ++ (row_in self.old store.old sender message).next.sends) }
        ensures notes { OnOk result (out.new.1 ≡ out.old.1) }
        ensures answer { IfOk result (λ answer. answer ≡ answer_of (row_in self.old store.old sender message).next.phase) }
    {
        let phase = mem::replace(&mut self.phase, Phase::Freezing);
        let next = self.plan.next(phase, sender, message, store, out)?;
        drop(mem::replace(&mut self.phase, next));
        answer_of(&self.phase)
    }

    /// The number of the move's command.
    pub fn op(&self) -> u32
        ensures { result ≡ self.now.plan.op }
    {
        self.plan.op
    }

    /// The source, by its number from 0.
    pub fn from(&self) -> u8
        ensures { result ≡ self.now.plan.from }
    {
        self.plan.from
    }

    /// The destination, by its number from 0.
    pub fn to(&self) -> u8
        ensures { result ≡ self.now.plan.to }
    {
        self.plan.to
    }

    /// The filter of what is moved.
    pub fn filter(&self) -> &Filter
        ensures { result.now ≡ self.now.plan.filter }
    {
        &self.plan.filter
    }

    /// Whether packets keep their order.
    pub fn keep(&self) -> bool
        ensures { result ≡ self.now.plan.keep }
    {
        self.plan.keep
    }
}

/// The answer of a move that is over. It has no name, so that this takes no memory.
fn answer_of(phase: &Phase) -> Result<Option<Answer>, NoMemory>
    ensures { IfOk result (λ answer. answer ≡ answer_of (phase_of phase.now)) }
{
    match phase {
        Phase::Over(answer) => Ok(Some(answer.copy()?)),
        _ => Ok(None),
    }
}
