//! A copy that has begun, and its row for each message.
ghost use Rattle.std.specs.Prelude.{◌≡◌, ◌<◌, [], ◌++◌, option_map, OnOk, IfOk};
ghost use Rattle.copy_share.specs.Copy.{answer_of, asks, begin_sends, copy_at_start, from_destination, from_source, row};

use crate::copy_phase::CopyPhase;
use actor_net::Outbox;
use basics::{Boxed, NoMemory};
use flow_filter::Filter;
use nf_msgs::{Answer, MOST_INSTANCES, Msg, Note, instance_node};
use std::alloc::Global;
use std::marker::Model;

/// A copy that has begun.
#[derive(Drop)]
pub struct CopyOp {
    op: u32,
    from: u8,
    to: u8,
    filter: Option<Filter>,
    phase: CopyPhase,
}

impl Model for CopyOp {
    ghost use Rattle.std.specs.Prelude.{◌<◌};
    ghost use Rattle.nf_msgs.specs.declared.nodes.TheConstants.{MOST_INSTANCES};
    ghost use Rattle.copy_share.specs.Copy.{CopyState};

    ghost Value = { CopyState };

    ghost view = { λ c. record { plan = record { op = c.op; from = c.from; to = c.to; filter = c.filter }; phase = c.phase } };

    ghost invariant = { λ c. (c.from < MOST_INSTANCES) × (c.to < MOST_INSTANCES) };
}

impl CopyOp {
    /// A copy between two instances, of the units that the filter takes, or of the all-flows state where there is no filter. The
    /// source is to send it.
    pub fn begin(
        alloc: Global,
        op: u32,
        from: u8,
        to: u8,
        filter: Option<Filter>,
        out: &mut Outbox<Msg, Note>,
    ) -> Result<CopyOp, NoMemory>
        requires from { from < MOST_INSTANCES }
        requires to { to < MOST_INSTANCES }
        ensures value { IfOk result (λ c. c ≡ copy_at_start (record { op = op; from = from; to = to; filter = filter })) }
        ensures out { OnOk result (out.new ≡ (out.old.0 ++ begin_sends (record { op = op; from = from; to = to; filter = filter }), out.old.1)) }
    {
        let message = asks(alloc, op, filter)?;
        out.send(instance_node(from), message)?;
        Ok(CopyOp {
            op,
            from,
            to,
            filter,
            phase: CopyPhase::Getting,
        })
    }

    /// What the copy does with a message of a node: the row of the table. The answer comes exactly where the copy is then over.
    pub fn on(
        &mut self,
        sender: u8,
        message: Msg,
        out: &mut Outbox<Msg, Note>,
    ) -> Result<Option<Answer>, NoMemory>
        ensures phase { OnOk result (self.new ≡ record self.old { phase = (row self.old sender message).phase }) }
        ensures sends { OnOk result (out.new.0 ≡ out.old.0 ++ (row self.old sender message).sends) }
        ensures notes { OnOk result (out.new.1 ≡ out.old.1) }
        ensures answer { IfOk result (λ answer. answer ≡ answer_of (row self.old sender message).phase) }
    {
        self.phase = self.next(sender, message, out)?;
        Ok(answer_of(self.phase))
    }

    /// The number of the copy's command.
    pub fn op(&self) -> u32
        ensures { result ≡ self.now.plan.op }
    {
        self.op
    }

    /// The filter of what is copied; the all-flows state has none.
    pub fn filter(&self) -> Option<&Filter>
        ensures { option_map (λ filter. filter.now) result ≡ self.now.plan.filter }
    {
        self.filter.as_ref()
    }

    /// The row of a message, by its sender.
    fn next(
        &self,
        sender: u8,
        message: Msg,
        out: &mut Outbox<Msg, Note>,
    ) -> Result<CopyPhase, NoMemory>
        ensures phase { IfOk result (λ next. next ≡ (row self.now sender message).phase) }
        ensures out { OnOk result (out.new ≡ (out.old.0 ++ (row self.now sender message).sends, out.old.1)) }
    {
        if sender == instance_node(self.from) {
            return self.from_source(message, out);
        }
        let next = if sender == instance_node(self.to) {
            self.from_destination(&message)
        } else {
            self.phase
        };
        drop(message);
        Ok(next)
    }

    /// A message of the source.
    fn from_source(&self, message: Msg, out: &mut Outbox<Msg, Note>) -> Result<CopyPhase, NoMemory>
        ensures phase { IfOk result (λ next. next ≡ (from_source self.now.plan self.now.phase message).phase) }
        ensures out { OnOk result (out.new ≡ (out.old.0 ++ (from_source self.now.plan self.now.phase message).sends, out.old.1)) }
    {
        match self.phase {
            CopyPhase::Getting => self.hand_on(message, out),
            phase => {
                drop(message);
                Ok(phase)
            }
        }
    }

    /// What the source gives goes on to the destination.
    fn hand_on(&self, message: Msg, out: &mut Outbox<Msg, Note>) -> Result<CopyPhase, NoMemory>
        ensures phase { IfOk result (λ next. next ≡ (from_source self.now.plan CopyPhase.Getting message).phase) }
        ensures out { OnOk result (out.new ≡ (out.old.0 ++ (from_source self.now.plan CopyPhase.Getting message).sends, out.old.1)) }
    {
        let op = self.op;
        match message {
            Msg::Chunks { chunks, .. } => {
                out.send(instance_node(self.to), Msg::Standby { op, chunks })?;
                Ok(CopyPhase::Keeping)
            }
            Msg::AllChunk { chunk, .. } => {
                out.send(instance_node(self.to), Msg::PutAll { op, chunk })?;
                Ok(CopyPhase::Keeping)
            }
            _ => {
                drop(message);
                Ok(CopyPhase::Getting)
            }
        }
    }

    /// A message of the destination.
    fn from_destination(&self, message: &Msg) -> CopyPhase
        ensures phase { result ≡ (from_destination self.now.plan self.now.phase message.now).phase }
        ensures sends { (from_destination self.now.plan self.now.phase message.now).sends ≡ [] }
    {
        match self.phase {
            CopyPhase::Keeping => self.kept(message),
            phase => phase,
        }
    }

    /// The destination has kept what came.
    fn kept(&self, message: &Msg) -> CopyPhase
        ensures phase { result ≡ (from_destination self.now.plan CopyPhase.Keeping message.now).phase }
        ensures sends { (from_destination self.now.plan CopyPhase.Keeping message.now).sends ≡ [] }
    {
        let Msg::Kept { .. } = message else {
            return CopyPhase::Keeping;
        };
        CopyPhase::Over
    }
}

/// The message that asks the source.
fn asks(alloc: Global, op: u32, filter: Option<Filter>) -> Result<Msg, NoMemory>
    ensures { IfOk result (λ message. message ≡ asks op filter) }
{
    match filter {
        None => Ok(Msg::GetAll { op }),
        Some(filter) => {
            let filter = Boxed::new(alloc, filter)?;
            Ok(Msg::Get { op, filter })
        }
    }
}

/// The answer of a copy that is over.
fn answer_of(phase: CopyPhase) -> Option<Answer>
    ensures { result ≡ answer_of phase }
{
    match phase {
        CopyPhase::Over => Some(Answer::Done),
        _ => None,
    }
}
