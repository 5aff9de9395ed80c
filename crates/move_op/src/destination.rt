//! The rows of a move for what its destination says.
ghost use Rattle.std.specs.Prelude.{◌≡◌, ◌∷◌, ◌++◌, OnOk, IfOk};
ghost use Rattle.event_store.specs.Store.{stored_of};
ghost use Rattle.move_op.specs.Move.{from_destination, put_back, store_after, words};
ghost use Rattle.move_op.specs.Table.{all_put, on_destination_enabled, on_destination_fenced, on_put_no, on_put_ok};
ghost use Rattle.move_op.specs.Phases.{phase_of};

use crate::door::Door;
use crate::phase::Phase;
use crate::plan::Plan;
use actor_net::Outbox;
use basics::NoMemory;
use event_filter::Action;
use event_store::EventStore;
use nf_msgs::{Answer, Msg, Note, Refused};
use packet_pool::Cell;

impl Plan {
    pub(crate) fn from_destination(
        &self,
        phase: Phase,
        message: Msg,
        store: &mut EventStore<Cell>,
        out: &mut Outbox<Msg, Note>,
    ) -> Result<Phase, NoMemory>
        ensures phase { IfOk result
            (λ next. phase_of next ≡ (from_destination self.now (phase_of phase) (stored_of store.old self.now.op) message).next.phase) }
        ensures stored { OnOk result
            (store.new ≡ store_after store.old self.now.op (from_destination self.now (phase_of phase) (stored_of store.old self.now.op) message).stored) }
        ensures out { OnOk result
            (out.new ≡ (out.old.0 ++ (from_destination self.now (phase_of phase) (stored_of store.old self.now.op) message).next.sends, out.old.1)) }
    {
        match message {
            Msg::PutOk { .. } => self.put_ok(phase, store, out),
            Msg::PutNo { refused, .. } => self.put_no(phase, refused.into_inner(), out),
            Msg::Enabled { .. } => self.destination_enabled(phase, store, out),
            Msg::Fenced { .. } => self.destination_fenced(phase, out),
            _ => {
                drop(message);
                Ok(phase)
            }
        }
    }

    /// The destination took the piece that asked, or the last one.
    fn put_ok(
        &self,
        phase: Phase,
        store: &mut EventStore<Cell>,
        out: &mut Outbox<Msg, Note>,
    ) -> Result<Phase, NoMemory>
        ensures phase { IfOk result (λ next. phase_of next ≡ (on_put_ok (words self.now) (phase_of phase) (stored_of store.old self.now.op)).next.phase) }
        ensures stored { OnOk result
            (store.new ≡ store_after store.old self.now.op (on_put_ok (words self.now) (phase_of phase) (stored_of store.old self.now.op)).stored) }
        ensures out { OnOk result
            (out.new ≡ (out.old.0 ++ (on_put_ok (words self.now) (phase_of phase) (stored_of store.old self.now.op)).next.sends, out.old.1)) }
    {
        match phase {
            Phase::Streaming(stream) => match stream.door {
                Door::Asked(false) => stream.agreed(self, out),
                Door::Asked(true) | Door::Open => self.all_put(store, out),
                _ => Ok(Phase::Streaming(stream)),
            },
            phase => Ok(phase),
        }
    }

    /// The destination is to hold what comes, or everything goes there at once.
    fn all_put(
        &self,
        store: &mut EventStore<Cell>,
        out: &mut Outbox<Msg, Note>,
    ) -> Result<Phase, NoMemory>
        ensures phase { IfOk result (λ next. phase_of next ≡ (all_put (words self.now) (stored_of store.old self.now.op) self.now.keep).next.phase) }
        ensures stored { OnOk result
            (store.new ≡ store_after store.old self.now.op (all_put (words self.now) (stored_of store.old self.now.op) self.now.keep).stored) }
        ensures out { OnOk result (out.new ≡ (out.old.0 ++ (all_put (words self.now) (stored_of store.old self.now.op) self.now.keep).next.sends, out.old.1)) }
    {
        if !self.keep {
            return self.release(store, out);
        }
        self.enable_at(self.destination(), Action::Buffer, out)?;
        Ok(Phase::Holding)
    }

    /// The destination refused the piece that asked.
    fn put_no(
        &self,
        phase: Phase,
        refused: Refused,
        out: &mut Outbox<Msg, Note>,
    ) -> Result<Phase, NoMemory>
        ensures phase { IfOk result (λ next. phase_of next ≡ (on_put_no (words self.now) (phase_of phase) refused.why (put_back refused.chunks)).phase) }
        ensures out { OnOk result
            (out.new ≡ (out.old.0 ++ (on_put_no (words self.now) (phase_of phase) refused.why (put_back refused.chunks)).sends, out.old.1)) }
    {
        match phase {
            Phase::Streaming(stream) => match stream.door {
                Door::Asked(last) => stream.refused(self, refused, last, out),
                _ => Ok(Phase::Streaming(stream)),
            },
            phase => Ok(phase),
        }
    }

    /// The destination holds what comes.
    fn destination_enabled(
        &self,
        phase: Phase,
        store: &mut EventStore<Cell>,
        out: &mut Outbox<Msg, Note>,
    ) -> Result<Phase, NoMemory>
        ensures phase { IfOk result
            (λ next. phase_of next ≡ (on_destination_enabled (words self.now) (phase_of phase) (stored_of store.old self.now.op)).next.phase) }
        ensures stored { OnOk result
            (store.new ≡ store_after store.old self.now.op
            (on_destination_enabled (words self.now) (phase_of phase) (stored_of store.old self.now.op)).stored) }
        ensures out { OnOk result
            (out.new ≡ (out.old.0 ++ (on_destination_enabled (words self.now) (phase_of phase) (stored_of store.old self.now.op)).next.sends, out.old.1)) }
    {
        match phase {
            Phase::Holding => self.release(store, out),
            phase => Ok(phase),
        }
    }

    /// The destination has processed what it held.
    fn destination_fenced(
        &self,
        phase: Phase,
        out: &mut Outbox<Msg, Note>,
    ) -> Result<Phase, NoMemory>
        ensures phase { IfOk result (λ next. phase_of next ≡ (on_destination_fenced (words self.now) (phase_of phase)).phase) }
        ensures out { OnOk result (out.new ≡ (out.old.0 ++ (on_destination_fenced (words self.now) (phase_of phase)).sends, out.old.1)) }
    {
        match phase {
            Phase::Ending => Ok(Phase::Over(Answer::Done)),
            phase => Ok(phase),
        }
    }
}
