//! The rows of a move for what its source says.
ghost use Rattle.std.specs.Prelude.{◌≡◌, [], ◌++◌, OnOk, IfOk};
ghost use Rattle.event_store.specs.Store.{stored_of};
ghost use Rattle.move_op.specs.Move.{from_source, store_after, words};
ghost use Rattle.move_op.specs.Table.{on_deleted, on_event, on_piece, on_restored, on_source_enabled, on_source_fenced, return_of};
ghost use Rattle.move_op.specs.Phases as stages;
ghost use Rattle.move_op.specs.Phases.{phase_of};

use crate::phase::Phase;
use crate::plan::Plan;
use crate::stream::Stream;
use crate::units::have_units;
use actor_net::Outbox;
use basics::{Boxed, NoMemory};
use event_filter::Action;
use event_store::EventStore;
use nf_msgs::{Answer, Msg, Note, Piece, SWITCH};
use packet_pool::Cell;

impl Plan {
    pub(crate) fn from_source(
        &self,
        phase: Phase,
        message: Msg,
        store: &mut EventStore<Cell>,
        out: &mut Outbox<Msg, Note>,
    ) -> Result<Phase, NoMemory>
        ensures phase { IfOk result (λ next. phase_of next ≡ (from_source self.now (phase_of phase) (stored_of store.old self.now.op) message).next.phase) }
        ensures stored { OnOk result
            (store.new ≡ store_after store.old self.now.op (from_source self.now (phase_of phase) (stored_of store.old self.now.op) message).stored) }
        ensures out { OnOk result
            (out.new ≡ (out.old.0 ++ (from_source self.now (phase_of phase) (stored_of store.old self.now.op) message).next.sends, out.old.1)) }
    {
        match message {
            Msg::Event { parcel, .. } => self.take_event(phase, parcel, store, out),
            Msg::Enabled { .. } => self.source_enabled(phase, store, out),
            Msg::Piece { piece, .. } => self.take_piece(phase, piece, out),
            Msg::Deleted { .. } => self.deleted(phase, out),
            Msg::Restored { .. } => self.restored(phase, out),
            Msg::Fenced { .. } => self.source_fenced(phase, out),
            _ => {
                drop(message);
                Ok(phase)
            }
        }
    }

    /// An event is stored, or sent on at once.
    fn take_event(
        &self,
        phase: Phase,
        parcel: Cell,
        store: &mut EventStore<Cell>,
        out: &mut Outbox<Msg, Note>,
    ) -> Result<Phase, NoMemory>
        ensures phase { IfOk result (λ next. phase_of next ≡ (on_event (words self.now) (phase_of phase) (stored_of store.old self.now.op) parcel).next.phase) }
        ensures stored { OnOk result
            (store.new ≡ store_after store.old self.now.op (on_event (words self.now) (phase_of phase) (stored_of store.old self.now.op) parcel).stored) }
        ensures out { OnOk result
            (out.new ≡ (out.old.0 ++ (on_event (words self.now) (phase_of phase) (stored_of store.old self.now.op) parcel).next.sends, out.old.1)) }
    {
        match phase {
            Phase::Passing => {
                self.forward(self.to, parcel, out)?;
                Ok(Phase::Passing)
            }
            phase => match store.put(self.op, parcel) {
                Ok(()) => Ok(phase),
                Err((full, _parcel)) => {
                    drop(phase);
                    Err(full)
                }
            },
        }
    }

    /// The source hands out the packets, or holds them.
    fn source_enabled(
        &self,
        phase: Phase,
        store: &mut EventStore<Cell>,
        out: &mut Outbox<Msg, Note>,
    ) -> Result<Phase, NoMemory>
        ensures phase { IfOk result
            (λ next. phase_of next ≡ (on_source_enabled (words self.now) (phase_of phase) (stored_of store.old self.now.op)).next.phase) }
        ensures stored { OnOk result
            (store.new ≡ store_after store.old self.now.op (on_source_enabled (words self.now) (phase_of phase) (stored_of store.old self.now.op)).stored) }
        ensures out { OnOk result
            (out.new ≡ (out.old.0 ++ (on_source_enabled (words self.now) (phase_of phase) (stored_of store.old self.now.op)).next.sends, out.old.1)) }
    {
        match phase {
            Phase::Freezing => self.stream(out),
            Phase::Returning(why) => self.give_back(why, store, out),
            phase => Ok(phase),
        }
    }

    /// Asks the source for its state, by pieces.
    fn stream(&self, out: &mut Outbox<Msg, Note>) -> Result<Phase, NoMemory>
        ensures phase { IfOk result (λ next. phase_of next ≡ (on_source_enabled (words self.now) stages.Freezing []).next.phase) }
        ensures out { OnOk result (out.new ≡ (out.old.0 ++ (on_source_enabled (words self.now) stages.Freezing []).next.sends, out.old.1)) }
    {
        let filter = Boxed::new(self.alloc, self.filter)?;
        let message = Msg::Stream {
            op: self.op,
            filter,
        };
        out.send(self.source(), message)?;
        Ok(Phase::Streaming(Stream::open(self.alloc)))
    }

    /// Sends the stored parcels back to the source, and its fence after them.
    fn give_back(
        &self,
        why: Answer,
        store: &mut EventStore<Cell>,
        out: &mut Outbox<Msg, Note>,
    ) -> Result<Phase, NoMemory>
        ensures phase { IfOk result (λ next. phase_of next ≡ (return_of (words self.now) why (stored_of store.old self.now.op)).next.phase) }
        ensures stored { OnOk result (store.new ≡ store_after store.old self.now.op (return_of (words self.now) why (stored_of store.old self.now.op)).stored) }
        ensures out { OnOk result (out.new ≡ (out.old.0 ++ (return_of (words self.now) why (stored_of store.old self.now.op)).next.sends, out.old.1)) }
    {
        self.forward_all(self.from, store.drain(self.op), out)?;
        let message = Msg::FenceTo {
            op: self.op,
            to: self.from,
        };
        out.send(SWITCH, message)?;
        Ok(Phase::Undoing(why))
    }

    /// The next piece: its records are to be removed.
    fn take_piece(
        &self,
        phase: Phase,
        piece: Boxed<Piece>,
        out: &mut Outbox<Msg, Note>,
    ) -> Result<Phase, NoMemory>
        ensures phase { IfOk result (λ next. phase_of next ≡ (on_piece (words self.now) (phase_of phase) piece).phase) }
        ensures out { OnOk result (out.new ≡ (out.old.0 ++ (on_piece (words self.now) (phase_of phase) piece).sends, out.old.1)) }
    {
        match phase {
            Phase::Streaming(mut stream) if have_units(piece.get().chunks.items()) => {
                stream.take(self, piece, out)?;
                Ok(Phase::Streaming(stream))
            }
            phase => Ok(phase),
        }
    }

    /// The records of the first piece that was to remove are removed.
    fn deleted(&self, phase: Phase, out: &mut Outbox<Msg, Note>) -> Result<Phase, NoMemory>
        ensures phase { IfOk result (λ next. phase_of next ≡ (on_deleted (words self.now) (phase_of phase)).phase) }
        ensures out { OnOk result (out.new ≡ (out.old.0 ++ (on_deleted (words self.now) (phase_of phase)).sends, out.old.1)) }
    {
        match phase {
            Phase::Streaming(stream) => stream.deleted(self, out),
            phase => Ok(phase),
        }
    }

    /// The source is to hold what comes.
    fn restored(&self, phase: Phase, out: &mut Outbox<Msg, Note>) -> Result<Phase, NoMemory>
        ensures phase { IfOk result (λ next. phase_of next ≡ (on_restored (words self.now) (phase_of phase)).phase) }
        ensures out { OnOk result (out.new ≡ (out.old.0 ++ (on_restored (words self.now) (phase_of phase)).sends, out.old.1)) }
    {
        match phase {
            Phase::Restoring(why) => {
                self.enable_at(self.source(), Action::Buffer, out)?;
                Ok(Phase::Returning(why))
            }
            phase => Ok(phase),
        }
    }

    /// The source has processed what came by the old rules, or what it held.
    fn source_fenced(&self, phase: Phase, out: &mut Outbox<Msg, Note>) -> Result<Phase, NoMemory>
        ensures phase { IfOk result (λ next. phase_of next ≡ (on_source_fenced (words self.now) (phase_of phase)).phase) }
        ensures out { OnOk result (out.new ≡ (out.old.0 ++ (on_source_fenced (words self.now) (phase_of phase)).sends, out.old.1)) }
    {
        match phase {
            Phase::Passing => {
                let message = Msg::FenceTo {
                    op: self.op,
                    to: self.to,
                };
                out.send(SWITCH, message)?;
                Ok(Phase::Ending)
            }
            Phase::Undoing(why) => Ok(Phase::Over(why)),
            phase => Ok(phase),
        }
    }
}
