//! What a move is asked for, and its row for each message: which phase comes next, and what is sent.
ghost use Rattle.std.specs.Prelude.{◌≡◌, ◌∷◌, [], ◌++◌, false, map, OnOk, IfOk};
ghost use Rattle.event_store.specs.Store.{stored_of};
ghost use Rattle.move_op.specs.Move.{chunks_of, destination, enable_at, forward_to, put_to, row_in, source, store_after, words};
ghost use Rattle.move_op.specs.Table.{release_row};
ghost use Rattle.move_op.specs.Phases as stages;
ghost use Rattle.move_op.specs.Phases.{phase_of};

use crate::phase::Phase;
use crate::pieces::Pieces;
use actor_net::Outbox;
use basics::{Boxed, NoMemory};
use event_filter::{Action, Mark};
use event_store::EventStore;
use flow_filter::Filter;
use nf_msgs::{Answer, MOST_INSTANCES, Msg, Note, Piece, SWITCH, instance_node};
use packet_pool::Cell;
use std::alloc::Global;
use std::marker::Model;
use switch_rules::Target;

/// What is to be moved. Its calls do the rows of the table, each by one call.
#[derive(Drop)]
pub(crate) struct Plan {
    pub(crate) op: u32,
    pub(crate) from: u8,
    pub(crate) to: u8,
    pub(crate) filter: Filter,
    pub(crate) keep: bool,
    pub(crate) alloc: Global,
}

impl Model for Plan {
    ghost use Rattle.std.specs.Prelude.{◌<◌};
    ghost use Rattle.nf_msgs.specs.declared.nodes.TheConstants.{MOST_INSTANCES};
    ghost use Rattle.move_op.specs.Move.{MovePlan};

    ghost Value = { MovePlan };

    ghost view = { λ p. record { op = p.op; from = p.from; to = p.to; filter = p.filter; keep = p.keep } };

    ghost invariant = { λ p. (p.from < MOST_INSTANCES) × (p.to < MOST_INSTANCES) };
}

impl Plan {
    /// The row of a message, by its sender.
    pub(crate) fn next(
        &self,
        phase: Phase,
        sender: u8,
        message: Msg,
        store: &mut EventStore<Cell>,
        out: &mut Outbox<Msg, Note>,
    ) -> Result<Phase, NoMemory>
        ensures phase { IfOk result
            (λ next. phase_of next ≡ (row_in (record { plan = self.now; phase = phase_of phase }) store.old sender message).next.phase) }
        ensures stored { OnOk result
            (store.new ≡ store_after store.old self.now.op (row_in (record { plan = self.now; phase = phase_of phase }) store.old sender message).stored) }
        ensures out { OnOk result
            (out.new ≡ (out.old.0 ++ (row_in (record { plan = self.now; phase = phase_of phase }) store.old sender message).next.sends, out.old.1)) }
    {
        if sender == self.source() {
            return self.from_source(phase, message, store, out);
        }
        if sender == self.destination() {
            return self.from_destination(phase, message, store, out);
        }
        drop(message);
        Ok(phase)
    }

    /// Sends the stored parcels to the destination, and then all that comes.
    pub(crate) fn release(
        &self,
        store: &mut EventStore<Cell>,
        out: &mut Outbox<Msg, Note>,
    ) -> Result<Phase, NoMemory>
        ensures phase { IfOk result (λ next. phase_of next ≡ (release_row (words self.now) (stored_of store.old self.now.op)).next.phase) }
        ensures stored { OnOk result (store.new ≡ store_after store.old self.now.op (release_row (words self.now) (stored_of store.old self.now.op)).stored) }
        ensures out { OnOk result (out.new ≡ (out.old.0 ++ (release_row (words self.now) (stored_of store.old self.now.op)).next.sends, out.old.1)) }
    {
        self.forward_all(self.to, store.drain(self.op), out)?;
        let filter = Boxed::new(self.alloc, self.filter)?;
        let message = Msg::Install {
            op: self.op,
            filter,
            from: self.from,
            to: Target::Instance(self.to),
        };
        out.send(SWITCH, message)?;
        Ok(Phase::Passing)
    }

    /// The source is to take its state back.
    pub(crate) fn restore(
        &self,
        why: Answer,
        removed: Pieces,
        out: &mut Outbox<Msg, Note>,
    ) -> Result<Phase, NoMemory>
        ensures phase { IfOk result (λ next. phase_of next ≡ stages.Restoring why) }
        ensures out { OnOk result (out.new ≡ (out.old.0 ++ (source self.now, Msg.Restore self.now.op (chunks_of removed)) ∷ [], out.old.1)) }
    {
        let chunks = removed.into_chunks(self.alloc)?;
        out.send(
            self.source(),
            Msg::Restore {
                op: self.op,
                chunks,
            },
        )?;
        Ok(Phase::Restoring(why))
    }

    /// Puts pieces at the destination, in order.
    pub(crate) fn put_all(
        &self,
        pieces: Pieces,
        out: &mut Outbox<Msg, Note>,
    ) -> Result<(), NoMemory>
        ensures { OnOk result (out.new ≡ (out.old.0 ++ map (put_to self.now false) pieces, out.old.1)) }
    {
        for piece in pieces.into_vec() {
            self.put(piece, false, out)?;
        }
        Ok(())
    }

    /// Puts a piece at the destination.
    pub(crate) fn put(
        &self,
        piece: Boxed<Piece>,
        first: bool,
        out: &mut Outbox<Msg, Note>,
    ) -> Result<(), NoMemory>
        ensures { OnOk result (out.new ≡ (out.old.0 ++ put_to self.now first piece ∷ [], out.old.1)) }
    {
        let message = Msg::Put {
            op: self.op,
            piece,
            first,
        };
        out.send(self.destination(), message)
    }

    /// Sends parcels on to an instance, in order.
    pub(crate) fn forward_all(
        &self,
        to: u8,
        parcels: Vec<Cell>,
        out: &mut Outbox<Msg, Note>,
    ) -> Result<(), NoMemory>
        ensures { OnOk result (out.new ≡ (out.old.0 ++ map (forward_to self.now to) parcels.items, out.old.1)) }
    {
        for parcel in parcels {
            self.forward(to, parcel, out)?;
        }
        Ok(())
    }

    /// Sends a parcel on to an instance, where no rule takes it.
    pub(crate) fn forward(
        &self,
        to: u8,
        parcel: Cell,
        out: &mut Outbox<Msg, Note>,
    ) -> Result<(), NoMemory>
        ensures { OnOk result (out.new ≡ (out.old.0 ++ forward_to self.now to parcel ∷ [], out.old.1)) }
    {
        let message = Msg::Forward {
            to,
            mark: Mark::Pass(self.op),
            parcel,
        };
        out.send(SWITCH, message)
    }

    /// Sets the move's event rule at a node.
    pub(crate) fn enable_at(
        &self,
        node: u8,
        action: Action,
        out: &mut Outbox<Msg, Note>,
    ) -> Result<(), NoMemory>
        ensures { OnOk result (out.new ≡ (out.old.0 ++ enable_at self.now node action ∷ [], out.old.1)) }
    {
        let filter = Boxed::new(self.alloc, self.filter)?;
        let message = Msg::Enable {
            op: self.op,
            filter,
            action,
        };
        out.send(node, message)
    }

    /// The node of the source.
    pub(crate) fn source(&self) -> u8
        ensures { result ≡ source self.now }
    {
        instance_node(self.from)
    }

    /// The node of the destination.
    pub(crate) fn destination(&self) -> u8
        ensures { result ≡ destination self.now }
    {
        instance_node(self.to)
    }
}
