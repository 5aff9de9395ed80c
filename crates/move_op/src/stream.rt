//! The pieces of a move while its source sends them: which records are still to be removed, and how the others go on.
ghost use Rattle.std.specs.Prelude.{◌≡◌, [], ◌∷◌, ◌++◌, ◌||◌, false, OnOk, IfOk};
ghost use Rattle.move_op.specs.Move.{put_back, source, words};
ghost use Rattle.move_op.specs.Table.{asking, on_deleted, push_on};
ghost use Rattle.nf_msgs.specs.Exports.{units_in};
ghost use Rattle.move_op.specs.Phases as stages;
ghost use Rattle.move_op.specs.Phases.{phase_of};

use crate::door::Door;
use crate::phase::Phase;
use crate::pieces::Pieces;
use crate::plan::Plan;
use actor_net::Outbox;
use basics::{Boxed, NoMemory};
use nf_msgs::{Msg, Note, Piece, Refused, units_in};
use std::alloc::Global;
use std::mem;

/// The pieces that came and didn't go on yet, and what the destination has said.
#[derive(Debug, Drop)]
pub struct Stream {
    /// Pieces whose records the source is still to remove.
    pub(crate) to_remove: Pieces,
    /// Pieces whose records stand nowhere else.
    pub(crate) removed: Pieces,
    /// Whether the last piece came.
    pub(crate) came: bool,
    pub(crate) door: Door,
}

impl Stream {
    /// No pieces yet, and nothing was asked. This takes no memory.
    pub(crate) fn open(alloc: Global) -> Self
        ensures { result ≡ record { to_remove = []; removed = []; came = false; door = Door.Shut } }
    {
        Stream {
            to_remove: Pieces::open(alloc),
            removed: Pieces::open(alloc),
            came: false,
            door: Door::Shut,
        }
    }

    /// Takes the next piece: the source is to remove its records.
    pub(crate) fn take(
        &mut self,
        plan: &Plan,
        piece: Boxed<Piece>,
        out: &mut Outbox<Msg, Note>,
    ) -> Result<(), NoMemory>
        ensures stream { OnOk result (self.new ≡ record self.old { to_remove = self.old.to_remove ++ piece ∷ []; came = self.old.came || piece.last }) }
        ensures out { OnOk result (out.new ≡ (out.old.0 ++ (source plan.now, Msg.Delete plan.now.op (units_in piece.chunks)) ∷ [], out.old.1)) }
    {
        let units = units_in(plan.alloc, piece.get().chunks.items())?;
        out.send(plan.source(), Msg::Delete { op: plan.op, units })?;
        self.add(piece)
    }

    /// Takes the next piece, whose records the source is to remove.
    fn add(&mut self, piece: Boxed<Piece>) -> Result<(), NoMemory>
        ensures { OnOk result (self.new ≡ record self.old { to_remove = self.old.to_remove ++ piece ∷ []; came = self.old.came || piece.last }) }
    {
        self.came = self.came || piece.get().last;
        self.to_remove.push(piece)
    }

    /// The records of the first piece that was to remove are removed.
    pub(crate) fn deleted(
        mut self,
        plan: &Plan,
        out: &mut Outbox<Msg, Note>,
    ) -> Result<Phase, NoMemory>
        ensures phase { IfOk result
            (λ next. phase_of next ≡ (on_deleted (words plan.now) (stages.Streaming self.to_remove self.removed self.came self.door)).phase) }
        ensures out { OnOk result
            (out.new ≡ (out.old.0 ++ (on_deleted (words plan.now) (stages.Streaming self.to_remove self.removed self.came self.door)).sends, out.old.1)) }
    {
        let Some(piece) = self.to_remove.pop() else {
            return Ok(Phase::Streaming(self));
        };
        self.removed.push(piece)?;
        self.push(plan, out)
    }

    /// The destination takes all pieces.
    pub(crate) fn agreed(
        mut self,
        plan: &Plan,
        out: &mut Outbox<Msg, Note>,
    ) -> Result<Phase, NoMemory>
        ensures phase { IfOk result (λ next. phase_of next ≡ (push_on (words plan.now) self.to_remove self.removed self.came Door.Open).phase) }
        ensures out { OnOk result (out.new ≡ (out.old.0 ++ (push_on (words plan.now) self.to_remove self.removed self.came Door.Open).sends, out.old.1)) }
    {
        self.door = Door::Open;
        self.push(plan, out)
    }

    /// The destination takes no piece: the one that asked, or the last, comes back before the others that are removed.
    pub(crate) fn refused(
        mut self,
        plan: &Plan,
        refused: Refused,
        last: bool,
        out: &mut Outbox<Msg, Note>,
    ) -> Result<Phase, NoMemory>
        ensures phase { IfOk result
            (λ next. phase_of next
            ≡ (push_on (words plan.now) self.to_remove (put_back refused.chunks last ∷ self.removed) self.came (Door.Refused refused.why)).phase) }
        ensures out { OnOk result (out.new
            ≡ (
              out.old.0 ++ (push_on (words plan.now) self.to_remove (put_back refused.chunks last ∷ self.removed) self.came
                  (Door.Refused refused.why)).sends,
              out.old.1,
            )) }
    {
        let Refused { why, chunks } = refused;
        let piece = Piece {
            chunks,
            total: 0,
            newest: 0,
            last,
        };
        self.removed.put_first(plan.alloc, piece)?;
        drop(mem::replace(&mut self.door, Door::Refused(why)));
        self.push(plan, out)
    }

    /// The pieces that are removed go on as the door says.
    fn push(self, plan: &Plan, out: &mut Outbox<Msg, Note>) -> Result<Phase, NoMemory>
        ensures phase { IfOk result (λ next. phase_of next ≡ (push_on (words plan.now) self.to_remove self.removed self.came self.door).phase) }
        ensures out { OnOk result (out.new ≡ (out.old.0 ++ (push_on (words plan.now) self.to_remove self.removed self.came self.door).sends, out.old.1)) }
    {
        if matches!(self.door, Door::Shut) {
            return self.ask(plan, out);
        }
        let Stream {
            to_remove,
            removed,
            came,
            door,
        } = self;
        match door {
            Door::Open => {
                plan.put_all(removed, out)?;
                Ok(Phase::Streaming(Stream {
                    to_remove,
                    removed: Pieces::open(plan.alloc),
                    came,
                    door: Door::Open,
                }))
            }
            Door::Refused(why) if came && to_remove.is_empty() => plan.restore(why, removed, out),
            door => Ok(Phase::Streaming(Stream {
                to_remove,
                removed,
                came,
                door,
            })),
        }
    }

    /// The first piece that is removed asks whether all of them are taken.
    fn ask(mut self, plan: &Plan, out: &mut Outbox<Msg, Note>) -> Result<Phase, NoMemory>
        requires { self.door ≡ Door.Shut }
        ensures phase { IfOk result (λ next. phase_of next ≡ (asking (words plan.now) self.to_remove self.removed self.came).phase) }
        ensures out { OnOk result (out.new ≡ (out.old.0 ++ (asking (words plan.now) self.to_remove self.removed self.came).sends, out.old.1)) }
    {
        if let Some(piece) = self.removed.pop() {
            self.door = Door::Asked(piece.get().last);
            plan.put(piece, true, out)?;
        }
        Ok(Phase::Streaming(self))
    }
}
