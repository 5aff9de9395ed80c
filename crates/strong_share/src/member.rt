//! A member: an instance, and room for what its steps send and note.
ghost use Rattle.std.specs.Prelude.{◌≡◌, ◌++◌, map, OnOk};
ghost use Rattle.instance_worker.specs.Instance.{instance_step};
ghost use Rattle.strong_share.specs.declared.note.StrongNote.TheVariants.{Inner as AnInner};

use crate::note::StrongNote;
use actor_net::{Actor, Outbox};
use basics::NoMemory;
use instance_worker::Instance;
use nf_function::Function;
use nf_msgs::{Msg, Note};
use std::marker::Model;

/// A member of strong sharing, which contracts see as the instance that it is.
#[derive(Drop)]
pub struct Member<F: Function> {
    instance: Instance<F>,
    /// What a step sends and notes, before it goes among what the share does. Its room is used again.
    own: Outbox<Msg, Note>,
    notes: Vec<Note>,
}

impl<F: Function> Model for Member<F> {
    ghost use Rattle.std.specs.Coded.{codes};
    ghost use Rattle.std.specs.FinMap as finite;
    ghost use Rattle.nf_function.specs.Units.{unit_cmp};
    ghost use Rattle.nf_function.specs.contracts.unit.Unit as units;
    ghost use Rattle.instance_worker.specs.declared.instance.Instance.{Instance};

    ghost Value = { Instance F F.Record };

    ghost coded = { Prim.hlevel (codes, finite.code {R = unit_cmp} units.the_row.coded F.Record.code) };

    ghost view = { λ m. m.instance };
}

impl<F: Function> Member<F> {
    /// The member of an instance. This takes no memory.
    pub(crate) fn of(instance: Instance<F>) -> Self
        ensures { result ≡ instance }
    {
        let alloc = instance.alloc();
        Member {
            instance,
            own: Outbox::open(alloc),
            notes: Vec::new(alloc),
        }
    }

    /// The instance.
    pub fn instance(&self) -> &Instance<F>
        ensures { result.now ≡ self.now }
    {
        &self.instance
    }

    /// Takes a message from a port, as the instance does. Its notes go among those of the share.
    pub(crate) fn step(
        &mut self,
        port: u8,
        message: Msg,
        out: &mut Outbox<Msg, StrongNote>,
    ) -> Result<(), NoMemory>
        ensures node { OnOk result (self.new ≡ (instance_step F.semantics self.old message).node) }
        ensures sends { OnOk result (out.new.0 ≡ out.old.0 ++ (instance_step F.semantics self.old message).sends) }
        ensures notes { OnOk result (out.new.1 ≡ out.old.1 ++ map AnInner (instance_step F.semantics self.old message).notes) }
    {
        // Something is left of a step that ran out of memory.
        self.own.clear();
        self.notes.clear();
        self.instance.step(port, message, &mut self.own)?;
        send_all(&mut self.own, out)?;
        self.own.move_notes(&mut self.notes)?;
        note_all(&mut self.notes, out)
    }
}

/// Sends what was sent, in order.
fn send_all(own: &mut Outbox<Msg, Note>, out: &mut Outbox<Msg, StrongNote>) -> Result<(), NoMemory>
    ensures sent { OnOk result (out.new ≡ (out.old.0 ++ own.old.0, out.old.1)) }
    ensures notes { OnOk result (own.new.1 ≡ own.old.1) }
{
    while let Some((to, message)) = own.next_sent() {
        out.send(to, message)?;
    }
    Ok(())
}

/// Notes these, in order. Most steps have at most one.
fn note_all(notes: &mut Vec<Note>, out: &mut Outbox<Msg, StrongNote>) -> Result<(), NoMemory>
    ensures { OnOk result (out.new ≡ (out.old.0, out.old.1 ++ map AnInner notes.old.items)) }
{
    notes.reverse();
    while let Some(note) = notes.pop() {
        out.note(StrongNote::Inner(note))?;
    }
    Ok(())
}
