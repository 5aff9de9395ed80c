//! The four nodes of a two-phase update as one type, and what its instances tell besides.
ghost use Rattle.std.specs.Prelude.{◌≡◌, ◌++◌, map, OnOk};
ghost use Rattle.two_phase.specs.declared.note.TwoNote.TheVariants.{Inner as AnInner};
ghost use Rattle.two_phase.specs.Tables.{inner_step, passed, sent_inside, told_of};

use crate::controller::TwoCtrl;
use crate::msg::TwoMsg;
use crate::note::TwoNote;
use crate::roles::THE_UPDATE;
use crate::switch::TwoSwitch;
use actor_net::{Actor, Outbox};
use basics::{Boxed, NoMemory};
use event_filter::Mark;
use flow_filter::Packet;
use instance_worker::Instance;
use nf_function::Function;
use nf_msgs::{CONTROLLER, Msg, Note};
use std::alloc::Global;
use std::collections::VecDeque;

/// A node of an update: the switch is node 0, the controller node 1, the source node 2, and the destination node 3.
#[derive(Drop)]
pub enum TwoNode<F: Function> {
    Switch(TwoSwitch),
    Ctrl(TwoCtrl),
    Instance(Instance<F>),
}

impl<F: Function> Actor for TwoNode<F> {
    ghost use Rattle.two_phase.specs.Tables.{node_ready, node_step, node_ended};

    type Message = TwoMsg;

    type Note = TwoNote;

    ghost stepped = { node_step F.semantics };

    ghost is_ready = { node_ready };

    ghost has_ended = { node_ended };

    fn ready(&self, item: &TwoMsg) -> bool {
        match (self, item) {
            (TwoNode::Switch(switch), TwoMsg::InPacket(_)) => switch.window.has_room(),
            _ => true,
        }
    }

    fn step(
        &mut self,
        port: u8,
        message: TwoMsg,
        out: &mut Outbox<TwoMsg, TwoNote>,
    ) -> Result<(), NoMemory> {
        match self {
            TwoNode::Switch(switch) => switch.step(message, out),
            TwoNode::Ctrl(controller) => controller.step(port, message, out),
            TwoNode::Instance(instance) => step_instance(instance, port, message, out),
        }
    }

    fn ended(&self) -> bool {
        match self {
            TwoNode::Switch(switch) => switch.window.has_ended(),
            TwoNode::Ctrl(controller) => controller.ended(),
            TwoNode::Instance(instance) => instance.ended(),
        }
    }
}

/// The step of an instance. It tells the controller besides which packet it took past its rules.
fn step_instance<F: Function>(
    instance: &mut Instance<F>,
    port: u8,
    message: TwoMsg,
    out: &mut Outbox<TwoMsg, TwoNote>,
) -> Result<(), NoMemory>
    ensures node { OnOk result (instance.new ≡ (inner_step F.semantics instance.old message).node) }
    ensures sends { OnOk result (out.new.0 ≡ out.old.0 ++ (inner_step F.semantics instance.old message).sends) }
    ensures notes { OnOk result (out.new.1 ≡ out.old.1 ++ (inner_step F.semantics instance.old message).notes) }
{
    let TwoMsg::Inner(message) = message else {
        drop(message);
        return Ok(());
    };
    let passed = passed(&message);
    let mut inner = Outbox::open(instance.alloc());
    instance.step(port, message, &mut inner)?;
    move_all(inner, out)?;
    tell(instance.alloc(), passed, out)
}

/// Moves what an instance sends and notes to what the update does, in order.
fn move_all(inner: Outbox<Msg, Note>, out: &mut Outbox<TwoMsg, TwoNote>) -> Result<(), NoMemory>
    ensures { OnOk result (out.new ≡ (out.old.0 ++ map sent_inside inner.0, out.old.1 ++ map AnInner inner.1)) }
{
    let (sent, notes) = inner.parts();
    send_all(VecDeque::from_vec(sent), out)?;
    note_all(VecDeque::from_vec(notes), out)
}

/// A copy of the packet that a message takes past the rules.
fn passed(message: &Msg) -> Option<Packet>
    ensures { result ≡ passed message.now }
{
    match message {
        Msg::Carry {
            mark: Mark::Pass(_),
            parcel,
        } => Some(*parcel.packet()),
        _ => None,
    }
}

/// Tells the controller which packet was taken past the rules.
fn tell(
    alloc: Global,
    passed: Option<Packet>,
    out: &mut Outbox<TwoMsg, TwoNote>,
) -> Result<(), NoMemory>
    ensures { OnOk result (out.new ≡ (out.old.0 ++ told_of passed, out.old.1)) }
{
    let Some(packet) = passed else {
        return Ok(());
    };
    let packet = Boxed::new(alloc, packet)?;
    let op = THE_UPDATE;
    out.send(CONTROLLER, TwoMsg::Inner(Msg::Seen { op, packet }))
}

/// Sends these messages, in order.
fn send_all(
    mut sent: VecDeque<(u8, Msg)>,
    out: &mut Outbox<TwoMsg, TwoNote>,
) -> Result<(), NoMemory>
    ensures { OnOk result (out.new ≡ (out.old.0 ++ map sent_inside sent.items, out.old.1)) }
{
    while let Some((to, message)) = sent.pop_front() {
        out.send(to, TwoMsg::Inner(message))?;
    }
    Ok(())
}

/// Notes these, in order.
fn note_all(mut notes: VecDeque<Note>, out: &mut Outbox<TwoMsg, TwoNote>) -> Result<(), NoMemory>
    ensures { OnOk result (out.new ≡ (out.old.0, out.old.1 ++ map AnInner notes.items)) }
{
    while let Some(note) = notes.pop_front() {
        out.note(TwoNote::Inner(note))?;
    }
    Ok(())
}
