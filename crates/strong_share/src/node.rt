//! The nodes of strong sharing, each with its step.
use crate::controller::StrongCtrl;
use crate::member::Member;
use crate::note::StrongNote;
use crate::switch::StrongSwitch;
use actor_net::{Actor, Outbox};
use basics::NoMemory;
use nf_function::Function;
use nf_msgs::Msg;

/// A node of strong sharing: the switch is node 0, the controller node 1, and member i node i + 2.
#[derive(Drop)]
pub enum StrongNode<F: Function> {
    Switch(StrongSwitch),
    Ctrl(StrongCtrl),
    Instance(Member<F>),
}

impl<F: Function> Actor for StrongNode<F> {
    ghost use Rattle.strong_share.specs.Tables.{node_ready, node_step, node_ended};

    type Message = Msg;

    type Note = StrongNote;

    ghost stepped = { node_step F.semantics };

    ghost is_ready = { node_ready };

    ghost has_ended = { node_ended };

    fn ready(&self, item: &Msg) -> bool {
        match (self, item) {
            (StrongNode::Switch(switch), Msg::InPacket(_)) => switch.window.has_room(),
            _ => true,
        }
    }

    fn step(
        &mut self,
        port: u8,
        message: Msg,
        out: &mut Outbox<Msg, StrongNote>,
    ) -> Result<(), NoMemory> {
        match self {
            StrongNode::Switch(switch) => switch.step(message, out),
            StrongNode::Ctrl(controller) => controller.step(port, message, out),
            StrongNode::Instance(member) => member.step(port, message, out),
        }
    }

    fn ended(&self) -> bool {
        match self {
            StrongNode::Switch(switch) => switch.window.has_ended(),
            StrongNode::Ctrl(controller) => controller.ended(),
            StrongNode::Instance(member) => member.instance().ended(),
        }
    }
}
