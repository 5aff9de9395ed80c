use actor_net::{Actor, Outbox};
use basics::NoMemory;
use ctrl_node::Ctrl;
use instance_worker::Instance;
use nf_function::Function;
use nf_msgs::{Msg, Note};
use switch_node::Switch;

/// A node of the network: the switch is node 0, the controller node 1, and instance i node i + 2.
#[derive(Drop)]
pub enum Node<F: Function> {
    Switch(Switch),
    Controller(Ctrl),
    Instance(Instance<F>),
}

impl<F: Function> Actor for Node<F> {
    ghost use Rattle.net_world.specs.Nodes.{node_ready, node_step, node_ended};

    type Message = Msg;

    type Note = Note;

    ghost stepped = { node_step F.semantics };

    ghost is_ready = { node_ready };

    ghost has_ended = { node_ended };

    #[inline(always)]
    fn ready(&self, item: &Msg) -> bool {
        match self {
            Node::Switch(switch) => switch.ready(item),
            Node::Controller(controller) => controller.ready(item),
            Node::Instance(instance) => instance.ready(item),
        }
    }

    #[inline(always)]
    fn step(
        &mut self,
        port: u8,
        message: Msg,
        out: &mut Outbox<Msg, Note>,
    ) -> Result<(), NoMemory> {
        match self {
            Node::Switch(switch) => switch.step(port, message, out),
            Node::Controller(controller) => controller.step(port, message, out),
            Node::Instance(instance) => instance.step(port, message, out),
        }
    }

    fn ended(&self) -> bool {
        match self {
            Node::Switch(switch) => switch.ended(),
            Node::Controller(controller) => controller.ended(),
            Node::Instance(instance) => instance.ended(),
        }
    }
}
