//! What is read of a world. These calls are generic in the function alone: a call of a method of [`World`] at `Node<F>` asks that nodes can be dropped,
//! and that is proved here, and not in each crate above.
ghost use Rattle.std.specs.Prelude.{◌≡◌};
ghost use Rattle.actor_net.specs.Network.{is_done};
ghost use Rattle.net_world.specs.Nodes.{node_ended};

use crate::node::Node;
use actor_net::World;
use nf_function::Function;
use nf_msgs::Note;

/// The nodes of a world: the switch, the controller, and the instances in order.
pub fn nodes_of<F: Function>(world: &World<Node<F>>) -> &[Node<F>]
    ensures { result.now ≡ world.now.nodes }
{
    world.nodes()
}

/// The notes of a world, in the order in which they were made.
pub fn log_of<F: Function>(world: &World<Node<F>>) -> &[Note]
    ensures { result.now ≡ world.now.log }
{
    world.log()
}

/// Whether nothing is left to do in a world: no input, no message on a link, and each node has ended.
pub fn is_complete<F: Function>(world: &World<Node<F>>) -> bool
    ensures { result ≡ is_done node_ended world.now }
{
    world.complete()
}
