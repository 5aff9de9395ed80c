//! A world that is done with. What the crates above drop of nodes, links and logs is dropped by these calls, so that it is proved here alone.
ghost use Rattle.std.specs.Prelude.{◌≡◌, ◌<◌, Some, true, slice_get, IfOk};
ghost use Rattle.nf_msgs.specs.Nodes.{instance_node};
ghost use Rattle.net_world.specs.Tables.{is_instance, table_at, table_in};

use crate::node::Node;
use actor_net::World;
use basics::NoMemory;
use nf_function::Function;
use nf_msgs::{MOST_INSTANCES, instance_node};
use record_table::Table;

/// Drops a world that is done with, as `drop` does.
pub fn discard<F: Function>(world: World<Node<F>>) {
    drop(world);
}

/// The records of an instance of a world that is done with. The rest of it is dropped.
pub fn into_table<F: Function>(world: World<Node<F>>, instance: u8) -> Result<Table<F>, NoMemory>
    requires few { instance < MOST_INSTANCES }
    requires there { is_instance (slice_get world.nodes (instance_node instance)) ≡ true }
    ensures { IfOk result (λ table. table ≡ table_at world instance) }
{
    let mut nodes = world.parts()?.nodes.into_vec();
    let node = nodes.swap_remove(usize::from(instance_node(instance)));
    Ok(table_in(node))
}

/// The records of a node that is an instance.
fn table_in<F: Function>(node: Node<F>) -> Table<F>
    requires { is_instance (Some node) ≡ true }
    ensures { result ≡ table_in (Some node) }
{
    match node {
        Node::Instance(found) => found.into_table(),
        _ => unreachable!(),
    }
}
