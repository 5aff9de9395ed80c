//! The world after the first of some choices, and the records of its instances.
ghost use Rattle.std.specs.Prelude.{◌≡◌, ◌<◌, ℕ, true, length, slice_get, take, IfOk};
ghost use Rattle.nf_msgs.specs.Nodes.{instance_node};
ghost use Rattle.net_world.specs.Input.{IsInput};
ghost use Rattle.net_world.specs.Start.{started_with};
ghost use Rattle.net_world.specs.Tables.{is_instance, table_at};
ghost use Rattle.standby_failover.specs.Causes.{IsFailCause, IsReached, first_of, world_after};

use actor_net::{Choices, World};
use net_world::{Config, Node, discard, nodes_of};
use nf_function::Function;
use nf_msgs::{MOST_INSTANCES, Msg, instance_node};
use nf_net::{AuditFault, run_course};
use record_table::Table;
use std::alloc::Global;

/// The world of a network after the first so many choices. In every case these alone are then left.
pub(crate) fn world_after<F: Function>(
    alloc: Global,
    config: &Config,
    items: Vec<Msg>,
    choices: &mut Choices,
    after: u64,
) -> Result<World<Node<F>>, AuditFault>
    requires { IsInput F.semantics.kind config.now items.items }
    ensures reached { IfOk result (λ _. IsReached {F = F.row.Denot} F.semantics (started_with alloc config.now items.items) (first_of choices.old after)) }
    ensures world { IfOk result (λ world. world ≡ world_after F.semantics (started_with alloc config.now items.items) (first_of choices.old after)) }
    ensures choices { choices.new ≡ take after choices.old }
    ensures instances { IfOk result (λ world. (i : ℕ) → i < length config.now.names → is_instance (slice_get world.nodes (instance_node i)) ≡ true) }
    ensures not_a_run { (step : ℕ) → result ≡ Err (AuditFault.NotARun step)
        → IsFailCause {F = F.row.Denot} F.semantics (started_with alloc config.now items.items) (first_of choices.old after) step }
{
    let count = choices.len() as u64;
    choices.truncate(after as usize);
    let world = run_course::<F>(alloc, config, items, choices)?;
    if after > count {
        discard(world);
        return Err(AuditFault::NotARun { step: count + 1 });
    }
    Ok(world)
}

/// The records of an instance of a world.
pub(crate) fn table_of<F: Function>(world: &World<Node<F>>, instance: u8) -> &Table<F>
    requires few { instance < MOST_INSTANCES }
    requires there { is_instance (slice_get world.now.nodes (instance_node instance)) ≡ true }
    ensures { result.now ≡ table_at world.now instance }
{
    match nodes_of(world).get(usize::from(instance_node(instance))) {
        Some(Node::Instance(found)) => found.table(),
        _ => unreachable!(),
    }
}
