ghost use Rattle.std.specs.Prelude.{◌≡◌, ◌<◌, length, IfOk};
ghost use Rattle.net_world.specs.Start.{IsConfig, first_instance, first_nodes, started_with};

use crate::config::Config;
use crate::node::Node;
use actor_net::World;
use basics::NoMemory;
use ctrl_node::Ctrl;
use instance_worker::Instance;
use nf_function::Function;
use nf_msgs::Msg;
use std::alloc::Global;
use switch_node::Switch;

/// The world of a network in which nothing has happened yet, with this input.
#[tactic(auto, using(crate::proofs::StartingLemmas::few_nodes))]
pub fn start<F: Function>(
    alloc: Global,
    config: &Config,
    items: Vec<Msg>,
) -> Result<World<Node<F>>, NoMemory>
    requires { IsConfig config.now }
    ensures { IfOk result (λ world. world ≡ started_with alloc config.now items.items) }
{
    let nodes = first_nodes::<F>(alloc, config)?;
    World::start(alloc, nodes, items)
}

/// The nodes: the switch, the controller, and the instances in order.
fn first_nodes<F: Function>(alloc: Global, config: &Config) -> Result<Vec<Node<F>>, NoMemory>
    requires { IsConfig config.now }
    ensures { IfOk result (λ nodes. nodes.items ≡ first_nodes alloc config.now) }
{
    let instances = config.names.items().len() as u8;
    let routes = config.routes.items();
    let switch = Switch::open(alloc, config.window, instances, config.site, routes)?;
    let controller = Ctrl::open(alloc, config.names.copy()?, config.site)?;
    let mut nodes = Vec::new(alloc);
    nodes.push(Node::Switch(switch))?;
    nodes.push(Node::Controller(controller))?;
    for index in 0..instances {
        let instance = first_instance(alloc, config, index);
        nodes.push(Node::Instance(instance))?;
    }
    Ok(nodes)
}

/// An instance without records and rules.
fn first_instance<F: Function>(alloc: Global, config: &Config, index: u8) -> Instance<F>
    requires config { IsConfig config.now }
    requires index { index < length config.now.names }
    ensures { result ≡ first_instance alloc config.now index }
{
    let place = usize::from(index);
    let limit = config.limits.items()[place];
    let marked = config.marked.items()[place];
    Instance::open(alloc, index, limit, marked, config.site)
}
