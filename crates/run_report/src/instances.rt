ghost use Rattle.std.specs.Prelude.{◌≡◌, ◌++◌, IfOk, OnOk};
ghost use Rattle.std.specs.List.{flat_map};
ghost use Rattle.run_report.specs.Lines.{live_line, named_instances};

use basics::{NoMemory, Text};
use flow_filter::Name;
use net_world::Node;
use nf_function::Function;
use report_lines::NamedInstance;
use std::alloc::Global;

/// The instances among the nodes, each under the name at its place.
pub(crate) fn named_instances<'a, F: Function>(
    alloc: Global,
    names: &'a [Name],
    nodes: &'a [Node<F>],
) -> Result<Vec<NamedInstance<'a, F>>, NoMemory>
    ensures { IfOk result (λ found. found.items ≡ named_instances names.entry.now nodes.entry.now) }
{
    let mut left = names;
    let mut found = Vec::new(alloc);
    for node in nodes {
        let Node::Instance(instance) = node else {
            continue;
        };
        let [name, more @ ..] = left else {
            break;
        };
        found.push(NamedInstance::new(name.items(), instance.table(), instance.tally()))?;
        left = more;
    }
    Ok(found)
}

/// Puts the line of each instance's number of live records after a text.
pub(crate) fn push_lives<F: Function>(
    text: &mut Text,
    instances: &[NamedInstance<'_, F>],
) -> Result<(), NoMemory>
    ensures { OnOk result (text.new ≡ text.old ++ flat_map live_line instances.now) }
{
    for named in instances {
        push_live(text, named)?;
    }
    Ok(())
}

/// Puts the line of an instance's number of live records after a text: `live NAME N`.
#[tactic(auto, unfolding(crate::specs::Lines::live_line))]
fn push_live<F: Function>(text: &mut Text, named: &NamedInstance<'_, F>) -> Result<(), NoMemory>
    ensures { OnOk result (text.new ≡ text.old ++ live_line named.now) }
{
    text.push_bytes(b"live ")?;
    text.push_bytes(named.name())?;
    text.push_bytes(b" ")?;
    text.push_decimal(u64::from(named.table().live_count()))?;
    text.push_bytes(b"\n")
}
