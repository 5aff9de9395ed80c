//! The report of a world of a run: its head, the lines of packets, answers and records, and its tail.
ghost use Rattle.std.specs.Prelude.{◌≡◌, ◌++◌, IfOk, OnOk};
ghost use Rattle.run_report.specs.Lines.{head_lines, named_instances, packet_lines, record_lines, report_text, whole_lines};
ghost use Rattle.report_lines.specs.Lines.{tail_lines};

use crate::answers::push_answers;
use crate::instances::{named_instances, push_lives};
use actor_net::World;
use basics::{NoMemory, Text};
use flow_filter::Name;
use net_world::{Node, log_of, nodes_of};
use nf_function::Function;
use nf_msgs::Note;
use report_lines::{
    Head, NamedInstance, name_bytes, push_dones, push_function_line, push_outs, push_standbys,
    push_states, push_tail, push_trace_line,
};
use std::alloc::Global;

/// The report of a world. A summary has counts in place of the lines of packets and records.
pub fn report<F: Function>(
    alloc: Global,
    head: &Head,
    world: &World<Node<F>>,
    summary: bool,
) -> Result<Text, NoMemory>
    ensures { IfOk result (λ text. text ≡ report_text F.semantics head.now summary world.now) }
{
    let found = named_instances(alloc, head.names.items(), nodes_of(world))?;
    let mut text = Text::open(alloc);
    push_report(alloc, &mut text, head, world, &found, summary)?;
    Ok(text)
}

/// Puts all lines after a text.
#[tactic(auto, unfolding(crate::specs::Lines::report_text, crate::specs::Lines::summary_lines))]
fn push_report<F: Function>(
    alloc: Global,
    text: &mut Text,
    head: &Head,
    world: &World<Node<F>>,
    found: &[NamedInstance<'_, F>],
    summary: bool,
) -> Result<(), NoMemory>
    requires { found.now ≡ named_instances head.now.names world.now.nodes }
    ensures { OnOk result (text.new ≡ text.old ++ report_text F.semantics head.now summary world.now) }
{
    push_head(text, head)?;
    if summary {
        push_answers(alloc, text, log_of(world))?;
        push_lives(text, found)?;
    } else {
        push_whole(alloc, text, head, world, found)?;
    }
    push_tail(text, head.names.items().len(), found)
}

/// Puts the lines at the top of the report after a text.
#[tactic(auto, unfolding(crate::specs::Lines::head_lines))]
fn push_head(text: &mut Text, head: &Head) -> Result<(), NoMemory>
    ensures { OnOk result (text.new ≡ text.old ++ head_lines head.now) }
{
    let instances = head.names.items().len() as u64;
    text.push_bytes(b"opennf report 1\n")?;
    push_function_line(text, head.kind, instances, head.window)?;
    push_trace_line(text, head.packets, head.skipped, head.cut)
}

/// Puts the lines of packets, answers and records after a text.
#[tactic(auto, unfolding(crate::specs::Lines::whole_lines))]
fn push_whole<F: Function>(
    alloc: Global,
    text: &mut Text,
    head: &Head,
    world: &World<Node<F>>,
    found: &[NamedInstance<'_, F>],
) -> Result<(), NoMemory>
    requires { found.now ≡ named_instances head.now.names world.now.nodes }
    ensures { OnOk result (text.new ≡ text.old ++ whole_lines F.semantics head.now world.now) }
{
    push_packets::<F>(alloc, text, head.names.items(), log_of(world))?;
    push_answers(alloc, text, log_of(world))?;
    push_records(alloc, text, found)
}

/// Puts the lines of the packets after a text.
#[tactic(auto, unfolding(crate::specs::Lines::packet_lines))]
fn push_packets<F: Function>(
    alloc: Global,
    text: &mut Text,
    names: &[Name],
    log: &[Note],
) -> Result<(), NoMemory>
    ensures { OnOk result (text.new ≡ text.old ++ packet_lines F.semantics names.now log.now) }
{
    let names = name_bytes(alloc, names)?;
    push_outs::<F>(alloc, text, log)?;
    push_dones(alloc, text, &names, log)
}

/// Puts the lines of the records after a text.
#[tactic(auto, unfolding(crate::specs::Lines::record_lines))]
fn push_records<F: Function>(
    alloc: Global,
    text: &mut Text,
    instances: &[NamedInstance<'_, F>],
) -> Result<(), NoMemory>
    ensures { OnOk result (text.new ≡ text.old ++ record_lines F.semantics instances.now) }
{
    push_states(alloc, text, instances)?;
    push_standbys(alloc, text, instances)
}
