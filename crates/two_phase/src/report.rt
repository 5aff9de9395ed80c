//! The report of an update.
ghost use Rattle.std.specs.Prelude.{◌≡◌, ◌++◌, IfOk, OnOk, filter_map, flat_map};
ghost use Rattle.report_lines.specs.Seen.{processed_in, texts_seen};
ghost use Rattle.two_phase.specs.Promises.{inner_notes};
ghost use Rattle.two_phase.specs.Report.{head_lines, instance_lines, named_instances, packet_lines, two_text, verdict_line};

use crate::node::TwoNode;
use crate::note::TwoNote;
use actor_net::World;
use basics::{NoMemory, Text};
use nf_function::{Function, Kind};
use nf_msgs::Note;
use report_lines::{
    NamedInstance, processed, push_dones, push_function_line, push_outs, push_states, push_tail,
    push_trace_line,
};
use std::alloc::Global;

/// What the report repeats: the function, the window, and how the capture was read.
#[derive(Drop)]
pub struct TwoHead {
    pub kind: Kind,
    /// How many packets may be under way.
    pub window: u32,
    /// How many packets are steered.
    pub packets: u32,
    /// How many records of the capture are skipped.
    pub skipped: u32,
    /// Whether the capture ends within a record.
    pub cut: bool,
}

/// The report of a world.
#[tactic(auto, unfolding(crate::specs::Report::two_text))]
pub fn report_two<F: Function>(
    alloc: Global,
    head: &TwoHead,
    world: &World<TwoNode<F>>,
) -> Result<Text, NoMemory>
    ensures { IfOk result (λ text. text ≡ two_text F.semantics head.now world.now) }
{
    let names: [&[u8]; 2] = [b"a", b"b"];
    let mut text = Text::open(alloc);
    head.push_lines(&mut text)?;
    push_log::<F>(alloc, &mut text, &names, world.log())?;
    push_verdicts(&mut text, world.log())?;
    push_instances(alloc, &mut text, &names, world.nodes())?;
    Ok(text)
}

impl TwoHead {
    /// Puts the lines at the top of the report after a text.
    #[tactic(auto, unfolding(crate::specs::Report::head_lines))]
    fn push_lines(&self, text: &mut Text) -> Result<(), NoMemory>
        ensures { OnOk result (text.new ≡ text.old ++ head_lines self.now) }
    {
        text.push_bytes(b"opennf published 1\n")?;
        push_function_line(text, self.kind, 2, self.window)?;
        push_trace_line(text, self.packets, self.skipped, self.cut)
    }
}

/// Puts the lines of the packets of a log after a text.
#[tactic(auto, using(crate::proofs::PacketLines::packets_put))]
fn push_log<F: Function>(
    alloc: Global,
    text: &mut Text,
    names: &[&[u8]],
    log: &[TwoNote],
) -> Result<(), NoMemory>
    ensures { OnOk result (text.new ≡ text.old ++ packet_lines F.semantics (texts_seen names.now) (inner_notes log.now)) }
{
    let notes = processed_notes(alloc, log)?;
    push_outs::<F>(alloc, text, &notes)?;
    push_dones(alloc, text, names, &notes)
}

/// The notes that packets were processed.
fn processed_notes(alloc: Global, log: &[TwoNote]) -> Result<Vec<Note>, NoMemory>
    ensures { IfOk result (λ notes. notes.items ≡ filter_map processed_in (inner_notes log.now)) }
{
    let mut notes = Vec::new(alloc);
    for note in log {
        if let TwoNote::Inner(inner) = note {
            if let Some(note) = processed(inner) {
                notes.push(note)?;
            }
        }
    }
    Ok(notes)
}

/// Puts the lines of the update's end after a text.
fn push_verdicts(text: &mut Text, log: &[TwoNote]) -> Result<(), NoMemory>
    ensures { OnOk result (text.new ≡ text.old ++ flat_map verdict_line log.now) }
{
    for note in log {
        text.push_bytes(verdict_line(note).as_bytes())?;
    }
    Ok(())
}

/// The line of a note: what the update came to, or nothing.
fn verdict_line(note: &TwoNote) -> &'static str
    ensures { result.now ≡ verdict_line note.now }
{
    match note {
        TwoNote::Done => "answer 1 done\n",
        TwoNote::NoPacket => "answer 1 no packet\n",
        _ => "",
    }
}

/// Puts the lines of the records and of the tallies of the instances among the nodes after a text.
#[tactic(auto, unfolding(crate::specs::Report::instance_lines))]
fn push_instances<F: Function>(
    alloc: Global,
    text: &mut Text,
    names: &[&'static [u8]],
    nodes: &[TwoNode<F>],
) -> Result<(), NoMemory>
    ensures { OnOk result (text.new ≡ text.old ++ instance_lines F.semantics (named_instances (texts_seen names.now) nodes.now)) }
{
    let instances = named_instances(alloc, names, nodes)?;
    push_states(alloc, text, &instances)?;
    push_tail(text, 2, &instances)
}

/// The instances among the nodes, each under the name at its place.
fn named_instances<'a, F: Function>(
    alloc: Global,
    names: &[&'static [u8]],
    nodes: &'a [TwoNode<F>],
) -> Result<Vec<NamedInstance<'a, F>>, NoMemory>
    ensures { IfOk result (λ found. found.items ≡ named_instances (texts_seen names.now) nodes.entry.now) }
{
    let mut left = names;
    let mut found = Vec::new(alloc);
    for node in nodes {
        let TwoNode::Instance(instance) = node else {
            continue;
        };
        let [name, more @ ..] = left else {
            break;
        };
        found.push(NamedInstance::new(name, instance.table(), instance.tally()))?;
        left = more;
    }
    Ok(found)
}
