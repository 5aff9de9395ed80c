//! The report of strong sharing.
ghost use Rattle.std.specs.Prelude.{◌≡◌, ◌++◌, IfOk, OnOk, filter_map, length};
ghost use Rattle.report_lines.specs.Seen.{processed_in};
ghost use Rattle.strong_share.specs.Report.{head_lines, member_lines, named_members, packet_lines, strong_text};
ghost use Rattle.strong_share.specs.Words.{entries, inner_notes};

use crate::node::StrongNode;
use crate::note::StrongNote;
use actor_net::World;
use basics::{NoMemory, Text};
use flow_filter::Name;
use nf_function::{Function, Kind};
use nf_msgs::Note;
use report_lines::{
    NamedInstance, name_bytes, processed, push_dones, push_function_line, push_named, push_outs,
    push_standbys, push_states, push_tail, push_trace_line,
};
use std::alloc::Global;

/// What the report repeats: the function, the members' names, the window, and how the capture was read.
#[derive(Drop)]
pub struct StrongHead {
    pub kind: Kind,
    /// The members' names in order; member i is the one at place i.
    pub names: Vec<Name>,
    /// How many packets may be under way.
    pub window: u32,
    /// How many packets are steered.
    pub packets: u32,
    /// How many records of the capture are skipped.
    pub skipped: u32,
    /// Whether the capture ends within a record.
    pub cut: bool,
}

/// The report of a world.
#[tactic(auto, unfolding(crate::specs::Report::strong_text))]
pub fn report_strong<F: Function>(
    alloc: Global,
    head: &StrongHead,
    world: &World<StrongNode<F>>,
) -> Result<Text, NoMemory>
    ensures { IfOk result (λ text. text ≡ strong_text F.semantics head.now world.now) }
{
    let names = head.names.as_slice();
    let mut text = Text::open(alloc);
    head.push_lines(&mut text)?;
    push_log::<F>(alloc, &mut text, names, world.log())?;
    push_members(alloc, &mut text, names, world.nodes())?;
    Ok(text)
}

impl StrongHead {
    /// Puts the lines at the top of the report after a text.
    #[tactic(auto, unfolding(crate::specs::Report::head_lines))]
    fn push_lines(&self, text: &mut Text) -> Result<(), NoMemory>
        ensures { OnOk result (text.new ≡ text.old ++ head_lines self.now) }
    {
        let members = self.names.len() as u64;
        text.push_bytes(b"opennf strong 1\n")?;
        push_function_line(text, self.kind, members, self.window)?;
        push_trace_line(text, self.packets, self.skipped, self.cut)
    }
}

/// Puts the lines of the packets of a log after a text.
#[tactic(auto, using(crate::proofs::PacketLines::same_packets))]
fn push_log<F: Function>(
    alloc: Global,
    text: &mut Text,
    names: &[Name],
    log: &[StrongNote],
) -> Result<(), NoMemory>
    ensures { OnOk result (text.new ≡ text.old ++ packet_lines F.semantics names.now (inner_notes log.now) (entries log.now)) }
{
    let notes = processed_notes(alloc, log)?;
    let queued = entries(alloc, log)?;
    push_packets::<F>(alloc, text, names, &notes, &queued)
}

/// Puts the lines of the packets after a text: of those that were processed, and of those that were queued.
#[tactic(auto, unfolding(crate::specs::Report::packet_lines, crate::specs::Report::event_lines))]
fn push_packets<F: Function>(
    alloc: Global,
    text: &mut Text,
    names: &[Name],
    notes: &[Note],
    queued: &[(u32, u8)],
) -> Result<(), NoMemory>
    ensures { OnOk result (text.new ≡ text.old ++ packet_lines F.semantics names.now notes.now queued.now) }
{
    let names = name_bytes(alloc, names)?;
    push_outs::<F>(alloc, text, notes)?;
    push_named(alloc, text, b"event ", &names, queued)?;
    push_dones(alloc, text, &names, notes)
}

/// The notes that packets were processed.
fn processed_notes(alloc: Global, log: &[StrongNote]) -> Result<Vec<Note>, NoMemory>
    ensures { IfOk result (λ notes. notes.items ≡ filter_map processed_in (inner_notes log.now)) }
{
    let mut notes = Vec::new(alloc);
    for note in log {
        if let StrongNote::Inner(inner) = note {
            if let Some(note) = processed(inner) {
                notes.push(note)?;
            }
        }
    }
    Ok(notes)
}

/// What was queued: packets by their numbers, each with the member that raised it.
fn entries(alloc: Global, log: &[StrongNote]) -> Result<Vec<(u32, u8)>, NoMemory>
    ensures { IfOk result (λ queued. queued.items ≡ entries log.now) }
{
    let mut queued = Vec::new(alloc);
    for note in log {
        if let StrongNote::Queued { number, member } = note {
            queued.push((*number, *member))?;
        }
    }
    Ok(queued)
}

/// Puts the lines of the records and of the tallies of the members among the nodes after a text.
#[tactic(auto, unfolding(crate::specs::Report::member_lines))]
fn push_members<F: Function>(
    alloc: Global,
    text: &mut Text,
    names: &[Name],
    nodes: &[StrongNode<F>],
) -> Result<(), NoMemory>
    ensures { OnOk result (text.new ≡ text.old ++ member_lines F.semantics (length names.now) (named_members names.now nodes.now)) }
{
    let members = named_members(alloc, names, nodes)?;
    push_states(alloc, text, &members)?;
    push_standbys(alloc, text, &members)?;
    push_tail(text, names.len(), &members)
}

/// The members among the nodes, each under the name at its place.
fn named_members<'a, F: Function>(
    alloc: Global,
    names: &'a [Name],
    nodes: &'a [StrongNode<F>],
) -> Result<Vec<NamedInstance<'a, F>>, NoMemory>
    ensures { IfOk result (λ found. found.items ≡ named_members names.entry.now nodes.entry.now) }
{
    let mut left = names;
    let mut found = Vec::new(alloc);
    for node in nodes {
        let StrongNode::Instance(member) = node else {
            continue;
        };
        let [name, more @ ..] = left else {
            break;
        };
        let member = member.instance();
        found.push(NamedInstance::new(name.items(), member.table(), member.tally()))?;
        left = more;
    }
    Ok(found)
}
