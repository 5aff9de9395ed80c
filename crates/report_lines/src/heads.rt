ghost use Rattle.std.specs.Prelude.{◌≡◌, ◌++◌, OnOk};
ghost use Rattle.report_lines.specs.Lines.{function_line, trace_line};
ghost use Rattle.report_lines.specs.Pieces.{counts_text, end_text, function_text};

use basics::{NoMemory, Text};
use nf_function::Kind;
use nf_msgs::Names;

/// What a report repeats: the function, the instances' names, the window, and how the capture was read.
#[derive(Debug, Drop)]
pub struct Head {
    pub kind: Kind,
    /// The instances' names in order; instance i is the one at place i.
    pub names: Names,
    /// How many packets may be under way.
    pub window: u32,
    /// How many packets are steered.
    pub packets: u32,
    /// How many records of the capture are skipped.
    pub skipped: u32,
    /// Whether the capture ends within a record.
    pub cut: bool,
}

/// Puts the line of the function, the number of instances and the window after a text.
#[tactic(auto, unfolding(crate::specs::Lines::function_line))]
pub fn push_function_line(
    text: &mut Text,
    kind: Kind,
    instances: u64,
    window: u32,
) -> Result<(), NoMemory>
    ensures { OnOk result (text.new ≡ text.old ++ function_line kind instances window) }
{
    push_function(text, kind, instances)?;
    text.push_bytes(b" window ")?;
    text.push_decimal(u64::from(window))?;
    text.push_bytes(b"\n")
}

/// Puts the function's name and the number of instances.
#[tactic(auto, unfolding(crate::specs::Pieces::function_text))]
fn push_function(text: &mut Text, kind: Kind, instances: u64) -> Result<(), NoMemory>
    ensures { OnOk result (text.new ≡ text.old ++ function_text kind instances) }
{
    text.push_bytes(b"function ")?;
    text.push_bytes(kind.name().as_bytes())?;
    text.push_bytes(b" instances ")?;
    text.push_decimal(instances)
}

/// Puts the line of the capture after a text: how many packets are steered, how many of its records are skipped, and whether it ends within
/// a record.
#[tactic(auto, unfolding(crate::specs::Lines::trace_line))]
pub fn push_trace_line(
    text: &mut Text,
    packets: u32,
    skipped: u32,
    cut: bool,
) -> Result<(), NoMemory>
    ensures { OnOk result (text.new ≡ text.old ++ trace_line packets skipped cut) }
{
    push_counts(text, packets, skipped)?;
    text.push_bytes(end_name(cut).as_bytes())?;
    text.push_bytes(b"\n")
}

/// Puts how many packets are steered and how many records are skipped.
#[tactic(auto, unfolding(crate::specs::Pieces::counts_text))]
fn push_counts(text: &mut Text, packets: u32, skipped: u32) -> Result<(), NoMemory>
    ensures { OnOk result (text.new ≡ text.old ++ counts_text packets skipped) }
{
    text.push_bytes(b"trace packets ")?;
    text.push_decimal(u64::from(packets))?;
    text.push_bytes(b" skipped ")?;
    text.push_decimal(u64::from(skipped))?;
    text.push_bytes(b" ")
}

/// Whether the capture ends within a record, in a word.
fn end_name(is_cut: bool) -> &'static str
    ensures { result.now ≡ end_text is_cut }
{
    if is_cut { "cut" } else { "whole" }
}
