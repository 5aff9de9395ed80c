//! The lines of a packet's number and the name of an instance: where packets were processed.
ghost use Rattle.std.specs.Prelude.{◌≡◌, ◌≤◌, ◌++◌, codes, length, map, IfOk, OnOk};
ghost use Rattle.std.specs.List.{flat_map};
ghost use Rattle.counted_lines.specs.Pages.{pending, word_of};
ghost use Rattle.counted_lines.specs.declared.block.TheConstants.{WORD};
ghost use Rattle.report_lines.specs.Lines.{done_line, done_lines, named_line};
ghost use Rattle.report_lines.specs.Pieces.{named_text};
ghost use Rattle.report_lines.specs.Seen.{name_seen, processed_in, texts_seen};

use crate::ends::NameEnd;
use basics::{NoMemory, Text};
use counted_lines::CountedLines;
use flow_filter::Name;
use nf_msgs::Note;
use std::alloc::Global;

/// Puts the line of each packet that was processed after a text, in the order of the log. Instance i has the name at place i.
pub fn push_dones(
    alloc: Global,
    text: &mut Text,
    names: &[&[u8]],
    log: &[Note],
) -> Result<(), NoMemory>
    ensures { OnOk result (text.new ≡ text.old ++ done_lines (texts_seen names.now) log.now) }
{
    let ends = name_ends(alloc, names)?;
    let mut lines = CountedLines::open(alloc, b"done ")?;
    for note in log {
        push_done(text, &mut lines, &ends, note)?;
    }
    lines.flush(text)
}

/// Puts a line that begins with a word for each packet's number and an instance's, as they stand. Instance i has the name at place i.
pub fn push_named(
    alloc: Global,
    text: &mut Text,
    word: &'static [u8],
    names: &[&[u8]],
    packets: &[(u32, u8)],
) -> Result<(), NoMemory>
    requires { length word.now ≤ WORD }
    ensures { OnOk result (text.new ≡ text.old ++ flat_map (named_line word.now (texts_seen names.now)) packets.now) }
{
    let ends = name_ends(alloc, names)?;
    let mut lines = CountedLines::open(alloc, word)?;
    for (number, instance) in packets {
        push_at(text, &mut lines, word, &ends, *number, *instance)?;
    }
    lines.flush(text)
}

/// The ends of the instances' names, in their order.
fn name_ends<'a>(alloc: Global, names: &[&'a [u8]]) -> Result<Vec<NameEnd<'a>>, NoMemory>
    ensures { IfOk result (λ ends. map name_seen ends.items ≡ texts_seen names.now) }
{
    let mut ends = Vec::with_capacity(alloc, names.len())?;
    for name in names {
        ends.push(NameEnd::of(*name))?;
    }
    Ok(ends)
}

/// Puts the line of a packet that was processed after the text and the lines that are still to go there.
#[inline(always)]
fn push_done(
    text: &mut Text,
    lines: &mut CountedLines,
    ends: &[NameEnd<'_>],
    note: &Note,
) -> Result<(), NoMemory>
    requires { word_of lines.old ≡ codes "done " }
    ensures text { OnOk result (text.new ++ pending lines.new ≡ (text.old ++ pending lines.old) ++ done_line (map name_seen ends.now) note.now) }
    ensures word { word_of lines.new ≡ word_of lines.old }
{
    match note {
        Note::Processed {
            number,
            instance,
            ..
        } => push_at(text, lines, b"done ", ends, *number, *instance),
        _ => Ok(()),
    }
}

/// Puts the line of a word, a number and an instance.
#[tactic(auto, unfolding(crate::specs::Lines::named_line))]
#[inline(always)]
fn push_at(
    text: &mut Text,
    lines: &mut CountedLines,
    word: &[u8],
    ends: &[NameEnd<'_>],
    number: u32,
    instance: u8,
) -> Result<(), NoMemory>
    requires { word_of lines.old ≡ word.now }
    ensures text { OnOk result
        (text.new ++ pending lines.new ≡ (text.old ++ pending lines.old) ++ named_line word.now (map name_seen ends.now) (number, instance)) }
    ensures word { word_of lines.new ≡ word_of lines.old }
{
    match ends.get(usize::from(instance)) {
        Some(end) => push_ended(text, lines, word, end, number),
        None => push_other(text, lines, word, number, &[]),
    }
}

/// Puts the line of a word, a number and what ends the line.
#[inline(always)]
fn push_ended(
    text: &mut Text,
    lines: &mut CountedLines,
    word: &[u8],
    named: &NameEnd<'_>,
    number: u32,
) -> Result<(), NoMemory>
    requires { word_of lines.old ≡ word.now }
    ensures text { OnOk result (text.new ++ pending lines.new ≡ (text.old ++ pending lines.old) ++ named_text word.now number (name_seen named.now)) }
    ensures word { word_of lines.new ≡ word_of lines.old }
{
    match named.block() {
        Some(end) => lines.push(text, u64::from(number), end),
        None => push_other(text, lines, word, number, named.name()),
    }
}

/// Puts the line of a number and a name that is long, or isn't there.
#[cold]
#[inline(never)]
fn push_other(
    text: &mut Text,
    lines: &mut CountedLines,
    word: &[u8],
    number: u32,
    name: &[u8],
) -> Result<(), NoMemory>
    requires { word_of lines.old ≡ word.now }
    ensures text { OnOk result (text.new ++ pending lines.new ≡ (text.old ++ pending lines.old) ++ named_text word.now number name.now) }
    ensures word { word_of lines.new ≡ word_of lines.old }
{
    lines.flush(text)?;
    push_long(text, word, number, name)
}

/// Puts the line `WORD NUMBER NAME` after a text that has all lines so far.
fn push_long(text: &mut Text, word: &[u8], number: u32, name: &[u8]) -> Result<(), NoMemory>
    ensures { OnOk result (text.new ≡ text.old ++ named_text word.now number name.now) }
{
    text.push_bytes(word)?;
    text.push_decimal(u64::from(number))?;
    text.push_bytes(b" ")?;
    text.push_bytes(name)?;
    text.push_bytes(b"\n")
}

/// The bytes of names, in their order.
pub fn name_bytes(alloc: Global, names: &[Name]) -> Result<Vec<&[u8]>, NoMemory>
    ensures { IfOk result (λ found. texts_seen found.items ≡ names.entry.now) }
{
    let mut found = Vec::with_capacity(alloc, names.len())?;
    for name in names {
        found.push(name.items())?;
    }
    Ok(found)
}

/// The same note again where it tells that a packet was processed. The lines of packets are read off such notes alone.
pub fn processed(note: &Note) -> Option<Note>
    ensures { result ≡ processed_in note.now }
{
    match note {
        Note::Processed {
            number,
            instance,
            output,
        } => Some(Note::Processed {
            number: *number,
            instance: *instance,
            output: *output,
        }),
        _ => None,
    }
}
