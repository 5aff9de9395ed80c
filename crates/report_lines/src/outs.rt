//! The lines of the packets' outputs.
ghost use Rattle.std.specs.Prelude.{◌≡◌, ◌++◌, true, codes, filter_map, length, take, IfOk, OnOk};
ghost use Rattle.counted_lines.specs.Pages.{pending, word_of};
ghost use Rattle.report_lines.specs.Lines.{by_number, out_line, out_lines, output_in};

use crate::ends::OutputEnds;
use basics::{NoMemory, Text};
use counted_lines::CountedLines;
use nf_function::{Function, Output};
use nf_msgs::Note;
use std::alloc::Global;
use std::mem;

/// Puts the line of each packet's output after a text, by the packets' numbers. They nearly always stand in the log by their numbers, so
/// they are put in its order, and begun anew where they don't.
pub fn push_outs<F: Function>(alloc: Global, text: &mut Text, log: &[Note]) -> Result<(), NoMemory>
    ensures { OnOk result (text.new ≡ text.old ++ out_lines F.semantics log.now) }
{
    let before = text.items().len();
    let lines = CountedLines::open(alloc, b"out ")?;
    let ends = OutputEnds::<F>::open(alloc)?;
    let mut outs = OutLines { lines, ends };
    let in_order = outs.push_noted(text, log)?;
    outs.lines.flush(text)?;
    if in_order {
        return Ok(());
    }
    cut_to(alloc, text, before);
    outs.push_sorted(alloc, text, log)?;
    outs.lines.flush(text)
}

/// Cuts a text to its first bytes, without a copy.
#[cold]
fn cut_to(alloc: Global, text: &mut Text, len: usize)
    ensures { text.new ≡ take len text.old }
{
    let mut bytes = mem::replace(text, Text::open(alloc)).into_vec();
    bytes.truncate(len);
    *text = Text::from_vec(bytes);
}

/// The lines that are still to go to a text, and the ends of those before them.
#[derive(Drop)]
struct OutLines<F: Function> {
    lines: CountedLines,
    ends: OutputEnds<F>,
    ghost word: { word_of lines ≡ codes "out " },
}

impl<F: Function> OutLines<F> {
    /// Puts the line of each packet's output after the text and the lines that are still to go there, in the order of the log, up to a packet
    /// whose number is less than that of one before it. Tells whether there was none.
    fn push_noted(&mut self, text: &mut Text, log: &[Note]) -> Result<bool, NoMemory>
        ensures in_order { IfOk result (λ all. all ≡ true
            → text.new ++ pending self.new.lines ≡ (text.old ++ pending self.old.lines) ++ out_lines F.semantics log.now) }
        ensures front { IfOk result (λ _.
            take (length (text.old ++ pending self.old.lines)) (text.new ++ pending self.new.lines) ≡ text.old ++ pending self.old.lines) }
    {
        let mut last = 0;
        for note in log {
            if let Note::Processed { number, output, .. } = note {
                if *number < last {
                    return Ok(false);
                }
                last = *number;
                self.push(text, *number, output)?;
            }
        }
        Ok(true)
    }

    /// Puts the line of each packet's output after the text, by the packets' numbers, where the log has them in another order.
    #[cold]
    fn push_sorted(&mut self, alloc: Global, text: &mut Text, log: &[Note]) -> Result<(), NoMemory>
        ensures { OnOk result (text.new ++ pending self.new.lines ≡ (text.old ++ pending self.old.lines) ++ out_lines F.semantics log.now) }
    {
        let outputs = outputs_by_number(alloc, log)?;
        for (number, output) in &outputs {
            self.push(text, *number, output)?;
        }
        Ok(())
    }

    /// Puts an output's line after the text and the lines that are still to go there.
    #[tactic(auto, unfolding(crate::specs::Lines::out_line))]
    #[inline(always)]
    fn push(&mut self, text: &mut Text, number: u32, output: &Output) -> Result<(), NoMemory>
        ensures { OnOk result (text.new ++ pending self.new.lines
            ≡ (text.old ++ pending self.old.lines) ++ out_line F.semantics (number, output.now)) }
    {
        match self.ends.kept(output) {
            Some(end) => self.lines.push(text, u64::from(number), end),
            None => self.push_other(text, number, output),
        }
    }

    /// Puts the line of an output whose end isn't kept yet.
    #[tactic(auto, unfolding(crate::specs::Lines::out_line))]
    #[cold]
    #[inline(never)]
    fn push_other(&mut self, text: &mut Text, number: u32, output: &Output) -> Result<(), NoMemory>
        ensures { OnOk result (text.new ++ pending self.new.lines
            ≡ (text.old ++ pending self.old.lines) ++ out_line F.semantics (number, output.now)) }
    {
        match self.ends.make(output)? {
            Some(end) => self.lines.push(text, u64::from(number), &end),
            None => {
                self.lines.flush(text)?;
                push_long_out::<F>(text, number, output)
            }
        }
    }
}

/// The packets' outputs by their numbers.
fn outputs_by_number(alloc: Global, log: &[Note]) -> Result<Vec<(u32, Output)>, NoMemory>
    ensures { IfOk result (λ found. found.items ≡ by_number output_in log.now) }
{
    let mut found = outputs(alloc, log)?;
    found.sort_by_key(|output| output.0)?;
    Ok(found)
}

/// The packets' outputs as they stand in the log.
fn outputs(alloc: Global, log: &[Note]) -> Result<Vec<(u32, Output)>, NoMemory>
    ensures { IfOk result (λ found. found.items ≡ filter_map output_in log.now) }
{
    let mut found = Vec::new(alloc);
    for note in log {
        if let Note::Processed { number, output, .. } = note {
            found.push((*number, *output))?;
        }
    }
    Ok(found)
}

/// Puts the line of an output whose text is longer than a block after a text that has all lines so far.
#[tactic(auto, unfolding(crate::specs::Lines::out_line))]
fn push_long_out<F: Function>(text: &mut Text, number: u32, output: &Output) -> Result<(), NoMemory>
    ensures { OnOk result (text.new ≡ text.old ++ out_line F.semantics (number, output.now)) }
{
    text.push_bytes(b"out ")?;
    text.push_decimal(u64::from(number))?;
    text.push_bytes(b" ")?;
    F::push_output(text, output)?;
    text.push_bytes(b"\n")
}
