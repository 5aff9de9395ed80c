ghost use Rattle.std.specs.Prelude.{◌≡◌, ◌++◌, map, filter_map, IfOk, OnOk};
ghost use Rattle.report_lines.specs.Lines.{by_number};
ghost use Rattle.net_world.specs.Log.{answer_in};
ghost use Rattle.run_report.specs.Lines.{answer_line, answer_lines};
ghost use Rattle.run_report.specs.Seen.{answer_seen};

use basics::{NoMemory, Text};
use nf_msgs::{Answer, Note, print_answer};
use std::alloc::Global;

/// Puts the line of each command's answer after a text, by the commands' numbers.
pub(crate) fn push_answers(alloc: Global, text: &mut Text, log: &[Note]) -> Result<(), NoMemory>
    ensures { OnOk result (text.new ≡ text.old ++ answer_lines log.now) }
{
    let answers = answers_by_number(alloc, log)?;
    for (op, answer) in &answers {
        push_answer(alloc, text, *op, answer)?;
    }
    Ok(())
}

/// The commands' answers by their numbers.
fn answers_by_number(alloc: Global, log: &[Note]) -> Result<Vec<(u32, &Answer)>, NoMemory>
    ensures { IfOk result (λ found. map answer_seen found.items ≡ by_number answer_in log.entry.now) }
{
    let mut found = answers(alloc, log)?;
    found.sort_by_key(|answer| answer.0)?;
    Ok(found)
}

/// The commands' answers as they stand in the log.
fn answers(alloc: Global, log: &[Note]) -> Result<Vec<(u32, &Answer)>, NoMemory>
    ensures { IfOk result (λ found. map answer_seen found.items ≡ filter_map answer_in log.entry.now) }
{
    let mut found = Vec::new(alloc);
    for note in log {
        if let Note::Answered { op, answer } = note {
            found.push((*op, answer.get()))?;
        }
    }
    Ok(found)
}

/// Puts the line of an answer after a text: `answer OP WORDS`.
#[tactic(auto, unfolding(crate::specs::Lines::answer_line))]
fn push_answer(alloc: Global, text: &mut Text, op: u32, answer: &Answer) -> Result<(), NoMemory>
    ensures { OnOk result (text.new ≡ text.old ++ answer_line (op, answer.now)) }
{
    let words = print_answer(alloc, answer)?;
    text.push_bytes(b"answer ")?;
    text.push_decimal(u64::from(op))?;
    text.push_bytes(b" ")?;
    text.push_bytes(words.items())?;
    text.push_bytes(b"\n")
}
