ghost use Rattle.std.specs.Prelude.{◌≡◌, ◌++◌, IfOk, OnOk};
ghost use Rattle.nf_msgs.specs.Answers.{answer_text};
ghost use Rattle.nf_msgs.specs.AnswerSteps.{numbered};

use crate::answer::Answer;
use basics::{NoMemory, Text};
use std::alloc::Global;

/// The answer's words, as the report has them.
pub fn print_answer(alloc: Global, answer: &Answer) -> Result<Text, NoMemory>
    ensures { IfOk result (λ text. text ≡ answer_text answer.now) }
{
    let mut text = Text::open(alloc);
    push_answer(&mut text, answer)?;
    Ok(text)
}

/// Puts the answer's words after a text. At a refusal a part of them may stand there.
fn push_answer(text: &mut Text, answer: &Answer) -> Result<(), NoMemory>
    ensures { OnOk result (text.new ≡ text.old ++ answer_text answer.now) }
{
    match answer {
        Answer::Done => text.push_bytes(b"done"),
        Answer::Unknown(name) => {
            text.push_bytes(b"unknown ")?;
            text.push_bytes(name.items())
        }
        Answer::Overlap(op) => push_numbered(text, b"overlap ", *op),
        Answer::Import {
            held,
            coming,
            limit,
        } => {
            push_numbered(text, b"import ", *held)?;
            push_numbered(text, b" ", *coming)?;
            push_numbered(text, b" ", *limit)
        }
        Answer::Old { newest, reads } => {
            push_numbered(text, b"old ", u32::from(*newest))?;
            push_numbered(text, b" ", u32::from(*reads))
        }
    }
}

/// Puts words and then a number after a text.
pub(crate) fn push_numbered(text: &mut Text, words: &[u8], number: u32) -> Result<(), NoMemory>
    ensures { OnOk result (text.new ≡ text.old ++ numbered words.now number) }
{
    text.push_bytes(words)?;
    text.push_decimal(u64::from(number))
}
