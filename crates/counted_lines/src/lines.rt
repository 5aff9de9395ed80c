//! Lines of one word that go to a text by pages.
ghost use Rattle.std.specs.Prelude.{◌≡◌, ◌≤◌, ◌++◌, [], decimal, length, IfOk, OnOk, OnErr};
ghost use Rattle.counted_lines.specs.declared.block.TheConstants.{WORD};

use crate::block::{Block, WORD};
use crate::counter::Counter;
use crate::page::Page;
use basics::{NoMemory, Text};
use std::alloc::Global;

/// Lines that begin with a word and a number, of which those on the page are still to go to the text.
#[derive(Drop)]
pub struct CountedLines {
    page: Page,
    count: Counter,
}

impl CountedLines {
    ghost use Rattle.counted_lines.specs.Pages.{pending, word_of};

    /// No lines yet of a word.
    pub fn open(alloc: Global, word: &'static [u8]) -> Result<Self, NoMemory>
        requires { length word.now ≤ WORD }
        ensures pending { IfOk result (λ lines. pending lines ≡ []) }
        ensures word { IfOk result (λ lines. word_of lines ≡ word.now) }
    {
        Ok(CountedLines {
            page: Page::open(alloc)?,
            count: Counter::from(word, 0),
        })
    }

    /// Puts the line with a number and an end after the text and what is still to go there.
    #[inline(always)]
    pub fn push(&mut self, text: &mut Text, number: u64, end: &Block) -> Result<(), NoMemory>
        ensures text { OnOk result (text.new ++ pending self.new ≡ (text.old ++ pending self.old) ++ (word_of self.old ++ decimal number ++ end.now)) }
        ensures word { word_of self.new ≡ word_of self.old }
        ensures err { OnErr result (pending self.new ≡ pending self.old) }
        ensures text_err { OnErr result (text.new ≡ text.old) }
    {
        self.count.go_to(number);
        self.page.push_line(text, &self.count, end)
    }

    /// Puts what is still to go there after the text.
    pub fn flush(&mut self, text: &mut Text) -> Result<(), NoMemory>
        ensures text { OnOk result (text.new ≡ text.old ++ pending self.old) }
        ensures pending { OnOk result (pending self.new ≡ []) }
        ensures word { word_of self.new ≡ word_of self.old }
        ensures err { OnErr result (pending self.new ≡ pending self.old) }
        ensures text_err { OnErr result (text.new ≡ text.old) }
    {
        self.page.flush(text)
    }
}
