//! A page of lines, which goes to a text as a whole.
ghost use Rattle.std.specs.Prelude.{◌≡◌, ◌<◌, ◌≤◌, ◌+◌, ◌++◌, ℕ, List, [], ◌∷◌, decimal, length, vec_len, OnOk, OnErr, IfOk};
ghost use Rattle.counted_lines.specs.declared.page.TheConstants.{PAGE_BYTES};

use crate::block::{BLOCK, Block};
use crate::counter::Counter;
use basics::{NoMemory, Text};
use std::alloc::Global;

const PAGE_BYTES: usize = 65_536;

/// No line is longer: two blocks.
const LONGEST_LINE: usize = 2 * BLOCK;

/// Lines that were put on a page. The bytes before `used` are its text.
#[derive(Drop)]
pub struct Page {
    bytes: Vec<u8>,
    used: usize,
    ghost size: { vec_len bytes ≡ PAGE_BYTES },
    ghost within: { used ≤ PAGE_BYTES },
}

impl Page {
    ghost use Rattle.counted_lines.specs.Pages.{page_text};

    /// An empty page.
    pub fn open(alloc: Global) -> Result<Page, NoMemory>
        ensures { IfOk result (λ page. page_text page ≡ []) }
    {
        let bytes = Vec::from_elem(alloc, 0, PAGE_BYTES)?;
        Ok(Page { bytes, used: 0 })
    }

    /// Puts the line of a count and an end after the text and what stands on the page.
    #[inline(always)]
    pub fn push_line(
        &mut self,
        text: &mut Text,
        count: &Counter,
        end: &Block,
    ) -> Result<(), NoMemory>
        ensures text { OnOk result
            (text.new ++ page_text self.new ≡ (text.old ++ page_text self.old) ++ (count.now.word.now ++ decimal count.now.number ++ end.now)) }
        ensures err { OnErr result (page_text self.new ≡ page_text self.old) }
        ensures text_err { OnErr result (text.new ≡ text.old) }
    {
        if self.used > PAGE_BYTES - LONGEST_LINE {
            self.flush(text)?;
        }
        self.put_line(count, end);
        Ok(())
    }

    /// Puts what stands on the page after the text, and empties the page.
    #[cold]
    #[inline(never)]
    pub fn flush(&mut self, text: &mut Text) -> Result<(), NoMemory>
        ensures text { OnOk result (text.new ≡ text.old ++ page_text self.old) }
        ensures page { OnOk result (page_text self.new ≡ []) }
        ensures used { OnOk result (self.new.used ≡ 0) }
        ensures err { OnErr result (page_text self.new ≡ page_text self.old) }
        ensures text_err { OnErr result (text.new ≡ text.old) }
    {
        text.push_bytes(&self.bytes[..self.used])?;
        self.used = 0;
        Ok(())
    }

    /// Puts a line after the text.
    #[inline(always)]
    fn put_line(&mut self, count: &Counter, end: &Block)
        requires { self.old.used + LONGEST_LINE ≤ PAGE_BYTES }
        ensures { page_text self.new ≡ page_text self.old ++ (count.now.word.now ++ decimal count.now.number ++ end.now) }
    {
        self.put_count(count);
        self.put(end);
    }

    /// Puts a word and a number after the text. The last digit goes to the page alone, since a block that was written to a
    /// moment ago is slow to copy.
    #[inline(always)]
    fn put_count(&mut self, count: &Counter)
        requires { self.old.used + BLOCK ≤ PAGE_BYTES }
        ensures text { page_text self.new ≡ page_text self.old ++ (count.now.word.now ++ decimal count.now.number) }
        ensures used { self.new.used ≤ self.old.used + BLOCK }
    {
        self.put(count.block());
        self.set_last(b'0' + count.digit());
    }

    /// Puts a block after the text.
    #[inline(always)]
    fn put(&mut self, block: &Block)
        requires room { self.old.used + BLOCK ≤ PAGE_BYTES }
        ensures text { page_text self.new ≡ page_text self.old ++ block.now }
        ensures used { self.new.used ≡ self.old.used + length block.now }
        ensures bound { self.new.used ≤ self.old.used + BLOCK }
    {
        let end = self.used + BLOCK;
        block.copy_to(&mut self.bytes[self.used..end]);
        self.used += block.len();
    }

    /// Puts another byte in place of the text's last.
    #[inline(always)]
    fn set_last(&mut self, byte: u8)
        requires { 0 < self.old.used }
        ensures text { (front : List ℕ) (last : ℕ) → page_text self.old ≡ front ++ last ∷ [] → page_text self.new ≡ front ++ byte ∷ [] }
        ensures used { self.new.used ≡ self.old.used }
    {
        self.bytes[self.used - 1] = byte;
    }
}
