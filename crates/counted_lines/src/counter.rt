//! A word and a number that counts up, as text.
ghost use Rattle.std.specs.Prelude.{◌≡◌, ◌<◌, ◌≤◌, ◌+◌, ◌-◌, ◌%◌, ◌^◌, ◌++◌, [], ◌∷◌, length, take, decimal};
ghost use Rattle.counted_lines.specs.declared.block.TheConstants.{WORD};
ghost use Rattle.counted_lines.specs.Digits.{digit_byte};

use crate::block::{Block, WORD};

/// A word and a number after it, in digits. The block has all of the text but the last digit, and some digit in its place:
/// so it seldom changes while the number counts up.
#[derive(Drop)]
pub struct Counter {
    word: &'static [u8],
    number: u64,
    digit: u8,
    block: Block,
    ghost short: { length word.now ≤ WORD },
    ghost some: { 0 < length block },
    ghost last: { digit ≡ number % 10 },
    ghost text: { take (length block - 1) block ++ digit_byte (number % 10) ∷ [] ≡ word.now ++ decimal number },
}

impl Counter {
    /// The count that begins with a number.
    pub fn from(word: &'static [u8], number: u64) -> Counter
        requires { length word.now ≤ WORD }
        ensures word { result.word.now ≡ word.now }
        ensures number { result.number ≡ number }
    {
        Counter {
            word,
            number,
            digit: (number % 10) as u8,
            block: Block::numbered(word, number),
        }
    }

    /// All of the text but the last digit, and some byte after it.
    #[inline(always)]
    pub fn block(&self) -> &Block
        ensures some { 0 < length result.now }
        ensures text { take (length result.now - 1) result.now ++ digit_byte self.now.digit ∷ [] ≡ self.now.word.now ++ decimal self.now.number }
    {
        &self.block
    }

    /// The last digit.
    #[inline(always)]
    pub fn digit(&self) -> u8
        ensures value { result ≡ self.now.digit }
        ensures bound { result < 10 }
    {
        self.digit
    }

    /// Goes on to a number.
    #[inline(always)]
    pub fn go_to(&mut self, number: u64)
        ensures word { self.new.word.now ≡ self.old.word.now }
        ensures number { self.new.number ≡ number }
    {
        if number == self.number {
            return;
        }
        if number > self.number && number - self.number == 1 {
            self.step();
            return;
        }
        self.restart(number);
    }

    /// Counts up.
    #[inline(always)]
    pub fn step(&mut self)
        requires { self.old.number + 1 < 2 ^ 64 }
        ensures word { self.new.word.now ≡ self.old.word.now }
        ensures number { self.new.number ≡ self.old.number + 1 }
    {
        let next = self.number + 1;
        let digit = (next % 10) as u8;
        if digit == 0 {
            self.carry();
            return;
        }
        self.number = next;
        self.digit = digit;
    }

    /// Counts up to a number whose last digit is 0. Where the one before it isn't, no other changes.
    #[inline(never)]
    fn carry(&mut self)
        requires within { self.old.number + 1 < 2 ^ 64 }
        requires carries { (self.old.number + 1) % 10 ≡ 0 }
        ensures word { self.new.word.now ≡ self.old.word.now }
        ensures number { self.new.number ≡ self.old.number + 1 }
    {
        let next = self.number + 1;
        let digit = (next / 10 % 10) as u8;
        if digit == 0 || next < 20 {
            self.restart(next);
            return;
        }
        self.block.set_before_last(b'0' + digit);
        self.number = next;
        self.digit = 0;
    }

    /// Begins with a number again.
    #[cold]
    #[inline(never)]
    fn restart(&mut self, number: u64)
        ensures word { self.new.word.now ≡ self.old.word.now }
        ensures number { self.new.number ≡ number }
    {
        *self = Counter::from(self.word, number);
    }
}
