//! Short texts in blocks of one size. A block is copied as a whole, which takes a step or two, and not a loop.
ghost use Rattle.std.specs.Prelude.{◌≡◌, ◌<◌, ◌≤◌, ◌+◌, ◌-◌, ◌++◌, ℕ, List, [], ◌∷◌, length, take, codes, decimal};
ghost use Rattle.counted_lines.specs.declared.block.TheConstants.{LONGEST_END};

use itoa::Buffer;
use std::marker::Model;

/// How many bytes a block has.
pub const BLOCK: usize = 32;

/// The longest text that ends a line.
pub const LONGEST_END: usize = BLOCK - 2;

/// The longest word before a number.
pub const WORD: usize = 8;

/// A text of at most [`BLOCK`] bytes, and bytes of no meaning after it. Contracts see the text.
#[derive(Drop)]
pub struct Block {
    bytes: [u8; BLOCK],
    len: usize,
}

impl Model for Block {
    ghost use Rattle.std.specs.Prelude.{◌≤◌, ℕ, List, take};
    ghost use Rattle.counted_lines.specs.declared.block.TheConstants.{BLOCK};

    ghost Value = { List ℕ };

    ghost view = { λ b. take b.len b.bytes };

    ghost invariant = { λ b. b.len ≤ BLOCK };
}

impl Block {
    /// The block of what ends a line: a blank, a text and the line's end.
    pub fn line_end(text: &[u8]) -> Block
        requires { length text.now ≤ LONGEST_END }
        ensures { result ≡ codes " " ++ text.now ++ codes "\n" }
    {
        let end = text.len() + 1;
        let mut bytes = [0; BLOCK];
        bytes[0] = b' ';
        bytes[1..end].copy_from_slice(text);
        bytes[end] = b'\n';
        Block {
            bytes,
            len: end + 1,
        }
    }

    /// The block of a word and a number in digits.
    pub fn numbered(word: &[u8], number: u64) -> Block
        requires { length word.now ≤ WORD }
        ensures { result ≡ word.now ++ decimal number }
    {
        let mut buffer = Buffer::new();
        let digits = buffer.format(number).as_bytes();
        let len = word.len() + digits.len();
        let mut bytes = [0; BLOCK];
        bytes[..word.len()].copy_from_slice(word);
        bytes[word.len()..len].copy_from_slice(digits);
        Block { bytes, len }
    }

    /// A copy of the block.
    #[inline(always)]
    pub fn copy(&self) -> Block
        ensures { result ≡ self.now }
    {
        Block {
            bytes: self.bytes,
            len: self.len,
        }
    }

    /// The length of the text.
    #[inline(always)]
    pub fn len(&self) -> usize
        ensures value { result ≡ length self.now }
        ensures bound { result ≤ BLOCK }
    {
        self.len
    }

    /// Puts another byte in place of the last but one.
    #[inline(always)]
    pub fn set_before_last(&mut self, byte: u8)
        requires { 1 < length self.old }
        ensures text { (front : List ℕ) (last : ℕ) → take (length self.old - 1) self.old ≡ front ++ last ∷ []
            → take (length self.new - 1) self.new ≡ front ++ byte ∷ [] }
        ensures size { length self.new ≡ length self.old }
    {
        self.bytes[self.len - 2] = byte;
    }

    /// Copies the block to a place of its size, the text in front.
    #[inline(always)]
    pub fn copy_to(&self, place: &mut [u8])
        requires { length place.old ≡ BLOCK }
        ensures text { take (length self.now) place.new ≡ self.now }
        ensures size { length place.new ≡ BLOCK }
    {
        place.copy_from_slice(&self.bytes);
    }
}
