//! Short texts that are put together from their end, so that a number's digits go there in the order in which they are found.
ghost use Rattle.std.specs.Prelude.{◌≡◌, ◌<◌, ◌≤◌, ◌+◌, ◌++◌, ◌∷◌, [], decimal, length};
ghost use Rattle.basics.specs.Address.{address_text};
ghost use Rattle.basics.specs.AddressSteps.{byte_of};
ghost use Rattle.report_lines.specs.declared.line_front.TheConstants.{ROOM, LONGEST_NUMBER, LONGEST_ADDRESS};

use basics::text::byte_of;
use std::marker::Model;

/// How many bytes there is room for.
pub(crate) const ROOM: usize = 128;

/// The most digits of a number of 32 bits.
pub(crate) const LONGEST_NUMBER: usize = 10;

/// Room for an address.
pub(crate) const LONGEST_ADDRESS: usize = 4 * LONGEST_NUMBER + 3;

/// A text that stands at the end of its bytes. Contracts see the text.
#[derive(Drop)]
pub(crate) struct LineFront {
    bytes: [u8; ROOM],
    start: usize,
}

impl Model for LineFront {
    ghost use Rattle.std.specs.Prelude.{◌≤◌, ℕ, List, drop};
    ghost use Rattle.report_lines.specs.declared.line_front.TheConstants.{ROOM};

    ghost Value = { List ℕ };

    ghost view = { λ t. drop t.start t.bytes };

    ghost invariant = { λ t. t.start ≤ ROOM };
}

impl LineFront {
    /// No text yet.
    #[inline(always)]
    pub(crate) fn open() -> Self
        ensures { result ≡ [] }
    {
        LineFront {
            bytes: [0; ROOM],
            start: ROOM,
        }
    }

    /// The text.
    #[inline(always)]
    pub(crate) fn bytes(&self) -> &[u8]
        ensures { result.now ≡ self.now }
    {
        &self.bytes[self.start..]
    }

    /// Puts a byte before the text.
    #[inline(always)]
    pub(crate) fn put_byte(&mut self, byte: u8)
        requires { length self.old < ROOM }
        ensures { self.new ≡ byte ∷ self.old }
    {
        self.start -= 1;
        self.bytes[self.start] = byte;
    }

    /// Puts a number before the text, in decimal digits.
    #[tactic(auto, using(crate::proofs::NumberBefore::one_more, crate::proofs::NumberBefore::last_one, crate::proofs::NumberBefore::length_before))]
    #[inline(always)]
    pub(crate) fn put_number(&mut self, number: u32)
        requires { length self.old + LONGEST_NUMBER ≤ ROOM }
        ensures text { self.new ≡ decimal number ++ self.old }
        ensures room { length self.new ≤ length self.old + LONGEST_NUMBER }
    {
        let mut left = number;
        while left >= 10 {
            self.put_byte(b'0' + (left % 10) as u8);
            left /= 10;
        }
        self.put_byte(b'0' + left as u8);
    }

    /// Puts an address before the text, as `A.B.C.D`.
    #[tactic(auto, unfolding(basics::specs::Address::address_text))]
    pub(crate) fn put_address(&mut self, address: u32)
        requires { length self.old + LONGEST_ADDRESS ≤ ROOM }
        ensures text { self.new ≡ address_text address ++ self.old }
        ensures room { length self.new ≤ length self.old + LONGEST_ADDRESS }
    {
        self.put_number(byte_of(address, 0));
        self.put_byte(b'.');
        self.put_number(byte_of(address, 8));
        self.put_byte(b'.');
        self.put_number(byte_of(address, 16));
        self.put_byte(b'.');
        self.put_number(byte_of(address, 24));
    }
}
