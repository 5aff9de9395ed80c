ghost use Rattle.std.specs.Prelude.{◌≡◌, ◌++◌, ◌<◌, OnOk, OnErr, decimal};
ghost use Rattle.basics.specs.Address.{address_text};
ghost use Rattle.basics.specs.AddressSteps.{byte_of};

use crate::sequence::{NoMemory, Text};
use arrayvec::ArrayString;
use itoa::Buffer;

/// Room for a dotted address, and to spare.
pub type Dotted = ArrayString<96>;

impl Text {
    /// Puts bytes after the text.
    pub fn push_bytes(&mut self, bytes: &[u8]) -> Result<(), NoMemory>
        ensures ok { OnOk result (self.new ≡ self.old ++ bytes.now) }
        ensures err { OnErr result (self.new ≡ self.old) }
    {
        self.list.extend_from_slice(bytes)
    }

    /// Puts a number after the text, in decimal digits.
    pub fn push_decimal(&mut self, number: u64) -> Result<(), NoMemory>
        ensures ok { OnOk result (self.new ≡ self.old ++ decimal number) }
        ensures err { OnErr result (self.new ≡ self.old) }
    {
        let mut buffer = Buffer::new();
        self.push_bytes(buffer.format(number).as_bytes())
    }

    /// Puts an address after the text, as `A.B.C.D`.
    pub fn push_address(&mut self, address: u32) -> Result<(), NoMemory>
        ensures ok { OnOk result (self.new ≡ self.old ++ address_text address) }
        ensures err { OnErr result (self.new ≡ self.old) }
    {
        self.push_bytes(dotted(address).as_str().as_bytes())
    }
}

/// The text of an address as `A.B.C.D`, which takes no memory.
#[tactic(auto, unfolding(crate::specs::Address::address_text))]
pub fn dotted(address: u32) -> Dotted
    ensures { result.bytes ≡ address_text address }
{
    let mut buffer = Buffer::new();
    let mut text = Dotted::new();
    text.push_str(buffer.format(byte_of(address, 24)));
    text.push_str(".");
    text.push_str(buffer.format(byte_of(address, 16)));
    text.push_str(".");
    text.push_str(buffer.format(byte_of(address, 8)));
    text.push_str(".");
    text.push_str(buffer.format(byte_of(address, 0)));
    text
}

/// The byte of an address that has `shift` bits after it.
#[inline]
pub fn byte_of(address: u32, shift: u32) -> u32
    requires { shift < 32 }
    ensures { result ≡ byte_of address shift }
{
    (address >> shift) % 256
}
