//! Numbers in stored bytes, which the formats of this project are made of.
ghost use Rattle.std.specs.Prelude.{◌≡◌, ◌++◌, OnOk, OnErr, option_map};
ghost use Rattle.nf_function.specs.Stored.{number_bytes, first_byte, first_number};

use basics::{Bytes, NoMemory};
use byteorder::{BigEndian, ByteOrder};

/// The first byte, and those after it.
pub fn first_byte(bytes: &[u8]) -> Option<(u8, &[u8])>
    ensures { option_map (λ p. (p.0, p.1.now)) result ≡ first_byte bytes.now }
{
    match bytes {
        [byte, more @ ..] => Some((*byte, more)),
        [] => None,
    }
}

/// The number in the first two bytes, and those after them.
#[tactic(auto, unfolding(crate::specs::Stored::first_number))]
pub fn first_u16(bytes: &[u8]) -> Option<(u16, &[u8])>
    ensures { option_map (λ p. (p.0, p.1.now)) result ≡ first_number 2 bytes.now }
{
    if bytes.len() < 2 {
        return None;
    }
    Some((BigEndian::read_u16(bytes), &bytes[2..]))
}

/// The number in the first four bytes, and those after them.
#[tactic(auto, unfolding(crate::specs::Stored::first_number))]
pub fn first_u32(bytes: &[u8]) -> Option<(u32, &[u8])>
    ensures { option_map (λ p. (p.0, p.1.now)) result ≡ first_number 4 bytes.now }
{
    if bytes.len() < 4 {
        return None;
    }
    Some((BigEndian::read_u32(bytes), &bytes[4..]))
}

/// The number in the first eight bytes, and those after them.
#[tactic(auto, unfolding(crate::specs::Stored::first_number))]
pub fn first_u64(bytes: &[u8]) -> Option<(u64, &[u8])>
    ensures { option_map (λ p. (p.0, p.1.now)) result ≡ first_number 8 bytes.now }
{
    if bytes.len() < 8 {
        return None;
    }
    Some((BigEndian::read_u64(bytes), &bytes[8..]))
}

/// Puts a number of two bytes after others.
#[tactic(auto, unfolding(crate::specs::Stored::number_bytes))]
pub fn push_u16(bytes: &mut Bytes, number: u16) -> Result<(), NoMemory>
    ensures ok { OnOk result (bytes.new ≡ bytes.old ++ number_bytes 2 number) }
    ensures err { OnErr result (bytes.new ≡ bytes.old) }
{
    let mut spelled = [0; 2];
    BigEndian::write_u16(&mut spelled, number);
    bytes.push_bytes(&spelled)
}

/// Puts a number of four bytes after others.
#[tactic(auto, unfolding(crate::specs::Stored::number_bytes))]
pub fn push_u32(bytes: &mut Bytes, number: u32) -> Result<(), NoMemory>
    ensures ok { OnOk result (bytes.new ≡ bytes.old ++ number_bytes 4 number) }
    ensures err { OnErr result (bytes.new ≡ bytes.old) }
{
    let mut spelled = [0; 4];
    BigEndian::write_u32(&mut spelled, number);
    bytes.push_bytes(&spelled)
}

/// Puts a number of eight bytes after others.
#[tactic(auto, unfolding(crate::specs::Stored::number_bytes))]
pub fn push_u64(bytes: &mut Bytes, number: u64) -> Result<(), NoMemory>
    ensures ok { OnOk result (bytes.new ≡ bytes.old ++ number_bytes 8 number) }
    ensures err { OnErr result (bytes.new ≡ bytes.old) }
{
    let mut spelled = [0; 8];
    BigEndian::write_u64(&mut spelled, number);
    bytes.push_bytes(&spelled)
}
