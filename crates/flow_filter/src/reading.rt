ghost use Rattle.std.specs.Prelude.{◌≡◌, ◌≤◌, ◌%◌, ◌-◌, ◌^◌, ◌==◌, option_map};
ghost use Rattle.basics.specs.Parsing.{parse_number};
ghost use Rattle.flow_filter.specs.Reading.{address_of, with_length, prefix_of, prefix_numbers};
ghost use Rattle.flow_filter.specs.FieldSteps.{aligned_prefix, most_byte};
ghost use Rattle.flow_filter.specs.Prefixes.{address_bits};

use crate::prefix::Prefix;
use basics::parsing::{parse_number, split_once};

/// The length of a prefix that is one address.
const WHOLE: u8 = 32;

/// The address that the text spells as `A.B.C.D`, the first byte highest.
#[tactic(auto, unfolding(crate::specs::Reading::address_of))]
pub fn address(text: &[u8]) -> Option<u32>
    ensures { result ≡ address_of text.now }
{
    let (first, rest) = split_once(text, b'.')?;
    let (second, rest) = split_once(rest, b'.')?;
    let (third, fourth) = split_once(rest, b'.')?;
    Some(u32::from_be_bytes([octet(first)?, octet(second)?, octet(third)?, octet(fourth)?]))
}

/// One of the four numbers of an address.
fn octet(text: &[u8]) -> Option<u8>
    ensures { result ≡ parse_number most_byte text.now }
{
    let value = parse_number(text, 255)?;
    Some(value as u8)
}

/// The prefix that the text spells as `A.B.C.D/L`, or as `A.B.C.D`, which means `/32`.
#[tactic(auto, unfolding(crate::specs::Reading::prefix_of))]
pub fn prefix(text: &[u8]) -> Option<Prefix>
    ensures { option_map prefix_numbers result ≡ prefix_of text.now }
{
    match split_once(text, b'/') {
        Some((bits, len)) => with_length(bits, len),
        None => address(text).map(|bits| Prefix { bits, len: WHOLE }),
    }
}

/// The prefix with these two texts.
fn with_length(bits: &[u8], len: &[u8]) -> Option<Prefix>
    ensures { option_map prefix_numbers result ≡ with_length bits.now len.now }
{
    let bits = address(bits)?;
    let len = parse_number(len, 32)?;
    aligned_prefix(bits, len as u8)
}

/// The prefix with these two numbers, or `None` where a bit past the length is set.
fn aligned_prefix(bits: u32, len: u8) -> Option<Prefix>
    requires { len ≤ address_bits }
    ensures { option_map prefix_numbers result ≡ aligned_prefix bits len }
{
    if has_no_more_bits(bits, len) {
        Some(Prefix { bits, len })
    } else {
        None
    }
}

/// Whether no bit of the address past the length is set.
fn has_no_more_bits(bits: u32, len: u8) -> bool
    requires { len ≤ address_bits }
    ensures { result ≡ (bits % 2 ^ (address_bits - len) == 0) }
{
    u64::from(bits) % (1u64 << (32 - len)) == 0
}
