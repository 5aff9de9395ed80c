ghost use Rattle.std.specs.Prelude.{◌∷◌, Some, ◌≡◌, ◌≤◌, ◌==◌, ◌<◌, ◌^◌, ◌↔◌, IfSome, IsTrue, length, option_map, slice_index};
ghost use Rattle.std.specs.Option.{SomeIff};
ghost use Rattle.std.specs.Int.{IsInRange};
ghost use Rattle.std.specs.List.{position};
ghost use Rattle.std.specs.Str.Parse.{without_leading_plus, digits_value, IsNumeral};
ghost use Rattle.basics.specs.Parsing.{parse_number, split_once, remaining_pieces};
ghost use Rattle.basics.specs.Bytes.{digit_zero, digit_nine};

use std::str;

/// The number that the text spells: decimal without leading zeros, and at most `most`.
pub fn parse_number(text: &[u8], most: u64) -> Option<u64>
    ensures value { result ≡ parse_number most text.now }
    ensures within { IfSome result (λ n. n ≤ most) }
{
    if !is_plain(text) {
        return None;
    }
    let value = parsed(text)?;
    (value <= most).then_some(value)
}

/// Whether a text begins as a number does: with a digit, and not with a zero before others.
fn is_plain(text: &[u8]) -> bool
    ensures { IsTrue result
        ↔ ((0 < length text.now) × (IsInRange digit_zero digit_nine (slice_index text.now 0)) × (slice_index text.now 0 ≡ digit_zero → length text.now ≡ 1)) }
{
    match text {
        [b'0', _, ..] => false,
        [first, ..] => first.is_ascii_digit(),
        [] => false,
    }
}

/// The number that the digits spell, after a plus sign or not.
fn parsed(text: &[u8]) -> Option<u64>
    ensures { let digits = without_leading_plus text.now in SomeIff result (IsNumeral 10 digits × (digits_value 10 digits < 2 ^ 64)) (digits_value 10 digits) }
{
    match str::from_utf8(text) {
        Ok(text) => text.parse::<u64>().ok(),
        Err(_) => None,
    }
}

/// What stands before the first `separator` and what stands after it, or `None` where there is none.
pub fn split_once(text: &[u8], separator: u8) -> Option<(&[u8], &[u8])>
    ensures value { option_map (λ p. (p.0.now, p.1.now)) result ≡ split_once separator text.now }
    ensures shorter { IfSome result (λ p. length p.1.now < length text.now) }
{
    let at = first_place(text, separator)?;
    Some((&text[..at], &text[at + 1..]))
}

/// The place of the first `separator`.
fn first_place(text: &[u8], separator: u8) -> Option<usize>
    ensures { result ≡ position (λ byte. byte == separator) text.now }
{
    text.iter().position(|byte| *byte == separator)
}

/// The piece before the first `separator`, and what stands after the separator, where there is one.
pub fn first_piece(text: &[u8], separator: u8) -> (&[u8], Option<&[u8]>)
    ensures pieces { remaining_pieces separator (Some text.now) ≡ result.0.now ∷ remaining_pieces separator (option_map (λ t. t.now) result.1) }
    ensures shorter { IfSome result.1 (λ more. length more.now < length text.now) }
{
    match split_once(text, separator) {
        Some((first, more)) => (first, Some(more)),
        None => (text, None),
    }
}
