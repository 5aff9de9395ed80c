//! The values of single words: prefixes, addresses, windows, numbers, schedules and files.
ghost use Rattle.std.specs.Prelude.{◌≡◌, if◌then◌else◌, Some, None, ◌≤◌, ◌==◌, ◌&&◌, not, IfSome, option_map, option_and_then};
ghost use Rattle.flow_filter.specs.Limits.{most_window};
ghost use Rattle.flow_filter.specs.Prefixes.{in_prefix, translated_bits};
ghost use Rattle.flow_filter.specs.Reading.{prefix_numbers};
ghost use Rattle.nf_function.specs.Names.{function_named};
ghost use Rattle.command_words.specs.Values.{inside_of, outside_of, window_of, count_of, given_number, schedule_of, file_of, file_if};

use actor_net::Schedule;
use basics::parsing::{parse_number, split_once};
use flow_filter::reading::{address, prefix};
use flow_filter::{Prefix, Site};
use nf_function::Kind;

/// The length of the prefix inside, where a site translates.
const TRANSLATED_BITS: u8 = 24;

/// The window that is not named.
const WINDOW: u32 = 256;

/// The widest window.
const MOST_WINDOW: u32 = 4096;

/// The function with this name, which must be given.
pub fn function_of(text: Option<&str>) -> Option<Kind>
    ensures { result ≡ option_and_then function_named (option_map (λ t. t.now) text.entry) }
{
    Kind::named(text?)
}

/// The prefix that the text spells as `A.B.C.D/L`.
#[tactic(auto, unfolding(crate::specs::Values::inside_of))]
pub fn inside_of(text: Option<&str>) -> Option<Prefix>
    ensures { option_map prefix_numbers result ≡ option_and_then inside_of (option_map (λ t. t.now) text.entry) }
{
    let text = text?.as_bytes();
    split_once(text, b'/')?;
    prefix(text)
}

/// The site with this prefix inside and, for the translator alone, this outside address.
pub fn site_of(kind: Kind, inside: Prefix, outside: Option<&str>) -> Option<Site>
    ensures outside { option_map (λ s. s.outside) result ≡ outside_of kind (prefix_numbers inside) (option_map (λ t. t.now) outside.entry) }
    ensures inside { IfSome result (λ s. s.inside ≡ inside) }
{
    match (kind, outside) {
        (Kind::Nat, Some(text)) => translating(inside, address(text.as_bytes())?),
        (Kind::Nat, None) => None,
        (_, Some(_)) => None,
        (_, None) => Some(Site {
            inside,
            outside: None,
        }),
    }
}

/// The site that translates to an address outside its /24.
fn translating(inside: Prefix, outside: u32) -> Option<Site>
    ensures outside { option_map (λ s. s.outside) result
        ≡ (if inside.len == translated_bits && not (in_prefix inside.bits inside.len outside) then Some (Some outside) else None) }
    ensures inside { IfSome result (λ s. s.inside ≡ inside) }
{
    if inside.len == TRANSLATED_BITS && !inside.holds(outside) {
        Some(Site {
            inside,
            outside: Some(outside),
        })
    } else {
        None
    }
}

/// The window, or 256 where none is named.
#[tactic(auto, unfolding(crate::specs::Values::window_of))]
pub fn window_of(text: Option<&str>) -> Option<u32>
    ensures value { result ≡ window_of (option_map (λ t. t.now) text.entry) }
    ensures range { IfSome result (λ window. (1 ≤ window) × (window ≤ most_window)) }
{
    match text {
        None => Some(WINDOW),
        Some(_) => count_of(text, MOST_WINDOW),
    }
}

/// A number from 1 to `most`, which must be given.
#[tactic(auto, unfolding(crate::specs::Values::count_of))]
pub fn count_of(text: Option<&str>, most: u32) -> Option<u32>
    ensures value { result ≡ option_and_then (count_of most) (option_map (λ t. t.now) text.entry) }
    ensures range { IfSome result (λ count. (1 ≤ count) × (count ≤ most)) }
{
    let count = parse_number(text?.as_bytes(), u64::from(most))?;
    if 1 <= count { Some(count as u32) } else { None }
}

/// A number below 2 to the 64th, which must be given.
pub fn given_number(text: Option<&str>) -> Option<u64>
    ensures { result ≡ option_and_then given_number (option_map (λ t. t.now) text.entry) }
{
    parse_number(text?.as_bytes(), u64::MAX)
}

/// The schedule, or `first` where none is named.
#[tactic(auto, unfolding(crate::specs::Values::schedule_of))]
pub fn schedule_of(text: Option<&str>) -> Option<Schedule>
    ensures { result ≡ schedule_of (option_map (λ t. t.now) text.entry) }
{
    match text {
        None => Some(Schedule::First),
        Some(text) => named_schedule(text),
    }
}

/// `first`, `last` or a number.
#[tactic(auto, unfolding(crate::specs::Values::schedule_of))]
fn named_schedule(text: &str) -> Option<Schedule>
    ensures { result ≡ schedule_of (Some text.now) }
{
    if text == "first" {
        Some(Schedule::First)
    } else if text == "last" {
        Some(Schedule::Last)
    } else {
        given_number(Some(text)).map(Schedule::Number)
    }
}

/// A file's name, which must be given and isn't empty.
pub fn file_of<'a>(text: Option<&'a str>) -> Option<&'a str>
    ensures { option_map (λ t. t.now) result ≡ option_and_then file_of (option_map (λ t. t.now) text.entry) }
{
    let text = text?;
    if text.is_empty() { None } else { Some(text) }
}

/// A file's name, if it is given.
pub fn file_if<'a>(text: Option<&'a str>) -> Option<Option<&'a str>>
    ensures { option_map (λ f. option_map (λ t. t.now) f) result ≡ file_if (option_map (λ t. t.now) text.entry) }
{
    match text {
        None => Some(None),
        Some(_) => Some(Some(file_of(text)?)),
    }
}
