//! The words of `published`.
ghost use Rattle.std.specs.Prelude.{◌≡◌, false, IfSome, map, option_and_then, option_map, string_bytes};
ghost use Rattle.basics.specs.Parsing.{parse_number};
ghost use Rattle.flow_filter.specs.FilterText.{fields_of};
ghost use Rattle.nf_function.specs.Units.{splits};
ghost use Rattle.command_words.specs.Requests.{published_of};
ghost use Rattle.command_words.specs.RequestViews.{calm_view, published_view};
ghost use Rattle.command_words.specs.UpdateWords.{filter_of, published_values};
ghost use Rattle.command_words.specs.Views.{Reads, given_view};
ghost use Rattle.command_words.specs.declared.published.TheConstants.{MOST_AT};

use crate::fault::ArgumentsFault;
use crate::forms::Form;
use crate::grammar::{Given, read};
use crate::request::{CalmRequest, Publishing};
use crate::values::{file_of, function_of, inside_of, schedule_of, site_of, window_of};
use basics::parsing::parse_number;
use flow_filter::Filter;
use nf_function::{Kind, splits};
use std::alloc::Global;

/// The greatest number of packets before the move.
pub const MOST_AT: u32 = 4_294_967_295;

/// What the words after `published` ask for.
pub(crate) fn ask_published<'a>(
    alloc: Global,
    words: &'a [String],
) -> Result<CalmRequest<'a>, ArgumentsFault>
    ensures { Reads calm_view result (published_of (map string_bytes words.entry.now)) }
{
    let given = read(alloc, Form::Published, words)?;
    let publishing = published_values(&given).ok_or(ArgumentsFault::Usage)?;
    let schedule = schedule_of(given.text("schedule")).ok_or(ArgumentsFault::Usage)?;
    Ok(CalmRequest::Published(publishing, schedule))
}

/// The values of `published`, where each is in its grammar.
#[tactic(auto, unfolding(crate::specs::UpdateWords::published_values))]
fn published_values<'a>(given: &Given<'a>) -> Option<Publishing<'a>>
    ensures { option_map published_view result ≡ published_values (given_view given.now) }
{
    let kind = function_of(given.text("function"))?;
    let inside = inside_of(given.text("inside"))?;
    let site = site_of(kind, inside, given.text("outside"))?;
    Some(Publishing {
        kind,
        site,
        window: window_of(given.text("window"))?,
        at: at_of(given.text("at"))?,
        filter: filter_of(kind, given.text("filter"))?,
        trace: file_of(given.text("trace"))?,
    })
}

/// After how many packets the move is asked for, which must be given.
fn at_of(text: Option<&str>) -> Option<u32>
    ensures { result ≡ option_and_then (parse_number MOST_AT) (option_map (λ t. t.now) text.entry) }
{
    let at = parse_number(text?.as_bytes(), u64::from(MOST_AT))?;
    Some(at as u32)
}

/// The filter, which must be given, where it splits no unit.
#[tactic(auto, unfolding(crate::specs::UpdateWords::filter_of))]
pub(crate) fn filter_of(kind: Kind, text: Option<&str>) -> Option<Filter>
    ensures value { option_map fields_of result ≡ option_and_then (filter_of kind) (option_map (λ t. t.now) text.entry) }
    ensures whole { IfSome result (λ filter. splits kind (fields_of filter) ≡ false) }
{
    let Ok(filter) = Filter::parse_bytes(text?.as_bytes()) else {
        return None;
    };
    if splits(kind, &filter) {
        None
    } else {
        Some(filter)
    }
}
