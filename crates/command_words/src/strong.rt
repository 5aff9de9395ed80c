//! The words of `strong`.
ghost use Rattle.std.specs.Prelude.{◌≡◌, ◌≤◌, false, length, IfOk, IfSome, map, option_and_then, option_map, string_bytes};
ghost use Rattle.flow_filter.specs.FilterText.{fields_of};
ghost use Rattle.flow_filter.specs.Limits.{most_instances};
ghost use Rattle.nf_function.specs.Units.{splits};
ghost use Rattle.command_words.specs.Requests.{strong_of};
ghost use Rattle.command_words.specs.RequestViews.{calm_view, strong_view};
ghost use Rattle.command_words.specs.StrongWords.{filter_if, members_of, strong_values};
ghost use Rattle.command_words.specs.Views.{Reads, given_view};
ghost use Rattle.command_words.specs.declared.strong.TheConstants.{FEWEST_MEMBERS};

use crate::fault::ArgumentsFault;
use crate::forms::Form;
use crate::grammar::{Given, read};
use crate::instances::instances_of;
use crate::published::filter_of;
use crate::request::{CalmRequest, StrongRequest};
use crate::values::{file_of, function_of, inside_of, schedule_of, site_of, window_of};
use basics::NoMemory;
use basics::parsing::split_once;
use flow_filter::{Filter, Name, Sequence};
use nf_function::Kind;
use std::alloc::Global;

/// The fewest members that share.
pub const FEWEST_MEMBERS: usize = 2;

/// What the words after `strong` ask for.
pub(crate) fn ask_strong<'a>(
    alloc: Global,
    words: &'a [String],
) -> Result<CalmRequest<'a>, ArgumentsFault>
    ensures { Reads calm_view result (strong_of (map string_bytes words.entry.now)) }
{
    let given = read(alloc, Form::Strong, words)?;
    let schedule = schedule_of(given.text("schedule")).ok_or(ArgumentsFault::Usage)?;
    let asked = strong_values(alloc, &given)?;
    Ok(CalmRequest::Strong(asked, schedule))
}

/// The values of `strong`, where each is in its grammar.
#[tactic(auto, unfolding(crate::specs::StrongWords::strong_values))]
fn strong_values<'a>(alloc: Global, given: &Given<'a>) -> Result<StrongRequest<'a>, ArgumentsFault>
    ensures { Reads strong_view result (strong_values (given_view given.now)) }
{
    let kind = function_of(given.text("function")).ok_or(ArgumentsFault::Usage)?;
    let inside = inside_of(given.text("inside")).ok_or(ArgumentsFault::Usage)?;
    let site = site_of(kind, inside, given.text("outside")).ok_or(ArgumentsFault::Usage)?;
    let window = window_of(given.text("window")).ok_or(ArgumentsFault::Usage)?;
    let filter = filter_if(kind, given.text("filter")).ok_or(ArgumentsFault::Usage)?;
    let trace = file_of(given.text("trace")).ok_or(ArgumentsFault::Usage)?;
    let names = members_of(alloc, given.text("instances"))?.ok_or(ArgumentsFault::Usage)?;
    Ok(StrongRequest {
        kind,
        names,
        site,
        window,
        filter,
        trace,
    })
}

/// The members, which must be given: names alone, two or more.
#[tactic(auto, unfolding(crate::specs::StrongWords::members_of))]
fn members_of(alloc: Global, list: Option<&str>) -> Result<Option<Sequence<Name>>, NoMemory>
    ensures names { IfOk result (λ found. found ≡ option_and_then members_of (option_map (λ t. t.now) list.entry)) }
    ensures some { IfOk result (λ found. IfSome found (λ names. FEWEST_MEMBERS ≤ length names)) }
    ensures few { IfOk result (λ found. IfSome found (λ names. length names ≤ most_instances)) }
{
    let Some(list) = list else {
        return Ok(None);
    };
    if split_once(list.as_bytes(), b':').is_some() {
        return Ok(None);
    }
    let Some(instances) = instances_of(alloc, Some(list))? else {
        return Ok(None);
    };
    if instances.rows.len() < FEWEST_MEMBERS {
        return Ok(None);
    }
    let names = instances.names(alloc)?;
    Ok(Some(names))
}

/// The filter where it splits no unit, or `any` where none is named.
fn filter_if(kind: Kind, text: Option<&str>) -> Option<Filter>
    ensures value { option_map fields_of result ≡ filter_if kind (option_map (λ t. t.now) text.entry) }
    ensures whole { IfSome result (λ filter. splits kind (fields_of filter) ≡ false) }
{
    match text {
        None => Some(Filter::ANY),
        Some(_) => filter_of(kind, text),
    }
}
