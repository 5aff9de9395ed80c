//! The words of `fail`.
ghost use Rattle.std.specs.Prelude.{◌≡◌, ◌<◌, IfSome, length, map, option_and_then, option_map, string_bytes};
ghost use Rattle.std.specs.List.{position};
ghost use Rattle.std.specs.Str.{bytes_eq};
ghost use Rattle.command_words.specs.FailWords.{fail_values, place_of};
ghost use Rattle.command_words.specs.Requests.{fail_of};
ghost use Rattle.command_words.specs.RequestViews.{calm_view, fail_view};
ghost use Rattle.command_words.specs.Views.{Reads, given_view};

use crate::fault::ArgumentsFault;
use crate::forms::Form;
use crate::grammar::{Given, read};
use crate::request::{CalmRequest, FailRequest, Instances};
use crate::values::given_number;
use crate::words::network_values;
use std::alloc::Global;

/// What the words after `fail` ask for.
pub(crate) fn ask_fail<'a>(
    alloc: Global,
    words: &'a [String],
) -> Result<CalmRequest<'a>, ArgumentsFault>
    ensures { Reads calm_view result (fail_of (map string_bytes words.entry.now)) }
{
    let given = read(alloc, Form::Fail, words)?;
    let asked = fail_values(alloc, &given)?;
    Ok(CalmRequest::Fail(asked))
}

/// The values of `fail`, where each is in its grammar.
#[tactic(auto, unfolding(crate::specs::FailWords::fail_values))]
fn fail_values<'a>(alloc: Global, given: &Given<'a>) -> Result<FailRequest<'a>, ArgumentsFault>
    ensures { Reads fail_view result (fail_values (given_view given.now)) }
{
    let after = given_number(given.text("after")).ok_or(ArgumentsFault::Usage)?;
    let network = network_values(alloc, given)?;
    let failed = place_of(&network.instances, given.text("failed")).ok_or(ArgumentsFault::Usage)?;
    let to = place_of(&network.instances, given.text("to")).ok_or(ArgumentsFault::Usage)?;
    if network.journal.is_none() || failed == to {
        return Err(ArgumentsFault::Usage);
    }
    Ok(FailRequest {
        network,
        failed,
        to,
        after,
    })
}

/// The place of an instance in the list, by its name.
fn place_of(instances: &Instances, name: Option<&str>) -> Option<u8>
    ensures place { result ≡ option_and_then (place_of instances.now.rows.items) (option_map (λ t. t.now) name.entry) }
    ensures within { IfSome result (λ place. place < length instances.now.rows.items) }
{
    match first_place(instances, name?.as_bytes()) {
        Some(place) => Some(place as u8),
        None => None,
    }
}

/// The first place with a name.
fn first_place(instances: &Instances, name: &[u8]) -> Option<usize>
    ensures place { result ≡ position (λ i. bytes_eq i.name name.now) instances.now.rows.items }
    ensures within { IfSome result (λ place. place < length instances.now.rows.items) }
{
    instances
        .rows
        .iter()
        .position(|row| row.name.items() == name)
}
