//! The words of the command line, read once: what they ask for. A further command has a further line in `ask`.
ghost use Rattle.std.specs.Prelude.{◌≡◌, true, false, map, codes, option_map, string_bytes};
ghost use Rattle.command_words.specs.Requests.{asks_run, request_of, is_command, calm_of, sim_of, run_of, audit_of};
ghost use Rattle.command_words.specs.Requests.{check_of, gen_of, network_values, check_values, gen_values};
ghost use Rattle.command_words.specs.Views.{Reads, given_view};
ghost use Rattle.command_words.specs.RequestViews.{request_view, calm_view, network_view, check_view, gen_view};

use crate::fail::ask_fail;
use crate::fault::ArgumentsFault;
use crate::forms::Form;
use crate::grammar::{Given, read};
use crate::instances::instances_of;
use crate::published::ask_published;
use crate::request::{
    Auditing, CalmRequest, Checking, Generating, MOST_HOSTS, MOST_PACKETS, NetworkRequest, Request,
};
use crate::strong::ask_strong;
use crate::values::{
    count_of, file_if, file_of, function_of, given_number, inside_of, schedule_of, site_of,
    window_of,
};
use std::alloc::Global;

/// What the words ask for: the program's name, a command, and the words of the command.
pub fn parse_command<'a>(alloc: Global, words: &'a [String]) -> Result<Request<'a>, ArgumentsFault>
    ensures { Reads request_view result (request_of (map string_bytes words.entry.now)) }
{
    if names_run(words) {
        Ok(Request::Run(parse_run(alloc, words)?))
    } else {
        Ok(Request::Calm(parse_calm(alloc, words)?))
    }
}

/// Whether the words name the command `run`.
pub fn names_run(words: &[String]) -> bool
    ensures { result ≡ is_command (codes "run") (map string_bytes words.now) }
{
    match words {
        [_, command, ..] => command.as_str() == "run",
        _ => false,
    }
}

/// What the words of the command that starts threads ask for.
#[tactic(auto, unfolding(crate::specs::Requests::request_of))]
pub fn parse_run<'a>(
    alloc: Global,
    words: &'a [String],
) -> Result<NetworkRequest<'a>, ArgumentsFault>
    requires { is_command (codes "run") (map string_bytes words.now) ≡ true }
    ensures { Reads (λ n. asks_run (network_view n)) result (request_of (map string_bytes words.entry.now)) }
{
    match words {
        [_, _, words @ ..] => ask_run(alloc, words),
        _ => Err(ArgumentsFault::Usage),
    }
}

/// What the words of any other command ask for.
#[tactic(auto, unfolding(crate::specs::Requests::request_of))]
pub fn parse_calm<'a>(alloc: Global, words: &'a [String]) -> Result<CalmRequest<'a>, ArgumentsFault>
    requires { is_command (codes "run") (map string_bytes words.now) ≡ false }
    ensures { Reads calm_view result (request_of (map string_bytes words.entry.now)) }
{
    match words {
        [_, command, words @ ..] => ask(alloc, command.as_str(), words),
        _ => Err(ArgumentsFault::Usage),
    }
}

/// What a command that starts no threads asks for with the words after it.
#[tactic(auto, unfolding(crate::specs::Requests::calm_of))]
fn ask<'a>(
    alloc: Global,
    command: &str,
    words: &'a [String],
) -> Result<CalmRequest<'a>, ArgumentsFault>
    ensures { Reads calm_view result (calm_of command.now (map string_bytes words.entry.now)) }
{
    match command {
        "sim" => ask_sim(alloc, words),
        "audit" => ask_audit(alloc, words),
        "fail" => ask_fail(alloc, words),
        "check" => ask_check(alloc, words),
        "gen" => ask_gen(alloc, words),
        "published" => ask_published(alloc, words),
        "strong" => ask_strong(alloc, words),
        _ => Err(ArgumentsFault::Usage),
    }
}

/// What the words after `run` ask for.
fn ask_run<'a>(alloc: Global, words: &'a [String]) -> Result<NetworkRequest<'a>, ArgumentsFault>
    ensures { Reads (λ n. asks_run (network_view n)) result (run_of (map string_bytes words.entry.now)) }
{
    let given = read(alloc, Form::Run, words)?;
    network_values(alloc, &given)
}

/// What the words after `sim` ask for.
fn ask_sim<'a>(alloc: Global, words: &'a [String]) -> Result<CalmRequest<'a>, ArgumentsFault>
    ensures { Reads calm_view result (sim_of (map string_bytes words.entry.now)) }
{
    let given = read(alloc, Form::Sim, words)?;
    let schedule = schedule_of(given.text("schedule")).ok_or(ArgumentsFault::Usage)?;
    let network = network_values(alloc, &given)?;
    Ok(CalmRequest::Sim(network, schedule))
}

/// What the words after `audit` ask for: a journal must be among them.
fn ask_audit<'a>(alloc: Global, words: &'a [String]) -> Result<CalmRequest<'a>, ArgumentsFault>
    ensures { Reads calm_view result (audit_of (map string_bytes words.entry.now)) }
{
    let given = read(alloc, Form::Run, words)?;
    let network = network_values(alloc, &given)?;
    if network.journal.is_none() {
        return Err(ArgumentsFault::Usage);
    }
    Ok(CalmRequest::Audit(Auditing { network }))
}

/// What the words after `check` ask for.
fn ask_check<'a>(alloc: Global, words: &'a [String]) -> Result<CalmRequest<'a>, ArgumentsFault>
    ensures { Reads calm_view result (check_of (map string_bytes words.entry.now)) }
{
    let given = read(alloc, Form::Check, words)?;
    let checking = check_values(alloc, &given)?;
    Ok(CalmRequest::Check(checking))
}

/// What the words after `gen` ask for.
fn ask_gen<'a>(alloc: Global, words: &'a [String]) -> Result<CalmRequest<'a>, ArgumentsFault>
    ensures { Reads calm_view result (gen_of (map string_bytes words.entry.now)) }
{
    let given = read(alloc, Form::Gen, words)?;
    let generating = gen_values(&given).ok_or(ArgumentsFault::Usage)?;
    Ok(CalmRequest::Gen(generating))
}

/// The values that `run`, `sim`, `audit` and `fail` share, where each is in its grammar.
#[tactic(auto, unfolding(crate::specs::NetworkWords::network_values))]
pub(crate) fn network_values<'a>(
    alloc: Global,
    given: &Given<'a>,
) -> Result<NetworkRequest<'a>, ArgumentsFault>
    ensures { Reads network_view result (network_values (given_view given.now)) }
{
    let kind = function_of(given.text("function")).ok_or(ArgumentsFault::Usage)?;
    let inside = inside_of(given.text("inside")).ok_or(ArgumentsFault::Usage)?;
    let site = site_of(kind, inside, given.text("outside")).ok_or(ArgumentsFault::Usage)?;
    let window = window_of(given.text("window")).ok_or(ArgumentsFault::Usage)?;
    let journal = file_if(given.text("journal")).ok_or(ArgumentsFault::Usage)?;
    let trace = file_of(given.text("trace")).ok_or(ArgumentsFault::Usage)?;
    let script = file_if(given.text("script")).ok_or(ArgumentsFault::Usage)?;
    let instances = instances_of(alloc, given.text("instances"))?.ok_or(ArgumentsFault::Usage)?;
    Ok(NetworkRequest {
        kind,
        instances,
        site,
        window,
        journal,
        summary: given.has_flag("summary"),
        trace,
        script,
    })
}

/// The values of `check`, where each is in its grammar.
#[tactic(auto, unfolding(crate::specs::Requests::check_values))]
fn check_values<'a>(alloc: Global, given: &Given<'a>) -> Result<Checking<'a>, ArgumentsFault>
    ensures { Reads check_view result (check_values (given_view given.now)) }
{
    let kind = function_of(given.text("function")).ok_or(ArgumentsFault::Usage)?;
    let script = file_of(given.text("script")).ok_or(ArgumentsFault::Usage)?;
    let instances = instances_of(alloc, given.text("instances"))?.ok_or(ArgumentsFault::Usage)?;
    Ok(Checking {
        kind,
        instances,
        script,
    })
}

/// The values of `gen`, where each is in its grammar.
#[tactic(auto, unfolding(crate::specs::Requests::gen_values))]
fn gen_values<'a>(given: &Given<'a>) -> Option<Generating<'a>>
    ensures { option_map gen_view result ≡ gen_values (given_view given.now) }
{
    Some(Generating {
        number: given_number(given.text("number"))?,
        packets: count_of(given.text("packets"), MOST_PACKETS)?,
        hosts: count_of(given.text("hosts"), MOST_HOSTS)?,
        trace: file_of(given.text("trace"))?,
    })
}
