//! How a script is read, line by line: its routes, its commands with their numbers, and the first fault.
ghost use Rattle.std.specs.Prelude.{◌≡◌, ◌≤◌, ◌==◌, ◌<◌, ◌^◌, map, length, IfOk, Ok, Some, None, option_map, if◌then◌else◌, [], ◌∷◌};
ghost use Rattle.std.specs.List.{slice_split, list_all};
ghost use Rattle.std.specs.Option.{ForSome};
ghost use Rattle.std.specs.Str.{is_utf8};
ghost use Rattle.std.specs.Str.Lines.{strip_carriage_return};
ghost use Rattle.flow_filter.specs.Filter.{IsFilter};
ghost use Rattle.flow_filter.specs.Name.{is_name};
ghost use Rattle.flow_filter.specs.FilterText.{fields_of};
ghost use Rattle.op_script.specs.StatementViews.{event_view, statement_view};
ghost use Rattle.op_script.specs.LineFilters.{said_filter, what_filter};
ghost use Rattle.op_script.specs.Printing.{IsScript, SplitsNone, longest_script};
ghost use Rattle.op_script.specs.Reading.{distinct_names, filter_of, order_said, with_route, with_line, line_view, what_view, with_statement};
ghost use Rattle.op_script.specs.Reading.{with_text, script_of, script_view, order_view, with_lines, Says, SaysWhole, Numbered};
ghost use Rattle.op_script.specs.ReadingSteps.{filter_or_all, whole, numbered_after, is_command, with_event, start};
ghost use Rattle.basics.specs.Bytes.{line_feed, comma};
ghost use Rattle.flow_filter.specs.Limits.{most_lines};

use crate::fault::{LineFault, ScriptFault, ScriptKind};
use crate::reader::Reader;
use crate::script::{Line, Script, What};
use crate::statement::{Event, Statement, statement_of, words};
use basics::NoMemory;
use basics::parsing::first_piece;
use flow_filter::name::{has_twice, place_of};
use flow_filter::{Filter, Name};
use nf_function::{Kind, splits};
use nf_msgs::{Command, Names, Order};
use std::alloc::Global;
use std::str;

/// The most bytes of a script.
pub const LONGEST_SCRIPT: usize = 1_048_576;

/// The most lines of a sort.
const MOST_LINES: usize = 1000;

/// Reads a script for a function and the instances with these names.
#[tactic(auto, unfolding(crate::specs::Reading::script_of))]
pub fn read_script(
    alloc: Global,
    bytes: &[u8],
    kind: Kind,
    names: &[Name],
) -> Result<Script, ScriptFault>
    requires { length names.now ≤ 2 ^ 8 }
    ensures value { SaysWhole script_view result (script_of kind names.now bytes.now) }
    ensures right { IfOk result (λ script. IsScript names.now (script_view script)) }
    ensures whole { IfOk result (λ script. SplitsNone kind (script_view script)) }
{
    if bytes.len() > LONGEST_SCRIPT {
        return Err(ScriptFault::Bad {
            line: 0,
            kind: ScriptKind::TooMany,
        });
    }
    let reader = read_lines(alloc, bytes, kind, names)?;
    let Reader { routes, lines, .. } = reader;
    Ok(Script { routes, lines })
}

/// Reads the lines of a script one after another.
fn read_lines(
    alloc: Global,
    bytes: &[u8],
    kind: Kind,
    names: &[Name],
) -> Result<Reader, ScriptFault>
    requires few { length names.now ≤ 2 ^ 8 }
    requires short { length bytes.now ≤ longest_script }
    ensures { SaysWhole (λ s. s) result (with_lines kind names.now 1 start (slice_split (λ b. b == line_feed) bytes.now)) }
{
    let mut reader = Reader {
        routes: Vec::new(alloc),
        lines: Vec::new(alloc),
        commands: 0,
        last: None,
    };
    let mut line = 0;
    let mut rest = Some(bytes);
    while let Some(text) = rest {
        line += 1;
        let (first, more) = first_piece(text, b'\n');
        let added = add_text(alloc, kind, names, &mut reader, without_return(first));
        numbered(line, added)?;
        rest = more;
    }
    Ok(reader)
}

/// A line's fault, under its number.
fn numbered(line: u32, read: Result<(), LineFault>) -> Result<(), ScriptFault>
    ensures { Numbered line read result }
{
    match read {
        Ok(()) => Ok(()),
        Err(LineFault::Bad(kind)) => Err(ScriptFault::Bad { line, kind }),
        Err(LineFault::NoMemory) => Err(ScriptFault::NoMemory),
    }
}

/// Adds a line.
fn add_text(
    alloc: Global,
    kind: Kind,
    names: &[Name],
    reader: &mut Reader,
    line: &[u8],
) -> Result<(), LineFault>
    requires { length names.now ≤ 2 ^ 8 }
    ensures { Says (λ _. reader.new) result (with_text kind names.now reader.old line.now) }
{
    if !is_utf8(line) {
        return Err(LineFault::Bad(ScriptKind::NotUtf8));
    }
    let words = words(alloc, line)?;
    let Some(statement) = statement_of(words.as_slice()) else {
        return Err(LineFault::Bad(ScriptKind::Word));
    };
    add_statement(alloc, kind, names, reader, statement)
}

/// Whether the bytes are UTF-8.
fn is_utf8(line: &[u8]) -> bool
    ensures { result ≡ is_utf8 line.now }
{
    match str::from_utf8(line) {
        Ok(_) => true,
        Err(_) => false,
    }
}

/// Adds what a line says.
fn add_statement(
    alloc: Global,
    kind: Kind,
    names: &[Name],
    reader: &mut Reader,
    statement: Statement<'_>,
) -> Result<(), LineFault>
    requires { length names.now ≤ 2 ^ 8 }
    ensures { Says (λ _. reader.new) result (with_statement kind names.now reader.old (statement_view statement.entry)) }
{
    match statement {
        Statement::Silent => Ok(()),
        Statement::Route { filter, instance } => add_route(kind, names, reader, filter, instance),
        Statement::At { at, event } => add_event(alloc, kind, reader, at, event),
    }
}

/// Adds an initial rule.
#[tactic(auto, unfolding(crate::specs::Reading::with_route))]
fn add_route(
    kind: Kind,
    names: &[Name],
    reader: &mut Reader,
    filter: &[u8],
    instance: &[u8],
) -> Result<(), LineFault>
    requires { length names.now ≤ 2 ^ 8 }
    ensures { Says (λ _. reader.new) result (with_route kind names.now reader.old filter.now instance.now) }
{
    if reader.last.is_some() {
        return Err(LineFault::Bad(ScriptKind::Order));
    }
    let Some(place) = place_of(names, instance) else {
        return Err(LineFault::Bad(ScriptKind::Name));
    };
    let filter = filter_of(kind, filter)?;
    if reader.routes.len() >= MOST_LINES {
        return Err(LineFault::Bad(ScriptKind::TooMany));
    }
    reader.routes.push((filter, place as u8))?;
    Ok(())
}

/// The filter that the text spells, where it splits no unit.
#[tactic(auto, unfolding(crate::specs::Reading::filter_of))]
fn filter_of(kind: Kind, text: &[u8]) -> Result<Filter, LineFault>
    ensures said { Says fields_of result (filter_of kind text.now) }
    ensures in_range { IfOk result IsFilter }
{
    let Ok(filter) = Filter::parse_bytes(text) else {
        return Err(LineFault::Bad(ScriptKind::Filter));
    };
    whole(kind, filter)
}

/// The filter, where it splits no unit.
fn whole(kind: Kind, filter: Filter) -> Result<Filter, LineFault>
    ensures said { Says fields_of result (whole kind (Ok (fields_of filter))) }
    ensures in_range { IfOk result IsFilter }
{
    if splits(kind, &filter) {
        return Err(LineFault::Bad(ScriptKind::SplitsUnit));
    }
    Ok(filter)
}

/// Adds an event.
fn add_event(
    alloc: Global,
    kind: Kind,
    reader: &mut Reader,
    at: u32,
    event: Event<'_>,
) -> Result<(), LineFault>
    ensures { Says (λ _. reader.new) result (with_event kind reader.old at (event_view event.entry)) }
{
    if at < reader.last.unwrap_or(0) {
        return Err(LineFault::Bad(ScriptKind::Order));
    }
    let order = order_said(alloc, kind, event)?;
    add_line(reader, at, order)
}

/// The order of an event, or `None` for a settle.
#[tactic(auto, unfolding(crate::specs::Reading::order_said))]
fn order_said(alloc: Global, kind: Kind, event: Event<'_>) -> Result<Option<Order>, LineFault>
    ensures said { Says (λ order. option_map order_view order) result (order_said kind (event_view event.entry)) }
    ensures in_range { IfOk result (λ order. ForSome (said_filter order) IsFilter) }
{
    match event {
        Event::Move {
            source,
            destination,
            filter,
            keep,
        } => {
            let (src, dst) = ends_of(alloc, source, destination)?;
            let filter = filter_of(kind, filter)?;
            Ok(Some(Order::Move {
                src,
                dst,
                filter,
                keep,
            }))
        }
        Event::Copy {
            source,
            destination,
            filter,
        } => {
            let (src, dst) = ends_of(alloc, source, destination)?;
            let filter = filter_or_all(kind, filter)?;
            Ok(Some(Order::Copy { src, dst, filter }))
        }
        Event::Share { members, filter } => {
            let members = members_of(alloc, members)?;
            let filter = filter_of(kind, filter)?;
            Ok(Some(Order::Share { members, filter }))
        }
        Event::Settle => Ok(None),
    }
}

/// The names of a source and a destination, where they are names and differ.
#[tactic(auto, unfolding(crate::specs::Reading::distinct_names))]
fn ends_of(alloc: Global, source: &[u8], destination: &[u8]) -> Result<(Name, Name), LineFault>
    ensures said { Says (λ ends. ends.0 ∷ ends.1 ∷ []) result (distinct_names (source.now ∷ destination.now ∷ [])) }
    ensures same { IfOk result (λ ends. (ends.0 ≡ source.now) × (ends.1 ≡ destination.now)) }
{
    let Some(source_name) = Name::read(alloc, source)? else {
        return Err(LineFault::Bad(ScriptKind::Name));
    };
    let Some(destination_name) = Name::read(alloc, destination)? else {
        return Err(LineFault::Bad(ScriptKind::Name));
    };
    if destination == source {
        return Err(LineFault::Bad(ScriptKind::SameInstance));
    }
    Ok((source_name, destination_name))
}

/// The filter of a copy, if it has one.
fn filter_or_all(kind: Kind, text: Option<&[u8]>) -> Result<Option<Filter>, LineFault>
    ensures said { Says (λ f. option_map fields_of f) result (filter_or_all kind (option_map (λ t. t.now) text.entry)) }
    ensures in_range { IfOk result (λ f. ForSome f IsFilter) }
{
    match text {
        None => Ok(None),
        Some(text) => Ok(Some(filter_of(kind, text)?)),
    }
}

/// The members of a share, where they are names and differ.
#[tactic(auto, unfolding(crate::specs::Reading::distinct_names))]
fn members_of(alloc: Global, list: &[u8]) -> Result<Names, LineFault>
    ensures { Says (λ members. members) result (distinct_names (slice_split (λ b. b == comma) list.now)) }
{
    let Some(members) = names_of(alloc, list)? else {
        return Err(LineFault::Bad(ScriptKind::Name));
    };
    if has_twice(alloc, members.items())? {
        return Err(LineFault::Bad(ScriptKind::SameInstance));
    }
    Ok(members)
}

/// The names of a list with commas between them, or `None` where one is malformed.
fn names_of(alloc: Global, list: &[u8]) -> Result<Option<Names>, NoMemory>
    ensures { IfOk result (λ found. let names = slice_split (λ b. b == comma) list.now in found ≡ (if list_all is_name names then Some names else None)) }
{
    let mut names = Names::open(alloc);
    let mut rest = Some(list);
    while let Some(text) = rest {
        let (first, more) = first_piece(text, b',');
        let Some(name) = Name::read(alloc, first)? else {
            return Ok(None);
        };
        names.push(name)?;
        rest = more;
    }
    Ok(Some(names))
}

/// Adds an `at` line: an order under its number, or a settle.
fn add_line(reader: &mut Reader, at: u32, order: Option<Order>) -> Result<(), LineFault>
    requires { ForSome (said_filter order) IsFilter }
    ensures { Says (λ _. reader.new) result (with_line reader.old at (option_map order_view order)) }
{
    if reader.lines.len() >= MOST_LINES {
        drop(order);
        return Err(LineFault::Bad(ScriptKind::TooMany));
    }
    let what = numbered_order(reader.commands, order);
    let line = Line { at, what };
    let commands = reader.commands + u32::from(is_command(&line));
    reader.lines.push(line)?;
    reader.commands = commands;
    reader.last = Some(at);
    Ok(())
}

/// An order under the number after so many commands, or a settle.
fn numbered_order(commands: u32, order: Option<Order>) -> What
    requires few { commands < most_lines }
    requires in_range { ForSome (said_filter order) IsFilter }
    ensures numbered { what_view result ≡ numbered_after commands (option_map order_view order) }
    ensures in_range { ForSome (what_filter result) IsFilter }
{
    match order {
        Some(what) => {
            let op = commands + 1;
            What::Command(Command { op, what })
        }
        None => What::Settle,
    }
}

/// Whether a command stands in the line.
fn is_command(line: &Line) -> bool
    ensures { result ≡ is_command (line_view line.now) }
{
    matches!(line.what, What::Command(_))
}

/// A line without the carriage return at its end.
fn without_return(line: &[u8]) -> &[u8]
    ensures { result.now ≡ strip_carriage_return line.now }
{
    if line.last() == Some(&b'\r') {
        &line[..line.len() - 1]
    } else {
        line
    }
}
