//! Scripts as texts: each route and each line as it would be written.
ghost use Rattle.std.specs.Prelude.{false, ◌≡◌, ◌++◌, ◌∷◌, ◌≤◌, [], Ok, IfOk, OnOk, length, option_map, true, codes, if◌then◌else◌};
ghost use Rattle.std.specs.List.{join_with_byte, slice_index_or};
ghost use Rattle.flow_filter.specs.FilterText.{after_commas, fields_of, is_printable, print};
ghost use Rattle.flow_filter.specs.Name.{has_twice, is_name};
ghost use Rattle.nf_function.specs.declared.kind.Kind.{Kind};
ghost use Rattle.op_script.specs.Reading.{script_of, script_view, line_view, order_view};
ghost use Rattle.op_script.specs.ReadingSteps.{route_view};
ghost use Rattle.op_script.specs.Printing.{route_words, order_words, line_words, copied_word, line_text};
ghost use Rattle.op_script.specs.Printing.{longest_script, script_text, is_writable, IsRoute, IsOrder, IsLine, IsScript, SplitsNone};
ghost use Rattle.basics.specs.Bytes.{line_feed, space, comma};

use crate::script::{Line, Script, What};
use basics::NoMemory;
use flow_filter::{Filter, Name, Text};
use nf_msgs::Order;
use std::alloc::Global;

/// The canonical text of a script, for instances with these names.
#[tactic(auto, unfolding(crate::specs::Printing::script_text))]
pub fn print_script(alloc: Global, script: &Script, names: &[Name]) -> Result<Text, NoMemory>
    requires { IsScript names.now (script_view script.now) }
    ensures text { IfOk result (λ text. text ≡ script_text names.now script.now) }

    // Read again, the text gives the script, for each function of which it splits no unit.
    ensures again { IfOk result (λ text. (kind : Kind) → has_twice names.now ≡ false
        → SplitsNone kind (script_view script.now) → length text ≤ longest_script → script_of kind names.now text ≡ Ok (script_view script.now)) }
{
    let mut out = Text::open(alloc);
    for route in script.routes.as_slice() {
        print_route(&mut out, names, route)?;
    }
    for line in script.lines.as_slice() {
        print_line(&mut out, line)?;
    }
    Ok(out)
}

/// Appends the line of an initial rule.
fn print_route(out: &mut Text, names: &[Name], route: &(Filter, u8)) -> Result<(), NoMemory>
    requires { IsRoute names.now (route_view route.now) }
    ensures text { OnOk result (out.new ≡ out.old ++ line_text (route_words names.now route.now)) }
    ensures name { OnOk result (is_name (slice_index_or names.now route.now.1 []) ≡ true) }
{
    let (filter, place) = route;
    out.push_bytes(b"route ")?;
    print_filter(out, *filter)?;
    out.push_bytes(b" ")?;
    out.push_bytes(names[*place as usize].items())?;
    out.push_bytes(b"\n")
}

/// Appends an `at` line.
fn print_line(out: &mut Text, line: &Line) -> Result<(), NoMemory>
    requires { IsLine (line_view line.now) }
    ensures { OnOk result (out.new ≡ out.old ++ line_text (line_words line.now)) }
{
    out.push_bytes(b"at ")?;
    out.push_decimal(u64::from(line.at))?;
    match &line.what {
        What::Command(command) => print_order(out, &command.what),
        What::Settle => out.push_bytes(b" settle\n"),
    }
}

/// Appends the text of a filter.
fn print_filter(out: &mut Text, filter: Filter) -> Result<(), NoMemory>
    requires { is_printable filter ≡ true }
    ensures { OnOk result (out.new ≡ out.old ++ print filter) }
{
    filter.print_to(out)
}

/// Appends the words of an order after a space, and the line's end.
fn print_order(out: &mut Text, order: &Order) -> Result<(), NoMemory>
    requires { IsOrder (order_view order.now) }
    ensures { OnOk result (out.new ≡ out.old ++ space ∷ line_text (order_words order.now)) }
{
    match order {
        Order::Move {
            src,
            dst,
            filter,
            keep,
        } => {
            print_ends(out, b" move", src, dst)?;
            print_filter(out, *filter)?;
            print_how(out, *keep)
        }
        Order::Copy { src, dst, filter } => {
            print_ends(out, b" copy", src, dst)?;
            print_copied(out, *filter)
        }
        Order::Share { members, filter } => {
            out.push_bytes(b" share ")?;
            print_members(out, members.items())?;
            out.push_bytes(b" ")?;
            print_filter(out, *filter)?;
            out.push_bytes(b" strict\n")
        }
    }
}

/// Appends a verb, a source and a destination, and a space after each.
fn print_ends(
    out: &mut Text,
    verb: &[u8],
    source: &Name,
    destination: &Name,
) -> Result<(), NoMemory>
    ensures { OnOk result (out.new ≡ out.old ++ (verb.now ++ space ∷ (source.now ++ space ∷ (destination.now ++ space ∷ [])))) }
{
    out.push_bytes(verb)?;
    out.push_bytes(b" ")?;
    out.push_bytes(source.items())?;
    out.push_bytes(b" ")?;
    out.push_bytes(destination.items())?;
    out.push_bytes(b" ")
}

/// Appends names with commas between them.
fn print_members(out: &mut Text, members: &[Name]) -> Result<(), NoMemory>
    ensures { OnOk result (out.new ≡ out.old ++ join_with_byte comma members.now) }
{
    match members {
        [] => Ok(()),
        [first, more @ ..] => {
            out.push_bytes(first.items())?;
            print_more(out, more)
        }
    }
}

/// Appends names, each after a comma.
fn print_more(out: &mut Text, names: &[Name]) -> Result<(), NoMemory>
    ensures { OnOk result (out.new ≡ out.old ++ after_commas true names.now) }
{
    for name in names {
        out.push_bytes(b",")?;
        out.push_bytes(name.items())?;
    }
    Ok(())
}

/// Appends the word that says whether order is kept, after a space, and the line's end.
fn print_how(out: &mut Text, keep: bool) -> Result<(), NoMemory>
    ensures { OnOk result (out.new ≡ out.old ++ space ∷ ((if keep then codes "order" else codes "lossfree") ++ line_feed ∷ [])) }
{
    if keep {
        out.push_bytes(b" order\n")
    } else {
        out.push_bytes(b" lossfree\n")
    }
}

/// Appends the filter of a copy, or `all`, and the line's end.
fn print_copied(out: &mut Text, filter: Option<Filter>) -> Result<(), NoMemory>
    requires { is_writable (option_map fields_of filter) ≡ true }
    ensures { OnOk result (out.new ≡ out.old ++ (copied_word filter ++ line_feed ∷ [])) }
{
    match filter {
        Some(filter) => {
            print_filter(out, filter)?;
            out.push_bytes(b"\n")
        }
        None => out.push_bytes(b"all\n"),
    }
}
