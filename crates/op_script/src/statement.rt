//! One line of a script as a statement: its words, before names and filters are looked at.
ghost use Rattle.std.specs.Prelude.{◌≡◌, map, IfOk, option_map, [], ◌∷◌};
ghost use Rattle.op_script.specs.Statements.{words, statement_of, routing, happening, event_of};
ghost use Rattle.op_script.specs.WordSteps.{is_blank, is_comment, most_at};
ghost use Rattle.basics.specs.Parsing.{parse_number};
ghost use Rattle.op_script.specs.StatementViews.{event_view, statement_view};

use basics::NoMemory;
use basics::parsing::{parse_number, split_once};
use std::alloc::Global;

/// What happens at a point of the trace, by its words.
#[derive(Clone, Copy, Debug)]
pub enum Event<'a> {
    Move {
        source: &'a [u8],
        destination: &'a [u8],
        filter: &'a [u8],
        keep: bool,
    },
    Copy {
        source: &'a [u8],
        destination: &'a [u8],
        filter: Option<&'a [u8]>,
    },
    Share {
        members: &'a [u8],
        filter: &'a [u8],
    },
    Settle,
}

/// What a line says.
#[derive(Clone, Copy, Debug)]
pub enum Statement<'a> {
    /// Nothing.
    Silent,
    Route {
        filter: &'a [u8],
        instance: &'a [u8],
    },
    At {
        at: u32,
        event: Event<'a>,
    },
}

/// The words of a line, between spaces and tabs.
pub fn words<'a>(alloc: Global, line: &'a [u8]) -> Result<Vec<&'a [u8]>, NoMemory>
    ensures { IfOk result (λ found. map (λ w. w.now) found.items ≡ words line.entry.now) }
{
    line.split(|byte| is_blank(*byte))
        .filter(|word| !word.is_empty())
        .collect(alloc)
}

/// Whether the byte is a space or a tab.
fn is_blank(byte: u8) -> bool
    ensures { result ≡ is_blank byte }
{
    byte == b' ' || byte == b'\t'
}

/// What the words of a line say, or `None` where they are no statement.
#[tactic(auto, unfolding(crate::specs::Statements::statement_of))]
pub fn statement_of<'a>(words: &[&'a [u8]]) -> Option<Statement<'a>>
    ensures { option_map statement_view result ≡ statement_of (map (λ w. w.now) words.now) }
{
    match words {
        [] => Some(Statement::Silent),
        [first, more @ ..] => {
            if is_comment(first) {
                Some(Statement::Silent)
            } else if *first == b"route".as_slice() {
                routing(more)
            } else if *first == b"at".as_slice() {
                happening(more)
            } else {
                None
            }
        }
    }
}

/// Whether the word begins a comment.
fn is_comment(word: &[u8]) -> bool
    ensures { result ≡ is_comment word.now }
{
    matches!(word, [b'#', ..])
}

/// `FILTER INST`.
fn routing<'a>(words: &[&'a [u8]]) -> Option<Statement<'a>>
    ensures { option_map statement_view result ≡ routing (map (λ w. w.now) words.now) }
{
    match words {
        [filter, instance] => Some(Statement::Route { filter, instance }),
        _ => None,
    }
}

/// `K` and an event.
fn happening<'a>(words: &[&'a [u8]]) -> Option<Statement<'a>>
    ensures { option_map statement_view result ≡ happening (map (λ w. w.now) words.now) }
{
    match words {
        [at, verb, more @ ..] => {
            let at = point(at)?;
            let event = event_of(verb, more)?;
            Some(Statement::At { at, event })
        }
        _ => None,
    }
}

/// The point of the trace that a word spells.
fn point(text: &[u8]) -> Option<u32>
    ensures { result ≡ parse_number most_at text.now }
{
    let at = parse_number(text, 4294967295)?;
    Some(at as u32)
}

/// An event by its first word and the others.
#[tactic(auto, unfolding(crate::specs::Statements::event_of))]
fn event_of<'a>(verb: &[u8], words: &[&'a [u8]]) -> Option<Event<'a>>
    ensures { option_map event_view result ≡ event_of verb.now (map (λ w. w.now) words.now) }
{
    match words {
        [] => settling(verb),
        [first, second, third] => copying_or_sharing(verb, first, second, third),
        [source, destination, filter, how] => moving(verb, source, destination, filter, how),
        _ => None,
    }
}

/// `settle`.
#[tactic(auto, unfolding(crate::specs::Statements::event_of))]
fn settling<'a>(verb: &[u8]) -> Option<Event<'a>>
    ensures { option_map event_view result ≡ event_of verb.now [] }
{
    if verb == b"settle".as_slice() {
        Some(Event::Settle)
    } else {
        None
    }
}

/// `copy SRC DST FILTER` or `copy SRC DST all`; or `share INST,INST.. FILTER strict`, where the list has a comma.
#[tactic(auto, unfolding(crate::specs::Statements::event_of))]
fn copying_or_sharing<'a>(
    verb: &[u8],
    first: &'a [u8],
    second: &'a [u8],
    third: &'a [u8],
) -> Option<Event<'a>>
    ensures { option_map event_view result ≡ event_of verb.now (first.now ∷ second.now ∷ third.now ∷ []) }
{
    if verb == b"copy".as_slice() {
        let filter = if third == b"all".as_slice() {
            None
        } else {
            Some(third)
        };
        Some(Event::Copy {
            source: first,
            destination: second,
            filter,
        })
    } else if verb == b"share".as_slice()
        && third == b"strict".as_slice()
        && split_once(first, b',').is_some()
    {
        Some(Event::Share {
            members: first,
            filter: second,
        })
    } else {
        None
    }
}

/// `move SRC DST FILTER order` or `move SRC DST FILTER lossfree`.
#[tactic(auto, unfolding(crate::specs::Statements::event_of))]
fn moving<'a>(
    verb: &[u8],
    source: &'a [u8],
    destination: &'a [u8],
    filter: &'a [u8],
    how: &[u8],
) -> Option<Event<'a>>
    ensures { option_map event_view result ≡ event_of verb.now (source.now ∷ destination.now ∷ filter.now ∷ how.now ∷ []) }
{
    if verb != b"move".as_slice() {
        return None;
    }
    let keep = if how == b"order".as_slice() {
        true
    } else if how == b"lossfree".as_slice() {
        false
    } else {
        return None;
    };
    Some(Event::Move {
        source,
        destination,
        filter,
        keep,
    })
}
