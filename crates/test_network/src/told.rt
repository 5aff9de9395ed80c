//! What is told of a world: its notes, and the records of its instances, in lines.
use actor_net::World;
use basics::{NoMemory, Text};
use conn_tracker::Conntrack;
use net_world::Node;
use nf_function::Function;
use nf_msgs::{Note, print_answer};
use record_table::Table;
use std::alloc::Global;

/// The notes of a world, and the records of its instances.
pub fn told(alloc: Global, world: &World<Node<Conntrack>>) -> Result<Text, NoMemory> {
    let mut text = Text::open(alloc);
    for note in world.log() {
        push_note(&mut text, alloc, note)?;
        text.push_bytes(b"\n")?;
    }
    for node in world.nodes() {
        push_records(&mut text, node)?;
    }
    Ok(text)
}

/// Writes a note after a text.
fn push_note(text: &mut Text, alloc: Global, note: &Note) -> Result<(), NoMemory> {
    match note {
        Note::Arrived(number) => push_words(text, b"came ", *number),
        Note::Processed {
            number,
            instance,
            output,
        } => {
            push_words(text, b"did ", *number)?;
            push_words(text, b" at ", u32::from(*instance))?;
            text.push_bytes(b" ")?;
            Conntrack::push_output(text, output)
        }
        Note::Begun(op) => push_words(text, b"begun ", *op),
        Note::Exported {
            instance,
            units,
            ..
        } => push_units(text, b"gave at ", *instance, units.get().items().len()),
        Note::Imported {
            instance,
            units,
            ..
        } => push_units(text, b"took at ", *instance, units.get().items().len()),
        Note::Kept {
            instance,
            units,
            ..
        } => push_units(text, b"kept at ", *instance, units.count()),
        Note::Installed(op) => push_words(text, b"installed ", *op),
        Note::Answered { op, answer } => {
            push_words(text, b"answered ", *op)?;
            text.push_bytes(b" ")?;
            text.push_bytes(print_answer(alloc, answer.get())?.items())
        }
    }
}

/// Writes words and a number after a text.
fn push_words(text: &mut Text, words: &[u8], number: u32) -> Result<(), NoMemory> {
    text.push_bytes(words)?;
    text.push_decimal(u64::from(number))
}

/// Writes words, an instance and how many units there are after a text.
fn push_units(text: &mut Text, words: &[u8], instance: u8, count: usize) -> Result<(), NoMemory> {
    push_words(text, words, u32::from(instance))?;
    text.push_bytes(b" units ")?;
    text.push_decimal(count as u64)
}

/// Writes the live records of a node after a text, in lines, and then those that stand by.
fn push_records(text: &mut Text, node: &Node<Conntrack>) -> Result<(), NoMemory> {
    let Node::Instance(instance) = node else {
        return Ok(());
    };
    push_part(text, instance.table(), true, b"live ")?;
    push_part(text, instance.table(), false, b"standby ")?;
    text.push_bytes(b"--\n")
}

/// Writes the records of one part of a table after a text, in lines.
fn push_part(
    text: &mut Text,
    table: &Table<Conntrack>,
    live: bool,
    word: &[u8],
) -> Result<(), NoMemory> {
    let units = table.units(live)?;
    for unit in units.items() {
        if let Some(record) = table.record(unit, live) {
            text.push_bytes(word)?;
            Conntrack::push_record(text, record)?;
            text.push_bytes(b"\n")?;
        }
    }
    Ok(())
}
