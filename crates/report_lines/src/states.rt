//! The lines of the records.
ghost use Rattle.std.specs.Prelude.{◌≡◌, ◌++◌, map, IfOk, OnOk};
ghost use Rattle.std.specs.List.{flat_map};
ghost use Rattle.report_lines.specs.Lines.{by_unit, named_records, record_line, standby_lines, state_lines};
ghost use Rattle.report_lines.specs.Seen.{record_seen};

use crate::instances::NamedInstance;
use crate::line_front::LineFront;
use crate::units::put_unit;
use basics::{NoMemory, Text};
use nf_function::{Function, Unit};
use std::alloc::Global;

/// Puts a line for each live record after a text, by the units and then by the instances.
pub fn push_states<F: Function>(
    alloc: Global,
    text: &mut Text,
    instances: &[NamedInstance<'_, F>],
) -> Result<(), NoMemory>
    ensures { OnOk result (text.new ≡ text.old ++ state_lines F.semantics instances.now) }
{
    push_record_lines(alloc, text, b"state ", true, instances)
}

/// Puts a line for each record that stands by after a text, by the units and then by the instances.
pub fn push_standbys<F: Function>(
    alloc: Global,
    text: &mut Text,
    instances: &[NamedInstance<'_, F>],
) -> Result<(), NoMemory>
    ensures { OnOk result (text.new ≡ text.old ++ standby_lines F.semantics instances.now) }
{
    push_record_lines(alloc, text, b"standby ", false, instances)
}

/// Puts a line that begins with a word for each live record, or each that stands by, after a text.
fn push_record_lines<F: Function>(
    alloc: Global,
    text: &mut Text,
    word: &[u8],
    live: bool,
    instances: &[NamedInstance<'_, F>],
) -> Result<(), NoMemory>
    ensures { OnOk result (text.new ≡ text.old ++ flat_map (record_line F.semantics word.now) (by_unit live instances.now)) }
{
    if let [only] = instances {
        return push_own_lines(text, word, live, only);
    }
    let records = records_by_unit(alloc, live, instances)?;
    for record in &records {
        push_record_line::<F>(text, word, record)?;
    }
    Ok(())
}

/// Puts a line for each record of one instance, which are in order.
fn push_own_lines<F: Function>(
    text: &mut Text,
    word: &[u8],
    live: bool,
    named: &NamedInstance<'_, F>,
) -> Result<(), NoMemory>
    ensures { OnOk result (text.new ≡ text.old ++ flat_map (record_line F.semantics word.now) (named_records live named.now)) }
{
    let records = named.table().records(live)?;
    for (unit, kept) in &records {
        let record = NamedRecord {
            unit: *unit,
            name: named.name(),
            kept: *kept,
        };
        push_record_line::<F>(text, word, &record)?;
    }
    Ok(())
}

/// A record of an instance.
#[derive(Drop)]
struct NamedRecord<'a, R> {
    unit: Unit,
    /// The instance's name.
    name: &'a [u8],
    kept: &'a R,
}

/// The records of all instances, by their units and then by the instances.
fn records_by_unit<'a, F: Function>(
    alloc: Global,
    live: bool,
    instances: &'a [NamedInstance<'_, F>],
) -> Result<Vec<NamedRecord<'a, F::Record>>, NoMemory>
    ensures { IfOk result (λ found. map record_seen found.items ≡ by_unit live instances.entry.now) }
{
    let mut found = all_records(alloc, live, instances)?;
    found.sort_by_key(|record| record.unit)?;
    Ok(found)
}

/// The records of all instances, one instance after another.
fn all_records<'a, F: Function>(
    alloc: Global,
    live: bool,
    instances: &'a [NamedInstance<'_, F>],
) -> Result<Vec<NamedRecord<'a, F::Record>>, NoMemory>
    ensures { IfOk result (λ found. map record_seen found.items ≡ flat_map (named_records live) instances.entry.now) }
{
    let mut found = Vec::new(alloc);
    for named in instances {
        add_records(&mut found, live, named)?;
    }
    Ok(found)
}

/// Adds the records of an instance.
fn add_records<'a, F: Function>(
    found: &mut Vec<NamedRecord<'a, F::Record>>,
    live: bool,
    named: &'a NamedInstance<'_, F>,
) -> Result<(), NoMemory>
    ensures { OnOk result (map record_seen found.new.items ≡ map record_seen found.old.items ++ named_records live named.entry.now) }
{
    let records = named.table().records(live)?;
    for (unit, kept) in &records {
        found.push(NamedRecord {
            unit: *unit,
            name: named.name(),
            kept: *kept,
        })?;
    }
    Ok(())
}

/// Puts the line of a record after a text.
fn push_record_line<F: Function>(
    text: &mut Text,
    word: &[u8],
    named: &NamedRecord<'_, F::Record>,
) -> Result<(), NoMemory>
    ensures { OnOk result (text.new ≡ text.old ++ record_line F.semantics word.now (record_seen named.now)) }
{
    push_record::<F>(text, word, &named.unit, named.name, named.kept)
}

/// Puts the line of one record after a text: a word with the blank after it, the unit, the name of an instance, and the record's text.
#[tactic(auto, unfolding(crate::specs::Lines::record_line))]
pub fn push_record<F: Function>(
    text: &mut Text,
    word: &[u8],
    unit: &Unit,
    name: &[u8],
    kept: &F::Record,
) -> Result<(), NoMemory>
    ensures { OnOk result (text.new ≡ text.old ++ record_line F.semantics word.now (record { unit = unit.now; name = name.now; kept = kept.now })) }
{
    let mut front = LineFront::open();
    front.put_byte(b' ');
    put_unit(&mut front, unit);
    text.push_bytes(word)?;
    text.push_bytes(front.bytes())?;
    text.push_bytes(name)?;
    text.push_bytes(b" ")?;
    F::push_record(text, kept)?;
    text.push_bytes(b"\n")
}
