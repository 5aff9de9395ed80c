//! Instances under their names, and the lines at the bottom of a report.
ghost use Rattle.std.specs.Prelude.{◌≡◌, ◌++◌, OnOk, take};
ghost use Rattle.std.specs.List.{flat_map};
ghost use Rattle.report_lines.specs.Lines.{tail_lines, tally_line};
ghost use Rattle.report_lines.specs.Pieces.{count_text};

use basics::{NoMemory, Text};
use nf_function::{Function, Tally};
use record_table::Table;
use std::marker::Model;

/// What a report tells of an instance: its name, its records and its tally. Contracts see these.
#[derive(Drop)]
pub struct NamedInstance<'a, F: Function> {
    name: &'a [u8],
    table: &'a Table<F>,
    tally: Tally,
}

impl<'a, F: Function> Model for NamedInstance<'a, F> {
    ghost use Rattle.std.specs.FinMap as finite;
    ghost use Rattle.nf_function.specs.contracts.unit.Unit as units;
    ghost use Rattle.record_table.specs.Table.{table_code};
    ghost use Rattle.report_lines.specs.Lines.{NamedInstance, instance_code};

    ghost Value = { NamedInstance F.Record };

    ghost coded = { instance_code (table_code (finite.code units.the_row.coded F.Record.code)) };

    ghost view = { λ i. record { name = i.name.now; table = i.table.now; slots = i.tally.slots } };
}

impl<'a, F: Function> NamedInstance<'a, F> {
    /// The instance of a name with these records and this tally.
    pub fn new(name: &'a [u8], table: &'a Table<F>, tally: Tally) -> Self
        ensures { result ≡ record { name = name.entry.now; table = table.entry.now; slots = tally.slots } }
    {
        NamedInstance { name, table, tally }
    }

    /// The name.
    pub fn name(&self) -> &[u8]
        ensures { result.now ≡ self.now.name }
    {
        self.name
    }

    /// The records.
    pub fn table(&self) -> &Table<F>
        ensures { result.now ≡ self.now.table }
    {
        self.table
    }

    /// How many packets each instance has processed, as far as this one knows.
    pub fn tally(&self) -> &Tally
        ensures { result.now.slots ≡ self.now.slots }
    {
        &self.tally
    }
}

/// Puts the lines at the bottom of a report after a text: the tally of each instance, with so many of its counts, and the last line.
#[tactic(auto, unfolding(crate::specs::Lines::tail_lines))]
pub fn push_tail<F: Function>(
    text: &mut Text,
    count: usize,
    instances: &[NamedInstance<'_, F>],
) -> Result<(), NoMemory>
    ensures { OnOk result (text.new ≡ text.old ++ tail_lines count instances.now) }
{
    push_tallies(text, count, instances)?;
    text.push_bytes(b"end\n")
}

/// Puts the line of each instance's tally after a text, with so many of its counts.
fn push_tallies<F: Function>(
    text: &mut Text,
    count: usize,
    instances: &[NamedInstance<'_, F>],
) -> Result<(), NoMemory>
    ensures { OnOk result (text.new ≡ text.old ++ flat_map (tally_line count) instances.now) }
{
    for named in instances {
        push_tally(text, count, named)?;
    }
    Ok(())
}

/// Puts the line of an instance's tally after a text: `tally NAME` and the counts.
#[tactic(auto, unfolding(crate::specs::Lines::tally_line))]
fn push_tally<F: Function>(
    text: &mut Text,
    count: usize,
    named: &NamedInstance<'_, F>,
) -> Result<(), NoMemory>
    ensures { OnOk result (text.new ≡ text.old ++ tally_line count named.now) }
{
    text.push_bytes(b"tally ")?;
    text.push_bytes(named.name())?;
    push_counts(text, count, named.tally())?;
    text.push_bytes(b"\n")
}

/// Puts the first counts of a tally after a text.
fn push_counts(text: &mut Text, count: usize, tally: &Tally) -> Result<(), NoMemory>
    ensures { OnOk result (text.new ≡ text.old ++ flat_map count_text (take count tally.now.slots)) }
{
    let slots = &tally.slots;
    for slot in &slots[..count.min(slots.len())] {
        text.push_bytes(b" ")?;
        text.push_decimal(*slot)?;
    }
    Ok(())
}
