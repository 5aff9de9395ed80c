//! The report of a failover.
ghost use Rattle.std.specs.Prelude.{◌≡◌, ◌++◌, ◌==◌, ℕ, All, IsSome, List, [], codes, find, map, slice_index_or, IfOk, OnOk};
ghost use Rattle.std.specs.List.{flat_map};
ghost use Rattle.std.specs.Option.{option_copied};
ghost use Rattle.std.specs.FinMap as finite;
ghost use Rattle.trace_reader.specs.Records.{AreNumbered};
ghost use Rattle.nf_msgs.specs.declared.msg.Msg.{Msg as AMessage};
ghost use Rattle.nf_msgs.specs.declared.note.Note.{Note as ANote};
ghost use Rattle.actor_net.specs.Network.{Network};
ghost use Rattle.net_world.specs.declared.node.Node.{Node as ANode};
ghost use Rattle.net_world.specs.Input.{packets};
ghost use Rattle.net_world.specs.Jobs.{job_of};
ghost use Rattle.standby_failover.specs.Failover.{HasCaughtUp, IsLeft, IsPromoted, failover_of};
ghost use Rattle.standby_failover.specs.Lines.{caught_line, caught_lines, fail_line, failover_text, gone_line, head_lines};
ghost use Rattle.standby_failover.specs.Lines.{number_line, promote_line, promote_text, promoted_line, promoted_lines};
ghost use Rattle.standby_failover.specs.Stepping.{after_packets, packet_among};

use crate::catching_up::catch_up;
use crate::promoted::{Failing, Promoted};
use basics::{NoMemory, Text};
use flow_filter::{Name, Packets};
use net_world::Config;
use nf_function::{Function, Unit, Units};
use record_table::Table;
use report_lines::{Head, push_function_line, push_record, push_trace_line, push_unit};
use std::alloc::Global;

/// The report of what is promoted and of its records once they have caught up as by [`crate::catch_up`], and these records.
#[tactic(auto, unfolding(crate::specs::Lines::failover_text))]
pub fn report_failover<F: Function>(
    alloc: Global,
    head: &Head,
    failing: &Failing,
    promoted: Promoted<F>,
    config: &Config,
    trace: &Packets,
) -> Result<(Text, Table<F>), NoMemory>
    requires numbered { AreNumbered 1 trace.now }
    requires known { All (λ n. IsSome (find (λ p. p.number == n) trace.now)) (promoted.order ++ promoted.pending) }
    ensures text { IfOk result (λ made. made.0 ≡ failover_text F.semantics head.now failing.now promoted made.1) }
    ensures live { IfOk result (λ made. made.1.live
        ≡ after_packets F.semantics config.now.site promoted.table.live (map (packet_among trace.now) (promoted.order ++ promoted.pending))) }
    ensures standby { IfOk result (λ made. made.1.standby ≡ promoted.table.standby) }
    ensures caught { (items : List AMessage) (world : Network (ANode F.row.Denot F.Record) AMessage ANote) (failed to : ℕ)
        → let x = failover_of (job_of F.semantics config.now items) world failed to in
        IsLeft x → IsPromoted x promoted → packets items ≡ trace.now → IfOk result (λ made. HasCaughtUp x made.1) }
{
    let to = name_at(head.names.items(), failing.to);
    let (mut text, units) = front(alloc, head, failing, &promoted)?;
    let table = catch_up(promoted, config, trace)?;
    push_end(&mut text, to, units.items(), &table)?;
    Ok((text, table))
}

/// The lines down to those of the open packets, and the affected units, which other lines are of too.
fn front<F: Function>(
    alloc: Global,
    head: &Head,
    failing: &Failing,
    promoted: &Promoted<F>,
) -> Result<(Text, Units), NoMemory>
    ensures text { IfOk result (λ made. made.0 ≡ head_lines head.now ++ fail_line head.now.names failing.now
        ++ promoted_lines F.semantics (slice_index_or head.now.names failing.now.to []) promoted.now) }
    ensures units { IfOk result (λ made. made.1 ≡ promoted.now.units) }
{
    let units = promoted.units.copy()?;
    let names = head.names.items();
    let mut text = Text::open(alloc);
    push_head(&mut text, head)?;
    push_fail(&mut text, names, failing)?;
    push_promoted(&mut text, name_at(names, failing.to), promoted)?;
    Ok((text, units))
}

/// Puts the lines at the top of the report after a text.
#[tactic(auto, unfolding(crate::specs::Lines::head_lines))]
fn push_head(text: &mut Text, head: &Head) -> Result<(), NoMemory>
    ensures { OnOk result (text.new ≡ text.old ++ head_lines head.now) }
{
    let instances = head.names.items().len() as u64;
    text.push_bytes(b"opennf failover 1\n")?;
    push_function_line(text, head.kind, instances, head.window)?;
    push_trace_line(text, head.packets, head.skipped, head.cut)
}

/// Puts the line of what fails after a text.
#[tactic(auto, unfolding(crate::specs::Lines::fail_line))]
fn push_fail(text: &mut Text, names: &[Name], failing: &Failing) -> Result<(), NoMemory>
    ensures { OnOk result (text.new ≡ text.old ++ fail_line names.now failing.now) }
{
    text.push_bytes(b"fail ")?;
    text.push_bytes(name_at(names, failing.failed))?;
    text.push_bytes(b" after ")?;
    text.push_decimal(failing.after)?;
    text.push_bytes(b"\n")
}

/// The name of an instance by its number, or nothing where there is none.
fn name_at<'a>(names: &'a [Name], instance: u8) -> &'a [u8]
    ensures { result.now ≡ slice_index_or names.entry.now instance [] }
{
    match names.get(usize::from(instance)) {
        Some(name) => name.items(),
        None => &[],
    }
}

/// Puts the lines of the affected units and of the packets after a text, with the name of the instance that takes over.
#[tactic(auto, unfolding(crate::specs::Lines::promoted_lines))]
fn push_promoted<F: Function>(
    text: &mut Text,
    name: &[u8],
    promoted: &Promoted<F>,
) -> Result<(), NoMemory>
    ensures { OnOk result (text.new ≡ text.old ++ promoted_lines F.semantics name.now promoted.now) }
{
    push_units(text, name, promoted.units.items(), &promoted.table)?;
    push_numbers(text, b"lost ", promoted.lost.items())?;
    push_numbers(text, b"open ", promoted.pending.items())
}

/// Puts a line for each affected unit after a text.
fn push_units<F: Function>(
    text: &mut Text,
    name: &[u8],
    units: &[Unit],
    table: &Table<F>,
) -> Result<(), NoMemory>
    ensures { OnOk result (text.new ≡ text.old ++ flat_map (λ unit. promoted_line F.semantics name.now unit (finite.get table.now.live unit)) units.now) }
{
    for unit in units {
        push_unit_line::<F>(text, name, unit, table.record(unit, true))?;
    }
    Ok(())
}

/// Puts the line of an affected unit after a text, by its record that is promoted.
fn push_unit_line<F: Function>(
    text: &mut Text,
    name: &[u8],
    unit: &Unit,
    kept: Option<&F::Record>,
) -> Result<(), NoMemory>
    ensures { OnOk result (text.new ≡ text.old ++ promoted_line F.semantics name.now unit.now (option_copied kept.entry)) }
{
    match kept {
        Some(kept) => push_promote::<F>(text, name, unit, kept),
        None => push_gone(text, unit),
    }
}

/// Puts the line of a unit's record that is promoted after a text.
#[tactic(auto, unfolding(crate::specs::Lines::promote_line))]
fn push_promote<F: Function>(
    text: &mut Text,
    name: &[u8],
    unit: &Unit,
    kept: &F::Record,
) -> Result<(), NoMemory>
    ensures { OnOk result (text.new ≡ text.old ++ promote_line F.semantics name.now unit.now kept.now) }
{
    push_promote_text(text, name, unit)?;
    F::push_record(text, kept)?;
    text.push_bytes(b"\n")
}

/// Puts the words of that line before the record.
#[tactic(auto, unfolding(crate::specs::Lines::promote_text))]
fn push_promote_text(text: &mut Text, name: &[u8], unit: &Unit) -> Result<(), NoMemory>
    ensures { OnOk result (text.new ≡ text.old ++ promote_text unit.now name.now) }
{
    text.push_bytes(b"promote ")?;
    push_unit(text, unit)?;
    text.push_bytes(b" to ")?;
    text.push_bytes(name)?;
    text.push_bytes(b" ")
}

/// Puts the line of a unit of which no record stood by after a text.
#[tactic(auto, unfolding(crate::specs::Lines::gone_line))]
fn push_gone(text: &mut Text, unit: &Unit) -> Result<(), NoMemory>
    ensures { OnOk result (text.new ≡ text.old ++ gone_line unit.now) }
{
    text.push_bytes(b"gone ")?;
    push_unit(text, unit)?;
    text.push_bytes(b"\n")
}

/// Puts a line with a word for each number after a text.
fn push_numbers(text: &mut Text, word: &[u8], numbers: &[u32]) -> Result<(), NoMemory>
    ensures { OnOk result (text.new ≡ text.old ++ flat_map (number_line word.now) numbers.now) }
{
    for number in numbers {
        push_number(text, word, *number)?;
    }
    Ok(())
}

/// Puts a line with a word and a number after a text.
#[tactic(auto, unfolding(crate::specs::Lines::number_line))]
fn push_number(text: &mut Text, word: &[u8], number: u32) -> Result<(), NoMemory>
    ensures { OnOk result (text.new ≡ text.old ++ number_line word.now number) }
{
    text.push_bytes(word)?;
    text.push_decimal(u64::from(number))?;
    text.push_bytes(b"\n")
}

/// Puts the lines of the affected units that have caught up, and the last line, after a text.
fn push_end<F: Function>(
    text: &mut Text,
    name: &[u8],
    units: &[Unit],
    table: &Table<F>,
) -> Result<(), NoMemory>
    ensures { OnOk result (text.new ≡ text.old ++ caught_lines F.semantics name.now units.now table.now ++ codes "end\n") }
{
    push_caught(text, name, units, table)?;
    text.push_bytes(b"end\n")
}

/// Puts a line for each affected unit that has caught up after a text.
fn push_caught<F: Function>(
    text: &mut Text,
    name: &[u8],
    units: &[Unit],
    table: &Table<F>,
) -> Result<(), NoMemory>
    ensures { OnOk result (text.new ≡ text.old ++ caught_lines F.semantics name.now units.now table.now) }
{
    for unit in units {
        push_caught_line::<F>(text, name, unit, table.record(unit, true))?;
    }
    Ok(())
}

/// Puts the line of such a unit after a text, by its record.
fn push_caught_line<F: Function>(
    text: &mut Text,
    name: &[u8],
    unit: &Unit,
    kept: Option<&F::Record>,
) -> Result<(), NoMemory>
    ensures { OnOk result (text.new ≡ text.old ++ caught_line F.semantics name.now unit.now (option_copied kept.entry)) }
{
    match kept {
        Some(kept) => push_record::<F>(text, b"caught ", unit, name, kept),
        None => Ok(()),
    }
}
