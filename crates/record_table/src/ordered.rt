//! Records in the order of their units.
ghost use Rattle.std.specs.Prelude.{◌≡◌, ◌<◌, map, IfOk};
ghost use Rattle.std.specs.List.{All};
ghost use Rattle.std.specs.Option.{option_copied};
ghost use Rattle.std.specs.FinMap as finite;
ghost use Rattle.unit_map.specs.Entries.{IsMap};
ghost use Rattle.record_table.specs.Entries.{map_of};
ghost use Rattle.record_table.specs.Keeping.{is_taken, records_taken, all_found, flow_number, unit_number, AreWithin, IsWithin, IsNumbered, pairs_of};

use basics::NoMemory;
use flow_filter::{Filter, Flow};
use nf_function::{Unit, filter_takes};
use std::alloc::Global;

/// What the number of a host is above its address: more than that of any flow.
const HOSTS: u64 = 0x100_0000_0000_0000;

/// A record that was found.
///
/// Its unit stands beside it as one number, so that a comparison takes two steps.
#[derive(Drop)]
struct Found<'a, R> {
    /// Numbers stand in the order of their units.
    number: u128,
    unit: &'a Unit,
    record: &'a R,
}

/// The records of the units that a filter takes, or of all units, in the order of the units.
pub(crate) fn ordered<'a, R>(
    alloc: Global,
    entries: &'a [(Unit, Option<R>)],
    filter: Option<&Filter>,
) -> Result<Vec<(Unit, &'a R)>, NoMemory>
    requires { IsMap ⟦<Unit as PartialEq>⟧.eq entries.now }
    ensures { IfOk result (λ found. map (λ e. (e.0, e.1.now)) found.items ≡ finite.entries (records_taken (option_copied filter.entry) (map_of entries.now))) }
{
    let mut found = all_found(alloc, entries, filter)?;
    found.sort_by_key(|found| found.number)?;
    pairs_of(alloc, &found)
}

/// The records of these units in the order of the entries.
fn all_found<'a, R>(
    alloc: Global,
    entries: &'a [(Unit, Option<R>)],
    filter: Option<&Filter>,
) -> Result<Vec<Found<'a, R>>, NoMemory>
    ensures found { IfOk result (λ found. map (λ e. (e.0, e.1.now)) (pairs_of found.items) ≡ all_found (option_copied filter.entry) entries.now) }
    ensures numbered { IfOk result (λ found. All IsNumbered found.items) }
{
    let mut found = Vec::with_capacity(alloc, entries.len())?;
    for entry in entries {
        let Some(record) = &entry.1 else {
            continue;
        };
        if is_taken(filter, &entry.0) {
            found.push(found_at(&entry.0, record))?;
        }
    }
    Ok(found)
}

/// The record of a unit, with the unit's number.
fn found_at<'a, R>(unit: &'a Unit, kept: &'a R) -> Found<'a, R>
    ensures unit { result.unit.now ≡ unit.now }
    ensures record { result.«record».now ≡ kept.now }
    ensures numbered { IsNumbered result }
{
    Found {
        number: unit_number(unit),
        unit,
        record: kept,
    }
}

/// Whether the filter, if there is one, takes the unit.
#[inline(always)]
fn is_taken(filter: Option<&Filter>, unit: &Unit) -> bool
    ensures { result ≡ is_taken (option_copied filter.entry) unit.now }
{
    match filter {
        Some(filter) => filter_takes(filter, unit),
        None => true,
    }
}

#[inline(always)]
fn unit_number(unit: &Unit) -> u128
    ensures value { result ≡ unit_number unit.now }
    ensures within { IsWithin unit.now }
{
    match *unit {
        Unit::Flow(flow) => flow_number(flow),
        Unit::Host(host) => u128::from(HOSTS + u64::from(host)) * 0x1_0000_0000_0000_0000,
    }
}

/// The number of a flow: its protocol, and then its local and its remote end.
#[inline(always)]
fn flow_number(flow: Flow) -> u128
    ensures value { result ≡ flow_number flow }
    ensures within { AreWithin flow }
{
    let Flow {
        local,
        remote,
        lport,
        rport,
        proto,
    } = flow;
    let protocol = u64::from(proto) * 0x1_0000_0000;
    let local_end = (protocol + u64::from(local)) * 0x1_0000 + u64::from(lport);
    let remote_end = u64::from(remote) * 0x1_0000 + u64::from(rport);
    u128::from(local_end) * 0x1_0000_0000_0000_0000 + u128::from(remote_end)
}

/// The units and their records, without the numbers.
fn pairs_of<'a, R>(alloc: Global, found: &[Found<'a, R>]) -> Result<Vec<(Unit, &'a R)>, NoMemory>
    ensures { IfOk result (λ pairs. pairs.items ≡ pairs_of found.now) }
{
    let mut pairs = Vec::with_capacity(alloc, found.len())?;
    for found in found {
        pairs.push((*found.unit, found.record))?;
    }
    Ok(pairs)
}
