//! The records of units, as a finite map.
ghost use Rattle.std.specs.Prelude.{◌≡◌, not, map, IfOk, OnOk, OnErr};
ghost use Rattle.std.specs.List.{IsDistinct};
ghost use Rattle.std.specs.Map.{keys_of};
ghost use Rattle.std.specs.Option.{option_copied};
ghost use Rattle.std.specs.FinMap as finite;
ghost use Rattle.flow_filter.specs.Flow.{flow_of};
ghost use Rattle.nf_function.specs.Semantics.{output_for, unit_at};
ghost use Rattle.record_table.specs.Table.{after_packet, is_among, without, either, union_of, AreSound};
ghost use Rattle.record_table.specs.Entries.{map_of, AreEntriesOf};
ghost use Rattle.record_table.specs.Keeping.{choice, records_taken};

use crate::ordered::ordered;
use basics::NoMemory;
use flow_filter::{Direction, Filter, Flow, Packet, Site};
use nf_function::{Function, Output, Unit};
use std::alloc::Global;
use std::marker::Model;
use unit_map::UnitMap;

/// So many entries may stand for each record, and so many more, before those whose records have left are dropped. So what goes over all
/// entries takes time in proportion to the records.
const MOST_FOR_A_RECORD: usize = 4;

const MOST_WITHOUT: usize = 64;

/// The records of units, at most one for each, which contracts see as a finite map.
#[derive(Drop)]
pub(crate) struct RecordMap<R> {
    records: UnitMap<Unit, R>,
    /// How many units have a record.
    count: u32,
    alloc: Global,
}

impl<R> Model for RecordMap<R> {
    ghost use Rattle.std.specs.Prelude.{◌≡◌};
    ghost use Rattle.std.specs.FinMap as finite;
    ghost use Rattle.record_table.specs.Table.{Records};

    ghost Value = { Records R };

    ghost use Rattle.nf_function.specs.contracts.unit.Unit as units;

    ghost coded = { finite.code units.the_row.coded R.code };

    ghost use Rattle.record_table.specs.Entries.{map_of};

    ghost view = { λ m. map_of m.records };

    ghost invariant = { λ m. m.count ≡ finite.len (map_of m.records) };
}

/// Which record is kept where one is held and one comes.
#[derive(Clone, Copy)]
pub(crate) enum Keep {
    /// The newer one.
    Newest,
    /// The one that comes.
    Coming,
}

impl<R: Drop> RecordMap<R> {
    /// No records. This takes no memory.
    pub(crate) fn open(alloc: Global) -> Self
        ensures { result ≡ finite.empty }
    {
        RecordMap {
            records: UnitMap::open(alloc),
            count: 0,
            alloc,
        }
    }

    /// How many units have a record.
    pub(crate) fn len(&self) -> u32
        ensures { result ≡ finite.len self.now }
    {
        self.count
    }

    /// The record of a unit.
    pub(crate) fn get(&self, unit: &Unit) -> Option<&R>
        ensures { option_copied result ≡ finite.get self.now unit.now }
    {
        self.records.get(unit)
    }

    /// The records of the units that a filter takes, or of all units, in the order of the units.
    pub(crate) fn ordered(&self, filter: Option<&Filter>) -> Result<Vec<(Unit, &R)>, NoMemory>
        ensures { IfOk result (λ found. map (λ e. (e.0, e.1.now)) found.items ≡ finite.entries (records_taken (option_copied filter.entry) self.now)) }
    {
        ordered(self.alloc, self.records.entries(), filter)
    }

    /// Makes room for some more records.
    pub(crate) fn reserve(&mut self, more: usize) -> Result<(), NoMemory>
        ensures { self.new ≡ self.old }
    {
        self.records.reserve(more)
    }

    /// Puts a record in for a unit, and tells whether the unit had none.
    pub(crate) fn insert(&mut self, unit: Unit, kept: R) -> Result<bool, NoMemory>
        ensures is_new { IfOk result (λ is_new. is_new ≡ not (finite.contains_key self.old unit)) }
        ensures ok { OnOk result (self.new ≡ finite.insert self.old unit kept) }
        ensures err { OnErr result (self.new ≡ self.old) }
    {
        let is_new = self.records.insert(unit, kept)?.is_none();
        self.count += u32::from(is_new);
        Ok(is_new)
    }

    /// The records of some units again.
    pub(crate) fn copied<F: Function<Record = R>>(&self, units: &[Unit]) -> Result<Self, NoMemory>
        ensures { IfOk result (λ copies. copies ≡ finite.retain_keys self.now (is_among units.now)) }
    {
        let mut copies = RecordMap::open(self.alloc);
        copies.reserve(units.len())?;
        for unit in units {
            if let Some(record) = self.get(unit) {
                copies.insert(*unit, F::copy(self.alloc, record)?)?;
            }
        }
        Ok(copies)
    }

    /// Takes the records of some units out.
    pub(crate) fn remove(&mut self, units: &[Unit])
        ensures { self.new ≡ without units.now self.old }
    {
        for unit in units {
            self.take(unit);
        }
        self.drop_empty();
    }

    /// Drops the entries whose records have left, where they are most of all. Where there is no memory for that, they stay for now.
    fn drop_empty(&mut self)
        ensures { self.new ≡ self.old }
    {
        let most = (self.count as usize)
            .saturating_mul(MOST_FOR_A_RECORD)
            .saturating_add(MOST_WITHOUT);
        if self.records.entries().len() <= most {
            return;
        }
        let _dropped = self.records.drop_empty();
    }

    /// Takes the record of a unit out, if it has one.
    fn take(&mut self, unit: &Unit)
        ensures { self.new ≡ finite.remove self.old unit.now }
    {
        let was_there = self.records.take(unit).is_some();
        self.count -= u32::from(was_there);
    }

    /// Steps the record of a packet's unit where it stands. The packet's flow and the direction in which it goes are at hand.
    pub(crate) fn step<F: Function<Record = R>>(
        &mut self,
        site: &Site,
        flow: Flow,
        direction: Direction,
        packet: &Packet,
    ) -> Result<Output, NoMemory>
        requires { (flow, direction) ≡ flow_of site.now packet.now }
        ensures records { OnOk result (self.new ≡ after_packet F.semantics site.now self.old packet.now) }
        ensures output { IfOk result
            (λ output. output ≡ output_for F.semantics site.now (finite.get self.old (unit_at F.semantics.kind site.now packet.now)) packet.now) }
        ensures sound { AreSound F.semantics self.old → AreSound F.semantics self.new }
        ensures err { OnErr result (self.new ≡ self.old) }
    {
        let place = self.records.place(F::unit(&flow))?;
        let kept = self.records.record_mut(place);
        let before = u32::from(kept.is_some());
        let output = F::step_along(self.alloc, site, flow, direction, kept, packet)?;
        let after = u32::from(kept.is_some());
        self.count = self.count + after - before;
        Ok(output)
    }

    /// All entries, without a copy: each unit stands once.
    pub(crate) fn into_entries(self) -> Vec<(Unit, Option<R>)>
        ensures { AreEntriesOf result.items self }
    {
        self.records.into_entries()
    }

    /// Takes the records of some entries in, where each unit stands once. All growth comes before the first change.
    pub(crate) fn join<F: Function<Record = R>>(
        &mut self,
        mut entries: Vec<(Unit, Option<R>)>,
        keep: Keep,
    ) -> Result<(), NoMemory>
        requires { IsDistinct ⟦<Unit as PartialEq>⟧.eq (keys_of entries.items) }
        ensures ok { OnOk result (self.new ≡ union_of (choice F.semantics keep) self.old (map_of entries.items)) }
        ensures err { OnErr result (self.new ≡ self.old) }
    {
        let mut places = self.records.places(&entries)?;
        while let Some(place) = places.pop() {
            let Some((_, coming)) = entries.pop() else {
                continue;
            };
            let kept = self.records.record_mut(place);
            let before = u32::from(kept.is_some());
            put::<F>(kept, coming, keep);
            let after = u32::from(kept.is_some());
            self.count = self.count + after - before;
        }
        Ok(())
    }
}

/// Puts what comes in a place that may hold a record already.
fn put<F: Function>(kept: &mut Option<F::Record>, coming: Option<F::Record>, keep: Keep)
    ensures { kept.new ≡ either (choice F.semantics keep) kept.old coming }
{
    let Some(coming) = coming else {
        return;
    };
    if let Some(held) = kept {
        if matches!(keep, Keep::Newest) && F::newer(held, &coming) {
            return;
        }
    }
    *kept = Some(coming);
}
