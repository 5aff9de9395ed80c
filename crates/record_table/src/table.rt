//! The records of one instance, live and in standby, and what a step, an import, an export and a promotion do with them.
ghost use Rattle.std.specs.Prelude.{◌≡◌, ◌+◌, ◌≤◌, true, false, not, if◌then◌else◌, List, length, map, option_map, IfOk, IfErr, IfSome, OnOk, OnErr, None};
ghost use Rattle.std.specs.Option.{option_copied, option_or};
ghost use Rattle.std.specs.FinMap as finite;
ghost use Rattle.flow_filter.specs.Flow.{flow_of};
ghost use Rattle.nf_function.specs.declared.unit.Unit.{Unit as EachUnit};
ghost use Rattle.nf_function.specs.Records.{newest};
ghost use Rattle.nf_function.specs.Semantics.{kept_after, output_for, unit_at};
ghost use Rattle.state_chunk.specs.Format.{record_chunk};
ghost use Rattle.record_table.specs.Table.{empty, part, with_part, after_packet, same_unit, taken_by};
ghost use Rattle.record_table.specs.Table.{is_among, without, either, union_of, newest_of, replaced_by};
ghost use Rattle.record_table.specs.Chunks.{spelled, chunks_of, records_of, are_good, AreMadeOf, AreReadAs};
ghost use Rattle.record_table.specs.Refusals.{IsRefusal, IsImportRefusal, is_bad};
ghost use Rattle.record_table.specs.Keeping.{choice, IsChunkFault};

use crate::reading::{ReadFault, records_of};
use crate::record_map::{Keep, RecordMap};
use crate::refusal::ImportFault;
use basics::NoMemory;
use flow_filter::{Direction, Filter, Flow, Packet, Site, flow_of};
use nf_function::{Chunk, Chunks, Function, Output, Unit, Units};
use state_chunk::encode;
use std::alloc::Global;
use std::marker::Model;

/// The records of an instance of a function, which contracts see as two finite maps.
#[derive(Drop)]
pub struct Table<F: Function> {
    live: RecordMap<F::Record>,
    standby: RecordMap<F::Record>,
    alloc: Global,
}

impl<F: Function> Model for Table<F> {
    ghost use Rattle.std.specs.FinMap as finite;
    ghost use Rattle.nf_function.specs.contracts.unit.Unit as units;
    ghost use Rattle.record_table.specs.Table.{TableView, table_code, AreSound};

    ghost Value = { TableView F.Record };

    ghost coded = { table_code (finite.code units.the_row.coded F.Record.code) };

    ghost view = { λ t. record { live = t.live; standby = t.standby } };

    ghost invariant = { λ t. AreSound F.semantics t.live × AreSound F.semantics t.standby };
}

/// What a step came to.
#[derive(Clone, Copy, Debug, PartialEq, Eq)]
pub struct Stepped {
    /// The unit whose record was stepped.
    pub unit: Unit,
    pub output: Output,
}

impl<F: Function> Table<F> {
    /// No records. This takes no memory.
    pub fn open(alloc: Global) -> Self
        ensures { result ≡ empty }
    {
        Table {
            live: RecordMap::open(alloc),
            standby: RecordMap::open(alloc),
            alloc,
        }
    }

    /// Steps the record of a packet's unit: the live one, or else the one that stands by. It is made where there is none.
    pub fn step(&mut self, site: &Site, packet: &Packet, live: bool) -> Result<Stepped, NoMemory>
        ensures table { OnOk result (self.new ≡ with_part self.old live (after_packet F.semantics site.now (part self.old live) packet.now)) }
        ensures each { OnOk result ((u : EachUnit) → finite.get (part self.new live) u ≡ (if same_unit u (unit_at F.semantics.kind site.now packet.now)
            then kept_after F.semantics site.now (finite.get (part self.old live) u) packet.now else finite.get (part self.old live) u)) }
        ensures apart { part self.new (not live) ≡ part self.old (not live) }
        ensures unit { IfOk result (λ stepped. stepped.unit ≡ unit_at F.semantics.kind site.now packet.now) }
        ensures output { IfOk result (λ stepped. stepped.output ≡ output_for F.semantics site.now (finite.get (part self.old live) stepped.unit) packet.now) }
        ensures err { OnErr result (self.new ≡ self.old) }
    {
        let (flow, direction) = flow_of(site, packet);
        self.step_along(site, flow, direction, packet, live)
    }

    /// Steps the record of a packet's unit, where the packet's flow and the direction in which it goes are at hand.
    pub fn step_along(
        &mut self,
        site: &Site,
        flow: Flow,
        direction: Direction,
        packet: &Packet,
        live: bool,
    ) -> Result<Stepped, NoMemory>
        requires { (flow, direction) ≡ flow_of site.now packet.now }
        ensures table { OnOk result (self.new ≡ with_part self.old live (after_packet F.semantics site.now (part self.old live) packet.now)) }
        ensures each { OnOk result ((u : EachUnit) → finite.get (part self.new live) u ≡ (if same_unit u (unit_at F.semantics.kind site.now packet.now)
            then kept_after F.semantics site.now (finite.get (part self.old live) u) packet.now else finite.get (part self.old live) u)) }
        ensures apart { part self.new (not live) ≡ part self.old (not live) }
        ensures unit { IfOk result (λ stepped. stepped.unit ≡ unit_at F.semantics.kind site.now packet.now) }
        ensures output { IfOk result (λ stepped. stepped.output ≡ output_for F.semantics site.now (finite.get (part self.old live) stepped.unit) packet.now) }
        ensures err { OnErr result (self.new ≡ self.old) }
    {
        let output = if live {
            self.live.step::<F>(site, flow, direction, packet)?
        } else {
            self.standby.step::<F>(site, flow, direction, packet)?
        };
        Ok(Stepped {
            unit: F::unit(&flow),
            output,
        })
    }

    /// The chunks of the live records of the units that a filter takes, in the order of the units.
    pub fn select(&self, filter: &Filter) -> Result<Chunks, NoMemory>
        ensures chunks { IfOk result (λ chunks. chunks ≡ chunks_of F.semantics (taken_by filter.now self.now.live)) }

        // What was selected is read again.
        ensures read { IfOk result (λ chunks. AreReadAs F.semantics chunks (taken_by filter.now self.now.live)) }
    {
        let records = self.live.ordered(Some(filter))?;
        let mut chunks = Chunks::from_vec(Vec::with_capacity(self.alloc, records.len())?);
        for (unit, record) in &records {
            chunks.push(encode::<F>(self.alloc, unit, record)?)?;
        }
        Ok(chunks)
    }

    /// The chunk of a unit's record, if it has one.
    pub fn one(&self, unit: &Unit, live: bool) -> Result<Option<Chunk>, NoMemory>
        ensures chunk { IfOk result (λ chunk. chunk ≡ option_map (record_chunk F.semantics unit.now) (finite.get (part self.now live) unit.now)) }

        // What it spells is the record.
        ensures read { IfOk result
            (λ chunk. IfSome chunk (λ it. spelled F.semantics it ≡ option_map (λ r. (unit.now, r)) (finite.get (part self.now live) unit.now))) }
    {
        match self.record(unit, live) {
            Some(record) => Ok(Some(encode::<F>(self.alloc, unit, record)?)),
            None => Ok(None),
        }
    }

    /// Takes the live records of some units out, and gives how many there were. This can't run out of memory.
    pub fn remove(&mut self, units: &Units) -> u32
        ensures table { self.new ≡ record self.old { live = without units.now self.old.live } }
        ensures each { (u : EachUnit) → finite.get self.new.live u ≡ (if is_among units.now u then None else finite.get self.old.live u) }
        ensures count { result ≡ finite.len (finite.retain_keys self.old.live (is_among units.now)) }
    {
        let before = self.live.len();
        self.live.remove(units.items());
        before - self.live.len()
    }

    /// Makes the chunks' records live. Where a unit has a live record already, the newer of the two is kept.
    ///
    /// `total` is how many chunks come in all: these, and later ones that `restore` is to take in. All growth and all decoding come
    /// before the first change.
    pub fn import(&mut self, chunks: Chunks, total: u32, limit: u32) -> Result<(), ImportFault>
        requires { length chunks ≤ total }
        ensures table { OnOk result (self.new ≡ record self.old { live = newest_of F.semantics self.old.live (records_of F.semantics chunks) }) }
        ensures each { OnOk result ((u : EachUnit)
            → finite.get self.new.live u ≡ either (newest F.semantics) (finite.get self.old.live u) (finite.get (records_of F.semantics chunks) u)) }
        ensures good { OnOk result (are_good F.semantics chunks ≡ true) }
        ensures room { OnOk result (finite.len self.old.live + total ≤ limit) }
        ensures within { OnOk result (finite.len self.new.live ≤ limit) }
        ensures refusal { IfErr result
            (IsImportRefusal F.semantics (record { held = finite.len self.old.live; coming = total; limit = limit; chunks = chunks })) }
        ensures err { OnErr result (self.new ≡ self.old) }

        // No chunk is bad that was made of a record, where no two are of one unit.
        ensures made { (entries : List (EachUnit × F.Record)) → AreMadeOf F.semantics chunks entries → IfErr result (λ fault. is_bad fault ≡ false) }
    {
        let held = self.live_count();
        if u64::from(held) + u64::from(total) > u64::from(limit) {
            return Err(ImportFault::Limit {
                held,
                coming: total,
                limit,
                chunks,
            });
        }
        self.restore(chunks)
    }

    /// Makes the chunks' records live, without a limit.
    pub fn restore(&mut self, chunks: Chunks) -> Result<(), ImportFault>
        ensures table { OnOk result (self.new ≡ record self.old { live = newest_of F.semantics self.old.live (records_of F.semantics chunks) }) }
        ensures each { OnOk result ((u : EachUnit)
            → finite.get self.new.live u ≡ either (newest F.semantics) (finite.get self.old.live u) (finite.get (records_of F.semantics chunks) u)) }
        ensures good { OnOk result (are_good F.semantics chunks ≡ true) }
        ensures refusal { IfErr result (IsRefusal F.semantics chunks) }
        ensures err { OnErr result (self.new ≡ self.old) }

        // No chunk is bad that was made of a record, where no two are of one unit.
        ensures made { (entries : List (EachUnit × F.Record)) → AreMadeOf F.semantics chunks entries → IfErr result (λ fault. is_bad fault ≡ false) }
    {
        self.take_in(true, Keep::Newest, chunks)
    }

    /// Lets the chunks' records stand by. Where a unit has such a record already, the newer of the two is kept.
    pub fn set_standby(&mut self, chunks: Chunks) -> Result<(), ImportFault>
        ensures table { OnOk result (self.new ≡ record self.old { standby = newest_of F.semantics self.old.standby (records_of F.semantics chunks) }) }
        ensures each { OnOk result ((u : EachUnit)
            → finite.get self.new.standby u ≡ either (newest F.semantics) (finite.get self.old.standby u) (finite.get (records_of F.semantics chunks) u)) }
        ensures good { OnOk result (are_good F.semantics chunks ≡ true) }
        ensures refusal { IfErr result (IsRefusal F.semantics chunks) }
        ensures err { OnErr result (self.new ≡ self.old) }

        // No chunk is bad that was made of a record, where no two are of one unit.
        ensures made { (entries : List (EachUnit × F.Record)) → AreMadeOf F.semantics chunks entries → IfErr result (λ fault. is_bad fault ≡ false) }
    {
        self.take_in(false, Keep::Newest, chunks)
    }

    /// Sets the live records of the chunks' units to those of the chunks, or else those that stand by.
    pub fn sync(&mut self, live: bool, chunks: Chunks) -> Result<(), ImportFault>
        ensures table { OnOk result (self.new ≡ with_part self.old live (replaced_by (part self.old live) (records_of F.semantics chunks))) }
        ensures each { OnOk result ((u : EachUnit)
            → finite.get (part self.new live) u ≡ option_or (finite.get (records_of F.semantics chunks) u) (finite.get (part self.old live) u)) }
        ensures apart { part self.new (not live) ≡ part self.old (not live) }
        ensures good { OnOk result (are_good F.semantics chunks ≡ true) }
        ensures refusal { IfErr result (IsRefusal F.semantics chunks) }
        ensures err { OnErr result (self.new ≡ self.old) }

        // No chunk is bad that was made of a record, where no two are of one unit.
        ensures made { (entries : List (EachUnit × F.Record)) → AreMadeOf F.semantics chunks entries → IfErr result (λ fault. is_bad fault ≡ false) }
    {
        self.take_in(live, Keep::Coming, chunks)
    }

    /// Makes the records that stand by of some units live too, in place of what is live of them. No chunk is made.
    ///
    /// All growth and all copies come before the first change. A unit that comes twice does no harm.
    pub fn promote(&mut self, units: &Units) -> Result<(), NoMemory>
        ensures table { OnOk result
            (self.new ≡ record self.old { live = replaced_by self.old.live (finite.retain_keys self.old.standby (is_among units.now)) }) }
        ensures each { OnOk result ((u : EachUnit)
            → finite.get self.new.live u ≡ option_or (if is_among units.now u then finite.get self.old.standby u else None) (finite.get self.old.live u)) }
        ensures standby { self.new.standby ≡ self.old.standby }
        ensures err { OnErr result (self.new ≡ self.old) }
    {
        let copies = self.standby.copied::<F>(units.items())?;
        self.live.join::<F>(copies.into_entries(), Keep::Coming)?;
        Ok(())
    }

    /// How many units have a live record.
    pub fn live_count(&self) -> u32
        ensures { result ≡ finite.len self.now.live }
    {
        self.live.len()
    }

    /// The units of the live records, or of those that stand by, in order.
    pub fn units(&self, live: bool) -> Result<Units, NoMemory>
        ensures { IfOk result (λ units. units ≡ finite.keys (part self.now live)) }
    {
        let records = self.part(live).ordered(None)?;
        let mut units = Units::from_vec(Vec::with_capacity(self.alloc, records.len())?);
        for entry in &records {
            units.push(entry.0)?;
        }
        Ok(units)
    }

    /// The live records, or else those that stand by, in the order of their units.
    pub fn records(&self, live: bool) -> Result<Vec<(Unit, &F::Record)>, NoMemory>
        ensures { IfOk result (λ found. map (λ e. (e.0, e.1.now)) found.items ≡ finite.entries (part self.now live)) }
    {
        self.part(live).ordered(None)
    }

    /// The live record of a unit, or else the one that stands by.
    pub fn record(&self, unit: &Unit, live: bool) -> Option<&F::Record>
        ensures { option_copied result ≡ finite.get (part self.now live) unit.now }
    {
        self.part(live).get(unit)
    }

    /// The live records, or else those that stand by.
    fn part(&self, live: bool) -> &RecordMap<F::Record>
        ensures { result.now ≡ part self.now live }
    {
        if live { &self.live } else { &self.standby }
    }

    /// Takes the chunks' records in.
    fn take_in(&mut self, live: bool, keep: Keep, chunks: Chunks) -> Result<(), ImportFault>
        ensures table { OnOk result
            (self.new ≡ with_part self.old live (union_of (choice F.semantics keep) (part self.old live) (records_of F.semantics chunks))) }
        ensures good { OnOk result (are_good F.semantics chunks ≡ true) }
        ensures err { OnErr result (self.new ≡ self.old) }
        ensures refusal { IfErr result (IsRefusal F.semantics chunks) }
        ensures made { (entries : List (EachUnit × F.Record)) → AreMadeOf F.semantics chunks entries → IfErr result (λ fault. is_bad fault ≡ false) }
    {
        match self.join(live, keep, chunks.items()) {
            Ok(()) => Ok(()),
            Err(fault) => Err(fault.with_chunks(chunks)),
        }
    }

    /// Reads the chunks, and then takes their records in.
    fn join(&mut self, live: bool, keep: Keep, chunks: &[Chunk]) -> Result<(), ReadFault>
        ensures table { OnOk result
            (self.new ≡ with_part self.old live (union_of (choice F.semantics keep) (part self.old live) (records_of F.semantics chunks.now))) }
        ensures good { OnOk result (are_good F.semantics chunks.now ≡ true) }
        ensures err { OnErr result (self.new ≡ self.old) }
        ensures fault { IfErr result (IsChunkFault F.semantics chunks.now) }
    {
        let coming = records_of::<F>(self.alloc, chunks)?;
        if live {
            self.live.join::<F>(coming, keep)?;
            return Ok(());
        }
        self.standby.join::<F>(coming, keep)?;
        Ok(())
    }
}
