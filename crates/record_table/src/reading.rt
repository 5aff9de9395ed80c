//! The records that chunks bring.
ghost use Rattle.std.specs.Prelude.{◌≡◌, true, IfOk, IfSome, OnOk, IfErr};
ghost use Rattle.std.specs.FinMap as finite;
ghost use Rattle.record_table.specs.Table.{AreSound};
ghost use Rattle.record_table.specs.Chunks.{spelled, records_of, are_good};
ghost use Rattle.record_table.specs.Entries.{map_of, AreEntriesOf};
ghost use Rattle.record_table.specs.Keeping.{IsChunkFault, fault_with, comes_after};

use crate::record_map::RecordMap;
use crate::refusal::ImportFault;
use basics::NoMemory;
use nf_function::{Chunk, Chunks, Function, Unit};
use state_chunk::{ChunkFault, decode_chunk};
use std::alloc::Global;

/// Why chunks give no records.
#[derive(Clone, Copy, Debug)]
pub(crate) enum ReadFault {
    /// The chunk at this place is the first that is bad.
    Bad(usize),
    /// Memory ran out.
    NoMemory,
}

impl From<NoMemory> for ReadFault {
    ghost use Rattle.std.specs.Prelude.{◌≡◌};
    ghost use Rattle.record_table.specs.declared.reading.ReadFault.TheVariants.{NoMemory as OutOfMemory};

    ghost from_gives = { λ _ e. e ≡ OutOfMemory };

    fn from(_e: NoMemory) -> ReadFault {
        ReadFault::NoMemory
    }
}

impl ReadFault {
    /// The fault with the chunks that are handed back.
    pub(crate) fn with_chunks(self, chunks: Chunks) -> ImportFault
        ensures { result ≡ fault_with self chunks }
    {
        match self {
            ReadFault::Bad(index) => ImportFault::Bad { index, chunks },
            ReadFault::NoMemory => ImportFault::NoMemory(chunks),
        }
    }
}

/// The records that chunks spell, as entries, each unit's once.
pub(crate) fn records_of<F: Function>(
    alloc: Global,
    chunks: &[Chunk],
) -> Result<Vec<(Unit, Option<F::Record>)>, ReadFault>
    ensures records { IfOk result (λ entries. AreEntriesOf entries.items (records_of F.semantics chunks.now)) }
    ensures sound { IfOk result (λ entries. AreSound F.semantics (map_of entries.items)) }
    ensures good { OnOk result (are_good F.semantics chunks.now ≡ true) }
    ensures bad { IfErr result (IsChunkFault F.semantics chunks.now) }
{
    if let Some(entries) = records_in_order::<F>(alloc, chunks)? {
        return Ok(entries);
    }
    let records = records_in_any_order::<F>(alloc, chunks)?;
    Ok(records.into_entries())
}

/// The records of chunks, where each chunk spells one and the units stand in order, so that no unit comes twice.
fn records_in_order<F: Function>(
    alloc: Global,
    chunks: &[Chunk],
) -> Result<Option<Vec<(Unit, Option<F::Record>)>>, NoMemory>
    ensures records { IfOk result (λ found. IfSome found (λ entries. AreEntriesOf entries.items (records_of F.semantics chunks.now))) }
    ensures sound { IfOk result (λ found. IfSome found (λ entries. AreSound F.semantics (map_of entries.items))) }
    ensures good { IfOk result (λ found. IfSome found (λ entries. are_good F.semantics chunks.now ≡ true)) }
{
    let mut entries = Vec::with_capacity(alloc, chunks.len())?;
    let mut last = None;
    for chunk in chunks {
        let Some((unit, record)) = spelled::<F>(alloc, chunk)? else {
            return Ok(None);
        };
        if !comes_after(last, &unit) {
            return Ok(None);
        }
        entries.push((unit, Some(record)))?;
        last = Some(unit);
    }
    Ok(Some(entries))
}

/// Whether a unit comes after the last one, if there is one.
fn comes_after(last: Option<Unit>, unit: &Unit) -> bool
    ensures { result ≡ comes_after last unit.now }
{
    match last {
        Some(last) => last.cmp(unit).is_lt(),
        None => true,
    }
}

/// The records that chunks spell, whatever the order of their units.
#[cold]
#[inline(never)]
fn records_in_any_order<F: Function>(
    alloc: Global,
    chunks: &[Chunk],
) -> Result<RecordMap<F::Record>, ReadFault>
    ensures records { IfOk result (λ records. records ≡ records_of F.semantics chunks.now) }
    ensures sound { IfOk result (λ records. AreSound F.semantics records) }
    ensures good { OnOk result (are_good F.semantics chunks.now ≡ true) }
    ensures bad { IfErr result (IsChunkFault F.semantics chunks.now) }
{
    let mut records = RecordMap::open(alloc);
    read_into::<F>(alloc, chunks, &mut records)?;
    Ok(records)
}

/// Reads the records that chunks spell into a map that is empty.
fn read_into<F: Function>(
    alloc: Global,
    chunks: &[Chunk],
    records: &mut RecordMap<F::Record>,
) -> Result<(), ReadFault>
    requires { records.old ≡ finite.empty }
    ensures records { OnOk result (records.new ≡ records_of F.semantics chunks.now) }
    ensures sound { OnOk result (AreSound F.semantics records.new) }
    ensures good { OnOk result (are_good F.semantics chunks.now ≡ true) }
    ensures bad { IfErr result (IsChunkFault F.semantics chunks.now) }
{
    records.reserve(chunks.len())?;
    for (index, chunk) in chunks.iter().enumerate() {
        let Some((unit, record)) = spelled::<F>(alloc, chunk)? else {
            return Err(ReadFault::Bad(index));
        };
        if !records.insert(unit, record)? {
            return Err(ReadFault::Bad(index));
        }
    }
    Ok(())
}

/// The unit and the record that a chunk spells.
#[inline(always)]
fn spelled<F: Function>(alloc: Global, chunk: &Chunk) -> Result<Option<(Unit, F::Record)>, NoMemory>
    ensures found { IfOk result (λ found. found ≡ spelled F.semantics chunk.now) }
    ensures valid { IfOk result (λ found. IfSome found (λ x. F.semantics.is_valid x.0 x.1 ≡ true)) }
{
    match decode_chunk::<F>(alloc, &chunk.bytes) {
        Ok(found) => Ok(Some(found)),
        Err(ChunkFault::NoMemory) => Err(NoMemory),
        Err(_) => Ok(None),
    }
}
