//! The stored bytes of one unit's record: how they are written, and how they are read with the first fault.
ghost use Rattle.std.specs.Prelude.{◌≡◌, ◌<◌, true, [], ◌∷◌, Some, Ok, length, slice_get, IfOk};
ghost use Rattle.nf_function.specs.Forms.{packed_bytes};
ghost use Rattle.nf_function.specs.Semantics.{record_in};
ghost use Rattle.state_chunk.specs.Format.{record_chunk, record_bytes, kind_number, scope_number, version_number, record_scope, IsRecordOf};
ghost use Rattle.state_chunk.specs.Reading.{record_read, record_of_version, DecodesTo};
ghost use Rattle.state_chunk.specs.PackedSteps.{packed_read};

use crate::fault::ChunkFault;
use crate::front::{LONGEST_FRONT, packed_bytes, push_front};
use crate::header::{body_in, header_of, kind_number, record_scope, scope_number, version_number};
use crate::key::{first_key, is_known};
use basics::{Bytes, NoMemory};
use nf_function::{Chunk, ChunkBytes, Form, Function, Packed, Unit, is_transport};
use std::alloc::Global;

/// The chunk of a unit's record.
pub fn encode<F: Function>(alloc: Global, unit: &Unit, kept: &F::Record) -> Result<Chunk, NoMemory>
    requires { F.semantics.is_valid unit.now kept.now ≡ true }
    ensures chunk { IfOk result (λ chunk. chunk ≡ record_chunk F.semantics unit.now kept.now) }

    // What was written is read again.
    ensures again { IfOk result (λ chunk. record_read F.semantics chunk.bytes ≡ Ok (unit.now, kept.now)) }
    ensures version { IfOk result (λ chunk. slice_get chunk.bytes 0 ≡ Some (version_number (F.semantics.is_timed kept.now))) }
{
    Ok(Chunk {
        scope: record_scope(F::which()),
        unit: Some(*unit),
        bytes: record_bytes::<F>(alloc, unit, kept)?,
    })
}

/// The bytes of a unit's record: held as numbers, where it is a flow's and its body is short.
#[tactic(auto, unfolding(crate::specs::Format::record_bytes, nf_function::specs::Forms::packed_bytes))]
fn record_bytes<F: Function>(
    alloc: Global,
    unit: &Unit,
    kept: &F::Record,
) -> Result<ChunkBytes, NoMemory>
    ensures { IfOk result (λ bytes. bytes ≡ record_bytes F.semantics unit.now kept.now) }
{
    match (unit, F::short_body(kept)) {
        (Unit::Flow(flow), Some(body)) => {
            let [version, kind, scope] = head_of::<F>(kept);
            Ok(ChunkBytes::packed(Packed {
                body,
                flow: *flow,
                version,
                kind,
                scope,
            }))
        }
        _ => Ok(ChunkBytes::spelled(spelled_bytes::<F>(alloc, unit, kept)?)),
    }
}

/// The bytes of a unit's record, in one allocation.
#[tactic(auto, unfolding(crate::specs::Format::record_bytes))]
fn spelled_bytes<F: Function>(
    alloc: Global,
    unit: &Unit,
    kept: &F::Record,
) -> Result<Bytes, NoMemory>
    ensures { IfOk result (λ bytes. bytes ≡ record_bytes F.semantics unit.now kept.now) }
{
    let length = F::body_length(kept);
    let room = LONGEST_FRONT + usize::from(length);
    let mut bytes = Bytes::from_vec(Vec::with_capacity(alloc, room)?);
    push_front(&mut bytes, head_of::<F>(kept), unit, length)?;
    F::push_body(&mut bytes, kept)?;
    Ok(bytes)
}

/// Version, kind and scope of a record's chunk.
fn head_of<F: Function>(kept: &F::Record) -> [u8; 3]
    ensures { let f = F.semantics in
        result ≡ version_number (f.is_timed kept.now) ∷ kind_number f.kind ∷ scope_number (record_scope f.kind) ∷ [] }
{
    let kind = F::which();
    [
        version_number(F::is_timed(kept)),
        kind_number(kind),
        scope_number(record_scope(kind)),
    ]
}

/// As [`decode`], of the bytes as a chunk holds them.
#[inline(always)]
pub fn decode_chunk<F: Function>(
    alloc: Global,
    bytes: &ChunkBytes,
) -> Result<(Unit, F::Record), ChunkFault>
    ensures value { DecodesTo (λ x. x) result (record_read F.semantics bytes.now) }
    ensures record { IfOk result (λ x. IsRecordOf F.semantics bytes.now x.0 x.1) }
{
    match bytes.form() {
        Form::Spelled(bytes) => decode::<F>(alloc, bytes.items()),
        Form::Packed(numbers) => unpacked::<F>(alloc, *numbers),
    }
}

/// The unit and the record of a chunk that is held as numbers.
#[inline(always)]
fn unpacked<F: Function>(alloc: Global, numbers: Packed) -> Result<(Unit, F::Record), ChunkFault>
    ensures value { DecodesTo (λ x. x) result (record_read F.semantics (packed_bytes numbers)) }
    ensures record { IfOk result (λ x. IsRecordOf F.semantics (packed_bytes numbers) x.0 x.1) }
{
    if F::which().has_hosts() || !is_transport(numbers.flow.proto) {
        return respelled::<F>(alloc, &numbers);
    }
    packed_read::<F>(alloc, numbers)
}

/// The unit and the record of numbers that no chunk of the function's flows spells, by their bytes.
#[cold]
fn respelled<F: Function>(alloc: Global, numbers: &Packed) -> Result<(Unit, F::Record), ChunkFault>
    ensures value { DecodesTo (λ x. x) result (record_read F.semantics (packed_bytes numbers.now)) }
    ensures record { IfOk result (λ x. IsRecordOf F.semantics (packed_bytes numbers.now) x.0 x.1) }
{
    decode::<F>(alloc, packed_bytes(alloc, numbers)?.items())
}

/// The unit and the record of the numbers of a flow's chunk, read without their bytes.
#[inline(always)]
#[tactic(auto, unfolding(crate::specs::PackedSteps::packed_read))]
fn packed_read<F: Function>(alloc: Global, numbers: Packed) -> Result<(Unit, F::Record), ChunkFault>
    ensures { DecodesTo (λ x. x) result (packed_read F.semantics numbers) }
{
    let kind = F::which();
    let head = [numbers.version, numbers.kind, numbers.scope];
    let (version, _) = header_of(kind, record_scope(kind), kind.has_times(), &head)?;
    let unit = Unit::Flow(numbers.flow);
    let record = F::read_short(alloc, &unit, &numbers.body)?;
    Ok((unit, of_version::<F>(version, record)?))
}

/// The unit and the record of bytes, or the fault of their first part from the front that is missing or wrong.
#[inline(always)]
pub fn decode<F: Function>(alloc: Global, bytes: &[u8]) -> Result<(Unit, F::Record), ChunkFault>
    ensures value { DecodesTo (λ x. x) result (record_read F.semantics bytes.now) }

    // What is read is valid, and has no other spelling.
    ensures record { IfOk result (λ x. IsRecordOf F.semantics bytes.now x.0 x.1) }
{
    decoded::<F>(alloc, bytes)
}

/// The unit and the record of a chunk, read part by part.
#[inline(always)]
#[tactic(auto, unfolding(crate::specs::Reading::record_read))]
fn decoded<F: Function>(alloc: Global, bytes: &[u8]) -> Result<(Unit, F::Record), ChunkFault>
    ensures { DecodesTo (λ x. x) result (record_read F.semantics bytes.now) }
{
    let kind = F::which();
    let (version, rest) = header_of(kind, record_scope(kind), kind.has_times(), bytes)?;
    let (unit, rest) = first_key(kind, rest).ok_or(ChunkFault::Short)?;
    if !is_known(&unit) {
        return Err(ChunkFault::Key);
    }
    let (body, rest) = body_in(rest)?;
    let record = record_of_version::<F>(alloc, version, &unit, body)?;
    if !rest.is_empty() {
        return Err(ChunkFault::Extra);
    }
    Ok((unit, record))
}

/// The record that a body spells, where this version is the one that it needs.
#[inline(always)]
fn record_of_version<F: Function>(
    alloc: Global,
    version: u8,
    unit: &Unit,
    body: &[u8],
) -> Result<F::Record, ChunkFault>
    ensures { DecodesTo (λ x. x) result (record_of_version F.semantics version (record_in F.semantics unit.now body.now)) }
{
    of_version::<F>(version, F::read_record(alloc, unit, body)?)
}

/// A record, where this version is the one that it needs.
#[inline(always)]
fn of_version<F: Function>(version: u8, kept: F::Record) -> Result<F::Record, ChunkFault>
    ensures { DecodesTo (λ x. x) result (record_of_version F.semantics version (Some kept)) }
{
    if version_number(F::is_timed(&kept)) != version {
        return Err(ChunkFault::Body);
    }
    Ok(kept)
}

/// The version of a chunk: its first byte.
pub fn version(chunk: &Chunk) -> u8
    requires { 0 < length chunk.now.bytes }
    ensures { slice_get chunk.now.bytes 0 ≡ Some result }
{
    chunk.bytes.first().unwrap_or(0)
}
