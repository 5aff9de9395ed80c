//! The stored bytes of tallies: how they are written, and how they are read with the first fault.
ghost use Rattle.std.specs.Prelude.{◌≡◌, ◌++◌, Ok, length, OnOk, IfOk};
ghost use Rattle.std.specs.List.{flat_map};
ghost use Rattle.nf_function.specs.Stored.{number_bytes};
ghost use Rattle.state_chunk.specs.Format.{tally_chunk, tally_bytes, IsTally};
ghost use Rattle.state_chunk.specs.Reading.{tally_read, numbers_in, slots_of, DecodesTo};
ghost use Rattle.flow_filter.specs.Limits.{most_instances};

use crate::fault::ChunkFault;
use crate::front::packed_bytes;
use crate::header::{PLAIN, body_in, header_of, kind_number, scope_number};
use basics::{Bytes, NoMemory};
use byteorder::{BigEndian, ByteOrder};
use nf_function::stored::push_u16;
use nf_function::{Chunk, ChunkBytes, Form, Kind, Scope, Tally};
use std::alloc::Global;

/// How many bytes the body of a tally has.
const BODY: u16 = 128;

/// The chunk of a tally.
pub fn encode_tally(alloc: Global, kind: Kind, tally: &Tally) -> Result<Chunk, NoMemory>
    ensures chunk { IfOk result (λ chunk. chunk ≡ tally_chunk kind tally.now.slots) }

    // What was written is read again.
    ensures again { IfOk result (λ chunk. tally_read kind chunk.bytes ≡ Ok tally.now.slots) }
{
    let mut bytes = Bytes::open(alloc);
    push_tally(&mut bytes, kind, tally)?;
    Ok(Chunk {
        scope: Scope::AllFlows,
        unit: None,
        bytes: ChunkBytes::spelled(bytes),
    })
}

/// Puts the bytes of a tally after others.
#[tactic(auto, unfolding(crate::specs::Format::tally_bytes))]
fn push_tally(bytes: &mut Bytes, kind: Kind, tally: &Tally) -> Result<(), NoMemory>
    ensures bytes { OnOk result (bytes.new ≡ bytes.old ++ tally_bytes kind tally.now.slots) }
    ensures counts { OnOk result (IsTally tally.now.slots) }
{
    bytes.push_bytes(&[PLAIN, kind_number(kind), scope_number(Scope::AllFlows)])?;
    push_u16(bytes, BODY)?;
    push_slots(bytes, &tally.slots)
}

/// Puts the counts of a tally after other bytes.
#[tactic(auto, unfolding(nf_function::specs::Stored::number_bytes))]
fn push_slots(bytes: &mut Bytes, slots: &[u64; 16]) -> Result<(), NoMemory>
    ensures bytes { OnOk result (bytes.new ≡ bytes.old ++ flat_map (number_bytes 8) slots.now) }
    ensures counts { OnOk result (IsTally slots.now) }
{
    let mut spelled = [0; 128];
    BigEndian::write_u64_into(slots, &mut spelled);
    bytes.push_bytes(&spelled)
}

/// As [`decode_tally`], of the bytes as a chunk holds them.
pub fn decode_tally_chunk(
    alloc: Global,
    kind: Kind,
    bytes: &ChunkBytes,
) -> Result<Tally, ChunkFault>
    ensures value { DecodesTo (λ tally. tally.slots) result (tally_read kind bytes.now) }
    ensures spelled { IfOk result (λ tally. bytes.now ≡ tally_bytes kind tally.slots) }
{
    match bytes.form() {
        Form::Spelled(bytes) => decode_tally(kind, bytes.items()),
        Form::Packed(numbers) => decode_tally(kind, packed_bytes(alloc, numbers)?.items()),
    }
}

/// The tally of bytes, or the fault of their first part from the front that is missing or wrong.
pub fn decode_tally(kind: Kind, bytes: &[u8]) -> Result<Tally, ChunkFault>
    ensures value { DecodesTo (λ tally. tally.slots) result (tally_read kind bytes.now) }

    // What is read has no other spelling.
    ensures spelled { IfOk result (λ tally. bytes.now ≡ tally_bytes kind tally.slots) }
{
    decoded_tally(kind, bytes)
}

/// The tally of a chunk, read part by part.
#[tactic(auto, unfolding(crate::specs::Reading::tally_read))]
fn decoded_tally(kind: Kind, bytes: &[u8]) -> Result<Tally, ChunkFault>
    ensures value { DecodesTo (λ tally. tally.slots) result (tally_read kind bytes.now) }
    ensures slots { IfOk result (λ tally. length tally.slots ≡ most_instances) }
{
    let (_, rest) = header_of(kind, Scope::AllFlows, false, bytes)?;
    let (body, rest) = body_in(rest)?;
    let tally = tally_in(body)?;
    if !rest.is_empty() {
        return Err(ChunkFault::Extra);
    }
    Ok(tally)
}

/// The tally that a body spells.
fn tally_in(body: &[u8]) -> Result<Tally, ChunkFault>
    ensures value { DecodesTo (λ tally. tally.slots) result (slots_of (numbers_in most_instances body.now)) }
    ensures slots { IfOk result (λ tally. length tally.slots ≡ most_instances) }
{
    if body.len() != usize::from(BODY) {
        return Err(ChunkFault::Body);
    }
    let mut tally = Tally::zero();
    BigEndian::read_u64_into(body, &mut tally.slots);
    Ok(tally)
}
