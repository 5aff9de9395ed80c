//! The bytes that a record is stored as.
ghost use Rattle.std.specs.Prelude.{◌≡◌, ◌≤◌, ◌++◌, true, length, option_map, OnOk};
ghost use Rattle.std.specs.List.{flat_map, list_all};
ghost use Rattle.nf_function.specs.Records.{age_cmp};
ghost use Rattle.nf_function.specs.Semantics.{record_in};
ghost use Rattle.addr_translator.specs.Body.{is_mapping, is_distinct, are_mappings, is_valid, mapping_bytes};
ghost use Rattle.addr_translator.specs.Body.{body_of, first_mapping, mappings_in, with_mappings, spelled};
ghost use Rattle.addr_translator.specs.Nat.{nat};
ghost use Rattle.flow_filter.specs.Flow.{ports_per_host};

use crate::ends::Ends;
use crate::mapping::Mapping;
use crate::record::NatRecord;
use basics::{Bytes, NoMemory};
use flow_filter::PORTS_PER_HOST;
use nf_function::stored::{first_byte, first_u16, first_u64, push_u16, push_u64};
use nf_function::{Unit, is_transport};
use std::cmp::Ordering;

/// How many bytes a record without mappings is stored as.
const FIXED: usize = 18;

/// How many bytes a mapping is stored as.
const MAPPING: usize = 3;

/// Up to so many mappings it takes less time to hold each to all others than to clear a bit for each end that there can be.
const FEW: usize = 16;

/// How many bytes a record is stored as.
pub fn body_length(kept: &NatRecord) -> u16
    ensures { result ≡ length (body_of kept.now) }
{
    (FIXED + MAPPING * kept.mappings().len()) as u16
}

/// Puts the bytes that a record is stored as after others.
#[tactic(auto, unfolding(crate::specs::Body::body_of))]
pub fn push_body(bytes: &mut Bytes, kept: &NatRecord) -> Result<(), NoMemory>
    ensures { OnOk result (bytes.new ≡ bytes.old ++ body_of kept.now) }
{
    push_u16(bytes, kept.mappings().len() as u16)?;
    push_mappings(bytes, kept.mappings())?;
    push_u64(bytes, kept.packets())?;
    push_u64(bytes, kept.drops())
}

/// Puts mappings after other bytes.
fn push_mappings(bytes: &mut Bytes, mappings: &[Mapping]) -> Result<(), NoMemory>
    ensures { OnOk result (bytes.new ≡ bytes.old ++ flat_map mapping_bytes mappings.now) }
{
    for mapping in mappings {
        bytes.push(mapping.proto)?;
        push_u16(bytes, mapping.port)?;
    }
    Ok(())
}

/// The record of the unit that the bytes spell.
pub fn record_in(unit: &Unit, body: &[u8]) -> Option<NatRecord>
    ensures { result ≡ record_in nat unit.now body.now }
{
    let record = spelled(body)?;
    if is_valid(*unit, &record) {
        Some(record)
    } else {
        None
    }
}

/// The record that the bytes spell.
#[tactic(auto, unfolding(crate::specs::Body::spelled))]
fn spelled(body: &[u8]) -> Option<NatRecord>
    ensures { result ≡ spelled body.now }
{
    let (used, rest) = first_u16(body)?;
    if usize::from(used) > PORTS_PER_HOST {
        return None;
    }
    let (mut record, rest) = mappings_in(used, rest)?;
    let (packets, rest) = first_u64(rest)?;
    let (drops, rest) = first_u64(rest)?;
    if !rest.is_empty() {
        return None;
    }
    record.set_counts(packets, drops);
    Some(record)
}

/// As many mappings, and the bytes after them.
fn mappings_in(used: u16, bytes: &[u8]) -> Option<(NatRecord, &[u8])>
    requires { used ≤ ports_per_host }
    ensures { option_map (λ x. (x.0, x.1.now)) result ≡ option_map with_mappings (mappings_in used bytes.now) }
{
    let mut record = NatRecord::open();
    let mut rest = bytes;
    'mappings: for _ in 0..used {
        let (mapping, more) = first_mapping(rest)?;
        record.push(mapping);
        rest = more;
    }
    Some((record, rest))
}

/// A mapping, and the bytes after it.
#[tactic(auto, unfolding(crate::specs::Body::first_mapping))]
fn first_mapping(bytes: &[u8]) -> Option<(Mapping, &[u8])>
    ensures { option_map (λ x. (x.0, x.1.now)) result ≡ first_mapping bytes.now }
{
    let (proto, rest) = first_byte(bytes)?;
    let (port, rest) = first_u16(rest)?;
    Some((Mapping { proto, port }, rest))
}

/// Whether it is a record that packets of the unit can have left.
fn is_valid(unit: Unit, kept: &NatRecord) -> bool
    ensures { result ≡ is_valid unit kept.now }
{
    match unit {
        Unit::Flow(_) => false,
        Unit::Host(_) => are_mappings(kept.mappings())
            && kept.packets() >= 1
            && kept.drops() <= kept.packets(),
    }
}

/// Whether a host can have these mappings.
fn are_mappings(mappings: &[Mapping]) -> bool
    ensures { result ≡ are_mappings mappings.now }
{
    mappings.len() <= PORTS_PER_HOST && are_all_mappings(mappings) && is_distinct(mappings)
}

/// Whether each is an end of TCP or UDP.
fn are_all_mappings(mappings: &[Mapping]) -> bool
    ensures { result ≡ list_all is_mapping mappings.now }
{
    mappings.iter().all(|m| is_mapping(*m))
}

/// Whether it is an end of TCP or UDP.
fn is_mapping(mapping: Mapping) -> bool
    ensures { result ≡ is_mapping mapping }
{
    is_transport(mapping.proto)
}

/// Whether no end stands twice among the mappings.
fn is_distinct(mappings: &[Mapping]) -> bool
    requires { list_all is_mapping mappings.now ≡ true }
    ensures { result ≡ is_distinct mappings.now }
{
    if mappings.len() <= FEW {
        return are_few_distinct(mappings);
    }
    let mut seen = Ends::none();
    for mapping in mappings {
        if !seen.see(*mapping) {
            return false;
        }
    }
    true
}

/// The same of few mappings, each of which is held to all later ones.
fn are_few_distinct(mappings: &[Mapping]) -> bool
    ensures { result ≡ is_distinct mappings.now }
{
    for (place, mapping) in mappings.iter().enumerate() {
        if mappings[place + 1..].contains(mapping) {
            return false;
        }
    }
    true
}

/// The order of records by their packets, and then by the bytes that they are stored as.
pub fn age_cmp(a: &NatRecord, b: &NatRecord) -> Ordering
    ensures { result ≡ age_cmp nat a.now b.now }
{
    let (mine, theirs) = (a.mappings(), b.mappings());
    let sizes = mine.len().cmp(&theirs.len());
    let mappings = sizes.then(mine.cmp(theirs));
    a.packets()
        .cmp(&b.packets())
        .then(mappings)
        .then(a.drops().cmp(&b.drops()))
}
