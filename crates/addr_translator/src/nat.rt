use crate::record::NatRecord;
use crate::table::step_of_host;
use crate::{body, text};
use basics::{Bytes, NoMemory, Text};
use flow_filter::{Direction, Flow, Packet, Site};
use nf_function::{BodyFault, Function, Kind, Output, ShortBody, Unit};
use std::alloc::Global;
use std::cmp::Ordering;

/// The address translator as a network function. Its steps never run out of memory.
pub struct Nat;

impl Function for Nat {
    ghost use Rattle.addr_translator.specs.Nat.{nat};
    ghost use Rattle.addr_translator.specs.StepLemmas.{nat_laws};

    type Record = NatRecord;

    ghost semantics = { nat };

    ghost laws = { nat_laws };

    fn which() -> Kind {
        Kind::Nat
    }

    fn step_along(
        _alloc: Global,
        site: &Site,
        flow: Flow,
        _direction: Direction,
        kept: &mut Option<NatRecord>,
        packet: &Packet,
    ) -> Result<Output, NoMemory> {
        Ok(step_of_host(site, flow.local, kept, packet))
    }

    fn body_length(kept: &NatRecord) -> u16 {
        body::body_length(kept)
    }

    fn push_body(bytes: &mut Bytes, kept: &NatRecord) -> Result<(), NoMemory> {
        body::push_body(bytes, kept)
    }

    fn read_record(_alloc: Global, unit: &Unit, body: &[u8]) -> Result<NatRecord, BodyFault> {
        body::record_in(unit, body).ok_or(BodyFault::Body)
    }

    fn short_body(_kept: &NatRecord) -> Option<ShortBody> {
        None
    }

    fn read_short(alloc: Global, unit: &Unit, body: &ShortBody) -> Result<NatRecord, BodyFault> {
        Self::read_record(alloc, unit, body.bytes(alloc)?.items())
    }

    fn newer(a: &NatRecord, b: &NatRecord) -> bool {
        body::age_cmp(a, b) == Ordering::Greater
    }

    fn is_timed(_kept: &NatRecord) -> bool {
        false
    }

    fn copy(_alloc: Global, kept: &NatRecord) -> Result<NatRecord, NoMemory> {
        Ok(kept.same())
    }

    fn push_output(text: &mut Text, output: &Output) -> Result<(), NoMemory> {
        text::push_output(text, output)
    }

    fn push_record(text: &mut Text, kept: &NatRecord) -> Result<(), NoMemory> {
        text::push_record(text, kept)
    }
}
