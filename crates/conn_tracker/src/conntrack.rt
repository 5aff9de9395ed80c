use crate::record::TrackRecord;
use crate::tracker::{first_record, record_after};
use crate::{body, text};
use basics::{Bytes, NoMemory, Text};
use flow_filter::{Direction, Flow, Packet, Site};
use nf_function::{BodyFault, Function, Kind, Output, ShortBody, Unit, is_transport};
use std::alloc::Global;
use std::cmp::Ordering;

/// The connection tracker as a network function. Its steps never run out of memory.
pub struct Conntrack;

impl Function for Conntrack {
    ghost use Rattle.conn_tracker.specs.Conntrack.{conntrack};
    ghost use Rattle.conn_tracker.specs.StepLemmas.{conntrack_laws};

    type Record = TrackRecord;

    ghost semantics = { conntrack };

    ghost laws = { conntrack_laws };

    fn which() -> Kind {
        Kind::Conntrack
    }

    #[tactic(auto, unfolding(crate::specs::Table::step_of))]
    fn step_along(
        _alloc: Global,
        _site: &Site,
        _flow: Flow,
        direction: Direction,
        kept: &mut Option<TrackRecord>,
        packet: &Packet,
    ) -> Result<Output, NoMemory> {
        let next = match kept {
            None => first_record(packet, direction),
            Some(before) => record_after(before, packet, direction),
        };
        if is_transport(packet.proto) {
            *kept = Some(next);
        }
        Ok(next.output())
    }

    fn body_length(kept: &TrackRecord) -> u16 {
        body::numbers_of(kept).length()
    }

    fn push_body(bytes: &mut Bytes, kept: &TrackRecord) -> Result<(), NoMemory> {
        body::numbers_of(kept).push_to(bytes)
    }

    fn read_record(_alloc: Global, unit: &Unit, body: &[u8]) -> Result<TrackRecord, BodyFault> {
        body::record_in(unit, body).ok_or(BodyFault::Body)
    }

    fn short_body(kept: &TrackRecord) -> Option<ShortBody> {
        Some(body::numbers_of(kept))
    }

    fn read_short(_alloc: Global, unit: &Unit, body: &ShortBody) -> Result<TrackRecord, BodyFault> {
        body::short_record(unit, *body).ok_or(BodyFault::Body)
    }

    fn newer(a: &TrackRecord, b: &TrackRecord) -> bool {
        body::age_cmp(*a, *b) == Ordering::Greater
    }

    fn is_timed(kept: &TrackRecord) -> bool {
        kept.seen >= 1
    }

    fn copy(_alloc: Global, kept: &TrackRecord) -> Result<TrackRecord, NoMemory> {
        Ok(*kept)
    }

    fn push_output(text: &mut Text, output: &Output) -> Result<(), NoMemory> {
        text::push_output(text, output)
    }

    fn push_record(text: &mut Text, kept: &TrackRecord) -> Result<(), NoMemory> {
        text::push_record(text, kept)
    }
}
