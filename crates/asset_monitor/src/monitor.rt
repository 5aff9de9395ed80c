use crate::record::AssetRecord;
use crate::table::step_of_host;
use crate::{body, text};
use basics::{Bytes, NoMemory, Text};
use flow_filter::{Direction, Flow, Packet, Site};
use nf_function::{BodyFault, Function, Kind, Output, ShortBody, Unit};
use std::alloc::Global;
use std::cmp::Ordering;

/// The asset monitor as a network function. Its steps take memory only where a service is listed.
pub struct Monitor;

impl Function for Monitor {
    ghost use Rattle.asset_monitor.specs.Monitor.{monitor};
    ghost use Rattle.asset_monitor.specs.StepLemmas.{monitor_laws};

    type Record = AssetRecord;

    ghost semantics = { monitor };

    ghost laws = { monitor_laws };

    fn which() -> Kind {
        Kind::Monitor
    }

    #[tactic(auto, unfolding(crate::specs::Table::step_of))]
    fn step_along(
        alloc: Global,
        _site: &Site,
        _flow: Flow,
        direction: Direction,
        kept: &mut Option<AssetRecord>,
        packet: &Packet,
    ) -> Result<Output, NoMemory> {
        step_of_host(alloc, direction, kept, packet)
    }

    fn body_length(kept: &AssetRecord) -> u16 {
        body::body_length(kept)
    }

    fn push_body(bytes: &mut Bytes, kept: &AssetRecord) -> Result<(), NoMemory> {
        body::push_body(bytes, kept)
    }

    fn read_record(alloc: Global, unit: &Unit, body: &[u8]) -> Result<AssetRecord, BodyFault> {
        body::record_in(alloc, unit, body)
    }

    fn short_body(_kept: &AssetRecord) -> Option<ShortBody> {
        None
    }

    fn read_short(alloc: Global, unit: &Unit, body: &ShortBody) -> Result<AssetRecord, BodyFault> {
        Self::read_record(alloc, unit, body.bytes(alloc)?.items())
    }

    fn newer(a: &AssetRecord, b: &AssetRecord) -> bool {
        body::age_cmp(a, b) == Ordering::Greater
    }

    fn is_timed(_kept: &AssetRecord) -> bool {
        false
    }

    fn copy(_alloc: Global, kept: &AssetRecord) -> Result<AssetRecord, NoMemory> {
        Ok(AssetRecord {
            packets: kept.packets,
            services: kept.services.copy()?,
        })
    }

    fn push_output(text: &mut Text, output: &Output) -> Result<(), NoMemory> {
        text::push_output(text, output)
    }

    fn push_record(text: &mut Text, kept: &AssetRecord) -> Result<(), NoMemory> {
        text::push_record(text, kept)
    }
}
