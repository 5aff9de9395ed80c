//! The bytes that a record is stored as.
ghost use Rattle.std.specs.Prelude.{◌≡◌};
ghost use Rattle.nf_function.specs.declared.unit.Unit.TheVariants.{Flow as OfFlow};
ghost use Rattle.nf_function.specs.Records.{age_cmp};
ghost use Rattle.nf_function.specs.Semantics.{record_in};
ghost use Rattle.nf_function.specs.Short.{short_bytes};
ghost use Rattle.conn_tracker.specs.Conntrack.{conntrack};
ghost use Rattle.conn_tracker.specs.Body.{is_valid, suits, numbers_of, body_of, record_named, valid_named, direction_number, direction_of};

use crate::record::TrackRecord;
use crate::state::State;
use flow_filter::{Direction, Flow, TCP};
use nf_function::{ShortBody, Unit, is_transport};
use std::cmp::Ordering;

/// A record as the numbers that it is stored as.
#[tactic(auto, unfolding(crate::specs::Body::body_of))]
pub fn numbers_of(kept: &TrackRecord) -> ShortBody
    ensures numbers { result ≡ numbers_of kept.now }
    ensures body { short_bytes result ≡ body_of kept.now }
{
    ShortBody {
        third: kept.packets,
        fourth: kept.bytes,
        last: kept.seen,
        first: kept.state.number(),
        second: direction_number(kept.opener),
    }
}

/// The byte that a direction is stored as.
fn direction_number(direction: Direction) -> u8
    ensures { result ≡ direction_number direction }
{
    match direction {
        Direction::Out => 0,
        Direction::In => 1,
    }
}

/// The record of the unit that the bytes spell.
pub fn record_in(unit: &Unit, body: &[u8]) -> Option<TrackRecord>
    ensures { result ≡ record_in conntrack unit.now body.now }
{
    valid_named(unit, ShortBody::read(body)?)
}

/// The record of the unit that the bytes of the numbers spell.
pub fn short_record(unit: &Unit, body: ShortBody) -> Option<TrackRecord>
    ensures { result ≡ record_in conntrack unit.now (short_bytes body) }
{
    valid_named(unit, body)
}

/// The record that the numbers name, where it is valid for the unit.
fn valid_named(unit: &Unit, body: ShortBody) -> Option<TrackRecord>
    ensures { result ≡ valid_named unit.now body }
{
    let record = record_named(body)?;
    is_valid(*unit, record).then_some(record)
}

/// The record that the numbers name.
fn record_named(body: ShortBody) -> Option<TrackRecord>
    ensures { result ≡ record_named body }
{
    let state = State::numbered(body.first)?;
    let opener = direction_numbered(body.second)?;
    Some(TrackRecord {
        packets: body.third,
        bytes: body.fourth,
        seen: body.last,
        state,
        opener,
    })
}

/// The direction that a byte stands for, if there is one.
fn direction_numbered(number: u8) -> Option<Direction>
    ensures { result ≡ direction_of number }
{
    match number {
        0 => Some(Direction::Out),
        1 => Some(Direction::In),
        _ => None,
    }
}

/// Whether it is a record that packets of the unit can have left.
fn is_valid(unit: Unit, kept: TrackRecord) -> bool
    ensures { result ≡ is_valid unit kept }
{
    match unit {
        Unit::Flow(flow) => is_valid_for(flow, kept),
        Unit::Host(_) => false,
    }
}

/// Whether it is a record that packets of the flow can have left.
fn is_valid_for(flow: Flow, kept: TrackRecord) -> bool
    ensures { result ≡ is_valid (OfFlow flow) kept }
{
    is_transport(flow.proto) && kept.packets >= 1 && suits(flow.proto, kept.state)
}

/// Whether packets of the protocol can leave the state.
fn suits(proto: u8, state: State) -> bool
    ensures { result ≡ suits proto state }
{
    let is_udp = matches!(state, State::Single | State::Both);
    if proto == TCP { !is_udp } else { is_udp }
}

/// The order of records by their packets, and then by the bytes that they are stored as.
pub fn age_cmp(a: TrackRecord, b: TrackRecord) -> Ordering
    ensures { result ≡ age_cmp conntrack a b }
{
    let ends = direction_number(a.opener).cmp(&direction_number(b.opener));
    let states = a.state.number().cmp(&b.state.number()).then(ends);
    let counts = a.bytes.cmp(&b.bytes).then(a.seen.cmp(&b.seen));
    a.packets.cmp(&b.packets).then(states).then(counts)
}
