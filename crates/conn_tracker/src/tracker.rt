//! The tracker's step: the record of a flow's first packet, and the record after a further one.
ghost use Rattle.std.specs.Prelude.{◌≡◌, true, Some};
ghost use Rattle.conn_tracker.specs.Table.{first_record, next_record, step_of, is_same_direction, IsTrackRecord};
ghost use Rattle.conn_tracker.specs.States.{is_idle, next_state, next_opener, first_opener, first_state, opener_of_first, output_of};
ghost use Rattle.conn_tracker.specs.Body.{is_within};

use crate::class::Class;
use crate::record::TrackRecord;
use crate::state::State;
use flow_filter::{Direction, Packet, Site, TCP, flow_of};
use nf_function::Output;

/// How long a flow may be without packets before it begins anew, in nanoseconds: 300 seconds.
pub const IDLE_NANOS: u64 = 300_000_000_000;

/// Takes a packet into what is kept of its flow, and gives the output.
///
/// The output's code is the number of the new state, and its other numbers are 0.
#[tactic(auto, unfolding(crate::specs::Table::step_of))]
pub fn step(site: &Site, kept: &mut Option<TrackRecord>, packet: &Packet) -> Output
    ensures kept { kept.new ≡ Some (step_of site.now kept.old packet.now) }
    ensures output { result ≡ output_of (step_of site.now kept.old packet.now) }
{
    let (_, direction) = flow_of(site, packet);
    let next = match kept {
        None => first_record(packet, direction),
        Some(before) => record_after(before, packet, direction),
    };
    *kept = Some(next);
    next.output()
}

/// The record of a flow's first packet, which goes in this direction.
#[tactic(auto, using(crate::specs::StepLemmas::first_is))]
pub fn first_record(packet: &Packet, direction: Direction) -> TrackRecord
    ensures value { result ≡ first_record packet.now direction }
    ensures fits { IsTrackRecord packet.now.proto result }
    ensures within { is_within result ≡ true }
{
    let opener = opener_of_first(packet, direction);
    record_of_one(first_state(packet), opener, packet.length, packet.nanos)
}

/// The record of one packet, with its payload's length and its time.
fn record_of_one(state: State, opener: Direction, length: u32, nanos: u64) -> TrackRecord
    ensures value { result ≡ record { packets = 1; bytes = length; seen = nanos; state = state; opener = opener } }
    ensures within { is_within result ≡ true }
{
    TrackRecord {
        packets: 1,
        bytes: u64::from(length),
        seen: nanos,
        state,
        opener,
    }
}

/// The record after a further packet, which goes in this direction.
pub fn next_record(before: &TrackRecord, packet: &Packet, direction: Direction) -> TrackRecord
    requires { IsTrackRecord packet.now.proto before.now }
    ensures value { result ≡ next_record before.now packet.now direction }
    ensures fits { IsTrackRecord packet.now.proto result }
{
    record_after(before, packet, direction)
}

/// The record after a further packet, which goes in this direction, of whatever protocol the record is.
#[tactic(auto, using(crate::specs::StepLemmas::next_is))]
pub fn record_after(before: &TrackRecord, packet: &Packet, direction: Direction) -> TrackRecord
    ensures value { result ≡ next_record before.now packet.now direction }
    ensures fits { IsTrackRecord packet.now.proto before.now → IsTrackRecord packet.now.proto result }
    ensures within { is_within result ≡ true }
{
    let is_new = is_idle(before, packet);
    TrackRecord {
        packets: before.packets.saturating_add(1),
        bytes: before.bytes.saturating_add(u64::from(packet.length)),
        seen: before.seen.max(packet.nanos),
        state: if is_new {
            first_state(packet)
        } else {
            next_state(before, packet, direction)
        },
        opener: if is_new {
            opener_of_first(packet, direction)
        } else {
            next_opener(before, packet, direction)
        },
    }
}

/// Whether the packet comes so long after the record's last that the flow begins anew.
fn is_idle(before: &TrackRecord, packet: &Packet) -> bool
    ensures { result ≡ is_idle before.now packet.now }
{
    before.seen >= 1 && packet.nanos.saturating_sub(before.seen) > IDLE_NANOS
}

/// The state of a flow whose first packet this is.
fn first_state(packet: &Packet) -> State
    ensures { result ≡ first_state packet.now }
{
    if packet.proto == TCP {
        State::first(Class::of(packet.flags))
    } else {
        State::Single
    }
}

/// The opener of a flow whose first packet this is.
fn opener_of_first(packet: &Packet, direction: Direction) -> Direction
    ensures { result ≡ opener_of_first packet.now direction }
{
    if packet.proto == TCP {
        first_opener(Class::of(packet.flags), direction)
    } else {
        direction
    }
}

/// The state that a further packet leaves.
fn next_state(before: &TrackRecord, packet: &Packet, direction: Direction) -> State
    ensures { result ≡ next_state before.now packet.now direction }
{
    let is_forward = is_same_direction(direction, before.opener);
    if packet.proto == TCP {
        before.state.after(Class::of(packet.flags), is_forward)
    } else {
        before.state.after_udp(is_forward)
    }
}

/// The opener after a further packet.
fn next_opener(before: &TrackRecord, packet: &Packet, direction: Direction) -> Direction
    ensures { result ≡ next_opener before.now packet.now direction }
{
    if packet.proto == TCP && before.state.restarts(Class::of(packet.flags)) {
        direction
    } else {
        before.opener
    }
}

/// Whether both directions are the same.
fn is_same_direction(one: Direction, other: Direction) -> bool
    ensures { result ≡ is_same_direction one other }
{
    one == other
}

/// Whom a first packet shows as the opener: a SYN with an ACK answers one that wasn't seen.
fn first_opener(class: Class, direction: Direction) -> Direction
    ensures { result ≡ first_opener class direction }
{
    match (class, direction) {
        (Class::SynAck, Direction::Out) => Direction::In,
        (Class::SynAck, Direction::In) => Direction::Out,
        _ => direction,
    }
}
