//! One record of a capture: its header, and the bytes of its packet.
ghost use Rattle.std.specs.Prelude.{◌≡◌, ◌≢◌, ◌<◌, ◌≤◌, ℕ, ◌+◌, List, min, length, take, None, Ok, Err, IfOk, IfSome};
ghost use Rattle.std.specs.Io.{StartsWith};
ghost use Rattle.nf_io.specs.Meaning.{StaysOpen, untouched};
ghost use Rattle.trace_reader.specs.Limits.{front_size, head_size, most_bytes, most_captured};
ghost use Rattle.trace_reader.specs.Records.{next_of, record_size};
ghost use Rattle.trace_reader.specs.Opened.{byte_at, captured_of, record_answer};
ghost use Rattle.trace_reader.specs.declared.record.Next.TheVariants as next;
ghost use Rattle.trace_reader.specs.Answers.{HasReadCause, AnswersNext, Advances, next_in, count_after, reading, reading_after};
ghost use Rattle.flow_filter.specs.Limits.{most_packets};

use crate::fault::TraceFault;
use crate::form::Form;
use crate::steer::{FRONT, bare_packet_of, packet_of};
use crate::takes::{fill, take_body};
use flow_filter::Packet;
use nf_io::Source;

/// How many bytes of a packet a record may have.
const MOST_CAPTURED: u32 = 262_144;

/// How many packets of a capture may be steered.
const MOST_PACKETS: u32 = 1_000_000;

/// How many bytes a capture may have.
const MOST_BYTES: u64 = 4_294_967_296;

/// What comes next in a capture.
#[derive(Clone, Copy, Debug, PartialEq, Eq)]
pub enum Next {
    /// A packet that is steered.
    Packet(Packet),
    /// A record of another kind.
    Skipped,
    /// Nothing: the last record was whole.
    End,
    /// A part of a record, which the file ends in.
    Cut,
}

/// What was read, and how many bytes a record took.
#[derive(Drop)]
pub(crate) struct Step {
    pub(crate) next: Next,
    pub(crate) size: u64,
}

/// Reads the record at a place: from the bytes at hand where it is there whole, and else in parts.
#[inline(always)]
pub(crate) fn read_record<S: Source>(
    form: Form,
    place: u64,
    count: u32,
    source: &mut S,
) -> Result<Step, TraceFault>
    requires open { S.IsOpen source.old }
    requires place { place ≤ most_bytes }
    requires count { count ≤ most_packets }
    ensures answers { AnswersNext (reading form place count (S.left source.old))
        (reading_after (reading form place count (S.left source.old)) result (S.left source.new)) (next_in result) }
    ensures advances { Advances (reading form place count (S.left source.old))
        (reading_after (reading form place count (S.left source.old)) result (S.left source.new)) (next_in result) }
    ensures cause { HasReadCause (S.faults source.old) (S.faults source.new) result }
    ensures stays { StaysOpen S.IsOpen (untouched S.loan S.rest) source.old source.new }
{
    let ahead = source.at_hand();
    let Some(len) = whole_at_hand(form, ahead) else {
        return read_apart(form, place, count, source);
    };
    let front = &ahead[16..16 + len.min(FRONT)];
    let next = judge(form, place, count, &ahead[..16], len, front)?;
    let size = 16 + len;
    source.skip(size);
    Ok(Step {
        next,
        size: size as u64,
    })
}

/// The packet of the record at a place and how many bytes the record takes, where it is there whole in the bytes at hand and none of
/// the packet's payload was captured.
#[inline(always)]
pub(crate) fn bare_at_hand(
    form: Form,
    place: u64,
    count: u32,
    ahead: &[u8],
) -> Option<(Packet, usize)>
    requires place { place ≤ most_bytes }
    requires count { count ≤ most_packets }
    ensures gives { IfSome result (λ found. (bytes : List ℕ) → StartsWith bytes ahead.now →
        (next_of form place count bytes ≡ Ok (next.Packet found.0)) × (found.1 ≡ record_size form bytes)) }
    ensures fits { IfSome result (λ found. Advances (reading form place count None)
        (reading form (place + found.1) (count + 1) None) (Ok (next.Packet found.0))) }
    ensures within { IfSome result (λ found. found.1 ≤ length ahead.now) }
{
    let len = whole_at_hand(form, ahead)?;
    let front = &ahead[16..16 + len.min(FRONT)];
    let packet = judge_bare(form, place, count, &ahead[..16], len, front)?;
    Some((packet, 16 + len))
}

/// How many bytes the record has that the bytes at hand begin with, where it is there whole and isn't too long.
#[inline(always)]
fn whole_at_hand(form: Form, ahead: &[u8]) -> Option<usize>
    ensures { IfSome result (λ n. (n ≡ captured_of form (take head_size ahead.now)) × (n ≤ most_captured) × (head_size + n ≤ length ahead.now)) }
{
    if ahead.len() < 16 {
        return None;
    }
    let captured = form.captured(&ahead[..16]);
    let len = captured as usize;
    if captured <= MOST_CAPTURED && len <= ahead.len() - 16 {
        Some(len)
    } else {
        None
    }
}

/// What a whole record gives, of `len` bytes, of which `front` has the first. It is inlined, so that no packet is copied.
#[tactic(auto, unfolding(crate::specs::Opened::record_answer))]
#[inline(always)]
fn judge(
    form: Form,
    place: u64,
    count: u32,
    head: &[u8],
    len: usize,
    front: &[u8],
) -> Result<Next, TraceFault>
    requires place { place ≤ most_bytes }
    requires count { count ≤ most_packets }
    requires head { length head.now ≡ head_size }
    requires len { len ≤ most_captured }
    requires front { length front.now ≡ min len front_size }
    ensures gives { result ≡ record_answer form place count head.now len front.now }
    ensures fits { IfOk result (λ next. Advances (reading form place count None)
        (reading form (place + (head_size + len)) (count_after count (Ok next)) None) (Ok next)) }
    ensures unread { result ≢ Err TraceFault.Read }
    ensures bytes { (i : ℕ) → byte_at front.now i < 256 }
{
    if place + 16 + len as u64 > MOST_BYTES {
        return Err(TraceFault::TooLong { offset: place });
    }
    match packet_of(form, count + 1, head, len, front) {
        None => Ok(Next::Skipped),
        Some(packet) if count < MOST_PACKETS => Ok(Next::Packet(packet)),
        Some(_) => Err(TraceFault::TooLong { offset: place }),
    }
}

/// The packet that a whole record gives, as [`judge`] does, if none of its payload was captured.
#[tactic(auto, unfolding(crate::specs::Opened::record_answer))]
#[inline(always)]
fn judge_bare(
    form: Form,
    place: u64,
    count: u32,
    head: &[u8],
    len: usize,
    front: &[u8],
) -> Option<Packet>
    requires place { place ≤ most_bytes }
    requires count { count ≤ most_packets }
    requires head { length head.now ≡ head_size }
    requires len { len ≤ most_captured }
    requires front { length front.now ≡ min len front_size }
    ensures gives { IfSome result (λ packet. record_answer form place count head.now len front.now ≡ Ok (next.Packet packet)) }
    ensures fits { IfSome result (λ packet. Advances (reading form place count None)
        (reading form (place + (head_size + len)) (count + 1) None) (Ok (next.Packet packet))) }
    ensures bytes { (i : ℕ) → byte_at front.now i < 256 }
{
    if place + 16 + len as u64 > MOST_BYTES || count >= MOST_PACKETS {
        return None;
    }
    bare_packet_of(form, count + 1, head, len, front)
}

/// Reads the record at a place in parts.
#[cold]
#[inline(never)]
fn read_apart<S: Source>(
    form: Form,
    place: u64,
    count: u32,
    source: &mut S,
) -> Result<Step, TraceFault>
    requires open { S.IsOpen source.old }
    requires place { place ≤ most_bytes }
    requires count { count ≤ most_packets }
    ensures answers { AnswersNext (reading form place count (S.left source.old))
        (reading_after (reading form place count (S.left source.old)) result (S.left source.new)) (next_in result) }
    ensures advances { Advances (reading form place count (S.left source.old))
        (reading_after (reading form place count (S.left source.old)) result (S.left source.new)) (next_in result) }
    ensures cause { HasReadCause (S.faults source.old) (S.faults source.new) result }
    ensures stays { StaysOpen S.IsOpen (untouched S.loan S.rest) source.old source.new }
{
    let mut head = [0; 16];
    let got = fill(source, &mut head)?;
    if got == 0 {
        return Ok(Step {
            next: Next::End,
            size: 0,
        });
    }
    if got < 16 {
        return Ok(Step {
            next: Next::Cut,
            size: 0,
        });
    }
    let captured = form.captured(&head);
    if captured > MOST_CAPTURED {
        return Err(TraceFault::RecordLength {
            offset: place,
            n: captured,
        });
    }
    let len = captured as usize;
    let mut front = [0; FRONT];
    let front = &mut front[..len.min(FRONT)];
    if !take_body(source, front, len)? {
        return Ok(Step {
            next: Next::Cut,
            size: 0,
        });
    }
    let next = judge(form, place, count, &head, len, front)?;
    let size = 16 + u64::from(captured);
    Ok(Step { next, size })
}
