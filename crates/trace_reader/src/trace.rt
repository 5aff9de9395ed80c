//! Reading a whole capture, into a list of packets or into a keeper's hands.
ghost use Rattle.std.specs.Prelude.{◌≡◌, ◌≤◌, true, All, IfOk, length};
ghost use Rattle.std.specs.Option.{ForSome};
ghost use Rattle.nf_io.specs.Meaning.{StaysOpen, untouched};
ghost use Rattle.flow_filter.specs.Limits.{most_packets};
ghost use Rattle.flow_filter.specs.Packet.{IsInRange};
ghost use Rattle.trace_reader.specs.Records.{capture_of, AreNumbered};
ghost use Rattle.trace_reader.specs.Steered.{is_steered_proto};
ghost use Rattle.trace_reader.specs.Answers.{HasReadCause, AnswersTrace, HandsOn, HandsPackets, HandsSteered};

use crate::fault::TraceFault;
use crate::keeper::{Keeper, PacketKeeper};
use crate::reader::TraceReader;
use crate::record::Next;
use flow_filter::Packets;
use nf_io::Source;
use std::alloc::Global;

/// What a capture holds.
#[derive(Debug, Drop)]
pub struct Trace {
    /// The steered packets in file order, numbered from 1.
    pub packets: Packets,
    /// How many records are of another kind.
    pub skipped: u32,
    /// Whether the file ends within a record.
    pub cut: bool,
}

/// How a capture ends.
#[derive(Clone, Copy, Debug, PartialEq, Eq)]
pub struct TraceEnd {
    /// How many packets were steered.
    pub packets: u32,
    /// How many records are of another kind.
    pub skipped: u32,
    /// Whether the file ends within a record.
    pub cut: bool,
}

/// Reads a capture to its end.
pub fn read_trace<S: Source>(alloc: Global, source: &mut S) -> Result<Trace, TraceFault>
    requires { S.IsOpen source.old }
    ensures trace { ForSome (S.left source.old) (λ bytes. AnswersTrace (capture_of bytes) (S.left source.new) result) }
    ensures numbers { IfOk result (λ trace. AreNumbered 1 trace.packets) }
    ensures steered { IfOk result (λ trace. All (λ packet. is_steered_proto packet.proto ≡ true) trace.packets) }
    ensures in_range { IfOk result (λ trace. All IsInRange trace.packets) }
    ensures few { IfOk result (λ trace. length trace.packets ≤ most_packets) }
    ensures cause { HasReadCause (S.faults source.old) (S.faults source.new) result }
    ensures stays { StaysOpen S.IsOpen (untouched S.loan S.rest) source.old source.new }
{
    let mut keeper = PacketKeeper {
        packets: Packets::open(alloc),
        alloc,
    };
    let end = read_into(source, &mut keeper)?;
    Ok(Trace {
        packets: keeper.packets,
        skipped: end.skipped,
        cut: end.cut,
    })
}

/// Reads a capture to its end, and hands each packet to a keeper. The keeper may hold less of a packet than the packet.
pub fn read_into<S: Source, K: Keeper>(
    source: &mut S,
    keeper: &mut K,
) -> Result<TraceEnd, TraceFault>
    requires { S.IsOpen source.old }
    ensures trace { ForSome (S.left source.old) (λ bytes.
        HandsPackets (HandsOn K.HasKept keeper.old keeper.new) (capture_of bytes) (S.left source.new) result) }
    ensures steered { IfOk result (λ end. HandsSteered K.HasKept keeper.old keeper.new end.packets) }
    ensures few { IfOk result (λ end. end.packets ≤ most_packets) }
    ensures cause { HasReadCause (S.faults source.old) (S.faults source.new) result }
    ensures stays { StaysOpen S.IsOpen (untouched S.loan S.rest) source.old source.new }
{
    let mut reader = TraceReader::open(source)?;
    let mut skipped = 0;
    'records: loop {
        match reader.next_bare(source) {
            Some(bare) => keeper.keep(&bare)?,
            None => match reader.next(source)? {
                Next::Packet(packet) => keeper.keep(&packet)?,
                Next::Skipped => skipped += 1,
                Next::End => {
                    return Ok(TraceEnd {
                        packets: reader.packets(),
                        skipped,
                        cut: false,
                    });
                }
                Next::Cut => {
                    return Ok(TraceEnd {
                        packets: reader.packets(),
                        skipped,
                        cut: true,
                    });
                }
            },
        }
    }
}
