//! A capture whose packets are kept, while it is read, as items of a run's input.
ghost use Rattle.std.specs.Prelude.{◌≡◌, ◌≤◌, true, length, All, IfOk};
ghost use Rattle.std.specs.Option.{ForSome};
ghost use Rattle.nf_io.specs.Meaning.{StaysOpen, untouched};
ghost use Rattle.flow_filter.specs.Limits.{most_packets};
ghost use Rattle.trace_reader.specs.Records.{capture_of, AreNumbered};
ghost use Rattle.trace_reader.specs.Steered.{is_steered_proto};
ghost use Rattle.trace_reader.specs.Answers.{AnswersTrace, HasReadCause};

use basics::NoMemory;
use flow_filter::Packet;
use nf_io::Source;
use op_script::PacketItems;
use std::alloc::Global;
use std::marker::Model;
use trace_reader::{Keeper, TraceEnd, TraceFault, read_into};

/// What a capture holds, its packets as items. Contracts see it as the trace.
#[derive(Debug, Drop)]
pub struct CapturedItems {
    packets: PacketItems,
    end: TraceEnd,
}

impl Model for CapturedItems {
    ghost use Rattle.std.specs.Prelude.{◌≡◌, length};
    ghost use Rattle.trace_reader.specs.declared.trace.Trace.{Trace};

    ghost Value = { Trace };

    ghost view = { λ c. record { packets = c.packets; skipped = c.end.skipped; cut = c.end.cut } };

    ghost invariant = { λ c. length c.packets ≡ c.end.packets };
}

impl CapturedItems {
    /// Reads a capture to its end.
    pub fn read<S: Source>(alloc: Global, source: &mut S) -> Result<Self, TraceFault>
        requires { S.IsOpen source.old }
        ensures trace { ForSome (S.left source.old) (λ bytes. AnswersTrace (capture_of bytes) (S.left source.new) result) }
        ensures numbers { IfOk result (λ trace. AreNumbered 1 trace.packets) }
        ensures steered { IfOk result (λ trace. All (λ packet. is_steered_proto packet.proto ≡ true) trace.packets) }
        ensures few { IfOk result (λ trace. length trace.packets ≤ most_packets) }
        ensures cause { HasReadCause (S.faults source.old) (S.faults source.new) result }
        ensures stays { StaysOpen S.IsOpen (untouched S.loan S.rest) source.old source.new }
    {
        let mut keeper = ItemKeeper {
            packets: PacketItems::open(alloc),
            alloc,
        };
        let end = read_into(source, &mut keeper)?;
        Ok(CapturedItems {
            packets: keeper.packets,
            end,
        })
    }

    /// How it ends.
    pub fn end(&self) -> TraceEnd
        ensures packets { result.packets ≡ length self.now.packets }
        ensures skipped { result.skipped ≡ self.now.skipped }
        ensures cut { result.cut ≡ self.now.cut }
    {
        self.end
    }

    /// Its packets.
    pub fn into_packets(self) -> PacketItems
        ensures { result ≡ self.packets }
    {
        self.packets
    }
}

/// Keeps each packet as the item that it is to be.
#[derive(Debug, Drop)]
struct ItemKeeper {
    packets: PacketItems,
    alloc: Global,
}

impl Keeper for ItemKeeper {
    ghost Setup = { Unit {0} };

    ghost HasKept = { λ keeper setup kept. keeper.packets ≡ kept };

    #[inline(always)]
    fn keep(&mut self, packet: &Packet) -> Result<(), NoMemory> {
        self.packets.push(self.alloc, packet)
    }
}
