//! The messages between the switch, the controller and the instances.
use crate::answer::Answer;
use crate::command::Command;
use basics::Boxed;
use event_filter::{Action, Mark};
use flow_filter::{CapturedPacket, Filter, Packet};
use nf_function::{Chunk, Chunks, Units};
use packet_pool::Cell;
use switch_rules::Target;

/// A message between two nodes of the network. What is large stands behind one pointer, since each message is moved through
/// several queues; but for the packets of the input, which wait there in a row.
///
/// `op` is the number of the operation, which is that of its command; `to` and `from` are the numbers of instances, from 0.
#[derive(Debug, Drop)]
pub enum Msg {
    // The input of the switch.
    /// The next packet of the trace.
    InPacket(CapturedPacket),
    /// The next command of the operator.
    InCommand(Boxed<Command>),
    /// Further input waits until every earlier command is answered.
    InSettle,
    /// The input has come to its end.
    InEnd,

    // From the switch to the controller.
    /// A command came.
    Asked(Boxed<Command>),
    /// A packet came whose target is the controller.
    Diverted(Cell),
    /// The input has come to its end.
    End,

    // From the controller to the switch.
    /// Send the packet on to an instance, with this mark.
    Forward {
        to: u8,
        mark: Mark,
        parcel: Cell,
    },
    /// The flows that the filter matches and whose target is the instance `from` go to `to` from now on.
    Install {
        op: u32,
        filter: Boxed<Filter>,
        from: u8,
        to: Target,
    },
    /// Send the operation's fence to an instance.
    FenceTo {
        op: u32,
        to: u8,
    },
    /// The command is answered.
    Answered {
        op: u32,
    },
    /// All is done: stop the instances.
    Finish,

    // From the switch to an instance.
    /// A packet for the instance.
    Carry {
        mark: Mark,
        parcel: Cell,
    },
    /// What came before on this link was sent by the old rules.
    Fence {
        op: u32,
    },
    /// There is nothing more.
    Stop,

    // From the controller to an instance.
    /// Set the operation's event rule.
    Enable {
        op: u32,
        filter: Boxed<Filter>,
        action: Action,
    },
    /// Send the chunks of the units that the filter takes.
    Get {
        op: u32,
        filter: Boxed<Filter>,
    },
    /// Send the chunks of the units that the filter takes, by pieces.
    Stream {
        op: u32,
        filter: Boxed<Filter>,
    },
    /// Send the tally.
    GetAll {
        op: u32,
    },
    /// Remove the records of these units.
    Delete {
        op: u32,
        units: Units,
    },
    /// Take a piece of a move's state; `first` asks whether all of it can be taken.
    Put {
        op: u32,
        piece: Boxed<Piece>,
        first: bool,
    },
    /// Take back what another instance refused.
    Restore {
        op: u32,
        chunks: Chunks,
    },
    /// Keep these chunks as standby.
    Standby {
        op: u32,
        chunks: Chunks,
    },
    /// Merge this tally into the instance's own.
    PutAll {
        op: u32,
        chunk: Boxed<Chunk>,
    },
    /// Set the records of a share, live where `home` is true.
    Sync {
        home: bool,
        op: u32,
        chunks: Chunks,
    },

    // From an instance to the controller.
    /// The event rule is set.
    Enabled {
        op: u32,
    },
    /// The chunks that were asked for.
    Chunks {
        op: u32,
        chunks: Chunks,
    },
    /// The next piece of the chunks that were asked for.
    Piece {
        op: u32,
        piece: Boxed<Piece>,
    },
    /// The tally.
    AllChunk {
        op: u32,
        chunk: Boxed<Chunk>,
    },
    /// The records are removed.
    Deleted {
        op: u32,
    },
    /// A piece that was put first or last is taken.
    PutOk {
        op: u32,
    },
    /// The piece that was put first is refused, and comes back.
    PutNo {
        op: u32,
        refused: Boxed<Refused>,
    },
    /// What was to be taken back is taken back.
    Restored {
        op: u32,
    },
    /// The chunks are kept as standby, or the tally is merged.
    Kept {
        op: u32,
    },
    /// A packet that a rule took, unprocessed.
    Event {
        op: u32,
        parcel: Cell,
    },
    /// A copy of a packet that a rule took and that was processed.
    Seen {
        op: u32,
        packet: Boxed<Packet>,
    },
    /// The fence came, and what was held is processed.
    Fenced {
        op: u32,
    },
    /// A packet of a share is processed; the chunk is its unit's state after it.
    Shared {
        op: u32,
        chunk: Boxed<Chunk>,
    },
    /// The records of the share are set.
    Synced {
        op: u32,
    },
    /// The instance has stopped.
    Final,

    // From an instance to the switch.
    /// The packet is processed, and its cell comes back.
    Credit(Cell),
}

/// A piece of what a move exports.
#[derive(Debug, Drop)]
pub struct Piece {
    pub chunks: Chunks,
    /// How many chunks all pieces have together.
    pub total: u32,
    /// The highest version among all chunks, and 1 where there is none.
    pub newest: u8,
    /// Whether no piece comes after it.
    pub last: bool,
}

/// A piece that its destination refused, and why.
#[derive(Debug, Drop)]
pub struct Refused {
    pub why: Answer,
    pub chunks: Chunks,
}
