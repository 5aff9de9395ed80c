//! The controller of a two-phase update, and its row for each message.
ghost use Rattle.std.specs.Prelude.{◌≡◌, ◌++◌, OnOk};
ghost use Rattle.two_phase.specs.Start.{first_controller};
ghost use Rattle.two_phase.specs.Tables.{controller_row, controller_step, finish_step, is_over};

use crate::msg::TwoMsg;
use crate::note::TwoNote;
use crate::phase::Phase;
use crate::roles::SOURCE;
use actor_net::Outbox;
use basics::NoMemory;
use flow_filter::Filter;
use nf_function::Chunks;
use nf_msgs::{Msg, SWITCH};
use packet_pool::Cell;
use std::alloc::Global;
use std::collections::VecDeque;
use std::marker::Model;

/// The controller of an update.
#[derive(Drop)]
pub struct TwoCtrl {
    pub(crate) phase: Phase,
    pub(crate) filter: Filter,
    /// Packets that the source handed out, as long as the records of their units are on their way.
    pub(crate) store: VecDeque<Cell>,
    /// The chunks that the source gave, until they go to the destination.
    pub(crate) kept: Chunks,
    /// The number of the last packet that was copied.
    pub(crate) last: Option<u32>,
    /// The number of the latest packet that the destination has seen.
    pub(crate) seen: Option<u32>,
    /// Whether the input has ended.
    pub(crate) ended: bool,
    /// Whether the source is to stop.
    finished: bool,
    /// Whether the destination has stopped.
    pub(crate) stopped: bool,
    pub(crate) alloc: Global,
}

impl Model for TwoCtrl {
    ghost use Rattle.two_phase.specs.Parts.{ControllerState};

    ghost Value = { ControllerState };

    ghost view = { λ c. record {
      phase = c.phase;
      filter = c.filter;
      store = c.store.items;
      kept = c.kept;
      last = c.last;
      seen = c.seen;
      ended = c.ended;
      finished = c.finished;
      stopped = c.stopped;
    } };
}

impl TwoCtrl {
    /// A controller that wasn't asked for the update yet. This takes no memory.
    pub(crate) fn open(alloc: Global, filter: Filter) -> Self
        ensures { result ≡ first_controller filter }
    {
        TwoCtrl {
            phase: Phase::Idle,
            filter,
            store: VecDeque::new(alloc),
            kept: Chunks::open(alloc),
            last: None,
            seen: None,
            ended: false,
            finished: false,
            stopped: false,
            alloc,
        }
    }

    /// Whether the destination has stopped.
    pub(crate) fn ended(&self) -> bool
        ensures { result ≡ self.now.stopped }
    {
        self.stopped
    }

    /// Takes a message from a port: its row of the table, and then what may be done.
    pub(crate) fn step(
        &mut self,
        port: u8,
        message: TwoMsg,
        out: &mut Outbox<TwoMsg, TwoNote>,
    ) -> Result<(), NoMemory>
        ensures node { OnOk result (self.new ≡ (controller_step self.old port message).node) }
        ensures sends { OnOk result (out.new.0 ≡ out.old.0 ++ (controller_step self.old port message).sends) }
        ensures notes { OnOk result (out.new.1 ≡ out.old.1 ++ (controller_step self.old port message).notes) }
    {
        self.take(port, message, out)?;
        self.go_on(out)?;
        self.finish(out)
    }

    /// The row of a message.
    fn take(
        &mut self,
        port: u8,
        message: TwoMsg,
        out: &mut Outbox<TwoMsg, TwoNote>,
    ) -> Result<(), NoMemory>
        ensures node { OnOk result (self.new ≡ (controller_row self.old port message).node) }
        ensures sends { OnOk result (out.new.0 ≡ out.old.0 ++ (controller_row self.old port message).sends) }
        ensures notes { OnOk result (out.new.1 ≡ out.old.1 ++ (controller_row self.old port message).notes) }
    {
        match message {
            TwoMsg::Start => self.begin(out),
            TwoMsg::End => {
                self.ended = true;
                Ok(())
            }
            TwoMsg::Copied(packet) => self.copied(packet.get().number, out),
            TwoMsg::Laid { high } => {
                self.laid(high);
                Ok(())
            }
            TwoMsg::Inner(Msg::Enabled { .. }) => self.enabled(out),
            TwoMsg::Inner(Msg::Chunks { chunks, .. }) => self.take_chunks(chunks, out),
            TwoMsg::Inner(Msg::Deleted { .. }) => self.deleted(out),
            TwoMsg::Inner(Msg::Restored { .. }) => self.restored(out),
            TwoMsg::Inner(Msg::Event { parcel, .. }) => self.take_event(parcel, out),
            TwoMsg::Inner(Msg::Seen { packet, .. }) => {
                self.seen = Some(packet.get().number);
                Ok(())
            }
            TwoMsg::Inner(Msg::Fenced { .. }) => self.fenced(port, out),
            TwoMsg::Inner(Msg::Final) => self.take_final(port, out),
            _ => {
                drop(message);
                Ok(())
            }
        }
    }

    /// Stops the source, once: where nothing is left to do and the input has ended.
    fn finish(&mut self, out: &mut Outbox<TwoMsg, TwoNote>) -> Result<(), NoMemory>
        ensures node { OnOk result (self.new ≡ (finish_step self.old).node) }
        ensures sends { OnOk result (out.new.0 ≡ out.old.0 ++ (finish_step self.old).sends) }
        ensures notes { OnOk result (out.new.1 ≡ out.old.1) }
    {
        if !self.is_over() || !self.ended || self.finished {
            return Ok(());
        }
        self.finished = true;
        out.send(SWITCH, TwoMsg::Finish { to: SOURCE })
    }

    /// Whether there is nothing more to do.
    fn is_over(&self) -> bool
        ensures { result ≡ is_over self.now.phase }
    {
        matches!(self.phase, Phase::Over)
    }
}
