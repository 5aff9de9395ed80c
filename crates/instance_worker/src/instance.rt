//! An instance: its records, its event rules and its tally, and which of its calls takes a message.
ghost use Rattle.std.specs.Prelude.{◌≡◌, ◌<◌, ◌++◌, OnErr, OnOk};
ghost use Rattle.event_filter.specs.Rules.{with_rule};

use crate::number::InstanceNumber;
use actor_net::{Actor, Outbox};
use basics::NoMemory;
use event_filter::{Action, EventRules};
use flow_filter::{Filter, Site};
use nf_function::{Function, Tally, Units};
use nf_msgs::{CONTROLLER, MOST_INSTANCES, Msg, Note};
use packet_pool::Cell;
use record_table::Table;
use std::alloc::Global;

/// An instance of a network function.
#[derive(Drop)]
pub struct Instance<F: Function> {
    pub(crate) table: Table<F>,
    pub(crate) rules: EventRules<Cell>,
    pub(crate) tally: Tally,
    pub(crate) site: Site,
    pub(crate) alloc: Global,
    /// How many units may have a live record when records are imported.
    pub(crate) limit: u32,
    pub(crate) index: InstanceNumber,
    /// Whether it reads chunks of version 1 alone.
    pub(crate) marked: bool,
    /// Whether it took its stop.
    pub(crate) ended: bool,
}

impl<F: Function> Actor for Instance<F> {
    ghost use Rattle.std.specs.Prelude.{true};
    ghost use Rattle.instance_worker.specs.Instance.{instance_step};

    type Message = Msg;

    type Note = Note;

    ghost stepped = { λ i port message. instance_step F.semantics i message };

    ghost is_ready = { λ i message. true };

    ghost has_ended = { λ i. i.ended };

    fn ready(&self, _item: &Msg) -> bool {
        true
    }

    #[inline(always)]
    fn step(
        &mut self,
        _port: u8,
        message: Msg,
        out: &mut Outbox<Msg, Note>,
    ) -> Result<(), NoMemory> {
        match message {
            Msg::Carry { mark, parcel } => self.carry(mark, parcel, out),
            message => self.obey(message, out),
        }
    }

    fn ended(&self) -> bool {
        self.ended
    }
}

impl<F: Function> Instance<F> {
    ghost use Rattle.instance_worker.specs.Instance.{instance_at_start, instance_step, on_delete, on_enable, on_stop};

    /// An instance without records and rules. This takes no memory.
    pub fn open(alloc: Global, index: u8, limit: u32, marked: bool, site: Site) -> Self
        requires { index < MOST_INSTANCES }
        ensures { result ≡ instance_at_start alloc index limit marked site }
    {
        Instance {
            table: Table::open(alloc),
            rules: EventRules::open(alloc),
            tally: Tally::zero(),
            site,
            alloc,
            limit,
            index: InstanceNumber::new(index),
            marked,
            ended: false,
        }
    }

    /// The records.
    pub fn table(&self) -> &Table<F>
        ensures { result.now ≡ self.now.table }
    {
        &self.table
    }

    /// How many packets each instance has processed, as far as this one knows.
    pub fn tally(&self) -> Tally
        ensures { result ≡ self.now.tally }
    {
        self.tally
    }

    /// Does what any message asks. Most messages carry packets; they don't come here, so that nothing which the others need is made ready for
    /// them.
    #[inline(never)]
    fn obey(&mut self, message: Msg, out: &mut Outbox<Msg, Note>) -> Result<(), NoMemory>
        ensures node { OnOk result (self.new ≡ (instance_step F.semantics self.old message).node) }
        ensures sends { OnOk result (out.new.0 ≡ out.old.0 ++ (instance_step F.semantics self.old message).sends) }
        ensures notes { OnOk result (out.new.1 ≡ out.old.1 ++ (instance_step F.semantics self.old message).notes) }
    {
        match message {
            Msg::Carry { mark, parcel } => self.carry(mark, parcel, out),
            Msg::Fence { op } => self.fence(op, out),
            Msg::Stop => self.stop(out),
            Msg::Enable { op, filter, action } => self.enable_and_tell(
                op,
                filter.get(),
                action,
                out,
            ),
            Msg::Get { op, filter } => self.get(op, filter.get(), out),
            Msg::Stream { op, filter } => self.stream(op, filter.get(), out),
            Msg::GetAll { op } => self.get_all(op, out),
            Msg::Delete { op, units } => self.delete(op, &units, out),
            Msg::Put { op, piece, first } => self.put(op, piece.into_inner(), first, out),
            Msg::Restore { op, chunks } => self.restore(op, chunks, out),
            Msg::Standby { op, chunks } => self.standby(op, chunks, out),
            Msg::PutAll { op, chunk } => self.put_all(op, chunk.get(), out),
            Msg::Sync { home, op, chunks } => self.sync(home, op, chunks, out),
            _ => {
                drop(message);
                Ok(())
            }
        }
    }

    /// Tells the controller that this was the last message.
    fn stop(&mut self, out: &mut Outbox<Msg, Note>) -> Result<(), NoMemory>
        ensures node { OnOk result (self.new ≡ (on_stop self.old).node) }
        ensures sends { OnOk result (out.new.0 ≡ out.old.0 ++ (on_stop self.old).sends) }
        ensures notes { OnOk result (out.new.1 ≡ out.old.1 ++ (on_stop self.old).notes) }
    {
        self.ended = true;
        out.send(CONTROLLER, Msg::Final)
    }

    /// Sets the rule of an operation, before the instance has taken any message. It tells nobody.
    pub fn enable(&mut self, op: u32, filter: Filter, action: Action) -> Result<(), NoMemory>
        ensures ok { OnOk result (self.new ≡ record self.old { rules = with_rule self.old.rules op filter action }) }
        ensures err { OnErr result (self.new ≡ self.old) }
    {
        self.rules.enable(op, filter, action)
    }

    /// The allocator on which the instance takes memory.
    pub fn alloc(&self) -> Global
        ensures { result ≡ self.now.alloc }
    {
        self.alloc
    }

    /// The records of an instance that is done with.
    pub fn into_table(self) -> Table<F>
        ensures { result ≡ self.table }
    {
        self.table
    }

    /// Sets the rule of an operation, and says so.
    fn enable_and_tell(
        &mut self,
        op: u32,
        filter: &Filter,
        action: Action,
        out: &mut Outbox<Msg, Note>,
    ) -> Result<(), NoMemory>
        ensures node { OnOk result (self.new ≡ (on_enable self.old op filter.now action).node) }
        ensures sends { OnOk result (out.new.0 ≡ out.old.0 ++ (on_enable self.old op filter.now action).sends) }
        ensures notes { OnOk result (out.new.1 ≡ out.old.1 ++ (on_enable self.old op filter.now action).notes) }
    {
        self.rules.enable(op, *filter, action)?;
        out.send(CONTROLLER, Msg::Enabled { op })
    }

    /// Removes the live records of some units.
    fn delete(
        &mut self,
        op: u32,
        units: &Units,
        out: &mut Outbox<Msg, Note>,
    ) -> Result<(), NoMemory>
        ensures node { OnOk result (self.new ≡ (on_delete self.old op units.now).node) }
        ensures sends { OnOk result (out.new.0 ≡ out.old.0 ++ (on_delete self.old op units.now).sends) }
        ensures notes { OnOk result (out.new.1 ≡ out.old.1 ++ (on_delete self.old op units.now).notes) }
    {
        self.table.remove(units);
        out.send(CONTROLLER, Msg::Deleted { op })
    }
}
