//! The open operations: opened, closed, and looked up by their numbers, in the order of which they stand.
ghost use Rattle.std.specs.Prelude.{◌≡◌, ◌++◌, ℕ, true, Some, OnOk, OnErr, IfOk};
ghost use Rattle.std.specs.FinMap as finite;
ghost use Rattle.flow_filter.specs.declared.filter.Filter.{Filter as EachFilter};
ghost use Rattle.switch_rules.specs.Spans.{is_noted};
ghost use Rattle.ctrl_node.specs.Operations.{are_quiet, lasts, lowest_meeting, serving_of, share_filter, share_of, turn_of, with_operation};

use crate::operation::Operation;
use actor_net::Outbox;
use basics::NoMemory;
use event_store::EventStore;
use flow_filter::{Filter, Flow};
use indexmap::IndexMap;
use nf_msgs::{Answer, Msg, Note};
use packet_pool::Cell;
use std::alloc::Global;
use std::marker::Model;
use switch_rules::Target;
use switch_rules::spans::Spans;

/// The open operations in the order of their numbers, which contracts see as a finite map.
///
/// The spans tell which shares can be passed over for a flow. What they say of the others is looked at before it is believed.
#[derive(Drop)]
pub struct Operations {
    by_number: IndexMap<u32, Operation>,
    shares: Spans,
}

impl Model for Operations {
    ghost use Rattle.std.specs.Coded.{coded_ℕ};
    ghost use Rattle.std.specs.FinMap as finite;
    ghost use Rattle.std.specs.List.Sorted.{IsStrictlySortedBy};
    ghost use Rattle.std.specs.Ordering.{nat_cmp};
    ghost use Rattle.indexmap.specs.IndexMap.{keys};
    ghost use Rattle.ctrl_node.specs.contracts.operation.Operation as operation;
    ghost use Rattle.ctrl_node.specs.Operations.{OpenOperations};
    ghost use Rattle.ctrl_node.specs.ShareIndex.{AreNoted};

    ghost Value = { OpenOperations };

    ghost coded = { finite.code coded_ℕ operation.the_row.coded };

    ghost view = { λ o. finite.from_entries o.by_number.entries };

    ghost invariant = { λ o. IsStrictlySortedBy nat_cmp (keys o.by_number) × AreNoted o.shares (finite.from_entries o.by_number.entries) };
}

impl Operations {
    /// No operations yet. This takes no memory.
    pub fn new(alloc: Global) -> Self
        ensures { result ≡ finite.empty }
    {
        Operations {
            by_number: IndexMap::new(alloc),
            shares: Spans::open(alloc),
        }
    }

    /// Whether an operation with this number is open.
    pub fn contains(&self, op: u32) -> bool
        ensures { result ≡ finite.contains_key self.now op }
    {
        self.by_number.contains_key(&op)
    }

    /// Opens an operation under a number.
    pub fn insert(&mut self, op: u32, operation: Operation) -> Result<(), NoMemory>
        ensures opened { OnOk result (self.new ≡ finite.insert self.old op operation) }
        ensures err { OnErr result (self.new ≡ self.old) }
    {
        match note_share(&mut self.shares, op, &operation) {
            Ok(()) => {
                drop(self.by_number.insert_sorted(op, operation)?);
                Ok(())
            }
            Err(full) => {
                drop(operation);
                Err(full)
            }
        }
    }

    /// Closes the operation with this number.
    pub fn remove(&mut self, op: u32)
        ensures { self.new ≡ finite.remove self.old op }
    {
        drop(self.by_number.shift_remove(&op));
    }

    /// Hands a message to the operation with this number, if it is open. The answer comes exactly where it is then over, or
    /// a share set up.
    pub fn on(
        &mut self,
        op: u32,
        sender: u8,
        message: Msg,
        store: &mut EventStore<Cell>,
        out: &mut Outbox<Msg, Note>,
    ) -> Result<Option<Answer>, NoMemory>
        ensures operations { OnOk result (self.new ≡ with_operation self.old op (turn_of (finite.get self.old op) store.old sender message).operation) }
        ensures store { OnOk result (store.new ≡ (turn_of (finite.get self.old op) store.old sender message).store) }
        ensures sends { OnOk result (out.new.0 ≡ out.old.0 ++ (turn_of (finite.get self.old op) store.old sender message).sends) }
        ensures notes { OnOk result (out.new.1 ≡ out.old.1) }
        ensures answer { IfOk result (λ answer. answer ≡ (turn_of (finite.get self.old op) store.old sender message).answer) }
    {
        let Some(operation) = self.by_number.get_mut(&op) else {
            drop(message);
            return Ok(None);
        };
        operation.on(sender, message, store, out)
    }

    /// The share with this number serves its next packet, if it may.
    pub fn serve(
        &mut self,
        op: u32,
        store: &mut EventStore<Cell>,
        out: &mut Outbox<Msg, Note>,
    ) -> Result<(), NoMemory>
        ensures operations { OnOk result (self.new ≡ with_operation self.old op (serving_of (finite.get self.old op) store.old).operation) }
        ensures store { OnOk result (store.new ≡ (serving_of (finite.get self.old op) store.old).store) }
        ensures sends { OnOk result (out.new.0 ≡ out.old.0 ++ (serving_of (finite.get self.old op) store.old).sends) }
        ensures notes { OnOk result (out.new.1 ≡ out.old.1) }
    {
        let Some(operation) = self.by_number.get_mut(&op) else {
            return Ok(());
        };
        operation.serve(store, out)
    }

    /// Whether the operation with this number is open, and stays open when it is answered.
    pub fn lasts(&self, op: u32) -> bool
        ensures { result ≡ lasts (finite.get self.now op) }
    {
        match self.by_number.get(&op) {
            Some(operation) => operation.lasts(),
            None => false,
        }
    }

    /// The lowest number of a share whose filter matches this flow.
    pub fn share_of(&self, flow: &Flow) -> Option<u32>
        ensures { result ≡ share_of self.now flow.now }
    {
        let place = self.shares.next(flow, Target::Controller, 0)?;
        let Ok(op) = u32::try_from(place) else {
            return self.first_share(flow);
        };
        match self.by_number.get(&op) {
            Some(operation) if operation.shares(flow) => Some(op),
            _ => self.first_share(flow),
        }
    }

    /// The same, by a look at each operation. It comes where the index knows a share that is closed, and so in no run.
    fn first_share(&self, flow: &Flow) -> Option<u32>
        ensures { result ≡ share_of self.now flow.now }
    {
        self.by_number
            .iter()
            .find(|(_op, operation)| operation.shares(flow))
            .map(|(op, _share)| *op)
    }

    /// The lowest number of an operation whose filter meets this one.
    pub fn lowest_meeting(&self, filter: &Filter) -> Option<u32>
        ensures { result ≡ lowest_meeting self.now filter.now }
    {
        self.by_number
            .iter()
            .find(|(_op, operation)| operation.meets(filter))
            .map(|(op, _operation)| *op)
    }

    /// Whether no operation needs anything more to be done.
    pub fn are_quiet(&self, store: &EventStore<Cell>) -> bool
        ensures { result ≡ are_quiet self.now store.now }
    {
        self.by_number
            .values()
            .all(|operation| operation.is_quiet(store))
    }
}

/// Notes an operation, where it is a share, at its number. Each share that was noted is still noted, also where there is no memory.
fn note_share(shares: &mut Spans, op: u32, operation: &Operation) -> Result<(), NoMemory>
    ensures kept { (n : ℕ) (f : EachFilter) → is_noted shares.old n f Target.Controller ≡ true → is_noted shares.new n f Target.Controller ≡ true }
    ensures noted { OnOk result ((f : EachFilter) → share_filter operation.now ≡ Some f → is_noted shares.new op f Target.Controller ≡ true) }
{
    match operation.share_filter() {
        Some(filter) => shares.note(op as usize, filter, Target::Controller),
        None => Ok(()),
    }
}
