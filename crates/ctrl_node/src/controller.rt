//! The controller as a node: what it holds, and the row of each message.
ghost use Rattle.std.specs.Prelude.{◌≡◌, ◌≤◌, ◌<◌, ◌++◌, length, if◌then◌else◌, IfOk, IfSome, OnOk};
ghost use Rattle.std.specs.FinMap as finite;
ghost use Rattle.ctrl_node.specs.Controller.{answers, without_operation, finish_of, hand_step, instance_at, on_diverted};
ghost use Rattle.ctrl_node.specs.Controller.{on_event, on_final, controller_at_start, row, serve_step, takes_turn, with_finish};
ghost use Rattle.ctrl_node.specs.Operations.{lasts, turn_of};

mod commands;

use crate::operations::Operations;
use actor_net::{Actor, Outbox};
use basics::{Boxed, NoMemory};
use event_filter::Mark;
use event_store::EventStore;
use flow_filter::{Site, flow_of};
use nf_msgs::{Answer, MOST_INSTANCES, Msg, Names, Note, SWITCH};
use packet_pool::Cell;
use std::alloc::Global;
use std::marker::Model;

/// The controller of a network.
#[derive(Drop)]
pub struct Ctrl {
    names: Names,
    site: Site,
    operations: Operations,
    store: EventStore<Cell>,
    end_came: bool,
    finish_sent: bool,
    /// Of each instance, whether it has stopped.
    stopped: Vec<bool>,
    alloc: Global,
}

impl Model for Ctrl {
    ghost use Rattle.std.specs.Prelude.{◌≡◌, ◌≤◌, length};
    ghost use Rattle.std.specs.Coded.{codes, coded_ℕ, coded_list};
    ghost use Rattle.std.specs.FinMap as finite;
    ghost use Rattle.std.specs.Ordering.{nat_cmp};
    ghost use Rattle.packet_pool.specs.contracts.cell.Cell as cell;
    ghost use Rattle.ctrl_node.specs.contracts.operation.Operation as operation;
    ghost use Rattle.nf_msgs.specs.declared.nodes.TheConstants.{MOST_INSTANCES};
    ghost use Rattle.ctrl_node.specs.Controller.{ControllerState};

    ghost Value = { ControllerState };

    ghost coded = { Prim.hlevel
        (codes, finite.code {R = nat_cmp} coded_ℕ operation.the_row.coded, finite.code {R = nat_cmp} coded_ℕ (coded_list cell.the_row.coded)) };

    ghost view = { λ c. record {
      names = c.names;
      site = c.site;
      operations = c.operations;
      store = c.store;
      end_came = c.end_came;
      finish_sent = c.finish_sent;
      stopped = c.stopped.items;
    } };

    ghost invariant = { λ c. (length c.names ≤ MOST_INSTANCES) × (length c.stopped.items ≡ length c.names) };
}

impl Actor for Ctrl {
    ghost use Rattle.std.specs.Prelude.{true};
    ghost use Rattle.ctrl_node.specs.Controller.{all_stopped, controller_step};

    type Message = Msg;

    type Note = Note;

    ghost stepped = { controller_step };

    ghost is_ready = { λ c item. true };

    ghost has_ended = { all_stopped };

    fn ready(&self, _item: &Msg) -> bool {
        true
    }

    fn step(
        &mut self,
        port: u8,
        message: Msg,
        out: &mut Outbox<Msg, Note>,
    ) -> Result<(), NoMemory> {
        self.take(port, message, out)?;
        self.finish(out)
    }

    fn ended(&self) -> bool {
        self.stopped.iter().all(|stopped| *stopped)
    }
}

impl Ctrl {
    /// A controller for the instances with these names, that was told nothing yet.
    pub fn open(alloc: Global, names: Names, site: Site) -> Result<Ctrl, NoMemory>
        requires instances { length names ≤ MOST_INSTANCES }
        ensures { IfOk result (λ controller. controller ≡ controller_at_start names site) }
    {
        let mut stopped = Vec::new(alloc);
        for _name in names.items() {
            stopped.push(false)?;
        }
        Ok(Ctrl {
            names,
            site,
            operations: Operations::new(alloc),
            store: EventStore::open(alloc),
            end_came: false,
            finish_sent: false,
            stopped,
            alloc,
        })
    }

    /// The row of a message.
    fn take(&mut self, port: u8, message: Msg, out: &mut Outbox<Msg, Note>) -> Result<(), NoMemory>
        ensures node { OnOk result (self.new ≡ (row self.old port message).node) }
        ensures sends { OnOk result (out.new.0 ≡ out.old.0 ++ (row self.old port message).sends) }
        ensures notes { OnOk result (out.new.1 ≡ out.old.1 ++ (row self.old port message).notes) }
    {
        match message {
            Msg::Asked(command) => {
                if port != SWITCH {
                    return Ok(());
                }
                self.asked(command.get(), out)
            }
            Msg::Diverted(parcel) => {
                if port != SWITCH {
                    return Ok(());
                }
                self.divert(parcel, out)
            }
            Msg::End => {
                if port == SWITCH {
                    self.end_came = true;
                }
                Ok(())
            }
            Msg::Event { op, parcel } => self.event(port, op, parcel, out),
            Msg::Final => {
                self.stop(port);
                Ok(())
            }
            message => {
                let Some(op) = message.op() else {
                    drop(message);
                    return Ok(());
                };
                self.hand(op, port, message, out)
            }
        }
    }

    /// Answers a command.
    fn answer(&self, op: u32, answer: Answer, out: &mut Outbox<Msg, Note>) -> Result<(), NoMemory>
        ensures sends { OnOk result (out.new.0 ≡ out.old.0 ++ (answers self.now op answer).sends) }
        ensures notes { OnOk result (out.new.1 ≡ out.old.1 ++ (answers self.now op answer).notes) }
    {
        let answer = Boxed::new(self.alloc, answer)?;
        out.note(Note::Answered { op, answer })?;
        out.send(SWITCH, Msg::Answered { op })
    }

    /// Hands an event to its operation, or sends the packet back where it isn't open.
    fn event(
        &mut self,
        port: u8,
        op: u32,
        parcel: Cell,
        out: &mut Outbox<Msg, Note>,
    ) -> Result<(), NoMemory>
        ensures node { OnOk result (self.new ≡ (on_event self.old port op parcel (instance_at self.old port)).node) }
        ensures sends { OnOk result (out.new.0 ≡ out.old.0 ++ (on_event self.old port op parcel (instance_at self.old port)).sends) }
        ensures notes { OnOk result (out.new.1 ≡ out.old.1 ++ (on_event self.old port op parcel (instance_at self.old port)).notes) }
    {
        let Some(to) = self.instance_at(port) else {
            return Ok(());
        };
        if self.operations.contains(op) {
            return self.hand(op, port, Msg::Event { op, parcel }, out);
        }
        let mark = Mark::Pass(op);
        out.send(SWITCH, Msg::Forward { to, mark, parcel })
    }

    /// A packet whose target is the controller waits for its share, which then serves the next one.
    fn divert(&mut self, parcel: Cell, out: &mut Outbox<Msg, Note>) -> Result<(), NoMemory>
        ensures node { OnOk result (self.new ≡ (on_diverted self.old parcel).node) }
        ensures sends { OnOk result (out.new.0 ≡ out.old.0 ++ (on_diverted self.old parcel).sends) }
        ensures notes { OnOk result (out.new.1 ≡ out.old.1 ++ (on_diverted self.old parcel).notes) }
    {
        let (flow, _direction) = flow_of(&self.site, parcel.packet());
        let Some(op) = self.operations.share_of(&flow) else {
            return Ok(());
        };
        match self.store.put(op, parcel) {
            Ok(()) => self.serve(op, out),
            Err((full, _parcel)) => Err(full),
        }
    }

    /// Hands a message to its operation. Where it is a share, it then serves the next packet.
    fn hand(
        &mut self,
        op: u32,
        port: u8,
        message: Msg,
        out: &mut Outbox<Msg, Note>,
    ) -> Result<(), NoMemory>
        ensures node { OnOk result (self.new ≡ (hand_step self.old op port message).node) }
        ensures sends { OnOk result (out.new.0 ≡ out.old.0 ++ (hand_step self.old op port message).sends) }
        ensures notes { OnOk result (out.new.1 ≡ out.old.1 ++ (hand_step self.old op port message).notes) }
    {
        self.turn(op, port, message, out)?;
        self.serve(op, out)
    }

    /// An operation takes a message. Where it is then over, it is answered and closed; a share that is set up stays open.
    fn turn(
        &mut self,
        op: u32,
        port: u8,
        message: Msg,
        out: &mut Outbox<Msg, Note>,
    ) -> Result<(), NoMemory>
        ensures node { OnOk result (self.new ≡ (takes_turn self.old op (turn_of (finite.get self.old.operations op) self.old.store port message)).node) }
        ensures sends { OnOk result
            (out.new.0 ≡ out.old.0 ++ (takes_turn self.old op (turn_of (finite.get self.old.operations op) self.old.store port message)).sends) }
        ensures notes { OnOk result
            (out.new.1 ≡ out.old.1 ++ (takes_turn self.old op (turn_of (finite.get self.old.operations op) self.old.store port message)).notes) }
    {
        let answer = self.operations.on(op, port, message, &mut self.store, out)?;
        let Some(answer) = answer else {
            return Ok(());
        };
        self.close(op);
        self.answer(op, answer, out)
    }

    /// Closes an operation that is answered, if it doesn't last.
    fn close(&mut self, op: u32)
        ensures { self.new ≡ (if lasts (finite.get self.old.operations op) then self.old else without_operation self.old op) }
    {
        if self.operations.lasts(op) {
            return;
        }
        self.operations.remove(op);
    }

    /// A share serves its next packet, if it may.
    fn serve(&mut self, op: u32, out: &mut Outbox<Msg, Note>) -> Result<(), NoMemory>
        ensures node { OnOk result (self.new ≡ (serve_step self.old op).node) }
        ensures sends { OnOk result (out.new.0 ≡ out.old.0 ++ (serve_step self.old op).sends) }
        ensures notes { OnOk result (out.new.1 ≡ out.old.1) }
    {
        self.operations.serve(op, &mut self.store, out)
    }

    /// An instance has stopped.
    fn stop(&mut self, port: u8)
        ensures { self.new ≡ (on_final self.old (instance_at self.old port)).node }
    {
        let Some(instance) = self.instance_at(port) else {
            return;
        };
        self.stopped[usize::from(instance)] = true;
    }

    /// Tells the switch to finish, once nothing is left to be done.
    fn finish(&mut self, out: &mut Outbox<Msg, Note>) -> Result<(), NoMemory>
        ensures node { OnOk result (self.new ≡ with_finish self.old) }
        ensures sends { OnOk result (out.new.0 ≡ out.old.0 ++ finish_of self.old) }
        ensures notes { OnOk result (out.new.1 ≡ out.old.1) }
    {
        if !self.end_came || self.finish_sent || !self.operations.are_quiet(&self.store) {
            return Ok(());
        }
        self.finish_sent = true;
        out.send(SWITCH, Msg::Finish)
    }

    /// The number of the instance that a port is of.
    fn instance_at(&self, port: u8) -> Option<u8>
        ensures value { result ≡ instance_at self.now port }
        ensures within { IfSome result (λ place. place < length self.now.stopped) }
    {
        let instance = port.checked_sub(2)?;
        if usize::from(instance) >= self.stopped.len() {
            return None;
        }
        Some(instance)
    }
}
