//! What the controller does with a command: it is refused with its cause, or its operation begins.
ghost use Rattle.std.specs.Prelude.{◌≡◌, ◌<◌, ◌∷◌, [], ◌++◌, find, is_some, not, All, IfOk, IfSome, OnOk};
ghost use Rattle.std.specs.List.{filter_map};
ghost use Rattle.ctrl_node.specs.Controller.{begin_step, move_between, share_begin, copy_between, on_asked, overlap, refusal, unknown_name};
ghost use Rattle.flow_filter.specs.Name.{place_of};

use super::Ctrl;
use crate::operation::Operation;
use actor_net::Outbox;
use basics::{NoMemory, TryCopy};
use copy_share::{CopyOp, ShareOp};
use flow_filter::name::place_of;
use flow_filter::{Filter, Name};
use move_op::MoveOp;
use nf_msgs::{Answer, Command, MOST_INSTANCES, Msg, Note, Order};

impl Ctrl {
    /// A command is refused, or begins. One with the number of an open operation comes in no run.
    pub(super) fn asked(
        &mut self,
        command: &Command,
        out: &mut Outbox<Msg, Note>,
    ) -> Result<(), NoMemory>
        ensures node { OnOk result (self.new ≡ (on_asked self.old command.now).node) }
        ensures sends { OnOk result (out.new.0 ≡ out.old.0 ++ (on_asked self.old command.now).sends) }
        ensures notes { OnOk result (out.new.1 ≡ out.old.1 ++ (on_asked self.old command.now).notes) }
    {
        let Command { op, what } = command;
        if self.operations.contains(*op) {
            return Ok(());
        }
        if let Some(answer) = self.refusal(what)? {
            return self.answer(*op, answer, out);
        }
        self.begin(*op, what, out)
    }

    /// The cause for which an order is refused.
    fn refusal(&self, what: &Order) -> Result<Option<Answer>, NoMemory>
        ensures { IfOk result (λ answer. answer ≡ refusal self.now what.now) }
    {
        if let Some(name) = self.unknown_name(what)? {
            return Ok(Some(Answer::Unknown(name)));
        }
        Ok(self.overlap(what).map(Answer::Overlap))
    }

    /// The first name in an order that no instance has.
    fn unknown_name(&self, what: &Order) -> Result<Option<Name>, NoMemory>
        ensures { IfOk result (λ name. name ≡ unknown_name self.now what.now) }
    {
        match what {
            Order::Move { src, dst, .. } => self.unknown_of(src, dst),
            Order::Copy { src, dst, .. } => self.unknown_of(src, dst),
            Order::Share { members, .. } => self.unknown_among(members.items()),
        }
    }

    /// The first of two names that no instance has.
    fn unknown_of(&self, first: &Name, second: &Name) -> Result<Option<Name>, NoMemory>
        ensures { IfOk result (λ name. name ≡ find (λ name. not (is_some (place_of self.now.names name))) (first.now ∷ second.now ∷ [])) }
    {
        if self.place_of(first).is_none() {
            return Ok(Some(first.copy()?));
        }
        if self.place_of(second).is_none() {
            return Ok(Some(second.copy()?));
        }
        Ok(None)
    }

    /// The first of these names that no instance has.
    fn unknown_among(&self, names: &[Name]) -> Result<Option<Name>, NoMemory>
        ensures { IfOk result (λ name. name ≡ find (λ name. not (is_some (place_of self.now.names name))) names.now) }
    {
        for name in names {
            if self.place_of(name).is_none() {
                return Ok(Some(name.copy()?));
            }
        }
        Ok(None)
    }

    /// The lowest number of an open operation that the order's filter meets.
    fn overlap(&self, what: &Order) -> Option<u32>
        ensures { result ≡ overlap self.now what.now }
    {
        match what {
            Order::Move { filter, .. } => self.operations.lowest_meeting(filter),
            Order::Copy { filter, .. } => match filter {
                Some(filter) => self.operations.lowest_meeting(filter),
                None => None,
            },
            Order::Share { filter, .. } => self.operations.lowest_meeting(filter),
        }
    }

    /// An operation begins, between the instances with the order's names.
    fn begin(&mut self, op: u32, what: &Order, out: &mut Outbox<Msg, Note>) -> Result<(), NoMemory>
        ensures node { OnOk result (self.new ≡ (begin_step self.old op what.now).node) }
        ensures sends { OnOk result (out.new.0 ≡ out.old.0 ++ (begin_step self.old op what.now).sends) }
        ensures notes { OnOk result (out.new.1 ≡ out.old.1 ++ (begin_step self.old op what.now).notes) }
    {
        match what {
            Order::Move {
                src,
                dst,
                filter,
                keep,
            } => {
                let source = self.place_of(src);
                let destination = self.place_of(dst);
                self.begin_move(op, source, destination, filter, *keep, out)
            }
            Order::Copy { src, dst, filter } => {
                let source = self.place_of(src);
                let destination = self.place_of(dst);
                self.begin_copy(op, source, destination, *filter, out)
            }
            Order::Share { members, filter } => {
                let members = self.places_of(members.items())?;
                self.begin_share(op, members, filter, out)
            }
        }
    }

    fn begin_move(
        &mut self,
        op: u32,
        source: Option<u8>,
        destination: Option<u8>,
        filter: &Filter,
        keep: bool,
        out: &mut Outbox<Msg, Note>,
    ) -> Result<(), NoMemory>
        requires source { IfSome source (λ place. place < MOST_INSTANCES) }
        requires destination { IfSome destination (λ place. place < MOST_INSTANCES) }
        ensures node { OnOk result (self.new ≡ (move_between self.old op filter.now keep source destination).node) }
        ensures sends { OnOk result (out.new.0 ≡ out.old.0 ++ (move_between self.old op filter.now keep source destination).sends) }
        ensures notes { OnOk result (out.new.1 ≡ out.old.1 ++ (move_between self.old op filter.now keep source destination).notes) }
    {
        let Some(source) = source else {
            return Ok(());
        };
        let Some(destination) = destination else {
            return Ok(());
        };
        out.note(Note::Begun(op))?;
        let begun = MoveOp::begin(self.alloc, op, source, destination, filter, keep, out)?;
        self.operations.insert(op, Operation::Move(begun))
    }

    fn begin_copy(
        &mut self,
        op: u32,
        source: Option<u8>,
        destination: Option<u8>,
        filter: Option<Filter>,
        out: &mut Outbox<Msg, Note>,
    ) -> Result<(), NoMemory>
        requires source { IfSome source (λ place. place < MOST_INSTANCES) }
        requires destination { IfSome destination (λ place. place < MOST_INSTANCES) }
        ensures node { OnOk result (self.new ≡ (copy_between self.old op filter source destination).node) }
        ensures sends { OnOk result (out.new.0 ≡ out.old.0 ++ (copy_between self.old op filter source destination).sends) }
        ensures notes { OnOk result (out.new.1 ≡ out.old.1 ++ (copy_between self.old op filter source destination).notes) }
    {
        let Some(source) = source else {
            return Ok(());
        };
        let Some(destination) = destination else {
            return Ok(());
        };
        out.note(Note::Begun(op))?;
        let begun = CopyOp::begin(self.alloc, op, source, destination, filter, out)?;
        self.operations.insert(op, Operation::Copy(begun))
    }

    /// A share begins, if it has members.
    fn begin_share(
        &mut self,
        op: u32,
        members: Vec<u8>,
        filter: &Filter,
        out: &mut Outbox<Msg, Note>,
    ) -> Result<(), NoMemory>
        requires instances { All (λ member. member < MOST_INSTANCES) members.items }
        ensures node { OnOk result (self.new ≡ (share_begin self.old op filter.now members.items).node) }
        ensures sends { OnOk result (out.new.0 ≡ out.old.0 ++ (share_begin self.old op filter.now members.items).sends) }
        ensures notes { OnOk result (out.new.1 ≡ out.old.1 ++ (share_begin self.old op filter.now members.items).notes) }
    {
        if members.is_empty() {
            return Ok(());
        }
        out.note(Note::Begun(op))?;
        let begun = ShareOp::begin(self.alloc, op, members, filter, self.site, out)?;
        self.operations.insert(op, Operation::Share(begun))
    }

    /// The numbers of the instances with these names, in order.
    fn places_of(&self, names: &[Name]) -> Result<Vec<u8>, NoMemory>
        ensures places { IfOk result (λ places. places.items ≡ filter_map (place_of self.now.names) names.now) }
        ensures within { IfOk result (λ places. All (λ place. place < MOST_INSTANCES) places.items) }
    {
        let mut places = Vec::new(self.alloc);
        for name in names {
            let Some(place) = self.place_of(name) else {
                continue;
            };
            places.push(place)?;
        }
        Ok(places)
    }

    /// The number of the instance with a name.
    fn place_of(&self, name: &Name) -> Option<u8>
        ensures value { result ≡ place_of self.now.names name.now }
        ensures within { IfSome result (λ place. place < MOST_INSTANCES) }
    {
        let place = place_of(self.names.items(), name.items())?;
        Some(place as u8)
    }
}
