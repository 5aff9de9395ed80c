//! What an instance does with packets.
ghost use Rattle.std.specs.Prelude.{◌≡◌, ◌++◌, OnOk, IsSome};
ghost use Rattle.flow_filter.specs.Flow.{flow_of};
ghost use Rattle.event_filter.specs.declared.decide.Decide.TheVariants.{ProcessAndEvent};
ghost use Rattle.event_filter.specs.declared.mark.Mark.TheVariants.{Shared};
ghost use Rattle.event_filter.specs.Rules.{rule_at, with_held};
ghost use Rattle.nf_function.specs.Units.{unit_of};
ghost use Rattle.instance_worker.specs.Instance.{all_processed, carry_step, is_live, on_carry, on_fence, process_step, share_message};
ghost use Rattle.instance_worker.specs.Instance.{to_controller, with_count};

use crate::instance::Instance;
use actor_net::Outbox;
use basics::{Boxed, NoMemory};
use event_filter::{Decide, Mark};
use flow_filter::{Direction, Flow, flow_of};
use nf_function::Function;
use nf_msgs::{CONTROLLER, Msg, Note, SWITCH};
use packet_pool::Cell;
use std::collections::VecDeque;

impl<F: Function> Instance<F> {
    /// Does with a packet what the rules decide of it.
    #[inline(always)]
    #[tactic(auto, unfolding(crate::specs::Instance::on_carry))]
    pub(crate) fn carry(
        &mut self,
        mark: Mark,
        cell: Cell,
        out: &mut Outbox<Msg, Note>,
    ) -> Result<(), NoMemory>
        ensures node { OnOk result (self.new ≡ (on_carry F.semantics self.old mark cell).node) }
        ensures sends { OnOk result (out.new.0 ≡ out.old.0 ++ (on_carry F.semantics self.old mark cell).sends) }
        ensures notes { OnOk result (out.new.1 ≡ out.old.1 ++ (on_carry F.semantics self.old mark cell).notes) }
    {
        let (flow, direction) = flow_of(&self.site, cell.packet());
        match self.rules.decide(&flow, &mark) {
            Decide::Process => self.process_along(flow, direction, mark, cell, out),
            Decide::ProcessAndEvent(op) => {
                self.process_and_tell(op, flow, direction, mark, cell, out)
            }
            Decide::Event(op) => out.send(CONTROLLER, Msg::Event { op, parcel: cell }),
            Decide::Buffer(op) => self.hold(op, cell),
        }
    }

    /// Processes a packet, and tells an operation which it was.
    #[inline(never)]
    fn process_and_tell(
        &mut self,
        op: u32,
        flow: Flow,
        direction: Direction,
        mark: Mark,
        cell: Cell,
        out: &mut Outbox<Msg, Note>,
    ) -> Result<(), NoMemory>
        requires { (flow, direction) ≡ flow_of self.old.site cell.packet }
        ensures node { OnOk result (self.new ≡ (carry_step F.semantics self.old mark cell (ProcessAndEvent op)).node) }
        ensures sends { OnOk result (out.new.0 ≡ out.old.0 ++ (carry_step F.semantics self.old mark cell (ProcessAndEvent op)).sends) }
        ensures notes { OnOk result (out.new.1 ≡ out.old.1 ++ (carry_step F.semantics self.old mark cell (ProcessAndEvent op)).notes) }
    {
        let packet = Boxed::new(self.alloc, *cell.packet())?;
        self.process_along(flow, direction, mark, cell, out)?;
        out.send(CONTROLLER, Msg::Seen { op, packet })
    }

    /// Holds a packet for an operation.
    #[inline(never)]
    fn hold(&mut self, op: u32, cell: Cell) -> Result<(), NoMemory>
        requires { IsSome (rule_at self.old.rules op) }
        ensures { OnOk result (self.new ≡ record self.old { rules = with_held self.old.rules op cell }) }
    {
        match self.rules.hold(op, cell) {
            Ok(()) => Ok(()),
            Err((fault, _cell)) => Err(fault),
        }
    }

    /// Processes what is held for an operation, and ends its rule.
    #[tactic(auto, unfolding(crate::specs::Instance::on_fence))]
    pub(crate) fn fence(&mut self, op: u32, out: &mut Outbox<Msg, Note>) -> Result<(), NoMemory>
        ensures node { OnOk result (self.new ≡ (on_fence F.semantics self.old op).node) }
        ensures sends { OnOk result (out.new.0 ≡ out.old.0 ++ (on_fence F.semantics self.old op).sends) }
        ensures notes { OnOk result (out.new.1 ≡ out.old.1 ++ (on_fence F.semantics self.old op).notes) }
    {
        let cells = self.rules.release(op);
        self.process_all(VecDeque::from_vec(cells), out)?;
        out.send(CONTROLLER, Msg::Fenced { op })
    }

    /// Processes packets in order, each as a plain one.
    fn process_all(
        &mut self,
        mut cells: VecDeque<Cell>,
        out: &mut Outbox<Msg, Note>,
    ) -> Result<(), NoMemory>
        ensures node { OnOk result (self.new ≡ (all_processed F.semantics self.old cells.items).node) }
        ensures sends { OnOk result (out.new.0 ≡ out.old.0 ++ (all_processed F.semantics self.old cells.items).sends) }
        ensures notes { OnOk result (out.new.1 ≡ out.old.1 ++ (all_processed F.semantics self.old cells.items).notes) }
    {
        while let Some(cell) = cells.pop_front() {
            let (flow, direction) = flow_of(&self.site, cell.packet());
            self.process_along(flow, direction, Mark::Plain, cell, out)?;
        }
        Ok(())
    }

    /// Processes a packet whose flow and direction are at hand.
    #[inline(always)]
    #[tactic(auto, unfolding(crate::specs::Instance::process_step))]
    fn process_along(
        &mut self,
        flow: Flow,
        direction: Direction,
        mark: Mark,
        cell: Cell,
        out: &mut Outbox<Msg, Note>,
    ) -> Result<(), NoMemory>
        requires { (flow, direction) ≡ flow_of self.old.site cell.packet }
        ensures node { OnOk result (self.new ≡ (process_step F.semantics self.old mark cell).node) }
        ensures sends { OnOk result (out.new.0 ≡ out.old.0 ++ (process_step F.semantics self.old mark cell).sends) }
        ensures notes { OnOk result (out.new.1 ≡ out.old.1 ++ (process_step F.semantics self.old mark cell).notes) }
    {
        let live = is_live(mark);
        let packet = cell.packet();
        let number = packet.number;
        let stepped = self
            .table
            .step_along(&self.site, flow, direction, packet, live)?;
        self.count();
        out.note(Note::Processed {
            number,
            instance: self.index.get(),
            output: stepped.output,
        })?;
        self.share(mark, &flow, out)?;
        out.send(SWITCH, Msg::Credit(cell))
    }

    /// Counts one packet in the instance's own slot.
    fn count(&mut self)
        ensures { self.new ≡ with_count self.old }
    {
        self.tally.count(self.index.get());
    }

    /// Tells a share what its packet left of the unit.
    #[inline(always)]
    fn share(&self, mark: Mark, flow: &Flow, out: &mut Outbox<Msg, Note>) -> Result<(), NoMemory>
        ensures sends { OnOk result (out.new.0 ≡ out.old.0 ++ to_controller (share_message F.semantics self.now mark (unit_of F.semantics.kind flow.now))) }
        ensures notes { OnOk result (out.new.1 ≡ out.old.1) }
    {
        let Mark::Shared { op, home } = mark else {
            return Ok(());
        };
        self.tell_share(op, home, flow, out)
    }

    /// Tells the share of an operation what its packet left of the unit.
    #[inline(never)]
    fn tell_share(
        &self,
        op: u32,
        home: bool,
        flow: &Flow,
        out: &mut Outbox<Msg, Note>,
    ) -> Result<(), NoMemory>
        ensures sends { OnOk result
            (out.new.0 ≡ out.old.0 ++ to_controller (share_message F.semantics self.now (Shared op home) (unit_of F.semantics.kind flow.now))) }
        ensures notes { OnOk result (out.new.1 ≡ out.old.1) }
    {
        let Some(chunk) = self.table.one(&F::unit(flow), home)? else {
            return Ok(());
        };
        let chunk = Boxed::new(self.alloc, chunk)?;
        out.send(CONTROLLER, Msg::Shared { op, chunk })
    }
}

/// Whether a packet with this mark steps a live record.
fn is_live(mark: Mark) -> bool
    ensures { result ≡ is_live mark }
{
    match mark {
        Mark::Plain | Mark::Pass(_) => true,
        Mark::Shared { home, .. } => home,
    }
}
