//! What the controller of an update does as the rules of the switch change, and at the end.
ghost use Rattle.std.specs.Prelude.{◌≡◌, ◌++◌, OnOk};
ghost use Rattle.two_phase.specs.Tables.{are_same, fenced_from, on_copied, on_final, on_laid, soon};

use crate::controller::TwoCtrl;
use crate::moving::send_to;
use crate::msg::TwoMsg;
use crate::note::TwoNote;
use crate::phase::Phase;
use crate::roles::{DESTINATION, SOURCE, THE_UPDATE};
use actor_net::Outbox;
use basics::NoMemory;
use nf_msgs::{Msg, SWITCH, instance_node};

impl TwoCtrl {
    /// A rule is laid.
    pub(crate) fn laid(&mut self, high: bool)
        ensures { self.new ≡ (on_laid self.old.phase high self.old).node }
    {
        match (self.phase, high) {
            (Phase::Laying, false) => self.phase = Phase::Waiting,
            (Phase::Turning, true) => self.phase = Phase::Settling,
            _ => {}
        }
    }

    /// A packet was copied; the first one asks for the high rule.
    pub(crate) fn copied(
        &mut self,
        number: u32,
        out: &mut Outbox<TwoMsg, TwoNote>,
    ) -> Result<(), NoMemory>
        ensures node { OnOk result (self.new ≡ (on_copied self.old.phase self.old number).node) }
        ensures sends { OnOk result (out.new.0 ≡ out.old.0 ++ (on_copied self.old.phase self.old number).sends) }
        ensures notes { OnOk result (out.new.1 ≡ out.old.1) }
    {
        match self.phase {
            Phase::Waiting => {
                self.phase = Phase::Turning;
                self.last = Some(number);
                out.send(SWITCH, TwoMsg::Lay { high: true })
            }
            Phase::Turning => {
                self.last = Some(number);
                Ok(())
            }
            _ => Ok(()),
        }
    }

    /// The destination has processed what it held.
    pub(crate) fn fenced(
        &mut self,
        port: u8,
        out: &mut Outbox<TwoMsg, TwoNote>,
    ) -> Result<(), NoMemory>
        ensures node { OnOk result (self.new ≡ (fenced_from port self.old).node) }
        ensures sends { OnOk result (out.new.0 ≡ out.old.0) }
        ensures notes { OnOk result (out.new.1 ≡ out.old.1 ++ (fenced_from port self.old).notes) }
    {
        if port != instance_node(DESTINATION) {
            return Ok(());
        }
        let Phase::Ending = self.phase else {
            return Ok(());
        };
        self.phase = Phase::Over;
        out.note(TwoNote::Done)
    }

    /// The source has stopped, and so is the destination to; or that has.
    pub(crate) fn take_final(
        &mut self,
        port: u8,
        out: &mut Outbox<TwoMsg, TwoNote>,
    ) -> Result<(), NoMemory>
        ensures node { OnOk result (self.new ≡ (on_final self.old port).node) }
        ensures sends { OnOk result (out.new.0 ≡ out.old.0 ++ (on_final self.old port).sends) }
        ensures notes { OnOk result (out.new.1 ≡ out.old.1) }
    {
        if port == instance_node(SOURCE) {
            return out.send(SWITCH, TwoMsg::Finish { to: DESTINATION });
        }
        if port == instance_node(DESTINATION) {
            self.stopped = true;
        }
        Ok(())
    }

    /// What is done as soon as it may be: the fence once the last packet that was copied is seen, and the verdict once the input has ended.
    pub(crate) fn go_on(&mut self, out: &mut Outbox<TwoMsg, TwoNote>) -> Result<(), NoMemory>
        ensures node { OnOk result (self.new ≡ (soon self.old.phase self.old).node) }
        ensures sends { OnOk result (out.new.0 ≡ out.old.0 ++ (soon self.old.phase self.old).sends) }
        ensures notes { OnOk result (out.new.1 ≡ out.old.1 ++ (soon self.old.phase self.old).notes) }
    {
        match self.phase {
            Phase::Settling if self.has_settled() => {
                self.phase = Phase::Ending;
                send_to(DESTINATION, Msg::Fence { op: THE_UPDATE }, out)
            }
            Phase::Waiting if self.ended => {
                self.phase = Phase::Over;
                out.note(TwoNote::NoPacket)
            }
            _ => Ok(()),
        }
    }

    /// Whether the last packet that was copied is the latest that was seen.
    fn has_settled(&self) -> bool
        ensures { result ≡ are_same self.now.seen self.now.last }
    {
        match (self.seen, self.last) {
            (Some(seen), Some(last)) => seen == last,
            _ => false,
        }
    }
}
