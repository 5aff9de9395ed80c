//! An operation that has begun, a move, a copy or a share, as the controller calls it.
ghost use Rattle.std.specs.Prelude.{◌≡◌, ◌++◌, Some, OnOk, IfOk};
ghost use Rattle.std.specs.Option.{option_copied, option_or};
ghost use Rattle.ctrl_node.specs.Operations.{is_quiet, is_shared_by, lasts, meets_operation, serving_of, share_filter, turn_of};

use actor_net::Outbox;
use basics::NoMemory;
use copy_share::{CopyOp, ShareOp};
use event_store::EventStore;
use flow_filter::{Filter, Flow};
use move_op::MoveOp;
use nf_msgs::{Answer, Msg, Note};
use packet_pool::Cell;

/// An operation that has begun and isn't closed.
#[derive(Drop)]
pub enum Operation {
    Move(MoveOp),
    Copy(CopyOp),
    Share(ShareOp),
}

impl Operation {
    /// What the operation does with a message of a node. The answer comes exactly where it is then over, or a share
    /// is set up. A share keeps its filter, also where memory runs out.
    pub fn on(
        &mut self,
        sender: u8,
        message: Msg,
        store: &mut EventStore<Cell>,
        out: &mut Outbox<Msg, Note>,
    ) -> Result<Option<Answer>, NoMemory>
        ensures operation { OnOk result (Some self.new ≡ (turn_of (Some self.old) store.old sender message).operation) }
        ensures filter { share_filter self.new ≡ share_filter self.old }
        ensures store { OnOk result (store.new ≡ (turn_of (Some self.old) store.old sender message).store) }
        ensures sends { OnOk result (out.new.0 ≡ out.old.0 ++ (turn_of (Some self.old) store.old sender message).sends) }
        ensures notes { OnOk result (out.new.1 ≡ out.old.1) }
        ensures answer { IfOk result (λ answer. answer ≡ (turn_of (Some self.old) store.old sender message).answer) }
    {
        match self {
            Operation::Move(operation) => operation.on(sender, message, store, out),
            Operation::Copy(operation) => operation.on(sender, message, out),
            Operation::Share(operation) => operation.on(sender, message, out),
        }
    }

    /// A share serves its next packet, if it may. It keeps its filter, also where memory runs out.
    pub fn serve(
        &mut self,
        store: &mut EventStore<Cell>,
        out: &mut Outbox<Msg, Note>,
    ) -> Result<(), NoMemory>
        ensures operation { OnOk result (Some self.new ≡ option_or (serving_of (Some self.old) store.old).operation (Some self.old)) }
        ensures filter { share_filter self.new ≡ share_filter self.old }
        ensures store { OnOk result (store.new ≡ (serving_of (Some self.old) store.old).store) }
        ensures sends { OnOk result (out.new.0 ≡ out.old.0 ++ (serving_of (Some self.old) store.old).sends) }
        ensures notes { OnOk result (out.new.1 ≡ out.old.1) }
    {
        match self {
            Operation::Share(share) => share.serve(store, out),
            _ => Ok(()),
        }
    }

    /// Whether the operation stays open when it is answered.
    pub fn lasts(&self) -> bool
        ensures { result ≡ lasts (Some self.now) }
    {
        matches!(self, Operation::Share(_))
    }

    /// Whether the operation needs nothing more to be done.
    pub fn is_quiet(&self, store: &EventStore<Cell>) -> bool
        ensures { result ≡ is_quiet store.now self.now }
    {
        match self {
            Operation::Share(share) => share.idle(store),
            _ => false,
        }
    }

    /// Whether the operation is a share whose filter matches this flow.
    pub fn shares(&self, flow: &Flow) -> bool
        ensures { result ≡ is_shared_by flow.now self.now }
    {
        match self {
            Operation::Share(share) => share.filter().matches(flow),
            _ => false,
        }
    }

    /// The filter, where the operation is a share.
    pub fn share_filter(&self) -> Option<&Filter>
        ensures { option_copied result ≡ share_filter self.now }
    {
        match self {
            Operation::Share(share) => Some(share.filter()),
            _ => None,
        }
    }

    /// Whether some flow is matched by this filter and that of the operation.
    pub fn meets(&self, filter: &Filter) -> bool
        ensures { result ≡ meets_operation filter.now self.now }
    {
        match self {
            Operation::Move(operation) => filter.meet(operation.filter()).is_some(),
            Operation::Copy(operation) => match operation.filter() {
                Some(other) => filter.meet(other).is_some(),
                None => false,
            },
            Operation::Share(operation) => filter.meet(operation.filter()).is_some(),
        }
    }
}
