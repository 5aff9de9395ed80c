//! What those who hold a link's queue know of it, and what its steps tell them.
use crossbeam_queue::protocol::{Join, Lesson, Outcome, Protocol, Split};
use std::collections::LinkedList;

/// A message was sent, or taken. No value of it is made.
pub enum Transfer<M> {
    Sent(M),
    Taken(M),
}

/// What a holder of the queue may do, and what it knows of all that was done, as the sender and as the taker. No value of it
/// is made.
pub struct Knowledge<M> {
    pub sends: bool,
    pub takes: bool,
    pub sender: LinkedList<Transfer<M>>,
    pub taker: LinkedList<Transfer<M>>,
}

/// What was sent is what was taken and then what the queue holds.
pub struct InOrder;

impl<M> Protocol<M, Knowledge<M>> for InOrder {
    ghost use Rattle.std.specs.Prelude.{true, []};
    ghost use Rattle.fifo_link.specs.Knowledge.{knows, KeepsOrder};

    ghost holds = { KeepsOrder };

    ghost first = { knows true true [] [] };
}

/// The right to send and the right to take, apart and together.
pub struct Roles;

impl<M> Split<Knowledge<M>> for Roles {
    ghost use Rattle.std.specs.Prelude.{true, false};
    ghost use Rattle.fifo_link.specs.Knowledge.{knows};

    ghost left = { λ v. knows true false v.sender v.taker };

    ghost right = { λ v. knows false true v.sender v.taker };
}

impl<M> Join<Knowledge<M>> for Roles {
    ghost use Rattle.std.specs.Prelude.{true, false, []};
    ghost use Rattle.fifo_link.specs.Knowledge.{knows};

    ghost both = { λ v w. knows true true v.sender w.taker };

    ghost spent = { knows false false [] [] };
}

/// A message is sent, and the sender learns what was done before it. Where there is no room, it learns what the queue holds.
pub struct Sends;

impl<M> Outcome<M, Knowledge<M>> for Sends {
    ghost use Rattle.fifo_link.specs.Knowledge.{AfterSend};

    ghost then = { AfterSend };
}

impl<M> Lesson<M, Knowledge<M>> for Sends {
    ghost use Rattle.fifo_link.specs.Transfers.{HeldSince};

    ghost fact = { λ v items. HeldSince v.sender items };
}

/// A message is taken, and the taker learns what was done before it. Where there is none, nothing was sent since its last one.
pub struct Takes;

impl<M> Outcome<M, Knowledge<M>> for Takes {
    ghost use Rattle.fifo_link.specs.Knowledge.{AfterTake};

    ghost then = { AfterTake };
}

impl<M> Lesson<M, Knowledge<M>> for Takes {
    ghost use Rattle.std.specs.Prelude.{◌≡◌, length};
    ghost use Rattle.fifo_link.specs.Transfers.{WasEmpty};

    ghost fact = { λ v items. length items ≡ 0 → WasEmpty v.taker };
}

/// A message is taken by the holder of both rights, who knows all that was sent.
pub struct Drains;

impl<M> Outcome<M, Knowledge<M>> for Drains {
    ghost use Rattle.std.specs.Prelude.{◌≡◌, List, [], ◌∷◌, ◌++◌};
    ghost use Rattle.fifo_link.specs.Knowledge.{AfterTake};
    ghost use Rattle.fifo_link.specs.Transfers.{sent_in, taken_in};

    ghost then = { λ v x w. AfterTake v x w × ((rest : List M) × (sent_in v.sender ≡ (taken_in v.taker ++ x ∷ []) ++ rest)) };
}

impl<M> Lesson<M, Knowledge<M>> for Drains {
    ghost use Rattle.std.specs.Prelude.{◌≡◌, ◌++◌};
    ghost use Rattle.fifo_link.specs.Transfers.{AllDone, sent_in, taken_in};

    ghost fact = { λ v items. AllDone v.sender v.taker items × (sent_in v.sender ≡ taken_in v.taker ++ items) };
}
