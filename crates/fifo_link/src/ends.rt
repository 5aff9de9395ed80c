//! The two ends of a link.
ghost use Rattle.std.specs.Prelude.{◌≡◌, ◌<◌, ◌≤◌, true, [], ◌∷◌, ◌++◌, length, IfOk, IfErr, IfNone, MatchOption, MatchResult, vec_capacity};
ghost use Rattle.fifo_link.specs.Transfers.{sent_in, taken_in, IsSent, IsTaken, WasFull, WasEmpty, AllDone};
ghost use Rattle.crossbeam_queue.specs.Passes.{view, IsPassOf, ruled_capacity};

use crate::knowledge::{Drains, InOrder, Knowledge, Roles, Sends, Takes};
use basics::NoMemory;
use crossbeam_queue::{Pass, RuledArrayQueue};
use std::alloc::Global;
use std::marker::{Model, PhantomData};
use std::sync::{Arc, Wait};

/// The queue of a link, under the protocol [`InOrder`].
type Line<M> = RuledArrayQueue<M, Knowledge<M>, InOrder>;

/// What a holder of the queue may do there.
type Hand<M> = Pass<M, Knowledge<M>>;

/// The end of a link that sends.
#[derive(Drop)]
pub struct SendEnd<M> {
    line: Arc<Line<M>, Global>,
    hand: Hand<M>,
}

impl<M> Model for SendEnd<M> {
    ghost use Rattle.fifo_link.specs.Ends.{End};

    ghost Value = { End M };

    ghost use Rattle.fifo_link.specs.Inside.{send_view, SendHolds};

    ghost view = { send_view };

    ghost invariant = { SendHolds };
}

/// The end of a link that takes.
#[derive(Drop)]
pub struct TakeEnd<M> {
    line: Arc<Line<M>, Global>,
    hand: Hand<M>,
    /// Where `close` puts what is left.
    room: Vec<M>,
}

impl<M> Model for TakeEnd<M> {
    ghost use Rattle.fifo_link.specs.Ends.{End};

    ghost Value = { End M };

    ghost use Rattle.fifo_link.specs.Inside.{take_view, TakeHolds};

    ghost view = { take_view };

    ghost invariant = { TakeHolds };
}

/// The link had no room. The message is handed back.
#[derive(Debug, Drop)]
pub struct Full<M> {
    pub message: M,
}

/// What was sent on a link and not taken, oldest first.
#[derive(Debug, Drop)]
pub struct Closed<M> {
    pub left: Vec<M>,
}

/// A link for messages of one type. It is used by its two ends, and `open` makes them.
pub struct Link<M> {
    of: PhantomData<M>,
}

impl<M> Link<M> {
    /// The two ends of a new link that holds at most `capacity` messages. All memory that the link needs is taken here.
    pub fn open(alloc: Global, capacity: usize) -> Result<(SendEnd<M>, TakeEnd<M>), NoMemory>
    where
        M: Drop,
        requires { 0 < capacity }
        ensures link { IfOk result (λ ends. ends.0.link ≡ ends.1.link) }
        ensures capacity { IfOk result (λ ends. (ends.0.capacity ≡ capacity) × (ends.1.capacity ≡ capacity)) }
        ensures done { IfOk result (λ ends. (ends.0.done ≡ []) × (ends.1.done ≡ [])) }
        ensures known { IfOk result (λ ends. (ends.0.known ≡ []) × (ends.1.known ≡ [])) }
    {
        let room = Vec::with_capacity(alloc, capacity)?;
        let (line, mut hand) = Line::ruled(alloc, capacity)?;
        let taker = line.another::<Roles>(&mut hand);
        let Ok(line) = Arc::new(alloc, line) else {
            return Err(NoMemory);
        };
        let other = Arc::try_clone(&line)?;
        let send = SendEnd { line, hand };
        let take = TakeEnd {
            line: other,
            hand: taker,
            room,
        };
        Ok((send, take))
    }
}

impl<M: Drop> SendEnd<M> {
    /// Puts a message after those that were sent, and learns what was taken before it. `Full` comes only where the link was
    /// full at a moment since the last message that was sent.
    pub fn send<R: Wait>(&mut self, rt: &R, message: M) -> Result<(), Full<M>>
        ensures same { (self.new.link ≡ self.old.link) × (self.new.capacity ≡ self.old.capacity) }
        ensures sent { MatchResult result (λ _. self.new.done ≡ self.old.done ++ message ∷ [])
            (λ full. (full.message ≡ message) × (self.new.done ≡ self.old.done)) }
        ensures known { MatchResult result (λ _. IsSent self.old.known message self.new.known) (λ _. self.new.known ≡ self.old.known) }
        ensures full { IfErr result (λ _. WasFull self.old.capacity self.old.known) }
    {
        match self.line.push_as::<Sends, R>(rt, &mut self.hand, message) {
            Ok(()) => Ok(()),
            Err(message) => Err(Full { message }),
        }
    }
}

impl<M: Drop> TakeEnd<M> {
    /// The next message, with what was sent before it was taken. `None` comes only where the link was empty right after the
    /// last message that was taken.
    pub fn take<R: Wait>(&mut self, rt: &R) -> Option<M>
        ensures same { (self.new.link ≡ self.old.link) × (self.new.capacity ≡ self.old.capacity) }
        ensures taken { MatchOption result (self.new.done ≡ self.old.done) (λ message. self.new.done ≡ self.old.done ++ message ∷ []) }
        ensures known { MatchOption result (self.new.known ≡ self.old.known) (λ message. IsTaken self.old.known message self.new.known) }
        ensures none { IfNone result (WasEmpty self.old.known) }
    {
        self.line.pop_as::<Takes, R>(rt, &mut self.hand)
    }
}

/// Closes a link: what was sent is what was taken and then what is left, at most as much as the link holds. This takes no
/// memory.
pub fn close<M: Drop, R: Wait>(rt: &R, send: SendEnd<M>, take: TakeEnd<M>) -> Closed<M>
    requires { send.link ≡ take.link }
    ensures done { send.done ≡ take.done ++ result.left.items }
    ensures known { AllDone send.known take.known result.left.items }
    ensures few { length result.left.items ≤ send.capacity }
{
    let SendEnd { line, mut hand } = send;
    let TakeEnd {
        line: _,
        hand: taker,
        room,
    } = take;
    line.absorb::<Roles>(&mut hand, taker);
    let left = drain(rt, &line, hand, room);
    Closed { left }
}

/// All that the queue holds, put into `room`.
fn drain<M: Drop, R: Wait>(rt: &R, line: &Line<M>, mut hand: Hand<M>, mut room: Vec<M>) -> Vec<M>
    requires pass { IsPassOf line.now hand }
    requires both { ((view hand).sends ≡ true) × ((view hand).takes ≡ true) }
    requires empty { room.items ≡ [] }
    requires room { ruled_capacity line.now ≤ vec_capacity room }
    ensures done { sent_in (view hand).sender ≡ taken_in (view hand).taker ++ result.items }
    ensures known { AllDone (view hand).sender (view hand).taker result.items }
    ensures few { length result.items ≤ ruled_capacity line.now }
{
    let _count = line.len_as::<Drains, R>(rt, &mut hand);
    for _ in rt.forever() {
        let Some(message) = line.pop_as::<Drains, R>(rt, &mut hand) else {
            return room;
        };
        room.push_reserved(message);
    }
    unreachable!()
}
