//! A worker's way in from one node, and its way out to one.
ghost use Rattle.std.specs.Prelude.{◌≡◌, ◌<◌, ◌≤◌, ℕ, List, [], ◌∷◌, ◌++◌, OnOk, IfOk, IfNone, MatchOption, true};
ghost use Rattle.actor_net.specs.Histories.{messages};
ghost use Rattle.actor_threads.specs.Ways.{Draws, IsBlocked, with_stamp_0, unpacked, last_clock};
ghost use Rattle.actor_net.specs.declared.stamped.Stamped.{Stamped};

use actor_net::{Link, Stamped};
use basics::{NoMemory, Sequence};
use fifo_link::{Full, SendEnd, TakeEnd};
use std::alloc::Global;
use std::marker::Model;
use std::mem;
use std::sync::Wait;

/// Messages that are handed over at once. Two processors hand a part of their memory to each other for each message that is
/// handed over by itself, and wait for it.
pub type Batch<M> = Sequence<Stamped<M>>;

/// What comes from one node: first what was kept from the start of the round, then what the take end gives.
#[derive(Drop)]
pub struct WayIn<M> {
    end: TakeEnd<Batch<M>>,
    kept: Link<M>,
    /// What is left of the batch that was taken last. A message whose step would have no clock stays there.
    batch: Link<Stamped<M>>,
}

impl<M> Model for WayIn<M> {
    ghost use Rattle.actor_threads.specs.Ways.{Incoming};

    ghost Value = { Incoming M };

    ghost use Rattle.actor_threads.specs.WayFields.{incoming};

    ghost view = { incoming };
}

impl<M: Drop> WayIn<M> {
    /// The way with what is kept from before the round.
    pub fn open(alloc: Global, end: TakeEnd<Batch<M>>, kept: Link<M>) -> Self
        ensures { result ≡ record { link = end.link; done = unpacked end.done; kept = with_stamp_0 kept } }
    {
        WayIn {
            end,
            kept,
            batch: Link::open(alloc),
        }
    }

    /// The first of what is kept, if a step could take it.
    #[inline(always)]
    pub fn first(&self) -> Option<&M>
        ensures { MatchOption result (IsBlocked self.now)
            (λ x. (clock : ℕ) × (rest : List (Stamped M)) × (self.now.kept ≡ record { clock = clock; message = x.now } ∷ rest)) }
    {
        if let Some(message) = self.kept.first() {
            return Some(message);
        }
        match self.batch.first() {
            Some(next) if next.clock < u64::MAX => Some(&next.message),
            _ => None,
        }
    }

    /// Whether something is kept from the start of the round.
    pub fn keeps(&self) -> bool {
        !self.kept.is_empty()
    }

    /// The next of what is kept, taken out.
    #[inline(always)]
    pub fn next_kept(&mut self) -> Option<Stamped<M>>
        ensures some { MatchOption result (self.new ≡ self.old) (λ x. (x.clock < last_clock) × (self.old.kept ≡ x ∷ self.new.kept)) }
        ensures none { IfNone result (IsBlocked self.old) }
        ensures same { (self.new.link ≡ self.old.link) × (self.new.done ≡ self.old.done) }
    {
        match self.kept.pop() {
            Some(message) => Some(Stamped { clock: 0, message }),
            None => next_of(&mut self.batch),
        }
    }

    /// The next message: of what is kept, or where nothing is, of the take end. The room of a batch that is used up goes to
    /// `rooms`.
    #[inline(always)]
    pub fn next_taken<R: Wait>(&mut self, rt: &R, rooms: &mut Rooms<M>) -> Option<Stamped<M>>
        ensures { MatchOption result (Draws self.old self.new []) (λ x. (x.clock < last_clock) × Draws self.old self.new (x ∷ [])) }
    {
        if self.is_used_up() {
            self.next_of_end(rt, rooms)
        } else {
            self.next_kept()
        }
    }

    /// Whether nothing is kept.
    #[inline(always)]
    fn is_used_up(&self) -> bool
        ensures { result ≡ true → self.now.kept ≡ [] }
    {
        self.batch.is_empty() && self.kept.is_empty()
    }

    /// The first message of the next batch.
    #[inline(never)]
    fn next_of_end<R: Wait>(&mut self, rt: &R, rooms: &mut Rooms<M>) -> Option<Stamped<M>>
        requires { self.old.kept ≡ [] }
        ensures { MatchOption result (Draws self.old self.new []) (λ x. (x.clock < last_clock) × Draws self.old self.new (x ∷ [])) }
    {
        let Some(batch) = self.end.take(rt) else {
            return None;
        };
        let used = mem::replace(&mut self.batch, Link::from_vec(batch.into_vec()));
        rooms.keep(used.into_vec());
        next_of(&mut self.batch)
    }

    /// The take end, what is kept from the start of the round, and what is left of a batch.
    pub fn parts(self) -> (TakeEnd<Batch<M>>, Link<M>, Vec<Stamped<M>>)
        ensures end { (result.0.link ≡ self.link) × (unpacked result.0.done ≡ self.done) }
        ensures kept { self.kept ≡ with_stamp_0 result.1 ++ result.2.items }
    {
        (self.end, self.kept, self.batch.into_vec())
    }
}

/// Puts messages without their stamps after others.
pub fn append<M: Drop>(list: &mut Link<M>, more: Vec<Stamped<M>>) -> Result<(), NoMemory>
    ensures { OnOk result (list.new ≡ list.old ++ messages more.items) }
{
    for next in more {
        list.push(next.message)?;
    }
    Ok(())
}

/// The next message of a batch. One with the last clock stays there.
#[inline(always)]
fn next_of<M: Drop>(batch: &mut Link<Stamped<M>>) -> Option<Stamped<M>>
    ensures some { MatchOption result (batch.new ≡ batch.old) (λ x. (x.clock < last_clock) × (batch.old ≡ x ∷ batch.new)) }
    ensures none { IfNone result ((x : Stamped M) (rest : List (Stamped M)) → batch.old ≡ x ∷ rest → last_clock ≤ x.clock) }
{
    match batch.first() {
        Some(next) if next.clock < u64::MAX => batch.pop(),
        _ => None,
    }
}

/// A batch that isn't sent at the end of a turn has so many messages.
pub const BURST: usize = 32;

/// What goes to one node: what was sent, and then what waits to be sent.
#[derive(Drop)]
pub struct WayOut<M> {
    end: SendEnd<Batch<M>>,
    waiting: Vec<Stamped<M>>,
}

impl<M> Model for WayOut<M> {
    ghost use Rattle.actor_threads.specs.Ways.{Outgoing};

    ghost Value = { Outgoing M };

    ghost use Rattle.actor_threads.specs.WayFields.{outgoing};

    ghost view = { outgoing };
}

impl<M: Drop> WayOut<M> {
    /// The way with nothing waiting.
    pub fn open(alloc: Global, end: SendEnd<Batch<M>>) -> Self
        ensures { result ≡ record { link = end.link; all = unpacked end.done } }
    {
        WayOut {
            end,
            waiting: Vec::new(alloc),
        }
    }

    /// Puts a message after those that wait, and sends these as soon as there are [`BURST`] of them. Where there is no room for
    /// it, that of `rooms` is used.
    #[inline(always)]
    pub fn push<R: Wait>(
        &mut self,
        rt: &R,
        rooms: &mut Rooms<M>,
        message: Stamped<M>,
    ) -> Result<(), NoMemory>
        ensures ok { OnOk result (self.new.all ≡ self.old.all ++ message ∷ []) }
        ensures same { self.new.link ≡ self.old.link }
    {
        if self.waiting.is_empty() {
            self.find_room(rooms)?;
        }
        self.waiting.push(message)?;
        self.flush_burst(rt);
        Ok(())
    }

    /// Finds room for a burst, where nothing waits.
    #[inline(never)]
    fn find_room(&mut self, rooms: &mut Rooms<M>) -> Result<(), NoMemory>
        ensures { self.new ≡ self.old }
    {
        if self.waiting.capacity() == 0 {
            if let Some(room) = rooms.take() {
                self.use_room(room);
            }
        }
        self.waiting.reserve(BURST)
    }

    /// Uses an empty room for what is still to come, where nothing waits.
    fn use_room(&mut self, room: Vec<Stamped<M>>)
        ensures { self.new ≡ self.old }
    {
        if self.waiting.is_empty() && room.is_empty() {
            self.waiting = room;
        }
    }

    /// Sends what waits, where that is a burst.
    #[inline(always)]
    fn flush_burst<R: Wait>(&mut self, rt: &R)
        ensures { self.new ≡ self.old }
    {
        if self.waiting.len() % BURST == 0 {
            self.flush(rt);
        }
    }

    /// Whether something waits.
    #[inline(always)]
    pub fn waits(&self) -> bool {
        !self.waiting.is_empty()
    }

    /// The send end, and what waits.
    pub fn parts(self) -> (SendEnd<Batch<M>>, Vec<Stamped<M>>)
        ensures end { result.0.link ≡ self.link }
        ensures all { self.all ≡ unpacked result.0.done ++ result.1.items }
    {
        (self.end, self.waiting)
    }

    /// Sends what waits, if the link has room.
    #[inline(never)]
    pub fn flush<R: Wait>(&mut self, rt: &R)
        ensures { self.new ≡ self.old }
    {
        if self.waiting.is_empty() {
            return;
        }
        let none = Vec::new(*self.waiting.allocator());
        let batch = Sequence::from_vec(mem::replace(&mut self.waiting, none));
        if let Err(Full { message }) = self.end.send(rt, batch) {
            self.waiting = message.into_vec();
        }
    }
}

/// So many rooms of batches are kept at most.
const MOST_ROOMS: usize = 64;

/// Rooms of batches that are used up, for batches that are still to be sent. So most batches take no memory, and no thread
/// waits for another one that gives memory back.
#[derive(Drop)]
pub struct Rooms<M> {
    all: Vec<Vec<Stamped<M>>>,
}

impl<M: Drop> Rooms<M> {
    /// No room.
    pub fn open(alloc: Global) -> Self {
        Rooms {
            all: Vec::new(alloc),
        }
    }

    /// Keeps a room, as far as there is memory for that.
    fn keep(&mut self, room: Vec<Stamped<M>>) {
        if self.all.len() < MOST_ROOMS && room.capacity() > 0 {
            let _kept = self.all.push(room);
        }
    }

    /// Gives a room that was kept, where there is one.
    fn take(&mut self) -> Option<Vec<Stamped<M>>> {
        self.all.pop()
    }
}
