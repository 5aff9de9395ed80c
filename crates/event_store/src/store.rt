//! Parcels that operations keep for later, a queue for each.
ghost use Rattle.std.specs.Prelude.{◌≡◌, ◌==◌, ℕ, if◌then◌else◌, [], ◌∷◌, ◌++◌, length, drop, min, slice_get, OnOk, OnErr, IfErr};
ghost use Rattle.std.specs.FinMap as map;
ghost use Rattle.event_store.specs.Store.{stored_of, with_parcels};
ghost use Rattle.event_store.specs.Queues.{queued};

use crate::queue::Queue;
use basics::NoMemory;
use std::alloc::Global;
use std::collections::BTreeMap;
use std::collections::btree_map::Entry;
use std::marker::Model;

/// The parcels of each operation, in the order in which they came.
#[derive(Debug, Drop)]
pub struct EventStore<P> {
    /// A queue that was emptied stays for its operation's next parcel.
    queues: BTreeMap<u32, Queue<P>>,
    alloc: Global,
}

impl<P> Model for EventStore<P> {
    ghost use Rattle.std.specs.Prelude.{List, ℕ};
    ghost use Rattle.std.specs.Ordering.{nat_cmp};
    ghost use Rattle.std.specs.FinMap as map;
    ghost use Rattle.std.specs.Coded.{coded_ℕ, coded_list};
    ghost use Rattle.event_store.specs.Queues.{store_of};

    ghost Value = { map.FinMap nat_cmp (List P) };

    ghost coded = { map.code coded_ℕ (coded_list P.code) };

    ghost view = { λ s. store_of s.queues.entries };
}

impl<P> EventStore<P> {
    /// No parcels yet. This takes no memory.
    pub fn open(alloc: Global) -> Self
        ensures { result ≡ map.empty }
    {
        EventStore {
            queues: BTreeMap::new(alloc),
            alloc,
        }
    }

    /// Puts a parcel after the others of its operation, or hands it back when out of memory.
    pub fn put(&mut self, op: u32, parcel: P) -> Result<(), (NoMemory, P)>
    where
        P: Drop,
        ensures store { OnOk result (self.new ≡ with_parcels self.old op (stored_of self.old op ++ parcel ∷ [])) }
        ensures each { OnOk result ((q : ℕ) → stored_of self.new q ≡ (if q == op
            then stored_of self.old q ++ parcel ∷ [] else stored_of self.old q)) }
        ensures back { IfErr result (λ refused. refused.1 ≡ parcel) }
        ensures err { OnErr result (self.new ≡ self.old) }
    {
        push(&mut self.queues, self.alloc, op, parcel)
    }

    /// Takes the first parcel of an operation.
    pub fn first(&mut self, op: u32) -> Option<P>
        ensures value { result ≡ slice_get (stored_of self.old op) 0 }
        ensures store { self.new ≡ with_parcels self.old op (drop 1 (stored_of self.old op)) }
        ensures each { (q : ℕ) → stored_of self.new q ≡ (if q == op then drop 1 (stored_of self.old q) else stored_of self.old q) }
    {
        pop(&mut self.queues, op)
    }

    /// Takes all parcels of an operation, in order. This takes no memory.
    pub fn drain(&mut self, op: u32) -> Vec<P>
        ensures parcels { result.items ≡ stored_of self.old op }
        ensures store { self.new ≡ with_parcels self.old op [] }
        ensures each { (q : ℕ) → stored_of self.new q ≡ (if q == op then [] else stored_of self.old q) }
    {
        drain(&mut self.queues, self.alloc, op)
    }

    /// How many parcels an operation has. The number stays at its greatest.
    pub fn len(&self, op: u32) -> u32
        ensures { result ≡ min (length (stored_of self.now op)) u32.MAX }
    {
        u32::try_from(count(&self.queues, op)).unwrap_or(u32::MAX)
    }
}

/// Puts a parcel into an operation's queue, which is made where there is none.
fn push<P>(
    queues: &mut BTreeMap<u32, Queue<P>>,
    alloc: Global,
    op: u32,
    parcel: P,
) -> Result<(), (NoMemory, P)>
where
    P: Drop,
    ensures ok { OnOk result ((q : ℕ) → queued queues.new q ≡ (if q == op
        then queued queues.old q ++ parcel ∷ [] else queued queues.old q)) }
    ensures back { IfErr result (λ refused. refused.1 ≡ parcel) }
    ensures err { OnErr result ((q : ℕ) → queued queues.new q ≡ queued queues.old q) }
{
    match queues.entry(op) {
        Ok(Entry::Occupied(mut queue)) => queue.get_mut().push(parcel),
        Ok(Entry::Vacant(place)) => {
            place.insert(Queue::of(alloc, parcel)?);
            Ok(())
        }
        Err(_full) => Err((NoMemory, parcel)),
    }
}

/// Takes the first parcel of an operation's queue.
fn pop<P>(queues: &mut BTreeMap<u32, Queue<P>>, op: u32) -> Option<P>
    ensures value { result ≡ slice_get (queued queues.old op) 0 }
    ensures each { (q : ℕ) → queued queues.new q ≡ (if q == op then drop 1 (queued queues.old q) else queued queues.old q) }
{
    queues.get_mut(&op)?.pop()
}

/// Takes an operation's queue, and gives its parcels in order.
fn drain<P>(queues: &mut BTreeMap<u32, Queue<P>>, alloc: Global, op: u32) -> Vec<P>
    ensures parcels { result.items ≡ queued queues.old op }
    ensures each { (q : ℕ) → queued queues.new q ≡ (if q == op then [] else queued queues.old q) }
{
    match queues.remove(&op) {
        Some(queue) => queue.into_vec(),
        None => Vec::new(alloc),
    }
}

/// How many parcels an operation's queue has.
fn count<P>(queues: &BTreeMap<u32, Queue<P>>, op: u32) -> usize
    ensures { result ≡ length (queued queues.now op) }
{
    match queues.get(&op) {
        Some(queue) => queue.len(),
        None => 0,
    }
}
