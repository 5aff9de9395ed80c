ghost use Rattle.std.specs.Prelude.{◌≡◌, [], ◌∷◌, ◌++◌, length, drop, slice_get, OnOk, OnErr, IfOk, IfErr};

use basics::NoMemory;
use std::alloc::Global;
use std::collections::VecDeque;
use std::marker::Model;

/// The parcels of one operation in the order in which they came, which contracts see as their list.
#[derive(Debug, Drop)]
pub(crate) struct Queue<P> {
    parcels: VecDeque<P>,
}

impl<P> Model for Queue<P> {
    ghost use Rattle.std.specs.Prelude.{List};

    ghost Value = { List P };

    ghost view = { λ q. q.parcels.items };
}

impl<P> Queue<P> {
    /// A queue with one parcel, or the parcel back when out of memory.
    pub(crate) fn of(alloc: Global, parcel: P) -> Result<Self, (NoMemory, P)>
    where
        P: Drop,
        ensures ok { IfOk result (λ queue. queue ≡ parcel ∷ []) }
        ensures back { IfErr result (λ refused. refused.1 ≡ parcel) }
    {
        let mut queue = Queue {
            parcels: VecDeque::new(alloc),
        };
        queue.push(parcel)?;
        Ok(queue)
    }

    /// Puts a parcel after the others, or hands it back when out of memory.
    pub(crate) fn push(&mut self, parcel: P) -> Result<(), (NoMemory, P)>
        ensures ok { OnOk result (self.new ≡ self.old ++ parcel ∷ []) }
        ensures back { IfErr result (λ refused. refused.1 ≡ parcel) }
        ensures err { OnErr result (self.new ≡ self.old) }
    {
        self.parcels
            .push_back(parcel)
            .map_err(|failed| (NoMemory, failed.value))
    }

    /// Takes the first parcel.
    pub(crate) fn pop(&mut self) -> Option<P>
        ensures value { result ≡ slice_get self.old 0 }
        ensures rest { self.new ≡ drop 1 self.old }
    {
        self.parcels.pop_front()
    }

    /// How many parcels there are.
    pub(crate) fn len(&self) -> usize
        ensures { result ≡ length self.now }
    {
        self.parcels.len()
    }

    /// The parcels in order, without a copy.
    pub(crate) fn into_vec(self) -> Vec<P>
        ensures { result.items ≡ self }
    {
        self.parcels.into_vec()
    }
}
