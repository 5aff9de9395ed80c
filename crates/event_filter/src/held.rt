ghost use Rattle.std.specs.Prelude.{◌≡◌, [], ◌∷◌, ◌++◌, OnOk, OnErr, IfErr};

use basics::NoMemory;
use std::alloc::Global;
use std::marker::Model;

/// Parcels in the order in which they came, which contracts see as their list.
#[derive(Debug, Drop)]
pub struct Held<P> {
    parcels: Vec<P>,
}

impl<P> Model for Held<P> {
    ghost use Rattle.std.specs.Prelude.{List};

    ghost Value = { List P };

    ghost view = { λ h. h.parcels.items };
}

impl<P> Held<P> {
    /// Nothing is held yet. This takes no memory.
    pub fn open(alloc: Global) -> Self
        ensures { result ≡ [] }
    {
        Held {
            parcels: Vec::new(alloc),
        }
    }

    /// Puts a parcel after the others, or hands it back when out of memory.
    pub fn push(&mut self, parcel: P) -> Result<(), (NoMemory, P)>
        ensures ok { OnOk result (self.new ≡ self.old ++ parcel ∷ []) }
        ensures back { IfErr result (λ refused. refused.1 ≡ parcel) }
        ensures err { OnErr result (self.new ≡ self.old) }
    {
        self.parcels
            .push(parcel)
            .map_err(|failed| (NoMemory, failed.value))
    }

    /// The parcels, as a slice.
    pub fn items(&self) -> &[P]
        ensures { result.now ≡ self.now }
    {
        self.parcels.as_slice()
    }

    /// The parcels in order, without a copy.
    pub fn into_vec(self) -> Vec<P>
        ensures { result.items ≡ self }
    {
        let Held { parcels } = self;
        parcels
    }
}
