ghost use Rattle.std.specs.Prelude.{◌≡◌, ℕ, ◌<◌, slice_index, max, replicate};
ghost use Rattle.nf_function.specs.Tally.{with_packet_counted, merged, MergeLaws};

/// How many instances a network may have.
pub const INSTANCES: usize = 16;

/// The state that belongs to all flows: how many packets each instance has processed.
#[derive(Clone, Copy, Debug, PartialEq, Eq)]
pub struct Tally {
    pub slots: [u64; 16],
}

impl Tally {
    /// No packet has been processed.
    pub fn zero() -> Self
        ensures { result.slots ≡ replicate INSTANCES 0 }
    {
        Tally { slots: [0; 16] }
    }

    /// Counts one packet for an instance. The count stays at its greatest number.
    pub fn count(&mut self, instance: u8)
        requires { instance < INSTANCES }
        ensures { self.new.slots ≡ with_packet_counted self.old.slots instance }
    {
        let slot = &mut self.slots[usize::from(instance)];
        *slot = slot.saturating_add(1);
    }

    /// Takes the greater of two counts in each slot.
    pub fn merge(&mut self, other: &Tally)
        ensures value { self.new.slots ≡ merged self.old.slots other.now.slots }
        ensures greater { (i : ℕ) → slice_index self.new.slots i ≡ max (slice_index self.old.slots i) (slice_index other.now.slots i) }
        ensures laws { MergeLaws }
    {
        for (instance, count) in other.slots.iter().enumerate() {
            let slot = &mut self.slots[instance];
            *slot = (*slot).max(*count);
        }
    }
}
