ghost use Rattle.std.specs.Prelude.{◌≡◌, ◌<◌};
ghost use Rattle.nf_function.specs.declared.tally.TheConstants.{INSTANCES};

use std::marker::Model;

/// The number of an instance, from 0, which contracts see as a number. Each tally has a slot for it.
#[derive(Debug, Drop)]
pub struct InstanceNumber {
    number: u8,
}

impl Model for InstanceNumber {
    ghost use Rattle.std.specs.Prelude.{ℕ, ◌<◌};
    ghost use Rattle.nf_function.specs.declared.tally.TheConstants.{INSTANCES};

    ghost Value = { ℕ };

    ghost view = { λ n. n.number };

    ghost invariant = { λ n. n.number < INSTANCES };
}

impl InstanceNumber {
    /// The number of an instance that may be there.
    pub fn new(number: u8) -> Self
        requires { number < INSTANCES }
        ensures { result ≡ number }
    {
        InstanceNumber { number }
    }

    /// The number.
    pub fn get(&self) -> u8
        ensures value { result ≡ self.now }
        ensures within { result < INSTANCES }
    {
        self.number
    }
}
