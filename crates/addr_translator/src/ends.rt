//! Ends of TCP and UDP that were seen, a bit for each. To see one more takes one step, whichever ends they are, and no memory.
ghost use Rattle.std.specs.Prelude.{◌≡◌, ◌<◌, true, false, not};
ghost use Rattle.addr_translator.specs.declared.mapping.Mapping.{Mapping};
ghost use Rattle.addr_translator.specs.Body.{is_mapping};
ghost use Rattle.addr_translator.specs.Ends.{number_of, has_end, IsAdded};

use crate::mapping::Mapping;
use flow_filter::UDP;

/// A protocol's ports.
const PORTS: usize = 65536;

/// How many words the bits of both protocols take.
const WORDS: usize = 2048;

/// The ends that were seen.
#[derive(Drop)]
pub struct Ends {
    words: [u64; WORDS],
}

impl Ends {
    /// None was seen.
    pub fn none() -> Self
        ensures { (end : Mapping) → is_mapping end ≡ true → has_end result.words end ≡ false }
    {
        Ends { words: [0; WORDS] }
    }

    /// Sees an end, and tells whether it is new.
    pub fn see(&mut self, end: Mapping) -> bool
        requires { is_mapping end ≡ true }
        ensures fresh { result ≡ not (has_end self.old.words end) }
        ensures added { IsAdded end self.old.words self.new.words }
    {
        let number = number_of(end);
        let (place, bit) = (number / 64, 1u64 << (number % 64));
        let word = self.words[place];
        self.words[place] = word | bit;
        word & bit == 0
    }
}

/// The number of an end: those of UDP come after those of TCP.
fn number_of(end: Mapping) -> usize
    requires { is_mapping end ≡ true }
    ensures value { result ≡ number_of end }
    ensures small { result < 131072 }
{
    let port = usize::from(end.port);
    if end.proto == UDP { PORTS + port } else { port }
}
