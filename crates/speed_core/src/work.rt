//! The work on one packet: rounds that mix the bits of a number, each of which waits for the one before.
ghost use Rattle.std.specs.Prelude.{◌≡◌};
ghost use Rattle.speed_core.specs.Work.{scrambled};

/// So many rounds from a number on.
pub fn scramble(rounds: u32, seed: u64) -> u64
    ensures { result ≡ scrambled rounds seed }
{
    let mut value = seed;
    for _round in 0..rounds {
        value = (value ^ value / UPPER).wrapping_mul(FACTOR);
    }
    value
}

/// The upper half of a number's bits is the number divided by this one.
pub const UPPER: u64 = 4_294_967_296;

/// The factor of one round of work, which is that of Knuth's generator MMIX.
pub const FACTOR: u64 = 6_364_136_223_846_793_005;
