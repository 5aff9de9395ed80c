//! Remainders of words by small numbers, without a division.
ghost use Rattle.std.specs.Prelude.{◌≡◌, ◌<◌, ◌%◌, IfSome};

/// There is a share for each number below this one.
const SHARES: usize = 64;

/// The lower half of a product's bits is less than this.
const UPPER: u128 = 0x1_0000_0000_0000_0000;

/// How often each small number goes into the greatest word. It only leads to a quotient, which is looked at.
#[derive(Drop)]
pub(crate) struct Remainders {
    shares: [u64; SHARES],
}

impl Remainders {
    pub(crate) fn open() -> Self {
        let mut shares = [0u64; SHARES];
        for (number, share) in (0..SHARES as u64).zip(shares.iter_mut()) {
            *share = u64::MAX / number.max(1);
        }
        Remainders { shares }
    }

    /// The remainder of a word.
    #[inline(always)]
    pub(crate) fn of(&self, word: u64, number: u64) -> u64
        requires { 0 < number }
        ensures { result ≡ word % number }
    {
        if number as usize >= SHARES {
            return word % number;
        }
        match remainder_by(word, number, self.shares[number as usize]) {
            Some(remainder) => remainder,
            None => word % number,
        }
    }
}

/// The remainder of a word by a number with this share, where that leads to it. The quotient is right or one too small.
#[inline(always)]
fn remainder_by(word: u64, number: u64, share: u64) -> Option<u64>
    requires { 0 < number }
    ensures { IfSome result (λ remainder. remainder ≡ word % number) }
{
    let product = u128::from(word).wrapping_mul(u128::from(share));
    let quotient = u64::try_from(product / UPPER).ok()?;
    let whole = quotient.checked_mul(number)?;
    let left = word.checked_sub(whole)?;
    let remainder = less_once(left, number);
    if remainder < number {
        return Some(remainder);
    }
    None
}

/// The number taken off once, where that can be.
#[inline(always)]
fn less_once(left: u64, number: u64) -> u64
    requires { 0 < number }
    ensures { result % number ≡ left % number }
{
    if left >= number { left - number } else { left }
}
