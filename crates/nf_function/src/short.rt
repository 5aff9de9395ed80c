//! A record's body that is held as the numbers that it spells.
ghost use Rattle.std.specs.Prelude.{◌≡◌, ◌++◌, ◌∷◌, [], length, IfOk, OnOk};
ghost use Rattle.nf_function.specs.Stored.{number_bytes};
ghost use Rattle.nf_function.specs.Short.{short_bytes, short_in, some_number_bytes, some_number_in};

use crate::stored::{first_byte, first_u64, push_u64};
use basics::{Bytes, NoMemory};
use std::alloc::Global;

/// How many bytes a body has whose last number is 0.
const FRONT: u16 = 18;

/// How many bytes a body has whose last number isn't 0.
const LONGEST: u16 = 26;

/// A body of two bytes, two numbers of eight bytes, and a third of these where it isn't 0.
#[derive(Clone, Copy, Debug, PartialEq, Eq)]
pub struct ShortBody {
    pub third: u64,
    pub fourth: u64,
    /// The number that is left out where it is 0.
    pub last: u64,
    pub first: u8,
    pub second: u8,
}

impl ShortBody {
    /// How many bytes it has.
    #[tactic(auto, unfolding(crate::specs::Short::short_bytes, crate::specs::Stored::number_bytes))]
    pub fn length(&self) -> u16
        ensures { result ≡ length (short_bytes self.now) }
    {
        if self.last == 0 { FRONT } else { LONGEST }
    }

    /// Its bytes, in one allocation.
    pub fn bytes(&self, alloc: Global) -> Result<Bytes, NoMemory>
        ensures { IfOk result (λ bytes. bytes ≡ short_bytes self.now) }
    {
        let room = usize::from(self.length());
        let mut bytes = Bytes::from_vec(Vec::with_capacity(alloc, room)?);
        self.push_to(&mut bytes)?;
        Ok(bytes)
    }

    /// Puts its bytes after others. After a refusal a part of them may stand there.
    #[tactic(auto, unfolding(crate::specs::Short::short_bytes))]
    pub fn push_to(&self, bytes: &mut Bytes) -> Result<(), NoMemory>
        ensures { OnOk result (bytes.new ≡ bytes.old ++ short_bytes self.now) }
    {
        bytes.push_bytes(&self.front())?;
        push_some_number(bytes, self.last)
    }

    /// What stands before the last number.
    #[tactic(auto, unfolding(crate::specs::Stored::number_bytes))]
    fn front(&self) -> [u8; 18]
        ensures { result ≡ (self.now.first ∷ self.now.second ∷ []) ++ number_bytes 8 self.now.third ++ number_bytes 8 self.now.fourth }
    {
        let [c, c_2, c_3, c_4, c_5, c_6, c_7, c_8] = self.third.to_be_bytes();
        let [d, d_2, d_3, d_4, d_5, d_6, d_7, d_8] = self.fourth.to_be_bytes();
        [
            self.first,
            self.second,
            c,
            c_2,
            c_3,
            c_4,
            c_5,
            c_6,
            c_7,
            c_8,
            d,
            d_2,
            d_3,
            d_4,
            d_5,
            d_6,
            d_7,
            d_8,
        ]
    }

    /// The body that the bytes spell.
    #[tactic(auto, unfolding(crate::specs::Short::short_in))]
    pub fn read(bytes: &[u8]) -> Option<Self>
        ensures { result ≡ short_in bytes.now }
    {
        let (first, rest) = first_byte(bytes)?;
        let (second, rest) = first_byte(rest)?;
        let (third, rest) = first_u64(rest)?;
        let (fourth, rest) = first_u64(rest)?;
        let last = some_number_in(rest)?;
        Some(ShortBody {
            third,
            fourth,
            last,
            first,
            second,
        })
    }
}

/// Puts a number that isn't 0 after other bytes.
fn push_some_number(bytes: &mut Bytes, number: u64) -> Result<(), NoMemory>
    ensures { OnOk result (bytes.new ≡ bytes.old ++ some_number_bytes number) }
{
    if number == 0 {
        return Ok(());
    }
    push_u64(bytes, number)
}

/// The number that the bytes spell: 0 where there are none, or one that isn't 0 and all of them.
#[tactic(auto, unfolding(crate::specs::Short::some_number_in))]
fn some_number_in(bytes: &[u8]) -> Option<u64>
    ensures { result ≡ some_number_in bytes.now }
{
    if bytes.is_empty() {
        return Some(0);
    }
    match first_u64(bytes)? {
        (0, _) => None,
        (number, []) => Some(number),
        _ => None,
    }
}
