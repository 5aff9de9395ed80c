ghost use Rattle.std.specs.Prelude.{◌≡◌, ◌<◌, true, length, IfOk, IfSome, List, ℕ, if◌then◌else◌};
ghost use Rattle.std.specs.List.{list_all};
ghost use Rattle.flow_filter.specs.Name.{has_twice, is_name, is_name_byte, place_of};

use basics::{Bytes, NoMemory, TryCopy};
use std::alloc::Global;
use std::collections::BTreeSet;
use std::marker::Model;

/// The greatest length of a name.
const LONGEST: usize = 16;

/// The name of an instance: 1 to 16 of `a` to `z` and `0` to `9`, which contracts see as their bytes.
#[derive(Debug, Drop)]
pub struct Name {
    bytes: Bytes,
}

impl Model for Name {
    ghost Value = { List ℕ };

    ghost view = { λ n. n.bytes };

    ghost invariant = { λ n. is_name n.bytes ≡ true };
}

impl Name {
    /// The name that the bytes spell, or `None` where they are no name.
    pub fn read(alloc: Global, bytes: &[u8]) -> Result<Option<Self>, NoMemory>
        ensures { IfOk result (λ found. found ≡ (if is_name bytes.now then Some bytes.now else None)) }
    {
        if is_name(bytes) {
            let bytes = Bytes::from_vec(bytes.to_vec(alloc)?);
            Ok(Some(Name { bytes }))
        } else {
            Ok(None)
        }
    }

    /// The bytes of the name.
    pub fn items(&self) -> &[u8]
        ensures bytes { result.now ≡ self.now }
        ensures name { is_name result.now ≡ true }
    {
        self.bytes.items()
    }
}

impl TryCopy for Name {
    fn copy(&self) -> Result<Self, NoMemory> {
        let bytes = self.bytes.copy()?;
        Ok(Name { bytes })
    }
}

/// Whether the bytes spell a name.
pub fn is_name(bytes: &[u8]) -> bool
    ensures { result ≡ is_name bytes.now }
{
    (1..=LONGEST).contains(&bytes.len()) && are_name_bytes(bytes)
}

/// Whether each byte may stand in a name.
fn are_name_bytes(bytes: &[u8]) -> bool
    ensures { result ≡ list_all is_name_byte bytes.now }
{
    bytes.iter().all(|byte| is_name_byte(*byte))
}

/// Whether a byte may stand in a name.
fn is_name_byte(byte: u8) -> bool
    ensures { result ≡ is_name_byte byte }
{
    byte.is_ascii_lowercase() || byte.is_ascii_digit()
}

/// Whether some name stands twice in the list.
pub fn has_twice(alloc: Global, names: &[Name]) -> Result<bool, NoMemory>
    ensures { IfOk result (λ found. found ≡ has_twice names.now) }
{
    let distinct: BTreeSet<&[u8]> = names.iter().map(|name| name.items()).collect(alloc)?;
    Ok(distinct.len() < names.len())
}

/// The place of the first of the names that has these bytes.
pub fn place_of(names: &[Name], bytes: &[u8]) -> Option<usize>
    ensures place { result ≡ place_of names.now bytes.now }
    ensures within { IfSome result (λ place. place < length names.now) }
{
    names.iter().position(|name| name.items() == bytes)
}
