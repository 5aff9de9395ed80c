//! The index of a map: where the entries of keys stand, by their hashes.
ghost use Rattle.std.specs.Prelude.{◌≡◌, ℕ, true, false, ◌+◌, ◌<◌, ◌≤◌, [], ◌∷◌, ◌++◌, length, vec_len, None, IfSome, IfNone, IfOk, OnOk, OnErr, filter};
ghost use Rattle.std.specs.Map.{lookup, keys_of};
ghost use Rattle.unit_map.specs.Entries.{IsMap, is_place_of, record_of, has_record};
ghost use Rattle.unit_map.specs.Notes.{KeyRules, EntryNote, key_rules, hash_of, tag_of, start_of, has_key, IsNoted};
ghost use Rattle.unit_map.specs.Soundness.{AreNoted, IsSound};

use basics::NoMemory;
use std::alloc::Global;
use std::collections::BTreeMap;
use std::hash::{FoldHasher, Hash, Hasher};

/// How many slots are looked at for a key.
pub const PROBES: usize = 8;

/// The most entries that a map has: their numbers, from 1 on, are of four bytes.
pub const MOST_ENTRIES: usize = 0xffff_fffe;

/// Notes the number of an entry, counted from 1, and a part of its key's hash. A free slot has the number 0.
#[derive(Clone, Copy)]
pub struct Slot {
    tag: u32,
    number: u32,
}

/// A slot that notes no entry.
const FREE: Slot = Slot { tag: 0, number: 0 };

/// Where the entries of keys are. What it gives for a key may be out of date, and is looked at before it is believed.
#[derive(Drop)]
pub struct Index<K: Ord> {
    /// A key's number is noted in the first free slot of its probes.
    slots: Vec<Slot>,
    /// The numbers of keys whose probes found no free slot.
    spill: BTreeMap<K, u32>,
    /// How many more entries are noted before the index is made anew.
    room: usize,
}

impl<K: Ord + Hash + Copy> Index<K> {
    /// An index that notes nothing and has no slots. This takes no memory.
    pub fn open(alloc: Global) -> Self {
        Index {
            slots: Vec::new(alloc),
            spill: BTreeMap::new(alloc),
            room: 0,
        }
    }

    /// The place in `entries` of the entry that has the key, if its number is noted.
    #[inline(always)]
    pub fn find<V>(&self, entries: &[(K, V)], key: &K) -> Option<usize>
        ensures found { IfSome result (λ place. is_place_of K.eq entries.now place key.now ≡ true) }
        ensures absent { IfNone result ((n : ℕ) → IsNoted (key_rules K.eq K.cmp K.hash_input) self.now (record { key = key.now; number = n })
            → has_key K.eq entries.now n key.now ≡ false) }
    {
        if entries.len() == 1 {
            return only_place(entries, key);
        }
        self.find_by_hash(entries, key)
    }

    /// The place of the key's entry, by the hash of the key.
    #[inline(always)]
    fn find_by_hash<V>(&self, entries: &[(K, V)], key: &K) -> Option<usize>
        ensures found { IfSome result (λ place. is_place_of K.eq entries.now place key.now ≡ true) }
        ensures absent { IfNone result ((n : ℕ) → IsNoted (key_rules K.eq K.cmp K.hash_input) self.now (record { key = key.now; number = n })
            → has_key K.eq entries.now n key.now ≡ false) }
    {
        if self.slots.len() < PROBES {
            return None;
        }
        let hash = hash_of(key);
        let tag = tag_of(hash);
        let start = start_of(hash, self.slots.len());
        for step in 0..PROBES {
            let slot = self.slots[start + step];
            if slot.number == 0 {
                return None;
            }
            if slot.tag == tag && has_key(entries, slot.number, key) {
                return Some(slot.number as usize - 1);
            }
        }
        match self.spill.get(key) {
            Some(number) if has_key(entries, *number, key) => Some(*number as usize - 1),
            _ => None,
        }
    }

    /// The place of a key's entry, which is added without a record where the key has none. Other entries stay where they are.
    #[inline(always)]
    pub fn place_in<R: Drop>(
        &mut self,
        entries: &mut Vec<(K, Option<R>)>,
        key: K,
    ) -> Result<usize, NoMemory>
        requires room { PROBES ≤ vec_len self.old.slots }
        requires sound { IsSound (key_rules K.eq K.cmp K.hash_input) self.old entries.old.items }
        ensures room { PROBES ≤ vec_len self.new.slots }
        ensures sound { IsSound (key_rules K.eq K.cmp K.hash_input) self.new entries.new.items }
        ensures found { IfOk result (λ place. is_place_of K.eq entries.new.items place key ≡ true) }
        ensures stays { (place : ℕ) (k : K) → is_place_of K.eq entries.old.items place k ≡ true → is_place_of K.eq entries.new.items place k ≡ true }
        ensures same { (k : K) → record_of K.eq entries.new.items k ≡ record_of K.eq entries.old.items k }
    {
        match self.find(entries, &key) {
            Some(place) => Ok(place),
            None => self.add(entries, key),
        }
    }

    /// Adds an entry without a record, for a key that has no entry, and gives its place.
    #[inline(always)]
    pub fn add<R: Drop>(
        &mut self,
        entries: &mut Vec<(K, Option<R>)>,
        key: K,
    ) -> Result<usize, NoMemory>
        requires room { PROBES ≤ vec_len self.old.slots }
        requires sound { IsSound (key_rules K.eq K.cmp K.hash_input) self.old entries.old.items }
        requires absent { lookup (K.eq key) entries.old.items ≡ None }
        ensures room { PROBES ≤ vec_len self.new.slots }
        ensures sound { IsSound (key_rules K.eq K.cmp K.hash_input) self.new entries.new.items }
        ensures place { IfOk result (λ place. place ≡ length entries.old.items) }
        ensures ok { OnOk result (entries.new.items ≡ entries.old.items ++ (key, None) ∷ []) }
        ensures err { OnErr result (entries.new.items ≡ entries.old.items) }
    {
        let place = entries.len();
        if place >= MOST_ENTRIES {
            return Err(NoMemory);
        }
        self.note(key, place as u32 + 1)?;
        entries.push((key, None))?;
        Ok(place)
    }

    /// Makes the index anew where there is no room for some more entries, and then drops the entries without a record.
    pub fn make_room<R: Drop>(
        &mut self,
        entries: &mut Vec<(K, Option<R>)>,
        more: usize,
    ) -> Result<(), NoMemory>
        requires { IsSound (key_rules K.eq K.cmp K.hash_input) self.old entries.old.items }
        ensures room { OnOk result (PROBES ≤ vec_len self.new.slots) }
        ensures sound { IsSound (key_rules K.eq K.cmp K.hash_input) self.new entries.new.items }
        ensures same { (k : K) → record_of K.eq entries.new.items k ≡ record_of K.eq entries.old.items k }
        ensures absent { (k : K) → lookup (K.eq k) entries.old.items ≡ None → lookup (K.eq k) entries.new.items ≡ None }
        ensures err { OnErr result (entries.new.items ≡ entries.old.items) }
    {
        if self.slots.len() >= PROBES && more <= self.room {
            return Ok(());
        }
        self.renew(entries, more)
    }

    /// Makes the index anew, with room for some more entries, and then drops the entries without a record.
    pub fn renew<R: Drop>(
        &mut self,
        entries: &mut Vec<(K, Option<R>)>,
        more: usize,
    ) -> Result<(), NoMemory>
        requires { IsSound (key_rules K.eq K.cmp K.hash_input) self.old entries.old.items }
        ensures room { OnOk result (PROBES ≤ vec_len self.new.slots) }
        ensures sound { IsSound (key_rules K.eq K.cmp K.hash_input) self.new entries.new.items }
        ensures same { (k : K) → record_of K.eq entries.new.items k ≡ record_of K.eq entries.old.items k }
        ensures absent { (k : K) → lookup (K.eq k) entries.old.items ≡ None → lookup (K.eq k) entries.new.items ≡ None }
        ensures err { OnErr result (entries.new.items ≡ entries.old.items) }
    {
        let index = Index::of(*entries.allocator(), entries, more)?;
        entries.retain(|entry| entry.1.is_some());
        *self = index;
        Ok(())
    }

    /// An index with room for some more entries, which notes each entry that has a record, counted among these.
    fn of<R>(alloc: Global, entries: &[(K, Option<R>)], more: usize) -> Result<Self, NoMemory>
        requires { IsMap K.eq entries.now }
        ensures room { IfOk result (λ index. PROBES ≤ vec_len index.slots) }
        ensures noted { IfOk result (λ index. AreNoted (key_rules K.eq K.cmp K.hash_input) index (keys_of (filter has_record entries.now))) }
    {
        let with_records = entries.iter().filter(|entry| entry.1.is_some()).count();
        let mut index = Index::with_slots(alloc, with_records.saturating_add(more))?;
        let mut number = 0;
        for entry in entries {
            if entry.1.is_none() {
                continue;
            }
            number += 1;
            index.note(entry.0, number)?;
        }
        Ok(index)
    }

    /// An index that notes nothing, with slots for the numbers of some entries.
    fn with_slots(alloc: Global, entries: usize) -> Result<Self, NoMemory>
        ensures { IfOk result (λ index. PROBES ≤ vec_len index.slots) }
    {
        if entries > MOST_ENTRIES {
            return Err(NoMemory);
        }
        let count = slot_count(entries);
        let mut slots = Vec::new(alloc);
        slots.resize(count, FREE)?;
        Ok(Index {
            slots,
            spill: BTreeMap::new(alloc),
            room: count / 2,
        })
    }

    /// Notes the number of a key's entry, in the first free slot of the key's probes, or in the tree.
    #[inline(always)]
    fn note(&mut self, key: K, number: u32) -> Result<(), NoMemory>
        requires room { PROBES ≤ vec_len self.old.slots }
        requires counted { 0 < number }
        ensures room { PROBES ≤ vec_len self.new.slots }
        ensures noted { OnOk result (IsNoted (key_rules K.eq K.cmp K.hash_input) self.new (record { key = key; number = number })) }
        ensures others { (note : EntryNote K) → K.eq key note.key ≡ false → IsNoted (key_rules K.eq K.cmp K.hash_input) self.old note
            → IsNoted (key_rules K.eq K.cmp K.hash_input) self.new note }
    {
        self.room = self.room.saturating_sub(1);
        let hash = hash_of(&key);
        let start = start_of(hash, self.slots.len());
        for step in 0..PROBES {
            if self.slots[start + step].number == 0 {
                self.slots[start + step] = Slot {
                    tag: tag_of(hash),
                    number,
                };
                return Ok(());
            }
        }
        self.spill.insert(key, number)?;
        Ok(())
    }
}

/// The place of the one entry, if it has the key.
#[inline(always)]
fn only_place<K: PartialEq, V>(entries: &[(K, V)], key: &K) -> Option<usize>
    requires { length entries.now ≡ 1 }
    ensures found { IfSome result (λ place. is_place_of K.eq entries.now place key.now ≡ true) }
    ensures absent { IfNone result ((n : ℕ) → has_key K.eq entries.now n key.now ≡ false) }
{
    if has_key(entries, 1, key) {
        Some(0)
    } else {
        None
    }
}

/// Whether the entry of a number has the key.
#[inline(always)]
fn has_key<K: PartialEq, V>(entries: &[(K, V)], number: u32, key: &K) -> bool
    ensures { result ≡ has_key K.eq entries.now number key.now }
{
    if number == 0 {
        return false;
    }
    match entries.get(number as usize - 1) {
        Some(entry) => *key == entry.0,
        None => false,
    }
}

/// What a key is found by: its hash.
#[tactic(auto, unfolding(crate::specs::Notes::hash_of))]
fn hash_of<K: Hash>(key: &K) -> u64
    ensures { result ≡ hash_of K.hash_input key.now }
{
    let mut hasher = FoldHasher::default();
    key.hash(&mut hasher);
    hasher.finish()
}

/// The part of a hash that its slot tells.
#[tactic(auto, unfolding(crate::specs::Notes::tag_of))]
fn tag_of(hash: u64) -> u32
    ensures { result ≡ tag_of hash }
{
    (hash >> 32) as u32
}

/// Where the probes of a hash begin.
#[tactic(auto, unfolding(crate::specs::Notes::start_of), using(std::proofs::lemmas::Nat::and_le_r))]
fn start_of(hash: u64, slots: usize) -> usize
    requires { PROBES ≤ slots }
    ensures value { result ≡ start_of slots hash }
    ensures within { result + PROBES ≤ slots }
{
    hash as usize & (slots - PROBES)
}

/// The number of slots for some entries: a power of two that is three times as large at least, and the probes less one.
///
/// An index has room for half as many entries. So one that is made anew has twice the slots of the last, and room for half as many
/// entries again at least.
fn slot_count(entries: usize) -> usize
    requires { entries ≤ MOST_ENTRIES }
    ensures { PROBES ≤ result }
{
    (3 * entries).next_power_of_two().max(16) + (PROBES - 1)
}
