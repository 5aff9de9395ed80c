//! The map itself.
ghost use Rattle.std.specs.Prelude.{◌≡◌, true, ◌<◌, [], length, Option, Some, None, IfSome, IfNone, IfOk, OnOk, OnErr};
ghost use Rattle.std.specs.Borrow.{sem};
ghost use Rattle.std.specs.List.{AllZip};
ghost use Rattle.std.specs.Map.{lookup, update, keys_of};
ghost use Rattle.std.specs.Option.{option_copied};
ghost use Rattle.unit_map.specs.Entries.{IsMap, is_place_of, record_at, record_of};

use crate::index::Index;
use basics::NoMemory;
use std::alloc::Global;
use std::hash::Hash;
use std::marker::Model;

/// A map from keys to records, which contracts see as its entries: each key stands once, with its record, or with none where
/// the record has left. An entry's place is its number from 0, and is good until the next call that may add one.
#[derive(Drop)]
pub struct UnitMap<K: Ord + Hash + Copy, R> {
    entries: Vec<(K, Option<R>)>,
    index: Index<K>,
}

impl<K: Ord + Hash + Copy, R> Model for UnitMap<K, R> {
    ghost use Rattle.unit_map.specs.Entries.{Entries};
    ghost use Rattle.unit_map.specs.Notes.{key_rules};
    ghost use Rattle.unit_map.specs.Soundness.{IsSound};

    ghost Value = { Entries K R };

    ghost view = { λ m. m.entries.items };

    ghost invariant = { λ m. IsSound (key_rules K.eq K.cmp K.hash_input) m.index m.entries.items };
}

impl<K: Ord + Hash + Copy, R: Drop> UnitMap<K, R> {
    ghost use Rattle.unit_map.specs.Lending.{LendsRecord};

    /// A map without entries. This takes no memory.
    pub fn open(alloc: Global) -> Self
        ensures { result ≡ [] }
    {
        UnitMap {
            entries: Vec::new(alloc),
            index: Index::open(alloc),
        }
    }

    /// All entries, in no order that a caller may rely on.
    pub fn entries(&self) -> &[(K, Option<R>)]
        ensures all { result.now ≡ self.now }
        ensures map { IsMap K.eq self.now }
    {
        &self.entries
    }

    /// All entries, without a copy.
    pub fn into_entries(self) -> Vec<(K, Option<R>)>
        ensures all { result.items ≡ self }
        ensures map { IsMap K.eq self }
    {
        self.entries
    }

    /// Makes room for some more entries, so that the index isn't made anew for each few of them. No key's record changes.
    pub fn reserve(&mut self, more: usize) -> Result<(), NoMemory>
        ensures same { (k : K) → record_of K.eq self.new k ≡ record_of K.eq self.old k }
        ensures map { IsMap K.eq self.new }
    {
        self.index.make_room(&mut self.entries, more)
    }

    /// Drops the entries without a record, in time in proportion to all entries. No key's record changes, also where memory runs out.
    pub fn drop_empty(&mut self) -> Result<(), NoMemory>
        ensures same { (k : K) → record_of K.eq self.new k ≡ record_of K.eq self.old k }
        ensures map { IsMap K.eq self.new }
    {
        self.index.renew(&mut self.entries, 0)
    }

    /// The record of a key.
    pub fn get(&self, key: &K) -> Option<&R>
        ensures { option_copied result ≡ record_of K.eq self.now key.now }
    {
        let place = self.place_of(key)?;
        self.entries[place].1.as_ref()
    }

    /// Where the entry of a key stands.
    #[inline(always)]
    pub fn place_of(&self, key: &K) -> Option<usize>
        ensures found { IfSome result (λ place. is_place_of K.eq self.now place key.now ≡ true) }
        ensures within { IfSome result (λ place. place < length self.now) }
        ensures absent { IfNone result (lookup (K.eq key.now) self.now ≡ None) }
        ensures map { IsMap K.eq self.now }
    {
        self.index.find(&self.entries, key)
    }

    /// The place of a key's entry, which is added without a record where the key has none. No key's record changes.
    #[inline(always)]
    pub fn place(&mut self, key: K) -> Result<usize, NoMemory>
        ensures found { IfOk result (λ place. is_place_of K.eq self.new place key ≡ true) }
        ensures within { IfOk result (λ place. place < length self.new) }
        ensures same { (k : K) → record_of K.eq self.new k ≡ record_of K.eq self.old k }
        ensures map { IsMap K.eq self.new }
    {
        if let Some(place) = self.place_of(&key) {
            return Ok(place);
        }
        self.index.make_room(&mut self.entries, 1)?;
        self.index.add(&mut self.entries, key)
    }

    /// The places of the entries of the keys that some items have, which are added without a record where keys have none. No
    /// key's record changes.
    pub fn places<V>(&mut self, items: &[(K, V)]) -> Result<Vec<usize>, NoMemory>
        ensures found { IfOk result (λ places. AllZip (λ k place. is_place_of K.eq self.new place k ≡ true) (keys_of items.now) places.items) }
        ensures same { (k : K) → record_of K.eq self.new k ≡ record_of K.eq self.old k }
        ensures map { IsMap K.eq self.new }
    {
        let mut places = Vec::with_capacity(*self.entries.allocator(), items.len())?;
        self.index.make_room(&mut self.entries, items.len())?;
        for item in items {
            let place = self.index.place_in(&mut self.entries, item.0)?;
            places.push(place)?;
        }
        Ok(places)
    }

    /// The record in the entry at a place, to be read, written, put in or taken out where it stands.
    #[inline(always)]
    pub fn record_mut(&mut self, place: usize) -> &mut Option<R>
        requires { place < length self.old }
        ensures* writes_back { sem 𝓛 (LendsRecord K.row R.row K.Ord K.Hash self.entry place result) }
        ensures value { result.now ≡ record_at self.old place }
        ensures map { IsMap K.eq self.old }
    {
        let entry = &mut self.entries[place];
        &mut entry.1
    }

    /// Takes the record of a key out.
    pub fn take(&mut self, key: &K) -> Option<R>
        ensures was { result ≡ record_of K.eq self.old key.now }
        ensures gone { (k : K) → record_of K.eq self.new k ≡ update K.eq (record_of K.eq self.old) key.now None k }
        ensures map { IsMap K.eq self.new }
    {
        let place = self.place_of(key)?;
        self.record_mut(place).take()
    }

    /// Puts a record in for a key, and gives the one that it had.
    pub fn insert(&mut self, key: K, value: R) -> Result<Option<R>, NoMemory>
        ensures was { IfOk result (λ old. old ≡ record_of K.eq self.old key) }
        ensures updates { OnOk result ((k : K) → record_of K.eq self.new k ≡ update K.eq (record_of K.eq self.old) key (Some value) k) }
        ensures err { OnErr result ((k : K) → record_of K.eq self.new k ≡ record_of K.eq self.old k) }
        ensures map { IsMap K.eq self.new }
    {
        let place = self.place(key)?;
        Ok(self.record_mut(place).replace(value))
    }
}
