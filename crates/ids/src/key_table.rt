//! A map by key, seen by contracts as a finite map.
ghost use Rattle.std.specs.Prelude.{◌≡◌, ◌++◌, ◌∷◌, [], OnOk, OnErr, IfOk, is_some, option_copied, Some, None};
ghost use Rattle.std.specs.BTreeMap as tree;
ghost use Rattle.std.specs.FinMap as map;
ghost use Rattle.std.specs.Map.{keys_of};
ghost use Rattle.ids.specs.Key.{key_cmp};
ghost use Rattle.ids.specs.declared.key.Key.{Key};
ghost use Rattle.ids.specs.MapView.{IsNext, map_of};

use crate::key::Key;
use std::alloc::{AllocError, Global};
use std::collections::BTreeMap;
use std::collections::btree_map::Iter;
use std::marker::Model;
use std::ops::Bound;

/// A map from keys to values, in the order of the keys. Contracts see it as a finite map.
#[derive(Debug, Drop)]
pub struct KeyTable<V> {
    held: BTreeMap<Key, V>,
}

impl<V> Model for KeyTable<V> {
    ghost use Rattle.std.specs.FinMap as map;
    ghost use Rattle.ids.specs.Key.{key_cmp};
    ghost use Rattle.ids.specs.MapView.{map_of};
    ghost use Rattle.ids.specs.contracts.key.Key as key_contracts;

    ghost Value = { map.FinMap key_cmp V };

    ghost coded = { map.code key_contracts.the_row.coded V.code };

    ghost view = { λ a. map_of key_cmp a.held };
}

impl<V> KeyTable<V> {
    /// The empty map. It takes no memory.
    pub fn new(alloc: Global) -> Self
        ensures value { result ≡ map.empty }
    {
        KeyTable {
            held: BTreeMap::new(alloc),
        }
    }

    /// The number of keys.
    pub fn len(&self) -> usize
        ensures value { result ≡ map.len self.now }
    {
        self.held.len()
    }

    /// The value at the key, if it has one.
    pub fn get(&self, key: &Key) -> Option<&V>
        ensures value { option_copied result ≡ map.get self.now key.now }
    {
        self.held.get(key)
    }

    /// Whether the key has a value.
    pub fn has(&self, key: &Key) -> bool
        ensures value { result ≡ is_some (map.get self.now key.now) }
    {
        self.held.contains_key(key)
    }

    /// The keys with their values, in order.
    pub fn iter(&self) -> Iter<'_, Key, V>
        ensures value { result ≡ map.entries self.now }
    {
        self.held.iter()
    }

    /// The keys alone, in a table of their own.
    pub fn keys(&self, alloc: Global) -> Result<KeyTable<()>, AllocError>
        ensures value { IfOk result (λ keys. (key : Key) → is_some (map.get keys key) ≡ is_some (map.get self.now key)) }
    {
        let pairs = bare_keys(alloc, &self.held)?;
        let held = built(alloc, pairs)?;
        Ok(KeyTable { held })
    }

    /// The least key above `after`, or the least of all.
    pub fn next(&self, after: Option<Key>) -> Option<Key>
        ensures value { IsNext self.now after result }
    {
        match after {
            Some(after) => next_above(&self.held, after),
            None => first(&self.held),
        }
    }
}

impl<V: Drop> KeyTable<V> {
    /// Puts the value at the key, and gives the value that stood there. After an error the map is as it was, and the new
    /// value is let go.
    pub fn insert(&mut self, key: Key, value: V) -> Result<Option<V>, AllocError>
        ensures ok { OnOk result (self.new ≡ map.insert self.old key value) }
        ensures told { IfOk result (λ before. before ≡ map.get self.old key) }
        ensures err { OnErr result (self.new ≡ self.old) }
    {
        let before = match self.held.insert(key, value) {
            Ok(before) => before,
            Err(failed) => return Err(failed.into()),
        };
        Ok(before)
    }

    /// Puts the value at the key, and lets go what stood there. After an error the map is as it was.
    pub fn put(&mut self, key: Key, value: V) -> Result<(), AllocError>
        ensures ok { OnOk result (self.new ≡ map.insert self.old key value) }
        ensures err { OnErr result (self.new ≡ self.old) }
    {
        match self.insert(key, value) {
            Ok(_) => Ok(()),
            Err(failed) => Err(failed),
        }
    }

    /// Takes the value at the key out of the map.
    pub fn remove(&mut self, key: &Key) -> Option<V>
        ensures value { result ≡ map.get self.old key.now }
        ensures stays { self.new ≡ map.remove self.old key.now }
    {
        self.held.remove(key)
    }
}

/// The least key above one.
fn next_above<V>(held: &BTreeMap<Key, V>, after: Key) -> Option<Key>
    ensures value { IsNext (map_of key_cmp held.now) (Some after) result }
{
    match held
        .range((Bound::Excluded(after), Bound::Unbounded))
        .next()
    {
        Some((key, _)) => Some(*key),
        None => None,
    }
}

/// The least key.
fn first<V>(held: &BTreeMap<Key, V>) -> Option<Key>
    ensures value { IsNext (map_of key_cmp held.now) None result }
{
    match held.first_key_value() {
        Some((key, _)) => Some(*key),
        None => None,
    }
}

/// The keys of a map in order, each with nothing.
fn bare_keys<V>(alloc: Global, held: &BTreeMap<Key, V>) -> Result<Vec<(Key, ())>, AllocError>
    ensures value { IfOk result (λ pairs. keys_of pairs.items ≡ tree.keys held.now) }
{
    let mut pairs = Vec::with_capacity(alloc, held.len())?;
    for key in held.keys() {
        push_bare(&mut pairs, key)?;
    }
    Ok(pairs)
}

/// Appends a key with nothing.
fn push_bare(pairs: &mut Vec<(Key, ())>, key: &Key) -> Result<(), AllocError>
    ensures value { OnOk result (pairs.new.items ≡ pairs.old.items ++ (key.now, tt) ∷ []) }
{
    pairs.push((*key, ()))?;
    Ok(())
}

/// The map of pairs. Where they are in order it is built without a search, and its nodes are full.
fn built(alloc: Global, pairs: Vec<(Key, ())>) -> Result<BTreeMap<Key, ()>, AllocError>
    ensures value { IfOk result (tree.IsFromIterResult key_cmp pairs.items) }
{
    BTreeMap::from_iter(alloc, pairs)
}
