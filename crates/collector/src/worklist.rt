//! Keys that are met one after another, and opened in the same order.
ghost use Rattle.std.specs.Prelude.{◌≡◌, is_some, IfOk, OnErr, OnOk};
ghost use Rattle.std.specs.FinMap as map;

use ids::{Key, KeyList, KeyTable};
use std::alloc::{AllocError, Global};
use std::marker::Model;

/// Keys that were met, each once. Those before a place were opened; the others wait, in the order in which they were met.
///
/// Nothing is taken out: one list and one table, some 57 bytes a key, and 78 while the list grows beyond its room.
#[derive(Drop)]
pub(crate) struct Worklist {
    order: KeyList,
    met: KeyTable<()>,
    next: usize,
}

impl Model for Worklist {
    ghost use Rattle.std.specs.Prelude.{drop, take};
    ghost use Rattle.collector.specs.Worklist.{IsWorklist, WorklistView, worklist_code};

    ghost Value = { WorklistView };

    ghost coded = { worklist_code };

    ghost view = { λ a. record { opened = take a.next a.order; waiting = drop a.next a.order } };

    ghost invariant = { λ a. IsWorklist a.order a.met a.next };
}

impl Worklist {
    ghost use Rattle.std.specs.Prelude.{◌≡◌, ◌≢◌, ◌++◌, ◌==◌, [], length, IfOk, OnErr, OnOk};
    ghost use Rattle.object_graph.specs.Traversal.{distinct_from, is_in};
    ghost use Rattle.collector.specs.Worklist.{MeetsFront, Opens, all_met, first_of, no_keys, with_met};

    /// No key. It takes no memory.
    pub fn new(alloc: Global) -> Worklist
        ensures value { result ≡ no_keys }
    {
        Worklist {
            order: KeyList::new(alloc),
            met: KeyTable::new(alloc),
            next: 0,
        }
    }

    /// No key, with room for so many in the list.
    pub fn with_room(alloc: Global, room: usize) -> Result<Worklist, AllocError>
        ensures value { IfOk result (λ work. work ≡ no_keys) }
    {
        let order = Vec::with_capacity(alloc, room)?;
        Ok(Worklist::over(alloc, KeyList::from_vec(order)))
    }

    /// No key, over an empty list.
    fn over(alloc: Global, order: KeyList) -> Worklist
        requires none { order ≡ [] }
        ensures value { result ≡ no_keys }
    {
        Worklist {
            order,
            met: KeyTable::new(alloc),
            next: 0,
        }
    }

    /// Whether no key waits.
    pub fn is_done(&self) -> bool
        ensures value { result ≡ (length self.now.waiting == 0) }
    {
        match self.first() {
            Some(_) => false,
            None => true,
        }
    }

    /// The key that waits first, if one waits.
    pub fn first(&self) -> Option<Key>
        ensures value { result ≡ first_of self.now.waiting }
    {
        if self.next < self.order.len() {
            Some(self.order.slice()[self.next])
        } else {
            None
        }
    }

    /// Whether a key was met.
    pub fn has_met(&self, key: &Key) -> bool
        ensures value { result ≡ is_in (all_met self.now) key.now }
    {
        self.met.has(key)
    }

    /// Takes the key that waits first as opened. Where none waits nothing is changed.
    pub fn open(&mut self)
        ensures value { self.old.waiting ≢ [] → Opens self.old self.new }
    {
        if self.next >= self.order.len() {
            return;
        }
        self.next += 1;
    }

    /// Meets a key, which waits if it wasn't met before. After an error nothing is changed.
    pub fn meet(&mut self, key: &Key) -> Result<(), AllocError>
        ensures ok { OnOk result (self.new ≡ with_met self.old key.now) }
        ensures err { OnErr result (self.new ≡ self.old) }
    {
        let again = note(&mut self.met, key)?;
        if again {
            return Ok(());
        }
        match self.order.push(*key) {
            Ok(()) => Ok(()),
            Err(failed) => {
                // So the list and the table go on as one.
                self.met.remove(key);
                Err(failed)
            }
        }
    }

    /// Meets keys in their order. After an error the first ones of them were met.
    pub fn meet_all(&mut self, keys: &[Key]) -> Result<(), AllocError>
        ensures ok { OnOk result (self.new ≡ record self.old { waiting = self.old.waiting ++ distinct_from (all_met self.old) keys.now }) }
        ensures err { OnErr result (MeetsFront keys.now self.old self.new) }
    {
        for key in keys {
            self.meet(key)?;
        }
        Ok(())
    }

    /// The keys that were met, in the order in which they were. It takes no memory.
    pub fn keys(&self) -> &[Key]
        ensures value { result.now ≡ all_met self.now }
    {
        self.order.slice()
    }

    /// The keys that were met, in the order in which they were.
    pub fn into_keys(self) -> KeyList
        ensures value { result ≡ all_met self }
    {
        let Worklist {
            order,
            met: _,
            next: _,
        } = self;
        order
    }
}

/// Puts a key among those that were met, and tells whether it was there. After an error nothing is changed.
fn note(met: &mut KeyTable<()>, key: &Key) -> Result<bool, AllocError>
    ensures ok { OnOk result (met.new ≡ map.insert met.old key.now tt) }
    ensures told { IfOk result (λ again. again ≡ is_some (map.get met.old key.now)) }
    ensures err { OnErr result (met.new ≡ met.old) }
{
    let before = met.insert(*key, ())?;
    Ok(before.is_some())
}
