//! A collection that runs.
use collector::{Marks, Phase};
use ids::{Key, KeyList, KeyTable};
use object_store::CallCount;
use std::alloc::{AllocError, Global};
use std::marker::Model;

/// A collection that runs: its marks, the keys that were put or told present since it began, and the count of its turns.
///
/// Contracts see what it is for the library: its fresh keys, which are shielded, and its counts.
#[derive(Drop)]
pub(crate) struct Collection {
    pub marks: Marks,
    pub fresh: KeyTable<()>,
    pub stored: u64,
    /// How many of its turns were not refused.
    pub turned: CallCount,
}

impl Model for Collection {
    ghost use Rattle.depot.specs.DepotView.{CollectionView, collection_code, fresh_in};

    ghost Value = { CollectionView };

    ghost coded = { collection_code };

    ghost view = { λ a. record { marks = a.marks; running = record { fresh = fresh_in a.fresh; stored = a.stored; turned = a.turned.count } } };
}

impl Collection {
    ghost use Rattle.std.specs.Prelude.{◌≡◌, ◌&&◌, ◌||◌, ◌∷◌, [], not, IfOk, OnErr, OnOk};
    ghost use Rattle.std.specs.FinSet as set;
    ghost use Rattle.ids.specs.declared.key.Key.{Key};
    ghost use Rattle.object_graph.specs.Traversal.{is_in};
    ghost use Rattle.collector.specs.Marks.{AreMarks, phase_of};
    ghost use Rattle.collector.specs.Opened.{HaveOpened};
    ghost use Rattle.depot.specs.Fresh.{AreNew, FreshensNone, FreshensOne, HasFresh, counted_turn};
    ghost use Rattle.depot.specs.Telling.{HasCount};

    /// A collection that begins with these marks, over so many objects. No key is fresh.
    pub fn begin(alloc: Global, marks: Marks, stored: u64) -> Collection
        ensures value { result ≡ record { marks = marks; running = record { fresh = set.empty; stored = stored; turned = 0 } } }
    {
        Collection {
            marks,
            fresh: KeyTable::new(alloc),
            stored,
            turned: CallCount::new(),
        }
    }

    /// What is due.
    pub fn phase(&self) -> Phase
        ensures value { result ≡ phase_of self.now.marks }
        ensures good { AreMarks self.now.marks }
        ensures read { HaveOpened self.now.marks }
    {
        self.marks.phase()
    }

    /// Counts a turn that was not refused.
    pub fn count_turn(&mut self)
        ensures value { self.new ≡ counted_turn self.old }
    {
        self.turned = self.turned.one_more();
    }

    /// How many keys are fresh.
    pub fn fresh_count(&self) -> usize
        ensures value { HasCount self.now.running.fresh result }
    {
        self.fresh.len()
    }

    /// Takes the keys as fresh, and gives those that weren't. They are not shielded yet. After an error nothing is changed.
    pub fn freshen(&mut self, alloc: Global, keys: &[Key]) -> Result<KeyList, AllocError>
        ensures ok { OnOk result (HasFresh (λ key. set.contains self.old.running.fresh key || is_in keys.now key) self.old self.new) }
        ensures new { IfOk result (AreNew keys.now self.old.running.fresh) }
        ensures err { OnErr result (HasFresh (λ key. set.contains self.old.running.fresh key) self.old self.new) }
    {
        let mut listed = KeyList::new(alloc);
        for key in keys {
            match self.freshen_one(&mut listed, key) {
                Ok(()) => {}
                Err(failed) => {
                    self.stale(listed.slice());
                    return Err(failed);
                }
            }
        }
        Ok(listed)
    }

    /// The same of one key, which is listed if it wasn't fresh. After an error it may be listed, and is not fresh.
    fn freshen_one(&mut self, listed: &mut KeyList, key: &Key) -> Result<(), AllocError>
        ensures ok { OnOk result (FreshensOne key.now self.old self.new listed.old listed.new) }
        ensures err { OnErr result (FreshensNone self.old self.new listed.old listed.new) }
    {
        if self.fresh.has(key) {
            return Ok(());
        }
        listed.push(*key)?;
        self.fresh.put(*key, ())
    }

    /// Takes keys back that are not to be fresh. It takes no memory.
    pub fn stale(&mut self, keys: &[Key])
        ensures value { HasFresh (λ key. set.contains self.old.running.fresh key && not (is_in keys.now key)) self.old self.new }
    {
        for key in keys {
            self.stale_one(key);
        }
    }

    /// The same of one key.
    pub fn stale_one(&mut self, key: &Key)
        ensures value { HasFresh (λ k. set.contains self.old.running.fresh k && not (is_in (key.now ∷ []) k)) self.old self.new }
    {
        self.fresh.remove(key);
    }
}
