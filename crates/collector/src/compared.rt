//! One tree beside an older one: what was found of it, and what the older one is known to need.
use crate::worklist::Worklist;
use ids::{Key, KeyList, KeyTable, ObjId};
use std::alloc::{AllocError, Global};
use std::marker::Model;

/// What was found below a root that isn't known to be below an older one.
///
/// `found` was met; of what waits of it, `beside` has the object that stands in the older tree at the same path, where one
/// does. `spared` is what the objects of the older tree that were opened name.
#[derive(Drop)]
pub(crate) struct Compared {
    found: Worklist,
    spared: KeyTable<()>,
    beside: KeyTable<ObjId>,
}

impl Model for Compared {
    ghost use Rattle.collector.specs.Compared.{ComparedView, compared_code};

    ghost Value = { ComparedView };

    ghost coded = { compared_code };

    ghost view = { λ a. record { opened = a.found.opened; waiting = a.found.waiting; spared = a.spared; beside = a.beside } };
}

impl Compared {
    ghost use Rattle.std.specs.Prelude.{◌≡◌, ◌≢◌, ◌++◌, ◌∷◌, [], OnErr, OnOk};
    ghost use Rattle.std.specs.FinMap as map;
    ghost use Rattle.collector.specs.Compared.{Finds, FindsSome, OpensFirst, Spares, SparesSome, is_spared, nothing_compared, with_found, with_spared};
    ghost use Rattle.collector.specs.Worklist.{first_of};

    /// Nothing. It takes no memory.
    pub fn new(alloc: Global) -> Compared
        ensures value { result ≡ nothing_compared }
    {
        Compared {
            found: Worklist::new(alloc),
            spared: KeyTable::new(alloc),
            beside: KeyTable::new(alloc),
        }
    }

    /// The key that waits first, if one waits.
    pub fn first(&self) -> Option<Key>
        ensures value { result ≡ first_of self.now.waiting }
    {
        self.found.first()
    }

    /// Takes the key that waits first as opened.
    pub fn open(&mut self)
        ensures value { self.old.waiting ≢ [] → OpensFirst self.old self.new }
    {
        self.found.open();
    }

    /// Whether a key is spared.
    pub fn is_spared(&self, key: &Key) -> bool
        ensures value { result ≡ is_spared self.now key.now }
    {
        self.spared.has(key)
    }

    /// Meets a key, which waits if it wasn't met before. After an error nothing is changed.
    pub fn meet(&mut self, key: &Key) -> Result<(), AllocError>
        ensures ok { OnOk result (self.new ≡ with_found self.old key.now) }
        ensures err { OnErr result (self.new ≡ self.old) }
    {
        self.found.meet(key)?;
        Ok(())
    }

    /// Spares a key. After an error nothing is changed.
    pub fn spare_one(&mut self, key: Key) -> Result<(), AllocError>
        ensures ok { OnOk result (self.new ≡ with_spared self.old key) }
        ensures err { OnErr result (self.new ≡ self.old) }
    {
        self.spared.put(key, ())?;
        Ok(())
    }

    /// Places an object beside a key. After an error nothing is changed.
    pub fn place(&mut self, key: Key, id: ObjId) -> Result<(), AllocError>
        ensures ok { OnOk result (self.new ≡ record self.old { beside = map.insert self.old.beside key id }) }
        ensures err { OnErr result (self.new ≡ self.old) }
    {
        self.beside.put(key, id)?;
        Ok(())
    }

    /// Takes what stands beside a key.
    pub fn take_beside(&mut self, key: &Key) -> Option<ObjId>
        ensures value { result ≡ map.get self.old.beside key.now }
        ensures stays { self.new ≡ record self.old { beside = map.remove self.old.beside key.now } }
    {
        self.beside.remove(key)
    }

    /// Spares keys. After an error some of them are.
    pub fn spare(&mut self, keys: &[Key]) -> Result<(), AllocError>
        ensures ok { OnOk result (Spares keys.now self.old self.new) }
        ensures err { OnErr result (SparesSome keys.now self.old self.new) }
    {
        for key in keys {
            self.spare_one(*key)?;
        }
        Ok(())
    }

    /// Meets those of the keys that aren't spared. After an error the first ones of them were met.
    pub fn find(&mut self, keys: &[Key]) -> Result<(), AllocError>
        ensures ok { OnOk result (Finds keys.now self.old self.new) }
        ensures err { OnErr result (FindsSome keys.now self.old self.new) }
    {
        for key in keys {
            self.find_one(key)?;
        }
        Ok(())
    }

    /// Meets a key if it isn't spared. After an error nothing is changed.
    fn find_one(&mut self, key: &Key) -> Result<(), AllocError>
        ensures ok { OnOk result (Finds (key.now ∷ []) self.old self.new) }
        ensures err { OnErr result (self.new ≡ self.old) }
    {
        if self.spared.has(key) {
            return Ok(());
        }
        self.found.meet(key)?;
        Ok(())
    }

    /// The keys that were found.
    pub fn into_keys(self) -> KeyList
        ensures value { result ≡ self.opened ++ self.waiting }
    {
        let Compared {
            found,
            spared: _,
            beside: _,
        } = self;
        found.into_keys()
    }
}
