//! The objects that were put and not made durable, and the state text that waits for them. Definitions:
//! specs/Durability.antt.
ghost use Rattle.std.specs.Prelude.{◌≡◌, ◌⊎◌, ◌+◌, ◌≤◌, [], ◌∷◌, OnErr, OnOk, is_ok, vec_capacity, vec_len};
ghost use Rattle.std.specs.List.{Any, Contains};
ghost use Rattle.std.specs.declared.cmp.Ordering.TheVariants.{Equal};
ghost use Rattle.folder_storage.specs.Durability.{AreAmong, BeginsSyncs, FailsAsDisk, In, IsInOrder, PutObject, PutsDurably, PutsOrStays, StopsBefore, with_steps};

use crate::durability::{Disk, make_durable};
use ids::Key;
use std::alloc::{AllocError, Global};
use std::io;

/// The objects that were put and not made durable: those of this run, and of earlier ones once they were sought.
#[derive(Drop)]
pub(crate) struct Unsynced {
    keys: Vec<Key>,
}

impl Unsynced {
    /// No objects.
    pub(crate) fn new(alloc: Global) -> Unsynced
        ensures value { result.keys.items ≡ [] }
    {
        Unsynced {
            keys: Vec::new(alloc),
        }
    }

    /// Makes room to note one object more.
    pub(crate) fn make_room(&mut self) -> Result<(), AllocError>
        ensures ok { OnOk result (vec_len self.new.keys + 1 ≤ vec_capacity self.new.keys) }
        ensures stays { self.new.keys.items ≡ self.old.keys.items }
    {
        self.keys.reserve(1)
    }

    /// Notes an object, and puts it, which was written beside its slot. After a failure it may be there.
    pub(crate) fn put_object<D: Disk>(
        &mut self,
        disk: &mut D,
        key: &Key,
        bytes: &[u8],
        way: &D::Way,
    ) -> io::Result<()>
        ensures ok { OnOk result (D.steps disk.new ≡ with_steps (D.steps disk.old) (PutObject key.now ∷ [])) }
        ensures err { OnErr result ((D.steps disk.new ≡ D.steps disk.old)
            ⊎ (D.steps disk.new ≡ with_steps (D.steps disk.old) (PutObject key.now ∷ []))) }
        ensures found { OnOk result (In key.now self.new.keys.items) }
        ensures listed { AreAmong self.old.keys.items self.new.keys.items }
        ensures after { PutsOrStays (D.puts key.now bytes.now) (is_ok result) disk.old disk.new }
        ensures cause { FailsAsDisk D.ends disk.new result }
        ensures count { D.calls disk.new ≡ D.calls disk.old }
        ensures order { IsInOrder (D.steps disk.old) self.old.keys.items → IsInOrder (D.steps disk.new) self.new.keys.items }
    {
        if let Err(failure) = note(&mut self.keys, key) {
            return Err(io::Error::from(failure));
        }
        disk.put_object(key, bytes, way)
    }

    /// Puts a state text, after every object that was put before it, by whichever run, and every folder that names one, was
    /// made durable, and the disk was told so. Then the list is empty. Where one could not be, it has every object that it
    /// had.
    pub(crate) fn put_text<D: Disk>(
        &mut self,
        alloc: Global,
        disk: &mut D,
        text: &[u8],
    ) -> io::Result<()>
        ensures value { PutsDurably (D.steps disk.old) (D.steps disk.new) self.old.keys.items self.new.keys.items text.now result }
        ensures items { OnOk result (self.new.keys.items ≡ []) }
        ensures cause { FailsAsDisk D.ends disk.new result }
        ensures count { D.calls disk.new ≡ D.calls disk.old }
        ensures order { IsInOrder (D.steps disk.old) self.old.keys.items → IsInOrder (D.steps disk.new) self.new.keys.items }
    {
        if let Err(failure) = self.gather(disk) {
            return Err(failure);
        }
        let synced = make_durable(alloc, disk, self.keys.as_slice());
        disk.end_syncs(synced.is_ok());
        if let Err(failure) = synced {
            return Err(failure);
        }
        self.keys.clear();
        disk.put_text(text)
    }

    /// Adds what earlier runs put, and readies the disk for the syncs.
    fn gather<D: Disk>(&mut self, disk: &mut D) -> io::Result<()>
        ensures listed { AreAmong self.old.keys.items self.new.keys.items }
        ensures ok { OnOk result (BeginsSyncs (D.steps disk.old) (D.steps disk.new) self.old.keys.items self.new.keys.items) }
        ensures err { OnErr result (StopsBefore (D.steps disk.old) (D.steps disk.new) self.old.keys.items self.new.keys.items) }
        ensures cause { FailsAsDisk D.ends disk.new result }
        ensures count { D.calls disk.new ≡ D.calls disk.old }
    {
        if let Err(failure) = disk.gather(&mut self.keys) {
            return Err(failure);
        }
        if let Err(failure) = order(&mut self.keys) {
            return Err(io::Error::from(failure));
        }
        disk.begin_syncs(self.keys.as_slice())
    }
}

/// Adds a key to a list.
pub(crate) fn note(keys: &mut Vec<Key>, key: &Key) -> Result<(), AllocError>
    ensures found { OnOk result (In key.now keys.new.items) }
    ensures listed { AreAmong keys.old.items keys.new.items }
{
    keys.push(*key)?;
    Ok(())
}

/// Sorts keys, and leaves each once.
fn order(keys: &mut Vec<Key>) -> Result<(), AllocError>
    ensures listed { AreAmong keys.old.items keys.new.items }
{
    sort_once(keys)
}

/// Sorts a list, and leaves one of those that are alike.
fn sort_once<K: Ord + Drop>(keys: &mut Vec<K>) -> Result<(), AllocError>
    ensures ok { OnOk result ((key : K) → Contains keys.old.items key → Any (λ other. K.cmp key other ≡ Equal) keys.new.items) }
    ensures err { OnErr result (keys.new.items ≡ keys.old.items) }
{
    keys.sort()?;
    keys.dedup();
    Ok(())
}
