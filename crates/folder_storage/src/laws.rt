//! What holds of the paths in a library's folder, by the definitions alone; and of a run over a disk that tells its calls.
ghost use Rattle.std.specs.Prelude.{◌≡◌, List, Option, Some, map, slice_index, ℕ, OnErr, OnOk};
ghost use Rattle.ids.specs.declared.key.Key.{Key};
ghost use Rattle.object_store.specs.declared.shelf.Slot.{Slot};
ghost use Rattle.object_store.specs.declared.shelf.Slot.TheVariants.{Object};
ghost use Rattle.folder_storage.specs.Durability.{AreAmong, AreInOrder, FailsAsDisk, IsInOrder, PutObject, with_steps};
ghost use Rattle.folder_storage.specs.Paths.{HasId, IsId, IsNamed, listed_text, other_digits, slot_text, under};
ghost use Rattle.folder_storage.specs.ToldDisk.{EndsAfter, EndsDurably, OnlyPuts, steps_of};

use crate::durability::Disk;
use crate::told_disk::ToldDisk;
use crate::unsynced::Unsynced;
use ids::Key;
use std::alloc::Global;
use std::io;

/// Two slots of a library have two paths.
pub fn two_slots_have_two_paths()
    ensures { (library : List ℕ) → (a b : Slot) → HasId a → HasId b → slot_text library a ≡ slot_text library b → a ≡ b }
{}

/// The path of an object's file is a name in the folder of its kind and first byte, and that name reads back as its id.
pub fn a_path_reads_back_as_its_id()
    ensures path { (library : List ℕ) → (key : Key)
        → slot_text library (Object key) ≡ under (listed_text library key.kind (slice_index key.id 0)) (other_digits key.id) }
    ensures value { (key : Key) → (found : Option (List ℕ)) → IsId key.id
        → IsNamed (slice_index key.id 0) (other_digits key.id) found → found ≡ Some key.id }
{}

/// Puts these objects, one after another, and then a state text, over a disk of which so many calls are done before each
/// fails. The text is put only after each object that was put, its folder, and that of its kind were synced; where one
/// could not be, no text is put. It is put, but where memory was wanting or so many calls were done.
pub fn objects_are_durable_before_a_text(
    alloc: Global,
    keys: &[Key],
    text: &[u8],
    left: u64,
) -> (ToldDisk, io::Result<()>)
    ensures value { EndsDurably keys.now text.now (steps_of result.0.done.items) result.1 }
    ensures cause { EndsAfter left (steps_of result.0.done.items) result.1 }
    ensures order { AreInOrder (λ due. ⊥) (steps_of result.0.done.items) }
{
    let mut disk = ToldDisk::new(alloc, left);
    let mut unsynced = Unsynced::new(alloc);
    if let Err(failure) = put_all(&mut unsynced, &mut disk, keys, &()) {
        return (disk, Err(failure));
    }
    let put = unsynced.put_text(alloc, &mut disk, text);
    (disk, put)
}

/// Puts objects that were written beside their slots, up to the first failure.
fn put_all<D: Disk>(
    unsynced: &mut Unsynced,
    disk: &mut D,
    keys: &[Key],
    way: &D::Way,
) -> io::Result<()>
    ensures ok { OnOk result (D.steps disk.new ≡ with_steps (D.steps disk.old) (map PutObject keys.now)) }
    ensures listed { OnOk result (AreAmong keys.now unsynced.new.keys.items) }
    ensures err { OnErr result (OnlyPuts (D.steps disk.old) (D.steps disk.new)) }
    ensures cause { FailsAsDisk D.ends disk.new result }
    ensures count { D.calls disk.new ≡ D.calls disk.old }
    ensures order { IsInOrder (D.steps disk.old) unsynced.old.keys.items → IsInOrder (D.steps disk.new) unsynced.new.keys.items }
{
    for key in keys {
        if let Err(failure) = unsynced.put_object(disk, key, b"", way) {
            return Err(failure);
        }
    }
    Ok(())
}
