//! What a store reads from its shelf, and how it is judged.
ghost use Rattle.std.specs.Prelude.{◌≡◌};
ghost use Rattle.object_store.specs.Steps.{FetchesWhole, PutsStored, fault_of, judged, other_name};
ghost use Rattle.object_store.specs.Store.{CountsShelf, name_refusal};
ghost use Rattle.object_store.specs.StoreView.{ReadsShelf};

use crate::error::StoreFault;
use crate::put::Put;
use crate::shelf::{Shelf, ShelfFailed, Slot};
use ids::{Bytes, Key, Kind, ObjId};

/// The fault that a failure of the shelf is.
pub(crate) fn fault_of(failed: ShelfFailed) -> StoreFault
    ensures value { result ≡ fault_of failed }
{
    match failed {
        ShelfFailed::Shelf => StoreFault::Shelf,
        ShelfFailed::NoMemory => StoreFault::NoMemory,
    }
}

/// The name of the bytes, where they are no commit and it isn't the key's.
fn other_name(key: &Key, bytes: &[u8]) -> Option<ObjId>
    ensures value { result ≡ other_name key.now bytes.now }
{
    if key.kind == Kind::Commit {
        return None;
    }
    let name = ObjId::of(bytes);
    if name == key.id { None } else { Some(name) }
}

/// Why an object isn't to be stored, whatever is stored, if it is not.
pub(crate) fn name_refusal(key: &Key, bytes: &[u8]) -> Option<StoreFault>
    ensures value { result ≡ name_refusal key.now bytes.now }
{
    if let Some(name) = other_name(key, bytes) {
        return Some(StoreFault::Wrong(name));
    }
    if key.id == ObjId::NIL {
        return Some(StoreFault::Taken(key.id));
    }
    None
}

/// The bytes that the shelf gave for a key, unless they are damaged.
fn judged(key: &Key, bytes: Bytes) -> Result<Bytes, StoreFault>
    ensures value { result ≡ judged key.now bytes }
{
    match other_name(key, bytes.slice()) {
        Some(name) => Err(StoreFault::Damaged {
            want: key.id,
            got: Some(name),
        }),
        None => Ok(bytes),
    }
}

/// The bytes of a stored object.
pub(crate) fn fetch_whole<S: Shelf>(shelf: &mut S, key: &Key) -> Result<Bytes, StoreFault>
    ensures value { FetchesWhole (S.may_give shelf.new) key.now result }
    ensures stays { S.contents shelf.new ≡ S.contents shelf.old }
    ensures shelf { ReadsShelf S.may_give S.texts shelf.old shelf.new }
    ensures faults { CountsShelf (S.faults shelf.old) (S.faults shelf.new) result }
{
    match shelf.fetch(Slot::Object(*key)) {
        Ok(Some(bytes)) => judged(key, bytes),
        Ok(None) => Err(StoreFault::Damaged {
            want: key.id,
            got: None,
        }),
        Err(failed) => Err(fault_of(failed)),
    }
}

/// Puts an object under a key that is stored: the same again, or a refusal.
pub(crate) fn put_stored<S: Shelf>(
    shelf: &mut S,
    key: &Key,
    bytes: &[u8],
) -> Result<Put, StoreFault>
    ensures value { PutsStored (S.may_give shelf.new) key.now bytes.now result }
    ensures stays { S.contents shelf.new ≡ S.contents shelf.old }
    ensures shelf { ReadsShelf S.may_give S.texts shelf.old shelf.new }
    ensures faults { CountsShelf (S.faults shelf.old) (S.faults shelf.new) result }
{
    let stored = match fetch_whole(shelf, key) {
        Ok(stored) => stored,
        Err(fault) => return Err(fault),
    };
    if stored.slice() == bytes {
        Ok(Put::Same)
    } else {
        Err(StoreFault::Taken(key.id))
    }
}

/// The same of bytes that are handed over.
pub(crate) fn put_own_stored<S: Shelf>(
    shelf: &mut S,
    key: &Key,
    bytes: &Bytes,
) -> Result<Put, StoreFault>
    ensures value { PutsStored (S.may_give shelf.new) key.now bytes.now result }
    ensures stays { S.contents shelf.new ≡ S.contents shelf.old }
    ensures shelf { ReadsShelf S.may_give S.texts shelf.old shelf.new }
    ensures faults { CountsShelf (S.faults shelf.old) (S.faults shelf.new) result }
{
    put_stored(shelf, key, bytes.slice())
}
