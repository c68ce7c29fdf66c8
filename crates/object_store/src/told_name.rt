//! Why an object isn't to be stored whose bytes come with their SHA-1: they are not hashed again.
ghost use Rattle.std.specs.Prelude.{◌≡◌};
ghost use Rattle.sha1.specs.Sha1.{sha1};
ghost use Rattle.object_store.specs.Steps.{other_name};
ghost use Rattle.object_store.specs.Store.{name_refusal};

use crate::error::StoreFault;
use ids::{Bytes, Key, Kind, ObjId};

/// Why an object isn't to be stored, whatever is stored, if it is not.
pub(crate) fn own_refusal(key: &Key, bytes: &Bytes, name: &ObjId) -> Option<StoreFault>
    requires named { name.now ≡ sha1 bytes.now }
    ensures value { result ≡ name_refusal key.now bytes.now }
{
    if let Some(name) = told_other_name(key, bytes, name) {
        return Some(StoreFault::Wrong(name));
    }
    if key.id == ObjId::NIL {
        return Some(StoreFault::Taken(key.id));
    }
    None
}

/// The name of the bytes, where they are no commit and it isn't the key's. None of them is read.
fn told_other_name(key: &Key, bytes: &Bytes, name: &ObjId) -> Option<ObjId>
    requires named { name.now ≡ sha1 bytes.now }
    ensures value { result ≡ other_name key.now bytes.now }
{
    let _ = bytes;
    if key.kind == Kind::Commit {
        return None;
    }
    if *name == key.id { None } else { Some(*name) }
}
