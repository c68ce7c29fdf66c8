//! The library of these tests, its slots, and what its shelf answers.
use ids::{Bytes, Key, Kind, LibId, ObjId};
use object_store::{Shelf, ShelfFailed, Slot};
use std::test::Fail;

pub(crate) fn lib() -> LibId {
    LibId::from_bytes([
        0x11, 0x11, 0x11, 0x11, 0x22, 0x22, 0x43, 0x33, 0x84, 0x44, 0x55, 0x55, 0x55, 0x55, 0x55,
        0x55,
    ])
}

/// The name of its folder.
pub(crate) const LIB: &str = "11111111-2222-4333-8444-555555555555";

/// The slot of an object that is named by its text.
pub(crate) fn slot_of(kind: Kind, text: &str) -> Slot {
    let id = ObjId::of(text.as_bytes());
    Slot::Object(Key { kind, id })
}

/// What was asked for and is there.
pub(crate) fn there<T: Drop>(answered: Result<Option<T>, ShelfFailed>) -> Result<T, Fail> {
    match answered {
        Ok(Some(given)) => Ok(given),
        Ok(None) => Err("nothing is there".into()),
        Err(_) => Err("a fault".into()),
    }
}

pub(crate) fn done(answered: Result<(), ShelfFailed>) -> Result<(), Fail> {
    match answered {
        Ok(()) => Ok(()),
        Err(_) => Err("a fault".into()),
    }
}

/// Whether what was asked for isn't there.
pub(crate) fn is_absent<T: Drop>(answered: Result<Option<T>, ShelfFailed>) -> bool {
    matches!(answered, Ok(None))
}

/// Whether the shelf or the ground failed, and says that it counted it.
pub(crate) fn is_fault<T: Drop>(answered: Result<T, ShelfFailed>) -> bool {
    matches!(answered, Err(ShelfFailed::Shelf))
}

/// Whether a slot holds this text.
pub(crate) fn holds<S: Shelf>(shelf: &mut S, slot: &Slot, text: &[u8]) -> bool {
    is_text(&shelf.fetch(*slot), text)
}

fn is_text(given: &Result<Option<Bytes>, ShelfFailed>, text: &[u8]) -> bool {
    match given {
        Ok(Some(bytes)) => bytes.slice() == text,
        Ok(None) => false,
        Err(_) => false,
    }
}
