//! Each call of a store once, with ample memory.
mod store_rows;

use ids::{Bytes, Items, Key, Kind, ObjId};
use object_store::*;
use std::alloc::{AllocError, Global};
use std::test::Fail;

/// The key of an object that is named by its bytes.
fn key(kind: Kind, bytes: &[u8]) -> Key {
    Key {
        kind,
        id: ObjId::of(bytes),
    }
}

/// An empty shelf whose calls of these numbers fail.
fn memory(alloc: Global, fails: &[u64]) -> Result<MemoryShelf, AllocError> {
    Ok(MemoryShelf::new(alloc, Items::copy(alloc, fails)?))
}

/// Whether a fetch found the slot empty.
fn is_empty(given: &Result<Option<Bytes>, ShelfFailed>) -> bool {
    matches!(given, Ok(None))
}
