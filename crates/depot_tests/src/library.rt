//! The library of these tests, over a shelf in memory.
use depot::Depot;
use ids::{Items, LibId, Text};
use library_state::Secret;
use object_store::{MemoryShelf, Shelf, Store};
use std::alloc::{AllocError, Global};
use stop_laws::calls::make;

/// A shelf that holds nothing, whose calls of these numbers fail.
pub(crate) fn empty_shelf(alloc: Global, fails: &[u64]) -> Result<MemoryShelf, AllocError> {
    Ok(MemoryShelf::new(alloc, Items::copy(alloc, fails)?))
}

/// An empty store over such a shelf. Each fault is told as want of memory.
fn empty(alloc: Global, fails: &[u64]) -> Result<Store<MemoryShelf>, AllocError> {
    match Store::start(alloc, empty_shelf(alloc, fails)?) {
        Ok(store) => Ok(store),
        Err(_) => Err(AllocError),
    }
}

/// How many objects a library leaves, which is let go.
pub(crate) fn count_left(depot: Depot<MemoryShelf>) -> u64 {
    let store = depot.close();
    let count = store.count();
    drop(store);
    count
}

/// The library `docs` of `me`, whose secret is forty `a`, in an empty store; the store where it isn't made.
pub(crate) fn made_in<S: Shelf>(alloc: Global, store: Store<S>) -> Result<Depot<S>, Store<S>> {
    let lib = LibId::from_bytes([
        0x11, 0x11, 0x11, 0x11, 0x22, 0x22, 0x43, 0x33, 0x84, 0x44, 0x55, 0x55, 0x55, 0x55, 0x55,
        0x55,
    ]);
    let name = match Text::copy(alloc, "docs") {
        Ok(name) => name,
        Err(_) => return Err(store),
    };
    let user = match Text::copy(alloc, "me") {
        Ok(user) => user,
        Err(_) => return Err(store),
    };
    let secret = Secret::from_bytes([0xaa; 20]);
    match make(alloc, store, lib, &name, &user, secret, 7) {
        Ok(depot) => Ok(depot),
        Err(refused) => Err(refused.0),
    }
}

/// That library over a shelf whose calls of these numbers fail. Each refusal is told as want of memory.
pub(crate) fn library_on(alloc: Global, fails: &[u64]) -> Result<Depot<MemoryShelf>, AllocError> {
    match made_in(alloc, empty(alloc, fails)?) {
        Ok(depot) => Ok(depot),
        Err(store) => {
            drop(store);
            Err(AllocError)
        }
    }
}
