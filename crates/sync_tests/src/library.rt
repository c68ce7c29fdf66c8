//! A library in memory, as a remote.
use depot::{Depot, MakeFault};
use ids::{Items, LibId, Text};
use library_state::{Right, Secret};
use object_store::{MemoryShelf, Store};
use remote_calls::DeskRemote;
use std::alloc::{AllocError, Global};

pub(crate) const LIB: [u8; 16] = [0x11; 16];

/// The secret of its owner.
pub(crate) const OWNER: [u8; 20] = [0xaa; 20];

/// The secret of one who may only read.
pub(crate) const READER: [u8; 20] = [0xbb; 20];

/// An empty store in memory. Its fault is told as want of memory.
fn empty(alloc: Global) -> Result<Store<MemoryShelf>, AllocError> {
    match Store::start(alloc, MemoryShelf::new(alloc, Items::new(alloc))) {
        Ok(store) => Ok(store),
        Err(_) => Err(AllocError),
    }
}

/// Makes the library `docs` of `me` on that store.
fn made(
    alloc: Global,
    store: Store<MemoryShelf>,
) -> Result<Result<Depot<MemoryShelf>, (Store<MemoryShelf>, MakeFault)>, AllocError> {
    let name = Text::copy(alloc, "docs")?;
    let user = Text::copy(alloc, "me")?;
    let secret = Secret::from_bytes(OWNER);
    Ok(Depot::make(
        alloc,
        store,
        LibId::from_bytes(LIB),
        &name,
        &user,
        secret,
        7,
    ))
}

/// Adds one who may only read. A refusal is told as want of memory.
fn add_reader(alloc: Global, depot: &mut Depot<MemoryShelf>) -> Result<(), AllocError> {
    let user = Text::copy(alloc, "you")?;
    match depot.add_token(&user, Secret::from_bytes(READER), Right::Read) {
        Ok(()) => Ok(()),
        Err(_) => Err(AllocError),
    }
}

/// The same library, which one more may read, as a remote whose orders of these numbers fail.
fn shared(
    alloc: Global,
    mut depot: Depot<MemoryShelf>,
    fails: Items<u64>,
) -> Result<DeskRemote, AllocError> {
    add_reader(alloc, &mut depot)?;
    Ok(DeskRemote::new(depot, fails))
}

/// A library with an owner and a reader, as a remote whose orders of these numbers fail. A refusal is told as want of memory.
pub(crate) fn desk(alloc: Global, fails: &[u64]) -> Result<DeskRemote, AllocError> {
    let fails = Items::copy(alloc, fails)?;
    match made(alloc, empty(alloc)?)? {
        Ok(depot) => shared(alloc, depot, fails),
        Err(_) => Err(AllocError),
    }
}
