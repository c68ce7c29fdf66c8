//! A place of two libraries over shelves in memory, one of which has a gate that a test closes.
ghost use Rattle.std.specs.Prelude.{◌≡◌};

use crate::hall::{block, docs};
use folder_storage::Ground;
use ids::{Items, LibId};
use object_store::{Gate, GateShelf, MemoryShelf, Shelf, ShelfFailed, Slot};
use std::alloc::{AllocError, Global};
use std::sync::Arc;

/// A place of the library `docs` and of another one. Each is there from the time on when a shelf came back that was made for it, and
/// isn't while its shelf is out. It tells nothing in proofs.
#[derive(Drop)]
pub(crate) struct GateGround {
    alloc: Global,
    /// The gate of `docs`. The other library has one of its own, which stays open.
    gate: Arc<Gate, Global>,
    docs: Option<GateShelf>,
    other: Option<GateShelf>,
    faults: u64,
}

/// Whether these bytes lie on a shelf, as a block.
fn has_block(shelf: &mut GateShelf, bytes: &[u8]) -> bool {
    match shelf.fetch(Slot::Object(block(bytes))) {
        Ok(Some(found)) => found.slice() == bytes,
        _ => false,
    }
}

impl GateGround {
    /// A place without a library, with this gate.
    pub(crate) fn new(alloc: Global, gate: Arc<Gate, Global>) -> GateGround {
        GateGround {
            alloc,
            gate,
            docs: None,
            other: None,
            faults: 0,
        }
    }

    /// Whether both libraries are there.
    pub(crate) fn has_both(&self) -> bool {
        self.docs.is_some() && self.other.is_some()
    }

    /// Whether `docs` is there and has these bytes as a block, and no put of it waited too long.
    pub(crate) fn has_put(&mut self, bytes: &[u8]) -> bool {
        match &mut self.docs {
            Some(shelf) => has_block(shelf, bytes) && !self.gate.limit_met(),
            None => false,
        }
    }

    /// Takes the shelf of a library, where it is there.
    fn take(&mut self, lib: LibId) -> Option<GateShelf>
        ensures faults { self.new.faults ≡ self.old.faults }
    {
        if lib == docs() {
            self.docs.take()
        } else {
            self.other.take()
        }
    }

    /// Whether a library is there.
    fn has(&self, lib: LibId) -> bool {
        if lib == docs() {
            self.docs.is_some()
        } else {
            self.other.is_some()
        }
    }

    /// The gate of a library that is made.
    fn gate_of(&self, lib: LibId) -> Result<Arc<Gate, Global>, AllocError> {
        if lib == docs() {
            return Arc::try_clone(&self.gate);
        }
        match Arc::new(self.alloc, Gate::new()) {
            Ok(gate) => Ok(gate),
            Err(_) => Err(AllocError),
        }
    }
}

impl Ground for GateGround {
    ghost use Rattle.std.specs.Prelude.{None, ⊤};

    type S = GateShelf;

    ghost stands = { λ ground folder lib. None };

    ghost may_give = { λ ground folder lib slot given. ⊤ };

    ghost faults = { λ ground. ground.faults };

    fn find(&mut self, folder: &str, lib: LibId) -> Result<Option<GateShelf>, ShelfFailed> {
        let _ = folder;
        match self.take(lib) {
            // A shelf is handed out with no fault counted, and one in memory has none.
            Some(shelf) => if shelf.faults() == 0 {
                Ok(Some(shelf))
            } else {
                Err(ShelfFailed::NoMemory)
            }
            None => Ok(None),
        }
    }

    fn make(&mut self, folder: &str, lib: LibId) -> Result<Option<GateShelf>, ShelfFailed> {
        let _ = folder;
        if self.has(lib) {
            return Ok(None);
        }
        let gate = match self.gate_of(lib) {
            Ok(gate) => gate,
            Err(_) => return Err(ShelfFailed::NoMemory),
        };
        let inner = MemoryShelf::new(self.alloc, Items::new(self.alloc));
        Ok(Some(GateShelf::new(inner, gate)))
    }

    fn give_back(&mut self, folder: &str, lib: LibId, shelf: GateShelf) {
        let _ = folder;
        self.faults = self.faults.saturating_add(shelf.faults());
        if lib == docs() {
            self.docs = Some(shelf);
        } else {
            self.other = Some(shelf);
        }
    }

    fn faults(&self) -> u64 {
        self.faults
    }

    ghost told = { λ ground folder lib standing slot given known. Prim.cc };
}
