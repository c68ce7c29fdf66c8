//! A shelf whose puts wait at a gate, so that a test holds one call while it makes others.
ghost use Rattle.std.specs.Prelude.{◌≡◌, Some};

use crate::memory_shelf::MemoryShelf;
use crate::shelf::{Found, Shelf, ShelfFailed, Slot};
use ids::{Bytes, Kind, ObjId};
use std::alloc::Global;
use std::sync::Arc;
use std::sync::atomic::{AtomicBool, Ordering};

/// How often a put looks whether the gate is open.
const LOOKS: u64 = 200_000_000;

/// A gate, which is open at first, and what was noted at it. Threads share it, so no clause speaks of it.
#[derive(Drop)]
pub struct Gate {
    is_closed: AtomicBool,
    is_held: AtomicBool,
    is_limit_met: AtomicBool,
}

impl Gate {
    /// An open gate, at which nothing was noted.
    pub fn new() -> Gate {
        Gate {
            is_closed: AtomicBool::new(false),
            is_held: AtomicBool::new(false),
            is_limit_met: AtomicBool::new(false),
        }
    }

    pub fn close(&self) {
        self.is_closed.store(true, Ordering::SeqCst);
    }

    pub fn open(&self) {
        self.is_closed.store(false, Ordering::SeqCst);
    }

    /// Whether a put was ever held.
    pub fn held(&self) -> bool {
        self.is_held.load(Ordering::SeqCst)
    }

    /// Whether a put ever looked as often as it may, and went on.
    pub fn limit_met(&self) -> bool {
        self.is_limit_met.load(Ordering::SeqCst)
    }

    /// Waits until the gate is open, as long as it may.
    fn pass(&self) {
        if !self.is_closed.load(Ordering::SeqCst) {
            return;
        }
        self.is_held.store(true, Ordering::SeqCst);
        for _ in 0..LOOKS {
            if !self.is_closed.load(Ordering::SeqCst) {
                return;
            }
        }
        self.is_limit_met.store(true, Ordering::SeqCst);
    }
}

/// A shelf in memory of which each put waits at a gate.
#[derive(Drop)]
pub struct GateShelf {
    inner: MemoryShelf,
    gate: Arc<Gate, Global>,
}

impl GateShelf {
    /// A shelf over this one, with this gate.
    pub fn new(inner: MemoryShelf, gate: Arc<Gate, Global>) -> GateShelf
        ensures value { result.inner ≡ inner }
    {
        GateShelf { inner, gate }
    }
}

impl Shelf for GateShelf {
    ghost use Rattle.object_store.specs.MemoryShelf.{what_is_told};
    ghost use Rattle.object_store.specs.Shelf.{lies_in};

    ghost contents = { λ shelf. Some shelf.inner.contents };

    ghost may_give = { λ shelf slot given. given ≡ lies_in shelf.inner.contents slot };

    ghost faults = { λ shelf. shelf.inner.faults };

    ghost texts = { λ shelf. shelf.inner.texts };

    fn fetch(&mut self, slot: Slot) -> Result<Option<Bytes>, ShelfFailed> {
        self.inner.fetch(slot)
    }

    fn put(&mut self, slot: Slot, bytes: &[u8]) -> Result<(), ShelfFailed> {
        self.gate.pass();
        self.inner.put(slot, bytes)
    }

    fn remove(&mut self, slot: Slot) -> Result<(), ShelfFailed> {
        self.inner.remove(slot)
    }

    fn next(&mut self, kind: Kind, after: Option<ObjId>) -> Result<Option<Found>, ShelfFailed> {
        self.inner.next(kind, after)
    }

    fn faults(&self) -> u64 {
        self.inner.faults()
    }

    ghost told = { λ shelf held slot given known may. what_is_told shelf.inner held slot given known may };
}
