//! A put that is held at a gate until another thread opens it.
use crate::library::holds;
use crate::shelf_rows::memory;
use object_store::{Gate, GateShelf, Shelf, Slot};
use std::sync::Arc;
use std::test::Fail;
use std::thread;

/// How often it is looked for the put.
const LOOKS: u64 = 200_000_000;

/// Opens the gate once a put is held. The answer is whether one was.
fn open_once_held(gate: &Gate) -> bool {
    for _ in 0..LOOKS {
        if gate.held() {
            gate.open();
            return true;
        }
    }
    gate.open();
    false
}

/// Whether a put over an open gate is done, and not held.
fn is_open<S: Shelf>(gate: &Gate, shelf: &mut S) -> bool {
    shelf.put(Slot::Status, b"before").is_ok() && !gate.held()
}

/// Whether the put that was held is done, for no want of looks.
fn is_put<S: Shelf>(gate: &Gate, shelf: &mut S) -> bool {
    !gate.limit_met() && holds(shelf, &Slot::Status, b"after")
}

#[test]
fn a_put_is_held_until_the_gate_is_open(rt: HostRuntime) -> Result<(), Fail> {
    let gate = Arc::new(rt.alloc(), Gate::new())?;
    let mut shelf = GateShelf::new(memory(rt.alloc(), &[])?, Arc::try_clone(&gate)?);
    let was_open = is_open(&gate, &mut shelf);
    gate.close();
    let (put, was_held) = thread::join(
        &rt,
        || shelf.put(Slot::Status, b"after"),
        || open_once_held(&gate),
    );
    assert!(rt; was_open && was_held && put.is_ok() && is_put(&gate, &mut shelf));
    Ok(())
}
