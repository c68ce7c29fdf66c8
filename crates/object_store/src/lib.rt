//! The objects of a library, a finite map from keys to bytes, and the shelf on which they lie.
//!
//! Shown upward: `Store`, `Put`, `StoreFault`; the trait `Shelf` with `Slot`, `Found` and `ShelfFailed`, and its kinds in
//! memory. Definitions: specs/Shelf.antt, specs/StoreView.antt and specs/Store.antt, in this order.
//! Laws: src/laws.rt.
//! What is stored under a key never changes. It reads no object's grammar.
#![tactic(auto)]

mod call_count;
mod changing;
mod error;
mod fetching;
mod fuse_shelf;
mod gate_shelf;
mod key_index;
pub mod laws;
mod memory_shelf;
mod odd_shelf;
mod put;
mod shelf;
mod store;
mod told_name;
mod unjudged;

pub use crate::call_count::CallCount;
pub use crate::error::StoreFault;
pub use crate::fuse_shelf::FuseShelf;
pub use crate::gate_shelf::{Gate, GateShelf};
pub use crate::memory_shelf::MemoryShelf;
pub use crate::odd_shelf::OddShelf;
pub use crate::put::Put;
pub use crate::shelf::{Found, Shelf, ShelfFailed, Slot};
pub use crate::store::Store;
