//! Why a library was not made, and why a token was not added.
use library_state::StateKey;
use object_graph::TreeFault;
use object_store::StoreFault;

/// Why a library was not made. They are looked for in this order.
#[derive(Clone, Copy, Debug, PartialEq, Eq)]
pub enum MakeFault {
    /// The status slot holds a text already.
    HasState,
    /// The store refused: `Taken` where the opening commit's name is forty zeros or stored with other bytes; never `Wrong`.
    Store(StoreFault),
}

/// Why a library was not opened. They are looked for in this order.
#[derive(Debug, PartialEq, Eq, Drop)]
pub enum StartFault {
    /// The status slot is empty.
    NoState,
    /// What it holds is no state text: the first check that fails.
    BadState(StateKey),
    /// The library was opened as often as it can be: its opening number is `LAST`.
    Worn,
    /// A kept commit is not complete: the first fault of the first one, each head before its pushed commit.
    Walk(TreeFault),
    /// The store failed, by its `Damaged`, `Shelf` or `NoMemory`.
    Store(StoreFault),
}

/// Why a token was not added. They are looked for in this order.
#[derive(Clone, Copy, Debug, PartialEq, Eq)]
pub enum TokenFault {
    /// A token has this secret.
    SecretTaken,
    /// There are 1,000 tokens.
    Full,
    /// The store failed, by its `Shelf` or `NoMemory`.
    Store(StoreFault),
}
