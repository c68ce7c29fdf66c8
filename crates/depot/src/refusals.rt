//! Which refusal a fault is.
ghost use Rattle.std.specs.Prelude.{◌≡◌};
ghost use Rattle.depot.specs.Refusals.{answer_of, merge_refusal, store_refusal, walk_refusal};

use library_state::{Refusal, Reply};
use object_store::StoreFault;
use tree_merge::MergeFault;
use tree_walk::WalkFault;

/// The refusal that a fault of the store is.
pub(crate) fn store_refusal(fault: StoreFault) -> Refusal
    ensures value { result ≡ store_refusal fault }
{
    match fault {
        StoreFault::Taken(id) => Refusal::Taken(id),
        StoreFault::Wrong(id) => Refusal::Wrong(id),
        StoreFault::Damaged { want, got } => Refusal::Damaged { want, got },
        StoreFault::Shelf => Refusal::Store,
        StoreFault::NoMemory => Refusal::NoMemory,
    }
}

/// The refusal that a fault of a reading is.
pub(crate) fn walk_refusal(fault: WalkFault) -> Refusal
    ensures value { result ≡ walk_refusal fault }
{
    match fault {
        WalkFault::Incomplete(key) => Refusal::Incomplete(key),
        WalkFault::Unreadable(key) => Refusal::Unreadable(key),
        WalkFault::WrongKind(id) => Refusal::WrongKind(id),
        WalkFault::WrongSize(id) => Refusal::WrongSize(id),
        WalkFault::TooDeep(path) => Refusal::TooDeep(path),
        WalkFault::TooMany(paths) => Refusal::TooMany(paths),
        WalkFault::Store(fault) => store_refusal(fault),
    }
}

/// The refusal that a fault of a merge is.
pub(crate) fn merge_refusal(fault: MergeFault) -> Refusal
    ensures value { result ≡ merge_refusal fault }
{
    match fault {
        MergeFault::TooLong(path, size) => Refusal::TooLong(path, size),
        MergeFault::TooMany(paths) => Refusal::TooMany(paths),
        MergeFault::Taken(id) => Refusal::Taken(id),
        MergeFault::Walk(fault) => walk_refusal(fault),
    }
}

/// The answer, or the refusal that the store's fault is.
pub(crate) fn answer_of(said: Reply, written: Result<(), StoreFault>) -> Reply
    ensures value { result ≡ answer_of said written }
{
    match written {
        Ok(()) => said,
        Err(fault) => Reply::Refused(store_refusal(fault)),
    }
}
