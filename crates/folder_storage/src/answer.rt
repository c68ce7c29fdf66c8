//! What a call on files answers, and what its failure counts for.
ghost use Rattle.std.specs.Prelude.{◌≡◌, ⊤, Err, IfOk, Ok, is_ok};
ghost use Rattle.object_store.specs.Shelf.{CountsFaults};

use crate::file_system::FileSystem;
use object_store::ShelfFailed;
use std::io;
use std::io::ErrorKind;

/// The answer of a call that changes nothing where it fails. Want of memory is told as such, and every other failure
/// counts as a fault.
pub(crate) fn answer<T>(faults: &mut u64, outcome: io::Result<T>) -> Result<T, ShelfFailed>
    ensures value { IfOk result (λ value. outcome ≡ Ok value) }
    ensures fails { is_ok result ≡ is_ok outcome }
    ensures faults { CountsFaults faults.old faults.new result }
{
    match outcome {
        Ok(value) => Ok(value),
        Err(failure) => Err(failed(faults, failure.kind() == ErrorKind::OutOfMemory)),
    }
}

/// The answer of a call that may have changed something where it fails, so that each failure counts as a fault.
pub(crate) fn counted<T>(faults: &mut u64, outcome: io::Result<T>) -> Result<T, ShelfFailed>
    ensures value { IfOk result (λ value. outcome ≡ Ok value) }
    ensures fails { is_ok result ≡ is_ok outcome }
    ensures faults { CountsFaults faults.old faults.new result }
{
    match outcome {
        Ok(value) => Ok(value),
        Err(_) => Err(failed(faults, false)),
    }
}

/// Tells who looks on why something couldn't be done, where no call of the system refused it.
pub(crate) fn tell<F: FileSystem, T>(
    files: &mut F,
    deed: &str,
    path: &str,
    outcome: &io::Result<T>,
) {
    if let Err(failure) = outcome {
        if failure.raw_os_error().is_none() && failure.kind() != ErrorKind::OutOfMemory {
            files.hear(deed, path, failure);
        }
    }
}

/// The failure that is answered, which is counted unless memory was wanting.
fn failed(faults: &mut u64, is_memory: bool) -> ShelfFailed
    ensures faults { CountsFaults {T = ⊤} faults.old faults.new (Err result) }
{
    if is_memory {
        return ShelfFailed::NoMemory;
    }
    *faults = faults.saturating_add(1);
    ShelfFailed::Shelf
}
