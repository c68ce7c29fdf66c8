//! What a call on files answers, and what its failure counts for.
ghost use Rattle.std.specs.Prelude.{◌≡◌, ⊤, Err, IfOk, Ok, is_ok};
ghost use Rattle.folder_side.specs.Folder.{FolderFails};

use folder_side::FolderFault;
use std::io;
use std::io::ErrorKind;

/// The answer of a folder's call. Want of memory is told as such, and every other failure counts as a fault.
pub fn answer<T>(faults: &mut u64, outcome: io::Result<T>) -> Result<T, FolderFault>
    ensures value { IfOk result (λ value. outcome ≡ Ok value) }
    ensures fails { is_ok result ≡ is_ok outcome }
    ensures faults { FolderFails faults.old faults.new result }
{
    match outcome {
        Ok(value) => Ok(value),
        Err(failure) => Err(failed(faults, failure.kind() == ErrorKind::OutOfMemory)),
    }
}

/// As `answer`, and notes the failure, or that there was none.
pub(crate) fn noted_answer<T>(
    faults: &mut u64,
    failure: &mut Option<io::Error>,
    outcome: io::Result<T>,
) -> Result<T, FolderFault>
    ensures value { IfOk result (λ value. outcome ≡ Ok value) }
    ensures fails { is_ok result ≡ is_ok outcome }
    ensures faults { FolderFails faults.old faults.new result }
{
    *failure = match &outcome {
        Ok(_) => None,
        Err(failed) => Some(*failed),
    };
    answer(faults, outcome)
}

/// The failure that is answered, which is counted unless memory was wanting.
fn failed(faults: &mut u64, is_memory: bool) -> FolderFault
    ensures faults { FolderFails {T = ⊤} faults.old faults.new (Err result) }
{
    if is_memory {
        return FolderFault::NoMemory;
    }
    *faults = faults.saturating_add(1);
    FolderFault::Folder
}
