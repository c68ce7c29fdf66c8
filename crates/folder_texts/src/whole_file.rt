//! A file that is read whole.
ghost use Rattle.std.specs.Prelude.{◌≡◌, ◌<◌, length, Some, IfOk};
ghost use Rattle.folder_side.specs.Folder.{Contents, FolderFails, at};
ghost use Rattle.folder_side.specs.declared.holding.Holding.TheVariants.{File};

use folder_side::{Folder, FolderFault};
use ids::{Bytes, Items};
use std::alloc::{AllocError, Global};
use tree_model::Path;

/// How many bytes are read at once.
const PIECE: usize = 65_536;

/// The bytes of a file.
pub(crate) fn read_whole<F: Folder>(
    alloc: Global,
    folder: &mut F,
    file: &Path,
) -> Result<Bytes, FolderFault>
    ensures value { (c : Contents) → F.told folder.old ≡ Some c → IfOk result (λ bytes. at c file.now ≡ Some (File bytes)) }
    ensures stays { (F.told folder.new ≡ F.told folder.old) × (F.spare folder.new ≡ F.spare folder.old) }
    ensures faults { FolderFails (F.faults folder.old) (F.faults folder.new) result }
{
    let mut buffer = match buffer_of(alloc) {
        Ok(buffer) => buffer,
        Err(AllocError) => return Err(FolderFault::NoMemory),
    };
    read_all(alloc, folder, file, buffer.as_mut_slice())
}

/// Room for a piece.
fn buffer_of(alloc: Global) -> Result<Vec<u8>, AllocError>
    ensures size { IfOk result (λ buffer. 0 < length buffer.items) }
{
    vec![in alloc; 0u8; PIECE]
}

/// Reads a file from its start to its end, in pieces that fit the buffer.
fn read_all<F: Folder>(
    alloc: Global,
    folder: &mut F,
    file: &Path,
    buffer: &mut [u8],
) -> Result<Bytes, FolderFault>
    requires some { 0 < length buffer.old }
    ensures value { (c : Contents) → F.told folder.old ≡ Some c → IfOk result (λ bytes. at c file.now ≡ Some (File bytes)) }
    ensures stays { (F.told folder.new ≡ F.told folder.old) × (F.spare folder.new ≡ F.spare folder.old) }
    ensures faults { FolderFails (F.faults folder.old) (F.faults folder.new) result }
{
    let mut bytes = Vec::new(alloc);
    for _ in 0..u64::MAX {
        let place = bytes.as_slice().len() as u64;
        let count = match folder.read(file, place, buffer) {
            Ok(count) => count,
            Err(fault) => return Err(fault),
        };
        if count == 0 {
            return Ok(Items::from_vec(bytes));
        }
        match bytes.extend_from_slice(&buffer[..count]) {
            Ok(()) => {}
            Err(AllocError) => return Err(FolderFault::NoMemory),
        }
    }
    Err(FolderFault::NoMemory)
}
