//! Why a folder was not synced.
use folder_side::ScanFault;
use ids::ObjId;
use library_state::Refusal;
use remote_calls::RemoteFault;
use tree_model::Path;
use tree_walk::WalkFault;

/// Why a folder was not synced.
#[derive(Debug, Drop)]
pub enum SyncFault {
    /// The folder failed: its count of faults rose.
    Folder,
    /// The last order had no outcome.
    Remote(RemoteFault),
    /// The last reply refused so, or an upload was denied and the folder differs from the index, and not by a checkout to the head
    /// that was interrupted.
    Refused(Refusal),
    /// The bytes that were got for a block, a file or a directory have another SHA-1.
    Damaged { want: ObjId, got: ObjId },
    /// The head's commit isn't one of that name, or something is wrong with its tree. Never by its `Store`.
    BadTree(WalkFault),
    /// What stands at this path was changed since the scan.
    Changed(Path),
    /// What stands at this path, or above or below it, can't be replaced by what the tree has there.
    Blocked(Path),
    /// Nothing was synced yet, and both the folder and the library have something.
    NotEmpty,
    /// The folder is past a limit of a scan. Never by its `Folder` or `NoMemory`.
    Scan(ScanFault),
    /// Three updates came too late; the last collection had this number.
    Stale(u64),
    NoMemory,
}
