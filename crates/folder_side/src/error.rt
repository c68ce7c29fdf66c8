//! Why a folder's call or a scan fails.

use tree_model::Path;

/// Why a call of a folder gives no answer.
#[derive(Clone, Copy, Debug, PartialEq, Eq)]
pub enum FolderFault {
    /// The folder failed. Its count of faults rose in this call.
    Folder,
    /// There was no memory.
    NoMemory,
}

/// Why a folder was not scanned.
#[derive(Debug, Drop)]
pub enum ScanFault {
    /// The folder failed. Its count of faults rose in this call.
    Folder,
    /// This path has more than 100 names.
    TooDeep(Path),
    /// This many files and directories were found, one more than 1,000,000.
    TooMany(u64),
    /// More than 274,877,906,944 bytes of this file were read.
    TooBig(Path),
    /// There was no memory.
    NoMemory,
}
