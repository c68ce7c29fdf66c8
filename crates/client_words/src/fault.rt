//! What the commands of the client can meet, as it is printed.
use ids::ObjId;
use tree_model::Path;

/// Why a command was not done, or a job not synced. The first six stand in the order in which a command is to look for them;
/// after these come the faults of a scan or a sync.
#[derive(Debug, Drop)]
pub enum Fault {
    /// `init` found a list of jobs.
    AlreadyInitialised,
    /// Another command found none.
    NotInitialised,
    /// The list of jobs is no such text, or the index of a job that is used is absent or none.
    BadIndex,
    /// `desync` found no job of this folder.
    NoJob,
    /// A job has this library or this folder, and not both.
    JobExists,
    /// The folder of a `download` has a path, or nothing was synced yet and both the folder and the library have something.
    FolderNotEmpty,
    /// A folder failed.
    Folder,
    /// No link could be made, or it failed.
    Link,
    /// The reply is none, from this place on.
    BadReply(u64),
    /// The reply ended with so many bytes.
    Cut(u64),
    /// The server refused with this status.
    Refused(u16),
    /// What was got for this id has another SHA-1.
    Damaged(ObjId),
    /// Something is wrong with the head's commit or its tree.
    BadTree,
    /// A request would have so many bytes.
    TooLarge(u64),
    /// What stands at this path was changed since the scan.
    Changed(Path),
    /// What stands at this path can't be replaced.
    Blocked(Path),
    /// This file has too many bytes.
    TooBig(Path),
    /// This path has too many names.
    TooDeep(Path),
    /// The folder has too many paths.
    TooMany,
    /// Three updates came too late; the last collection had this number.
    Stale(u64),
    /// There was no memory.
    NoMemory,
}
