//! What the words of the command line can ask for.
use crate::job::Job;
use ids::Text;

/// The most turns that `start` can be asked for.
pub const MAX_TURNS: u32 = 1_000_000;

/// An option of other clients that is read and refused.
#[derive(Clone, Copy, Debug, PartialEq, Eq)]
pub enum Unsupported {
    /// `-p`.
    Password,
    /// `-T`.
    Token,
    /// `-e`.
    Encryption,
}

/// What the words ask for. `conf` is the folder of the client's own files. No path is empty as `read_words` gives it, and a
/// job has what `Job` says.
#[derive(Debug, Drop)]
pub enum Words {
    /// Begin a list of jobs in the folder.
    Init { conf: Text },
    /// Print each job.
    List { conf: Text },
    /// Print of each job whether its folder has changed since it was synced.
    Status { conf: Text },
    /// Sync an empty folder with a library, and add that as a job.
    Download { conf: Text, job: Job },
    /// Sync a folder with a library, and add that as a job.
    Sync { conf: Text, job: Job },
    /// Take the job of this folder away, and leave the folder.
    Desync { conf: Text, dir: Text },
    /// Sync each job so many times, from 1 to `MAX_TURNS`.
    Start { conf: Text, turns: u32 },
    /// An option is there that this client does not have: of several the first, in the order of `Unsupported`.
    NotSupported(Unsupported),
    /// Print the words that there are.
    Help,
    /// Print the program's name and version.
    Version,
    /// Words that ask for nothing of these.
    Usage,
}
