//! A folder that is synced with a library.
use ids::{LibId, Text};
use library_state::Secret;

/// A folder, the library that it is synced with, the server that has it, and who syncs. As the words of the command line
/// give it, the folder's path is not empty, the host has 1 to 255 ASCII letters, digits, `.` and `-`, the port is from 1 on,
/// and the user is 1 to 255 bytes without a control character.
#[derive(Debug, Drop)]
pub struct Job {
    pub lib: LibId,
    /// The synced folder itself.
    pub dir: Text,
    pub host: Text,
    pub port: u16,
    pub user: Text,
    pub secret: Secret,
}
