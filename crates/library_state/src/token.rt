//! Tokens: who may ask a library, and for what.
use crate::right::Right;
use crate::secret::Secret;
use ids::Text;

/// Who may ask a library: the holder of the secret.
#[derive(Debug, Drop)]
pub struct Token {
    pub secret: Secret,
    /// The name of the user, 1 to 255 bytes.
    pub user: Text,
    pub right: Right,
    /// The number of the last collection that the holder has seen, by its last upload check.
    pub last: u64,
}
