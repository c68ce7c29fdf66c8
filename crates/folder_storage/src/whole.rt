//! Whether bytes are those of an object.
use ids::{Key, Kind, ObjId};

/// Whether the bytes of a file may be all that was put under a key.
///
/// An fs object or block is named by the SHA-1 of its bytes. A commit is named by the id in its text: of it this asks
/// what a text that was cut off or never written lacks, that it ends as an object of JSON does and has no zero byte.
pub(crate) fn is_whole(key: &Key, bytes: &[u8]) -> bool {
    match key.kind {
        Kind::Commit => is_ended(bytes) && !has_zero(bytes),
        Kind::Fs => ObjId::of(bytes) == key.id,
        Kind::Block => ObjId::of(bytes) == key.id,
    }
}

/// Whether the last byte that is no white space closes an object.
fn is_ended(bytes: &[u8]) -> bool {
    bytes.trim_ascii_end().ends_with(b"}")
}

/// Whether a byte is zero, as each is that was never written.
fn has_zero(bytes: &[u8]) -> bool {
    for byte in bytes {
        if *byte == 0 {
            return true;
        }
    }
    false
}
