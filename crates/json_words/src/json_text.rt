//! Between bytes and JSON values.
ghost use Rattle.std.specs.Prelude.{◌≡◌, ◌≤◌, Some, false, IfOk, option_map};
ghost use Rattle.serde_json.specs.Data.{depth};
ghost use Rattle.serde_json.specs.Read.{max_depth};
ghost use Rattle.serde_json.specs.View.{view};
ghost use Rattle.serde_json.specs.Written.{compact_text, has_float};
ghost use Rattle.json_words.specs.JsonText.{json_of};

use ids::Bytes;
use serde_json::Value;
use std::alloc::{AllocError, Global};

/// The value of a JSON text, or none where the bytes are no JSON text.
///
/// For texts of our own storage: by reckoning a value takes 32 bytes and an object about 600, so that a text of many short
/// values takes some eighteen times its memory, and one of many small objects some eighty times. No clause says so. What
/// clients send is read by `json_tokens`.
pub fn parse(alloc: Global, bytes: &[u8]) -> Result<Option<Value>, AllocError>
    ensures value { IfOk result (λ answer. option_map view answer ≡ json_of bytes.now) }
{
    match Value::from_slice(alloc, bytes) {
        Ok(value) => Ok(Some(value)),
        Err(error) => if error.is_memory() {
            Err(AllocError)
        } else {
            Ok(None)
        },
    }
}

/// The compact text of a value: no blanks, and the keys of an object in byte order.
pub fn write(alloc: Global, value: &Value) -> Result<Bytes, AllocError>
    ensures value { IfOk result (λ text. has_float (view value.now) ≡ false
        → text ≡ compact_text (view value.now)) }
    ensures reads_back { IfOk result (λ text. depth (view value.now) ≤ max_depth
        → json_of text ≡ Some (view value.now)) }
{
    let text = value.to_vec(alloc)?;
    Ok(Bytes::from_vec(text))
}
