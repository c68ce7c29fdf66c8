//! The texts of ids as JSON values.
ghost use Rattle.std.specs.Prelude.{◌≡◌, Some, IfOk, IsUtf8};
ghost use Rattle.uuid.specs.Text.{hyphenated_text, lower};
ghost use Rattle.serde_json.specs.Data.{string};
ghost use Rattle.serde_json.specs.View.{view};
ghost use Rattle.json_words.specs.IdText.{IsId, id_data, library_id_of};

use ids::{LibId, ObjId};
use serde_json::Value;
use std::alloc::{AllocError, Global};
use std::str::from_utf8;

/// The text of an id, its 40 lower-case hexadecimal digits.
pub fn id_value(alloc: Global, id: &ObjId) -> Result<Value, AllocError>
    ensures value { IfOk result (λ value. view value ≡ id_data id.now) }
    ensures reads_back { IsId id.now }
{
    let digits = id.digits();
    text_value(alloc, &digits)
}

/// The text of a library id, its 36 characters.
pub fn library_id_value(alloc: Global, id: &LibId) -> Result<Value, AllocError>
    ensures value { IfOk result (λ value. view value ≡ string (hyphenated_text lower id.now)) }
    ensures reads_back { library_id_of (hyphenated_text lower id.now) ≡ Some id.now }
{
    let characters = id.digits();
    text_value(alloc, &characters)
}

/// The text of some bytes.
fn text_value(alloc: Global, text: &[u8]) -> Result<Value, AllocError>
    requires { IsUtf8 text.now }
    ensures value { IfOk result (λ value. view value ≡ string text.now) }
{
    match from_utf8(text) {
        Ok(text) => Value::try_from_str(alloc, text),
        Err(_) => unreachable!(),
    }
}
