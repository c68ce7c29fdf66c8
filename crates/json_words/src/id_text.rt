//! The ids that texts and JSON values are.
ghost use Rattle.std.specs.Prelude.{◌≡◌, ◌≢◌, IfSome};
ghost use Rattle.ids.specs.ObjectId.{nil};
ghost use Rattle.serde_json.specs.View.{view};
ghost use Rattle.json_words.specs.IdText.{object_id_of, library_id_of, id_in, stored_id_in, id_field};

use crate::fields::{FieldFault, field};
use ids::{LibId, ObjId};
use serde_json::Value;

/// The id whose 40 lower-case hexadecimal digits a text is.
pub fn object_id(text: &str) -> Option<ObjId>
    ensures value { result ≡ object_id_of text.now }
{
    match ObjId::read(text) {
        Ok(id) => Some(id),
        Err(_) => None,
    }
}

/// The library id whose 36 characters a text is.
pub fn library_id(text: &str) -> Option<LibId>
    ensures value { result ≡ library_id_of text.now }
{
    match LibId::read(text) {
        Ok(id) => Some(id),
        Err(_) => None,
    }
}

/// The id that a value is the text of.
#[tactic(auto, unfolding(crate::specs::IdText::id_in))]
pub fn id_in(value: &Value) -> Option<ObjId>
    ensures value { result ≡ id_in (view value.now) }
{
    match value.as_str() {
        Some(text) => object_id(text),
        None => None,
    }
}

/// The id other than forty zeros that a value is the text of.
#[tactic(auto, unfolding(crate::specs::IdText::stored_id_in))]
pub fn stored_id_in(value: &Value) -> Option<ObjId>
    ensures value { result ≡ stored_id_in (view value.now) }
    ensures not_zeros { IfSome result (λ id. id ≢ nil) }
{
    match id_in(value) {
        Some(id) => if id.is_nil() { None } else { Some(id) },
        None => None,
    }
}

/// A field that is the text of an id.
#[tactic(auto, unfolding(crate::specs::IdText::id_field))]
pub fn id_field(value: &Value, name: &str) -> Result<ObjId, FieldFault>
    ensures value { result ≡ id_field name.now (view value.now) }
{
    id_in(field(value, name)?).ok_or(FieldFault::WrongType)
}
