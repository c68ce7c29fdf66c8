//! Fields of commits, with their faults told at their keys.
ghost use Rattle.std.specs.Prelude.{◌≡◌, ◌≢◌, IfOk, IfSome};
ghost use Rattle.ids.specs.ObjectId.{nil};
ghost use Rattle.serde_json.specs.View.{view, number_view};
ghost use Rattle.json_words.specs.Check.{result_map};
ghost use Rattle.json_words.specs.Fields.{number_field, text_field, optional_text};
ghost use Rattle.commit_objects.specs.Commit.{stored_id_of, id_at, stored_id_at, library_id_at, parent_at, text_at, is_nonzero, flag_in, conflict_at};
ghost use Rattle.commit_objects.specs.CommitKey.{at_key, fault_at, key_text};

use crate::fault::{BadCommit, CommitKey};
use ids::{LibId, ObjId};
use json_words::{FieldFault, library_id, object_id, optional_field};
use serde_json::{Number, Value};

/// A field's fault at its key.
fn fault_at(key: CommitKey, fault: FieldFault) -> BadCommit
    ensures value { result ≡ fault_at key fault }
{
    match fault {
        FieldFault::Missing => BadCommit::Missing(key),
        FieldFault::WrongType => BadCommit::WrongType(key),
    }
}

/// A whole number from 0 to 2^64 - 1.
pub fn number_at(value: &Value, key: CommitKey) -> Result<u64, BadCommit>
    ensures value { result ≡ at_key key (number_field (key_text key) (view value.now)) }
{
    match json_words::number_field(value, key.text()) {
        Ok(number) => Ok(number),
        Err(fault) => Err(fault_at(key, fault)),
    }
}

/// A text that must be there.
fn required_text<'a>(value: &'a Value, key: CommitKey) -> Result<&'a str, BadCommit>
    ensures value { result_map (λ text. text.now) result
        ≡ at_key key (text_field (key_text key) (view value.now)) }
{
    match json_words::text_field(value, key.text()) {
        Ok(text) => Ok(text),
        Err(fault) => Err(fault_at(key, fault)),
    }
}

/// A text, which is empty where the field is absent or null.
#[tactic(auto, unfolding(crate::specs::Commit::text_at))]
pub fn text_at<'a>(value: &'a Value, key: CommitKey) -> Result<&'a str, BadCommit>
    ensures value { result_map (λ text. text.now) result ≡ text_at key (view value.now) }
{
    match json_words::optional_text(value, key.text()) {
        Ok(Some(text)) => Ok(text),
        Ok(None) => Ok(""),
        Err(fault) => Err(fault_at(key, fault)),
    }
}

/// A text that is an id.
#[tactic(auto, unfolding(crate::specs::Commit::id_at))]
pub fn id_at(value: &Value, key: CommitKey) -> Result<ObjId, BadCommit>
    ensures value { result ≡ id_at key (view value.now) }
{
    let text = required_text(value, key)?;
    object_id(text).ok_or(BadCommit::BadId(key))
}

/// A text that is an id other than forty zeros.
#[tactic(auto, unfolding(crate::specs::Commit::stored_id_at))]
pub fn stored_id_at(value: &Value, key: CommitKey) -> Result<ObjId, BadCommit>
    ensures value { result ≡ stored_id_at key (view value.now) }
    ensures not_zeros { IfOk result (λ id. id ≢ nil) }
{
    let text = required_text(value, key)?;
    match stored_id_of(text) {
        Some(id) => Ok(id),
        None => Err(BadCommit::BadId(key)),
    }
}

/// A text that is a library id.
#[tactic(auto, unfolding(crate::specs::Commit::library_id_at))]
pub fn library_id_at(value: &Value, key: CommitKey) -> Result<LibId, BadCommit>
    ensures value { result ≡ library_id_at key (view value.now) }
{
    let text = required_text(value, key)?;
    library_id(text).ok_or(BadCommit::BadId(key))
}

/// A parent's id, or none where the field is absent or null.
#[tactic(auto, unfolding(crate::specs::Commit::parent_at))]
pub fn parent_at(value: &Value, key: CommitKey) -> Result<Option<ObjId>, BadCommit>
    ensures value { result ≡ parent_at key (view value.now) }
    ensures not_zeros { IfOk result (λ parent. IfSome parent (λ id. id ≢ nil)) }
{
    match json_words::optional_text(value, key.text()) {
        Ok(Some(text)) => match stored_id_of(text) {
            Some(id) => Ok(Some(id)),
            None => Err(BadCommit::BadId(key)),
        },
        Ok(None) => Ok(None),
        Err(fault) => Err(fault_at(key, fault)),
    }
}

/// The flag of a conflict, which is false where the field is absent or null.
#[tactic(auto, unfolding(crate::specs::Commit::conflict_at))]
pub fn conflict_at(value: &Value) -> Result<bool, BadCommit>
    ensures value { result ≡ conflict_at (view value.now) }
{
    let key = CommitKey::KConflict;
    match optional_field(value, key.text()) {
        Some(found) => flag_in(found).ok_or(BadCommit::WrongType(key)),
        None => Ok(false),
    }
}

/// A truth value, or a whole number in its place.
#[tactic(auto, unfolding(crate::specs::Commit::flag_in))]
fn flag_in(value: &Value) -> Option<bool>
    ensures value { result ≡ flag_in (view value.now) }
{
    if let Some(flag) = value.as_bool() {
        return Some(flag);
    }
    match value.as_number() {
        Some(number) => is_nonzero(number),
        None => None,
    }
}

/// Whether a whole number is other than 0.
fn is_nonzero(number: &Number) -> Option<bool>
    ensures value { result ≡ is_nonzero (number_view number.now) }
{
    match number.as_u64() {
        Some(n) => Some(n != 0),
        None => if number.is_i64() { Some(true) } else { None },
    }
}

/// The id other than forty zeros that a text is.
#[tactic(auto, unfolding(crate::specs::Commit::stored_id_of))]
fn stored_id_of(text: &str) -> Option<ObjId>
    ensures value { result ≡ stored_id_of text.now }
    ensures not_zeros { IfSome result (λ id. id ≢ nil) }
{
    match object_id(text) {
        Some(id) => if id.is_nil() { None } else { Some(id) },
        None => None,
    }
}
