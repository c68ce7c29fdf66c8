//! The refusal that a JSON value tells.
ghost use Rattle.std.specs.Prelude.{◌≡◌, option_map, IfOk};
ghost use Rattle.serde_json.specs.View.{view};
ghost use Rattle.http_client.specs.RefusalWords.{counted_of, damaged_in, got_at, id_at, id_or_none, integer_at, key_at, keyed_of, library_at, located_of, named_of, named_path, number_at, path_at, plain_of, refusal_for, refusal_in, stale_in, text_at, too_long_in};

use ids::{Key, Kind, LibId, ObjId};
use json_words::{integer_field, library_id, number_field, object_id, text_field};
use library_state::Refusal;
use serde_json::Value;
use std::alloc::{AllocError, Global};
use tree_model::Path;

/// The refusal that a value tells.
#[tactic(auto, unfolding(crate::specs::RefusalWords::refusal_in))]
pub(crate) fn refusal_in(alloc: Global, value: &Value) -> Result<Option<Refusal>, AllocError>
    ensures value { IfOk result (λ told. told ≡ refusal_in (view value.now)) }
{
    match text_at(value, "reason") {
        Some(reason) => refusal_for(alloc, value, reason),
        None => Ok(None),
    }
}

/// The refusal for a reason, with what the value tells besides it.
fn refusal_for(alloc: Global, value: &Value, reason: &str) -> Result<Option<Refusal>, AllocError>
    ensures value { IfOk result (λ told. told ≡ refusal_for (view value.now) reason.now) }
{
    if let Some(refusal) = plain_of(reason) {
        return Ok(Some(refusal));
    }
    if let Some(refusal) = counted_of(reason, value) {
        return Ok(Some(refusal));
    }
    if let Some(refusal) = keyed_of(reason, value) {
        return Ok(Some(refusal));
    }
    if let Some(refusal) = named_of(reason, value) {
        return Ok(Some(refusal));
    }
    located_of(alloc, reason, value)
}

/// The refusals that tell nothing more.
fn plain_of(reason: &str) -> Option<Refusal>
    ensures value { result ≡ plain_of reason.now }
{
    if reason == "no-library" {
        Some(Refusal::NoLibrary)
    } else if reason == "no-call" {
        Some(Refusal::NoCall)
    } else if reason == "method" {
        Some(Refusal::BadMethod)
    } else if reason == "bad-query" {
        Some(Refusal::BadQuery)
    } else if reason == "denied" {
        Some(Refusal::Denied)
    } else if reason == "store" {
        Some(Refusal::Store)
    } else if reason == "spent" {
        Some(Refusal::Spent)
    } else if reason == "no-memory" {
        Some(Refusal::NoMemory)
    } else {
        None
    }
}

/// Those that tell numbers.
fn counted_of(reason: &str, value: &Value) -> Option<Refusal>
    ensures value { result ≡ counted_of reason.now (view value.now) }
{
    if reason == "bad-body" {
        Some(Refusal::BadBody(number_at(value, "at")?))
    } else if reason == "bad-fs" {
        Some(Refusal::BadFs(number_at(value, "code")?))
    } else if reason == "bad-commit" {
        Some(Refusal::BadCommit(number_at(value, "code")?))
    } else if reason == "unrelated" {
        Some(Refusal::Unrelated(number_at(value, "count")?))
    } else if reason == "too-many" {
        Some(Refusal::TooMany(number_at(value, "count")?))
    } else if reason == "stale" {
        stale_in(value)
    } else if reason == "bad-days" {
        Some(Refusal::BadDays(integer_at(value, "days")?))
    } else {
        None
    }
}

fn stale_in(value: &Value) -> Option<Refusal>
    ensures value { result ≡ stale_in (view value.now) }
{
    let last = number_at(value, "last")?;
    let now = number_at(value, "now")?;
    Some(Refusal::Stale { last, now })
}

/// Those that tell the key of an object.
fn keyed_of(reason: &str, value: &Value) -> Option<Refusal>
    ensures value { result ≡ keyed_of reason.now (view value.now) }
{
    if reason == "no-object" {
        Some(Refusal::NoObject(key_at(value)?))
    } else if reason == "incomplete" {
        Some(Refusal::Incomplete(key_at(value)?))
    } else if reason == "unreadable" {
        Some(Refusal::Unreadable(key_at(value)?))
    } else {
        None
    }
}

/// Those that tell ids.
fn named_of(reason: &str, value: &Value) -> Option<Refusal>
    ensures value { result ≡ named_of reason.now (view value.now) }
{
    if reason == "wrong" {
        Some(Refusal::Wrong(id_at(value, "got")?))
    } else if reason == "taken" {
        Some(Refusal::Taken(id_at(value, "id")?))
    } else if reason == "wrong-kind" {
        Some(Refusal::WrongKind(id_at(value, "id")?))
    } else if reason == "wrong-size" {
        Some(Refusal::WrongSize(id_at(value, "id")?))
    } else if reason == "other-library" {
        Some(Refusal::OtherLibrary(library_at(value, "lib")?))
    } else if reason == "damaged" {
        damaged_in(value)
    } else {
        None
    }
}

fn damaged_in(value: &Value) -> Option<Refusal>
    ensures value { result ≡ damaged_in (view value.now) }
{
    let want = id_at(value, "want")?;
    let got = got_at(value)?;
    Some(Refusal::Damaged { want, got })
}

/// Those that tell a path.
fn located_of(alloc: Global, reason: &str, value: &Value) -> Result<Option<Refusal>, AllocError>
    ensures value { IfOk result (λ told. told ≡ located_of reason.now (view value.now)) }
{
    if reason == "too-deep" {
        match path_at(alloc, value)? {
            Some(path) => Ok(Some(Refusal::TooDeep(path))),
            None => Ok(None),
        }
    } else if reason == "too-long" {
        too_long_in(alloc, value)
    } else {
        Ok(None)
    }
}

fn too_long_in(alloc: Global, value: &Value) -> Result<Option<Refusal>, AllocError>
    ensures value { IfOk result (λ told. told ≡ too_long_in (view value.now)) }
{
    let path = match path_at(alloc, value)? {
        Some(path) => path,
        None => return Ok(None),
    };
    match number_at(value, "length") {
        Some(size) => Ok(Some(Refusal::TooLong(path, size))),
        None => Ok(None),
    }
}

// What a member tells.

fn text_at<'v>(value: &'v Value, name: &str) -> Option<&'v str>
    ensures value { option_map (λ text. text.now) result ≡ text_at name.now (view value.now) }
{
    text_field(value, name).ok()
}

pub(crate) fn number_at(value: &Value, name: &str) -> Option<u64>
    ensures value { result ≡ number_at name.now (view value.now) }
{
    number_field(value, name).ok()
}

/// The whole number from -2^63 to 2^63 - 1 that a member is.
fn integer_at(value: &Value, name: &str) -> Option<i64>
    ensures value { result ≡ integer_at name.now (view value.now) }
{
    match integer_field(value, name) {
        Ok(number) => {
            if number < 0 {
                return Some(number);
            }
            match number_at(value, name) {
                Some(_) => Some(number),
                None => None,
            }
        }
        Err(_) => None,
    }
}

pub(crate) fn id_at(value: &Value, name: &str) -> Option<ObjId>
    ensures value { result ≡ id_at name.now (view value.now) }
{
    match text_at(value, name) {
        Some(text) => object_id(text),
        None => None,
    }
}

fn library_at(value: &Value, name: &str) -> Option<LibId>
    ensures value { result ≡ library_at name.now (view value.now) }
{
    match text_at(value, name) {
        Some(text) => library_id(text),
        None => None,
    }
}

/// The key of an object, by its kind and its id.
fn key_at(value: &Value) -> Option<Key>
    ensures value { result ≡ key_at (view value.now) }
{
    let kind = match text_at(value, "kind") {
        Some(word) => Kind::of(word)?,
        None => return None,
    };
    let id = id_at(value, "id")?;
    Some(Key { kind, id })
}

fn path_at(alloc: Global, value: &Value) -> Result<Option<Path>, AllocError>
    ensures value { IfOk result (λ told. told ≡ path_at (view value.now)) }
{
    match text_at(value, "path") {
        Some(text) => named_path(alloc, text),
        None => Ok(None),
    }
}

/// The path that a text names. The text of the root has no bytes.
fn named_path(alloc: Global, text: &str) -> Result<Option<Path>, AllocError>
    ensures value { IfOk result (λ path. path ≡ named_path text.now) }
{
    if text.is_empty() {
        return Ok(Some(Path::root(alloc)));
    }
    Path::read(alloc, text)
}

fn got_at(value: &Value) -> Option<Option<ObjId>>
    ensures value { result ≡ got_at (view value.now) }
{
    match value.get("got") {
        Some(got) => id_or_none(got),
        None => None,
    }
}

/// An id, or that there is none, as null says.
fn id_or_none(value: &Value) -> Option<Option<ObjId>>
    ensures value { result ≡ id_or_none (view value.now) }
{
    if value.is_null() {
        return Some(None);
    }
    match value.as_str() {
        Some(text) => match object_id(text) {
            Some(id) => Some(Some(id)),
            None => None,
        },
        None => None,
    }
}
