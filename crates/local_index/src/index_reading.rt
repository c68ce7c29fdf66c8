//! Reading of index texts.
ghost use Rattle.std.specs.Prelude.{◌≡◌, ◌≢◌, Some, IfOk};
ghost use Rattle.ids.specs.ObjectId.{nil};
ghost use Rattle.serde_json.specs.View.{view};
ghost use Rattle.json_words.specs.Answer.{ReadsAs};
ghost use Rattle.json_words.specs.Fields.{has_only};
ghost use Rattle.local_index.specs.IndexSpelling.{IsProper};
ghost use Rattle.local_index.specs.IndexText.{right_version, library_in, base_from, base_in, index_keys, index_in};

use crate::entry_reading::read_entries;
use crate::fault::{IndexFault, IndexKey};
use crate::index::Index;
use ids::{LibId, ObjId};
use json_words::{ReadFault, field, has_only, library_id, number_field, stored_id_in, text_field};
use serde_json::Value;
use std::alloc::Global;

/// The index that a JSON object is.
#[tactic(auto, unfolding(crate::specs::IndexText::index_in))]
pub fn read_index(alloc: Global, value: &Value) -> Result<Index, IndexFault>
    ensures value { ReadsAs result (index_in (view value.now)) }
    ensures proper { IfOk result IsProper }
{
    right_version(value)?;
    let lib = library_in(value)?;
    let base = base_in(value)?;
    let entries = read_entries(alloc, value)?;
    if !has_index_keys(value) {
        return Err(ReadFault::Bad(IndexKey::Extra));
    }
    Ok(Index { lib, base, entries })
}

/// Whether there is no key but those of an index.
#[tactic(auto, unfolding(crate::specs::IndexText::index_keys))]
fn has_index_keys(value: &Value) -> bool
    ensures value { result ≡ has_only index_keys (view value.now) }
{
    has_only(value, &["base", "entries", "lib", "version"])
}

/// The version of the format is 1.
#[tactic(auto, unfolding(crate::specs::IndexText::right_version))]
fn right_version(value: &Value) -> Result<(), IndexKey>
    ensures value { result ≡ right_version (view value.now) }
{
    match number_field(value, "version") {
        Ok(1) => Ok(()),
        Ok(_) => Err(IndexKey::Version),
        Err(_) => Err(IndexKey::Version),
    }
}

/// The library.
#[tactic(auto, unfolding(crate::specs::IndexText::library_in))]
fn library_in(value: &Value) -> Result<LibId, IndexKey>
    ensures value { result ≡ library_in (view value.now) }
{
    match text_field(value, "lib") {
        Ok(text) => library_id(text).ok_or(IndexKey::Lib),
        Err(_) => Err(IndexKey::Lib),
    }
}

/// The commit that was synced last, or none where it is null.
#[tactic(auto, unfolding(crate::specs::IndexText::base_in))]
fn base_in(value: &Value) -> Result<Option<ObjId>, IndexKey>
    ensures value { result ≡ base_in (view value.now) }
    ensures proper { IfOk result (λ base. base ≢ Some nil) }
{
    match field(value, "base") {
        Ok(found) => base_from(found),
        Err(_) => Err(IndexKey::Base),
    }
}

/// The commit that a value names, or none where it is null.
fn base_from(value: &Value) -> Result<Option<ObjId>, IndexKey>
    ensures value { result ≡ base_from (view value.now) }
    ensures proper { IfOk result (λ base. base ≢ Some nil) }
{
    if value.is_null() {
        return Ok(None);
    }
    match stored_id_in(value) {
        Some(id) => Ok(Some(id)),
        None => Err(IndexKey::Base),
    }
}
