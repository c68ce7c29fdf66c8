//! Writing of index texts.
ghost use Rattle.std.specs.Prelude.{◌≡◌, map as list_map, IfOk, OnOk, Some};
ghost use Rattle.std.specs.List.{AllByRecursion};
ghost use Rattle.std.specs.FinMap as map;
ghost use Rattle.uuid.specs.Text.{hyphenated_text, lower};
ghost use Rattle.serde_json.specs.View.{view};
ghost use Rattle.json_words.specs.IdText.{library_id_of};
ghost use Rattle.local_index.specs.IndexSpelling.{directory_with, file_with, known_data, entry_data, base_data, index_with, index_data};
ghost use Rattle.local_index.specs.Typed.{IsTyped, IsTypedBase};

use crate::index::{Index, Known};
use ids::ObjId;
use json_words::{id_value, library_id_value};
use serde_json::{Value, json};
use std::alloc::{AllocError, Global};
use tree_model::{Path, PathTable};

/// The value of an index.
pub fn index_value(alloc: Global, index: &Index) -> Result<Value, AllocError>
    ensures value { IfOk result (λ value. view value ≡ index_data index.now) }
    ensures typed { OnOk result (AllByRecursion IsTyped (map.entries index.now.entries)) }
    ensures library { OnOk result (library_id_of (hyphenated_text lower index.now.lib) ≡ Some index.now.lib) }
    ensures commit { OnOk result (IsTypedBase index.now.base) }
{
    let base = base_value(alloc, &index.base)?;
    let entries = entry_values(alloc, &index.entries)?;
    let lib = library_id_value(alloc, &index.lib)?;
    index_with(alloc, base, entries, lib)
}

/// The commit that was synced last, or null.
fn base_value(alloc: Global, base: &Option<ObjId>) -> Result<Value, AllocError>
    ensures value { IfOk result (λ value. view value ≡ base_data base.now) }
    ensures typed { OnOk result (IsTypedBase base.now) }
{
    match base {
        Some(id) => id_value(alloc, id),
        None => Ok(Value::Null),
    }
}

/// The values of the entries, in the byte order of their paths.
fn entry_values(alloc: Global, entries: &PathTable<Known>) -> Result<Vec<Value>, AllocError>
    ensures value { IfOk result (λ values. list_map view values.items ≡ list_map entry_data (map.entries entries.now)) }
    ensures typed { OnOk result (AllByRecursion IsTyped (map.entries entries.now)) }
{
    let mut values = Vec::new(alloc);
    for (path, known) in entries.iter() {
        let value = entry_value(alloc, path, known)?;
        values.push(value)?;
    }
    Ok(values)
}

/// The value of an entry.
fn entry_value(alloc: Global, path: &Path, known: &Known) -> Result<Value, AllocError>
    ensures value { IfOk result (λ value. view value ≡ known_data path.now known.now) }
    ensures typed { OnOk result (IsTyped (path.now, known.now)) }
{
    let text = path.text(alloc)?;
    match known {
        Known::Dir => directory_with(alloc, text.slice()),
        Known::File {
            id,
            own,
            size,
            mode,
            mtime,
            modifier,
        } => {
            let id = id_value(alloc, id)?;
            let own = id_value(alloc, own)?;
            file_with(
                alloc,
                id,
                *mode,
                modifier.slice(),
                *mtime,
                own,
                text.slice(),
                *size,
            )
        }
    }
}

#[tactic(auto, unfolding(crate::specs::IndexSpelling::directory_with))]
fn directory_with(alloc: Global, path: &str) -> Result<Value, AllocError>
    ensures value { IfOk result (λ value. view value ≡ directory_with path.now) }
{
    json!(in alloc; {"path": path})
}

#[tactic(auto, unfolding(crate::specs::IndexSpelling::file_with))]
fn file_with(
    alloc: Global,
    id: Value,
    mode: u32,
    modifier: &str,
    mtime: i64,
    own: Value,
    path: &str,
    size: u64,
) -> Result<Value, AllocError>
    ensures value { IfOk result (λ value. view value
        ≡ file_with (view id) mode modifier.now mtime (view own) path.now size) }
{
    json!(in alloc; {
        "id": id,
        "mode": mode,
        "modifier": modifier,
        "mtime": mtime,
        "own": own,
        "path": path,
        "size": size
    })
}

#[tactic(auto, unfolding(crate::specs::IndexSpelling::index_with))]
fn index_with(
    alloc: Global,
    base: Value,
    entries: Vec<Value>,
    lib: Value,
) -> Result<Value, AllocError>
    ensures value { IfOk result (λ value. view value
        ≡ index_with (view base) (list_map view entries.items) (view lib)) }
{
    json!(in alloc; {"base": base, "entries": entries, "lib": lib, "version": 1u64})
}
