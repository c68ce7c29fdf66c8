//! Writing of file and directory objects.
ghost use Rattle.std.specs.Prelude.{◌≡◌, [], map, reverse, All, IfOk, OnOk, Some};
ghost use Rattle.std.specs.BTreeMap.{values};
ghost use Rattle.serde_json.specs.View.{view, items_view};
ghost use Rattle.fs_objects.specs.Placing.{shown, seen};
ghost use Rattle.json_words.specs.IdText.{id_data, IsId};
ghost use Rattle.fs_objects.specs.Spelling.{file_with, file_data, file_entry_with, directory_entry_with, entry_data, directory_with, placed, in_written_order};
ghost use Rattle.fs_objects.specs.Typed.{IsTyped};

use crate::dirent::Dirent;
use crate::mode::is_file_mode;
use ids::ObjId;
use json_words::id_value;
use serde_json::{Value, json};
use std::alloc::{AllocError, Global};
use std::collections::BTreeMap;

/// The value of a file with these blocks.
pub fn file_value(alloc: Global, blocks: &[ObjId], size: u64) -> Result<Value, AllocError>
    ensures value { IfOk result (λ value. view value ≡ file_with (map id_data blocks.now) size) }
    ensures typed { OnOk result (All IsId blocks.now) }
{
    let values = block_values(alloc, blocks)?;
    file_with(alloc, values, size)
}

/// The value of a directory with these entries, in descending byte order of name.
pub fn directory_value(alloc: Global, entries: &[Dirent]) -> Result<Value, AllocError>
    ensures value { IfOk result (λ value. view value
        ≡ directory_with (map entry_data (in_written_order entries.now))) }
    ensures typed { OnOk result (All IsTyped entries.now) }
{
    let by_name = placed_values(alloc, entries)?;
    let values = descending(alloc, by_name)?;
    directory_with(alloc, values)
}

/// The texts of the blocks' ids.
fn block_values(alloc: Global, blocks: &[ObjId]) -> Result<Vec<Value>, AllocError>
    ensures value { IfOk result (λ values. map view values.items ≡ map id_data blocks.now) }
    ensures typed { OnOk result (All IsId blocks.now) }
{
    let mut values = Vec::new(alloc);
    for id in blocks {
        let value = id_value(alloc, id)?;
        values.push(value)?;
    }
    Ok(values)
}

/// The values of the entries, under their names in ascending order.
fn placed_values<'a>(
    alloc: Global,
    entries: &'a [Dirent],
) -> Result<BTreeMap<&'a str, Value>, AllocError>
    ensures value { IfOk result (λ by_name. map seen by_name.entries
        ≡ map shown (placed [] entries.now)) }
    ensures typed { OnOk result (All IsTyped entries.now) }
{
    let mut by_name = BTreeMap::new(alloc);
    for entry in entries {
        let value = entry_value(alloc, entry)?;
        by_name.insert(entry.name.as_str(), value)?;
    }
    Ok(by_name)
}

/// The values of a map, with the greatest key first.
fn descending(alloc: Global, by_name: BTreeMap<&str, Value>) -> Result<Vec<Value>, AllocError>
    ensures value { IfOk result (λ values_list. values_list.items ≡ reverse (values by_name.entry)) }
{
    let mut values: Vec<Value> = by_name.into_values().collect(alloc)?;
    values.reverse();
    Ok(values)
}

/// The value of an entry.
fn entry_value(alloc: Global, entry: &Dirent) -> Result<Value, AllocError>
    ensures value { IfOk result (λ value. view value ≡ entry_data entry.now) }
    ensures typed { OnOk result (IsTyped entry.now) }
{
    let id = id_value(alloc, &entry.id)?;
    let mtime = entry.mtime;
    let name = entry.name.as_str();
    if is_file_mode(entry.mode) {
        let modifier = entry.modifier.slice();
        file_entry_with(alloc, id, entry.mode, modifier, mtime, name, entry.size)
    } else {
        directory_entry_with(alloc, id, entry.mode, mtime, name)
    }
}

#[tactic(auto, unfolding(crate::specs::Spelling::file_with))]
fn file_with(alloc: Global, blocks: Vec<Value>, size: u64) -> Result<Value, AllocError>
    ensures value { IfOk result (λ value. view value ≡ file_with (map view blocks.items) size) }
{
    json!(in alloc; {"block_ids": blocks, "size": size, "type": 1u64, "version": 1u64})
}

#[tactic(auto, unfolding(crate::specs::Spelling::directory_with))]
fn directory_with(alloc: Global, entries: Vec<Value>) -> Result<Value, AllocError>
    ensures value { IfOk result (λ value. view value ≡ directory_with (map view entries.items)) }
{
    json!(in alloc; {"dirents": entries, "type": 3u64, "version": 1u64})
}

#[tactic(auto, unfolding(crate::specs::Spelling::file_entry_with))]
fn file_entry_with(
    alloc: Global,
    id: Value,
    mode: u32,
    modifier: &str,
    mtime: i64,
    name: &str,
    size: u64,
) -> Result<Value, AllocError>
    ensures value { IfOk result (λ value. view value
        ≡ file_entry_with (view id) mode modifier.now mtime name.now size) }
{
    json!(in alloc; {
        "id": id,
        "mode": mode,
        "modifier": modifier,
        "mtime": mtime,
        "name": name,
        "size": size
    })
}

#[tactic(auto, unfolding(crate::specs::Spelling::directory_entry_with))]
fn directory_entry_with(
    alloc: Global,
    id: Value,
    mode: u32,
    mtime: i64,
    name: &str,
) -> Result<Value, AllocError>
    ensures value { IfOk result (λ value. view value
        ≡ directory_entry_with (view id) mode mtime name.now) }
{
    json!(in alloc; {"id": id, "mode": mode, "mtime": mtime, "name": name})
}
