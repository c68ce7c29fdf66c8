//! Reading of the entries of an index text.
ghost use Rattle.std.specs.Prelude.{◌≡◌, ◌≢◌, [], true, map as list_map, option_copied, IfOk, OnOk};
ghost use Rattle.std.specs.FinMap as map;
ghost use Rattle.serde_json.specs.View.{view};
ghost use Rattle.json_words.specs.Answer.{ReadsAs};
ghost use Rattle.json_words.specs.Check.{result_map};
ghost use Rattle.json_words.specs.Fields.{has_only};
ghost use Rattle.local_index.specs.declared.fault.IndexKey.TheVariants as key;
ghost use Rattle.local_index.specs.IndexText.{path_in, mode_in, file_keys, file_in, known_in, with_entry, with_entries, is_known_dir, is_dir_in, all_stand, entries_in, at_key};
ghost use Rattle.local_index.specs.Reading.{file_seen, IsSound};
ghost use Rattle.local_index.specs.IndexSpelling.{HasFileMode};
ghost use Rattle.fs_objects.specs.Mode.{is_file_mode};

use crate::fault::{IndexFault, IndexKey};
use crate::index::Known;
use fs_objects::is_file_mode;
use ids::{ObjId, Text};
use json_words::{
    FieldFault, ReadFault, array_field, has_only, id_field, integer_field, number_between,
    number_field, text_field,
};
use serde_json::Value;
use std::alloc::{AllocError, Global};
use tree_model::{Path, PathTable};

/// The entries, no two at one path, each in a directory of them.
#[tactic(auto, unfolding(crate::specs::IndexText::entries_in))]
pub fn read_entries(alloc: Global, value: &Value) -> Result<PathTable<Known>, IndexFault>
    ensures value { ReadsAs result (entries_in (view value.now)) }
    ensures sound { IfOk result IsSound }
    ensures proper { IfOk result (λ entries. all_stand entries ≡ true) }
{
    let items = match array_field(value, "entries") {
        Ok(items) => items,
        Err(_) => return Err(ReadFault::Bad(IndexKey::Entries)),
    };
    let entries = read_items(alloc, items)?;
    if !all_stand(alloc, &entries)? {
        return Err(ReadFault::Bad(IndexKey::Entries));
    }
    Ok(entries)
}

/// The entries that the items of an array are.
fn read_items(alloc: Global, items: &[Value]) -> Result<PathTable<Known>, IndexFault>
    ensures value { ReadsAs result (with_entries map.empty (list_map view items.now)) }
    ensures sound { IfOk result IsSound }
{
    let mut entries = PathTable::new(alloc);
    for item in items {
        match read_item(alloc, &mut entries, item) {
            Ok(()) => {}
            Err(fault) => return Err(fault),
        }
    }
    Ok(entries)
}

/// Puts an entry into the table, at a path that has none yet.
#[tactic(auto, unfolding(crate::specs::IndexText::with_entry))]
fn read_item(alloc: Global, entries: &mut PathTable<Known>, item: &Value) -> Result<(), IndexFault>
    ensures value { ReadsAs (result_map (λ _. entries.new) result) (with_entry entries.old (view item.now)) }
    ensures sound { OnOk result (IsSound entries.old → IsSound entries.new) }
{
    let path = read_path(alloc, item)?;
    let known = read_known(alloc, item)?;
    if entries.has(&path) {
        return Err(ReadFault::Bad(IndexKey::Entries));
    }
    entries.insert(path, known)?;
    Ok(())
}

/// The path of an entry.
#[tactic(auto, unfolding(crate::specs::IndexText::path_in))]
fn read_path(alloc: Global, item: &Value) -> Result<Path, IndexFault>
    ensures value { ReadsAs result (path_in (view item.now)) }
    ensures proper { IfOk result (λ path. path ≢ []) }
{
    let text = match text_field(item, "path") {
        Ok(text) => text,
        Err(_) => return Err(ReadFault::Bad(IndexKey::Entries)),
    };
    match Path::read(alloc, text) {
        Ok(Some(path)) => Ok(path),
        Ok(None) => Err(ReadFault::Bad(IndexKey::Entries)),
        Err(AllocError) => Err(ReadFault::NoMemory),
    }
}

/// What an entry is: with its path alone a directory, else a file.
#[tactic(auto, unfolding(crate::specs::IndexText::known_in))]
fn read_known(alloc: Global, item: &Value) -> Result<Known, IndexFault>
    ensures value { ReadsAs result (known_in (view item.now)) }
    ensures proper { IfOk result HasFileMode }
{
    if has_only(item, &["path"]) {
        return Ok(Known::Dir);
    }
    let file = match file_in(item) {
        Ok(file) => file,
        Err(bad) => return Err(ReadFault::Bad(bad)),
    };
    let modifier = Text::copy(alloc, file.modifier)?;
    Ok(Known::File {
        id: file.id,
        own: file.own,
        size: file.size,
        mode: file.mode,
        mtime: file.mtime,
        modifier,
    })
}

/// What is read of a file's entry.
#[derive(Clone, Copy)]
struct FileParts<'a> {
    id: ObjId,
    own: ObjId,
    size: u64,
    mode: u32,
    mtime: i64,
    modifier: &'a str,
}

/// The entry of a file.
#[tactic(auto, unfolding(crate::specs::IndexText::file_in))]
fn file_in<'a>(item: &'a Value) -> Result<FileParts<'a>, IndexKey>
    ensures value { result_map file_seen result ≡ file_in (view item.now) }
    ensures proper { IfOk result (λ file. is_file_mode file.mode ≡ true) }
{
    if !has_file_keys(item) {
        return Err(IndexKey::Entries);
    }
    let id = at_entries(id_field(item, "id"))?;
    let mode = mode_in(item)?;
    let modifier = at_entries(text_field(item, "modifier"))?;
    let mtime = at_entries(integer_field(item, "mtime"))?;
    let own = at_entries(id_field(item, "own"))?;
    let size = at_entries(number_field(item, "size"))?;
    Ok(FileParts {
        id,
        own,
        size,
        mode,
        mtime,
        modifier,
    })
}

/// Whether an entry has no key but those of a file.
#[tactic(auto, unfolding(crate::specs::IndexText::file_keys))]
fn has_file_keys(item: &Value) -> bool
    ensures value { result ≡ has_only file_keys (view item.now) }
{
    has_only(
        item,
        &["id", "mode", "modifier", "mtime", "own", "path", "size"],
    )
}

/// A field's fault as that of an entry.
fn at_entries<T>(field: Result<T, FieldFault>) -> Result<T, IndexKey>
    ensures value { result ≡ at_key key.Entries field }
{
    match field {
        Ok(found) => Ok(found),
        Err(_) => Err(IndexKey::Entries),
    }
}

/// The mode of a file.
#[tactic(auto, unfolding(crate::specs::IndexText::mode_in))]
fn mode_in(item: &Value) -> Result<u32, IndexKey>
    ensures value { result ≡ mode_in (view item.now) }
    ensures proper { IfOk result (λ mode. is_file_mode mode ≡ true) }
{
    let mode = at_entries(number_between(item, "mode", 0, u64::from(u32::MAX)))? as u32;
    if is_file_mode(mode) {
        Ok(mode)
    } else {
        Err(IndexKey::Entries)
    }
}

/// Whether each entry stands in a directory of the entries.
fn all_stand(alloc: Global, entries: &PathTable<Known>) -> Result<bool, AllocError>
    ensures value { IfOk result (λ told. told ≡ all_stand entries.now) }
{
    for (path, _) in entries.iter() {
        let dir = path.parent(alloc)?;
        if !is_dir_in(entries, &dir) {
            return Ok(false);
        }
    }
    Ok(true)
}

/// Whether a path is the root or a directory of the entries.
fn is_dir_in(entries: &PathTable<Known>, dir: &Path) -> bool
    ensures value { result ≡ is_dir_in entries.now dir.now }
{
    dir.names().is_empty() || is_known_dir(entries.get(dir))
}

/// Whether a directory is known there.
fn is_known_dir(known: Option<&Known>) -> bool
    ensures value { result ≡ is_known_dir (option_copied known.entry) }
{
    match known {
        Some(Known::Dir) => true,
        Some(Known::File { .. }) => false,
        None => false,
    }
}
