//! The objects and the blocks of the files that are new or changed.
ghost use Rattle.std.specs.Prelude.{◌≡◌, OnOk, option_copied};
ghost use Rattle.folder_side.specs.declared.scan_report.Seen.TheVariants as seen;
ghost use Rattle.object_graph.specs.Objects.{fs_key};
ghost use Rattle.object_graph.specs.Unchanged.{Keeps};
ghost use Rattle.sha1.specs.Sha1.{sha1};
ghost use Rattle.tree_push.specs.ChangedOwns.{AreChangedOwns};
ghost use Rattle.tree_push.specs.OfferedEntries.{KnownPaths};
ghost use Rattle.tree_push.specs.Wanted.{AddsChanged, AddsFile, AddsIds, AddsIf, AddsText, AreOwnNamed, Grows, HasFile, HasFiles, HasIf, HasObject, IsKept, file_text};

use folder_side::Seen;
use fs_objects::{FileObject, FsObject};
use ids::{Bytes, Items, Key, KeyTable, Kind, ObjId};
use std::alloc::{AllocError, Global};
use tree_model::PathTable;

/// What may be lacking in a library: files and directories with their bytes, and blocks by their names.
#[derive(Drop)]
pub struct Wanted {
    pub made: KeyTable<Bytes>,
    pub blocks: KeyTable<()>,
}

/// Adds the objects and the blocks of all files that are new or changed: those that have their own ids in the second table.
pub fn add_files(
    alloc: Global,
    paths: &PathTable<Seen>,
    owns: &PathTable<ObjId>,
    wanted: &mut Wanted,
) -> Result<(), AllocError>
    ensures ok { (knowns : KnownPaths) → AreChangedOwns knowns paths.now owns.now → OnOk result (HasFiles knowns paths.now wanted.new) }
    ensures stays { OnOk result (Grows wanted.old wanted.new) }
    ensures within { (knowns : KnownPaths) → AreChangedOwns knowns paths.now owns.now → OnOk result (AddsChanged knowns paths.now wanted.old wanted.new) }
{
    for (path, seen) in paths.iter() {
        match add_seen(alloc, seen, owns.get(path), wanted) {
            Ok(()) => {}
            Err(failed) => return Err(failed),
        }
    }
    Ok(())
}

/// Adds those of what was seen at a path, if it is a file that is new or changed: `changed` is its own id then.
fn add_seen(
    alloc: Global,
    seen: &Seen,
    changed: Option<&ObjId>,
    wanted: &mut Wanted,
) -> Result<(), AllocError>
    ensures ok { OnOk result (HasIf seen.now (option_copied changed.entry) wanted.new) }
    ensures stays { OnOk result (Grows wanted.old wanted.new) }
    ensures within { OnOk result (AddsIf seen.now (option_copied changed.entry) wanted.old wanted.new) }
{
    match seen {
        Seen::Dir => Ok(()),
        Seen::File { blocks, size } => add_file(alloc, blocks.slice(), *size, changed, wanted),
    }
}

/// Adds those of a file, if it is new or changed.
fn add_file(
    alloc: Global,
    blocks: &[ObjId],
    size: u64,
    changed: Option<&ObjId>,
    wanted: &mut Wanted,
) -> Result<(), AllocError>
    ensures ok { OnOk result (HasIf (seen.File blocks.now size) (option_copied changed.entry) wanted.new) }
    ensures stays { OnOk result (Grows wanted.old wanted.new) }
    ensures within { OnOk result (AddsIf (seen.File blocks.now size) (option_copied changed.entry) wanted.old wanted.new) }
{
    match changed {
        Some(_own) => add_changed(alloc, blocks, size, wanted),
        None => Ok(()),
    }
}

fn add_changed(
    alloc: Global,
    blocks: &[ObjId],
    size: u64,
    wanted: &mut Wanted,
) -> Result<(), AllocError>
    ensures ok { OnOk result (HasFile wanted.new blocks.now size) }
    ensures stays { OnOk result (Grows wanted.old wanted.new) }
    ensures within { OnOk result (AddsFile blocks.now size wanted.old wanted.new) }
{
    add_blocks(blocks, &mut wanted.blocks)?;
    if size == 0 {
        return Ok(());
    }
    add_object(alloc, blocks, size, &mut wanted.made)
}

fn add_blocks(blocks: &[ObjId], wanted: &mut KeyTable<()>) -> Result<(), AllocError>
    ensures ok { OnOk result (AddsIds blocks.now wanted.old wanted.new) }
{
    for id in blocks {
        wanted.put(
            Key {
                kind: Kind::Block,
                id: *id,
            },
            (),
        )?;
    }
    Ok(())
}

/// Adds the object of a file under its name, unless something has it.
fn add_object(
    alloc: Global,
    blocks: &[ObjId],
    size: u64,
    made: &mut KeyTable<Bytes>,
) -> Result<(), AllocError>
    ensures ok { OnOk result (HasObject made.new blocks.now size) }
    ensures stays { OnOk result (Keeps made.old made.new) }
    ensures named { OnOk result (AreOwnNamed made.old → AreOwnNamed made.new) }
    ensures only { OnOk result (AddsText (file_text blocks.now size) made.old made.new) }
{
    let object = FsObject::File(FileObject {
        blocks: Items::copy(alloc, blocks)?,
        size,
    });
    let text = object.write(alloc)?;
    keep(text, made)
}

/// Keeps an object under its name, unless something has it.
fn keep(text: Bytes, made: &mut KeyTable<Bytes>) -> Result<(), AllocError>
    ensures ok { OnOk result (IsKept text made.new) }
    ensures stays { OnOk result (Keeps made.old made.new) }
    ensures named { OnOk result (AreOwnNamed made.old → AreOwnNamed made.new) }
    ensures only { OnOk result (AddsText text made.old made.new) }
{
    let key = Key {
        kind: Kind::Fs,
        id: ObjId::of(text.slice()),
    };
    keep_at(key, text, made)
}

fn keep_at(key: Key, text: Bytes, made: &mut KeyTable<Bytes>) -> Result<(), AllocError>
    requires named { key ≡ fs_key (sha1 text) }
    ensures ok { OnOk result (IsKept text made.new) }
    ensures stays { OnOk result (Keeps made.old made.new) }
    ensures named { OnOk result (AreOwnNamed made.old → AreOwnNamed made.new) }
    ensures only { OnOk result (AddsText text made.old made.new) }
{
    if made.has(&key) {
        return Ok(());
    }
    match made.put(key, text) {
        Ok(()) => Ok(()),
        Err(failed) => Err(failed),
    }
}
