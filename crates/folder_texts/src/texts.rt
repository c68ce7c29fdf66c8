//! Texts that are kept in a folder.
ghost use Rattle.std.specs.Prelude.{◌≡◌, ◌∷◌, [], Some, IfOk, is_some};
ghost use Rattle.std.specs.List.{list_any};
ghost use Rattle.folder_side.specs.Folder.{Changes, Contents, FolderFails, with_file};
ghost use Rattle.folder_texts.specs.FolderTexts.{is_file, is_file_of, text_at, without_text};

use crate::whole_file::read_whole;
use folder_side::{Folder, FolderFault, Item, ItemKind};
use ids::Bytes;
use std::alloc::{AllocError, Global};
use tree_model::{Name, Path};

/// The bytes of the file of this name in the folder itself; none where no file has it. Nothing is changed.
pub fn text_in<F: Folder>(
    alloc: Global,
    folder: &mut F,
    name: &Name,
) -> Result<Option<Bytes>, FolderFault>
    ensures value { (c : Contents) → F.told folder.old ≡ Some c → IfOk result (λ text. text ≡ text_at c name.now) }
    ensures stays { (F.told folder.new ≡ F.told folder.old) × (F.spare folder.new ≡ F.spare folder.old) }
    ensures faults { FolderFails (F.faults folder.old) (F.faults folder.new) result }
{
    let there = match has_text(alloc, folder, name) {
        Ok(there) => there,
        Err(fault) => return Err(fault),
    };
    if !there {
        return Ok(None);
    }
    let file = match path_of(alloc, name) {
        Ok(file) => file,
        Err(AllocError) => return Err(FolderFault::NoMemory),
    };
    match read_whole(alloc, folder, &file) {
        Ok(bytes) => Ok(Some(bytes)),
        Err(fault) => Err(fault),
    }
}

/// Puts a file of this name with these bytes into the folder itself, in place of one that is there. After a failure the old
/// or the new stands there, and all else is as it was.
pub fn put_text<F: Folder>(
    alloc: Global,
    folder: &mut F,
    name: &Name,
    text: &[u8],
) -> Result<(), FolderFault>
    ensures value { (c : Contents) → F.told folder.old ≡ Some c →
        Changes (with_file (name.now ∷ []) text.now) (F.told folder.old) (F.told folder.new) result }
    ensures faults { FolderFails (F.faults folder.old) (F.faults folder.new) result }
{
    let file = match path_of(alloc, name) {
        Ok(file) => file,
        Err(AllocError) => return Err(FolderFault::NoMemory),
    };
    if let Err(fault) = folder.spare_clear() {
        return Err(fault);
    }
    if let Err(fault) = folder.spare_add(text) {
        return Err(fault);
    }
    folder.spare_move(&file)
}

/// Takes the file of this name away from the folder itself; where no file has it nothing is changed. After a failure it may be
/// gone, and all else is as it was.
pub fn take_text<F: Folder>(alloc: Global, folder: &mut F, name: &Name) -> Result<(), FolderFault>
    ensures value { (c : Contents) → F.told folder.old ≡ Some c →
        Changes (without_text name.now) (F.told folder.old) (F.told folder.new) result }
    ensures faults { FolderFails (F.faults folder.old) (F.faults folder.new) result }
{
    let there = match has_text(alloc, folder, name) {
        Ok(there) => there,
        Err(fault) => return Err(fault),
    };
    if !there {
        return Ok(());
    }
    let file = match path_of(alloc, name) {
        Ok(file) => file,
        Err(AllocError) => return Err(FolderFault::NoMemory),
    };
    folder.remove(&file)
}

/// Whether a file of the folder itself has this name. Nothing is changed.
fn has_text<F: Folder>(alloc: Global, folder: &mut F, name: &Name) -> Result<bool, FolderFault>
    ensures value { (c : Contents) → F.told folder.old ≡ Some c → IfOk result (λ there. there ≡ is_some (text_at c name.now)) }
    ensures stays { (F.told folder.new ≡ F.told folder.old) × (F.spare folder.new ≡ F.spare folder.old) }
    ensures faults { FolderFails (F.faults folder.old) (F.faults folder.new) result }
{
    match folder.list(alloc, &Path::root(alloc)) {
        Ok(listing) => Ok(has_file(listing.items.slice(), name)),
        Err(fault) => Err(fault),
    }
}

/// The path of an entry of the folder itself.
fn path_of(alloc: Global, name: &Name) -> Result<Path, AllocError>
    ensures value { IfOk result (λ path. path ≡ name.now ∷ []) }
{
    Path::root(alloc).child(alloc, name)
}

/// Whether a file of this name is listed.
fn has_file(items: &[Item], name: &Name) -> bool
    ensures value { result ≡ list_any (is_file_of name.now) items.now }
{
    items.iter().any(|item| is_file_of(item, name))
}

/// Whether an entry is the file of this name.
fn is_file_of(item: &Item, name: &Name) -> bool
    ensures value { result ≡ is_file_of name.now item.now }
{
    item.name == *name && is_file(item.kind)
}

fn is_file(kind: ItemKind) -> bool
    ensures value { result ≡ is_file kind }
{
    match kind {
        ItemKind::File => true,
        ItemKind::Dir => false,
        ItemKind::Other => false,
    }
}
