//! The objects of one folder, in the order of their ids.
ghost use Rattle.std.specs.Prelude.{◌≡◌, ◌↔◌, IfOk, IsTrue};
ghost use Rattle.folder_storage.specs.Listing.{FindsListed, IsFoundUnder, key_of};
ghost use Rattle.folder_storage.specs.Paths.{IsNamed, IsReadAs};

use crate::file_system::{FileKind, FileSystem};
use crate::paths::{byte_digits, named_path, push_ascii};
use ids::{Key, KeyTable, Kind, ObjId};
use object_store::Found;
use std::alloc::{AllocError, Global};
use std::io;

/// The objects of a kind whose ids begin with one byte, with the numbers of their bytes.
#[derive(Drop)]
pub(crate) struct Listing {
    pub(crate) kind: Kind,
    pub(crate) first: u8,
    pub(crate) sizes: KeyTable<u64>,
}

impl Listing {
    /// Reads the folder at this path, which holds the objects of the kind whose ids begin with `first`. No folder is
    /// no objects. What is no object's file is passed over, and so is what is `torn`, which is sorted.
    pub(crate) fn read<F: FileSystem>(
        files: &mut F,
        path: &str,
        kind: Kind,
        first: u8,
        torn: &[Key],
    ) -> io::Result<Listing> {
        let mut sizes = KeyTable::new(files.alloc());
        let names = match files.list(path)? {
            Some(names) => names,
            None => Vec::new(files.alloc()),
        };
        for name in &names {
            if let Some(found) = found_at(files, path, first, name.as_str())? {
                let key = Key { kind, id: found.id };
                if torn.binary_search(&key).is_err() {
                    let _ = sizes.insert(key, found.size)?;
                }
            }
        }
        Ok(Listing { kind, first, sizes })
    }

    /// Whether it lists the objects of this kind whose ids begin with `first`.
    pub(crate) fn is_of(&self, kind: Kind, first: u8) -> bool
        ensures value { IsTrue result ↔ ((self.now.kind ≡ kind) × (self.now.first ≡ first)) }
    {
        self.kind == kind && self.first == first
    }

    /// The object with the least id above `after`, or with the least of all.
    pub(crate) fn next(&self, after: &Option<ObjId>) -> Option<Found>
        ensures value { FindsListed self.now.sizes self.now.kind after.now result }
    {
        let above = key_above(self.kind, after);
        match self.sizes.next(above) {
            Some(key) => found_under(&self.sizes, &key),
            None => None,
        }
    }
}

/// The key of a kind with this id, if there is one.
fn key_above(kind: Kind, after: &Option<ObjId>) -> Option<Key>
    ensures value { result ≡ key_of kind after.now }
{
    match after {
        Some(id) => Some(Key { kind, id: *id }),
        None => None,
    }
}

/// What is listed under a key.
fn found_under(sizes: &KeyTable<u64>, key: &Key) -> Option<Found>
    ensures value { IsFoundUnder sizes.now key.now result }
{
    match sizes.get(key) {
        Some(size) => Some(Found {
            id: key.id,
            size: *size,
        }),
        None => None,
    }
}

/// The object whose file has this name in a folder, if it is one.
fn found_at<F: FileSystem>(
    files: &mut F,
    folder: &str,
    first: u8,
    name: &str,
) -> io::Result<Option<Found>> {
    let id = match id_of(files.alloc(), first, name)? {
        Some(id) => id,
        None => return Ok(None),
    };
    let path = named_path(files.alloc(), folder, name)?;
    match files.look(path.as_str())? {
        Some(facts) if facts.kind == FileKind::File && !is_lost(&id, facts.size) => {
            Ok(Some(Found {
                id,
                size: facts.size,
            }))
        }
        _ => Ok(None),
    }
}

/// Whether a file of this size is what a loss of power left of an object: it is empty, and its name is not that of no
/// bytes. What is passed over can be put again.
fn is_lost(id: &ObjId, size: u64) -> bool {
    size == 0 && *id != ObjId::of(b"")
}

/// The id whose first byte this is and whose other 38 digits are the name.
pub(crate) fn id_of(alloc: Global, first: u8, name: &str) -> Result<Option<ObjId>, AllocError>
    ensures value { IfOk result (IsNamed first name.now) }
{
    let mut digits = String::with_capacity(alloc, name.len().saturating_add(2))?;
    push_ascii(&mut digits, &byte_digits(first))?;
    digits.push_str(name)?;
    Ok(id_read(digits.as_str()))
}

/// The id whose 40 digits a text is.
fn id_read(text: &str) -> Option<ObjId>
    ensures value { IsReadAs text.now result }
{
    match ObjId::read(text) {
        Ok(id) => Some(id),
        Err(_) => None,
    }
}
