//! What is known of stored trees.
ghost use Rattle.std.specs.Prelude.{◌≡◌, if◌then◌else◌, OnOk};
ghost use Rattle.std.specs.FinMap as map;
ghost use Rattle.tree_walk.specs.KnownTrees.{put_known};

use crate::contents::are_one;
use crate::extent::Extent;
use crate::reading::fs_key;
use ids::{IdList, Key, KeyTable, ObjId};
use std::alloc::{AllocError, Global};
use std::marker::Model;
use tree_model::MAX_PATHS;

/// Directories that are known to be whole, each with the number of paths below it and the greatest number of names that one
/// of them has; and files that are known to be whole.
///
/// It is of one store. Objects that are added to that store leave it right. Before an object leaves it is to be forgotten; or
/// kept for commits that don't need that object.
#[derive(Drop)]
pub struct Known {
    alloc: Global,
    /// What was learned since the rest was kept.
    directories: KeyTable<Extent>,
    files: KeyTable<()>,
    kept_directories: KeyTable<Extent>,
    kept_files: KeyTable<()>,
    /// The commits that need what was kept.
    commits: IdList,
}

impl Model for Known {
    ghost use Rattle.tree_walk.specs.KnownTrees.{KnownView, known_code};

    ghost Value = { KnownView };

    ghost coded = { known_code };

    ghost view = { λ a. record { directories = a.directories; files = a.files; kept_directories = a.kept_directories; kept_files = a.kept_files; commits = a.commits } };
}

impl Known {
    ghost use Rattle.std.specs.Prelude.{◌≡◌, ◌⊎◌, ◌≤◌, if◌then◌else◌, IfOk, IfSome, is_some, None, Some};
    ghost use Rattle.std.specs.FinMap as map;
    ghost use Rattle.ids.specs.declared.key.Key.{Key};
    ghost use Rattle.object_graph.specs.Objects.{fs_key};
    ghost use Rattle.object_graph.specs.Traversal.{is_in};
    ghost use Rattle.tree_model.specs.declared.limits.TheConstants.{MAX_PATHS};
    ghost use Rattle.tree_walk.specs.Checking.{IsWithin};
    ghost use Rattle.tree_walk.specs.KnownTrees.{KeepsFor, extent_known, file_known, nothing_known, with_directory, with_file};

    /// Nothing. It takes no memory.
    pub fn new(alloc: Global) -> Known
        ensures value { result ≡ nothing_known }
    {
        Known {
            alloc,
            directories: KeyTable::new(alloc),
            files: KeyTable::new(alloc),
            kept_directories: KeyTable::new(alloc),
            kept_files: KeyTable::new(alloc),
            commits: IdList::new(alloc),
        }
    }

    /// Forgets all.
    pub fn forget(&mut self)
        ensures value { self.new ≡ nothing_known }
    {
        self.directories = KeyTable::new(self.alloc);
        self.files = KeyTable::new(self.alloc);
        self.kept_directories = KeyTable::new(self.alloc);
        self.kept_files = KeyTable::new(self.alloc);
        self.commits = IdList::new(self.alloc);
    }

    /// Keeps for commits, of what is known, what is among these keys, and forgets the rest. They are to be keys that the commits
    /// need. What was kept for the same commits stays, and isn't gone over again. Where there is no memory for it all is forgotten.
    pub fn keep(&mut self, commits: &[ObjId], keys: &[Key])
        ensures value { KeepsFor commits.now keys.now self.old self.new ⊎ (self.new ≡ nothing_known) }
    {
        if are_one(self.commits.slice(), commits) {
            self.directories = KeyTable::new(self.alloc);
            self.files = KeyTable::new(self.alloc);
            return;
        }
        match self.among(commits, keys) {
            Ok(kept) => {
                *self = kept;
                return;
            }
            Err(_) => {
                self.forget();
                return;
            }
        }
    }

    /// What of it is among these keys, as kept for these commits.
    fn among(&self, commits: &[ObjId], keys: &[Key]) -> Result<Known, AllocError>
        ensures value { IfOk result (KeepsFor commits.now keys.now self.now) }
    {
        let commits = IdList::copy(self.alloc, commits)?;
        let kept_directories = self.directories_among(keys)?;
        let kept_files = self.files_among(keys)?;
        Ok(Known {
            alloc: self.alloc,
            directories: KeyTable::new(self.alloc),
            files: KeyTable::new(self.alloc),
            kept_directories,
            kept_files,
            commits,
        })
    }

    /// The directories among these keys that are known.
    fn directories_among(&self, keys: &[Key]) -> Result<KeyTable<Extent>, AllocError>
        ensures value { IfOk result (λ among. (key : Key) → map.get among key ≡ (if is_in keys.now key then extent_known self.now key else None)) }
    {
        let mut among = KeyTable::new(self.alloc);
        for key in keys {
            put_extent(&mut among, key, self.extent(key))?;
        }
        Ok(among)
    }

    /// The files among these keys that are known.
    fn files_among(&self, keys: &[Key]) -> Result<KeyTable<()>, AllocError>
        ensures value { IfOk result (λ among. (key : Key) → map.get among key ≡ (if is_in keys.now key then file_known self.now key else None)) }
    {
        let mut among = KeyTable::new(self.alloc);
        for key in keys {
            put_file(&mut among, key, self.has(key))?;
        }
        Ok(among)
    }

    /// What lies below the directory of a key, if it is known.
    fn extent(&self, key: &Key) -> Option<Extent>
        ensures value { result ≡ extent_known self.now key.now }
    {
        match self.directories.get(key) {
            Some(extent) => return Some(*extent),
            None => {}
        }
        match self.kept_directories.get(key) {
            Some(extent) => Some(*extent),
            None => None,
        }
    }

    /// Whether the file of a key is known.
    fn has(&self, key: &Key) -> bool
        ensures value { result ≡ is_some (file_known self.now key.now) }
    {
        if self.files.has(key) {
            return true;
        }
        self.kept_files.has(key)
    }

    /// What lies below a directory that is known, where it is within the limits at its place.
    pub(crate) fn fitting(&self, id: &ObjId, room: u32, paths: u64) -> Option<Extent>
        requires few { paths ≤ MAX_PATHS }
        ensures value { IfSome result (λ extent. extent_known self.now (fs_key id.now) ≡ Some extent) }
        ensures bound { IfSome result (IsWithin room paths) }
    {
        match self.extent(&fs_key(id)) {
            Some(extent) => if extent.deep <= room && extent.paths <= MAX_PATHS as u64 - paths {
                Some(extent)
            } else {
                None
            },
            None => None,
        }
    }

    /// Whether a file is known.
    pub(crate) fn has_file(&self, id: &ObjId) -> bool
        ensures value { result ≡ is_some (file_known self.now (fs_key id.now)) }
    {
        self.has(&fs_key(id))
    }

    /// Keeps what lies below a directory, where there is memory for it.
    pub(crate) fn learn(&mut self, id: &ObjId, extent: Extent)
        ensures value { (self.new ≡ self.old) ⊎ (self.new ≡ with_directory self.old id.now extent) }
    {
        match self.directories.insert(fs_key(id), extent) {
            Ok(_) => {}
            Err(_) => {}
        }
    }

    /// Keeps that a file is whole, where there is memory for it.
    pub(crate) fn learn_file(&mut self, id: &ObjId)
        ensures value { (self.new ≡ self.old) ⊎ (self.new ≡ with_file self.old id.now) }
    {
        match self.files.put(fs_key(id), ()) {
            Ok(()) => {}
            Err(_) => {}
        }
    }
}

/// Puts what lies below the directory of a key into a table, if it is known.
fn put_extent(
    among: &mut KeyTable<Extent>,
    key: &Key,
    extent: Option<Extent>,
) -> Result<(), AllocError>
    ensures ok { OnOk result (among.new ≡ put_known among.old key.now extent) }
{
    match extent {
        Some(extent) => among.put(*key, extent),
        None => Ok(()),
    }
}

/// Puts the key of a file into a table, if it is known.
fn put_file(among: &mut KeyTable<()>, key: &Key, is_known: bool) -> Result<(), AllocError>
    ensures ok { OnOk result (among.new ≡ (if is_known then map.insert among.old key.now tt else among.old)) }
{
    if is_known {
        return among.put(*key, ());
    }
    Ok(())
}
