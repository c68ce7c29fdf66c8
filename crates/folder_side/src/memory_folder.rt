//! A folder in memory, with calls that are to fail.

ghost use Rattle.std.specs.Prelude.{◌≡◌, ◌==◌, ◌⊎◌, ◌<◌, ◌≤◌, ◌++◌, ◌↔◌, [], true, ℕ, List, IsTrue, IsSome, is_some, Some, None, length, min, ◌-◌, false, IfOk, IfErr, OnOk, OnErr, if◌then◌else◌};
ghost use Rattle.std.specs.List.{list_any};
ghost use Rattle.std.specs.Option.{option_map};
ghost use Rattle.folder_side.specs.declared.error.FolderFault.TheVariants as fault;
ghost use Rattle.ids.specs.Outcome.{Exactly};
ghost use Rattle.folder_side.specs.Folder.{Contents, IsFolder, Changes, PartAt, listing_at, with_file, with_dir, with_holding, without, at, is_dir_at, kind_of, FolderFails, IsFree, TakesFile, IsRemovable};
ghost use Rattle.tree_model.specs.Path.{parent_of};
ghost use Rattle.folder_side.specs.declared.holding.Holding.TheVariants.{File};
ghost use Rattle.ids.specs.FaultCount.{counted};
ghost use Rattle.folder_side.specs.MemoryFolder.{nothing, bytes_of, with_nameless, fails_next, after_call, after_fault, is_want, FailsIf};

use crate::error::FolderFault;
use crate::folder::{Ahead, Folder, ItemKind, Listing};
use crate::holding::Holding;
use crate::memory_bytes::{add_to, copy_part};
use crate::memory_contents::MemoryContents;
use ids::{Bytes, Items};
use std::alloc::{AllocError, Global};
use tree_model::{Path, PathTable};

/// A folder in memory that tells what it holds, for tests.
///
/// The first call has number 0, the next 1, and so on; a call whose number stands in `fails` fails and
/// changes nothing. A call that can't be done, such as a listing of a file, fails too. After want of memory
/// the folder is as it was, but for the spare, which `spare_move` may lose then.
#[derive(Drop)]
pub struct MemoryFolder {
    contents: MemoryContents,
    spare: Option<Bytes>,
    fails: Items<u64>,
    calls: u64,
    faults: u64,
    alloc: Global,
}

impl MemoryFolder {
    /// A folder without an entry and without a spare. It takes no memory.
    pub fn new(alloc: Global, fails: Items<u64>) -> MemoryFolder
        ensures value { (result.contents ≡ nothing) × (result.spare ≡ None) × (result.fails ≡ fails) × (result.calls ≡ 0) × (result.faults ≡ 0) }
    {
        MemoryFolder {
            contents: MemoryContents::new(alloc),
            spare: None,
            fails,
            calls: 0,
            faults: 0,
            alloc,
        }
    }

    /// What stands at each path.
    pub fn paths(&self) -> &PathTable<Holding>
        ensures value { result.now ≡ self.now.contents.paths }
        ensures formed { IsFolder self.now.contents }
    {
        self.contents.paths()
    }

    /// The number of failed calls.
    pub fn faults(&self) -> u64
        ensures value { result ≡ self.now.faults }
    {
        self.faults
    }

    /// Puts an entry into the folder, for a test. It is no call of the folder. It tells `true` exactly where
    /// the path has a directory to stand in and nothing stands there yet; else nothing changes.
    pub fn add(&mut self, path: Path, holding: Holding) -> Result<bool, AllocError>
        ensures value { IfOk result (λ done. IsTrue done ↔ IsFree self.old.contents path) }
        ensures ok { IfOk result (λ done. self.new ≡ (if done then record self.old { contents = with_holding path holding self.old.contents } else self.old)) }
        ensures err { OnErr result (self.new ≡ self.old) }
    {
        if !self.contents.is_free(self.alloc, &path)? {
            return Ok(false);
        }
        self.contents.put(path, holding)?;
        Ok(true)
    }

    /// Sets how many entries of a directory have no good name, for a test. It is no call of the folder. It
    /// tells `true` exactly where the path is the folder itself or a directory in it; else nothing changes.
    pub fn set_nameless(&mut self, dir: Path, count: u64) -> Result<bool, AllocError>
        ensures value { IfOk result (λ done. IsTrue done ↔ (is_dir_at self.old.contents dir ≡ true)) }
        ensures ok { IfOk result (λ done. self.new ≡ (if done then record self.old { contents = with_nameless dir count self.old.contents } else self.old)) }
        ensures err { OnErr result (self.new ≡ self.old) }
    {
        if !self.contents.is_dir(&dir) {
            return Ok(false);
        }
        self.contents.set_nameless(dir, count)?;
        Ok(true)
    }
}

/// Counts a call, and tells whether it is to fail.
fn begin_call(folder: &mut MemoryFolder) -> bool
    ensures value { result ≡ fails_next folder.old }
    ensures ok { folder.new ≡ after_call folder.old }
{
    let due = is_due_at(folder.fails.slice(), folder.calls);
    folder.calls = folder.calls.saturating_add(1);
    due
}

/// Counts a fault.
fn fail<T>(folder: &mut MemoryFolder) -> Result<T, FolderFault>
    ensures value { result ≡ Err fault.Folder }
    ensures ok { folder.new ≡ record folder.old { faults = counted folder.old.faults } }
    ensures faults { FolderFails folder.old.faults folder.new.faults result }
{
    folder.faults = folder.faults.saturating_add(1);
    Err(FolderFault::Folder)
}

/// Whether the call of this number is to fail.
fn is_due_at(fails: &[u64], number: u64) -> bool
    ensures value { result ≡ list_any (λ n. n == number) fails.now }
{
    fails.iter().any(|n| *n == number)
}

impl Folder for MemoryFolder {
    ghost told = { λ folder. Some folder.contents };

    ghost spare = { λ folder. folder.spare };

    ghost faults = { λ folder. folder.faults };

    ghost trace = { λ _. None };

    fn list(&mut self, alloc: Global, dir: &Path) -> Result<Listing, FolderFault>
        ensures formed { (c : Contents) → Some self.old.contents ≡ Some c → OnOk result (IsFolder c) }
        ensures listed { (c : Contents) → Some self.old.contents ≡ Some c → IfOk result (λ listing. Some listing ≡ listing_at c dir.now) }
        ensures stays { (Some self.new.contents ≡ Some self.old.contents) × (self.new.spare ≡ self.old.spare) }
        ensures faults { FolderFails self.old.faults self.new.faults result }

        // It fails exactly where it is to fail, and where the path is no directory.
        ensures folder { Exactly is_want result fault.Folder (FailsIf self.old (listing_at self.old.contents dir.now ≡ None)) }
        ensures ok { OnOk result (self.new ≡ after_call self.old) }
        ensures err { IfErr result (λ e. self.new ≡ after_fault e self.old) }
    {
        if begin_call(self) {
            return fail(self);
        }
        match self.contents.list(alloc, dir) {
            Ok(Some(listing)) => Ok(listing),
            Ok(None) => fail(self),
            Err(AllocError) => Err(FolderFault::NoMemory),
        }
    }

    fn look(&mut self, path: &Path) -> Result<Option<ItemKind>, FolderFault>
        ensures formed { (c : Contents) → Some self.old.contents ≡ Some c → OnOk result (IsFolder c) }
        ensures found { (c : Contents) → Some self.old.contents ≡ Some c → OnOk result (is_dir_at c (parent_of path.now) ≡ true) }
        ensures value { (c : Contents) → Some self.old.contents ≡ Some c → IfOk result (λ kind. kind ≡ option_map kind_of (at c path.now)) }
        ensures stays { (Some self.new.contents ≡ Some self.old.contents) × (self.new.spare ≡ self.old.spare) }
        ensures faults { FolderFails self.old.faults self.new.faults result }

        // It fails exactly where it is to fail, and where the path stands in no directory.
        ensures folder { Exactly is_want result fault.Folder (FailsIf self.old (is_dir_at self.old.contents (parent_of path.now) ≡ false)) }
        ensures ok { OnOk result (self.new ≡ after_call self.old) }
        ensures err { IfErr result (λ e. self.new ≡ after_fault e self.old) }
    {
        if begin_call(self) {
            return fail(self);
        }
        let dir = match path.parent(self.alloc) {
            Ok(dir) => dir,
            Err(AllocError) => return Err(FolderFault::NoMemory),
        };
        if !self.contents.is_dir(&dir) {
            return fail(self);
        }
        Ok(self.contents.kind(path))
    }

    fn open_file(&mut self, file: &Path) -> Result<bool, FolderFault>
        ensures value { (c : Contents) → Some self.old.contents ≡ Some c → IfOk result (λ there. there ≡ is_some (at c file.now)) }
        ensures stays { (Some self.new.contents ≡ Some self.old.contents) × (self.new.spare ≡ self.old.spare) }
        ensures faults { FolderFails self.old.faults self.new.faults result }

        // It fails exactly where it is to fail.
        ensures folder { Exactly is_want result fault.Folder (IsTrue (fails_next self.old)) }
        ensures ok { OnOk result (self.new ≡ after_call self.old) }
        ensures err { IfErr result (λ e. self.new ≡ after_fault e self.old) }
    {
        if begin_call(self) {
            return fail(self);
        }
        Ok(self.contents.has(file))
    }

    fn is_as_opened(&mut self, file: &Path) -> Result<bool, FolderFault>
        ensures value { (c : Contents) → Some self.old.contents ≡ Some c → IfOk result (λ same. same ≡ true) }
        ensures stays { (Some self.new.contents ≡ Some self.old.contents) × (self.new.spare ≡ self.old.spare) }
        ensures faults { FolderFails self.old.faults self.new.faults result }

        // It fails exactly where it is to fail.
        ensures folder { Exactly is_want result fault.Folder (IsTrue (fails_next self.old)) }
        ensures ok { OnOk result (self.new ≡ after_call self.old) }
        ensures err { IfErr result (λ e. self.new ≡ after_fault e self.old) }
    {
        let _ = file;
        if begin_call(self) {
            return fail(self);
        }
        Ok(true)
    }

    fn read(&mut self, file: &Path, place: u64, into: &mut [u8]) -> Result<usize, FolderFault>
        requires some { 0 < length into.old }
        ensures bound { IfOk result (λ count. count ≤ length into.new) }
        ensures value { (c : Contents) → Some self.old.contents ≡ Some c → IfOk result (λ count. PartAt (at c file.now) place count into.new) }
        ensures stays { (Some self.new.contents ≡ Some self.old.contents) × (self.new.spare ≡ self.old.spare) }
        ensures faults { FolderFails self.old.faults self.new.faults result }

        // It fails exactly where it is to fail, and where the path is no file; and it gives as many bytes as it may.
        ensures folder { Exactly is_want result fault.Folder (FailsIf self.old (bytes_of (at self.old.contents file.now) ≡ None)) }
        ensures told { (bytes : List ℕ) → at self.old.contents file.now ≡ Some (File bytes) →
            IfOk result (λ count. count ≡ min (length into.old) (length bytes - place)) }
        ensures ok { OnOk result (self.new ≡ after_call self.old) }
        ensures err { IfErr result (λ e. self.new ≡ after_fault e self.old) }
    {
        if begin_call(self) {
            return fail(self);
        }
        match self.contents.file(file) {
            Some(bytes) => Ok(copy_part(bytes, place, into)),
            None => fail(self),
        }
    }

    fn spare_clear(&mut self) -> Result<(), FolderFault>
        ensures ok { (c : Contents) → Some self.old.contents ≡ Some c → OnOk result (self.new.spare ≡ Some []) }
        ensures stays { Some self.new.contents ≡ Some self.old.contents }
        ensures faults { FolderFails self.old.faults self.new.faults result }

        // It fails exactly where it is to fail.
        ensures folder { Exactly is_want result fault.Folder (IsTrue (fails_next self.old)) }
        ensures told { OnOk result (self.new ≡ record (after_call self.old) { spare = Some [] }) }
        ensures err { IfErr result (λ e. self.new ≡ after_fault e self.old) }
    {
        if begin_call(self) {
            return fail(self);
        }
        self.spare = Some(Items::new(self.alloc));
        Ok(())
    }

    fn spare_add(&mut self, bytes: &[u8]) -> Result<(), FolderFault>
        ensures ok { OnOk result (self.new.spare ≡ option_map (λ held. held ++ bytes.now) self.old.spare) }
        ensures stays { Some self.new.contents ≡ Some self.old.contents }
        ensures faults { FolderFails self.old.faults self.new.faults result }

        // It fails exactly where it is to fail, and where there is no spare.
        ensures folder { Exactly is_want result fault.Folder (FailsIf self.old (self.old.spare ≡ None)) }
        ensures told { OnOk result (self.new ≡ record (after_call self.old) { spare = option_map (λ held. held ++ bytes.now) self.old.spare }) }
        ensures err { IfErr result (λ e. self.new ≡ after_fault e self.old) }
    {
        if begin_call(self) {
            return fail(self);
        }
        match add_to(&mut self.spare, bytes) {
            Ok(true) => Ok(()),
            Ok(false) => fail(self),
            Err(AllocError) => Err(FolderFault::NoMemory),
        }
    }

    fn spare_sync(&mut self) -> Result<(), FolderFault>
        ensures found { (c : Contents) → Some self.old.contents ≡ Some c → OnOk result (IsSome self.old.spare) }
        ensures stays { (Some self.new.contents ≡ Some self.old.contents) × (self.new.spare ≡ self.old.spare) }
        ensures faults { FolderFails self.old.faults self.new.faults result }

        // It fails exactly where it is to fail, and where there is no spare.
        ensures folder { Exactly is_want result fault.Folder (FailsIf self.old (self.old.spare ≡ None)) }
        ensures ok { OnOk result (self.new ≡ after_call self.old) }
        ensures err { IfErr result (λ e. self.new ≡ after_fault e self.old) }
    {
        if begin_call(self) || self.spare.is_none() {
            return fail(self);
        }
        Ok(())
    }

    fn spare_move(&mut self, file: &Path) -> Result<(), FolderFault>
        ensures ok { (bytes : List ℕ) → self.old.spare ≡ Some bytes →
            Changes (with_file file.now bytes) (Some self.old.contents) (Some self.new.contents) result }
        ensures found { (c : Contents) → Some self.old.contents ≡ Some c → OnOk result (IsSome self.old.spare × TakesFile c file.now) }
        ensures stays { self.old.spare ≡ None → Some self.new.contents ≡ Some self.old.contents }
        ensures faults { FolderFails self.old.faults self.new.faults result }

        // It fails exactly where it is to fail, where there is no spare, and where a file can't stand.
        ensures folder { Exactly is_want result fault.Folder
            (FailsIf self.old ((self.old.spare ≡ None) ⊎ (TakesFile self.old.contents file.now → ⊥))) }
        ensures told { (bytes : List ℕ) → self.old.spare ≡ Some bytes →
            OnOk result (self.new ≡ record (after_call self.old) { contents = with_file file.now bytes self.old.contents; spare = None }) }
        ensures err { IfErr result (λ e. (self.new ≡ after_fault e self.old)
            ⊎ ((e ≡ fault.NoMemory) × (self.new ≡ record (after_fault e self.old) { spare = None }))) }
    {
        if begin_call(self) {
            return fail(self);
        }
        match self.move_spare(file) {
            Ok(true) => Ok(()),
            Ok(false) => fail(self),
            Err(AllocError) => Err(FolderFault::NoMemory),
        }
    }

    fn make_dir(&mut self, dir: &Path) -> Result<(), FolderFault>
        ensures ok { Changes (with_dir dir.now) (Some self.old.contents) (Some self.new.contents) result }
        ensures absent { (c : Contents) → Some self.old.contents ≡ Some c → OnOk result (IsFree c dir.now) }
        ensures stays { self.new.spare ≡ self.old.spare }
        ensures faults { FolderFails self.old.faults self.new.faults result }

        // It fails exactly where it is to fail, and where a directory can't be made.
        ensures folder { Exactly is_want result fault.Folder (FailsIf self.old (IsFree self.old.contents dir.now → ⊥)) }
        ensures told { OnOk result (self.new ≡ record (after_call self.old) { contents = with_dir dir.now self.old.contents }) }
        ensures err { IfErr result (λ e. self.new ≡ after_fault e self.old) }
    {
        if begin_call(self) {
            return fail(self);
        }
        match self.put_dir(dir) {
            Ok(true) => Ok(()),
            Ok(false) => fail(self),
            Err(AllocError) => Err(FolderFault::NoMemory),
        }
    }

    fn remove(&mut self, path: &Path) -> Result<(), FolderFault>
        ensures ok { Changes (without path.now) (Some self.old.contents) (Some self.new.contents) result }
        ensures found { (c : Contents) → Some self.old.contents ≡ Some c → OnOk result (IsRemovable c path.now (at c path.now)) }
        ensures stays { self.new.spare ≡ self.old.spare }
        ensures faults { FolderFails self.old.faults self.new.faults result }

        // It fails exactly where it is to fail, and where the entry can't be removed.
        ensures folder { Exactly is_want result fault.Folder
            (FailsIf self.old (IsRemovable self.old.contents path.now (at self.old.contents path.now) → ⊥)) }
        ensures told { OnOk result (self.new ≡ record (after_call self.old) { contents = without path.now self.old.contents }) }
        ensures err { IfErr result (λ e. self.new ≡ after_fault e self.old) }
    {
        if begin_call(self) {
            return fail(self);
        }
        if !self.contents.is_removable(path) {
            return fail(self);
        }
        self.contents.remove(path);
        Ok(())
    }

    fn ahead(&self, ahead: Ahead) {
        let _ = ahead;
    }
}

impl MemoryFolder {
    /// Moves the spare to a path, and tells whether there was one and it could stand there. After want of memory the
    /// spare may be gone.
    fn move_spare(&mut self, file: &Path) -> Result<bool, AllocError>
        ensures value { IfOk result (λ done. IsTrue done ↔ (IsSome self.old.spare × TakesFile self.old.contents file.now)) }
        ensures ok { (bytes : List ℕ) → self.old.spare ≡ Some bytes → IfOk result
            (λ done. self.new ≡ (if done then record self.old { contents = with_file file.now bytes self.old.contents; spare = None } else self.old)) }
        ensures stays { IfOk result (λ done. done ≡ false → self.new ≡ self.old) }
        ensures faults { OnOk result (self.new.faults ≡ self.old.faults) }
        ensures err { OnErr result ((self.new ≡ self.old) ⊎ (self.new ≡ record self.old { spare = None })) }
    {
        if self.spare.is_none() || !self.contents.takes_file(self.alloc, file)? {
            return Ok(false);
        }
        let path = file.copy(self.alloc)?;
        match self.spare.take() {
            None => Ok(false),
            Some(bytes) => {
                self.contents.put(path, Holding::File(bytes))?;
                Ok(true)
            }
        }
    }

    /// Makes a directory, and tells whether one could be made.
    fn put_dir(&mut self, dir: &Path) -> Result<bool, AllocError>
        ensures value { IfOk result (λ done. IsTrue done ↔ IsFree self.old.contents dir.now) }
        ensures ok { IfOk result (λ done. self.new ≡ (if done then record self.old { contents = with_dir dir.now self.old.contents } else self.old)) }
        ensures err { OnErr result (self.new ≡ self.old) }
    {
        let path = dir.copy(self.alloc)?;
        self.add(path, Holding::Dir)
    }
}
