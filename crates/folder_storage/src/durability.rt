//! How what was put is made durable: every object, and then every folder that names one.
ghost use Rattle.std.specs.Prelude.{◌≡◌, ◌⊎◌, ℕ, List, [], ◌∷◌, IfErr, IfOk, IsTrue, OnErr, OnOk, Option, is_ok, map, slice_index};
ghost use Rattle.folder_storage.specs.Durability.{AreAmong, AreNamedIn, BeganSyncs, EndedSyncs, FailsAsDisk, Gathered, In, MakesDurable, OnlySyncs, PutObject, PutText, Step, SyncedObject, SyncedDirectory, fault_kind, with_steps};

use ids::{Key, Kind};
use std::alloc::{AllocError, Global};
use std::io;

/// A folder whose names are made durable.
#[derive(Clone, Copy, Debug, PartialEq, Eq)]
pub(crate) enum Directory {
    /// That of a kind's objects whose ids begin with this byte.
    Objects(Kind, u8),
    /// That of a kind.
    OfKind(Kind),
}

/// The calls by which objects are put and made durable, and a state text after them. A disk may tell what was done; the
/// one over files tells nothing, and `ToldDisk` tells all.
pub(crate) trait Disk {
    ghost use Rattle.std.specs.Prelude.{Bool};
    ghost use Rattle.std.specs.declared.io.ErrorKind.{ErrorKind};
    ghost use Rattle.ids.specs.declared.key.Key.{Key};
    ghost use Rattle.folder_storage.specs.Durability.{Step};

    /// What is known of an object that was written beside its slot.
    type Way;

    /// What is known of objects whose files were synced at once, and of folders whose names were.
    type Files: Drop;

    type Names: Drop;

    // What was done, in its order.
    ghost steps: { Self → Option (List Step) };

    // What a put of an object's bytes, done or not, may make of the disk as it was.
    ghost puts: { Key → List ℕ → Bool → Self → Self → Type 0 };

    // How many calls that may fail it does in all.
    ghost calls: { Self → ℕ };

    // What is known of it after a call that ended so: done, or failed with an error of this kind.
    ghost ends: { Option ErrorKind → Self → Type 0 };

    /// Moves the object that was written beside into its slot. After a failure it may be there.
    fn put_object(&mut self, key: &Key, bytes: &[u8], way: &Self::Way) -> io::Result<()>
        ensures ok { OnOk result (steps self.new ≡ with_steps (steps self.old) (PutObject key.now ∷ [])) }
        ensures err { OnErr result ((steps self.new ≡ steps self.old)
            ⊎ (steps self.new ≡ with_steps (steps self.old) (PutObject key.now ∷ []))) }
        ensures after { puts key.now bytes.now (is_ok result) self.old self.new }
        ensures cause { ends (fault_kind result) self.new }
        ensures count { calls self.new ≡ calls self.old };

    /// Adds what was put before this run, and may not be durable, to the list. It fails where no text may be put.
    fn gather(&mut self, keys: &mut Vec<Key>) -> io::Result<()>
        ensures listed { AreAmong keys.old.items keys.new.items }
        ensures ok { OnOk result (steps self.new ≡ with_steps (steps self.old) (Gathered keys.new.items ∷ [])) }
        ensures err { OnErr result (steps self.new ≡ steps self.old) }
        ensures cause { ends (fault_kind result) self.new }
        ensures count { calls self.new ≡ calls self.old };

    /// Comes before the syncs of these objects.
    fn begin_syncs(&mut self, keys: &[Key]) -> io::Result<()>
        ensures ok { OnOk result (steps self.new ≡ with_steps (steps self.old) (BeganSyncs keys.now ∷ [])) }
        ensures err { OnErr result (steps self.new ≡ steps self.old) }
        ensures cause { ends (fault_kind result) self.new }
        ensures count { calls self.new ≡ calls self.old };

    /// Syncs the files of these objects at once, as far as it can. What came of each is told by `sync_object`.
    fn begin_files(&mut self, keys: &[Key]) -> io::Result<Self::Files>
        ensures stays { steps self.new ≡ steps self.old }
        ensures cause { ends (fault_kind result) self.new }
        ensures count { calls self.new ≡ calls self.old };

    /// Makes an object's file durable, unless that was done with others.
    fn sync_object(&mut self, files: &Self::Files, key: &Key) -> io::Result<()>
        ensures ok { OnOk result (steps self.new ≡ with_steps (steps self.old) (SyncedObject key.now ∷ [])) }
        ensures err { OnErr result (steps self.new ≡ steps self.old) }
        ensures cause { ends (fault_kind result) self.new }
        ensures count { calls self.new ≡ calls self.old };

    /// Syncs the names in these folders at once, as far as it can. What came of each is told by `sync_directory`.
    fn begin_names(&mut self, directories: &[Directory]) -> io::Result<Self::Names>
        ensures stays { steps self.new ≡ steps self.old }
        ensures cause { ends (fault_kind result) self.new }
        ensures count { calls self.new ≡ calls self.old };

    /// Makes the names in a folder durable, unless that was done with others.
    fn sync_directory(&mut self, names: &Self::Names, directory: Directory) -> io::Result<()>
        ensures ok { OnOk result (steps self.new ≡ with_steps (steps self.old) (SyncedDirectory directory ∷ [])) }
        ensures err { OnErr result (steps self.new ≡ steps self.old) }
        ensures cause { ends (fault_kind result) self.new }
        ensures count { calls self.new ≡ calls self.old };

    /// Comes after the syncs, and is told whether all were done.
    fn end_syncs(&mut self, is_synced: bool)
        ensures told { steps self.new ≡ with_steps (steps self.old) (EndedSyncs is_synced ∷ []) }
        ensures cause { (kind : Option ErrorKind) → ends kind self.old → ends kind self.new }
        ensures count { calls self.new ≡ calls self.old };

    /// Puts the state text, durably. After a failure it may be there.
    fn put_text(&mut self, text: &[u8]) -> io::Result<()>
        ensures ok { OnOk result (steps self.new ≡ with_steps (steps self.old) (PutText text.now ∷ [])) }
        ensures err { OnErr result ((steps self.new ≡ steps self.old)
            ⊎ (steps self.new ≡ with_steps (steps self.old) (PutText text.now ∷ []))) }
        ensures cause { ends (fault_kind result) self.new }
        ensures count { calls self.new ≡ calls self.old };
}

/// Makes the objects durable, and then the folders that name them, up to the first failure.
pub(crate) fn make_durable<D: Disk>(alloc: Global, disk: &mut D, keys: &[Key]) -> io::Result<()>
    ensures value { MakesDurable (D.steps disk.old) (D.steps disk.new) keys.now result }
    ensures cause { FailsAsDisk D.ends disk.new result }
    ensures count { D.calls disk.new ≡ D.calls disk.old }
{
    let directories = match directories_of(alloc, keys) {
        Ok(directories) => directories,
        Err(failure) => return Err(io::Error::from(failure)),
    };
    if let Err(failure) = sync_objects(disk, keys) {
        return Err(failure);
    }
    sync_directories(disk, directories.as_slice())
}

/// Makes the objects' files durable, up to the first failure.
fn sync_objects<D: Disk>(disk: &mut D, keys: &[Key]) -> io::Result<()>
    ensures ok { OnOk result (D.steps disk.new ≡ with_steps (D.steps disk.old) (map SyncedObject keys.now)) }
    ensures err { OnErr result (OnlySyncs (D.steps disk.old) (D.steps disk.new)) }
    ensures cause { FailsAsDisk D.ends disk.new result }
    ensures count { D.calls disk.new ≡ D.calls disk.old }
{
    let files = match disk.begin_files(keys) {
        Ok(files) => files,
        Err(failure) => return Err(failure),
    };
    sync_each_object(disk, &files, keys)
}

/// Makes the objects' files durable one after another, up to the first failure.
fn sync_each_object<D: Disk>(disk: &mut D, files: &D::Files, keys: &[Key]) -> io::Result<()>
    ensures ok { OnOk result (D.steps disk.new ≡ with_steps (D.steps disk.old) (map SyncedObject keys.now)) }
    ensures err { OnErr result (OnlySyncs (D.steps disk.old) (D.steps disk.new)) }
    ensures cause { FailsAsDisk D.ends disk.new result }
    ensures count { D.calls disk.new ≡ D.calls disk.old }
{
    for key in keys {
        if let Err(failure) = disk.sync_object(files, key) {
            return Err(failure);
        }
    }
    Ok(())
}

/// Makes the names in the folders durable, up to the first failure.
fn sync_directories<D: Disk>(disk: &mut D, directories: &[Directory]) -> io::Result<()>
    ensures ok { OnOk result (D.steps disk.new ≡ with_steps (D.steps disk.old) (map SyncedDirectory directories.now)) }
    ensures err { OnErr result (OnlySyncs (D.steps disk.old) (D.steps disk.new)) }
    ensures cause { FailsAsDisk D.ends disk.new result }
    ensures count { D.calls disk.new ≡ D.calls disk.old }
{
    let names = match disk.begin_names(directories) {
        Ok(names) => names,
        Err(failure) => return Err(failure),
    };
    sync_each_directory(disk, &names, directories)
}

/// Makes the names in the folders durable one after another, up to the first failure.
fn sync_each_directory<D: Disk>(
    disk: &mut D,
    names: &D::Names,
    directories: &[Directory],
) -> io::Result<()>
    ensures ok { OnOk result (D.steps disk.new ≡ with_steps (D.steps disk.old) (map SyncedDirectory directories.now)) }
    ensures err { OnErr result (OnlySyncs (D.steps disk.old) (D.steps disk.new)) }
    ensures cause { FailsAsDisk D.ends disk.new result }
    ensures count { D.calls disk.new ≡ D.calls disk.old }
{
    for directory in directories {
        if let Err(failure) = disk.sync_directory(names, *directory) {
            return Err(failure);
        }
    }
    Ok(())
}

/// The folders that name these objects, once each.
fn directories_of(alloc: Global, keys: &[Key]) -> Result<Vec<Directory>, AllocError>
    ensures named { IfOk result (λ directories. AreNamedIn keys.now directories.items) }
{
    let mut directories = Vec::new(alloc);
    for key in keys {
        add(
            &mut directories,
            Directory::Objects(key.kind, first_byte(key)),
        )?;
        add(&mut directories, Directory::OfKind(key.kind))?;
    }
    Ok(directories)
}

/// Adds a directory, unless it is there.
fn add(directories: &mut Vec<Directory>, directory: Directory) -> Result<(), AllocError>
    ensures ok { OnOk result (In directory directories.new.items) }
    ensures stays { OnOk result ((other : Directory) → In other directories.old.items → In other directories.new.items) }
{
    if has(directories.as_slice(), directory) {
        return Ok(());
    }
    directories.push(directory)?;
    Ok(())
}

/// Whether a directory is among these.
fn has(directories: &[Directory], directory: Directory) -> bool
    ensures found { IsTrue result → In directory directories.now }
{
    for other in directories {
        if is_same(other, &directory) {
            return true;
        }
    }
    false
}

/// Whether two directories are one.
pub(crate) fn is_same(one: &Directory, other: &Directory) -> bool
    ensures value { IsTrue result → other.now ≡ one.now }
{
    *one == *other
}

/// The first byte of a key's id.
pub(crate) fn first_byte(key: &Key) -> u8
    ensures value { result ≡ slice_index key.now.id 0 }
{
    key.id.as_bytes()[0]
}
