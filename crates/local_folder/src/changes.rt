//! The changes of a folder, each durable as it ends.
ghost use Rattle.std.specs.Prelude.{◌≡◌, ◌⊎◌, ◌∷◌, ◌++◌, [], IfOk, IsTrue};
ghost use Rattle.local_folder.specs.Steps.{Does, DoesAll, Empties, MadeDirectory, Moved, Removed, SyncedNames, made, moved_in, spare_path, taken, with_steps};
ghost use Rattle.tree_model.specs.Path.{PathV};

use crate::directory_calls::{DirectoryCalls, EntryKind};
use crate::entries::{SPARE, is_spare, no_entry, open_at};
use std::io;
use std::io::ErrorKind;
use tree_model::Name;

/// The failure of a change where something else stands.
fn in_the_way() -> io::Error {
    io::Error::new(
        ErrorKind::AlreadyExists,
        "something else stands there, or under its name in another case",
    )
}

/// Takes a spare that is there away. Anything else of its name is a fault.
pub(crate) fn sweep<C: DirectoryCalls>(calls: &mut C, root: &C::Dir) -> io::Result<()>
    requires root { IsTrue (C.stands_at root.now []) }
    ensures only { (C.steps calls.new ≡ C.steps calls.old) ⊎ (C.steps calls.new ≡ with_steps (C.steps calls.old) (Removed spare_path ∷ [])) }
{
    let found = match calls.look(root, SPARE) {
        Ok(found) => found,
        Err(failure) => return Err(failure),
    };
    match found {
        None => Ok(()),
        Some(EntryKind::File) => calls.remove_file(root, SPARE),
        Some(_) => Err(in_the_way()),
    }
}

/// An empty spare, in place of one that is there.
pub(crate) fn new_spare<C: DirectoryCalls>(calls: &mut C, root: &C::Dir) -> io::Result<C::File>
    requires root { IsTrue (C.stands_at root.now []) }
    ensures order { Empties (C.steps calls.old) (C.steps calls.new) result }
{
    if let Err(failure) = sweep(calls, root) {
        return Err(failure);
    }
    calls.create(root, SPARE)
}

/// Moves the spare to a path, in place of a file that is there: its name is durable after.
pub(crate) fn move_spare<C: DirectoryCalls>(
    calls: &mut C,
    root: &C::Dir,
    names: &[Name],
) -> io::Result<()>
    requires root { IsTrue (C.stands_at root.now []) }
    ensures order { DoesAll (moved_in names.now) (C.steps calls.old) (C.steps calls.new) result }
{
    if is_spare(names) {
        return Err(no_entry());
    }
    match names.split_last() {
        Some((name, above)) => {
            let dir = match open_at(calls, root, above) {
                Ok(dir) => dir,
                Err(failure) => return Err(failure),
            };
            if let Err(failure) = takes_file(calls, &dir, name) {
                return Err(failure);
            }
            move_into(calls, root, &dir, name)
        }
        None => Err(no_entry()),
    }
}

/// Fails where a file can't take a name: something else has it, or a file that is listed under another one, as where the file
/// system takes letters of both cases for the same. That is another file of the library, and is kept.
pub(crate) fn takes_file<C: DirectoryCalls>(
    calls: &mut C,
    dir: &C::Dir,
    name: &Name,
) -> io::Result<()>
    ensures named { IfOk result (λ _. IsTrue (C.may_take calls.new dir.now name.now)) }
    ensures stays { C.steps calls.new ≡ C.steps calls.old }
{
    let found = match calls.look(dir, name.as_str()) {
        Ok(found) => found,
        Err(failure) => return Err(failure),
    };
    match found {
        None => Ok(()),
        Some(EntryKind::File) => has_this_name(calls, dir, name),
        Some(_) => Err(in_the_way()),
    }
}

/// Fails where a directory lists no entry of just this name.
fn has_this_name<C: DirectoryCalls>(calls: &mut C, dir: &C::Dir, name: &Name) -> io::Result<()>
    ensures named { IfOk result (λ _. IsTrue (C.may_take calls.new dir.now name.now)) }
    ensures stays { C.steps calls.new ≡ C.steps calls.old }
{
    match calls.is_listed(dir, name.as_str()) {
        Ok(true) => Ok(()),
        Ok(false) => Err(in_the_way()),
        Err(failure) => Err(failure),
    }
}

/// Moves the spare to a name in a directory.
fn move_into<C: DirectoryCalls>(
    calls: &mut C,
    root: &C::Dir,
    target: &C::Dir,
    name: &Name,
) -> io::Result<()>
    requires root { IsTrue (C.stands_at root.now []) }
    requires named { IsTrue (C.may_take calls.old target.now name.now) }
    ensures order { (path : PathV) → IsTrue (C.stands_at target.now path) →
        DoesAll (Moved spare_path (path ++ name.now ∷ []) ∷ SyncedNames path ∷ []) (C.steps calls.old) (C.steps calls.new) result }
{
    if let Err(failure) = calls.rename(root, SPARE, target, name.as_str()) {
        return Err(failure);
    }
    calls.sync_names(target)
}

/// Makes a directory, durably.
pub(crate) fn make_at<C: DirectoryCalls>(
    calls: &mut C,
    root: &C::Dir,
    names: &[Name],
) -> io::Result<()>
    requires root { IsTrue (C.stands_at root.now []) }
    ensures order { DoesAll (made names.now) (C.steps calls.old) (C.steps calls.new) result }
{
    if is_spare(names) {
        return Err(no_entry());
    }
    match names.split_last() {
        Some((name, above)) => {
            let dir = match open_at(calls, root, above) {
                Ok(dir) => dir,
                Err(failure) => return Err(failure),
            };
            make_in(calls, &dir, name)
        }
        None => Err(no_entry()),
    }
}

/// Makes a directory in a directory, durably.
fn make_in<C: DirectoryCalls>(calls: &mut C, dir: &C::Dir, name: &Name) -> io::Result<()>
    ensures order { (path : PathV) → IsTrue (C.stands_at dir.now path) →
        DoesAll (MadeDirectory (path ++ name.now ∷ []) ∷ SyncedNames path ∷ []) (C.steps calls.old) (C.steps calls.new) result }
{
    if let Err(failure) = calls.make_directory(dir, name.as_str()) {
        return Err(failure);
    }
    calls.sync_names(dir)
}

/// Takes a file or an empty directory away, durably.
pub(crate) fn remove_at<C: DirectoryCalls>(
    calls: &mut C,
    root: &C::Dir,
    names: &[Name],
) -> io::Result<()>
    requires root { IsTrue (C.stands_at root.now []) }
    ensures order { DoesAll (taken names.now) (C.steps calls.old) (C.steps calls.new) result }
{
    if is_spare(names) {
        return Err(no_entry());
    }
    match names.split_last() {
        Some((name, above)) => {
            let dir = match open_at(calls, root, above) {
                Ok(dir) => dir,
                Err(failure) => return Err(failure),
            };
            remove_in(calls, &dir, name)
        }
        None => Err(no_entry()),
    }
}

/// Takes an entry of a directory away, durably.
fn remove_in<C: DirectoryCalls>(calls: &mut C, dir: &C::Dir, name: &Name) -> io::Result<()>
    ensures order { (path : PathV) → IsTrue (C.stands_at dir.now path) →
        DoesAll (Removed (path ++ name.now ∷ []) ∷ SyncedNames path ∷ []) (C.steps calls.old) (C.steps calls.new) result }
{
    if let Err(failure) = remove_entry(calls, dir, name) {
        return Err(failure);
    }
    calls.sync_names(dir)
}

/// Takes an entry of a directory away.
fn remove_entry<C: DirectoryCalls>(calls: &mut C, dir: &C::Dir, name: &Name) -> io::Result<()>
    ensures order { (path : PathV) → IsTrue (C.stands_at dir.now path) →
        Does (Removed (path ++ name.now ∷ [])) (C.steps calls.old) (C.steps calls.new) result }
{
    let found = match calls.look(dir, name.as_str()) {
        Ok(found) => found,
        Err(failure) => return Err(failure),
    };
    match found {
        Some(EntryKind::File) => calls.remove_file(dir, name.as_str()),
        Some(EntryKind::Directory) => calls.remove_directory(dir, name.as_str()),
        _ => Err(no_entry()),
    }
}
