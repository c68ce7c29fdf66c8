//! The entries that are offered of what a scan saw.
ghost use Rattle.std.specs.Prelude.{◌≡◌, IfOk, OnOk, Some, option_copied};
ghost use Rattle.std.specs.FinMap as map;
ghost use Rattle.std.specs.Str.{bytes_eq};
ghost use Rattle.tree_push.specs.ChangedOwns.{AreChangedOwns, entry_by};
ghost use Rattle.tree_push.specs.OfferedEntries.{AreOffered, changed_entry, file_entry};

use crate::own_table::own_or_known;
use folder_side::Seen;
use ids::{ObjId, Text};
use local_index::Known;
use object_graph::Entry;
use std::alloc::{AllocError, Global};
use tree_model::{Path, PathTable};

/// The mode of a file that is new: a regular file that all may read and its owner may write.
const USUAL_MODE: u32 = 33_188;

/// The last moment that an entry can have, in seconds since 1970-01-01 UTC.
const LAST_MOMENT: u64 = 9_223_372_036_854_775_807;

/// The entries that are offered of what was seen, at the same paths, by the own ids of the files that are new or changed.
pub(crate) fn offered_entries(
    alloc: Global,
    paths: &PathTable<Seen>,
    knowns: &PathTable<Known>,
    owns: &PathTable<ObjId>,
    moment: u64,
    user: &Text,
) -> Result<PathTable<Entry>, AllocError>
    requires ids { AreChangedOwns knowns.now paths.now owns.now }
    ensures value { IfOk result (AreOffered moment user.now knowns.now paths.now) }
{
    let mut entries = PathTable::new(alloc);
    for (path, seen) in paths.iter() {
        let own = owns.get(path);
        let entry = offered_entry(alloc, own, knowns.get(path), seen, moment, user)?;
        put(&mut entries, path.copy(alloc)?, entry)?;
    }
    Ok(entries)
}

/// Puts an entry at its path.
fn put(entries: &mut PathTable<Entry>, path: Path, entry: Entry) -> Result<(), AllocError>
    ensures ok { OnOk result (entries.new ≡ map.insert entries.old path entry) }
{
    entries.insert(path, entry)?;
    Ok(())
}

/// The entry that is offered of what was seen at a path; `changed` is the own id of a file that is new or changed.
fn offered_entry(
    alloc: Global,
    changed: Option<&ObjId>,
    was: Option<&Known>,
    seen: &Seen,
    moment: u64,
    user: &Text,
) -> Result<Entry, AllocError>
    ensures value { IfOk result (λ entry. entry ≡ entry_by moment user.now (option_copied changed.entry) (option_copied was.entry) seen.now) }
{
    match seen {
        Seen::Dir => Ok(Entry::Dir),
        Seen::File { size, .. } => {
            let own = own_or_known(changed, was);
            file_entry(alloc, was, own, *size, moment, user)
        }
    }
}

/// The entry that is offered of a file of this own id and size: as it is known, where its own id is, and else with the mode that is known,
/// the moment and the user.
pub fn file_entry(
    alloc: Global,
    was: Option<&Known>,
    own: ObjId,
    size: u64,
    moment: u64,
    user: &Text,
) -> Result<Entry, AllocError>
    ensures value { IfOk result (λ entry. entry ≡ file_entry moment user.now (option_copied was.entry) own size) }
{
    match was {
        Some(known) => known_entry(alloc, known, own, size, moment, user),
        None => changed_entry(alloc, USUAL_MODE, own, size, moment, user),
    }
}

/// The entry of a file at whose path something was known.
fn known_entry(
    alloc: Global,
    known: &Known,
    own: ObjId,
    size: u64,
    moment: u64,
    user: &Text,
) -> Result<Entry, AllocError>
    ensures value { IfOk result (λ entry. entry ≡ file_entry moment user.now (Some known.now) own size) }
{
    match known {
        Known::Dir => changed_entry(alloc, USUAL_MODE, own, size, moment, user),
        Known::File {
            id,
            own: its,
            size: known_size,
            mode,
            mtime,
            modifier,
        } => {
            if !is_same(&own, its) {
                return changed_entry(alloc, *mode, own, size, moment, user);
            }
            Ok(Entry::File {
                id: *id,
                mode: *mode,
                mtime: *mtime,
                modifier: Text::copy(alloc, modifier.slice())?,
                size: *known_size,
            })
        }
    }
}

fn is_same(own: &ObjId, its: &ObjId) -> bool
    ensures value { result ≡ bytes_eq own.now its.now }
{
    own == its
}

/// The entry of a file that is new or changed.
fn changed_entry(
    alloc: Global,
    mode: u32,
    own: ObjId,
    size: u64,
    moment: u64,
    user: &Text,
) -> Result<Entry, AllocError>
    ensures value { IfOk result (λ entry. entry ≡ changed_entry moment user.now mode own size) }
{
    Ok(Entry::File {
        id: own,
        mode,
        mtime: moment.min(LAST_MOMENT) as i64,
        modifier: Text::copy(alloc, user.slice())?,
        size,
    })
}
