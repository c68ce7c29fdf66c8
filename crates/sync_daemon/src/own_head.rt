//! A head that is the commit which a sync pushed itself: nothing of it is got, since its tree is what was offered.
ghost use Rattle.std.specs.Prelude.{◌≡◌, ◌↔◌, IfOk, IsTrue, Some, option_copied};
ghost use Rattle.tree_push.specs.ChangedOwns.{AreChangedOwns};
ghost use Rattle.sync_daemon.specs.Bringing.{IsOwnHead, KnowsOffered, known_by, known_of};

use crate::known_entries::put;
use crate::round::Settled;
use crate::seen_folder::is_seen_folder;
use folder_side::Seen;
use ids::{ObjId, Text};
use local_index::{Index, Known};
use object_graph::Entry;
use std::alloc::{AllocError, Global};
use tree_model::PathTable;
use tree_push::{file_entry, own_or_known};

/// Whether the head is the commit that was pushed, and what was seen is what stands in a folder.
///
/// A folder that others write while it is scanned may show a path twice, once as a directory. An index of that could not be read back,
/// so the tree is got then.
pub(crate) fn is_own_head(
    alloc: Global,
    index: &Index,
    settled: &Settled,
) -> Result<bool, AllocError>
    ensures value { IfOk result (λ own. IsTrue own ↔ IsOwnHead settled.now index.now) }
{
    if !is_pushed_head(&settled.pushed, &settled.head) {
        return Ok(false);
    }
    is_seen_folder(alloc, &settled.scan.paths, &index.entries)
}

/// Whether the head is the commit that was pushed.
fn is_pushed_head(pushed: &Option<ObjId>, head: &ObjId) -> bool
    ensures value { IsTrue result ↔ (pushed.now ≡ Some head.now) }
{
    match pushed {
        Some(commit) => is_same(commit, head),
        None => false,
    }
}

fn is_same(commit: &ObjId, head: &ObjId) -> bool
    ensures value { IsTrue result ↔ (commit.now ≡ head.now) }
{
    *commit == *head
}

/// What is known of what was seen and offered at a moment by a user, by the own ids of the files that are new or changed.
pub(crate) fn known_offer(
    alloc: Global,
    seens: &PathTable<Seen>,
    knowns: &PathTable<Known>,
    owns: &PathTable<ObjId>,
    moment: u64,
    user: &Text,
) -> Result<PathTable<Known>, AllocError>
    requires ids { AreChangedOwns knowns.now seens.now owns.now }
    ensures value { IfOk result (KnowsOffered moment user.now knowns.now seens.now) }
{
    let mut known = PathTable::new(alloc);
    for (path, seen) in seens.iter() {
        let own = owns.get(path);
        let here = offered_known(alloc, own, knowns.get(path), seen, moment, user)?;
        put(&mut known, path.copy(alloc)?, here)?;
    }
    Ok(known)
}

/// What is known of what was seen at a path and offered; `changed` is the own id of a file that is new or changed.
fn offered_known(
    alloc: Global,
    changed: Option<&ObjId>,
    was: Option<&Known>,
    seen: &Seen,
    moment: u64,
    user: &Text,
) -> Result<Known, AllocError>
    ensures value { IfOk result (λ known. known ≡ known_by moment user.now (option_copied changed.entry) (option_copied was.entry) seen.now) }
{
    match seen {
        Seen::Dir => Ok(Known::Dir),
        Seen::File { size, .. } => {
            let own = own_or_known(changed, was);
            let entry = file_entry(alloc, was, own, *size, moment, user)?;
            Ok(known_of(own, entry))
        }
    }
}

/// What is known of an entry.
fn known_of(own: ObjId, entry: Entry) -> Known
    ensures value { result ≡ known_of own entry }
{
    match entry {
        Entry::Dir => Known::Dir,
        Entry::File {
            id,
            mode,
            mtime,
            modifier,
            size,
        } => Known::File {
            id,
            own,
            size,
            mode,
            mtime,
            modifier,
        },
    }
}
