//! Whether what a scan saw is as a checkout leaves it that was interrupted.
ghost use Rattle.std.specs.Prelude.{◌≡◌, ◌↔◌, IsTrue, Some, option_copied};
ghost use Rattle.sync_rules.specs.InterruptedCheckout.{is_removed};
ghost use Rattle.tree_push.specs.ChangedOwns.{AreChangedOwns};
ghost use Rattle.sync_daemon.specs.InterruptedCheckout.{IsSeenLeft, are_left_known, are_left_seen, is_dir_there, is_file_there, is_known_dir, is_left_file, is_left_known, is_left_seen};

use folder_side::Seen;
use ids::ObjId;
use local_index::Known;
use object_graph::Entry;
use tree_model::PathTable;

/// Whether each path holds what the index tells, what the tree has, or nothing, where that has nothing or another kind.
///
/// `owns` has the own ids of the files that are new or changed.
pub(crate) fn is_left_by_checkout(
    seens: &PathTable<Seen>,
    knowns: &PathTable<Known>,
    owns: &PathTable<ObjId>,
    entries: &PathTable<Entry>,
) -> bool
    requires ids { AreChangedOwns knowns.now seens.now owns.now }
    ensures value { IsTrue result ↔ IsSeenLeft seens.now knowns.now entries.now }
{
    if !are_left_seen(seens, knowns, owns, entries) {
        return false;
    }
    are_left_known(seens, knowns, entries)
}

/// Whether all that was seen is as the index tells, or as the tree has it.
fn are_left_seen(
    seens: &PathTable<Seen>,
    knowns: &PathTable<Known>,
    owns: &PathTable<ObjId>,
    entries: &PathTable<Entry>,
) -> bool
    ensures value { result ≡ are_left_seen seens.now knowns.now owns.now entries.now }
{
    for (path, seen) in seens.iter() {
        if !is_left_seen(seen, knowns.get(path), owns.get(path), entries.get(path)) {
            return false;
        }
    }
    true
}

/// Whether what was seen at a path is; `changed` is the own id of a file that is new or changed.
fn is_left_seen(
    seen: &Seen,
    was: Option<&Known>,
    changed: Option<&ObjId>,
    there: Option<&Entry>,
) -> bool
    ensures value { result ≡ is_left_seen seen.now (option_copied was.entry) (option_copied changed.entry) (option_copied there.entry) }
{
    match seen {
        Seen::Dir => is_known_dir(was) || is_dir_there(there),
        Seen::File { .. } => is_left_file(changed, there),
    }
}

fn is_left_file(changed: Option<&ObjId>, there: Option<&Entry>) -> bool
    ensures value { result ≡ is_left_file (option_copied changed.entry) (option_copied there.entry) }
{
    match changed {
        None => true,
        Some(own) => is_file_there(own, there),
    }
}

/// Whether the tree has a file there, whose id is this.
fn is_file_there(own: &ObjId, there: Option<&Entry>) -> bool
    ensures value { result ≡ is_file_there own.now (option_copied there.entry) }
{
    match there {
        Some(Entry::File { id, .. }) => own == id,
        Some(Entry::Dir) => false,
        None => false,
    }
}

fn is_dir_there(there: Option<&Entry>) -> bool
    ensures value { result ≡ is_dir_there (option_copied there.entry) }
{
    match there {
        Some(Entry::Dir) => true,
        Some(Entry::File { .. }) => false,
        None => false,
    }
}

fn is_known_dir(was: Option<&Known>) -> bool
    ensures value { result ≡ is_known_dir (option_copied was.entry) }
{
    match was {
        Some(Known::Dir) => true,
        Some(Known::File { .. }) => false,
        None => false,
    }
}

/// Whether nothing of what is known is gone but what a checkout removes.
fn are_left_known(
    seens: &PathTable<Seen>,
    knowns: &PathTable<Known>,
    entries: &PathTable<Entry>,
) -> bool
    ensures value { result ≡ are_left_known seens.now knowns.now entries.now }
{
    for (path, was) in knowns.iter() {
        if !is_left_known(seens.get(path), was, entries.get(path)) {
            return false;
        }
    }
    true
}

fn is_left_known(seen: Option<&Seen>, was: &Known, there: Option<&Entry>) -> bool
    ensures value { result ≡ is_left_known (option_copied seen.entry) was.now (option_copied there.entry) }
{
    seen.is_some() || is_removed(was, there)
}

/// Whether a checkout removes what is known: the tree has nothing there, or another kind.
fn is_removed(was: &Known, there: Option<&Entry>) -> bool
    ensures value { result ≡ is_removed was.now (option_copied there.entry) }
{
    match there {
        None => true,
        Some(Entry::Dir) => !is_dir(was),
        Some(Entry::File { .. }) => is_dir(was),
    }
}

fn is_dir(was: &Known) -> bool
    ensures value { result ≡ is_known_dir (Some was.now) }
{
    match was {
        Known::Dir => true,
        Known::File { .. } => false,
    }
}
