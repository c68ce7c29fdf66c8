//! What stands in the way of a tree: directories that can't be removed, and what is neither a file nor a directory.
ghost use Rattle.std.specs.Prelude.{◌≡◌, ◌&&◌, IfOk, option_copied};
ghost use Rattle.std.specs.List.{list_any};
ghost use Rattle.std.specs.FinMap as fin;
ghost use Rattle.tree_model.specs.DirectorySurvival.{is_within};
ghost use Rattle.tree_checkout.specs.Hindrances.{TellsOf};
ghost use Rattle.tree_checkout.specs.Planning.{blocks_in, first_blocked_in, is_dir_seen, is_file_entry, is_stuck_in};
ghost use Rattle.tree_checkout.specs.SecondLook.{is_dir_of};

use crate::hindrances::{Hindrances, has_at_or_above};
use folder_side::{Scan, Seen};
use object_graph::Entry;
use std::alloc::{AllocError, Global};
use tree_model::{Path, PathTable};

/// The first path of a tree, in byte order, that is blocked: the tree has a file where the folder has a directory that can't be
/// removed, or the folder has at it or above it what is neither a file nor a directory.
pub(crate) fn first_blocked(
    alloc: Global,
    scan: &Scan,
    hindrances: &Hindrances,
    entries: &PathTable<Entry>,
) -> Result<Option<Path>, AllocError>
    requires told { TellsOf scan.now hindrances.now }
    ensures value { IfOk result (λ told. told ≡ first_blocked_in scan.now (fin.entries entries.now)) }
{
    for (path, entry) in entries.iter() {
        if is_blocked(alloc, scan, hindrances, path, entry)? {
            return Ok(Some(path.copy(alloc)?));
        }
    }
    Ok(None)
}

/// Whether a path of a tree is blocked.
fn is_blocked(
    alloc: Global,
    scan: &Scan,
    hindrances: &Hindrances,
    path: &Path,
    entry: &Entry,
) -> Result<bool, AllocError>
    requires told { TellsOf scan.now hindrances.now }
    ensures value { IfOk result (λ told. told ≡ blocks_in scan.now path.now entry.now) }
{
    if has_file_at_stuck(scan, hindrances, path, entry) {
        return Ok(true);
    }
    Ok(is_below_skipped(alloc, scan, hindrances, path)?)
}

/// Whether the tree has a file where a directory stands that can't be removed.
fn has_file_at_stuck(scan: &Scan, hindrances: &Hindrances, path: &Path, entry: &Entry) -> bool
    requires told { TellsOf scan.now hindrances.now }
    ensures value { result ≡ (is_file_entry entry.now && is_stuck_in scan.now path.now) }
{
    is_file(entry) && is_stuck(scan, hindrances, path)
}

/// Whether the tree has a file there.
fn is_file(entry: &Entry) -> bool
    ensures value { result ≡ is_file_entry entry.now }
{
    match entry {
        Entry::Dir => false,
        Entry::File { .. } => true,
    }
}

/// Whether a directory stands there that can't be removed.
fn is_stuck(scan: &Scan, hindrances: &Hindrances, path: &Path) -> bool
    requires told { TellsOf scan.now hindrances.now }
    ensures value { result ≡ is_stuck_in scan.now path.now }
{
    is_dir_seen(scan.paths.get(path)) && hindrances.hides(path)
}

/// Whether a directory was seen, if anything was.
fn is_dir_seen(seen: Option<&Seen>) -> bool
    ensures value { result ≡ is_dir_seen (option_copied seen.entry) }
{
    match seen {
        Some(seen) => is_dir(seen),
        None => false,
    }
}

/// Whether a directory was seen.
pub(crate) fn is_dir(seen: &Seen) -> bool
    ensures value { result ≡ is_dir_of seen.now }
{
    match seen {
        Seen::Dir => true,
        Seen::File { .. } => false,
    }
}

/// Whether what was skipped stands at a path or above it.
fn is_below_skipped(
    alloc: Global,
    scan: &Scan,
    hindrances: &Hindrances,
    path: &Path,
) -> Result<bool, AllocError>
    requires told { TellsOf scan.now hindrances.now }
    ensures value { IfOk result (λ told. told ≡ list_any (λ other. is_within other path.now) scan.now.skipped) }
{
    if scan.skipped.is_empty() {
        return Ok(false);
    }
    Ok(has_at_or_above(&hindrances.skipped, path.copy(alloc)?))
}
