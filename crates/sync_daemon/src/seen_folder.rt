//! Whether what a scan saw is what stands in a folder.
ghost use Rattle.std.specs.Prelude.{◌≡◌, IfOk, IsTrue, ◌↔◌, option_copied};
ghost use Rattle.tree_push.specs.OfferedEntries.{IsSeenFolder};
ghost use Rattle.sync_daemon.specs.SeenFolder.{all_stand, has_file_mode, have_file_modes, is_dir_in, is_root, is_seen_dir, stands_in};

use folder_side::Seen;
use fs_objects::is_file_mode;
use local_index::Known;
use std::alloc::{AllocError, Global};
use tree_model::{Path, PathTable};

/// Whether each path that was seen stands in a directory that was, and what is known of files are modes of files.
pub(crate) fn is_seen_folder(
    alloc: Global,
    seens: &PathTable<Seen>,
    knowns: &PathTable<Known>,
) -> Result<bool, AllocError>
    ensures value { IfOk result (λ told. IsTrue told ↔ IsSeenFolder knowns.now seens.now) }
{
    if !have_file_modes(knowns) {
        return Ok(false);
    }
    all_stand(alloc, seens)
}

/// Whether what is known of each file is the mode of one.
fn have_file_modes(knowns: &PathTable<Known>) -> bool
    ensures value { result ≡ have_file_modes knowns.now }
{
    for (_, known) in knowns.iter() {
        if !has_file_mode(known) {
            return false;
        }
    }
    true
}

fn has_file_mode(known: &Known) -> bool
    ensures value { result ≡ has_file_mode known.now }
{
    match known {
        Known::Dir => true,
        Known::File { mode, .. } => is_file_mode(*mode),
    }
}

/// Whether each path stands in a directory, and none is the root.
fn all_stand(alloc: Global, seens: &PathTable<Seen>) -> Result<bool, AllocError>
    ensures value { IfOk result (λ told. told ≡ all_stand seens.now) }
{
    for (path, _) in seens.iter() {
        let dir = path.parent(alloc)?;
        if is_root(path) {
            return Ok(false);
        }
        if !is_dir_in(seens, &dir) {
            return Ok(false);
        }
    }
    Ok(true)
}

/// Whether a path is the root or a directory that was seen.
fn is_dir_in(seens: &PathTable<Seen>, dir: &Path) -> bool
    ensures value { result ≡ is_dir_in seens.now dir.now }
{
    is_root(dir) || is_seen_dir(seens.get(dir))
}

fn is_root(path: &Path) -> bool
    ensures value { result ≡ is_root path.now }
{
    path.names().is_empty()
}

/// Whether a directory was seen there.
fn is_seen_dir(seen: Option<&Seen>) -> bool
    ensures value { result ≡ is_seen_dir (option_copied seen.entry) }
{
    match seen {
        Some(Seen::Dir) => true,
        Some(Seen::File { .. }) => false,
        None => false,
    }
}
