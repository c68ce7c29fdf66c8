//! Entries of a table of paths, put one by one.
ghost use Rattle.std.specs.Prelude.{◌≡◌, [], ◌≤◌, ◌+◌, ◌&&◌, ◌||◌, OnOk, is_some, if◌then◌else◌};
ghost use Rattle.std.specs.Option.{option_or};
ghost use Rattle.std.specs.FinMap as map;
ghost use Rattle.std.specs.Ordering.{eq_by_cmp};
ghost use Rattle.tree_model.specs.Path.{PathV, path_cmp, parent_of};

use std::alloc::{AllocError, Global};
use tree_model::{Path, PathTable};

/// Puts a value at a path, and lets go what stood there.
pub(crate) fn put<V: Drop>(table: &mut PathTable<V>, path: Path, value: V) -> Result<(), AllocError>
    ensures ok { OnOk result (table.new ≡ map.insert table.old path value) }
{
    table.insert(path, value)?;
    Ok(())
}

/// Takes out what stands at the root, which is no entry.
pub(crate) fn drop_root<V: Drop>(alloc: Global, table: &mut PathTable<V>)
    ensures ok { table.new ≡ map.remove table.old [] }
{
    let root = Path::root(alloc);
    let _ = table.remove(&root);
}

/// Puts a value, if there is one, at a copy of the path.
pub(crate) fn put_if<V: Drop>(
    alloc: Global,
    table: &mut PathTable<V>,
    path: &Path,
    value: Option<V>,
) -> Result<(), AllocError>
    ensures ok { OnOk result ((q : PathV) → map.get table.new q ≡ (if eq_by_cmp path_cmp q path.now then option_or value (map.get table.old q) else map.get table.old q)) }
    ensures bound { OnOk result (map.len table.new ≤ map.len table.old + 1) }
{
    match value {
        Some(value) => put(table, path.copy(alloc)?, value),
        None => Ok(()),
    }
}

/// Marks the directory that the path's entry stands in, if it is to be marked.
pub(crate) fn mark_parent(
    alloc: Global,
    marked: &mut PathTable<()>,
    path: &Path,
    is_marked: bool,
) -> Result<(), AllocError>
    ensures ok { OnOk result ((q : PathV) → is_some (map.get marked.new q) ≡ (is_some (map.get marked.old q) || (is_marked && eq_by_cmp path_cmp q (parent_of path.now)))) }
{
    if is_marked {
        put(marked, path.parent(alloc)?, ())
    } else {
        Ok(())
    }
}
