//! The tables of what stands in the way of a tree: what a scan skipped, and where something is that can't be removed.
ghost use Rattle.std.specs.Prelude.{◌≡◌, ◌||◌, IfOk, List, OnOk};
ghost use Rattle.std.specs.List.{list_any};
ghost use Rattle.std.specs.Ordering.{eq_by_cmp};
ghost use Rattle.folder_side.specs.declared.scan_report.Scan.{Scan};
ghost use Rattle.tree_model.specs.DirectorySurvival.{is_under, is_within};
ghost use Rattle.tree_model.specs.Path.{PathV, path_cmp};
ghost use Rattle.tree_checkout.specs.Hindrances.{HasAbove, IsTableOf, TellsOf, has};
ghost use Rattle.tree_checkout.specs.Planning.{hides_in};

use folder_side::Scan;
use std::alloc::{AllocError, Global};
use tree_model::{Path, PathTable};

/// The paths that a scan skipped, and those below which, or in the directories at which, is what can't be removed.
#[derive(Drop)]
pub(crate) struct Hindrances {
    pub(crate) skipped: PathTable<()>,
    pub(crate) hiding: PathTable<()>,
}

impl Hindrances {
    /// Whether below a path, or in a directory there, is what can't be removed.
    pub(crate) fn hides(&self, path: &Path) -> bool
        ensures value { (scan : Scan) → TellsOf scan self.now → result ≡ hides_in scan path.now }
    {
        self.hiding.has(path)
    }
}

/// What of a scan stands in the way.
pub(crate) fn hindrances_of(alloc: Global, scan: &Scan) -> Result<Hindrances, AllocError>
    ensures value { IfOk result (TellsOf scan.now) }
{
    let skipped = table_of(alloc, scan.skipped.slice())?;
    let hiding = hiding_of(alloc, scan.skipped.slice(), scan.nameless.slice())?;
    Ok(Hindrances { skipped, hiding })
}

/// The table of the paths of a list.
fn table_of(alloc: Global, paths: &[Path]) -> Result<PathTable<()>, AllocError>
    ensures value { IfOk result (λ table. IsTableOf table paths.now) }
{
    let mut table = PathTable::new(alloc);
    for path in paths {
        put(&mut table, path.copy(alloc)?)?;
    }
    Ok(table)
}

/// The table of the directories that some of the paths are under, or that are one of the others or above it.
fn hiding_of(
    alloc: Global,
    skipped: &[Path],
    nameless: &[Path],
) -> Result<PathTable<()>, AllocError>
    ensures value { IfOk result (λ table. (q : PathV) → has table q ≡ (list_any (is_under q) skipped.now || list_any (is_within q) nameless.now)) }
{
    let mut table = PathTable::new(alloc);
    add_all_above(alloc, &mut table, skipped)?;
    add_all_within(alloc, &mut table, nameless)?;
    Ok(table)
}

/// Adds the directories above each of the paths.
fn add_all_above(alloc: Global, table: &mut PathTable<()>, paths: &[Path]) -> Result<(), AllocError>
    requires whole { HasAbove table.old }
    ensures ok { OnOk result ((q : PathV) → has table.new q ≡ (has table.old q || list_any (is_under q) paths.now)) }
    ensures whole { OnOk result (HasAbove table.new) }
{
    for path in paths {
        add_above(alloc, table, path)?;
    }
    Ok(())
}

/// Adds each of the directories, and those above it.
fn add_all_within(alloc: Global, table: &mut PathTable<()>, dirs: &[Path]) -> Result<(), AllocError>
    requires whole { HasAbove table.old }
    ensures ok { OnOk result ((q : PathV) → has table.new q ≡ (has table.old q || list_any (is_within q) dirs.now)) }
{
    for dir in dirs {
        add_within(alloc, table, dir)?;
    }
    Ok(())
}

/// Adds a directory, and those above it.
fn add_within(alloc: Global, table: &mut PathTable<()>, dir: &Path) -> Result<(), AllocError>
    requires whole { HasAbove table.old }
    ensures ok { OnOk result ((q : PathV) → has table.new q ≡ (has table.old q || is_within q dir.now)) }
    ensures whole { OnOk result (HasAbove table.new) }
{
    add_above(alloc, table, dir)?;
    put(table, dir.copy(alloc)?)
}

/// Adds the directories above a path, up to one that the table has: it has those above that one too.
fn add_above(alloc: Global, table: &mut PathTable<()>, path: &Path) -> Result<(), AllocError>
    requires whole { HasAbove table.old }
    ensures ok { OnOk result ((q : PathV) → has table.new q ≡ (has table.old q || is_under q path.now)) }
    ensures whole { OnOk result (HasAbove table.new) }
{
    if path.names().is_empty() {
        return Ok(());
    }
    let dir = path.parent(alloc)?;
    if table.has(&dir) {
        return Ok(());
    }
    add_above(alloc, table, &dir)?;
    put(table, dir)
}

/// Adds a path.
fn put(table: &mut PathTable<()>, path: Path) -> Result<(), AllocError>
    ensures ok { OnOk result ((q : PathV) → has table.new q ≡ (has table.old q || eq_by_cmp path_cmp q path)) }
{
    table.insert(path, ())?;
    Ok(())
}

/// Whether the table of some paths has a path, or a directory above it.
pub(crate) fn has_at_or_above(table: &PathTable<()>, path: Path) -> bool
    ensures value { (paths : List PathV) → IsTableOf table.now paths → result ≡ list_any (λ other. is_within other path) paths }
{
    if table.has(&path) {
        return true;
    }
    let Some((dir, _)) = path.split_last() else {
        return false;
    };
    has_at_or_above(table, dir)
}
