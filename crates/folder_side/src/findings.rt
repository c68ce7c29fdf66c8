//! What a scan has found so far.

ghost use Rattle.std.specs.Prelude.{◌≡◌, ◌≤◌, ◌<◌, true, false, length, nat_lt, Some, OnOk, IfOk, IfErr};
ghost use Rattle.std.specs.FinMap as map;
ghost use Rattle.block_chunker.specs.declared.cuts.Cuts.{Cuts};
ghost use Rattle.folder_side.specs.declared.holding.Holding.TheVariants.{Dir, Other};
ghost use Rattle.folder_side.specs.Folder.{Contents, at};
ghost use Rattle.folder_side.specs.ScanReport.{is_scan_failure};
ghost use Rattle.folder_side.specs.Findings.{AreOf, HasTaken, Grows, KnowsNameless, Gives, seen_at, has_nameless, IsSmall};
ghost use Rattle.tree_model.specs.declared.limits.TheConstants.{MAX_NAMES, MAX_PATHS};

use crate::error::ScanFault;
use crate::scan_report::Seen;
use ids::Items;
use std::alloc::{AllocError, Global};
use tree_model::{MAX_NAMES, MAX_PATHS, Path, PathTable};

/// What a scan has found so far: files and directories, other entries, and directories with entries that
/// have no good name.
#[derive(Drop)]
pub struct Findings {
    pub paths: PathTable<Seen>,
    pub skipped: PathTable<()>,
    pub nameless: PathTable<()>,
}

/// Whether a path has more names than it may have.
pub fn is_too_deep(path: &Path) -> bool
    ensures value { result ≡ nat_lt MAX_NAMES (length path.now) }
{
    path.names().len() > MAX_NAMES
}

/// Notes a file or a directory.
pub fn note_seen(found: &mut Findings, path: Path, seen: Seen) -> Result<(), ScanFault>
    requires short { length path ≤ MAX_NAMES }
    requires few { map.len found.old.paths ≤ MAX_PATHS }
    ensures value { (cuts : Cuts) (c : Contents) → AreOf cuts c found.old → seen_at cuts c path ≡ Some seen →
        IsSmall c path → Gives c (HasTaken cuts c path found.old found.new) result }
    ensures few { OnOk result (map.len found.new.paths ≤ MAX_PATHS) }
    ensures faults { IfErr result (λ fault. is_scan_failure fault ≡ false) }
{
    match found.paths.insert(path, seen) {
        Ok(_) => {}
        Err(AllocError) => return Err(ScanFault::NoMemory),
    }
    let count = found.paths.len();
    if count > MAX_PATHS {
        return Err(ScanFault::TooMany(count as u64));
    }
    Ok(())
}

/// Notes a directory.
pub fn note_dir(found: &mut Findings, path: Path) -> Result<(), ScanFault>
    requires few { map.len found.old.paths ≤ MAX_PATHS }
    ensures value { (cuts : Cuts) (c : Contents) → AreOf cuts c found.old → at c path ≡ Some Dir →
        Gives c (HasTaken cuts c path found.old found.new) result }
    ensures bound { OnOk result (length path ≤ MAX_NAMES) }
    ensures few { OnOk result (map.len found.new.paths ≤ MAX_PATHS) }
    ensures faults { IfErr result (λ fault. is_scan_failure fault ≡ false) }
{
    if is_too_deep(&path) {
        return Err(ScanFault::TooDeep(path));
    }
    note_seen(found, path, Seen::Dir)
}

/// Notes an entry that is neither a file nor a directory.
pub fn note_other(found: &mut Findings, path: Path) -> Result<(), ScanFault>
    ensures value { (cuts : Cuts) (c : Contents) → AreOf cuts c found.old → at c path ≡ Some Other →
        Gives c (HasTaken cuts c path found.old found.new) result }
    ensures stays { found.new.paths ≡ found.old.paths }
    ensures faults { IfErr result (λ fault. is_scan_failure fault ≡ false) }
{
    match found.skipped.insert(path, ()) {
        Ok(_) => Ok(()),
        Err(AllocError) => Err(ScanFault::NoMemory),
    }
}

/// Notes a directory with entries that have no good name.
pub fn note_nameless(found: &mut Findings, dir: Path) -> Result<(), ScanFault>
    ensures value { (cuts : Cuts) (c : Contents) → AreOf cuts c found.old → has_nameless c dir ≡ true →
        Gives c (Grows cuts c found.old found.new × KnowsNameless c found.new dir) result }
    ensures stays { found.new.paths ≡ found.old.paths }
    ensures faults { IfErr result (λ fault. is_scan_failure fault ≡ false) }
{
    match found.nameless.insert(dir, ()) {
        Ok(_) => Ok(()),
        Err(AllocError) => Err(ScanFault::NoMemory),
    }
}

/// The paths of a table, in their byte order.
pub fn paths_of(alloc: Global, table: &PathTable<()>) -> Result<Items<Path>, AllocError>
    ensures value { IfOk result (λ paths. paths ≡ map.keys table.now) }
{
    let mut paths = Items::new(alloc);
    for (path, _) in table.iter() {
        paths.push(path.copy(alloc)?)?;
    }
    Ok(paths)
}
