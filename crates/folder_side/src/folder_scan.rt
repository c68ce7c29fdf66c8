//! A scan of a folder: every file cut into chunks, every directory, and what a sync leaves alone.

ghost use Rattle.std.specs.Prelude.{◌≡◌, ◌<◌, ◌≤◌, ◌++◌, ◌∷◌, [], ℕ, List, Some, length, vec_len, false, IfOk, IfErr, OnOk};
ghost use Rattle.std.specs.FinMap as map;
ghost use Rattle.ids.specs.FaultCount.{FailsBy};
ghost use Rattle.folder_side.specs.declared.holding.Holding.{Holding};
ghost use Rattle.folder_side.specs.declared.holding.Holding.TheVariants.{Dir, File};
ghost use Rattle.block_chunker.specs.declared.cuts.Cuts.{Cuts};
ghost use Rattle.folder_side.specs.Folder.{Contents, IsFolder, at, kind_of, nameless_at, is_folder_fault};
ghost use Rattle.folder_side.specs.Calls.{Glances};
ghost use Rattle.folder_side.specs.Findings.{AreOf, Gives, Grows, KnowsNameless, HasTaken, HasTakenItem, HasScanned, Reports};
ghost use Rattle.folder_side.specs.ScanReport.{IsScan, IsWithinLimits, IsPastLimit, is_scan_failure};
ghost use Rattle.folder_side.specs.declared.folder_scan.TheConstants.{PIECE};
ghost use Rattle.tree_model.specs.declared.limits.TheConstants.{MAX_NAMES, MAX_PATHS};

use crate::error::{FolderFault, ScanFault};
use crate::file_reader::{FileRead, ReadFault, read_file};
use crate::findings::{
    Findings, is_too_deep, note_dir, note_nameless, note_other, note_seen, paths_of,
};
use crate::folder::{Folder, Item, ItemKind};
use crate::scan_report::{Scan, Seen};
use block_chunker::Cuts;
use ids::Items;
use std::alloc::{AllocError, Global};
use tree_model::{Path, PathTable};

/// The greatest number of bytes of a file that are read at once.
pub const PIECE: usize = 65_536;

/// Scans a folder: reads each file once, cuts it into chunks and names them.
///
/// A file is read in pieces of at most 65,536 bytes, and no more of it is in memory than one chunk and two
/// pieces. An entry that is neither a file nor a directory, such as a symbolic link, is never opened: it is
/// listed in `skipped`. A file that is gone when it is opened, though its directory listed it, isn't there. The folder itself or a directory in it is listed in `nameless` where it has entries
/// without a good name. The folder isn't changed.
pub fn scan<F: Folder>(alloc: Global, folder: &mut F, cuts: Cuts) -> Result<Scan, ScanFault>
    ensures value { (c : Contents) → F.told folder.old ≡ Some c → IfOk result (IsScan cuts c) }
    ensures bound { (c : Contents) → F.told folder.old ≡ Some c → OnOk result (IsWithinLimits c) }
    ensures refused { (c : Contents) → F.told folder.old ≡ Some c → IfErr result (IsPastLimit c) }
    ensures formed { (c : Contents) → F.told folder.old ≡ Some c → OnOk result (IsFolder c) }
    ensures stays { (F.told folder.new ≡ F.told folder.old) × (F.spare folder.new ≡ F.spare folder.old) }
    ensures traced { Glances (F.trace folder.old) (F.trace folder.new) }
    ensures faults { FailsBy is_scan_failure (F.faults folder.old) (F.faults folder.new) result }
{
    let mut buffer = match piece_buffer(alloc) {
        Ok(buffer) => buffer,
        Err(AllocError) => return Err(ScanFault::NoMemory),
    };
    let mut found = no_findings(alloc);
    let root = Path::root(alloc);
    match scan_dir(
        alloc,
        cuts,
        buffer.as_mut_slice(),
        folder,
        &root,
        &mut found,
    ) {
        Ok(()) => {}
        Err(fault) => return Err(fault),
    }
    match report(alloc, found) {
        Ok(scan) => Ok(scan),
        Err(AllocError) => Err(ScanFault::NoMemory),
    }
}

/// Scans what lies under a directory.
#[cycle(scan)]
fn scan_dir<F: Folder>(
    alloc: Global,
    cuts: Cuts,
    buffer: &mut [u8],
    folder: &mut F,
    dir: &Path,
    found: &mut Findings,
) -> Result<(), ScanFault>
    requires some { 0 < length buffer.old }
    requires fits { length buffer.old ≤ PIECE }
    requires short { length dir.now ≤ MAX_NAMES }
    requires few { map.len found.old.paths ≤ MAX_PATHS }
    ensures value { (c : Contents) → F.told folder.old ≡ Some c → AreOf cuts c found.old →
        Gives c (IsFolder c × HasScanned cuts c dir.now found.old found.new) result }
    ensures few { OnOk result (map.len found.new.paths ≤ MAX_PATHS) }
    ensures stays { (F.told folder.new ≡ F.told folder.old) × (F.spare folder.new ≡ F.spare folder.old) }
    ensures traced { Glances (F.trace folder.old) (F.trace folder.new) }
    ensures faults { FailsBy is_scan_failure (F.faults folder.old) (F.faults folder.new) result }
{
    let listing = match folder.list(alloc, dir) {
        Ok(listing) => listing,
        Err(fault) => return Err(scan_fault(fault)),
    };
    match note_if_nameless(alloc, dir, listing.nameless, found) {
        Ok(()) => {}
        Err(fault) => return Err(fault),
    }
    for item in listing.items.slice() {
        match scan_item(alloc, cuts, buffer, folder, dir, item, found) {
            Ok(()) => {}
            Err(fault) => return Err(fault),
        }
    }
    Ok(())
}

/// Scans an entry of a directory, with what lies under it.
#[cycle(scan)]
fn scan_item<F: Folder>(
    alloc: Global,
    cuts: Cuts,
    buffer: &mut [u8],
    folder: &mut F,
    dir: &Path,
    item: &Item,
    found: &mut Findings,
) -> Result<(), ScanFault>
    requires some { 0 < length buffer.old }
    requires fits { length buffer.old ≤ PIECE }
    requires short { length dir.now ≤ MAX_NAMES }
    requires few { map.len found.old.paths ≤ MAX_PATHS }
    ensures value { (c : Contents) (holding : Holding) → F.told folder.old ≡ Some c → IsFolder c → AreOf cuts c found.old →
        at c (dir.now ++ item.now.name ∷ []) ≡ Some holding → item.now.kind ≡ kind_of holding →
        Gives c (HasTakenItem cuts c (dir.now ++ item.now.name ∷ []) found.old found.new) result }
    ensures few { OnOk result (map.len found.new.paths ≤ MAX_PATHS) }
    ensures stays { (F.told folder.new ≡ F.told folder.old) × (F.spare folder.new ≡ F.spare folder.old) }
    ensures traced { Glances (F.trace folder.old) (F.trace folder.new) }
    ensures faults { FailsBy is_scan_failure (F.faults folder.old) (F.faults folder.new) result }
{
    let path = match dir.child(alloc, &item.name) {
        Ok(path) => path,
        Err(AllocError) => return Err(ScanFault::NoMemory),
    };
    match item.kind {
        ItemKind::Other => note_other(found, path),
        ItemKind::File => scan_file(alloc, cuts, buffer, folder, path, found),
        ItemKind::Dir => {
            match note_child(alloc, &path, found) {
                Ok(()) => {}
                Err(fault) => return Err(fault),
            }
            scan_dir(alloc, cuts, buffer, folder, &path, found)
        }
    }
}

/// Notes a directory by a copy of its path.
fn note_child(alloc: Global, path: &Path, found: &mut Findings) -> Result<(), ScanFault>
    requires few { map.len found.old.paths ≤ MAX_PATHS }
    ensures value { (cuts : Cuts) (c : Contents) → AreOf cuts c found.old → at c path.now ≡ Some Dir →
        Gives c (HasTaken cuts c path.now found.old found.new) result }
    ensures bound { OnOk result (length path.now ≤ MAX_NAMES) }
    ensures few { OnOk result (map.len found.new.paths ≤ MAX_PATHS) }
    ensures faults { IfErr result (λ fault. is_scan_failure fault ≡ false) }
{
    match path.copy(alloc) {
        Ok(path) => note_dir(found, path),
        Err(AllocError) => Err(ScanFault::NoMemory),
    }
}

/// Notes a directory where it has entries without a good name.
fn note_if_nameless(
    alloc: Global,
    dir: &Path,
    nameless: u64,
    found: &mut Findings,
) -> Result<(), ScanFault>
    ensures value { (cuts : Cuts) (c : Contents) → AreOf cuts c found.old → nameless ≡ nameless_at c dir.now →
        Gives c (Grows cuts c found.old found.new × KnowsNameless c found.new dir.now) result }
    ensures stays { found.new.paths ≡ found.old.paths }
    ensures faults { IfErr result (λ fault. is_scan_failure fault ≡ false) }
{
    if nameless == 0 {
        return Ok(());
    }
    match dir.copy(alloc) {
        Ok(dir) => note_nameless(found, dir),
        Err(AllocError) => Err(ScanFault::NoMemory),
    }
}

/// Reads a file and notes its chunks. One that is gone since it was listed isn't there.
fn scan_file<F: Folder>(
    alloc: Global,
    cuts: Cuts,
    buffer: &mut [u8],
    folder: &mut F,
    path: Path,
    found: &mut Findings,
) -> Result<(), ScanFault>
    requires some { 0 < length buffer.old }
    requires fits { length buffer.old ≤ PIECE }
    requires few { map.len found.old.paths ≤ MAX_PATHS }
    ensures value { (c : Contents) (bytes : List ℕ) → F.told folder.old ≡ Some c → AreOf cuts c found.old →
        at c path ≡ Some (File bytes) → Gives c (HasTaken cuts c path found.old found.new) result }
    ensures few { OnOk result (map.len found.new.paths ≤ MAX_PATHS) }
    ensures stays { (F.told folder.new ≡ F.told folder.old) × (F.spare folder.new ≡ F.spare folder.old) }
    ensures traced { Glances (F.trace folder.old) (F.trace folder.new) }
    ensures faults { FailsBy is_scan_failure (F.faults folder.old) (F.faults folder.new) result }
{
    if is_too_deep(&path) {
        return Err(ScanFault::TooDeep(path));
    }
    match read_file(alloc, folder, &path, cuts, buffer) {
        Ok(file) => note_seen(found, path, seen_file(file)),
        Err(ReadFault::Gone) => Ok(()),
        Err(ReadFault::Folder) => Err(ScanFault::Folder),
        Err(ReadFault::TooBig) => Err(ScanFault::TooBig(path)),
        Err(ReadFault::NoMemory) => Err(ScanFault::NoMemory),
    }
}

/// What is noted of a file.
fn seen_file(file: FileRead) -> Seen
    ensures value { result ≡ Seen.File file.blocks file.size }
{
    Seen::File {
        blocks: file.blocks,
        size: file.size,
    }
}

/// The fault of a scan where a call of the folder failed.
fn scan_fault(fault: FolderFault) -> ScanFault
    ensures value { (c : Contents) → IsPastLimit c result }
    ensures faults { is_scan_failure result ≡ is_folder_fault fault }
{
    match fault {
        FolderFault::Folder => ScanFault::Folder,
        FolderFault::NoMemory => ScanFault::NoMemory,
    }
}

/// A buffer for a piece of a file.
fn piece_buffer(alloc: Global) -> Result<Vec<u8>, AllocError>
    ensures bound { IfOk result (λ buffer. vec_len buffer ≡ PIECE) }
{
    vec![in alloc; 0; PIECE]
}

/// Nothing was found yet.
fn no_findings(alloc: Global) -> Findings
    ensures value { (cuts : Cuts) (c : Contents) → AreOf cuts c result }
    ensures few { map.len result.paths ≡ 0 }
{
    Findings {
        paths: PathTable::new(alloc),
        skipped: PathTable::new(alloc),
        nameless: PathTable::new(alloc),
    }
}

/// The report of what was found.
fn report(alloc: Global, found: Findings) -> Result<Scan, AllocError>
    ensures value { IfOk result (Reports found) }
{
    let skipped = paths_of(alloc, &found.skipped)?;
    let nameless = paths_of(alloc, &found.nameless)?;
    Ok(Scan {
        paths: found.paths,
        skipped,
        nameless,
    })
}
