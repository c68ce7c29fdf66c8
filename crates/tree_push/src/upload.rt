//! All that a library lacks of what is offered, put.
ghost use Rattle.std.specs.Prelude.{◌≡◌, ◌<◌, ◌||◌, [], Some, IfErr, OnOk, length, map as list_map, option_and_then, true};
ghost use Rattle.std.specs.FinMap as map;
ghost use Rattle.std.specs.List.{list_any};
ghost use Rattle.ids.specs.FaultCount.{FailsBy};
ghost use Rattle.ids.specs.declared.key.Kind.TheVariants as kind;
ghost use Rattle.folder_side.specs.Calls.{Glances};
ghost use Rattle.folder_side.specs.Folder.{Contents, at};
ghost use Rattle.folder_side.specs.ScanReport.{seen_of};
ghost use Rattle.folder_side.specs.declared.scan_report.Seen.TheVariants as seen;
ghost use Rattle.object_graph.specs.Objects.{block_key};
ghost use Rattle.sync_rules.specs.Causes.{is_folder_fault};
ghost use Rattle.sync_rules.specs.Named.{is_of_tree};
ghost use Rattle.tree_push.specs.Asking.{AsksAmong, IsOrderFault, PutsAmong, Went, is_listed, key_of};
ghost use Rattle.tree_push.specs.BlockUpload.{NotChanged, PutsOff, StandsThere};
ghost use Rattle.tree_push.specs.Lacking.{AsksNoting, has_key};
ghost use Rattle.tree_push.specs.SentOnce.{GrowsOnce, SendsFront, TakesOnce};
ghost use Rattle.tree_push.specs.Upload.{IsUploadFault, OwnedStand, SeesFolder, UploadsSo, blocks_in, blocks_of};
ghost use Rattle.tree_push.specs.Wanted.{AreOwnNamed, AreSeenBlocks, ids_in};

use crate::asking::Library;
use crate::block_upload::put_blocks;
use crate::lacking::{ask_lacking, blocks_ahead, ids_of};
use crate::puts::put_objects;
use crate::wanted::Wanted;
use block_chunker::Cuts;
use folder_side::{Folder, Seen};
use ids::{Key, KeyTable, Kind, ObjId};
use remote_calls::Remote;
use std::alloc::{AllocError, Global};
use sync_rules::SyncFault;
use tree_model::{Path, PathTable};

/// Asks what is lacking of what is wanted, and puts it: each file that is new or changed, which has an own id in `owns`, is read again,
/// and each of which a block is lacking.
///
/// `Folder` where the folder failed, `Changed` where a file was changed since the scan, `Remote` and `Refused` by the last order.
pub(crate) fn upload<F: Folder, R: Remote>(
    alloc: Global,
    folder: &mut F,
    remote: &mut R,
    library: &Library,
    paths: &PathTable<Seen>,
    owns: &PathTable<ObjId>,
    wanted: &Wanted,
    cuts: Cuts,
    buffer: &mut [u8],
) -> Result<(), SyncFault>
    requires some { 0 < length buffer.old }
    requires named { AreOwnNamed wanted.now.made }
    requires seen { AreSeenBlocks paths.now wanted.now }
    ensures value { UploadsSo library.now wanted.now (R.sends remote.old) (R.sends remote.new) result }
    ensures once { GrowsOnce is_of_tree is_of_tree (R.sends remote.old) (R.sends remote.new) }
    ensures same { (c : Contents) → F.told folder.old ≡ Some c → OnOk result (OwnedStand cuts c paths.now owns.now) }
    ensures cause { (c : Contents) → F.told folder.old ≡ Some c → SeesFolder cuts c paths.now → NotChanged result }
    ensures stays { (F.told folder.new ≡ F.told folder.old) × (F.spare folder.new ≡ F.spare folder.old) × (R.peer remote.new ≡ R.peer remote.old) }
    ensures traced { Glances (F.trace folder.old) (F.trace folder.new) }
    ensures faults { FailsBy is_folder_fault (F.faults folder.old) (F.faults folder.new) result }
    ensures bad { IfErr result IsUploadFault }
{
    let mut objects = KeyTable::new(alloc);
    match ask_objects(alloc, remote, library, wanted, &mut objects) {
        Ok(()) => {}
        Err(fault) => return Err(fault),
    }
    let mut blocks = KeyTable::new(alloc);
    match ask_blocks(alloc, remote, library, wanted, &mut blocks) {
        Ok(()) => {}
        Err(fault) => return Err(fault),
    }
    match put_files(
        alloc,
        folder,
        remote,
        library,
        paths,
        owns,
        cuts,
        buffer,
        &mut blocks,
    ) {
        Ok(()) => {}
        Err(fault) => return Err(fault),
    }
    folder.ahead(blocks_ahead(&blocks));
    put_objects(alloc, remote, library, &wanted.made, &objects)
}

/// Asks which of the objects are lacking, and notes those.
fn ask_objects<R: Remote>(
    alloc: Global,
    remote: &mut R,
    library: &Library,
    wanted: &Wanted,
    lacking: &mut KeyTable<()>,
) -> Result<(), SyncFault>
    ensures value { Went library.now (AsksAmong kind.Fs (ids_in (map.entries wanted.now.made))) (AsksNoting library.now kind.Fs (ids_in (map.entries wanted.now.made)) lacking.old lacking.new) (R.sends remote.old) (R.sends remote.new) result }
    ensures once { SendsFront (list_map (key_of kind.Fs) (ids_in (map.entries wanted.now.made))) [] (R.sends remote.old) (R.sends remote.new) }
    ensures faults { IfErr result IsOrderFault }
    ensures stays { R.peer remote.new ≡ R.peer remote.old }
{
    ask_wanted(alloc, remote, library, Kind::Fs, &wanted.made, lacking)
}

/// The same of blocks.
fn ask_blocks<R: Remote>(
    alloc: Global,
    remote: &mut R,
    library: &Library,
    wanted: &Wanted,
    lacking: &mut KeyTable<()>,
) -> Result<(), SyncFault>
    ensures value { Went library.now (AsksAmong kind.Block (ids_in (map.entries wanted.now.blocks))) (AsksNoting library.now kind.Block (ids_in (map.entries wanted.now.blocks)) lacking.old lacking.new) (R.sends remote.old) (R.sends remote.new) result }
    ensures once { SendsFront (list_map (key_of kind.Block) (ids_in (map.entries wanted.now.blocks))) [] (R.sends remote.old) (R.sends remote.new) }
    ensures faults { IfErr result IsOrderFault }
    ensures stays { R.peer remote.new ≡ R.peer remote.old }
{
    ask_wanted(alloc, remote, library, Kind::Block, &wanted.blocks, lacking)
}

/// Asks which ids of a table's keys name nothing, and notes those.
fn ask_wanted<V, R: Remote>(
    alloc: Global,
    remote: &mut R,
    library: &Library,
    kind: Kind,
    wanted: &KeyTable<V>,
    lacking: &mut KeyTable<()>,
) -> Result<(), SyncFault>
    requires listed { is_listed kind ≡ true }
    ensures value { Went library.now (AsksAmong kind (ids_in (map.entries wanted.now))) (AsksNoting library.now kind (ids_in (map.entries wanted.now)) lacking.old lacking.new) (R.sends remote.old) (R.sends remote.new) result }
    ensures once { SendsFront (list_map (key_of kind) (ids_in (map.entries wanted.now))) [] (R.sends remote.old) (R.sends remote.new) }
    ensures faults { IfErr result IsOrderFault }
    ensures stays { R.peer remote.new ≡ R.peer remote.old }
{
    match ids_of(alloc, wanted) {
        Ok(ids) => ask_lacking(alloc, remote, library, kind, ids.slice(), lacking),
        Err(AllocError) => Err(SyncFault::NoMemory),
    }
}

/// Goes over all files that were seen, and reads those again that have an own id here, and those of which a block is lacking. Afterwards
/// none is.
fn put_files<F: Folder, R: Remote>(
    alloc: Global,
    folder: &mut F,
    remote: &mut R,
    library: &Library,
    paths: &PathTable<Seen>,
    owns: &PathTable<ObjId>,
    cuts: Cuts,
    buffer: &mut [u8],
    lacking: &mut KeyTable<()>,
) -> Result<(), SyncFault>
    requires some { 0 < length buffer.old }
    ensures value { Went library.now (PutsAmong (has_key lacking.old)) (PutsOff (blocks_in (map.entries paths.now)) lacking.old lacking.new) (R.sends remote.old) (R.sends remote.new) result }
    ensures once { TakesOnce lacking.old lacking.new (R.sends remote.old) (R.sends remote.new) }
    ensures same { (c : Contents) → F.told folder.old ≡ Some c → OnOk result (OwnedStand cuts c paths.now owns.now) }
    ensures cause { (c : Contents) → F.told folder.old ≡ Some c → SeesFolder cuts c paths.now → NotChanged result }
    ensures stays { (F.told folder.new ≡ F.told folder.old) × (F.spare folder.new ≡ F.spare folder.old) × (R.peer remote.new ≡ R.peer remote.old) }
    ensures traced { Glances (F.trace folder.old) (F.trace folder.new) }
    ensures faults { FailsBy is_folder_fault (F.faults folder.old) (F.faults folder.new) result }
    ensures bad { IfErr result IsUploadFault }
{
    for (path, seen) in paths.iter() {
        let changed = owns.has(path);
        match put_seen(
            alloc, folder, remote, library, path, seen, changed, cuts, buffer, lacking,
        ) {
            Ok(()) => {}
            Err(fault) => return Err(fault),
        }
    }
    Ok(())
}

/// Reads a file again, if it is new or changed or a block of it is lacking, and puts its blocks that are.
fn put_seen<F: Folder, R: Remote>(
    alloc: Global,
    folder: &mut F,
    remote: &mut R,
    library: &Library,
    path: &Path,
    seen: &Seen,
    changed: bool,
    cuts: Cuts,
    buffer: &mut [u8],
    lacking: &mut KeyTable<()>,
) -> Result<(), SyncFault>
    requires some { 0 < length buffer.old }
    ensures value { Went library.now (PutsAmong (has_key lacking.old)) (PutsOff (blocks_of seen.now) lacking.old lacking.new) (R.sends remote.old) (R.sends remote.new) result }
    ensures once { TakesOnce lacking.old lacking.new (R.sends remote.old) (R.sends remote.new) }
    ensures same { (c : Contents) → F.told folder.old ≡ Some c → changed ≡ true → OnOk result (StandsThere cuts c path.now seen.now) }
    ensures cause { (c : Contents) → F.told folder.old ≡ Some c → Some seen.now ≡ option_and_then (seen_of cuts) (at c path.now) → NotChanged result }
    ensures stays { (F.told folder.new ≡ F.told folder.old) × (F.spare folder.new ≡ F.spare folder.old) × (R.peer remote.new ≡ R.peer remote.old) }
    ensures traced { Glances (F.trace folder.old) (F.trace folder.new) }
    ensures faults { FailsBy is_folder_fault (F.faults folder.old) (F.faults folder.new) result }
    ensures bad { IfErr result IsUploadFault }
{
    match seen {
        Seen::Dir => Ok(()),
        Seen::File { blocks, size } => put_lacking_of(
            alloc,
            folder,
            remote,
            library,
            path,
            blocks.slice(),
            *size,
            changed,
            cuts,
            buffer,
            lacking,
        ),
    }
}

fn put_lacking_of<F: Folder, R: Remote>(
    alloc: Global,
    folder: &mut F,
    remote: &mut R,
    library: &Library,
    path: &Path,
    blocks: &[ObjId],
    size: u64,
    changed: bool,
    cuts: Cuts,
    buffer: &mut [u8],
    lacking: &mut KeyTable<()>,
) -> Result<(), SyncFault>
    requires some { 0 < length buffer.old }
    ensures value { Went library.now (PutsAmong (has_key lacking.old)) (PutsOff blocks.now lacking.old lacking.new) (R.sends remote.old) (R.sends remote.new) result }
    ensures once { TakesOnce lacking.old lacking.new (R.sends remote.old) (R.sends remote.new) }
    ensures same { (c : Contents) → F.told folder.old ≡ Some c → changed ≡ true → OnOk result (StandsThere cuts c path.now (seen.File blocks.now size)) }
    ensures cause { (c : Contents) → F.told folder.old ≡ Some c → Some (seen.File blocks.now size) ≡ option_and_then (seen_of cuts) (at c path.now) → NotChanged result }
    ensures stays { (F.told folder.new ≡ F.told folder.old) × (F.spare folder.new ≡ F.spare folder.old) × (R.peer remote.new ≡ R.peer remote.old) }
    ensures traced { Glances (F.trace folder.old) (F.trace folder.new) }
    ensures faults { FailsBy is_folder_fault (F.faults folder.old) (F.faults folder.new) result }
    ensures bad { IfErr result IsUploadFault }
{
    if !is_read_again(blocks, changed, lacking) {
        return Ok(());
    }
    put_blocks(
        alloc, folder, remote, library, path, blocks, size, cuts, buffer, lacking,
    )
}

/// Whether a file of these blocks is read again: it is new or changed, or one of them is lacking.
fn is_read_again(blocks: &[ObjId], changed: bool, lacking: &KeyTable<()>) -> bool
    ensures value { result ≡ (changed || list_any (λ id. has_key lacking.now (block_key id)) blocks.now) }
{
    changed || is_lacking(blocks, lacking)
}

/// Whether one of these blocks is lacking.
fn is_lacking(blocks: &[ObjId], lacking: &KeyTable<()>) -> bool
    ensures value { result ≡ list_any (λ id. has_key lacking.now (block_key id)) blocks.now }
{
    for id in blocks {
        if lacking.has(&Key {
            kind: Kind::Block,
            id: *id,
        }) {
            return true;
        }
    }
    false
}
