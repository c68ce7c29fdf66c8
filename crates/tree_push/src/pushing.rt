//! The push of one round.
ghost use Rattle.std.specs.Prelude.{◌≡◌, ◌≢◌, ◌<◌, ◌++◌, IfOk, List, vec_len};
ghost use Rattle.folder_side.specs.Calls.{Glances};
ghost use Rattle.ids.specs.FaultCount.{FailsBy};
ghost use Rattle.ids.specs.ObjectId.{nil};
ghost use Rattle.remote_calls.specs.Sends.{Sent};
ghost use Rattle.sync_rules.specs.Causes.{is_folder_fault};
ghost use Rattle.tree_push.specs.ChangedOwns.{AreChangedOwns};
ghost use Rattle.tree_push.specs.Pushing.{PushesSo, NeedsSo};

use crate::asking::Library;
use crate::offering::offer;
use crate::standing::{Pushed, stand_at};
use crate::upload::upload;
use block_chunker::Cuts;
use folder_side::{Folder, Scan};
use ids::{ObjId, Text};
use local_index::Index;
use remote_calls::Remote;
use std::alloc::{AllocError, Global};
use sync_rules::SyncFault;
use tree_model::PathTable;

/// The greatest number of bytes of a file that are read at once.
const PIECE: usize = 65_536;

/// Pushes what a folder offers, by what a scan saw of it and an index knows: asks what the library lacks of it, puts that, and asks the
/// library to stand at its commit on this parent. `owns` are the own ids of the files that are new or changed, each of which is read once
/// more before the library is asked.
///
/// Behind an upload check that was allowed. The folder is read and never changed; no more of a file is in memory than one chunk and two
/// pieces. `Folder` where the folder failed, `Changed` where a file that is new or changed, or of which a block was lacking, isn't as the
/// scan saw it, `Remote` and `Refused` by the last order. That the update came too late is no fault. Two directories of one name, and a
/// commit whose name is forty zeros, as no texts are known to have, are told as want of memory.
pub fn push<F: Folder, R: Remote>(
    alloc: Global,
    folder: &mut F,
    remote: &mut R,
    library: &Library,
    scan: &Scan,
    index: &Index,
    owns: &PathTable<ObjId>,
    parent: ObjId,
    cuts: Cuts,
    user: &Text,
    moment: u64,
) -> Result<Pushed, SyncFault>
    requires some { parent ≢ nil }
    requires library { library.now.lib ≡ index.now.lib }
    requires ids { AreChangedOwns index.now.entries scan.now.paths owns.now }
    ensures value { (more : List Sent) × (R.sends remote.new ≡ R.sends remote.old ++ more) × PushesSo library.now user.now moment parent (F.told folder.old) cuts index.now scan.now more result }
    ensures needed { NeedsSo library.now user.now moment parent index.now scan.now (R.sends remote.old) (R.sends remote.new) }
    ensures stays { (F.told folder.new ≡ F.told folder.old) × (R.peer remote.new ≡ R.peer remote.old) × (F.spare folder.new ≡ F.spare folder.old) }
    ensures traced { Glances (F.trace folder.old) (F.trace folder.new) }
    ensures faults { FailsBy is_folder_fault (F.faults folder.old) (F.faults folder.new) result }
{
    let offered = match offer(alloc, &scan.paths, &index.entries, owns, moment, user) {
        Ok(offered) => offered,
        Err(_) => return Err(SyncFault::NoMemory),
    };
    let mut buffer = match piece_buffer(alloc) {
        Ok(buffer) => buffer,
        Err(AllocError) => return Err(SyncFault::NoMemory),
    };
    match upload(
        alloc,
        folder,
        remote,
        library,
        &scan.paths,
        owns,
        &offered.wanted,
        cuts,
        buffer.as_mut_slice(),
    ) {
        Ok(()) => {}
        Err(fault) => return Err(fault),
    }
    stand_at(alloc, remote, library, offered.root, parent, user, moment)
}

/// A buffer for a piece of a file.
fn piece_buffer(alloc: Global) -> Result<Vec<u8>, AllocError>
    ensures some { IfOk result (λ buffer. 0 < vec_len buffer) }
{
    vec![in alloc; 0; PIECE]
}
