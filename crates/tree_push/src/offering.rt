//! What a folder offers: its tree, and what a library may lack of it.
ghost use Rattle.std.specs.Prelude.{◌≡◌, ℕ, Err, IfErr, IfOk, List, option_map};
ghost use Rattle.std.specs.FinMap as map;
ghost use Rattle.ids.specs.Key.{Objects};
ghost use Rattle.tree_model.specs.Path.{PathV};
ghost use Rattle.object_graph.specs.Objects.{entry_below};
ghost use Rattle.object_graph.specs.Unchanged.{Keeps};
ghost use Rattle.tree_merge.specs.TreeBuilding.{IsCausedInBuild, IsClash};
ghost use Rattle.tree_merge.specs.declared.tree_builder.BuildFault.TheVariants.{Taken};
ghost use Rattle.tree_push.specs.ChangedOwns.{AreChangedOwns};
ghost use Rattle.tree_push.specs.OfferedEntries.{AreOffered, Entries, IsSeenFolder, offered_entry};
ghost use Rattle.tree_push.specs.OfferedTree.{IsMadeOf};
ghost use Rattle.tree_push.specs.Wanted.{AreChangedBlocks, AreOwnNamed, HasFiles};

use crate::offered_objects::offered_tree;
use crate::wanted::{Wanted, add_files};
use folder_side::Seen;
use ids::{KeyTable, ObjId, Text};
use local_index::Known;
use std::alloc::{AllocError, Global};
use tree_merge::{BuildFault, BuiltTree};
use tree_model::PathTable;

/// The root of a tree that is offered, which is forty zeros for the tree of no paths, and what a library may lack of it.
#[derive(Drop)]
pub struct Offered {
    pub root: ObjId,
    pub wanted: Wanted,
}

/// What is offered of what was seen, by what is known: the objects of all directories, and the objects and the blocks of all files that
/// are new or changed. `owns` are the own ids of these.
///
/// Refused where two directories have one name, or one has forty zeros, as no two texts that are known do.
pub fn offer(
    alloc: Global,
    paths: &PathTable<Seen>,
    knowns: &PathTable<Known>,
    owns: &PathTable<ObjId>,
    moment: u64,
    user: &Text,
) -> Result<Offered, BuildFault>
    requires ids { AreChangedOwns knowns.now paths.now owns.now }
    ensures value { IfOk result (λ offered. IsSeenFolder knowns.now paths.now → (objects : Objects) → Keeps offered.wanted.made objects
        → (path : PathV) → entry_below objects path offered.root ≡ option_map (offered_entry moment user.now (map.get knowns.now path)) (map.get paths.now path)) }
    ensures ok { IfOk result (λ offered. HasFiles knowns.now paths.now offered.wanted) }
    ensures within { IfOk result (λ offered. AreChangedBlocks knowns.now paths.now offered.wanted) }
    ensures tree { IfOk result (λ offered. IsSeenFolder knowns.now paths.now → IsMadeOf moment user.now knowns.now paths.now offered.root offered.wanted.made) }
    ensures named { IfOk result (λ offered. AreOwnNamed offered.wanted.made) }

    // The refusal. Want of memory may come in its place.
    ensures taken { (id : List ℕ) → result ≡ Err (Taken id) → IsSeenFolder knowns.now paths.now
        → (entries : Entries) × AreOffered moment user.now knowns.now paths.now entries × IsClash entries id }
    ensures cause { IfErr result IsCausedInBuild }
{
    let BuiltTree { root, made } = match offered_tree(alloc, paths, knowns, owns, moment, user) {
        Ok(built) => built,
        Err(fault) => return Err(fault),
    };
    let mut wanted = Wanted {
        made,
        blocks: KeyTable::new(alloc),
    };
    match add_files(alloc, paths, owns, &mut wanted) {
        Ok(()) => Ok(Offered { root, wanted }),
        Err(AllocError) => Err(BuildFault::NoMemory),
    }
}
