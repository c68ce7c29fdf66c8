//! The tree that is offered, as objects.
ghost use Rattle.std.specs.Prelude.{◌≡◌, ◌↔◌, ℕ, Err, IfErr, IfOk, List, None, option_map};
ghost use Rattle.std.specs.FinMap as map;
ghost use Rattle.ids.specs.Key.{Objects};
ghost use Rattle.ids.specs.ObjectId.{nil};
ghost use Rattle.tree_model.specs.Path.{PathV};
ghost use Rattle.object_graph.specs.Objects.{entry_below};
ghost use Rattle.object_graph.specs.Unchanged.{Keeps};
ghost use Rattle.tree_merge.specs.TreeBuilding.{AreDirectories, AreNamed, HasMade, IsCausedInBuild, IsClash, IsDirectoryOf, IsNilOrMade};
ghost use Rattle.tree_merge.specs.declared.tree_builder.BuildFault.TheVariants.{Taken};
ghost use Rattle.tree_push.specs.ChangedOwns.{AreChangedOwns};
ghost use Rattle.tree_push.specs.OfferedEntries.{AreOffered, Entries, IsSeenFolder, offered_entry};

use crate::offered_entries::offered_entries;
use folder_side::Seen;
use ids::{ObjId, Text};
use local_index::Known;
use std::alloc::{AllocError, Global};
use tree_merge::{BuildFault, BuiltTree, build};
use tree_model::PathTable;

/// The directory objects of the tree that is offered, each under its own name. None is made for an empty directory. `owns` are the own ids
/// of the files that are new or changed.
///
/// Refused where two of them have one name, or one has forty zeros, as no two texts that are known do.
pub fn offered_tree(
    alloc: Global,
    paths: &PathTable<Seen>,
    knowns: &PathTable<Known>,
    owns: &PathTable<ObjId>,
    moment: u64,
    user: &Text,
) -> Result<BuiltTree, BuildFault>
    requires ids { AreChangedOwns knowns.now paths.now owns.now }
    ensures value { IfOk result (λ built. IsSeenFolder knowns.now paths.now → (objects : Objects) → Keeps built.made objects
        → (path : PathV) → entry_below objects path built.root ≡ option_map (offered_entry moment user.now (map.get knowns.now path)) (map.get paths.now path)) }
    ensures needed { IfOk result (λ built. IsSeenFolder knowns.now paths.now → (id : List ℕ) → HasMade built.made id
        → (objects : Objects) → Keeps built.made objects → IsDirectoryOf objects built.root id) }
    ensures dirs { IfOk result (λ built. IsSeenFolder knowns.now paths.now → (entries : Entries) × AreOffered moment user.now knowns.now paths.now entries
        × AreDirectories entries built.made × IsNilOrMade built.made built.root) }
    ensures zeros { IfOk result (λ built. IsSeenFolder knowns.now paths.now → (built.root ≡ nil) ↔ ((path : PathV) → map.get paths.now path ≡ None)) }
    ensures named { IfOk result (λ built. AreNamed built.made) }

    // The refusal. Want of memory may come in its place.
    ensures taken { (id : List ℕ) → result ≡ Err (Taken id) → IsSeenFolder knowns.now paths.now
        → (entries : Entries) × AreOffered moment user.now knowns.now paths.now entries × IsClash entries id }
    ensures cause { IfErr result IsCausedInBuild }
{
    match offered_entries(alloc, paths, knowns, owns, moment, user) {
        Ok(entries) => build(alloc, entries),
        Err(AllocError) => Err(BuildFault::NoMemory),
    }
}
