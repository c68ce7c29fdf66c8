//! Theorems on objects and their traversal, each the contract of a function that does nothing.
ghost use Rattle.std.specs.Prelude.{◌≡◌, ◌++◌, ◌∷◌, [], ℕ, ◌≤◌, Bool, true, false, IsSome, List, None, Some, Ok, length};
ghost use Rattle.std.specs.FinMap as map;
ghost use Rattle.ids.specs.Key.{Objects};
ghost use Rattle.ids.specs.declared.key.Key.{Key};
ghost use Rattle.tree_model.specs.Path.{PathV};
ghost use Rattle.tree_model.specs.Tree.{Tree, Fits};
ghost use Rattle.commit_objects.specs.declared.commit.Commit.{Commit};
ghost use Rattle.fs_objects.specs.declared.fs_object.FsObject.{FsObject};
ghost use Rattle.object_graph.specs.Objects.{commit_at, commit_key, fs_at, fs_key, node_below, IsTreeOf};
ghost use Rattle.object_graph.specs.Reached.{ReachedFrom, named};
ghost use Rattle.object_graph.specs.Traversal.{start, is_in, walk_root, walk_object, walk_below, walk_commit, needs, IsComplete, IsCompleteRoot};
ghost use Rattle.object_graph.specs.Unchanged.{AgreeOn, Keeps};

use crate::fault::TreeFault;

/// A traversal reads only what it visits: it is the same over objects that have the same bytes there, faults included.
pub fn a_traversal_reads_only_what_it_visits()
    ensures commit { (old : Objects) → (new : Objects) → (id : List ℕ)
        → AgreeOn (walk_commit old id).visits old new → walk_commit new id ≡ walk_commit old id }
    ensures root { (blocks : Bool) → (old : Objects) → (new : Objects) → (id : List ℕ)
        → AgreeOn (walk_root blocks old id start).visits old new → walk_root blocks new id start ≡ walk_root blocks old id start }
{}

/// A complete commit stays complete, with the same traversal, as objects are added.
pub fn a_complete_commit_stays_complete_as_objects_are_added()
    ensures ok { (old : Objects) → (new : Objects) → (id : List ℕ) → IsComplete old id → Keeps old new → IsComplete new id }
    ensures stays { (old : Objects) → (new : Objects) → (id : List ℕ) → IsComplete old id → Keeps old new
        → walk_commit new id ≡ walk_commit old id }
{}

/// A complete commit stays complete, with the same traversal, as objects leave that it doesn't need.
pub fn a_complete_commit_stays_complete_as_what_it_does_not_need_leaves()
    ensures ok { (old : Objects) → (new : Objects) → (id : List ℕ) → IsComplete old id → AgreeOn (needs old id) old new → IsComplete new id }
    ensures stays { (old : Objects) → (new : Objects) → (id : List ℕ) → AgreeOn (needs old id) old new
        → walk_commit new id ≡ walk_commit old id }
{}

/// What a complete commit needs is stored.
pub fn what_a_complete_commit_needs_is_stored()
    ensures { (objects : Objects) → (id : List ℕ) → IsComplete objects id → (key : Key)
        → is_in (needs objects id) key ≡ true → IsSome (map.get objects key) }
{}

/// What a complete commit needs can be read, and is no other commit.
pub fn what_a_complete_commit_needs_can_be_read()
    ensures files { (objects : Objects) → (id : List ℕ) → IsComplete objects id → (key : List ℕ)
        → is_in (needs objects id) (fs_key key) ≡ true → (object : FsObject) × (fs_at objects key ≡ Ok object) }
    ensures commit { (objects : Objects) → (id : List ℕ) → IsComplete objects id → (other : List ℕ)
        → is_in (needs objects id) (commit_key other) ≡ true → other ≡ id }
{}

/// What a commit needs is reached from it by what objects name, whether it is complete or not.
pub fn what_a_commit_needs_is_reached_from_it()
    ensures { (objects : Objects) → (id : List ℕ) → (key : Key) → is_in (needs objects id) key ≡ true
        → ReachedFrom objects [] (commit_key id ∷ []) key }
{}

/// What a complete commit needs names nothing else, so all that is reached from the commit is needed by it.
pub fn a_complete_commit_needs_all_that_is_reached_from_it()
    ensures named { (objects : Objects) → (id : List ℕ) → IsComplete objects id → (above : Key) → (key : Key)
        → is_in (needs objects id) above ≡ true → is_in (named objects above) key ≡ true → is_in (needs objects id) key ≡ true }
    ensures reached { (objects : Objects) → (id : List ℕ) → IsComplete objects id → (key : Key)
        → ReachedFrom objects [] (commit_key id ∷ []) key → is_in (needs objects id) key ≡ true }
{}

/// A commit's first fault is that a key is incomplete only where the traversal visited that key last, and nothing is
/// stored there.
pub fn an_incomplete_key_was_visited_and_is_not_stored()
    ensures last { (objects : Objects) → (id : List ℕ) → (key : Key)
        → (walk_commit objects id).fault ≡ Some (TreeFault.Incomplete key)
        → (before : List Key) × ((walk_commit objects id).visits ≡ before ++ key ∷ []) }
    ensures needed { (objects : Objects) → (id : List ℕ) → (key : Key)
        → (walk_commit objects id).fault ≡ Some (TreeFault.Incomplete key) → is_in (needs objects id) key ≡ true }
    ensures absent { (objects : Objects) → (id : List ℕ) → (key : Key)
        → (walk_commit objects id).fault ≡ Some (TreeFault.Incomplete key) → map.get objects key ≡ None }
{}

/// A complete commit is stored and can be read, and its root is complete.
pub fn a_complete_commit_has_a_complete_root()
    ensures { (objects : Objects) → (id : List ℕ) → IsComplete objects id
        → (commit : Commit) × (commit_at objects id ≡ Ok commit) × IsCompleteRoot objects commit.root }
{}

/// A root that is complete with the blocks of its files has no fault without them, and as many paths.
pub fn a_complete_root_is_complete_without_its_blocks()
    ensures ok { (objects : Objects) → (root : List ℕ) → IsCompleteRoot objects root → (walk_root false objects root start).fault ≡ None }
    ensures bound { (objects : Objects) → (root : List ℕ) → IsCompleteRoot objects root
        → (walk_root false objects root start).paths ≡ (walk_root true objects root start).paths }
{}

/// Each complete root has exactly one tree, and it fits the limits.
pub fn each_complete_root_has_one_tree()
    ensures found { (objects : Objects) → (root : List ℕ) → IsCompleteRoot objects root
        → (tree : Tree) × IsTreeOf objects root tree × Fits tree }
    ensures one { (objects : Objects) → (root : List ℕ) → (tree : Tree) → (other : Tree)
        → IsTreeOf objects root tree → IsTreeOf objects root other → tree ≡ other }
{}

/// A tree of a complete root fits the limits.
pub fn a_tree_of_a_complete_root_fits_the_limits()
    ensures { (objects : Objects) → (root : List ℕ) → (tree : Tree) → IsCompleteRoot objects root → IsTreeOf objects root tree → Fits tree }
{}

/// The tree of a root stays while the keys that its traversal visits keep their bytes.
pub fn the_tree_of_a_root_stays_while_its_objects_do()
    ensures root { (old : Objects) → (new : Objects) → (root : List ℕ) → (tree : Tree) → IsCompleteRoot old root
        → AgreeOn (walk_root true old root start).visits old new → IsTreeOf old root tree → IsTreeOf new root tree }
    ensures commit { (old : Objects) → (new : Objects) → (id : List ℕ) → (commit : Commit) → (tree : Tree) → IsComplete old id
        → commit_at old id ≡ Ok commit → AgreeOn (needs old id) old new → IsTreeOf old commit.root tree → IsTreeOf new commit.root tree }
{}

/// What lies below a complete directory stays as objects are added.
pub fn what_lies_below_a_complete_directory_stays_as_objects_are_added()
    ensures { (old : Objects) → (new : Objects) → (room : ℕ) → (path : PathV) → (id : List ℕ)
        → (walk_object true old (walk_below true old room) true path id start).fault ≡ None → Keeps old new
        → (below : PathV) → node_below new below id ≡ node_below old below id }
{}
