//! Theorems on what is known of stored trees, each the contract of a function that does nothing.
ghost use Rattle.std.specs.Prelude.{◌≡◌, ℕ, true, false, is_some, List, Some};
ghost use Rattle.std.specs.List.{list_any};
ghost use Rattle.std.specs.FinMap as map;
ghost use Rattle.ids.specs.Key.{Objects};
ghost use Rattle.ids.specs.declared.key.Key.{Key};
ghost use Rattle.object_graph.specs.Objects.{fs_key, is_nil, same_id};
ghost use Rattle.object_graph.specs.Traversal.{IsComplete, is_in};
ghost use Rattle.object_graph.specs.Unchanged.{Keeps};
ghost use Rattle.tree_walk.specs.KnownTrees.{Fits, IsNeededBy, KeepsFor, KnownView, extent_known, file_known, nothing_known};
ghost use Rattle.tree_walk.specs.declared.extent.Extent.{Extent};

/// Where nothing is known, what is known is right.
pub fn what_is_known_is_right_at_first()
    ensures { (objects : Objects) → Fits objects nothing_known }
{}

/// What is known stays right as objects are added.
pub fn what_is_known_stays_right_as_objects_are_added()
    ensures { (old : Objects) → (new : Objects) → (known : KnownView) → Keeps old new → Fits old known → Fits new known }
{}

/// What is known is of objects that are stored, so once one of them has left it is right no more. Forty zeros are no object.
pub fn what_is_known_is_stored()
    ensures dirs { (objects : Objects) → (known : KnownView) → (id : List ℕ) → (extent : Extent) → Fits objects known → is_nil id ≡ false
        → extent_known known (fs_key id) ≡ Some extent → is_some (map.get objects (fs_key id)) ≡ true }
    ensures files { (objects : Objects) → (known : KnownView) → (id : List ℕ) → Fits objects known → is_nil id ≡ false
        → is_some (file_known known (fs_key id)) ≡ true → is_some (map.get objects (fs_key id)) ≡ true }
{}

/// What is kept for complete commits, of keys that they need, is right.
pub fn what_is_kept_for_complete_commits_is_right()
    ensures { (objects : Objects) → (commits : List (List ℕ)) → (keys : List Key) → (old : KnownView) → (new : KnownView) → Fits objects old
        → KeepsFor commits keys old new → ((commit : List ℕ) → list_any (same_id commit) commits ≡ true → IsComplete objects commit)
        → ((key : Key) → is_in keys key ≡ true → IsNeededBy objects commits key) → Fits objects new }
{}

/// Where nothing was learned since, what is known stays right as objects leave that the commits don't need for which it was kept.
pub fn what_was_kept_stays_right_as_other_objects_leave()
    ensures { (old : Objects) → (new : Objects) → (known : KnownView) → known.directories ≡ map.empty → known.files ≡ map.empty
        → ((key : Key) → IsNeededBy old known.commits key → map.get new key ≡ map.get old key) → Fits old known → Fits new known }
{}
