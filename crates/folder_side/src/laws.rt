//! What a scan means for the visible tree of a folder, and what is left where a tree is checked out into it. Each law is a
//! function without a body.

ghost use Rattle.std.specs.Prelude.{◌≡◌, ◌↔◌, ◌&&◌, ◌||◌, not, true, false, if◌then◌else◌, is_some, Some, None, Contains};
ghost use Rattle.std.specs.Option.{option_map};
ghost use Rattle.std.specs.List.{filter_map, list_any};
ghost use Rattle.std.specs.FinMap as map;
ghost use Rattle.tree_model.specs.DirectorySurvival.{is_under, is_within};
ghost use Rattle.tree_model.specs.Path.{PathV};
ghost use Rattle.tree_model.specs.Tree.{Tree};
ghost use Rattle.tree_model.specs.declared.node.FileVersion.{FileVersion};
ghost use Rattle.tree_model.specs.declared.node.Node.TheVariants as node;
ghost use Rattle.block_chunker.specs.declared.cuts.Cuts.{Cuts};
ghost use Rattle.folder_side.specs.declared.holding.Holding.TheVariants.{Dir, File};
ghost use Rattle.folder_side.specs.declared.scan_report.Scan.{Scan};
ghost use Rattle.folder_side.specs.Folder.{Contents, IsFolder, at, is_dir};
ghost use Rattle.folder_side.specs.ScanReport.{IsScan};
ghost use Rattle.folder_side.specs.declared.file_reader.TheConstants.{MAX_FILE};
ghost use Rattle.folder_side.specs.declared.folder_scan.TheConstants.{PIECE};
ghost use Rattle.folder_side.specs.WorkingTree.{HoldsLeft, KeepsHidden, PlainNode, PlainDir, held_at, held_list, is_stuck, left_at, plain_at, seen_as};

/// A file has at most 256 GiB, and is read in pieces of at most 64 KiB.
pub fn the_limit_of_a_file()
    ensures value { (MAX_FILE ≡ 274877906944) × (PIECE ≡ 65536) }
{}

/// A scan sees the visible tree and nothing else: each directory, and each file by the names of its
/// chunks and its length.
pub fn a_scan_sees_the_visible_tree()
    ensures value { (cuts : Cuts) (c : Contents) (scan : Scan) → IsScan cuts c scan → (path : PathV) →
        map.get scan.paths path ≡ option_map (seen_as cuts) (held_at c path) }
{}

/// A directory can't be removed exactly where a skipped path lies under it, or a path of `nameless` is it or
/// lies under it: the report of a scan tells it.
pub fn a_scan_tells_the_stuck_directories()
    ensures value { (cuts : Cuts) (c : Contents) (scan : Scan) → IsScan cuts c scan → (dir : PathV) →
        is_stuck c dir ≡ (is_dir (at c dir)
        && (list_any (is_under dir) scan.skipped || list_any (is_within dir) scan.nameless)) }
{}

/// A directory that can't be removed stays one, and no other becomes one, where only files and directories change.
pub fn the_stuck_directories_stay_where_only_visible_entries_change()
    ensures value { (old : Contents) (new : Contents) → IsFolder old → IsFolder new → KeepsHidden old new → (dir : PathV) →
        is_stuck new dir ≡ is_stuck old dir }
{}

/// What is left of a checkout is the tree, and beside it just the stuck directories that the tree lacks.
pub fn what_is_left_holds_the_tree_and_the_stuck_directories()
    ensures tree { (tree : Tree) (c : Contents) (path : PathV) (here : PlainNode) → plain_at tree path ≡ Some here →
        left_at tree c path ≡ Some here }
    ensures stuck { (tree : Tree) (c : Contents) (path : PathV) → map.get tree path ≡ None → is_stuck c path ≡ true →
        left_at tree c path ≡ Some PlainDir }
    ensures gone { (tree : Tree) (c : Contents) (path : PathV) → map.get tree path ≡ None → is_stuck c path ≡ false →
        left_at tree c path ≡ None }
{}

/// A folder that holds what is left has each file of the tree with its bytes, each directory of the tree, and beside
/// them the directories that were stuck; nothing else that a tree could have.
pub fn a_folder_that_holds_what_is_left_has_the_tree()
    ensures files { (tree : Tree) (old : Contents) (new : Contents) → HoldsLeft tree old new → (path : PathV) (version : FileVersion) →
        map.get tree path ≡ Some (node.File version) → at new path ≡ Some (File version.bytes) }
    ensures dirs { (tree : Tree) (old : Contents) (new : Contents) → HoldsLeft tree old new → (path : PathV) →
        map.get tree path ≡ Some node.Dir → at new path ≡ Some Dir }
    ensures stuck { (tree : Tree) (old : Contents) (new : Contents) → HoldsLeft tree old new → (path : PathV) →
        map.get tree path ≡ None → is_stuck old path ≡ true → at new path ≡ Some Dir }
    ensures gone { (tree : Tree) (old : Contents) (new : Contents) → HoldsLeft tree old new → (path : PathV) →
        map.get tree path ≡ None → is_stuck old path ≡ false → held_at new path ≡ None }
{}

/// The list of held directories has just the stuck directories that the tree lacks, in the order of the folder's paths.
pub fn the_held_list_has_the_stuck_directories_that_the_tree_lacks()
    ensures listed { (tree : Tree) (c : Contents) (path : PathV) →
        Contains (held_list tree c) path ↔ ((is_stuck c path ≡ true) × (map.get tree path ≡ None)) }
    ensures ordered { (tree : Tree) (c : Contents) →
        held_list tree c ≡ filter_map (λ path. if is_stuck c path && not (is_some (map.get tree path)) then Some path else None) (map.keys c.paths) }
{}
