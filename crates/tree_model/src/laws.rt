//! Theorems on names, paths and trees, each the contract of a function that does nothing.
ghost use Rattle.std.specs.Prelude.{◌≡◌, ℕ, Bool, None, ◌↔◌, ◌⊎◌, ◌∷◌, ◌++◌, List, filter, All, Some, true, false};
ghost use Rattle.std.specs.FinMap as map;
ghost use Rattle.std.specs.Ordering.{nat_cmp};
ghost use Rattle.std.specs.Cmp.Lexicographic.{slice_cmp};
ghost use Rattle.tree_model.specs.Path.{PathV, IsPath, path_cmp, path_text};
ghost use Rattle.tree_model.specs.Tree.{Tree, IsTree, Fits, IsAlike, file_at};
ghost use Rattle.tree_model.specs.ConflictCopies.{stands_in, copies_alone, first_long, leavers, Naming, conflicts, in_trees, places_of, IsLeastFree};
ghost use Rattle.tree_model.specs.ThreeWayMerge.{merge, merged, MergedTree, MergesLike, IsNaming, HasVersion, IsFirstLong, IsFromSide, TooLong, node_at};
ghost use Rattle.tree_model.specs.DirectorySurvival.{Sides, AgreeBelow, Stays, stays, kept_dir, HasKeptEntry, is_under};
ghost use Rattle.tree_model.specs.EmptyPart.{IsEmptyBelow};
ghost use Rattle.tree_model.specs.PathCounts.{CountsAddUp, paths_below};
ghost use Rattle.tree_model.specs.MergeParts.{AreParts, IsFirst, IsLevel, MergesBelow, MergesHere, long_at};
ghost use Rattle.tree_model.specs.FileMerge.{same_file};
ghost use Rattle.tree_model.specs.declared.node.FileVersion.{FileVersion};
ghost use Rattle.tree_model.specs.declared.node.Node.TheVariants.{File};
ghost use Rattle.tree_model.specs.declared.limits.TheConstants.{MAX_PATHS, MAX_NAMES, MAX_NAME};

/// A tree has at most 1,000,000 paths of at most 100 names of at most 255 bytes.
pub fn the_limits_of_a_tree()
    ensures { (MAX_PATHS ≡ 1000000) × (MAX_NAMES ≡ 100) × (MAX_NAME ≡ 255) }
{}

/// Paths stand in the byte order of their texts: names joined by `/`.
pub fn paths_are_ordered_by_the_bytes_of_their_texts()
    ensures { (p : PathV) → (q : PathV) → IsPath p → IsPath q → path_cmp p q ≡ slice_cmp nat_cmp (path_text p) (path_text q) }
{}

/// The text of a path tells the path.
pub fn two_paths_have_two_texts()
    ensures { (p : PathV) → (q : PathV) → IsPath p → IsPath q → path_text p ≡ path_text q → p ≡ q }
{}

/// Merging an unchanged push gives the head as it is.
///
/// A naming is any way to name conflict copies; nothing of it is asked here.
pub fn merging_an_unchanged_push_gives_the_head()
    ensures { (naming : Naming) → (base : Tree) → (head : Tree) → (pushed : Tree) → IsTree base → Fits head → IsTree pushed
        → IsAlike base pushed → merge naming base head pushed ≡ MergedTree head }
{}

/// Merging into a head that didn't move gives the pushed tree, up to times and authors: a fast-forward loses nothing.
pub fn merging_into_an_unmoved_head_gives_the_pushed_tree()
    ensures { (naming : Naming) → (base : Tree) → (head : Tree) → (pushed : Tree) → IsTree base → IsTree head → Fits pushed
        → IsAlike base head → MergesLike naming base head pushed pushed }
{}

/// No version of the head is lost: where base hasn't it, the merged tree has its bytes and mode, at its path or as its
/// conflict copy.
pub fn no_version_of_the_head_is_lost()
    ensures { (naming : Naming) → (s : Sides) → IsNaming naming → IsTree s.head → IsTree s.pushed
        → (path : PathV) → (version : FileVersion) → file_at s.head path ≡ Some version
        → same_file (file_at s.base path) (Some version) ≡ false → HasVersion naming s path version }
{}

/// No pushed version is lost.
pub fn no_pushed_version_is_lost()
    ensures { (naming : Naming) → (s : Sides) → IsNaming naming → IsTree s.head → IsTree s.pushed
        → (path : PathV) → (version : FileVersion) → file_at s.pushed path ≡ Some version
        → same_file (file_at s.base path) (Some version) ≡ false → HasVersion naming s path version }
{}

/// No conflict copy takes a path of any of the three trees.
pub fn no_conflict_copy_takes_a_path_of_the_trees()
    ensures { (naming : Naming) → (s : Sides) → IsNaming naming → All (λ copy. in_trees s copy.1 ≡ false) (conflicts naming s) }
{}

/// What a merge gives is a tree within the limits: each entry stands in a directory, and each path is one of good names.
pub fn a_merge_gives_a_tree_within_the_limits()
    ensures { (naming : Naming) → (base : Tree) → (head : Tree) → (pushed : Tree) → (tree : Tree) → IsNaming naming
        → Fits base → Fits head → Fits pushed → merge naming base head pushed ≡ MergedTree tree → Fits tree }
{}

/// A directory survives a merge exactly by the three rules: it is kept itself, a file gets its place below it, or a
/// directory below it survives.
pub fn a_directory_survives_by_its_rules()
    ensures { (s : Sides) → (dir : PathV) → (stays s dir ≡ true) ↔ Stays s dir }
{}

/// Each conflict copy has the least number from 1 on whose path is in none of the three trees and wasn't taken before.
pub fn each_conflict_copy_has_the_least_free_number()
    ensures { (naming : Naming) → (s : Sides) → IsNaming naming
        → (before : List ((PathV × FileVersion) × PathV)) → (copy : (PathV × FileVersion) × PathV) → (after : List ((PathV × FileVersion) × PathV))
        → conflicts naming s ≡ before ++ copy ∷ after → IsLeastFree naming s (places_of before) copy }
{}

/// Directories survive level by level: a directory by its own kind, or by an entry of its own.
pub fn directories_survive_level_by_level()
    ensures { (s : Sides) → (dir : PathV) → (stays s dir ≡ true) ↔ ((kept_dir s dir ≡ true) ⊎ HasKeptEntry s dir) }
{}

/// What lies below a directory stays the head's, as it is, where pushed has there what base has, or what the head has.
pub fn a_part_that_pushed_left_alone_is_the_heads()
    ensures { (naming : Naming) → (s : Sides) → IsNaming naming → IsTree s.base → IsTree s.head → IsTree s.pushed
        → (dir : PathV) → (AgreeBelow dir s.pushed s.base) ⊎ (AgreeBelow dir s.pushed s.head)
        → (path : PathV) → is_under dir path ≡ true → map.get (merged naming s) path ≡ map.get s.head path }
{}

/// What lies below a directory is pushed's, as it is, where head has there what base has, and base or pushed has nothing.
pub fn a_part_that_pushed_alone_changed_is_pusheds()
    ensures { (naming : Naming) → (s : Sides) → IsNaming naming → IsTree s.base → IsTree s.head → IsTree s.pushed
        → (dir : PathV) → AgreeBelow dir s.head s.base → (IsEmptyBelow dir s.base) ⊎ (IsEmptyBelow dir s.pushed)
        → (path : PathV) → is_under dir path ≡ true → map.get (merged naming s) path ≡ map.get s.pushed path }
{}

/// The copies of a directory's files are named as if no file of another directory left its name.
pub fn conflict_copies_depend_on_their_directory_alone()
    ensures { (naming : Naming) → (s : Sides) → (dir : PathV)
        → filter (λ copy. stands_in dir copy.0.0) (conflicts naming s) ≡ copies_alone naming s (filter (λ file. stands_in dir file.0) (map.entries (leavers s))) }
{}

/// The paths of a tree add up, directory by directory and name by name.
pub fn counts_of_paths_add_up()
    ensures { (tree : Tree) → IsTree tree → CountsAddUp tree }
{}

/// Where a conflict name is refused as too long, its file is the first such one in the byte order of paths.
pub fn the_first_name_that_is_too_long_is_the_least()
    ensures { (naming : Naming) → (base : Tree) → (head : Tree) → (pushed : Tree) → (path : PathV) → (bytes : ℕ)
        → merge naming base head pushed ≡ TooLong path bytes → IsFirstLong naming (record { base = base; head = head; pushed = pushed }) path bytes }
{}

/// A path of one of the three trees has in the merge the directory that survives there, or else its main file.
pub fn a_path_of_the_trees_has_its_directory_or_its_main_file()
    ensures { (naming : Naming) → (s : Sides) → IsNaming naming → (path : PathV) → in_trees s path ≡ true
        → map.get (merged naming s) path ≡ node_at s path }
{}

/// Each conflict copy stands at its place, with its file's mode, time and author.
pub fn each_conflict_copy_stands_at_its_place()
    ensures { (naming : Naming) → (s : Sides) → IsNaming naming
        → All (λ copy. map.get (merged naming s) copy.1 ≡ Some (File copy.0.1)) (conflicts naming s) }
{}

/// Nothing stands below a path at which no directory survives.
pub fn nothing_stands_below_what_does_not_survive()
    ensures { (naming : Naming) → (s : Sides) → IsNaming naming → IsTree s.base → IsTree s.head → IsTree s.pushed
        → (dir : PathV) → (path : PathV) → stays s dir ≡ false → is_under dir path ≡ true → map.get (merged naming s) path ≡ None }
{}

/// A merge makes up no file: each of its files is one of head or of pushed as it is, at its path or as its conflict copy.
pub fn a_merge_makes_up_no_file()
    ensures { (naming : Naming) → (s : Sides) → IsNaming naming → (path : PathV) → (version : FileVersion)
        → map.get (merged naming s) path ≡ Some (File version) → IsFromSide naming s path version }
{}

/// Below a directory the merge of three trees is the merge of the three parts that they have there: the same directories survive,
/// the same files leave their names for the same copies, the same stands at each path, and there are as many paths. The directory
/// itself survives by what the three trees have at its path, or where something of the parts does.
pub fn below_a_directory_the_merge_is_that_of_the_parts()
    ensures { (naming : Naming) → (s : Sides) → (part : Sides) → IsNaming naming → IsTree s.base → IsTree s.head → IsTree s.pushed
        → (dir : PathV) → AreParts dir s part → MergesBelow naming dir s part × (paths_below (merged naming s) dir ≡ map.len (merged naming part)) }
{}

/// The entries of the root are merged by these entries alone, once it is told below which of them something survives. Each
/// directory is the root of the parts below it.
pub fn a_directory_is_merged_by_its_entries_and_by_what_survives_below_them()
    ensures { (naming : Naming) → (s : Sides) → (level : Sides) → (survives : List ℕ → Bool) → IsNaming naming → IsTree s.base → IsTree s.head → IsTree s.pushed
        → IsLevel s level survives → MergesHere naming s level }
{}

/// The file that is refused as too long is the first one, by path, of those whose copies' names are; none is where there is none.
pub fn the_first_long_name_is_the_least_of_all()
    ensures { (naming : Naming) → (s : Sides) → IsFirst (long_at naming s) (first_long (conflicts naming s)) }
{}
