//! Theorems about what a sync leaves.
ghost use Rattle.std.specs.Prelude.{ℕ, ◌≡◌, ◌⊎◌, ◌++◌, ◌∷◌, Bool, true, All, List, [], map, None, Some, IsSome, Ok, Err};
ghost use Rattle.ids.specs.Key.{Objects};
ghost use Rattle.ids.specs.declared.key.Key.{Key};
ghost use Rattle.ids.specs.ObjectId.{nil};
ghost use Rattle.block_chunker.specs.declared.cuts.Cuts.{Cuts};
ghost use Rattle.commit_objects.specs.Commit.{commit_of};
ghost use Rattle.commit_objects.specs.Spelling.{text_of as commit_text};
ghost use Rattle.commit_objects.specs.declared.commit.Commit.{Commit};
ghost use Rattle.fs_objects.specs.declared.dirent.Dirent.{Dirent};
ghost use Rattle.std.specs.FinMap as fin;
ghost use Rattle.folder_side.specs.Folder.{Contents, at};
ghost use Rattle.folder_side.specs.declared.holding.Holding.TheVariants as holding;
ghost use Rattle.tree_model.specs.declared.node.FileVersion.{FileVersion};
ghost use Rattle.tree_model.specs.declared.node.Node.TheVariants as node;
ghost use Rattle.object_graph.specs.Objects.{IsTreeOf};
ghost use Rattle.sync_rules.specs.InterruptedCheckout.{HasOwnIds, IsLeftByCheckout};
ghost use Rattle.sync_rules.specs.Offer.{Agrees, own_of};
ghost use Rattle.folder_side.specs.WorkingTree.{HoldsLeft, PlainFile, held_list, plain_at};
ghost use Rattle.tree_model.specs.DirectorySurvival.{is_under};
ghost use Rattle.local_index.specs.IndexSpelling.{IsProper};
ghost use Rattle.local_index.specs.declared.index.Index.{Index};
ghost use Rattle.tree_model.specs.Path.{PathV};
ghost use Rattle.tree_model.specs.Tree.{Tree};
ghost use Rattle.sync_rules.specs.Checkout.{Front, IsPlan, MayHold, Step, is_doomed, run};
ghost use Rattle.remote_calls.specs.Sends.{Sent};
ghost use Rattle.sync_rules.specs.declared.fault.SyncFault.TheVariants as fault;
ghost use Rattle.sync_rules.specs.declared.synced.Synced.{Synced};
ghost use Rattle.folder_side.specs.ScanReport.{IsWithinLimits};
ghost use Rattle.library_state.specs.declared.refusal.Refusal.TheVariants as refusal;
ghost use Rattle.library_state.specs.declared.tag.Tag.{Tag};
ghost use Rattle.sync_rules.specs.Causes.{EndsSo, GoesWell, IsSoHere, WentWell};
ghost use Rattle.sync_rules.specs.OneSync.{LeavesIndex, SyncsSo};
ghost use Rattle.sync_rules.specs.Orders.{OrdersSo};
ghost use Rattle.sync_rules.specs.ShortSyncs.{none_done, reader_sent, two_sent};
ghost use Rattle.sync_rules.specs.Named.{HasAll, HasGot, IsHad, is_get};
ghost use Rattle.sync_rules.specs.OneFile.{IsOneFile, commit_alone, empty_index, folder_of, index_of, no_contents, objects_of, stored, tree_of, unsynced};
ghost use Rattle.sync_rules.specs.Synced.{IsSynced};
ghost use Rattle.sync_rules.specs.Premises.{Over};

/// Whoever does all steps of a plan leaves the tree with the stuck directories beside it.
pub fn a_plan_that_is_done_leaves_the_tree()
    ensures { (tree : Tree) (c : Contents) (alone : PathV → Bool) (steps : List Step) → IsPlan tree c alone steps → HoldsLeft tree c (run steps c) }
{}

/// Wherever a plan stops, each path holds its old contents, those of the tree, or nothing, where the tree has nothing or another
/// kind there.
pub fn wherever_a_plan_stops_nothing_else_stands()
    ensures { (tree : Tree) (c d : Contents) (alone : PathV → Bool) (steps : List Step) → IsPlan tree c alone steps → Front steps c d → (path : PathV) → MayHold tree c d path }
{}

/// A file that stands where a plan stopped stood there before, or is the tree's.
pub fn where_a_plan_stops_each_file_is_an_old_one_or_the_trees()
    ensures { (tree : Tree) (old new : Contents) (path : PathV) (bytes : List ℕ) → MayHold tree old new path → at new path ≡ Some (holding.File bytes)
        → (at old path ≡ Some (holding.File bytes)) ⊎ (plain_at tree path ≡ Some (PlainFile bytes)) }
{}

/// Where folder and tree have a file, one stands there wherever a plan stops: it is replaced at once.
pub fn wherever_a_plan_stops_a_file_of_both_stands()
    ensures { (tree : Tree) (old new : Contents) (path : PathV) (bytes : List ℕ) (file : FileVersion) → MayHold tree old new path → at old path ≡ Some (holding.File bytes)
        → fin.get tree path ≡ Some (node.File file) → IsSome (at new path) }
{}

/// Before a plan removes a path, all that is doomed under it was removed.
pub fn a_plan_removes_what_is_under_a_path_before_it()
    ensures { (tree : Tree) (c : Contents) (alone : PathV → Bool) (steps : List Step) (plan : IsPlan tree c alone steps) (before later : List PathV) (dir path : PathV)
        → plan.doomed ≡ before ++ dir ∷ later → is_under dir path ≡ true → is_doomed tree c path ≡ true → at (run (map Step.Removed before) c) path ≡ None }
{}

/// What a whole call had for what it named, a part of it had for its part.
pub fn what_a_call_had_its_parts_had()
    ensures { (objects : Objects) (cuts : Cuts) (c : Contents) (index : Index) (base : Tree) (first later : List (Key × List ℕ))
        → Over objects cuts c index base (first ++ later) → Over objects cuts c index base first × Over objects cuts c index base later }
{}

/// Objects that have what a call had for all that it named have what it got under its name. So what is promised over what was got is
/// promised over what was had.
pub fn what_was_had_has_what_was_got()
    ensures { (objects : Objects) (sends : List Sent) (had : List (Key × List ℕ)) → IsHad sends had → HasAll objects had → HasGot objects sends }
{}

/// Where a call only asked for objects, what was got is all that it had.
pub fn what_was_got_is_what_was_had_of_gets()
    ensures { (objects : Objects) (sends : List Sent) (had : List (Key × List ℕ)) → All (λ (sent : Sent). is_get sent.0.what ≡ true) sends
        → IsHad sends had → HasGot objects sends → HasAll objects had }
{}

/// What a checkout to a tree left of a folder that agreed with its index, done or not, is known as that: where each file of the tree has
/// the own id of this project's chunks, no path is one that a reader changed.
pub fn what_a_checkout_left_is_known()
    ensures { (objects : Objects) (cuts : Cuts) (c d : Contents) (index : Index) (tree : Tree) (root : List ℕ) → Agrees cuts c index → IsTreeOf objects root tree
        → HasOwnIds objects cuts root → ((path : PathV) → MayHold tree c d path) → IsLeftByCheckout objects cuts d index root }
{}

/// What a whole call got, its parts got.
pub fn what_a_call_got_its_parts_got()
    ensures { (objects : Objects) (first later : List Sent) → HasGot objects (first ++ later) → HasGot objects first × HasGot objects later }
{}

/// Each order but the last went well, behind orders that all did.
pub fn orders_go_well_behind_those_that_went_well()
    ensures { (first later : List Sent) → All WentWell first → GoesWell later → GoesWell (first ++ later) }
{}

/// A folder in which nothing changed is synced with a library that stands at the index's base by two orders: whether an upload is
/// allowed, and which commit the library stands at. All clauses of a sync are met with nothing done, by a clock that shows one moment.
pub fn an_unchanged_folder_is_synced_by_two_orders()
    ensures { (lib secret id : List ℕ) (first later : Tag) (cuts : Cuts) (c : Contents) (index : Index) (user : List ℕ) (moment : ℕ)
        → index.base ≡ Some id → Agrees cuts c index → IsWithinLimits c
        → SyncsSo cuts c (Some c) index index user (two_sent lib secret id first later) (λ other. other ≡ moment) (Ok (none_done c id))
        × OrdersSo lib secret user (λ other. other ≡ moment) index.base (two_sent lib secret id first later)
        × EndsSo (IsSoHere cuts (Some c) index (two_sent lib secret id first later)) (two_sent lib secret id first later) (Ok (none_done c id))
        × LeavesIndex index index (two_sent lib secret id first later) (Ok (none_done c id)) }
{}

/// Where a folder changed and its owner may only read, of a library that stands at the index's base, three orders end the sync as
/// denied: whether an upload is allowed, then whether a download is, and which commit the library stands at. All clauses of a sync are
/// met with nothing done.
pub fn a_changed_folder_of_a_reader_is_told_as_denied()
    ensures { (lib secret id : List ℕ) (first later last : Tag) (cuts : Cuts) (c : Contents) (index : Index) (user : List ℕ) (moment : ℕ)
        → index.base ≡ Some id → (Agrees cuts c index → ⊥) → IsWithinLimits c
        → SyncsSo cuts c (Some c) index index user (reader_sent lib secret id first later last) (λ other. other ≡ moment) (Err (fault.Refused refusal.Denied))
        × OrdersSo lib secret user (λ other. other ≡ moment) index.base (reader_sent lib secret id first later last)
        × EndsSo (IsSoHere cuts (Some c) index (reader_sent lib secret id first later last)) (reader_sent lib secret id first later last) (Err (fault.Refused refusal.Denied)) }
{}

/// The premise of what is said of trees can be met (`Over`): by a folder that holds one file, and the objects of a library that holds it
/// too. By the index of their sync, by which a sync that finds nothing changed leaves the file's tree; and by one that was never synced.
/// Both over all four objects, as had in the call.
pub fn the_premise_is_met_by_a_folder_with_a_file()
    ensures { (lib secret : List ℕ) (first later : Tag) (cuts : Cuts) (commit : Commit) (entry : Dirent) (bytes user : List ℕ) (moment : ℕ) → IsOneFile cuts commit entry bytes
        → Over (stored (objects_of cuts commit entry bytes)) cuts (folder_of entry bytes) (index_of cuts commit entry bytes) (tree_of entry bytes) (objects_of cuts commit entry bytes)
        × Over (stored (objects_of cuts commit entry bytes)) cuts (folder_of entry bytes) (unsynced commit.lib) fin.empty (objects_of cuts commit entry bytes)
        × Agrees cuts (folder_of entry bytes) (index_of cuts commit entry bytes)
        × IsSynced (stored (objects_of cuts commit entry bytes)) cuts (folder_of entry bytes) (folder_of entry bytes) (index_of cuts commit entry bytes) (index_of cuts commit entry bytes) (tree_of entry bytes) moment user (two_sent lib secret commit.id first later) (none_done (folder_of entry bytes) commit.id) }
{}

/// It is met by an empty folder too, with a commit whose root is forty zeros: nothing is asked of any SHA-1 then.
pub fn the_premise_is_met_by_an_empty_folder()
    ensures { (lib secret : List ℕ) (first later : Tag) (cuts : Cuts) (commit : Commit) (user : List ℕ) (moment : ℕ) → commit_of (commit_text commit) ≡ Ok commit → commit.root ≡ nil
        → Over (stored (commit_alone commit)) cuts no_contents (empty_index commit) fin.empty []
        × Agrees cuts no_contents (empty_index commit)
        × IsSynced (stored (commit_alone commit)) cuts no_contents no_contents (empty_index commit) (empty_index commit) fin.empty moment user (two_sent lib secret commit.id first later) (none_done no_contents commit.id) }
{}

/// A file of the folder with the own id of a file of the index has its bytes.
pub fn files_with_one_own_id_have_the_same_bytes()
    ensures { (objects : Objects) (cuts : Cuts) (c : Contents) (index : Index) (base : Tree) (had : List (Key × List ℕ)) → Over objects cuts c index base had
        → (path other : PathV) (bytes : List ℕ) (file : FileVersion) → at c path ≡ Some (holding.File bytes) → fin.get base other ≡ Some (node.File file)
        → own_of cuts bytes ≡ own_of cuts file.bytes → bytes ≡ file.bytes }
{}

/// A folder that agrees with an index holds the tree for which that stands, and beside it nothing that would be held.
pub fn a_folder_that_agrees_holds_the_tree()
    ensures { (objects : Objects) (cuts : Cuts) (c : Contents) (index : Index) (base : Tree) (had : List (Key × List ℕ)) → Over objects cuts c index base had
        → Agrees cuts c index → HoldsLeft base c c × ([] ≡ held_list base c) }
{}

/// An index that a sync left is read back as it is, where the one that it was given is: its base isn't forty zeros, each entry stands in a
/// directory, and a file has the mode of one. Over any objects that have what was got.
pub fn an_index_that_a_sync_left_is_proper()
    ensures { (objects : Objects) → (i : Index) → (j : Index) → (more : List Sent) → (s : Synced) → HasGot objects more → LeavesIndex i j more (Ok s) → IsProper i → IsProper j }
{}
