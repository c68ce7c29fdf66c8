//! Theorems about what a folder offers.
ghost use Rattle.std.specs.Prelude.{◌≡◌, ◌++◌, ℕ, List};
ghost use Rattle.std.specs.FinMap as fin;
ghost use Rattle.ids.specs.declared.key.Kind.TheVariants as kind;
ghost use Rattle.remote_calls.specs.Sends.{Sent};
ghost use Rattle.tree_push.specs.Asking.{ArePuts, AsksIds};
ghost use Rattle.tree_push.specs.Wanted.{AreOwnNamed, AreSeenBlocks, HasFiles, HasNamed, ids_in};
ghost use Rattle.tree_push.specs.declared.asking.Library.{Library};
ghost use Rattle.tree_push.specs.declared.wanted.Wanted.{Wanted};
ghost use Rattle.ids.specs.Key.{Objects};
ghost use Rattle.ids.specs.declared.key.Key.{Key};
ghost use Rattle.block_chunker.specs.declared.cuts.Cuts.{Cuts};
ghost use Rattle.tree_model.specs.Path.{PathV};
ghost use Rattle.tree_model.specs.Tree.{Tree};
ghost use Rattle.object_graph.specs.Objects.{node_below};
ghost use Rattle.folder_side.specs.Folder.{Contents, IsFolder};
ghost use Rattle.folder_side.specs.ScanReport.{IsScan};
ghost use Rattle.folder_side.specs.declared.scan_report.Scan.{Scan};
ghost use Rattle.local_index.specs.declared.index.Index.{Index};
ghost use Rattle.sync_rules.specs.Offer.{offered_at};
ghost use Rattle.sync_rules.specs.Premises.{Over};
ghost use Rattle.tree_push.specs.OfferedEntries.{IsSeenFolder};
ghost use Rattle.tree_push.specs.OfferedNames.{HasChanged, HasOffered};

/// A root with the entries that are offered has the tree that the folder offers, where each file that is new or changed has its object
/// and its blocks.
pub fn a_root_with_the_offered_entries_has_the_offered_tree()
    ensures { (objects : Objects) (cuts : Cuts) (c : Contents) (index : Index) (base : Tree) (had : List (Key × List ℕ)) → Over objects cuts c index base had
        → HasChanged objects cuts c index base had → (moment : ℕ) (user root : List ℕ) → HasOffered objects cuts c index moment user root
        → (path : PathV) → node_below objects path root ≡ offered_at cuts c index moment user path }
{}

/// What a scan saw of a folder can be offered, where the index stands for a tree.
pub fn what_a_scan_saw_can_be_offered()
    ensures { (objects : Objects) (cuts : Cuts) (c : Contents) (index : Index) (base : Tree) (had : List (Key × List ℕ)) → Over objects cuts c index base had
        → (scan : Scan) → IsFolder c → IsScan cuts c scan → IsSeenFolder index.entries scan.paths }
{}

/// Whoever asked what is lacking of the objects and the blocks that are wanted of a folder, and put some, named each file that is new or
/// changed with its blocks.
pub fn what_was_asked_of_a_folder_has_its_files()
    ensures { (cuts : Cuts) (c : Contents) (index : Index) (scan : Scan) (wanted : Wanted) → IsScan cuts c scan → HasFiles index.entries scan.paths wanted → AreSeenBlocks scan.paths wanted
        → AreOwnNamed wanted.made → (library : Library) (first second third : List Sent) → AsksIds library kind.Fs (ids_in (fin.entries wanted.made)) first
        → AsksIds library kind.Block (ids_in (fin.entries wanted.blocks)) second → ArePuts third → HasNamed cuts c index wanted ((first ++ second) ++ third) }
{}
