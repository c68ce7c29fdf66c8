//! Theorems about checkouts. Each law is a function without a body.
ghost use Rattle.std.specs.Prelude.{◌≡◌, ◌∷◌, ◌++◌, [], ℕ, All, IsTrue, List, Option, Some, Ok, Err, true, false, map, ⊤};
ghost use Rattle.std.specs.List.{AllByRecursion, Contains};
ghost use Rattle.block_chunker.specs.declared.cuts.Cuts.{Cuts};
ghost use Rattle.folder_side.specs.Calls.{Call, is_glance, is_touch};
ghost use Rattle.folder_side.specs.Folder.{Contents};
ghost use Rattle.folder_side.specs.declared.scan_report.Scan.{Scan};
ghost use Rattle.ids.specs.Key.{Objects};
ghost use Rattle.local_index.specs.declared.index.Index.{Index};
ghost use Rattle.object_graph.specs.Objects.{joined};
ghost use Rattle.remote_calls.specs.Sends.{Sent};
ghost use Rattle.sync_rules.specs.Causes.{CausedBy, GoesWell, IsSoHere, WentWell, is_of_order, stale_count};
ghost use Rattle.sync_rules.specs.Checkout.{DoesFrom, Step};
ghost use Rattle.sync_rules.specs.Named.{HasAll, HasGot, IsHad, is_get};
ghost use Rattle.sync_rules.specs.Orders.{IsSyncOrder};
ghost use Rattle.sync_rules.specs.Synced.{AsksWritten, IsSized};
ghost use Rattle.sync_rules.specs.declared.fault.SyncFault.{SyncFault};
ghost use Rattle.tree_model.specs.Path.{PathV};
ghost use Rattle.tree_checkout.specs.BlockGets.{AreGot, Stops, had_of, is_quiet, joined_in};
ghost use Rattle.tree_checkout.specs.CheckingOut.{AreFor, AreObjects, AreOf, ChecksOut, IsMisSized, StopsOut, checkout_steps};
ghost use Rattle.tree_checkout.specs.Planning.{LooksUndone, plan_steps};
ghost use Rattle.tree_checkout.specs.Steps.{AreSized, IsWrongFile, LooksUnwritten, blocks_due, paths_of};
ghost use Rattle.tree_checkout.specs.Touches.{LooksBeforeEach};
ghost use Rattle.tree_checkout.specs.declared.block_gets.Source.{Source};
ghost use Rattle.tree_checkout.specs.declared.planning.Due.{Due};
ghost use Rattle.tree_checkout.specs.declared.planning.Plan.{Plan};
ghost use Rattle.tree_checkout.specs.declared.steps.Write.{Write};

/// A checkout that is done did all its steps, and one that stopped a front of them, over any objects that have what came.
pub fn a_checkout_did_its_steps_or_a_front_of_them()
    ensures ok { (source : Source) (doomed : List PathV) (writes : List Write) (cuts : Cuts) (old new : List Sent) (before after : Option Contents) (owns : List (List ℕ))
        → (all : ChecksOut source doomed writes cuts old new before after owns) → (c : Contents) → before ≡ Some c → (objects : Objects) → HasAll objects (had_of all.more)
        → DoesFrom {T = ⊤} {E = SyncFault} (checkout_steps objects doomed writes) c after (Ok tt) }
    ensures err { (source : Source) (doomed : List PathV) (writes : List Write) (scan : Scan) (cuts : Cuts) (old new : List Sent) (before after : Option Contents) (f : SyncFault)
        → (stops : StopsOut source doomed writes scan cuts old new before after f) → (c : Contents) → before ≡ Some c → (objects : Objects) → HasAll objects (had_of stops.more)
        → DoesFrom {T = ⊤} {E = SyncFault} (checkout_steps objects doomed writes) c after (Err f) }
{}

/// What came for blocks under their names is what a sync had for its sends, and objects that have it have the bytes of those blocks.
pub fn what_came_for_blocks_was_had()
    ensures ok { (source : Source) (ids : List (List ℕ)) (more : List Sent) → AreGot source ids more → IsHad more (had_of more) }
    ensures err { (source : Source) (more : List Sent) (ids : List (List ℕ)) (f : SyncFault) → Stops source more ids f → IsHad more (had_of more) }
    ensures blocks { (source : Source) (ids : List (List ℕ)) (more : List Sent) (objects : Objects) → AreGot source ids more → HasAll objects (had_of more)
        → joined objects ids ≡ joined_in more }
{}

/// Objects that have what was got under its name have what was had: a checkout only asks for blocks.
pub fn what_was_got_for_blocks_was_had()
    ensures ok { (objects : Objects) (source : Source) (ids : List (List ℕ)) (more : List Sent) → AreGot source ids more → HasGot objects more → HasAll objects (had_of more) }
    ensures err { (objects : Objects) (source : Source) (f : SyncFault) (more : List Sent) (ids : List (List ℕ)) → Stops source more ids f → HasGot objects more
        → HasAll objects (had_of more) }
{}

/// Each order of a checkout but the last went well, and all of them where it is done or the fault is of no order. No update was sent.
pub fn orders_of_a_checkout_go_well()
    ensures ok { (source : Source) (ids : List (List ℕ)) (more : List Sent) → AreGot source ids more → All WentWell more × (stale_count more ≡ 0) }
    ensures err { (source : Source) (f : SyncFault) (more : List Sent) (ids : List (List ℕ)) → Stops source more ids f
        → GoesWell more × (is_of_order f ≡ false → All WentWell more) × (stale_count more ≡ 0) }
{}

/// Each order of a checkout asks for an object, and is one of a sync of this library, with this secret.
pub fn orders_of_a_checkout_are_those_of_a_sync()
    ensures ok { (source : Source) (ids : List (List ℕ)) (more : List Sent) → AreGot source ids more
        → All (λ (sent : Sent). is_get sent.0.what ≡ true) more × All (IsSyncOrder source.lib source.secret) more }
    ensures err { (source : Source) (f : SyncFault) (more : List Sent) (ids : List (List ℕ)) → Stops source more ids f
        → All (λ (sent : Sent). is_get sent.0.what ≡ true) more × All (IsSyncOrder source.lib source.secret) more }
{}

/// Each fault of a checkout has the cause that a sync's has. What is so of the folder or the tree is asked of those that no send tells.
pub fn each_fault_of_a_checkout_has_its_cause()
    ensures { (cuts : Cuts) (told : Option Contents) (index : Index) (whole more : List Sent) (source : Source) (ids : List (List ℕ)) (f : SyncFault)
        → Stops source more ids f → (is_quiet f ≡ true → IsSoHere cuts told index whole f) → CausedBy (IsSoHere cuts told index whole) more f }
{}

/// The blocks that are asked for are those of files that the steps write, where what is written is a root's.
pub fn blocks_are_asked_for_of_what_is_written()
    ensures ok { (objects : Objects) (root : List ℕ) (source : Source) (doomed : List PathV) (writes : List Write) (more : List Sent) → AreOf objects root writes
        → AreGot source (blocks_due writes) more → AsksWritten objects root (checkout_steps objects doomed writes) more }
    ensures err { (objects : Objects) (root : List ℕ) (source : Source) (doomed : List PathV) (writes : List Write) (more : List Sent) (f : SyncFault) → AreOf objects root writes
        → Stops source more (blocks_due writes) f → AsksWritten objects root (checkout_steps objects doomed writes) more }
{}

/// What is written has as many bytes as the object of the root's file tells.
pub fn what_is_written_has_the_size_of_its_object()
    ensures { (objects : Objects) (root : List ℕ) (doomed : List PathV) (writes : List Write) → AreOf objects root writes → AreObjects objects writes
        → AreSized objects writes → (path : PathV) (bytes : List ℕ) → Contains (checkout_steps objects doomed writes) (Step.Wrote path bytes)
        → IsSized objects root path bytes }
{}

/// A file whose size is told to be wrong has another size than its object tells, over any objects that have what came.
pub fn a_size_that_is_told_as_wrong_is_wrong()
    ensures { (source : Source) (writes : List Write) (more : List Sent) (id : List ℕ) (objects : Objects) → IsWrongFile source writes more id
        → HasAll objects (had_of more) → IsMisSized objects writes id }
{}

/// A checkout of what is due by a plan does the steps of that plan; and where a scan saw what the plan is to find, so does the checkout.
pub fn a_checkout_does_the_steps_of_its_plan()
    ensures value { (objects : Objects) (plan : Plan) (writes : List Write) → AreFor objects plan.writes writes
        → plan_steps objects plan ≡ checkout_steps objects plan.doomed writes }
    ensures listed { (objects : Objects) (dues : List Due) (writes : List Write) → AreFor objects dues writes → map (λ (d : Due). d.path) dues ≡ paths_of writes }
    ensures found { (objects : Objects) (cuts : Cuts) (c : Contents) (scan : Scan) (dues : List Due) (writes : List Write) → AreFor objects dues writes
        → AllByRecursion (LooksUndone cuts c scan) dues → AllByRecursion (LooksUnwritten cuts c scan) writes }
{}

/// Right before a touch of a path stands a call that changes nothing. So a look is refused behind which the spare is written or synced, or
/// another path touched, before its own path is.
pub fn an_early_look_is_refused()
    ensures { (cuts : Cuts) (scan : Scan) (calls later : List Call) (call touch : Call) → is_touch touch ≡ true
        → LooksBeforeEach cuts scan [] (calls ++ call ∷ touch ∷ later) → IsTrue (is_glance call) }
{}
