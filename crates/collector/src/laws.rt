//! That the marks keep a collection to its permitted steps: theorems on the definitions, with no code.
ghost use Rattle.std.specs.Prelude.{◌≡◌, ◌≢◌, ◌⊎◌, [], ℕ, suc, true, false, is_some, List, Some};
ghost use Rattle.std.specs.FinMap as map;
ghost use Rattle.ids.specs.Key.{Objects};
ghost use Rattle.ids.specs.declared.key.Key.{Key};
ghost use Rattle.ids.specs.declared.key.Kind.TheVariants.{Block};
ghost use Rattle.library_rules.specs.Answered.{Fails, Plain};
ghost use Rattle.library_rules.specs.Changes.{begun, moved, swept, turn_counted};
ghost use Rattle.library_rules.specs.CollectionSteps.{IsClean, Sweeps};
ghost use Rattle.library_rules.specs.LibraryState.{IsSound, Running, State};
ghost use Rattle.library_rules.specs.declared.entry.Entry.{Entry};
ghost use Rattle.library_state.specs.declared.reply.Reply.TheVariants.{Checked};
ghost use Rattle.object_graph.specs.Traversal.{is_in};
ghost use Rattle.object_store.specs.StoreView.{Index, StoreView, objects_of};
ghost use Rattle.collector.specs.Collecting.{AreCandidates, AreKeptCommits, Collects, KnowsStored, LeavesCandidates, ShieldsSo};
ghost use Rattle.collector.specs.Marking.{HasMarked, MarksMany, MarksUpTo};
ghost use Rattle.collector.specs.Marks.{AreFirst, AreMarks, HasTheSameMarks, IsExact, Leads, MarksView, is_candidate, needed_by};
ghost use Rattle.collector.specs.Opened.{IsOpened, IsWholeIn};
ghost use Rattle.collector.specs.StoredCandidates.{AreStoredIn};
ghost use Rattle.collector.specs.Sweeping.{Took};

use object_store::Shelf;

/// A collection begins with the marks that begin with it, for the commits that are kept then.
pub fn a_collection_begins_with_its_marks()
    ensures { (s : State) → (moment : ℕ) → (running : Running) → (index : Index) → (commits : List (List ℕ)) → (marks : MarksView)
        → IsSound s → (begun moment s).running ≡ Some running → KnowsStored s index → AreKeptCommits (begun moment s).state.kept commits
        → AreFirst index commits marks → AreMarks marks → Collects (begun moment s) running marks }
{}

/// The marks that begin lead to all that the commits need, and have met nothing else; and so it stays, whatever is marked.
pub fn marking_leads_to_what_is_needed_and_to_nothing_else()
    ensures ok { (objects : Objects) → (index : Index) → (commits : List (List ℕ)) → (marks : MarksView) → AreFirst index commits marks
        → Leads objects marks × IsExact objects marks }
    ensures value { (objects : Objects) → (old : MarksView) → (new : MarksView) → (count : ℕ) → MarksMany objects old new count
        → Leads objects old → IsExact objects old → Leads objects new × IsExact objects new }
    ensures err { (objects : Objects) → (old : MarksView) → (new : MarksView) → MarksUpTo objects old new
        → Leads objects old → IsExact objects old → Leads objects new × IsExact objects new }
{}

/// Where nothing waits, all that the commits need is marked.
pub fn where_nothing_waits_all_that_is_needed_is_marked()
    ensures { (objects : Objects) → (marks : MarksView) → Leads objects marks → marks.pending ≡ [] → (key : Key)
        → needed_by objects marks.commits key ≡ true → is_in marks.marked key ≡ true }
{}

/// A turn that marks is a permitted sweep of nothing, and the collection goes on with its marks. After one that was refused
/// it goes on too, and no turn is counted.
pub fn a_turn_that_marks_goes_on_with_the_collection()
    ensures stands { (s : State) → (running : Running) → (marks : MarksView) → (e : Entry) → IsSound s → Collects s running marks
        → marks.pending ≢ [] → Plain s e Checked → e.removed ≡ [] → Sweeps s running e }
    ensures value { (s : State) → (running : Running) → (old : MarksView) → (new : MarksView) → (count : ℕ) → IsSound s → Collects s running old
        → MarksMany s.objects old new (suc count) → AreMarks new → Collects (swept false s) (turn_counted false running) new }
    ensures err { (s : State) → (running : Running) → (old : MarksView) → (new : MarksView) → IsSound s → Collects s running old
        → MarksUpTo s.objects old new → AreMarks new → Collects s running new }
{}

/// Once nothing waits, candidates may leave: a turn that removes some of them, each once, is a permitted sweep, and the
/// collection goes on without them.
pub fn a_turn_that_removes_candidates_goes_on_with_the_collection()
    ensures stands { (s : State) → (running : Running) → (marks : MarksView) → (e : Entry) → IsSound s → Collects s running marks
        → marks.pending ≡ [] → AreCandidates marks e.removed → e.removed ≢ [] ⊎ Fails s e
        → Plain s e Checked ⊎ Fails s e → Sweeps s running e }
    ensures value { (s : State) → (running : Running) → (old : MarksView) → (new : MarksView) → (removed : List Key) → IsSound s
        → Collects s running old → old.pending ≡ [] → AreCandidates old removed → removed ≢ [] → HasTheSameMarks old new → LeavesCandidates removed old new
        → Collects (swept false (moved s [] removed)) (turn_counted false running) new }
    ensures err { (s : State) → (running : Running) → (old : MarksView) → (new : MarksView) → (removed : List Key) → IsSound s
        → Collects s running old → old.pending ≡ [] → AreCandidates old removed → HasTheSameMarks old new → LeavesCandidates removed old new
        → Collects (moved s [] removed) running new }
{}

/// Where nothing waits and no candidate is left, the collection may end: what is stored is needed or fresh.
pub fn a_collection_may_end_where_nothing_is_left()
    ensures { (s : State) → (running : Running) → (marks : MarksView) → Collects s running marks → marks.pending ≡ []
        → ((key : Key) → is_candidate marks key ≡ false) → IsClean s }
{}

/// A collection goes on through a call that shields what became fresh, and what a kept commit needs since.
pub fn a_call_that_shields_goes_on_with_the_collection()
    ensures { (s : State) → (t : State) → (before : Running) → (after : Running) → (old : MarksView) → (new : MarksView) → IsSound s → IsSound t
        → Collects s before old → AreMarks new → ShieldsSo s t before after old new → Collects t after new }
{}

/// What a sweep asks of its store, that each candidate is in the index, holds as a collection begins. It stays so as objects
/// are marked, as candidates leave, and as there are fewer candidates while the index grows.
pub fn candidates_are_stored_and_stay_so<S: Shelf>()
    ensures stored { (index : Index) → (commits : List (List ℕ)) → (marks : MarksView) → AreFirst index commits marks → AreStoredIn index marks }
    ensures left { (index : Index) → (old : MarksView) → (new : MarksView) → HasMarked old new → AreStoredIn index old → AreStoredIn index new }
    ensures gone { (old : StoreView S) → (new : StoreView S) → (before : MarksView) → (after : MarksView) → (removed : List Key)
        → Took S.contents old new before.candidates after.candidates removed → AreStoredIn old.index before → AreStoredIn new.index after }
    ensures stays { (index : Index) → (more : Index) → (old : MarksView) → (new : MarksView)
        → ((key : Key) → is_some (map.get index key) ≡ true → is_some (map.get more key) ≡ true)
        → ((key : Key) → is_candidate new key ≡ true → is_candidate old key ≡ true) → AreStoredIn index old → AreStoredIn more new }
{}

/// Over a shelf that tells what it holds, a commit, a directory or a file that was opened whole is stored, can be read, and
/// isn't damaged.
pub fn what_was_opened_is_whole_where_the_shelf_tells<S: Shelf>()
    ensures { (store : StoreView S) → (objects : Objects) → (met : List Key) → (key : Key) → objects_of S.contents store ≡ Some objects
        → key.kind ≢ Block → IsOpened store.index (S.may_give store.shelf) met key → IsWholeIn objects key }
{}
