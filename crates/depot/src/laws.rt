//! What a library that is kept leaves on its shelf, and which history its changes are: theorems on the definitions, with no code.
ghost use Rattle.std.specs.Prelude.{◌≡◌, ◌⊎◌, ◌==◌, if◌then◌else◌, List, ℕ, Bool, false, is_some, None, Option, Some, true};
ghost use Rattle.std.specs.FinMap as map;
ghost use Rattle.ids.specs.Key.{Objects};
ghost use Rattle.ids.specs.declared.key.Key.{Key};
ghost use Rattle.library_rules.specs.LibraryState.{IsSound, State, last_number};
ghost use Rattle.library_rules.specs.Recovery.{StandsFor};
ghost use Rattle.library_state.specs.declared.call.Act.TheVariants as act;
ghost use Rattle.library_state.specs.declared.call.Call.{Call};
ghost use Rattle.library_state.specs.declared.reply.Reply.{Reply};
ghost use Rattle.library_state.specs.declared.reply.Reply.TheVariants.{Got, Stored};
ghost use Rattle.object_graph.specs.Objects.{commit_key};
ghost use Rattle.object_graph.specs.Traversal.{is_in};
ghost use Rattle.object_store.specs.Shelf.{Contents};
ghost use Rattle.object_store.specs.StoreView.{HasNoStray, StoreView, objects_of};
ghost use Rattle.object_store.specs.declared.shelf.Slot.TheVariants.{Object};
ghost use Rattle.depot.specs.DepotView.{DepotView, IsGood, state_of};
ghost use Rattle.depot.specs.Giving.{IsCommitOf};
ghost use Rattle.depot.specs.Held.{TellsMissing};
ghost use Rattle.depot.specs.Start.{start_refusal};
ghost use Rattle.depot.specs.Standing.{IsOnShelf};
ghost use Rattle.depot.specs.Story.{ComesBy, HistoryOf, IsAnswered, LeadsTo, removed_through};
ghost use Rattle.depot.specs.declared.error.StartFault.TheVariants.{Worn};
ghost use Rattle.depot.specs.declared.story.Change.{Change};

use object_store::Shelf;

/// The shelf of a depot stands for its library. While the depot is unsettled it may stand for one that some call, or a
/// token more, makes of it; that it is the refused call's, the clause `text` of that call says.
pub fn a_shelf_stands_for_its_library<S: Shelf>()
    ensures { (depot : DepotView S) → (held : Contents) → (s : State) → IsGood S.contents S.faults depot → S.contents depot.store.shelf ≡ Some held
        → state_of S.contents S.faults depot ≡ Some s → IsOnShelf depot.unsettled held s }
{}

/// A shelf that stands for a sound library opens to it: nothing but the last opening number refuses it.
pub fn a_shelf_that_stands_for_a_library_opens_to_it()
    ensures { (s : State) → (slot : Option (List ℕ)) → (lying : Objects) → IsSound s → StandsFor slot lying s
        → start_refusal lying slot ≡ (if s.state.opening == last_number then Some Worn else None) }
{}

/// Over any shelf, a commit that is got was given as it might be as the history began, or it is one of this id: no SHA-1 tells a commit's
/// name, and none is laid under an id that it doesn't have.
pub fn a_commit_is_given_as_it_might_be_or_under_its_own_id<S: Shelf>()
    ensures { (start : DepotView S) → (changes : List (Change (DepotView S))) → (before : DepotView S) → (call : Call) → (moment : ℕ) → (after : DepotView S)
        → (id : List ℕ) → (bytes : List ℕ) → ComesBy S.contents S.may_give S.texts S.faults start changes before
        → IsAnswered S.contents S.may_give S.texts S.faults before call moment (Got bytes) after → call.act ≡ act.Get (commit_key id)
        → S.may_give start.store.shelf (Object (commit_key id)) (Some bytes) ⊎ IsCommitOf id bytes }
{}

/// Where no object lies on the shelf that the store doesn't hold, the store's objects are exactly those that lie there.
pub fn what_lies_there_is_held_where_nothing_is_stray<S: Shelf>()
    ensures { (store : StoreView S) → (held : Contents) → HasNoStray S.contents store → S.contents store.shelf ≡ Some held
        → objects_of S.contents store ≡ Some held.objects }
{}

/// Changes that lead from a library that is told are a legal list of entries from its state: each library on the way is told
/// too, and is the state after so many of them.
pub fn changes_are_a_legal_history<S: Shelf>()
    ensures { (old : DepotView S) → (changes : List (Change (DepotView S))) → (new : DepotView S) → (s : State)
        → LeadsTo S.contents S.may_give S.texts S.faults old changes new → state_of S.contents S.faults old ≡ Some s
        → HistoryOf S.contents S.faults s changes new }
{}

/// A library that stood sound stays sound through its changes.
pub fn a_library_that_stood_sound_stays_sound<S: Shelf>()
    ensures { (old : DepotView S) → (changes : List (Change (DepotView S))) → (new : DepotView S) → (s : State) → (t : State)
        → LeadsTo S.contents S.may_give S.texts S.faults old changes new → state_of S.contents S.faults old ≡ Some s → state_of S.contents S.faults new ≡ Some t
        → IsSound s → IsSound t }
{}

/// Over any shelf, a key that the index knows it goes on to know until a turn of a collection removes it.
pub fn what_is_stored_stays_until_a_turn_removes_it<S: Shelf>()
    ensures { (old : DepotView S) → (changes : List (Change (DepotView S))) → (new : DepotView S) → (key : Key)
        → LeadsTo S.contents S.may_give S.texts S.faults old changes new → is_some (map.get old.store.index key) ≡ true
        → is_in (removed_through changes) key ≡ false → is_some (map.get new.store.index key) ≡ true }
{}

/// Over any shelf, what was answered as stored is not answered as missing, at any later place, until a turn removes its key.
pub fn what_was_answered_as_stored_is_not_missing_until_a_turn_removes_it<S: Shelf>()
    ensures { (before : DepotView S) → (call : Call) → (moment : ℕ) → (newly : Bool) → (old : DepotView S)
        → (changes : List (Change (DepotView S))) → (new : DepotView S) → (later : Call) → (at : ℕ) → (r : Reply) → (after : DepotView S)
        → (key : Key) → (bytes : List ℕ)
        → IsAnswered S.contents S.may_give S.texts S.faults before call moment (Stored newly) old → call.act ≡ act.Put key bytes
        → LeadsTo S.contents S.may_give S.texts S.faults old changes new → is_in (removed_through changes) key ≡ false
        → IsAnswered S.contents S.may_give S.texts S.faults new later at r after → TellsMissing key later.act r → ⊥ }
{}
