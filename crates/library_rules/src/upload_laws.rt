//! Theorems on collections' ends, retried updates, heads and uploads, each the contract of a function that does nothing.
ghost use Rattle.std.specs.Prelude.{◌≡◌, ◌≢◌, ◌||◌, ◌<◌, ◌≤◌, ℕ, suc, Bool, true, false, List, Some};
ghost use Rattle.std.specs.List.{list_any};
ghost use Rattle.ids.specs.declared.key.Key.{Key};
ghost use Rattle.ids.specs.declared.key.Kind.{Kind};
ghost use Rattle.library_state.specs.declared.call.Act.TheVariants as act;
ghost use Rattle.library_state.specs.declared.call.Call.{Call};
ghost use Rattle.library_state.specs.declared.refusal.Refusal.{Refusal};
ghost use Rattle.library_state.specs.declared.reply.Reply.TheVariants as reply;
ghost use Rattle.library_state.specs.declared.token.Token.{Token};
ghost use Rattle.object_graph.specs.Objects.{same_id, is_nil};
ghost use Rattle.object_graph.specs.Traversal.{is_in};
ghost use Rattle.library_rules.specs.Calls.{token_of};
ghost use Rattle.library_rules.specs.Changes.{apply};
ghost use Rattle.library_rules.specs.Heads.{TakesIn, HasBase, IsMergedHead, IsExact};
ghost use Rattle.library_rules.specs.History.{Permits, Legal, after};
ghost use Rattle.library_rules.specs.LateUpdates.{IsLate, IsCauseOf, IsUpToDate, NoneBegins, WasUploaded};
ghost use Rattle.library_rules.specs.LibraryState.{State, IsSound, is_kept, is_stored, is_needed, is_fresh};
ghost use Rattle.library_rules.specs.Retried.{entry_at, IsUpdate, MayUpdate, IsRetained, SaysHead};
ghost use Rattle.library_rules.specs.Uploads.{is_safe, IsUploaded};
ghost use Rattle.library_rules.specs.declared.entry.Entry.{Entry};
ghost use Rattle.library_rules.specs.declared.entry.Step.TheVariants as step;

/// A collection that ends leaves only objects that some kept commit needs, or whose keys are fresh.
pub fn as_a_collection_ends_what_is_stored_is_needed_or_fresh()
    ensures { (s : State) → (e : Entry) → Permits s e → e.step ≡ step.Ended → (key : Key)
        → is_stored (apply s e).objects key ≡ true
        → (is_needed (apply s e).objects (apply s e).state.kept key || is_fresh s.running key) ≡ true }
{}

/// Nothing leaves that a kept commit needs, or that was put or told present since the collection began.
pub fn nothing_needed_or_fresh_is_removed()
    ensures { (s : State) → (e : Entry) → Permits s e → (key : Key) → is_in e.removed key ≡ true
        → (is_needed s.objects s.state.kept key || is_fresh s.running key) ≡ false }
{}

/// An update that was answered keeps its commit.
pub fn an_answered_update_keeps_its_commit()
    ensures { (s : State) → (e : Entry) → (pushed : List ℕ) → IsUpdate e pushed → is_kept (apply s e).state.kept pushed ≡ true }
{}

/// An update that is sent again, since its reply was lost, is answered with the head, or by a fault, to whoever may update,
/// whatever happened between, until no head update of its commit is retained; and only the count of faults may change.
pub fn an_update_sent_again_is_answered_with_the_head()
    ensures { (start : State) → (es : List Entry) → (place : ℕ) → (now : ℕ) → (first : Entry) → (pushed : List ℕ)
        → entry_at es place ≡ Some first → IsUpdate first pushed → place < now → IsRetained start es (suc place) now pushed
        → (call : Call) → MayUpdate (after start es now) call pushed
        → (again : Entry) → again.step ≡ step.Asked call → Permits (after start es now) again → SaysHead (after start es now) again }
{}

/// After an update that took in a new commit, the tree of the head is the three-way merge of the trees of the merge base,
/// the old head and the pushed commit: in full, or, where the head hadn't moved, the pushed commit itself is the head, whose
/// tree is like that merge up to times and authors of files.
pub fn a_new_head_is_the_merge_of_base_old_head_and_pushed_commit()
    ensures { (s : State) → (e : Entry) → (pushed : List ℕ) → (new : List ℕ) → TakesIn s e pushed new
        → (base : List ℕ) × HasBase s base pushed × IsMergedHead s (apply s e) base pushed new × IsExact s (apply s e) base pushed new }
{}

/// In a sound state, what is safe stays safe through every permitted step but a begin.
pub fn every_step_but_a_begin_keeps_a_safe_key_safe()
    ensures { (s : State) → (e : Entry) → IsSound s → Permits s e → e.step ≢ step.Began → (key : Key)
        → is_safe s key ≡ true → is_safe (apply s e) key ≡ true }
{}

/// An answer that an object is stored leaves its key safe.
pub fn what_was_answered_as_stored_is_safe()
    ensures { (s : State) → (e : Entry) → (call : Call) → (key : Key) → (bytes : List ℕ) → (new : Bool) → Permits s e
        → e.step ≡ step.Asked call → call.act ≡ act.Put key bytes → e.reply ≡ reply.Stored new → is_safe (apply s e) key ≡ true }
{}

/// An answer of what is absent leaves each key safe that was asked for and isn't listed; forty zeros are no key.
pub fn what_was_not_listed_as_absent_is_safe()
    ensures { (s : State) → (e : Entry) → (call : Call) → (kind : Kind) → (ids : List (List ℕ)) → (listed : List (List ℕ)) → Permits s e
        → e.step ≡ step.Asked call → call.act ≡ act.Missing kind ids → e.reply ≡ reply.Absent listed
        → (id : List ℕ) → list_any (same_id id) ids ≡ true → is_nil id ≡ false
        → list_any (same_id id) listed ≡ false → is_safe (apply s e) (record { kind = kind; id = id }) ≡ true }
{}

/// No update is late, that is stale or incomplete, whose token was checked after the last collection began, and of whose
/// commit all is safe: what its traversal visits, and the commits on the way along first parents to a kept one.
pub fn an_update_whose_keys_are_safe_is_neither_stale_nor_incomplete()
    ensures { (s : State) → (e : Entry) → (call : Call) → (token : Token) → (pushed : List ℕ) → Permits s e
        → e.step ≡ step.Asked call → call.act ≡ act.Update pushed → token_of s.state.tokens call.secret ≡ Some token
        → token.last ≡ s.state.collection → IsUploaded s pushed → (why : Refusal) → IsLate why → e.reply ≢ reply.Refused why }
{}

/// Over a legal history: an update is refused neither as stale nor as incomplete, where no collection began since its
/// token saw the last one, and since then each key was safe at some time that the pushed commit and its history up to a
/// kept commit need.
pub fn an_upload_holds_until_the_next_collection_begins()
    ensures { (start : State) → (es : List Entry) → (from : ℕ) → (to : ℕ) → Legal start es → IsSound start → from ≤ to
        → NoneBegins es from to → (call : Call) → (pushed : List ℕ)
        → IsUpToDate (after start es from).state.tokens (after start es from).state.collection call.secret → WasUploaded start es from to pushed
        → (e : Entry) → e.step ≡ step.Asked call → call.act ≡ act.Update pushed → Permits (after start es to) e
        → (why : Refusal) → IsLate why → e.reply ≢ reply.Refused why }
{}

/// An update is refused as stale only where a collection began since its upload was checked, with both numbers, and as
/// incomplete only with a key under which nothing is stored.
pub fn a_stale_or_incomplete_update_has_its_cause()
    ensures { (s : State) → (e : Entry) → (call : Call) → (token : Token) → (pushed : List ℕ) → Permits s e
        → e.step ≡ step.Asked call → call.act ≡ act.Update pushed → token_of s.state.tokens call.secret ≡ Some token
        → (why : Refusal) → IsLate why → e.reply ≡ reply.Refused why → IsCauseOf s token why }
{}
