//! Theorems on the rules of a library, each the contract of a function that does nothing.
ghost use Rattle.library_state.specs.declared.state.TheConstants.{MAX_STATE_NAME, MAX_TOKENS};
ghost use Rattle.std.specs.Prelude.{◌≡◌, ◌++◌, ℕ, ◌≤◌, ◌<◌, true, false, List, [], length, Option, Ok, Some};
ghost use Rattle.ids.specs.Key.{Objects};
ghost use Rattle.library_state.specs.ProperState.{IsProper};
ghost use Rattle.library_state.specs.StateSpelling.{text_of};
ghost use Rattle.library_state.specs.StateText.{state_of};
ghost use Rattle.library_state.specs.Tokens.{is_taken};
ghost use Rattle.library_state.specs.declared.call.Call.{Call};
ghost use Rattle.library_state.specs.declared.reply.Reply.{Reply};
ghost use Rattle.library_state.specs.declared.right.Right.{Right};
ghost use Rattle.object_graph.specs.Objects.{commit_at};
ghost use Rattle.object_graph.specs.Unchanged.{Keeps};
ghost use Rattle.library_rules.specs.Changes.{apply, counted, is_refused, moved, put_new};
ghost use Rattle.library_rules.specs.CollectionSteps.{HasFewTurns};
ghost use Rattle.library_rules.specs.Creation.{created, opening_commit, opening_object, with_token};
ghost use Rattle.library_rules.specs.Files.{IsKeptBetween, KeepsFiles};
ghost use Rattle.library_rules.specs.History.{after, Legal, Permits, Stands, StepSo};
ghost use Rattle.library_rules.specs.LibraryState.{State, IsSound, last_number};
ghost use Rattle.library_rules.specs.Recovery.{StandsFor, opened};
ghost use Rattle.library_rules.specs.declared.entry.Entry.{Entry};
ghost use Rattle.library_rules.specs.declared.entry.Step.{Step};
ghost use Rattle.library_rules.specs.declared.entry.Step.TheVariants.{Asked};
ghost use Rattle.library_rules.specs.declared.limits.TheConstants.{MAX_STEPS};

/// A merge base is at most 128 first parents from the pushed commit.
pub fn the_limit_of_a_merge_base()
    ensures { MAX_STEPS ≡ 128 }
{}

/// A refused call leaves everything as it was, but for what it stored, which is fresh, and the count of faults.
pub fn a_refused_call_changes_nothing_but_what_it_stored()
    ensures { (s : State) → (e : Entry) → (call : Call) → Permits s e → e.step ≡ Asked call → is_refused e.reply ≡ true
        → apply s e ≡ counted e.faults (moved s e.added []) }
{}

/// What is permitted, an entry or a read, keeps a sound state sound.
pub fn what_is_permitted_keeps_a_sound_state_sound()
    ensures { (s : State) → (e : Entry) → Permits s e → IsSound s → IsSound (apply s e) }
{}

/// Over a legal history a sound state stays sound, at every place.
pub fn a_legal_history_keeps_a_sound_state_sound()
    ensures { (start : State) → (es : List Entry) → (n : ℕ) → Legal start es → IsSound start → IsSound (after start es n) }
{}

/// A history and one that begins where it ends are one history.
pub fn histories_join()
    ensures { (start : State) → (s : State) → (t : State) → (es : List Entry) → (fs : List Entry)
        → Stands start es s → Stands s fs t → Stands start (es ++ fs) t }
{}

/// A state that stands for a history, and then answers, stands for that history with what the answer left.
pub fn an_answer_goes_on_with_the_history()
    ensures { (start : State) → (s : State) → (t : State) → (es : List Entry) → (fs : List Entry)
        → (st : Step) → (moment : ℕ) → (reply : Reply) → Stands start es s → StepSo s st moment reply t fs → Stands start (es ++ fs) t }
{}

/// A kept commit's files stay, byte for byte, through updates and collections.
///
/// Over a legal history, where a commit is kept at two places and at each one between, every key that it needs is stored
/// at both with equal bytes, it needs the same keys at both, and its tree at the first place is its tree at the second.
pub fn a_kept_commits_files_stay()
    ensures { (start : State) → (es : List Entry) → (from : ℕ) → (to : ℕ) → (commit : List ℕ)
        → Legal start es → IsSound start → from ≤ to → IsKeptBetween start es from to commit
        → KeepsFiles (after start es from).objects (after start es to).objects commit }
{}

/// A collection has at most twice as many turns that aren't refused as objects were stored when it began.
pub fn a_collection_has_few_turns()
    ensures { (start : State) → (es : List Entry) → (n : ℕ) → Legal start es → HasFewTurns start.running → HasFewTurns (after start es n).running }
{}

/// A new library is sound: its opening commit is stored and can be read, and its name and its user are within their limits.
pub fn a_new_library_is_sound()
    ensures { (lib : List ℕ) → (name : List ℕ) → (user : List ℕ) → (secret : List ℕ) → (moment : ℕ) → (objects : Objects) → (faults : ℕ)
        → commit_at (put_new objects (opening_object (opening_commit lib user moment))) (opening_commit lib user moment).id ≡ Ok (opening_commit lib user moment)
        → length name ≤ MAX_STATE_NAME → 1 ≤ length user → length user ≤ MAX_STATE_NAME → IsSound (created lib name user secret moment objects faults) }
{}

/// A sound library with a token more is sound: no other token has its secret, there is room, and its user is within its limits.
pub fn a_sound_library_with_a_token_more_is_sound()
    ensures { (s : State) → (user : List ℕ) → (secret : List ℕ) → (right : Right) → IsSound s → is_taken s.state.tokens secret ≡ false
        → length s.state.tokens < MAX_TOKENS → 1 ≤ length user → length user ≤ MAX_STATE_NAME → IsSound (with_token user secret right s) }
{}

/// Where the text and the objects of a sound state are there, the shelf stands for it: no kept commit needs what else lies
/// there. The text reads back where the state is proper, as that of each typed state does.
pub fn a_shelf_stands_for_a_state_by_its_text_and_its_objects()
    ensures { (s : State) → (slot : Option (List ℕ)) → (lying : Objects) → IsSound s → (IsProper s.state → state_of (text_of s.state) ≡ Ok s.state)
        → slot ≡ Some (text_of s.state) → Keeps s.objects lying → StandsFor slot lying s }
{}

/// A sound state is written as a proper one.
pub fn a_sound_state_is_written_as_a_proper_one()
    ensures { (s : State) → IsSound s → IsProper s.state }
{}

/// What is opened from a shelf that stands for a sound state is sound, whatever else lies there.
pub fn a_library_that_is_opened_again_is_sound()
    ensures { (s : State) → (slot : Option (List ℕ)) → (lying : Objects) → (faults : ℕ) → IsSound s → StandsFor slot lying s
        → s.state.opening < last_number → IsSound (opened lying faults s) }
{}
