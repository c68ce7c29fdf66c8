//! A collection in turns.
ghost use Rattle.std.specs.Prelude.{◌≡◌, ◌≢◌, ◌≤◌, ◌<◌, ◌+◌, ◌⊎◌, [], ℕ, if◌then◌else◌, false, length, option_map, IfErr, IfOk, None, OnErr, OnOk, Option, Some};
ghost use Rattle.std.specs.FinMap as map;
ghost use Rattle.ids.specs.Key.{Objects};
ghost use Rattle.ids.specs.declared.key.Key.{Key};
ghost use Rattle.library_rules.specs.Calls.{token_of};
ghost use Rattle.library_rules.specs.Files.{KeepsKept};
ghost use Rattle.library_rules.specs.LibraryState.{State, kept_commits, last_number};
ghost use Rattle.library_rules.specs.Uploads.{KeepsSafe};
ghost use Rattle.library_state.specs.Retention.{kept_for};
ghost use Rattle.library_state.specs.StateSpelling.{text_of};
ghost use Rattle.object_store.specs.Store.{CountsShelf};
ghost use Rattle.object_graph.specs.Traversal.{is_in};
ghost use Rattle.object_store.specs.StoreView.{AddsNoStray, objects_of, status_of};
ghost use Rattle.collector.specs.Sweeping.{StraysIf};
ghost use Rattle.depot.specs.CollectionTurns.{BeginsOver, BeginsSo, CountsMarked, CountsTurn, IsAimed, IsToldDamageIn, MarksSo, MayLayIn, OpensSo, SettlesBefore, SweepsSo, TakesTurn, TurnSlotSo, TurnsAsDue, TurnsBySome, collection_after, is_begin, is_counted_turn, is_end, is_owner, missed, permits_collection, removed_in, running_after_turn, state_after_turn, IsToldNeeded};
ghost use Rattle.depot.specs.DepotView.{IsGood, IsKept, KnowsCandidates, depot_of, state_of, KeepsMet};
ghost use Rattle.depot.specs.Giving.{GivesBy, IsOfSweep, IsOwnText};
ghost use Rattle.depot.specs.NextState.{with_begin};
ghost use Rattle.depot.specs.Writing.{IsWritten, LeftBy, ReadsBack, settled};

use crate::answering::place_of;
use crate::collection::Collection;
use crate::depot::{Depot, Parts};
use crate::refusals::{store_refusal, walk_refusal};
use crate::update_install::{copied, text_with};
use collector::{Marks, Phase, Swept};
use ids::{Bytes, IdList, KeyList};
use library_state::{History, Install, LAST, LibState, Refusal, Right, Secret, Token};
use object_store::{Shelf, StoreFault};
use std::alloc::{AllocError, Global};
use tree_walk::Known;

/// What one turn of a collection did.
#[derive(Debug, Drop)]
pub enum Turn {
    /// The collection of this number began: history is cut, and the text is written.
    Began(u64),
    /// So many objects were marked, one at least.
    Marked(u64),
    /// These keys left, one at least.
    Swept(KeyList),
    /// The collection of this number ended.
    Ended(u64),
    /// The collection of this number, which is the goal, doesn't run, and nothing was done.
    Over(u64),
    /// Why not, and the keys that left all the same. Where the shelf failed, the bytes of the last of them, and nothing else,
    /// may come to lie beside the library. A collection that ran goes on, and some objects may be marked.
    Refused(Refusal, KeyList),
}

impl<S: Shelf> Depot<S> {
    /// The number of the collection that runs, if one does. It takes no memory.
    pub fn running(&self) -> Option<u64>
        ensures value { result ≡ option_map (λ _. self.now.state.collection) self.now.running }
    {
        match &self.running {
            Some(_) => Some(self.parts.state.collection),
            None => None,
        }
    }

    /// Whether the secret's token may collect: it is an owner's. It takes no memory.
    pub fn may_collect(&self, secret: &Option<Secret>) -> bool
        ensures value { result ≡ permits_collection (token_of self.now.state.tokens secret.now) }
    {
        is_of_owner(self.parts.state.tokens.slice(), secret)
    }

    /// Takes one step of a collection, the first that is due, at a moment in seconds since 1970-01-01 UTC: it begins one where
    /// none runs, marks up to `at_most` objects while some wait, gives up as many candidates while some are left, or ends it.
    ///
    /// With a goal whose collection doesn't run it does nothing, and is over. `Spent` comes exactly where one would begin and the
    /// last number was given. Else a turn is refused where the shelf failed or memory is wanting, and while it marks where a
    /// commit, directory or file that is needed is damaged, or an object is missing or can't be read. As many objects as are told
    /// as marked were opened whole, over any shelf; where the library is told a kept commit needs each. After a refusal the state
    /// is as it was, and a collection that ran goes on; the keys that are told have left.
    pub fn turn_of_collection(&mut self, goal: Option<u64>, moment: u64, at_most: u64) -> Turn
        requires some { 1 ≤ at_most }
        ensures shown { (s : State) → state_of S.contents S.faults self.old ≡ Some s
            → TurnsBySome s goal moment at_most result (state_of S.contents S.faults self.new) }
        ensures stands { IsGood S.contents S.faults self.new }

        // Each commit that was kept keeps its files, and what was safe stays so unless a collection begins.
        ensures files { (s : State) → (t : State) → state_of S.contents S.faults self.old ≡ Some s → state_of S.contents S.faults self.new ≡ Some t → KeepsKept s t }
        ensures safe { (s : State) → (t : State) → state_of S.contents S.faults self.old ≡ Some s → state_of S.contents S.faults self.new ≡ Some t
            → is_begin result ≡ false → KeepsSafe s t }

        // Of every shelf: which turn it may be, that no fresh key leaves, and the cause of each fault.
        ensures cause { TurnsAsDue self.old.store.index (S.may_give self.new.store.shelf) self.old.running self.old.state.collection goal result }
        ensures damaged { (objects : Objects) → objects_of S.contents self.old.store ≡ Some objects → IsToldDamageIn objects result }
        ensures needed { (s : State) → state_of S.contents S.faults self.old ≡ Some s → IsToldNeeded s result }
        ensures opened { OpensSo S.contents S.may_give S.faults self.old result }
        ensures faults { CountsTurn (S.faults self.old.store.shelf) (S.faults self.new.store.shelf) result }
        ensures gives { GivesBy (MayLayIn self.old.state.lib result) (S.may_give self.old.store.shelf) (S.may_give self.new.store.shelf) }

        // What is left, and what the slot holds. Beside a collection that runs no text but the present one is written, and where
        // that is open, before a key leaves.
        ensures left { self.new.state ≡ state_after_turn self.old.state moment result }
        ensures running { self.new.running ≡ running_after_turn (map.len self.old.store.index) self.old.running result }
        ensures marked { CountsMarked result self.old.marked self.new.marked }
        ensures held { (key : Key) → map.get self.new.store.index key
            ≡ (if is_in (removed_in result) key then None else map.get self.old.store.index key) }
        ensures size { map.len self.new.store.index + length (removed_in result) ≡ map.len self.old.store.index }
        ensures lying { StraysIf (is_counted_turn result) S.contents self.old.store self.new.store (removed_in result) }
        ensures text { TurnSlotSo moment result self.old.unsettled self.old.state (status_of S.contents self.old.store) self.new.unsettled
            (status_of S.contents self.new.store) (S.texts self.old.store.shelf) (S.texts self.new.store.shelf) }
        ensures settled { self.old.running ≢ None → SettlesBefore self.old.unsettled self.old.state (status_of S.contents self.old.store)
            self.new.unsettled (status_of S.contents self.new.store) (removed_in result) }
    {
        self.take_turn(goal, moment, at_most)
    }

    /// The same in one clause, of a library that was sound.
    fn take_turn(&mut self, goal: Option<u64>, moment: u64, at_most: u64) -> Turn
        requires some { 1 ≤ at_most }
        ensures value { TakesTurn S.contents S.may_give S.texts S.faults self.old goal moment at_most result self.new }
        ensures opened { OpensSo S.contents S.may_give S.faults self.old result }
        ensures stands { IsGood S.contents S.faults self.new }
        ensures found { IsGood S.contents S.faults self.old }
    {
        match missed(self.running(), goal) {
            Some(number) => return Turn::Over(number),
            None => {}
        }
        let turn = match &mut self.running {
            Some(running) => self.parts.go_on(&mut self.known, running, at_most),
            None => return self.begin_collection(moment),
        };
        close(&mut self.running, &turn);
        turn
    }

    /// Begins a collection, unless the last number was given.
    fn begin_collection(&mut self, moment: u64) -> Turn
        requires idle { self.old.running ≡ None }
        ensures value { (at_most : ℕ) → TakesTurn S.contents S.may_give S.texts S.faults self.old None moment at_most result self.new }
        ensures opened { OpensSo S.contents S.may_give S.faults self.old result }
        ensures stands { IsGood S.contents S.faults self.new }
    {
        let alloc = self.parts.alloc;
        if self.parts.state.collection >= LAST {
            return Turn::Refused(Refusal::Spent, KeyList::new(alloc));
        }
        match self.parts.begin_collection(moment) {
            Ok(running) => {
                self.running = Some(running);
                Turn::Began(self.parts.state.collection)
            }
            Err(fault) => Turn::Refused(store_refusal(fault), KeyList::new(alloc)),
        }
    }
}

/// Whether the first token of the secret is an owner's.
fn is_of_owner(tokens: &[Token], secret: &Option<Secret>) -> bool
    ensures value { result ≡ permits_collection (token_of tokens.now secret.now) }
{
    let shown = match secret {
        Some(shown) => shown,
        None => return false,
    };
    match place_of(tokens, shown) {
        Some(place) => is_owner(tokens[place].right),
        None => false,
    }
}

/// Whether it is the right of an owner.
fn is_owner(right: Right) -> bool
    ensures value { result ≡ is_owner right }
{
    match right {
        Right::Owner => true,
        _ => false,
    }
}

/// The goal, where its collection doesn't run.
fn missed(running: Option<u64>, goal: Option<u64>) -> Option<u64>
    ensures value { result ≡ missed running goal }
{
    let number = match goal {
        Some(number) => number,
        None => return None,
    };
    match running {
        Some(other) => if other == number { None } else { Some(number) },
        None => Some(number),
    }
}

/// Lets the collection go where a turn ended it.
fn close(running: &mut Option<Collection>, turn: &Turn)
    ensures value { running.new ≡ (if is_end turn.now then None else running.old) }
{
    if is_end(turn) {
        *running = None;
    }
}

/// Whether a turn ended the collection.
fn is_end(turn: &Turn) -> bool
    ensures value { result ≡ is_end turn.now }
{
    match turn {
        Turn::Ended(_) => true,
        _ => false,
    }
}

impl<S: Shelf> Parts<S> {
    /// Goes on with the collection that runs. Where nothing is left to do it is at its end.
    fn go_on(&mut self, known: &mut Known, running: &mut Collection, at_most: u64) -> Turn
        requires some { 1 ≤ at_most }
        requires good { IsKept S.contents S.faults (depot_of self.old.store self.old.state self.old.unsettled (Some running.old)) known.old (Some running.old) }
        ensures value { (goal : Option ℕ) → (moment : ℕ) → IsAimed goal self.old.state.collection → TakesTurn S.contents S.may_give S.texts S.faults
            (depot_of self.old.store self.old.state self.old.unsettled (Some running.old)) goal moment at_most result
            (depot_of self.new.store self.new.state self.new.unsettled (collection_after result running.new)) }
        ensures opened { OpensSo S.contents S.may_give S.faults (depot_of self.old.store self.old.state self.old.unsettled (Some running.old)) result }
        ensures stands { IsKept S.contents S.faults (depot_of self.new.store self.new.state self.new.unsettled (Some running.new)) known.new (Some running.new) }
    {
        match running.phase() {
            Phase::Marking => self.mark_some(running, at_most),
            Phase::Sweeping => self.sweep_some(known, running, at_most),
            Phase::Over => Turn::Ended(self.state.collection),
        }
    }

    /// Marks objects that wait.
    fn mark_some(&mut self, running: &mut Collection, at_most: u64) -> Turn
        requires some { (1 ≤ at_most) × (running.old.marks.pending ≢ []) }
        ensures value { MarksSo S.contents S.may_give S.texts S.faults self.old.store running.old at_most result self.new.store running.new }
        ensures stays { (self.new.state ≡ self.old.state) × (self.new.unsettled ≡ self.old.unsettled) }
    {
        match running.marks.mark(&mut self.store, at_most) {
            Ok(count) => {
                running.count_turn();
                Turn::Marked(count)
            }
            Err(fault) => Turn::Refused(walk_refusal(fault), KeyList::new(self.alloc)),
        }
    }

    /// Gives up candidates. The present text is written first, where it is open whether it stands: no object leaves that a
    /// text which may stand needs. What is known is kept of what is marked.
    fn sweep_some(&mut self, known: &mut Known, running: &mut Collection, at_most: u64) -> Turn
        requires some { (1 ≤ at_most) × (running.old.marks.pending ≡ []) }
        requires stored { KnowsCandidates self.old.store.index (Some running.old) }
        ensures value { SweepsSo S.contents S.may_give S.texts S.faults self.old.store running.old at_most result self.new.store running.new }
        ensures text { (moment : ℕ) → TurnSlotSo moment result self.old.unsettled self.old.state (status_of S.contents self.old.store) self.new.unsettled
            (status_of S.contents self.new.store) (S.texts self.old.store.shelf) (S.texts self.new.store.shelf) }
        ensures stays { self.new.state ≡ self.old.state }
        ensures gives { GivesBy (IsOfSweep self.old.state.lib (removed_in result)) (S.may_give self.old.store.shelf) (S.may_give self.new.store.shelf) }
        ensures settled { SettlesBefore self.old.unsettled self.old.state (status_of S.contents self.old.store) self.new.unsettled (status_of S.contents self.new.store) (removed_in result) }
        ensures known { (known.new ≡ known.old) × (removed_in result ≡ []) ⊎ KeepsMet running.old.marks known.old known.new }
    {
        match self.settle() {
            Ok(()) => {}
            Err(fault) => return Turn::Refused(store_refusal(fault), KeyList::new(self.alloc)),
        }
        known.keep(running.marks.commits(), running.marks.met());
        let Swept { removed, fault } = running.marks.sweep(&mut self.store, at_most);
        match fault {
            Some(fault) => Turn::Refused(store_refusal(fault), removed),
            None => {
                running.count_turn();
                Turn::Swept(removed)
            }
        }
    }

    /// Cuts history, counts a collection, and writes the text. After a fault the state is as it was; where the shelf failed as
    /// the text was written, it is open which text stands.
    fn begin_collection(&mut self, moment: u64) -> Result<Collection, StoreFault>
        requires fits { self.old.state.collection < last_number }
        ensures value { IfOk result (BeginsSo self.old.store.index (with_begin moment self.old.state).kept) }
        ensures shown { (objects : Objects) → objects_of S.contents self.old.store ≡ Some objects → IfOk result (BeginsOver objects) }
        ensures ok { OnOk result ((self.new.state ≡ with_begin moment self.old.state) × (self.new.unsettled ≡ false)
            × IsWritten (with_begin moment self.old.state) (settled self.old.unsettled self.old.state (status_of S.contents self.old.store)) (status_of S.contents self.new.store)) }
        ensures err { OnErr result (self.new.state ≡ self.old.state) }
        ensures text { IfErr result (λ fault. LeftBy fault self.old.unsettled self.old.state (with_begin moment self.old.state)
            (status_of S.contents self.old.store) self.new.unsettled (status_of S.contents self.new.store)) }
        ensures stays { objects_of S.contents self.new.store ≡ objects_of S.contents self.old.store }
        ensures held { self.new.store.index ≡ self.old.store.index }
        ensures lying { AddsNoStray S.contents self.old.store self.new.store }
        ensures gives { GivesBy (IsOwnText self.old.state.lib) (S.may_give self.old.store.shelf) (S.may_give self.new.store.shelf) }
        ensures faults { CountsShelf (S.faults self.old.store.shelf) (S.faults self.new.store.shelf) result }
    {
        let alloc = self.alloc;
        let mut kept = match cut_history(alloc, &self.state, moment) {
            Ok(kept) => kept,
            Err(_) => return Err(StoreFault::NoMemory),
        };
        let commits = match commits_of(alloc, kept.slice()) {
            Ok(commits) => commits,
            Err(_) => return Err(StoreFault::NoMemory),
        };
        let marks = match Marks::begin(alloc, &self.store, &commits) {
            Ok(marks) => marks,
            Err(_) => return Err(StoreFault::NoMemory),
        };
        let text = match text_of_begin(alloc, &mut self.state, &mut kept) {
            Ok(text) => text,
            Err(_) => return Err(StoreFault::NoMemory),
        };
        match self.write_installed(text.slice()) {
            Ok(()) => {}
            Err(fault) => return Err(fault),
        }
        self.state.kept = kept;
        self.state.collection += 1;
        Ok(Collection::begin(alloc, marks, self.store.count()))
    }
}

/// The head updates that are retained at a moment.
fn cut_history(alloc: Global, state: &LibState, moment: u64) -> Result<History, AllocError>
    ensures value { IfOk result (λ kept. kept ≡ kept_for state.now.days moment state.now.kept) }
{
    let mut kept = copied(alloc, state.kept.slice())?;
    kept.cut(state.days, moment);
    Ok(kept)
}

/// The head and the pushed commit of each head update.
fn commits_of(alloc: Global, kept: &[Install]) -> Result<IdList, AllocError>
    ensures value { IfOk result (λ commits. commits ≡ kept_commits kept.now) }
{
    let mut commits = IdList::new(alloc);
    for install in kept {
        commits.push(install.head)?;
        commits.push(install.pushed)?;
    }
    Ok(commits)
}

/// The text of the state with other head updates and one collection more. The state is as it was, and so are the others.
fn text_of_begin(
    alloc: Global,
    state: &mut LibState,
    kept: &mut History,
) -> Result<Bytes, AllocError>
    requires fits { state.old.collection < last_number }
    ensures state { state.new ≡ state.old }
    ensures stays { kept.new ≡ kept.old }
    ensures value { IfOk result (λ text. text ≡ text_of (record state.old { kept = kept.old; collection = state.old.collection + 1 })) }
    ensures reads { IfOk result (λ text. ReadsBack (record state.old { kept = kept.old; collection = state.old.collection + 1 })) }
{
    state.collection += 1;
    let text = text_with(alloc, state, kept);
    state.collection -= 1;
    text
}
