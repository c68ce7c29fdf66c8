//! How an update is carried out: its objects first, the state text last.
ghost use Rattle.std.specs.Prelude.{◌≡◌, ◌++◌, ◌∷◌, [], IfErr, IfOk, IsTrue, OnErr, OnOk, Some};
ghost use Rattle.std.specs.FinMap as map;
ghost use Rattle.ids.specs.Key.{Objects};
ghost use Rattle.library_rules.specs.Changes.{keys_added};
ghost use Rattle.library_state.specs.StateSpelling.{text_of};
ghost use Rattle.library_state.specs.declared.history.Install.{Install};
ghost use Rattle.library_state.specs.declared.state.LibState.{LibState};
ghost use Rattle.object_store.specs.Store.{CountsShelf, is_free, is_of_shelf};
ghost use Rattle.object_store.specs.StoreView.{AddsNoStray, StraysBy, objects_of, status_of};
ghost use Rattle.depot.specs.Answering.{with_install};
ghost use Rattle.depot.specs.Held.{HoldsMore, KnowsAll};
ghost use Rattle.depot.specs.Giving.{GivesBy, IsOfUpdate, IsOwnText};
ghost use Rattle.depot.specs.UpdateInstall.{ArePuttableIn, CarriesSo, IsWriteFault, PutsSo, held_in};
ghost use Rattle.depot.specs.Plan.{AreNamed, listed, objects_in, own_object};
ghost use Rattle.depot.specs.Writing.{ReadsBack, RewritesSo};

use crate::depot::Parts;
use crate::plan::Plan;
use ids::{Bytes, Key, KeyTable, Kind, ObjId};
use library_state::{History, Install, LibState};
use object_store::{Shelf, Store, StoreFault};
use std::alloc::{AllocError, Global};
use std::mem;

impl<S: Shelf> Parts<S> {
    /// Stores what the plan makes, and writes the text of the state in which its head is the head.
    ///
    /// What the head update needs of memory is taken before the first write. After a fault the state is as it was, and the
    /// first ones of the objects may be stored. Where the shelf failed as the text was written, it is open which text stands.
    pub(crate) fn carry_out(&mut self, plan: &Plan, install: Install) -> Result<(), StoreFault>
        requires named { AreNamed (objects_in plan.now) }
        requires ready { ArePuttableIn (objects_of S.contents self.old.store) (objects_in plan.now) }
        ensures ok { OnOk result (self.new.state ≡ with_install install.head install.pushed install.at self.old.state) }
        ensures err { OnErr result (self.new.state ≡ self.old.state) }
        ensures value { CarriesSo self.old.unsettled self.old.state (with_install install.head install.pushed install.at self.old.state) (objects_in plan.now)
            (held_in S.contents S.texts self.old.store) self.new.unsettled (held_in S.contents S.texts self.new.store) result }
        ensures free { (objects : Objects) → objects_of S.contents self.old.store ≡ Some objects → IfErr result (λ fault. IsTrue (is_free fault)) }
        ensures cause { IfErr result (IsWriteFault (S.may_give self.new.store.shelf)) }
        ensures held { HoldsMore (keys_added (objects_in plan.now)) self.old.store.index self.new.store.index }
        ensures known { IfOk result (λ done. KnowsAll (keys_added (objects_in plan.now)) self.new.store.index) }
        ensures lying { StraysBy is_of_shelf S.contents self.old.store self.new.store result }
        ensures gives { GivesBy (IsOfUpdate self.old.state.lib) (S.may_give self.old.store.shelf) (S.may_give self.new.store.shelf) }
        ensures faults { CountsShelf (S.faults self.old.store.shelf) (S.faults self.new.store.shelf) result }
    {
        let mut kept = match with_install(self.alloc, self.state.kept.slice(), install) {
            Ok(kept) => kept,
            Err(_) => return Err(StoreFault::NoMemory),
        };
        let text = match text_with(self.alloc, &mut self.state, &mut kept) {
            Ok(text) => text,
            Err(_) => return Err(StoreFault::NoMemory),
        };
        match put_plan(&mut self.store, plan) {
            Ok(()) => {}
            Err(fault) => return Err(fault),
        }
        match self.write_installed(text.slice()) {
            Ok(()) => {}
            Err(fault) => return Err(fault),
        }
        self.state.kept = kept;
        Ok(())
    }

    /// Writes a text in the place of the present state's, which is written before where it is open whether it stands.
    pub(crate) fn write_installed(&mut self, text: &[u8]) -> Result<(), StoreFault>
        ensures value { (next : LibState) → text.now ≡ text_of next → ReadsBack next
            → RewritesSo self.old.unsettled self.old.state next (status_of S.contents self.old.store) self.new.unsettled (status_of S.contents self.new.store) result }
        ensures state { self.new.state ≡ self.old.state }
        ensures stays { objects_of S.contents self.new.store ≡ objects_of S.contents self.old.store }
        ensures held { self.new.store.index ≡ self.old.store.index }
        ensures lying { AddsNoStray S.contents self.old.store self.new.store }
        ensures gives { (next : LibState) → text.now ≡ text_of next → next.lib ≡ self.old.state.lib
            → GivesBy (IsOwnText self.old.state.lib) (S.may_give self.old.store.shelf) (S.may_give self.new.store.shelf) }
        ensures free { IfErr result (λ fault. IsTrue (is_free fault)) }
        ensures faults { CountsShelf (S.faults self.old.store.shelf) (S.faults self.new.store.shelf) result }
    {
        match self.settle() {
            Ok(()) => {}
            Err(fault) => return Err(fault),
        }
        self.note_text(text)
    }
}

/// The head updates with one more.
fn with_install(alloc: Global, kept: &[Install], install: Install) -> Result<History, AllocError>
    ensures value { IfOk result (λ history. history ≡ kept.now ++ install ∷ []) }
{
    let mut history = copied(alloc, kept)?;
    history.push(install)?;
    Ok(history)
}

/// The same head updates.
pub(crate) fn copied(alloc: Global, kept: &[Install]) -> Result<History, AllocError>
    ensures value { IfOk result (λ history. history ≡ kept.now) }
{
    let mut history = History::new(alloc);
    for install in kept {
        history.push(*install)?;
    }
    Ok(history)
}

/// The text of the state with other head updates. The state is as it was, and so are the others.
pub(crate) fn text_with(
    alloc: Global,
    state: &mut LibState,
    kept: &mut History,
) -> Result<Bytes, AllocError>
    ensures state { state.new ≡ state.old }
    ensures stays { kept.new ≡ kept.old }
    ensures value { IfOk result (λ text. text ≡ text_of (record state.old { kept = kept.old })) }
    ensures reads_back { IfOk result (λ text. ReadsBack (record state.old { kept = kept.old })) }
{
    mem::swap(&mut state.kept, kept);
    let text = state.write(alloc);
    mem::swap(&mut state.kept, kept);
    text
}

/// Stores what a plan makes.
fn put_plan<S: Shelf>(store: &mut Store<S>, plan: &Plan) -> Result<(), StoreFault>
    requires named { AreNamed (objects_in plan.now) }
    requires ready { ArePuttableIn (objects_of S.contents store.old) (objects_in plan.now) }
    ensures value { PutsSo S.contents S.may_give S.texts S.faults (objects_in plan.now) store.old store.new result }
{
    match put_dirs(store, &plan.dirs) {
        Ok(()) => {}
        Err(fault) => return Err(fault),
    }
    put_text(store, &plan.head, &plan.text)
}

/// Stores the objects of a table, in the order of their keys.
fn put_dirs<S: Shelf>(store: &mut Store<S>, dirs: &KeyTable<Bytes>) -> Result<(), StoreFault>
    requires named { AreNamed (listed (map.entries dirs.now)) }
    requires ready { ArePuttableIn (objects_of S.contents store.old) (listed (map.entries dirs.now)) }
    ensures value { PutsSo S.contents S.may_give S.texts S.faults (listed (map.entries dirs.now)) store.old store.new result }
{
    for (key, bytes) in dirs.iter() {
        match put_one(store, key, bytes) {
            Ok(()) => {}
            Err(fault) => return Err(fault),
        }
    }
    Ok(())
}

/// Stores the text of a commit that is made here, if there is one.
fn put_text<S: Shelf>(
    store: &mut Store<S>,
    head: &ObjId,
    text: &Option<Bytes>,
) -> Result<(), StoreFault>
    requires named { AreNamed (own_object head.now text.now) }
    requires ready { ArePuttableIn (objects_of S.contents store.old) (own_object head.now text.now) }
    ensures value { PutsSo S.contents S.may_give S.texts S.faults (own_object head.now text.now) store.old store.new result }
{
    match text {
        Some(text) => put_one(
            store,
            &Key {
                kind: Kind::Commit,
                id: *head,
            },
            text,
        ),
        None => Ok(()),
    }
}

/// Stores an object that nothing forbids.
fn put_one<S: Shelf>(store: &mut Store<S>, key: &Key, bytes: &Bytes) -> Result<(), StoreFault>
    requires named { AreNamed (record { key = key.now; bytes = bytes.now } ∷ []) }
    requires ready { ArePuttableIn (objects_of S.contents store.old) (record { key = key.now; bytes = bytes.now } ∷ []) }
    ensures value { PutsSo S.contents S.may_give S.texts S.faults (record { key = key.now; bytes = bytes.now } ∷ []) store.old store.new result }
    ensures same { OnErr result (objects_of S.contents store.new ≡ objects_of S.contents store.old) }
{
    match store.put(*key, bytes.slice()) {
        Ok(_) => Ok(()),
        Err(fault) => Err(fault),
    }
}
