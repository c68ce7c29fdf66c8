//! How a library is made.
ghost use Rattle.library_state.specs.declared.state.TheConstants.{MAX_STATE_NAME};
ghost use Rattle.std.specs.Prelude.{◌≡◌, ◌≤◌, ℕ, List, length, Some, None, IfOk, IfErr, OnOk, OnErr, Option, ⊤, Ok, false};
ghost use Rattle.ids.specs.FaultCount.{FailsBy};
ghost use Rattle.ids.specs.Key.{Objects};
ghost use Rattle.ids.specs.Outcome.{RefusesAs};
ghost use Rattle.library_rules.specs.Creation.{created, opening_commit, opening_object};
ghost use Rattle.object_graph.specs.Objects.{commit_at};
ghost use Rattle.object_store.specs.Store.{CountsShelf, IsPutFault, is_free, is_of_shelf, put_refusal};
ghost use Rattle.object_store.specs.StoreView.{AddsNoStray, Keeps, ReadsShelf, StraysBy, objects_of, status_of};
ghost use Rattle.depot.specs.DepotView.{IsGood, state_of};
ghost use Rattle.depot.specs.Giving.{GivesBy, IsOfMaking};
ghost use Rattle.depot.specs.Make.{IsCreated, IsMade, IsMakeFault, IsSlotFault, LeftUnmade, LeftUnmadeBy, RefusesWith, StoresFirst, first_state, is_make_counted, is_make_free, make_refusal};
ghost use Rattle.depot.specs.Writing.{HasProperParents};

use crate::commit_put::put_commit;
use crate::depot::{Depot, Parts};
use crate::error::MakeFault;
use crate::state_write::write_text;
use commit_objects::Commit;
use ids::{Items, LibId, ObjId, Text};
use library_state::{History, Install, LibState, Right, Secret, Token};
use object_store::{Shelf, Store, StoreFault};
use std::alloc::{AllocError, Global};
use tree_walk::Known;

impl<S: Shelf> Depot<S> {
    /// Makes a library on a shelf that holds no state text: with one commit, which has no file, one token of every right,
    /// and all of its history retained. The moment is in seconds since 1970-01-01 UTC. The name has at most 255 bytes,
    /// the user's 1 to 255.
    ///
    /// After a refusal the store is given back: as it was, or with the opening commit, and where the shelf failed as the
    /// text was written with that text, where the commit can be read.
    pub fn make(
        alloc: Global,
        store: Store<S>,
        lib: LibId,
        name: &Text,
        user: &Text,
        secret: Secret,
        moment: u64,
    ) -> Result<Depot<S>, (Store<S>, MakeFault)>
        requires fits { length name.now ≤ MAX_STATE_NAME }
        requires ready { (1 ≤ length user.now) × (length user.now ≤ MAX_STATE_NAME) }
        ensures value { IfOk result (IsMade S.contents S.faults store (opening_object (opening_commit lib user.now moment))
            (first_state lib name.now user.now secret (opening_commit lib user.now moment).id moment)) }
        ensures shown { (objects : Objects) → objects_of S.contents store ≡ Some objects
            → IfOk result (λ depot. state_of S.contents S.faults depot ≡ Some (created lib name.now user.now secret moment objects (S.faults store.shelf))) }
        ensures stands { IfOk result (IsGood S.contents S.faults) }
        ensures lying { IfOk result (λ depot. AddsNoStray S.contents store depot.store) }
        ensures gives { IfOk result (λ depot. GivesBy (IsOfMaking (opening_object (opening_commit lib user.now moment)) (first_state lib name.now user.now secret (opening_commit lib user.now moment).id moment)) (S.may_give store.shelf) (S.may_give depot.store.shelf)) }
        ensures err_lying { IfErr result (λ refused. is_make_counted refused.1 ≡ false → AddsNoStray S.contents store refused.0) }
        ensures err { IfErr result (λ refused. LeftUnmadeBy S.contents store (opening_commit lib user.now moment)
            (first_state lib name.now user.now secret (opening_commit lib user.now moment).id moment) refused.0 refused.1) }

        // HasState is looked for before the opening commit is put. Over a shelf that tells nothing each fault has its cause,
        // in what the shelf may give as it is handed in.
        ensures refused { (objects : Objects) → (status : Option (List ℕ)) → objects_of S.contents store ≡ Some objects → status_of S.contents store ≡ Some status
            → RefusesWith is_make_free result (make_refusal status (put_refusal objects (opening_object (opening_commit lib user.now moment)).key
            (opening_object (opening_commit lib user.now moment)).bytes)) }
        ensures cause { IfErr result (λ refused. IsMakeFault (S.may_give store.shelf) (opening_object (opening_commit lib user.now moment)) refused.1) }
        ensures faults { IfErr result (λ refused. FailsBy {T = ⊤} is_make_counted (S.faults store.shelf) (S.faults refused.0.shelf) (Err refused.1)) }
    {
        let mut store = store;
        match make_in(alloc, &mut store, lib, name, user, secret, moment) {
            Ok(state) => Ok(Depot {
                parts: Parts {
                    alloc,
                    store,
                    state,
                    unsettled: false,
                },
                known: Known::new(alloc),
                running: None,
            }),
            Err(fault) => Err((store, fault)),
        }
    }
}

/// Makes what a new library holds, and puts it onto the shelf.
fn make_in<S: Shelf>(
    alloc: Global,
    store: &mut Store<S>,
    lib: LibId,
    name: &Text,
    user: &Text,
    secret: Secret,
    moment: u64,
) -> Result<LibState, MakeFault>
    ensures value { IfOk result (IsCreated S.contents S.faults store.old (opening_commit lib user.now moment)
        (first_state lib name.now user.now secret (opening_commit lib user.now moment).id moment) store.new) }
    ensures err { IfErr result (LeftUnmadeBy S.contents store.old (opening_commit lib user.now moment)
        (first_state lib name.now user.now secret (opening_commit lib user.now moment).id moment) store.new) }
    ensures refused { (objects : Objects) → (status : Option (List ℕ)) → objects_of S.contents store.old ≡ Some objects → status_of S.contents store.old ≡ Some status
        → RefusesAs is_make_free result (make_refusal status (put_refusal objects (opening_object (opening_commit lib user.now moment)).key
        (opening_object (opening_commit lib user.now moment)).bytes)) }
    ensures cause { IfErr result (IsMakeFault (S.may_give store.old.shelf) (opening_object (opening_commit lib user.now moment))) }
    ensures lying { StraysBy is_make_counted S.contents store.old store.new result }
    ensures gives { GivesBy (IsOfMaking (opening_object (opening_commit lib user.now moment)) (first_state lib name.now user.now secret (opening_commit lib user.now moment).id moment)) (S.may_give store.old.shelf) (S.may_give store.new.shelf) }
    ensures faults { FailsBy is_make_counted (S.faults store.old.shelf) (S.faults store.new.shelf) result }
{
    match check_empty(store) {
        Ok(()) => {}
        Err(fault) => return Err(fault),
    }
    let (commit, state) = match first_parts(alloc, lib, name, user, secret, moment) {
        Ok(parts) => parts,
        Err(_) => return Err(MakeFault::Store(StoreFault::NoMemory)),
    };
    match store_first(alloc, store, &commit, &state) {
        Ok(()) => Ok(state),
        Err(fault) => Err(MakeFault::Store(fault)),
    }
}

/// Refuses a store whose status slot holds a text.
fn check_empty<S: Shelf>(store: &mut Store<S>) -> Result<(), MakeFault>
    ensures stays { Keeps S.contents store.old store.new }
    ensures refused { (status : Option (List ℕ)) → status_of S.contents store.old ≡ Some status → RefusesAs is_make_free result (make_refusal status None) }
    ensures reads { ReadsShelf S.may_give S.texts store.old.shelf store.new.shelf }
    ensures cause { IfErr result (IsSlotFault (S.may_give store.old.shelf)) }
    ensures faults { FailsBy is_make_counted (S.faults store.old.shelf) (S.faults store.new.shelf) result }
{
    match store.noted() {
        Ok(None) => Ok(()),
        Ok(Some(_)) => Err(MakeFault::HasState),
        Err(fault) => Err(MakeFault::Store(fault)),
    }
}

/// The opening commit of a library and its first state.
fn first_parts(
    alloc: Global,
    lib: LibId,
    name: &Text,
    user: &Text,
    secret: Secret,
    moment: u64,
) -> Result<(Commit, LibState), AllocError>
    ensures value { IfOk result (λ parts. (parts.0 ≡ opening_commit lib user.now moment)
        × (parts.1 ≡ first_state lib name.now user.now secret (opening_commit lib user.now moment).id moment)) }
{
    let description = Text::copy(alloc, "Created library")?;
    let commit = Commit::make(
        alloc,
        lib,
        ObjId::NIL,
        None,
        None,
        user,
        &description,
        moment,
        false,
    )?;
    let state = first_state(alloc, lib, name, user, secret, commit.id, moment)?;
    Ok((commit, state))
}

/// The state of a library whose history is one commit.
fn first_state(
    alloc: Global,
    lib: LibId,
    name: &Text,
    user: &Text,
    secret: Secret,
    head: ObjId,
    moment: u64,
) -> Result<LibState, AllocError>
    ensures value { IfOk result (λ state. state ≡ first_state lib name.now user.now secret head moment) }
{
    let mut kept = History::new(alloc);
    kept.push(Install {
        head,
        pushed: head,
        at: moment,
    })?;
    let user = Text::copy(alloc, user.slice())?;
    let mut tokens = Items::new(alloc);
    tokens.push(Token {
        secret,
        user,
        right: Right::Owner,
        last: 0,
    })?;
    let name = Text::copy(alloc, name.slice())?;
    Ok(LibState {
        lib,
        name,
        kept,
        days: -1,
        collection: 0,
        opening: 1,
        tokens,
    })
}

/// Puts the opening commit, and then the text.
fn store_first<S: Shelf>(
    alloc: Global,
    store: &mut Store<S>,
    commit: &Commit,
    state: &LibState,
) -> Result<(), StoreFault>
    ensures ok { OnOk result (StoresFirst S.contents store.old (opening_object commit.now) state.now store.new) }
    ensures found { OnOk result ((objects : Objects) → objects_of S.contents store.new ≡ Some objects → HasProperParents commit.now
        → commit_at objects commit.now.id ≡ Ok commit.now) }
    ensures err { OnErr result (HasProperParents commit.now → LeftUnmade S.contents store.old commit.now state.now store.new) }
    ensures unwritten { IfErr result (λ fault. is_of_shelf fault ≡ false → status_of S.contents store.new ≡ status_of S.contents store.old) }
    ensures refused { (objects : Objects) → objects_of S.contents store.old ≡ Some objects
        → RefusesAs is_free result (put_refusal objects (opening_object commit.now).key (opening_object commit.now).bytes) }
    ensures cause { IfErr result (IsPutFault (S.may_give store.old.shelf) (opening_object commit.now).key (opening_object commit.now).bytes) }
    ensures lying { StraysBy is_of_shelf S.contents store.old store.new result }
    ensures gives { GivesBy (IsOfMaking (opening_object commit.now) state.now) (S.may_give store.old.shelf) (S.may_give store.new.shelf) }
    ensures faults { CountsShelf (S.faults store.old.shelf) (S.faults store.new.shelf) result }
{
    match put_commit(alloc, store, commit) {
        Ok(()) => {}
        Err(fault) => return Err(fault),
    }
    write_text(alloc, store, state)
}
