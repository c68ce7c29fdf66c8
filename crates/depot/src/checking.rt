//! The checks of what one may do; an upload check tells the token of the last collection.
ghost use Rattle.std.specs.Prelude.{◌≡◌, ◌<◌, ℕ, List, Option, length, OnOk, OnErr};
ghost use Rattle.library_state.specs.declared.call.Act.TheVariants as act;
ghost use Rattle.library_state.specs.declared.call.Op.TheVariants as op;
ghost use Rattle.library_state.specs.declared.token.Token.{Token};
ghost use Rattle.object_store.specs.Store.{CountsShelf};
ghost use Rattle.object_store.specs.StoreView.{AddsNoStray, objects_of, status_of};
ghost use Rattle.depot.specs.Answering.{MayAsk, ServesAt};
ghost use Rattle.depot.specs.Changing.{TextSo, marked};
ghost use Rattle.depot.specs.Giving.{GivesBy, IsOwnText, MayLay};

use crate::depot::{Depot, Parts};
use crate::refusals::answer_of;
use ids::Items;
use library_state::{Op, Reply, Token};
use object_store::{Shelf, StoreFault};
use std::alloc::Global;
use std::mem;

impl<S: Shelf> Depot<S> {
    /// Answers a check of what the token at a place may do.
    pub(crate) fn check(&mut self, place: usize, op: Op) -> Reply
        requires who { (secret : Option (List ℕ)) × MayAsk self.old.state.tokens secret (act.Check op) place }
        ensures value { (moment : ℕ) → ServesAt S.contents S.may_give S.texts S.faults self.old place (act.Check op) moment result self.new }
        ensures gives { GivesBy (MayLay self.old.state.lib (act.Check op)) (S.may_give self.old.store.shelf) (S.may_give self.new.store.shelf) }
        ensures held { self.new.store.index ≡ self.old.store.index }
    {
        match op {
            Op::Download => Reply::Checked,
            Op::Upload => self.check_upload(place),
        }
    }

    /// Tells the token at a place of the last collection, and writes the text where that changes it.
    fn check_upload(&mut self, place: usize) -> Reply
        requires who { (secret : Option (List ℕ)) × MayAsk self.old.state.tokens secret (act.Check op.Upload) place }
        ensures value { (moment : ℕ) → ServesAt S.contents S.may_give S.texts S.faults self.old place (act.Check op.Upload) moment result self.new }
        ensures gives { GivesBy (IsOwnText self.old.state.lib) (S.may_give self.old.store.shelf) (S.may_give self.new.store.shelf) }
        ensures held { self.new.store.index ≡ self.old.store.index }
    {
        let seen = self.parts.see_collection(place);
        answer_of(Reply::Checked, seen)
    }
}

impl<S: Shelf> Parts<S> {
    /// Tells the token at a place of the last collection, and writes the text where that changes it.
    fn see_collection(&mut self, place: usize) -> Result<(), StoreFault>
        requires within { place < length self.old.state.tokens }
        ensures err { OnErr result (self.new.state ≡ self.old.state) }
        ensures value { (d : Token) → OnOk result (self.new.state ≡ record self.old.state { tokens = marked place self.old.state.collection self.old.state.tokens d }) }
        ensures text { (d : Token) → TextSo self.old.unsettled self.old.state (record self.old.state { tokens = marked place self.old.state.collection self.old.state.tokens d })
            (status_of S.contents self.old.store) self.new.unsettled (status_of S.contents self.new.store) result (S.texts self.old.store.shelf) (S.texts self.new.store.shelf) }
        ensures stays { objects_of S.contents self.new.store ≡ objects_of S.contents self.old.store }
        ensures held { self.new.store.index ≡ self.old.store.index }
        ensures lying { AddsNoStray S.contents self.old.store self.new.store }
        ensures gives { GivesBy (IsOwnText self.old.state.lib) (S.may_give self.old.store.shelf) (S.may_give self.new.store.shelf) }
        ensures faults { CountsShelf (S.faults self.old.store.shelf) (S.faults self.new.store.shelf) result }
    {
        let before = self.state.tokens.slice()[place].last;
        if before == self.state.collection {
            return Ok(());
        }
        match self.settle() {
            Ok(()) => {}
            Err(fault) => return Err(fault),
        }
        mark(
            self.alloc,
            &mut self.state.tokens,
            place,
            self.state.collection,
        );
        match self.write_next() {
            Ok(()) => Ok(()),
            Err(fault) => {
                mark(self.alloc, &mut self.state.tokens, place, before);
                Err(fault)
            }
        }
    }
}

/// The token at a place saw this collection last.
fn mark(alloc: Global, tokens: &mut Items<Token>, place: usize, collection: u64)
    requires within { place < length tokens.old }
    ensures value { (d : Token) → tokens.new ≡ marked place collection tokens.old d }
{
    let mut inner = mem::replace(tokens, Items::new(alloc)).into_vec();
    mark_in(&mut inner, place, collection);
    *tokens = Items::from_vec(inner);
}

/// The same in a vector.
fn mark_in(tokens: &mut Vec<Token>, place: usize, collection: u64)
    requires within { place < length tokens.old.items }
    ensures value { (d : Token) → tokens.new.items ≡ marked place collection tokens.old.items d }
{
    tokens[place].last = collection;
}
