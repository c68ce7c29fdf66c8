//! Tokens of a library that is kept.
ghost use Rattle.library_state.specs.declared.state.TheConstants.{MAX_STATE_NAME};
ghost use Rattle.std.specs.Prelude.{◌≡◌, ◌≤◌, ◌++◌, ◌∷◌, [], List, length, None, Some, IfOk, OnOk, OnErr, IfSome};
ghost use Rattle.ids.specs.FaultCount.{FailsBy};
ghost use Rattle.ids.specs.Outcome.{RefusesAs};
ghost use Rattle.library_rules.specs.Creation.{with_token};
ghost use Rattle.library_rules.specs.LibraryState.{State};
ghost use Rattle.library_state.specs.Tokens.{is_taken};
ghost use Rattle.library_state.specs.declared.token.Token.{Token};
ghost use Rattle.object_store.specs.Store.{CountsShelf};
ghost use Rattle.object_store.specs.StoreView.{AddsNoStray, objects_of, status_of};
ghost use Rattle.depot.specs.DepotView.{IsGood, state_of};
ghost use Rattle.depot.specs.Tokens.{is_token_counted, is_token_free, store_answer, token_refusal, token_shown, with_new_token};
ghost use Rattle.depot.specs.Writing.{RewritesSo};

use crate::depot::{Depot, Parts};
use crate::error::TokenFault;
use ids::{Items, Text};
use library_state::{MAX_TOKENS, Right, Secret, Token};
use object_store::{Shelf, StoreFault};
use std::alloc::{AllocError, Global};
use std::mem;

impl<S: Shelf> Depot<S> {
    /// Adds a token, which saw no collection. The user's name has 1 to 255 bytes.
    ///
    /// After a refusal the library is as it was. Where the shelf failed as the text was written, the slot holds the
    /// library's text or the one with the token.
    pub fn add_token(&mut self, user: &Text, secret: Secret, right: Right) -> Result<(), TokenFault>
        requires fits { (1 ≤ length user.now) × (length user.now ≤ MAX_STATE_NAME) }
        ensures ok { OnOk result (self.new.state ≡ with_new_token user.now secret right self.old.state) }
        ensures err { OnErr result (self.new.state ≡ self.old.state) }
        ensures shown { OnOk result ((s : State) → state_of S.contents S.faults self.old ≡ Some s
            → state_of S.contents S.faults self.new ≡ Some (with_token user.now secret right s)) }
        ensures stays { objects_of S.contents self.new.store ≡ objects_of S.contents self.old.store }
        ensures stands { IsGood S.contents S.faults self.new }
        ensures lying { AddsNoStray S.contents self.old.store self.new.store }
        ensures running { self.new.running ≡ self.old.running }
        ensures marked { self.new.marked ≡ self.old.marked }

        // What the slot holds, where the store was asked. It is asked for no token that is refused.
        ensures text { IfSome (store_answer result) (RewritesSo self.old.unsettled self.old.state (with_new_token user.now secret right self.old.state)
            (status_of S.contents self.old.store) self.new.unsettled (status_of S.contents self.new.store)) }
        ensures untouched { store_answer result ≡ None → self.new ≡ self.old }
        ensures asked { IfSome (store_answer result) (λ answer. token_refusal self.old.state.tokens secret ≡ None) }
        ensures refused { RefusesAs is_token_free result (token_refusal self.old.state.tokens secret) }
        ensures faults { FailsBy is_token_counted (S.faults self.old.store.shelf) (S.faults self.new.store.shelf) result }
    {
        if has_secret(self.parts.state.tokens.slice(), &secret) {
            return Err(TokenFault::SecretTaken);
        }
        if self.parts.state.tokens.len() >= MAX_TOKENS {
            return Err(TokenFault::Full);
        }
        let token = match new_token(self.parts.alloc, user, secret, right) {
            Ok(token) => token,
            Err(_) => return Err(TokenFault::Store(StoreFault::NoMemory)),
        };
        match self.parts.write_token(token) {
            Ok(()) => Ok(()),
            Err(fault) => Err(TokenFault::Store(fault)),
        }
    }

    /// The secret and the right of the token at a place, counted from 0 in the order in which they were added; none past
    /// the last one. It takes no memory.
    pub fn token_at(&self, place: u64) -> Option<(Secret, Right)>
        ensures value { result ≡ token_shown self.now.state.tokens place }
    {
        match self.parts.state.tokens.slice().get(place as usize) {
            Some(token) => Some((token.secret, token.right)),
            None => None,
        }
    }
}

/// Whether a token has the secret.
fn has_secret(tokens: &[Token], secret: &Secret) -> bool
    ensures value { result ≡ is_taken tokens.now secret.now }
{
    tokens.iter().any(|token| secret.is(&token.secret))
}

/// A token that saw no collection.
fn new_token(alloc: Global, user: &Text, secret: Secret, right: Right) -> Result<Token, AllocError>
    ensures value { IfOk result (λ token. token ≡ record { secret = secret; user = user.now; right = right; last = 0 }) }
{
    let user = Text::copy(alloc, user.slice())?;
    Ok(Token {
        secret,
        user,
        right,
        last: 0,
    })
}

impl<S: Shelf> Parts<S> {
    /// Adds the token, and writes the text.
    fn write_token(&mut self, token: Token) -> Result<(), StoreFault>
        ensures ok { OnOk result (self.new.state ≡ record self.old.state { tokens = self.old.state.tokens ++ token ∷ [] }) }
        ensures err { OnErr result (self.new.state ≡ self.old.state) }
        ensures value { RewritesSo self.old.unsettled self.old.state (record self.old.state { tokens = self.old.state.tokens ++ token ∷ [] })
            (status_of S.contents self.old.store) self.new.unsettled (status_of S.contents self.new.store) result }
        ensures stays { objects_of S.contents self.new.store ≡ objects_of S.contents self.old.store }
        ensures held { self.new.store.index ≡ self.old.store.index }
        ensures lying { AddsNoStray S.contents self.old.store self.new.store }
        ensures faults { CountsShelf (S.faults self.old.store.shelf) (S.faults self.new.store.shelf) result }
    {
        match self.settle() {
            Ok(()) => {}
            Err(fault) => return Err(fault),
        }
        match self.state.tokens.push(token) {
            Ok(()) => {}
            Err(_) => return Err(StoreFault::NoMemory),
        }
        match self.write_next() {
            Ok(()) => Ok(()),
            Err(fault) => {
                drop_last(self.alloc, &mut self.state.tokens);
                Err(fault)
            }
        }
    }
}

/// Lets the last token go.
fn drop_last(alloc: Global, tokens: &mut Items<Token>)
    ensures value { (front : List Token) → (last : Token) → tokens.old ≡ front ++ last ∷ [] → tokens.new ≡ front }
{
    let mut inner = mem::replace(tokens, Items::new(alloc)).into_vec();
    let _ = inner.pop();
    *tokens = Items::from_vec(inner);
}
