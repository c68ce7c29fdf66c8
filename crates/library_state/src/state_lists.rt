//! Reading of the lists of a state text: head updates and tokens.
ghost use Rattle.std.specs.Prelude.{◌≡◌, ◌≢◌, ◌≤◌, [], map, length, false, All, IfOk};
ghost use Rattle.ids.specs.ObjectId.{nil};
ghost use Rattle.serde_json.specs.View.{view};
ghost use Rattle.json_words.specs.Answer.{ReadsAs};
ghost use Rattle.json_words.specs.Check.{result_map, each};
ghost use Rattle.json_words.specs.Fields.{array_field};
ghost use Rattle.json_words.specs.IdText.{object_id_of};
ghost use Rattle.library_state.specs.ProperState.{IsProperInstall, IsProperToken, AreProperTokens};
ghost use Rattle.library_state.specs.StateText.{at_key, stored_id_field, install_of, kept_in, user_in, right_in, secret_in, parts_of, token_of, tokens_after, tokens_in};
ghost use Rattle.library_state.specs.Tokens.{is_taken};
ghost use Rattle.library_state.specs.TokenReading.{parts_seen};
ghost use Rattle.library_state.specs.declared.state.TheConstants.{MAX_TOKENS, MAX_STATE_NAME};

use crate::history::{History, Install};
use crate::right::Right;
use crate::secret::Secret;
use crate::state::{MAX_STATE_NAME, MAX_TOKENS};
use crate::state_fault::{StateFault, StateKey};
use crate::token::Token;
use ids::{Items, ObjId, Text};
use json_words::{
    ReadFault, array_field, field, has_only, number_between, number_field, stored_id_in, text_field,
};
use serde_json::Value;
use std::alloc::{AllocError, Global};

/// What is read of a token, with its text borrowed.
#[derive(Clone, Copy)]
pub struct TokenParts<'a> {
    pub secret: Secret,
    pub user: &'a str,
    pub right: Right,
    pub last: u64,
}

/// The retained head updates, at least one.
#[tactic(auto, unfolding(crate::specs::StateText::kept_in))]
pub fn kept_in(alloc: Global, value: &Value) -> Result<History, StateFault>
    ensures value { ReadsAs result (kept_in (view value.now)) }
    ensures some_kept { IfOk result (λ kept. 1 ≤ length kept) }
    ensures proper { IfOk result (All IsProperInstall) }
{
    let items = list_at(value, "kept", StateKey::Kept)?;
    if items.is_empty() {
        return Err(ReadFault::Bad(StateKey::Kept));
    }
    read_installs(alloc, items)
}

/// The items of an array.
fn list_at<'a>(value: &'a Value, name: &str, key: StateKey) -> Result<&'a [Value], StateKey>
    ensures value { result_map (λ items. map view items.now) result
        ≡ at_key key (array_field name.now (view value.now)) }
{
    match array_field(value, name) {
        Ok(items) => Ok(items),
        Err(_) => Err(key),
    }
}

/// The head updates that the items of an array are.
fn read_installs(alloc: Global, items: &[Value]) -> Result<History, StateFault>
    ensures value { ReadsAs result (each install_of (map view items.now)) }
    ensures same { IfOk result (λ kept. length kept ≡ length items.now) }
    ensures proper { IfOk result (All IsProperInstall) }
{
    let mut kept = History::new(alloc);
    for item in items {
        let install = install_of(item)?;
        kept.push(install)?;
    }
    Ok(kept)
}

/// The head update that a value is.
#[tactic(auto, unfolding(crate::specs::StateText::install_of))]
fn install_of(value: &Value) -> Result<Install, StateKey>
    ensures value { result ≡ install_of (view value.now) }
    ensures proper { IfOk result IsProperInstall }
{
    if !has_only(value, &["at", "head", "pushed"]) {
        return Err(StateKey::Kept);
    }
    let at = match number_field(value, "at") {
        Ok(at) => at,
        Err(_) => return Err(StateKey::Kept),
    };
    let head = stored_id_at(value, "head")?;
    let pushed = stored_id_at(value, "pushed")?;
    Ok(Install { head, pushed, at })
}

/// A field that is the text of an id other than forty zeros.
#[tactic(auto, unfolding(crate::specs::StateText::stored_id_field))]
fn stored_id_at(value: &Value, name: &str) -> Result<ObjId, StateKey>
    ensures value { result ≡ at_key StateKey.Kept (stored_id_field name.now (view value.now)) }
    ensures not_zeros { IfOk result (λ id. id ≢ nil) }
{
    match field(value, name) {
        Ok(found) => stored_id_in(found).ok_or(StateKey::Kept),
        Err(_) => Err(StateKey::Kept),
    }
}

/// The tokens, which saw no collection past this one.
#[tactic(auto, unfolding(crate::specs::StateText::tokens_in))]
pub fn tokens_in(alloc: Global, value: &Value, collection: u64) -> Result<Items<Token>, StateFault>
    ensures value { ReadsAs result (tokens_in collection (view value.now)) }
    ensures proper { IfOk result (AreProperTokens collection) }
{
    let items = list_at(value, "tokens", StateKey::Tokens)?;
    if items.len() > MAX_TOKENS {
        return Err(ReadFault::Bad(StateKey::Tokens));
    }
    read_tokens(alloc, items, collection)
}

/// The tokens that the items of an array are, of which there are few.
fn read_tokens(alloc: Global, items: &[Value], collection: u64) -> Result<Items<Token>, StateFault>
    requires fits { length items.now ≤ MAX_TOKENS }
    ensures value { ReadsAs result (tokens_after collection [] (map view items.now)) }
    ensures proper { IfOk result (AreProperTokens collection) }
{
    let mut tokens = Items::new(alloc);
    for item in items {
        let token = match token_of(alloc, item, collection, tokens.slice()) {
            Ok(token) => token,
            Err(fault) => return Err(fault),
        };
        match tokens.push(token) {
            Ok(()) => {}
            Err(_) => return Err(ReadFault::NoMemory),
        }
    }
    Ok(tokens)
}

/// The token that a value is, beside others that have other secrets.
#[tactic(auto, unfolding(crate::specs::StateText::token_of))]
fn token_of(
    alloc: Global,
    value: &Value,
    collection: u64,
    others: &[Token],
) -> Result<Token, StateFault>
    ensures value { ReadsAs result (token_of collection others.now (view value.now)) }
    ensures proper { IfOk result (IsProperToken collection) }
    ensures new { IfOk result (λ token. is_taken others.now token.secret ≡ false) }
{
    let parts = match parts_of(value, collection) {
        Ok(parts) => parts,
        Err(bad) => return Err(ReadFault::Bad(bad)),
    };
    if is_taken(others, &parts.secret) {
        return Err(ReadFault::Bad(StateKey::Tokens));
    }
    match token_from(alloc, &parts) {
        Ok(token) => Ok(token),
        Err(_) => Err(ReadFault::NoMemory),
    }
}

/// The token with its own text.
fn token_from(alloc: Global, parts: &TokenParts<'_>) -> Result<Token, AllocError>
    ensures value { IfOk result (λ token. token ≡ parts_seen parts.now) }
{
    let user = Text::copy(alloc, parts.user)?;
    Ok(Token {
        secret: parts.secret,
        user,
        right: parts.right,
        last: parts.last,
    })
}

/// Whether a token has the secret.
pub fn is_taken(tokens: &[Token], secret: &Secret) -> bool
    ensures value { result ≡ is_taken tokens.now secret.now }
{
    tokens.iter().any(|token| *secret == token.secret)
}

/// What a token's value says.
#[tactic(auto, unfolding(crate::specs::StateText::parts_of))]
fn parts_of<'a>(value: &'a Value, collection: u64) -> Result<TokenParts<'a>, StateKey>
    ensures value { result_map parts_seen result ≡ parts_of collection (view value.now) }
    ensures last { IfOk result (λ parts. parts.last ≤ collection) }
    ensures user { IfOk result (λ parts. (1 ≤ length parts.user.now) × (length parts.user.now ≤ MAX_STATE_NAME)) }
{
    if !has_only(value, &["last", "right", "secret", "user"]) {
        return Err(StateKey::Tokens);
    }
    let last = match number_between(value, "last", 0, collection) {
        Ok(last) => last,
        Err(_) => return Err(StateKey::Tokens),
    };
    let right = right_in(value)?;
    let secret = secret_in(value)?;
    let user = user_in(value)?;
    Ok(TokenParts {
        secret,
        user,
        right,
        last,
    })
}

/// The right of a token.
#[tactic(auto, unfolding(crate::specs::StateText::right_in))]
fn right_in(value: &Value) -> Result<Right, StateKey>
    ensures value { result ≡ right_in (view value.now) }
{
    match text_field(value, "right") {
        Ok(text) => Right::of(text).ok_or(StateKey::Tokens),
        Err(_) => Err(StateKey::Tokens),
    }
}

/// The secret of a token.
#[tactic(auto, unfolding(crate::specs::StateText::secret_in))]
fn secret_in(value: &Value) -> Result<Secret, StateKey>
    ensures value { result ≡ secret_in (view value.now) }
{
    match text_field(value, "secret") {
        Ok(text) => secret_of(text).ok_or(StateKey::Tokens),
        Err(_) => Err(StateKey::Tokens),
    }
}

/// The secret whose 40 lower-case hexadecimal digits a text is.
fn secret_of(text: &str) -> Option<Secret>
    ensures value { result ≡ object_id_of text.now }
{
    match Secret::read(text) {
        Ok(secret) => Some(secret),
        Err(_) => None,
    }
}

/// The user of a token.
#[tactic(auto, unfolding(crate::specs::StateText::user_in))]
fn user_in<'a>(value: &'a Value) -> Result<&'a str, StateKey>
    ensures value { result_map (λ text. text.now) result ≡ user_in (view value.now) }
    ensures bound { IfOk result (λ text. (1 ≤ length text.now) × (length text.now ≤ MAX_STATE_NAME)) }
{
    match text_field(value, "user") {
        Ok(text) => if 1 <= text.len() && text.len() <= MAX_STATE_NAME {
            Ok(text)
        } else {
            Err(StateKey::Tokens)
        },
        Err(_) => Err(StateKey::Tokens),
    }
}
