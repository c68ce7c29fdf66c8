//! Writing of state texts.
ghost use Rattle.std.specs.Prelude.{◌≡◌, map, All, IfOk, OnOk};
ghost use Rattle.serde_json.specs.View.{view};
ghost use Rattle.json_words.specs.IdText.{id_data, IsId};
ghost use Rattle.library_state.specs.StateSpelling.{install_with, install_data, token_with, token_data, state_with, state_data};
ghost use Rattle.library_state.specs.TypedState.{IsTyped, IsTypedInstall, IsTypedToken};

use crate::history::Install;
use crate::secret::Secret;
use crate::state::LibState;
use crate::token::Token;
use json_words::{id_value, library_id_value};
use serde_json::{Value, json};
use std::alloc::{AllocError, Global};
use std::str::from_utf8;

/// The value of a state.
pub fn state_value(alloc: Global, state: &LibState) -> Result<Value, AllocError>
    ensures value { IfOk result (λ value. view value ≡ state_data state.now) }
    ensures typed { OnOk result (IsTyped state.now) }
{
    let kept = install_values(alloc, state.kept.slice())?;
    let lib = library_id_value(alloc, &state.lib)?;
    let tokens = token_values(alloc, state.tokens.slice())?;
    let name = state.name.slice();
    state_with(
        alloc,
        state.collection,
        state.days,
        kept,
        lib,
        name,
        state.opening,
        tokens,
    )
}

/// The values of the head updates.
fn install_values(alloc: Global, installs: &[Install]) -> Result<Vec<Value>, AllocError>
    ensures value { IfOk result (λ values. map view values.items ≡ map install_data installs.now) }
    ensures typed { OnOk result (All IsTypedInstall installs.now) }
{
    let mut values = Vec::new(alloc);
    for install in installs {
        let value = install_value(alloc, install)?;
        values.push(value)?;
    }
    Ok(values)
}

/// The value of a head update.
fn install_value(alloc: Global, install: &Install) -> Result<Value, AllocError>
    ensures value { IfOk result (λ value. view value ≡ install_data install.now) }
    ensures typed { OnOk result (IsTypedInstall install.now) }
{
    let at = install.at;
    let head = id_value(alloc, &install.head)?;
    let pushed = id_value(alloc, &install.pushed)?;
    install_with(alloc, at, head, pushed)
}

/// The values of the tokens.
fn token_values(alloc: Global, tokens: &[Token]) -> Result<Vec<Value>, AllocError>
    ensures value { IfOk result (λ values. map view values.items ≡ map token_data tokens.now) }
    ensures typed { OnOk result (All IsTypedToken tokens.now) }
{
    let mut values = Vec::new(alloc);
    for token in tokens {
        let value = token_value(alloc, token)?;
        values.push(value)?;
    }
    Ok(values)
}

/// The value of a token.
fn token_value(alloc: Global, token: &Token) -> Result<Value, AllocError>
    ensures value { IfOk result (λ value. view value ≡ token_data token.now) }
    ensures typed { OnOk result (IsTypedToken token.now) }
{
    let secret = secret_value(alloc, &token.secret)?;
    let right = token.right.text();
    let user = token.user.slice();
    token_with(alloc, token.last, right, secret, user)
}

/// The text of a secret, its 40 lower-case hexadecimal digits.
fn secret_value(alloc: Global, secret: &Secret) -> Result<Value, AllocError>
    ensures value { IfOk result (λ value. view value ≡ id_data secret.now) }
    ensures reads_back { IsId secret.now }
{
    let digits = secret.digits();
    match from_utf8(&digits) {
        Ok(text) => Value::try_from_str(alloc, text),
        Err(_) => unreachable!(),
    }
}

#[tactic(auto, unfolding(crate::specs::StateSpelling::install_with))]
fn install_with(alloc: Global, at: u64, head: Value, pushed: Value) -> Result<Value, AllocError>
    ensures value { IfOk result (λ value. view value ≡ install_with at (view head) (view pushed)) }
{
    json!(in alloc; {"at": at, "head": head, "pushed": pushed})
}

#[tactic(auto, unfolding(crate::specs::StateSpelling::token_with))]
fn token_with(
    alloc: Global,
    last: u64,
    right: &str,
    secret: Value,
    user: &str,
) -> Result<Value, AllocError>
    ensures value { IfOk result (λ value. view value ≡ token_with last right.now (view secret) user.now) }
{
    json!(in alloc; {"last": last, "right": right, "secret": secret, "user": user})
}

#[tactic(auto, unfolding(crate::specs::StateSpelling::state_with))]
fn state_with(
    alloc: Global,
    collection: u64,
    days: i64,
    kept: Vec<Value>,
    lib: Value,
    name: &str,
    opening: u64,
    tokens: Vec<Value>,
) -> Result<Value, AllocError>
    ensures value { IfOk result (λ value. view value
        ≡ state_with collection days (map view kept.items) (view lib) name.now opening (map view tokens.items)) }
{
    json!(in alloc; {
        "collection": collection,
        "days": days,
        "kept": kept,
        "lib": lib,
        "name": name,
        "opening": opening,
        "tokens": tokens,
        "version": 1u64
    })
}
