//! Reading of state texts.
ghost use Rattle.std.specs.Prelude.{◌≡◌, ◌≤◌, true, length, IfOk};
ghost use Rattle.serde_json.specs.View.{view};
ghost use Rattle.json_words.specs.Answer.{ReadsAs};
ghost use Rattle.json_words.specs.Check.{result_map};
ghost use Rattle.library_state.specs.ProperState.{IsProper};
ghost use Rattle.library_state.specs.StateText.{last_number, right_version, collection_in, is_day_count, days_in, library_in, name_in, opening_in, state_in};
ghost use Rattle.library_state.specs.declared.state.TheConstants.{MAX_STATE_NAME};

use crate::state::{LAST, LibState, MAX_DAYS, MAX_STATE_NAME};
use crate::state_fault::{StateFault, StateKey};
use crate::state_lists::{kept_in, tokens_in};
use ids::{LibId, Text};
use json_words::{
    ReadFault, has_only, integer_field, library_id, number_between, number_field, text_field,
};
use serde_json::Value;
use std::alloc::Global;

/// The state that a JSON object is.
#[tactic(auto, unfolding(crate::specs::StateText::state_in))]
pub fn state_from(alloc: Global, value: &Value) -> Result<LibState, StateFault>
    ensures value { ReadsAs result (state_in (view value.now)) }
    ensures proper { IfOk result IsProper }
{
    right_version(value)?;
    let collection = collection_in(value)?;
    let days = days_in(value)?;
    let kept = kept_in(alloc, value)?;
    let lib = library_in(value)?;
    let name = name_in(value)?;
    let opening = opening_in(value)?;
    let tokens = tokens_in(alloc, value, collection)?;
    if !has_only(
        value,
        &[
            "collection",
            "days",
            "kept",
            "lib",
            "name",
            "opening",
            "tokens",
            "version",
        ],
    ) {
        return Err(ReadFault::Bad(StateKey::Extra));
    }
    let name = Text::copy(alloc, name)?;
    Ok(LibState {
        lib,
        name,
        kept,
        days,
        collection,
        opening,
        tokens,
    })
}

/// That the version is 1.
#[tactic(auto, unfolding(crate::specs::StateText::right_version))]
fn right_version(value: &Value) -> Result<(), StateKey>
    ensures value { result ≡ right_version (view value.now) }
{
    match number_field(value, "version") {
        Ok(version) => if version == 1 {
            Ok(())
        } else {
            Err(StateKey::Version)
        },
        Err(_) => Err(StateKey::Version),
    }
}

/// The number of collections begun.
#[tactic(auto, unfolding(crate::specs::StateText::collection_in))]
fn collection_in(value: &Value) -> Result<u64, StateKey>
    ensures value { result ≡ collection_in (view value.now) }
    ensures bound { IfOk result (λ collection. collection ≤ last_number) }
{
    match number_between(value, "collection", 0, LAST) {
        Ok(collection) => Ok(collection),
        Err(_) => Err(StateKey::Collection),
    }
}

/// For how many days history is retained.
#[tactic(auto, unfolding(crate::specs::StateText::days_in))]
fn days_in(value: &Value) -> Result<i64, StateKey>
    ensures value { result ≡ days_in (view value.now) }
    ensures bound { IfOk result (λ days. is_day_count days ≡ true) }
{
    match integer_field(value, "days") {
        Ok(days) => if is_day_count(days) {
            Ok(days)
        } else {
            Err(StateKey::Days)
        },
        Err(_) => Err(StateKey::Days),
    }
}

/// Whether history can be retained for so many days; -1 is for ever.
pub fn is_day_count(days: i64) -> bool
    ensures value { result ≡ is_day_count days }
{
    -1 <= days && days <= MAX_DAYS
}

/// The library's id.
#[tactic(auto, unfolding(crate::specs::StateText::library_in))]
fn library_in(value: &Value) -> Result<LibId, StateKey>
    ensures value { result ≡ library_in (view value.now) }
{
    match text_field(value, "lib") {
        Ok(text) => library_id(text).ok_or(StateKey::Lib),
        Err(_) => Err(StateKey::Lib),
    }
}

/// The library's name.
#[tactic(auto, unfolding(crate::specs::StateText::name_in))]
fn name_in<'a>(value: &'a Value) -> Result<&'a str, StateKey>
    ensures value { result_map (λ text. text.now) result ≡ name_in (view value.now) }
    ensures bound { IfOk result (λ text. length text.now ≤ MAX_STATE_NAME) }
{
    match text_field(value, "name") {
        Ok(text) => if text.len() <= MAX_STATE_NAME {
            Ok(text)
        } else {
            Err(StateKey::LibName)
        },
        Err(_) => Err(StateKey::LibName),
    }
}

/// The number of openings.
#[tactic(auto, unfolding(crate::specs::StateText::opening_in))]
fn opening_in(value: &Value) -> Result<u64, StateKey>
    ensures value { result ≡ opening_in (view value.now) }
    ensures bound { IfOk result (λ opening. (1 ≤ opening) × (opening ≤ last_number)) }
{
    match number_between(value, "opening", 1, LAST) {
        Ok(opening) => Ok(opening),
        Err(_) => Err(StateKey::Opening),
    }
}
