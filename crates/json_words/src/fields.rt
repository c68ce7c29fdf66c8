//! The fields of a JSON object, each with its type.
ghost use Rattle.std.specs.Prelude.{◌≡◌, List, ℕ, map, option_map, string_bytes, ◌≤◌, IfOk};
ghost use Rattle.std.specs.List.{list_any};
ghost use Rattle.std.specs.Str.{bytes_eq};
ghost use Rattle.serde_json.specs.View.{view, members_view};
ghost use Rattle.json_words.specs.Check.{result_map};
ghost use Rattle.json_words.specs.Fields.{field, number_field, number_between, integer_field, text_field, array_field, optional_field, optional_text, has_only, has_only_members};

use serde_json::{Map, Value};

/// Why an object has no such field. It bears no key: a reader puts its own to it.
#[derive(Clone, Copy, Debug, PartialEq, Eq)]
pub enum FieldFault {
    /// No field of this name is there, or the value is no object.
    Missing,
    /// The field is there with a value of another type or range.
    WrongType,
}

/// The field with a name.
pub fn field<'a>(value: &'a Value, name: &str) -> Result<&'a Value, FieldFault>
    ensures value { result_map (λ found. view found.now) result ≡ field name.now (view value.now) }
{
    value.get(name).ok_or(FieldFault::Missing)
}

/// A field that is a whole number from 0 to 2^64 - 1.
#[tactic(auto, unfolding(crate::specs::Fields::number_field))]
pub fn number_field(value: &Value, name: &str) -> Result<u64, FieldFault>
    ensures value { result ≡ number_field name.now (view value.now) }
{
    field(value, name)?.as_u64().ok_or(FieldFault::WrongType)
}

/// A field that is a whole number from `low` to `high`.
#[tactic(auto, unfolding(crate::specs::Fields::number_between))]
pub fn number_between(value: &Value, name: &str, low: u64, high: u64) -> Result<u64, FieldFault>
    ensures value { result ≡ number_between low high name.now (view value.now) }
    ensures bound { IfOk result (λ number. (low ≤ number) × (number ≤ high)) }
{
    let number = number_field(value, name)?;
    if low <= number && number <= high {
        Ok(number)
    } else {
        Err(FieldFault::WrongType)
    }
}

/// A field that is a whole number from -2^63 to 2^63 - 1.
#[tactic(auto, unfolding(crate::specs::Fields::integer_field))]
pub fn integer_field(value: &Value, name: &str) -> Result<i64, FieldFault>
    ensures value { result ≡ integer_field name.now (view value.now) }
{
    field(value, name)?.as_i64().ok_or(FieldFault::WrongType)
}

/// A field that is a text.
#[tactic(auto, unfolding(crate::specs::Fields::text_field))]
pub fn text_field<'a>(value: &'a Value, name: &str) -> Result<&'a str, FieldFault>
    ensures value { result_map (λ text. text.now) result ≡ text_field name.now (view value.now) }
{
    field(value, name)?.as_str().ok_or(FieldFault::WrongType)
}

/// A field that is an array: its items in order.
#[tactic(auto, unfolding(crate::specs::Fields::array_field))]
pub fn array_field<'a>(value: &'a Value, name: &str) -> Result<&'a [Value], FieldFault>
    ensures value { result_map (λ items. map view items.now) result
        ≡ array_field name.now (view value.now) }
{
    match field(value, name)?.as_array() {
        Some(items) => Ok(items.as_slice()),
        None => Err(FieldFault::WrongType),
    }
}

/// The field with a name, where it is there and not null.
#[tactic(auto, unfolding(crate::specs::Fields::optional_field))]
pub fn optional_field<'a>(value: &'a Value, name: &str) -> Option<&'a Value>
    ensures value { option_map (λ found. view found.now) result
        ≡ optional_field name.now (view value.now) }
{
    match value.get(name) {
        Some(found) => if found.is_null() { None } else { Some(found) },
        None => None,
    }
}

/// A field that is a text, or none where it is absent or null.
#[tactic(auto, unfolding(crate::specs::Fields::optional_text))]
pub fn optional_text<'a>(value: &'a Value, name: &str) -> Result<Option<&'a str>, FieldFault>
    ensures value { result_map (option_map (λ text. text.now)) result
        ≡ optional_text name.now (view value.now) }
{
    match optional_field(value, name) {
        Some(found) => match found.as_str() {
            Some(text) => Ok(Some(text)),
            None => Err(FieldFault::WrongType),
        },
        None => Ok(None),
    }
}

/// Whether a value is an object with no key but the known ones.
#[tactic(auto, unfolding(crate::specs::Fields::has_only))]
pub fn has_only(value: &Value, known: &[&str]) -> bool
    ensures value { result ≡ has_only (map (λ key. key.now) known.now) (view value.now) }
{
    match value.as_object() {
        Some(members) => has_only_members(members, known),
        None => false,
    }
}

fn has_only_members(members: &Map<String, Value>, known: &[&str]) -> bool
    ensures value { result
        ≡ has_only_members (map (λ key. key.now) known.now) (members_view members.now.entries) }
{
    for key in members.keys() {
        if !is_known(key.as_str(), known) {
            return false;
        }
    }
    true
}

/// Whether a key is among the known ones.
pub fn is_known(key: &str, known: &[&str]) -> bool
    ensures value { result ≡ list_any (λ name. bytes_eq key.now name.now) known.now }
{
    known.iter().any(|name| key == *name)
}
