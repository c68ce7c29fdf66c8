//! The query of a target, read by the names of its parts.
ghost use Rattle.std.specs.Prelude.{◌≡◌, ◌≤ℤ◌, IfSome, codes, option_copied, option_map, pos};
ghost use Rattle.http_front.specs.Query.{client_asked, day_count, days_asked, days_of, id_asked, only, op_asked, op_of, query_of, value_in, values_from, values_of};

use crate::judgement::number_in;
use ids::ObjId;
use json_words::object_id;
use library_state::Op;

/// The query of a target: what follows its first `?`. It is empty where there is none.
pub(crate) fn query_of(target: &str) -> &str
    ensures { result.now ≡ query_of target.now }
{
    match target.split_once('?') {
        Some((_path, query)) => query,
        None => "",
    }
}

/// What is to be done, as the query says it: None where it does not say it once, in one of its two words.
#[tactic(auto, unfolding(crate::specs::Query::op_asked))]
pub(crate) fn op_asked(query: &str) -> Option<Op>
    ensures { result ≡ op_asked query.now }
{
    match only_value("op", query) {
        Some(word) => op_of(word),
        None => None,
    }
}

fn op_of(word: &str) -> Option<Op>
    ensures { result ≡ op_of word.now }
{
    if word == "upload" {
        return Some(Op::Upload);
    }
    if word == "download" {
        return Some(Op::Download);
    }
    None
}

/// The id that a query has of this name: None where it has not one value of it, or one that is no id.
#[tactic(auto, unfolding(crate::specs::Query::id_asked))]
pub(crate) fn id_asked(name: &str, query: &str) -> Option<ObjId>
    ensures { result ≡ id_asked name.now query.now }
{
    match only_value(name, query) {
        Some(text) => object_id(text),
        None => None,
    }
}

/// The commit that a client has, if the query names one: None where it names what is no id, or more than one.
#[tactic(auto, unfolding(crate::specs::Query::client_asked))]
pub(crate) fn client_asked(query: &str) -> Option<Option<ObjId>>
    ensures { result ≡ client_asked query.now }
{
    match first_value("client-head", query) {
        Some(_) => match id_asked("client-head", query) {
            Some(client) => Some(Some(client)),
            None => None,
        },
        None => Some(None),
    }
}

/// The days that a query has: None where it has not one value of `days`, or one that is not an optional `-` and 1 to 18 digits.
#[tactic(auto, unfolding(crate::specs::Query::days_asked))]
pub(crate) fn days_asked(query: &str) -> Option<i64>
    ensures { result ≡ days_asked query.now }
{
    match only_value("days", query) {
        Some(text) => days_of(text.as_bytes()),
        None => None,
    }
}

/// The days of a text.
fn days_of(text: &[u8]) -> Option<i64>
    ensures { result ≡ days_of text.now }
{
    match text.split_first() {
        Some((first, digits)) => if *first == b'-' {
            match day_count(digits) {
                Some(days) => Some(-days),
                None => None,
            }
        } else {
            day_count(text)
        },
        None => None,
    }
}

/// The number of 1 to 18 decimal digits.
fn day_count(digits: &[u8]) -> Option<i64>
    ensures value { result ≡ option_map pos (day_count digits.now) }
    ensures bound { IfSome result (λ days. (pos 0 ≤ℤ days) × (days ≤ℤ pos 999999999999999999)) }
{
    if digits.len() > 18 {
        return None;
    }
    match number_in(digits) {
        Some(number) => Some(number as i64),
        None => None,
    }
}

/// The value that a query has of this name, where it has one.
fn only_value<'q>(name: &str, query: &'q str) -> Option<&'q str>
    ensures { option_copied result ≡ only (values_of name.now query.now) }
{
    match first_value(name, query) {
        Some((value, rest)) => match first_value(name, rest) {
            Some(_) => None,
            None => Some(value),
        },
        None => None,
    }
}

/// The first value that a query has of this name, and what of the query follows that part.
fn first_value<'q>(name: &str, query: &'q str) -> Option<(&'q str, &'q str)>
    ensures { values_of name.now query.now ≡ values_from name.now result }
{
    let mut left = query;
    while let Some((part, rest)) = left.split_once('&') {
        match value_in(name, part) {
            Some(value) => return Some((value, rest)),
            None => left = rest,
        }
    }
    match value_in(name, left) {
        Some(value) => Some((value, "")),
        None => None,
    }
}

/// The value of a part, where the part has one and this name.
fn value_in<'q>(name: &str, part: &'q str) -> Option<&'q str>
    ensures { option_copied result ≡ value_in name.now part.now }
{
    match part.split_once('=') {
        Some((own, value)) => if own == name { Some(value) } else { None },
        None => None,
    }
}
