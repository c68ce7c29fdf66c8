//! Arrays of ids, in bodies of requests and of replies.
ghost use Rattle.std.specs.Prelude.{◌≡◌, ◌<◌, false, length, map, List, None, Some, Ok, Err, IfOk, IfSome, IfNone, option_and_then};
ghost use Rattle.json.specs.Reads.{token_of};
ghost use Rattle.json.specs.Token.{Token as SpecToken};
ghost use Rattle.serde_json.specs.Data.{Data, Items, array};
ghost use Rattle.serde_json.specs.Read.{read};
ghost use Rattle.serde_json.specs.View.{view, items_of};
ghost use Rattle.serde_json.specs.Written.{compact_text, has_float};
ghost use Rattle.json_words.specs.Answer.{ReadsAs};
ghost use Rattle.json_words.specs.Check.{each};
ghost use Rattle.json_words.specs.Fields.{list_of};
ghost use Rattle.json_words.specs.IdText.{id_data, id_in, object_id_of};
ghost use Rattle.json_tokens.specs.Front.{FrontIs, ItemsAre};
ghost use Rattle.json_tokens.specs.Opening.{text_in};
ghost use Rattle.http_front.specs.IdArray.{array_text, id_at, ids_of, ids_of_read, item_depth};

use ids::{IdList, ObjId};
use json::{Reader, Scratch, Token};
use json_tokens::opens_array;
use json_words::{ReadFault, id_value, object_id};
use serde_json::Value;
use std::alloc::{AllocError, Global};
use std::str::from_utf8;

/// The ids of a body that is a JSON array of their texts, or 0, the place of every bad body of this kind.
///
/// The body is read token by token, and no value of it is kept but the ids. It takes the memory of the body once more.
pub fn read_ids(alloc: Global, body: &[u8]) -> Result<IdList, ReadFault<u64>>
    ensures value { ReadsAs result (ids_of body.now) }
{
    match from_utf8(body) {
        Ok(text) => ids_of_text(alloc, text),
        Err(_) => Err(ReadFault::Bad(0)),
    }
}

/// The ids of a text that is such an array, with nothing behind it.
fn ids_of_text(alloc: Global, text: &str) -> Result<IdList, ReadFault<u64>>
    ensures value { ReadsAs result (ids_of_read (read text.now)) }
{
    let mut scratch = Scratch::new(alloc);
    let mut reader = Reader::new(text, &mut scratch)?;
    if !opens_array(&mut reader) {
        return Err(ReadFault::Bad(0));
    }
    let Some(ids) = ids_behind(alloc, &mut reader)? else {
        return Err(ReadFault::Bad(0));
    };
    if reader.next().is_some() {
        return Err(ReadFault::Bad(0));
    }
    Ok(ids)
}

/// The ids that the items of an array are, or none where an item is no id. The bracket was taken, and the closing one is
/// taken too. Behind the first item that is no id nothing is read. In an array that is a whole text, items nest at most
/// `item_depth` levels.
fn ids_behind(alloc: Global, reader: &mut Reader<'_>) -> Result<Option<IdList>, AllocError>
    ensures found { IfOk result (λ answer. IfSome answer (λ ids. (ds : Items)
        × ItemsAre item_depth reader.old ds reader.new × (each id_at (list_of ds) ≡ Ok ids))) }
    ensures absent { IfOk result (λ answer. IfNone answer ((ds : Items) → (rest : List SpecToken)
        → ItemsAre item_depth reader.old ds rest → each id_at (list_of ds) ≡ Err 0)) }
{
    let mut ids = IdList::new(alloc);
    'items: while !reader.take_end_array() {
        match next_id(reader) {
            Some(id) => ids.push(id)?,
            None => return Ok(None),
        }
    }
    Ok(Some(ids))
}

/// The id that the item at the front is the text of, or none.
fn next_id(reader: &mut Reader<'_>) -> Option<ObjId>
    ensures found { IfSome result (λ id. (d : Data) × FrontIs item_depth reader.old d reader.new × (id_in d ≡ Some id)) }
    ensures shorter { IfSome result (λ _. length reader.new < length reader.old) }
    ensures absent { IfNone result ((d : Data) → (rest : List SpecToken) → FrontIs item_depth reader.old d rest → id_in d ≡ None) }
{
    match reader.next() {
        Some(token) => id_in_token(token),
        None => None,
    }
}

fn id_in_token(token: Token<'_>) -> Option<ObjId>
    ensures value { result ≡ option_and_then object_id_of (text_in (token_of token.entry)) }
{
    match token {
        Token::String(text) => object_id(text),
        Token::BeginObject
        | Token::EndObject
        | Token::BeginArray
        | Token::EndArray
        | Token::Key(_)
        | Token::Number(_)
        | Token::Bool(_)
        | Token::Null
        | Token::Bad => None,
    }
}

/// The compact JSON array of the texts of some ids.
pub fn array_bytes(alloc: Global, ids: &[ObjId]) -> Result<Vec<u8>, AllocError>
    ensures value { IfOk result (λ text. text.items ≡ array_text ids.now) }
{
    let values = id_values(alloc, ids)?;
    text_of_value(alloc, array_of(values))
}

fn array_of(values: Vec<Value>) -> Value
    ensures value { view result ≡ array (items_of (map view values.items)) }
{
    Value::Array(values)
}

fn text_of_value(alloc: Global, value: Value) -> Result<Vec<u8>, AllocError>
    ensures value { IfOk result (λ text. has_float (view value) ≡ false → text.items ≡ compact_text (view value)) }
{
    value.to_vec(alloc)
}

fn id_values(alloc: Global, ids: &[ObjId]) -> Result<Vec<Value>, AllocError>
    ensures value { IfOk result (λ values. map view values.items ≡ map id_data ids.now) }
{
    let mut values = Vec::new(alloc);
    for id in ids {
        let value = id_value(alloc, id)?;
        values.push(value)?;
    }
    Ok(values)
}
