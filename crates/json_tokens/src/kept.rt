//! Reading of an object only the members with known names.
ghost use Rattle.std.specs.Prelude.{◌≡◌, ◌∷◌, ◌<◌, ◌≤◌, length, map, option_map, IfOk, OnOk};
ghost use Rattle.json.specs.Reads.{token_of};
ghost use Rattle.serde_json.specs.Data.{Data, Members};
ghost use Rattle.serde_json.specs.Read.{read};
ghost use Rattle.serde_json.specs.View.{view, members_view};
ghost use Rattle.json_words.specs.Answer.{OnBad};
ghost use Rattle.json_tokens.specs.Front.{FrontIs, NoFront, MembersAre, NoMembers};
ghost use Rattle.json_words.specs.JsonText.{json_of};
ghost use Rattle.json_tokens.specs.Kept.{emptied, kept, kept_members, put_kept};

use crate::front::{pass_items, pass_members, pass_value};
use crate::number::number_of;
use json::{Reader, Scratch, Token};
use json_words::{NotJson, ReadFault, is_known};
use serde_json::{Map, Value};
use std::alloc::{AllocError, Global};
use std::str::from_utf8;

/// How deep arrays and objects may nest in a text, as `serde_json` has it.
const MAX_DEPTH: usize = 127;

/// What a JSON text has under known names, or none where the bytes are no JSON text: of an object the members with
/// these names, each without what an array or an object in it holds; of any other value the same.
///
/// For texts that clients send: besides what it answers, it takes about as much memory as the text, whatever the text holds.
pub fn parse_kept(alloc: Global, bytes: &[u8], known: &[&str]) -> Result<Option<Value>, AllocError>
    ensures value { IfOk result (λ answer. option_map view answer
        ≡ option_map (kept (map (λ key. key.now) known.now)) (json_of bytes.now)) }
{
    match from_utf8(bytes) {
        Ok(text) => kept_text(alloc, text, known),
        Err(_) => Ok(None),
    }
}

fn kept_text(alloc: Global, text: &str, known: &[&str]) -> Result<Option<Value>, AllocError>
    ensures value { IfOk result (λ answer. option_map view answer
        ≡ option_map (kept (map (λ key. key.now) known.now)) (read text.now)) }
{
    let mut scratch = Scratch::new(alloc);
    let mut reader = Reader::new(text, &mut scratch)?;
    match kept_value(alloc, &mut reader, MAX_DEPTH, known) {
        Ok(value) => match reader.next() {
            Some(_) => Ok(None),
            None => Ok(Some(value)),
        },
        Err(ReadFault::Bad(_)) => Ok(None),
        Err(ReadFault::NoMemory) => Err(AllocError),
    }
}

/// What the value at the front, of at most `depth` levels of arrays and objects, has under known names. With no
/// name, it is the value without what an array or an object holds.
///
/// After an error the reader stands anywhere, and what it has left means nothing.
pub fn kept_value(
    alloc: Global,
    reader: &mut Reader<'_>,
    depth: usize,
    known: &[&str],
) -> Result<Value, ReadFault<NotJson>>
    ensures ok { IfOk result (λ v. (d : Data) × FrontIs depth reader.old d reader.new
        × (view v ≡ kept (map (λ key. key.now) known.now) d)) }
    ensures shorter { OnOk result (length reader.new < length reader.old) }
    ensures err { OnBad result (NoFront depth reader.old) }
{
    let Some(first) = reader.next() else {
        return Err(ReadFault::Bad(NotJson));
    };
    match first {
        Token::BeginObject => {
            if depth == 0 {
                return Err(ReadFault::Bad(NotJson));
            }
            Ok(Value::Object(kept_members(alloc, reader, depth - 1, known)?))
        }
        _ => emptied_from(alloc, first, reader, depth),
    }
}

/// The value at the front, without what an array or an object holds.
fn emptied_value(
    alloc: Global,
    reader: &mut Reader<'_>,
    depth: usize,
) -> Result<Value, ReadFault<NotJson>>
    ensures ok { IfOk result (λ v. (d : Data) × FrontIs depth reader.old d reader.new
        × (view v ≡ emptied d)) }
    ensures shorter { OnOk result (length reader.new < length reader.old) }
    ensures err { OnBad result (NoFront depth reader.old) }
{
    match reader.next() {
        Some(first) => emptied_from(alloc, first, reader, depth),
        None => Err(ReadFault::Bad(NotJson)),
    }
}

/// The value of which the first token is taken, without what an array or an object holds.
pub fn emptied_from(
    alloc: Global,
    first: Token<'_>,
    reader: &mut Reader<'_>,
    depth: usize,
) -> Result<Value, ReadFault<NotJson>>
    ensures ok { IfOk result (λ v. (d : Data) × FrontIs depth (token_of first.entry ∷ reader.old) d reader.new
        × (view v ≡ emptied d)) }
    ensures shorter { OnOk result (length reader.new ≤ length reader.old) }
    ensures err { OnBad result (NoFront depth (token_of first.entry ∷ reader.old)) }
{
    match first {
        Token::String(text) => Ok(Value::String(String::from_str(alloc, text)?)),
        Token::Number(text) => match number_of(text) {
            Some(number) => Ok(Value::Number(number)),
            None => Err(ReadFault::Bad(NotJson)),
        },
        Token::Bool(bit) => Ok(Value::Bool(bit)),
        Token::Null => Ok(Value::Null),
        Token::EndObject | Token::EndArray | Token::Key(_) | Token::Bad => {
            Err(ReadFault::Bad(NotJson))
        }
        Token::BeginArray => {
            if depth == 0 {
                return Err(ReadFault::Bad(NotJson));
            }
            pass_items(reader, depth - 1)?;
            Ok(Value::Array(Vec::new(alloc)))
        }
        Token::BeginObject => {
            if depth == 0 {
                return Err(ReadFault::Bad(NotJson));
            }
            pass_members(reader, depth - 1)?;
            Ok(Value::Object(Map::new(alloc)))
        }
    }
}

/// The known members of an object, behind its opening brace. The closing one is taken.
fn kept_members(
    alloc: Global,
    reader: &mut Reader<'_>,
    depth: usize,
    known: &[&str],
) -> Result<Map<String, Value>, ReadFault<NotJson>>
    ensures ok { IfOk result (λ found. (ms : Members) × MembersAre depth reader.old ms reader.new
        × (members_view found.entries ≡ kept_members (map (λ key. key.now) known.now) ms)) }
    ensures shorter { OnOk result (length reader.new < length reader.old) }
    ensures err { OnBad result (NoMembers depth reader.old) }
{
    let mut found = Map::new(alloc);
    'members: while let Some(name) = reader.next_key()? {
        keep_member(alloc, reader, depth, known, name, &mut found)?;
    }
    Ok(found)
}

/// Reads the member of which the key is taken, and keeps it where its name is known.
fn keep_member(
    alloc: Global,
    reader: &mut Reader<'_>,
    depth: usize,
    known: &[&str],
    name: &str,
    found: &mut Map<String, Value>,
) -> Result<(), ReadFault<NotJson>>
    ensures ok { OnOk result ((d : Data) × FrontIs depth reader.old d reader.new
        × (members_view found.new.entries
        ≡ put_kept (map (λ key. key.now) known.now) name.now d (members_view found.old.entries))) }
    ensures shorter { OnOk result (length reader.new < length reader.old) }
    ensures err { OnBad result (NoFront depth reader.old) }
{
    if !is_known(name, known) {
        pass_value(reader, depth)?;
        return Ok(());
    }
    let key = String::from_str(alloc, name)?;
    let member = emptied_value(alloc, reader, depth)?;
    match found.insert(key, member) {
        Ok(_) => Ok(()),
        Err(_) => Err(ReadFault::NoMemory),
    }
}
