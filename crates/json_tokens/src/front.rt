//! Passing over the value at the front of a JSON text: it is read, and nothing of it is held.
ghost use Rattle.std.specs.Prelude.{◌∷◌, ◌<◌, ◌≤◌, length, OnOk, OnErr};
ghost use Rattle.json.specs.Reads.{token_of};
ghost use Rattle.serde_json.specs.Data.{Data, Items, Members};
ghost use Rattle.json_tokens.specs.Front.{FrontIs, NoFront, ItemsAre, NoItems, MembersAre, NoMembers};

use crate::number::number_of;
use json::{Reader, Token};
use json_words::NotJson;

/// Passes over the value at the front, of at most `depth` levels of arrays and objects. It takes no memory.
///
/// After `NotJson` the reader stands anywhere, and what it has left means nothing.
#[cycle(pass)]
pub fn pass_value(reader: &mut Reader<'_>, depth: usize) -> Result<(), NotJson>
    ensures ok { OnOk result ((d : Data) × FrontIs depth reader.old d reader.new) }
    ensures shorter { OnOk result (length reader.new < length reader.old) }
    ensures err { OnErr result (NoFront depth reader.old) }
{
    match reader.next() {
        Some(first) => pass_from(first, reader, depth),
        None => Err(NotJson),
    }
}

/// The same where the first token is taken.
#[cycle(pass)]
pub fn pass_from(first: Token<'_>, reader: &mut Reader<'_>, depth: usize) -> Result<(), NotJson>
    ensures ok { OnOk result ((d : Data) × FrontIs depth (token_of first.entry ∷ reader.old) d reader.new) }
    ensures shorter { OnOk result (length reader.new ≤ length reader.old) }
    ensures err { OnErr result (NoFront depth (token_of first.entry ∷ reader.old)) }
{
    match first {
        Token::String(_) | Token::Bool(_) | Token::Null => Ok(()),
        Token::Number(text) => match number_of(text) {
            Some(_) => Ok(()),
            None => Err(NotJson),
        },
        Token::EndObject | Token::EndArray | Token::Key(_) | Token::Bad => Err(NotJson),
        Token::BeginArray => if depth == 0 {
            Err(NotJson)
        } else {
            pass_items(reader, depth - 1)
        },
        Token::BeginObject => if depth == 0 {
            Err(NotJson)
        } else {
            pass_members(reader, depth - 1)
        },
    }
}

/// Passes over the items of an array, behind its opening bracket, and its closing one.
#[cycle(pass)]
pub fn pass_items(reader: &mut Reader<'_>, depth: usize) -> Result<(), NotJson>
    ensures ok { OnOk result ((ds : Items) × ItemsAre depth reader.old ds reader.new) }
    ensures shorter { OnOk result (length reader.new < length reader.old) }
    ensures err { OnErr result (NoItems depth reader.old) }
{
    'items: while !reader.take_end_array() {
        pass_value(reader, depth)?;
    }
    Ok(())
}

/// Passes over the members of an object, behind its opening brace, and its closing one.
#[cycle(pass)]
pub fn pass_members(reader: &mut Reader<'_>, depth: usize) -> Result<(), NotJson>
    ensures ok { OnOk result ((ms : Members) × MembersAre depth reader.old ms reader.new) }
    ensures shorter { OnOk result (length reader.new < length reader.old) }
    ensures err { OnErr result (NoMembers depth reader.old) }
{
    'members: while let Some(_) = reader.next_key()? {
        pass_value(reader, depth)?;
    }
    Ok(())
}
