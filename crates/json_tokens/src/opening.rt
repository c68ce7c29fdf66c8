//! What the first token of a value opens.
ghost use Rattle.std.specs.Prelude.{◌≡◌, ◌∷◌, false, None, List, ℕ};
ghost use Rattle.std.specs.Bool.{MatchBool};
ghost use Rattle.json.specs.Reads.{token_of};
ghost use Rattle.json.specs.Token.{Token as SpecToken, begin_array, begin_object};
ghost use Rattle.serde_json.specs.Data.{Data};
ghost use Rattle.serde_json.specs.Find.{as_array};
ghost use Rattle.json_words.specs.Fields.{is_object};
ghost use Rattle.json_tokens.specs.Front.{FrontIs};
ghost use Rattle.json_tokens.specs.Opening.{is_begin_array, is_begin_object};

use json::{Reader, Token};

/// Takes the first token, and tells whether it opens an object. Where it doesn't, no object stands there.
pub fn opens_object(reader: &mut Reader<'_>) -> bool
    ensures value { MatchBool result (reader.old ≡ begin_object ∷ reader.new)
        ((depth : ℕ) → (d : Data) → (rest : List SpecToken) → FrontIs depth reader.old d rest → is_object d ≡ false) }
{
    match reader.next() {
        Some(token) => is_brace(token),
        None => false,
    }
}

/// Takes the first token, and tells whether it opens an array. Where it doesn't, no array stands there.
pub fn opens_array(reader: &mut Reader<'_>) -> bool
    ensures value { MatchBool result (reader.old ≡ begin_array ∷ reader.new)
        ((depth : ℕ) → (d : Data) → (rest : List SpecToken) → FrontIs depth reader.old d rest → as_array d ≡ None) }
{
    match reader.next() {
        Some(token) => is_bracket(token),
        None => false,
    }
}

/// Whether a token opens an object.
pub fn is_brace(token: Token<'_>) -> bool
    ensures value { result ≡ is_begin_object (token_of token.entry) }
{
    matches!(token, Token::BeginObject)
}

/// Whether a token opens an array.
pub fn is_bracket(token: Token<'_>) -> bool
    ensures value { result ≡ is_begin_array (token_of token.entry) }
{
    matches!(token, Token::BeginArray)
}
