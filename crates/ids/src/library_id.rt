//! Library ids: a UUID (RFC 9562), written in the lower-case hyphenated form of 36 characters.
ghost use Rattle.std.specs.Prelude.{◌≡◌, ◌↔◌, ◌<◌, All, IsOk, IfOk, IfErr, IsUtf8, Some, length};
ghost use Rattle.uuid.specs.Text.{hyphenated_text, lower, parsed};
ghost use Rattle.ids.specs.Form.{IsOf, IsLongestBeginning};
ghost use Rattle.ids.specs.LibraryId.{library_form};

use crate::digits::{BadId, bytes_told, is_lower_digit};
use std::marker::Model;
use uuid::Uuid;

/// The name of a library: 16 bytes, ordered by them. Contracts see it as the list of its bytes.
#[derive(Clone, Copy, Debug, PartialEq, Eq, PartialOrd, Ord, Hash)]
pub struct LibId(Uuid);

const CHARACTERS: usize = 36;

impl Model for LibId {
    ghost use Rattle.std.specs.Prelude.{List, ℕ};

    ghost Value = { List ℕ };

    ghost view = { λ a. a.0 };

    ghost inverse = { λ bytes. record { 0 = bytes } };
}

impl LibId {
    /// Reads exactly the lower-case hyphenated form of 36 characters. It takes no memory.
    pub fn read(text: &str) -> Result<LibId, BadId>
        ensures form { IsOk result ↔ IsOf library_form text.now }
        ensures value { IfOk result (λ id. text.now ≡ hyphenated_text lower id) }
        ensures decoded { IfOk result (λ id. Some id ≡ parsed text.now) }
        ensures bad { IfErr result (λ e. IsLongestBeginning library_form text.now e.at) }
    {
        let at = library_beginning(text.as_bytes());
        if at < CHARACTERS || text.len() > CHARACTERS {
            return Err(BadId { at });
        }
        match Uuid::parse_str(text) {
            Ok(uuid) => Ok(LibId(uuid)),
            Err(_) => unreachable!(),
        }
    }

    /// The library id with these bytes.
    pub fn from_bytes(bytes: [u8; 16]) -> LibId
        ensures value { result ≡ bytes }
    {
        LibId(Uuid::from_bytes(bytes))
    }

    /// The bytes.
    pub fn as_bytes(&self) -> &[u8]
        ensures value { result.now ≡ self.now }
        ensures size { length self.now ≡ 16 }
        ensures bytes { All (λ byte. byte < 256) self.now }
    {
        bytes_told(self.0.as_bytes())
    }

    /// The text: 32 lower-case hexadecimal digits in five groups, with hyphens between them. It takes no memory.
    pub fn digits(&self) -> [u8; 36]
        ensures value { result ≡ hyphenated_text lower self.now }
        ensures form { IsOf library_form result }
        ensures decoded { Some self.now ≡ parsed result }
        ensures utf8 { IsUtf8 result }
    {
        let mut room = [0; CHARACTERS];
        let text = self.0.hyphenated().encode_lower(&mut room);
        let mut digits = [0; CHARACTERS];
        digits.copy_from_slice(text.as_bytes());
        digits
    }
}

/// The length of the longest prefix that begins some text of a library id.
fn library_beginning(text: &[u8]) -> usize
    ensures value { IsLongestBeginning library_form text.now result }
{
    for (place, byte) in text.iter().enumerate() {
        if place == CHARACTERS {
            return place;
        }
        if !is_allowed(place, *byte) {
            return place;
        }
    }
    text.len()
}

/// Whether the character may stand at that place.
fn is_allowed(place: usize, byte: u8) -> bool
    ensures value { result ≡ library_form.allows place byte }
{
    if matches!(place, 8 | 13 | 18 | 23) {
        byte == b'-'
    } else {
        is_lower_digit(byte)
    }
}
