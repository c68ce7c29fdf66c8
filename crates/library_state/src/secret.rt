//! Secrets, by which a library knows who asks.
ghost use Rattle.std.specs.Prelude.{◌≡◌, ◌↔◌, IsOk, IfOk, IfErr, IsUtf8, Ok};
ghost use Rattle.std.specs.Str.{bytes_eq};
ghost use Rattle.hex.specs.Hex.{decode_of, encode_lower};
ghost use Rattle.ids.specs.Digits.{digits_form};
ghost use Rattle.ids.specs.Form.{IsOf, IsLongestBeginning};

use ids::{BadId, digits_of, read_digits};
use std::fmt;
use std::fmt::{Debug, Formatter, Write};
use std::marker::Model;

/// 20 bytes that their holder shows with each request. Contracts see them as a list.
#[derive(Clone, Copy, PartialEq, Eq)]
pub struct Secret([u8; 20]);

impl Model for Secret {
    ghost use Rattle.std.specs.Prelude.{List, ℕ};

    ghost Value = { List ℕ };

    ghost view = { λ a. a.0 };

    ghost inverse = { λ bytes. record { 0 = bytes } };
}

impl Secret {
    /// The secret with these bytes.
    pub fn from_bytes(bytes: [u8; 20]) -> Secret
        ensures value { result ≡ bytes }
    {
        Secret(bytes)
    }

    /// Reads exactly 40 lower-case hexadecimal digits. It takes no memory.
    pub fn read(text: &str) -> Result<Secret, BadId>
        ensures form { IsOk result ↔ IsOf digits_form text.now }
        ensures value { IfOk result (λ secret. text.now ≡ encode_lower secret) }
        ensures decoded { IfOk result (λ secret. decode_of text.now ≡ Ok secret) }
        ensures bad { IfErr result (λ e. IsLongestBeginning digits_form text.now e.at) }
    {
        match read_digits(text) {
            Ok(bytes) => Ok(Secret(bytes)),
            Err(bad) => Err(bad),
        }
    }

    /// Whether both are the same. It looks at all bytes, wherever the first difference lies.
    pub fn is(&self, other: &Secret) -> bool
        ensures value { result ≡ bytes_eq self.now other.now }
    {
        let mut same = true;
        for place in 0..20 {
            same &= self.0[place] == other.0[place];
        }
        same
    }

    /// The text: 40 lower-case hexadecimal digits. It takes no memory.
    pub fn digits(&self) -> [u8; 40]
        ensures value { result ≡ encode_lower self.now }
        ensures form { IsOf digits_form result }
        ensures decoded { decode_of result ≡ Ok self.now }
        ensures utf8 { IsUtf8 result }
    {
        digits_of(&self.0)
    }
}

/// A secret is never printed: each is shown by the same text.
impl Debug for Secret {
    ghost use Rattle.std.specs.Prelude.{Some};
    ghost use Rattle.library_state.specs.ShownSecret.{shown_secret};

    ghost debug_output = { λ _. Some shown_secret };

    fn fmt<W: Write>(&self, f: &mut Formatter<W>) -> fmt::Result {
        f.write_str("Secret(..)")
    }
}
