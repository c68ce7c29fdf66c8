//! Object ids: the SHA-1 of an object's bytes (FIPS 180-4), written as 40 lower-case hexadecimal digits.
ghost use Rattle.std.specs.Prelude.{◌≡◌, ◌↔◌, ◌<◌, All, IsOk, IfOk, IfErr, IsTrue, IsUtf8, Ok, length};
ghost use Rattle.std.proofs.Common.{rules};
ghost use Rattle.std.specs.Cmp.Rules.{comparing};
ghost use Rattle.hex.specs.Hex.{decode_of, encode_lower};
ghost use Rattle.sha1.specs.Sha1.{sha1};
ghost use Rattle.ids.specs.Digits.{digits_form};
ghost use Rattle.ids.specs.Form.{IsOf, IsLongestBeginning};
ghost use Rattle.ids.specs.ObjectId.{nil};

use crate::digits::{BadId, bytes_told, digits_of, read_digits};
use sha1::Sha1;
use std::cmp::Ordering;
use std::marker::Model;

/// The name of an object: 20 bytes, ordered by them. Contracts see it as the list of its bytes.
#[derive(Clone, Copy, Debug, PartialEq, Eq, Hash)]
pub struct ObjId([u8; 20]);

impl Model for ObjId {
    ghost use Rattle.std.specs.Prelude.{List, ℕ};

    ghost Value = { List ℕ };

    ghost view = { λ a. a.0 };

    ghost inverse = { λ bytes. record { 0 = bytes } };
}

impl PartialOrd for ObjId {
    ghost use Rattle.std.specs.Ordering.{nat_cmp, as_partial_cmp};
    ghost use Rattle.std.specs.Cmp.Lexicographic.{slice_cmp};
    ghost use Rattle.std.specs.Cmp.{partial_order_from_own_ties};

    ghost partial_cmp = { as_partial_cmp (slice_cmp nat_cmp) };

    ghost laws = { partial_order_from_own_ties (Prim.search (comparing, rules)) (Prim.search (comparing, rules)) };

    fn partial_cmp(&self, other: &ObjId) -> Option<Ordering> {
        Some(self.cmp(other))
    }
}

impl Ord for ObjId {
    ghost use Rattle.std.specs.Cmp.Lexicographic.{lists_agrees, lists_ties, nat_list_cmp_total};
    ghost use Rattle.std.specs.Ordering.{nat_cmp};
    ghost use Rattle.ids.specs.ObjectId.{id_cmp};

    ghost cmp = { id_cmp };

    ghost total = { nat_list_cmp_total };

    ghost matches_partial_cmp = { Prim.search (comparing, rules) };

    ghost matches_eq = { Prim.search (comparing, rules) };

    fn cmp(&self, other: &ObjId) -> Ordering {
        let (first, others) = (self.0[0], other.0[0]);
        if first != others {
            return first.cmp(&others);
        }
        self.0.cmp(&other.0)
    }
}

impl ObjId {
    /// Twenty zeros, which name nothing: the root of an empty library.
    pub const NIL: ObjId = ObjId([0; 20]);

    /// The id of an object: the SHA-1 of its bytes.
    pub fn of(bytes: &[u8]) -> ObjId
        ensures value { result ≡ sha1 bytes.now }
    {
        ObjId(Sha1::digest(bytes))
    }

    /// The id with these bytes.
    pub fn from_bytes(bytes: [u8; 20]) -> ObjId
        ensures value { result ≡ bytes }
    {
        ObjId(bytes)
    }

    /// The bytes.
    pub fn as_bytes(&self) -> &[u8]
        ensures value { result.now ≡ self.now }
        ensures size { length self.now ≡ 20 }
        ensures bytes { All (λ byte. byte < 256) self.now }
    {
        bytes_told(&self.0)
    }

    /// Whether it is `NIL`.
    pub fn is_nil(&self) -> bool
        ensures value { IsTrue result ↔ (self.now ≡ nil) }
    {
        *self == ObjId::NIL
    }

    /// Reads exactly 40 lower-case hexadecimal digits. It takes no memory.
    pub fn read(text: &str) -> Result<ObjId, BadId>
        ensures form { IsOk result ↔ IsOf digits_form text.now }
        ensures value { IfOk result (λ id. text.now ≡ encode_lower id) }
        ensures decoded { IfOk result (λ id. decode_of text.now ≡ Ok id) }
        ensures bad { IfErr result (λ e. IsLongestBeginning digits_form text.now e.at) }
    {
        match read_digits(text) {
            Ok(bytes) => Ok(ObjId(bytes)),
            Err(bad) => Err(bad),
        }
    }

    /// The text: 40 lower-case hexadecimal digits. It takes no memory.
    pub fn digits(&self) -> [u8; 40]
        ensures value { result ≡ encode_lower self.now }
        ensures form { IsOf digits_form result }
        ensures decoded { decode_of result ≡ Ok self.now }
        ensures utf8 { IsUtf8 result }
    {
        digits_of(&self.0)
    }
}
