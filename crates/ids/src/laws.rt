//! What holds of reading and writing together, for all ids: theorems on the definitions, with no code.
ghost use Rattle.std.specs.Prelude.{◌≡◌, ℕ, ◌<◌, All, List, length, Ok, Some};
ghost use Rattle.hex.specs.Hex.{decode_of, encode_lower};
ghost use Rattle.uuid.specs.Text.{hyphenated_text, lower, parsed};
ghost use Rattle.ids.specs.Digits.{digits_form};
ghost use Rattle.ids.specs.Form.{IsOf};
ghost use Rattle.ids.specs.LibraryId.{library_form};

/// An object id, or a secret, reads back from its own digits.
pub fn twenty_bytes_read_back_from_their_digits()
    ensures form { (bytes : List ℕ) → length bytes ≡ 20 → All (λ byte. byte < 256) bytes
        → IsOf digits_form (encode_lower bytes) }
    ensures value { (bytes : List ℕ) → length bytes ≡ 20 → All (λ byte. byte < 256) bytes
        → decode_of (encode_lower bytes) ≡ Ok bytes }
{}

/// A library id reads back from its own text.
pub fn sixteen_bytes_read_back_from_their_hyphenated_text()
    ensures form { (bytes : List ℕ) → IsOf library_form (hyphenated_text lower bytes) }
    ensures value { (bytes : List ℕ) → length bytes ≡ 16 → All (λ byte. byte < 256) bytes
        → Some bytes ≡ parsed (hyphenated_text lower bytes) }
{}
