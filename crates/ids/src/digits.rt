//! Reading and writing 20 bytes as 40 lower-case hexadecimal digits.
ghost use Rattle.std.specs.Prelude.{◌≡◌, ◌↔◌, ◌<◌, All, IsOk, IfOk, IfErr, IsUtf8, Ok, length};
ghost use Rattle.hex.specs.Hex.{decode_of, encode_lower};
ghost use Rattle.ids.specs.Digits.{digits_form, is_lower_digit};
ghost use Rattle.ids.specs.Form.{IsOf, IsLongestBeginning};

/// A text that is no id.
#[derive(Clone, Copy, Debug, PartialEq, Eq)]
pub struct BadId {
    /// How many bytes at the front could still have become an id; the next byte, or the end, rules it out.
    pub at: usize,
}

const DIGITS: usize = 40;

/// The 20 bytes that a text of exactly 40 lower-case hexadecimal digits stands for.
pub fn read_digits(text: &str) -> Result<[u8; 20], BadId>
    ensures form { IsOk result ↔ IsOf digits_form text.now }
    ensures value { IfOk result (λ bytes. text.now ≡ encode_lower bytes) }
    ensures decoded { IfOk result (λ bytes. decode_of text.now ≡ Ok bytes) }
    ensures bad { IfErr result (λ e. IsLongestBeginning digits_form text.now e.at) }
{
    let text = text.as_bytes();
    let at = digits_beginning(text);
    if at < DIGITS || text.len() > DIGITS {
        return Err(BadId { at });
    }
    let mut bytes = [0; 20];
    hex::decode_to_slice(text, &mut bytes).unwrap();
    Ok(bytes)
}

/// The 40 lower-case hexadecimal digits of 20 bytes.
pub fn digits_of(bytes: &[u8; 20]) -> [u8; 40]
    ensures value { result ≡ encode_lower bytes.now }
    ensures form { IsOf digits_form result }
    ensures decoded { decode_of result ≡ Ok bytes.now }
    ensures utf8 { IsUtf8 result }
{
    let mut digits = [0; DIGITS];
    hex::encode_to_slice(bytes_told(bytes), &mut digits).unwrap();
    digits
}

/// The same bytes. A slice tells that its items are bytes, which an array doesn't.
pub fn bytes_told(bytes: &[u8]) -> &[u8]
    ensures value { result.now ≡ bytes.now }
    ensures bytes { All (λ byte. byte < 256) bytes.now }
{
    bytes
}

/// The length of the longest prefix that begins some 40 digits.
fn digits_beginning(text: &[u8]) -> usize
    ensures value { IsLongestBeginning digits_form text.now result }
{
    for (place, byte) in text.iter().enumerate() {
        if place == DIGITS {
            return place;
        }
        if !is_lower_digit(*byte) {
            return place;
        }
    }
    text.len()
}

/// Whether it is `0` to `9` or `a` to `f`.
pub fn is_lower_digit(byte: u8) -> bool
    ensures value { result ≡ is_lower_digit byte }
{
    matches!(byte, b'0'..=b'9' | b'a'..=b'f')
}
