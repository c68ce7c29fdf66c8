//! Numbers in words.
ghost use Rattle.std.specs.Prelude.{◌≡◌, ◌≤◌, IfSome};
ghost use Rattle.server_words.specs.Number.{number_of, number_within};

use itoa::Buffer;

/// The number below 2^64 whose decimal digits a text is, without leading zeros. It takes no memory.
fn number_of(text: &str) -> Option<u64>
    ensures value { result ≡ number_of text.now }
{
    let number = match text.parse::<u64>() {
        Ok(number) => number,
        Err(_) => return None,
    };
    let mut digits = Buffer::new();
    if digits.format(number) != text {
        return None;
    }
    Some(number)
}

/// The number from `least` to `most` that a text is, in decimal without leading zeros. It takes no memory.
pub(crate) fn number_within(text: &str, least: u64, most: u64) -> Option<u64>
    ensures value { result ≡ number_within least most text.now }
    ensures bound { IfSome result (λ number. (least ≤ number) × (number ≤ most)) }
{
    match number_of(text) {
        Some(number) => if least <= number && number <= most {
            Some(number)
        } else {
            None
        },
        None => None,
    }
}
