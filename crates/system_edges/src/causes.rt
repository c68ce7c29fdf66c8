//! Lines that tell who runs a program why a call of the system failed.
use std::alloc::{AllocError, Global};
use std::io;

/// What stands in the system's own text between its words and their number.
const NUMBER: &str = " (os error ";

/// The line `PROGRAM: WHOSE: DEED PLACE: WORDS`, with its line feed: whose call failed, what it did, at which place, and the words of the
/// failure. Without a place the deed stands alone. Control characters of `whose` and `place` are escaped.
pub fn cause_line(
    alloc: Global,
    program: &str,
    whose: &str,
    deed: &str,
    place: &str,
    failure: &io::Error,
) -> Result<String, AllocError> {
    let whose = escaped(alloc, whose)?;
    let place = escaped(alloc, place)?;
    let gap = if place.is_empty() { "" } else { " " };
    let words = failure_words(alloc, failure)?;
    format!(in alloc;
        "{program}: {}: {deed}{gap}{}: {}\n",
        whose.as_str(),
        place.as_str(),
        words.as_str()
    )
}

/// A text whose control characters are spelled as `\x` with their number in two hexadecimal digits, and whose backslashes are doubled.
pub fn escaped(alloc: Global, text: &str) -> Result<String, AllocError> {
    let mut spelled = String::new(alloc);
    for letter in text.chars() {
        if letter.is_control() {
            let code = format!(in alloc; "\\x{:02x}", letter as u32)?;
            spelled.push_str(code.as_str())?;
        } else if letter == '\\' {
            spelled.push_str("\\\\")?;
        } else {
            spelled.push(letter)?;
        }
    }
    Ok(spelled)
}

/// The words of a failure, without the number that the system gives it.
pub fn failure_words(alloc: Global, failure: &io::Error) -> Result<String, AllocError> {
    let told = format!(in alloc; "{failure}")?;
    match told.as_str().split_once(NUMBER) {
        Some((words, _number)) => String::from_str(alloc, words),
        None => String::from_str(alloc, told.as_str()),
    }
}
