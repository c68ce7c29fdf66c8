//! The words that a program is given.
use ids::{Items, Text};
use std::alloc::{AllocError, Global};
use std::env;
use std::io::ErrorKind;
use std::rt::Env;

/// The words after the program's name. Words that aren't all UTF-8 are told as no word; no clause says more of what the system
/// gave.
pub fn words_of<R: Env + AllocGlobal>(rt: &R, alloc: Global) -> Result<Items<Text>, AllocError> {
    let mut words = Items::new(alloc);
    let given = match env::args(rt) {
        Ok(given) => given,
        Err(fault) => {
            return if fault.kind() == ErrorKind::OutOfMemory {
                Err(AllocError)
            } else {
                Ok(words)
            };
        }
    };
    for word in given.skip(1) {
        words.push(Text::from_string(word))?;
    }
    Ok(words)
}
