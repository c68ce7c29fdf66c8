//! Which word of a command line is wrong, for lines on standard error.
use client_words::{MAX_TURNS, number_up_to, server_of};
use ids::Text;
use json_words::library_id;
use server_words::{is_name, secret_of};
use std::alloc::{AllocError, Global};
use system_edges::escaped;

/// What is wrong with words that are no command, in words of our own: the first thing that is found. A value isn't told, since it may be a
/// secret.
pub fn wrong_word(alloc: Global, words: &[Text]) -> Result<String, AllocError> {
    let Some((command, options)) = words.split_first() else {
        return String::from_str(alloc, "no command was given");
    };
    let command = command.slice();
    let letters = letters_of(command);
    if letters.is_empty() {
        return wrong_command(alloc, command);
    }
    match wrong_option(alloc, command, letters, options)? {
        Some(wrong) => Ok(wrong),
        None => String::from_str(alloc, "these words are no command"),
    }
}

/// The letters of the options that a command needs, and none where it is no command.
fn letters_of(command: &str) -> &'static str {
    match command {
        "init" => "c",
        "list" => "c",
        "status" => "c",
        "download" => "clswuk",
        "sync" => "clsduk",
        "desync" => "cd",
        "start" => "cn",
        _ => "",
    }
}

/// What is wrong with a first word that is no command.
fn wrong_command(alloc: Global, word: &str) -> Result<String, AllocError> {
    if word == "--help" || word == "--version" {
        return format!(in alloc; "{word} stands alone");
    }
    let word = escaped(alloc, word)?;
    format!(in alloc; "'{}' is no command", word.as_str())
}

/// What is wrong with the options of a command: one of them, or that one is missing.
fn wrong_option(
    alloc: Global,
    command: &str,
    letters: &str,
    words: &[Text],
) -> Result<Option<String>, AllocError> {
    let mut seen = String::new(alloc);
    let mut waiting = None;
    for (at, word) in words.iter().enumerate() {
        let wrong = match waiting {
            Some(letter) => {
                waiting = None;
                wrong_value(alloc, letter, word.slice())?
            }
            None => wrong_start(
                alloc,
                command,
                letters,
                at,
                word.slice(),
                &mut seen,
                &mut waiting,
            )?,
        };
        if wrong.is_some() {
            return Ok(wrong);
        }
    }
    match waiting {
        Some(letter) => Ok(Some(format!(in alloc; "-{letter} has no value")?)),
        None => missing_option(alloc, command, letters, seen.as_str()),
    }
}

/// What is wrong with the word of an option, which stands at this place behind the command. One without a value in the same word waits for it.
fn wrong_start(
    alloc: Global,
    command: &str,
    letters: &str,
    at: usize,
    word: &str,
    seen: &mut String,
    waiting: &mut Option<char>,
) -> Result<Option<String>, AllocError> {
    let Some((letter, attached)) = option_in(word) else {
        return Ok(Some(format!(in alloc; "word {} is no option", at.saturating_add(2))?));
    };
    if !letters.contains(letter) {
        return Ok(Some(format!(in alloc; "{command} has no option -{}", shown(letter))?));
    }
    if seen.as_str().contains(letter) {
        return Ok(Some(format!(in alloc; "-{letter} stands there twice")?));
    }
    seen.push(letter)?;
    if attached.is_empty() {
        *waiting = Some(letter);
        return Ok(None);
    }
    match attached.strip_prefix('=') {
        Some(value) => wrong_text(alloc, letter, value),
        None => wrong_text(alloc, letter, attached),
    }
}

/// The letter of an option, and what stands behind it in the same word.
fn option_in(word: &str) -> Option<(char, &str)> {
    match word.strip_prefix('-') {
        Some(rest) => match rest.chars().next() {
            Some(letter) => match rest.strip_prefix(letter) {
                Some(attached) => Some((letter, attached)),
                None => None,
            },
            None => None,
        },
        None => None,
    }
}

/// A letter as it may be shown.
fn shown(letter: char) -> char {
    if letter.is_control() { '?' } else { letter }
}

/// What is wrong with the word behind an option, which is to be its value.
fn wrong_value(alloc: Global, letter: char, word: &str) -> Result<Option<String>, AllocError> {
    if word.starts_with('-') {
        return Ok(Some(format!(in alloc; "-{letter} has no value")?));
    }
    wrong_text(alloc, letter, word)
}

/// What is wrong with the value of an option.
fn wrong_text(alloc: Global, letter: char, value: &str) -> Result<Option<String>, AllocError> {
    if is_good(alloc, letter, value)? {
        return Ok(None);
    }
    Ok(Some(format!(in alloc; "-{letter} takes {}", wanted(letter))?))
}

/// Whether an option may have this value.
fn is_good(alloc: Global, letter: char, value: &str) -> Result<bool, AllocError> {
    Ok(match letter {
        'l' => library_id(value).is_some(),
        's' => server_of(alloc, value)?.is_some(),
        'u' => is_name(value),
        'k' => secret_of(value).is_some(),
        'n' => number_up_to(value, MAX_TURNS).is_some(),
        _ => !value.is_empty(),
    })
}

/// What an option takes.
fn wanted(letter: char) -> &'static str {
    match letter {
        'l' => "a library's UUID, of 36 lower-case characters",
        's' => "http://HOST:PORT",
        'u' => "a user's name of 1 to 255 bytes without control characters",
        'k' => "a token of 40 lower-case hexadecimal digits",
        'n' => "a number from 1 to 1000000, without leading zeros",
        _ => "a path that isn't empty",
    }
}

/// The first option of a command that isn't there.
fn missing_option(
    alloc: Global,
    command: &str,
    letters: &str,
    seen: &str,
) -> Result<Option<String>, AllocError> {
    for letter in letters.chars() {
        if !seen.contains(letter) {
            return Ok(Some(format!(in alloc; "{command} lacks -{letter}")?));
        }
    }
    Ok(None)
}
