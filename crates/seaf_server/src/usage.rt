//! Which word of a command line is wrong, for a line on standard error.
use ids::Text;
use json_words::library_id;
use server_words::{is_name, secret_of};
use std::alloc::{AllocError, Global};
use system_edges::escaped;

/// What is wrong with words that are no command, in words of our own: the first thing that is found. A word that may be a secret isn't
/// told.
pub fn wrong_word(alloc: Global, words: &[Text]) -> Result<String, AllocError> {
    let Some((command, _)) = words.split_first() else {
        return String::from_str(alloc, "no command was given");
    };
    let forms = forms_of(command.slice());
    if forms.is_empty() {
        return wrong_command(alloc, command.slice());
    }
    for (at, form) in forms.chars().enumerate() {
        match words.get(at.saturating_add(1)) {
            Some(word) if is_good(form, word.slice()) => {}
            Some(_) => return format!(in alloc;
                "word {} is no {}",
                at.saturating_add(2),
                wanted(form)
            ),
            None => return format!(in alloc; "{} lacks a {}", command.slice(), wanted(form)),
        }
    }
    wrong_end(alloc, command.slice(), words, forms.len())
}

/// The forms of the words behind a command, a letter of each, and none where it is no command.
fn forms_of(command: &str) -> &'static str {
    match command {
        "create" => "flnnk",
        "token" => "flnkr",
        "inetd" => "fl",
        "serve" => "fpwcl",
        "make" => "flms",
        _ => "",
    }
}

/// What is wrong with a first word that is no command.
fn wrong_command(alloc: Global, word: &str) -> Result<String, AllocError> {
    if word == "--help" || word == "--version" {
        return format!(in alloc; "{word} stands alone");
    }
    let word = escaped(alloc, word)?;
    format!(in alloc; "'{}' is no command", word.as_str())
}

/// Whether a word has a form.
fn is_good(form: char, word: &str) -> bool {
    match form {
        'f' => !word.is_empty(),
        'l' => library_id(word).is_some(),
        'n' => is_name(word),
        'k' => secret_of(word).is_some(),
        'r' => word == "r" || word == "rw" || word == "own",
        'p' => is_number(word, 1, 65_535),
        'w' => is_number(word, 1, 64),
        'c' => is_number(word, 1, 4_294_967_295),
        'm' => is_number(word, 1, 10_000),
        _ => is_number(word, 0, u64::MAX),
    }
}

/// What a form is called.
fn wanted(form: char) -> &'static str {
    match form {
        'f' => "folder",
        'l' => "library, a UUID of 36 lower-case characters",
        'n' => "name of 1 to 255 bytes without control characters",
        'k' => "token of 40 lower-case hexadecimal digits",
        'r' => "right, which is r, rw or own",
        'p' => "port, from 1 to 65535",
        'w' => "number of workers, from 1 to 64",
        'c' => "number of connections, from 1 to 4294967295",
        'm' => "count of files, from 1 to 10000",
        _ => "number below 2^64",
    }
}

/// Whether a word is a number in these bounds, in decimal without leading zeros.
fn is_number(word: &str, least: u64, most: u64) -> bool {
    if word.starts_with('+') || (word.len() > 1 && word.starts_with('0')) {
        return false;
    }
    match word.parse::<u64>() {
        Ok(number) => least <= number && number <= most,
        Err(_) => false,
    }
}

/// What is wrong behind the words that a command has to have.
fn wrong_end(
    alloc: Global,
    command: &str,
    words: &[Text],
    count: usize,
) -> Result<String, AllocError> {
    let least = count.saturating_add(1);
    if command != "inetd" && command != "serve" {
        return format!(in alloc;
            "word {} is too many for {command}",
            least.saturating_add(1)
        );
    }
    for at in least..words.len() {
        if library_id(words[at].slice()).is_none() {
            return format!(in alloc; "word {} is no {}", at.saturating_add(1), wanted('l'));
        }
    }
    String::from_str(
        alloc,
        "a library stands there twice, or there are over 1000",
    )
}
