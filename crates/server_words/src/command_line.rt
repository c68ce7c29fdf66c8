//! Reading the words of the command line.
ghost use Rattle.std.specs.Prelude.{◌≡◌, IfOk, IfSome};
ghost use Rattle.std.specs.Bool.{OnTrue};
ghost use Rattle.std.specs.List.{list_any};
ghost use Rattle.std.specs.Str.{bytes_eq};
ghost use Rattle.server_words.specs.CommandLine.{AreLibraries, IsNameSize, NamesFit, command_of, create_command, ids_of, inetd_command, is_control, is_distinct, is_line_of_libraries, is_name, libraries_of, lone_command, long_command, names_memory, location_word, placed_command, secret_of, token_command};

use crate::command::{Command, Location};
use crate::numbered::{make_command, serve_command};
use ids::{Items, LibId, Text};
use json_words::library_id;
use library_state::{MAX_STATE_NAME, Right, Secret};
use std::alloc::{AllocError, Global};

/// The command that the words are, which stand without the program's name.
///
/// | words | |
/// |---|---|
/// | `create FOLDER LIB NAME USER TOKEN` | make a library |
/// | `token FOLDER LIB USER TOKEN RIGHT` | add a token |
/// | `inetd FOLDER LIB [LIB..]` | serve one connection with 1 to 1,000 libraries |
/// | `serve FOLDER PORT WORKERS CONNECTIONS LIB [LIB..]` | serve a port with 1 to 1,000 libraries |
/// | `make FOLDER LIB COUNT NUMBER` | fill a new library |
/// | `--help`, `--version` | alone |
///
/// FOLDER is not empty, and `:memory:` is no folder but the place in memory. LIB is a library id of 36 characters, none of which stands there twice,
/// TOKEN 40 lower-case hexadecimal digits, RIGHT `r`, `rw` or `own`. PORT is 1 to 65,535, WORKERS 1 to 64, CONNECTIONS 1 to
/// 4,294,967,295, COUNT 1 to 10,000 and NUMBER below 2^64, in decimal without leading zeros. A NAME or USER without a byte, with more than
/// 255, or with a control character in it (0 to 31, or 127) is refused. Other words are `Usage`. Our own.
pub fn read_command(alloc: Global, words: &[Text]) -> Result<Command, AllocError>
    ensures value { IfOk result (λ command. command ≡ command_of words.now) }
    ensures bound { IfOk result NamesFit }
{
    match words {
        [word] => Ok(lone_command(word.slice())),
        [word, folder, ..] => { placed_command(alloc, word.slice(), folder.slice(), &words[2..]) }
        _ => Ok(Command::Usage),
    }
}

/// Whether a command of these words keeps its libraries in memory: its second word is `:memory:`. It takes no memory.
///
/// For words that `read_command` reads as a command with a place this is that place
/// (`laws::a_command_is_in_memory_where_its_words_say_so`); of other words it says nothing.
pub fn names_memory(words: &[Text]) -> bool
    ensures value { result ≡ names_memory words.now }
{
    match words {
        [_, folder, ..] => folder.slice() == ":memory:",
        _ => false,
    }
}

/// The command of a word that stands alone.
fn lone_command(word: &str) -> Command
    ensures value { result ≡ lone_command word.now }
{
    if word == "--help" {
        return Command::Help;
    }
    if word == "--version" {
        return Command::Version;
    }
    Command::Usage
}

/// The command of a word and a folder, with words after them.
fn placed_command(
    alloc: Global,
    word: &str,
    folder: &str,
    more: &[Text],
) -> Result<Command, AllocError>
    ensures value { IfOk result (λ command. command ≡ placed_command word.now folder.now more.now) }
    ensures bound { IfOk result NamesFit }
{
    if word == "inetd" {
        return inetd_command(alloc, folder, more);
    }
    if word == "serve" {
        return serve_command(alloc, folder, more);
    }
    match more {
        [lib, count, number] => {
            make_command(
                alloc,
                word,
                folder,
                lib.slice(),
                count.slice(),
                number.slice(),
            )
        }
        [lib, third, fourth, fifth] => long_command(
            alloc,
            word,
            folder,
            lib.slice(),
            third.slice(),
            fourth.slice(),
            fifth.slice(),
        ),
        _ => Ok(Command::Usage),
    }
}

/// The command `inetd` with these words.
fn inetd_command(alloc: Global, folder: &str, words: &[Text]) -> Result<Command, AllocError>
    ensures value { IfOk result (λ command. command ≡ inetd_command folder.now words.now) }
    ensures bound { IfOk result NamesFit }
{
    let libs = match read_libraries(alloc, words)? {
        Some(libs) => libs,
        None => return Ok(Command::Usage),
    };
    match location_word(alloc, folder)? {
        Some(location) => Ok(Command::Inetd { location, libs }),
        None => Ok(Command::Usage),
    }
}

/// The most libraries that one connection serves.
const MOST_LIBRARIES: usize = 1_000;

/// The libraries whose ids these words are: 1 to 1,000, none twice.
pub(crate) fn read_libraries(
    alloc: Global,
    words: &[Text],
) -> Result<Option<Items<LibId>>, AllocError>
    ensures value { IfOk result (λ libs. libs ≡ libraries_of words.now) }
    ensures fits { IfOk result (λ libs. IfSome libs AreLibraries) }
{
    if !is_line_of_libraries(words) {
        return Ok(None);
    }
    library_ids(alloc, words)
}

/// Whether these are 1 to 1,000 words, none of which stands there twice.
fn is_line_of_libraries(words: &[Text]) -> bool
    ensures value { result ≡ is_line_of_libraries words.now }
{
    1 <= words.len() && words.len() <= MOST_LIBRARIES && is_distinct(words)
}

/// The ids that these words are, where each is one.
fn library_ids(alloc: Global, words: &[Text]) -> Result<Option<Items<LibId>>, AllocError>
    ensures value { IfOk result (λ libs. libs ≡ ids_of words.now) }
{
    let mut ids = Vec::with_capacity(alloc, words.len())?;
    for word in words {
        match library_id(word.slice()) {
            Some(id) => ids.push_reserved(id),
            None => return Ok(None),
        }
    }
    Ok(Some(Items::from_vec(ids)))
}

/// Whether no word stands there twice.
fn is_distinct(words: &[Text]) -> bool
    ensures value { result ≡ is_distinct words.now }
{
    for at in 0..words.len() {
        if stands_in(words[at].slice(), &words[at + 1..]) {
            return false;
        }
    }
    true
}

/// Whether a word is one of these.
fn stands_in(word: &str, words: &[Text]) -> bool
    ensures value { result ≡ list_any (bytes_eq word.now) words.now }
{
    words.iter().any(|other| word == other.slice())
}

/// The place that a folder word names, and none where it is empty.
pub(crate) fn location_word(alloc: Global, folder: &str) -> Result<Option<Location>, AllocError>
    ensures value { IfOk result (λ location. location ≡ location_word folder.now) }
{
    if folder.is_empty() {
        return Ok(None);
    }
    if folder == ":memory:" {
        return Ok(Some(Location::Memory));
    }
    Ok(Some(Location::Folder(Text::copy(alloc, folder)?)))
}

/// The command of a word with five words after it.
fn long_command(
    alloc: Global,
    word: &str,
    folder: &str,
    lib: &str,
    third: &str,
    fourth: &str,
    fifth: &str,
) -> Result<Command, AllocError>
    ensures value { IfOk result (λ command. command
        ≡ long_command word.now folder.now lib.now third.now fourth.now fifth.now) }
    ensures bound { IfOk result NamesFit }
{
    if word == "create" {
        return create_command(alloc, folder, lib, third, fourth, fifth);
    }
    if word == "token" {
        return token_command(alloc, folder, lib, third, fourth, fifth);
    }
    Ok(Command::Usage)
}

/// The command `create` with these words.
fn create_command(
    alloc: Global,
    folder: &str,
    lib: &str,
    name: &str,
    user: &str,
    token: &str,
) -> Result<Command, AllocError>
    ensures value { IfOk result (λ command. command ≡ create_command folder.now lib.now name.now user.now token.now) }
    ensures bound { IfOk result NamesFit }
{
    let lib = match library_id(lib) {
        Some(lib) => lib,
        None => return Ok(Command::Usage),
    };
    let secret = match secret_of(token) {
        Some(secret) => secret,
        None => return Ok(Command::Usage),
    };
    let location = match location_word(alloc, folder)? {
        Some(location) => location,
        None => return Ok(Command::Usage),
    };
    if !is_name(name) {
        return Ok(Command::Usage);
    }
    if !is_name(user) {
        return Ok(Command::Usage);
    }
    Ok(Command::Create {
        location,
        lib,
        name: Text::copy(alloc, name)?,
        user: Text::copy(alloc, user)?,
        secret,
    })
}

/// The command `token` with these words.
fn token_command(
    alloc: Global,
    folder: &str,
    lib: &str,
    user: &str,
    token: &str,
    right: &str,
) -> Result<Command, AllocError>
    ensures value { IfOk result (λ command. command ≡ token_command folder.now lib.now user.now token.now right.now) }
    ensures bound { IfOk result NamesFit }
{
    let lib = match library_id(lib) {
        Some(lib) => lib,
        None => return Ok(Command::Usage),
    };
    let secret = match secret_of(token) {
        Some(secret) => secret,
        None => return Ok(Command::Usage),
    };
    let right = match Right::of(right) {
        Some(right) => right,
        None => return Ok(Command::Usage),
    };
    let location = match location_word(alloc, folder)? {
        Some(location) => location,
        None => return Ok(Command::Usage),
    };
    if !is_name(user) {
        return Ok(Command::Usage);
    }
    Ok(Command::Token {
        location,
        lib,
        user: Text::copy(alloc, user)?,
        secret,
        right,
    })
}

/// The secret whose 40 lower-case hexadecimal digits a text is. It takes no memory.
pub fn secret_of(text: &str) -> Option<Secret>
    ensures value { result ≡ secret_of text.now }
{
    match Secret::read(text) {
        Ok(secret) => Some(secret),
        Err(_) => None,
    }
}

/// Whether a text is the name of a library or a user: 1 to 255 bytes, and no control character (0 to 31, or 127).
pub fn is_name(text: &str) -> bool
    ensures value { result ≡ is_name text.now }
    ensures bound { OnTrue result (IsNameSize text.now) }
{
    if text.is_empty() {
        return false;
    }
    if text.len() > MAX_STATE_NAME {
        return false;
    }
    !has_control(text.as_bytes())
}

/// Whether a byte is a control character.
fn has_control(bytes: &[u8]) -> bool
    ensures value { result ≡ list_any is_control bytes.now }
{
    bytes.iter().any(|byte| is_control(*byte))
}

/// Whether it is one of the bytes 0 to 31 or 127.
fn is_control(byte: u8) -> bool
    ensures value { result ≡ is_control byte }
{
    byte < 32 || byte == 127
}
