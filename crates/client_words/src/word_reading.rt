//! Reading the words of the command line.
ghost use Rattle.std.specs.Prelude.{◌≡◌, ◌↔◌, IfOk, IsTrue, codes, map};
ghost use Rattle.clap.specs.Words.{found_of, rows_of, subcommand_rows_of};
ghost use Rattle.client_words.specs.ProperWords.{HasProperJob};
ghost use Rattle.client_words.specs.WordReading.{command_words, desync_by, download_by, entered_words, is_alone, job_in, matched_words, named_words, start_by, sync_by, unsupported_in, words_of};
ghost use Rattle.clap.specs.Words.{first_of};
ghost use Rattle.client_words.specs.OptionValues.{path_in, turns_in};

use crate::grammar::matches_of;
use crate::job::Job;
use crate::option_values::{job_from, path_in, server_in, turns_in, value_of};
use crate::words::{Unsupported, Words};
use clap::ArgMatches;
use clap::error::ErrorKind;
use ids::Text;
use std::alloc::{AllocError, Global};

/// What the words ask for, which stand without the program's name.
///
/// | words | needs |
/// |---|---|
/// | `init`, `list`, `status` | `-c` |
/// | `download` | `-c -l -s -w -u -k` |
/// | `sync` | `-c -l -s -d -u -k` |
/// | `desync` | `-c -d` |
/// | `start` | `-c -n` |
/// | `--help`, `--version` | alone |
///
/// The command stands first, each option once, with its value. `-c`, `-w` and `-d` are paths that are not empty, `-l` a
/// library id of 36 characters, `-s` is `http://HOST:PORT`, `-u` a name of 1 to 255 bytes without a control character, `-k`
/// 40 lower-case hexadecimal digits, `-n` from 1 to 1,000,000. `-p`, `-T` and `-e`, with a value, are refused by name,
/// before it is looked at whether the command has what it needs. All other words are `Usage`. Our own.
pub fn read_words(alloc: Global, words: &[Text]) -> Result<Words, AllocError>
    ensures value { IfOk result (λ asked. asked ≡ words_of words.now) }
    ensures proper { IfOk result HasProperJob }
{
    if is_alone("--help", words) {
        return Ok(Words::Help);
    }
    if is_alone("--version", words) {
        return Ok(Words::Version);
    }
    let texts = texts_of(alloc, words)?;
    matched_words(alloc, texts.as_slice())
}

/// The words as `clap` takes them.
fn texts_of(alloc: Global, words: &[Text]) -> Result<Vec<&str>, AllocError>
    ensures value { IfOk result (λ texts. map (λ text. text.now) texts.items ≡ words.now) }
{
    let mut texts = Vec::new(alloc);
    for word in words {
        texts.push(word.slice())?;
    }
    Ok(texts)
}

/// Whether the word stands alone.
fn is_alone(wanted: &str, words: &[Text]) -> bool
    ensures value { result ≡ is_alone wanted.now words.now }
{
    match words {
        [word] => word.slice() == wanted,
        _ => false,
    }
}

/// What a line of a command asks for.
fn matched_words(alloc: Global, words: &[&str]) -> Result<Words, AllocError>
    ensures value { IfOk result (λ asked. asked ≡ matched_words (map (λ word. word.now) words.now)) }
{
    match matches_of(alloc, words) {
        Ok(matches) => entered_words(alloc, &matches),
        Err(failed) => {
            if is_memory(failed.kind()) {
                return Err(AllocError);
            }
            Ok(Words::Usage)
        }
    }
}

fn is_memory(kind: ErrorKind) -> bool
    ensures value { IsTrue result ↔ (kind ≡ ErrorKind.OutOfMemory) }
{
    matches!(kind, ErrorKind::OutOfMemory)
}

/// What the command that was entered asks for.
fn entered_words(alloc: Global, matches: &ArgMatches<'_>) -> Result<Words, AllocError>
    ensures value { IfOk result (λ asked. asked ≡ entered_words (subcommand_rows_of matches.now)) }
{
    match matches.subcommand() {
        Some((name, options)) => command_words(alloc, name, options),
        None => Ok(Words::Usage),
    }
}

/// What a command with these options asks for.
fn command_words(alloc: Global, name: &str, options: &ArgMatches<'_>) -> Result<Words, AllocError>
    ensures value { IfOk result (λ asked. asked ≡ command_words name.now (rows_of (found_of options.now))) }
{
    if let Some(option) = unsupported_in(options) {
        return Ok(Words::NotSupported(option));
    }
    match path_in(alloc, value_of(options, "c"))? {
        Some(conf) => named_words(alloc, name, options, conf),
        None => Ok(Words::Usage),
    }
}

/// The first option that is there and refused.
fn unsupported_in(options: &ArgMatches<'_>) -> Option<Unsupported>
    ensures value { result ≡ unsupported_in (rows_of (found_of options.now)) }
{
    if value_of(options, "p").is_some() {
        return Some(Unsupported::Password);
    }
    if value_of(options, "T").is_some() {
        return Some(Unsupported::Token);
    }
    if value_of(options, "e").is_some() {
        return Some(Unsupported::Encryption);
    }
    None
}

/// What the command of this name asks for.
fn named_words(
    alloc: Global,
    name: &str,
    options: &ArgMatches<'_>,
    conf: Text,
) -> Result<Words, AllocError>
    ensures value { IfOk result (λ asked. asked ≡ named_words name.now (rows_of (found_of options.now)) conf) }
{
    if name == "init" {
        return Ok(Words::Init { conf });
    }
    if name == "list" {
        return Ok(Words::List { conf });
    }
    if name == "status" {
        return Ok(Words::Status { conf });
    }
    if name == "download" {
        return download_words(alloc, conf, options);
    }
    if name == "sync" {
        return sync_words(alloc, conf, options);
    }
    if name == "desync" {
        return desync_words(alloc, conf, options);
    }
    if name == "start" {
        return Ok(start_words(conf, options));
    }
    Ok(Words::Usage)
}

fn download_words(alloc: Global, conf: Text, options: &ArgMatches<'_>) -> Result<Words, AllocError>
    ensures value { IfOk result (λ asked. asked ≡ download_by conf (job_in (codes "w") (rows_of (found_of options.now)))) }
{
    match job_in(alloc, options, "w")? {
        Some(job) => Ok(Words::Download { conf, job }),
        None => Ok(Words::Usage),
    }
}

fn sync_words(alloc: Global, conf: Text, options: &ArgMatches<'_>) -> Result<Words, AllocError>
    ensures value { IfOk result (λ asked. asked ≡ sync_by conf (job_in (codes "d") (rows_of (found_of options.now)))) }
{
    match job_in(alloc, options, "d")? {
        Some(job) => Ok(Words::Sync { conf, job }),
        None => Ok(Words::Usage),
    }
}

fn desync_words(alloc: Global, conf: Text, options: &ArgMatches<'_>) -> Result<Words, AllocError>
    ensures value { IfOk result (λ asked. asked ≡ desync_by conf (path_in (first_of (codes "d") (rows_of (found_of options.now))))) }
{
    match path_in(alloc, value_of(options, "d"))? {
        Some(dir) => Ok(Words::Desync { conf, dir }),
        None => Ok(Words::Usage),
    }
}

fn start_words(conf: Text, options: &ArgMatches<'_>) -> Words
    ensures value { result ≡ start_by conf (turns_in (first_of (codes "n") (rows_of (found_of options.now)))) }
{
    match turns_in(value_of(options, "n")) {
        Some(turns) => Words::Start { conf, turns },
        None => Words::Usage,
    }
}

/// The job that the options say, its folder by the option of this letter.
fn job_in(alloc: Global, options: &ArgMatches<'_>, letter: &str) -> Result<Option<Job>, AllocError>
    ensures value { IfOk result (λ job. job ≡ job_in letter.now (rows_of (found_of options.now))) }
{
    let server = server_in(alloc, value_of(options, "s"))?;
    job_from(
        alloc,
        server,
        value_of(options, "l"),
        value_of(options, "k"),
        value_of(options, letter),
        value_of(options, "u"),
    )
}
