//! The commands that have numbers among their words.
ghost use Rattle.std.specs.Prelude.{◌≡◌, ◌≤◌, IfOk, IfSome};
ghost use Rattle.server_words.specs.CommandLine.{NamesFit, make_command, serve_command, served_command};

use crate::command::Command;
use crate::command_line::{location_word, read_libraries};
use crate::number::number_within;
use ids::Text;
use json_words::library_id;
use std::alloc::{AllocError, Global};

/// The command `serve` with these words.
pub(crate) fn serve_command(
    alloc: Global,
    folder: &str,
    words: &[Text],
) -> Result<Command, AllocError>
    ensures value { IfOk result (λ command. command ≡ serve_command folder.now words.now) }
    ensures bound { IfOk result NamesFit }
{
    match words {
        [port, workers, connections, ..] => served_command(
            alloc,
            folder,
            number_within(port.slice(), 1, 65_535),
            number_within(workers.slice(), 1, 64),
            number_within(connections.slice(), 1, 4_294_967_295),
            &words[3..],
        ),
        _ => Ok(Command::Usage),
    }
}

/// The command `serve` with these numbers, where each is one.
fn served_command(
    alloc: Global,
    folder: &str,
    port: Option<u64>,
    workers: Option<u64>,
    connections: Option<u64>,
    words: &[Text],
) -> Result<Command, AllocError>
    requires port { IfSome port (λ number. (1 ≤ number) × (number ≤ 65535)) }
    requires workers { IfSome workers (λ number. (1 ≤ number) × (number ≤ 64)) }
    requires connections { IfSome connections (λ number. (1 ≤ number) × (number ≤ 4294967295)) }
    ensures value { IfOk result (λ command. command ≡ served_command folder.now port workers connections words.now) }
    ensures bound { IfOk result NamesFit }
{
    let (Some(port), Some(workers), Some(connections)) = (port, workers, connections) else {
        return Ok(Command::Usage);
    };
    let libs = match read_libraries(alloc, words)? {
        Some(libs) => libs,
        None => return Ok(Command::Usage),
    };
    match location_word(alloc, folder)? {
        Some(location) => Ok(Command::Serve {
            location,
            port: port as u16,
            workers: workers as u32,
            connections: connections as u32,
            libs,
        }),
        None => Ok(Command::Usage),
    }
}

/// The command of a word with a library and two numbers after it.
pub(crate) fn make_command(
    alloc: Global,
    word: &str,
    folder: &str,
    lib: &str,
    count: &str,
    number: &str,
) -> Result<Command, AllocError>
    ensures value { IfOk result (λ command. command ≡ make_command word.now folder.now lib.now count.now number.now) }
    ensures bound { IfOk result NamesFit }
{
    if word != "make" {
        return Ok(Command::Usage);
    }
    let lib = match library_id(lib) {
        Some(lib) => lib,
        None => return Ok(Command::Usage),
    };
    let count = match number_within(count, 1, 10_000) {
        Some(count) => count as u32,
        None => return Ok(Command::Usage),
    };
    let number = match number_within(number, 0, u64::MAX) {
        Some(number) => number,
        None => return Ok(Command::Usage),
    };
    match location_word(alloc, folder)? {
        Some(location) => Ok(Command::Make {
            location,
            lib,
            count,
            number,
        }),
        None => Ok(Command::Usage),
    }
}
