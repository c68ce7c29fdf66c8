//! Lines of words of the client, and what they ask for.
use client_words::{Line, Unsupported, Words, read_jobs, read_words, write_jobs};
use ids::{LibId, ObjId, Text};
use std::alloc::{AllocError, Global};

/// Adds the words of a line, which have one blank between them.
fn push_words(alloc: Global, words: &mut Vec<Text>, line: &str) -> Result<(), AllocError> {
    for word in line.split(' ') {
        words.push(Text::copy(alloc, word)?)?;
    }
    Ok(())
}

/// What such a line asks for.
fn asked(alloc: Global, line: &str) -> Result<Words, AllocError> {
    let mut words = Vec::new(alloc);
    match push_words(alloc, &mut words, line) {
        Ok(()) => {
            let asked = read_words(alloc, words.as_slice());
            drop(words);
            asked
        }
        Err(why) => {
            drop(words);
            Err(why)
        }
    }
}

fn option_name(option: &Unsupported) -> &'static str {
    match option {
        Unsupported::Password => "-p",
        Unsupported::Token => "-T",
        Unsupported::Encryption => "-e",
    }
}

fn name(words: &Words) -> &'static str {
    match words {
        Words::Init { .. } => "init",
        Words::List { .. } => "list",
        Words::Status { .. } => "status",
        Words::Download { .. } => "download",
        Words::Sync { .. } => "sync",
        Words::Desync { .. } => "desync",
        Words::Start { .. } => "start",
        Words::NotSupported(option) => option_name(option),
        Words::Help => "help",
        Words::Version => "version",
        Words::Usage => "usage",
    }
}

const LINES: &[(&str, &str)] = &[
    ("init -c conf", "init"),
    ("list -c conf", "list"),
    ("status -cconf", "status"),
    ("desync -c conf -d work", "desync"),
    ("start -n 1 -c conf", "start"),
    ("list -p x", "-p"),
    ("list -e x -T y -p z", "-p"),
    ("start -n none -e x -T y", "-T"),
    ("download -e x", "-e"),
    ("--help", "help"),
    ("--version", "version"),
    ("", "usage"),
    ("help", "usage"),
    ("list --help", "usage"),
    ("list", "usage"),
    ("list -c", "usage"),
    ("list -c conf -c conf", "usage"),
    ("list -c conf -d work", "usage"),
    ("list -c conf -d work -p x", "usage"),
    ("-c conf list", "usage"),
    ("start -c conf -n 01", "usage"),
    ("start -c conf -n 1000001", "usage"),
];

fn asks(alloc: Global, line: &str, wanted: &str) -> Result<bool, AllocError> {
    let words = asked(alloc, line)?;
    let is_wanted = name(&words) == wanted;
    drop(words);
    Ok(is_wanted)
}

/// The first of these that asks for something else.
fn first_other(alloc: Global) -> Result<Option<&'static str>, AllocError> {
    for place in 0..LINES.len() {
        let (line, wanted) = LINES[place];
        if !asks(alloc, line, wanted)? {
            return Ok(Some(line));
        }
    }
    Ok(None)
}

#[test]
fn lines_ask_for_what_they_say(rt: HostRuntime) -> Result<(), AllocError> {
    let line = first_other(rt.alloc())?;
    assert!(rt; line.is_none(), "{line:?}");
    Ok(())
}

const DOWNLOAD: &str =
    "download -c conf -l 11111111-2222-4333-8444-555555555555 -s http://127.0.0.1:8082 -w work -u me -k aaaaaaaaaaaaaaaaaaaaaaaaaaaaaaaaaaaaaaaa";

fn is_download(words: &Words) -> bool {
    match words {
        Words::Download { conf, job } => conf.slice() == "conf"
            && job.dir.slice() == "work"
            && job.host.slice() == "127.0.0.1"
            && job.port == 8082
            && job.user.slice() == "me",
        _ => false,
    }
}

/// Whether a line asks for that.
fn asks_for_download(alloc: Global, line: &str) -> Result<bool, AllocError> {
    let words = asked(alloc, line)?;
    let is_download = is_download(&words);
    drop(words);
    Ok(is_download)
}

#[test]
fn a_download_has_its_job(rt: HostRuntime) -> Result<(), AllocError> {
    assert!(rt; asks_for_download(rt.alloc(), DOWNLOAD)?);
    Ok(())
}

/// Whether what is asked is printed with no digit of a secret of `a`.
fn hides_the_secret(alloc: Global, words: &Words) -> Result<bool, AllocError> {
    let printed = format!(in alloc; "{words:?}")?;
    let is_hidden = !printed.as_str().contains("aaaa");
    drop(printed);
    Ok(is_hidden)
}

/// The same of what a line asks for.
fn is_hidden(alloc: Global, line: &str) -> Result<bool, AllocError> {
    let words = asked(alloc, line)?;
    let is_hidden = hides_the_secret(alloc, &words);
    drop(words);
    is_hidden
}

#[test]
fn a_secret_of_a_job_is_not_printed(rt: HostRuntime) -> Result<(), AllocError> {
    assert!(rt; is_hidden(rt.alloc(), DOWNLOAD)?);
    Ok(())
}

const JOBS: &str =
    "{\"jobs\":[{\"dir\":\"work\",\"host\":\"127.0.0.1\",\"lib\":\"11111111-2222-4333-8444-555555555555\",\"port\":8082,\"secret\":\"aaaaaaaaaaaaaaaaaaaaaaaaaaaaaaaaaaaaaaaa\",\"user\":\"me\"}],\"version\":1}";

/// Whether a text is a list of jobs, and the one that they are written as.
fn is_written_back(alloc: Global, text: &str) -> Result<bool, AllocError> {
    match read_jobs(alloc, text.as_bytes())? {
        Some(jobs) => {
            let written = write_jobs(alloc, jobs.slice());
            drop(jobs);
            let written = written?;
            let is_same = written.slice() == text.as_bytes();
            drop(written);
            Ok(is_same)
        }
        None => Ok(false),
    }
}

#[test]
fn a_list_of_jobs_is_written_back(rt: HostRuntime) -> Result<(), AllocError> {
    assert!(rt; is_written_back(rt.alloc(), JOBS)?);
    Ok(())
}

/// The line of a sync of a library of ones, whose head is of twos.
fn synced() -> Line {
    Line::Synced {
        lib: LibId::from_bytes([0x11; 16]),
        head: ObjId::from_bytes([0x22; 20]),
        written: 3,
        removed: 0,
        conflict: true,
    }
}

fn is_printed(alloc: Global, line: &Line, wanted: &str) -> Result<bool, AllocError> {
    let text = line.text(alloc)?;
    Ok(text.as_slice() == wanted.as_bytes())
}

#[test]
fn the_line_of_a_sync_has_its_numbers(rt: HostRuntime) -> Result<(), AllocError> {
    assert!(rt;
        is_printed(
            rt.alloc(),
            &synced(),
            "11111111-1111-1111-1111-111111111111 2222222222222222222222222222222222222222 written 3 removed 0 conflict yes\n",
        )?
    );
    Ok(())
}
