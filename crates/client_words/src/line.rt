//! The lines that are printed, and the status of a command that prints one.
ghost use Rattle.std.specs.Prelude.{◌≡◌, ◌++◌, [], IfOk, OnOk, codes};
ghost use Rattle.client_words.specs.Lines.{conflict_word, fault_status, fault_words, line_text, line_words, of_library, option_word, status_of, synced_words, with_number, with_path};
ghost use Rattle.server_words.specs.Lines.{with_id};

use crate::fault::Fault;
use crate::words::Unsupported;
use ids::{LibId, ObjId, Text};
use itoa::Buffer;
use std::alloc::{AllocError, Global};
use tree_model::Path;

/// A line that is printed.
#[derive(Debug, Drop)]
pub enum Line {
    /// `init` began a list of jobs.
    Ready,
    /// A job, for `list`.
    Listed {
        lib: LibId,
        dir: Text,
    },
    /// A job whose folder is as it was synced.
    Clean(LibId),
    /// A job whose folder has changed since.
    Changed(LibId),
    /// A job was synced: the commit whose tree the folder holds now, how many files were moved in, how many paths were
    /// removed, and whether the head tells a conflict.
    Synced {
        lib: LibId,
        head: ObjId,
        written: u64,
        removed: u64,
        conflict: bool,
    },
    /// `desync` took the job of this library away.
    Desynced(LibId),
    /// The command was not done, or a job not synced.
    Fault(Fault),
    /// An option is there that this client does not have.
    NotSupported(Unsupported),
    /// The words ask for nothing.
    Usage,
}

impl Line {
    /// The line with its line feed. It holds no secret.
    pub fn text(&self, alloc: Global) -> Result<Vec<u8>, AllocError>
        ensures value { IfOk result (λ text. text.items ≡ line_text self.now) }
    {
        let mut out = Vec::new(alloc);
        push_words(&mut out, self)?;
        push(&mut out, b"\n")?;
        Ok(out)
    }

    /// The status of a command whose last line this is: 0 where it was done, 1 after a fault, 2 for words that ask for
    /// nothing and for an option that is not supported, and 3 for want of memory and nothing else.
    pub fn status(&self) -> u8
        ensures value { result ≡ status_of self.now }
    {
        match self {
            Line::Fault(fault) => fault_status(fault),
            Line::NotSupported(_) => 2,
            Line::Usage => 2,
            _ => 0,
        }
    }
}

fn fault_status(fault: &Fault) -> u8
    ensures value { result ≡ fault_status fault.now }
{
    match fault {
        Fault::NoMemory => 3,
        _ => 1,
    }
}

/// Appends a piece.
fn push(out: &mut Vec<u8>, piece: &[u8]) -> Result<(), AllocError>
    ensures ok { OnOk result (out.new.items ≡ out.old.items ++ piece.now) }
{
    out.extend_from_slice(piece)
}

/// Appends the words of a line.
fn push_words(out: &mut Vec<u8>, line: &Line) -> Result<(), AllocError>
    ensures ok { OnOk result (out.new.items ≡ out.old.items ++ line_words line.now) }
{
    match line {
        Line::Ready => push(out, b"ready"),
        Line::Listed { lib, dir } => push_of_library(out, lib, dir.as_bytes()),
        Line::Clean(lib) => push_of_library(out, lib, b"clean"),
        Line::Changed(lib) => push_of_library(out, lib, b"changed"),
        Line::Synced {
            lib,
            head,
            written,
            removed,
            conflict,
        } => {
            push(out, &lib.digits())?;
            push(out, b" ")?;
            push_synced(out, head, *written, *removed, *conflict)
        }
        Line::Desynced(lib) => {
            push(out, b"desynced ")?;
            push(out, &lib.digits())
        }
        Line::Fault(fault) => {
            push(out, b"seaf-cli: ")?;
            push_fault(out, fault)
        }
        Line::NotSupported(option) => {
            push(out, b"seaf-cli: ")?;
            push(out, option_word(option))?;
            push(out, b" is not supported")
        }
        Line::Usage => push(out, b"seaf-cli: usage"),
    }
}

/// Appends a library and words of it.
fn push_of_library(out: &mut Vec<u8>, lib: &LibId, words: &[u8]) -> Result<(), AllocError>
    ensures ok { OnOk result (out.new.items ≡ out.old.items ++ of_library lib.now words.now) }
{
    push(out, &lib.digits())?;
    push(out, b" ")?;
    push(out, words)
}

/// Appends what a sync did.
fn push_synced(
    out: &mut Vec<u8>,
    head: &ObjId,
    written: u64,
    removed: u64,
    conflict: bool,
) -> Result<(), AllocError>
    ensures ok { OnOk result (out.new.items ≡ out.old.items ++ synced_words head.now written removed conflict) }
{
    push(out, &head.digits())?;
    push_number(out, b" written ", written)?;
    push_number(out, b" removed ", removed)?;
    push(out, b" conflict ")?;
    push(out, conflict_word(conflict))
}

fn conflict_word(conflict: bool) -> &'static [u8]
    ensures value { result.now ≡ conflict_word conflict }
{
    if conflict { b"yes" } else { b"no" }
}

fn option_word(option: &Unsupported) -> &'static [u8]
    ensures value { result.now ≡ option_word option.now }
{
    match option {
        Unsupported::Password => b"-p",
        Unsupported::Token => b"-T",
        Unsupported::Encryption => b"-e",
    }
}

/// Appends words and a number.
fn push_number(out: &mut Vec<u8>, words: &[u8], number: u64) -> Result<(), AllocError>
    ensures ok { OnOk result (out.new.items ≡ out.old.items ++ with_number words.now number) }
{
    let mut buffer = Buffer::new();
    push(out, words)?;
    push(out, buffer.format(number).as_bytes())
}

/// Appends words and a path.
fn push_path(out: &mut Vec<u8>, words: &[u8], path: &Path) -> Result<(), AllocError>
    ensures ok { OnOk result (out.new.items ≡ out.old.items ++ with_path words.now path.now) }
{
    let text = path.text(*out.allocator())?;
    push(out, words)?;
    push(out, text.as_bytes())
}

/// Appends words and an id.
fn push_id(out: &mut Vec<u8>, words: &[u8], id: &ObjId) -> Result<(), AllocError>
    ensures ok { OnOk result (out.new.items ≡ out.old.items ++ with_id words.now id.now) }
{
    push(out, words)?;
    push(out, &id.digits())
}

/// Appends the words of a fault.
fn push_fault(out: &mut Vec<u8>, fault: &Fault) -> Result<(), AllocError>
    ensures ok { OnOk result (out.new.items ≡ out.old.items ++ fault_words fault.now) }
{
    match fault {
        Fault::AlreadyInitialised => push(out, b"already initialised"),
        Fault::NotInitialised => push(out, b"not initialised"),
        Fault::BadIndex => push(out, b"bad index"),
        Fault::NoJob => push(out, b"no job"),
        Fault::JobExists => push(out, b"job exists"),
        Fault::FolderNotEmpty => push(out, b"folder not empty"),
        Fault::Folder => push(out, b"folder fault"),
        Fault::Link => push(out, b"link fault"),
        Fault::BadReply(at) => push_number(out, b"bad reply ", *at),
        Fault::Cut(size) => push_number(out, b"cut reply ", *size),
        Fault::Refused(status) => push_number(out, b"refused ", *status as u64),
        Fault::Damaged(want) => push_id(out, b"damaged ", want),
        Fault::BadTree => push(out, b"bad tree"),
        Fault::TooLarge(size) => push_number(out, b"too large ", *size),
        Fault::Changed(path) => push_path(out, b"changed ", path),
        Fault::Blocked(path) => push_path(out, b"blocked ", path),
        Fault::TooBig(path) => push_path(out, b"file too big ", path),
        Fault::TooDeep(path) => push_path(out, b"too deep ", path),
        Fault::TooMany => push(out, b"too many paths"),
        Fault::Stale(number) => push_number(out, b"stale ", *number),
        Fault::NoMemory => push(out, b"no memory"),
    }
}
