//! The lines that are printed, and the status of a command that prints one.
ghost use Rattle.std.specs.Prelude.{◌≡◌, ◌+◌, ◌≤◌, ◌++◌, decimal, length};
ghost use Rattle.server_words.specs.Lines.{bad_state_words, created_words, fault_status, fault_words, help_text, line_text, line_words, made_words, state_key_word, status_of, version_text, with_id, with_key};

use crate::fault::Fault;
use crate::line_text::LineText;
use ids::{Key, LibId, ObjId};
use itoa::Buffer;
use library_state::StateKey;

/// A line that is printed.
#[derive(Clone, Copy, Debug, PartialEq, Eq)]
pub enum Line {
    /// `create` made this library, which stands at this commit.
    Created {
        lib: LibId,
        head: ObjId,
    },
    /// `token` added a token.
    TokenAdded,
    /// `serve` served so many connections.
    Served(u64),
    /// `make` filled a library: how many paths and bytes its head has, how many objects were stored before its collection, and how many of
    /// them were removed.
    Made {
        paths: u64,
        bytes: u64,
        stored: u64,
        removed: u64,
    },
    /// The command was not done.
    Fault(Fault),
    /// The words were no command.
    Usage,
}

impl Line {
    /// The line with its line feed. It takes no memory, and holds no secret.
    pub fn text(&self) -> LineText
        ensures value { result ≡ line_text self.now }
    {
        let mut text = LineText::new();
        push_words(&mut text, self);
        text.push(b"\n");
        text
    }

    /// The status of a command that prints this line: 0 where it was done, 1 after a fault, 2 for words that are no
    /// command, and 3 for want of memory and nothing else.
    pub fn status(&self) -> u8
        ensures value { result ≡ status_of self.now }
    {
        match self {
            Line::Created { .. } | Line::TokenAdded | Line::Served(_) | Line::Made { .. } => 0,
            Line::Fault(fault) => fault_status(fault),
            Line::Usage => 2,
        }
    }
}

fn fault_status(fault: &Fault) -> u8
    ensures value { result ≡ fault_status fault.now }
{
    match fault {
        Fault::NoMemory => 3,
        _ => 1,
    }
}

/// Appends the words of a line.
fn push_words(text: &mut LineText, line: &Line)
    requires fits { length text.old ≡ 0 }
    ensures ok { text.new ≡ text.old ++ line_words line.now }
    ensures bound { length text.new ≤ 127 }
{
    match line {
        Line::Created { lib, head } => push_created(text, lib, head),
        Line::TokenAdded => text.push(b"token added"),
        Line::Served(count) => push_number(text, b"served ", *count),
        Line::Made {
            paths,
            bytes,
            stored,
            removed,
        } => push_made(text, *paths, *bytes, *stored, *removed),
        Line::Fault(fault) => {
            text.push(b"seaf-server: ");
            push_fault(text, fault);
        }
        Line::Usage => text.push(b"seaf-server: usage"),
    }
}

/// Appends that a library was made.
fn push_created(text: &mut LineText, lib: &LibId, head: &ObjId)
    requires fits { length text.old ≡ 0 }
    ensures ok { text.new ≡ text.old ++ created_words lib.now head.now }
    ensures bound { length text.new ≤ 127 }
{
    text.push(b"created ");
    text.push(&lib.digits());
    push_id(text, b" ", head);
}

/// Appends what a library was filled with.
fn push_made(text: &mut LineText, paths: u64, bytes: u64, stored: u64, removed: u64)
    requires fits { length text.old ≡ 0 }
    ensures ok { text.new ≡ text.old ++ made_words paths bytes stored removed }
    ensures bound { length text.new ≤ 127 }
{
    push_number(text, b"paths ", paths);
    push_number(text, b" bytes ", bytes);
    push_number(text, b" stored ", stored);
    push_number(text, b" removed ", removed);
}

/// Appends words and a number, which has at most 20 digits.
fn push_number(text: &mut LineText, words: &[u8], number: u64)
    requires fits { length text.old + length words.now ≤ 90 }
    ensures ok { text.new ≡ text.old ++ words.now ++ decimal number }
    ensures bound { length text.new ≤ length text.old + length words.now + 20 }
{
    let mut digits = Buffer::new();
    text.push(words);
    text.push(digits.format(number).as_bytes());
}

/// Appends the words of a fault.
fn push_fault(text: &mut LineText, fault: &Fault)
    requires fits { length text.old ≤ 13 }
    ensures ok { text.new ≡ text.old ++ fault_words fault.now }
    ensures bound { length text.new ≤ 127 }
{
    match fault {
        Fault::LibraryExists => text.push(b"library exists"),
        Fault::NoLibrary => text.push(b"no library"),
        Fault::NoState => text.push(b"no state"),
        Fault::BadState(key) => push_state_key(text, key),
        Fault::Worn => text.push(b"worn"),
        Fault::OtherLibrary => text.push(b"other library"),
        Fault::Incomplete(key) => push_key(text, b"incomplete ", key),
        Fault::Unreadable(key) => push_key(text, b"unreadable ", key),
        Fault::WrongKind(id) => push_id(text, b"wrong kind ", id),
        Fault::WrongSize(id) => push_id(text, b"wrong size ", id),
        Fault::TooDeep => text.push(b"too deep"),
        Fault::TooMany => text.push(b"too many"),
        Fault::Damaged(id) => push_id(text, b"damaged ", id),
        Fault::Taken(id) => push_id(text, b"taken ", id),
        Fault::SecretTaken => text.push(b"secret taken"),
        Fault::TokensFull => text.push(b"tokens full"),
        Fault::Store => text.push(b"store fault"),
        Fault::Link => text.push(b"link fault"),
        Fault::NoMemory => text.push(b"no memory"),
    }
}

/// Appends words and an id.
fn push_id(text: &mut LineText, words: &[u8], id: &ObjId)
    requires fits { length text.old + length words.now ≤ 87 }
    ensures ok { text.new ≡ text.old ++ with_id words.now id.now }
    ensures bound { length text.new ≤ 127 }
{
    text.push(words);
    text.push(&id.digits());
}

/// Appends words, the kind of an object and its id.
fn push_key(text: &mut LineText, words: &[u8], key: &Key)
    requires fits { length text.old + length words.now ≤ 80 }
    ensures ok { text.new ≡ text.old ++ with_key words.now key.now }
    ensures bound { length text.new ≤ 127 }
{
    text.push(words);
    text.push(key.kind.word().as_bytes());
    push_id(text, b" ", &key.id);
}

/// Appends that a state text is bad, and the check that fails.
fn push_state_key(text: &mut LineText, key: &StateKey)
    requires fits { length text.old ≤ 13 }
    ensures ok { text.new ≡ text.old ++ bad_state_words key.now }
    ensures bound { length text.new ≤ 127 }
{
    text.push(b"bad state ");
    text.push(state_key_word(key));
}

/// The check that fails, by its name.
fn state_key_word(key: &StateKey) -> &'static [u8]
    ensures value { result.now ≡ state_key_word key.now }
    ensures bound { length result.now ≤ 10 }
{
    match key {
        StateKey::Whole => b"Whole",
        StateKey::Version => b"Version",
        StateKey::Collection => b"Collection",
        StateKey::Days => b"Days",
        StateKey::Kept => b"Kept",
        StateKey::Lib => b"Lib",
        StateKey::LibName => b"LibName",
        StateKey::Opening => b"Opening",
        StateKey::Tokens => b"Tokens",
        StateKey::Extra => b"Extra",
    }
}

/// What `--version` prints.
pub fn version_text() -> &'static [u8]
    ensures value { result.now ≡ version_text }
{
    b"seaf-server 0.1\n"
}

/// What `--help` prints.
pub fn help_text() -> &'static [u8]
    ensures value { result.now ≡ help_text }
{
    b"usage: seaf-server create FOLDER LIB NAME USER TOKEN\n       seaf-server token FOLDER LIB USER TOKEN RIGHT\n       seaf-server inetd FOLDER LIB [LIB..]\n       seaf-server serve FOLDER PORT WORKERS CONNECTIONS LIB [LIB..]\n       seaf-server make FOLDER LIB COUNT NUMBER\nFOLDER keeps the libraries, or is :memory:. LIB is a UUID.\nTOKEN has 40 lower-case hexadecimal digits. RIGHT is r, rw or own.\ninetd serves one connection over standard input and output,\nserve as many as WORKERS times CONNECTIONS at a port of 127.0.0.1.\n"
}
