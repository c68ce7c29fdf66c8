//! What the commands can meet, as it is printed.
use ids::{Key, ObjId};
use library_state::StateKey;

/// Why a command was not done. Where several of these hold, the line is that of the one that stands first here.
#[derive(Clone, Copy, Debug, PartialEq, Eq)]
pub enum Fault {
    /// `create` found the library.
    LibraryExists,
    /// The library is not in that place.
    NoLibrary,
    /// The library has no state text.
    NoState,
    /// Its state text is none: the first check that fails.
    BadState(StateKey),
    /// It was opened as often as it can be counted.
    Worn,
    /// What lies in the library's place is another library.
    OtherLibrary,
    /// An object that a kept commit needs is not stored.
    Incomplete(Key),
    /// What is stored under the key is not of its kind's form.
    Unreadable(Key),
    /// A directory names this as a file, or the other way round.
    WrongKind(ObjId),
    /// The blocks of this file have another size than it says.
    WrongSize(ObjId),
    /// The tree of a kept commit has a path of too many names.
    TooDeep,
    /// The tree of a kept commit has too many paths.
    TooMany,
    /// What is stored under this id has another SHA-1, or the storage gave nothing for it.
    Damaged(ObjId),
    /// Other bytes are stored under this id, or it is forty zeros, which no object may have.
    Taken(ObjId),
    /// A token of the library has this secret already.
    SecretTaken,
    /// The library has as many tokens as it can have.
    TokensFull,
    /// What libraries are kept in failed.
    Store,
    /// The port couldn't be opened, or it gave no more connections.
    Link,
    /// There was no memory. It may come in any other fault's place.
    NoMemory,
}
