//! What the words of the command line can ask for.
use ids::{Items, LibId, Text};
use library_state::{Right, Secret};

/// Where libraries are kept.
#[derive(Debug, Drop)]
pub enum Location {
    /// In memory, until the program ends. Its word is `:memory:`.
    Memory,
    /// In the folder at this path, which is not empty.
    Folder(Text),
}

/// What the words ask for. Names have 1 to 255 bytes, and no byte of them is a control character.
#[derive(Debug, Drop)]
pub enum Command {
    /// Make a library of this name, with a first token, whose user owns it.
    Create {
        location: Location,
        lib: LibId,
        name: Text,
        user: Text,
        secret: Secret,
    },
    /// Add a token to a library.
    Token {
        location: Location,
        lib: LibId,
        user: Text,
        secret: Secret,
        right: Right,
    },
    /// Serve one connection over standard input and output, with 1 to 1,000 libraries, none of which is named twice.
    Inetd {
        location: Location,
        libs: Items<LibId>,
    },
    /// Serve the connections to a port of this machine, with 1 to 1,000 libraries, none of which is named twice: so many workers beside
    /// each other, 1 to 64, of which each serves so many connections, one at least.
    Serve {
        location: Location,
        port: u16,
        workers: u32,
        connections: u32,
        libs: Items<LibId>,
    },
    /// Fill a new library with so many generated files, 1 to 10,000, from this number, change some of them, and collect it.
    Make {
        location: Location,
        lib: LibId,
        count: u32,
        number: u64,
    },
    /// Print the words that there are.
    Help,
    /// Print the program's name and version.
    Version,
    /// Words that are no command.
    Usage,
}
