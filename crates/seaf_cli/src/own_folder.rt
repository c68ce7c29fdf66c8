//! Which folder holds the client's own files.
use client_words::{Words, read_words};
use ids::Text;
use std::alloc::{AllocError, Global};

/// The folder of the client's own files, which the words name, and whether it is one to begin in.
#[derive(Drop)]
pub struct OwnFolder {
    pub path: Text,
    pub begins: bool,
}

/// The folder that the words name by `-c`. Words that are no command name an empty path, at which no folder stands.
pub fn own_folder(alloc: Global, words: &[Text]) -> Result<OwnFolder, AllocError> {
    match read_words(alloc, words) {
        Ok(asked) => Ok(OwnFolder {
            begins: is_init(&asked),
            path: match folder_of(asked) {
                Some(conf) => conf,
                None => Text::new(alloc),
            },
        }),
        Err(AllocError) => Err(AllocError),
    }
}

/// Whether the client is told to begin its folder.
fn is_init(asked: &Words) -> bool {
    match asked {
        Words::Init { .. } => true,
        _ => false,
    }
}

/// The folder of a command that has one.
fn folder_of(asked: Words) -> Option<Text> {
    match asked {
        Words::Init { conf } => Some(conf),
        Words::List { conf } => Some(conf),
        Words::Status { conf } => Some(conf),
        Words::Download { conf, job: _job } => Some(conf),
        Words::Sync { conf, job: _job } => Some(conf),
        Words::Desync { conf, dir: _dir } => Some(conf),
        Words::Start {
            conf,
            turns: _turns,
        } => Some(conf),
        Words::NotSupported(_option) => None,
        Words::Help => None,
        Words::Version => None,
        Words::Usage => None,
    }
}
