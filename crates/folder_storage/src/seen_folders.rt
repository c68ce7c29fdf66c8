//! The folders of objects that are known to be there.
use crate::durability::first_byte;
use ids::{Key, Kind};
use std::alloc::Global;

/// How many folders of one kind there may be.
const FIRST_BYTES: usize = 256;

/// How many kinds there are.
const KINDS: usize = 3;

/// The folders of objects that were seen, for each kind those of the first bytes of ids. It is a help alone: what it lacks is
/// looked at.
#[derive(Drop)]
pub(crate) struct SeenFolders {
    /// Whether each was seen; none as long as nothing is noted.
    seen: Vec<bool>,
}

impl SeenFolders {
    /// None of them. It takes no memory.
    pub(crate) fn new(alloc: Global) -> SeenFolders {
        SeenFolders {
            seen: Vec::new(alloc),
        }
    }

    /// Whether the folder that an object's file lies in was seen.
    pub(crate) fn has(&self, key: &Key) -> bool {
        match self.seen.get(folder_number(key)) {
            Some(seen) => *seen,
            None => false,
        }
    }

    /// Notes that it was. Where there is no memory for the first of them it isn't noted.
    pub(crate) fn note(&mut self, key: &Key) {
        if self.seen.is_empty() {
            let _ = self.seen.resize(KINDS * FIRST_BYTES, false);
        }
        if let Some(seen) = self.seen.get_mut(folder_number(key)) {
            *seen = true;
        }
    }
}

/// The number of the folder that an object's file lies in.
fn folder_number(key: &Key) -> usize {
    let before = match key.kind {
        Kind::Commit => 0,
        Kind::Fs => FIRST_BYTES,
        Kind::Block => 2 * FIRST_BYTES,
    };
    usize::from(first_byte(key)).saturating_add(before)
}
