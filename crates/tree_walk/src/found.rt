//! The entries that a traversal found.
use crate::kind::entry_of;
use fs_objects::Dirent;
use object_graph::Entry;
use std::alloc::{AllocError, Global};
use std::marker::Model;
use tree_model::Path;

/// Entries, each with its path, in the order in which they were found: at most MAX_PATHS, at paths of at most MAX_NAMES names.
#[derive(Drop)]
pub struct Found {
    entries: Vec<(Path, Entry)>,
}

impl Model for Found {
    ghost use Rattle.object_graph.specs.Listing.{Listed};
    ghost use Rattle.tree_walk.specs.Limits.{AreFound, listed_code};

    ghost Value = { Listed };

    ghost coded = { listed_code };

    ghost view = { λ a. a.entries.items };

    ghost invariant = { λ a. AreFound a.entries.items };
}

impl Found {
    ghost use Rattle.std.specs.Prelude.{◌≡◌, ◌<◌, ◌≤◌, ◌++◌, ◌∷◌, [], OnErr, OnOk, length};
    ghost use Rattle.object_graph.specs.Objects.{entry_of};
    ghost use Rattle.tree_model.specs.declared.limits.TheConstants.{MAX_NAMES, MAX_PATHS};
    ghost use Rattle.tree_walk.specs.Limits.{AreFound};

    /// Nothing. It takes no memory.
    pub fn new(alloc: Global) -> Found
        ensures value { result ≡ [] }
    {
        Found {
            entries: Vec::new(alloc),
        }
    }

    /// The number of entries, at most MAX_PATHS.
    pub fn len(&self) -> usize
        ensures value { result ≡ length self.now }
        ensures bound { length self.now ≤ MAX_PATHS }
    {
        self.entries.len()
    }

    /// Adds an entry of a directory, at its path. After an error nothing is added.
    pub fn add(&mut self, alloc: Global, above: &Path, entry: &Dirent) -> Result<(), AllocError>
        requires few { length self.old < MAX_PATHS }
        requires fits { length above.now < MAX_NAMES }
        ensures ok { OnOk result (self.new ≡ self.old ++ (above.now ++ entry.now.name ∷ [], entry_of entry.now) ∷ []) }
        ensures err { OnErr result (self.new ≡ self.old) }
    {
        let path = above.child(alloc, &entry.name)?;
        let _names = path.names();
        let told = entry_of(alloc, entry)?;
        match self.entries.push((path, told)) {
            Ok(()) => Ok(()),
            Err(failed) => Err(failed.into()),
        }
    }

    /// The entries, in the order in which they were found.
    pub fn into_entries(self) -> Vec<(Path, Entry)>
        ensures value { result.items ≡ self }
        ensures bound { AreFound self }
    {
        self.entries
    }
}
