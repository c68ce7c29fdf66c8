//! A file as its directory tells it.
ghost use Rattle.std.specs.Prelude.{◌≡◌, FitsSigned, Some};
ghost use Rattle.std.specs.Int.{w64};
ghost use Rattle.tree_merge.specs.FileEntry.{file_in, as_entry, is_directory};

use ids::{ObjId, Text};
use object_graph::Entry;

/// A file as its directory tells it: what `Entry::File` holds.
#[derive(Debug, Drop)]
pub(crate) struct FileEntry {
    pub id: ObjId,
    pub mode: u32,
    pub mtime: i64,
    pub modifier: Text,
    pub size: u64,
}

impl FileEntry {
    /// When the file was changed, in seconds since 1970-01-01 UTC.
    pub(crate) fn changed(&self) -> i64
        ensures value { result ≡ self.now.mtime }
        ensures bound { FitsSigned w64 result }
    {
        self.mtime
    }

    /// The entry of this file.
    pub(crate) fn into_entry(self) -> Entry
        ensures value { result ≡ as_entry self }
    {
        Entry::File {
            id: self.id,
            mode: self.mode,
            mtime: self.mtime,
            modifier: self.modifier,
            size: self.size,
        }
    }
}

/// The file that an entry is, if there is one.
pub(crate) fn file_in(entry: Option<Entry>) -> Option<FileEntry>
    ensures value { result ≡ file_in entry }
{
    match entry {
        Some(entry) => file_of(entry),
        None => None,
    }
}

fn file_of(entry: Entry) -> Option<FileEntry>
    ensures value { result ≡ file_in (Some entry) }
{
    match entry {
        Entry::Dir => None,
        Entry::File {
            id,
            mode,
            mtime,
            modifier,
            size,
        } => Some(FileEntry {
            id,
            mode,
            mtime,
            modifier,
            size,
        }),
    }
}

/// Whether the entry is a directory.
pub(crate) fn is_directory(entry: &Option<Entry>) -> bool
    ensures value { result ≡ is_directory entry.now }
{
    matches!(entry, Some(Entry::Dir))
}
