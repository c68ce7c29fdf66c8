//! What was synced last.
use crate::fault::{IndexFault, IndexKey};
use crate::index_reading::read_index;
use crate::index_writing::index_value;
use ids::{Bytes, LibId, ObjId, Text};
use json_words::{ReadFault, parse};
use std::alloc::{AllocError, Global};
use tree_model::PathTable;

/// What was synced at a path.
#[derive(Drop)]
pub enum Known {
    Dir,
    File {
        /// The file object in the library; forty zeros for an empty one.
        id: ObjId,
        /// The id that this project's cuts give the file.
        own: ObjId,
        /// The number of its bytes.
        size: u64,
        /// Unix file mode, that of a regular file.
        mode: u32,
        /// When it was changed last, in seconds since 1970-01-01 UTC.
        mtime: i64,
        /// Who changed it last.
        modifier: Text,
    },
}

/// The index of a folder: its library, the commit that was synced last, and what stood at each path then.
#[derive(Drop)]
pub struct Index {
    pub lib: LibId,
    /// None where nothing was synced yet.
    pub base: Option<ObjId>,
    pub entries: PathTable<Known>,
}

impl Index {
    ghost use Rattle.std.specs.Prelude.{◌≡◌, None, Ok, IfOk};
    ghost use Rattle.std.specs.FinMap as map;
    ghost use Rattle.json_words.specs.Answer.{ReadsAs};
    ghost use Rattle.local_index.specs.IndexText.{index_of};
    ghost use Rattle.local_index.specs.IndexSpelling.{text_of, IsProper};

    /// The index of a folder with which nothing was synced yet. It takes no memory.
    pub fn empty(alloc: Global, lib: LibId) -> Index
        ensures value { result ≡ record { lib = lib; base = None; entries = map.empty } }
        ensures proper { IsProper result }
    {
        Index {
            lib,
            base: None,
            entries: PathTable::new(alloc),
        }
    }

    /// Reads an index text; the entries may stand in any order. Of several failing checks the first is answered.
    ///
    /// While it reads it holds the text as a JSON value, in which by reckoning each entry takes some 600 bytes: of an index
    /// with many directories of short names up to fifty times the memory of the bytes. It takes n log n steps for n entries.
    /// No clause says these.
    #[tactic(auto, unfolding(crate::specs::IndexText::index_of))]
    pub fn read(alloc: Global, text: &[u8]) -> Result<Index, IndexFault>
        ensures value { ReadsAs result (index_of text.now) }
        ensures proper { IfOk result IsProper }
    {
        match parse(alloc, text)? {
            Some(value) => if value.is_object() {
                read_index(alloc, &value)
            } else {
                Err(ReadFault::Bad(IndexKey::Whole))
            },
            None => Err(ReadFault::Bad(IndexKey::Whole)),
        }
    }

    /// Writes the one text of the index: compact, with sorted keys, entries in byte order of path.
    ///
    /// What `read` gave, and each index that is proper, is read back.
    pub fn write(&self, alloc: Global) -> Result<Bytes, AllocError>
        ensures value { IfOk result (λ text. text ≡ text_of self.now) }
        ensures reads_back { IfOk result (λ text. IsProper self.now → index_of text ≡ Ok self.now) }
    {
        let value = index_value(alloc, self)?;
        json_words::write(alloc, &value)
    }
}
