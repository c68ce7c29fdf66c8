//! File and directory objects, read and written.
ghost use Rattle.std.specs.Prelude.{◌≡◌, IfOk, OnOk};
ghost use Rattle.std.specs.List.Sorted.{IsPermutation};
ghost use Rattle.json_words.specs.Answer.{ReadsAs};
ghost use Rattle.fs_objects.specs.FsObject.{fs_of};
ghost use Rattle.fs_objects.specs.Proper.{IsProper};
ghost use Rattle.fs_objects.specs.Spelling.{as_written, text_of, in_written_order, HasSameEntries};

use crate::dir_object::DirObject;
use crate::fault::{BadFs, FsFault};
use crate::file_object::FileObject;
use crate::object_reading::read_object;
use crate::writing::{directory_value, file_value};
use ids::Bytes;
use json_words::ReadFault;
use std::alloc::{AllocError, Global};
use std::str::from_utf8;

/// A file or a directory.
#[derive(Drop)]
pub enum FsObject {
    File(FileObject),
    Dir(DirObject),
}

impl FsObject {
    /// Reads the bytes of an object; entries keep their order. Of several failing checks the first is answered.
    ///
    /// Besides the bytes it takes their size once, and room for what it answers and the names in it: by reckoning about four
    /// times the bytes in all, whatever the text holds. What no object has, it passes over. It takes n log n steps for n
    /// entries, and else as many as there are bytes. No clause says these.
    pub fn read(alloc: Global, bytes: &[u8]) -> Result<FsObject, FsFault>
        ensures value { ReadsAs result (fs_of bytes.now) }
        ensures proper { IfOk result IsProper }
    {
        match from_utf8(bytes) {
            Ok(text) => read_object(alloc, text),
            Err(_) => Err(ReadFault::Bad(BadFs::NotJson)),
        }
    }

    /// Writes the one text of the object: compact, with sorted keys, entries in descending byte order of name.
    ///
    /// What `read` gave, and each object that is proper, is read back with its entries in that order.
    pub fn write(&self, alloc: Global) -> Result<Bytes, AllocError>
        ensures value { IfOk result (λ text. text ≡ text_of self.now) }
        ensures reads_back { IfOk result (λ text. IsProper self.now
            → fs_of text ≡ Ok (as_written self.now)) }
        ensures stays { OnOk result (HasSameEntries self.now (as_written self.now)) }
    {
        match self {
            FsObject::File(file) => write_file(alloc, file),
            FsObject::Dir(directory) => write_directory(alloc, directory),
        }
    }
}

fn write_file(alloc: Global, file: &FileObject) -> Result<Bytes, AllocError>
    ensures value { IfOk result (λ text. text ≡ text_of (FsObject.File file.now)) }
    ensures reads_back { IfOk result (λ text. IsProper (FsObject.File file.now)
        → fs_of text ≡ Ok (FsObject.File file.now)) }
{
    let value = file_value(alloc, file.blocks.slice(), file.size)?;
    json_words::write(alloc, &value)
}

fn write_directory(alloc: Global, directory: &DirObject) -> Result<Bytes, AllocError>
    ensures value { IfOk result (λ text. text ≡ text_of (FsObject.Dir directory.now)) }
    ensures reads_back { IfOk result (λ text. IsProper (FsObject.Dir directory.now)
        → fs_of text ≡ Ok (FsObject.Dir (in_written_order directory.now))) }
    ensures stays { IsPermutation directory.now (in_written_order directory.now) }
{
    let value = directory_value(alloc, directory.entries.slice())?;
    json_words::write(alloc, &value)
}
