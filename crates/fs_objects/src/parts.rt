//! What was read of the members of an object, and the object that they make.
ghost use Rattle.std.specs.Prelude.{◌≡◌, ◌≢◌, All, IfOk};
ghost use Rattle.ids.specs.ObjectId.{nil};
ghost use Rattle.serde_json.specs.Data.{no_members};
ghost use Rattle.json_words.specs.Answer.{ReadsAs};
ghost use Rattle.fs_objects.specs.Parts.{IsPartsOf, AreProper, HasProperBlocks, HasProperEntries, kind_from, version_from, file_from, directory_from, object_from};
ghost use Rattle.fs_objects.specs.Proper.{IsProper, IsProperEntry};

use crate::dir_object::DirObject;
use crate::directory_reading::EntriesRead;
use crate::fault::{BadFs, FsFault, FsKey};
use crate::fields::fault_at;
use crate::file_object::FileObject;
use crate::file_reading::BlocksRead;
use crate::fs_object::FsObject;
use json_words::FieldFault;

const FILE: u64 = 1;

const DIRECTORY: u64 = 3;

/// Each field of an object as it is read, or why it is none. Of a key that stands twice the last value counts.
#[derive(Drop)]
pub struct Parts {
    pub kind: Result<u64, FieldFault>,
    pub version: Result<u64, FieldFault>,
    pub size: Result<u64, FieldFault>,
    pub dirents: Result<EntriesRead, FieldFault>,
    pub block_ids: Result<BlocksRead, FieldFault>,
}

/// The parts of an object without members.
pub fn no_parts() -> Parts
    ensures value { IsPartsOf no_members result }
    ensures proper { AreProper result }
{
    Parts {
        kind: Err(FieldFault::Missing),
        version: Err(FieldFault::Missing),
        size: Err(FieldFault::Missing),
        dirents: Err(FieldFault::Missing),
        block_ids: Err(FieldFault::Missing),
    }
}

/// The object that the parts make, or the first failing check.
#[tactic(auto, unfolding(crate::specs::Parts::object_from))]
pub fn object_from(parts: Parts) -> Result<FsObject, FsFault>
    ensures value { ReadsAs result (object_from parts) }
    ensures proper { AreProper parts → IfOk result IsProper }
{
    let number = kind_from(parts.kind)?;
    version_from(parts.version)?;
    if number == FILE {
        let file = file_from(parts.block_ids, parts.size)?;
        Ok(FsObject::File(file))
    } else {
        let directory = directory_from(parts.dirents)?;
        Ok(FsObject::Dir(directory))
    }
}

/// 1 for a file, 3 for a directory.
#[tactic(auto, unfolding(crate::specs::Parts::kind_from))]
fn kind_from(slot: Result<u64, FieldFault>) -> Result<u64, BadFs>
    ensures value { result ≡ kind_from slot }
{
    match slot {
        Ok(number) => if number == FILE || number == DIRECTORY {
            Ok(number)
        } else {
            Err(BadFs::WrongType(FsKey::KType))
        },
        Err(fault) => Err(fault_at(FsKey::KType, fault)),
    }
}

/// The version of the format is 1.
#[tactic(auto, unfolding(crate::specs::Parts::version_from))]
fn version_from(slot: Result<u64, FieldFault>) -> Result<(), BadFs>
    ensures value { result ≡ version_from slot }
{
    match slot {
        Ok(version) => if version == 1 {
            Ok(())
        } else {
            Err(BadFs::BadVersion(version))
        },
        Err(fault) => Err(fault_at(FsKey::KVersion, fault)),
    }
}

/// A file: its blocks, and then its size.
#[tactic(auto, unfolding(crate::specs::Parts::file_from))]
fn file_from(
    slot: Result<BlocksRead, FieldFault>,
    number: Result<u64, FieldFault>,
) -> Result<FileObject, BadFs>
    ensures value { result ≡ file_from slot number }
    ensures proper { IfOk slot HasProperBlocks
        → IfOk result (λ file. All (λ id. id ≢ nil) file.blocks) }
{
    let list = match slot {
        Ok(list) => list,
        Err(fault) => return Err(fault_at(FsKey::KBlockIds, fault)),
    };
    if let Some(bad) = list.fault {
        return Err(bad);
    }
    match number {
        Ok(size) => Ok(FileObject {
            blocks: list.blocks,
            size,
        }),
        Err(fault) => Err(fault_at(FsKey::KSize, fault)),
    }
}

/// A directory: its entries.
#[tactic(auto, unfolding(crate::specs::Parts::directory_from))]
fn directory_from(slot: Result<EntriesRead, FieldFault>) -> Result<DirObject, BadFs>
    ensures value { result ≡ directory_from slot }
    ensures proper { IfOk slot HasProperEntries → IfOk result (All IsProperEntry) }
{
    let list = match slot {
        Ok(list) => list,
        Err(fault) => return Err(fault_at(FsKey::KDirents, fault)),
    };
    match list.fault {
        Some(bad) => Err(bad),
        None => Ok(list.entries),
    }
}
