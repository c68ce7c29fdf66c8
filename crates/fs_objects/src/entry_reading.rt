//! Reading of one entry of a directory, of which the value is there.
ghost use Rattle.std.specs.Prelude.{◌≡◌, ◌||◌, false, [], IfOk, IsTrue};
ghost use Rattle.serde_json.specs.View.{view};
ghost use Rattle.tree_model.specs.Name.{name_fault};
ghost use Rattle.json_words.specs.Answer.{ReadsAs};
ghost use Rattle.json_words.specs.Check.{result_map};
ghost use Rattle.fs_objects.specs.Directory.{head_of, details_of, entry_from};
ghost use Rattle.fs_objects.specs.Mode.{is_file_mode, is_directory_mode};
ghost use Rattle.fs_objects.specs.Proper.{IsProperEntry};
ghost use Rattle.fs_objects.specs.Reading.{head_seen, details_seen};

use crate::dirent::Dirent;
use crate::fault::{BadFs, FsFault, FsKey};
use crate::fields::{id_at, integer_at, mode_in, number_at, text_at};
use crate::mode::is_file_mode;
use ids::{ObjId, Text};
use json_words::ReadFault;
use serde_json::Value;
use std::alloc::Global;
use tree_model::{Name, NameFault};

/// What is read of an entry up to its name.
#[derive(Clone, Copy)]
pub struct Head<'a> {
    pub id: ObjId,
    pub mode: u32,
    pub mtime: i64,
    pub name: &'a str,
}

/// Who changed a file last, and its size.
#[derive(Clone, Copy)]
pub struct Details<'a> {
    pub modifier: &'a str,
    pub size: u64,
}

/// The whole entry, of which the head was read.
#[tactic(auto, unfolding(crate::specs::Directory::entry_from))]
pub(crate) fn entry_from(alloc: Global, head: Head<'_>, item: &Value) -> Result<Dirent, FsFault>
    requires name { name_fault head.name.now ≡ None }
    requires proper { IsTrue (is_file_mode head.mode || is_directory_mode head.mode) }
    ensures value { ReadsAs result (entry_from (head_seen head.entry) (view item.now)) }
    ensures proper { IfOk result IsProperEntry }
{
    let details = details_of(item, head.mode)?;
    let name = match Name::read(alloc, head.name) {
        Ok(name) => name,
        Err(NameFault::NoMemory) => return Err(ReadFault::NoMemory),
        Err(NameFault::Bad(_)) => unreachable!(),
    };
    let modifier = Text::copy(alloc, details.modifier)?;
    Ok(Dirent {
        name,
        id: head.id,
        mode: head.mode,
        mtime: head.mtime,
        modifier,
        size: details.size,
    })
}

/// An entry up to its name, at its place from 0.
#[tactic(auto, unfolding(crate::specs::Directory::head_of))]
pub(crate) fn head_of<'a>(item: &'a Value, place: u64) -> Result<Head<'a>, BadFs>
    ensures value { result_map head_seen result ≡ head_of place (view item.now) }
    ensures name { IfOk result (λ head. name_fault head.name.now ≡ None) }
    ensures proper { IfOk result
        (λ head. IsTrue (is_file_mode head.mode || is_directory_mode head.mode)) }
{
    if !item.is_object() {
        return Err(BadFs::WrongType(FsKey::KDirents));
    }
    let id = id_at(item, FsKey::KId)?;
    let mode = mode_in(item)?;
    let mtime = integer_at(item, FsKey::KMtime)?;
    let name = text_at(item, FsKey::KName)?;
    if Name::check(name).is_err() {
        return Err(BadFs::BadName(place));
    }
    Ok(Head {
        id,
        mode,
        mtime,
        name,
    })
}

/// What follows the name: a file's modifier and size, and nothing of a directory.
#[tactic(auto, unfolding(crate::specs::Directory::details_of, crate::specs::Directory::file_details_of))]
fn details_of<'a>(item: &'a Value, mode: u32) -> Result<Details<'a>, BadFs>
    ensures value { result_map details_seen result ≡ details_of mode (view item.now) }
    ensures plain { IfOk result (λ details. is_file_mode mode ≡ false
        → (details.modifier.now ≡ []) × (details.size ≡ 0)) }
{
    if !is_file_mode(mode) {
        return Ok(Details {
            modifier: "",
            size: 0,
        });
    }
    let modifier = text_at(item, FsKey::KModifier)?;
    let size = number_at(item, FsKey::KSize)?;
    Ok(Details { modifier, size })
}
