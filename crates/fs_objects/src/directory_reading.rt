//! Reading of the entries of a directory from its text, one after another: no more than one is held as JSON.
ghost use Rattle.std.specs.Prelude.{◌≡◌, ◌∷◌, ◌++◌, ◌<◌, List, [], length, All, IfOk, OnOk};
ghost use Rattle.serde_json.specs.Data.{Data, Items as JsonItems};
ghost use Rattle.serde_json.specs.View.{view};
ghost use Rattle.json_words.specs.Answer.{ReadsAs, OnBad};
ghost use Rattle.json_words.specs.Fields.{list_of};
ghost use Rattle.json_tokens.specs.Front.{FrontIs, NoFront, ItemsAre, NoItems};
ghost use Rattle.fs_objects.specs.Directory.{entry_of, entries_after};
ghost use Rattle.fs_objects.specs.Proper.{IsProperEntry};
ghost use Rattle.fs_objects.specs.Reading.{HasNames, told};
ghost use Rattle.fs_objects.specs.declared.dirent.Dirent.{Dirent as SpecDirent};

use crate::dir_object::DirObject;
use crate::dirent::Dirent;
use crate::entry_reading::{entry_from, head_of};
use crate::fault::{BadFs, FsFault};
use ids::Items;
use json::Reader;
use json_tokens::{kept_value, pass_items};
use json_words::{NotJson, ReadFault};
use serde_json::Value;
use std::alloc::Global;
use std::collections::BTreeSet;
use tree_model::{Name, NameFault};

/// What the items of an array are read as: the entries, or the first fault and the entries before it.
#[derive(Drop)]
pub struct EntriesRead {
    pub entries: DirObject,
    pub fault: Option<BadFs>,
}

/// The entries that the items of an array are. The reader stands behind the opening bracket; the closing one is taken.
///
/// The items behind a fault are read over, since the text may still be no JSON. It holds one item at a time, and takes
/// n log n steps for n entries. After an error the reader stands anywhere.
pub(crate) fn entries_behind(
    alloc: Global,
    reader: &mut Reader<'_>,
    depth: usize,
) -> Result<EntriesRead, ReadFault<NotJson>>
    ensures ok { IfOk result (λ read. (ds : JsonItems) × ItemsAre depth reader.old ds reader.new
        × (told read.fault read.entries ≡ entries_after [] (list_of ds))) }
    ensures proper { IfOk result (λ read. All IsProperEntry read.entries) }
    ensures shorter { OnOk result (length reader.new < length reader.old) }
    ensures err { OnBad result (NoItems depth reader.old) }
{
    let mut entries = Items::new(alloc);
    let mut names = BTreeSet::new(alloc);
    'items: while !reader.take_end_array() {
        match read_entry(alloc, reader, depth, &entries, &mut names)? {
            Ok(entry) => match entries.push(entry) {
                Ok(()) => {}
                Err(_) => return Err(ReadFault::NoMemory),
            },
            Err(bad) => {
                pass_items(reader, depth)?;
                return Ok(EntriesRead {
                    entries: DirObject { entries },
                    fault: Some(bad),
                });
            }
        }
    }
    Ok(EntriesRead {
        entries: DirObject { entries },
        fault: None,
    })
}

/// The entry that the item at the front is after the earlier ones, or its fault. Their names are in the set, and its
/// name goes into it.
fn read_entry(
    alloc: Global,
    reader: &mut Reader<'_>,
    depth: usize,
    earlier: &Items<Dirent>,
    names: &mut BTreeSet<Name>,
) -> Result<Result<Dirent, BadFs>, ReadFault<NotJson>>
    requires known { HasNames names.old.keys earlier.now }
    ensures ok { IfOk result (λ answer. (d : Data) × FrontIs depth reader.old d reader.new
        × (answer ≡ entry_of earlier.now d)) }
    ensures proper { IfOk result (λ answer. IfOk answer IsProperEntry) }
    ensures known { IfOk result (λ answer. IfOk answer
        (λ entry. HasNames names.new.keys (earlier.now ++ entry ∷ []))) }
    ensures shorter { OnOk result (length reader.new < length reader.old) }
    ensures err { OnBad result (NoFront depth reader.old) }
{
    let item = entry_value(alloc, reader, depth)?;
    match next_entry(alloc, earlier, names, &item) {
        Ok(entry) => Ok(Ok(entry)),
        Err(ReadFault::Bad(bad)) => Ok(Err(bad)),
        Err(ReadFault::NoMemory) => Err(ReadFault::NoMemory),
    }
}

/// The item at the front, without what no entry has.
fn entry_value(
    alloc: Global,
    reader: &mut Reader<'_>,
    depth: usize,
) -> Result<Value, ReadFault<NotJson>>
    ensures ok { IfOk result (λ item. (d : Data) × FrontIs depth reader.old d reader.new
        × ((earlier : List SpecDirent) → entry_of earlier (view item) ≡ entry_of earlier d)) }
    ensures shorter { OnOk result (length reader.new < length reader.old) }
    ensures err { OnBad result (NoFront depth reader.old) }
{
    let known = ["id", "mode", "modifier", "mtime", "name", "size"];
    kept_value(alloc, reader, depth, &known)
}

/// The entry that an item is, after the earlier ones. Their names are in the set, and its name goes into it.
fn next_entry(
    alloc: Global,
    earlier: &Items<Dirent>,
    names: &mut BTreeSet<Name>,
    item: &Value,
) -> Result<Dirent, FsFault>
    requires known { HasNames names.old.keys earlier.now }
    ensures value { ReadsAs result (entry_of earlier.now (view item.now)) }
    ensures proper { IfOk result IsProperEntry }
    ensures known { IfOk result (λ entry. HasNames names.new.keys (earlier.now ++ entry ∷ [])) }
{
    let place = earlier.len() as u64;
    let head = match head_of(item, place) {
        Ok(head) => head,
        Err(bad) => return Err(ReadFault::Bad(bad)),
    };
    let name = match Name::read(alloc, head.name) {
        Ok(name) => name,
        Err(NameFault::NoMemory) => return Err(ReadFault::NoMemory),
        Err(NameFault::Bad(_)) => unreachable!(),
    };
    let is_new = match names.insert(name) {
        Ok(is_new) => is_new,
        Err(_) => return Err(ReadFault::NoMemory),
    };
    if !is_new {
        return Err(ReadFault::Bad(BadFs::Twice(place)));
    }
    entry_from(alloc, head, item)
}
