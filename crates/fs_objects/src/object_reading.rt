//! Reading of a whole object from its text, one member after another: what no object has is only passed over.
ghost use Rattle.std.specs.Prelude.{◌≡◌, ◌<◌, ◌∷◌, [], length, false, Some, None, IfOk, OnOk};
ghost use Rattle.std.specs.Bool.{MatchBool};
ghost use Rattle.json.specs.Token.{begin_array, begin_object};
ghost use Rattle.json.specs.Reads.{token_of};
ghost use Rattle.serde_json.specs.Data.{Data, Members, object};
ghost use Rattle.serde_json.specs.Find.{as_array};
ghost use Rattle.serde_json.specs.Read.{read as read_text};
ghost use Rattle.json_words.specs.Answer.{ReadsAs, OnBad};
ghost use Rattle.json_words.specs.Check.{each, result_map};
ghost use Rattle.json_words.specs.Fields.{is_object};
ghost use Rattle.json_tokens.specs.Front.{FrontIs, NoFront, MembersAre, NoMembers};
ghost use Rattle.fs_objects.specs.Directory.{entries_after};
ghost use Rattle.fs_objects.specs.File.{block_of};
ghost use Rattle.fs_objects.specs.FsObject.{fs_of};
ghost use Rattle.fs_objects.specs.Parts.{AreProper, HasProperBlocks, HasProperEntries, IsMember, IsPartsOf, blocks_told, entries_told, fault_of, member_depth, object_from};
ghost use Rattle.fs_objects.specs.Proper.{IsProper};
ghost use Rattle.fs_objects.specs.ObjectReading.{array_in, number_in};

use crate::directory_reading::{EntriesRead, entries_behind};
use crate::fault::{BadFs, FsFault};
use crate::file_reading::{BlocksRead, blocks_behind};
use crate::fs_object::FsObject;
use crate::parts::{Parts, no_parts, object_from};
use json::{Reader, Scratch, Token};
use json_tokens::{is_bracket, kept_value, opens_object, pass_from, pass_value};
use json_words::{FieldFault, NotJson, ReadFault};
use std::alloc::Global;

/// How deep a member of the whole object may nest.
const MEMBER_DEPTH: usize = 126;

/// How deep an item of a member may nest.
const ITEM_DEPTH: usize = 125;

/// Why the text has no parts.
type PartFault = ReadFault<NotJson>;

/// The object whose text this is.
pub fn read_object(alloc: Global, text: &str) -> Result<FsObject, FsFault>
    ensures value { ReadsAs result (fs_of text.now) }
    ensures proper { IfOk result IsProper }
{
    let mut scratch = Scratch::new(alloc);
    match read_parts(alloc, text, &mut scratch) {
        Ok(parts) => object_from(parts),
        Err(fault) => Err(fs_fault(fault)),
    }
}

fn fs_fault(fault: ReadFault<NotJson>) -> FsFault
    ensures value { result ≡ fault_of fault }
{
    match fault {
        ReadFault::Bad(_) => ReadFault::Bad(BadFs::NotJson),
        ReadFault::NoMemory => ReadFault::NoMemory,
    }
}

/// The parts of the object whose text this is: nothing stands behind it.
fn read_parts(alloc: Global, text: &str, scratch: &mut Scratch) -> Result<Parts, PartFault>
    ensures ok { IfOk result (λ parts. (found : Members) × (read_text text.now ≡ Some (object found)) × IsPartsOf found parts) }
    ensures proper { IfOk result AreProper }
    ensures err { OnBad result ((d : Data) → read_text text.now ≡ Some d → is_object d ≡ false) }
{
    let mut reader = Reader::new(text, scratch)?;
    if !opens_object(&mut reader) {
        return Err(ReadFault::Bad(NotJson));
    }
    let parts = read_members(alloc, &mut reader)?;
    if reader.next().is_some() {
        return Err(ReadFault::Bad(NotJson));
    }
    Ok(parts)
}

/// The parts of an object, of which the opening brace is taken; the closing one is then taken too.
fn read_members(alloc: Global, reader: &mut Reader<'_>) -> Result<Parts, PartFault>
    ensures ok { IfOk result (λ parts. (found : Members)
        × MembersAre member_depth reader.old found reader.new × IsPartsOf found parts) }
    ensures proper { IfOk result AreProper }
    ensures err { OnBad result (NoMembers member_depth reader.old) }
{
    let mut parts = no_parts();
    'members: while let Some(name) = reader.next_key()? {
        read_member(alloc, reader, name, &mut parts)?;
    }
    Ok(parts)
}

/// Reads the value of a member into its part, or passes it over.
fn read_member(
    alloc: Global,
    reader: &mut Reader<'_>,
    name: &str,
    parts: &mut Parts,
) -> Result<(), PartFault>
    ensures ok { OnOk result (IsMember name.now reader.old reader.new parts.old parts.new) }
    ensures shorter { OnOk result (length reader.new < length reader.old) }
    ensures proper { OnOk result (AreProper parts.old → AreProper parts.new) }
    ensures err { OnBad result (NoFront member_depth reader.old) }
{
    if name == "dirents" {
        parts.dirents = read_dirents(alloc, reader)?;
        return Ok(());
    }
    if name == "block_ids" {
        parts.block_ids = read_block_ids(alloc, reader)?;
        return Ok(());
    }
    if name == "type" {
        parts.kind = read_number(alloc, reader)?;
        return Ok(());
    }
    if name == "version" {
        parts.version = read_number(alloc, reader)?;
        return Ok(());
    }
    if name == "size" {
        parts.size = read_number(alloc, reader)?;
        return Ok(());
    }
    pass_value(reader, MEMBER_DEPTH)?;
    Ok(())
}

/// A number at a key, or why it is none.
fn read_number(alloc: Global, reader: &mut Reader<'_>) -> Result<Result<u64, FieldFault>, PartFault>
    ensures ok { IfOk result (λ slot. (d : Data)
        × FrontIs member_depth reader.old d reader.new × (slot ≡ number_in d)) }
    ensures shorter { OnOk result (length reader.new < length reader.old) }
    ensures err { OnBad result (NoFront member_depth reader.old) }
{
    let value = kept_value(alloc, reader, MEMBER_DEPTH, &[])?;
    Ok(value.as_u64().ok_or(FieldFault::WrongType))
}

/// The entries at a key, or why there are none.
fn read_dirents(
    alloc: Global,
    reader: &mut Reader<'_>,
) -> Result<Result<EntriesRead, FieldFault>, PartFault>
    ensures ok { IfOk result (λ slot. (d : Data) × FrontIs member_depth reader.old d reader.new
        × (result_map entries_told slot ≡ result_map (entries_after []) (array_in d))) }
    ensures shorter { OnOk result (length reader.new < length reader.old) }
    ensures proper { IfOk result (λ slot. IfOk slot HasProperEntries) }
    ensures err { OnBad result (NoFront member_depth reader.old) }
{
    if !enters_array(reader)? {
        return Ok(Err(FieldFault::WrongType));
    }
    let list = entries_behind(alloc, reader, ITEM_DEPTH)?;
    Ok(Ok(list))
}

/// The blocks at a key, or why there are none.
fn read_block_ids(
    alloc: Global,
    reader: &mut Reader<'_>,
) -> Result<Result<BlocksRead, FieldFault>, PartFault>
    ensures ok { IfOk result (λ slot. (d : Data) × FrontIs member_depth reader.old d reader.new
        × (result_map blocks_told slot ≡ result_map (each block_of) (array_in d))) }
    ensures shorter { OnOk result (length reader.new < length reader.old) }
    ensures proper { IfOk result (λ slot. IfOk slot HasProperBlocks) }
    ensures err { OnBad result (NoFront member_depth reader.old) }
{
    if !enters_array(reader)? {
        return Ok(Err(FieldFault::WrongType));
    }
    let list = blocks_behind(alloc, reader, ITEM_DEPTH)?;
    Ok(Ok(list))
}

/// Takes the bracket that opens an array, or passes over a value that is none.
fn enters_array(reader: &mut Reader<'_>) -> Result<bool, PartFault>
    ensures ok { IfOk result (λ entered. MatchBool entered (reader.old ≡ begin_array ∷ reader.new)
        ((d : Data) × FrontIs member_depth reader.old d reader.new × (as_array d ≡ None))) }
    ensures shorter { OnOk result (length reader.new < length reader.old) }
    ensures err { OnBad result (NoFront member_depth reader.old) }
{
    let first = match reader.next() {
        Some(token) => token,
        None => return Err(ReadFault::Bad(NotJson)),
    };
    if is_bracket(first) {
        return Ok(true);
    }
    pass_from(first, reader, MEMBER_DEPTH)?;
    Ok(false)
}
