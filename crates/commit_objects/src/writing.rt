//! Writing of commits.
ghost use Rattle.std.specs.Prelude.{◌≡◌, Some, codes, IfOk, OnOk, IfSome};
ghost use Rattle.uuid.specs.Text.{hyphenated_text, lower};
ghost use Rattle.serde_json.specs.Data.{no_members, number, object, put as with_member, string, unsigned};
ghost use Rattle.serde_json.specs.View.{view, members_view};
ghost use Rattle.json_words.specs.IdText.{IsId, id_data, library_id_of};
ghost use Rattle.commit_objects.specs.Members.{with_end, with_front, with_middle};
ghost use Rattle.commit_objects.specs.Spelling.{data_of, library_data, parent_data};
ghost use Rattle.commit_objects.specs.Typed.{AreEndsTyped, IsTyped};

use crate::commit::Commit;
use ids::{LibId, ObjId};
use json_words::{id_value, library_id_value};
use serde_json::{Map, ToValue, Value, put};
use std::alloc::{AllocError, Global};

/// The value of a commit.
pub fn commit_value(alloc: Global, commit: &Commit) -> Result<Value, AllocError>
    ensures value { IfOk result (λ value. view value ≡ data_of commit.now) }
    ensures typed { OnOk result (IsTyped commit.now) }
{
    let mut members = Map::new(alloc);
    match put_members(&mut members, alloc, commit) {
        Ok(()) => Ok(Value::Object(members)),
        Err(refused) => {
            drop(members);
            Err(refused)
        }
    }
}

/// Puts the members of a commit into an object that has none.
fn put_members(
    members: &mut Map<String, Value>,
    alloc: Global,
    commit: &Commit,
) -> Result<(), AllocError>
    requires none { members_view members.old.entries ≡ no_members }
    ensures value { OnOk result (object (members_view members.new.entries) ≡ data_of commit.now) }
    ensures typed { OnOk result (IsTyped commit.now) }
{
    put_front(members, alloc, commit)?;
    put_middle(members, alloc, commit)?;
    put_end(members, alloc, commit)
}

/// Puts the id, and that there is a conflict, where there is one.
fn put_front(
    members: &mut Map<String, Value>,
    alloc: Global,
    commit: &Commit,
) -> Result<(), AllocError>
    ensures value { OnOk result (members_view members.new.entries
        ≡ with_front commit.now (members_view members.old.entries)) }
    ensures typed { OnOk result (IsId commit.now.id) }
{
    put_id(members, alloc, "commit_id", &commit.id)?;
    if commit.conflict {
        return put_number(members, alloc, "conflict", 1);
    }
    Ok(())
}

/// Puts who made it, when, and what was said of it.
fn put_middle(
    members: &mut Map<String, Value>,
    alloc: Global,
    commit: &Commit,
) -> Result<(), AllocError>
    ensures value { OnOk result (members_view members.new.entries
        ≡ with_middle commit.now (members_view members.old.entries)) }
{
    put_text(members, alloc, "creator", commit.creator.slice())?;
    put_text(members, alloc, "creator_name", commit.creator_name.slice())?;
    put_number(members, alloc, "ctime", commit.ctime)?;
    put_text(members, alloc, "description", commit.description.slice())
}

/// Puts what it stands for: parents, library and root, and the version.
fn put_end(
    members: &mut Map<String, Value>,
    alloc: Global,
    commit: &Commit,
) -> Result<(), AllocError>
    ensures value { OnOk result (members_view members.new.entries
        ≡ with_end commit.now (members_view members.old.entries)) }
    ensures typed { OnOk result (AreEndsTyped commit.now) }
{
    put_parent(members, alloc, "parent_id", &commit.parent)?;
    put_library(members, alloc, &commit.lib)?;
    put_id(members, alloc, "root_id", &commit.root)?;
    put_parent(members, alloc, "second_parent_id", &commit.second_parent)?;
    put_number(members, alloc, "version", 1)
}

/// The text of a parent's id, or null for none.
pub fn parent_value(alloc: Global, parent: &Option<ObjId>) -> Result<Value, AllocError>
    ensures value { IfOk result (λ value. view value ≡ parent_data parent.now) }
    ensures reads_back { IfSome parent.now IsId }
{
    match parent {
        Some(id) => id_value(alloc, id),
        None => Ok(Value::Null),
    }
}

/// Puts a text into an object.
fn put_text(
    members: &mut Map<String, Value>,
    alloc: Global,
    key: &str,
    text: &str,
) -> Result<(), AllocError>
    ensures { OnOk result (members_view members.new.entries
        ≡ with_member key.now (string text.now) (members_view members.old.entries)) }
{
    let value = text.to_value(alloc)?;
    put(members, alloc, key, value)
}

/// Puts a number into an object.
fn put_number(
    members: &mut Map<String, Value>,
    alloc: Global,
    key: &str,
    given: u64,
) -> Result<(), AllocError>
    ensures { OnOk result (members_view members.new.entries
        ≡ with_member key.now (number (unsigned given)) (members_view members.old.entries)) }
{
    let value = given.to_value(alloc)?;
    put(members, alloc, key, value)
}

/// Puts the text of an id into an object.
fn put_id(
    members: &mut Map<String, Value>,
    alloc: Global,
    key: &str,
    id: &ObjId,
) -> Result<(), AllocError>
    ensures value { OnOk result (members_view members.new.entries
        ≡ with_member key.now (id_data id.now) (members_view members.old.entries)) }
    ensures typed { OnOk result (IsId id.now) }
{
    let value = id_value(alloc, id)?;
    put(members, alloc, key, value)
}

/// Puts the text of a parent's id, or null for none, into an object.
fn put_parent(
    members: &mut Map<String, Value>,
    alloc: Global,
    key: &str,
    parent: &Option<ObjId>,
) -> Result<(), AllocError>
    ensures value { OnOk result (members_view members.new.entries
        ≡ with_member key.now (parent_data parent.now) (members_view members.old.entries)) }
    ensures typed { OnOk result (IfSome parent.now IsId) }
{
    let value = parent_value(alloc, parent)?;
    put(members, alloc, key, value)
}

/// Puts the text of the library's id into an object.
fn put_library(
    members: &mut Map<String, Value>,
    alloc: Global,
    lib: &LibId,
) -> Result<(), AllocError>
    ensures value { OnOk result (members_view members.new.entries
        ≡ with_member (codes "repo_id") (library_data lib.now) (members_view members.old.entries)) }
    ensures typed { OnOk result (library_id_of (hyphenated_text lower lib.now) ≡ Some lib.now) }
{
    let value = library_id_value(alloc, lib)?;
    put(members, alloc, "repo_id", value)
}
