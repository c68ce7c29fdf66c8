//! Reading of commits.
ghost use Rattle.std.specs.Prelude.{◌≡◌, option_map, IfOk};
ghost use Rattle.serde_json.specs.View.{view};
ghost use Rattle.json_words.specs.Check.{result_map};
ghost use Rattle.commit_objects.specs.Commit.{commit_in, commit_of};
ghost use Rattle.commit_objects.specs.Proper.{IsProper};
ghost use Rattle.commit_objects.specs.Reading.{parts_seen, value_seen};

use crate::commit::Commit;
use crate::fault::{BadCommit, CommitKey};
use crate::fields::{
    conflict_at, id_at, library_id_at, number_at, parent_at, stored_id_at, text_at,
};
use ids::{LibId, ObjId, Text};
use json_tokens::parse_kept;
use serde_json::Value;
use std::alloc::{AllocError, Global};

/// What is read of a commit, with its texts borrowed.
#[derive(Clone, Copy)]
pub struct Parts<'a> {
    pub id: ObjId,
    pub lib: LibId,
    pub root: ObjId,
    pub parent: Option<ObjId>,
    pub second_parent: Option<ObjId>,
    pub creator: &'a str,
    pub creator_name: &'a str,
    pub description: &'a str,
    pub ctime: u64,
    pub conflict: bool,
}

/// What the text of a commit has at a commit's keys, or none where the bytes are no JSON text.
///
/// Nothing else of the text is held, whatever it is.
pub fn kept_value(alloc: Global, bytes: &[u8]) -> Result<Option<Value>, AllocError>
    ensures value { IfOk result (λ value. value_seen (option_map view value) ≡ commit_of bytes.now) }
{
    parse_kept(
        alloc,
        bytes,
        &[
            "commit_id",
            "root_id",
            "repo_id",
            "ctime",
            "parent_id",
            "second_parent_id",
            "creator",
            "creator_name",
            "description",
            "conflict",
        ],
    )
}

/// The commit that a JSON object is.
#[tactic(auto, unfolding(crate::specs::Commit::commit_in))]
pub fn parts_of<'a>(value: &'a Value) -> Result<Parts<'a>, BadCommit>
    ensures value { result_map parts_seen result ≡ commit_in (view value.now) }
    ensures proper { IfOk result (λ parts. IsProper (parts_seen parts)) }
{
    let id = stored_id_at(value, CommitKey::KCommitId)?;
    let root = id_at(value, CommitKey::KRootId)?;
    let lib = library_id_at(value, CommitKey::KRepoId)?;
    let ctime = number_at(value, CommitKey::KCtime)?;
    let parent = parent_at(value, CommitKey::KParentId)?;
    let second_parent = parent_at(value, CommitKey::KSecondParentId)?;
    let creator = text_at(value, CommitKey::KCreator)?;
    let creator_name = text_at(value, CommitKey::KCreatorName)?;
    let description = text_at(value, CommitKey::KDescription)?;
    let conflict = conflict_at(value)?;
    Ok(Parts {
        id,
        lib,
        root,
        parent,
        second_parent,
        creator,
        creator_name,
        description,
        ctime,
        conflict,
    })
}

/// The commit with its own texts.
pub fn commit_from(alloc: Global, parts: &Parts<'_>) -> Result<Commit, AllocError>
    ensures value { IfOk result (λ commit. commit ≡ parts_seen parts.now) }
{
    let creator = Text::copy(alloc, parts.creator)?;
    let creator_name = Text::copy(alloc, parts.creator_name)?;
    let description = Text::copy(alloc, parts.description)?;
    Ok(Commit {
        id: parts.id,
        lib: parts.lib,
        root: parts.root,
        parent: parts.parent,
        second_parent: parts.second_parent,
        creator,
        creator_name,
        description,
        ctime: parts.ctime,
        conflict: parts.conflict,
    })
}
