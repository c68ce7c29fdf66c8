//! Commits, read, made and written.
use crate::fault::{BadCommit, CommitFault};
use crate::reading::{commit_from, kept_value, parts_of};
use crate::writing::commit_value;
use ids::{Bytes, LibId, ObjId, Text};
use json_words::ReadFault;
use std::alloc::{AllocError, Global};

/// A commit: the state of a library at a moment, over one or two parents.
#[derive(Drop)]
pub struct Commit {
    pub id: ObjId,
    pub lib: LibId,
    /// The directory object of the root; forty zeros for an empty one.
    pub root: ObjId,
    pub parent: Option<ObjId>,
    pub second_parent: Option<ObjId>,
    pub creator: Text,
    pub creator_name: Text,
    pub description: Text,
    /// When it was made, in seconds since 1970-01-01 UTC.
    pub ctime: u64,
    pub conflict: bool,
}

/// The creator of a commit that is made here: forty zeros.
const NO_CREATOR: &str = "0000000000000000000000000000000000000000";

impl Commit {
    ghost use Rattle.std.specs.Prelude.{◌≡◌, IfOk};
    ghost use Rattle.json_words.specs.Answer.{ReadsAs};
    ghost use Rattle.commit_objects.specs.Commit.{commit_of};
    ghost use Rattle.commit_objects.specs.Made.{made};
    ghost use Rattle.commit_objects.specs.Proper.{IsProper};
    ghost use Rattle.commit_objects.specs.Spelling.{text_of};

    /// Reads the bytes of a commit. Of several failing checks the first is answered.
    ///
    /// Whether the id is that of the text is not asked: a commit's name is the one that it bears.
    pub fn read(alloc: Global, bytes: &[u8]) -> Result<Commit, CommitFault>
        ensures value { ReadsAs result (commit_of bytes.now) }
        ensures proper { IfOk result IsProper }
    {
        let value = match kept_value(alloc, bytes)? {
            Some(value) => value,
            None => return Err(ReadFault::Bad(BadCommit::NotJson)),
        };
        if !value.is_object() {
            return Err(ReadFault::Bad(BadCommit::NotJson));
        }
        let parts = match parts_of(&value) {
            Ok(parts) => parts,
            Err(bad) => return Err(ReadFault::Bad(bad)),
        };
        match commit_from(alloc, &parts) {
            Ok(commit) => Ok(commit),
            Err(_) => Err(ReadFault::NoMemory),
        }
    }

    /// Makes a commit by no creator, named by the SHA-1 of its text with forty zeros in the id's place.
    pub fn make(
        alloc: Global,
        lib: LibId,
        root: ObjId,
        parent: Option<ObjId>,
        second_parent: Option<ObjId>,
        creator_name: &Text,
        description: &Text,
        ctime: u64,
        conflict: bool,
    ) -> Result<Commit, AllocError>
        ensures value { IfOk result (λ commit. commit
            ≡ made lib root parent second_parent creator_name.now description.now ctime conflict) }
    {
        let creator = Text::copy(alloc, NO_CREATOR)?;
        let creator_name = Text::copy(alloc, creator_name.slice())?;
        let description = Text::copy(alloc, description.slice())?;
        let unnamed = Commit {
            id: ObjId::NIL,
            lib,
            root,
            parent,
            second_parent,
            creator,
            creator_name,
            description,
            ctime,
            conflict,
        };
        let text = unnamed.write(alloc)?;
        let id = ObjId::of(text.slice());
        Ok(Commit { id, ..unnamed })
    }

    /// Writes the one text of the commit: compact, with sorted keys.
    ///
    /// What `read` gave, and each commit that is proper, is read back.
    pub fn write(&self, alloc: Global) -> Result<Bytes, AllocError>
        ensures value { IfOk result (λ text. text ≡ text_of self.now) }
        ensures reads_back { IfOk result (λ text. IsProper self.now → commit_of text ≡ Ok self.now) }
    {
        let value = commit_value(alloc, self)?;
        json_words::write(alloc, &value)
    }
}
