//! Why bytes are no commit.
ghost use Rattle.std.specs.Prelude.{◌≡◌};
ghost use Rattle.commit_objects.specs.CommitKey.{key_text, fault_code};

use json_words::ReadFault;

/// A key of a commit.
#[derive(Clone, Copy, Debug, PartialEq, Eq)]
pub enum CommitKey {
    KCommitId,
    KRootId,
    KRepoId,
    KCtime,
    KParentId,
    KSecondParentId,
    KCreator,
    KCreatorName,
    KDescription,
    KConflict,
}

/// The first failing check of bytes as a commit.
#[derive(Clone, Copy, Debug, PartialEq, Eq)]
pub enum BadCommit {
    /// They are no JSON text, or not that of an object.
    NotJson,
    /// A key is not there.
    Missing(CommitKey),
    /// The value at a key is of another type or range.
    WrongType(CommitKey),
    /// The text at a key is no id, or forty zeros where an object is to be named.
    BadId(CommitKey),
}

/// Why no commit was read.
pub type CommitFault = ReadFault<BadCommit>;

impl BadCommit {
    /// The number of the fault in replies, from 1 to 4.
    pub fn code(&self) -> u64
        ensures value { result ≡ fault_code self.now }
    {
        match self {
            BadCommit::NotJson => 1,
            BadCommit::Missing(_) => 2,
            BadCommit::WrongType(_) => 3,
            BadCommit::BadId(_) => 4,
        }
    }
}

impl CommitKey {
    /// The key as it is written.
    pub fn text(&self) -> &'static str
        ensures value { result.now ≡ key_text self.now }
    {
        match self {
            CommitKey::KCommitId => "commit_id",
            CommitKey::KRootId => "root_id",
            CommitKey::KRepoId => "repo_id",
            CommitKey::KCtime => "ctime",
            CommitKey::KParentId => "parent_id",
            CommitKey::KSecondParentId => "second_parent_id",
            CommitKey::KCreator => "creator",
            CommitKey::KCreatorName => "creator_name",
            CommitKey::KDescription => "description",
            CommitKey::KConflict => "conflict",
        }
    }
}

impl From<BadCommit> for ReadFault<BadCommit> {
    ghost use Rattle.std.specs.Prelude.{◌≡◌};
    ghost use Rattle.json_words.specs.declared.answer.ReadFault.TheVariants.{Bad};

    ghost from_gives = { λ bad fault. fault ≡ Bad bad };

    fn from(bad: BadCommit) -> ReadFault<BadCommit> {
        ReadFault::Bad(bad)
    }
}
