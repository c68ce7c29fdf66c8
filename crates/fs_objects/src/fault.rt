//! Why bytes are no file or directory object.
ghost use Rattle.std.specs.Prelude.{◌≡◌};
ghost use Rattle.fs_objects.specs.FsKey.{key_text, fault_code};

use json_words::ReadFault;

/// A key of a file or directory object.
#[derive(Clone, Copy, Debug, PartialEq, Eq)]
pub enum FsKey {
    KType,
    KVersion,
    KBlockIds,
    KSize,
    KDirents,
    KId,
    KMode,
    KMtime,
    KName,
    KModifier,
}

/// The first failing check of bytes as a file or directory object. Places of entries count from 0.
#[derive(Clone, Copy, Debug, PartialEq, Eq)]
pub enum BadFs {
    /// They are no JSON text, or not that of an object.
    NotJson,
    /// A key is not there.
    Missing(FsKey),
    /// The value at a key is of another type, range or form.
    WrongType(FsKey),
    /// The version is this one, and not 1.
    BadVersion(u64),
    /// The name of the entry at this place is no good name.
    BadName(u64),
    /// The entry at this place has the name of an earlier one.
    Twice(u64),
}

/// Why no object was read.
pub type FsFault = ReadFault<BadFs>;

impl BadFs {
    /// The number of the fault in replies, from 1 to 6.
    pub fn code(&self) -> u64
        ensures value { result ≡ fault_code self.now }
    {
        match self {
            BadFs::NotJson => 1,
            BadFs::Missing(_) => 2,
            BadFs::WrongType(_) => 3,
            BadFs::BadVersion(_) => 4,
            BadFs::BadName(_) => 5,
            BadFs::Twice(_) => 6,
        }
    }
}

impl FsKey {
    /// The key as it is written.
    pub fn text(&self) -> &'static str
        ensures value { result.now ≡ key_text self.now }
    {
        match self {
            FsKey::KType => "type",
            FsKey::KVersion => "version",
            FsKey::KBlockIds => "block_ids",
            FsKey::KSize => "size",
            FsKey::KDirents => "dirents",
            FsKey::KId => "id",
            FsKey::KMode => "mode",
            FsKey::KMtime => "mtime",
            FsKey::KName => "name",
            FsKey::KModifier => "modifier",
        }
    }
}

impl From<BadFs> for ReadFault<BadFs> {
    ghost use Rattle.std.specs.Prelude.{◌≡◌};
    ghost use Rattle.json_words.specs.declared.answer.ReadFault.TheVariants.{Bad};

    ghost from_gives = { λ bad fault. fault ≡ Bad bad };

    fn from(bad: BadFs) -> ReadFault<BadFs> {
        ReadFault::Bad(bad)
    }
}
