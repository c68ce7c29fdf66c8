//! Why bytes are no index text.
use json_words::ReadFault;

/// The first failing check of bytes as an index text, in the order of the checks.
#[derive(Clone, Copy, Debug, PartialEq, Eq)]
pub enum IndexKey {
    /// They are no JSON text, or not that of an object.
    Whole,
    /// The version isn't 1.
    Version,
    /// The library isn't the text of a library id.
    Lib,
    /// The base is neither null nor the text of an id other than forty zeros.
    Base,
    /// An entry is outside the grammar, its path is that of an earlier one, or it doesn't stand in a directory
    /// of the entries.
    Entries,
    /// There is another key.
    Extra,
}

/// Why no index was read.
pub type IndexFault = ReadFault<IndexKey>;

impl From<IndexKey> for ReadFault<IndexKey> {
    ghost use Rattle.std.specs.Prelude.{◌≡◌};
    ghost use Rattle.json_words.specs.declared.answer.ReadFault.TheVariants.{Bad};

    ghost from_gives = { λ bad fault. fault ≡ Bad bad };

    fn from(bad: IndexKey) -> ReadFault<IndexKey> {
        ReadFault::Bad(bad)
    }
}
