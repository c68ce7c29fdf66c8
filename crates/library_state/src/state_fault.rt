//! Why bytes are no state text.
use json_words::ReadFault;

/// The first failing check of bytes as a state text. The checks come in this order.
#[derive(Clone, Copy, Debug, PartialEq, Eq)]
pub enum StateKey {
    /// They are no JSON text, or not that of an object.
    Whole,
    /// `version` is not 1.
    Version,
    /// `collection` is no number up to `LAST`.
    Collection,
    /// `days` is no number from -1 to 36,500.
    Days,
    /// `kept` is no list of head updates, or an empty one.
    Kept,
    /// `lib` is no library id.
    Lib,
    /// `name` is no text of at most 255 bytes.
    LibName,
    /// `opening` is no number from 1 to `LAST`.
    Opening,
    /// `tokens` is no list of at most 1,000 tokens with distinct secrets.
    Tokens,
    /// Another key is there.
    Extra,
}

/// Why no state was read.
pub type StateFault = ReadFault<StateKey>;

impl From<StateKey> for ReadFault<StateKey> {
    ghost use Rattle.std.specs.Prelude.{◌≡◌};
    ghost use Rattle.json_words.specs.declared.answer.ReadFault.TheVariants.{Bad};

    ghost from_gives = { λ key fault. fault ≡ Bad key };

    fn from(key: StateKey) -> ReadFault<StateKey> {
        ReadFault::Bad(key)
    }
}
