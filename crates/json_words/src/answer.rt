//! What a reader answers where it reads nothing.
use json::Invalid;
use std::alloc::AllocError;

/// Why a text was not read. Want of memory may come in the place of any other fault, and of a value.
#[derive(Clone, Copy, Debug, PartialEq, Eq, Drop)]
pub enum ReadFault<E> {
    /// The text is outside its grammar: the first failing check.
    Bad(E),
    NoMemory,
}

impl<E> From<AllocError> for ReadFault<E> {
    ghost use Rattle.std.specs.Prelude.{◌≡◌};
    ghost use Rattle.json_words.specs.declared.answer.ReadFault.TheVariants.{NoMemory};

    ghost from_gives = { λ _ fault. fault ≡ NoMemory };

    fn from(_refused: AllocError) -> ReadFault<E> {
        ReadFault::NoMemory
    }
}

/// The text is no JSON (RFC 8259), nests too deep, or has a number that is too large for a double.
#[derive(Clone, Copy, Debug, PartialEq, Eq, Drop)]
pub struct NotJson;

impl From<Invalid> for NotJson {
    ghost use Rattle.std.specs.Prelude.{⊤};

    ghost from_gives = { λ _ _. ⊤ };

    fn from(_invalid: Invalid) -> NotJson {
        NotJson
    }
}

impl From<NotJson> for ReadFault<NotJson> {
    ghost use Rattle.std.specs.Prelude.{◌≡◌};
    ghost use Rattle.json_words.specs.declared.answer.ReadFault.TheVariants.{Bad};

    ghost from_gives = { λ bad fault. fault ≡ Bad bad };

    fn from(bad: NotJson) -> ReadFault<NotJson> {
        ReadFault::Bad(bad)
    }
}

impl From<Invalid> for ReadFault<NotJson> {
    ghost use Rattle.std.specs.Prelude.{◌≡◌};
    ghost use Rattle.json_words.specs.declared.answer.ReadFault.TheVariants.{Bad};
    ghost use Rattle.json_words.specs.declared.answer.NotJson.{NotJson as NotJsonType};

    ghost from_gives = { λ _ fault. (bad : NotJsonType) × (fault ≡ Bad bad) };

    fn from(_invalid: Invalid) -> ReadFault<NotJson> {
        ReadFault::Bad(NotJson)
    }
}
