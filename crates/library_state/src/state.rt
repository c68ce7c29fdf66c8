//! The state of a library, read and written.
use crate::history::History;
use crate::state_fault::{StateFault, StateKey};
use crate::state_reading::state_from;
use crate::state_writing::state_value;
use crate::token::Token;
use ids::{Bytes, Items, LibId, Text};
use json_words::{ReadFault, parse};
use std::alloc::{AllocError, Global};

/// What a library knows beside its objects, as its state text holds it.
#[derive(Drop)]
pub struct LibState {
    pub lib: LibId,
    /// At most `MAX_STATE_NAME` bytes.
    pub name: Text,
    /// The retained head updates, at least one.
    pub kept: History,
    /// For how many days head updates are retained; -1 for ever.
    pub days: i64,
    /// The number of collections begun so far, at most `LAST`.
    pub collection: u64,
    /// The number of times that it was opened, 1 to `LAST`.
    pub opening: u64,
    /// Who may ask it: at most `MAX_TOKENS`, with distinct secrets.
    pub tokens: Items<Token>,
}

/// Openings and collections are counted up to this number: 2^63.
pub const LAST: u64 = 9_223_372_036_854_775_808;

/// The greatest number of bytes of a library's name, and of a user's.
pub const MAX_STATE_NAME: usize = 255;

/// The greatest number of tokens of a library.
pub const MAX_TOKENS: usize = 1_000;

/// The greatest number of days for which history can be retained.
pub const MAX_DAYS: i64 = 36_500;

impl LibState {
    ghost use Rattle.std.specs.Prelude.{◌≡◌, Ok, IfOk, OnOk};
    ghost use Rattle.json_words.specs.Answer.{ReadsAs};
    ghost use Rattle.library_state.specs.ProperState.{IsProper};
    ghost use Rattle.library_state.specs.Retention.{kept_for};
    ghost use Rattle.library_state.specs.StateSpelling.{text_of};
    ghost use Rattle.library_state.specs.StateText.{state_of};
    ghost use Rattle.library_state.specs.TypedState.{IsTyped};

    /// Reads a state text, version 1. Of several failing checks the first is answered.
    #[tactic(auto, unfolding(crate::specs::StateText::state_of))]
    pub fn read(alloc: Global, text: &[u8]) -> Result<LibState, StateFault>
        ensures value { ReadsAs result (state_of text.now) }
        ensures proper { IfOk result IsProper }
    {
        let value = match parse(alloc, text)? {
            Some(value) => value,
            None => return Err(ReadFault::Bad(StateKey::Whole)),
        };
        if !value.is_object() {
            return Err(ReadFault::Bad(StateKey::Whole));
        }
        state_from(alloc, &value)
    }

    /// Writes the one text of the state: compact, with sorted keys.
    ///
    /// What `read` gave, and each state that is proper, is read back.
    pub fn write(&self, alloc: Global) -> Result<Bytes, AllocError>
        ensures value { IfOk result (λ text. text ≡ text_of self.now) }
        ensures reads_back { IfOk result (λ text. IsProper self.now → state_of text ≡ Ok self.now) }
        ensures typed { OnOk result (IsTyped self.now) }
    {
        let value = state_value(alloc, self)?;
        json_words::write(alloc, &value)
    }

    /// Lets go the head updates that are not retained at the moment. It takes no memory.
    pub fn cut(&mut self, moment: u64)
        ensures value { self.new
            ≡ record self.old { kept = kept_for self.old.days moment self.old.kept } }
    {
        self.kept.cut(self.days, moment);
    }
}
