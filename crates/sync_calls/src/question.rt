//! What is asked of a library in a turn: a call that is lent, one that is handed over, or the first of several.
ghost use Rattle.std.specs.Prelude.{◌≡◌, ◌<◌, ◌∷◌, ℕ, false, true};
ghost use Rattle.library_rules.specs.Calls.{token_of};
ghost use Rattle.depot.specs.Answering.{permits};
ghost use Rattle.depot.specs.FirstGet.{fs_call, fs_get, sizes_of};
ghost use Rattle.depot.specs.ObjectCalls.{TellsName};
ghost use Rattle.depot.specs.Story.{IsAnswered, IsOther, IsSame};
ghost use Rattle.depot.specs.Unjudged.{judged};
ghost use Rattle.sync_calls.specs.Door.{admits};
ghost use Rattle.sync_calls.specs.FirstAsking.{AsksTooMuch};

use crate::door::{Door, admits};
use depot::{Depot, Unjudged};
use ids::{Key, Kind, ObjId};
use library_state::{Act, Call, Secret};
use object_store::Shelf;
use std::snapshot::Snapshot;

/// A question to a library.
pub(crate) trait Question<S: Shelf>: Drop {
    ghost use Rattle.std.specs.Prelude.{◌≡◌, false, true};
    ghost use Rattle.library_state.specs.declared.call.Call.{Call};
    ghost use Rattle.library_state.specs.declared.refusal.Refusal.TheVariants.{NoMemory};
    ghost use Rattle.library_state.specs.declared.reply.Reply.TheVariants as reply;
    ghost use Rattle.depot.specs.DepotView.{DepotView};
    ghost use Rattle.depot.specs.Story.{IsAnswered, IsOther, IsSame};
    ghost use Rattle.depot.specs.Unjudged.{judged};
    ghost use Rattle.sync_calls.specs.Door.{admits};

    // The call that is asked.
    ghost call: { Self → Call };

    // The libraries of which too much is asked: they answer with want of memory, and stay as they are.
    ghost too_much: { Self → DepotView S → Type 0 };

    // What is told with the call is right.
    ghost fits: { Self → Type 0 };

    /// Whether a door lets in the one who asks.
    fn is_admitted(&self, door: &Door) -> bool
        ensures { result ≡ admits door.now (call self.now).secret (call self.now).act };

    /// The call, for the history.
    fn asked(&self) -> Snapshot<Call>
        ensures { result.value ≡ call self.now };

    /// Asks, and tells whether that changed the library.
    fn tell(self, depot: &mut Depot<S>, moment: u64) -> (Unjudged, bool)
        requires named { fits self }
        ensures answered { IsAnswered S.contents S.may_give S.texts S.faults depot.old (call self) moment (judged result.0) depot.new }
        ensures spares { too_much self depot.old → (judged result.0 ≡ reply.Refused NoMemory) × (depot.new ≡ depot.old) }
        ensures same { result.1 ≡ false → IsSame S.contents S.faults depot.old depot.new }
        ensures other { result.1 ≡ true → IsOther S.contents S.faults depot.old depot.new };
}

/// A call that is lent.
#[derive(Drop)]
pub(crate) struct Lent<'a> {
    pub call: &'a Call,
}

impl<S: Shelf> Question<S> for Lent<'_> {
    ghost use Rattle.std.specs.Prelude.{⊤};

    ghost call = { λ question. question.call.now };

    ghost too_much = { λ _ _. ⊥ };

    ghost fits = { λ _. ⊤ };

    fn is_admitted(&self, door: &Door) -> bool {
        admits(door, &self.call.secret, &self.call.act)
    }

    fn asked(&self) -> Snapshot<Call> {
        Snapshot::of(self.call)
    }

    fn tell(self, depot: &mut Depot<S>, moment: u64) -> (Unjudged, bool) {
        let (reply, changed) = depot.tell(self.call, moment);
        (Unjudged::Told(reply), changed)
    }
}

/// A call that is handed over, with the SHA-1 of the block that it puts, where that was made before the turn.
#[derive(Drop)]
pub(crate) struct Own {
    pub call: Call,
    pub name: Option<ObjId>,
}

impl<S: Shelf> Question<S> for Own {
    ghost use Rattle.depot.specs.ObjectCalls.{TellsName};

    ghost call = { λ question. question.call };

    ghost too_much = { λ _ _. ⊥ };

    ghost fits = { λ question. TellsName question.call.act question.name };

    fn is_admitted(&self, door: &Door) -> bool {
        admits(door, &self.call.secret, &self.call.act)
    }

    fn asked(&self) -> Snapshot<Call> {
        Snapshot::of(&self.call)
    }

    fn tell(self, depot: &mut Depot<S>, moment: u64) -> (Unjudged, bool) {
        let Own { call, name } = self;
        depot.tell_unjudged(call, name, moment)
    }
}

/// A file or directory that is asked for, with those that will be asked for after it and how many bytes all may have.
#[derive(Drop)]
pub(crate) struct First<'a> {
    pub secret: &'a Option<Secret>,
    pub id: ObjId,
    pub more: &'a [ObjId],
    pub most: u64,
}

impl<S: Shelf> Question<S> for First<'_> {
    ghost use Rattle.std.specs.Prelude.{◌∷◌, ⊤};
    ghost use Rattle.depot.specs.FirstGet.{fs_call};
    ghost use Rattle.sync_calls.specs.FirstAsking.{AsksTooMuch};

    ghost call = { λ question. fs_call question.secret.now question.id };

    ghost too_much = { λ question depot. AsksTooMuch question.secret.now (question.id ∷ question.more.now) question.most depot };

    ghost fits = { λ _. ⊤ };

    fn is_admitted(&self, door: &Door) -> bool {
        admits(door, self.secret, &get_of(self.id))
    }

    fn asked(&self) -> Snapshot<Call> {
        Snapshot::of(&Call {
            secret: *self.secret,
            act: get_of(self.id),
        })
    }

    fn tell(self, depot: &mut Depot<S>, moment: u64) -> (Unjudged, bool) {
        let (reply, changed) = depot.tell_first(self.secret, self.id, self.more, self.most, moment);
        (Unjudged::Told(reply), changed)
    }
}

/// A question for a file or directory.
fn get_of(id: ObjId) -> Act
    ensures { result ≡ fs_get id }
{
    Act::Get(Key { kind: Kind::Fs, id })
}
