//! What a library answers to a call.
ghost use Rattle.std.specs.Prelude.{◌≡◌, IfNone, IfSome, None, Some, false, nat_le};
ghost use Rattle.ids.specs.Key.{Objects};
ghost use Rattle.library_rules.specs.Calls.{token_of};
ghost use Rattle.library_rules.specs.Files.{KeepsKept};
ghost use Rattle.library_rules.specs.LateUpdates.{TakesUploaded};
ghost use Rattle.library_rules.specs.LibraryState.{State};
ghost use Rattle.library_rules.specs.Uploads.{KeepsSafe, TellsSafe};
ghost use Rattle.library_state.specs.Rights.{right_number};
ghost use Rattle.object_store.specs.StoreView.{AddsNoStray, objects_of, status_of};
ghost use Rattle.depot.specs.Answering.{AnswersBySome, MayAnswer, MayAsk, Serves, SlotSo, Would, decided, permits, state_after};
ghost use Rattle.depot.specs.Changing.{IsPlaceOf};
ghost use Rattle.depot.specs.DepotView.{IsGood, state_of};
ghost use Rattle.depot.specs.FreshKeys.{RunsOn, told_there};
ghost use Rattle.depot.specs.Giving.{GivesBy, MayLay};
ghost use Rattle.depot.specs.Held.{IndexSo};
ghost use Rattle.depot.specs.ObjectCalls.{Counts, IsToldDamage, is_counted};

use crate::depot::Depot;
use library_rules::right_needed;
use library_state::{Act, Call, Refusal, Reply, Right, Secret, Token};
use object_store::Shelf;

impl<S: Shelf> Depot<S> {
    /// Answers a call at a moment, in seconds since 1970-01-01 UTC, as the rules of a library say that it is due.
    ///
    /// A refused call leaves the library as it was, but for the count of the shelf's faults; a refused merge may have
    /// stored some of its objects. Where the shelf failed as the text was written, the slot holds the library's text or
    /// the one of the state that the call would have made.
    pub fn answer(&mut self, call: &Call, moment: u64) -> Reply
        ensures shown { (s : State) → state_of S.contents S.faults self.old ≡ Some s
            → AnswersBySome s call.now moment result (state_of S.contents S.faults self.new) }
        ensures stands { IsGood S.contents S.faults self.new }

        // Each kept commit keeps its files; what was safe from a collection stays so, and what is told to be stored is; and an
        // update is not late whose upload is complete.
        ensures files { (s : State) → (t : State) → state_of S.contents S.faults self.old ≡ Some s → state_of S.contents S.faults self.new ≡ Some t → KeepsKept s t }
        ensures safe { (s : State) → (t : State) → state_of S.contents S.faults self.old ≡ Some s → state_of S.contents S.faults self.new ≡ Some t
            → KeepsSafe s t × TellsSafe call.now.act result t × TakesUploaded s call.now result }

        // Of every shelf: what the state decides, and the cause of each fault.
        ensures denied { permits (token_of self.old.state.tokens call.now.secret) call.now.act ≡ false → result ≡ Reply.Refused Refusal.Denied }
        ensures cause { MayAnswer self.old.store.index (S.may_give self.new.store.shelf) call.now.act (decided self.old.state call.now) result }
        ensures damaged { (objects : Objects) → objects_of S.contents self.old.store ≡ Some objects → IsToldDamage objects result }
        ensures faults { Counts (S.faults self.old.store.shelf) (S.faults self.new.store.shelf) result }
        ensures gives { GivesBy (MayLay self.old.state.lib call.now.act) (S.may_give self.old.store.shelf) (S.may_give self.new.store.shelf) }
        ensures held { IndexSo call.now.act result self.old.store.index self.new.store.index }

        // What is left beside the objects, and what the slot holds.
        ensures left { self.new.state ≡ state_after self.old.state call.now moment result }
        ensures lying { is_counted result ≡ false → AddsNoStray S.contents self.old.store self.new.store }
        ensures stays { self.new.state.lib ≡ self.old.state.lib }
        ensures running { RunsOn self.old.store.index self.new.store.index (told_there self.old.store.index call.now.act result) self.old.running self.new.running }
        ensures marked { self.new.marked ≡ self.old.marked }
        ensures text { SlotSo (Would S.contents S.faults self.old call.now moment) call.now moment result self.old.unsettled self.old.state (status_of S.contents self.old.store)
            self.new.unsettled self.new.state (status_of S.contents self.new.store) (S.texts self.old.store.shelf) (S.texts self.new.store.shelf) }
    {
        match permitted_place(self.parts.state.tokens.slice(), &call.secret, &call.act) {
            Some(place) => {
                let reply = self.answer_permitted(call, place, moment);
                // Tells the proof that the library is good.
                let _ = &self.parts;
                reply
            }
            None => Reply::Refused(Refusal::Denied),
        }
    }

    /// Answers a call of one who may ask it, by the token at a place.
    pub(crate) fn answer_permitted(&mut self, call: &Call, place: usize, moment: u64) -> Reply
        requires who { MayAsk self.old.state.tokens call.now.secret call.now.act place }
        ensures value { Serves S.contents S.may_give S.texts S.faults self.old call.now moment result self.new }
        ensures gives { GivesBy (MayLay self.old.state.lib call.now.act) (S.may_give self.old.store.shelf) (S.may_give self.new.store.shelf) }
        ensures held { IndexSo call.now.act result self.old.store.index self.new.store.index }
    {
        match &call.act {
            Act::Check(op) => self.check(place, *op),
            Act::Head => Reply::HeadIs(self.head()),
            Act::Get(key) => self.get(key),
            Act::Put(key, bytes) => self.put(key, bytes.slice()),
            Act::Missing(kind, ids) => self.missing(*kind, ids.slice()),
            Act::Update(pushed) => self.update(place, *pushed, moment),
            Act::Limit(days) => self.limit(*days),
            Act::Ids(server, client) => self.list(server, client),
        }
    }
}

/// The place of the first token of the secret, where its right is enough for the act.
pub(crate) fn permitted_place(tokens: &[Token], secret: &Option<Secret>, act: &Act) -> Option<usize>
    ensures found { IfSome result (MayAsk tokens.now secret.now act.now) }
    ensures absent { IfNone result (permits (token_of tokens.now secret.now) act.now ≡ false) }
{
    let shown = match secret {
        Some(shown) => shown,
        None => return None,
    };
    let place = match place_of(tokens, shown) {
        Some(place) => place,
        None => return None,
    };
    if is_enough(right_needed(act), tokens[place].right) {
        Some(place)
    } else {
        None
    }
}

/// The place of the first token of a secret.
pub(crate) fn place_of(tokens: &[Token], secret: &Secret) -> Option<usize>
    ensures found { IfSome result (IsPlaceOf tokens.now secret.now) }
    ensures absent { IfNone result (token_of tokens.now (Some secret.now) ≡ None) }
{
    for (place, token) in tokens.iter().enumerate() {
        if secret.is(&token.secret) {
            return Some(place);
        }
    }
    None
}

/// Whether a right is enough where another is needed: each right has those before it.
fn is_enough(needed: Right, right: Right) -> bool
    ensures value { result ≡ nat_le (right_number needed) (right_number right) }
{
    needed <= right
}
