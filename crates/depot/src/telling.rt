//! Calls and turns that tell whether they changed the library.
ghost use Rattle.std.specs.Prelude.{◌≡◌, ◌≢◌, ◌<◌, ◌≤◌, ◌⊎◌, ◌∷◌, false, true, Some};
ghost use Rattle.std.specs.FinMap as map;
ghost use Rattle.ids.specs.Key.{Objects};
ghost use Rattle.library_rules.specs.Calls.{token_of};
ghost use Rattle.library_state.specs.declared.call.Act.TheVariants as act;
ghost use Rattle.object_store.specs.StoreView.{objects_of};
ghost use Rattle.depot.specs.Answering.{permits};
ghost use Rattle.depot.specs.DepotView.{running_of};
ghost use Rattle.depot.specs.FirstGet.{fs_call, fs_get, sizes_of};
ghost use Rattle.depot.specs.ObjectCalls.{TellsName};
ghost use Rattle.depot.specs.Story.{IsAnswered, IsOther, IsSame, IsTurned};
ghost use Rattle.depot.specs.Telling.{AreFigures, CountsFresh, checked_secret, is_step, last_seen};
ghost use Rattle.depot.specs.Unjudged.{judged};

use crate::answering::place_of;
use crate::collection::Collection;
use crate::depot::Depot;
use crate::turn::Turn;
use crate::unjudged::{Unjudged, judged};
use ids::ObjId;
use library_state::{Act, Call, Op, Refusal, Reply, Secret, Token};
use object_store::Shelf;

impl<S: Shelf> Depot<S> {
    /// Answers a call as `answer` does, and tells whether that changed the library: its state, the collection that runs, its
    /// objects or the count of faults.
    ///
    /// A call that is refused may have changed it: the shelf failed, or objects of a merge were stored.
    pub fn tell(&mut self, call: &Call, moment: u64) -> (Reply, bool)
        ensures answered { IsAnswered S.contents S.may_give S.texts S.faults self.old call.now moment result.0 self.new }
        ensures same { result.1 ≡ false → IsSame S.contents S.faults self.old self.new }
        ensures other { result.1 ≡ true → IsOther S.contents S.faults self.old self.new }
    {
        let secret = checked_secret(call);
        let before = self.figures(&secret);
        let reply = self.answer(call, moment);
        let after = self.figures(&secret);
        let changed = differ(&before, &after);
        (reply, changed)
    }

    /// Answers a call that is handed over, as `answer_own` does, and tells whether that changed the library, as `tell` does.
    pub fn tell_own(&mut self, call: Call, name: Option<ObjId>, moment: u64) -> (Reply, bool)
        requires named { TellsName call.act name }
        ensures answered { IsAnswered S.contents S.may_give S.texts S.faults self.old call moment result.0 self.new }
        ensures same { result.1 ≡ false → IsSame S.contents S.faults self.old self.new }
        ensures other { result.1 ≡ true → IsOther S.contents S.faults self.old self.new }
    {
        let (answer, changed) = self.tell_unjudged(call, name, moment);
        (judged(answer), changed)
    }

    /// The same, where bytes that are got are still to be judged: who has a turn here can hash them after it.
    pub fn tell_unjudged(
        &mut self,
        call: Call,
        name: Option<ObjId>,
        moment: u64,
    ) -> (Unjudged, bool)
        requires named { TellsName call.act name }
        ensures answered { IsAnswered S.contents S.may_give S.texts S.faults self.old call moment (judged result.0) self.new }
        ensures same { result.1 ≡ false → IsSame S.contents S.faults self.old self.new }
        ensures other { result.1 ≡ true → IsOther S.contents S.faults self.old self.new }
    {
        let secret = checked_secret(&call);
        let before = self.figures(&secret);
        let answer = self.answer_unjudged(call, name, moment);
        let after = self.figures(&secret);
        let changed = differ(&before, &after);
        (answer, changed)
    }

    /// Answers the first Get of several, as `get_first` does, and tells whether that changed the library, as `tell` does: it
    /// did only where the shelf failed.
    pub fn tell_first(
        &mut self,
        secret: &Option<Secret>,
        id: ObjId,
        more: &[ObjId],
        most: u64,
        moment: u64,
    ) -> (Reply, bool)
        ensures answered { IsAnswered S.contents S.may_give S.texts S.faults self.old (fs_call secret.now id) moment result.0 self.new }
        ensures bound { permits (token_of self.old.state.tokens secret.now) (fs_get id) ≡ true → most < sizes_of self.old.store.index (id ∷ more.now)
            → result.0 ≡ Reply.Refused Refusal.NoMemory }
        ensures untouched { permits (token_of self.old.state.tokens secret.now) (fs_get id) ≡ true → most < sizes_of self.old.store.index (id ∷ more.now)
            → self.new ≡ self.old }
        ensures same { result.1 ≡ false → IsSame S.contents S.faults self.old self.new }
        ensures other { result.1 ≡ true → IsOther S.contents S.faults self.old self.new }
    {
        let none = None;
        let before = self.figures(&none);
        let reply = self.get_first(secret, id, more, most, moment);
        let after = self.figures(&none);
        let changed = differ(&before, &after);
        (reply, changed)
    }

    /// Takes a turn as `turn_of_collection` does, and tells whether that changed the library, as `tell` does. So does each step
    /// of a collection, and a turn that is refused where the shelf failed or keys left.
    pub fn tell_turn(&mut self, goal: Option<u64>, moment: u64, at_most: u64) -> (Turn, bool)
        requires some { 1 ≤ at_most }
        ensures turned { IsTurned S.contents S.may_give S.texts S.faults self.old goal moment at_most result.0 self.new }
        ensures same { result.1 ≡ false → IsSame S.contents S.faults self.old self.new }
        ensures other { result.1 ≡ true → IsOther S.contents S.faults self.old self.new }
    {
        let secret = None;
        let before = self.figures(&secret);
        let turn = self.turn_of_collection(goal, moment, at_most);
        let after = self.figures(&secret);
        let changed = is_change(&turn, &before, &after);
        (turn, changed)
    }

    /// Figures of the library as it is, with what the token of a secret saw.
    fn figures(&self, secret: &Option<Secret>) -> Figures
        ensures value { AreFigures (S.faults self.now.store.shelf) (map.len self.now.store.index) secret.now self.now.state self.now.running result }
        ensures shown { (held : Objects) → objects_of S.contents self.now.store ≡ Some held → map.len self.now.store.index ≡ map.len held }
    {
        let objects = self.parts.store.count();
        Figures {
            faults: self.parts.store.faults(),
            objects,
            updates: self.parts.state.kept.slice().len(),
            days: self.parts.state.days,
            last: last_seen(self.parts.state.tokens.slice(), secret),
            fresh: fresh_count(&self.running),
        }
    }
}

/// Figures of a library, one of which is another wherever a call changed it.
#[derive(Clone, Copy)]
pub(crate) struct Figures {
    pub faults: u64,
    pub objects: u64,
    pub updates: usize,
    pub days: i64,
    pub last: Option<u64>,
    pub fresh: usize,
}

/// Whether one figure is another.
fn differ(before: &Figures, after: &Figures) -> bool
    ensures same { result ≡ false → before.now ≡ after.now }
    ensures other { result ≡ true → before.now ≢ after.now }
{
    before.faults != after.faults
        || before.objects != after.objects
        || before.updates != after.updates
        || before.days != after.days
        || before.last != after.last
        || before.fresh != after.fresh
}

/// Whether a turn is a step, or one figure is another.
fn is_change(turn: &Turn, before: &Figures, after: &Figures) -> bool
    ensures same { result ≡ false → (is_step turn.now ≡ false) × (before.now ≡ after.now) }
    ensures other { result ≡ true → (is_step turn.now ≡ true) ⊎ (before.now ≢ after.now) }
{
    if is_step(turn) {
        return true;
    }
    differ(before, after)
}

/// Whether a turn is a step of a collection that isn't refused.
fn is_step(turn: &Turn) -> bool
    ensures value { result ≡ is_step turn.now }
{
    match turn {
        Turn::Began(_) => true,
        Turn::Marked(_) => true,
        Turn::Swept(_) => true,
        Turn::Ended(_) => true,
        _ => false,
    }
}

/// The secret of an upload check, the one act that changes a token.
fn checked_secret(call: &Call) -> Option<Secret>
    ensures value { result ≡ checked_secret call.now.act call.now.secret }
{
    match &call.act {
        Act::Check(op) => uploading(*op, &call.secret),
        _ => None,
    }
}

/// The secret, where the check is one of an upload.
fn uploading(op: Op, secret: &Option<Secret>) -> Option<Secret>
    ensures value { result ≡ checked_secret (act.Check op) secret.now }
{
    match op {
        Op::Upload => *secret,
        Op::Download => None,
    }
}

/// The last collection that the token of a secret saw.
fn last_seen(tokens: &[Token], secret: &Option<Secret>) -> Option<u64>
    ensures value { result ≡ last_seen tokens.now secret.now }
{
    let shown = match secret {
        Some(shown) => shown,
        None => return None,
    };
    match place_of(tokens, shown) {
        Some(place) => Some(tokens[place].last),
        None => None,
    }
}

/// How many keys are fresh.
fn fresh_count(running: &Option<Collection>) -> usize
    ensures value { CountsFresh (running_of running.now) result }
{
    match running {
        Some(collection) => collection.fresh_count(),
        None => 0,
    }
}
