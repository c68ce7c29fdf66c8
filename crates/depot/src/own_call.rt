//! Calls that are handed over: a block that is put is not copied by a shelf that keeps it in memory.
ghost use Rattle.std.specs.Prelude.{false, ◌≡◌, ◌⊎◌, Some};
ghost use Rattle.sha1.specs.Sha1.{sha1};
ghost use Rattle.ids.specs.Key.{Objects};
ghost use Rattle.ids.specs.declared.key.Kind.TheVariants as kinds;
ghost use Rattle.library_rules.specs.Calls.{token_of};
ghost use Rattle.library_rules.specs.Files.{KeepsKept};
ghost use Rattle.library_rules.specs.LateUpdates.{TakesUploaded};
ghost use Rattle.library_rules.specs.LibraryState.{State};
ghost use Rattle.library_rules.specs.Uploads.{KeepsSafe, TellsSafe};
ghost use Rattle.library_state.specs.declared.call.Act.TheVariants as act;
ghost use Rattle.object_store.specs.StoreView.{AddsNoStray, objects_of, status_of};
ghost use Rattle.depot.specs.Answering.{MayAnswer, MayAsk, Serves, ServesAct, permits};
ghost use Rattle.depot.specs.DepotView.{IsGood, state_of};
ghost use Rattle.depot.specs.Giving.{GivesBy, IsObject, IsPut, MayLay};
ghost use Rattle.depot.specs.Held.{HoldsPut, IndexSo};
ghost use Rattle.depot.specs.ObjectCalls.{Counts, DoneSo, IsToldDamage, TellsName, is_counted, store_decided, store_due};
ghost use Rattle.depot.specs.Unjudged.{judged};
ghost use Rattle.depot.specs.Writing.{with_stored};

use crate::answering::permitted_place;
use crate::depot::Depot;
use crate::object_calls::end_put;
use crate::refusals::store_refusal;
use crate::shields::freshen;
use crate::unjudged::{Unjudged, judged};
use ids::{Bytes, Key, Kind, ObjId};
use library_state::{Act, Call, Refusal, Reply};
use object_store::{Put, Shelf, Store};

impl<S: Shelf> Depot<S> {
    /// Answers a call that is handed over, as `answer` does. A block that is put lies on a shelf in memory where it lay in
    /// the call. The SHA-1 of what is put may be told with it, and isn't made again then.
    pub fn answer_own(&mut self, call: Call, name: Option<ObjId>, moment: u64) -> Reply
        requires named { TellsName call.act name }
        ensures serves { Serves S.contents S.may_give S.texts S.faults self.old call moment result self.new }
        ensures gives { GivesBy (MayLay self.old.state.lib call.act) (S.may_give self.old.store.shelf) (S.may_give self.new.store.shelf) }
        ensures held { IndexSo call.act result self.old.store.index self.new.store.index }
        ensures stands { IsGood S.contents S.faults self.new }
        ensures files { (s : State) → (t : State) → state_of S.contents S.faults self.old ≡ Some s → state_of S.contents S.faults self.new ≡ Some t → KeepsKept s t }
        ensures safe { (s : State) → (t : State) → state_of S.contents S.faults self.old ≡ Some s → state_of S.contents S.faults self.new ≡ Some t
            → KeepsSafe s t × TellsSafe call.act result t × TakesUploaded s call result }
        ensures denied { permits (token_of self.old.state.tokens call.secret) call.act ≡ false → result ≡ Reply.Refused Refusal.Denied }
        ensures stays { self.new.state.lib ≡ self.old.state.lib }
    {
        let answer = self.answer_unjudged(call, name, moment);
        judged(answer)
    }

    /// The same, where bytes that are got are still to be judged.
    pub(crate) fn answer_unjudged(
        &mut self,
        call: Call,
        name: Option<ObjId>,
        moment: u64,
    ) -> Unjudged
        requires named { TellsName call.act name }
        ensures serves { Serves S.contents S.may_give S.texts S.faults self.old call moment (judged result) self.new }
        ensures gives { GivesBy (MayLay self.old.state.lib call.act) (S.may_give self.old.store.shelf) (S.may_give self.new.store.shelf) }
        ensures held { IndexSo call.act (judged result) self.old.store.index self.new.store.index }
        ensures stands { IsGood S.contents S.faults self.new }
        ensures files { (s : State) → (t : State) → state_of S.contents S.faults self.old ≡ Some s → state_of S.contents S.faults self.new ≡ Some t → KeepsKept s t }
        ensures safe { (s : State) → (t : State) → state_of S.contents S.faults self.old ≡ Some s → state_of S.contents S.faults self.new ≡ Some t
            → KeepsSafe s t × TellsSafe call.act (judged result) t × TakesUploaded s call (judged result) }
        ensures denied { permits (token_of self.old.state.tokens call.secret) call.act ≡ false → judged result ≡ Reply.Refused Refusal.Denied }
        ensures stays { self.new.state.lib ≡ self.old.state.lib }
    {
        match permitted_place(self.parts.state.tokens.slice(), &call.secret, &call.act) {
            Some(place) => {
                let answer = self.answer_own_permitted(call, name, place, moment);
                // Tells the proof that the library is good.
                let _ = &self.parts;
                answer
            }
            None => {
                drop(call);
                Unjudged::Told(Reply::Refused(Refusal::Denied))
            }
        }
    }

    /// Answers a call of one who may ask it, by the token at a place.
    fn answer_own_permitted(
        &mut self,
        call: Call,
        name: Option<ObjId>,
        place: usize,
        moment: u64,
    ) -> Unjudged
        requires who { MayAsk self.old.state.tokens call.secret call.act place }
        requires named { TellsName call.act name }
        ensures value { Serves S.contents S.may_give S.texts S.faults self.old call moment (judged result) self.new }
        ensures gives { GivesBy (MayLay self.old.state.lib call.act) (S.may_give self.old.store.shelf) (S.may_give self.new.store.shelf) }
        ensures held { IndexSo call.act (judged result) self.old.store.index self.new.store.index }
    {
        let Call { secret, act } = call;
        match act {
            Act::Put(key, bytes) => Unjudged::Told(self.put_own(&key, bytes, name)),
            Act::Get(key) => self.get_unjudged(&key),
            act => {
                let call = Call { secret, act };
                let reply = self.answer_permitted(&call, place, moment);
                drop(call);
                Unjudged::Told(reply)
            }
        }
    }

    /// Stores an object.
    fn put_own(&mut self, key: &Key, bytes: Bytes, name: Option<ObjId>) -> Reply
        requires named { TellsName (act.Put key.now bytes) name }
        ensures value { ServesAct S.contents S.may_give S.texts S.faults self.old (act.Put key.now bytes) result self.new }
        ensures gives { GivesBy (IsPut key.now bytes) (S.may_give self.old.store.shelf) (S.may_give self.new.store.shelf) }
        ensures held { HoldsPut key.now result self.old.store.index self.new.store.index }
    {
        match key.kind {
            Kind::Block => self.put_block(key, bytes, name),
            _ => {
                let reply = self.put(key, bytes.slice());
                drop(bytes);
                reply
            }
        }
    }

    /// Stores a block.
    fn put_block(&mut self, key: &Key, bytes: Bytes, name: Option<ObjId>) -> Reply
        requires ready { key.now.kind ≡ kinds.Block }
        requires named { TellsName (act.Put key.now bytes) name }
        ensures value { ServesAct S.contents S.may_give S.texts S.faults self.old (act.Put key.now bytes) result self.new }
        ensures gives { GivesBy (IsPut key.now bytes) (S.may_give self.old.store.shelf) (S.may_give self.new.store.shelf) }
        ensures held { HoldsPut key.now result self.old.store.index self.new.store.index }
    {
        let name = block_name(key, &bytes, name);
        let new = match freshen(self.parts.alloc, &mut self.running, &[*key]) {
            Ok(new) => new,
            Err(_) => {
                drop(bytes);
                return Reply::Refused(Refusal::NoMemory);
            }
        };
        let reply = store_block(&mut self.parts.store, key, bytes, &name);
        end_put(&mut self.running, &reply, &new);
        reply
    }
}

/// The SHA-1 of a block that is put, as it is told or made here.
fn block_name(key: &Key, bytes: &Bytes, name: Option<ObjId>) -> ObjId
    requires named { TellsName (act.Put key.now bytes.now) name }
    ensures value { result ≡ sha1 bytes.now }
{
    let _ = key;
    match name {
        Some(name) => name,
        None => ObjId::of(bytes.slice()),
    }
}

/// Stores bytes with this SHA-1, of which only the name and what is stored there are still to be looked at.
fn store_block<S: Shelf>(store: &mut Store<S>, key: &Key, bytes: Bytes, name: &ObjId) -> Reply
    requires named { name.now ≡ sha1 bytes }
    ensures value { (s : State) → objects_of S.contents store.old ≡ Some s.objects
        → DoneSo s.objects (store_due s key.now bytes) result (objects_of S.contents store.new) }
    ensures stays { status_of S.contents store.new ≡ status_of S.contents store.old }
    ensures stored { (objects_of S.contents store.new ≡ objects_of S.contents store.old)
        ⊎ (objects_of S.contents store.new ≡ with_stored (record { key = key.now; bytes = bytes }) (objects_of S.contents store.old)) }
    ensures held { HoldsPut key.now result store.old.index store.new.index }
    ensures cause { MayAnswer store.old.index (S.may_give store.new.shelf) (act.Put key.now bytes) (store_decided key.now bytes) result }
    ensures damaged { (objects : Objects) → objects_of S.contents store.old ≡ Some objects → IsToldDamage objects result }
    ensures lying { is_counted result ≡ false → AddsNoStray S.contents store.old store.new }
    ensures written { S.texts store.new.shelf ≡ S.texts store.old.shelf }
    ensures gives { GivesBy (IsObject key.now bytes) (S.may_give store.old.shelf) (S.may_give store.new.shelf) }
    ensures faults { Counts (S.faults store.old.shelf) (S.faults store.new.shelf) result }
{
    match store.put_own(*key, bytes, name) {
        Ok(Put::New) => Reply::Stored(true),
        Ok(Put::Same) => Reply::Stored(false),
        Err(fault) => Reply::Refused(store_refusal(fault)),
    }
}
