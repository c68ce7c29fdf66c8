//! The first of several files and directories that are asked for one after another.
ghost use Rattle.std.specs.Prelude.{true, false, ◌≡◌, ◌<◌, ◌∷◌, Some, nat_le};
ghost use Rattle.library_rules.specs.Calls.{token_of};
ghost use Rattle.library_rules.specs.Files.{KeepsKept};
ghost use Rattle.library_rules.specs.LateUpdates.{TakesUploaded};
ghost use Rattle.library_rules.specs.LibraryState.{State};
ghost use Rattle.library_rules.specs.Uploads.{KeepsSafe, TellsSafe};
ghost use Rattle.object_store.specs.Shelf.{GivesNoMore};
ghost use Rattle.depot.specs.Answering.{Serves, permits};
ghost use Rattle.depot.specs.DepotView.{IsGood, state_of};
ghost use Rattle.depot.specs.FirstGet.{fs_call, fs_get, size_of, sizes_of};

use crate::answering::permitted_place;
use crate::depot::Depot;
use ids::{Key, Kind, ObjId};
use library_state::{Act, Call, Refusal, Reply, Secret};
use object_store::{Shelf, Store};

impl<S: Shelf> Depot<S> {
    /// Answers a call for a file or directory, after which `more` will be asked for, one after another.
    ///
    /// Where the index knows that they have together more than `most` bytes, each as often as it is named, one who may
    /// ask is answered with want of memory, and the library is as it was. Else the answer is that of `answer`.
    pub fn get_first(
        &mut self,
        secret: &Option<Secret>,
        id: ObjId,
        more: &[ObjId],
        most: u64,
        moment: u64,
    ) -> Reply
        ensures serves { Serves S.contents S.may_give S.texts S.faults self.old (fs_call secret.now id) moment result self.new }
        ensures gives { GivesNoMore (S.may_give self.old.store.shelf) (S.may_give self.new.store.shelf) }
        ensures held { self.new.store.index ≡ self.old.store.index }
        ensures stands { IsGood S.contents S.faults self.new }
        ensures files { (s : State) → (t : State) → state_of S.contents S.faults self.old ≡ Some s → state_of S.contents S.faults self.new ≡ Some t → KeepsKept s t }
        ensures safe { (s : State) → (t : State) → state_of S.contents S.faults self.old ≡ Some s → state_of S.contents S.faults self.new ≡ Some t
            → KeepsSafe s t × TellsSafe (fs_get id) result t × TakesUploaded s (fs_call secret.now id) result }
        ensures denied { permits (token_of self.old.state.tokens secret.now) (fs_get id) ≡ false → result ≡ Reply.Refused Refusal.Denied }
        ensures bound { permits (token_of self.old.state.tokens secret.now) (fs_get id) ≡ true → most < sizes_of self.old.store.index (id ∷ more.now)
            → result ≡ Reply.Refused Refusal.NoMemory }
        ensures untouched { permits (token_of self.old.state.tokens secret.now) (fs_get id) ≡ true → most < sizes_of self.old.store.index (id ∷ more.now)
            → self.new ≡ self.old }
    {
        let call = Call {
            secret: *secret,
            act: Act::Get(Key { kind: Kind::Fs, id }),
        };
        let place = match permitted_place(
            self.parts.state.tokens.slice(),
            &call.secret,
            &call.act,
        ) {
            Some(place) => place,
            None => return Reply::Refused(Refusal::Denied),
        };
        if !fit(&self.parts.store, &id, more, most) {
            return Reply::Refused(Refusal::NoMemory);
        }
        let reply = self.answer_permitted(&call, place, moment);
        // Tells the proof that the library is good.
        let _ = &self.parts;
        reply
    }
}

/// Whether the index knows a file or directory and more of them to have at most so many bytes together.
fn fit<S: Shelf>(store: &Store<S>, id: &ObjId, more: &[ObjId], most: u64) -> bool
    ensures value { result ≡ nat_le (sizes_of store.now.index (id.now ∷ more.now)) most }
{
    let mut total = size_of(store, id);
    if total > most {
        return false;
    }
    for next in more {
        let size = size_of(store, next);
        if size > most - total {
            return false;
        }
        total += size;
    }
    true
}

/// How many bytes the index knows a file or directory to have: none where it doesn't know it.
fn size_of<S: Shelf>(store: &Store<S>, id: &ObjId) -> u64
    ensures value { result ≡ size_of store.now.index id.now }
{
    let key = Key {
        kind: Kind::Fs,
        id: *id,
    };
    match store.has(key) {
        Some(size) => size,
        None => 0,
    }
}
