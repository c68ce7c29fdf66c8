//! The removal of what is neither needed nor shielded.
ghost use Rattle.std.specs.Prelude.{◌≡◌, ◌≢◌, ◌≤◌, [], true, IfErr, IfOk, IfSome, IsSome, IsTrue, None, length, min};
ghost use Rattle.std.specs.Result.{result_err};
ghost use Rattle.std.specs.FinMap as map;
ghost use Rattle.ids.specs.declared.key.Key.{Key};
ghost use Rattle.object_store.specs.Store.{CountsShelf, is_free};
ghost use Rattle.object_store.specs.StoreView.{status_of};
ghost use Rattle.collector.specs.Marks.{AreMarks, HasTheSameMarks};
ghost use Rattle.collector.specs.Opened.{HaveOpened};
ghost use Rattle.collector.specs.StoredCandidates.{AreStoredIn};
ghost use Rattle.collector.specs.Sweeping.{CountsSwept, EndsAtFault, EndsSo, GivesOrNothing, StraysAtEnd, TellsRest, Took, TookLeast, TookOne, is_listed};

use crate::marks::Marks;
use ids::{Key, KeyList, KeyTable};
use object_store::{Shelf, Store, StoreFault};

/// What a sweep removed, and the fault that ended it, if one did.
#[derive(Debug, Drop)]
pub struct Swept {
    /// The keys that are gone from the store, in their order.
    pub removed: KeyList,
    /// `Shelf`: one key at least is gone, and the bytes of the last, and of no other, may still lie there. `NoMemory`: no
    /// bytes of these keys lie there.
    pub fault: Option<StoreFault>,
}

impl Marks {
    /// Gives up candidates, the least keys first, up to so many; where no fault ends it, as many as that or all that are
    /// left. While an object waits to be marked it gives up none.
    pub fn sweep<S: Shelf>(&mut self, store: &mut Store<S>, at_most: u64) -> Swept
        requires some { 1 ≤ at_most }
        requires stored { AreStoredIn store.old.index self.old }
        ensures value { Took S.contents store.old store.new self.old.candidates self.new.candidates result.removed }
        ensures stays { HasTheSameMarks self.old self.new }
        ensures good { AreMarks self.new }
        ensures read { HaveOpened self.new }
        ensures none { self.old.pending ≢ [] → (result.removed ≡ []) × (result.fault ≡ None) }
        ensures size { self.old.pending ≡ [] → result.fault ≡ None → length result.removed ≡ min at_most (map.len self.old.candidates) }
        ensures few { length result.removed ≤ at_most }
        ensures free { IfSome result.fault (λ fault. IsTrue (is_free fault)) }
        ensures failed { EndsAtFault result.removed result.fault }
        ensures unwritten { status_of S.contents store.new ≡ status_of S.contents store.old }
        ensures gives { GivesOrNothing (S.may_give store.old.shelf) (S.may_give store.new.shelf) result.removed }
        ensures texts { S.texts store.new.shelf ≡ S.texts store.old.shelf }
        ensures order { TookLeast self.new.candidates result.removed }
        ensures lying { StraysAtEnd S.contents store.old store.new result.removed result.fault }
        ensures faults { CountsSwept (S.faults store.old.shelf) (S.faults store.new.shelf) result.fault }
    {
        let mut removed = Vec::new(self.alloc);
        if !self.work.is_done() {
            return answer_of(removed, Ok(()));
        }
        let ended = take_some(store, &mut self.candidates, &mut removed, at_most);
        answer_of(removed, ended)
    }
}

/// What a sweep answers that took these keys and ended so.
fn answer_of(removed: Vec<Key>, ended: Result<(), StoreFault>) -> Swept
    ensures value { (result.removed ≡ removed.items) × (result.fault ≡ result_err ended) }
{
    let removed = KeyList::from_vec(removed);
    match ended {
        Ok(()) => Swept {
            removed,
            fault: None,
        },
        Err(fault) => Swept {
            removed,
            fault: Some(fault),
        },
    }
}

/// Gives up the least candidates, up to so many, and lists them. It ends at the first fault.
fn take_some<S: Shelf>(
    store: &mut Store<S>,
    candidates: &mut KeyTable<()>,
    removed: &mut Vec<Key>,
    at_most: u64,
) -> Result<(), StoreFault>
    requires stored { (key : Key) → is_listed candidates.old key ≡ true → IsSome (map.get store.old.index key) }
    requires ready { removed.old.items ≡ [] }
    ensures value { Took S.contents store.old store.new candidates.old candidates.new removed.new.items }
    ensures size { IfOk result (λ done. length removed.new.items ≡ min at_most (map.len candidates.old)) }
    ensures few { length removed.new.items ≤ at_most }
    ensures free { IfErr result (λ fault. IsTrue (is_free fault)) }
    ensures failed { EndsSo removed.new.items result }
    ensures unwritten { status_of S.contents store.new ≡ status_of S.contents store.old }
    ensures gives { GivesOrNothing (S.may_give store.old.shelf) (S.may_give store.new.shelf) removed.new.items }
    ensures texts { S.texts store.new.shelf ≡ S.texts store.old.shelf }
    ensures order { TookLeast candidates.new removed.new.items }
    ensures lying { StraysAtEnd S.contents store.old store.new removed.new.items (result_err result) }
    ensures faults { CountsShelf (S.faults store.old.shelf) (S.faults store.new.shelf) result }
{
    while (removed.len() as u64) < at_most {
        let key = match candidates.next(None) {
            Some(key) => key,
            None => return Ok(()),
        };
        match take(store, candidates, removed, &key) {
            Ok(()) => {}
            Err(fault) => return Err(fault),
        }
    }
    Ok(())
}

/// Gives up a candidate and lists it. After want of memory it stays, and isn't listed; after a failure of the shelf it is gone.
///
/// Room in the list is made before the object goes: what is gone is always told.
fn take<S: Shelf>(
    store: &mut Store<S>,
    candidates: &mut KeyTable<()>,
    removed: &mut Vec<Key>,
    key: &Key,
) -> Result<(), StoreFault>
    requires stored { IsSome (map.get store.old.index key.now) }
    ensures value { TookOne S.contents store.old store.new candidates.old candidates.new removed.old.items removed.new.items key.now result }
    ensures free { IfErr result (λ fault. IsTrue (is_free fault)) }
    ensures unwritten { status_of S.contents store.new ≡ status_of S.contents store.old }
    ensures gives { GivesOrNothing (S.may_give store.old.shelf) (S.may_give store.new.shelf) removed.new.items }
    ensures texts { S.texts store.new.shelf ≡ S.texts store.old.shelf }
    ensures lying { StraysAtEnd S.contents store.old store.new removed.new.items (result_err result) }
    ensures faults { CountsShelf (S.faults store.old.shelf) (S.faults store.new.shelf) result }
{
    let told = removed.len();
    match removed.push(*key) {
        Ok(()) => {}
        Err(_) => return Err(StoreFault::NoMemory),
    }
    match store.give_up(*key) {
        Ok(()) => {
            candidates.remove(key);
            Ok(())
        }
        Err(fault) => {
            tell_rest(candidates, removed, key, told, &fault);
            Err(fault)
        }
    }
}

/// What is told where a candidate was refused: after a failure of the shelf it is gone and told, and after want of memory it
/// stays and the first ones alone are told.
fn tell_rest(
    candidates: &mut KeyTable<()>,
    removed: &mut Vec<Key>,
    key: &Key,
    told: usize,
    fault: &StoreFault,
)
    ensures value { TellsRest fault.now candidates.old candidates.new removed.old.items removed.new.items key.now told }
{
    match fault {
        StoreFault::Shelf => {
            candidates.remove(key);
        }
        StoreFault::NoMemory => removed.truncate(told),
        StoreFault::Taken(_) => {}
        StoreFault::Wrong(_) => {}
        StoreFault::Damaged { want: _, got: _ } => {}
    }
}
