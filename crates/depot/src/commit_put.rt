//! A commit that is made here, stored under its name.
ghost use Rattle.std.specs.Prelude.{◌≡◌, Some, IfErr, OnOk, OnErr, Ok};
ghost use Rattle.ids.specs.Key.{Objects};
ghost use Rattle.ids.specs.Outcome.{RefusesAs};
ghost use Rattle.library_rules.specs.Creation.{opening_object};
ghost use Rattle.object_graph.specs.Objects.{commit_at};
ghost use Rattle.object_store.specs.Shelf.{GivesAlso};
ghost use Rattle.object_store.specs.Store.{CountsShelf, IsPutFault, is_free, is_of_shelf, put_refusal};
ghost use Rattle.object_store.specs.StoreView.{StraysBy, objects_of, status_of};
ghost use Rattle.object_store.specs.declared.shelf.Slot.TheVariants as slots;
ghost use Rattle.depot.specs.Writing.{HasProperParents, with_stored};

use commit_objects::Commit;
use ids::{Key, Kind};
use object_store::{Shelf, Store, StoreFault};
use std::alloc::Global;

/// Stores the text of a commit under its name, from where it is read as that commit.
pub(crate) fn put_commit<S: Shelf>(
    alloc: Global,
    store: &mut Store<S>,
    commit: &Commit,
) -> Result<(), StoreFault>
    ensures ok { OnOk result (objects_of S.contents store.new ≡ with_stored (opening_object commit.now) (objects_of S.contents store.old)) }
    ensures found { OnOk result ((objects : Objects) → objects_of S.contents store.new ≡ Some objects → HasProperParents commit.now
        → commit_at objects commit.now.id ≡ Ok commit.now) }
    ensures err { OnErr result (objects_of S.contents store.new ≡ objects_of S.contents store.old) }
    ensures stays { status_of S.contents store.new ≡ status_of S.contents store.old }
    ensures refused { (objects : Objects) → objects_of S.contents store.old ≡ Some objects
        → RefusesAs is_free result (put_refusal objects (opening_object commit.now).key (opening_object commit.now).bytes) }
    ensures cause { IfErr result (IsPutFault (S.may_give store.old.shelf) (opening_object commit.now).key (opening_object commit.now).bytes) }
    ensures gives { GivesAlso (S.may_give store.old.shelf) (S.may_give store.new.shelf) (slots.Object (opening_object commit.now).key) (Some (opening_object commit.now).bytes) }
    ensures lying { StraysBy is_of_shelf S.contents store.old store.new result }
    ensures faults { CountsShelf (S.faults store.old.shelf) (S.faults store.new.shelf) result }
{
    let text = match commit.write(alloc) {
        Ok(text) => text,
        Err(_) => return Err(StoreFault::NoMemory),
    };
    let key = Key {
        kind: Kind::Commit,
        id: commit.id,
    };
    match store.put(key, text.slice()) {
        Ok(_) => Ok(()),
        Err(fault) => Err(fault),
    }
}
