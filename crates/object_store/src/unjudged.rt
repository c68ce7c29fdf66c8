//! What a store reads from its shelf where the name of the bytes is looked at later.
ghost use Rattle.std.specs.Prelude.{◌≡◌};
ghost use Rattle.object_store.specs.Steps.{FetchesWhole, judged_fetch};
ghost use Rattle.object_store.specs.Store.{CountsShelf};
ghost use Rattle.object_store.specs.StoreView.{ReadsShelf};

use crate::error::StoreFault;
use crate::fetching::fault_of;
use crate::shelf::{Shelf, Slot};
use ids::{Bytes, Key};

/// The bytes of a stored object, which may be another's.
pub(crate) fn fetch_unjudged<S: Shelf>(shelf: &mut S, key: &Key) -> Result<Bytes, StoreFault>
    ensures value { FetchesWhole (S.may_give shelf.new) key.now (judged_fetch key.now result) }
    ensures stays { S.contents shelf.new ≡ S.contents shelf.old }
    ensures shelf { ReadsShelf S.may_give S.texts shelf.old shelf.new }
    ensures faults { CountsShelf (S.faults shelf.old) (S.faults shelf.new) result }
{
    match shelf.fetch(Slot::Object(*key)) {
        Ok(Some(bytes)) => Ok(bytes),
        Ok(None) => Err(StoreFault::Damaged {
            want: key.id,
            got: None,
        }),
        Err(failed) => Err(fault_of(failed)),
    }
}
