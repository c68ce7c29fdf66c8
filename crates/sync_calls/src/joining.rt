//! Two passes of a hall that become one.
ghost use Rattle.std.specs.Prelude.{◌≡◌, ◌+◌, List};
ghost use Rattle.turnstile.specs.PassView.{parts_of, passes_of};
ghost use Rattle.sync_calls.specs.Hall.{AreReady, IsReadyAt, made_with, passes_in, shares_of};
ghost use Rattle.sync_calls.specs.Joining.{AreJoined, IsJoinedPass};

use crate::hall::{Hall, HallPass, Passes, Room};
use depot::Depot;
use object_store::Shelf;
use turnstile::{Pass, Turnstile};

impl<S: Shelf> Hall<S> {
    /// Makes one pass of two. It takes no memory.
    ///
    /// Of each library the pass has then seen the longer of both histories, which the shorter one begins, its book has the places
    /// of both, and the turns are those of both.
    pub fn join(&self, into: &mut HallPass<S>, from: HallPass<S>)
        requires ready { AreReady S.contents S.may_give S.texts S.faults self.now into.old × AreReady S.contents S.may_give S.texts S.faults self.now from }
        ensures ready { AreReady S.contents S.may_give S.texts S.faults self.now into.new }
        ensures told { AreJoined (passes_in into.old) (passes_in from) (passes_in into.new) }
        ensures size { (shares_of into.new ≡ shares_of into.old + shares_of from) × (made_with into.new ≡ made_with into.old) }
    {
        let Passes { mut passes, exit } = from;
        self.exit.join(&mut into.exit, exit);
        while let Some(pass) = passes.pop() {
            let place = passes.len();
            join_at(&self.rooms[place], &mut into.passes[place], pass);
        }
    }
}

/// The same of two passes to one room.
fn join_at<S: Shelf>(
    room: &Room<Turnstile<Depot<S>>, Depot<S>>,
    into: &mut Pass<Depot<S>>,
    from: Pass<Depot<S>>,
)
    requires ready { IsReadyAt S.contents S.may_give S.texts S.faults (parts_of into.old) (passes_of into.old) room.now into.old }
    requires second { IsReadyAt S.contents S.may_give S.texts S.faults (parts_of from) (passes_of from) room.now from }
    ensures ready { IsReadyAt S.contents S.may_give S.texts S.faults (parts_of into.old + parts_of from) (passes_of into.old) room.now into.new }
    ensures told { IsJoinedPass into.old from into.new }
{
    room.lock.join(into, from);
}
