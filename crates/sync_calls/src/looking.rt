//! A look at how long a library's history is, without a turn.
ghost use Rattle.std.specs.Prelude.{◌≡◌, List};
ghost use Rattle.turnstile.specs.PassView.{drawn_of, parts_of, passes_of};
ghost use Rattle.turnstile.specs.Rule.{most_turns};
ghost use Rattle.sync_calls.specs.Hall.{AreReady, IsReadyAt, StaySpent, drawn_by, made_with, shares_of, shown_by};
ghost use Rattle.sync_calls.specs.Looking.{GlancesOne, GlancesSo, glance_at};
ghost use Rattle.sync_calls.specs.Operations.{Line};
ghost use Rattle.sync_calls.specs.Shown.{shown_of};

use crate::asking::place_of;
use crate::door::admits;
use crate::hall::{Hall, HallPass, Room};
use depot::Depot;
use ids::LibId;
use library_state::{Act, Secret, Tag};
use object_store::Shelf;
use turnstile::{Pass, Turnstile};

/// What a look tells.
#[derive(Clone, Copy, Debug, PartialEq, Eq)]
pub enum Glance {
    /// No library has the id.
    NoLibrary,
    /// Who asks may not ask for the head.
    Denied,
    /// The tag names this opening of the library and as many changes as were made since the hall began.
    Same,
    /// It names another opening, or another number of changes.
    Other,
}

impl<S: Shelf> Hall<S> {
    /// Whether a library is still as a tag tells. It takes no turn and no memory.
    ///
    /// The number of changes is read once, in this call. `NoLibrary` and `Denied` come as of `ask`, for the head.
    pub fn unchanged(
        &self,
        pass: &mut HallPass<S>,
        lib: LibId,
        secret: &Option<Secret>,
        tag: Tag,
    ) -> Glance
        requires ready { AreReady S.contents S.may_give S.texts S.faults self.now pass.old }
        ensures ready { AreReady S.contents S.may_give S.texts S.faults self.now pass.new }
        ensures size { (shares_of pass.new ≡ shares_of pass.old) × (made_with pass.new ≡ made_with pass.old) }
        ensures drawn { StaySpent (drawn_by pass.old) (drawn_by pass.new) }
        ensures told { (lines : List Line) × GlancesSo S.contents S.may_give S.texts S.faults (shown_by pass.old) lib secret.now tag result lines (shown_by pass.new) }
    {
        let place = match place_of(self.rooms.as_slice(), &lib) {
            Some(place) => place,
            None => return Glance::NoLibrary,
        };
        look_at(&self.rooms[place], &mut pass.passes[place], secret, tag)
    }
}

/// The same of the library of a room.
fn look_at<S: Shelf>(
    room: &Room<Turnstile<Depot<S>>, Depot<S>>,
    pass: &mut Pass<Depot<S>>,
    secret: &Option<Secret>,
    tag: Tag,
) -> Glance
    requires ready { IsReadyAt S.contents S.may_give S.texts S.faults (parts_of pass.old) (passes_of pass.old) room.now pass.old }
    ensures ready { IsReadyAt S.contents S.may_give S.texts S.faults (parts_of pass.old) (passes_of pass.old) room.now pass.new }
    ensures drawn { drawn_of pass.old ≡ most_turns → drawn_of pass.new ≡ most_turns }
    ensures told { GlancesOne (shown_of pass.old) secret.now tag result (shown_of pass.new) }
{
    if !admits(&room.door, secret, &Act::Head) {
        return Glance::Denied;
    }
    let place = room.lock.count(pass);
    glance_at(room.door.opening, place, tag)
}

/// Whether the tag names this opening and this many changes.
fn glance_at(opening: u64, place: u64, tag: Tag) -> Glance
    ensures { result ≡ glance_at opening place tag }
{
    if tag.opening == opening && tag.count == place {
        Glance::Same
    } else {
        Glance::Other
    }
}
