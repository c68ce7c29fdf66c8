//! A call that is asked of a hall: one that is lent, one that is handed over, or the first of several.
ghost use Rattle.std.specs.Prelude.{◌≡◌, ◌≢◌, ◌<◌, ◌∷◌, ℕ, List, length, slice_index_or, IfNone, IfSome};
ghost use Rattle.library_state.specs.declared.call.Act.TheVariants as act;
ghost use Rattle.depot.specs.FirstGet.{fs_call};
ghost use Rattle.depot.specs.ObjectCalls.{TellsName};
ghost use Rattle.turnstile.specs.PassView.{drawn_of, parts_of, passes_of};
ghost use Rattle.sync_calls.specs.Asking.{AsksSo, without_turn};
ghost use Rattle.sync_calls.specs.FirstAsking.{AsksOne, AsksTooMuch, SparesReading};
ghost use Rattle.turnstile.specs.Rule.{most_turns};
ghost use Rattle.sync_calls.specs.Hall.{AreReady, IsReadyAt, LibraryRoom, StaySpent, drawn_by, made_with, shares_of, shown_by};
ghost use Rattle.sync_calls.specs.Operations.{Line};
ghost use Rattle.sync_calls.specs.RoomPlace.{HasNoRoom, IsRoomOf};
ghost use Rattle.sync_calls.specs.Shown.{shown_of};

use crate::door::{Door, admits};
use crate::hall::{Hall, HallPass, Room};
use crate::question::{First, Lent, Own, Question};
use crate::served_turn::ask_behind_gate;
use depot::{Depot, judged};
use ids::{Bytes, Key, Kind, LibId, ObjId};
use library_state::{Act, Call, Refusal, Reply, Secret};
use object_store::Shelf;
use std::sync::Wait;
use turnstile::{Pass, Turnstile};

/// The answer to a call.
#[derive(Debug, Drop)]
pub struct Answer {
    /// The reply.
    pub reply: Reply,
    /// The opening number of the library, or 0 where no turn was taken.
    pub opening: u64,
    /// How many changes were made since the hall began, this one included; 0 where no turn was taken.
    pub place: u64,
}

impl<S: Shelf> Hall<S> {
    /// Asks a call of a library, at a moment in seconds since 1970-01-01 UTC. It may wait for a turn.
    ///
    /// `NoLibrary` comes exactly where no library has the id, and then `Denied` exactly where who asks may not, by the tokens with
    /// which the library came into the hall; neither takes a turn. `Spent` comes exactly where this call read `TURNS` as the next ticket
    /// of the library's lock. Else the call was answered in one turn, at a place of the history of which the pass has then seen
    /// all; a change is published at that place, and a read leaves the library as it was.
    pub fn ask<R: Wait>(
        &self,
        rt: &R,
        pass: &mut HallPass<S>,
        lib: LibId,
        call: &Call,
        moment: u64,
    ) -> Answer
        requires ready { AreReady S.contents S.may_give S.texts S.faults self.now pass.old }
        ensures ready { AreReady S.contents S.may_give S.texts S.faults self.now pass.new }
        ensures size { (shares_of pass.new ≡ shares_of pass.old) × (made_with pass.new ≡ made_with pass.old) }
        ensures drawn { StaySpent (drawn_by pass.old) (drawn_by pass.new) }
        ensures asks { (lines : List Line)
            × AsksSo S.contents S.may_give S.texts S.faults (shown_by pass.old) lib call.now moment result lines (shown_by pass.new) (drawn_by pass.new) }
    {
        ask_by(rt, self, pass, lib, Lent { call }, moment)
    }

    /// Asks a call that is handed over, as `ask` does. A block that is put lies on a shelf in memory where it lay in the call, and its
    /// SHA-1 is made before the turn, beside those who have one.
    pub fn ask_own<R: Wait>(
        &self,
        rt: &R,
        pass: &mut HallPass<S>,
        lib: LibId,
        call: Call,
        moment: u64,
    ) -> Answer
        requires ready { AreReady S.contents S.may_give S.texts S.faults self.now pass.old }
        ensures ready { AreReady S.contents S.may_give S.texts S.faults self.now pass.new }
        ensures size { (shares_of pass.new ≡ shares_of pass.old) × (made_with pass.new ≡ made_with pass.old) }
        ensures drawn { StaySpent (drawn_by pass.old) (drawn_by pass.new) }
        ensures asks { (lines : List Line)
            × AsksSo S.contents S.may_give S.texts S.faults (shown_by pass.old) lib call moment result lines (shown_by pass.new) (drawn_by pass.new) }
    {
        let name = name_before(self.rooms.as_slice(), &lib, &call);
        ask_by(rt, self, pass, lib, Own { call, name }, moment)
    }

    /// Asks for a file or directory, as `ask` does, after which `more` will be asked for, one after another.
    ///
    /// Where the index of the library, as it stands in this turn, knows that they have together more than `most` bytes, each as
    /// often as it is named, one who may ask is answered with want of memory, and the library is as it was.
    pub fn ask_first<R: Wait>(
        &self,
        rt: &R,
        pass: &mut HallPass<S>,
        lib: LibId,
        secret: &Option<Secret>,
        id: ObjId,
        more: &[ObjId],
        most: u64,
        moment: u64,
    ) -> Answer
        requires ready { AreReady S.contents S.may_give S.texts S.faults self.now pass.old }
        ensures ready { AreReady S.contents S.may_give S.texts S.faults self.now pass.new }
        ensures size { (shares_of pass.new ≡ shares_of pass.old) × (made_with pass.new ≡ made_with pass.old) }
        ensures drawn { StaySpent (drawn_by pass.old) (drawn_by pass.new) }
        ensures asks { (lines : List Line)
            × (asks : AsksSo S.contents S.may_give S.texts S.faults (shown_by pass.old) lib (fs_call secret.now id) moment result lines (shown_by pass.new) (drawn_by pass.new))
            × SparesReading (AsksTooMuch secret.now (id ∷ more.now) most) asks }
    {
        let question = First {
            secret,
            id,
            more,
            most,
        };
        ask_by(rt, self, pass, lib, question, moment)
    }
}

/// Asks a question of a library of a hall.
fn ask_by<S: Shelf, R: Wait, Q: Question<S>>(
    rt: &R,
    hall: &Hall<S>,
    pass: &mut HallPass<S>,
    lib: LibId,
    question: Q,
    moment: u64,
) -> Answer
    requires ready { AreReady S.contents S.may_give S.texts S.faults hall.now pass.old }
    requires named { Q.fits question }
    ensures ready { AreReady S.contents S.may_give S.texts S.faults hall.now pass.new }
    ensures size { (shares_of pass.new ≡ shares_of pass.old) × (made_with pass.new ≡ made_with pass.old) }
    ensures drawn { StaySpent (drawn_by pass.old) (drawn_by pass.new) }
    ensures asks { (lines : List Line)
        × (asks : AsksSo S.contents S.may_give S.texts S.faults (shown_by pass.old) lib (Q.call question) moment result lines (shown_by pass.new) (drawn_by pass.new))
        × SparesReading (Q.too_much question) asks }
{
    let place = match place_of(hall.rooms.as_slice(), &lib) {
        Some(place) => place,
        None => {
            drop(question);
            return without_turn(Refusal::NoLibrary);
        }
    };
    ask_at(
        rt,
        &hall.rooms[place],
        &mut pass.passes[place],
        question,
        moment,
    )
}

/// Asks a question of the library of a room.
fn ask_at<S: Shelf, R: Wait, Q: Question<S>>(
    rt: &R,
    room: &Room<Turnstile<Depot<S>>, Depot<S>>,
    pass: &mut Pass<Depot<S>>,
    question: Q,
    moment: u64,
) -> Answer
    requires ready { IsReadyAt S.contents S.may_give S.texts S.faults (parts_of pass.old) (passes_of pass.old) room.now pass.old }
    requires named { Q.fits question }
    ensures ready { IsReadyAt S.contents S.may_give S.texts S.faults (parts_of pass.old) (passes_of pass.old) room.now pass.new }
    ensures drawn { drawn_of pass.old ≡ most_turns → drawn_of pass.new ≡ most_turns }
    ensures asks { AsksOne S.contents S.may_give S.texts S.faults (Q.too_much question) (shown_of pass.old) (Q.call question) moment result (shown_of pass.new) (drawn_of pass.new) }
{
    if !question.is_admitted(&room.door) {
        drop(question);
        return without_turn(Refusal::Denied);
    }
    match ask_behind_gate(rt, room, pass, question, moment) {
        Ok(served) => Answer {
            reply: judged(served.answer),
            opening: room.door.opening,
            place: served.length,
        },
        Err(_) => without_turn(Refusal::Spent),
    }
}

/// The SHA-1 of the block that a call puts into the library with this id, where who asks is let in.
fn name_before<L, X>(rooms: &[Room<L, X>], lib: &LibId, call: &Call) -> Option<ObjId>
    ensures { TellsName call.now.act result }
{
    let place = match place_of(rooms, lib) {
        Some(place) => place,
        None => return None,
    };
    match rooms.get(place) {
        Some(room) => name_at(&room.door, call),
        None => None,
    }
}

/// The same at the door of the library.
fn name_at(door: &Door, call: &Call) -> Option<ObjId>
    ensures { TellsName call.now.act result }
{
    if !admits(door, &call.secret, &call.act) {
        return None;
    }
    match &call.act {
        Act::Put(key, bytes) => block_name(key, bytes),
        _ => None,
    }
}

/// The SHA-1 of a block, and of nothing else.
fn block_name(key: &Key, bytes: &Bytes) -> Option<ObjId>
    ensures { TellsName (act.Put key.now bytes.now) result }
{
    match key.kind {
        Kind::Block => Some(ObjId::of(bytes.slice())),
        _ => None,
    }
}

/// A refusal that took no turn.
fn without_turn(why: Refusal) -> Answer
    ensures { result ≡ without_turn why }
{
    Answer {
        reply: Reply::Refused(why),
        opening: 0,
        place: 0,
    }
}

/// The first room of a library with this id.
pub(crate) fn place_of<L, X>(rooms: &[Room<L, X>], lib: &LibId) -> Option<usize>
    ensures found { IfSome result (IsRoomOf rooms.now lib.now) }
    ensures absent { IfNone result (HasNoRoom rooms.now lib.now) }
{
    for (place, room) in rooms.iter().enumerate() {
        if room.door.lib == *lib {
            return Some(place);
        }
    }
    None
}
