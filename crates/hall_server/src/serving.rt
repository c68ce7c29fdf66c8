//! One connection with the libraries of a hall.
ghost use Rattle.std.specs.Prelude.{◌≡◌, ℕ, List, Some};
ghost use Rattle.http_front.specs.Link.{told_by};
ghost use Rattle.ids.specs.FaultCount.{Rose};
ghost use Rattle.sync_calls.specs.Hall.{AreReady, made_with, shares_of, shown_by};
ghost use Rattle.sync_calls.specs.Operations.{Line};
ghost use Rattle.worker_server.specs.Calls.{Told, Ran, operations_of};
ghost use Rattle.worker_server.specs.ServedConnection.{CountsEnd, EndsAsked, SessionInTime};
ghost use Rattle.hall_server.specs.Serving.{Goes, hall_rules, hall_shown, host_answer, host_end, is_same};

use http_front::Link;
use ids::{LibId, ObjId};
use library_state::{Call, Clock, Secret, Tag};
use object_store::Shelf;
use std::alloc::Global;
use std::snapshot::Snapshot;
use std::sync::Wait;
use sync_calls::{Answer as HallAnswer, Collected as HallCollected, Glance, Hall, HallPass};
use worker_server::{Answer, Collected, Host, Served, serve_session};

/// The host of the libraries of a hall, with a clock. A call is asked at a moment that the clock shows before its turn. The pass stands
/// for as many passes as it did at the beginning, of which nothing is kept as it runs.
#[derive(Drop)]
struct AtHall<'a, S: Shelf, C, R> {
    rt: &'a R,
    hall: &'a Hall<S>,
    clock: &'a C,
    begun: Snapshot<HallPass<S>>,
}

impl<S: Shelf, C: Clock, R: Wait> Host for AtHall<'_, S, C, R> {
    ghost use Rattle.std.specs.Prelude.{◌≡◌};
    ghost use Rattle.sync_calls.specs.Hall.{AreReady, made_with, shares_of};
    ghost use Rattle.sync_calls.specs.Operations.{Line};
    ghost use Rattle.hall_server.specs.Serving.{AsksAt, CollectsAt, HallShown, LooksAt, SparesAt, hall_shown};

    type Pass = HallPass<S>;

    ghost Operation = { Line };

    ghost View = { HallShown S };

    ghost view = { λ pass. hall_shown pass };

    ghost ready = { λ host pass. AreReady S.contents S.may_give S.texts S.faults host.hall.now pass
        × (shares_of pass ≡ shares_of host.begun.value) × (made_with pass ≡ made_with host.begun.value) };

    ghost shows = { λ host moment. C.shows host.clock.now moment };

    ghost asks = { AsksAt S.contents S.may_give S.texts S.faults };

    ghost spares = { SparesAt S.contents S.may_give S.texts S.faults };

    ghost collects = { CollectsAt S.contents S.may_give S.texts S.faults };

    ghost looks = { LooksAt S.contents S.may_give S.texts S.faults };

    fn ask(&self, alloc: Global, pass: &mut HallPass<S>, lib: LibId, call: Call) -> Answer {
        let _ = alloc;
        let moment = self.clock.now();
        answer_of(self.hall.ask_own(self.rt, pass, lib, call, moment))
    }

    fn ask_first(
        &self,
        alloc: Global,
        pass: &mut HallPass<S>,
        lib: LibId,
        secret: Option<Secret>,
        id: ObjId,
        more: &[ObjId],
        most: u64,
    ) -> Answer {
        let _ = alloc;
        let moment = self.clock.now();
        answer_of(
            self.hall
                .ask_first(self.rt, pass, lib, &secret, id, more, most, moment),
        )
    }

    fn collect(
        &self,
        alloc: Global,
        pass: &mut HallPass<S>,
        lib: LibId,
        secret: Option<Secret>,
    ) -> Collected {
        let _ = alloc;
        collected_of(self.hall.collect(self.rt, pass, lib, &secret, self.clock))
    }

    fn look(&self, pass: &mut HallPass<S>, lib: LibId, secret: &Option<Secret>, tag: Tag) -> bool {
        is_same(self.hall.unchanged(pass, lib, secret, tag))
    }
}

/// A hall's answer, as a host's.
fn answer_of(answer: HallAnswer) -> Answer
    ensures value { result ≡ host_answer answer }
{
    let opening = answer.opening;
    let place = answer.place;
    Answer {
        reply: answer.reply,
        opening,
        place,
    }
}

/// What a hall tells of a collection, as a host.
fn collected_of(told: HallCollected) -> Collected
    ensures value { result ≡ host_end told }
{
    match told {
        HallCollected::Done {
            number,
            removed,
            turns: _,
        } => Collected::Done { number, removed },
        HallCollected::Refused(why) => Collected::Refused(why),
    }
}

/// Whether a look told that the library is still in the state of the tag.
fn is_same(found: Glance) -> bool
    ensures value { result ≡ is_same found }
{
    match found {
        Glance::Same => true,
        Glance::NoLibrary | Glance::Denied | Glance::Other => false,
    }
}

/// Serves one connection with the libraries of a hall, each call in a turn of its own. It may wait for a turn.
///
/// Each reply is what one library of a single thread replies at its point of one history, which begins with all that the pass
/// had seen and has each change once; other passes may take turns between any two calls. Ends, limits and what was given before
/// an end are those of `worker_server::serve_session`.
pub fn serve_link<S: Shelf, L: Link, C: Clock, R: Wait>(
    rt: &R,
    alloc: Global,
    hall: &Hall<S>,
    pass: &mut HallPass<S>,
    link: &mut L,
    clock: &C,
) -> Served
    requires ready { AreReady S.contents S.may_give S.texts S.faults hall.now pass.old }
    ensures ready { AreReady S.contents S.may_give S.texts S.faults hall.now pass.new }
    ensures size { (shares_of pass.new ≡ shares_of pass.old) × (made_with pass.new ≡ made_with pass.old) }

    // Where the link tells what it has left: the bytes given are the texts of the hall's replies to the requests that those
    // bytes spell, each with the operations that it left. Where it tells what it was asked besides: no reply waited for more input.
    ensures session { (input : List ℕ) → L.left link.old ≡ Some input
        → SessionInTime (hall_rules S.contents S.may_give S.texts S.faults (C.shows clock.now)) input
        (told_by L.taken L.given L.asked link.old) (told_by L.taken L.given L.asked link.new) (hall_shown pass.old) (hall_shown pass.new) result }

    // Of every link: the calls, collections and looks that were asked. What the pass shows at the end is what it showed before and the
    // operations that these left after it, in their order. A turn that only told that a collection is over is none.
    ensures ran { (calls : List (Told Line)) × Ran (hall_rules S.contents S.may_give S.texts S.faults (C.shows clock.now)) (hall_shown pass.old) calls (hall_shown pass.new)
        × Goes S.contents S.may_give S.texts S.faults (shown_by pass.old) (operations_of calls) (shown_by pass.new) }

    // The link's count of faults rose in the first two cases, and stayed in every other.
    ensures read_fault { result ≡ Served.ReadFault → Rose (L.faults link.old) (L.faults link.new) }
    ensures write_fault { result ≡ Served.WriteFault → Rose (L.faults link.old) (L.faults link.new) }
    ensures faults { CountsEnd (L.faults link.old) (L.faults link.new) result }

    // Where the link tells what it was asked: a take that failed was the last of it, and where a give failed bytes came
    // as it was asked last, or it was at its end.
    ensures last { EndsAsked result (told_by L.taken L.given L.asked link.old) (told_by L.taken L.given L.asked link.new) (L.left link.new) }
{
    let begun = Snapshot::of(&*pass);
    let host = AtHall {
        rt,
        hall,
        clock,
        begun,
    };
    serve_session(alloc, &host, pass, link)
}
