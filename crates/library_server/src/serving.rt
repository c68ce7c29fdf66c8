//! One connection with a library that answers alone.
ghost use Rattle.std.specs.Prelude.{◌≡◌, ◌∷◌, ℕ, List, [], Some, ⊤};
ghost use Rattle.depot.specs.FirstGet.{fs_call};
ghost use Rattle.ids.specs.FaultCount.{Rose};
ghost use Rattle.worker_server.specs.Calls.{Told, Ran, rules_at};
ghost use Rattle.http_front.specs.Link.{told_by};
ghost use Rattle.worker_server.specs.ServedConnection.{CountsEnd, EndsAsked, SessionInTime};
ghost use Rattle.library_server.specs.Answering.{AnswersOn, AreCaused, LooksOn, SparesOn};
ghost use Rattle.library_server.specs.Collecting.{CollectsOn};

use crate::collecting::collect;
use crate::counting::{OpenedLibrary, count_after, told_at};
use crate::looking::is_current;
use http_front::Link;
use ids::{LibId, ObjId};
use library_state::{Call, Clock, Refusal, Reply, Secret, Tag};
use object_store::Shelf;
use std::alloc::Global;
use std::marker::PhantomData;
use worker_server::{Answer, Collected, Host, Served, serve_session};

/// The host of a library that nobody else asks, with a clock. It keeps no record of operations, and counts changes.
#[derive(Drop)]
struct Alone<'a, S, C> {
    clock: &'a C,
    shelf: PhantomData<S>,
}

impl<S: Shelf, C: Clock> Host for Alone<'_, S, C> {
    ghost use Rattle.std.specs.Prelude.{⊤};
    ghost use Rattle.library_server.specs.Counting.{OpenedView};
    ghost use Rattle.library_server.specs.Answering.{AnswersOn, LooksOn, SparesOn};
    ghost use Rattle.library_server.specs.Collecting.{CollectsOn};

    type Pass = OpenedLibrary<S>;

    ghost Operation = { ⊤ };

    ghost View = { OpenedView S };

    ghost view = { λ library. library };

    ghost ready = { λ _ _. ⊤ };

    ghost shows = { λ host moment. C.shows host.clock.now moment };

    ghost asks = { AnswersOn S.contents S.may_give S.texts S.faults };

    ghost spares = { SparesOn };

    ghost collects = { CollectsOn S.contents S.may_give S.texts S.faults };

    ghost looks = { LooksOn };

    fn ask(&self, alloc: Global, pass: &mut OpenedLibrary<S>, lib: LibId, call: Call) -> Answer {
        let _ = alloc;
        let moment = self.clock.now();
        answer(pass, lib, call, moment)
    }

    fn ask_first(
        &self,
        alloc: Global,
        pass: &mut OpenedLibrary<S>,
        lib: LibId,
        secret: Option<Secret>,
        id: ObjId,
        more: &[ObjId],
        most: u64,
    ) -> Answer {
        let _ = alloc;
        let moment = self.clock.now();
        answer_first(pass, lib, &secret, id, more, most, moment)
    }

    fn collect(
        &self,
        alloc: Global,
        pass: &mut OpenedLibrary<S>,
        lib: LibId,
        secret: Option<Secret>,
    ) -> Collected {
        let _ = alloc;
        collect(pass, lib, &secret, self.clock)
    }

    fn look(
        &self,
        pass: &mut OpenedLibrary<S>,
        lib: LibId,
        secret: &Option<Secret>,
        tag: Tag,
    ) -> bool {
        is_current(pass, lib, secret, tag)
    }
}

/// The answer to a call on a library. `NoLibrary` comes exactly where it is not the one that is served.
fn answer<S: Shelf>(library: &mut OpenedLibrary<S>, lib: LibId, call: Call, moment: u64) -> Answer
    ensures value { AnswersOn S.contents S.may_give S.texts S.faults library.old lib call moment result [] library.new }
{
    if lib != library.depot.lib() {
        drop(call);
        return elsewhere();
    }
    let (reply, changed) = library.depot.tell_own(call, None, moment);
    library.changes = count_after(library.changes, changed);
    told_at(library, reply)
}

/// The answer to a call for a file or directory, after which more will be asked for. `NoLibrary` comes exactly where the
/// library is not the one that is served.
fn answer_first<S: Shelf>(
    library: &mut OpenedLibrary<S>,
    lib: LibId,
    secret: &Option<Secret>,
    id: ObjId,
    more: &[ObjId],
    most: u64,
    moment: u64,
) -> Answer
    ensures value { AnswersOn S.contents S.may_give S.texts S.faults library.old lib (fs_call secret.now id) moment result [] library.new }
    ensures bound { SparesOn library.old lib secret.now (id ∷ more.now) most result [] library.new }
{
    if lib != library.depot.lib() {
        return elsewhere();
    }
    let (reply, changed) = library.depot.tell_first(secret, id, more, most, moment);
    library.changes = count_after(library.changes, changed);
    told_at(library, reply)
}

/// The answer where the library is not the one that is served.
fn elsewhere() -> Answer
    ensures value { result ≡ record { reply = Reply.Refused Refusal.NoLibrary; opening = 0; place = 0 } }
{
    Answer {
        reply: Reply::Refused(Refusal::NoLibrary),
        opening: 0,
        place: 0,
    }
}

/// Serves one connection with a library, which is asked one call after another, each at a moment of the clock.
///
/// Over a shelf that tells what it holds the replies are those of one library of a single thread, by the rules of
/// library_rules; its tokens are asked for. Over every shelf each refusal has its cause. Ends, limits and what was given
/// before an end are those of `worker_server::serve_session`. Where the index knows files and directories that are asked for
/// together to have more bytes than one reply packs, the reply is want of memory, and the library is as it was.
pub fn serve_link<S: Shelf, L: Link, C: Clock>(
    alloc: Global,
    library: &mut OpenedLibrary<S>,
    link: &mut L,
    clock: &C,
) -> Served
    // Where the link tells what it has left: the bytes given are the texts of the library's replies to the requests
    // that those bytes spell. Where it tells what it was asked besides: no reply waited for more input.
    ensures session { (input : List ℕ) → L.left link.old ≡ Some input
        → SessionInTime (rules_at (C.shows clock.now) (AnswersOn S.contents S.may_give S.texts S.faults) SparesOn (CollectsOn S.contents S.may_give S.texts S.faults) LooksOn) input
        (told_by L.taken L.given L.asked link.old) (told_by L.taken L.given L.asked link.new) library.old library.new result }

    // Of every link and every shelf: the calls and collections that were asked. Damage that a reply tells has its cause in what the shelf may
    // give as it is handed in.
    ensures ran { (calls : List (Told ⊤)) × Ran (rules_at (C.shows clock.now) (AnswersOn S.contents S.may_give S.texts S.faults) SparesOn (CollectsOn S.contents S.may_give S.texts S.faults) LooksOn) library.old calls library.new
        × AreCaused (S.may_give library.old.depot.store.shelf) calls }

    // The link's count of faults rose in the first two cases, and stayed in every other.
    ensures read_fault { result ≡ Served.ReadFault → Rose (L.faults link.old) (L.faults link.new) }
    ensures write_fault { result ≡ Served.WriteFault → Rose (L.faults link.old) (L.faults link.new) }
    ensures faults { CountsEnd (L.faults link.old) (L.faults link.new) result }

    // Where the link tells what it was asked: a take that failed was the last of it, and where a give failed bytes came
    // as it was asked last, or it was at its end.
    ensures last { EndsAsked result (told_by L.taken L.given L.asked link.old) (told_by L.taken L.given L.asked link.new) (L.left link.new) }
{
    let host = Alone {
        clock,
        shelf: PhantomData,
    };
    serve_session(alloc, &host, library, link)
}
