//! A library that is asked at one moment.
ghost use Rattle.std.specs.Prelude.{◌≡◌, ◌≢◌, ◌∷◌};
ghost use Rattle.depot.specs.FirstGet.{fs_call};
ghost use Rattle.remote_calls.specs.DeskRemote.{AsksTooMuch, DeskReplies};

use collection_turns::collect;
use depot::Depot;
use ids::{LibId, ObjId};
use library_state::{Call, Clock, Refusal, Reply, Secret, Tag};
use object_store::Shelf;
use std::alloc::Global;
use std::marker::PhantomData;
use worker_server::{Answer, Collected, Host};

/// The place that each answer tells: none in a history, since no count of changes is kept.
const NO_PLACE: u64 = 0;

/// The host of a library that is asked at one moment. It keeps no record of operations.
#[derive(Drop)]
pub(crate) struct DeskHost<S> {
    pub moment: u64,
    pub shelf: PhantomData<S>,
}

/// It shows the one moment.
impl<S> Clock for DeskHost<S> {
    ghost use Rattle.remote_calls.specs.DeskRemote.{IsAt};

    ghost shows = { λ host. IsAt host.moment };

    fn now(&self) -> u64 {
        self.moment
    }
}

impl<S: Shelf> Host for DeskHost<S> {
    ghost use Rattle.std.specs.Prelude.{⊤};
    ghost use Rattle.depot.specs.DepotView.{DepotView};
    ghost use Rattle.remote_calls.specs.DeskRemote.{DeskAnswers, DeskCollects, DeskLooks, DeskSpares, IsAt};

    type Pass = Depot<S>;

    ghost Operation = { ⊤ };

    ghost View = { DepotView S };

    ghost view = { λ depot. depot };

    ghost ready = { λ _ _. ⊤ };

    ghost shows = { λ host. IsAt host.moment };

    ghost asks = { DeskAnswers S.contents S.may_give S.texts S.faults };

    ghost spares = { DeskSpares };

    ghost collects = { DeskCollects S.contents S.may_give S.texts S.faults };

    ghost looks = { DeskLooks };

    fn ask(&self, alloc: Global, pass: &mut Depot<S>, lib: LibId, call: Call) -> Answer {
        let _ = alloc;
        let opening = pass.opening();
        Answer {
            reply: answer(pass, lib, call, self.moment),
            opening,
            place: NO_PLACE,
        }
    }

    fn ask_first(
        &self,
        alloc: Global,
        pass: &mut Depot<S>,
        lib: LibId,
        secret: Option<Secret>,
        id: ObjId,
        more: &[ObjId],
        most: u64,
    ) -> Answer {
        let _ = alloc;
        let opening = pass.opening();
        Answer {
            reply: answer_first(pass, lib, &secret, id, more, most, self.moment),
            opening,
            place: NO_PLACE,
        }
    }

    fn collect(
        &self,
        alloc: Global,
        pass: &mut Depot<S>,
        lib: LibId,
        secret: Option<Secret>,
    ) -> Collected {
        let _ = alloc;
        collect(pass, lib, &secret, self)
    }

    fn look(&self, pass: &mut Depot<S>, lib: LibId, secret: &Option<Secret>, tag: Tag) -> bool {
        let _ = pass;
        let _ = lib;
        let _ = secret;
        let _ = tag;
        false
    }
}

/// The reply to a call on a library. `NoLibrary` comes exactly where it is another.
fn answer<S: Shelf>(depot: &mut Depot<S>, lib: LibId, call: Call, moment: u64) -> Reply
    ensures here { lib ≡ depot.old.state.lib → DeskReplies S.contents S.may_give S.texts S.faults depot.old call moment result depot.new }
    ensures elsewhere { lib ≢ depot.old.state.lib → (result ≡ Reply.Refused Refusal.NoLibrary) × (depot.new ≡ depot.old) }
{
    if lib != depot.lib() {
        drop(call);
        return Reply::Refused(Refusal::NoLibrary);
    }
    depot.answer_own(call, None, moment)
}

/// The reply to a call for a file or directory, after which more will be asked for. Where the index knows them to have more
/// than `most` bytes together, one who may ask is told want of memory, as by a server.
fn answer_first<S: Shelf>(
    depot: &mut Depot<S>,
    lib: LibId,
    secret: &Option<Secret>,
    id: ObjId,
    more: &[ObjId],
    most: u64,
    moment: u64,
) -> Reply
    ensures here { lib ≡ depot.old.state.lib → DeskReplies S.contents S.may_give S.texts S.faults depot.old (fs_call secret.now id) moment result depot.new }
    ensures elsewhere { lib ≢ depot.old.state.lib → (result ≡ Reply.Refused Refusal.NoLibrary) × (depot.new ≡ depot.old) }
    ensures bound { AsksTooMuch depot.old lib secret.now (id ∷ more.now) most → (result ≡ Reply.Refused Refusal.NoMemory) × (depot.new ≡ depot.old) }
{
    if lib == depot.lib() {
        depot.get_first(secret, id, more, most, moment)
    } else {
        Reply::Refused(Refusal::NoLibrary)
    }
}
