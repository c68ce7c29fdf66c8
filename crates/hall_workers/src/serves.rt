//! What serves links through passes, as a hall does.
ghost use Rattle.std.specs.Prelude.{ℕ};
ghost use Rattle.link_ears.specs.Ear.{link_seen};
ghost use Rattle.sync_calls.specs.Hall.{AreReady};
ghost use Rattle.hall_workers.specs.Serves.{ServesLink};

use http_front::Link;
use library_state::Clock;
use object_store::Shelf;
use std::alloc::Global;
use std::sync::Wait;
use sync_calls::{Hall, HallPass};
use worker_server::Served;

/// What serves links through passes of this type. It is shared by all workers, and what changes as it serves a link is the pass of that
/// worker.
pub trait Serves<P> {
    ghost use Rattle.std.specs.Prelude.{ℕ};
    ghost use Rattle.link_ears.specs.Ear.{LinkView};
    ghost use Rattle.worker_server.specs.declared.served.Served.{Served};

    // Links are served through this pass.
    ghost ready: { Self → P → Type 0 };

    // With a clock that shows these moments a link may be served so: the pass and the link before, how the link ended, and the link and
    // the pass after.
    ghost serves: { Self → (ℕ → Type 0) → P → LinkView → Served → LinkView → P → Type 0 };

    /// Serves one link to its end, through a pass. It may wait.
    fn serve<L: Link, C: Clock, R: Wait>(
        &self,
        rt: &R,
        alloc: Global,
        pass: &mut P,
        link: &mut L,
        clock: &C,
    ) -> Served
        requires ready { ready self.now pass.old }
        ensures ready { ready self.now pass.new }
        ensures serves { serves self.now (C.shows clock.now) pass.old (link_seen L.left L.taken L.given L.asked L.faults link.old) result
            (link_seen L.left L.taken L.given L.asked L.faults link.new) pass.new };
}

impl<S: Shelf> Serves<HallPass<S>> for Hall<S> {
    ghost use Rattle.sync_calls.specs.Hall.{AreReady};
    ghost use Rattle.hall_workers.specs.Serves.{ServesLink};

    ghost ready = { λ hall pass. AreReady S.contents S.may_give S.texts S.faults hall pass };

    ghost serves = { λ hall shows pass before how now after. ServesLink S.contents S.may_give S.texts S.faults shows pass before how now after };

    fn serve<L: Link, C: Clock, R: Wait>(
        &self,
        rt: &R,
        alloc: Global,
        pass: &mut HallPass<S>,
        link: &mut L,
        clock: &C,
    ) -> Served {
        hall_server::serve_link(rt, alloc, self, pass, link, clock)
    }
}
