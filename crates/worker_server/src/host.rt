//! What calls are asked of: one library, or a participant in the history of many.
use ids::{LibId, ObjId};
use library_state::{Call, Refusal, Reply, Secret, Tag};
use std::alloc::Global;

/// A library's answer to a call.
///
/// `opening` and `place` tell the state that the reply tells of: which opening of the library, and
/// how many changes were made since. Both are 0 where the host keeps no such count.
#[derive(Debug, Drop)]
pub struct Answer {
    pub reply: Reply,
    pub opening: u64,
    pub place: u64,
}

/// What a host tells of a collection.
#[derive(Debug, Drop)]
pub enum Collected {
    /// The collection of this number ended, and this call's turns removed so many objects.
    Done { number: u64, removed: u64 },
    /// Why not. What its turns changed stands.
    Refused(Refusal),
}

/// What calls are asked of.
///
/// A host is shared, and what changes as it answers is the pass that it is lent at each call: the
/// library itself, or a participant that has seen a part of a history. A host keeps the clock, and
/// looks at it as it is asked. Contracts see a pass by a view, and a call by a relation between the
/// view before, the moment at which it is asked, the answer, the operations that it left (a record of
/// operations, empty where none is kept) and the view after.
pub trait Host {
    ghost use Rattle.std.specs.Prelude.{◌∷◌, Bool, List, Option, ℕ};
    ghost use Rattle.worker_server.specs.Calls.{AtAMoment, call_of, get_of};
    ghost use Rattle.library_state.specs.declared.call.Call.{Call};
    ghost use Rattle.worker_server.specs.declared.host.Answer.{Answer};
    ghost use Rattle.worker_server.specs.declared.host.Collected.{Collected};
    ghost use Rattle.library_state.specs.declared.tag.Tag.{Tag};

    type Pass;

    // What a call leaves in the record of operations.
    ghost Operation: { Type 0 };

    // What contracts see of a pass.
    ghost View: { Type 0 };

    ghost view: { Self.Pass → View };

    // The host takes calls through this pass.
    ghost ready: { Self → Self.Pass → Type 0 };

    // The moments that the host's clock can show.
    ghost shows: { Self → ℕ → Type 0 };

    // A call on a library, asked at this moment, may be answered so.
    ghost asks: { View → List ℕ → Call → ℕ → Answer → List Operation → View → Type 0 };

    // The first of these files and directories of a library, asked for with this secret by one who tells all of them and how many
    // bytes they may have together, may be answered so in view of that.
    ghost spares: { View → List ℕ → Option (List ℕ) → List (List ℕ) → ℕ → Answer → List Operation → View → Type 0 };

    // A library, asked by the one of this secret, may be collected so, in turns at moments of this kind.
    ghost collects: { (ℕ → Type 0) → View → List ℕ → Option (List ℕ) → Collected → List Operation → View → Type 0 };

    // A look by the one of this secret whether a library is still in the state of this tag may tell that it is, or that it
    // isn't or that it can't be told.
    ghost looks: { View → List ℕ → Option (List ℕ) → Tag → Bool → List Operation → View → Type 0 };

    /// Asks a call of a library, at a moment that the clock shows.
    fn ask(&self, alloc: Global, pass: &mut Self::Pass, lib: LibId, call: Call) -> Answer
        requires ready { ready self.now pass.old }
        ensures ready { ready self.now pass.new }
        ensures asks { (operations : List Operation)
            × AtAMoment (shows self.now) asks (view pass.old) lib call result operations (view pass.new) };

    /// Asks a library for a file or directory, and tells that `more` will be asked for after it, one after another.
    ///
    /// Whoever asks packs no more than `most` bytes of them. What a host makes of that is its own rule: one that knows that they
    /// have more together answers so, and reads nothing.
    fn ask_first(
        &self,
        alloc: Global,
        pass: &mut Self::Pass,
        lib: LibId,
        secret: Option<Secret>,
        id: ObjId,
        more: &[ObjId],
        most: u64,
    ) -> Answer
        requires ready { ready self.now pass.old }
        ensures ready { ready self.now pass.new }
        ensures asks { (operations : List Operation)
            × AtAMoment (shows self.now) asks (view pass.old) lib (call_of secret (get_of id)) result operations (view pass.new)
            × spares (view pass.old) lib secret (id ∷ more.now) most result operations (view pass.new) };

    /// Collects a library, in turns at moments that the clock shows, until its collection ended or a turn is refused.
    fn collect(
        &self,
        alloc: Global,
        pass: &mut Self::Pass,
        lib: LibId,
        secret: Option<Secret>,
    ) -> Collected
        requires ready { ready self.now pass.old }
        ensures ready { ready self.now pass.new }
        ensures asks { (operations : List Operation)
            × collects (shows self.now) (view pass.old) lib secret result operations (view pass.new) };

    /// Whether a library is still in the state of this tag. Where it isn't, where there is no such library, and where who
    /// asks may not, it is not told; what is asked after it says why.
    fn look(&self, pass: &mut Self::Pass, lib: LibId, secret: &Option<Secret>, tag: Tag) -> bool
        requires ready { ready self.now pass.old }
        ensures ready { ready self.now pass.new }
        ensures asks { (operations : List Operation)
            × looks (view pass.old) lib secret.now tag result operations (view pass.new) };
}
