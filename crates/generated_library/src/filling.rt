//! The run that fills a library: two pushes, and a collection of what the second left behind.
ghost use Rattle.std.specs.Prelude.{◌≡◌, ◌≤◌, ℕ, IfErr, IfOk};
ghost use Rattle.std.specs.FinMap as map;
ghost use Rattle.sync_calls.specs.Hall.{AreReady, made_with, shares_of, shown_by};
ghost use Rattle.generated_library.specs.Filled.{Checks, Collects, IsFilled, IsNew, IsResting, Limits};
ghost use Rattle.generated_library.specs.Generated.{bytes_made, changed_from, files_from, tree_of};
ghost use Rattle.generated_library.specs.Leading.{Any, Leads, WasHead};
ghost use Rattle.generated_library.specs.Stopping.{EndsFor, StopsFor, WasCollected};

use crate::asking::{Asker, NotFilled, ask};
use crate::pushing::{Round, push};
use ids::{LibId, ObjId};
use library_state::{Act, Clock, Op, Secret};
use object_store::Shelf;
use std::alloc::Global;
use std::sync::Wait;
use sync_calls::{Collected, Hall, HallPass};

/// Which library is filled, by whom, and with what.
#[derive(Clone, Copy, Debug)]
pub struct Plan {
    pub lib: LibId,
    pub secret: Secret,
    /// The commit at which it stands.
    pub head: ObjId,
    /// How many files, 1 to 10,000.
    pub count: u32,
    /// The number that the sequence begins with.
    pub number: u64,
}

/// What a library was filled with, and how many objects its collection removed.
#[derive(Clone, Copy, Debug, PartialEq, Eq)]
pub struct Filled {
    pub paths: u64,
    pub bytes: u64,
    pub removed: u64,
}

/// Fills a library of a hall: pushes the files, pushes every tenth with one byte more, keeps the last commit alone, and collects. All is
/// asked by the secret, at the moment of one look at the clock; only the turns of the collection look again. It may wait.
///
/// After a refusal what was asked before it stands.
pub fn fill<S: Shelf, C: Clock, R: Wait>(
    rt: &R,
    alloc: Global,
    hall: &Hall<S>,
    pass: &mut HallPass<S>,
    plan: &Plan,
    clock: &C,
) -> Result<Filled, NotFilled>
    requires ready { AreReady S.contents S.may_give S.texts S.faults hall.now pass.old }
    requires few { plan.now.count ≤ 10000 }
    ensures ready { AreReady S.contents S.may_give S.texts S.faults hall.now pass.new }
    ensures size { (shares_of pass.new ≡ shares_of pass.old) × (made_with pass.new ≡ made_with pass.old) }
    ensures leads { IfOk result (λ filled. Leads S.contents S.faults (shown_by pass.old) (shown_by pass.new) (IsNew plan.now.head)
        (λ s t. IsFilled (WasHead (shown_by pass.old) (shown_by pass.new)) (C.shows clock.now) plan.now.count plan.now.number plan.now.head filled s t)) }
    ensures numbers { IfOk result (λ filled. (moment : ℕ) × C.shows clock.now moment
        × (filled.paths ≡ map.len (tree_of moment (changed_from 0 (files_from plan.now.count plan.now.number)))) × (filled.bytes ≡ bytes_made plan.now.count plan.now.number)) }

    // The number of the objects that left is what the collection told, the last thing that is asked.
    ensures last { IfOk result (λ filled. WasCollected S.contents S.may_give S.texts S.faults plan.now.lib plan.now.secret (C.shows clock.now) filled.removed pass.new) }

    // It stops for what was asked last, for a clash of names, or for want of memory.
    ensures stops { IfErr result (EndsFor S.contents S.may_give S.texts S.faults plan.now.lib plan.now.secret plan.now.count plan.now.number (C.shows clock.now) pass.new) }
{
    let asker = Asker {
        lib: plan.lib,
        secret: plan.secret,
        moment: clock.now(),
    };
    check(rt, hall, pass, &asker)?;
    let first = Round {
        count: plan.count,
        number: plan.number,
        is_second: false,
    };
    let before = push(rt, alloc, hall, pass, &asker, first, plan.head)?;
    let second = Round {
        is_second: true,
        ..first
    };
    let pushed = push(rt, alloc, hall, pass, &asker, second, before.commit)?;
    limit(rt, hall, pass, &asker)?;
    let removed = collect(rt, hall, pass, plan, clock)?;
    Ok(Filled {
        paths: pushed.paths,
        bytes: pushed.bytes,
        removed,
    })
}

/// Tells the library that objects will be put.
fn check<S: Shelf, R: Wait>(
    rt: &R,
    hall: &Hall<S>,
    pass: &mut HallPass<S>,
    asker: &Asker,
) -> Result<(), NotFilled>
    requires ready { AreReady S.contents S.may_give S.texts S.faults hall.now pass.old }
    ensures ready { AreReady S.contents S.may_give S.texts S.faults hall.now pass.new }
    ensures size { (shares_of pass.new ≡ shares_of pass.old) × (made_with pass.new ≡ made_with pass.old) }
    ensures leads { IfOk result (λ done. Leads S.contents S.faults (shown_by pass.old) (shown_by pass.new) Any Checks) }
    ensures stops { IfErr result (StopsFor S.contents S.may_give S.texts S.faults asker.now.lib asker.now.secret asker.now.moment pass.new) }
{
    let _reply = ask(rt, hall, pass, asker, Act::Check(Op::Upload))?;
    Ok(())
}

/// Lets the library keep no history.
fn limit<S: Shelf, R: Wait>(
    rt: &R,
    hall: &Hall<S>,
    pass: &mut HallPass<S>,
    asker: &Asker,
) -> Result<(), NotFilled>
    requires ready { AreReady S.contents S.may_give S.texts S.faults hall.now pass.old }
    ensures ready { AreReady S.contents S.may_give S.texts S.faults hall.now pass.new }
    ensures size { (shares_of pass.new ≡ shares_of pass.old) × (made_with pass.new ≡ made_with pass.old) }
    ensures leads { IfOk result (λ done. Leads S.contents S.faults (shown_by pass.old) (shown_by pass.new) Any Limits) }
    ensures stops { IfErr result (StopsFor S.contents S.may_give S.texts S.faults asker.now.lib asker.now.secret asker.now.moment pass.new) }
{
    let _reply = ask(rt, hall, pass, asker, Act::Limit(0))?;
    Ok(())
}

/// Collects the library to its end, and tells how many objects were removed.
fn collect<S: Shelf, C: Clock, R: Wait>(
    rt: &R,
    hall: &Hall<S>,
    pass: &mut HallPass<S>,
    plan: &Plan,
    clock: &C,
) -> Result<u64, NotFilled>
    requires ready { AreReady S.contents S.may_give S.texts S.faults hall.now pass.old }
    ensures ready { AreReady S.contents S.may_give S.texts S.faults hall.now pass.new }
    ensures size { (shares_of pass.new ≡ shares_of pass.old) × (made_with pass.new ≡ made_with pass.old) }
    ensures leads { IfOk result (λ removed. Leads S.contents S.faults (shown_by pass.old) (shown_by pass.new) IsResting (Collects removed)) }
    ensures last { IfOk result (λ removed. WasCollected S.contents S.may_give S.texts S.faults plan.now.lib plan.now.secret (C.shows clock.now) removed pass.new) }
    ensures stops { IfErr result (EndsFor S.contents S.may_give S.texts S.faults plan.now.lib plan.now.secret plan.now.count plan.now.number (C.shows clock.now) pass.new) }
{
    match hall.collect(rt, pass, plan.lib, &Some(plan.secret), clock) {
        Collected::Done {
            number: _,
            removed,
            turns: _,
        } => Ok(removed),
        Collected::Refused(why) => Err(NotFilled::Refused(why)),
    }
}
