//! One call after another of a library in a hall, each of which has to be done.
ghost use Rattle.std.specs.Prelude.{◌≡◌, ◌↔◌, IfErr, IfOk, Some, false, true};
ghost use Rattle.library_rules.specs.Changes.{is_refused};
ghost use Rattle.library_state.specs.declared.reply.Reply.{Reply};
ghost use Rattle.sync_calls.specs.Hall.{AreReady, made_with, shares_of, shown_by};
ghost use Rattle.generated_library.specs.Filled.{IsOver, Puts, Updates};
ghost use Rattle.generated_library.specs.Leading.{Any, IsAnswered, Leads, call_of};
ghost use Rattle.generated_library.specs.Stopping.{IsOfFilling, IsRefusalOf, StopsFor, WasAsked};
ghost use Rattle.sync_calls.specs.declared.asking.Answer.{Answer};

use ids::{Bytes, Key, LibId, ObjId};
use library_state::{Act, Call, Refusal, Reply, Secret};
use object_store::Shelf;
use std::alloc::AllocError;
use std::sync::Wait;
use sync_calls::{Hall, HallPass};

/// Why a library wasn't filled.
#[derive(Debug, Drop)]
pub enum NotFilled {
    /// The library refused a call.
    Refused(Refusal),
    /// Two directories of the tree have one name, or one has forty zeros.
    Taken(ObjId),
    /// There was no memory.
    NoMemory,
}

impl From<AllocError> for NotFilled {
    ghost use Rattle.std.specs.Prelude.{◌≡◌};
    ghost use Rattle.generated_library.specs.declared.asking.NotFilled.{NotFilled};

    ghost from_gives = { λ _ r. r ≡ NotFilled.NoMemory };

    fn from(_fault: AllocError) -> NotFilled {
        NotFilled::NoMemory
    }
}

/// Who asks, of which library, and at which moment.
#[derive(Clone, Copy, Debug)]
pub(crate) struct Asker {
    pub lib: LibId,
    pub secret: Secret,
    pub moment: u64,
}

/// Asks a call, and tells its reply where it was done.
pub(crate) fn ask<S: Shelf, R: Wait>(
    rt: &R,
    hall: &Hall<S>,
    pass: &mut HallPass<S>,
    asker: &Asker,
    act: Act,
) -> Result<Reply, NotFilled>
    requires ready { AreReady S.contents S.may_give S.texts S.faults hall.now pass.old }
    requires asks { IsOfFilling act }
    ensures ready { AreReady S.contents S.may_give S.texts S.faults hall.now pass.new }
    ensures size { (shares_of pass.new ≡ shares_of pass.old) × (made_with pass.new ≡ made_with pass.old) }
    ensures leads { IfOk result (λ reply. Leads S.contents S.faults (shown_by pass.old) (shown_by pass.new) Any (IsAnswered (call_of (Some asker.now.secret) act) asker.now.moment reply)) }
    ensures done { IfOk result (λ reply. is_refused reply ≡ false) }
    ensures stops { IfErr result (StopsFor S.contents S.may_give S.texts S.faults asker.now.lib asker.now.secret asker.now.moment pass.new) }
    ensures asked { IfOk result (λ reply. (answer : Answer) × WasAsked S.contents S.may_give S.texts S.faults asker.now.lib asker.now.secret asker.now.moment act answer pass.new × (answer.reply ≡ reply)) }
{
    let call = Call {
        secret: Some(asker.secret),
        act,
    };
    let answer = hall.ask_own(rt, pass, asker.lib, call, asker.moment);
    unrefused(answer.reply)
}

/// A reply that isn't a refusal.
fn unrefused(reply: Reply) -> Result<Reply, NotFilled>
    ensures value { IfOk result (λ told. (told ≡ reply) × (is_refused reply ≡ false)) }
    ensures stops { IfErr result (IsRefusalOf reply) }
{
    match reply {
        Reply::Refused(why) => Err(NotFilled::Refused(why)),
        other => Ok(other),
    }
}

/// Puts an object.
pub(crate) fn put<S: Shelf, R: Wait>(
    rt: &R,
    hall: &Hall<S>,
    pass: &mut HallPass<S>,
    asker: &Asker,
    key: Key,
    bytes: Bytes,
) -> Result<(), NotFilled>
    requires ready { AreReady S.contents S.may_give S.texts S.faults hall.now pass.old }
    ensures ready { AreReady S.contents S.may_give S.texts S.faults hall.now pass.new }
    ensures size { (shares_of pass.new ≡ shares_of pass.old) × (made_with pass.new ≡ made_with pass.old) }
    ensures leads { IfOk result (λ done. Leads S.contents S.faults (shown_by pass.old) (shown_by pass.new) Any (Puts key bytes)) }
    ensures stops { IfErr result (StopsFor S.contents S.may_give S.texts S.faults asker.now.lib asker.now.secret asker.now.moment pass.new) }
{
    let _reply = ask(rt, hall, pass, asker, Act::Put(key, bytes))?;
    Ok(())
}

/// Makes a commit the head. That another is the head afterwards, since it was kept already, is told as want of memory: none that a
/// filling makes was.
pub(crate) fn update<S: Shelf, R: Wait>(
    rt: &R,
    hall: &Hall<S>,
    pass: &mut HallPass<S>,
    asker: &Asker,
    commit: ObjId,
) -> Result<(), NotFilled>
    requires ready { AreReady S.contents S.may_give S.texts S.faults hall.now pass.old }
    ensures ready { AreReady S.contents S.may_give S.texts S.faults hall.now pass.new }
    ensures size { (shares_of pass.new ≡ shares_of pass.old) × (made_with pass.new ≡ made_with pass.old) }
    ensures leads { IfOk result (λ done. Leads S.contents S.faults (shown_by pass.old) (shown_by pass.new) (IsOver commit) (Updates commit asker.now.moment)) }
    ensures stops { IfErr result (StopsFor S.contents S.may_give S.texts S.faults asker.now.lib asker.now.secret asker.now.moment pass.new) }
{
    let reply = ask(rt, hall, pass, asker, Act::Update(commit))?;
    if !is_updated(&reply, commit) {
        return Err(NotFilled::NoMemory);
    }
    Ok(())
}

/// Whether the library stands at this commit now.
fn is_updated(reply: &Reply, commit: ObjId) -> bool
    ensures told { (result ≡ true) ↔ (reply.now ≡ Reply.Updated commit) }
{
    match reply {
        Reply::Updated(head) => *head == commit,
        _ => false,
    }
}
