//! What may be done with a library, and at which commit it stands.
ghost use Rattle.std.specs.Prelude.{◌≡◌};
ghost use Rattle.sync_daemon.specs.Asking.{ChecksIn, ChecksSo, DownloadSo, GivesChecked, GivesHead, HeadIn, HeadSo, RepliesChecked, RepliesHead, TellsChecked, TellsHead, is_denied};

use http_front::{Outcome, What};
use ids::ObjId;
use library_state::{Op, Refusal, Reply};
use remote_calls::Remote;
use std::alloc::Global;
use sync_rules::SyncFault;
use tree_fetch::{Asker, ask};

/// Whether one may upload. Where that is denied, it is asked whether one may download.
pub(crate) fn may_upload<R: Remote>(
    alloc: Global,
    remote: &mut R,
    asker: &Asker,
) -> Result<bool, SyncFault>
    ensures value { ChecksSo asker.now (R.sends remote.old) (R.sends remote.new) result }
    ensures stays { R.peer remote.new ≡ R.peer remote.old }
{
    let outcome = match ask(alloc, remote, asker, What::Check(Op::Upload)) {
        Ok(outcome) => outcome,
        Err(fault) => return Err(fault),
    };
    let Err(why) = checked(outcome) else {
        return Ok(true);
    };
    if is_denied(&why) {
        return may_download(alloc, remote, asker);
    }
    Err(SyncFault::Refused(why))
}

/// False, where one may download.
fn may_download<R: Remote>(alloc: Global, remote: &mut R, asker: &Asker) -> Result<bool, SyncFault>
    ensures value { DownloadSo asker.now (R.sends remote.old) (R.sends remote.new) result }
    ensures stays { R.peer remote.new ≡ R.peer remote.old }
{
    let outcome = match ask(alloc, remote, asker, What::Check(Op::Download)) {
        Ok(outcome) => outcome,
        Err(fault) => return Err(fault),
    };
    match checked(outcome) {
        Ok(()) => Ok(false),
        Err(why) => Err(SyncFault::Refused(why)),
    }
}

/// That a check is allowed, or why it is refused.
fn checked(outcome: Outcome) -> Result<(), Refusal>
    requires gives { GivesChecked outcome }
    ensures value { TellsChecked outcome result }
{
    match outcome {
        Outcome::Plain(reply, _) => checked_in(reply),
        Outcome::Refused(why) => Err(why),
        _ => unreachable!(),
    }
}

fn checked_in(reply: Reply) -> Result<(), Refusal>
    requires gives { RepliesChecked reply }
    ensures value { ChecksIn reply result }
{
    match reply {
        Reply::Checked => Ok(()),
        Reply::Refused(why) => Err(why),
        _ => unreachable!(),
    }
}

fn is_denied(why: &Refusal) -> bool
    ensures value { result ≡ is_denied why.now }
{
    match why {
        Refusal::Denied => true,
        _ => false,
    }
}

/// The commit at which the library stands.
pub(crate) fn ask_head<R: Remote>(
    alloc: Global,
    remote: &mut R,
    asker: &Asker,
) -> Result<ObjId, SyncFault>
    ensures value { HeadSo asker.now (R.sends remote.old) (R.sends remote.new) result }
    ensures stays { R.peer remote.new ≡ R.peer remote.old }
{
    let outcome = match ask(alloc, remote, asker, What::Head(None)) {
        Ok(outcome) => outcome,
        Err(fault) => return Err(fault),
    };
    match head(outcome) {
        Ok(id) => Ok(id),
        Err(why) => Err(SyncFault::Refused(why)),
    }
}

/// The head, or why it is refused.
fn head(outcome: Outcome) -> Result<ObjId, Refusal>
    requires gives { GivesHead outcome }
    ensures value { TellsHead outcome result }
{
    match outcome {
        Outcome::Plain(reply, _) => head_in(reply),
        Outcome::Refused(why) => Err(why),
        _ => unreachable!(),
    }
}

fn head_in(reply: Reply) -> Result<ObjId, Refusal>
    requires gives { RepliesHead reply }
    ensures value { HeadIn reply result }
{
    match reply {
        Reply::HeadIs(id) => Ok(id),
        Reply::Refused(why) => Err(why),
        _ => unreachable!(),
    }
}
