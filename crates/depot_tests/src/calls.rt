//! What the owner of a library asks, and turns of its collections: each told by what these tests look at, so that a reply and a
//! turn are let go in one place.
ghost use Rattle.std.specs.Prelude.{◌≤◌};

use depot::{Depot, Turn};
use ids::ObjId;
use library_state::{Act, Call, Refusal, Reply, Secret};
use object_store::Shelf;

/// When the library is made, and when turns are taken.
pub(crate) const MOMENT: u64 = 7;

/// What a call comes to.
#[derive(Clone, Copy)]
pub(crate) enum Said {
    Checked,
    /// The library stands at this commit.
    Head(ObjId),
    Stored,
    Limited,
    /// Bytes that have this name.
    Got(ObjId),
    /// So many objects aren't there.
    Absent(usize),
    /// The update is made, and the library stands at this commit.
    Updated(ObjId),
    /// A collection began since an upload was last allowed.
    Stale,
    /// The shelf failed.
    Failed,
    /// Any other reply.
    Other,
}

fn said_of_refusal(why: &Refusal) -> Said {
    match why {
        Refusal::Stale { .. } => Said::Stale,
        Refusal::Store => Said::Failed,
        _ => Said::Other,
    }
}

fn said_by(reply: &Reply) -> Said {
    match reply {
        Reply::Checked => Said::Checked,
        Reply::HeadIs(head) => Said::Head(*head),
        Reply::Stored(_) => Said::Stored,
        Reply::Limited => Said::Limited,
        Reply::Got(bytes) => Said::Got(ObjId::of(bytes.slice())),
        Reply::Absent(ids) => Said::Absent(ids.len()),
        Reply::Updated(head) => Said::Updated(*head),
        Reply::Refused(why) => said_of_refusal(why),
        _ => Said::Other,
    }
}

/// What the one is answered whose secret is twenty times this byte.
pub(crate) fn asked_by<S: Shelf>(depot: &mut Depot<S>, byte: u8, act: Act) -> Said {
    let call = Call {
        secret: Some(Secret::from_bytes([byte; 20])),
        act,
    };
    let reply = depot.answer(&call, 9);
    let said = said_by(&reply);
    drop(reply);
    drop(call);
    said
}

/// What the owner is answered.
pub(crate) fn asked<S: Shelf>(depot: &mut Depot<S>, act: Act) -> Said {
    asked_by(depot, 0xaa, act)
}

/// What a turn did: the number of its collection, or how many objects it took.
#[derive(Clone, Copy)]
pub(crate) enum Step {
    Began(u64),
    Marked(u64),
    Swept(u64),
    Ended(u64),
    Over(u64),
    /// It was refused, as the shelf failed, and told so many keys.
    Failed(u64),
    /// It was refused for anything else.
    Refused,
}

fn refused_for(why: &Refusal, removed: u64) -> Step {
    match why {
        Refusal::Store => Step::Failed(removed),
        _ => Step::Refused,
    }
}

fn step_of(turn: &Turn) -> Step {
    match turn {
        Turn::Began(number) => Step::Began(*number),
        Turn::Marked(count) => Step::Marked(*count),
        Turn::Swept(keys) => Step::Swept(keys.len() as u64),
        Turn::Ended(number) => Step::Ended(*number),
        Turn::Over(number) => Step::Over(*number),
        Turn::Refused(why, keys) => refused_for(why, keys.len() as u64),
    }
}

/// What a turn of at most so many objects did.
pub(crate) fn turned<S: Shelf>(depot: &mut Depot<S>, goal: Option<u64>, at_most: u64) -> Step
    requires some { 1 ≤ at_most }
{
    let turn = depot.turn_of_collection(goal, MOMENT, at_most);
    let step = step_of(&turn);
    drop(turn);
    step
}

/// What a collection came to that ended: how many objects its turns told as removed, refused ones too, and how often the shelf
/// failed.
#[derive(Clone, Copy)]
pub(crate) struct Collected {
    pub(crate) removed: u64,
    pub(crate) failures: u64,
}

/// Takes turns of at most so many objects until the collection ended, a hundred at most. None where it doesn't end so, or is
/// refused for anything but the shelf.
pub(crate) fn run_to_end<S: Shelf>(depot: &mut Depot<S>, at_most: u64) -> Option<Collected>
    requires some { 1 ≤ at_most }
{
    let mut removed: u64 = 0;
    let mut failures: u64 = 0;
    for _ in 0..100 {
        match turned(depot, None, at_most) {
            Step::Began(_) => {}
            Step::Marked(_) => {}
            Step::Swept(count) => removed = removed.saturating_add(count),
            Step::Failed(count) => {
                removed = removed.saturating_add(count);
                failures = failures.saturating_add(1);
            }
            Step::Ended(_) => return Some(Collected { removed, failures }),
            _ => return None,
        }
    }
    None
}

/// How many objects a collection removes at which the shelf never fails. None where it doesn't end so.
pub(crate) fn removed_by<S: Shelf>(depot: &mut Depot<S>, at_most: u64) -> Option<u64>
    requires some { 1 ≤ at_most }
{
    match run_to_end(depot, at_most) {
        Some(collected) => if collected.failures == 0 {
            Some(collected.removed)
        } else {
            None
        },
        None => None,
    }
}
