//! Giving a reply: its front, and then the object that follows it.
ghost use Rattle.std.specs.Prelude.{◌≡◌, ◌++◌};
ghost use Rattle.http_front.specs.Link.{CountsFaults, Gives};

use http_front::{Link, LinkFailed, ReplyBytes};
use ids::Bytes;

/// Gives a reply, by one call of the link, and by a second one where an object follows the front. After a give that fails a
/// front of the reply was given.
pub fn give_reply<L: Link>(link: &mut L, reply: &ReplyBytes) -> Result<(), LinkFailed>
    ensures given { Gives (L.given link.old) (L.given link.new) (reply.now.front ++ reply.now.object) result }
    ensures stays_left { L.left link.new ≡ L.left link.old }
    ensures stays_taken { L.taken link.new ≡ L.taken link.old }
    ensures stays_asked { L.asked link.new ≡ L.asked link.old }
    ensures faults { CountsFaults (L.faults link.old) (L.faults link.new) result }
{
    match give_part(link, &reply.front) {
        Ok(()) => give_part(link, &reply.object),
        Err(failed) => Err(failed),
    }
}

/// Gives a part of a reply, by one call of the link, or by none where it is empty.
fn give_part<L: Link>(link: &mut L, part: &Bytes) -> Result<(), LinkFailed>
    ensures given { Gives (L.given link.old) (L.given link.new) part.now result }
    ensures stays_left { L.left link.new ≡ L.left link.old }
    ensures stays_taken { L.taken link.new ≡ L.taken link.old }
    ensures stays_asked { L.asked link.new ≡ L.asked link.old }
    ensures faults { CountsFaults (L.faults link.old) (L.faults link.new) result }
{
    if part.is_empty() {
        return Ok(());
    }
    link.give(part.slice())
}
