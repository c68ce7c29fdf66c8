//! What the outcome of an order tells.
ghost use Rattle.std.specs.Prelude.{◌≡◌};
ghost use Rattle.tree_fetch.specs.Asking.{GivesBytes, GivesRows, Refuses, RepliesBytes, TellsBytes, TellsIn, TellsRows};

use http_front::{Outcome, Row};
use ids::{Bytes, Items};
use library_state::{Refusal, Reply};

/// The bytes of an object that was asked for, or why it was refused.
pub(crate) fn bytes_told(outcome: Outcome) -> Result<Bytes, Refusal>
    requires gives { GivesBytes outcome }
    ensures value { TellsBytes outcome result }
{
    match outcome {
        Outcome::Plain(reply, _) => bytes_in(reply),
        Outcome::Refused(why) => Err(why),
        _ => unreachable!(),
    }
}

/// The same of a library's reply.
fn bytes_in(reply: Reply) -> Result<Bytes, Refusal>
    requires gives { RepliesBytes reply }
    ensures value { TellsIn reply result }
{
    match reply {
        Reply::Got(bytes) => Ok(bytes),
        Reply::Refused(why) => Err(why),
        _ => unreachable!(),
    }
}

/// The files and directories that were asked for, or why they were refused.
pub(crate) fn rows_told(outcome: Outcome) -> Result<Items<Row>, Refusal>
    requires gives { GivesRows outcome }
    ensures value { TellsRows outcome result }
{
    match outcome {
        Outcome::Packed(rows) => Ok(rows),
        Outcome::Plain(reply, _) => Err(refusal_in(reply)),
        Outcome::Refused(why) => Err(why),
        _ => unreachable!(),
    }
}

/// Why a library refused.
fn refusal_in(reply: Reply) -> Refusal
    requires gives { Refuses reply }
    ensures value { reply ≡ Reply.Refused result }
{
    match reply {
        Reply::Refused(why) => why,
        _ => unreachable!(),
    }
}
