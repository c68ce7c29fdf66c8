//! An answer of which the bytes are still to be hashed: who has a turn at a library does that after it.
ghost use Rattle.std.specs.Prelude.{◌≡◌};
ghost use Rattle.depot.specs.Unjudged.{judged, judged_bytes, other_name};

use ids::{Bytes, Key, Kind, ObjId};
use library_state::{Refusal, Reply};

/// An answer to a call. What was found for a get may be another object's.
#[derive(Debug, Drop)]
pub enum Unjudged {
    /// The reply.
    Told(Reply),
    /// What lies under a key, of which the name is still to be looked at.
    Found(Key, Bytes),
}

/// The reply that an answer is: what was found, or that it is damaged where it has another name.
pub fn judged(answer: Unjudged) -> Reply
    ensures { result ≡ judged answer }
{
    match answer {
        Unjudged::Told(reply) => reply,
        Unjudged::Found(key, bytes) => judged_bytes(&key, bytes),
    }
}

/// The same of bytes under a key.
fn judged_bytes(key: &Key, bytes: Bytes) -> Reply
    ensures { result ≡ judged_bytes key.now bytes }
{
    match other_name(key, &bytes) {
        Some(name) => {
            drop(bytes);
            Reply::Refused(Refusal::Damaged {
                want: key.id,
                got: Some(name),
            })
        }
        None => Reply::Got(bytes),
    }
}

/// The name of the bytes, where they are no commit and it isn't the key's.
fn other_name(key: &Key, bytes: &Bytes) -> Option<ObjId>
    ensures { result ≡ other_name key.now bytes.now }
{
    if key.kind == Kind::Commit {
        return None;
    }
    let name = ObjId::of(bytes.slice());
    if name == key.id { None } else { Some(name) }
}
