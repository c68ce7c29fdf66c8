//! A look whether a library is still in the state of a tag.
ghost use Rattle.std.specs.Prelude.{◌≡◌, ◌==◌, ◌&&◌, nat_lt, take, Some};
ghost use Rattle.library_state.specs.declared.call.Act.TheVariants as act;
ghost use Rattle.library_state.specs.declared.state.TheConstants.{MAX_TOKENS};
ghost use Rattle.library_rules.specs.Calls.{token_of};
ghost use Rattle.depot.specs.Answering.{permits};
ghost use Rattle.library_server.specs.Counting.{is_current, last_count};

use crate::counting::OpenedLibrary;
use depot::Depot;
use ids::LibId;
use library_state::{Secret, Tag};
use object_store::Shelf;

/// The most tokens of a library.
const MOST_TOKENS: u64 = 1_000;

/// Whether a library is the one that is served, is still in the state of the tag, and has a token of the secret. It takes no
/// memory.
pub(crate) fn is_current<S: Shelf>(
    library: &OpenedLibrary<S>,
    lib: LibId,
    secret: &Option<Secret>,
    tag: Tag,
) -> bool
    ensures value { result ≡ is_current library.now lib secret.now tag }
{
    lib == library.depot.lib()
        && tag.opening == library.depot.opening()
        && tag.count == library.changes
        && tag.count < u64::MAX
        && may_ask_head(&library.depot, secret)
}

/// Whether the one of this secret may ask for the head.
fn may_ask_head<S: Shelf>(depot: &Depot<S>, secret: &Option<Secret>) -> bool
    ensures value { result ≡ permits (token_of (take MAX_TOKENS depot.now.state.tokens) secret.now) act.Head }
{
    match secret {
        Some(shown) => has_token(depot, shown),
        None => false,
    }
}

/// Whether a token has the secret: each may ask for the head.
fn has_token<S: Shelf>(depot: &Depot<S>, secret: &Secret) -> bool
    ensures value { result ≡ permits (token_of (take MAX_TOKENS depot.now.state.tokens) (Some secret.now)) act.Head }
{
    for place in 0..MOST_TOKENS {
        let held = match depot.token_at(place) {
            Some((held, _)) => held,
            None => return false,
        };
        if secret.is(&held) {
            return true;
        }
    }
    false
}
