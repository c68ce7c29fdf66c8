//! What holds of every served connection: theorems on the definitions, with no code.
ghost use Rattle.std.specs.Prelude.{◌≡◌, ◌≤◌, ℕ, List};
ghost use Rattle.http_front.specs.declared.outcome.Outcome.TheVariants.{Packed};
ghost use Rattle.http_front.specs.Link.{LinkTells};
ghost use Rattle.http_front.specs.Rows.{FitRows};
ghost use Rattle.http_front.specs.declared.row.Row.{Row};
ghost use Rattle.worker_server.specs.Calls.{Leaves, most_packed, packed_size, rules_at};
ghost use Rattle.worker_server.specs.HeldInput.{NeverHoldsMore};
ghost use Rattle.worker_server.specs.ServedConnection.{Answers, Exchange, NeverWaits, Run, operations_in, request_limit};

use crate::host::Host;

/// The limits of a connection, in numbers.
pub fn the_limits_are_these()
    ensures { (request_limit ≡ 10000) × (most_packed ≡ 268435456) }
{}

/// The files and directories that one reply packs have together no more bytes than fit, whatever was asked for and whatever
/// the host holds.
pub fn a_packed_reply_has_a_bound<H: Host>()
    ensures { (host : H) (u v : H.View) (exchange : Exchange H.Operation) (rows : List Row) → Answers (rules_at (H.shows host) H.asks H.spares H.collects H.looks) u exchange v
        → exchange.outcome ≡ Packed rows → packed_size rows ≤ most_packed }
{}

/// The operations of the requests that were answered, in their order, are those that calls, collections and looks left which lead from
/// the view before to the view after.
pub fn the_operations_of_requests_are_those_of_their_calls<H: Host>()
    ensures { (host : H) (u v : H.View) (exchanges : List (Exchange H.Operation)) → Run (rules_at (H.shows host) H.asks H.spares H.collects H.looks) u exchanges v
        → Leaves (rules_at (H.shows host) H.asks H.spares H.collects H.looks) u (operations_in exchanges) v }
{}

/// So each of them is short enough for a reply to tell its length.
pub fn what_one_reply_packs_has_a_text()
    ensures { (rows : List Row) → packed_size rows ≤ most_packed → FitRows rows }
{}

/// What a connection holds unread, beyond the requests whose replies were given by then, has fewer bytes than the longest head
/// and the longest body each time that more is asked for, and fewer than these and one piece at any time, so also as a reply
/// goes out.
pub fn what_is_held_unread_has_a_bound<H: Host>()
    ensures { (input : List ℕ) (exchanges : List (Exchange H.Operation)) (old new : LinkTells) → NeverWaits input exchanges old new
        → NeverHoldsMore input exchanges old new }
{}
