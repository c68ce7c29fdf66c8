//! Theorems about what a client writes and reads.
ghost use Rattle.std.specs.Prelude.{◌≡◌, ◌⊎◌, ◌++◌, ◌+◌, ◌<◌, ◌^◌, ℕ, Bool, Some, List, length, take};
ghost use Rattle.http_front.specs.ReplyText.{bad_parts, bad_text, parts_of, text};
ghost use Rattle.http_front.specs.RequestHead.{number_in};
ghost use Rattle.http_front.specs.Status.{status_words};
ghost use Rattle.http_front.specs.declared.order.Order.{Order};
ghost use Rattle.http_front.specs.declared.order.What.{What};
ghost use Rattle.http_front.specs.declared.outcome.Outcome.{Outcome};
ghost use Rattle.http_front.specs.declared.status.Status.{Status};
ghost use Rattle.http_client.specs.OrderOutcome.{CanHave};
ghost use Rattle.http_client.specs.OutcomeReading.{IsOutcome, TellsThings, as_read};
ghost use Rattle.http_client.specs.ReadOrder.{IsTyped, SpellsOrder};
ghost use Rattle.http_client.specs.ReplyHead.{status_number};
ghost use Rattle.http_client.specs.RequestText.{HasRequest, IsHost, IsWithinLimit, request_text};
ghost use Rattle.http_client.specs.Response.{IsBad, IsResponse, IsWhole, NeedsManyFields};
ghost use Rattle.http_client.specs.declared.response.Response.{Response};

/// A whole reply tells an outcome that the order can have.
pub fn a_whole_reply_tells_an_outcome_that_the_order_can_have()
    ensures { (order : What) (buffer : List ℕ) (outcome : Outcome) (used : ℕ) (ends : Bool)
        → IsWhole order buffer outcome used ends → CanHave order outcome }
{}

/// What is written for an order is read by a server as that order, whatever follows it.
pub fn what_is_written_for_an_order_is_read_as_the_order()
    ensures { (order : Order) (host rest : List ℕ) (ends : Bool) → IsTyped order → HasRequest order → IsWithinLimit order → IsHost host
        → SpellsOrder (request_text order host ends ++ rest) order ends rest }
{}

/// The status, the tag and the body that a server writes for an outcome are read as that outcome, by whoever gave an order that can
/// have it. What a text doesn't show is read as fixed (`as_read`).
pub fn the_body_that_is_written_for_an_outcome_is_read_as_the_outcome()
    ensures { (order : What) (outcome : Outcome) → CanHave order outcome → TellsThings outcome
        → IsOutcome order (parts_of outcome).status (parts_of outcome).tag (parts_of outcome).body (Some (as_read outcome)) }
{}

/// The number by which a client knows a status is the one that the words of a server for it begin with.
pub fn the_number_of_a_status_is_the_one_that_its_words_begin_with()
    ensures { (status : Status) → number_in (take 3 (status_words status)) ≡ Some (status_number status) }
{}

/// A whole reply stays one whatever follows it, and is one by its own bytes alone.
pub fn a_whole_reply_is_one_whatever_follows_it()
    ensures whole { (order : What) (buffer more : List ℕ) (outcome : Outcome) (used : ℕ) (ends : Bool)
        → IsWhole order buffer outcome used ends → IsWhole order (buffer ++ more) outcome used ends }
    ensures part { (order : What) (buffer : List ℕ) (outcome : Outcome) (used : ℕ) (ends : Bool)
        → IsWhole order buffer outcome used ends → IsWhole order (take used buffer) outcome used ends }
{}

/// Bytes that are no reply to an order are none whatever follows them, and from the same place on.
pub fn bytes_that_are_no_reply_become_none()
    ensures { (order : What) (buffer more : List ℕ) (at : ℕ) → IsBad order buffer at → IsBad order (buffer ++ more) at }
{}

/// Bytes tell one thing to one who gave an order, but where some of them go on as heads of more than 64 fields alone.
pub fn some_bytes_tell_one_reply()
    ensures { (order : What) (buffer : List ℕ) (r s : Response) → IsResponse order buffer r → IsResponse order buffer s → (r ≡ s) ⊎ NeedsManyFields buffer }
{}

/// The reply that a server writes for an outcome is read as that outcome, whatever follows it, by whoever gave an order that can
/// have it; and the connection ends after it just where that was written. What a text doesn't show is read as fixed (`as_read`).
pub fn what_is_written_for_an_outcome_is_read_as_the_outcome()
    ensures { (order : What) (outcome : Outcome) (ends : Bool) (rest : List ℕ) → CanHave order outcome → TellsThings outcome
        → length (parts_of outcome).body < 10 ^ 19
        → IsWhole order (text outcome ends ++ rest) (as_read outcome) (length (text outcome ends)) ends }
{}

/// The reply by which a server ends a connection, because what it read is no request, is no reply to any order, whatever
/// follows it. The place that is told is the end of its head.
pub fn a_reply_that_ends_a_connection_is_none_to_an_order()
    ensures { (order : What) (status : ℕ) (rest : List ℕ)
        → (at : ℕ) × (at + length (bad_parts status).body ≡ length (bad_text status)) × IsBad order (bad_text status ++ rest) at }
{}
