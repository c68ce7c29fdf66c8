//! Theorems about the stream of requests and the table of calls.
ghost use Rattle.std.specs.Prelude.{◌≡◌, ◌+◌, ◌^◌, ◌<◌, ◌≤◌, ◌⊎◌, ℕ, ℤ, unsigned_abs, List, [], length, Option, Result, Ok, Some};
ghost use Rattle.ids.specs.declared.key.Kind.{Kind};
ghost use Rattle.library_state.specs.declared.call.Op.{Op};
ghost use Rattle.library_state.specs.declared.refusal.Refusal.{Refusal};
ghost use Rattle.library_state.specs.declared.tag.Tag.{Tag};
ghost use Rattle.http_front.specs.CallQuery.{IsClient, IsObjectId, check_query, days_query, ids_query, update_query};
ghost use Rattle.http_front.specs.Limits.{body_limit, field_limit, head_limit, piece_limit, row_front, row_limit};
ghost use Rattle.http_front.specs.Order.{IsOrder, asked_of};
ghost use Rattle.http_front.specs.Query.{query_of};
ghost use Rattle.http_front.specs.RequestStream.{Extends, HasNoWhole, IsCutAfter, IsRefused, IsUnfinished, NeedsManyFields, Reads, Request};
ghost use Rattle.http_front.specs.Route.{IsCall, IsLibrary, limit_of, method_in, object_limit, path_in, route_of, usual_limit};
ghost use Rattle.http_front.specs.Target.{path_of};
ghost use Rattle.http_front.specs.declared.method.Method.{Method};
ghost use Rattle.http_front.specs.declared.order.Order.{Order};
ghost use Rattle.http_front.specs.declared.order.What.{What};
ghost use Rattle.http_front.specs.declared.route.Route.{Route};

/// Bytes spell their requests in one way: of two readings of them one begins with the other.
pub fn an_input_spells_its_requests_in_one_way()
    ensures { (input : List ℕ) (requests others : List Request) (rest more : List ℕ)
        → Reads input requests rest → Reads input others more
        → Extends requests others ⊎ Extends others requests }
{}

/// Where a connection ends as cut short or refused, what is left begins with no whole request that could be answered.
pub fn what_ends_a_connection_begins_with_no_request()
    ensures cut { (rest given : List ℕ) → IsCutAfter rest given → HasNoWhole rest }
    ensures refused { (rest : List ℕ) (status : ℕ) → IsRefused rest status → HasNoWhole rest }
{}

/// What is left has one end: it is nothing, or cut short after one reply at most, or refused with one status. Two ends may be
/// told only where no head stands there and one may come, but none of at most 64 fields.
pub fn what_is_left_has_one_end()
    ensures nothing_cut { (given : List ℕ) → IsCutAfter [] given → ⊥ }
    ensures nothing_refused { (status : ℕ) → IsRefused [] status → ⊥ }
    ensures one_cut { (rest first second : List ℕ) → IsCutAfter rest first → IsCutAfter rest second → first ≡ second }
    ensures one_status { (rest : List ℕ) (first second : ℕ) → IsRefused rest first → IsRefused rest second
        → (first ≡ second) ⊎ NeedsManyFields rest }
    ensures cut_or_refused { (rest given : List ℕ) (status : ℕ) → IsCutAfter rest given → IsRefused rest status
        → NeedsManyFields rest }
{}

/// What is less than a request is no whole one, and has less than 67,125,248 bytes: those of a head and of the longest body.
pub fn what_is_unfinished_is_short()
    ensures none { (unread given : List ℕ) → IsUnfinished unread given → HasNoWhole unread }
    ensures bound { (unread given : List ℕ) → IsUnfinished unread given → length unread < head_limit + body_limit }
{}

/// The limits of what is read, in numbers.
pub fn the_limits_are_these()
    ensures { (head_limit ≡ 16384) × (field_limit ≡ 64) × (body_limit ≡ 67108864) × (usual_limit ≡ 33554432) × (object_limit Kind.Commit ≡ 1048576)
        × (object_limit Kind.Block ≡ 16777216) × (piece_limit ≡ 65536) × (row_front ≡ 44) × (row_limit ≡ 2 ^ 32) }
{}

/// No body is longer than the longest.
pub fn no_body_is_longer_than_the_longest()
    ensures { (method : Method) (target : List ℕ) → limit_of method target ≤ body_limit }
{}

/// A request names a call by that call's method and path alone, but for a slash at the end and a query.
pub fn a_request_names_a_call_by_its_method_and_path()
    ensures { (method : Method) (target : List ℕ) (route : Route) → route_of method target ≡ Some route
        → (method ≡ method_in route) × (path_of target ≡ path_in route) }
{}

/// What a request names is a call of the table: its library has 16 bytes, and its object is a commit or a block with an
/// id of 20 bytes.
pub fn a_request_names_a_call_of_the_table_alone()
    ensures { (method : Method) (target : List ℕ) (route : Route) → route_of method target ≡ Some route → IsCall route }
{}

/// A call's own method and path name it.
pub fn a_call_is_named_by_its_own_method_and_path()
    ensures { (target : List ℕ) (route : Route) → IsCall route → path_of target ≡ path_in route
        → route_of (method_in route) target ≡ Some route }
{}

/// A request asks for one thing, or is refused for one cause.
pub fn a_request_asks_for_one_thing()
    ensures { (method : Method) (target : List ℕ) (secret : Option (List ℕ)) (tag : Option Tag) (body : List ℕ) (due other : Result Order Refusal)
        → IsOrder method target secret tag body due → IsOrder method target secret tag body other → due ≡ other }
{}

/// Whether something may be done is asked by that path and query, whatever body there is.
pub fn a_check_is_asked_for_by_its_own_query()
    ensures { (target lib : List ℕ) (op : Op) (secret : Option (List ℕ)) (tag : Option Tag) (body : List ℕ) (due : Result Order Refusal) → IsLibrary lib
        → path_of target ≡ path_in (Route.Check lib) → query_of target ≡ check_query op
        → IsOrder (method_in (Route.Check lib)) target secret tag body due
        → due ≡ Ok (asked_of lib secret (What.Check op)) }
{}

/// An update is asked for by that path and query.
pub fn an_update_is_asked_for_by_its_own_query()
    ensures { (target lib commit : List ℕ) (secret : Option (List ℕ)) (tag : Option Tag) (body : List ℕ) (due : Result Order Refusal) → IsLibrary lib → IsObjectId commit
        → path_of target ≡ path_in (Route.Update lib) → query_of target ≡ update_query commit
        → IsOrder (method_in (Route.Update lib)) target secret tag body due
        → due ≡ Ok (asked_of lib secret (What.Update commit)) }
{}

/// For how many days history is kept is set by that path and query, where the number has at most 18 digits.
pub fn a_limit_is_asked_for_by_its_own_query()
    ensures { (target lib : List ℕ) (days : ℤ) (secret : Option (List ℕ)) (tag : Option Tag) (body : List ℕ) (due : Result Order Refusal) → IsLibrary lib → unsigned_abs days < 10 ^ 18
        → path_of target ≡ path_in (Route.Limit lib) → query_of target ≡ days_query days
        → IsOrder (method_in (Route.Limit lib)) target secret tag body due
        → due ≡ Ok (asked_of lib secret (What.Limit days)) }
{}

/// What one commit needs, and another that may be left out does not, is asked for by that path and query.
pub fn a_difference_is_asked_for_by_its_own_query()
    ensures { (target lib server : List ℕ) (client secret : Option (List ℕ)) (tag : Option Tag) (body : List ℕ) (due : Result Order Refusal) → IsLibrary lib → IsObjectId server
        → IsClient client → path_of target ≡ path_in (Route.Ids lib) → query_of target ≡ ids_query server client
        → IsOrder (method_in (Route.Ids lib)) target secret tag body due
        → due ≡ Ok (asked_of lib secret (What.Ids server client)) }
{}
