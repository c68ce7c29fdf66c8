//! Theorems about what a remote answers.
ghost use Rattle.std.specs.Prelude.{◌≡◌, ◌⊎◌, ◌<◌, ◌+◌, ℕ, List, Some};
ghost use Rattle.http_front.specs.Buffer.{to_read};
ghost use Rattle.http_front.specs.declared.order.What.{What};
ghost use Rattle.http_client.specs.RequestText.{IsAsked};
ghost use Rattle.http_client.specs.Response.{NeedsManyFields};
ghost use Rattle.library_state.specs.declared.call.Call.{Call};
ghost use Rattle.library_state.specs.declared.reply.Reply.{Reply};
ghost use Rattle.library_state.specs.declared.state.LibState.{LibState};
ghost use Rattle.depot.specs.Answering.{MayAnswer, decided};
ghost use Rattle.object_store.specs.StoreView.{Index};
ghost use Rattle.worker_server.specs.ServedConnection.{last_request};
ghost use Rattle.remote_calls.specs.Exchange.{Exchanges, IsOfBytes, OpenView, Spells};
ghost use Rattle.remote_calls.specs.HttpRemote.{most_on_link};
ghost use Rattle.remote_calls.specs.OrderReply.{Asks, MayReply};
ghost use Rattle.remote_calls.specs.Sends.{Ending};

use object_store::Shelf;

/// What a remote answers over a link is what the bytes spell that the link has left, however they come in pieces.
pub fn the_answer_to_an_order_is_what_the_bytes_of_the_link_spell()
    ensures { (what : What) (text input : List ℕ) (old new : OpenView) (ending : Ending)
        → Exchanges what text old new ending → to_read old.unread old.link.left ≡ Some input → Spells what input ending }
{}

/// Some bytes spell one answer to an order, but where some of them go on as heads of more than 64 fields alone.
pub fn some_bytes_spell_one_answer()
    ensures { (what : What) (input : List ℕ) (first second : Ending) → IsOfBytes first → IsOfBytes second
        → Spells what input first → Spells what input second → (first ≡ second) ⊎ NeedsManyFields input }
{}

/// Each reply that a library may give to a call of an order, over any shelf, is one that the order can have. Of an order for
/// files and directories each call gives one, or is refused as the order can be.
pub fn each_reply_of_a_library_is_one_that_its_order_can_have<S: Shelf>()
    ensures { (what : What) (shelf : S) (index : Index) (state : LibState) (call : Call) (reply : Reply)
        → IsAsked what → Asks what call.act → MayAnswer index (S.may_give shelf) call.act (decided state call) reply → MayReply what reply }
{}

/// No link is given as many requests as a server answers on one connection.
pub fn a_link_is_left_before_its_server_leaves_it()
    ensures { most_on_link < last_request + 1 }
{}
