//! The bytes of requests.
ghost use Rattle.std.specs.Prelude.{◌≡◌, ◌++◌, ◌∷◌, [], List, ℕ, codes, decimal, length, IfOk, OnOk};
ghost use Rattle.std.specs.List.{join_with_byte};
ghost use Rattle.hex.specs.Hex.{encode_lower};
ghost use Rattle.ids.specs.Kind.{kind_word};
ghost use Rattle.uuid.specs.Text.{hyphenated_text, lower};
ghost use Rattle.http_front.specs.CallQuery.{check_query, days_query, ids_query, op_word, update_query};
ghost use Rattle.http_front.specs.EntityTag.{tag_text};
ghost use Rattle.http_front.specs.IdArray.{array_text};
ghost use Rattle.http_front.specs.ReplyText.{close_line, line};
ghost use Rattle.http_front.specs.Route.{method_in, path_in, under};
ghost use Rattle.http_front.specs.Rows.{rows_text};
ghost use Rattle.http_client.specs.RequestText.{HasRequest, IsHost, IsWithinLimit, length_line, library_route, match_line, method_word, missing_route, named_tag, query_text, request_text, request_with, route_in, start_line, target_text, token_line};

use http_front::{Method, Order, Row, What, array_bytes, write_rows, write_tag_text};
use ids::{Bytes, Key, Kind, LibId, ObjId, Text};
use itoa::Buffer;
use library_state::{Op, Secret, Tag};
use std::alloc::{AllocError, Global};

/// Room for the head of a request to a host with a name of usual length, so that what is made grows no more than once.
const HEAD_ROOM: usize = 512;

/// The bytes of the request that an order is written as, with `Connection: close` where the connection is to end after
/// it: one request of HTTP/1.1 (RFC 9112) with the secret of the order as `Seafile-Repo-Token`, the tag that it names as `If-None-Match`, and its path and query by the
/// table of calls. That a server reads it as this order, whatever follows, says the law
/// `what_is_written_for_an_order_is_read_as_the_order`.
///
/// Whether the order has a request and its body is within the limit, `has_request` and `is_within_limit` tell; whether the
/// host is a name, `is_host`. An object is copied once, one among rows twice. The only error is want of memory.
pub fn request_bytes(
    alloc: Global,
    order: &Order,
    host: &Text,
    closes: bool,
) -> Result<Bytes, AllocError>
    requires proper { HasRequest order.now }
    requires short { IsWithinLimit order.now }
    requires name { IsHost host.now }
    ensures value { IfOk result (λ bytes. bytes ≡ request_text order.now host.now closes) }
{
    let name = host.as_bytes();
    match &order.what {
        What::Put(_, bytes) => write_request(alloc, order, name, closes, bytes.slice()),
        What::Missing(_, ids) => ids_request(alloc, order, name, closes, ids.slice()),
        What::GetFs(ids) => ids_request(alloc, order, name, closes, ids.slice()),
        What::PutFs(rows) => rows_request(alloc, order, name, closes, rows.slice()),
        What::Version
        | What::Check(_)
        | What::Head(_)
        | What::Update(_)
        | What::Get(_)
        | What::Ids(_, _)
        | What::Limit(_)
        | What::Collect => write_request(alloc, order, name, closes, &[]),
    }
}

/// A request whose body is an array of ids.
fn ids_request(
    alloc: Global,
    order: &Order,
    host: &[u8],
    closes: bool,
    ids: &[ObjId],
) -> Result<Bytes, AllocError>
    ensures value { IfOk result (λ bytes. bytes ≡ request_with order.now host.now closes (array_text ids.now)) }
{
    let body = array_bytes(alloc, ids)?;
    write_request(alloc, order, host, closes, body.as_slice())
}

/// A request whose body is rows.
fn rows_request(
    alloc: Global,
    order: &Order,
    host: &[u8],
    closes: bool,
    rows: &[Row],
) -> Result<Bytes, AllocError>
    ensures value { IfOk result (λ bytes. bytes ≡ request_with order.now host.now closes (rows_text rows.now)) }
{
    let body = write_rows(alloc, rows)?;
    write_request(alloc, order, host, closes, body.as_slice())
}

/// The request of an order with this body.
#[tactic(auto, unfolding(crate::specs::RequestText::request_with))]
fn write_request(
    alloc: Global,
    order: &Order,
    host: &[u8],
    closes: bool,
    body: &[u8],
) -> Result<Bytes, AllocError>
    ensures value { IfOk result (λ bytes. bytes ≡ request_with order.now host.now closes body.now) }
{
    let method = method_of(order);
    let mut out = Vec::with_capacity(alloc, HEAD_ROOM.saturating_add(body.len()))?;
    push_start(&mut out, order, method)?;
    push_line(&mut out, b"Host: ", host)?;
    push_token(&mut out, &order.secret)?;
    push_match(&mut out, named_tag(&order.what))?;
    push_length(&mut out, method, body.len())?;
    push_close(&mut out, closes)?;
    out.extend_from_slice(b"\r\n")?;
    out.extend_from_slice(body)?;
    Ok(Bytes::from_vec(out))
}

/// The method that asks for it.
fn method_of(order: &Order) -> Method
    ensures value { result ≡ method_in (route_in order.now.lib order.now.what) }
{
    match &order.lib {
        Some(_) => library_method(&order.what),
        None => Method::Get,
    }
}

/// The method that asks it of a library.
fn library_method(what: &What) -> Method
    ensures value { (lib : List ℕ) → result ≡ method_in (library_route lib what.now) }
{
    match what {
        What::Version | What::Check(_) | What::Head(_) | What::Get(_) | What::Ids(_, _) => {
            Method::Get
        }
        What::Update(_) | What::Put(_, _) | What::Limit(_) => Method::Put,
        What::Missing(kind, _) => method_of_missing(*kind),
        What::PutFs(_) | What::GetFs(_) | What::Collect => Method::Post,
    }
}

/// The method that asks which ids of a kind name nothing.
fn method_of_missing(kind: Kind) -> Method
    ensures value { (lib : List ℕ) → result ≡ method_in (missing_route lib kind) }
{
    match kind {
        Kind::Commit | Kind::Fs | Kind::Block => Method::Post,
    }
}

fn method_word(method: Method) -> &'static [u8]
    ensures value { result.now ≡ method_word method }
{
    match method {
        Method::Get => b"GET",
        Method::Put => b"PUT",
        Method::Post => b"POST",
        Method::Other => b"",
    }
}

/// Appends the first line. After an error some of it may stand there; so for every `push_` here.
fn push_start(out: &mut Vec<u8>, order: &Order, method: Method) -> Result<(), AllocError>
    ensures ok { OnOk result (out.new.items
        ≡ out.old.items ++ start_line method (target_text order.now.lib order.now.what)) }
{
    out.extend_from_slice(method_word(method))?;
    out.extend_from_slice(b" ")?;
    push_path(out, order)?;
    push_query(out, &order.what)?;
    out.extend_from_slice(b" HTTP/1.1\r\n")?;
    Ok(())
}

/// Appends the path.
fn push_path(out: &mut Vec<u8>, order: &Order) -> Result<(), AllocError>
    ensures ok { OnOk result (out.new.items ≡ out.old.items ++ path_in (route_in order.now.lib order.now.what)) }
{
    match &order.lib {
        Some(lib) => push_library_path(out, lib, &order.what),
        None => push(out, b"/protocol-version"),
    }
}

/// Appends the path that asks it of a library.
fn push_library_path(out: &mut Vec<u8>, lib: &LibId, what: &What) -> Result<(), AllocError>
    ensures ok { OnOk result (out.new.items ≡ out.old.items ++ path_in (library_route lib.now what.now)) }
{
    match what {
        What::Version => push(out, b"/protocol-version"),
        What::Check(_) => push_word(out, lib, b"permission-check"),
        What::Head(_) | What::Update(_) => push_words(out, lib, b"commit", b"HEAD"),
        What::Get(key) | What::Put(key, _) => push_object(out, lib, key),
        What::Missing(kind, _) => push_missing(out, lib, *kind),
        What::PutFs(_) => push_word(out, lib, b"recv-fs"),
        What::GetFs(_) => push_word(out, lib, b"pack-fs"),
        What::Ids(_, _) => push_word(out, lib, b"fs-id-list"),
        What::Limit(_) => push_word(out, lib, b"history-limit"),
        What::Collect => push_word(out, lib, b"collect"),
    }
}

/// Appends the path of an object.
fn push_object(out: &mut Vec<u8>, lib: &LibId, key: &Key) -> Result<(), AllocError>
    ensures ok { OnOk result (out.new.items
        ≡ out.old.items ++ join_with_byte 47 (under lib.now (kind_word key.now.kind ∷ encode_lower key.now.id ∷ []))) }
{
    push_words(out, lib, key.kind.word().as_bytes(), &key.id.digits())
}

/// Appends the path that asks which ids of a kind name nothing.
fn push_missing(out: &mut Vec<u8>, lib: &LibId, kind: Kind) -> Result<(), AllocError>
    ensures ok { OnOk result (out.new.items ≡ out.old.items ++ path_in (missing_route lib.now kind)) }
{
    match kind {
        Kind::Fs => push_word(out, lib, b"check-fs"),
        Kind::Commit | Kind::Block => push_word(out, lib, b"check-blocks"),
    }
}

/// Appends the path of a word under a library.
fn push_word(out: &mut Vec<u8>, lib: &LibId, word: &[u8]) -> Result<(), AllocError>
    ensures ok { OnOk result (out.new.items ≡ out.old.items ++ join_with_byte 47 (under lib.now (word.now ∷ []))) }
{
    push_library(out, lib)?;
    out.extend_from_slice(word)?;
    Ok(())
}

/// Appends the path of two words under a library.
fn push_words(out: &mut Vec<u8>, lib: &LibId, word: &[u8], name: &[u8]) -> Result<(), AllocError>
    ensures ok { OnOk result (out.new.items
        ≡ out.old.items ++ join_with_byte 47 (under lib.now (word.now ∷ name.now ∷ []))) }
{
    push_library(out, lib)?;
    out.extend_from_slice(word)?;
    out.extend_from_slice(b"/")?;
    out.extend_from_slice(name)?;
    Ok(())
}

/// Appends what every path under a library begins with.
fn push_library(out: &mut Vec<u8>, lib: &LibId) -> Result<(), AllocError>
    ensures ok { OnOk result (out.new.items
        ≡ out.old.items ++ (codes "/repo/" ++ (hyphenated_text lower lib.now ++ 47 ∷ []))) }
{
    out.extend_from_slice(b"/repo/")?;
    out.extend_from_slice(&lib.digits())?;
    out.extend_from_slice(b"/")?;
    Ok(())
}

/// Appends the `?` and the query, where the call has one.
fn push_query(out: &mut Vec<u8>, what: &What) -> Result<(), AllocError>
    ensures ok { OnOk result (out.new.items ≡ out.old.items ++ query_text what.now) }
{
    match what {
        What::Check(op) => push_part(out, b"?op=", op_word(*op)),
        What::Update(commit) => push_part(out, b"?head=", &commit.digits()),
        What::Ids(server, client) => push_difference(out, server, client),
        What::Limit(days) => push_days(out, *days),
        What::Version
        | What::Head(_)
        | What::Get(_)
        | What::Put(_, _)
        | What::Missing(_, _)
        | What::PutFs(_)
        | What::GetFs(_)
        | What::Collect => Ok(()),
    }
}

/// Appends the query for how many days history is to be kept.
fn push_days(out: &mut Vec<u8>, days: i64) -> Result<(), AllocError>
    ensures ok { OnOk result (out.new.items ≡ out.old.items ++ 63 ∷ days_query days) }
{
    let mut buffer = Buffer::new();
    push_part(out, b"?days=", buffer.format(days).as_bytes())
}

fn op_word(op: Op) -> &'static [u8]
    ensures value { result.now ≡ op_word op }
{
    match op {
        Op::Upload => b"upload",
        Op::Download => b"download",
    }
}

/// Appends the query for what one commit needs and another does not.
fn push_difference(
    out: &mut Vec<u8>,
    server: &ObjId,
    client: &Option<ObjId>,
) -> Result<(), AllocError>
    ensures ok { OnOk result (out.new.items ≡ out.old.items ++ 63 ∷ ids_query server.now client.now) }
{
    push_part(out, b"?server-head=", &server.digits())?;
    match client {
        Some(client) => push_part(out, b"&client-head=", &client.digits()),
        None => Ok(()),
    }
}

/// Appends a name with what stands before and behind it, and its value.
fn push_part(out: &mut Vec<u8>, name: &[u8], value: &[u8]) -> Result<(), AllocError>
    ensures ok { OnOk result (out.new.items ≡ out.old.items ++ (name.now ++ value.now)) }
{
    out.extend_from_slice(name)?;
    out.extend_from_slice(value)?;
    Ok(())
}

fn push(out: &mut Vec<u8>, bytes: &[u8]) -> Result<(), AllocError>
    ensures ok { OnOk result (out.new.items ≡ out.old.items ++ bytes.now) }
{
    out.extend_from_slice(bytes)?;
    Ok(())
}

/// Appends a line of a name and a value.
#[tactic(auto, unfolding(http_front::specs::ReplyText::line))]
fn push_line(out: &mut Vec<u8>, name: &[u8], value: &[u8]) -> Result<(), AllocError>
    ensures ok { OnOk result (out.new.items ≡ out.old.items ++ line name.now value.now) }
{
    out.extend_from_slice(name)?;
    out.extend_from_slice(value)?;
    out.extend_from_slice(b"\r\n")?;
    Ok(())
}

/// Appends the secret of the one who asks, if there is one.
fn push_token(out: &mut Vec<u8>, secret: &Option<Secret>) -> Result<(), AllocError>
    ensures ok { OnOk result (out.new.items ≡ out.old.items ++ token_line secret.now) }
{
    match secret {
        Some(secret) => push_line(out, b"Seafile-Repo-Token: ", &secret.digits()),
        None => Ok(()),
    }
}

/// The tag that is named where the head is asked for.
fn named_tag(what: &What) -> Option<Tag>
    ensures value { result ≡ named_tag what.now }
{
    match what {
        What::Head(tag) => *tag,
        _ => None,
    }
}

/// Appends the tag that the order names, if it names one.
fn push_match(out: &mut Vec<u8>, tag: Option<Tag>) -> Result<(), AllocError>
    ensures ok { OnOk result (out.new.items ≡ out.old.items ++ match_line tag) }
{
    match tag {
        Some(tag) => push_tag(out, tag),
        None => Ok(()),
    }
}

/// Appends the line of a tag.
#[tactic(auto, unfolding(http_front::specs::ReplyText::line))]
fn push_tag(out: &mut Vec<u8>, tag: Tag) -> Result<(), AllocError>
    ensures ok { OnOk result (out.new.items ≡ out.old.items ++ line (codes "If-None-Match: ") (tag_text tag)) }
{
    out.extend_from_slice(b"If-None-Match: ")?;
    write_tag_text(out, tag)?;
    out.extend_from_slice(b"\r\n")?;
    Ok(())
}

/// Appends the length of the body, with a method that has one.
fn push_length(out: &mut Vec<u8>, method: Method, size: usize) -> Result<(), AllocError>
    ensures ok { OnOk result (out.new.items ≡ out.old.items ++ length_line method size) }
{
    match method {
        Method::Put | Method::Post => push_size(out, size),
        Method::Get | Method::Other => Ok(()),
    }
}

fn push_size(out: &mut Vec<u8>, size: usize) -> Result<(), AllocError>
    ensures ok { OnOk result (out.new.items ≡ out.old.items ++ line (codes "Content-Length: ") (decimal size)) }
{
    let mut buffer = Buffer::new();
    push_line(out, b"Content-Length: ", buffer.format(size).as_bytes())
}

/// Appends `Connection: close`, where the connection is to end after the request.
fn push_close(out: &mut Vec<u8>, closes: bool) -> Result<(), AllocError>
    ensures ok { OnOk result (out.new.items ≡ out.old.items ++ close_line closes) }
{
    if closes {
        push_line(out, b"Connection: ", b"close")
    } else {
        Ok(())
    }
}
