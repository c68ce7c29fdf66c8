//! What a request asks for.
ghost use Rattle.std.specs.Prelude.{◌≡◌, Some, codes};
ghost use Rattle.http_front.specs.IdArray.{ids_of};
ghost use Rattle.http_front.specs.Order.{IsOrder, IsOrderAt, OrdersAs, PutsRows, asked_of, asks_objects, asks_to, asks_what_differs, asks_what_is_absent, body_fault, limits, refusal_without_call, updates};
ghost use Rattle.http_front.specs.Query.{client_asked, days_asked, id_asked, op_asked};

use crate::head::Head;
use crate::id_array::read_ids;
use crate::method::Method;
use crate::query::{client_asked, days_asked, id_asked, op_asked, query_of};
use crate::route::{Route, route_of};
use crate::row::{Row, read_rows};
use ids::{Bytes, IdList, Items, Key, Kind, LibId, ObjId};
use json_words::ReadFault;
use library_state::{Op, Refusal, Secret, Tag};
use std::alloc::Global;

/// What a request asks for, and of which library.
#[derive(Debug, Drop)]
pub struct Order {
    /// The library that the path names, if it names one.
    pub lib: Option<LibId>,
    /// The secret that the request showed, if it showed one.
    pub secret: Option<Secret>,
    pub what: What,
}

/// What is asked for.
#[derive(Debug, Drop)]
pub enum What {
    /// The version of the protocol, of no library.
    Version,
    /// Whether the one who asks may do this.
    Check(Op),
    /// The commit that the library stands at, or that it is still as this tag tells, where the request names one.
    Head(Option<Tag>),
    /// That the library take in this commit.
    Update(ObjId),
    /// The bytes of an object.
    Get(Key),
    /// That the bytes be stored under a key.
    Put(Key, Bytes),
    /// Which of these ids name nothing that is stored as this kind.
    Missing(Kind, IdList),
    /// That these files and directories be stored.
    PutFs(Items<Row>),
    /// The files and directories with these ids.
    GetFs(IdList),
    /// The files and directories that the first commit needs and the second, if there is one, does not.
    Ids(ObjId, Option<ObjId>),
    /// That history be kept for so many days.
    Limit(i64),
    /// That what no kept commit needs be removed.
    Collect,
}

/// Why a request has no order.
#[derive(Debug, Drop, PartialEq, Eq)]
pub enum OrderFault {
    /// The request is refused before any library is asked.
    Refused(Refusal),
    /// There was no memory for the order.
    NoMemory,
}

/// What a request asks for, by its head and its body. What a body holds is copied once. The tag of the head goes into an order
/// for the head of a library, and counts for no other.
///
/// The refusals, in the order in which they are looked for: `BadMethod` where the method is not GET, PUT or POST;
/// `NoCall` where method and path stand in no row of docs/FORMATS.md, "Requests"; `BadQuery` where a value that the row
/// asks for is not in the query, is there twice (equal or not), or is not of its form; `BadBody` where the body is not of
/// the form that its row asks for. Whether the library is one that is served, the one who answers the order has to say.
pub fn order_of(alloc: Global, head: &Head, body: &[u8]) -> Result<Order, OrderFault>
    ensures value { OrdersAs result (IsOrder head.now.method head.now.target head.now.token head.now.tag body.now) }
{
    order_in(
        alloc,
        head.method,
        head.target.slice(),
        head.token,
        head.tag,
        body,
    )
}

/// The same of a body that is handed over. The bytes of an object that is PUT under its key are moved into the order, not
/// copied; rows are copied.
pub fn order_of_own(alloc: Global, head: &Head, body: Bytes) -> Result<Order, OrderFault>
    ensures value { OrdersAs result (IsOrder head.now.method head.now.target head.now.token head.now.tag body) }
{
    own_order_in(
        alloc,
        head.method,
        head.target.slice(),
        head.token,
        head.tag,
        body,
    )
}

/// The same, by the parts of a head that count.
fn own_order_in(
    alloc: Global,
    method: Method,
    target: &str,
    secret: Option<Secret>,
    tag: Option<Tag>,
    body: Bytes,
) -> Result<Order, OrderFault>
    ensures value { OrdersAs result (IsOrder method target.now secret tag body) }
{
    match route_of(method, target) {
        None => Err(OrderFault::Refused(refusal_without_call(method))),
        Some(route) => own_order_at(alloc, route, secret, tag, query_of(target), body),
    }
}

fn own_order_at(
    alloc: Global,
    route: Route,
    secret: Option<Secret>,
    tag: Option<Tag>,
    query: &str,
    body: Bytes,
) -> Result<Order, OrderFault>
    ensures { OrdersAs result (IsOrderAt (Some route) Method.Get secret tag query.now body) }
{
    match route {
        Route::Put(lib, key) => Ok(asked_of(lib, secret, What::Put(key, body))),
        other => order_at(alloc, other, secret, tag, query, body.slice()),
    }
}

/// The order of a request, by the parts of its head that count.
fn order_in(
    alloc: Global,
    method: Method,
    target: &str,
    secret: Option<Secret>,
    tag: Option<Tag>,
    body: &[u8],
) -> Result<Order, OrderFault>
    ensures value { OrdersAs result (IsOrder method target.now secret tag body.now) }
{
    match route_of(method, target) {
        None => Err(OrderFault::Refused(refusal_without_call(method))),
        Some(route) => order_at(alloc, route, secret, tag, query_of(target), body),
    }
}

/// Why a request whose method and path name no call is refused.
fn refusal_without_call(method: Method) -> Refusal
    ensures { result ≡ refusal_without_call method }
{
    match method {
        Method::Get | Method::Put | Method::Post => Refusal::NoCall,
        Method::Other => Refusal::BadMethod,
    }
}

fn order_at(
    alloc: Global,
    route: Route,
    secret: Option<Secret>,
    tag: Option<Tag>,
    query: &str,
    body: &[u8],
) -> Result<Order, OrderFault>
    ensures { OrdersAs result (IsOrderAt (Some route) Method.Get secret tag query.now body.now) }
{
    match route {
        Route::Version => Ok(Order {
            lib: None,
            secret,
            what: What::Version,
        }),
        Route::Check(lib) => order_of_check(lib, secret, query),
        Route::Head(lib) => Ok(asked_of(lib, secret, What::Head(tag))),
        Route::Update(lib) => order_of_update(lib, secret, query),
        Route::Get(lib, key) => Ok(asked_of(lib, secret, What::Get(key))),
        Route::Put(lib, key) => match Bytes::copy(alloc, body) {
            Ok(bytes) => Ok(asked_of(lib, secret, What::Put(key, bytes))),
            Err(_) => Err(OrderFault::NoMemory),
        },
        Route::CheckFs(lib) => order_of_absent(alloc, lib, secret, Kind::Fs, body),
        Route::CheckBlocks(lib) => order_of_absent(alloc, lib, secret, Kind::Block, body),
        Route::PutFs(lib) => order_of_rows(alloc, lib, secret, body),
        Route::GetFs(lib) => order_of_ids(alloc, lib, secret, body),
        Route::Ids(lib) => order_of_difference(lib, secret, query),
        Route::Limit(lib) => order_of_limit(lib, secret, query),
        Route::Collect(lib) => Ok(asked_of(lib, secret, What::Collect)),
    }
}

/// What is asked of a library.
fn asked_of(lib: LibId, secret: Option<Secret>, what: What) -> Order
    ensures { result ≡ asked_of lib secret what }
{
    Order {
        lib: Some(lib),
        secret,
        what,
    }
}

/// The order whether something may be done, which the query says.
fn order_of_check(lib: LibId, secret: Option<Secret>, query: &str) -> Result<Order, OrderFault>
    ensures { OrdersAs result (λ due. due ≡ asks_to lib secret (op_asked query.now)) }
{
    match op_asked(query) {
        Some(op) => Ok(asked_of(lib, secret, What::Check(op))),
        None => Err(OrderFault::Refused(Refusal::BadQuery)),
    }
}

/// The order that a library take in the commit that the query names.
fn order_of_update(lib: LibId, secret: Option<Secret>, query: &str) -> Result<Order, OrderFault>
    ensures { OrdersAs result (λ due. due ≡ updates lib secret (id_asked (codes "head") query.now)) }
{
    match id_asked("head", query) {
        Some(commit) => Ok(asked_of(lib, secret, What::Update(commit))),
        None => Err(OrderFault::Refused(Refusal::BadQuery)),
    }
}

/// The order that history be kept for the days that the query names.
fn order_of_limit(lib: LibId, secret: Option<Secret>, query: &str) -> Result<Order, OrderFault>
    ensures { OrdersAs result (λ due. due ≡ limits lib secret (days_asked query.now)) }
{
    match days_asked(query) {
        Some(days) => Ok(asked_of(lib, secret, What::Limit(days))),
        None => Err(OrderFault::Refused(Refusal::BadQuery)),
    }
}

/// The order for what one commit of the query needs and another does not.
fn order_of_difference(lib: LibId, secret: Option<Secret>, query: &str) -> Result<Order, OrderFault>
    ensures { OrdersAs result (λ due. due
        ≡ asks_what_differs lib secret (id_asked (codes "server-head") query.now) (client_asked query.now)) }
{
    let server = match id_asked("server-head", query) {
        Some(server) => server,
        None => return Err(OrderFault::Refused(Refusal::BadQuery)),
    };
    match client_asked(query) {
        Some(client) => Ok(asked_of(lib, secret, What::Ids(server, client))),
        None => Err(OrderFault::Refused(Refusal::BadQuery)),
    }
}

/// The order for the absent ones of the ids in a body.
fn order_of_absent(
    alloc: Global,
    lib: LibId,
    secret: Option<Secret>,
    kind: Kind,
    body: &[u8],
) -> Result<Order, OrderFault>
    ensures { OrdersAs result (λ due. due ≡ asks_what_is_absent lib secret kind (ids_of body.now)) }
{
    match read_ids(alloc, body) {
        Ok(ids) => Ok(asked_of(lib, secret, What::Missing(kind, ids))),
        Err(fault) => Err(body_fault(fault)),
    }
}

/// The order for the files and directories whose ids stand in a body.
fn order_of_ids(
    alloc: Global,
    lib: LibId,
    secret: Option<Secret>,
    body: &[u8],
) -> Result<Order, OrderFault>
    ensures { OrdersAs result (λ due. due ≡ asks_objects lib secret (ids_of body.now)) }
{
    match read_ids(alloc, body) {
        Ok(ids) => Ok(asked_of(lib, secret, What::GetFs(ids))),
        Err(fault) => Err(body_fault(fault)),
    }
}

/// The order that the rows in a body be stored.
fn order_of_rows(
    alloc: Global,
    lib: LibId,
    secret: Option<Secret>,
    body: &[u8],
) -> Result<Order, OrderFault>
    ensures { OrdersAs result (λ due. PutsRows lib secret body.now due) }
{
    match read_rows(alloc, body) {
        Ok(rows) => Ok(asked_of(lib, secret, What::PutFs(rows))),
        Err(fault) => Err(body_fault(fault)),
    }
}

/// The fault of a body that is not of its form, at a place.
fn body_fault(fault: ReadFault<u64>) -> OrderFault
    ensures { result ≡ body_fault fault }
{
    match fault {
        ReadFault::Bad(at) => OrderFault::Refused(Refusal::BadBody(at)),
        ReadFault::NoMemory => OrderFault::NoMemory,
    }
}
