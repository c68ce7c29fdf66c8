//! Which orders have a request, and how long its body is. Nothing is written for it.
ghost use Rattle.std.specs.Prelude.{◌≡◌, ◌↔◌, ◌≤◌, ◌<◌, ◌+◌, ◌-◌, ◌^◌, ℕ, List, length, min, nat_lt, unsigned_abs, All, IsTrue};
ghost use Rattle.std.specs.List.{list_all};
ghost use Rattle.hex.specs.Hex.{encode_lower};
ghost use Rattle.http_front.specs.CallQuery.{IsObjectId};
ghost use Rattle.http_front.specs.IdArray.{array_text};
ghost use Rattle.http_front.specs.Limits.{body_limit};
ghost use Rattle.http_front.specs.Rows.{rows_text};
ghost use Rattle.http_front.specs.Route.{object_limit, route_limit};
ghost use Rattle.http_client.specs.Conditions.{is_asked, is_listed_kind, is_path_kind, names_library};
ghost use Rattle.http_client.specs.OrderOutcome.{asks_version};
ghost use Rattle.http_client.specs.RequestText.{HasRequest, IsHost, IsWithinLimit, body_in, is_host_byte, library_route, limit_in, missing_route};

use http_front::{Order, Row, What};
use ids::{Kind, ObjId, Text};

/// The most bytes of a host's name. Our own; it is the limit of domain names (RFC 1035).
pub(crate) const MAX_HOST: usize = 255;

/// Whether the order has a request. It names a library just where it doesn't ask for the version; files and directories
/// are named by rows and lists alone; which commits are absent is not asked; and days have at most 18 digits.
pub fn has_request(order: &Order) -> bool
    ensures value { IsTrue result ↔ HasRequest order.now }
{
    names_library(order) && is_asked(&order.what)
}

fn names_library(order: &Order) -> bool
    ensures value { result ≡ names_library order.now.lib order.now.what }
{
    match &order.lib {
        Some(_) => !asks_version(&order.what),
        None => asks_version(&order.what),
    }
}

/// Whether the version is asked for.
fn asks_version(what: &What) -> bool
    ensures value { result ≡ asks_version what.now }
{
    match what {
        What::Version => true,
        _ => false,
    }
}

/// Whether a request can ask for it.
fn is_asked(what: &What) -> bool
    ensures value { result ≡ is_asked what.now }
{
    match what {
        What::Get(key) => is_path_kind(key.kind),
        What::Put(key, _) => is_path_kind(key.kind),
        What::Missing(kind, _) => is_listed_kind(*kind),
        What::Version
        | What::Check(_)
        | What::Head(_)
        | What::Update(_)
        | What::PutFs(_)
        | What::GetFs(_)
        | What::Ids(_, _)
        | What::Collect => true,
        What::Limit(days) => is_short(*days),
    }
}

/// Whether days have at most 18 digits.
fn is_short(days: i64) -> bool
    ensures value { result ≡ nat_lt (unsigned_abs days) (10 ^ 18) }
{
    days.unsigned_abs() < 1_000_000_000_000_000_000
}

/// Whether a path can name an object of the kind.
fn is_path_kind(kind: Kind) -> bool
    ensures value { result ≡ is_path_kind kind }
{
    match kind {
        Kind::Commit | Kind::Block => true,
        Kind::Fs => false,
    }
}

/// Whether it can be asked which ids of the kind name nothing.
fn is_listed_kind(kind: Kind) -> bool
    ensures value { result ≡ is_listed_kind kind }
{
    match kind {
        Kind::Fs | Kind::Block => true,
        Kind::Commit => false,
    }
}

/// Whether a text is the name of a host as a request shows it: 1 to 255 ASCII letters, digits, `.` and `-`.
pub fn is_host(host: &Text) -> bool
    ensures value { IsTrue result ↔ IsHost host.now }
{
    let bytes = host.as_bytes();
    let size = bytes.len();
    if size == 0 {
        return false;
    }
    if size > MAX_HOST {
        return false;
    }
    are_host_bytes(bytes)
}

fn are_host_bytes(bytes: &[u8]) -> bool
    ensures value { result ≡ list_all is_host_byte bytes.now }
{
    for byte in bytes {
        if !is_host_byte(*byte) {
            return false;
        }
    }
    true
}

fn is_host_byte(byte: u8) -> bool
    ensures value { result ≡ is_host_byte byte }
{
    byte.is_ascii_alphanumeric() || byte == b'.' || byte == b'-'
}

/// Whether the body of the order's request has no more bytes than the server takes.
pub fn is_within_limit(order: &Order) -> bool
    ensures value { IsTrue result ↔ IsWithinLimit order.now }
{
    body_size(order) <= body_limit(order)
}

/// The most bytes that the server takes as the body of the order's request.
pub fn body_limit(order: &Order) -> u64
    ensures value { result ≡ limit_in order.now }
    ensures bound { result ≤ body_limit }
{
    match &order.lib {
        Some(_) => library_limit(&order.what),
        None => 33_554_432,
    }
}

/// The same of what a library is asked for.
fn library_limit(what: &What) -> u64
    ensures value { (lib : List ℕ) → result ≡ route_limit (library_route lib what.now) }
    ensures bound { result ≤ body_limit }
{
    match what {
        What::Put(key, _) => object_limit(key.kind),
        What::Missing(kind, _) => missing_limit(*kind),
        What::PutFs(_) => 67_108_864,
        What::Version
        | What::Check(_)
        | What::Head(_)
        | What::Update(_)
        | What::Get(_)
        | What::GetFs(_)
        | What::Ids(_, _)
        | What::Limit(_)
        | What::Collect => 33_554_432,
    }
}

fn object_limit(kind: Kind) -> u64
    ensures value { result ≡ object_limit kind }
    ensures bound { result ≤ body_limit }
{
    match kind {
        Kind::Commit => 1_048_576,
        Kind::Fs => 33_554_432,
        Kind::Block => 16_777_216,
    }
}

fn missing_limit(kind: Kind) -> u64
    ensures value { (lib : List ℕ) → result ≡ route_limit (missing_route lib kind) }
    ensures bound { result ≤ body_limit }
{
    match kind {
        Kind::Commit | Kind::Fs | Kind::Block => 33_554_432,
    }
}

/// The length of the body of the order's request, or 2^64 - 1 where that is more.
pub fn body_size(order: &Order) -> u64
    ensures value { result ≡ min (length (body_in order.now.what)) (2 ^ 64 - 1) }
{
    match &order.what {
        What::Put(_, bytes) => bytes.len() as u64,
        What::Missing(_, ids) => array_size(ids.slice()),
        What::GetFs(ids) => array_size(ids.slice()),
        What::PutFs(rows) => rows_size(rows.slice()),
        What::Version
        | What::Check(_)
        | What::Head(_)
        | What::Update(_)
        | What::Get(_)
        | What::Ids(_, _)
        | What::Limit(_)
        | What::Collect => 0,
    }
}

/// The length of the text of an array of ids: of each its digits, two quotes and what follows it.
fn array_size(ids: &[ObjId]) -> u64
    ensures value { result ≡ min (length (array_text ids.now)) (2 ^ 64 - 1) }
{
    let count = ids.len();
    if count == 0 {
        return 2;
    }
    let mut size: u64 = 1;
    for id in ids {
        let digits = id.digits();
        size = size.saturating_add(3 + digits.len() as u64);
    }
    size
}

/// The length of the text of some rows.
fn rows_size(rows: &[Row]) -> u64
    ensures value { result ≡ min (length (rows_text rows.now)) (2 ^ 64 - 1) }
{
    let mut size: u64 = 0;
    for row in rows {
        size = size.saturating_add(row_size(&row.id, row.bytes.slice()));
    }
    size
}

/// The length of the text of a row, or 2^64 - 1 where that is more.
fn row_size(id: &ObjId, bytes: &[u8]) -> u64
    ensures value { result ≡ min (40 + (4 + length bytes.now)) (2 ^ 64 - 1) }
    ensures digits { length (encode_lower id.now) ≡ 40 }
{
    let digits = id.digits();
    (bytes.len() as u64).saturating_add(4 + digits.len() as u64)
}
