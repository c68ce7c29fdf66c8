//! The refusal that a body tells, where the order can be refused so.
ghost use Rattle.std.specs.Prelude.{◌≡◌, ◌==◌, ◌&&◌, ◌||◌, IfOk};
ghost use Rattle.serde_json.specs.View.{view};
ghost use Rattle.http_front.specs.RefusalText.{refused_status};
ghost use Rattle.http_client.specs.OrderOutcome.{asks_collection, asks_library, asks_list, can_refuse, is_commit, is_limit, is_update, seeks, stores, stores_commit, stores_fs, walks};
ghost use Rattle.http_client.specs.OutcomeReading.{IsRefusal, told_in};
ghost use Rattle.http_client.specs.RefusalWords.{if_due, refusal_in as refusal_told};
ghost use Rattle.http_client.specs.ReplyHead.{status_number};

use crate::refusal_reading::refusal_in;
use crate::reply_head::status_number;
use http_front::{Outcome, Status, What, refused_status};
use ids::Kind;
use json_words::parse;
use library_state::Refusal;
use std::alloc::{AllocError, Global};

/// The refusal that a body tells, where it comes with this status and the order can be refused so.
pub(crate) fn refusal_of(
    alloc: Global,
    order: &What,
    status: Status,
    body: &[u8],
) -> Result<Option<Outcome>, AllocError>
    ensures value { IfOk result (IsRefusal order.now status body.now) }
{
    match told_refusal(alloc, body)? {
        Some(refusal) => Ok(if_due(order, status, refusal)),
        None => Ok(None),
    }
}

fn told_refusal(alloc: Global, body: &[u8]) -> Result<Option<Refusal>, AllocError>
    ensures value { IfOk result (λ told. told ≡ told_in refusal_told body.now) }
{
    match parse(alloc, body)? {
        Some(value) => refusal_in(alloc, &value),
        None => Ok(None),
    }
}

fn if_due(order: &What, status: Status, refusal: Refusal) -> Option<Outcome>
    ensures value { result ≡ if_due order.now status refusal }
{
    if is_due(order, status, &refusal) {
        Some(Outcome::Refused(refusal))
    } else {
        None
    }
}

fn is_due(order: &What, status: Status, refusal: &Refusal) -> bool
    ensures value { result ≡ ((status_number (refused_status refusal.now) == status_number status) && can_refuse order.now refusal.now) }
{
    status_number(refused_status(refusal)) == status_number(status) && can_refuse(order, refusal)
}

/// Whether an order can be refused so.
fn can_refuse(order: &What, refusal: &Refusal) -> bool
    ensures value { result ≡ can_refuse order.now refusal.now }
{
    match refusal {
        Refusal::NoCall | Refusal::BadMethod | Refusal::BadQuery => true,
        Refusal::BadBody(_) | Refusal::NoMemory => true,
        Refusal::NoLibrary | Refusal::Denied | Refusal::Store | Refusal::Spent => asks_library(
            order,
        ),
        Refusal::Damaged { .. } => asks_library(order),
        Refusal::NoObject(_) => seeks(order),
        Refusal::Wrong(_) => stores(order),
        Refusal::BadFs(_) => stores_fs(order),
        Refusal::BadCommit(_) | Refusal::OtherLibrary(_) => stores_commit(order),
        Refusal::Taken(_) => stores(order) || is_update(order),
        Refusal::Stale { .. } | Refusal::Unrelated(_) | Refusal::TooLong(_, _) => is_update(order),
        Refusal::Incomplete(_) | Refusal::Unreadable(_) | Refusal::WrongKind(_) => walks(order),
        Refusal::WrongSize(_) | Refusal::TooDeep(_) | Refusal::TooMany(_) => walks(order),
        Refusal::BadDays(_) => is_limit(order),
    }
}

/// Whether a library is asked.
fn asks_library(order: &What) -> bool
    ensures value { result ≡ asks_library order.now }
{
    match order {
        What::Version => false,
        _ => true,
    }
}

/// Whether bytes are to be stored.
fn stores(order: &What) -> bool
    ensures value { result ≡ stores order.now }
{
    match order {
        What::Put(_, _) | What::PutFs(_) => true,
        _ => false,
    }
}

/// Whether a commit's bytes are to be stored.
fn stores_commit(order: &What) -> bool
    ensures value { result ≡ stores_commit order.now }
{
    match order {
        What::Put(key, _) => is_commit(key.kind),
        _ => false,
    }
}

fn is_commit(kind: Kind) -> bool
    ensures value { result ≡ is_commit kind }
{
    match kind {
        Kind::Commit => true,
        Kind::Fs | Kind::Block => false,
    }
}

/// Whether the bytes of files and directories are to be stored.
fn stores_fs(order: &What) -> bool
    ensures value { result ≡ stores_fs order.now }
{
    match order {
        What::PutFs(_) => true,
        _ => false,
    }
}

/// Whether an object is looked for.
fn seeks(order: &What) -> bool
    ensures value { result ≡ seeks order.now }
{
    match order {
        What::Get(_) | What::GetFs(_) | What::Ids(_, _) => true,
        _ => false,
    }
}

/// Whether a library is to take in a commit.
fn is_update(order: &What) -> bool
    ensures value { result ≡ is_update order.now }
{
    match order {
        What::Update(_) => true,
        _ => false,
    }
}

/// Whether the days of history are to be set.
fn is_limit(order: &What) -> bool
    ensures value { result ≡ is_limit order.now }
{
    match order {
        What::Limit(_) => true,
        _ => false,
    }
}

/// Whether a collection is asked for.
fn asks_collection(order: &What) -> bool
    ensures value { result ≡ asks_collection order.now }
{
    match order {
        What::Collect => true,
        _ => false,
    }
}

/// Whether it is asked what one commit needs and another does not.
fn asks_list(order: &What) -> bool
    ensures value { result ≡ asks_list order.now }
{
    match order {
        What::Ids(_, _) => true,
        _ => false,
    }
}

/// Whether stored trees are walked.
fn walks(order: &What) -> bool
    ensures value { result ≡ walks order.now }
{
    is_update(order) || asks_list(order) || asks_collection(order)
}
