//! Orders to a library in memory.
use depot::{Depot, MakeFault};
use http_client::has_request;
use http_front::{Order, Outcome, Row, What};
use ids::{Bytes, IdList, Items, Key, Kind, LibId, ObjId, Text};
use library_state::{Refusal, Reply, Secret};
use object_store::{MemoryShelf, Store};
use remote_calls::{DeskRemote, Ending, Remote, RemoteFault};
use std::alloc::{AllocError, Global};

const LIB: [u8; 16] = [0x11; 16];

const OTHER: [u8; 16] = [0x22; 16];

const SECRET: [u8; 20] = [0xaa; 20];

/// A directory without an entry.
const EMPTY: &[u8] = b"{\"dirents\":[],\"type\":3,\"version\":1}";

/// An empty store in memory. Its fault is told as want of memory.
fn empty(alloc: Global) -> Result<Store<MemoryShelf>, AllocError> {
    match Store::start(alloc, MemoryShelf::new(alloc, Items::new(alloc))) {
        Ok(store) => Ok(store),
        Err(_) => Err(AllocError),
    }
}

/// Makes the library `docs` of `me`, whose secret is forty `a`, on that store.
fn made(
    alloc: Global,
    store: Store<MemoryShelf>,
) -> Result<Result<Depot<MemoryShelf>, (Store<MemoryShelf>, MakeFault)>, AllocError> {
    let name = Text::copy(alloc, "docs")?;
    let user = Text::copy(alloc, "me")?;
    let secret = Secret::from_bytes(SECRET);
    Ok(Depot::make(
        alloc,
        store,
        LibId::from_bytes(LIB),
        &name,
        &user,
        secret,
        7,
    ))
}

/// That library as a remote whose orders of these numbers fail. A refusal is told as want of memory.
fn desk(alloc: Global, fails: &[u64]) -> Result<DeskRemote, AllocError> {
    let fails = Items::copy(alloc, fails)?;
    match made(alloc, empty(alloc)?)? {
        Ok(depot) => Ok(DeskRemote::new(depot, fails)),
        Err(_) => Err(AllocError),
    }
}

/// What an order of a library comes to, with this secret. One without a request is told as want of memory.
fn sent(
    alloc: Global,
    desk: &mut DeskRemote,
    lib: [u8; 16],
    secret: [u8; 20],
    what: What,
) -> Ending {
    let order = Order {
        lib: Some(LibId::from_bytes(lib)),
        secret: Some(Secret::from_bytes(secret)),
        what,
    };
    if !has_request(&order) {
        return Err(RemoteFault::NoMemory);
    }
    desk.send(alloc, &order)
}

/// What an order of its owner comes to.
fn own(alloc: Global, desk: &mut DeskRemote, what: What) -> Ending {
    sent(alloc, desk, LIB, SECRET, what)
}

/// The reply to a call on a library.
fn plain(outcome: &Outcome) -> Option<&Reply> {
    match outcome {
        Outcome::Plain(reply, _) => Some(reply),
        _ => None,
    }
}

fn reply_of(ending: &Ending) -> Option<&Reply> {
    match ending {
        Ok(outcome) => plain(outcome),
        Err(_) => None,
    }
}

fn names(reply: &Reply, head: &ObjId) -> bool {
    match reply {
        Reply::HeadIs(id) => *id == *head,
        _ => false,
    }
}

fn is_head(ending: &Ending, head: &ObjId) -> bool {
    match reply_of(ending) {
        Some(reply) => names(reply, head),
        None => false,
    }
}

/// Whether it is of a library at its first opening, with no place in a history.
fn is_of_first(outcome: &Outcome) -> bool {
    match outcome {
        Outcome::Plain(_, tag) => tag.opening == 1 && tag.count == 0,
        _ => false,
    }
}

fn is_tagged(ending: &Ending) -> bool {
    match ending {
        Ok(outcome) => is_of_first(outcome),
        Err(_) => false,
    }
}

fn refuses(reply: &Reply, why: &Refusal) -> bool {
    match reply {
        Reply::Refused(refusal) => *refusal == *why,
        _ => false,
    }
}

fn is_refused(ending: &Ending, why: &Refusal) -> bool {
    match reply_of(ending) {
        Some(reply) => refuses(reply, why),
        None => false,
    }
}

fn is_fault(ending: &Ending, fault: RemoteFault) -> bool {
    match ending {
        Ok(_) => false,
        Err(told) => *told == fault,
    }
}

fn stores(reply: &Reply) -> bool {
    matches!(reply, Reply::Stored(_))
}

fn is_stored(ending: &Ending) -> bool {
    match reply_of(ending) {
        Some(reply) => stores(reply),
        None => false,
    }
}

fn gives(reply: &Reply, bytes: &[u8]) -> bool {
    match reply {
        Reply::Got(got) => got.slice() == bytes,
        _ => false,
    }
}

fn is_got(ending: &Ending, bytes: &[u8]) -> bool {
    match reply_of(ending) {
        Some(reply) => gives(reply, bytes),
        None => false,
    }
}

fn packs(outcome: &Outcome, count: usize) -> bool {
    match outcome {
        Outcome::Packed(rows) => rows.len() == count,
        _ => false,
    }
}

fn are_packed(ending: &Ending, count: usize) -> bool {
    match ending {
        Ok(outcome) => packs(outcome, count),
        Err(_) => false,
    }
}

/// Whether its head is told.
fn tells_head(alloc: Global, desk: &mut DeskRemote) -> bool {
    let head = desk.depot().head();
    let ending = own(alloc, desk, What::Head(None));
    is_head(&ending, &head) && is_tagged(&ending)
}

/// Whether the order is not asked.
fn fails(alloc: Global, desk: &mut DeskRemote, what: What, fault: RemoteFault) -> bool {
    is_fault(&own(alloc, desk, what), fault)
}

/// Whether the second of three orders fails, and the others don't.
fn fails_once(alloc: Global, desk: &mut DeskRemote) -> bool {
    tells_head(alloc, desk)
        && fails(alloc, desk, What::Head(None), RemoteFault::Link)
        && tells_head(alloc, desk)
}

#[test]
fn an_order_of_a_number_that_is_to_fail_is_not_asked(rt: HostRuntime) -> Result<(), AllocError> {
    let mut desk = desk(rt.alloc(), &[1])?;
    assert!(rt; fails_once(rt.alloc(), &mut desk));
    Ok(())
}

/// Whether a secret of no token is denied, and no other library is there.
fn is_alone(alloc: Global, desk: &mut DeskRemote) -> bool {
    is_refused(
        &sent(alloc, desk, LIB, [0xbb; 20], What::Head(None)),
        &Refusal::Denied,
    ) && is_refused(
        &sent(alloc, desk, OTHER, SECRET, What::Head(None)),
        &Refusal::NoLibrary,
    )
}

#[test]
fn another_secret_is_denied_and_another_library_is_none(rt: HostRuntime) -> Result<(), AllocError> {
    let mut desk = desk(rt.alloc(), &[])?;
    assert!(rt; is_alone(rt.alloc(), &mut desk));
    Ok(())
}

/// Whether what is put under this key is stored, and `abc` is given back.
fn is_kept(alloc: Global, desk: &mut DeskRemote, key: &Key, block: Bytes) -> bool {
    is_stored(&own(alloc, desk, What::Put(*key, block)))
        && is_got(&own(alloc, desk, What::Get(*key)), b"abc")
}

/// Whether a block is stored and given back.
fn is_given_back(alloc: Global, desk: &mut DeskRemote, block: Bytes) -> bool {
    let key = Key {
        kind: Kind::Block,
        id: ObjId::of(b"abc"),
    };
    is_kept(alloc, desk, &key, block)
}

#[test]
fn a_block_that_was_put_is_got(rt: HostRuntime) -> Result<(), AllocError> {
    let block = Bytes::copy(rt.alloc(), b"abc")?;
    let mut desk = desk(rt.alloc(), &[])?;
    assert!(rt; is_given_back(rt.alloc(), &mut desk, block));
    Ok(())
}

/// An empty directory, and the same bytes under another name.
fn rows(alloc: Global) -> Result<Items<Row>, AllocError> {
    let mut rows = Items::new(alloc);
    rows.push(Row {
        id: ObjId::of(EMPTY),
        bytes: Bytes::copy(alloc, EMPTY)?,
    })?;
    rows.push(Row {
        id: ObjId::of(b"abc"),
        bytes: Bytes::copy(alloc, EMPTY)?,
    })?;
    Ok(rows)
}

/// The list of its id alone.
fn ids(alloc: Global) -> Result<IdList, AllocError> {
    let mut ids = IdList::new(alloc);
    ids.push(ObjId::of(EMPTY))?;
    Ok(ids)
}

/// Whether the first row is stored, and the second one refused.
fn is_stored_so_far(alloc: Global, desk: &mut DeskRemote, rows: Items<Row>, ids: IdList) -> bool {
    is_refused(
        &own(alloc, desk, What::PutFs(rows)),
        &Refusal::Wrong(ObjId::of(EMPTY)),
    ) && are_packed(&own(alloc, desk, What::GetFs(ids)), 1)
}

#[test]
fn rows_are_stored_up_to_the_first_that_is_refused(rt: HostRuntime) -> Result<(), AllocError> {
    let rows = rows(rt.alloc())?;
    let ids = ids(rt.alloc())?;
    let mut desk = desk(rt.alloc(), &[])?;
    assert!(rt; is_stored_so_far(rt.alloc(), &mut desk, rows, ids));
    Ok(())
}

/// Whether a commit of a byte more than there may be isn't taken, so that the order after it has the number 0, which fails.
fn has_no_number(alloc: Global, desk: &mut DeskRemote, commit: Bytes) -> bool {
    let key = Key {
        kind: Kind::Commit,
        id: ObjId::of(b"abc"),
    };
    fails(
        alloc,
        desk,
        What::Put(key, commit),
        RemoteFault::TooLarge(1_048_577),
    ) && fails(alloc, desk, What::Head(None), RemoteFault::Link)
}

#[test]
fn an_order_that_is_too_large_is_not_sent(rt: HostRuntime) -> Result<(), AllocError> {
    let mut bytes = Vec::new(rt.alloc());
    bytes.resize(1_048_577, 0)?;
    let mut desk = desk(rt.alloc(), &[0])?;
    assert!(rt; has_no_number(rt.alloc(), &mut desk, Bytes::from_vec(bytes)));
    Ok(())
}

fn counts(outcome: &Outcome, wanted: u64, gone: u64) -> bool {
    match outcome {
        Outcome::Collected { number, removed } => *number == wanted && *removed == gone,
        _ => false,
    }
}

fn is_collected(ending: &Ending, number: u64, removed: u64) -> bool {
    match ending {
        Ok(outcome) => counts(outcome, number, removed),
        Err(_) => false,
    }
}

fn refuses_order(outcome: &Outcome, why: &Refusal) -> bool {
    match outcome {
        Outcome::Refused(refusal) => *refusal == *why,
        _ => false,
    }
}

fn is_not_taken(ending: &Ending, why: &Refusal) -> bool {
    match ending {
        Ok(outcome) => refuses_order(outcome, why),
        Err(_) => false,
    }
}

/// Whether a block that nothing needs leaves in the first of two collections.
fn is_removed_once(alloc: Global, desk: &mut DeskRemote, block: Bytes) -> bool {
    let key = Key {
        kind: Kind::Block,
        id: ObjId::of(b"abc"),
    };
    is_kept(alloc, desk, &key, block)
        && is_collected(&own(alloc, desk, What::Collect), 1, 1)
        && is_refused(&own(alloc, desk, What::Get(key)), &Refusal::NoObject(key))
        && is_collected(&own(alloc, desk, What::Collect), 2, 0)
}

#[test]
fn a_collection_is_taken_to_its_end(rt: HostRuntime) -> Result<(), AllocError> {
    let block = Bytes::copy(rt.alloc(), b"abc")?;
    let mut desk = desk(rt.alloc(), &[])?;
    assert!(rt; is_removed_once(rt.alloc(), &mut desk, block));
    Ok(())
}

#[test]
fn a_collection_is_denied_to_a_secret_of_no_token(rt: HostRuntime) -> Result<(), AllocError> {
    let mut desk = desk(rt.alloc(), &[])?;
    let ending = sent(rt.alloc(), &mut desk, LIB, [0xbb; 20], What::Collect);
    assert!(rt; is_not_taken(&ending, &Refusal::Denied));
    Ok(())
}
