//! A library in memory as a remote that meddles with what it is asked.
ghost use Rattle.std.specs.Prelude.{ℕ, ◌≡◌, List, [], ◌∷◌, Err, IfOk, IfSome, map as list_map};
ghost use Rattle.http_client.specs.OrderOutcome.{CanAnswer, CanHave, CanPack, row_id};
ghost use Rattle.http_front.specs.declared.outcome.Outcome.{Outcome};
ghost use Rattle.remote_calls.specs.Sends.{CountsSend, SendsOne};

use crate::household::{House, empty_house};
use crate::library::{LIB, OWNER};
use http_front::{Order, Outcome, Row, What};
use http_server::Log;
use ids::{Items, Kind, LibId, ObjId};
use library_state::{Refusal, Reply, Secret};
use remote_calls::{DeskRemote, Ending, Remote, RemoteFault};
use std::alloc::{AllocError, Global};

/// How a remote meddles.
#[derive(Clone, Copy)]
pub(crate) enum Meddling {
    /// A collection begins and ends before each update.
    Collects,
    /// Each block that is got comes empty.
    Empties,
    /// Each file or directory that is got alone comes empty.
    EmptiesObjects,
    /// A list of two or more files and directories is refused for want of memory, as by a server that can't pack them.
    RefusesLists,
}

/// A library in memory with which somebody meddles.
#[derive(Drop)]
pub(crate) struct MeddledRemote {
    desk: DeskRemote,
    meddling: Meddling,
    /// How many orders had their outcome told otherwise.
    pub(crate) meddled: u64,
    faults: u64,
    sends: Log<Order, Ending>,
}

/// Two empty folders, and such a library.
pub(crate) fn meddled_house(
    alloc: Global,
    meddling: Meddling,
) -> Result<House<MeddledRemote>, AllocError> {
    let House {
        here,
        there,
        remote,
    } = empty_house(alloc, &[])?;
    Ok(House {
        here,
        there,
        remote: meddled(remote, meddling),
    })
}

/// A library in memory with which somebody meddles so.
fn meddled(desk: DeskRemote, meddling: Meddling) -> MeddledRemote {
    MeddledRemote {
        desk,
        meddling,
        meddled: 0,
        faults: 0,
        sends: Log::new(),
    }
}

impl Remote for MeddledRemote {
    ghost Peer = { List ℕ };

    ghost peer = { λ remote. [] };

    ghost sends = { λ remote. remote.sends.items };

    ghost faults = { λ remote. remote.faults };

    fn send(&mut self, alloc: Global, order: &Order) -> Result<Outcome, RemoteFault> {
        if !is_ready(alloc, &mut self.desk, self.meddling, &order.what) {
            return Err(RemoteFault::NoMemory);
        }
        let outcome = match self.desk.send(alloc, order) {
            Ok(outcome) => outcome,
            Err(fault) => {
                count_fault(&mut self.faults, fault);
                list_fault(&mut self.sends, order, fault);
                return Err(fault);
            }
        };
        count_meddled(&mut self.meddled, self.meddling, &order.what);
        let ending = Ok(told(alloc, self.meddling, &order.what, outcome));
        self.sends = self.sends.and(order, &ending);
        ending
    }

    fn rest(&mut self) {
        self.desk.rest();
    }
}

/// Counts a failure of the link.
fn count_fault(faults: &mut u64, fault: RemoteFault)
    ensures faults { CountsSend {T = Outcome} faults.old faults.new (Err fault) }
{
    match fault {
        RemoteFault::Link => *faults = faults.saturating_add(1),
        _ => {}
    }
}

/// Counts an outcome that is told otherwise.
fn count_meddled(meddled: &mut u64, meddling: Meddling, what: &What) {
    if meddles(meddling, what) {
        *meddled = meddled.saturating_add(1);
    }
}

/// Puts an order that failed on the list, unless memory was wanting for it.
fn list_fault(sends: &mut Log<Order, Ending>, order: &Order, fault: RemoteFault)
    ensures listed { SendsOne sends.old.items sends.new.items order.now (Err fault) }
{
    match fault {
        RemoteFault::NoMemory => {}
        RemoteFault::Link => *sends = sends.and(order, &Err(fault)),
        RemoteFault::BadReply(_) => *sends = sends.and(order, &Err(fault)),
        RemoteFault::Cut(_) => *sends = sends.and(order, &Err(fault)),
        RemoteFault::TooLarge(_) => *sends = sends.and(order, &Err(fault)),
    }
}

/// Lets a collection go before an update, where that is the meddling; false where it failed.
fn is_ready(alloc: Global, desk: &mut DeskRemote, meddling: Meddling, what: &What) -> bool {
    if !collects(meddling, what) {
        return true;
    }
    let collection = Order {
        lib: Some(LibId::from_bytes(LIB)),
        secret: Some(Secret::from_bytes(OWNER)),
        what: What::Collect,
    };
    is_collected(&desk.send(alloc, &collection))
}

/// Whether a collection began and ended.
fn is_collected(ending: &Ending) -> bool {
    matches!(ending, Ok(Outcome::Collected { .. }))
}

fn collects(meddling: Meddling, what: &What) -> bool {
    match meddling {
        Meddling::Collects => matches!(what, What::Update(_)),
        _ => false,
    }
}

/// Whether the outcome of an order is told otherwise.
fn meddles(meddling: Meddling, what: &What) -> bool {
    match meddling {
        Meddling::Collects => false,
        Meddling::Empties => gets_block(what),
        Meddling::EmptiesObjects => objects_got(what) == 1,
        Meddling::RefusesLists => objects_got(what) > 1,
    }
}

/// How many files and directories an order asks for.
fn objects_got(what: &What) -> usize {
    match what {
        What::GetFs(ids) => ids.len(),
        _ => 0,
    }
}

fn gets_block(what: &What) -> bool {
    match what {
        What::Get(key) => key.kind == Kind::Block,
        _ => false,
    }
}

/// What an order came to, as it is told.
fn told(alloc: Global, meddling: Meddling, what: &What, outcome: Outcome) -> Outcome
    ensures told { CanHave what.now outcome → CanHave what.now result }
{
    if !meddles(meddling, what) {
        return outcome;
    }
    match outcome {
        Outcome::Plain(reply, tag) => Outcome::Plain(emptied(alloc, what, reply), tag),
        Outcome::Packed(rows) => packed(alloc, meddling, what, rows),
        other => other,
    }
}

/// A refusal in place of the rows that came, or rows without bytes.
fn packed(alloc: Global, meddling: Meddling, what: &What, rows: Items<Row>) -> Outcome
    ensures told { CanPack what.now rows → CanHave what.now result }
{
    if !refuses_lists(meddling) {
        return Outcome::Packed(emptied_rows(alloc, what, rows));
    }
    drop(rows);
    Outcome::Refused(Refusal::NoMemory)
}

fn refuses_lists(meddling: Meddling) -> bool {
    matches!(meddling, Meddling::RefusesLists)
}

/// A row without bytes in place of a row that came alone.
fn emptied_rows(alloc: Global, what: &What, rows: Items<Row>) -> Items<Row>
    ensures told { CanPack what.now rows → CanPack what.now result }
{
    match what {
        What::GetFs(_) => emptied_row(alloc, rows),
        _ => rows,
    }
}

fn emptied_row(alloc: Global, rows: Items<Row>) -> Items<Row>
    ensures same { list_map row_id result ≡ list_map row_id rows }
{
    let id = match sole_id(rows.slice()) {
        Some(id) => id,
        None => return rows,
    };
    let emptied = match empty_row(alloc, id) {
        Ok(emptied) => emptied,
        Err(_) => return rows,
    };
    drop(rows);
    emptied
}

/// The id of a row that stands alone.
fn sole_id(rows: &[Row]) -> Option<ObjId>
    ensures value { IfSome result (λ id. list_map row_id rows.now ≡ id ∷ []) }
{
    match rows {
        [row] => Some(row.id),
        _ => None,
    }
}

/// One row of this id, without bytes.
fn empty_row(alloc: Global, id: ObjId) -> Result<Items<Row>, AllocError>
    ensures value { IfOk result (λ rows. list_map row_id rows ≡ id ∷ []) }
{
    let mut rows = Items::new(alloc);
    let bytes = Items::new(alloc);
    rows.push(Row { id, bytes })?;
    Ok(rows)
}

/// No bytes in place of those that came.
fn emptied(alloc: Global, what: &What, reply: Reply) -> Reply
    ensures told { CanAnswer what.now reply → CanAnswer what.now result }
{
    match reply {
        Reply::Got(bytes) => {
            drop(bytes);
            Reply::Got(Items::new(alloc))
        }
        other => other,
    }
}
