//! A copy of an order.
ghost use Rattle.std.specs.Prelude.{◌≡◌, IfOk};

use http_front::{Order, Row, What};
use ids::{Bytes, IdList, Items};
use std::alloc::{AllocError, Global};

/// A copy of an order, its objects with it.
pub(crate) fn copy_order(alloc: Global, order: &Order) -> Result<Order, AllocError>
    ensures value { IfOk result (λ copied. copied ≡ order.now) }
{
    match copy_what(alloc, &order.what) {
        Ok(what) => Ok(Order {
            lib: order.lib,
            secret: order.secret,
            what,
        }),
        Err(error) => Err(error),
    }
}

fn copy_what(alloc: Global, what: &What) -> Result<What, AllocError>
    ensures value { IfOk result (λ copied. copied ≡ what.now) }
{
    match what {
        What::Version => Ok(What::Version),
        What::Check(op) => Ok(What::Check(*op)),
        What::Head(tag) => Ok(What::Head(*tag)),
        What::Update(commit) => Ok(What::Update(*commit)),
        What::Get(key) => Ok(What::Get(*key)),
        What::Put(key, bytes) => match Bytes::copy(alloc, bytes.slice()) {
            Ok(copied) => Ok(What::Put(*key, copied)),
            Err(error) => Err(error),
        },
        What::Missing(kind, ids) => match IdList::copy(alloc, ids.slice()) {
            Ok(copied) => Ok(What::Missing(*kind, copied)),
            Err(error) => Err(error),
        },
        What::PutFs(rows) => match copy_rows(alloc, rows.slice()) {
            Ok(copied) => Ok(What::PutFs(copied)),
            Err(error) => Err(error),
        },
        What::GetFs(ids) => match IdList::copy(alloc, ids.slice()) {
            Ok(copied) => Ok(What::GetFs(copied)),
            Err(error) => Err(error),
        },
        What::Limit(days) => Ok(What::Limit(*days)),
        What::Ids(server, client) => Ok(What::Ids(*server, *client)),
        What::Collect => Ok(What::Collect),
    }
}

fn copy_rows(alloc: Global, rows: &[Row]) -> Result<Items<Row>, AllocError>
    ensures value { IfOk result (λ copied. copied ≡ rows.now) }
{
    let mut copied = Items::new(alloc);
    for row in rows {
        let next = copy_row(alloc, row)?;
        copied.push(next)?;
    }
    Ok(copied)
}

fn copy_row(alloc: Global, row: &Row) -> Result<Row, AllocError>
    ensures value { IfOk result (λ copied. copied ≡ row.now) }
{
    match Bytes::copy(alloc, row.bytes.slice()) {
        Ok(bytes) => Ok(Row { id: row.id, bytes }),
        Err(error) => Err(error),
    }
}
