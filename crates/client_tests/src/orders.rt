//! The orders of the tests, by words.
use http_front::{Order, Row, What};
use ids::{Bytes, IdList, Items, Key, Kind, LibId, ObjId};
use library_state::{Op, Secret, Tag};
use std::alloc::{AllocError, Global};

/// The SHA-1 of `abc`.
fn abc() -> ObjId {
    ObjId::of(b"abc")
}

fn key(kind: Kind) -> Key {
    Key { kind, id: abc() }
}

/// The list of the id of `abc` alone.
fn one(alloc: Global) -> Result<IdList, AllocError> {
    let mut ids = IdList::new(alloc);
    ids.push(abc())?;
    Ok(ids)
}

/// The row of two braces under that id.
fn row(alloc: Global) -> Result<Items<Row>, AllocError> {
    let bytes = Bytes::copy(alloc, b"{}")?;
    let mut rows = Items::new(alloc);
    rows.push(Row { id: abc(), bytes })?;
    Ok(rows)
}

/// What is asked for by a word without a list and a body.
fn plain(word: &str) -> What {
    match word {
        "version" => What::Version,
        "check" => What::Check(Op::Upload),
        "update" => What::Update(abc()),
        "get" => What::Get(key(Kind::Block)),
        "list" => What::Ids(abc(), None),
        "differ" => What::Ids(abc(), Some(abc())),
        "limit" => What::Limit(-1),
        "long limit" => What::Limit(-1_000_000_000_000_000_000),
        "collect" => What::Collect,
        "look" => What::Head(Some(Tag {
            opening: 1,
            count: 2,
        })),
        _ => What::Head(None),
    }
}

/// What is asked for by a word.
fn what(alloc: Global, word: &str) -> Result<What, AllocError> {
    Ok(match word {
        "missing" => What::Missing(Kind::Block, one(alloc)?),
        "missing none" => What::Missing(Kind::Fs, IdList::new(alloc)),
        "missing commits" => What::Missing(Kind::Commit, IdList::new(alloc)),
        "objects" => What::GetFs(one(alloc)?),
        "no objects" => What::GetFs(IdList::new(alloc)),
        "put" => What::Put(key(Kind::Block), Bytes::copy(alloc, b"abc")?),
        "put commit" => What::Put(key(Kind::Commit), Bytes::copy(alloc, b"abc")?),
        "send" => What::PutFs(Items::new(alloc)),
        "send row" => What::PutFs(row(alloc)?),
        _ => plain(word),
    })
}

/// The order of a word, to one library and with one secret.
pub(crate) fn order(alloc: Global, word: &str) -> Result<Order, AllocError> {
    Ok(Order {
        lib: Some(LibId::from_bytes([
            17, 17, 17, 17, 34, 34, 67, 51, 132, 68, 85, 85, 85, 85, 85, 85,
        ])),
        secret: Some(Secret::from_bytes([170; 20])),
        what: what(alloc, word)?,
    })
}
