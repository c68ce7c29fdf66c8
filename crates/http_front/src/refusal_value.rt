//! The bodies of refusals as JSON values, by what they tell.
ghost use Rattle.std.specs.Prelude.{◌≡◌, codes, IfOk};
ghost use Rattle.serde_json.specs.Data.{number, unsigned, string, object, member, no_members};
ghost use Rattle.serde_json.specs.View.{view};
ghost use Rattle.http_front.specs.RefusalText.{at_data, because, code_data, count_data, damaged_data, days_data, got_data, told_id, id_or_null, key_data, lib_data, long_data, path_data, reason_data, stale_data};

use ids::{Key, LibId, ObjId};
use json_words::{id_value, library_id_value};
use serde_json::{Value, json};
use std::alloc::{AllocError, Global};
use tree_model::Path;

/// A reason alone.
pub fn reason_value(alloc: Global, reason: &str) -> Result<Value, AllocError>
    ensures { IfOk result (λ value. view value ≡ reason_data reason.now) }
{
    json!(in alloc; {"reason": reason})
}

/// A reason and an id.
pub fn id_refusal_value(alloc: Global, id: &ObjId, reason: &str) -> Result<Value, AllocError>
    ensures { IfOk result (λ value. view value ≡ told_id id.now reason.now) }
{
    id_member(alloc, id_value(alloc, id)?, reason)
}

fn id_member(alloc: Global, id: Value, reason: &str) -> Result<Value, AllocError>
    ensures { IfOk result (λ value. view value ≡ object (member (codes "id") (view id) (because reason.now))) }
{
    json!(in alloc; {"id": id, "reason": reason})
}

/// A reason and the id that some bytes have.
pub fn got_value(alloc: Global, got: &ObjId, reason: &str) -> Result<Value, AllocError>
    ensures { IfOk result (λ value. view value ≡ got_data got.now reason.now) }
{
    got_member(alloc, id_value(alloc, got)?, reason)
}

fn got_member(alloc: Global, got: Value, reason: &str) -> Result<Value, AllocError>
    ensures { IfOk result (λ value. view value ≡ object (member (codes "got") (view got) (because reason.now))) }
{
    json!(in alloc; {"got": got, "reason": reason})
}

/// A reason and a library.
pub fn lib_value(alloc: Global, lib: &LibId, reason: &str) -> Result<Value, AllocError>
    ensures { IfOk result (λ value. view value ≡ lib_data lib.now reason.now) }
{
    lib_member(alloc, library_id_value(alloc, lib)?, reason)
}

fn lib_member(alloc: Global, lib: Value, reason: &str) -> Result<Value, AllocError>
    ensures { IfOk result (λ value. view value ≡ object (member (codes "lib") (view lib) (because reason.now))) }
{
    json!(in alloc; {"lib": lib, "reason": reason})
}

/// A reason and the key of an object.
pub fn key_value(alloc: Global, key: &Key, reason: &str) -> Result<Value, AllocError>
    ensures { IfOk result (λ value. view value ≡ key_data key.now reason.now) }
{
    key_members(alloc, id_value(alloc, &key.id)?, key.kind.word(), reason)
}

fn key_members(alloc: Global, id: Value, kind: &str, reason: &str) -> Result<Value, AllocError>
    ensures { IfOk result (λ value. view value ≡ object (member (codes "id") (view id)
        (member (codes "kind") (string kind.now) (because reason.now)))) }
{
    json!(in alloc; {"id": id, "kind": kind, "reason": reason})
}

/// A reason and a place.
pub fn at_value(alloc: Global, at: u64, reason: &str) -> Result<Value, AllocError>
    ensures { IfOk result (λ value. view value ≡ at_data at reason.now) }
{
    json!(in alloc; {"at": at, "reason": reason})
}

/// A reason and the number of a check.
pub fn code_value(alloc: Global, code: u64, reason: &str) -> Result<Value, AllocError>
    ensures { IfOk result (λ value. view value ≡ code_data code reason.now) }
{
    json!(in alloc; {"code": code, "reason": reason})
}

/// A reason and a count.
pub fn count_value(alloc: Global, count: u64, reason: &str) -> Result<Value, AllocError>
    ensures { IfOk result (λ value. view value ≡ count_data count reason.now) }
{
    json!(in alloc; {"count": count, "reason": reason})
}

/// A reason and a number of days.
pub fn days_value(alloc: Global, days: i64, reason: &str) -> Result<Value, AllocError>
    ensures { IfOk result (λ value. view value ≡ days_data days reason.now) }
{
    json!(in alloc; {"days": days, "reason": reason})
}

/// A reason and a path.
pub fn path_value(alloc: Global, path: &Path, reason: &str) -> Result<Value, AllocError>
    ensures { IfOk result (λ value. view value ≡ path_data path.now reason.now) }
{
    let text = path.text(alloc)?;
    path_member(alloc, text.slice(), reason)
}

fn path_member(alloc: Global, path: &str, reason: &str) -> Result<Value, AllocError>
    ensures { IfOk result (λ value. view value ≡ object (member (codes "path") (string path.now) (because reason.now))) }
{
    json!(in alloc; {"path": path, "reason": reason})
}

/// A path and the length of a name that would be too long.
pub fn long_value(alloc: Global, path: &Path, size: u64) -> Result<Value, AllocError>
    ensures { IfOk result (λ value. view value ≡ long_data path.now size) }
{
    let text = path.text(alloc)?;
    long_members(alloc, size, text.slice())
}

fn long_members(alloc: Global, size: u64, path: &str) -> Result<Value, AllocError>
    ensures { IfOk result (λ value. view value ≡ object (member (codes "length") (number (unsigned size))
        (member (codes "path") (string path.now) (because (codes "too-long"))))) }
{
    json!(in alloc; {"length": size, "path": path, "reason": "too-long"})
}

/// The numbers of two collections.
pub fn stale_value(alloc: Global, last: u64, now: u64) -> Result<Value, AllocError>
    ensures { IfOk result (λ value. view value ≡ stale_data last now) }
{
    json!(in alloc; {"last": last, "now": now, "reason": "stale"})
}

/// An id, and that of the bytes that are there, or null where none are.
pub fn damaged_value(alloc: Global, want: &ObjId, got: &Option<ObjId>) -> Result<Value, AllocError>
    ensures { IfOk result (λ value. view value ≡ damaged_data want.now got.now) }
{
    let want = id_value(alloc, want)?;
    let got = value_or_null(alloc, got)?;
    damaged_members(alloc, got, want)
}

fn value_or_null(alloc: Global, id: &Option<ObjId>) -> Result<Value, AllocError>
    ensures { IfOk result (λ value. view value ≡ id_or_null id.now) }
{
    match id {
        Some(id) => id_value(alloc, id),
        None => Ok(Value::Null),
    }
}

fn damaged_members(alloc: Global, got: Value, want: Value) -> Result<Value, AllocError>
    ensures { IfOk result (λ value. view value ≡ object (member (codes "got") (view got)
        (member (codes "reason") (string (codes "damaged")) (member (codes "want") (view want) no_members)))) }
{
    json!(in alloc; {"got": got, "reason": "damaged", "want": want})
}
