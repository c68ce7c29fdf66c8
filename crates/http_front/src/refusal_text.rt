//! The status and the body of each refusal.
ghost use Rattle.std.specs.Prelude.{◌≡◌, IfOk};
ghost use Rattle.serde_json.specs.View.{view};
ghost use Rattle.serde_json.specs.Written.{compact_text};
ghost use Rattle.http_front.specs.RefusalText.{reason_data, refused_body, refused_data, refused_status};

use crate::refusal_value::{
    at_value, code_value, count_value, damaged_value, days_value, got_value, id_refusal_value,
    key_value, lib_value, long_value, path_value, reason_value, stale_value,
};
use crate::status::Status;
use library_state::Refusal;
use serde_json::Value;
use std::alloc::{AllocError, Global};

/// The status of a refusal.
pub fn refused_status(refusal: &Refusal) -> Status
    ensures value { result ≡ refused_status refusal.now }
{
    match refusal {
        Refusal::NoLibrary | Refusal::NoCall | Refusal::NoObject(_) => Status::NotFound,
        Refusal::BadMethod => Status::NotImplemented,
        Refusal::BadQuery | Refusal::BadBody(_) | Refusal::BadDays(_) => Status::BadRequest,
        Refusal::Wrong(_) | Refusal::BadFs(_) | Refusal::BadCommit(_) => Status::BadRequest,
        Refusal::OtherLibrary(_) | Refusal::Unrelated(_) => Status::BadRequest,
        Refusal::Unreadable(_) | Refusal::WrongKind(_) | Refusal::WrongSize(_) => {
            Status::BadRequest
        }
        Refusal::Denied => Status::Forbidden,
        Refusal::Taken(_) | Refusal::Stale { .. } => Status::Conflict,
        Refusal::Incomplete(_) => Status::Incomplete,
        Refusal::TooDeep(_) | Refusal::TooMany(_) | Refusal::TooLong(_, _) => Status::TooLarge,
        Refusal::Damaged { .. } => Status::Damaged,
        Refusal::Store => Status::ServerError,
        Refusal::Spent => Status::Spent,
        Refusal::NoMemory => Status::Unavailable,
    }
}

/// The body of a refusal.
pub fn refused_body(alloc: Global, refusal: &Refusal) -> Result<Vec<u8>, AllocError>
    ensures { IfOk result (λ body. body.items ≡ refused_body refusal.now) }
{
    refused_value(alloc, refusal)?.to_vec(alloc)
}

fn refused_value(alloc: Global, refusal: &Refusal) -> Result<Value, AllocError>
    ensures { IfOk result (λ value. view value ≡ refused_data refusal.now) }
{
    match refusal {
        Refusal::NoLibrary => reason_value(alloc, "no-library"),
        Refusal::NoCall => reason_value(alloc, "no-call"),
        Refusal::BadMethod => reason_value(alloc, "method"),
        Refusal::BadQuery => reason_value(alloc, "bad-query"),
        Refusal::BadBody(at) => at_value(alloc, *at, "bad-body"),
        Refusal::Denied => reason_value(alloc, "denied"),
        Refusal::NoObject(key) => key_value(alloc, key, "no-object"),
        Refusal::Wrong(got) => got_value(alloc, got, "wrong"),
        Refusal::BadFs(code) => code_value(alloc, *code, "bad-fs"),
        Refusal::BadCommit(code) => code_value(alloc, *code, "bad-commit"),
        Refusal::OtherLibrary(lib) => lib_value(alloc, lib, "other-library"),
        Refusal::Taken(id) => id_refusal_value(alloc, id, "taken"),
        Refusal::Stale { last, now } => stale_value(alloc, *last, *now),
        Refusal::Incomplete(key) => key_value(alloc, key, "incomplete"),
        Refusal::Unrelated(count) => count_value(alloc, *count, "unrelated"),
        Refusal::Unreadable(key) => key_value(alloc, key, "unreadable"),
        Refusal::WrongKind(id) => id_refusal_value(alloc, id, "wrong-kind"),
        Refusal::WrongSize(id) => id_refusal_value(alloc, id, "wrong-size"),
        Refusal::TooDeep(path) => path_value(alloc, path, "too-deep"),
        Refusal::TooMany(count) => count_value(alloc, *count, "too-many"),
        Refusal::TooLong(path, size) => long_value(alloc, path, *size),
        Refusal::BadDays(days) => days_value(alloc, *days, "bad-days"),
        Refusal::Damaged { want, got } => damaged_value(alloc, want, got),
        Refusal::Store => reason_value(alloc, "store"),
        Refusal::Spent => reason_value(alloc, "spent"),
        Refusal::NoMemory => reason_value(alloc, "no-memory"),
    }
}

/// The body that has a reason alone.
pub fn reason_body(alloc: Global, reason: &str) -> Result<Vec<u8>, AllocError>
    ensures { IfOk result (λ body. body.items ≡ compact_text (reason_data reason.now)) }
{
    reason_value(alloc, reason)?.to_vec(alloc)
}
