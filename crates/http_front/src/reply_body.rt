//! The bodies of replies that are JSON objects.
ghost use Rattle.std.specs.Prelude.{◌≡◌, codes, IfOk};
ghost use Rattle.serde_json.specs.Data.{number, unsigned, object, member, no_members};
ghost use Rattle.serde_json.specs.View.{view};
ghost use Rattle.http_front.specs.ReplyBody.{collected_body, collected_data, head_body, head_data, version_body, version_data};

use ids::ObjId;
use json_words::id_value;
use serde_json::{Value, json};
use std::alloc::{AllocError, Global};

/// The version of the protocol.
#[tactic(auto, unfolding(crate::specs::ReplyBody::version_body))]
pub fn version_body(alloc: Global) -> Result<Vec<u8>, AllocError>
    ensures { IfOk result (λ body. body.items ≡ version_body) }
{
    version_value(alloc)?.to_vec(alloc)
}

fn version_value(alloc: Global) -> Result<Value, AllocError>
    ensures { IfOk result (λ value. view value ≡ version_data) }
{
    json!(in alloc; {"version": 2u64})
}

/// The commit that a library stands at.
#[tactic(auto, unfolding(crate::specs::ReplyBody::head_body))]
pub fn head_body(alloc: Global, id: &ObjId) -> Result<Vec<u8>, AllocError>
    ensures { IfOk result (λ body. body.items ≡ head_body id.now) }
{
    head_value(alloc, id)?.to_vec(alloc)
}

fn head_value(alloc: Global, id: &ObjId) -> Result<Value, AllocError>
    ensures { IfOk result (λ value. view value ≡ head_data id.now) }
{
    head_members(alloc, id_value(alloc, id)?)
}

fn head_members(alloc: Global, id: Value) -> Result<Value, AllocError>
    ensures { IfOk result (λ value. view value ≡ object (member (codes "head_commit_id") (view id)
        (member (codes "is_corrupted") (number (unsigned 0)) no_members))) }
{
    json!(in alloc; {"head_commit_id": id, "is_corrupted": 0u64})
}

/// The number of a collection, and how many objects it removed.
#[tactic(auto, unfolding(crate::specs::ReplyBody::collected_body))]
pub fn collected_body(alloc: Global, number: u64, removed: u64) -> Result<Vec<u8>, AllocError>
    ensures { IfOk result (λ body. body.items ≡ collected_body number removed) }
{
    collected_value(alloc, number, removed)?.to_vec(alloc)
}

fn collected_value(alloc: Global, collection: u64, removed: u64) -> Result<Value, AllocError>
    ensures { IfOk result (λ value. view value ≡ collected_data collection removed) }
{
    json!(in alloc; {"collection": collection, "removed": removed})
}
