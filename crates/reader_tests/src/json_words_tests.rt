//! What no run of the program shows: what is kept of a text, and want of memory as a fault of its own.
use json_tokens::parse_kept;
use json_words::{ReadFault, write};
use serde_json::Value;
use std::alloc::{AllocError, Global};

#[test]
fn want_of_memory_is_a_fault_of_its_own(rt: HostRuntime) {
    assert!(rt; ReadFault::<u8>::from(AllocError) == ReadFault::NoMemory);
}

// What is kept under the name "a", as it is written; an empty text where nothing is read.
const KEPT: &[(&[u8], &str)] = &[
    (b"{\"b\":1,\"a\":2,\"c\":[{}]}", "{\"a\":2}"),
    (b"{\"a\":1,\"a\":[2,[3]]}", "{\"a\":[]}"),
    (b"{\"\\u0061\":{\"a\":1},\"b\":null}", "{\"a\":{}}"),
    (b"{\"a\":\"x\"} ", "{\"a\":\"x\"}"),
    (b"[{\"a\":1},2]", "[]"),
    (b" -2.5e0", "-2.5"),
    (b"{\"b\":[1e400]}", ""),
    (b"{\"b\":[1,]}", ""),
    (b"{\"a\":1}{}", ""),
    (b"{\"a\":1", ""),
    (b"\"\xff\"", ""),
];

#[test]
fn of_an_object_the_known_members_are_kept(rt: HostRuntime) -> Result<(), AllocError> {
    assert!(rt; are_kept(rt.alloc())?);
    Ok(())
}

fn are_kept(alloc: Global) -> Result<bool, AllocError> {
    for place in 0..KEPT.len() {
        let (text, wanted) = KEPT[place];
        if !is_kept_as(alloc, text, wanted)? {
            return Ok(false);
        }
    }
    Ok(true)
}

fn is_kept_as(alloc: Global, text: &[u8], wanted: &str) -> Result<bool, AllocError> {
    match parse_kept(alloc, text, &["a"])? {
        Some(value) => {
            let is_written = is_written(alloc, &value, wanted);
            drop(value);
            is_written
        }
        None => Ok(wanted.is_empty()),
    }
}

fn is_written(alloc: Global, value: &Value, wanted: &str) -> Result<bool, AllocError> {
    Ok(write(alloc, value)?.slice() == wanted.as_bytes())
}
