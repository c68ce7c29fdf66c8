//! Tags in heads from outside.
use http_front::{Next, next_head};
use std::alloc::{AllocError, Global};

/// Heads, and the opening and the count of the tag that they show; zeros where they show none.
const TAGS: [(&str, u64, u64); 5] = [
    (
        "GET / HTTP/1.1\r\nHost: a\r\nIf-None-Match: \"7-18446744073709551615\"\r\n\r\n",
        7,
        18_446_744_073_709_551_615,
    ),
    (
        "GET / HTTP/1.1\r\nHost: a\r\nIf-None-Match: \"7-18446744073709551616\"\r\n\r\n",
        0,
        0,
    ),
    (
        "GET / HTTP/1.1\r\nHost: a\r\nIf-None-Match: \"07-1\"\r\n\r\n",
        0,
        0,
    ),
    (
        "GET / HTTP/1.1\r\nHost: a\r\nIf-None-Match: 7-1\r\n\r\n",
        0,
        0,
    ),
    (
        "GET / HTTP/1.1\r\nHost: a\r\nIf-None-Match: \"7-1\"\r\nIf-None-Match: \"7-1\"\r\n\r\n",
        0,
        0,
    ),
];

fn has_tag(next: &Next, opening: u64, count: u64) -> bool {
    match next {
        Next::Head(head) => match head.tag {
            Some(tag) => tag.opening == opening && tag.count == count,
            None => opening == 0 && count == 0,
        },
        _ => false,
    }
}

fn shows(alloc: Global, head: &str, opening: u64, count: u64) -> Result<bool, AllocError> {
    Ok(has_tag(&next_head(alloc, head.as_bytes())?, opening, count))
}

#[test]
fn a_tag_of_another_form_is_none(rt: HostRuntime) -> Result<(), AllocError> {
    for (head, opening, count) in TAGS {
        assert!(rt; shows(rt.alloc(), head, opening, count)?, "{head}");
    }
    Ok(())
}
