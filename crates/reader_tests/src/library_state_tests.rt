//! Each public call once.
use ids::{Items, ObjId};
use library_state::*;
use std::alloc::{AllocError, Global};
use std::test::Fail;

fn is_secret(digits: &str, secret: &Secret) -> bool {
    match Secret::read(digits) {
        Ok(read) => read == *secret && read.digits().as_slice() == digits.as_bytes(),
        Err(_) => false,
    }
}

#[test]
fn a_secret_is_read_and_written(rt: HostRuntime) {
    let secret = Secret::from_bytes([170; 20]);
    assert!(rt; is_secret("aaaaaaaaaaaaaaaaaaaaaaaaaaaaaaaaaaaaaaaa", &secret));
}

fn is_bad_secret(text: &str, at: usize) -> bool {
    match Secret::read(text) {
        Ok(_) => false,
        Err(bad) => bad.at == at,
    }
}

#[test]
fn a_text_that_is_no_secret_is_refused_at_its_place(rt: HostRuntime) {
    assert!(rt;
        is_bad_secret("", 0)
            && is_bad_secret("aaaa-", 4)
            && is_bad_secret("aaaaaaaaaaaaaaaaaaaaaaaaaaaaaaaaaaaaaaaaa", 40)
    );
}

#[test]
fn a_secret_is_not_printed(rt: HostRuntime) -> Result<(), Fail> {
    let secret = Secret::from_bytes([170; 20]);
    let printed = format!(in rt.alloc(); "{secret:?}")?;
    assert!(rt; printed.as_str() == "Secret(..)");
    Ok(())
}

fn is_right(text: &str, right: Right) -> bool {
    match Right::of(text) {
        Some(told) => told == right,
        None => false,
    }
}

fn are_words() -> bool {
    is_right("r", Right::Read)
        && is_right("rw", Right::Write)
        && is_right("own", Right::Owner)
        && Right::of("w").is_none()
        && Right::of("").is_none()
}

#[test]
fn rights_rise_from_reading_to_owning(rt: HostRuntime) {
    assert!(rt; Right::Read < Right::Write && Right::Write < Right::Owner);
    assert!(rt; are_words());
}

/// A clock of one moment.
fn clock(alloc: Global) -> Result<ListClock, AllocError> {
    Ok(ListClock::new(Items::copy(alloc, &[7])?))
}

#[test]
fn a_clock_of_a_list_shows_one_of_its_moments(rt: HostRuntime) -> Result<(), AllocError> {
    assert!(rt; clock(rt.alloc())?.now() == 7);
    Ok(())
}

fn install(byte: u8, at: u64) -> Install {
    let head = ObjId::from_bytes([byte; 20]);
    Install {
        head,
        pushed: head,
        at,
    }
}

const DAY: u64 = 86_400;

/// Three head updates, at 100, 200 and 100 days.
fn three(alloc: Global) -> Result<History, AllocError> {
    let mut history = History::new(alloc);
    history.push(install(1, 100 * DAY))?;
    history.push(install(2, 200 * DAY))?;
    history.push(install(3, 100 * DAY))?;
    Ok(history)
}

/// The first bytes of the heads.
fn heads(alloc: Global, history: &History) -> Result<Vec<u8>, AllocError> {
    let mut heads = Vec::new(alloc);
    for install in history.slice() {
        heads.push(install.head.as_bytes().first().copied().unwrap_or(0))?;
    }
    Ok(heads)
}

/// Whether of those head updates these are left at 200 days and a second.
fn keeps(alloc: Global, days: i64, kept: &[u8]) -> Result<bool, AllocError> {
    let mut history = three(alloc)?;
    history.cut(days, 200 * DAY + 1);
    Ok(heads(alloc, &history)?.as_slice() == kept)
}

/// Days, and the head updates that are left.
const LEFT: [(i64, &[u8]); 7] = [
    (-1, &[1, 2, 3]),
    (0, &[3]),
    (1, &[2, 3]),
    (99, &[2, 3]),
    (100, &[2, 3]),
    (101, &[1, 2, 3]),
    (36_500, &[1, 2, 3]),
];

#[test]
fn history_is_cut_to_the_retained_days(rt: HostRuntime) -> Result<(), AllocError> {
    for (days, kept) in LEFT {
        assert!(rt; keeps(rt.alloc(), days, kept)?, "{days}");
    }
    Ok(())
}
