//! Outside vectors, and each public call once with ample memory.
use ids::*;
use std::alloc::{AllocError, Global};

/// Whether these are the digits of the bytes' id, and are read as it.
fn is_named(bytes: &str, digits: &str) -> bool {
    match ObjId::read(digits) {
        Ok(id) => id == ObjId::of(bytes.as_bytes()) && id.digits().as_slice() == digits.as_bytes(),
        Err(_) => false,
    }
}

#[test]
fn an_id_is_the_sha1_of_the_bytes(rt: HostRuntime) {
    // FIPS 180-4: no bytes, one block, and the message of 448 bits.
    for (bytes, digits) in [
        ("", "da39a3ee5e6b4b0d3255bfef95601890afd80709"),
        ("abc", "a9993e364706816aba3e25717850c26c9cd0d89d"),
        (
            "abcdbcdecdefdefgefghfghighijhijkijkljklmklmnlmnomnopnopq",
            "84983e441c3bd26ebaae4aa1f95129e5e54670f1",
        ),
    ] {
        assert!(rt; is_named(bytes, digits), "{bytes}");
    }
}

fn is_bad_object_id(text: &str, at: usize) -> bool {
    match ObjId::read(text) {
        Ok(_) => false,
        Err(bad) => bad.at == at,
    }
}

#[test]
fn a_text_that_is_no_object_id_is_refused_at_its_place(rt: HostRuntime) {
    for (text, at) in [
        ("", 0),
        ("000000000000000000000000000000000000000", 39),
        ("AAAAAAAAAAAAAAAAAAAAAAAAAAAAAAAAAAAAAAAA", 0),
        ("a9993e364706816aba3e25717850c26c9cd0d89dd", 40),
        ("a9993e364706816aba3e25717850c26c9cd0d89 ", 39),
        ("ä9993e364706816aba3e25717850c26c9cd0d89d", 0),
    ] {
        assert!(rt; is_bad_object_id(text, at), "{text}");
    }
}

/// Whether this is the text of the library's id with these bytes, and is read as it.
fn is_library(text: &str, bytes: [u8; 16]) -> bool {
    match LibId::read(text) {
        Ok(id) => {
            id == LibId::from_bytes(bytes)
                && id.as_bytes() == bytes.as_slice()
                && id.digits().as_slice() == text.as_bytes()
        }
        Err(_) => false,
    }
}

#[test]
fn a_library_id_is_read_and_written(rt: HostRuntime) {
    let bytes = [
        17, 17, 17, 17, 34, 34, 67, 51, 132, 68, 85, 85, 85, 85, 85, 85,
    ];
    assert!(rt; is_library("11111111-2222-4333-8444-555555555555", bytes));
}

fn is_bad_library_id(text: &str, at: usize) -> bool {
    match LibId::read(text) {
        Ok(_) => false,
        Err(bad) => bad.at == at,
    }
}

#[test]
fn a_text_that_is_no_library_id_is_refused_at_its_place(rt: HostRuntime) {
    for (text, at) in [
        ("", 0),
        ("11111111-2222-4333-8444-55555555555", 35),
        ("11111111-2222-4333-8444-5555555555556", 36),
        ("11111111222243338444555555555555", 8),
        ("{11111111-2222-4333-8444-555555555555}", 0),
        ("11111111-2222-4333-8444-55555555555F", 35),
    ] {
        assert!(rt; is_bad_library_id(text, at), "{text}");
    }
}

fn is_twenty_zeros(id: &ObjId) -> bool {
    id.as_bytes() == [0; 20].as_slice() && id.is_nil() && *id == ObjId::from_bytes([0; 20])
}

#[test]
fn nil_is_twenty_zeros(rt: HostRuntime) {
    assert!(rt; is_twenty_zeros(&ObjId::NIL));
    assert!(rt; !ObjId::of(b"").is_nil());
}

fn key(kind: Kind, id: ObjId) -> Key {
    Key { kind, id }
}

fn are_ordered(low: &ObjId, high: &ObjId) -> bool {
    key(Kind::Commit, *high) < key(Kind::Fs, *low)
        && key(Kind::Fs, *high) < key(Kind::Block, *low)
        && key(Kind::Block, *low) < key(Kind::Block, *high)
}

#[test]
fn keys_go_by_kind_and_then_by_id(rt: HostRuntime) {
    assert!(rt; are_ordered(&ObjId::NIL, &ObjId::of(b"")));
}

/// The list of forty zeros.
fn one(alloc: Global) -> Result<IdList, AllocError> {
    let mut ids = IdList::new(alloc);
    ids.push(ObjId::NIL)?;
    Ok(ids)
}

#[test]
fn a_list_keeps_what_is_pushed(rt: HostRuntime) -> Result<(), AllocError> {
    assert!(rt; IdList::new(rt.alloc()).is_empty());
    assert!(rt; one(rt.alloc())?.slice() == [ObjId::NIL].as_slice());
    Ok(())
}

fn is_abc(bytes: &Bytes) -> bool {
    bytes.len() == 3 && bytes.slice() == b"abc".as_slice()
}

#[test]
fn bytes_are_kept_as_they_are(rt: HostRuntime) -> Result<(), AllocError> {
    let bytes = Bytes::copy(rt.alloc(), b"abc")?;
    assert!(rt; is_abc(&bytes));
    assert!(rt; is_abc(&Bytes::from_vec(bytes.into_vec())));
    Ok(())
}

/// A text of three bytes that was pushed to an empty one.
fn pushed(alloc: Global) -> Result<Text, AllocError> {
    let mut text = Text::new(alloc);
    text.push_str("né")?;
    Ok(text)
}

fn is_of_three_bytes(text: &Text) -> bool {
    text.slice() == "né" && text.len() == 3 && text.as_bytes() == "né".as_bytes()
}

fn moved(alloc: Global) -> Result<Text, AllocError> {
    Ok(Text::from_string(String::from_str(alloc, "né")?))
}

#[test]
fn a_text_keeps_its_bytes(rt: HostRuntime) -> Result<(), AllocError> {
    assert!(rt; is_of_three_bytes(&pushed(rt.alloc())?));
    assert!(rt; is_of_three_bytes(&Text::copy(rt.alloc(), "né")?));
    Ok(())
}

#[test]
fn a_text_of_a_string_keeps_its_bytes(rt: HostRuntime) -> Result<(), AllocError> {
    assert!(rt; Text::new(rt.alloc()).is_empty());
    assert!(rt; is_of_three_bytes(&moved(rt.alloc())?));
    Ok(())
}

fn first() -> Key {
    key(Kind::Commit, ObjId::of(b"a"))
}

fn second() -> Key {
    key(Kind::Block, ObjId::NIL)
}

/// A table of 2 at the second of these keys and 3 at the first.
fn filled(alloc: Global) -> Result<KeyTable<u64>, AllocError> {
    let mut table = KeyTable::new(alloc);
    table.insert(second(), 2)?;
    table.insert(first(), 3)?;
    Ok(table)
}

/// Whether a table tells what a key had before.
fn tells_before(table: &mut KeyTable<u64>) -> Result<bool, AllocError> {
    let new = table.insert(second(), 2)?;
    let other = table.insert(first(), 1)?;
    let before = table.insert(first(), 3)?;
    Ok(new.is_none() && other.is_none() && before == Some(1) && table.len() == 2)
}

#[test]
fn a_table_tells_what_a_key_had(rt: HostRuntime) -> Result<(), AllocError> {
    assert!(rt; tells_before(&mut KeyTable::new(rt.alloc()))?);
    Ok(())
}

fn has_both(table: &KeyTable<u64>) -> bool {
    table.get(&first()).copied() == Some(3) && table.has(&second()) && sum(table) == 5
}

fn is_in_order(table: &KeyTable<u64>) -> bool {
    table.next(None) == Some(first())
        && table.next(Some(first())) == Some(second())
        && table.next(Some(second())).is_none()
}

/// The sum of the values.
fn sum(table: &KeyTable<u64>) -> u64 {
    let mut sum = 0u64;
    for (_, value) in table.iter() {
        sum = sum.saturating_add(*value);
    }
    sum
}

#[test]
fn a_table_finds_what_was_put_in_the_order_of_the_keys(rt: HostRuntime) -> Result<(), AllocError> {
    let mut table = filled(rt.alloc())?;
    assert!(rt; has_both(&table) && is_in_order(&table) && gives_up(&mut table));
    assert!(rt; KeyTable::<u64>::new(rt.alloc()).next(None).is_none());
    Ok(())
}

fn gives_up(table: &mut KeyTable<u64>) -> bool {
    table.remove(&first()) == Some(3) && !table.has(&first())
}
