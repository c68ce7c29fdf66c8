//! Rows: how files and directories stand in a body, one behind another.
ghost use Rattle.std.specs.Prelude.{◌≡◌, ◌++◌, ◌+◌, ◌<◌, ◌≤◌, ◌↔◌, [], drop, length, All, IfOk, IfSome, OnOk, IfNone, IsSome};
ghost use Rattle.std.specs.Int.{to_be_bytes, w32};
ghost use Rattle.hex.specs.Hex.{encode_lower};
ghost use Rattle.ids.specs.Digits.{digits_form};
ghost use Rattle.ids.specs.Form.{IsOf};
ghost use Rattle.http_front.specs.Limits.{row_front, row_limit};
ghost use Rattle.http_front.specs.Rows.{FitRows, HasNoRow, ReadsRows, row_with, rows_text};

use ids::{Bytes, Items, ObjId};
use json_words::ReadFault;
use std::alloc::{AllocError, Global};
use std::str::from_utf8;

/// A file or directory object under its id. Whether the id is that of the bytes is not asked here.
#[derive(Debug, Drop)]
pub struct Row {
    pub id: ObjId,
    pub bytes: Bytes,
}

/// The digits of an id and the length of the bytes in front of each object.
const FRONT: usize = 44;

/// An object of a row has fewer bytes.
const ROW_LIMIT: usize = 4_294_967_296;

/// The rows that a body is, or the place at which its first bad row begins. Each object is copied once.
pub fn read_rows(alloc: Global, body: &[u8]) -> Result<Items<Row>, ReadFault<u64>>
    ensures value { ReadsRows body.now result }
{
    let mut rows = Items::new(alloc);
    let mut at = 0;
    while at < body.len() {
        let (id, bytes) = match front_row(behind(body, at)) {
            Some(front) => front,
            None => return Err(ReadFault::Bad(at as u64)),
        };
        let row = match row_of(alloc, id, bytes) {
            Ok(row) => row,
            Err(_) => return Err(ReadFault::NoMemory),
        };
        match rows.push(row) {
            Ok(()) => {}
            Err(_) => return Err(ReadFault::NoMemory),
        }
        at += FRONT + bytes.len();
    }
    Ok(rows)
}

/// What stands behind a place.
fn behind(body: &[u8], at: usize) -> &[u8]
    requires fits { at ≤ length body.now }
    ensures value { result.now ≡ drop at body.now }
{
    body.split_at(at).1
}

/// A row of these parts.
fn row_of(alloc: Global, id: ObjId, bytes: &[u8]) -> Result<Row, AllocError>
    ensures value { IfOk result (λ row. row ≡ row_with id bytes.now) }
{
    let bytes = Bytes::copy(alloc, bytes)?;
    Ok(Row { id, bytes })
}

/// The id and the bytes of the row at the front, if one stands there.
fn front_row(rest: &[u8]) -> Option<(ObjId, &[u8])>
    ensures whole { IfSome result (λ front. rest.now
        ≡ encode_lower front.0 ++ (to_be_bytes w32 (length front.1.now) ++ (front.1.now ++ drop (row_front + length front.1.now) rest.now))) }
    ensures fits { IfSome result (λ front. length front.1.now < row_limit) }
    ensures bound { IfSome result (λ front. row_front + length front.1.now ≤ length rest.now) }
    ensures id_size { IfSome result (λ front. length front.0 ≡ 20) }
    ensures id_bytes { IfSome result (λ front. All (λ byte. byte < 256) front.0) }
    ensures none { IfNone result (HasNoRow rest.now) }
{
    if rest.len() < FRONT {
        return None;
    }
    let id = match id_in_digits(&rest[..40]) {
        Some(id) => id,
        None => return None,
    };
    let size = u32::from_be_bytes([rest[40], rest[41], rest[42], rest[43]]) as usize;
    if size > rest.len() - FRONT {
        return None;
    }
    let _ = id.as_bytes();
    Some((id, &rest[FRONT..FRONT + size]))
}

/// The id whose 40 digits some bytes are.
fn id_in_digits(digits: &[u8]) -> Option<ObjId>
    ensures form { IsSome result ↔ IsOf digits_form digits.now }
    ensures value { IfSome result (λ id. digits.now ≡ encode_lower id) }
{
    match from_utf8(digits) {
        Ok(text) => ObjId::read(text).ok(),
        Err(_) => None,
    }
}

/// The text of some rows. An object of 2^32 bytes or more has no row, and the answer is then want of memory.
pub fn write_rows(alloc: Global, rows: &[Row]) -> Result<Vec<u8>, AllocError>
    ensures value { IfOk result (λ text. text.items ≡ rows_text rows.now) }
    ensures fits { OnOk result (FitRows rows.now) }
{
    let mut text = Vec::new(alloc);
    for row in rows {
        push_row(&mut text, &row.id, row.bytes.slice())?;
    }
    Ok(text)
}

/// Appends the text of a row.
fn push_row(text: &mut Vec<u8>, id: &ObjId, bytes: &[u8]) -> Result<(), AllocError>
    ensures ok { OnOk result (text.new.items
        ≡ text.old.items ++ (encode_lower id.now ++ (to_be_bytes w32 (length bytes.now) ++ bytes.now))) }
    ensures fits { OnOk result (length bytes.now < row_limit) }
{
    if bytes.len() >= ROW_LIMIT {
        return Err(AllocError);
    }
    let size = bytes.len() as u32;
    text.extend_from_slice(&id.digits())?;
    text.extend_from_slice(&size.to_be_bytes())?;
    text.extend_from_slice(bytes)?;
    Ok(())
}
