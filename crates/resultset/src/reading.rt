//! Reads a result back from its packets. No server needs it: that its packets have one meaning is said and tested by it.
ghost use Rattle.std.specs.Prelude.{◌≡◌, ℕ, ◌<◌, ◌^◌, List, ◌++◌, length, map, IsTrue, IfOk, IfSome, Some};
ghost use Rattle.std.specs.List.{AllByRecursion};
ghost use Rattle.vt_value.specs.Values.{Row};
ghost use Rattle.vt_value.specs.declared.refusal.Refusal.{Refusal};
ghost use Rattle.vt_value.specs.Refusals.{message_of};
ghost use Rattle.mysql_packet.specs.Numbers.{length_encoded};
ghost use Rattle.resultset.specs.declared.Column.{Column};
ghost use Rattle.resultset.specs.declared.Outcome.{Outcome};
ghost use Rattle.resultset.specs.declared.ResultSet.{ResultSet};
ghost use Rattle.resultset.specs.Encoding.{RowFits, IsResult, Encodes, IsTyped, row_payload, after_definitions, set_payloads};
ghost use Rattle.resultset.specs.inner.Reading.{OnceRead};

use crate::columns::columns;
use crate::refusals::refusal_of;
use crate::unframing::payloads;
use crate::unread::Unread;
use crate::values::value_at;
use crate::{Column, Outcome, ResultSet, SetEnd, encode};
use bytes::BytesMut;
use mysql_message::numbers::read_length_encoded;
use std::alloc::{AllocError, Global};
use vt_value::{Items, Refusal, Row};

// Promise: What is read is a result that has this spelling, and a result that has it is read
/// The result that has exactly this spelling, with this first sequence number, this status and these ends; none if no
/// result has it. For a client that wants to know what it was told. It refuses only for want of memory.
pub fn decode(
    alloc: Global,
    number: u8,
    status: u16,
    end: SetEnd,
    bytes: &[u8],
) -> Result<Option<Outcome<'static>>, AllocError>
    ensures found { IfOk result (λ o. IfSome o (λ x. IsResult x × Encodes end x number status bytes.now)) }
    ensures only { IfOk result (λ o. (x : Outcome) → IsResult x → IsTyped x → Encodes end x number status bytes.now
        → o ≡ Some x) }
{
    let outcome = match read(alloc, end, bytes) {
        Ok(outcome) => outcome,
        Err(Unread::Malformed) => return Ok(None),
        Err(Unread::OutOfMemory) => return Err(AllocError),
    };
    let mut again = BytesMut::new(alloc);
    encode(alloc, &outcome, number, status, end, &mut again)?;
    if again.as_slice() == bytes {
        Ok(Some(outcome))
    } else {
        Ok(None)
    }
}

/// The only result that the bytes may spell.
fn read(alloc: Global, end: SetEnd, bytes: &[u8]) -> Result<Outcome<'static>, Unread>
    ensures fits { IfOk result IsResult }
    ensures again { (x : Outcome) (number status : ℕ) → IsResult x → IsTyped x → Encodes end x number status bytes.now
        → OnceRead result (λ y. y ≡ x) }
{
    let payloads = payloads(alloc, bytes)?;
    let payloads = payloads.as_slice();
    let Some(first) = payloads.first() else {
        return Err(Unread::Malformed);
    };
    match first.as_slice() {
        [0x00, count @ ..] => read_count(count),
        [0xFF, _, _, _, _, _, _, _, _, message @ ..] => read_refusal(message),
        head => Ok(Outcome::Rows(read_set(alloc, end, head, payloads)?)),
    }
}

fn read_count(bytes: &[u8]) -> Result<Outcome<'static>, Unread>
    ensures fits { IfOk result IsResult }
    ensures again { (n : ℕ) (rest : List ℕ) → n < 2 ^ 64 → bytes.now ≡ length_encoded n ++ rest
        → OnceRead result (λ y. y ≡ Outcome.Count n) }
{
    match read_length_encoded(bytes) {
        Some((affected, _)) => Ok(Outcome::Count(affected)),
        None => Err(Unread::Malformed),
    }
}

fn read_refusal(message: &[u8]) -> Result<Outcome<'static>, Unread>
    ensures fits { IfOk result IsResult }
    ensures again { (r : Refusal) → message.now ≡ message_of r → OnceRead result (λ y. y ≡ Outcome.Refused r) }
{
    match refusal_of(message) {
        Some(refusal) => Ok(Outcome::Refused(refusal)),
        None => Err(Unread::Malformed),
    }
}

/// The result set whose first payload is the head.
fn read_set(
    alloc: Global,
    end: SetEnd,
    head: &[u8],
    payloads: &[Items<u8>],
) -> Result<ResultSet<'static>, Unread>
    ensures fits { IfOk result (λ set. IsResult (Outcome.Rows set)) }
    ensures again { (set : ResultSet) (status : ℕ) → IsResult (Outcome.Rows set) → IsTyped (Outcome.Rows set)
        → head.now ≡ length_encoded (length set.columns) → payloads.now ≡ set_payloads end set status
        → OnceRead result (λ y. y ≡ set) }
{
    let len = payloads.len();
    let Some((count, _)) = read_length_encoded(head) else {
        return Err(Unread::Malformed);
    };
    let count = count as usize;
    let trailing = packets_after_definitions(end);
    if count == 0 || len < trailing + 2 || len - (trailing + 2) < count {
        return Err(Unread::Malformed);
    }
    let columns = columns(alloc, &payloads[1..count + 1])?;
    let rows = rows(
        alloc,
        columns.as_slice(),
        &payloads[count + 1 + trailing..len - 1],
    )?;
    Ok(ResultSet { columns, rows })
}

/// How many packets come after the definitions of a result set.
fn packets_after_definitions(end: SetEnd) -> usize
    ensures { result ≡ length (after_definitions end 0) }
{
    match end {
        SetEnd::EofPackets => 1,
        SetEnd::OkPacket => 0,
    }
}

fn rows(alloc: Global, columns: &[Column], payloads: &[Items<u8>]) -> Result<Items<Row>, Unread>
    ensures fits { IfOk result (λ rows. AllByRecursion (RowFits columns.now) rows) }
    ensures again { (rows : List Row) → AllByRecursion (RowFits columns.now) rows → payloads.now ≡ map row_payload rows
        → OnceRead result (λ x. x ≡ rows) }
{
    let mut rows = Items::new(alloc);
    for payload in payloads {
        rows.push(row(alloc, columns, payload.as_slice())?)?;
    }
    Ok(rows)
}

fn row(alloc: Global, columns: &[Column], payload: &[u8]) -> Result<Row, Unread>
    ensures fits { IfOk result (λ row. RowFits columns.now row) }
    ensures again { (row : Row) → RowFits columns.now row → payload.now ≡ row_payload row
        → OnceRead result (λ x. x ≡ row) }
{
    let mut row = Items::new(alloc);
    let mut rest = payload;
    for column in columns {
        let (value, after) = value_at(alloc, column.kind, rest)?;
        row.push(value)?;
        rest = after;
    }
    Ok(row)
}
