//! Writes a result as packets: the column count, the definitions, the rows, and what ends them. Packets go straight into the output.
ghost use Rattle.std.specs.Prelude.{◌≡◌, ◌+◌, ◌≤◌, ◌∷◌, [], ◌++◌, length, map, take, IfOk, IsOk, OnErr, OnOk};
ghost use Rattle.mysql_packet.specs.Numbers.{little_endian, length_encoded};
ghost use Rattle.mysql_packet.specs.Frames.{frame, frames_from, number_after, number_after_all};
ghost use Rattle.resultset.specs.Flags.{type_of, length_of};
ghost use Rattle.resultset.specs.Encoding.{row_payload, definition_payload, name_fields};
ghost use Rattle.resultset.specs.Encoding.{fixed_fields, after_definitions, after_rows, set_payloads, payloads_of, encoded, IsSmall};
ghost use Rattle.resultset.specs.inner.Heads.{head_payloads};

use crate::{Column, Kind, Outcome, ResultSet, SetEnd};
use bytes::BytesMut;
use mysql_message::numbers::{
    little_endian, put_bytes, put_length_encoded, put_length_encoded_string,
};
use mysql_message::{put_eof, put_err, put_ok, put_set_end, put_text_value};
use mysql_packet::put_payload;
use std::alloc::{AllocError, Global};
use vt_value::{Row, Value};

/// The catalog of each column, after its length.
const CATALOG: &[u8] = b"\x03def";

/// The room for one payload that is made at first, in bytes: most definitions and rows have less.
pub(crate) const PAYLOAD_ROOM: usize = 256;

// Promise: A result is appended in its one spelling, with EOF packets or with an OK packet at its end, and the next number given; if
// memory is refused the buffer is as it was
/// Appends the packets of a result, the first with this sequence number, and gives the number after the last. A count
/// is an OK packet and a refusal an ERR packet. A result set is the number of its columns, a definition of each, EOF,
/// its rows, EOF, a packet for each; without EOF packets it ends with a packet laid out as OK. It refuses only for want
/// of memory, and then leaves the buffer as it was.
pub fn encode(
    alloc: Global,
    outcome: &Outcome,
    number: u8,
    status: u16,
    end: SetEnd,
    out: &mut BytesMut,
) -> Result<u8, AllocError>
    ensures ok { OnOk result (out.new.items ≡ out.old.items ++ encoded end outcome.now number status) }
    ensures next { IfOk result (λ n. n ≡ number_after_all number (payloads_of end outcome.now status)) }
    ensures err { OnErr result (out.new.items ≡ out.old.items) }
    // With that much room a count or a refusal can't fail.
    ensures room { IsSmall outcome.now → 64 ≤ out.old.spare → IsOk result }
    // No room is ever lost.
    ensures capacity { length out.old.items + out.old.spare ≤ length out.new.items + out.new.spare }
{
    match outcome {
        Outcome::Rows(set) => put_set_or_nothing(alloc, set, number, status, end, out),
        Outcome::Count(affected) => put_ok(number, *affected, status, out),
        Outcome::Refused(refusal) => put_err(number, *refusal, out),
    }
}

fn put_set_or_nothing(
    alloc: Global,
    set: &ResultSet,
    number: u8,
    status: u16,
    end: SetEnd,
    out: &mut BytesMut,
) -> Result<u8, AllocError>
    ensures ok { OnOk result (out.new.items ≡ out.old.items ++ frames_from number (set_payloads end set.now status)) }
    ensures next { IfOk result (λ n. n ≡ number_after_all number (set_payloads end set.now status)) }
    ensures err { OnErr result (out.new.items ≡ out.old.items) }
    ensures capacity { length out.old.items + out.old.spare ≤ length out.new.items + out.new.spare }
{
    let len = out.len();
    let result = put_set(alloc, set, number, status, end, out);
    if result.is_err() {
        out.truncate(len);
    }
    result
}

fn put_set(
    alloc: Global,
    set: &ResultSet,
    number: u8,
    status: u16,
    end: SetEnd,
    out: &mut BytesMut,
) -> Result<u8, AllocError>
    ensures ok { OnOk result (out.new.items ≡ out.old.items ++ frames_from number (set_payloads end set.now status)) }
    ensures next { IfOk result (λ n. n ≡ number_after_all number (set_payloads end set.now status)) }
    ensures err { OnErr result (take (length out.old.items) out.new.items ≡ out.old.items) }
    ensures capacity { length out.old.items + out.old.spare ≤ length out.new.items + out.new.spare }
{
    let mut payload = BytesMut::with_capacity(alloc, PAYLOAD_ROOM)?;
    let columns = set.columns.as_slice();
    let number = put_head(columns, number, status, end, &mut payload, out)?;
    let number = put_rows(set.rows.as_slice(), number, &mut payload, out)?;
    put_rows_end(number, status, end, out)
}

/// Appends what comes before the rows. The payload is scratch, for its memory, and empty.
pub(crate) fn put_head(
    columns: &[Column],
    number: u8,
    status: u16,
    end: SetEnd,
    payload: &mut BytesMut,
    out: &mut BytesMut,
) -> Result<u8, AllocError>
    requires { payload.old.items ≡ [] }
    ensures ok { OnOk result (out.new.items ≡ out.old.items ++ frames_from number (head_payloads end columns.now status)) }
    ensures next { IfOk result (λ n. n ≡ number_after_all number (head_payloads end columns.now status)) }
    ensures err { OnErr result (take (length out.old.items) out.new.items ≡ out.old.items) }
    ensures capacity { length out.old.items + out.old.spare ≤ length out.new.items + out.new.spare }
{
    put_length_encoded(columns.len() as u64, payload)?;
    let number = put_payload(number, payload.as_slice(), out)?;
    let number = put_definitions(columns, number, payload, out)?;
    put_definitions_end(number, status, end, out)
}

/// Appends what comes after the definitions.
fn put_definitions_end(
    number: u8,
    status: u16,
    end: SetEnd,
    out: &mut BytesMut,
) -> Result<u8, AllocError>
    ensures ok { OnOk result (out.new.items ≡ out.old.items ++ frames_from number (after_definitions end status)) }
    ensures next { IfOk result (λ n. n ≡ number_after_all number (after_definitions end status)) }
    ensures err { OnErr result (out.new.items ≡ out.old.items) }
    ensures capacity { length out.old.items + out.old.spare ≤ length out.new.items + out.new.spare }
{
    match end {
        SetEnd::EofPackets => put_eof(number, status, out),
        SetEnd::OkPacket => Ok(number),
    }
}

/// Appends what comes after the rows.
pub(crate) fn put_rows_end(
    number: u8,
    status: u16,
    end: SetEnd,
    out: &mut BytesMut,
) -> Result<u8, AllocError>
    ensures ok { OnOk result (out.new.items ≡ out.old.items ++ frame number (after_rows end status)) }
    ensures next { IfOk result (λ n. n ≡ number_after number (after_rows end status)) }
    ensures err { OnErr result (out.new.items ≡ out.old.items) }
    ensures capacity { length out.old.items + out.old.spare ≤ length out.new.items + out.new.spare }
{
    match end {
        SetEnd::EofPackets => put_eof(number, status, out),
        SetEnd::OkPacket => put_set_end(number, status, out),
    }
}

/// Appends a packet for each definition. The payload is scratch, for its memory.
fn put_definitions(
    columns: &[Column],
    number: u8,
    payload: &mut BytesMut,
    out: &mut BytesMut,
) -> Result<u8, AllocError>
    ensures ok { OnOk result (out.new.items
        ≡ out.old.items ++ frames_from number (map definition_payload columns.now)) }
    ensures next { IfOk result (λ n. n ≡ number_after_all number (map definition_payload columns.now)) }
    ensures err { OnErr result (take (length out.old.items) out.new.items ≡ out.old.items) }
    ensures capacity { length out.old.items + out.old.spare ≤ length out.new.items + out.new.spare }
{
    let mut next = number;
    for column in columns {
        payload.clear();
        put_definition(column, payload)?;
        next = put_payload(next, payload.as_slice(), out)?;
    }
    Ok(next)
}

/// Appends a packet for each row. The payload is scratch, for its memory.
fn put_rows(
    rows: &[Row],
    number: u8,
    payload: &mut BytesMut,
    out: &mut BytesMut,
) -> Result<u8, AllocError>
    ensures ok { OnOk result (out.new.items ≡ out.old.items ++ frames_from number (map row_payload rows.now)) }
    ensures next { IfOk result (λ n. n ≡ number_after_all number (map row_payload rows.now)) }
    ensures err { OnErr result (take (length out.old.items) out.new.items ≡ out.old.items) }
    ensures capacity { length out.old.items + out.old.spare ≤ length out.new.items + out.new.spare }
{
    let mut next = number;
    for row in rows {
        payload.clear();
        put_row(row.as_slice(), payload)?;
        next = put_payload(next, payload.as_slice(), out)?;
    }
    Ok(next)
}

pub(crate) fn put_definition(column: &Column, payload: &mut BytesMut) -> Result<(), AllocError>
    ensures ok { OnOk result (payload.new.items ≡ payload.old.items ++ definition_payload column.now) }
    ensures capacity { length payload.old.items + payload.old.spare ≤ length payload.new.items + payload.new.spare }
{
    put_names(column, payload)?;
    put_bytes(&fixed_fields(column.kind, column.flags), payload)?;
    Ok(())
}

/// Appends the catalog, which is `def`, and the names: each of the table's and the column's has two.
fn put_names(column: &Column, payload: &mut BytesMut) -> Result<(), AllocError>
    ensures ok { OnOk result (payload.new.items ≡ payload.old.items ++ name_fields column.now) }
    ensures capacity { length payload.old.items + payload.old.spare ≤ length payload.new.items + payload.new.spare }
{
    put_bytes(CATALOG, payload)?;
    put_length_encoded_string(column.schema.as_slice(), payload)?;
    put_length_encoded_string(column.table.as_slice(), payload)?;
    put_length_encoded_string(column.table.as_slice(), payload)?;
    put_length_encoded_string(column.name.as_slice(), payload)?;
    put_length_encoded_string(column.org_name.as_slice(), payload)?;
    Ok(())
}

/// The fields of a fixed length: the character set binary, the length, the type, the flags, no decimals.
pub(crate) fn fixed_fields(kind: Kind, flags: u16) -> [u8; 13]
    ensures { result ≡ fixed_fields kind flags }
{
    let [low, high, ..] = little_endian(u64::from(flags));
    [
        0x0C,
        63,
        0,
        length_of(kind),
        0,
        0,
        0,
        type_of(kind),
        low,
        high,
        0,
        0,
        0,
    ]
}

fn type_of(kind: Kind) -> u8
    ensures { result ≡ type_of kind }
{
    match kind {
        Kind::BigInt | Kind::BigIntUnsigned | Kind::Count => 0x08,
        Kind::VarBinary(_) => 0xFD,
        Kind::Sum => 0xF6,
    }
}

fn length_of(kind: Kind) -> u8
    ensures { result ≡ length_of kind }
{
    match kind {
        Kind::BigInt | Kind::BigIntUnsigned => 20,
        Kind::VarBinary(most) => most,
        Kind::Count => 21,
        Kind::Sum => 41,
    }
}

pub(crate) fn put_row(row: &[Value], payload: &mut BytesMut) -> Result<(), AllocError>
    ensures ok { OnOk result (payload.new.items ≡ payload.old.items ++ row_payload row.now) }
    ensures capacity { length payload.old.items + payload.old.spare ≤ length payload.new.items + payload.new.spare }
{
    for value in row {
        put_text_value(value, payload)?;
    }
    Ok(())
}
