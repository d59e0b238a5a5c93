//! What answers COM_STMT_PREPARE.
ghost use Rattle.std.specs.Prelude.{◌≡◌, ◌↔◌, true, ◌+◌, ◌≤◌, [], ◌++◌, length, IfOk, OnOk};
ghost use Rattle.std.specs.List.{concat};
ghost use Rattle.mysql_packet.specs.Frames.{frames_from, number_after_all};
ghost use Rattle.resultset.specs.Chunks.{AreChunks};
ghost use Rattle.resultset.specs.PreparedReplies.{hole_column, hole_columns, definitions, prepare_payloads, prepare_encoded};

use crate::chunks::{CHUNK_LIMIT, Chunks, Filling, LAST_ROOM};
use crate::pulling::{fill_definitions, fill_definitions_end, fill_short};
use crate::text::ColumnText;
use crate::{Column, Kind, SetEnd};
use bytes::BytesMut;
use mysql_message::prepared_payload;
use std::alloc::{AllocError, Global};
use std::mem;
use vt_value::Items;

// Promise: The answer to PREPARE is appended in its one spelling: the statement's number, a definition for each hole and for each column
/// Appends the packets that tell a client its prepared statement to the bytes in a buffer, which keeps the last of them, and gives the full chunks
/// before those. Refuses only for want of memory, and the buffer may then have any bytes.
/// The statement's number, its columns and its holes are told one by one.
pub fn encode_prepared_after(
    alloc: Global,
    statement: u32,
    columns: &[Column],
    holes: u16,
    number: u8,
    status: u16,
    end: SetEnd,
    last: &mut BytesMut,
) -> Result<Chunks, AllocError>
    requires within { length last.old.items ≤ CHUNK_LIMIT }
    requires room { LAST_ROOM ≤ length last.old.items + last.old.spare }
    ensures ok { IfOk result (λ chunks. concat chunks ++ last.new.items ≡ last.old.items ++ prepare_encoded end statement columns.now holes number status) }
    // Each chunk has at most 16,384 bytes, and none is empty.
    ensures chunks { IfOk result (λ chunks. AreChunks chunks) }
    ensures within { length last.new.items ≤ CHUNK_LIMIT }
    // It has the least room again, whatever happened.
    ensures room { LAST_ROOM ≤ length last.new.items + last.new.spare }
{
    let mut filling = Filling::over(alloc, mem::replace(last, BytesMut::new(alloc)));
    let filled = fill(
        alloc,
        statement,
        columns,
        holes,
        number,
        status,
        end,
        &mut filling,
    );
    let (chunks, rest) = filling.split();
    *last = rest;
    match filled {
        Ok(_next) => Ok(chunks),
        Err(refusal) => Err(refusal),
    }
}

/// How a hole is defined.
fn hole_column() -> Column<'static>
    ensures { result ≡ hole_column }
{
    Column {
        schema: ColumnText::lent(&[]),
        table: ColumnText::lent(&[]),
        name: ColumnText::lent(b"?"),
        org_name: ColumnText::lent(&[]),
        kind: Kind::VarBinary(0),
        flags: 128,
    }
}

/// A definition for each hole.
fn hole_columns(alloc: Global, holes: u16) -> Result<Items<Column<'static>>, AllocError>
    ensures ok { IfOk result (λ columns. columns ≡ hole_columns holes) }
{
    let mut columns = Items::new(alloc);
    while columns.len() < usize::from(holes) {
        columns.push(hole_column())?;
    }
    Ok(columns)
}

fn has_none(columns: &[Column]) -> bool
    ensures { result ≡ true ↔ (columns.now ≡ []) }
{
    columns.is_empty()
}

/// Appends definitions, and what comes after them if there are any.
fn fill_listed(
    alloc: Global,
    columns: &[Column],
    number: u8,
    status: u16,
    end: SetEnd,
    filling: &mut Filling,
) -> Result<u8, AllocError>
    ensures ok { OnOk result (filling.new ≡ filling.old ++ frames_from number (definitions end columns.now status)) }
    ensures next { IfOk result (λ n. n ≡ number_after_all number (definitions end columns.now status)) }
{
    if has_none(columns) {
        return Ok(number);
    }
    let number = fill_definitions(alloc, columns, number, filling)?;
    fill_definitions_end(alloc, number, status, end, filling)
}

/// Appends the packets that tell of a statement.
fn fill(
    alloc: Global,
    statement: u32,
    columns: &[Column],
    holes: u16,
    number: u8,
    status: u16,
    end: SetEnd,
    filling: &mut Filling,
) -> Result<u8, AllocError>
    ensures ok { OnOk result (filling.new ≡ filling.old ++ frames_from number (prepare_payloads end statement columns.now holes status)) }
{
    let first = prepared_payload(statement, (columns.len() % 65536) as u16, holes);
    let number = fill_short(alloc, &first, number, filling)?;
    let named = hole_columns(alloc, holes)?;
    let number = fill_listed(alloc, named.as_slice(), number, status, end, filling)?;
    fill_listed(alloc, columns, number, status, end, filling)
}
