//! Result sets of binary rows, which are pulled.
ghost use Rattle.std.specs.Prelude.{◌≡◌, ◌+◌, ◌≤◌, ◌++◌, length, map, IfOk, OnOk};
ghost use Rattle.std.specs.List.{concat};
ghost use Rattle.mysql_packet.specs.Frames.{frames_from, number_after_all};
ghost use Rattle.resultset.specs.declared.Outcome.{Outcome};
ghost use Rattle.resultset.specs.Chunks.{AreChunks};
ghost use Rattle.resultset.specs.BinaryRows.{binary_row_payload, kinds_of, binary_set_payloads, binary_encoded};

use crate::chunks::{CHUNK_LIMIT, Chunks, Filling, LAST_ROOM};
use crate::parts::Part;
use crate::pulling::{fill_head, fill_part, fill_rows_end};
use crate::{Column, Kind, SetEnd};
use bytes::BytesMut;
use operators::Operator;
use std::alloc::{AllocError, Global};
use std::mem;
use vt_value::Items;

// Promise: The result set of a prepared statement is appended in its one spelling: that of a text, but for its rows, which are binary
/// Appends the packets of a result set whose rows are binary to the bytes in a buffer, which keeps the last of them, and gives the full chunks
/// before those, as `encode_rows_after` does of text rows. Refuses only for want of memory, and the buffer may then have any bytes.
/// A set's parts are handed over one by one, since its rows are still to be pulled.
pub fn encode_binary_rows_after<R: Operator>(
    alloc: Global,
    columns: &[Column],
    rows: R,
    number: u8,
    status: u16,
    end: SetEnd,
    last: &mut BytesMut,
) -> Result<Chunks, AllocError>
    requires within { length last.old.items ≤ CHUNK_LIMIT }
    requires room { LAST_ROOM ≤ length last.old.items + last.old.spare }
    ensures ok { IfOk result (λ chunks. concat chunks ++ last.new.items
        ≡ last.old.items ++ binary_encoded end (Outcome.Rows (record { columns = columns.now; rows = R.to_come rows })) number status) }
    // Each chunk has at most 16,384 bytes, and none is empty.
    ensures chunks { IfOk result (λ chunks. AreChunks chunks) }
    ensures within { length last.new.items ≤ CHUNK_LIMIT }
    // It has the least room again, whatever happened.
    ensures room { LAST_ROOM ≤ length last.new.items + last.new.spare }
{
    let mut pulled = rows;
    let mut filling = Filling::over(alloc, mem::replace(last, BytesMut::new(alloc)));
    let filled = fill(
        alloc,
        columns,
        &mut pulled,
        number,
        status,
        end,
        &mut filling,
    );
    let (chunks, rest) = filling.split();
    *last = rest;
    match filled {
        Ok(_next) => Ok(chunks),
        Err(refusal) => Err(refusal),
    }
}

/// What each column holds.
fn kinds_of(alloc: Global, columns: &[Column]) -> Result<Items<Kind>, AllocError>
    ensures ok { IfOk result (λ kinds. kinds ≡ kinds_of columns.now) }
{
    let mut kinds = Items::new(alloc);
    for column in columns {
        kinds.push(column.kind)?;
    }
    Ok(kinds)
}

/// Appends the packets of such a result set.
fn fill<R: Operator>(
    alloc: Global,
    columns: &[Column],
    rows: &mut R,
    number: u8,
    status: u16,
    end: SetEnd,
    filling: &mut Filling,
) -> Result<u8, AllocError>
    ensures ok { OnOk result (filling.new
        ≡ filling.old ++ frames_from number (binary_set_payloads end (record { columns = columns.now; rows = R.to_come rows.old }) status)) }
{
    let kinds = kinds_of(alloc, columns)?;
    let number = fill_head(alloc, columns, number, status, end, filling)?;
    let number = fill_binary_rows(alloc, kinds.as_slice(), rows, number, filling)?;
    fill_rows_end(alloc, number, status, end, filling)
}

/// Appends a packet for each row that is still to come.
fn fill_binary_rows<R: Operator>(
    alloc: Global,
    kinds: &[Kind],
    rows: &mut R,
    number: u8,
    filling: &mut Filling,
) -> Result<u8, AllocError>
    ensures ok { OnOk result (filling.new ≡ filling.old ++ frames_from number (map (binary_row_payload kinds.now) (R.to_come rows.old))) }
    ensures next { IfOk result (λ n. n ≡ number_after_all number (map (binary_row_payload kinds.now) (R.to_come rows.old))) }
{
    let mut next = number;
    while let Some(row) = rows.next(alloc)? {
        next = fill_part(
            alloc,
            &Part::BinaryRow(kinds, row.as_slice()),
            next,
            filling,
        )?;
    }
    Ok(next)
}
