//! What `encode_rows` and `encode_rows_after` write, compared with what `encode` does, and where the rows fail.
use crate::cases::failing::Failing;
use bytes::BytesMut;
use operators::Rows;
use resultset::{
    CHUNK_LIMIT, Chunks, Column, ColumnText, Kind, LAST_ROOM, Outcome, ResultSet, SetEnd, encode,
    encode_rows, encode_rows_after,
};
use std::alloc::{AllocError, Global};
use vt_value::{Items, Refusal, Row, Value};

/// The status of each reply.
const STATUS: u16 = 2;

/// One column of texts.
fn columns(alloc: Global) -> Result<Items<Column<'static>>, Refusal> {
    let mut columns = Items::new(alloc);
    columns.push(Column {
        schema: ColumnText::lent(b"shop"),
        table: ColumnText::lent(b"b"),
        name: ColumnText::lent(b"v"),
        org_name: ColumnText::lent(b"v"),
        kind: Kind::VarBinary(255),
        flags: 128,
    })?;
    Ok(columns)
}

/// Rows of one text each, of these lengths.
fn texts(alloc: Global, lengths: &[usize]) -> Result<Items<Row>, Refusal> {
    let mut rows = Items::new(alloc);
    for length in lengths {
        let text = vec![in alloc; b'x'; *length]?;
        let mut row = Items::new(alloc);
        row.push(Value::Bytes(Items::from_vec(text)))?;
        rows.push(row)?;
    }
    Ok(rows)
}

/// The bytes of `encode` for rows of texts, and the number after them.
fn whole(alloc: Global, lengths: &[usize], end: SetEnd) -> Result<(BytesMut, u8), Refusal> {
    let set = ResultSet {
        columns: columns(alloc)?,
        rows: texts(alloc, lengths)?,
    };
    let mut bytes = BytesMut::new(alloc);
    let next = encode(alloc, &Outcome::Rows(set), 1, STATUS, end, &mut bytes)?;
    Ok((bytes, next))
}

/// The chunks of `encode_rows` for rows of texts, and the number after them.
fn pulled(alloc: Global, lengths: &[usize], end: SetEnd) -> Result<(Chunks, u8), Refusal> {
    let columns = columns(alloc)?;
    let rows = Rows::new(alloc, texts(alloc, lengths)?)?;
    let mut chunks = Chunks::new(alloc);
    let columns = columns.as_slice();
    let next = encode_rows(alloc, columns, rows, 1, STATUS, end, &mut chunks)?;
    Ok((chunks, next))
}

fn joined(alloc: Global, chunks: &Chunks) -> Result<Vec<u8>, Refusal> {
    let mut bytes = Vec::new(alloc);
    for chunk in chunks.as_slice() {
        bytes.extend_from_slice(chunk.as_slice())?;
    }
    Ok(bytes)
}

/// The bytes of `encode_rows_after` for rows of texts: its chunks, and then its buffer.
fn after(alloc: Global, lengths: &[usize], end: SetEnd) -> Result<Vec<u8>, Refusal> {
    let columns = columns(alloc)?;
    let rows = Rows::new(alloc, texts(alloc, lengths)?)?;
    let mut last = BytesMut::with_capacity(alloc, LAST_ROOM)?;
    let columns = columns.as_slice();
    let chunks = encode_rows_after(alloc, columns, rows, 1, STATUS, end, &mut last)?;
    let mut bytes = joined(alloc, &chunks)?;
    bytes.extend_from_slice(last.as_slice())?;
    Ok(bytes)
}

fn are_joined(alloc: Global, chunks: &Chunks, bytes: &[u8]) -> Result<bool, Refusal> {
    Ok(joined(alloc, chunks)?.as_slice() == bytes)
}

/// Whether the ways give the same bytes and number, and how many chunks there are.
fn compared(alloc: Global, lengths: &[usize], end: SetEnd) -> Result<(bool, usize), Refusal> {
    let (chunks, next) = pulled(alloc, lengths, end)?;
    let (bytes, wanted) = whole(alloc, lengths, end)?;
    let same = are_joined(alloc, &chunks, bytes.as_slice())?;
    let also = after(alloc, lengths, end)?.as_slice() == bytes.as_slice();
    Ok((same && also && next == wanted, chunks.as_slice().len()))
}

// Whether rows of these lengths are the same bytes both ways, in so many chunks, however result sets end.
fn are_the_same(alloc: Global, lengths: &[usize], count: usize) -> Result<bool, Refusal> {
    let (same, chunks) = compared(alloc, lengths, SetEnd::EofPackets)?;
    let (also, again) = compared(alloc, lengths, SetEnd::OkPacket)?;
    Ok(same && also && chunks == count && again == count)
}

/// Rows that are encoded as they are pulled have the bytes of the whole result.
pub(crate) fn rows_in_chunks_are_the_same_bytes(alloc: Global) -> Result<bool, Refusal> {
    // how long the texts are, and how many chunks there are
    let cases: [(&[usize], usize); 5] = [
        (&[], 1),
        (&[0, 1, 250, 251], 1),
        (&[255; 128], 3),
        (&[16_384, 3, 16_400], 3),
        (&[70_000], 5),
    ];
    for (lengths, count) in &cases {
        if !are_the_same(alloc, lengths, *count)? {
            return Ok(false);
        }
    }
    Ok(true)
}

/// All chunks but the last are full.
pub(crate) fn all_chunks_but_the_last_are_full(alloc: Global) -> Result<bool, Refusal> {
    let (chunks, _next) = pulled(alloc, &[255; 128], SetEnd::OkPacket)?;
    let sizes: [usize; 2] = [CHUNK_LIMIT, CHUNK_LIMIT];
    for (chunk, size) in chunks.as_slice().iter().zip(&sizes) {
        if chunk.len() != *size {
            return Ok(false);
        }
    }
    Ok(true)
}

/// Whether rows that fail end in a refusal.
fn is_refused(alloc: Global, rows: Failing, chunks: &mut Chunks) -> Result<bool, Refusal> {
    let columns = columns(alloc)?;
    let end = SetEnd::OkPacket;
    let done = encode_rows(alloc, columns.as_slice(), rows, 1, STATUS, end, chunks);
    Ok(matches!(done, Err(AllocError)))
}

/// Whether rows that fail end in a refusal, and leave the chunks as they were.
fn leave(alloc: Global, rows: Failing, chunks: &mut Chunks) -> Result<bool, Refusal> {
    let before = joined(alloc, chunks)?;
    let refused = is_refused(alloc, rows, chunks)?;
    Ok(refused && are_joined(alloc, chunks, before.as_slice())?)
}

/// Rows that fail leave the chunks as they were.
pub(crate) fn rows_that_fail_leave_the_stream_as_it_was(alloc: Global) -> Result<bool, Refusal> {
    let (mut chunks, _next) = pulled(alloc, &[3], SetEnd::OkPacket)?;
    for left in [0, 9, 5_000] {
        let rows = Failing {
            left,
            failed: false,
        };
        if !leave(alloc, rows, &mut chunks)? {
            return Ok(false);
        }
    }
    Ok(true)
}
