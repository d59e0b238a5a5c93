//! Result sets whose rows are pulled.
ghost use Rattle.std.specs.Prelude.{◌≡◌, ◌+◌, ◌<◌, ◌≤◌, ◌++◌, length, map, IfOk, OnErr, OnOk};
ghost use Rattle.std.specs.List.{concat};
ghost use Rattle.mysql_packet.specs.Numbers.{length_encoded};
ghost use Rattle.mysql_packet.specs.Frames.{frame, frames_from, number_after, number_after_all};
ghost use Rattle.resultset.specs.Chunks.{AreChunks};
ghost use Rattle.resultset.specs.Encoding.{row_payload, definition_payload, after_definitions, after_rows, set_payloads, payloads_of, encoded};
ghost use Rattle.resultset.specs.inner.Heads.{head_payloads};
ghost use Rattle.resultset.specs.inner.Parts.{part_payload};

use crate::chunks::{CHUNK_LIMIT, Chunks, Filling, LAST_ROOM};
use crate::parts::Part;
use crate::straight::has_short_names;
use crate::{Column, Outcome, SetEnd};
use bytes::BytesMut;
use mysql_message::numbers::length_encoded;
use mysql_message::{eof_payload, set_end_payload};
use mysql_packet::put_payload;
use operators::Operator;
use std::alloc::{AllocError, Global};
use std::mem;

// Promise: A result set whose rows are pulled, each encoded as it comes and then dropped, is appended in that spelling, in chunks of at
// most 16,384 bytes of which none is empty; if memory is refused, also to a row that is pulled, the chunks are as they were
/// Appends the packets of the result set with these columns and with the rows that are still to come, the first with this sequence
/// number, and gives the number after the last. Each row is encoded as it is pulled, and then dropped. It refuses only for want of memory,
/// also if pulling a row does, and then leaves the stream as it was.
/// A set's parts are handed over one by one, since its rows are still to be pulled.
pub fn encode_rows<R: Operator>(
    alloc: Global,
    columns: &[Column],
    rows: R,
    number: u8,
    status: u16,
    end: SetEnd,
    out: &mut Chunks,
) -> Result<u8, AllocError>
    ensures ok { OnOk result (concat out.new
        ≡ concat out.old ++ encoded end (Outcome.Rows (record { columns = columns.now; rows = R.to_come rows })) number status) }
    ensures next { IfOk result (λ n. n
        ≡ number_after_all number (payloads_of end (Outcome.Rows (record { columns = columns.now; rows = R.to_come rows })) status)) }
    // Each chunk has at most 16,384 bytes, and none is empty.
    ensures chunks { OnOk result (AreChunks out.new) }
    ensures err { OnErr result (out.new ≡ out.old) }
{
    let mut rows = rows;
    let mut filling = Filling::new(alloc)?;
    let next = fill(alloc, columns, &mut rows, number, status, end, &mut filling)?;
    out.append(filling)?;
    Ok(next)
}

// Promise: A result set whose rows are pulled is appended to the bytes in a buffer, in that spelling, of which the buffer keeps the last and the
// full chunks before them are given; the buffer has the room for a refusal again, whatever happened
/// Appends the packets of such a result set to the bytes in a buffer, which keeps the last of them, and gives the full chunks before those. Few
/// result sets have any, so a short one takes no memory of its own. Refuses only for want of memory, and the buffer may then have any bytes.
/// A set's parts are handed over one by one, since its rows are still to be pulled.
pub fn encode_rows_after<R: Operator>(
    alloc: Global,
    columns: &[Column],
    rows: R,
    number: u8,
    status: u16,
    end: SetEnd,
    last: &mut BytesMut,
) -> Result<Chunks, AllocError>
    requires within { length last.old.items ≤ CHUNK_LIMIT }
    requires room { LAST_ROOM ≤ length last.old.items + last.old.spare }
    ensures ok { IfOk result (λ chunks. concat chunks ++ last.new.items
        ≡ last.old.items ++ encoded end (Outcome.Rows (record { columns = columns.now; rows = R.to_come rows })) number status) }
    // Each chunk has at most 16,384 bytes, and none is empty.
    ensures chunks { IfOk result (λ chunks. AreChunks chunks) }
    ensures within { length last.new.items ≤ CHUNK_LIMIT }
    // It has the least room again, whatever happened.
    ensures room { LAST_ROOM ≤ length last.new.items + last.new.spare }
{
    let mut pulled = rows;
    let mut filling = Filling::over(alloc, mem::replace(last, BytesMut::new(alloc)));
    let filled = fill(
        alloc,
        columns,
        &mut pulled,
        number,
        status,
        end,
        &mut filling,
    );
    let (chunks, rest) = filling.split();
    *last = rest;
    match filled {
        Ok(_next) => Ok(chunks),
        Err(refusal) => Err(refusal),
    }
}

/// Appends the packets of a result set, whose parts are handed over one by one, since its rows are still to be pulled.
fn fill<R: Operator>(
    alloc: Global,
    columns: &[Column],
    rows: &mut R,
    number: u8,
    status: u16,
    end: SetEnd,
    filling: &mut Filling,
) -> Result<u8, AllocError>
    ensures ok { OnOk result (filling.new
        ≡ filling.old ++ frames_from number (set_payloads end (record { columns = columns.now; rows = R.to_come rows.old }) status)) }
    ensures next { IfOk result (λ n. n
        ≡ number_after_all number (set_payloads end (record { columns = columns.now; rows = R.to_come rows.old }) status)) }
{
    let number = fill_head(alloc, columns, number, status, end, filling)?;
    let number = fill_rows(alloc, rows, number, filling)?;
    fill_rows_end(alloc, number, status, end, filling)
}

/// Appends the packets of a part that the present chunk has no room for.
#[inline(never)]
fn fill_long(
    alloc: Global,
    part: &Part,
    number: u8,
    filling: &mut Filling,
) -> Result<u8, AllocError>
    ensures ok { OnOk result (filling.new ≡ filling.old ++ frame number (part_payload part.now)) }
    ensures next { IfOk result (λ n. n ≡ number_after number (part_payload part.now)) }
{
    let mut payload = BytesMut::new(alloc);
    part.put(&mut payload)?;
    let mut packets = BytesMut::new(alloc);
    let next = put_payload(number, payload.as_slice(), &mut packets)?;
    filling.append(alloc, packets.as_slice())?;
    Ok(next)
}

/// Appends the packets of a part: straight to the present chunk if this has room for them.
pub(crate) fn fill_part(
    alloc: Global,
    part: &Part,
    number: u8,
    filling: &mut Filling,
) -> Result<u8, AllocError>
    ensures ok { OnOk result (filling.new ≡ filling.old ++ frame number (part_payload part.now)) }
    ensures next { IfOk result (λ n. n ≡ number_after number (part_payload part.now)) }
{
    if filling.put_part(number, part)? {
        return Ok(number.wrapping_add(1));
    }
    fill_long(alloc, part, number, filling)
}

/// Appends the packet of a short payload.
#[inline(always)]
pub(crate) fn fill_short(
    alloc: Global,
    payload: &[u8],
    number: u8,
    filling: &mut Filling,
) -> Result<u8, AllocError>
    requires { length payload.now < 256 }
    ensures ok { OnOk result (filling.new ≡ filling.old ++ frame number payload.now) }
    ensures next { IfOk result (λ n. n ≡ number_after number payload.now) }
{
    match filling.put_short(alloc, number, payload) {
        Ok(()) => Ok(number.wrapping_add(1)),
        Err(refusal) => Err(refusal),
    }
}

/// Appends the packet of the number of columns.
fn fill_count(
    alloc: Global,
    count: usize,
    number: u8,
    filling: &mut Filling,
) -> Result<u8, AllocError>
    ensures ok { OnOk result (filling.new ≡ filling.old ++ frame number (length_encoded count)) }
    ensures next { IfOk result (λ n. n ≡ number_after number (length_encoded count)) }
{
    if count < 251 {
        return fill_short(alloc, &[count as u8], number, filling);
    }
    fill_short(
        alloc,
        length_encoded(count as u64).as_slice(),
        number,
        filling,
    )
}

/// Appends the packets of a definition: most have short names.
fn fill_definition(
    alloc: Global,
    column: &Column,
    number: u8,
    filling: &mut Filling,
) -> Result<u8, AllocError>
    ensures ok { OnOk result (filling.new ≡ filling.old ++ frame number (definition_payload column.now)) }
    ensures next { IfOk result (λ n. n ≡ number_after number (definition_payload column.now)) }
{
    if !has_short_names(column) || !filling.put_definition(number, column)? {
        return fill_part(alloc, &Part::Definition(column), number, filling);
    }
    Ok(number.wrapping_add(1))
}

/// Appends a packet for each definition.
pub(crate) fn fill_definitions(
    alloc: Global,
    columns: &[Column],
    number: u8,
    filling: &mut Filling,
) -> Result<u8, AllocError>
    ensures ok { OnOk result (filling.new ≡ filling.old ++ frames_from number (map definition_payload columns.now)) }
    ensures next { IfOk result (λ n. n ≡ number_after_all number (map definition_payload columns.now)) }
{
    let mut next = number;
    for column in columns {
        next = fill_definition(alloc, column, next, filling)?;
    }
    Ok(next)
}

/// Appends what comes after the definitions.
pub(crate) fn fill_definitions_end(
    alloc: Global,
    number: u8,
    status: u16,
    end: SetEnd,
    filling: &mut Filling,
) -> Result<u8, AllocError>
    ensures ok { OnOk result (filling.new ≡ filling.old ++ frames_from number (after_definitions end status)) }
    ensures next { IfOk result (λ n. n ≡ number_after_all number (after_definitions end status)) }
{
    match end {
        SetEnd::EofPackets => fill_short(alloc, &eof_payload(status), number, filling),
        SetEnd::OkPacket => Ok(number),
    }
}

/// Appends what comes after the rows.
pub(crate) fn fill_rows_end(
    alloc: Global,
    number: u8,
    status: u16,
    end: SetEnd,
    filling: &mut Filling,
) -> Result<u8, AllocError>
    ensures ok { OnOk result (filling.new ≡ filling.old ++ frame number (after_rows end status)) }
    ensures next { IfOk result (λ n. n ≡ number_after number (after_rows end status)) }
{
    match end {
        SetEnd::EofPackets => fill_short(alloc, &eof_payload(status), number, filling),
        SetEnd::OkPacket => fill_short(alloc, &set_end_payload(status), number, filling),
    }
}

/// Appends what stands in front of the rows.
pub(crate) fn fill_head(
    alloc: Global,
    columns: &[Column],
    number: u8,
    status: u16,
    end: SetEnd,
    filling: &mut Filling,
) -> Result<u8, AllocError>
    ensures ok { OnOk result (filling.new ≡ filling.old ++ frames_from number (head_payloads end columns.now status)) }
    ensures next { IfOk result (λ n. n ≡ number_after_all number (head_payloads end columns.now status)) }
{
    let number = fill_count(alloc, columns.len(), number, filling)?;
    let number = fill_definitions(alloc, columns, number, filling)?;
    fill_definitions_end(alloc, number, status, end, filling)
}

/// Appends a packet for each row that is still to come.
fn fill_rows<R: Operator>(
    alloc: Global,
    rows: &mut R,
    number: u8,
    filling: &mut Filling,
) -> Result<u8, AllocError>
    ensures ok { OnOk result (filling.new ≡ filling.old ++ frames_from number (map row_payload (R.to_come rows.old))) }
    ensures next { IfOk result (λ n. n ≡ number_after_all number (map row_payload (R.to_come rows.old))) }
{
    let mut next = number;
    while let Some(row) = rows.next(alloc)? {
        next = fill_part(alloc, &Part::Row(row.as_slice()), next, filling)?;
    }
    Ok(next)
}
