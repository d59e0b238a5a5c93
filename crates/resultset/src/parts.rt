//! What the packets of a result set carry, one each.
ghost use Rattle.std.specs.Prelude.{◌≡◌, ◌+◌, ◌≤◌, ◌++◌, length, OnOk};
ghost use Rattle.resultset.specs.inner.Parts.{part_payload};

use crate::binary_rows::put_binary_row;
use crate::writing::{put_definition, put_row};
use crate::{Column, Kind};
use bytes::BytesMut;
use std::alloc::AllocError;
use vt_value::Value;

/// What a packet of a result set carries whose length isn't known before it is written.
#[derive(Clone, Copy)]
pub(crate) enum Part<'a> {
    Definition(&'a Column<'a>),
    Row(&'a [Value]),
    /// A row as a prepared statement gives it, by the kinds of its columns.
    BinaryRow(&'a [Kind], &'a [Value]),
}

/// The room that is made for a header.
const HEADER_ROOM: usize = 16;

/// The room that is made for a header, the fixed fields of a definition and the lengths of its names.
const DEFINITION_ROOM: usize = 72;

/// The bytes that a number takes at most, with its length: its sign and 39 digits. In a binary row it has fewer.
const NUMBER_ROOM: usize = 41;

/// The bytes that the length of a text takes at most.
const LENGTH_ROOM: usize = 9;

// How many bytes a row takes at most, with its header.
fn row_room(row: &[Value]) -> usize {
    let mut room = HEADER_ROOM;
    for value in row {
        let more = match value {
            Value::Null => 1,
            Value::Int(_) => NUMBER_ROOM,
            Value::Bytes(text) => text.len().saturating_add(LENGTH_ROOM),
        };
        room = room.saturating_add(more);
    }
    room
}

// How many bytes a definition takes at most, with its header.
fn definition_room(column: &Column) -> usize {
    let schema = column.schema.as_slice().len();
    let table = column.table.as_slice().len().saturating_mul(2);
    let name = column.name.as_slice().len();
    let org_name = column.org_name.as_slice().len();
    let names = schema.saturating_add(table);
    let of_column = name.saturating_add(org_name);
    names
        .saturating_add(of_column)
        .saturating_add(DEFINITION_ROOM)
}

impl<'a> Part<'a> {
    /// How many bytes its packet takes at most.
    pub(crate) fn room(&self) -> usize {
        match self {
            Part::Row(row) => row_room(row),
            Part::BinaryRow(_, row) => row_room(row).saturating_add(row.len()),
            Part::Definition(column) => definition_room(column),
        }
    }

    /// Appends its payload.
    #[inline(always)]
    pub(crate) fn put(&self, out: &mut BytesMut) -> Result<(), AllocError>
        ensures ok { OnOk result (out.new.items ≡ out.old.items ++ part_payload self.now) }
        ensures capacity { length out.old.items + out.old.spare ≤ length out.new.items + out.new.spare }
    {
        match self {
            Part::Row(row) => put_row(row, out),
            Part::BinaryRow(kinds, row) => put_binary_row(kinds, row, out),
            Part::Definition(column) => put_definition(column, out),
        }
    }
}
