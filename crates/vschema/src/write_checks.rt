//! What is refused of a write: rows of another length, values outside their column's type, and changes of a key.
ghost use Rattle.std.specs.Prelude.{◌≡◌, ◌==◌, not, ◌&&◌, map, zip, flat_map, length, bytes_eq};
ghost use Rattle.std.specs.List.{list_any};
ghost use Rattle.vschema.specs.Resolved.{ordinals_from};
ghost use Rattle.vschema.specs.Checks.{is_unknown, has_number};
ghost use Rattle.vschema.specs.WriteChecks.{with_column, is_out_of_range, is_too_long, is_key_column};
ghost use Rattle.vschema.specs.inner.StoredChecks.{fails};

use crate::checks::{differ, has_number, is_text_type, value_is_text};
use crate::names::is_unknown;
use crate::schema::Table;
use sql_tree::{Assignment, Name};
use vschema_json::{Column, ColumnType};
use vt_value::{Items, Value};

/// What is asked of each value that is stored.
#[derive(Clone, Copy, Debug, PartialEq, Eq)]
pub enum StoredCheck {
    OtherKind,
    WrongNull,
    OutOfRange,
    TooLong,
    /// One of the last three.
    Unfit,
}

/// Whether a row has another number of values than these.
pub fn has_wrong_count(ordinals: &[usize], rows: &[Items<Value>]) -> bool
    ensures { result ≡ list_any (λ row. not (length row == length ordinals.now)) rows.now }
{
    rows.iter().any(|row| row.len() != ordinals.len())
}

/// Whether SET names a column that the table doesn't have.
pub fn sets_unknown(table: &Table, assignments: &[Assignment<Name>]) -> bool
    ensures { result ≡ list_any (λ a. is_unknown table.now a.column) assignments.now }
{
    assignments.iter().any(|a| is_unknown(table, &a.column))
}

// Promise: A number lies outside its column's type, and a text is longer than its column, as written
// With: is_too_long
/// Whether a number lies outside its column's type.
pub fn is_out_of_range(kind: ColumnType, value: &Value) -> bool
    ensures { result ≡ is_out_of_range kind value.now }
{
    match (kind, value) {
        (ColumnType::BigInt, Value::Int(n)) => {
            *n < -9_223_372_036_854_775_808 || 9_223_372_036_854_775_807 < *n
        }
        (ColumnType::BigIntUnsigned, Value::Int(n)) => *n < 0 || 18_446_744_073_709_551_615 < *n,
        _ => false,
    }
}

/// Whether a text is longer than its column holds.
pub fn is_too_long(kind: ColumnType, value: &Value) -> bool
    ensures { result ≡ is_too_long kind value.now }
{
    match (kind, value) {
        (ColumnType::VarBinary(most), Value::Bytes(text)) => usize::from(most) < text.len(),
        _ => false,
    }
}

fn fails(check: StoredCheck, column: &Column, value: &Value) -> bool
    ensures { result ≡ fails check (column.now, value.now) }
{
    match check {
        StoredCheck::OtherKind => differ(Some(is_text_type(column.kind)), value_is_text(value)),
        StoredCheck::WrongNull => matches!(value, Value::Null) && !column.nullable,
        StoredCheck::OutOfRange => is_out_of_range(column.kind, value),
        StoredCheck::TooLong => is_too_long(column.kind, value),
        StoredCheck::Unfit => {
            matches!(value, Value::Null) && !column.nullable
                || is_out_of_range(column.kind, value)
                || is_too_long(column.kind, value)
        }
    }
}

fn value_fails(check: StoredCheck, table: &Table, ordinal: usize, value: &Value) -> bool
    ensures { result ≡ list_any (fails check) (with_column table.now ordinal value.now) }
{
    match table.columns.as_slice().get(ordinal) {
        Some(column) => fails(check, column, value),
        None => false,
    }
}

fn row_fails(check: StoredCheck, table: &Table, ordinals: &[usize], row: &[Value]) -> bool
    ensures { result ≡ list_any (fails check) (flat_map (λ p. with_column table.now p.0 p.1) (zip ordinals.now row.now)) }
{
    let [ordinal, ordinals @ ..] = ordinals else {
        return false;
    };
    let [value, row @ ..] = row else {
        return false;
    };
    value_fails(check, table, *ordinal, value) || row_fails(check, table, ordinals, row)
}

/// Whether a value of a row fails, each with the column at its ordinal.
pub fn rows_fail(
    check: StoredCheck,
    table: &Table,
    ordinals: &[usize],
    rows: &[Items<Value>],
) -> bool
    ensures { result ≡ list_any (fails check) (flat_map (λ row. flat_map (λ p. with_column table.now p.0 p.1) (zip ordinals.now row)) rows.now) }
{
    for row in rows {
        if row_fails(check, table, ordinals, row.as_slice()) {
            return true;
        }
    }
    false
}

/// Whether a value that SET stores fails.
pub fn assignments_fail(
    check: StoredCheck,
    table: &Table,
    assignments: &[Assignment<usize>],
) -> bool
    ensures { result ≡ list_any (fails check) (flat_map (λ a. with_column table.now a.column a.value) assignments.now) }
{
    for a in assignments {
        if value_fails(check, table, a.column, &a.value) {
            return true;
        }
    }
    false
}

/// Whether a NOT NULL column isn't at one of these ordinals.
pub fn leaves_out_column(table: &Table, ordinals: &[usize]) -> bool
    ensures { result ≡ list_any (λ p. not p.1.nullable && not (has_number ordinals.now p.0))
        (zip (ordinals_from 0 table.now.columns) table.now.columns) }
{
    for (ordinal, column) in table.columns.as_slice().iter().enumerate() {
        if !column.nullable && !has_number(ordinals, ordinal) {
            return true;
        }
    }
    false
}

fn is_key_column(table: &Table, ordinal: usize) -> bool
    ensures { result ≡ is_key_column table.now ordinal }
{
    has_number(table.primary_key.as_slice(), ordinal)
        || match table.vindex {
            Some(vindex) => vindex.column == ordinal,
            None => false,
        }
}

/// Whether SET sets a column of the primary key, or the vindex column.
pub fn sets_key(table: &Table, assignments: &[Assignment<usize>]) -> bool
    ensures { result ≡ list_any (λ a. is_key_column table.now a.column) assignments.now }
{
    assignments.iter().any(|a| is_key_column(table, a.column))
}
