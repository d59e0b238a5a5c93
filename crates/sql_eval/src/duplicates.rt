//! Whether an INSERT has a primary key that is there already, or one twice.
ghost use Rattle.std.specs.Prelude.{◌≡◌, ◌||◌, IfOk, OnOk, IsPermutation, IsSorted, map};
ghost use Rattle.std.specs.List.{list_any};
ghost use Rattle.vt_value.specs.Values.{value_at, value_cmp};
ghost use Rattle.vschema.specs.Schema.{key_of};
ghost use Rattle.vschema.specs.Database.{same_row};
ghost use Rattle.sql_eval.specs.Writes.{has_duplicate};
ghost use Rattle.sql_eval.specs.KeyOrder.{on_lent, key_cmp};
ghost use Rattle.sql_eval.specs.inner.Keys.{is_twin, has_twins, shares_key};

use crate::rows::{has_key, same_key, value_at};
use std::alloc::{AllocError, Global};
use std::cmp::Ordering;
use vschema::Table;
use vt_value::{Row, Value, sort_order};

/// So many rows are compared pair by pair, which takes no memory.
const FEW: usize = 4;

fn has_duplicate_pair(table: &Table, rows: &[Row], new: &[Row]) -> bool
    ensures { result ≡ has_duplicate table.now rows.now new.now }
{
    for (i, row) in new.iter().enumerate() {
        if has_key(table, rows, row) || has_key(table, &new[..i], row) {
            return true;
        }
    }
    false
}

fn order_at(a: &Row, b: &Row, ordinal: usize) -> Ordering
    ensures { result ≡ value_cmp (value_at a.now ordinal) (value_at b.now ordinal) }
{
    let null = Value::Null;
    sort_order(value_at(a, ordinal, &null), value_at(b, ordinal, &null))
}

/// The order of two rows by their primary keys.
fn key_order(table: &Table, a: &Row, b: &Row) -> Ordering
    ensures { result ≡ key_cmp table.now a.now b.now }
{
    for ordinal in table.primary_key.as_slice() {
        let order = order_at(a, b, *ordinal);
        if order.is_ne() {
            return order;
        }
    }
    Ordering::Equal
}

fn lent(alloc: Global, rows: &[Row]) -> Result<Vec<&Row>, AllocError>
    ensures ok { IfOk result (λ list. map (λ row. row.now) list.items ≡ rows.now) }
{
    let mut list = Vec::with_capacity(alloc, rows.len())?;
    for row in rows {
        list.push(row)?;
    }
    Ok(list)
}

fn sort(rows: &mut Vec<&Row>, table: &Table) -> Result<(), AllocError>
    ensures permutation { IsPermutation rows.old.items rows.new.items }
    ensures sorted { OnOk result (IsSorted (on_lent (key_cmp table.now)) rows.new.items) }
{
    rows.sort_by(|a, b| key_order(table, a, b))?;
    Ok(())
}

/// The rows in the order of their primary keys. None is copied. Refuses only for want of memory.
pub fn in_key_order<'r>(
    alloc: Global,
    table: &Table,
    rows: &'r [Row],
) -> Result<Vec<&'r Row>, AllocError>
    ensures permutation { IfOk result (λ list. IsPermutation rows.now (map (λ row. row.now) list.items)) }
    ensures sorted { IfOk result (λ list. IsSorted (on_lent (key_cmp table.now)) list.items) }
{
    let mut list = lent(alloc, rows)?;
    match sort(&mut list, table) {
        Ok(()) => Ok(list),
        Err(e) => Err(e),
    }
}

/// Whether a row has the key of the first of those after it.
fn is_twin(table: &Table, row: &Row, trailing: &[&Row]) -> bool
    ensures { result ≡ is_twin table.now row.now (map (λ r. r.now) trailing.now) }
{
    match trailing.first() {
        Some(next) => same_key(table, row, next),
        None => false,
    }
}

/// Whether two neighbours have one key.
fn has_twins(table: &Table, rows: &[&Row]) -> bool
    ensures { result ≡ has_twins table.now (map (λ row. row.now) rows.now) }
{
    for (i, row) in rows.iter().enumerate() {
        if is_twin(table, row, &rows[i + 1..]) {
            return true;
        }
    }
    false
}

/// Whether a row's primary key is among those of rows that are in the order of theirs. Takes no memory.
pub fn has_key_among(table: &Table, sorted: &[&Row], row: &Row) -> bool
    requires { IsSorted (on_lent (key_cmp table.now)) sorted.now }
    ensures { result ≡ list_any (λ r. same_row (key_of table.now r) (key_of table.now row.now)) (map (λ r. r.now) sorted.now) }
{
    sorted
        .binary_search_by(|other| key_order(table, other, row))
        .is_ok()
}

fn shares_key(table: &Table, sorted: &[&Row], rows: &[Row]) -> bool
    requires { IsSorted (on_lent (key_cmp table.now)) sorted.now }
    ensures { result ≡ shares_key table.now (map (λ r. r.now) sorted.now) rows.now }
{
    for row in rows {
        if has_key_among(table, sorted, row) {
            return true;
        }
    }
    false
}

fn has_duplicate_in_order(table: &Table, sorted: &[&Row], rows: &[Row]) -> bool
    requires { IsSorted (on_lent (key_cmp table.now)) sorted.now }
    ensures { result ≡ (has_twins table.now (map (λ r. r.now) sorted.now) || shares_key table.now (map (λ r. r.now) sorted.now) rows.now) }
{
    has_twins(table, sorted) || shares_key(table, sorted, rows)
}

/// Whether a new row has the primary key of a row that is there, or of another new one. Refuses only for want of memory.
pub fn has_duplicate(
    alloc: Global,
    table: &Table,
    rows: &[Row],
    new: &[Row],
) -> Result<bool, AllocError>
    ensures ok { IfOk result (λ has. has ≡ has_duplicate table.now rows.now new.now) }
{
    if new.len() <= FEW {
        return Ok(has_duplicate_pair(table, rows, new));
    }
    match in_key_order(alloc, table, new) {
        Ok(sorted) => Ok(has_duplicate_in_order(table, sorted.as_slice(), rows)),
        Err(e) => Err(e),
    }
}
