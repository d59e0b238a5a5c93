//! ORDER BY: the order of two rows by sort keys, and sorting by it.
ghost use Rattle.std.specs.Prelude.{◌≡◌, IsPermutation, IsSorted, IfOk, OnOk};
ghost use Rattle.vt_value.specs.Values.{value_at};
ghost use Rattle.operators.specs.Orders.{value_order, row_cmp};

use crate::stored::into_vec;
use sql_tree::Key;
use std::alloc::{AllocError, Global};
use std::cmp::Ordering;
use vt_value::{Items, Row, Value, sort_order};

fn at<'a>(row: &'a Row, ordinal: usize, null: &'a Value) -> &'a Value
    requires { null.now ≡ Value.Null }
    ensures { result.now ≡ value_at row.now ordinal }
{
    match row.as_slice().get(ordinal) {
        Some(value) => value,
        None => null,
    }
}

fn compare_key(key: &Key<usize>, a: &Row, b: &Row) -> Ordering
    ensures { result ≡ value_order key.now (value_at a.now key.now.column) (value_at b.now key.now.column) }
{
    let null = Value::Null;
    let order = sort_order(at(a, key.column, &null), at(b, key.column, &null));
    if key.descending {
        order.reverse()
    } else {
        order
    }
}

// Promise: Rows are compared and sorted by sort keys, shown by their columns, and taken from an operator
// With: sort_rows, project_row, collect
/// The order of two rows by sort keys, the first key first. NULL is first ascending and last descending.
pub fn compare_rows(keys: &[Key<usize>], a: &Row, b: &Row) -> Ordering
    ensures { result ≡ row_cmp keys.now a.now b.now }
{
    for key in keys {
        let order = compare_key(key, a, b);
        if order.is_ne() {
            return order;
        }
    }
    Ordering::Equal
}

fn sort(rows: &mut Vec<Row>, keys: &[Key<usize>]) -> Result<(), AllocError>
    ensures permutation { IsPermutation rows.old.items rows.new.items }
    ensures sorted { OnOk result (IsSorted (row_cmp keys.now) rows.new.items) }
{
    rows.sort_by(|a, b| compare_rows(keys, a, b))?;
    Ok(())
}

/// The rows in an order that the keys allow. Refuses only for want of memory.
pub fn sort_rows(
    alloc: Global,
    rows: Items<Row>,
    keys: &[Key<usize>],
) -> Result<Items<Row>, AllocError>
    ensures permutation { IfOk result (λ arranged. IsPermutation rows arranged) }
    ensures sorted { IfOk result (λ arranged. IsSorted (row_cmp keys.now) arranged) }
{
    if rows.len() < 2 {
        return Ok(rows);
    }
    let mut list = into_vec(alloc, rows)?;
    sort(&mut list, keys)?;
    Ok(Items::from_vec(list))
}
