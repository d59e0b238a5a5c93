//! Aggregates over all rows: one running value for each.
ghost use Rattle.std.specs.Prelude.{◌≡◌, ◌++◌, ◌∷◌, [], List, pos, length, OnOk, IfOk, filter};
ghost use Rattle.vt_value.specs.Values.{Row as Line};
ghost use Rattle.sql_eval.specs.Conditions.{is_kept};
ghost use Rattle.sql_eval.specs.Groups.{CanBeSummed};
ghost use Rattle.sql_eval.specs.inner.Parts.{one_of, row_part};
ghost use Rattle.sql_eval.specs.inner.Totals.{total_of, totals_of};

use crate::filters::Filter;
use crate::rows::value_at;
use crate::source::{RowSource, next_passing};
use aggregate::{add_part, empty_part};
use sql_tree::Item;
use std::alloc::{AllocError, Global};
use vt_value::{Items, Row, Value};

// The part of COUNT of a column that a value is.
fn count_part<'a>(value: &Value, zero: &'a Value, one: &'a Value) -> &'a Value
    requires zero { zero.now ≡ Value.Int (pos 0) }
    requires one { one.now ≡ Value.Int (pos 1) }
    ensures { result.now ≡ one_of value.now }
{
    match value {
        Value::Null => zero,
        _ => one,
    }
}

// The part of an aggregate that a row is, where it lies: the row's value, or one of those that are given.
fn part_at<'a>(
    row: &'a Row,
    aggregate: &Item<usize>,
    null: &'a Value,
    zero: &'a Value,
    one: &'a Value,
) -> &'a Value
    requires null { null.now ≡ Value.Null }
    requires zero { zero.now ≡ Value.Int (pos 0) }
    requires one { one.now ≡ Value.Int (pos 1) }
    ensures { result.now ≡ row_part row.now aggregate.now }
{
    match aggregate {
        Item::Column(_) => null,
        Item::CountRows => one,
        Item::Count(ordinal) => count_part(value_at(row, *ordinal, null), zero, one),
        Item::Sum(ordinal) | Item::Min(ordinal) | Item::Max(ordinal) => {
            value_at(row, *ordinal, null)
        }
    }
}

// Joins a row to what an aggregate gives of those before it.
fn add_to(
    alloc: Global,
    aggregate: &Item<usize>,
    total: &mut Value,
    row: &Row,
) -> Result<(), AllocError>
    requires { (rows : List Line) × (total.old ≡ total_of rows aggregate.now) × CanBeSummed (rows ++ row.now ∷ []) }
    ensures ok { OnOk result ((rows : List Line) → total.old ≡ total_of rows aggregate.now → total.new ≡ total_of (rows ++ row.now ∷ []) aggregate.now) }
{
    let null = Value::Null;
    let zero = Value::Int(0);
    let one = Value::Int(1);
    add_part(
        alloc,
        aggregate,
        total,
        part_at(row, aggregate, &null, &zero, &one),
    )
}

// Joins a row to what each aggregate gives of those before it.
fn add_row(
    alloc: Global,
    aggregates: &[Item<usize>],
    totals: &mut [Value],
    row: &Row,
) -> Result<(), AllocError>
    requires { (rows : List Line) × (totals.old ≡ totals_of aggregates.now rows) × CanBeSummed (rows ++ row.now ∷ []) }
    ensures ok { OnOk result ((rows : List Line) → totals.old ≡ totals_of aggregates.now rows → totals.new ≡ totals_of aggregates.now (rows ++ row.now ∷ [])) }
    ensures each { OnOk result (length totals.new ≡ length totals.old) }
{
    for i in 0..aggregates.len() {
        add_to(alloc, &aggregates[i], &mut totals[i], row)?;
    }
    Ok(())
}

// What each aggregate gives of no rows.
fn empty_totals(alloc: Global, aggregates: &[Item<usize>]) -> Result<Vec<Value>, AllocError>
    ensures ok { IfOk result (λ totals. totals.items ≡ totals_of aggregates.now []) }
{
    let mut totals = Vec::with_capacity(alloc, aggregates.len())?;
    for aggregate in aggregates {
        totals.push(empty_part(aggregate))?;
    }
    Ok(totals)
}

/// What each aggregate gives of the rows that a filter keeps. No row is copied, and only values of MIN and MAX are. Refuses only for want of memory.
pub fn totals<'a, S: RowSource<'a>>(
    alloc: Global,
    condition: &Filter,
    rows: S,
    aggregates: &[Item<usize>],
) -> Result<Row, AllocError>
    requires { CanBeSummed (filter (is_kept condition.now) (S.to_come rows)) }
    ensures ok { IfOk result (λ row. row ≡ totals_of aggregates.now (filter (is_kept condition.now) (S.to_come rows))) }
{
    let mut rows = rows;
    let mut totals = empty_totals(alloc, aggregates)?;
    while let Some(row) = next_passing(condition, &mut rows) {
        add_row(alloc, aggregates, totals.as_mut_slice(), row)?;
    }
    Ok(Items::from_vec(totals))
}
