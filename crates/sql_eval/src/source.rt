//! Lends rows one at a time, so that a query copies only what it shows, and LIMIT ends a walk early.
ghost use Rattle.std.specs.Prelude.{◌≡◌, List, [], ◌∷◌, MatchOption, IfOk, OnOk, ◌≤◌, ◌^◌, length, filter, map, take, drop};
ghost use Rattle.vt_value.specs.declared.value.Value.{Value};
ghost use Rattle.aggregate.specs.Slices.{columns_of, sliced};
ghost use Rattle.sql_eval.specs.Conditions.{is_kept};
ghost use Rattle.sql_eval.specs.Grouping.{shown_ordinal};

use crate::conditions::keeps;
use crate::filters::Filter;
use crate::shown_rows::shown_row;
use sql_tree::{Condition, Item, LimitClause};
use std::alloc::{AllocError, Global};
use std::marker::Model;
use vt_value::{Items, Row, copy_row};

/// Lends rows, one at a time.
pub trait RowSource<'a>: Drop {
    // the rows that are still to come
    ghost to_come: { Self → List (List Value) };

    /// The next row, or `None` if no row is left. Takes no memory.
    fn next_row(&mut self) -> Option<&'a Row>
        ensures { MatchOption result
            ((to_come self.old ≡ []) × (to_come self.new ≡ []))
            (λ row. to_come self.old ≡ row.now ∷ to_come self.new) };
}

/// Rows of a slice that are still to come. Contracts see the rows.
#[derive(Drop)]
pub struct SliceRows<'a> {
    rows: &'a [Row],
}

impl<'a> Model for SliceRows<'a> {
    ghost use Rattle.std.specs.Prelude.{List};
    ghost use Rattle.vt_value.specs.declared.value.Value.{Value as V};

    ghost Value = { List (List V) };

    ghost view = { λ s. s.rows.now };
}

impl<'a> SliceRows<'a> {
    /// Lends these rows, in their order.
    pub fn new(rows: &'a [Row]) -> SliceRows<'a>
        ensures { result ≡ rows.now }
    {
        SliceRows { rows }
    }
}

impl<'a> RowSource<'a> for SliceRows<'a> {
    ghost to_come = { λ rows. rows };

    fn next_row(&mut self) -> Option<&'a Row> {
        match self.rows.split_first() {
            Some((row, rest)) => {
                self.rows = rest;
                Some(row)
            }
            None => None,
        }
    }
}

/// The next row whose condition is true, or `None` if none is left. Takes no memory.
pub fn next_kept<'a, S: RowSource<'a>>(
    condition: &Option<Condition<usize>>,
    rows: &mut S,
) -> Option<&'a Row>
    ensures { MatchOption result
        ((filter (is_kept condition.now) (S.to_come rows.old) ≡ []) × (S.to_come rows.new ≡ []))
        (λ row. filter (is_kept condition.now) (S.to_come rows.old) ≡ row.now ∷ filter (is_kept condition.now) (S.to_come rows.new)) }
{
    while let Some(row) = rows.next_row() {
        if keeps(condition, row) {
            return Some(row);
        }
    }
    None
}

/// The next row that a filter keeps, or `None` if none is left. Takes no memory.
pub fn next_passing<'a, S: RowSource<'a>>(condition: &Filter, rows: &mut S) -> Option<&'a Row>
    ensures { MatchOption result
        ((filter (is_kept condition.now) (S.to_come rows.old) ≡ []) × (S.to_come rows.new ≡ []))
        (λ row. filter (is_kept condition.now) (S.to_come rows.old) ≡ row.now ∷ filter (is_kept condition.now) (S.to_come rows.new)) }
{
    while let Some(row) = rows.next_row() {
        if condition.keeps(row) {
            return Some(row);
        }
    }
    None
}

/// How many rows there are whose condition is true. Takes no memory.
pub fn kept_count<'a, S: RowSource<'a>>(condition: &Filter, rows: S) -> u64
    requires { length (filter (is_kept condition.now) (S.to_come rows)) ≤ 2 ^ 60 }
    ensures { result ≡ length (filter (is_kept condition.now) (S.to_come rows)) }
{
    let mut rows = rows;
    let mut count = 0;
    while let Some(_row) = next_passing(condition, &mut rows) {
        count += 1;
    }
    count
}

fn all_passing<'a, S: RowSource<'a>>(
    alloc: Global,
    condition: &Filter,
    rows: S,
) -> Result<Items<Row>, AllocError>
    ensures ok { IfOk result (λ list. list ≡ filter (is_kept condition.now) (S.to_come rows)) }
{
    let mut rows = rows;
    let mut list = Items::new(alloc);
    while let Some(row) = next_passing(condition, &mut rows) {
        list.push(copy_row(alloc, row)?)?;
    }
    Ok(list)
}

/// Copies of the rows whose condition is true. Refuses only for want of memory.
pub fn all_kept<'a, S: RowSource<'a>>(
    alloc: Global,
    condition: &Option<Condition<usize>>,
    rows: S,
) -> Result<Items<Row>, AllocError>
    ensures ok { IfOk result (λ list. list ≡ filter (is_kept condition.now) (S.to_come rows)) }
{
    let filter = Filter::of(alloc, condition)?;
    all_passing(alloc, &filter, rows)
}

// Passes over so many of the rows whose condition is true, or over all if there are fewer.
fn pass_over<'a, S: RowSource<'a>>(condition: &Filter, rows: &mut S, count: u64)
    ensures { filter (is_kept condition.now) (S.to_come rows.new) ≡ drop count (filter (is_kept condition.now) (S.to_come rows.old)) }
{
    for _ in 0..count {
        let Some(_row) = next_passing(condition, rows) else {
            return;
        };
    }
}

// Of the first rows whose condition is true, at most so many, the columns that the items show. No row after the last of them is asked for.
fn first_shown<'a, S: RowSource<'a>>(
    alloc: Global,
    condition: &Filter,
    rows: &mut S,
    items: &[Item<usize>],
    count: u64,
) -> Result<Items<Row>, AllocError>
    ensures ok { IfOk result (λ list. list ≡ map (columns_of (map shown_ordinal items.now)) (take count (filter (is_kept condition.now) (S.to_come rows.old)))) }
    ensures rest { OnOk result (filter (is_kept condition.now) (S.to_come rows.new) ≡ drop count (filter (is_kept condition.now) (S.to_come rows.old))) }
{
    let mut list = Items::new(alloc);
    for _ in 0..count {
        let Some(row) = next_passing(condition, rows) else {
            break;
        };
        list.push(shown_row(alloc, items, row)?)?;
    }
    Ok(list)
}

// Of each row whose condition is true the columns that the items show.
fn all_shown<'a, S: RowSource<'a>>(
    alloc: Global,
    condition: &Filter,
    rows: &mut S,
    items: &[Item<usize>],
) -> Result<Items<Row>, AllocError>
    ensures ok { IfOk result (λ list. list ≡ map (columns_of (map shown_ordinal items.now)) (filter (is_kept condition.now) (S.to_come rows.old))) }
{
    let mut list = Items::new(alloc);
    while let Some(row) = next_passing(condition, rows) {
        list.push(shown_row(alloc, items, row)?)?;
    }
    Ok(list)
}

/// Of the rows whose condition is true those that `limit` leaves, each by the columns that the items show. No other row is copied, and none
/// after the last of them is asked for. Refuses only for want of memory.
pub fn shown<'a, S: RowSource<'a>>(
    alloc: Global,
    condition: &Filter,
    rows: S,
    limit: Option<LimitClause>,
    items: &[Item<usize>],
) -> Result<Items<Row>, AllocError>
    ensures ok { IfOk result (λ list. list ≡ map (columns_of (map shown_ordinal items.now)) (sliced limit (filter (is_kept condition.now) (S.to_come rows)))) }
{
    let mut rows = rows;
    match limit {
        Some(limit) => {
            pass_over(condition, &mut rows, limit.offset);
            first_shown(alloc, condition, &mut rows, items, limit.count)
        }
        None => all_shown(alloc, condition, &mut rows, items),
    }
}
