//! What a query gives over the rows of one table. Groups, order and LIMIT each have a way of their own, so that no more rows are copied than are
//! shown.
ghost use Rattle.std.specs.Prelude.{◌≡◌, ◌≤◌, ◌^◌, ◌∷◌, [], List, IsTrue, IsSorted, length, pos, IfOk, IfSome, map, filter, true, false};
ghost use Rattle.std.specs.List.{list_all};
ghost use Rattle.vt_value.specs.Values.{Row as Line};
ghost use Rattle.vschema.specs.Checks.{is_aggregated};
ghost use Rattle.aggregate.specs.Orders.{row_cmp};
ghost use Rattle.aggregate.specs.Slices.{columns_of};
ghost use Rattle.sql_eval.specs.Conditions.{is_kept};
ghost use Rattle.sql_eval.specs.Groups.{CanBeSummed};
ghost use Rattle.sql_eval.specs.Grouping.{shown_ordinal, group_columns, group_order, IsSortedSlice};
ghost use Rattle.sql_eval.specs.Counts.{is_count_rows, CountsAll};
ghost use Rattle.sql_eval.specs.inner.Parts.{grouped_rows, counted_row};
ghost use Rattle.sql_eval.specs.inner.Totals.{totals_of};
ghost use Rattle.sql_eval.specs.inner.Fronts.{IsWithin};
ghost use Rattle.sql_eval.specs.Queries.{IsAnswer};

use crate::filters::Filter;
use crate::groups::{Grouping, Parts, group_columns, group_order, shown_ordinal};
use crate::ordered::{ordered, ordered_front};
use crate::source::{RowSource, SliceRows, kept_count, shown};
use crate::totals::totals;
use aggregate::{Limit, Project, Rows, collect, project_row, shows_whole, sort_rows};
use sql_tree::{Condition, Item, Key};
use std::alloc::{AllocError, Global};
use vschema::Query;
use vt_value::{Items, Row, Value};

/// The columns that items show, by their ordinals, 0 for an aggregate.
pub fn shown_ordinals(alloc: Global, items: &[Item<usize>]) -> Result<Items<usize>, AllocError>
    ensures ok { IfOk result (λ ordinals. ordinals ≡ map shown_ordinal items.now) }
{
    let mut ordinals = Items::new(alloc);
    for item in items {
        ordinals.push(shown_ordinal(item))?;
    }
    Ok(ordinals)
}

/// The rows by the columns at these ordinals, each copied.
fn project_rows(alloc: Global, rows: &[Row], ordinals: &[usize]) -> Result<Items<Row>, AllocError>
    ensures ok { IfOk result (λ list. list ≡ map (columns_of ordinals.now) rows.now) }
{
    let mut list = Items::new(alloc);
    for row in rows {
        list.push(project_row(alloc, ordinals, row)?)?;
    }
    Ok(list)
}

/// Whether each row is shown as it is.
fn are_whole(ordinals: &[usize], rows: &[Row]) -> bool
    ensures { IsTrue result → map (columns_of ordinals.now) rows.now ≡ rows.now }
{
    for row in rows {
        if !shows_whole(ordinals, row) {
            return false;
        }
    }
    true
}

/// What is shown of rows: the slice that `limit` leaves of them in an order that the keys allow, each by the columns at these ordinals.
/// Refuses only for want of memory.
pub fn show(
    alloc: Global,
    rows: Items<Row>,
    keys: &[Key<usize>],
    limit: Option<sql_tree::LimitClause>,
    ordinals: Items<usize>,
) -> Result<Items<Row>, AllocError>
    ensures ok { IfOk result (IsSortedSlice keys.now limit ordinals rows) }
{
    if keys.is_empty() && limit.is_none() && are_whole(ordinals.as_slice(), rows.as_slice()) {
        return Ok(rows);
    }
    let sorted = sort_rows(alloc, rows, keys)?;
    // of many rows each goes once it is copied
    if limit.is_none() && sorted.len() < 2 {
        return project_rows(alloc, sorted.as_slice(), ordinals.as_slice());
    }
    let limited = Limit::new(Rows::new(alloc, sorted)?, limit);
    let mut shown = Project::new(limited, ordinals);
    collect(alloc, &mut shown)
}

/// So many rows at most are held in order while rows come: each may move all of them.
const FRONT: u64 = 1_000;

/// How many of the first rows a limit needs, if these are few.
pub(crate) fn front_of(limit: Option<sql_tree::LimitClause>) -> Option<usize>
    ensures { IfSome result (λ most. IsWithin most limit) }
{
    match limit {
        Some(limit) if limit.offset <= FRONT && limit.count <= FRONT => {
            Some((limit.offset + limit.count) as usize)
        }
        _ => None,
    }
}

// What is shown of the rows, of which no more are held in order than a limit needs.
fn show_front<'a, S: RowSource<'a>>(
    alloc: Global,
    query: &Query,
    condition: &Filter,
    rows: S,
    most: usize,
) -> Result<Items<Row>, AllocError>
    requires { IsWithin most query.now.limit }
    ensures ok { IfOk result (IsSortedSlice query.now.order_by query.now.limit (map shown_ordinal query.now.items) (filter (is_kept condition.now) (S.to_come rows))) }
{
    let rows = ordered_front(alloc, condition, rows, query.order_by.as_slice(), most)?;
    let all = Filter::plain(&None);
    shown(alloc, &all, rows, query.limit, query.items.as_slice())
}

// What is shown of the rows.
fn show_ordered<'a, S: RowSource<'a>>(
    alloc: Global,
    query: &Query,
    condition: &Filter,
    rows: S,
) -> Result<Items<Row>, AllocError>
    ensures ok { IfOk result (IsSortedSlice query.now.order_by query.now.limit (map shown_ordinal query.now.items) (filter (is_kept condition.now) (S.to_come rows))) }
{
    let rows = ordered(alloc, condition, rows, query.order_by.as_slice())?;
    let all = Filter::plain(&None);
    shown(alloc, &all, rows, query.limit, query.items.as_slice())
}

// What a query without aggregates gives. Only what goes out is copied.
fn select_rows<'a, S: RowSource<'a>>(
    alloc: Global,
    query: &'a Query,
    rows: S,
) -> Result<Items<Row>, AllocError>
    ensures ok { IfOk result (IsSortedSlice query.now.order_by query.now.limit (map shown_ordinal query.now.items) (filter (is_kept query.now.filter) (S.to_come rows))) }
{
    let filter = Filter::of(alloc, &query.filter)?;
    if query.order_by.as_slice().is_empty() {
        return shown(alloc, &filter, rows, query.limit, query.items.as_slice());
    }
    match front_of(query.limit) {
        Some(most) => show_front(alloc, query, &filter, rows, most),
        None => show_ordered(alloc, query, &filter, rows),
    }
}

fn is_count_rows(aggregate: &Item<usize>) -> bool
    ensures { result ≡ is_count_rows aggregate.now }
{
    matches!(aggregate, Item::CountRows)
}

fn are_count_rows(aggregates: &[Item<usize>]) -> bool
    ensures { result ≡ list_all is_count_rows aggregates.now }
{
    aggregates.iter().all(|aggregate| is_count_rows(aggregate))
}

// Whether all rows are one group.
fn are_together(columns: &[usize]) -> bool
    ensures { IsTrue result → columns.now ≡ [] }
{
    columns.is_empty()
}

fn count_value(count: u64) -> Value
    ensures { result ≡ Value.Int (pos count) }
{
    Value::Int(i128::from(count))
}

// One row: a count, for each of these aggregates.
fn count_row(
    alloc: Global,
    aggregates: &[Item<usize>],
    count: u64,
) -> Result<Items<Row>, AllocError>
    ensures ok { IfOk result (λ list. list ≡ counted_row aggregates.now count ∷ []) }
{
    let mut row = Items::new(alloc);
    for _ in aggregates {
        row.push(count_value(count))?;
    }
    let mut list = Items::new(alloc);
    list.push(row)?;
    Ok(list)
}

// The one row of the rows whose condition is true: their count, so many times.
fn counted<'a, S: RowSource<'a>>(
    alloc: Global,
    condition: &Option<Condition<usize>>,
    rows: S,
    aggregates: &[Item<usize>],
) -> Result<Items<Row>, AllocError>
    requires { length (filter (is_kept condition.now) (S.to_come rows)) ≤ 2 ^ 60 }
    ensures ok { IfOk result (λ list. list ≡ counted_row aggregates.now (length (filter (is_kept condition.now) (S.to_come rows))) ∷ []) }
{
    let filter = Filter::of(alloc, condition)?;
    let count = kept_count(&filter, rows);
    count_row(alloc, aggregates, count)
}

// The one row of the rows whose condition is true.
fn together<'a, S: RowSource<'a>>(
    alloc: Global,
    condition: &Option<Condition<usize>>,
    rows: S,
    aggregates: &[Item<usize>],
) -> Result<Items<Row>, AllocError>
    requires { CanBeSummed (filter (is_kept condition.now) (S.to_come rows)) }
    ensures ok { IfOk result (λ list. list ≡ totals_of aggregates.now (filter (is_kept condition.now) (S.to_come rows)) ∷ []) }
{
    if are_count_rows(aggregates) {
        return counted(alloc, condition, rows, aggregates);
    }
    let filter = Filter::of(alloc, condition)?;
    let mut list = Items::new(alloc);
    list.push(totals(alloc, &filter, rows, aggregates)?)?;
    Ok(list)
}

/// One row for each group of the rows whose condition is true.
fn grouped<'a, S: RowSource<'a>>(
    alloc: Global,
    query: &'a Query,
    rows: S,
) -> Result<Items<Row>, AllocError>
    requires { CanBeSummed (filter (is_kept query.now.filter) (S.to_come rows)) }
    ensures ok { IfOk result (λ list. list ≡ grouped_rows query.now (filter (is_kept query.now.filter) (S.to_come rows))) }
{
    let grouping = Grouping::of(alloc, query)?;
    let aggregates = grouping.aggregates.as_slice();
    if are_together(query.group_by.as_slice()) {
        return together(alloc, &query.filter, rows, aggregates);
    }
    let parts = Parts::of(alloc, query, rows)?;
    grouping.joined(alloc, parts)
}

/// What is shown of the rows of a query's groups. Refuses only for want of memory.
pub fn show_groups(
    alloc: Global,
    query: &Query,
    groups: Items<Row>,
) -> Result<Items<Row>, AllocError>
    ensures ok { IfOk result (IsSortedSlice (group_order query.now) query.now.limit (group_columns query.now) groups) }
{
    let keys = group_order(alloc, query)?;
    let ordinals = group_columns(alloc, query)?;
    show(alloc, groups, keys.as_slice(), query.limit, ordinals)
}

fn select_groups<'a, S: RowSource<'a>>(
    alloc: Global,
    query: &'a Query,
    rows: S,
) -> Result<Items<Row>, AllocError>
    requires { CanBeSummed (filter (is_kept query.now.filter) (S.to_come rows)) }
    ensures ok { IfOk result (IsSortedSlice (group_order query.now) query.now.limit (group_columns query.now) (grouped_rows query.now (filter (is_kept query.now.filter) (S.to_come rows)))) }
{
    let groups = grouped(alloc, query, rows)?;
    show_groups(alloc, query, groups)
}

/// Whether a query asks for nothing but the number of all rows.
pub fn counts_all(query: &Query) -> bool
    ensures { IsTrue result → CountsAll query.now }
{
    query.filter.is_none()
        && are_together(query.group_by.as_slice())
        && query.is_aggregated()
        && are_count_rows(query.items.as_slice())
}

/// What a query that asks for nothing but the number of all rows gives over so many rows. Refuses only for want of memory.
pub fn select_count(alloc: Global, query: &Query, count: usize) -> Result<Items<Row>, AllocError>
    requires { CountsAll query.now }
    ensures ok { IfOk result (λ list. (rows : List Line) → length rows ≡ count → IsAnswer query.now rows list) }
{
    let groups = count_row(alloc, query.items.as_slice(), count as u64)?;
    show_groups(alloc, query, groups)
}

// What a query without aggregates gives over rows that are in its order.
fn select_sorted<'a, S: RowSource<'a>>(
    alloc: Global,
    query: &'a Query,
    rows: S,
) -> Result<Items<Row>, AllocError>
    requires { IsSorted (row_cmp query.now.order_by) (filter (is_kept query.now.filter) (S.to_come rows)) }
    ensures ok { IfOk result (IsSortedSlice query.now.order_by query.now.limit (map shown_ordinal query.now.items) (filter (is_kept query.now.filter) (S.to_come rows))) }
{
    let filter = Filter::of(alloc, &query.filter)?;
    shown(alloc, &filter, rows, query.limit, query.items.as_slice())
}

/// What a query without aggregates gives, as `select_from`, over rows that come in an order which its ORDER BY allows. No row is held, and none is asked for
/// after the last that its LIMIT leaves. Refuses only for want of memory.
pub fn select_in_order<'a, S: RowSource<'a>>(
    alloc: Global,
    query: &'a Query,
    rows: S,
) -> Result<Items<Row>, AllocError>
    requires plain { is_aggregated query.now ≡ false }
    requires sorted { IsSorted (row_cmp query.now.order_by) (filter (is_kept query.now.filter) (S.to_come rows)) }
    ensures ok { IfOk result (IsAnswer query.now (S.to_come rows)) }
{
    select_sorted(alloc, query, rows)
}

// Promise: What a query gives over the rows that it is lent is one of its answers: rows, or a row for each group with exact aggregates, in
// an order that its ORDER BY allows, and of these the slice of its LIMIT
// With: select_in_order, select_count, select_extreme, select_local, show, next_kept, all_kept
/// What a query gives over the rows of its table that a source lends: those whose condition is true, each by the columns that the
/// query shows, or, of an aggregated query, their groups; in an order that its ORDER BY allows, and of these what its LIMIT leaves. No
/// row is copied that doesn't go out. Refuses only for want of memory.
pub fn select_from<'a, S: RowSource<'a>>(
    alloc: Global,
    query: &'a Query,
    rows: S,
) -> Result<Items<Row>, AllocError>
    requires summed { is_aggregated query.now ≡ true → CanBeSummed (filter (is_kept query.now.filter) (S.to_come rows)) }
    ensures ok { IfOk result (IsAnswer query.now (S.to_come rows)) }
{
    if query.is_aggregated() {
        select_groups(alloc, query, rows)
    } else {
        select_rows(alloc, query, rows)
    }
}

/// What a query gives over the rows of its table, as `select_from`. Refuses only for want of memory.
pub fn select_local(alloc: Global, query: &Query, rows: &[Row]) -> Result<Items<Row>, AllocError>
    requires summed { is_aggregated query.now ≡ true → CanBeSummed rows.now }
    ensures ok { IfOk result (IsAnswer query.now rows.now) }
{
    select_from(alloc, query, SliceRows::new(rows))
}
