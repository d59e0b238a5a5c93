//! MIN or MAX of a column over rows that come in the order of its values: the first that isn't NULL.
ghost use Rattle.std.specs.Prelude.{◌≡◌, ◌∷◌, [], IsSorted, IfOk, IfSome, filter, map, true};
ghost use Rattle.std.specs.List.{list_all};
ghost use Rattle.vt_value.specs.Values.{is_null};
ghost use Rattle.aggregate.specs.Orders.{row_cmp};
ghost use Rattle.aggregate.specs.Aggregates.{values_of};
ghost use Rattle.sql_eval.specs.Conditions.{is_kept};
ghost use Rattle.sql_eval.specs.Extremes.{is_extreme, IsExtreme};
ghost use Rattle.sql_eval.specs.Queries.{IsAnswer};
ghost use Rattle.sql_eval.specs.inner.Firsts.{first_of};

use crate::filters::Filter;
use crate::groups::copy_at;
use crate::queries::show_groups;
use crate::source::{RowSource, next_passing};
use sql_tree::{Item, Key};
use std::alloc::{AllocError, Global};
use vschema::Query;
use vt_value::{Items, Row, Value, copy};

// Whether an item is MIN of a sort key's column, if that ascends, or MAX, if it descends.
fn is_extreme(key: &Key<usize>, item: &Item<usize>) -> bool
    ensures { result ≡ is_extreme key.now item.now }
{
    match item {
        Item::Min(ordinal) => *ordinal == key.column && !key.descending,
        Item::Max(ordinal) => *ordinal == key.column && key.descending,
        _ => false,
    }
}

fn are_extremes(key: &Key<usize>, items: &[Item<usize>]) -> bool
    ensures { result ≡ list_all (is_extreme key.now) items.now }
{
    items.iter().all(|item| is_extreme(key, item))
}

// The sort key that brings the row of the first item first.
fn first_key(items: &[Item<usize>]) -> Option<Key<usize>> {
    match items.first() {
        Some(Item::Min(ordinal)) => Some(Key {
            column: *ordinal,
            descending: false,
        }),
        Some(Item::Max(ordinal)) => Some(Key {
            column: *ordinal,
            descending: true,
        }),
        _ => None,
    }
}

/// The sort key that brings the row first which alone decides what a query gives: the query asks for nothing but MIN of one column, or nothing but MAX.
pub fn extreme_key(query: &Query) -> Option<Key<usize>>
    ensures { IfSome result (λ key. IsExtreme key query.now) }
{
    let key = first_key(query.items.as_slice())?;
    if query.group_by.as_slice().is_empty()
        && query.is_aggregated()
        && are_extremes(&key, query.items.as_slice())
    {
        return Some(key);
    }
    None
}

fn is_null(value: &Value) -> bool
    ensures { result ≡ is_null value.now }
{
    matches!(value, Value::Null)
}

// The first value of a column, of the rows whose condition is true, that isn't NULL; NULL of none.
fn first_value<'a, S: RowSource<'a>>(
    alloc: Global,
    condition: &Filter,
    rows: S,
    column: usize,
) -> Result<Value, AllocError>
    ensures ok { IfOk result (λ value. value ≡ first_of (values_of column (filter (is_kept condition.now) (S.to_come rows)))) }
{
    let mut rows = rows;
    while let Some(row) = next_passing(condition, &mut rows) {
        let value = copy_at(alloc, row, column)?;
        if !is_null(&value) {
            return Ok(value);
        }
    }
    Ok(Value::Null)
}

// A row that has a value as often as there are items.
fn row_of(alloc: Global, value: &Value, items: &[Item<usize>]) -> Result<Row, AllocError>
    ensures ok { IfOk result (λ row. row ≡ map (λ item. value.now) items.now) }
{
    let mut row = Items::new(alloc);
    for _ in items {
        row.push(copy(alloc, value)?)?;
    }
    Ok(row)
}

/// What a query that asks for nothing but MIN of a column, or nothing but MAX, gives over rows that come in the order of that column. No row is asked for after
/// the first that has a value there. Refuses only for want of memory.
pub fn select_extreme<'a, S: RowSource<'a>>(
    alloc: Global,
    query: &'a Query,
    key: &Key<usize>,
    rows: S,
) -> Result<Items<Row>, AllocError>
    requires alone { IsExtreme key.now query.now }
    requires sorted { IsSorted (row_cmp (key.now ∷ [])) (filter (is_kept query.now.filter) (S.to_come rows)) }
    ensures ok { IfOk result (IsAnswer query.now (S.to_come rows)) }
{
    let filter = Filter::of(alloc, &query.filter)?;
    let value = first_value(alloc, &filter, rows, key.column)?;
    let mut list = Items::new(alloc);
    list.push(row_of(alloc, &value, query.items.as_slice())?)?;
    show_groups(alloc, query, list)
}
