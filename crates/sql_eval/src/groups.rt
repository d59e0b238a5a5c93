//! The groups of aggregated queries.
ghost use Rattle.std.specs.Prelude.{◌≡◌, IfOk, map, filter, length, unwrap_or};
ghost use Rattle.aggregate.specs.Groups.{AreSummable};
ghost use Rattle.vt_value.specs.Values.{value_at};
ghost use Rattle.vschema.specs.Checks.{is_aggregate};
ghost use Rattle.vschema.specs.FirstOrdinals.{first_ordinal};
ghost use Rattle.sql_eval.specs.Conditions.{is_kept};
ghost use Rattle.sql_eval.specs.Grouping.{shown_ordinal, aggregates_of, item_ordinals, placed_key, grouping_of, group_columns, group_order, grouped};
ghost use Rattle.sql_eval.specs.inner.Parts.{one_of, row_part, part_row};

use crate::filters::Filter;
use crate::rows::value_at;
use crate::source::{RowSource, next_passing};
use aggregate::{GroupMerge, Operator, collect};
use sql_tree::{Item, Key};
use std::alloc::{AllocError, Global};
use vschema::{FirstOrdinals, Hashing, Query};
use vt_value::{Items, Row, Value, copy};

/// How parts are joined to groups.
#[derive(Drop)]
pub struct Grouping {
    /// How many values stand for a group, at the beginning of a row of parts.
    pub width: usize,
    /// The aggregates. Their parts come after these values, one column each.
    pub aggregates: Items<Item<usize>>,
    /// The key by which the groups' values are hashed.
    pub hashing: Hashing,
}

fn is_aggregate(item: &Item<usize>) -> bool
    ensures { result ≡ is_aggregate item.now }
{
    !matches!(item, Item::Column(_))
}

/// The column that an item shows, 0 if it shows an aggregate.
pub fn shown_ordinal(item: &Item<usize>) -> usize
    ensures { result ≡ shown_ordinal item.now }
{
    match item {
        Item::Column(ordinal) => *ordinal,
        _ => 0,
    }
}

/// A copy of an item.
pub fn copy_item(item: &Item<usize>) -> Item<usize>
    ensures { result ≡ item.now }
{
    match item {
        Item::Column(ordinal) => Item::Column(*ordinal),
        Item::CountRows => Item::CountRows,
        Item::Count(ordinal) => Item::Count(*ordinal),
        Item::Sum(ordinal) => Item::Sum(*ordinal),
        Item::Min(ordinal) => Item::Min(*ordinal),
        Item::Max(ordinal) => Item::Max(*ordinal),
    }
}

fn aggregates_of(alloc: Global, items: &[Item<usize>]) -> Result<Items<Item<usize>>, AllocError>
    ensures ok { IfOk result (λ list. list ≡ aggregates_of items.now) }
{
    let mut list = Items::new(alloc);
    for item in items {
        if is_aggregate(item) {
            list.push(copy_item(item))?;
        }
    }
    Ok(list)
}

impl Grouping {
    // Promise: How groups are made of parts, and shown
    // With: Grouping::joined, group_columns, group_order, copy_item
    /// The grouping of an aggregated query. Refuses only for want of memory.
    pub fn of(alloc: Global, query: &Query) -> Result<Grouping, AllocError>
        ensures ok { IfOk result (λ grouping. grouping ≡ grouping_of query.now) }
    {
        let aggregates = aggregates_of(alloc, query.items.as_slice())?;
        Ok(Grouping {
            width: query.group_by.as_slice().len(),
            aggregates,
            hashing: query.group_by.hashing().copy(),
        })
    }

    /// One row for each group of the input's parts: its values, and then what its parts give together. Refuses only for want of
    /// memory.
    pub fn joined<O: Operator>(&self, alloc: Global, parts: O) -> Result<Items<Row>, AllocError>
        requires { AreSummable self.now.width (O.to_come parts) }
        ensures ok { IfOk result (λ rows. rows ≡ grouped self.now (O.to_come parts)) }
    {
        let hasher = self.hashing.hasher();
        let aggregates = self.aggregates.as_slice();
        let mut merge = GroupMerge::new(alloc, hasher, parts, aggregates, self.width)?;
        collect(alloc, &mut merge)
    }
}

fn one_of(value: &Value) -> Value
    ensures { result ≡ one_of value.now }
{
    match value {
        Value::Null => Value::Int(0),
        _ => Value::Int(1),
    }
}

/// A copy of the value of a row at an ordinal, NULL after its end.
pub fn copy_at(alloc: Global, row: &Row, ordinal: usize) -> Result<Value, AllocError>
    ensures ok { IfOk result (λ value. value ≡ value_at row.now ordinal) }
{
    let null = Value::Null;
    copy(alloc, value_at(row, ordinal, &null))
}

/// The part of an aggregate that a row is.
fn part_value(alloc: Global, row: &Row, aggregate: &Item<usize>) -> Result<Value, AllocError>
    ensures ok { IfOk result (λ value. value ≡ row_part row.now aggregate.now) }
{
    let null = Value::Null;
    match aggregate {
        Item::Column(_) => Ok(Value::Null),
        Item::CountRows => Ok(Value::Int(1)),
        Item::Count(ordinal) => Ok(one_of(value_at(row, *ordinal, &null))),
        Item::Sum(ordinal) | Item::Min(ordinal) | Item::Max(ordinal) => {
            copy_at(alloc, row, *ordinal)
        }
    }
}

fn part_row(
    alloc: Global,
    columns: &[usize],
    aggregates: &[Item<usize>],
    row: &Row,
) -> Result<Row, AllocError>
    ensures ok { IfOk result (λ part. part ≡ part_row columns.now aggregates.now row.now) }
{
    let room = columns.len() + aggregates.len();
    let mut part = Items::from_vec(Vec::with_capacity(alloc, room)?);
    for column in columns {
        part.push(copy_at(alloc, row, *column)?)?;
    }
    for aggregate in aggregates {
        part.push(part_value(alloc, row, aggregate)?)?;
    }
    Ok(part)
}

/// Of each row of a source whose condition is true the values of its group, and the parts of the aggregates that it is.
#[derive(Drop)]
pub struct Parts<'a, S> {
    condition: Filter<'a>,
    columns: &'a [usize],
    aggregates: Items<Item<usize>>,
    rows: S,
    failed: bool,
}

impl<'a, S: RowSource<'a>> Parts<'a, S> {
    /// The parts of the groups of an aggregated query. Refuses only for want of memory.
    pub fn of(alloc: Global, query: &'a Query, rows: S) -> Result<Parts<'a, S>, AllocError>
        ensures ok { IfOk result (λ parts. ⟦<Parts<'a, S> as Operator>⟧.to_come parts
            ≡ map (part_row query.now.group_by (aggregates_of query.now.items)) (filter (is_kept query.now.filter) (S.to_come rows))) }
    {
        let aggregates = aggregates_of(alloc, query.items.as_slice())?;
        Ok(Parts {
            condition: Filter::of(alloc, &query.filter)?,
            columns: query.group_by.as_slice(),
            aggregates,
            rows,
            failed: false,
        })
    }
}

impl<'a, S: RowSource<'a>> Operator for Parts<'a, S> {
    ghost use Rattle.std.specs.Prelude.{map, filter};
    ghost use Rattle.sql_eval.specs.Conditions.{is_kept};
    ghost use Rattle.sql_eval.specs.inner.Parts.{part_row};

    ghost to_come = { λ parts. map (part_row parts.columns.now parts.aggregates) (filter (is_kept parts.condition) (S.to_come parts.rows)) };

    ghost has_failed = { λ parts. parts.failed };

    fn next(&mut self, alloc: Global) -> Result<Option<Row>, AllocError> {
        if self.failed {
            return Err(AllocError);
        }
        let Some(row) = next_passing(&self.condition, &mut self.rows) else {
            return Ok(None);
        };
        let part = part_row(alloc, self.columns, self.aggregates.as_slice(), row);
        self.failed = part.is_err();
        Ok(Some(part?))
    }
}

fn ordinal_of(columns: &FirstOrdinals, column: usize, other: usize) -> usize
    ensures { result ≡ unwrap_or (first_ordinal columns.now column) other }
{
    columns.get(column).unwrap_or(other)
}

fn item_ordinals(
    alloc: Global,
    columns: &[usize],
    items: &[Item<usize>],
    other: usize,
) -> Result<Items<usize>, AllocError>
    ensures ok { IfOk result (λ ordinals. ordinals ≡ item_ordinals other columns.now (length columns.now) items.now) }
{
    let first = FirstOrdinals::of(alloc, columns)?;
    let mut ordinals = Items::new(alloc);
    let mut next = columns.len();
    for item in items {
        if is_aggregate(item) {
            ordinals.push(next)?;
            next += 1;
        } else {
            ordinals.push(ordinal_of(&first, shown_ordinal(item), other))?;
        }
    }
    Ok(ordinals)
}

/// The ordinals of an aggregated query's items in the rows of its groups. Refuses only for want of memory.
pub fn group_columns(alloc: Global, query: &Query) -> Result<Items<usize>, AllocError>
    ensures ok { IfOk result (λ ordinals. ordinals ≡ group_columns query.now) }
{
    let columns = query.group_by.as_slice();
    let items = query.items.as_slice();
    item_ordinals(alloc, columns, items, columns.len() + items.len())
}

fn placed_keys(
    alloc: Global,
    columns: &[usize],
    keys: &[Key<usize>],
    other: usize,
) -> Result<Items<Key<usize>>, AllocError>
    ensures ok { IfOk result (λ placed. placed ≡ map (placed_key other columns.now) keys.now) }
{
    let first = FirstOrdinals::of(alloc, columns)?;
    let mut placed = Items::new(alloc);
    for key in keys {
        placed.push(Key {
            column: ordinal_of(&first, key.column, other),
            descending: key.descending,
        })?;
    }
    Ok(placed)
}

/// The sort keys of an aggregated query, by the ordinals of their columns in the rows of its groups. Refuses only for want of memory.
pub fn group_order(alloc: Global, query: &Query) -> Result<Items<Key<usize>>, AllocError>
    ensures ok { IfOk result (λ keys. keys ≡ group_order query.now) }
{
    let columns = query.group_by.as_slice();
    let other = columns.len() + query.items.as_slice().len();
    placed_keys(alloc, columns, query.order_by.as_slice(), other)
}
