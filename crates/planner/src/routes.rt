//! Which shards of its keyspace a statement needs, by the values that its condition or its rows give for the vindex column.
ghost use Rattle.std.specs.Prelude.{◌≡◌, IfOk, filter, map, slice_get};
ghost use Rattle.vt_value.specs.Values.{value_at};
ghost use Rattle.planner.specs.Routes.{type_at, is_held, route_among, route_by, sharded_route, filter_route, route_of, insert_route, write_route};

use crate::conjuncts::{first_among, first_equal, is_never, is_null};
use crate::keys::{Keys, keys_on};
use crate::members::InValues;
use crate::needed::NeededValues;
use sql_tree::Condition;
use std::alloc::{AllocError, Global};
use vindex::AnyVindex;
use vschema::{
    ColumnType, ColumnVindex, Join, Table, VSchema, Write, is_out_of_range, is_too_long,
};
use vt_value::{Row, Value, copy};

/// Which shards of its keyspace a statement needs.
#[derive(Drop)]
pub enum Route {
    /// The one shard of the unsharded keyspace.
    Unsharded,
    /// No shard: the condition is true for no row.
    None,
    /// The shard of this value of the vindex column.
    EqualUnique(Value),
    /// The shards of these values of the vindex column.
    In(NeededValues),
    /// Every shard.
    Scatter,
}

/// The type of the column at an ordinal, BIGINT if the table has no such column.
pub fn type_at(table: &Table, ordinal: usize) -> ColumnType
    ensures { result ≡ type_at table.now ordinal }
{
    match table.columns.as_slice().get(ordinal) {
        Some(column) => column.kind,
        None => ColumnType::BigInt,
    }
}

/// Whether a column of the type may hold the value, NULL apart.
pub fn is_held(kind: ColumnType, value: &Value) -> bool
    ensures { result ≡ is_held kind value.now }
{
    !(is_null(value) || is_out_of_range(kind, value) || is_too_long(kind, value))
}

/// Copies of the values that a column of the type may hold, on which this vindex is.
fn held(
    alloc: Global,
    vindex: AnyVindex,
    kind: ColumnType,
    values: &[Value],
) -> Result<InValues, AllocError>
    ensures ok { IfOk result (λ list. list ≡ filter (is_held kind) values.now) }
{
    let mut list = InValues::new(alloc);
    for value in values {
        if is_held(kind, value) {
            list.push(vindex, copy(alloc, value)?)?;
        }
    }
    Ok(list)
}

fn route_among(
    alloc: Global,
    vindex: AnyVindex,
    kind: ColumnType,
    members: &[Value],
) -> Result<Route, AllocError>
    ensures ok { IfOk result (λ route. route ≡ route_among (filter (is_held kind) members.now)) }
{
    let values = held(alloc, vindex, kind, members)?;
    if values.is_empty() {
        Ok(Route::None)
    } else {
        Ok(Route::In(NeededValues::many(values)))
    }
}

fn sharded_route(
    alloc: Global,
    vindex: AnyVindex,
    keys: Keys,
    condition: &Condition<usize>,
) -> Result<Route, AllocError>
    ensures ok { IfOk result (λ route. route ≡ sharded_route keys condition.now) }
{
    if is_never(condition) {
        return Ok(Route::None);
    }
    if let Some((kind, value)) = first_equal(alloc, keys, condition)? {
        if is_held(kind, &value) {
            return Ok(Route::EqualUnique(value));
        }
        return Ok(Route::None);
    }
    match first_among(alloc, keys, condition)? {
        Some((kind, members)) => route_among(alloc, vindex, kind, members.as_slice()),
        None => Ok(Route::Scatter),
    }
}

/// The route of a query, an UPDATE or a DELETE, by its condition. A query may be over the pairs of a join.
pub fn route_of(
    alloc: Global,
    table: &Table,
    join: Option<Join>,
    filter: &Option<Condition<usize>>,
) -> Result<Route, AllocError>
    ensures ok { IfOk result (λ route. route ≡ route_of table.now join filter.now) }
{
    let Some(vindex) = table.vindex else {
        return Ok(Route::Unsharded);
    };
    match filter {
        Some(condition) => {
            let keys = keys_on(table, vindex, join);
            sharded_route(alloc, vindex.vindex, keys, condition)
        }
        None => Ok(Route::Scatter),
    }
}

fn value_at(alloc: Global, row: &Row, ordinal: usize) -> Result<Value, AllocError>
    ensures ok { IfOk result (λ v. v ≡ value_at row.now ordinal) }
{
    match row.as_slice().get(ordinal) {
        Some(value) => copy(alloc, value),
        None => Ok(Value::Null),
    }
}

fn values_at(alloc: Global, rows: &[Row], vindex: ColumnVindex) -> Result<InValues, AllocError>
    ensures ok { IfOk result (λ list. list ≡ map (λ row. value_at row vindex.column) rows.now) }
{
    let mut list = InValues::with_capacity(alloc, rows.len())?;
    for row in rows {
        list.push(vindex.vindex, value_at(alloc, row, vindex.column)?)?;
    }
    Ok(list)
}

// The values of one row without an allocation.
fn needed_values(
    alloc: Global,
    rows: &[Row],
    vindex: ColumnVindex,
) -> Result<NeededValues, AllocError>
    ensures ok { IfOk result (λ values. values ≡ map (λ row. value_at row vindex.column) rows.now) }
{
    if let [row] = rows {
        let value = value_at(alloc, row, vindex.column)?;
        return Ok(NeededValues::one(value));
    }
    let values = values_at(alloc, rows, vindex)?;
    Ok(NeededValues::many(values))
}

fn insert_route(alloc: Global, table: &Table, rows: &[Row]) -> Result<Route, AllocError>
    ensures ok { IfOk result (λ route. route ≡ insert_route table.now rows.now) }
{
    match table.vindex {
        None => Ok(Route::Unsharded),
        Some(vindex) => {
            let values = needed_values(alloc, rows, vindex)?;
            Ok(Route::In(values))
        }
    }
}

/// The route of a write. An INSERT goes to the shards of its rows, an UPDATE or a DELETE by its condition. A table that the
/// VSchema doesn't have is unsharded. Refuses only for want of memory.
pub fn write_route(alloc: Global, schema: &VSchema, write: &Write) -> Result<Route, AllocError>
    ensures ok { IfOk result (λ route. route ≡ write_route schema.now write.now) }
{
    let (Write::Insert(ordinal, _) | Write::Update(ordinal, _, _) | Write::Delete(ordinal, _)) =
        write;
    let Some(table) = schema.tables.as_slice().get(*ordinal) else {
        return Ok(Route::Unsharded);
    };
    match write {
        Write::Insert(_, rows) => insert_route(alloc, table, rows.as_slice()),
        Write::Update(_, _, filter) | Write::Delete(_, filter) => {
            route_of(alloc, table, None, filter)
        }
    }
}
