//! From a query to its plan.
ghost use Rattle.std.specs.Prelude.{◌≡◌, ◌++◌, IfOk, OnOk, map, length};
ghost use Rattle.sql_tree.specs.declared.Item.TheVariants as item;
ghost use Rattle.vschema.specs.Resolved.{ordinals_from};
ghost use Rattle.planner.specs.Routes.{table_at, route_of};
ghost use Rattle.planner.specs.Plans.{pushed_limit, key_item, pushed_rows, pushed_groups, pushed, keys_from, rows_finish, groups_finish, finish_of, planned};
ghost use Rattle.planner.specs.Right.{IsRightPlan, SkipsNothing, GivesInOrder};

use crate::copies::copy_items;
use crate::plans::{Finish, Plan};
use crate::routes::{Route, route_of};
use sql_eval::{Grouping, copy_item, group_columns, group_order};
use sql_tree::{Item, Key, LimitClause};
use std::alloc::{AllocError, Global};
use vschema::{Query, VSchema};
use vt_value::Items;

// As many rows as the whole answer may need from one shard.
fn pushed_limit(limit: LimitClause) -> LimitClause
    ensures { result ≡ pushed_limit limit }
{
    LimitClause {
        count: limit.offset.saturating_add(limit.count),
        offset: 0,
    }
}

fn push_keys(items: &mut Items<Item<usize>>, keys: &[Key<usize>]) -> Result<(), AllocError>
    ensures ok { OnOk result (items.new ≡ items.old ++ map key_item keys.now) }
{
    for key in keys {
        items.push(Item::Column(key.column))?;
    }
    Ok(())
}

// Makes a query that isn't aggregated what each shard gets.
fn push_rows(query: &mut Query) -> Result<(), AllocError>
    ensures ok { OnOk result (query.new ≡ pushed_rows query.old) }
{
    push_keys(&mut query.items, query.order_by.as_slice())?;
    if let Some(limit) = query.limit {
        query.limit = Some(pushed_limit(limit));
    }
    Ok(())
}

fn column_items(alloc: Global, columns: &[usize]) -> Result<Items<Item<usize>>, AllocError>
    ensures ok { IfOk result (λ items. items ≡ map item.Column columns.now) }
{
    let mut items = Items::new(alloc);
    for column in columns {
        items.push(Item::Column(*column))?;
    }
    Ok(items)
}

// The columns of GROUP BY, and after them the aggregates.
fn group_items(
    alloc: Global,
    columns: &[usize],
    aggregates: &[Item<usize>],
) -> Result<Items<Item<usize>>, AllocError>
    ensures ok { IfOk result (λ items. items ≡ map item.Column columns.now ++ aggregates.now) }
{
    let mut items = column_items(alloc, columns)?;
    for aggregate in aggregates {
        items.push(copy_item(aggregate))?;
    }
    Ok(items)
}

// What a shard shows of each of its groups.
fn pushed_items(alloc: Global, query: &Query) -> Result<Items<Item<usize>>, AllocError>
    ensures ok { IfOk result (λ items. items ≡ (pushed_groups query.now).items) }
{
    let Grouping { aggregates, .. } = Grouping::of(alloc, query)?;
    let columns = query.group_by.as_slice();
    group_items(alloc, columns, aggregates.as_slice())
}

// Makes an aggregated query what each shard gets.
fn push_groups(alloc: Global, query: &mut Query) -> Result<(), AllocError>
    ensures ok { OnOk result (query.new ≡ pushed_groups query.old) }
{
    query.items = pushed_items(alloc, query)?;
    query.order_by = Items::new(alloc);
    query.limit = None;
    Ok(())
}

// Makes a query what each shard gets.
fn push(alloc: Global, query: &mut Query) -> Result<(), AllocError>
    ensures ok { OnOk result (query.new ≡ pushed query.old) }
{
    if query.is_aggregated() {
        push_groups(alloc, query)
    } else {
        push_rows(query)
    }
}

fn first_ordinals(alloc: Global, items: &[Item<usize>]) -> Result<Items<usize>, AllocError>
    ensures ok { IfOk result (λ ordinals. ordinals ≡ ordinals_from 0 items.now) }
{
    let mut ordinals = Items::from_vec(Vec::with_capacity(alloc, items.len())?);
    for (ordinal, _) in items.iter().enumerate() {
        ordinals.push(ordinal)?;
    }
    Ok(ordinals)
}

// The keys, by ordinals that follow those of the items.
fn keys_after(
    alloc: Global,
    items: &[Item<usize>],
    keys: &[Key<usize>],
) -> Result<Items<Key<usize>>, AllocError>
    ensures ok { IfOk result (λ moved. moved ≡ keys_from (length items.now) keys.now) }
{
    let mut moved = Items::new(alloc);
    for (ordinal, key) in keys.iter().enumerate() {
        moved.push(Key {
            column: items.len() + ordinal,
            descending: key.descending,
        })?;
    }
    Ok(moved)
}

fn rows_finish(alloc: Global, query: &Query) -> Result<Finish, AllocError>
    ensures ok { IfOk result (λ finish. finish ≡ rows_finish query.now) }
{
    let items = query.items.as_slice();
    let columns = first_ordinals(alloc, items)?;
    let order_by = keys_after(alloc, items, query.order_by.as_slice())?;
    Ok(Finish {
        grouping: None,
        columns,
        order_by,
        limit: query.limit,
    })
}

fn groups_finish(alloc: Global, query: &Query) -> Result<Finish, AllocError>
    ensures ok { IfOk result (λ finish. finish ≡ groups_finish query.now) }
{
    let grouping = Grouping::of(alloc, query)?;
    let columns = group_columns(alloc, query)?;
    let order_by = group_order(alloc, query)?;
    Ok(Finish {
        grouping: Some(grouping),
        columns,
        order_by,
        limit: query.limit,
    })
}

fn finish_of(alloc: Global, query: &Query) -> Result<Finish, AllocError>
    ensures ok { IfOk result (λ finish. finish ≡ finish_of query.now) }
{
    if query.is_aggregated() {
        groups_finish(alloc, query)
    } else {
        rows_finish(alloc, query)
    }
}

/// The route of a query. Refuses only for want of memory.
pub fn query_route(alloc: Global, schema: &VSchema, query: &Query) -> Result<Route, AllocError>
    ensures ok { IfOk result (λ route. route ≡ route_of (table_at schema.now query.now.table) query.now.join query.now.filter) }
{
    match schema.tables.as_slice().get(query.table) {
        Some(table) => route_of(alloc, table, query.join, &query.filter),
        None => Ok(Route::Unsharded),
    }
}

// Promise: A plan is the written one, and right: over any shards whose rows lie in their ranges, each list that its finish may give of the
// pieces' answers is an answer over all rows, also over no shard and with aggregates, and of a join over all pairs, if no id lies in two
// of the ranges; a shard that its route skips holds no row or pair that the query keeps; and without aggregates each piece's answer is in
// the order of the finish's keys
/// The plan of a query. Refuses only for want of memory.
pub fn plan(alloc: Global, schema: &VSchema, mut query: Query) -> Result<Plan, AllocError>
    ensures exact { IfOk result (λ p. p ≡ planned (table_at schema.now query.table) query) }
    ensures right { IfOk result (IsRightPlan schema.now query) }
    ensures skips { IfOk result (SkipsNothing schema.now query) }
    ensures order { IfOk result (GivesInOrder (table_at schema.now query.table)) }
{
    let route = query_route(alloc, schema, &query)?;
    let finish = finish_of(alloc, &query)?;
    let items = copy_items(alloc, query.items.as_slice())?;
    let qualified = Items::from_slice(alloc, query.qualified.as_slice())?;
    push(alloc, &mut query)?;
    Ok(Plan {
        route,
        piece: query,
        finish,
        items,
        qualified,
    })
}
