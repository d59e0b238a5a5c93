//! Queries that need no plan: one shard is asked the query as it is, and what it gives is the answer.
ghost use Rattle.std.specs.Prelude.{◌≡◌, ◌==◌, IsTrue, IfOk, IfSome, None, [], false, length};
ghost use Rattle.std.specs.List.{list_all};
ghost use Rattle.vschema.specs.Checks.{is_aggregated};
ghost use Rattle.planner.specs.Routes.{sharded_route, route_of};
ghost use Rattle.planner.specs.Plans.{pushed, planned, piece_of, finish_of, Finishes};
ghost use Rattle.keyrange.specs.declared.KeyRange.{KeyRange};

use crate::conjuncts::{first_equal, is_never};
use crate::keys::{Keys, keys_on};
use crate::routes::{Route, is_held};
use sql_tree::Condition;
use std::alloc::{AllocError, Global};
use vschema::{Query, Table};
use vt_value::{Row, Value};

/// Whether each shard is asked the query as it is: it has no aggregate, no GROUP BY, no ORDER BY and no LIMIT.
pub fn is_plain(query: &Query) -> bool
    ensures pushed { IsTrue result → pushed query.now ≡ query.now }
    ensures grouped { IsTrue result → is_aggregated query.now ≡ false }
    ensures ordered { IsTrue result → query.now.order_by ≡ [] }
    ensures limited { IsTrue result → query.now.limit ≡ None }
{
    query.order_by.is_empty() && query.limit.is_none() && !query.is_aggregated()
}

// The value whose shard alone a condition on these columns needs, if it is by one value. No members of an IN are copied.
fn point_value(
    alloc: Global,
    keys: Keys,
    condition: &Condition<usize>,
) -> Result<Option<Value>, AllocError>
    ensures ok { IfOk result (λ found. IfSome found (λ value. Route.EqualUnique value ≡ sharded_route keys condition.now)) }
{
    if is_never(condition) {
        return Ok(None);
    }
    match first_equal(alloc, keys, condition)? {
        Some((kind, value)) if is_held(kind, &value) => Ok(Some(value)),
        _ => Ok(None),
    }
}

/// The route of a plain query, if it is that of one value: then the query needs that value's shard alone, which is asked it as it is. Refuses
/// only for want of memory.
pub fn point_route(alloc: Global, table: &Table, query: &Query) -> Result<Option<Route>, AllocError>
    requires { pushed query.now ≡ query.now }
    ensures ok { IfOk result (λ found. IfSome found (λ route. route ≡ route_of table.now query.now.join query.now.filter)) }
    ensures piece { IfOk result (λ found. IfSome found (λ route. (range : KeyRange) → piece_of table.now (planned table.now query.now) range ≡ query.now)) }
{
    let Some(vindex) = table.vindex else {
        return Ok(None);
    };
    let Some(condition) = &query.filter else {
        return Ok(None);
    };
    match point_value(alloc, keys_on(table, vindex, query.join), condition)? {
        Some(value) => Ok(Some(Route::EqualUnique(value))),
        None => Ok(None),
    }
}

fn have_width(rows: &[Row], width: usize) -> bool
    ensures { result ≡ list_all (λ row. length row == width) rows.now }
{
    rows.iter().all(|row| row.len() == width)
}

/// Whether these rows of a plain query's one shard are the answer as they are.
pub fn is_answer(query: &Query, rows: &[Row]) -> bool
    requires grouped { is_aggregated query.now ≡ false }
    requires ordered { query.now.order_by ≡ [] }
    requires limited { query.now.limit ≡ None }
    ensures { IsTrue result → Finishes (finish_of query.now) rows.now rows.now }
{
    have_width(rows, query.items.len())
}
