//! What the items of a query without aggregates show of a row.
ghost use Rattle.std.specs.Prelude.{◌≡◌, IfOk, map};
ghost use Rattle.vt_value.specs.Values.{value_at};
ghost use Rattle.aggregate.specs.Slices.{columns_of};
ghost use Rattle.sql_eval.specs.Grouping.{shown_ordinal};

use crate::groups::shown_ordinal;
use crate::rows::value_at;
use sql_tree::Item;
use std::alloc::{AllocError, Global};
use vt_value::{Items, Row, Value, copy};

fn shown_value(alloc: Global, row: &Row, item: &Item<usize>) -> Result<Value, AllocError>
    ensures ok { IfOk result (λ v. v ≡ value_at row.now (shown_ordinal item.now)) }
{
    let null = Value::Null;
    copy(alloc, value_at(row, shown_ordinal(item), &null))
}

/// The columns of a row that items show. Refuses only for want of memory.
pub fn shown_row(alloc: Global, items: &[Item<usize>], row: &Row) -> Result<Row, AllocError>
    ensures ok { IfOk result (λ shown. shown ≡ columns_of (map shown_ordinal items.now) row.now) }
{
    let mut values = Vec::with_capacity(alloc, items.len())?;
    for item in items {
        values.push_reserved(shown_value(alloc, row, item)?);
    }
    Ok(Items::from_vec(values))
}
