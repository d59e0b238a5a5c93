//! What a query shows, and its rows as they are shown.
ghost use Rattle.std.specs.Prelude.{◌≡◌};
ghost use Rattle.operators.specs.Slices.{shown_at};
ghost use Rattle.shard_contents.specs.Narrowing.{whole_items, whole_ordinals};

use operators::ShownRows;
use shard_calls::Plan;
use shard_contents::Whole;
use sql_tree::Item;
use std::alloc::Global;
use std::mem::replace;
use vschema::Query;
use vt_value::{Items, Row};

// The items of the whole query, and its rows as they are shown.
pub(crate) fn shown_whole(
    whole: Option<Whole>,
    items: Items<Item<usize>>,
    rows: Items<Row>,
) -> (Items<Item<usize>>, ShownRows)
    ensures items { result.0 ≡ whole_items whole items }
    ensures rows { result.1 ≡ shown_at (whole_ordinals whole) rows }
{
    match whole {
        None => (items, ShownRows::new(rows, None)),
        Some(whole) => {
            drop(items);
            (whole.items, ShownRows::new(rows, Some(whole.ordinals)))
        }
    }
}

// What the answer shows, and whether each item was written with its table's name: taken out of the plan, which isn't moved for that.
pub(crate) fn shown_by(alloc: Global, plan: &mut Plan) -> (Items<Item<usize>>, Items<bool>)
    ensures items { result.0 ≡ plan.old.items }
    ensures qualified { result.1 ≡ plan.old.qualified }
{
    let items = replace(&mut plan.items, Items::new(alloc));
    let qualified = replace(&mut plan.qualified, Items::new(alloc));
    (items, qualified)
}

// What a query shows, and whether each item was written with its table's name; the rest of the query goes.
pub(crate) fn shown_in(query: Query) -> (Items<Item<usize>>, Items<bool>)
    ensures items { result.0 ≡ query.items }
    ensures qualified { result.1 ≡ query.qualified }
{
    let Query {
        items,
        qualified,
        ..
    } = query;
    (items, qualified)
}
