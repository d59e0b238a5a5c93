//! What the parts of aggregate columns give together, as the shards answer them.
ghost use Rattle.std.specs.Prelude.{◌≡◌, ◌<◌, ◌^◌, List, [], ◌∷◌, ◌++◌, ◌+ℤ◌, false, length, map, reverse, OnOk};
ghost use Rattle.vt_value.specs.declared.value.Value.{Value as V};
ghost use Rattle.aggregate.specs.Aggregates.{total, sum_of, least_of, greatest_of, present, sizes};
ghost use Rattle.aggregate.specs.Groups.{joined_part};
ghost use Rattle.aggregate.specs.Parts.{join_options, present_number};
ghost use Rattle.aggregate.specs.inner.Columns.{with_values, FitTogether, CanJoin, CanJoinAll};

use crate::joining::Aggregate;
use crate::sums::{Sum, number, plus};
use operators::Item;
use std::alloc::{AllocError, Global};
use vt_value::{Value, copy, sort_order};

/// The sum of two parts, of which NULL is none.
fn total(part: &Value, value: &Value) -> Option<i128>
    requires { FitTogether part.now value.now }
    ensures { result ≡ join_options ◌+ℤ◌ (present_number part.now) (present_number value.now) }
{
    plus(number(part), number(value))
}

fn join_count(part: &mut Value, value: &Value)
    requires { FitTogether part.old value.now }
    ensures { part.new ≡ Value.Int (total (present (part.old ∷ value.now ∷ []))) }
{
    *part = Value::Int(total(part, value).unwrap_or(0));
}

fn join_sum(part: &mut Value, value: &Value)
    requires { FitTogether part.old value.now }
    ensures { part.new ≡ sum_of (present (part.old ∷ value.now ∷ [])) }
{
    *part = Sum::finish(total(part, value));
}

fn join_least(part: &mut Value, value: Value)
    ensures { part.new ≡ least_of (present (part.old ∷ value ∷ [])) }
{
    // NULL is before all values in their order
    if !matches!(value, Value::Null)
        && (matches!(part, Value::Null) || sort_order(&value, part).is_lt())
    {
        *part = value;
    }
}

fn join_greatest(part: &mut Value, value: Value)
    ensures { part.new ≡ greatest_of (present (part.old ∷ value ∷ [])) }
{
    if sort_order(part, &value).is_lt() {
        *part = value;
    }
}

/// What the parts of an aggregate give, of none.
pub fn empty_part(aggregate: &Item<usize>) -> Value
    ensures { result ≡ joined_part aggregate.now [] }
{
    match aggregate {
        Item::CountRows | Item::Count(_) => Value::Int(0),
        Item::Column(_) | Item::Sum(_) | Item::Min(_) | Item::Max(_) => Value::Null,
    }
}

/// Joins one part more to what the parts of an aggregate give.
fn join_part(aggregate: &Item<usize>, part: &mut Value, value: Value)
    requires { CanJoin aggregate.now part.old value }
    ensures { part.new ≡ joined_part aggregate.now (part.old ∷ value ∷ []) }
{
    match aggregate {
        Item::Column(_) => *part = Value::Null,
        Item::CountRows | Item::Count(_) => join_count(part, &value),
        Item::Sum(_) => join_sum(part, &value),
        Item::Min(_) => join_least(part, value),
        Item::Max(_) => join_greatest(part, value),
    }
}

// Whether a part may change what the parts of an aggregate give: a value that stays need not be copied.
fn may_change(aggregate: &Item<usize>, total: &Value, part: &Value) -> bool
    ensures { result ≡ false → joined_part aggregate.now (total.now ∷ part.now ∷ []) ≡ total.now }
{
    match aggregate {
        Item::Min(_) => {
            !matches!(part, Value::Null)
                && (matches!(total, Value::Null) || sort_order(part, total).is_lt())
        }
        Item::Max(_) => sort_order(total, part).is_lt(),
        _ => true,
    }
}

// Promise: What the parts of an aggregate give together is kept as one value, to which one part after the other is joined
// With: empty_part
/// Joins one part more to what the parts of an aggregate give so far. The numbers of the parts stay below 2^127 together. Refuses only for want of memory.
pub fn add_part(
    alloc: Global,
    aggregate: &Item<usize>,
    total: &mut Value,
    part: &Value,
) -> Result<(), AllocError>
    requires { (parts : List V) × (total.old ≡ joined_part aggregate.now parts) × (sizes (parts ++ part.now ∷ []) < 2 ^ 127) }
    ensures ok { OnOk result ((parts : List V) → total.old ≡ joined_part aggregate.now parts → total.new ≡ joined_part aggregate.now (parts ++ part.now ∷ [])) }
{
    if may_change(aggregate, total, part) {
        join_part(aggregate, total, copy(alloc, part)?);
    }
    Ok(())
}

/// Appends what the parts of each aggregate give, of none.
pub fn push_empty_parts(
    aggregates: &[Item<usize>],
    parts: &mut Vec<Value>,
) -> Result<(), AllocError>
    ensures ok { OnOk result (parts.new.items ≡ parts.old.items ++ map (λ a. joined_part a []) aggregates.now) }
{
    for aggregate in aggregates {
        parts.push(empty_part(aggregate))?;
    }
    Ok(())
}

/// Joins the parts that are in a row after its group's values, NULL after the last. They are moved out of a list that has the last one first.
pub fn add_values(aggregates: &[Item<usize>], parts: &mut [Value], values: &mut Vec<Value>)
    requires each { length parts.old ≡ length aggregates.now }
    requires holds { CanJoinAll aggregates.now parts.old (reverse values.old.items) }
    ensures { parts.new ≡ with_values aggregates.now parts.old (reverse values.old.items) }
{
    for i in 0..aggregates.len() {
        join_part(
            &aggregates[i],
            &mut parts[i],
            values.pop().unwrap_or(Value::Null),
        );
    }
}
