//! Values in their order.
ghost use Rattle.std.specs.Prelude.{◌≡◌, OnOk, IfOk, IsPermutation, map, MatchOption, true};
ghost use Rattle.std.specs.Ordering.{is_lt};
ghost use Rattle.vt_value.specs.declared.value.Value.{Value as V};
ghost use Rattle.vt_value.specs.Values.{value_cmp};
ghost use Rattle.key_intervals.specs.Listed.{is_among, Climbs};

use std::alloc::{AllocError, Global};
use vt_value::{Value, sort_order};

fn sort(values: &mut Vec<&Value>) -> Result<(), AllocError>
    ensures permutation { IsPermutation values.old.items values.new.items }
    ensures sorted { OnOk result (Climbs (map (λ v. v.now) values.new.items)) }
{
    values.sort_by(|a, b| sort_order(a, b))?;
    Ok(())
}

fn all<'a>(alloc: Global, values: &'a [Value]) -> Result<Vec<&'a Value>, AllocError>
    ensures ok { IfOk result (λ list. map (λ v. v.now) list.items ≡ values.now) }
{
    let mut list = Vec::with_capacity(alloc, values.len())?;
    for value in values {
        list.push(value)?;
    }
    Ok(list)
}

/// The values in their order. Refuses for want of memory.
pub fn sorted<'a>(alloc: Global, values: &'a [Value]) -> Result<Vec<&'a Value>, AllocError>
    ensures sorted { IfOk result (λ list. Climbs (map (λ v. v.now) list.items)) }
    ensures same { IfOk result (λ list. (x : V) → is_among (map (λ v. v.now) list.items) x ≡ is_among values.now x) }
{
    let mut list = all(alloc, values)?;
    match sort(&mut list) {
        Ok(()) => Ok(list),
        Err(e) => Err(e),
    }
}

/// Whether a value is after the last one, if there is one.
pub fn comes_after(last: Option<&Value>, value: &Value) -> bool
    ensures { MatchOption last.entry (result ≡ true) (λ l. result ≡ is_lt (value_cmp l.now value.now)) }
{
    match last {
        Some(last) => sort_order(last, value).is_lt(),
        None => true,
    }
}
