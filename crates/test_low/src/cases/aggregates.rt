//! Aggregates over values.
ghost use Rattle.std.specs.Prelude.{◌≡◌, ◌+◌, IsTrue, IfSome};
ghost use Rattle.aggregate.specs.Aggregates.{size, sizes, IsHeld};

use aggregate::{Count, CountStar, Max, Min, Sum, evaluate};
use std::alloc::Global;
use test_fields::{CaseAnswer, Unanswered, fields, row_of};
use vt_value::Value;

fn size_of(value: &Value) -> u128
    ensures { result ≡ size value.now }
{
    match value {
        Value::Int(number) => number.unsigned_abs(),
        _ => 0,
    }
}

// The values in size, together.
fn sized(values: &[Value]) -> Option<u128>
    ensures { IfSome result (λ all. all ≡ sizes values.now) }
{
    let mut all: u128 = 0;
    for value in values {
        all = all.checked_add(size_of(value))?;
    }
    Some(all)
}

fn are_held(values: &[Value]) -> bool
    ensures { IsTrue result → IsHeld values.now }
{
    match sized(values) {
        Some(all) => all < 1 << 127,
        None => false,
    }
}

fn evaluated(alloc: Global, name: &str, values: &[Value]) -> Result<Value, Unanswered> {
    if !are_held(values) {
        return Err(Unanswered::BadLine);
    }
    let value = match name {
        "count_star" => evaluate::<CountStar>(alloc, values),
        "count" => evaluate::<Count>(alloc, values),
        "sum" => evaluate::<Sum>(alloc, values),
        "min" => evaluate::<Min>(alloc, values),
        "max" => evaluate::<Max>(alloc, values),
        _ => return Err(Unanswered::BadLine),
    };
    Ok(value?)
}

/// What an aggregate gives over values.
pub(crate) fn aggregated(
    alloc: Global,
    case: &str,
    told: &mut CaseAnswer,
) -> Result<(), Unanswered> {
    let (name, field) = fields(case)?;
    let row = row_of(alloc, field)?;
    let value = evaluated(alloc, name, row.as_slice());
    drop(row);
    told.put_row(&[value?]);
    Ok(())
}
