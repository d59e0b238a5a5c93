//! COUNT of a column and COUNT(*): parts are numbers, joined by addition.
ghost use Rattle.vt_value.specs.declared.value.Value.{Value};

use crate::joining::Aggregate;
use std::alloc::{AllocError, Global};
use vt_value::Value;

/// COUNT of a column: how many values are not NULL.
#[derive(Clone, Copy, Debug)]
pub struct Count;

impl Aggregate for Count {
    ghost use Rattle.vt_value.specs.declared.value.Value.TheVariants.{Int};
    ghost use Rattle.std.specs.Prelude.{pos, ◌+◌, ◌<◌, ◌^◌};
    ghost use Rattle.aggregate.specs.Aggregates.{present, count_of};
    ghost use Rattle.aggregate.specs.Parts.{gathered, present_count};
    ghost use Rattle.aggregate.specs.inner.CountLemmas.{count_laws, count_holds};

    type Part = u64;

    ghost part_of = { gathered ◌+◌ 0 present_count };

    ghost joined = { ◌+◌ };

    ghost can_hold = { λ n. n < 2 ^ 64 };

    ghost finished = { λ n. Int (pos n) };

    ghost meaning = { λ vs. count_of (present vs) };

    fn empty() -> u64 {
        0
    }

    fn add(_alloc: Global, part: &mut u64, value: &Value) -> Result<(), AllocError> {
        if !matches!(value, Value::Null) {
            *part += 1;
        }
        Ok(())
    }

    fn join(_alloc: Global, part: &mut u64, other: &u64) -> Result<(), AllocError> {
        *part += *other;
        Ok(())
    }

    fn finish(part: u64) -> Value {
        Value::Int(part as i128)
    }

    ghost laws = { count_laws };

    ghost holds = { count_holds };
}

/// COUNT(*): how many values there are.
#[derive(Clone, Copy, Debug)]
pub struct CountStar;

impl Aggregate for CountStar {
    ghost use Rattle.vt_value.specs.declared.value.Value.TheVariants.{Int};
    ghost use Rattle.std.specs.Prelude.{pos, ◌+◌, ◌<◌, ◌^◌, length};
    ghost use Rattle.aggregate.specs.Aggregates.{count_of};
    ghost use Rattle.aggregate.specs.Parts.{gathered};
    ghost use Rattle.aggregate.specs.inner.CountLemmas.{rows_laws, rows_hold};

    type Part = u64;

    ghost part_of = { gathered ◌+◌ 0 (λ v. 1) };

    ghost joined = { ◌+◌ };

    ghost can_hold = { λ n. n < 2 ^ 64 };

    ghost finished = { λ n. Int (pos n) };

    ghost meaning = { λ vs. count_of vs };

    fn empty() -> u64 {
        0
    }

    fn add(_alloc: Global, part: &mut u64, _value: &Value) -> Result<(), AllocError> {
        *part += 1;
        Ok(())
    }

    fn join(_alloc: Global, part: &mut u64, other: &u64) -> Result<(), AllocError> {
        *part += *other;
        Ok(())
    }

    fn finish(part: u64) -> Value {
        Value::Int(part as i128)
    }

    ghost laws = { rows_laws };

    ghost holds = { rows_hold };
}
