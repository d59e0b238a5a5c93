//! SUM, exact in 128 bits: as many numbers as fit in memory can't overflow it.
ghost use Rattle.std.specs.Prelude.{◌≡◌, ◌+ℤ◌, IfSome, FitsSigned};
ghost use Rattle.std.specs.Int.{w128};
ghost use Rattle.aggregate.specs.Parts.{join_options, present_number};
ghost use Rattle.vt_value.specs.declared.value.Value.{Value};

use crate::joining::Aggregate;
use std::alloc::{AllocError, Global};
use vt_value::Value;

/// SUM: the exact sum of the values that are not NULL, NULL of none. A text counts as 0.
#[derive(Clone, Copy, Debug)]
pub struct Sum;

/// The part of one value: its number, 0 of a text, none of NULL.
pub fn number(value: &Value) -> Option<i128>
    ensures { result ≡ present_number value.now }
{
    match value {
        Value::Null => None,
        Value::Int(number) => Some(*number),
        Value::Bytes(_) => Some(0),
    }
}

/// The sum of two parts, of which `None` is that of no values.
pub fn plus(a: Option<i128>, b: Option<i128>) -> Option<i128>
    requires { IfSome (join_options ◌+ℤ◌ a b) (λ n. FitsSigned w128 n) }
    ensures { result ≡ join_options ◌+ℤ◌ a b }
{
    match (a, b) {
        (Some(a), Some(b)) => Some(a + b),
        (Some(a), None) => Some(a),
        (None, b) => b,
    }
}

impl Aggregate for Sum {
    ghost use Rattle.std.specs.Prelude.{None, IfSome, ◌+ℤ◌, FitsSigned};
    ghost use Rattle.std.specs.Int.{w128};
    ghost use Rattle.aggregate.specs.Aggregates.{present, sum_of};
    ghost use Rattle.aggregate.specs.Parts.{gathered, join_options, present_number, part_value};
    ghost use Rattle.aggregate.specs.inner.SumLemmas.{sum_laws, sum_holds};

    type Part = Option<i128>;

    ghost part_of = { gathered (join_options ◌+ℤ◌) None present_number };

    ghost joined = { join_options ◌+ℤ◌ };

    ghost can_hold = { λ p. IfSome p (λ n. FitsSigned w128 n) };

    ghost finished = { part_value };

    ghost meaning = { λ vs. sum_of (present vs) };

    fn empty() -> Option<i128> {
        None
    }

    fn add(_alloc: Global, part: &mut Option<i128>, value: &Value) -> Result<(), AllocError> {
        *part = plus(*part, number(value));
        Ok(())
    }

    fn join(
        _alloc: Global,
        part: &mut Option<i128>,
        other: &Option<i128>,
    ) -> Result<(), AllocError> {
        *part = plus(*part, *other);
        Ok(())
    }

    fn finish(part: Option<i128>) -> Value {
        match part {
            Some(sum) => Value::Int(sum),
            None => Value::Null,
        }
    }

    ghost laws = { sum_laws };

    ghost holds = { sum_holds };
}
