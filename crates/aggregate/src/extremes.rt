//! MIN and MAX. Both skip NULL; the part of a bag is its least or greatest value, or none.
ghost use Rattle.std.specs.Prelude.{◌≡◌, Some, OnOk, OnErr};
ghost use Rattle.aggregate.specs.Aggregates.{lesser, greater};
ghost use Rattle.aggregate.specs.Parts.{join_options};
ghost use Rattle.vt_value.specs.declared.value.Value.{Value};

use crate::joining::Aggregate;
use std::alloc::{AllocError, Global};
use vt_value::{Value, copy, sort_order};

/// MIN: the least of the values that are not NULL, NULL of none.
#[derive(Clone, Copy, Debug)]
pub struct Min;

/// MAX: the greatest of the values that are not NULL, NULL of none.
#[derive(Clone, Copy, Debug)]
pub struct Max;

fn keep_lesser(alloc: Global, kept: &mut Option<Value>, value: &Value) -> Result<(), AllocError>
    ensures ok { OnOk result (kept.new ≡ join_options lesser kept.old (Some value.now)) }
    ensures kept { OnErr result (kept.new ≡ kept.old) }
{
    let replaces = match kept {
        Some(least) => sort_order(value, least).is_lt(),
        None => true,
    };
    if replaces {
        *kept = Some(copy(alloc, value)?);
    }
    Ok(())
}

fn keep_greater(alloc: Global, kept: &mut Option<Value>, value: &Value) -> Result<(), AllocError>
    ensures ok { OnOk result (kept.new ≡ join_options greater kept.old (Some value.now)) }
    ensures kept { OnErr result (kept.new ≡ kept.old) }
{
    let replaces = match kept {
        Some(greatest) => sort_order(greatest, value).is_lt(),
        None => true,
    };
    if replaces {
        *kept = Some(copy(alloc, value)?);
    }
    Ok(())
}

impl Aggregate for Min {
    ghost use Rattle.std.specs.Prelude.{None, unwrap_or, ⊤};
    ghost use Rattle.vt_value.specs.declared.value.Value.TheVariants.{Null};
    ghost use Rattle.aggregate.specs.Aggregates.{present, lesser, least_of};
    ghost use Rattle.aggregate.specs.Parts.{gathered, join_options, present_value};
    ghost use Rattle.aggregate.specs.inner.ExtremeLemmas.{min_laws};

    type Part = Option<Value>;

    ghost part_of = { gathered (join_options lesser) None present_value };

    ghost joined = { join_options lesser };

    ghost can_hold = { λ _. ⊤ };

    ghost finished = { λ p. unwrap_or p Null };

    ghost meaning = { λ vs. least_of (present vs) };

    fn empty() -> Option<Value> {
        None
    }

    fn add(alloc: Global, part: &mut Option<Value>, value: &Value) -> Result<(), AllocError> {
        if matches!(value, Value::Null) {
            return Ok(());
        }
        keep_lesser(alloc, part, value)
    }

    fn join(
        alloc: Global,
        part: &mut Option<Value>,
        other: &Option<Value>,
    ) -> Result<(), AllocError> {
        match other {
            Some(value) => keep_lesser(alloc, part, value),
            None => Ok(()),
        }
    }

    fn finish(part: Option<Value>) -> Value {
        part.unwrap_or(Value::Null)
    }

    ghost laws = { min_laws };

    ghost holds = { λ _ _. tt };
}

impl Aggregate for Max {
    ghost use Rattle.std.specs.Prelude.{None, unwrap_or, ⊤};
    ghost use Rattle.vt_value.specs.declared.value.Value.TheVariants.{Null};
    ghost use Rattle.aggregate.specs.Aggregates.{present, greater, greatest_of};
    ghost use Rattle.aggregate.specs.Parts.{gathered, join_options, present_value};
    ghost use Rattle.aggregate.specs.inner.ExtremeLemmas.{max_laws};

    type Part = Option<Value>;

    ghost part_of = { gathered (join_options greater) None present_value };

    ghost joined = { join_options greater };

    ghost can_hold = { λ _. ⊤ };

    ghost finished = { λ p. unwrap_or p Null };

    ghost meaning = { λ vs. greatest_of (present vs) };

    fn empty() -> Option<Value> {
        None
    }

    fn add(alloc: Global, part: &mut Option<Value>, value: &Value) -> Result<(), AllocError> {
        if matches!(value, Value::Null) {
            return Ok(());
        }
        keep_greater(alloc, part, value)
    }

    fn join(
        alloc: Global,
        part: &mut Option<Value>,
        other: &Option<Value>,
    ) -> Result<(), AllocError> {
        match other {
            Some(value) => keep_greater(alloc, part, value),
            None => Ok(()),
        }
    }

    fn finish(part: Option<Value>) -> Value {
        part.unwrap_or(Value::Null)
    }

    ghost laws = { max_laws };

    ghost holds = { λ _ _. tt };
}
