//! The interval of keys in the rows that a condition keeps.
ghost use Rattle.std.specs.Prelude.{◌≡◌, ◌++◌, ◌∷◌, [], None, List, map, true, IsTrue, IfOk, IfSome};
ghost use Rattle.std.specs.Ordering.{is_lt, is_le};
ghost use Rattle.std.specs.Cmp.Lexicographic.{slice_cmp};
ghost use Rattle.vt_value.specs.declared.value.Value.{Value as V};
ghost use Rattle.vt_value.specs.Values.{value_at, value_cmp, is_true};
ghost use Rattle.sql_eval.specs.Conditions.{truth_at, is_kept};
ghost use Rattle.key_intervals.specs.Intervals.{is_above, is_under, is_below, in_interval};

use crate::column::{interval_of, lone_value};
use crate::next::next_value;
use sql_tree::Condition;
use std::alloc::{AllocError, Global};
use std::ops::Bound;
use vt_value::{Items, Row, Value, copy, copy_row};

/// Keys from one list of values on, and below another one, if there is one. A list is before each longer one that begins with it.
#[derive(Drop)]
pub struct KeyInterval {
    pub from: Row,
    pub below: Option<Row>,
}

impl KeyInterval {
    /// Whether it has no bounds, so that all keys lie in it.
    pub fn is_whole(&self) -> bool
        ensures { IsTrue result → (key : List V) → in_interval self.now key ≡ true }
    {
        self.from.is_empty() && self.below.is_none()
    }
}

// The least value above a lower bound, or one below that.
fn floor(alloc: Global, low: Bound<&Value>) -> Result<Option<Value>, AllocError>
    ensures ok { IfOk result (λ value. IfSome value (λ w. (x : V) → is_above low.entry x ≡ true → is_le (value_cmp w x) ≡ true)) }
{
    match low {
        Bound::Included(value) => Ok(Some(copy(alloc, value)?)),
        Bound::Excluded(value) => match next_value(alloc, value)? {
            Some(next) => Ok(Some(next)),
            None => Ok(Some(copy(alloc, value)?)),
        },
        Bound::Unbounded => Ok(None),
    }
}

// The first value above an upper bound.
fn ceiling(alloc: Global, high: Bound<&Value>) -> Result<Option<Value>, AllocError>
    ensures ok { IfOk result (λ value. IfSome value (λ w. (x : V) → is_under high.entry x ≡ true → is_lt (value_cmp x w) ≡ true)) }
{
    match high {
        // any number is above NULL
        Bound::Included(Value::Null) => Ok(Some(Value::Int(i128::MIN))),
        Bound::Included(value) => next_value(alloc, value),
        Bound::Excluded(value) => Ok(Some(copy(alloc, value)?)),
        Bound::Unbounded => Ok(None),
    }
}

fn extended(known: Row, value: Value) -> Result<Row, AllocError>
    ensures ok { IfOk result (λ list. list ≡ known ++ value ∷ []) }
{
    let mut known = known;
    known.push(value)?;
    Ok(known)
}

// From where on all keys are that begin with known values, and then have one above a lower bound.
fn from_bound(alloc: Global, known: Row, low: Bound<&Value>) -> Result<Row, AllocError>
    ensures ok { IfOk result (λ from. (x : V) (rest : List V) → is_above low.entry x ≡ true → is_le (slice_cmp value_cmp from (known ++ x ∷ rest)) ≡ true) }
    ensures from { IfOk result (λ from. is_le (slice_cmp value_cmp known from) ≡ true) }
{
    match floor(alloc, low)? {
        Some(value) => extended(known, value),
        None => Ok(known),
    }
}

// Below what all keys are that begin with known values, then have one under an upper bound, and are below other values, if these are given.
fn below_bound(
    alloc: Global,
    known: &Row,
    below: Option<Row>,
    high: Bound<&Value>,
) -> Result<Option<Row>, AllocError>
    ensures ok { IfOk result (λ lower. (x : V) (rest : List V) → is_under high.entry x ≡ true
        → is_below below (known.now ++ x ∷ rest) ≡ true → is_below lower (known.now ++ x ∷ rest) ≡ true) }
{
    match ceiling(alloc, high)? {
        Some(value) => {
            let known = copy_row(alloc, known)?;
            Ok(Some(extended(known, value)?))
        }
        None => Ok(below),
    }
}

// The interval of keys that begin with known values and are below others, if these are given. Of the columns that follow, those whose value is known
// too narrow it, and the first of which more than one is possible.
fn narrowed(
    alloc: Global,
    condition: &Condition<usize>,
    known: Row,
    below: Option<Row>,
    columns: &[usize],
) -> Result<KeyInterval, AllocError>
    ensures ok { IfOk result (λ keys. (row : List V) → is_true (truth_at row condition.now) ≡ true
        → is_below below (known ++ map (value_at row) columns.now) ≡ true → in_interval keys (known ++ map (value_at row) columns.now) ≡ true) }
    ensures from { IfOk result (λ keys. is_le (slice_cmp value_cmp known keys.from) ≡ true) }
{
    let Some((column, columns)) = columns.split_first() else {
        return Ok(KeyInterval { from: known, below });
    };
    let values = interval_of(condition, *column);
    let below = below_bound(alloc, &known, below, values.high)?;
    match lone_value(values) {
        Some(value) => {
            let known = extended(known, copy(alloc, value)?)?;
            narrowed(alloc, condition, known, below, columns)
        }
        None => {
            let from = from_bound(alloc, known, values.low)?;
            Ok(KeyInterval { from, below })
        }
    }
}

/// An interval in which the key lies of each row that the condition keeps. The key's columns are given: the first of them that have one value then, and the
/// next one, narrow it. Refuses for want of memory.
pub fn key_interval(
    alloc: Global,
    condition: &Option<Condition<usize>>,
    columns: &[usize],
) -> Result<KeyInterval, AllocError>
    ensures { IfOk result (λ keys. (row : List V) → is_kept condition.now row ≡ true → in_interval keys (map (value_at row) columns.now) ≡ true) }
{
    let known = Items::new(alloc);
    match condition {
        Some(condition) => narrowed(alloc, condition, known, None, columns),
        None => Ok(KeyInterval {
            from: known,
            below: None,
        }),
    }
}

/// An interval in which the key lies of each row at which the condition is true and whose first key column has a value; no key before all that begin with it
/// does. The key's other columns are given. Refuses for want of memory.
pub fn key_interval_with(
    alloc: Global,
    condition: &Condition<usize>,
    first: &Value,
    others: &[usize],
) -> Result<KeyInterval, AllocError>
    ensures ok { IfOk result (λ keys. (row : List V) → is_true (truth_at row condition.now) ≡ true → in_interval keys (first.now ∷ map (value_at row) others.now) ≡ true) }
    ensures from { IfOk result (λ keys. is_le (slice_cmp value_cmp (first.now ∷ []) keys.from) ≡ true) }
{
    let known = extended(Items::new(alloc), copy(alloc, first)?)?;
    narrowed(alloc, condition, known, None, others)
}
