//! The interval of a column's values in the rows that a condition keeps.
ghost use Rattle.std.specs.Prelude.{◌≡◌, List, map, true, IfSome};
ghost use Rattle.vt_value.specs.declared.value.Value.{Value as V};
ghost use Rattle.vt_value.specs.Values.{value_at, value_cmp, is_true, all_true, compare, fits_order};
ghost use Rattle.sql_eval.specs.Conditions.{truth_at, operand_value};
ghost use Rattle.key_intervals.specs.Intervals.{is_above, is_under, is_inside};
ghost use Rattle.key_intervals.specs.inner.Turned.{turned};

use sql_tree::{Condition, Operand};
use std::ops::Bound;
use vt_value::{Comparison, Value, sort_order};

/// Values from one bound to another, in the order of values.
#[derive(Clone, Copy)]
pub struct Interval<'a> {
    /// No value lies below it.
    pub low: Bound<&'a Value>,
    /// No value lies above it.
    pub high: Bound<&'a Value>,
}

fn everything<'a>() -> Interval<'a>
    ensures { (x : V) → is_inside result x ≡ true }
{
    Interval {
        low: Bound::Unbounded,
        high: Bound::Unbounded,
    }
}

// The values that compare so to a value.
#[tactic(auto, using(crate::proofs::ColumnLemmas::equal_inside, crate::proofs::ColumnLemmas::greater_inside, crate::proofs::ColumnLemmas::less_inside))]
fn by_comparison<'a>(operator: Comparison, value: &'a Value) -> Interval<'a>
    ensures { (x : V) → fits_order operator (value_cmp x value.now) ≡ true → is_inside result x ≡ true }
{
    let (low, high) = match operator {
        Comparison::Eq => (Bound::Included(value), Bound::Included(value)),
        Comparison::Ne => (Bound::Unbounded, Bound::Unbounded),
        Comparison::Lt => (Bound::Unbounded, Bound::Excluded(value)),
        Comparison::Le => (Bound::Unbounded, Bound::Included(value)),
        Comparison::Gt => (Bound::Excluded(value), Bound::Unbounded),
        Comparison::Ge => (Bound::Included(value), Bound::Unbounded),
    };
    Interval { low, high }
}

fn turned(operator: Comparison) -> Comparison
    ensures { result ≡ turned operator }
{
    match operator {
        Comparison::Eq => Comparison::Eq,
        Comparison::Ne => Comparison::Ne,
        Comparison::Lt => Comparison::Gt,
        Comparison::Le => Comparison::Ge,
        Comparison::Gt => Comparison::Lt,
        Comparison::Ge => Comparison::Le,
    }
}

fn by_operands<'a>(
    operator: Comparison,
    column: usize,
    a: &'a Operand<usize>,
    b: &'a Operand<usize>,
) -> Interval<'a>
    ensures { (row : List V) → is_true (compare operator (operand_value row a.now) (operand_value row b.now)) ≡ true
        → is_inside result (value_at row column) ≡ true }
{
    match (a, b) {
        (Operand::Column(ordinal), Operand::Literal(value)) if *ordinal == column => {
            by_comparison(operator, value)
        }
        (Operand::Literal(value), Operand::Column(ordinal)) if *ordinal == column => {
            by_comparison(turned(operator), value)
        }
        _ => everything(),
    }
}

// The higher of two lower bounds.
fn higher<'a>(a: Bound<&'a Value>, b: Bound<&'a Value>) -> Bound<&'a Value>
    ensures { (x : V) → is_above a.entry x ≡ true → is_above b.entry x ≡ true → is_above result x ≡ true }
{
    match (a, b) {
        (Bound::Unbounded, _) => b,
        (_, Bound::Unbounded) => a,
        (Bound::Included(v), Bound::Included(w) | Bound::Excluded(w)) => {
            if sort_order(v, w).is_gt() { a } else { b }
        }
        (Bound::Excluded(v), Bound::Included(w) | Bound::Excluded(w)) => {
            if sort_order(v, w).is_lt() { b } else { a }
        }
    }
}

// The lower of two upper bounds.
fn lower<'a>(a: Bound<&'a Value>, b: Bound<&'a Value>) -> Bound<&'a Value>
    ensures { (x : V) → is_under a.entry x ≡ true → is_under b.entry x ≡ true → is_under result x ≡ true }
{
    match (a, b) {
        (Bound::Unbounded, _) => b,
        (_, Bound::Unbounded) => a,
        (Bound::Included(v), Bound::Included(w) | Bound::Excluded(w)) => {
            if sort_order(v, w).is_lt() { a } else { b }
        }
        (Bound::Excluded(v), Bound::Included(w) | Bound::Excluded(w)) => {
            if sort_order(v, w).is_gt() { b } else { a }
        }
    }
}

// What lies in both.
#[tactic(auto, using(crate::proofs::ColumnLemmas::first_of, crate::proofs::ColumnLemmas::second_of, crate::proofs::ColumnLemmas::both_of))]
fn meet<'a>(a: Interval<'a>, b: Interval<'a>) -> Interval<'a>
    ensures { (x : V) → is_inside a.entry x ≡ true → is_inside b.entry x ≡ true → is_inside result x ≡ true }
{
    Interval {
        low: higher(a.low, b.low),
        high: lower(a.high, b.high),
    }
}

// The values of a column in the rows at which a condition that isn't AND is true.
fn by_conjunct<'a>(condition: &'a Condition<usize>, column: usize) -> Interval<'a>
    ensures { (row : List V) → is_true (truth_at row condition.now) ≡ true → is_inside result (value_at row column) ≡ true }
{
    match condition {
        Condition::Compare(operator, a, b) => by_operands(*operator, column, a, b),
        _ => everything(),
    }
}

// Leaves no more of an interval than a condition does.
#[cycle(interval)]
fn narrow<'a>(condition: &'a Condition<usize>, column: usize, found: &mut Interval<'a>)
    ensures { (row : List V) → is_inside found.old (value_at row column) ≡ true → is_true (truth_at row condition.now) ≡ true
        → is_inside found.new (value_at row column) ≡ true }
{
    if let Condition::And(members) = condition {
        return narrow_by_each(members.as_slice(), column, found);
    }
    *found = meet(*found, by_conjunct(condition, column));
}

#[cycle(interval)]
fn narrow_by_each<'a>(members: &'a [Condition<usize>], column: usize, found: &mut Interval<'a>)
    ensures { (row : List V) → is_inside found.old (value_at row column) ≡ true → is_true (all_true (map (truth_at row) members.now)) ≡ true
        → is_inside found.new (value_at row column) ≡ true }
{
    for member in members {
        narrow(member, column, found);
    }
}

// Promise: Each row at which a condition is true has its values in the intervals that the condition's conjuncts give: a column's value between
// two bounds, and its key from one list of values on and below another. A column has one of the values to which they fix it, of the first row of a pair too.
// The conjuncts of a condition on pairs that have columns of the first row alone are true at that row.
// No value lies between a value and the next one. Listed values are put in their order
// With: key_interval, key_interval_with, fixed_values, fixed_first, own_conjuncts, passes, next_value, sorted, comes_after
/// An interval in which a column has its value in each row at which the condition is true: that of all conjuncts, also of nested ANDs, that compare the
/// column with a literal.
pub fn interval_of<'a>(condition: &'a Condition<usize>, column: usize) -> Interval<'a>
    ensures { (row : List V) → is_true (truth_at row condition.now) ≡ true → is_inside result (value_at row column) ≡ true }
{
    let mut found = everything();
    narrow(condition, column, &mut found);
    found
}

/// The only value that an interval can have, if there is one.
pub fn lone_value<'a>(interval: Interval<'a>) -> Option<&'a Value>
    ensures { IfSome result (λ v. (x : V) → is_inside interval.entry x ≡ true → x ≡ v.now) }
{
    match (interval.low, interval.high) {
        (Bound::Included(v), Bound::Included(w)) if sort_order(v, w).is_eq() => Some(v),
        _ => None,
    }
}
