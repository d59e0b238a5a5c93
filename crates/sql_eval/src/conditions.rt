//! The truth of conditions by SQL's three-valued logic, at a row or at a pair of rows, without copies.
ghost use Rattle.std.specs.Prelude.{◌≡◌, ◌++◌, map, IsTrue};
ghost use Rattle.std.specs.List.{list_any};
ghost use Rattle.vt_value.specs.Values.{in_list, is_null, is_true, all_true, any_true};
ghost use Rattle.sql_eval.specs.Conditions.{truth_at, operand_value, is_kept};
ghost use Rattle.sql_eval.specs.Pairs.{seen};
ghost use Rattle.vschema.specs.Sources.{padded_row};

use crate::rows::value_at;
use sql_tree::{Condition, Operand};
use vt_value::{Comparison, Row, Truth, Value, compare};

/// The values that a condition is tested on, as they are: those of a row, or those of a pair of rows.
#[derive(Clone, Copy)]
pub enum Seen<'r> {
    Row(&'r Row),
    /// The first row, how many columns its table has, and the second row.
    Pair(&'r Row, usize, &'r Row),
}

fn pair_at<'v>(
    first: &'v Row,
    width: usize,
    second: &'v Row,
    ordinal: usize,
    null: &'v Value,
) -> &'v Value
    requires { null.now ≡ Value.Null }
    ensures { result.now ≡ Rattle.vt_value.specs.Values.value_at (padded_row width first.now ++ second.now) ordinal }
{
    if ordinal < width {
        value_at(first, ordinal, null)
    } else {
        value_at(second, ordinal - width, null)
    }
}

/// The value at an ordinal: `null`, which is NULL, after the last one.
pub fn seen_at<'v>(values: Seen<'v>, ordinal: usize, null: &'v Value) -> &'v Value
    requires { null.now ≡ Value.Null }
    ensures { result.now ≡ Rattle.vt_value.specs.Values.value_at (seen values.entry) ordinal }
{
    match values {
        Seen::Row(row) => value_at(row, ordinal, null),
        Seen::Pair(first, width, second) => pair_at(first, width, second, ordinal, null),
    }
}

pub fn is_null_value(v: &Value) -> bool
    ensures { result ≡ is_null v.now }
{
    matches!(v, Value::Null)
}

fn equals(x: &Value, y: &Value) -> bool
    ensures { result ≡ is_true (Rattle.vt_value.specs.Values.compare Comparison.Eq x.now y.now) }
{
    matches!(compare(Comparison::Eq, x, y), Truth::True)
}

fn has_equal(x: &Value, members: &[Value]) -> bool
    ensures { result ≡ list_any (λ m. is_true (Rattle.vt_value.specs.Values.compare Comparison.Eq x.now m)) members.now }
{
    members.iter().any(|m| equals(x, m))
}

fn has_null(members: &[Value]) -> bool
    ensures { result ≡ list_any is_null members.now }
{
    members.iter().any(|m| is_null_value(m))
}

fn is_among(x: &Value, members: &[Value]) -> Truth
    ensures { result ≡ in_list x.now members.now }
{
    if has_equal(x, members) {
        Truth::True
    } else if is_null_value(x) || has_null(members) {
        Truth::Unknown
    } else {
        Truth::False
    }
}

pub fn operand<'a>(o: &'a Operand<usize>, values: Seen<'a>, null: &'a Value) -> &'a Value
    requires { null.now ≡ Value.Null }
    ensures { result.now ≡ operand_value (seen values.entry) o.now }
{
    match o {
        Operand::Column(n) => seen_at(values, *n, null),
        Operand::Literal(v) => v,
    }
}

#[cycle(truth)]
pub fn truth_of(condition: &Condition<usize>, values: Seen) -> Truth
    ensures { result ≡ truth_at (seen values.entry) condition.now }
{
    let null = Value::Null;
    match condition {
        Condition::Compare(op, a, b) => compare(
            *op,
            operand(a, values, &null),
            operand(b, values, &null),
        ),
        Condition::In(a, members) => is_among(operand(a, values, &null), members.as_slice()),
        Condition::IsNull(a) => {
            if is_null_value(operand(a, values, &null)) {
                Truth::True
            } else {
                Truth::False
            }
        }
        Condition::Not(c) => truth_of(c.get(), values).not(),
        Condition::And(members) => every(members.as_slice(), values),
        Condition::Or(members) => some(members.as_slice(), values),
    }
}

#[cycle(truth)]
fn every(members: &[Condition<usize>], values: Seen) -> Truth
    ensures { result ≡ all_true (map (truth_at (seen values.entry)) members.now) }
{
    let mut t = Truth::True;
    for c in members {
        t = t.and(truth_of(c, values));
    }
    t
}

#[cycle(truth)]
fn some(members: &[Condition<usize>], values: Seen) -> Truth
    ensures { result ≡ any_true (map (truth_at (seen values.entry)) members.now) }
{
    let mut t = Truth::False;
    for c in members {
        t = t.or(truth_of(c, values));
    }
    t
}

// Promise: The truth of a condition at a row is SQL's; WHERE keeps the rows if it is true
// With: keeps
/// The truth of a condition at a row, by SQL's three-valued logic. A row has NULL after its last value. Takes no memory.
pub fn truth(condition: &Condition<usize>, row: &Row) -> Truth
    ensures { result ≡ truth_at row.now condition.now }
{
    truth_of(condition, Seen::Row(row))
}

/// Whether WHERE keeps these values: its condition is true, or there is none.
pub fn keeps_seen(filter: &Option<Condition<usize>>, values: Seen) -> bool
    ensures { result ≡ is_kept filter.now (seen values.entry) }
{
    match filter {
        None => true,
        Some(condition) => matches!(truth_of(condition, values), Truth::True),
    }
}

/// Whether WHERE keeps a row: its condition is true, or there is none.
pub fn keeps(filter: &Option<Condition<usize>>, row: &Row) -> bool
    ensures { result ≡ is_kept filter.now row.now }
{
    keeps_seen(filter, Seen::Row(row))
}
