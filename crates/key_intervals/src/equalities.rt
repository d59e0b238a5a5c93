//! The values that a condition fixes a column to.
ghost use Rattle.std.specs.Prelude.{◌≡◌, ◌<◌, IfSome, List, map, true};
ghost use Rattle.vt_value.specs.declared.value.Value.{Value as V};
ghost use Rattle.vt_value.specs.Values.{value_at, is_true, all_true, compare, in_list};
ghost use Rattle.sql_eval.specs.Conditions.{truth_at, operand_value};
ghost use Rattle.sql_eval.specs.Sources.{paired, is_pair};
ghost use Rattle.sql_eval.specs.Conditions.{is_kept};
ghost use Rattle.key_intervals.specs.Listed.{fits};

use sql_eval::Join;
use sql_tree::{Condition, Operand};
use vt_value::{Comparison, Value};

/// Values of which a column has one.
#[derive(Clone, Copy)]
pub enum Fixed<'a> {
    /// This one.
    One(&'a Value),
    /// One of these.
    Among(&'a [Value]),
}

fn fixed_by_operands<'a>(
    column: usize,
    a: &'a Operand<usize>,
    b: &'a Operand<usize>,
) -> Option<Fixed<'a>>
    ensures { IfSome result (λ f. (row : List V) → is_true (compare Comparison.Eq (operand_value row a.now) (operand_value row b.now)) ≡ true
        → fits f (value_at row column) ≡ true) }
{
    match (a, b) {
        (Operand::Column(ordinal), Operand::Literal(value)) if *ordinal == column => {
            Some(Fixed::One(value))
        }
        (Operand::Literal(value), Operand::Column(ordinal)) if *ordinal == column => {
            Some(Fixed::One(value))
        }
        _ => None,
    }
}

fn fixed_among<'a>(column: usize, a: &'a Operand<usize>, members: &'a [Value]) -> Option<Fixed<'a>>
    ensures { IfSome result (λ f. (row : List V) → is_true (in_list (operand_value row a.now) members.now) ≡ true
        → fits f (value_at row column) ≡ true) }
{
    match a {
        Operand::Column(ordinal) if *ordinal == column => Some(Fixed::Among(members)),
        _ => None,
    }
}

/// The literals of the leftmost conjunct `column = literal`, `literal = column` or `column IN (..)`: the column has one of them in each row
/// at which the condition is true.
#[cycle(fixed)]
pub fn fixed_values<'a>(condition: &'a Condition<usize>, column: usize) -> Option<Fixed<'a>>
    ensures { IfSome result (λ f. (row : List V) → is_true (truth_at row condition.now) ≡ true → fits f (value_at row column) ≡ true) }
{
    match condition {
        Condition::Compare(Comparison::Eq, a, b) => fixed_by_operands(column, a, b),
        Condition::In(a, members) => fixed_among(column, a, members.as_slice()),
        Condition::And(members) => fixed_by_one(members.as_slice(), column),
        _ => None,
    }
}

#[cycle(fixed)]
fn fixed_by_one<'a>(members: &'a [Condition<usize>], column: usize) -> Option<Fixed<'a>>
    ensures { IfSome result (λ f. (row : List V) → is_true (all_true (map (truth_at row) members.now)) ≡ true → fits f (value_at row column) ≡ true) }
{
    for member in members {
        if let Some(values) = fixed_values(member, column) {
            return Some(values);
        }
    }
    None
}

// Values of which the first row of each pair at which the condition is true has one in a column. The condition may fix the column itself, or
// the column of the second row that the join makes equal to it.
fn fixed_in_pairs<'a>(
    condition: &'a Condition<usize>,
    join: Join,
    column: usize,
) -> Option<Fixed<'a>>
    requires { column < join.width }
    ensures { IfSome result (λ f. (first second : List V) → is_pair join first second ≡ true → is_true (truth_at (paired join first second) condition.now) ≡ true
        → fits f (value_at first column) ≡ true) }
{
    match fixed_values(condition, column) {
        Some(values) => Some(values),
        None if column == join.first => fixed_values(condition, join.second),
        None => None,
    }
}

/// Values of which the first row of each pair that WHERE keeps has one in a column.
pub fn fixed_first<'a>(
    condition: &'a Option<Condition<usize>>,
    join: Join,
    column: usize,
) -> Option<Fixed<'a>>
    ensures { IfSome result (λ f. (first second : List V) → is_pair join first second ≡ true → is_kept condition.now (paired join first second) ≡ true
        → fits f (value_at first column) ≡ true) }
{
    match condition {
        Some(condition) if column < join.width => fixed_in_pairs(condition, join, column),
        _ => None,
    }
}
