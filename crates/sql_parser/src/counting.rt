//! The limit on the literals of a statement.
ghost use Rattle.std.specs.Prelude.{◌≡◌, ◌+◌, ◌-◌, nat_le, length, map, sum, sum_by};
ghost use Rattle.sql_tree.specs.Literals.{operand_literals, condition_literals, filter_literals};
ghost use Rattle.sql_parser.specs.Grammar.{max_literals};

use sql_tree::{ColumnName, Condition, Operand};
use vt_value::{Items, Value};

/// How many literals a statement may have.
const MAX_LITERALS: usize = 4096;

fn left_after_operand(operand: &Operand<ColumnName>, left: usize) -> usize
    ensures { result ≡ left - operand_literals operand.now }
{
    match operand {
        Operand::Column(_) => left,
        Operand::Literal(_) => left.saturating_sub(1),
    }
}

/// What is left of an allowance of literals after those of a condition.
#[cycle(literals)]
fn left_after(condition: &Condition<ColumnName>, left: usize) -> usize
    ensures { result ≡ left - condition_literals condition.now }
{
    match condition {
        Condition::Compare(_, a, b) => left_after_operand(b, left_after_operand(a, left)),
        Condition::In(a, members) => left_after_operand(a, left).saturating_sub(members.len()),
        Condition::IsNull(a) => left_after_operand(a, left),
        Condition::Not(inner) => left_after(inner.get(), left),
        Condition::And(members) => left_after_all(members.as_slice(), left),
        Condition::Or(members) => left_after_all(members.as_slice(), left),
    }
}

#[cycle(literals)]
fn left_after_all(members: &[Condition<ColumnName>], left: usize) -> usize
    ensures { result ≡ left - sum (map condition_literals members.now) }
{
    let mut left = left;
    for member in members {
        left = left_after(member, left);
    }
    left
}

fn left_after_filter(filter: &Option<Condition<ColumnName>>, left: usize) -> usize
    ensures { result ≡ left - filter_literals filter.now }
{
    match filter {
        None => left,
        Some(condition) => left_after(condition, left),
    }
}

fn left_after_rows(rows: &[Items<Value>], left: usize) -> usize
    ensures { result ≡ left - sum_by length rows.now }
{
    let mut left = left;
    for row in rows {
        left = left.saturating_sub(row.len());
    }
    left
}

/// Whether a filter and so many literals before it are no more literals than a statement may have.
pub fn filter_has_few_literals(filter: &Option<Condition<ColumnName>>, before: usize) -> bool
    ensures { result ≡ nat_le (before + filter_literals filter.now) max_literals }
{
    left_after_filter(filter, (MAX_LITERALS + 1).saturating_sub(before)) > 0
}

/// Whether rows have no more literals than a statement may have.
pub fn rows_have_few_literals(rows: &[Items<Value>]) -> bool
    ensures { result ≡ nat_le (sum_by length rows.now) max_literals }
{
    left_after_rows(rows, MAX_LITERALS + 1) > 0
}
