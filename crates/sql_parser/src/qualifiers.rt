//! Whether a column of a filter comes after the name of a table, as it may in a SELECT alone.
ghost use Rattle.std.specs.Prelude.{◌≡◌, map};
ghost use Rattle.std.specs.List.{list_any};
ghost use Rattle.sql_parser.specs.Qualifiers.{operand_is_qualified, condition_is_qualified, filter_is_qualified};

use sql_tree::{ColumnName, Condition, Operand};

fn operand_is_qualified(operand: &Operand<ColumnName>) -> bool
    ensures { result ≡ operand_is_qualified operand.now }
{
    match operand {
        Operand::Column(column) => column.table.is_some(),
        Operand::Literal(_) => false,
    }
}

/// Whether a column of a condition comes after the name of a table.
#[cycle(qualified)]
fn is_qualified(condition: &Condition<ColumnName>) -> bool
    ensures { result ≡ condition_is_qualified condition.now }
{
    match condition {
        Condition::Compare(_, a, b) => operand_is_qualified(a) || operand_is_qualified(b),
        Condition::In(a, _) => operand_is_qualified(a),
        Condition::IsNull(a) => operand_is_qualified(a),
        Condition::Not(inner) => is_qualified(inner.get()),
        Condition::And(members) => one_is_qualified(members.as_slice()),
        Condition::Or(members) => one_is_qualified(members.as_slice()),
    }
}

#[cycle(qualified)]
fn one_is_qualified(members: &[Condition<ColumnName>]) -> bool
    ensures { result ≡ list_any (λ b. b) (map condition_is_qualified members.now) }
{
    for member in members {
        if is_qualified(member) {
            return true;
        }
    }
    false
}

/// Whether a column of a filter comes after the name of a table.
pub fn filter_is_qualified(filter: &Option<Condition<ColumnName>>) -> bool
    ensures { result ≡ filter_is_qualified filter.now }
{
    match filter {
        None => false,
        Some(condition) => is_qualified(condition),
    }
}
