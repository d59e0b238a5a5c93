//! Conditions as they are printed, with no more parentheses than their trees need.
ghost use Rattle.std.specs.Prelude.{◌≡◌, ◌++◌, List, codes, flat_map, map, OnOk};
ghost use Rattle.sql_lexer.specs.Lexemes.{operator_text};
ghost use Rattle.sql_tree.specs.Printing.{operand_text, joined, condition_printed, condition_text};
ghost use Rattle.sql_tree.specs.Printing.{inside_and, inside_or};

use crate::lists::put_bracketed;
use crate::literals::{put, put_operand, put_operator};
use crate::{ColumnName, Condition, Operand};
use sql_lexer::Comparison;
use std::alloc::AllocError;

fn put_comparison(
    out: &mut Vec<u8>,
    operator: Comparison,
    left: &Operand<ColumnName>,
    right: &Operand<ColumnName>,
) -> Result<(), AllocError>
    ensures ok { OnOk result (out.new.items
        ≡ out.old.items
        ++ (operand_text left.now ++ codes " " ++ operator_text operator ++ codes " " ++ operand_text right.now)) }
{
    put_operand(out, left)?;
    put(out, b" ")?;
    put_operator(out, operator)?;
    put(out, b" ")?;
    put_operand(out, right)
}

/// Puts a condition.
#[cycle(conditions)]
pub fn put_condition(out: &mut Vec<u8>, condition: &Condition<ColumnName>) -> Result<(), AllocError>
    ensures ok { OnOk result (out.new.items ≡ out.old.items ++ condition_text condition.now) }
{
    match condition {
        Condition::Compare(operator, left, right) => put_comparison(out, *operator, left, right),
        Condition::In(left, members) => {
            put_operand(out, left)?;
            put(out, b" IN ")?;
            put_bracketed(out, members.as_slice())
        }
        Condition::IsNull(left) => {
            put_operand(out, left)?;
            put(out, b" IS NULL")
        }
        Condition::Not(inner) => {
            put(out, b"NOT ")?;
            put_inside_and(out, inner.get())
        }
        Condition::And(members) => put_and(out, members.as_slice()),
        Condition::Or(members) => put_or(out, members.as_slice()),
    }
}

/// A member of an AND, or what is under NOT: an AND and an OR are in parentheses.
#[cycle(conditions)]
fn put_inside_and(out: &mut Vec<u8>, condition: &Condition<ColumnName>) -> Result<(), AllocError>
    ensures ok { OnOk result (out.new.items ≡ out.old.items ++ inside_and (condition_printed condition.now)) }
{
    match condition {
        Condition::And(members) => {
            put(out, b"(")?;
            put_and(out, members.as_slice())?;
            put(out, b")")
        }
        Condition::Or(members) => {
            put(out, b"(")?;
            put_or(out, members.as_slice())?;
            put(out, b")")
        }
        _ => put_condition(out, condition),
    }
}

/// A member of an OR: an OR is in parentheses.
#[cycle(conditions)]
fn put_inside_or(out: &mut Vec<u8>, condition: &Condition<ColumnName>) -> Result<(), AllocError>
    ensures ok { OnOk result (out.new.items ≡ out.old.items ++ inside_or (condition_printed condition.now)) }
{
    match condition {
        Condition::Or(members) => {
            put(out, b"(")?;
            put_or(out, members.as_slice())?;
            put(out, b")")
        }
        _ => put_condition(out, condition),
    }
}

#[cycle(conditions)]
fn put_and(out: &mut Vec<u8>, members: &[Condition<ColumnName>]) -> Result<(), AllocError>
    ensures ok { OnOk result (out.new.items
        ≡ out.old.items ++ joined (codes " AND ") (map inside_and (map condition_printed members.now))) }
{
    for (i, member) in members.iter().enumerate() {
        if i > 0 {
            put(out, b" AND ")?;
        }
        put_inside_and(out, member)?;
    }
    Ok(())
}

#[cycle(conditions)]
fn put_or(out: &mut Vec<u8>, members: &[Condition<ColumnName>]) -> Result<(), AllocError>
    ensures ok { OnOk result (out.new.items
        ≡ out.old.items ++ joined (codes " OR ") (map inside_or (map condition_printed members.now))) }
{
    for (i, member) in members.iter().enumerate() {
        if i > 0 {
            put(out, b" OR ")?;
        }
        put_inside_or(out, member)?;
    }
    Ok(())
}
