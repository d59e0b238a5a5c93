//! What the conjuncts of a condition say of the columns that decide the shard: the members of its AND, nested ANDs opened, from the left.
ghost use Rattle.std.specs.Prelude.{◌≡◌, IfOk, map, flat_map};
ghost use Rattle.std.specs.List.{list_any, list_all};
ghost use Rattle.vt_value.specs.Values.{is_null};
ghost use Rattle.planner.specs.Routes.{is_null_literal, is_never, of_kind, literal_with, equals, members_with, among, first_of};

use crate::keys::{Keys, kind_in};
use sql_tree::{Condition, Operand};
use std::alloc::{AllocError, Global};
use vschema::ColumnType;
use vt_value::{Comparison, Items, Value, copy, copy_row};

pub fn is_null(value: &Value) -> bool
    ensures { result ≡ is_null value.now }
{
    matches!(value, Value::Null)
}

fn is_null_literal(operand: &Operand<usize>) -> bool
    ensures { result ≡ is_null_literal operand.now }
{
    match operand {
        Operand::Column(_) => false,
        Operand::Literal(value) => is_null(value),
    }
}

fn are_null(members: &[Value]) -> bool
    ensures { result ≡ list_all is_null members.now }
{
    members.iter().all(|member| is_null(member))
}

/// Whether a conjunct can't be true: a comparison with the literal NULL, or an IN whose members are all NULL.
#[cycle(never)]
pub fn is_never(condition: &Condition<usize>) -> bool
    ensures { result ≡ is_never condition.now }
{
    match condition {
        Condition::Compare(_, a, b) => is_null_literal(a) || is_null_literal(b),
        Condition::In(_, members) => are_null(members.as_slice()),
        Condition::And(members) => has_never(members.as_slice()),
        _ => false,
    }
}

#[cycle(never)]
fn has_never(members: &[Condition<usize>]) -> bool
    ensures { result ≡ list_any (λ n. n) (map is_never members.now) }
{
    for member in members {
        if is_never(member) {
            return true;
        }
    }
    false
}

/// The literal of the leftmost conjunct `column = literal` or `literal = column` on one of these columns, with the column's type.
#[cycle(equal)]
pub fn first_equal(
    alloc: Global,
    keys: Keys,
    condition: &Condition<usize>,
) -> Result<Option<(ColumnType, Value)>, AllocError>
    ensures ok { IfOk result (λ found. found ≡ first_of (equals keys condition.now)) }
{
    match condition {
        Condition::Compare(Comparison::Eq, a, b) => literal_with(alloc, keys, a, b),
        Condition::And(members) => first_equal_of(alloc, keys, members.as_slice()),
        _ => Ok(None),
    }
}

#[cycle(equal)]
fn first_equal_of(
    alloc: Global,
    keys: Keys,
    members: &[Condition<usize>],
) -> Result<Option<(ColumnType, Value)>, AllocError>
    ensures ok { IfOk result (λ found. found ≡ first_of (flat_map (λ l. l) (map (equals keys) members.now))) }
{
    for member in members {
        let found = first_equal(alloc, keys, member)?;
        if found.is_some() {
            return Ok(found);
        }
    }
    Ok(None)
}

fn literal_with(
    alloc: Global,
    keys: Keys,
    a: &Operand<usize>,
    b: &Operand<usize>,
) -> Result<Option<(ColumnType, Value)>, AllocError>
    ensures ok { IfOk result (λ found. found ≡ first_of (literal_with keys a.now b.now)) }
{
    match (a, b) {
        (Operand::Column(ordinal), Operand::Literal(value))
        | (Operand::Literal(value), Operand::Column(ordinal)) => {
            copy_where(alloc, kind_in(keys, *ordinal), value)
        }
        _ => Ok(None),
    }
}

fn copy_where(
    alloc: Global,
    kind: Option<ColumnType>,
    value: &Value,
) -> Result<Option<(ColumnType, Value)>, AllocError>
    ensures ok { IfOk result (λ found. found ≡ first_of (of_kind kind value.now)) }
{
    match kind {
        Some(kind) => {
            let value = copy(alloc, value)?;
            Ok(Some((kind, value)))
        }
        None => Ok(None),
    }
}

fn copy_members_where(
    alloc: Global,
    kind: Option<ColumnType>,
    members: &Items<Value>,
) -> Result<Option<(ColumnType, Items<Value>)>, AllocError>
    ensures ok { IfOk result (λ found. found ≡ first_of (of_kind kind members.now)) }
{
    match kind {
        Some(kind) => {
            let members = copy_row(alloc, members)?;
            Ok(Some((kind, members)))
        }
        None => Ok(None),
    }
}

fn members_with(
    alloc: Global,
    keys: Keys,
    operand: &Operand<usize>,
    members: &Items<Value>,
) -> Result<Option<(ColumnType, Items<Value>)>, AllocError>
    ensures ok { IfOk result (λ found. found ≡ first_of (members_with keys operand.now members.now)) }
{
    match operand {
        Operand::Column(ordinal) => copy_members_where(alloc, kind_in(keys, *ordinal), members),
        Operand::Literal(_) => Ok(None),
    }
}

/// The members of the leftmost conjunct `column IN (..)` on one of these columns, with the column's type.
#[cycle(among)]
pub fn first_among(
    alloc: Global,
    keys: Keys,
    condition: &Condition<usize>,
) -> Result<Option<(ColumnType, Items<Value>)>, AllocError>
    ensures ok { IfOk result (λ found. found ≡ first_of (among keys condition.now)) }
{
    match condition {
        Condition::In(operand, members) => members_with(alloc, keys, operand, members),
        Condition::And(members) => first_among_of(alloc, keys, members.as_slice()),
        _ => Ok(None),
    }
}

#[cycle(among)]
fn first_among_of(
    alloc: Global,
    keys: Keys,
    members: &[Condition<usize>],
) -> Result<Option<(ColumnType, Items<Value>)>, AllocError>
    ensures ok { IfOk result (λ found. found ≡ first_of (flat_map (λ l. l) (map (among keys) members.now))) }
{
    for member in members {
        let found = first_among(alloc, keys, member)?;
        if found.is_some() {
            return Ok(found);
        }
    }
    Ok(None)
}
