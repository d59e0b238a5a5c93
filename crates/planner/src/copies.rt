//! Copies of the parts of a query.
ghost use Rattle.std.specs.Prelude.{◌≡◌, IfOk};

use sql_eval::copy_item;
use sql_tree::{Condition, Item, Key, Operand};
use std::alloc::{AllocError, Global};
use vt_value::{Boxed, Items, copy, copy_row};

pub fn copy_operand(alloc: Global, operand: &Operand<usize>) -> Result<Operand<usize>, AllocError>
    ensures ok { IfOk result (λ o. o ≡ operand.now) }
{
    match operand {
        Operand::Column(ordinal) => Ok(Operand::Column(*ordinal)),
        Operand::Literal(value) => {
            let value = copy(alloc, value)?;
            Ok(Operand::Literal(value))
        }
    }
}

fn copy_operands(
    alloc: Global,
    a: &Operand<usize>,
    b: &Operand<usize>,
) -> Result<(Operand<usize>, Operand<usize>), AllocError>
    ensures left { IfOk result (λ o. o.0 ≡ a.now) }
    ensures right { IfOk result (λ o. o.1 ≡ b.now) }
{
    let a = copy_operand(alloc, a)?;
    let b = copy_operand(alloc, b)?;
    Ok((a, b))
}

#[cycle(copy)]
pub fn copy_condition(
    alloc: Global,
    condition: &Condition<usize>,
) -> Result<Condition<usize>, AllocError>
    ensures ok { IfOk result (λ c. c ≡ condition.now) }
{
    match condition {
        Condition::Compare(op, a, b) => {
            let (a, b) = copy_operands(alloc, a, b)?;
            Ok(Condition::Compare(*op, a, b))
        }
        Condition::In(a, members) => {
            let members = copy_row(alloc, members)?;
            let a = copy_operand(alloc, a)?;
            Ok(Condition::In(a, members))
        }
        Condition::IsNull(a) => {
            let a = copy_operand(alloc, a)?;
            Ok(Condition::IsNull(a))
        }
        Condition::Not(inner) => {
            let inner = Boxed::new(alloc, copy_condition(alloc, inner.get())?)?;
            Ok(Condition::Not(inner))
        }
        Condition::And(members) => {
            let members = copy_members(alloc, members.as_slice())?;
            Ok(Condition::And(members))
        }
        Condition::Or(members) => {
            let members = copy_members(alloc, members.as_slice())?;
            Ok(Condition::Or(members))
        }
    }
}

#[cycle(copy)]
fn copy_members(
    alloc: Global,
    members: &[Condition<usize>],
) -> Result<Items<Condition<usize>>, AllocError>
    ensures ok { IfOk result (λ list. list ≡ members.now) }
{
    let mut copied = Items::from_vec(Vec::with_capacity(alloc, members.len())?);
    for member in members {
        let member = copy_condition(alloc, member)?;
        copied.push(member)?;
    }
    Ok(copied)
}

pub fn copy_items(alloc: Global, items: &[Item<usize>]) -> Result<Items<Item<usize>>, AllocError>
    ensures ok { IfOk result (λ list. list ≡ items.now) }
{
    let mut copied = Items::from_vec(Vec::with_capacity(alloc, items.len())?);
    for item in items {
        copied.push(copy_item(item))?;
    }
    Ok(copied)
}

pub fn copy_keys(alloc: Global, keys: &[Key<usize>]) -> Result<Items<Key<usize>>, AllocError>
    ensures ok { IfOk result (λ list. list ≡ keys.now) }
{
    let mut copied = Items::from_vec(Vec::with_capacity(alloc, keys.len())?);
    for key in keys {
        copied.push(Key {
            column: key.column,
            descending: key.descending,
        })?;
    }
    Ok(copied)
}

pub fn copy_ordinals(alloc: Global, ordinals: &[usize]) -> Result<Items<usize>, AllocError>
    ensures ok { IfOk result (λ list. list ≡ ordinals.now) }
{
    let mut copied = Items::from_vec(Vec::with_capacity(alloc, ordinals.len())?);
    for ordinal in ordinals {
        copied.push(*ordinal)?;
    }
    Ok(copied)
}
