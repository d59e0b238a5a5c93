//! The conjuncts of a join's WHERE that have columns of its first table alone.
ghost use Rattle.std.specs.Prelude.{◌≡◌, ◌++◌, List, map, true, IsTrue, IfOk, OnOk};
ghost use Rattle.vt_value.specs.declared.value.Value.{Value as V};
ghost use Rattle.vt_value.specs.Values.{is_true, all_true};
ghost use Rattle.sql_eval.specs.Sources.{padded_row};
ghost use Rattle.sql_eval.specs.Conditions.{truth_at, operand_value, is_kept};
ghost use Rattle.key_intervals.specs.Conjuncts.{passes};

use sql_eval::truth;
use sql_tree::{Condition, Operand};
use std::alloc::{AllocError, Global};
use vt_value::{Row, Truth};

// Whether an operand is a literal or a column below an ordinal.
fn is_operand_below(operand: &Operand<usize>, width: usize) -> bool
    ensures { IsTrue result → (first second : List V) → operand_value (padded_row width first ++ second) operand.now ≡ operand_value first operand.now }
{
    match operand {
        Operand::Column(ordinal) => *ordinal < width,
        Operand::Literal(_) => true,
    }
}

// Whether all columns of a condition are below an ordinal.
#[cycle(below)]
fn is_below(condition: &Condition<usize>, width: usize) -> bool
    ensures { IsTrue result → (first second : List V) → truth_at (padded_row width first ++ second) condition.now ≡ truth_at first condition.now }
{
    match condition {
        Condition::Compare(_, a, b) => is_operand_below(a, width) && is_operand_below(b, width),
        Condition::In(a, _) => is_operand_below(a, width),
        Condition::IsNull(a) => is_operand_below(a, width),
        Condition::Not(c) => is_below(c.get(), width),
        Condition::And(members) => are_below(members.as_slice(), width),
        Condition::Or(members) => are_below(members.as_slice(), width),
    }
}

#[cycle(below)]
fn are_below(members: &[Condition<usize>], width: usize) -> bool
    ensures { IsTrue result → (first second : List V) → map (truth_at (padded_row width first ++ second)) members.now ≡ map (truth_at first) members.now }
{
    for member in members {
        if !is_below(member, width) {
            return false;
        }
    }
    true
}

// Adds the conjuncts of a condition whose columns are all below an ordinal.
#[cycle(own)]
fn push_own<'a>(
    condition: &'a Condition<usize>,
    width: usize,
    own: &mut Vec<&'a Condition<usize>>,
) -> Result<(), AllocError>
    ensures ok { OnOk result ((first second : List V) → passes own.old.items first ≡ true
        → is_true (truth_at (padded_row width first ++ second) condition.now) ≡ true → passes own.new.items first ≡ true) }
{
    if let Condition::And(members) = condition {
        return push_own_of_each(members.as_slice(), width, own);
    }
    if is_below(condition, width) {
        own.push(condition)?;
    }
    Ok(())
}

#[cycle(own)]
fn push_own_of_each<'a>(
    members: &'a [Condition<usize>],
    width: usize,
    own: &mut Vec<&'a Condition<usize>>,
) -> Result<(), AllocError>
    ensures ok { OnOk result ((first second : List V) → passes own.old.items first ≡ true
        → is_true (all_true (map (truth_at (padded_row width first ++ second)) members.now)) ≡ true → passes own.new.items first ≡ true) }
{
    for member in members {
        push_own(member, width, own)?;
    }
    Ok(())
}

fn conjuncts_of<'a>(
    alloc: Global,
    condition: &'a Condition<usize>,
    width: usize,
) -> Result<Vec<&'a Condition<usize>>, AllocError>
    ensures ok { IfOk result (λ own. (first second : List V) → is_true (truth_at (padded_row width first ++ second) condition.now) ≡ true → passes own.items first ≡ true) }
{
    let mut own = Vec::new(alloc);
    push_own(condition, width, &mut own)?;
    Ok(own)
}

/// The conjuncts of a condition on pairs whose columns are all below an ordinal, and so columns of the first row. Each is true at the first row
/// of a pair at which the condition is true. Refuses for want of memory.
pub fn own_conjuncts<'a>(
    alloc: Global,
    condition: &'a Option<Condition<usize>>,
    width: usize,
) -> Result<Vec<&'a Condition<usize>>, AllocError>
    ensures ok { IfOk result (λ own. (first second : List V) → is_kept condition.now (padded_row width first ++ second) ≡ true → passes own.items first ≡ true) }
{
    match condition {
        Some(condition) => conjuncts_of(alloc, condition, width),
        None => Ok(Vec::new(alloc)),
    }
}

fn is_true_at(condition: &Condition<usize>, row: &Row) -> bool
    ensures { result ≡ is_true (truth_at row.now condition.now) }
{
    matches!(truth(condition, row), Truth::True)
}

/// Whether each of these conditions is true at a row.
pub fn passes(own: &[&Condition<usize>], row: &Row) -> bool
    ensures { result ≡ passes own.now row.now }
{
    own.iter().all(|condition| is_true_at(condition, row))
}
