//! Conditions that are tested at many rows: the members of a long IN are put in order first.
ghost use Rattle.std.specs.Prelude.{◌≡◌, List, IfSome, IfOk, OnOk, IsPermutation, IsSorted, map};
ghost use Rattle.std.specs.List.{list_any, list_all};
ghost use Rattle.vt_value.specs.declared.value.Value.{Value as V};
ghost use Rattle.vt_value.specs.declared.value.Comparison.TheVariants.{Eq};
ghost use Rattle.vt_value.specs.Values.{is_true, in_list, value_cmp, compare};
ghost use Rattle.sql_eval.specs.Conditions.{truth_at, operand_value, is_kept};
ghost use Rattle.sql_eval.specs.Pairs.{seen};
ghost use Rattle.sql_eval.specs.KeyOrder.{on_lent};
ghost use Rattle.sql_eval.specs.inner.Tests.{passes, AreTestsOf};

use crate::conditions::{Seen, is_null_value, keeps, operand, truth_of};
use sql_tree::{Condition, Operand};
use std::alloc::{AllocError, Global};
use std::marker::Model;
use vt_value::{Items, Row, Truth, Value, sort_order};

/// So many members are looked through one by one, which takes no memory.
const FEW: usize = 16;

/// Values in their order, none of them copied. Contracts see the values.
#[derive(Drop)]
pub struct Sorted<'m> {
    values: Vec<&'m Value>,
}

impl<'m> Model for Sorted<'m> {
    ghost use Rattle.std.specs.Prelude.{List, map, IsSorted};
    ghost use Rattle.vt_value.specs.declared.value.Value.{Value as V};
    ghost use Rattle.vt_value.specs.Values.{value_cmp};
    ghost use Rattle.sql_eval.specs.KeyOrder.{on_lent};

    ghost Value = { List V };

    ghost view = { λ s. map (λ v. v.now) s.values.items };

    ghost invariant = { λ s. IsSorted (on_lent value_cmp) s.values.items };
}

fn lent(alloc: Global, values: &[Value]) -> Result<Vec<&Value>, AllocError>
    ensures ok { IfOk result (λ list. map (λ v. v.now) list.items ≡ values.now) }
{
    let mut list = Vec::with_capacity(alloc, values.len())?;
    for value in values {
        list.push(value)?;
    }
    Ok(list)
}

fn sort(values: &mut Vec<&Value>) -> Result<(), AllocError>
    ensures permutation { IsPermutation values.old.items values.new.items }
    ensures sorted { OnOk result (IsSorted (on_lent value_cmp) values.new.items) }
{
    values.sort_by(|a, b| sort_order(a, b))?;
    Ok(())
}

impl<'m> Sorted<'m> {
    fn of(alloc: Global, values: &'m [Value]) -> Result<Sorted<'m>, AllocError>
        ensures ok { IfOk result (λ sorted. IsPermutation values.now sorted) }
    {
        let mut list = lent(alloc, values)?;
        match sort(&mut list) {
            Ok(()) => Ok(Sorted { values: list }),
            Err(e) => Err(e),
        }
    }

    /// Whether a value equals one of them.
    fn has_equal(&self, value: &Value) -> bool
        ensures { result ≡ list_any (λ m. is_true (compare Eq value.now m)) self.now }
    {
        if is_null_value(value) {
            return false;
        }
        self.values
            .as_slice()
            .binary_search_by(|other| sort_order(other, value))
            .is_ok()
    }
}

/// What a row has to pass.
#[derive(Drop)]
pub enum Test<'c> {
    /// This condition.
    Truth(&'c Condition<usize>),
    /// That a value is one of these.
    Among(&'c Operand<usize>, Sorted<'c>),
}

fn is_long(condition: &Condition<usize>) -> bool {
    match condition {
        Condition::In(_, members) => members.len() > FEW,
        _ => false,
    }
}

fn has_long(members: &[Condition<usize>]) -> bool {
    members.iter().any(|member| is_long(member))
}

fn among<'c>(
    alloc: Global,
    operand: &'c Operand<usize>,
    members: &'c [Value],
) -> Result<Test<'c>, AllocError>
    ensures ok { IfOk result (λ test. (row : List V) → passes row test ≡ is_true (in_list (operand_value row operand.now) members.now)) }
{
    match Sorted::of(alloc, members) {
        Ok(sorted) => Ok(Test::Among(operand, sorted)),
        Err(e) => Err(e),
    }
}

impl<'c> Test<'c> {
    fn of(alloc: Global, condition: &'c Condition<usize>) -> Result<Test<'c>, AllocError>
        ensures ok { IfOk result (λ test. (row : List V) → passes row test ≡ is_true (truth_at row condition.now)) }
    {
        match condition {
            Condition::In(operand, members) if members.len() > FEW => {
                among(alloc, operand, members.as_slice())
            }
            _ => Ok(Test::Truth(condition)),
        }
    }

    fn passes(&self, values: Seen) -> bool
        ensures { result ≡ passes (seen values.entry) self.now }
    {
        let null = Value::Null;
        match self {
            Test::Truth(condition) => matches!(truth_of(condition, values), Truth::True),
            Test::Among(a, sorted) => sorted.has_equal(operand(a, values, &null)),
        }
    }
}

fn all_pass(tests: &[Test], values: Seen) -> bool
    ensures { result ≡ list_all (passes (seen values.entry)) tests.now }
{
    tests.iter().all(|test| test.passes(values))
}

fn all_tests<'c>(
    alloc: Global,
    members: &'c [Condition<usize>],
) -> Result<Items<Test<'c>>, AllocError>
    ensures ok { IfOk result (λ tests. (row : List V) → list_all (passes row) tests ≡ list_all (λ c. is_true (truth_at row c)) members.now) }
{
    let mut tests = Items::from_vec(Vec::with_capacity(alloc, members.len())?);
    for member in members {
        tests.push(Test::of(alloc, member)?)?;
    }
    Ok(tests)
}

/// The tests of a condition in which an IN is long; `None` if it is tested as it is.
fn tests_of_tree<'c>(
    alloc: Global,
    condition: &'c Condition<usize>,
) -> Result<Option<Items<Test<'c>>>, AllocError>
    ensures ok { IfOk result (λ tests. IfSome tests (λ list. (row : List V) → is_true (truth_at row condition.now) ≡ list_all (passes row) list)) }
{
    match condition {
        Condition::And(members) if has_long(members.as_slice()) => {
            match all_tests(alloc, members.as_slice()) {
                Ok(tests) => Ok(Some(tests)),
                Err(e) => Err(e),
            }
        }
        _ if is_long(condition) => {
            let mut tests = Items::from_vec(Vec::with_capacity(alloc, 1)?);
            tests.push(Test::of(alloc, condition)?)?;
            Ok(Some(tests))
        }
        _ => Ok(None),
    }
}

fn tests_of<'c>(
    alloc: Global,
    condition: &'c Option<Condition<usize>>,
) -> Result<Option<Items<Test<'c>>>, AllocError>
    ensures ok { IfOk result (λ tests. AreTestsOf condition.now tests) }
{
    match condition {
        Some(condition) => tests_of_tree(alloc, condition),
        None => Ok(None),
    }
}

/// A condition that is tested at many rows. Contracts see the condition.
#[derive(Drop)]
pub struct Filter<'c> {
    condition: &'c Option<Condition<usize>>,
    tests: Option<Items<Test<'c>>>,
}

impl<'c> Model for Filter<'c> {
    ghost use Rattle.std.specs.Prelude.{ℕ, Option};
    ghost use Rattle.std.specs.Coded.{codes};
    ghost use Rattle.sql_tree.specs.declared.Condition.{Condition};
    ghost use Rattle.std.specs.Int.{w64};
    ghost use Rattle.sql_tree.specs.contracts.Condition as tree;
    ghost use denote.Plain.{UInt};
    ghost use Rattle.sql_eval.specs.inner.Tests.{AreTestsOf};

    ghost Value = { Option (Condition ℕ) };

    ghost coded = { Prim.hlevel (codes, (tree.the_row (UInt w64)).coded) };

    ghost view = { λ f. f.condition.now };

    ghost invariant = { λ f. AreTestsOf f.condition.now f.tests };
}

impl<'c> Filter<'c> {
    /// Refuses only for want of memory.
    pub fn of(
        alloc: Global,
        condition: &'c Option<Condition<usize>>,
    ) -> Result<Filter<'c>, AllocError>
        ensures ok { IfOk result (λ filter. filter ≡ condition.now) }
    {
        let tests = tests_of(alloc, condition)?;
        Ok(Filter { condition, tests })
    }

    /// A condition that is tested as it is. It takes no memory.
    pub fn plain(condition: &'c Option<Condition<usize>>) -> Filter<'c>
        ensures { result ≡ condition.now }
    {
        Filter {
            condition,
            tests: None,
        }
    }

    /// Whether WHERE keeps a row.
    pub fn keeps(&self, row: &Row) -> bool
        ensures { result ≡ is_kept self.now row.now }
    {
        match &self.tests {
            None => keeps(self.condition, row),
            Some(tests) => all_pass(tests.as_slice(), Seen::Row(row)),
        }
    }
}
