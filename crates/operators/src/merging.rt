//! Merges inputs that are in order already. It holds one row of each input, and never sorts.
ghost use Rattle.std.specs.Prelude.{◌≡◌, [], ◌∷◌, false, All, map, flat_map, MatchOption, IsPermutation, IsSorted, IfOk, length, ◌<◌};
ghost use Rattle.operators.specs.Orders.{row_cmp};
ghost use Rattle.operators.specs.inner.Merges.{row_lt, head_rows, earlier, IsFirst};

use crate::pulling::Operator;
use crate::sorting::compare_rows;
use sql_tree::Key;
use std::alloc::{AllocError, Global};
use std::mem;
use vt_value::Row;

/// An input, and the row that it gave last: none if it has ended.
#[derive(Drop)]
struct Head<O> {
    row: Option<Row>,
    input: O,
}

impl<O: Operator> Head<O> {
    /// Pulls the input's first row.
    fn new(alloc: Global, input: O) -> Result<Head<O>, AllocError>
        ensures rows { IfOk result (λ head. head_rows O.to_come head ≡ O.to_come input) }
    {
        let mut input = input;
        let row = input.next(alloc)?;
        Ok(Head { row, input })
    }

    /// The row, for which the input's next is pulled.
    fn take(&mut self, alloc: Global) -> Result<Option<Row>, AllocError>
        ensures row { IfOk result (λ taken. MatchOption taken
            ((head_rows O.to_come self.old ≡ []) × (head_rows O.to_come self.new ≡ []))
            (λ row. head_rows O.to_come self.old ≡ row ∷ head_rows O.to_come self.new)) }
    {
        if self.row.is_none() {
            return Ok(None);
        }
        let next = self.input.next(alloc)?;
        Ok(mem::replace(&mut self.row, next))
    }
}

/// The inputs, each with its first row.
fn heads_of<O: Operator>(alloc: Global, inputs: Vec<O>) -> Result<Vec<Head<O>>, AllocError>
    ensures rows { IfOk result (λ heads. map (head_rows O.to_come) heads.items ≡ map O.to_come inputs.items) }
{
    let mut heads = Vec::with_capacity(alloc, inputs.len())?;
    for input in inputs {
        heads.push(Head::new(alloc, input)?)?;
    }
    Ok(heads)
}

fn comes_before(keys: &[Key<usize>], a: &Option<Row>, b: &Option<Row>) -> bool
    ensures { result ≡ earlier (row_lt keys.now) a.now b.now }
{
    match (a, b) {
        (Some(a), Some(b)) => compare_rows(keys, a, b).is_lt(),
        (a, _) => a.is_some(),
    }
}

/// The ordinal of the first of the least rows.
fn first<O>(keys: &[Key<usize>], heads: &[Head<O>]) -> usize
    requires { 0 < length heads.now }
    ensures { IsFirst (row_lt keys.now) heads.now result }
{
    let mut least = 0;
    for ordinal in 1..heads.len() {
        if comes_before(keys, &heads[ordinal].row, &heads[least].row) {
            least = ordinal;
        }
    }
    least
}

/// The rows of several inputs in one order, if each input has its rows in that order. It keeps one row of each input, and pulls the
/// next from the input that it took from. Of rows that the keys don't tell apart those of earlier inputs come first.
#[derive(Drop)]
pub struct MergeSort<'a, O> {
    keys: &'a [Key<usize>],
    heads: Vec<Head<O>>,
    failed: bool,
}

impl<'a, O: Operator> MergeSort<'a, O> {
    /// The rows of these inputs, in an order that the keys allow if each input's rows are in such an order. Pulls the first row of
    /// each. Refuses only for want of memory.
    pub fn new(
        alloc: Global,
        inputs: Vec<O>,
        keys: &'a [Key<usize>],
    ) -> Result<MergeSort<'a, O>, AllocError>
        ensures permutation { IfOk result (λ merge. IsPermutation (flat_map O.to_come inputs.items) (⟦<MergeSort<'a, O> as Operator>⟧.to_come merge)) }
        ensures sorted { IfOk result (λ merge. All (λ input. IsSorted (row_cmp keys.now) (O.to_come input)) inputs.items
            → IsSorted (row_cmp keys.now) (⟦<MergeSort<'a, O> as Operator>⟧.to_come merge)) }
        ensures fresh { IfOk result (λ merge. ⟦<MergeSort<'a, O> as Operator>⟧.has_failed merge ≡ false) }
    {
        Ok(MergeSort {
            keys,
            heads: heads_of(alloc, inputs)?,
            failed: false,
        })
    }
}

impl<O: Operator> Operator for MergeSort<'_, O> {
    ghost use Rattle.operators.specs.inner.Merges.{all_merged};

    ghost to_come = { λ merge. all_merged (row_lt merge.keys.now) (map (head_rows O.to_come) merge.heads.items) };

    ghost has_failed = { λ merge. merge.failed };

    fn next(&mut self, alloc: Global) -> Result<Option<Row>, AllocError> {
        if self.failed {
            return Err(AllocError);
        }
        if self.heads.is_empty() {
            return Ok(None);
        }
        let ordinal = first(self.keys, &self.heads);
        let taken = self.heads[ordinal].take(alloc);
        self.failed = taken.is_err();
        taken
    }
}
