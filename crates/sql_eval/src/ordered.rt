//! Rows in an order that sort keys allow.
ghost use Rattle.std.specs.Prelude.{◌≡◌, IfOk, OnOk, IsPermutation, IsSorted, map, filter};
ghost use Rattle.aggregate.specs.Orders.{row_cmp};
ghost use Rattle.sql_eval.specs.Conditions.{is_kept};
ghost use Rattle.sql_eval.specs.inner.Fronts.{IsFront};

use crate::filters::Filter;
use crate::fronts::first_ordered;
use crate::source::{RowSource, next_passing};
use aggregate::compare_rows;
use sql_tree::Key;
use std::alloc::{AllocError, Global};
use std::marker::Model;
use vt_value::Row;

/// Rows that are still to come, of a list that borrows them. Contracts see the rows.
#[derive(Drop)]
pub struct LentRows<'a> {
    rows: Vec<&'a Row>,
    // the ordinal of the next one
    next: usize,
}

impl<'a> Model for LentRows<'a> {
    ghost use Rattle.std.specs.Prelude.{List, map, drop};
    ghost use Rattle.vt_value.specs.declared.value.Value.{Value as V};

    ghost Value = { List (List V) };

    ghost view = { λ s. map (λ row. row.now) (drop s.next s.rows.items) };
}

impl<'a> RowSource<'a> for LentRows<'a> {
    ghost to_come = { λ rows. rows };

    fn next_row(&mut self) -> Option<&'a Row> {
        if self.next >= self.rows.len() {
            return None;
        }
        let row = self.rows[self.next];
        self.next += 1;
        Some(row)
    }
}

fn all<'a, S: RowSource<'a>>(
    alloc: Global,
    condition: &Filter,
    rows: S,
) -> Result<Vec<&'a Row>, AllocError>
    ensures ok { IfOk result (λ list. map (λ row. row.now) list.items ≡ filter (is_kept condition.now) (S.to_come rows)) }
{
    let mut rows = rows;
    let mut list = Vec::new(alloc);
    while let Some(row) = next_passing(condition, &mut rows) {
        list.push(row)?;
    }
    Ok(list)
}

fn sort(rows: &mut Vec<&Row>, keys: &[Key<usize>]) -> Result<(), AllocError>
    ensures permutation { IsPermutation rows.old.items rows.new.items }
    ensures sorted { OnOk result (IsSorted (row_cmp keys.now) (map (λ row. row.now) rows.new.items)) }
{
    rows.sort_by(|a, b| compare_rows(keys, a, b))?;
    Ok(())
}

/// The rows whose condition is true, in an order that the keys allow. None is copied. Refuses only for want of memory.
pub fn ordered<'a, S: RowSource<'a>>(
    alloc: Global,
    condition: &Filter,
    rows: S,
    keys: &[Key<usize>],
) -> Result<LentRows<'a>, AllocError>
    ensures permutation { IfOk result (IsPermutation (filter (is_kept condition.now) (S.to_come rows))) }
    ensures sorted { IfOk result (IsSorted (row_cmp keys.now)) }
{
    let mut list = all(alloc, condition, rows)?;
    match sort(&mut list, keys) {
        Ok(()) => Ok(LentRows {
            rows: list,
            next: 0,
        }),
        Err(e) => Err(e),
    }
}

/// The first of these rows in an order that the keys allow, at most so many. None is copied. Refuses only for want of memory.
pub fn ordered_front<'a, S: RowSource<'a>>(
    alloc: Global,
    condition: &Filter,
    rows: S,
    keys: &[Key<usize>],
    most: usize,
) -> Result<LentRows<'a>, AllocError>
    ensures ok { IfOk result (IsFront (row_cmp keys.now) most (filter (is_kept condition.now) (S.to_come rows))) }
{
    let rows = first_ordered(alloc, condition, rows, keys, most)?;
    Ok(LentRows { rows, next: 0 })
}
