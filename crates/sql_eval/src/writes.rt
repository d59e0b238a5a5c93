//! What a write does to the rows of its table, as a list of changes: the rows themselves stay.
ghost use Rattle.std.specs.Prelude.{◌≡◌, ◌⊎◌, IfOk, IfErr, Ok, Err, map, filter, flat_map, option_to_list};
ghost use Rattle.vschema.specs.declared.changes.RowChange.TheVariants.{Added, Removed};
ghost use Rattle.sql_eval.specs.Conditions.{is_kept};
ghost use Rattle.sql_eval.specs.Writes.{assigned, row_updates, changes_over};

use crate::duplicates::has_duplicate;
use crate::filters::Filter;
use crate::rows::same_row;
use crate::source::{RowSource, SliceRows, next_passing};
use sql_tree::{Assignment, Condition};
use std::alloc::{AllocError, Global};
use vschema::{RowChange, Table, Write};
use vt_value::{Items, Refusal, Row, copy, copy_row};

fn added(alloc: Global, ordinal: usize, new: &[Row]) -> Result<Items<RowChange>, AllocError>
    ensures ok { IfOk result (λ changes. changes ≡ map (Added ordinal) new.now) }
{
    let mut changes = Items::from_vec(Vec::with_capacity(alloc, new.len())?);
    for row in new {
        changes.push(RowChange::Added(ordinal, copy_row(alloc, row)?))?;
    }
    Ok(changes)
}

fn assigned(alloc: Global, assignments: &[Assignment<usize>], row: &Row) -> Result<Row, AllocError>
    ensures ok { IfOk result (λ r. r ≡ assigned assignments.now row.now) }
{
    let mut new = copy_row(alloc, row)?;
    for assignment in assignments {
        if assignment.column < new.len() {
            new.set(assignment.column, copy(alloc, &assignment.value)?);
        }
    }
    Ok(new)
}

fn row_update(
    alloc: Global,
    ordinal: usize,
    assignments: &[Assignment<usize>],
    filter: &Filter,
    row: &Row,
) -> Result<Option<RowChange>, AllocError>
    ensures ok { IfOk result (λ change. option_to_list change ≡ row_updates ordinal assignments.now filter.now row.now) }
{
    if !filter.keeps(row) {
        return Ok(None);
    }
    let new = assigned(alloc, assignments, row)?;
    if same_row(row, &new) {
        return Ok(None);
    }
    Ok(Some(RowChange::Replaced(ordinal, copy_row(alloc, row)?, new)))
}

// What an UPDATE does to the rows that come.
fn updates<'a, S: RowSource<'a>>(
    alloc: Global,
    ordinal: usize,
    assignments: &[Assignment<usize>],
    condition: &Filter,
    rows: S,
) -> Result<Items<RowChange>, AllocError>
    ensures ok { IfOk result (λ changes. changes ≡ flat_map (row_updates ordinal assignments.now condition.now) (S.to_come rows)) }
{
    let mut rows = rows;
    let mut changes = Items::new(alloc);
    while let Some(row) = rows.next_row() {
        if let Some(change) = row_update(alloc, ordinal, assignments, condition, row)? {
            changes.push(change)?;
        }
    }
    Ok(changes)
}

/// What an UPDATE does to the rows of its table that a source lends: those whose condition is true are replaced, if their values really
/// change. No other row is copied. Refuses only for want of memory.
pub fn updates_from<'a, S: RowSource<'a>>(
    alloc: Global,
    ordinal: usize,
    assignments: &[Assignment<usize>],
    condition: &Option<Condition<usize>>,
    rows: S,
) -> Result<Items<RowChange>, AllocError>
    ensures ok { IfOk result (λ changes. changes ≡ flat_map (row_updates ordinal assignments.now condition.now) (S.to_come rows)) }
{
    let filter = Filter::of(alloc, condition)?;
    updates(alloc, ordinal, assignments, &filter, rows)
}

// What a DELETE does to the rows that come.
fn removals<'a, S: RowSource<'a>>(
    alloc: Global,
    ordinal: usize,
    condition: &Filter,
    rows: S,
) -> Result<Items<RowChange>, AllocError>
    ensures ok { IfOk result (λ changes. changes ≡ map (Removed ordinal) (filter (is_kept condition.now) (S.to_come rows))) }
{
    let mut rows = rows;
    let mut changes = Items::new(alloc);
    while let Some(row) = next_passing(condition, &mut rows) {
        changes.push(RowChange::Removed(ordinal, copy_row(alloc, row)?))?;
    }
    Ok(changes)
}

/// What a DELETE does to the rows of its table that a source lends: those whose condition is true are removed. No other row is copied.
/// Refuses only for want of memory.
pub fn removals_from<'a, S: RowSource<'a>>(
    alloc: Global,
    ordinal: usize,
    condition: &Option<Condition<usize>>,
    rows: S,
) -> Result<Items<RowChange>, AllocError>
    ensures ok { IfOk result (λ changes. changes ≡ map (Removed ordinal) (filter (is_kept condition.now) (S.to_come rows))) }
{
    let filter = Filter::of(alloc, condition)?;
    removals(alloc, ordinal, &filter, rows)
}

// Promise: What a write does to the rows of its table, or F12 exactly when an INSERT has a primary key twice; rows are the same if they
// compare as equal
// With: same_row, updates_from, removals_from
/// What a write does to the rows of its table: rows added, removed or really changed. Refuses `DuplicateKey` if an INSERT
/// has the primary key of a row that is there, or one twice, and else only for want of memory.
pub fn change_local(
    alloc: Global,
    table: &Table,
    write: &Write,
    rows: &[Row],
) -> Result<Items<RowChange>, Refusal>
    ensures ok { IfOk result (λ changes. changes_over table.now write.now rows.now ≡ Ok changes) }
    ensures err { IfErr result (λ e. (e ≡ Refusal.OutOfMemory) ⊎ (changes_over table.now write.now rows.now ≡ Err e)) }
{
    match write {
        Write::Insert(ordinal, new) => {
            let has = has_duplicate(alloc, table, rows, new.as_slice())?;
            if has {
                return Err(Refusal::DuplicateKey);
            }
            Ok(added(alloc, *ordinal, new.as_slice())?)
        }
        Write::Update(ordinal, assignments, condition) => {
            let rows = SliceRows::new(rows);
            Ok(updates_from(alloc, *ordinal, assignments.as_slice(), condition, rows)?)
        }
        Write::Delete(ordinal, condition) => {
            Ok(removals_from(alloc, *ordinal, condition, SliceRows::new(rows))?)
        }
    }
}
