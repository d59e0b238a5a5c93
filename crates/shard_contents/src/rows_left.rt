//! Rows of a snapshot that are put in order some at a time, so that nobody waits for all of them.
ghost use Rattle.std.specs.Prelude.{◌≡◌, ◌<◌, ◌≤◌, ◌++◌, [], None, IfOk, OnOk, IsPermutation, false, drop, length};
ghost use Rattle.vschema.specs.Database.{rows_of};
ghost use Rattle.shard_contents.specs.inner.Earlier.{left_of};

use crate::sorted::{add_copies, add_copy};
use shard_store::{AllRows, RowSource, StoredTables, TableRows};
use std::alloc::{AllocError, Global};
use std::marker::Model;

// How many rows are put in order at a time, at the least. That takes as long as to copy about as many.
const FEWEST_AT_A_TIME: usize = 64;

// One more for so many that are passed over, which takes less time than to put it in order.
const PASSED_FOR_ONE_MORE: usize = 512;

/// Rows of a table in a snapshot, but for so many that were taken from its begin. Contracts see those that are left.
#[derive(Drop)]
pub struct RowsLeft {
    store: StoredTables,
    table: usize,
    done: usize,
}

impl Model for RowsLeft {
    ghost use Rattle.std.specs.Prelude.{◌<◌, List, drop, length};
    ghost use Rattle.vt_value.specs.declared.value.Value.{Value as V};
    ghost use Rattle.vschema.specs.Database.{rows_of};

    ghost Value = { List (List V) };

    ghost view = { λ r. drop r.done (rows_of r.store.rows r.table) };

    ghost invariant = { λ r. r.table < length r.store.rows };
}

// The rows beyond so many.
fn beyond<'a>(rows: AllRows<'a>, count: usize) -> AllRows<'a>
    ensures { result ≡ drop count rows.entry }
{
    let mut rows = rows;
    for _ in 0..count {
        let Some(_row) = rows.next_row() else {
            return rows;
        };
    }
    rows
}

// Adds copies of the first rows, at most so many, and answers how many these are.
fn add_first(
    alloc: Global,
    rows: &mut TableRows,
    first: AllRows<'_>,
    most: usize,
) -> Result<usize, AllocError>
    ensures ok { IfOk result (λ count. IsPermutation (rows.new.rows ++ drop count first.entry) (rows.old.rows ++ first.entry)) }
    ensures all { IfOk result (λ count. count < most → drop count first.entry ≡ []) }
{
    let mut next = first;
    for at in 0..most {
        let Some(row) = next.next_row() else {
            return Ok(at);
        };
        add_copy(alloc, rows, row)?;
    }
    Ok(most)
}

impl RowsLeft {
    /// All rows of the table at a place, as they are now. Takes the same time for any number of rows. Refuses for want of memory.
    pub fn new(
        alloc: Global,
        store: &mut StoredTables,
        place: usize,
    ) -> Result<RowsLeft, AllocError>
        requires { place < length store.old.rows }
        ensures ok { IfOk result (λ left. left ≡ rows_of store.old.rows place) }
        ensures rows { store.new.rows ≡ store.old.rows }
    {
        let store = store.snapshot(alloc)?;
        Ok(RowsLeft {
            store,
            table: place,
            done: 0,
        })
    }

    // Adds copies of the first rows, at most so many, and leaves them out from now on. Answers whether any may be left.
    fn put_at_most(
        &mut self,
        alloc: Global,
        rows: &mut TableRows,
        most: usize,
    ) -> Result<bool, AllocError>
        ensures ok { OnOk result (IsPermutation (rows.new.rows ++ self.new) (rows.old.rows ++ self.old)) }
        ensures all { IfOk result (λ more. more ≡ false → self.new ≡ []) }
    {
        let first = beyond(self.store.all(self.table), self.done);
        let count = add_first(alloc, rows, first, most)?;
        if count > usize::MAX - self.done {
            // no table has so many rows
            return Err(AllocError);
        }
        self.done += count;
        Ok(count >= most)
    }

    /// Adds copies of some of the rows, and leaves them out from now on. Answers whether any may be left. To come to the rows takes no longer
    /// than to add them, so that all of them together take time in their number. If memory is wanting some may have been added.
    pub fn put_some(&mut self, alloc: Global, rows: &mut TableRows) -> Result<bool, AllocError>
        ensures ok { OnOk result (IsPermutation (rows.new.rows ++ self.new) (rows.old.rows ++ self.old)) }
        ensures all { IfOk result (λ more. more ≡ false → self.new ≡ []) }
    {
        let most = FEWEST_AT_A_TIME.saturating_add(self.done / PASSED_FOR_ONE_MORE);
        self.put_at_most(alloc, rows, most)
    }

    /// Adds copies of all rows. If memory is wanting some may have been added.
    pub fn put_all(&self, alloc: Global, rows: &mut TableRows) -> Result<(), AllocError>
        ensures ok { OnOk result (IsPermutation rows.new.rows (rows.old.rows ++ self.now)) }
    {
        let left = beyond(self.store.all(self.table), self.done);
        add_copies(alloc, rows, left)
    }
}

// Puts all rows in order that are left.
pub(crate) fn put_left(
    alloc: Global,
    rows: &mut TableRows,
    left: &mut Option<RowsLeft>,
) -> Result<(), AllocError>
    ensures ok { OnOk result (IsPermutation rows.new.rows (rows.old.rows ++ left_of left.old)) }
    ensures none { OnOk result (left.new ≡ None) }
{
    if let Some(all) = &*left {
        all.put_all(alloc, rows)?;
    }
    *left = None;
    Ok(())
}

// Puts some of these rows in order, of which there are none then if none is left.
pub(crate) fn put_some(
    alloc: Global,
    rows: &mut TableRows,
    left: RowsLeft,
) -> Result<Option<RowsLeft>, AllocError>
    ensures ok { IfOk result (λ rest. IsPermutation (rows.new.rows ++ left_of rest) (rows.old.rows ++ left)) }
{
    let mut left = left;
    if left.put_some(alloc, rows)? {
        Ok(Some(left))
    } else {
        Ok(None)
    }
}
