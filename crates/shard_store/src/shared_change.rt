//! Changes of rows that others hold too.
ghost use Rattle.std.specs.Prelude.{◌≡◌, IfOk};
ghost use Rattle.sql_eval.specs.RowChange.TheVariants as changes;
ghost use Rattle.sql_eval.specs.Database.{changed_table, changed_row};
ghost use Rattle.shard_store.specs.SharedChanges.{row_change};

use crate::shared_row::SharedRow;
use sql_eval::RowChange;
use std::alloc::{AllocError, Global};
use std::marker::Model;
use vt_value::{Row, copy_row};

/// What is done to one row of the table at an ordinal, or to one and another in its place.
#[derive(Drop)]
pub enum ChangedRows {
    Added(usize, SharedRow),
    /// The old row, and the new one in its place.
    Replaced(usize, SharedRow, SharedRow),
    Removed(usize, SharedRow),
}

/// A change of a row, whose rows may have other owners: no copy is made where it puts a row into a table. Contracts see a `RowChange`.
#[derive(Drop)]
pub struct SharedChange {
    rows: ChangedRows,
}

impl Model for SharedChange {
    ghost use Rattle.std.specs.Coded.{codes};
    ghost use Rattle.sql_eval.specs.VschemaRowChange as change;
    ghost use Rattle.sql_eval.specs.RowChange.{RowChange};
    ghost use Rattle.shard_store.specs.SharedChanges.{row_change};

    ghost Value = { RowChange };

    ghost coded = { Prim.hlevel (codes, change.the_row.coded) };

    ghost view = { λ c. row_change c.rows };
}

// An equal row, which has one owner.
fn copied(alloc: Global, row: &Row) -> Result<SharedRow, AllocError>
    ensures ok { IfOk result (λ r. r ≡ row.now) }
{
    let row = copy_row(alloc, row)?;
    SharedRow::new(alloc, row)
}

fn copied_rows(alloc: Global, change: &RowChange) -> Result<ChangedRows, AllocError>
    ensures ok { IfOk result (λ rows. row_change rows ≡ change.now) }
{
    match change {
        RowChange::Added(ordinal, row) => Ok(ChangedRows::Added(*ordinal, copied(alloc, row)?)),
        RowChange::Replaced(ordinal, old, new) => {
            let old = copied(alloc, old)?;
            Ok(ChangedRows::Replaced(*ordinal, old, copied(alloc, new)?))
        }
        RowChange::Removed(ordinal, row) => Ok(ChangedRows::Removed(*ordinal, copied(alloc, row)?)),
    }
}

impl SharedChange {
    /// An equal change, whose rows have one owner. Refuses for want of memory.
    pub fn new(alloc: Global, change: &RowChange) -> Result<SharedChange, AllocError>
        ensures ok { IfOk result (λ c. c ≡ change.now) }
    {
        let rows = copied_rows(alloc, change)?;
        Ok(SharedChange { rows })
    }

    /// The change that adds a row to the table at an ordinal.
    pub fn added(ordinal: usize, row: SharedRow) -> SharedChange
        ensures { result ≡ changes.Added ordinal row }
    {
        SharedChange {
            rows: ChangedRows::Added(ordinal, row),
        }
    }

    /// What it does to which rows.
    pub fn rows(&self) -> &ChangedRows
        ensures { row_change result.now ≡ self.now }
    {
        &self.rows
    }

    /// The ordinal of the table that it is of.
    pub fn table(&self) -> usize
        ensures { result ≡ changed_table self.now }
    {
        match &self.rows {
            ChangedRows::Added(ordinal, _) => *ordinal,
            ChangedRows::Replaced(ordinal, _, _) => *ordinal,
            ChangedRows::Removed(ordinal, _) => *ordinal,
        }
    }

    /// The row that it adds or removes, the new one of two.
    pub fn row(&self) -> &Row
        ensures { result.now ≡ changed_row self.now }
    {
        match &self.rows {
            ChangedRows::Added(_, row) => row.get(),
            ChangedRows::Replaced(_, _, new) => new.get(),
            ChangedRows::Removed(_, row) => row.get(),
        }
    }

    /// An equal change, with copies of its rows. Refuses for want of memory.
    pub fn copy(&self, alloc: Global) -> Result<RowChange, AllocError>
        ensures ok { IfOk result (λ c. c ≡ self.now) }
    {
        match &self.rows {
            ChangedRows::Added(ordinal, row) => {
                Ok(RowChange::Added(*ordinal, copy_row(alloc, row.get())?))
            }
            ChangedRows::Replaced(ordinal, old, new) => {
                let old = copy_row(alloc, old.get())?;
                Ok(RowChange::Replaced(*ordinal, old, copy_row(alloc, new.get())?))
            }
            ChangedRows::Removed(ordinal, row) => {
                Ok(RowChange::Removed(*ordinal, copy_row(alloc, row.get())?))
            }
        }
    }
}
