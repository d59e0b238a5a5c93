//! Rows that a table and its snapshots hold together.
ghost use Rattle.std.specs.Prelude.{◌≡◌, IfOk, option_copied};

use row_chunks::Same;
use sql_eval::RowSource;
use std::alloc::{AllocError, Global};
use std::marker::Model;
use std::sync::Arc;
use vt_value::Row;

/// A row that may have several owners: another one is made without a copy of the row. Contracts see the row.
#[derive(Drop)]
pub struct SharedRow {
    row: Arc<Row>,
}

impl Model for SharedRow {
    ghost use Rattle.std.specs.Prelude.{List};
    ghost use Rattle.std.specs.Arc.{arc_value};
    ghost use Rattle.vt_value.specs.declared.value.Value.{Value as V};

    ghost Value = { List V };

    ghost view = { λ s. arc_value s.row };
}

impl SharedRow {
    /// A row that has one owner. Refuses for want of memory.
    pub fn new(alloc: Global, row: Row) -> Result<SharedRow, AllocError>
        ensures ok { IfOk result (λ s. s ≡ row) }
    {
        match Arc::new(alloc, row) {
            Ok(row) => Ok(SharedRow { row }),
            Err(_) => Err(AllocError),
        }
    }

    /// The row.
    pub fn get(&self) -> &Row
        ensures { result.now ≡ self.now }
    {
        &self.row
    }
}

impl Clone for SharedRow {
    ghost use Rattle.std.specs.Prelude.{◌≡◌};

    ghost is_clone = { λ a b. b ≡ a };

    /// Another owner of the row.
    fn clone(&self) -> Result<SharedRow, AllocError> {
        let row = Arc::try_clone(&self.row)?;
        Ok(SharedRow { row })
    }
}

impl Same for SharedRow {
    ghost same = { λ a b is. is };
}

/// What the slot of a key has: a row, or none. Contracts see the row.
#[derive(Drop)]
pub struct SlotRow {
    row: Option<SharedRow>,
}

impl Model for SlotRow {
    ghost use Rattle.std.specs.Prelude.{List, Option};
    ghost use Rattle.vt_value.specs.declared.value.Value.{Value as V};

    ghost Value = { Option (List V) };

    ghost view = { λ s. s.row };
}

impl SlotRow {
    /// This row, or none.
    pub fn of(row: Option<SharedRow>) -> SlotRow
        ensures { result ≡ row }
    {
        SlotRow { row }
    }

    /// The row, if there is one.
    pub fn get(&self) -> Option<&Row>
        ensures { option_copied result ≡ self.now }
    {
        match &self.row {
            Some(row) => Some(row.get()),
            None => None,
        }
    }

    /// The row itself, if there is one.
    pub fn into_row(self) -> Option<SharedRow>
        ensures { result ≡ self }
    {
        self.row
    }
}

impl Clone for SlotRow {
    ghost use Rattle.std.specs.Prelude.{◌≡◌};

    ghost is_clone = { λ a b. b ≡ a };

    /// Another owner of the row.
    fn clone(&self) -> Result<SlotRow, AllocError> {
        let row = match &self.row {
            Some(row) => Some(row.clone()?),
            None => None,
        };
        Ok(SlotRow { row })
    }
}

impl Same for SlotRow {
    ghost same = { λ a b is. is };
}

/// Shared rows that are still to come, in the order of a slice. Contracts see them.
#[derive(Drop)]
pub struct SharedRows<'a> {
    rows: &'a [SharedRow],
}

impl<'a> Model for SharedRows<'a> {
    ghost use Rattle.std.specs.Prelude.{List};
    ghost use Rattle.vt_value.specs.declared.value.Value.{Value as V};

    ghost Value = { List (List V) };

    ghost view = { λ s. s.rows.now };
}

impl<'a> SharedRows<'a> {
    /// Lends these rows, in their order.
    pub fn new(rows: &'a [SharedRow]) -> SharedRows<'a>
        ensures { result ≡ rows.now }
    {
        SharedRows { rows }
    }
}

impl<'a> RowSource<'a> for SharedRows<'a> {
    ghost to_come = { λ rows. rows };

    fn next_row(&mut self) -> Option<&'a Row> {
        match self.rows.split_first() {
            Some((row, rest)) => {
                self.rows = rest;
                Some(row.get())
            }
            None => None,
        }
    }
}
