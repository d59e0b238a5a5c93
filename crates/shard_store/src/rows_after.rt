//! The rows of a table from a row on, in the order of primary keys if the rows are stored in that order.
ghost use Rattle.std.specs.Prelude.{◌≡◌, ◌<◌, ◌++◌, IsTrue, IfOk, option_copied, filter, length};
ghost use Rattle.sql_eval.specs.Database.{rows_of};
ghost use Rattle.shard_store.specs.RowsAfter.{comes_after, IsInOrder};

use crate::shared_row::SharedRows;
use crate::stored::StoredTables;
use crate::table_rows::TableRows;
use crate::walk::RowsInOrder;
use sql_eval::Table;
use std::alloc::{AllocError, Global};
use vt_value::Row;

/// Rows of a table that are still to come, among which are all after a row: those in slots, in the order of primary keys if
/// `in_order` says so, and those outside them.
#[derive(Drop)]
pub struct RowsAfter<'a> {
    pub slots: RowsInOrder<'a>,
    pub unslotted: SharedRows<'a>,
    pub in_order: bool,
}

impl TableRows {
    /// Rows among which are all whose primary key is after that of the last row; all, if none is given. Refuses for want of memory.
    pub fn rows_after(
        &self,
        alloc: Global,
        table: &Table,
        last: Option<&Row>,
    ) -> Result<RowsAfter<'_>, AllocError>
        ensures rows { IfOk result (λ b. filter (comes_after table.now (option_copied last.entry)) (b.slots ++ b.unslotted) ≡ filter (comes_after table.now (option_copied last.entry)) self.now.rows) }
        ensures order { IfOk result (λ b. IsTrue b.in_order → IsInOrder table.now b.slots) }
    {
        let in_order = self.stored.is_by_primary_key(table);
        let slots = self.stored.rows_after(alloc, table, in_order, last)?;
        Ok(RowsAfter {
            slots,
            unslotted: SharedRows::new(self.unslotted.as_slice()),
            in_order,
        })
    }
}

impl StoredTables {
    /// Rows of the table at an ordinal among which are all whose primary key is after that of the last row; all, if none is given. Refuses
    /// for want of memory.
    pub fn rows_after(
        &self,
        alloc: Global,
        ordinal: usize,
        table: &Table,
        last: Option<&Row>,
    ) -> Result<RowsAfter<'_>, AllocError>
        requires { ordinal < length self.now.rows }
        ensures rows { IfOk result (λ b. filter (comes_after table.now (option_copied last.entry)) (b.slots ++ b.unslotted) ≡ filter (comes_after table.now (option_copied last.entry)) (rows_of self.now.rows ordinal)) }
        ensures order { IfOk result (λ b. IsTrue b.in_order → IsInOrder table.now b.slots) }
    {
        self.tables[ordinal].rows_after(alloc, table, last)
    }
}
