//! Queries whose ORDER BY is the order of keys: a walk over the rows, either way, which needs no sort and which LIMIT ends. MIN and MAX of a key's column: the
//! first row of such a walk.
ghost use Rattle.std.specs.Prelude.{◌≡◌, ◌∷◌, [], true, false, IsSorted, reverse, IfOk, IfSome, filter};
ghost use Rattle.sql_eval.specs.Checks.{is_aggregated};
ghost use Rattle.sql_eval.specs.Conditions.{is_kept};
ghost use Rattle.sql_eval.specs.Orders.{row_cmp};
ghost use Rattle.sql_eval.specs.Queries.{IsAnswer};
ghost use Rattle.sql_eval.specs.Extremes.{IsExtreme};
ghost use Rattle.key_intervals.specs.inner.Walks.{walked};
ghost use Rattle.shard_store.specs.Slots.{rows_in};

use crate::table::StoredTable;
use crate::table_rows::TableRows;
use crate::walk::RowsBack;
use key_intervals::{Direction, key_interval};
use sql_eval::{Query, extreme_key, select_extreme, select_in_order};
use sql_tree::{Condition, Key};
use std::alloc::{AllocError, Global};
use vt_value::{Items, Row};

impl StoredTable {
    // The rows whose condition is true, and others, in the reverse order of their keys.
    fn chosen_back(
        &self,
        alloc: Global,
        condition: &Option<Condition<usize>>,
    ) -> Result<RowsBack<'_>, AllocError>
        ensures ok { IfOk result (λ rows. filter (is_kept condition.now) rows ≡ reverse (filter (is_kept condition.now) (rows_in self.now.slots))) }
    {
        let keys = key_interval(alloc, condition, self.key_columns())?;
        self.rows_back(alloc, keys)
    }

    // What a query without aggregates gives, if a walk in a direction meets its rows in its order.
    fn select_walked(
        &self,
        alloc: Global,
        query: &Query,
        direction: Direction,
    ) -> Result<Items<Row>, AllocError>
        requires plain { is_aggregated query.now ≡ false }
        requires sorted { IsSorted (row_cmp query.now.order_by) (walked direction (filter (is_kept query.now.filter) (rows_in self.now.slots))) }
        ensures ok { IfOk result (IsAnswer query.now (rows_in self.now.slots)) }
    {
        match direction {
            Direction::Forward => {
                let rows = self.chosen(alloc, &query.filter)?;
                select_in_order(alloc, query, rows)
            }
            Direction::Backward => {
                let rows = self.chosen_back(alloc, &query.filter)?;
                select_in_order(alloc, query, rows)
            }
        }
    }

    // What a query gives that asks for nothing but MIN of a column, or MAX, if a walk in a direction meets its rows in the order of that column.
    fn select_first(
        &self,
        alloc: Global,
        query: &Query,
        key: &Key<usize>,
        direction: Direction,
    ) -> Result<Items<Row>, AllocError>
        requires alone { IsExtreme key.now query.now }
        requires sorted { IsSorted (row_cmp (key.now ∷ [])) (walked direction (filter (is_kept query.now.filter) (rows_in self.now.slots))) }
        ensures ok { IfOk result (IsAnswer query.now (rows_in self.now.slots)) }
    {
        match direction {
            Direction::Forward => {
                let rows = self.chosen(alloc, &query.filter)?;
                select_extreme(alloc, query, key, rows)
            }
            Direction::Backward => {
                let rows = self.chosen_back(alloc, &query.filter)?;
                select_extreme(alloc, query, key, rows)
            }
        }
    }
}

impl TableRows {
    /// What a query gives over the rows, if it asks for nothing but MIN or MAX of a column whose order is that of a walk over their keys. Refuses for want of
    /// memory.
    pub(crate) fn select_by_first_key(
        &self,
        alloc: Global,
        query: &Query,
    ) -> Result<Option<Items<Row>>, AllocError>
        ensures ok { IfOk result (λ found. IfSome found (IsAnswer query.now self.now.rows)) }
    {
        let Some(key) = extreme_key(query) else {
            return Ok(None);
        };
        if !self.unslotted.is_empty() {
            return Ok(None);
        }
        match self.stored.direction_to(&query.filter, &key) {
            Some(direction) => Ok(Some(self.stored.select_first(alloc, query, &key, direction)?)),
            None => Ok(None),
        }
    }

    /// What a query gives over the rows, if its order is that of a walk over their keys. Refuses for want of memory.
    pub(crate) fn select_in_key_order(
        &self,
        alloc: Global,
        query: &Query,
    ) -> Result<Option<Items<Row>>, AllocError>
        ensures ok { IfOk result (λ found. IfSome found (IsAnswer query.now self.now.rows)) }
    {
        if query.is_aggregated() || !self.unslotted.is_empty() {
            return Ok(None);
        }
        match self.stored.direction(query) {
            Some(direction) => Ok(Some(self.stored.select_walked(alloc, query, direction)?)),
            None => Ok(None),
        }
    }
}
