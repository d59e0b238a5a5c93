//! What a join gives over the stored rows of two tables.
ghost use Rattle.std.specs.Prelude.{◌≡◌, ◌<◌, ◌++◌, true, IfOk, IfSome, IsPermutation, List, None, filter, length, nat_lt, slice_index};
ghost use Rattle.std.specs.List.{list_all};
ghost use Rattle.vt_value.specs.declared.value.Value.{Value as V};
ghost use Rattle.vt_value.specs.Values.{value_at};
ghost use Rattle.sql_eval.specs.Checks.{is_aggregated};
ghost use Rattle.sql_eval.specs.Database.{rows_of};
ghost use Rattle.sql_eval.specs.Sources.{is_pair, paired, pairs_of};
ghost use Rattle.sql_eval.specs.Conditions.{is_kept};
ghost use Rattle.sql_eval.specs.Groups.{CanBeSummed};
ghost use Rattle.sql_eval.specs.Queries.{IsAnswer};
ghost use Rattle.shard_store.specs.Slots.{rows_in};
ghost use Rattle.key_intervals.specs.Listed.{fits};
ghost use Rattle.shard_store.specs.Chosen.{slots_chosen, rows_chosen};

use crate::by_value::RowsByValue;
use crate::joined::select_by_value;
use crate::shared_row::SharedRows;
use crate::stored::StoredTables;
use crate::table::StoredTable;
use crate::table_rows::TableRows;
use crate::walk::{ChosenRows, ChosenSlots};
use key_intervals::{Fixed, fixed_first, key_interval};
use sql_eval::{Join, Query, select_local};
use std::alloc::{AllocError, Global};
use vt_value::{Items, Row};

impl StoredTable {
    // Values of which the first key column has one in the first row of each pair that a query keeps: none for an aggregated one, which is
    // answered over all pairs.
    pub(crate) fn first_pair_values<'a>(&self, query: &'a Query, join: Join) -> Option<Fixed<'a>>
        ensures some { IfSome result (λ f. 0 < length self.now.ordinals) }
        ensures plain { is_aggregated query.now ≡ true → result ≡ None }
        ensures values { IfSome result (λ f. (first second : List V) → is_pair join first second ≡ true → is_kept query.now.filter (paired join first second) ≡ true
            → fits f (value_at first (slice_index self.now.ordinals 0)) ≡ true) }
    {
        match self.key_columns().first() {
            Some(column) if !query.is_aggregated() => fixed_first(&query.filter, join, *column),
            _ => None,
        }
    }
}

// Whether these are columns of the first row of each pair.
fn are_of_first(columns: &[usize], join: Join) -> bool
    ensures { result ≡ list_all (λ c. nat_lt c join.width) columns.now }
{
    columns.iter().all(|column| *column < join.width)
}

impl StoredTable {
    // Rows in slots that include the first rows of all pairs that a query keeps: those of keys between which the condition has them.
    fn firsts_between(
        &self,
        alloc: Global,
        query: &Query,
        join: Join,
    ) -> Result<ChosenSlots<'_>, AllocError>
        ensures ok { IfOk result (λ rows. (others seconds : List (List V)) → filter (is_kept query.now.filter) (pairs_of join (slots_chosen rows ++ others) seconds)
            ≡ filter (is_kept query.now.filter) (pairs_of join (rows_in self.now.slots ++ others) seconds)) }
    {
        if !are_of_first(self.key_columns(), join) {
            return Ok(ChosenSlots::All(self.rows()));
        }
        let keys = key_interval(alloc, &query.filter, self.key_columns())?;
        self.chosen_inside(alloc, keys)
    }

    // Rows in slots that include the first rows of all pairs that a query keeps: all for an aggregated one, which is answered over all pairs.
    fn firsts<'a>(
        &'a self,
        alloc: Global,
        query: &'a Query,
        join: Join,
    ) -> Result<ChosenSlots<'a>, AllocError>
        ensures all { IfOk result (λ rows. is_aggregated query.now ≡ true → slots_chosen rows ≡ rows_in self.now.slots) }
        ensures kept { IfOk result (λ rows. (others seconds : List (List V)) → filter (is_kept query.now.filter) (pairs_of join (slots_chosen rows ++ others) seconds)
            ≡ filter (is_kept query.now.filter) (pairs_of join (rows_in self.now.slots ++ others) seconds)) }
    {
        if query.is_aggregated() {
            return Ok(ChosenSlots::All(self.rows()));
        }
        match self.first_pair_values(query, join) {
            Some(values) => self.chosen_of(alloc, values),
            None => self.firsts_between(alloc, query, join),
        }
    }
}

impl TableRows {
    // Rows that include the first rows of all pairs that a query keeps.
    fn firsts<'a>(
        &'a self,
        alloc: Global,
        query: &'a Query,
        join: Join,
    ) -> Result<ChosenRows<'a>, AllocError>
        ensures all { is_aggregated query.now ≡ true → IfOk result (λ rows. rows_chosen rows ≡ self.now.rows) }
        ensures kept { IfOk result (λ rows. (seconds : List (List V)) → filter (is_kept query.now.filter) (pairs_of join (rows_chosen rows) seconds)
            ≡ filter (is_kept query.now.filter) (pairs_of join self.now.rows seconds)) }
    {
        let slots = self.stored.firsts(alloc, query, join)?;
        Ok(ChosenRows {
            slots,
            unslotted: SharedRows::new(self.unslotted.as_slice()),
        })
    }

    // The rows, to be looked up by a column. Those in slots are found by their keys if these begin with the column, and only the others
    // are sorted.
    fn by_value(&self, alloc: Global, column: usize) -> Result<RowsByValue<'_>, AllocError>
        ensures ok { IfOk result (λ r. IsPermutation r.rows self.now.rows) }
    {
        match self.stored.key_columns().first() {
            Some(first) if *first == column => {
                let unslotted = SharedRows::new(self.unslotted.as_slice());
                RowsByValue::new(alloc, column, Some(&self.stored), unslotted)
            }
            _ => RowsByValue::new(alloc, column, None, self.all()),
        }
    }

    // What a query gives over the pairs of the rows with those of another table.
    fn select_with(
        &self,
        alloc: Global,
        query: &Query,
        join: Join,
        second: &TableRows,
    ) -> Result<Items<Row>, AllocError>
        requires summed { is_aggregated query.now ≡ true → CanBeSummed (pairs_of join self.now.rows second.now.rows) }
        ensures ok { IfOk result (IsAnswer query.now (pairs_of join self.now.rows second.now.rows)) }
    {
        let seconds = second.by_value(alloc, join.second.saturating_sub(join.width))?;
        let firsts = self.firsts(alloc, query, join)?;
        select_by_value(alloc, query, join, firsts, &seconds)
    }
}

impl StoredTables {
    /// What a query gives over the pairs of the rows of its two tables. Refuses for want of memory.
    pub(crate) fn select_pairs(
        &self,
        alloc: Global,
        query: &Query,
        join: Join,
    ) -> Result<Items<Row>, AllocError>
        requires summed { is_aggregated query.now ≡ true → CanBeSummed (pairs_of join (rows_of self.now.rows query.now.table) (rows_of self.now.rows join.table)) }
        ensures ok { IfOk result (IsAnswer query.now (pairs_of join (rows_of self.now.rows query.now.table) (rows_of self.now.rows join.table))) }
    {
        let Some(first) = self.table(query.table) else {
            return select_local(alloc, query, &[]);
        };
        let Some(second) = self.table(join.table) else {
            return select_local(alloc, query, &[]);
        };
        first.select_with(alloc, query, join, second)
    }
}
