//! What queries give and what writes change, over the stored rows. If a condition fixes the first key column to values, the rows of these
//! values alone are looked at, and an INSERT looks each of its keys up.
ghost use Rattle.std.specs.Prelude.{◌≡◌, ◌⊎◌, ◌<◌, true, IsTrue, IfOk, IfErr, IfSome, MatchOption, Ok, Err, None, List, [], map, flat_map, filter, length, slice_index, option_to_list, option_copied};
ghost use Rattle.std.specs.List.{list_any};
ghost use Rattle.vt_value.specs.declared.value.Value.{Value as V};
ghost use Rattle.vt_value.specs.Values.{value_at};
ghost use Rattle.sql_eval.specs.Checks.{is_aggregated};
ghost use Rattle.sql_eval.specs.Schema.{key_of};
ghost use Rattle.sql_eval.specs.Database.{rows_of, same_row};
ghost use Rattle.sql_eval.specs.Sources.{source_rows};
ghost use Rattle.sql_eval.specs.Conditions.{is_kept};
ghost use Rattle.sql_eval.specs.Groups.{CanBeSummed};
ghost use Rattle.sql_eval.specs.Queries.{IsAnswer};
ghost use Rattle.sql_eval.specs.Writes.{written_table, row_updates, changes_over};
ghost use Rattle.sql_eval.specs.RowChange.TheVariants.{Removed};
ghost use Rattle.shard_store.specs.Slots.{rows_in};
ghost use Rattle.shard_store.specs.Tables.{key_at, begins_with};
ghost use Rattle.shard_store.specs.inner.Stores.{IsInsertOf};
ghost use Rattle.key_intervals.specs.Listed.{fits};
ghost use Rattle.shard_store.specs.Chosen.{slots_chosen, rows_chosen, rows_at};
ghost use Rattle.shard_store.specs.inner.Chosen.{lies_between};

use crate::primary::are_key_ordinals;
use crate::shared_row::SharedRows;
use crate::slots::key_of_value;
use crate::source::any_has_key;
use crate::stored::StoredTables;
use crate::table::StoredTable;
use crate::table_rows::TableRows;
use crate::walk::{AllRows, ChosenRows, ChosenSlots, RowsAt};
use key_intervals::{Fixed, KeyInterval, fixed_values, key_interval};
use sql_eval::{
    Query, RowChange, Table, Write, all_kept, change_local, counts_all, removals_from,
    select_count, select_from, select_local, updates_from,
};
use sql_tree::{Assignment, Condition};
use std::alloc::{AllocError, Global};
use vt_value::{Items, Refusal, Row, Value};

impl StoredTable {
    // Values of which the first key column has one in each row whose condition is true.
    pub(crate) fn first_values<'a>(
        &self,
        condition: &'a Option<Condition<usize>>,
    ) -> Option<Fixed<'a>>
        ensures some { IfSome result (λ f. 0 < length self.now.ordinals) }
        ensures values { IfSome result (λ f. (row : List V) → is_kept condition.now row ≡ true → fits f (value_at row (slice_index self.now.ordinals 0)) ≡ true) }
    {
        match (condition, self.key_columns().first()) {
            (Some(condition), Some(column)) => fixed_values(condition, *column),
            _ => None,
        }
    }

    // The value that a condition fixes the only key column to.
    fn lone_value<'a>(&self, condition: &'a Option<Condition<usize>>) -> Option<&'a Value>
        ensures some { IfSome result (λ v. length self.now.ordinals ≡ 1) }
        ensures value { IfSome result (λ v. (row : List V) → is_kept condition.now row ≡ true → begins_with self.now.ordinals v.now row ≡ true) }
    {
        let [column] = self.key_columns() else {
            return None;
        };
        let Some(condition) = condition else {
            return None;
        };
        match fixed_values(condition, *column) {
            Some(Fixed::One(value)) => Some(value),
            _ => None,
        }
    }

    // The row in a slot whose only key column has a value.
    fn row_with(&self, alloc: Global, value: &Value) -> Result<Option<&Row>, AllocError>
        requires { length self.now.ordinals ≡ 1 }
        ensures ok { IfOk result (λ row. option_to_list (option_copied row) ≡ filter (begins_with self.now.ordinals value.now) (rows_in self.now.slots)) }
    {
        let key = key_of_value(alloc, value)?;
        Ok(self.get(&key))
    }

    /// The rows in slots whose first key column has one of the values.
    pub(crate) fn chosen_of<'a>(
        &'a self,
        alloc: Global,
        fixed: Fixed<'a>,
    ) -> Result<ChosenSlots<'a>, AllocError>
        requires { 0 < length self.now.ordinals }
        ensures ok { IfOk result (λ rows. slots_chosen rows ≡ filter (λ row. fits fixed.entry (value_at row (slice_index self.now.ordinals 0))) (rows_in self.now.slots)) }
    {
        match fixed {
            Fixed::One(value) => {
                let rows = self.rows_with(alloc, value)?;
                Ok(ChosenSlots::Between(rows))
            }
            Fixed::Among(values) => {
                let rows = self.rows_among(alloc, values)?;
                Ok(ChosenSlots::Among(rows))
            }
        }
    }

    /// The rows in slots whose keys lie in an interval.
    pub(crate) fn chosen_inside(
        &self,
        alloc: Global,
        keys: KeyInterval,
    ) -> Result<ChosenSlots<'_>, AllocError>
        ensures ok { IfOk result (λ rows. slots_chosen rows ≡ filter (λ row. lies_between None keys (key_at self.now.ordinals row)) (rows_in self.now.slots)) }
    {
        if keys.is_whole() {
            return Ok(ChosenSlots::All(self.rows()));
        }
        let rows = self.rows_inside(alloc, None, keys)?;
        Ok(ChosenSlots::Between(rows))
    }

    // Rows in slots among which are all whose condition is true: those of keys between which the condition has them.
    fn chosen_between(
        &self,
        alloc: Global,
        condition: &Option<Condition<usize>>,
    ) -> Result<ChosenSlots<'_>, AllocError>
        ensures ok { IfOk result (λ rows. filter (is_kept condition.now) (slots_chosen rows) ≡ filter (is_kept condition.now) (rows_in self.now.slots)) }
    {
        let keys = key_interval(alloc, condition, self.key_columns())?;
        self.chosen_inside(alloc, keys)
    }

    /// Rows in slots among which are all whose condition is true. Refuses for want of memory.
    pub(crate) fn chosen<'a>(
        &'a self,
        alloc: Global,
        condition: &'a Option<Condition<usize>>,
    ) -> Result<ChosenSlots<'a>, AllocError>
        ensures ok { IfOk result (λ rows. filter (is_kept condition.now) (slots_chosen rows) ≡ filter (is_kept condition.now) (rows_in self.now.slots)) }
    {
        let Some(fixed) = self.first_values(condition) else {
            return self.chosen_between(alloc, condition);
        };
        match fixed {
            Fixed::One(_) => self.chosen_between(alloc, condition),
            Fixed::Among(values) => {
                let rows = self.kept_among(alloc, condition.as_ref(), values)?;
                Ok(ChosenSlots::Among(rows))
            }
        }
    }
}

impl TableRows {
    /// Rows among which are all whose condition is true. Refuses for want of memory.
    pub fn chosen<'a>(
        &'a self,
        alloc: Global,
        condition: &'a Option<Condition<usize>>,
    ) -> Result<ChosenRows<'a>, AllocError>
        ensures ok { IfOk result (λ rows. filter (is_kept condition.now) (rows_chosen rows) ≡ filter (is_kept condition.now) self.now.rows) }
    {
        let slots = self.stored.chosen(alloc, condition)?;
        Ok(ChosenRows {
            slots,
            unslotted: SharedRows::new(self.unslotted.as_slice()),
        })
    }

    // Rows among which are all whose condition is true, where it fixes the only key column to a value.
    fn at(
        &self,
        alloc: Global,
        condition: &Option<Condition<usize>>,
    ) -> Result<Option<RowsAt<'_>>, AllocError>
        ensures ok { IfOk result (λ found. IfSome found (λ rows. filter (is_kept condition.now) (rows_at rows) ≡ filter (is_kept condition.now) self.now.rows)) }
    {
        let Some(value) = self.stored.lone_value(condition) else {
            return Ok(None);
        };
        let slotted = self.stored.row_with(alloc, value)?;
        Ok(Some(RowsAt {
            slotted,
            unslotted: SharedRows::new(self.unslotted.as_slice()),
        }))
    }

    // Copies of the rows whose condition is true.
    fn kept(
        &self,
        alloc: Global,
        condition: &Option<Condition<usize>>,
    ) -> Result<Items<Row>, AllocError>
        ensures ok { IfOk result (λ list. list ≡ filter (is_kept condition.now) self.now.rows) }
    {
        if let Some(found) = self.at(alloc, condition)? {
            return all_kept(alloc, condition, found);
        }
        let rows = self.chosen(alloc, condition)?;
        all_kept(alloc, condition, rows)
    }

    // What an UPDATE of the table, which is at this ordinal, does to the rows.
    fn updates(
        &self,
        alloc: Global,
        ordinal: usize,
        assignments: &[Assignment<usize>],
        condition: &Option<Condition<usize>>,
    ) -> Result<Items<RowChange>, AllocError>
        ensures ok { IfOk result (λ changes. changes ≡ flat_map (row_updates ordinal assignments.now condition.now) self.now.rows) }
    {
        if let Some(found) = self.at(alloc, condition)? {
            return updates_from(alloc, ordinal, assignments, condition, found);
        }
        let rows = self.chosen(alloc, condition)?;
        updates_from(alloc, ordinal, assignments, condition, rows)
    }

    // What a DELETE from the table, which is at this ordinal, does to the rows.
    fn removals(
        &self,
        alloc: Global,
        ordinal: usize,
        condition: &Option<Condition<usize>>,
    ) -> Result<Items<RowChange>, AllocError>
        ensures ok { IfOk result (λ changes. changes ≡ map (Removed ordinal) (filter (is_kept condition.now) self.now.rows)) }
    {
        if let Some(found) = self.at(alloc, condition)? {
            return removals_from(alloc, ordinal, condition, found);
        }
        let rows = self.chosen(alloc, condition)?;
        removals_from(alloc, ordinal, condition, rows)
    }

    // What a query gives over the rows.
    fn select(&self, alloc: Global, query: &Query) -> Result<Items<Row>, AllocError>
        requires summed { is_aggregated query.now ≡ true → CanBeSummed self.now.rows }
        ensures ok { IfOk result (IsAnswer query.now self.now.rows) }
    {
        if counts_all(query) {
            return select_count(alloc, query, self.row_count());
        }
        if let Some(found) = self.at(alloc, &query.filter)? {
            return select_from(alloc, query, found);
        }
        if let Some(list) = self.select_in_key_order(alloc, query)? {
            return Ok(list);
        }
        if let Some(list) = self.select_by_first_key(alloc, query)? {
            return Ok(list);
        }
        let rows = self.chosen(alloc, &query.filter)?;
        select_from(alloc, query, rows)
    }

    // Whether a row has this row's primary key; `keyed` tells whether it can be looked up.
    fn has_key(
        &self,
        alloc: Global,
        table: &Table,
        keyed: bool,
        row: &Row,
    ) -> Result<bool, AllocError>
        requires { IsTrue keyed → (a b : List V) → same_row (key_at self.now.ordinals a) (key_at self.now.ordinals b) ≡ same_row (key_of table.now a) (key_of table.now b) }
        ensures ok { IfOk result (λ has. has ≡ list_any (λ r. same_row (key_of table.now row.now) (key_of table.now r)) self.now.rows) }
    {
        if !keyed {
            return Ok(any_has_key(table, row, self.all()));
        }
        let key = self.stored.key_of(alloc, row)?;
        let unslotted = SharedRows::new(self.unslotted.as_slice());
        Ok(self.stored.contains(&key) || any_has_key(table, row, unslotted))
    }

    // Whether a row has the primary key of one of these.
    fn has_any_key(&self, alloc: Global, table: &Table, new: &[Row]) -> Result<bool, AllocError>
        ensures ok { IfOk result (λ has. has ≡ list_any (λ n. list_any (λ r. same_row (key_of table.now n) (key_of table.now r)) self.now.rows) new.now) }
    {
        let keyed = are_key_ordinals(alloc, table, self.stored.key_columns())?;
        for row in new {
            if self.has_key(alloc, table, keyed, row)? {
                return Ok(true);
            }
        }
        Ok(false)
    }
}

impl StoredTables {
    /// All rows of the table at an ordinal.
    pub fn all(&self, ordinal: usize) -> AllRows<'_>
        requires { ordinal < length self.now.rows }
        ensures { result ≡ rows_of self.now.rows ordinal }
    {
        self.tables[ordinal].all()
    }

    pub(crate) fn table(&self, ordinal: usize) -> Option<&TableRows>
        ensures { MatchOption result (rows_of self.now.rows ordinal ≡ []) (λ table. rows_of self.now.rows ordinal ≡ table.now.rows) }
    {
        self.tables.get(ordinal)
    }

    /// How many rows the table at an ordinal has: none after the last table.
    pub fn row_count_of(&self, ordinal: usize) -> usize
        ensures { result ≡ length (rows_of self.now.rows ordinal) }
    {
        match self.table(ordinal) {
            Some(table) => table.row_count(),
            None => 0,
        }
    }

    /// Copies of the rows of the table at an ordinal whose condition is true: none after the last table. Refuses for want of memory.
    pub fn kept(
        &self,
        alloc: Global,
        ordinal: usize,
        condition: &Option<Condition<usize>>,
    ) -> Result<Items<Row>, AllocError>
        ensures ok { IfOk result (λ list. list ≡ filter (is_kept condition.now) (rows_of self.now.rows ordinal)) }
    {
        match self.table(ordinal) {
            Some(table) => table.kept(alloc, condition),
            None => Ok(Items::new(alloc)),
        }
    }

    // What a query gives over the rows of its table.
    fn select_one(&self, alloc: Global, query: &Query) -> Result<Items<Row>, AllocError>
        requires summed { is_aggregated query.now ≡ true → CanBeSummed (rows_of self.now.rows query.now.table) }
        ensures ok { IfOk result (IsAnswer query.now (rows_of self.now.rows query.now.table)) }
    {
        match self.table(query.table) {
            Some(table) => table.select(alloc, query),
            None => select_local(alloc, query, &[]),
        }
    }

    /// What a query gives over the rows of its table, or over the pairs of its two tables. Refuses for want of memory.
    pub fn select(&self, alloc: Global, query: &Query) -> Result<Items<Row>, AllocError>
        requires summed { is_aggregated query.now ≡ true → CanBeSummed (source_rows query.now self.now.rows) }
        ensures ok { IfOk result (IsAnswer query.now (source_rows query.now self.now.rows)) }
    {
        match query.join {
            Some(join) => self.select_pairs(alloc, query, join),
            None => self.select_one(alloc, query),
        }
    }

    fn has_any_key(
        &self,
        alloc: Global,
        table: &Table,
        ordinal: usize,
        new: &[Row],
    ) -> Result<bool, AllocError>
        ensures ok { IfOk result (λ has. has ≡ list_any (λ n. list_any (λ r. same_row (key_of table.now n) (key_of table.now r)) (rows_of self.now.rows ordinal)) new.now) }
    {
        match self.table(ordinal) {
            Some(rows) => rows.has_any_key(alloc, table, new),
            None => Ok(false),
        }
    }

    // What an UPDATE does.
    fn updates(
        &self,
        alloc: Global,
        ordinal: usize,
        assignments: &[Assignment<usize>],
        condition: &Option<Condition<usize>>,
    ) -> Result<Items<RowChange>, AllocError>
        ensures ok { IfOk result (λ changes. changes ≡ flat_map (row_updates ordinal assignments.now condition.now) (rows_of self.now.rows ordinal)) }
    {
        match self.table(ordinal) {
            Some(table) => table.updates(alloc, ordinal, assignments, condition),
            None => Ok(Items::new(alloc)),
        }
    }

    // What a DELETE does.
    fn removals(
        &self,
        alloc: Global,
        ordinal: usize,
        condition: &Option<Condition<usize>>,
    ) -> Result<Items<RowChange>, AllocError>
        ensures ok { IfOk result (λ changes. changes ≡ map (Removed ordinal) (filter (is_kept condition.now) (rows_of self.now.rows ordinal))) }
    {
        match self.table(ordinal) {
            Some(table) => table.removals(alloc, ordinal, condition),
            None => Ok(Items::new(alloc)),
        }
    }

    // What a write with new rows does.
    fn inserted(
        &self,
        alloc: Global,
        table: &Table,
        write: &Write,
        ordinal: usize,
        new: &[Row],
    ) -> Result<Items<RowChange>, Refusal>
        requires { IsInsertOf ordinal new.now write.now }
        ensures ok { IfOk result (λ changes. changes_over table.now write.now (rows_of self.now.rows ordinal) ≡ Ok changes) }
        ensures err { IfErr result (λ e. (e ≡ Refusal.OutOfMemory) ⊎ (changes_over table.now write.now (rows_of self.now.rows ordinal) ≡ Err e)) }
    {
        match self.has_any_key(alloc, table, ordinal, new) {
            Ok(true) => Err(Refusal::DuplicateKey),
            Ok(false) => change_local(alloc, table, write, &[]),
            Err(_) => Err(Refusal::OutOfMemory),
        }
    }

    /// What a write does to the rows of its table. Refuses `DuplicateKey` if an INSERT has the primary key of a row that is there, or
    /// one twice, and else only for want of memory.
    pub fn changes(
        &self,
        alloc: Global,
        table: &Table,
        write: &Write,
    ) -> Result<Items<RowChange>, Refusal>
        ensures ok { IfOk result (λ changes. changes_over table.now write.now (rows_of self.now.rows (written_table write.now)) ≡ Ok changes) }
        ensures err { IfErr result (λ e. (e ≡ Refusal.OutOfMemory) ⊎ (changes_over table.now write.now (rows_of self.now.rows (written_table write.now)) ≡ Err e)) }
    {
        match write {
            Write::Insert(ordinal, new) => self.inserted(
                alloc,
                table,
                write,
                *ordinal,
                new.as_slice(),
            ),
            Write::Update(ordinal, assignments, condition) => {
                Ok(self.updates(alloc, *ordinal, assignments.as_slice(), condition)?)
            }
            Write::Delete(ordinal, condition) => Ok(self.removals(alloc, *ordinal, condition)?),
        }
    }
}
