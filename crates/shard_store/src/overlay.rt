//! The rows of a table with changes that the table does not have: those in its slots without some, and others. Only the rows that the
//! changes name are held here, so what is made costs as the changes do, and what is read as the rows do, however many changes there are.
ghost use Rattle.std.specs.Prelude.{◌≡◌, ◌<◌, ◌||◌, ◌++◌, ◌∷◌, [], IsTrue, IsSorted, IfOk, OnOk, List, filter, length, position, true};
ghost use Rattle.std.specs.List.{list_any};
ghost use Rattle.vt_value.specs.declared.value.Value.{Value as V};
ghost use Rattle.sql_eval.specs.Checks.{is_aggregated};
ghost use Rattle.sql_eval.specs.Schema.{key_of};
ghost use Rattle.sql_eval.specs.Database.{rows_of, same_row, without};
ghost use Rattle.sql_eval.specs.Conditions.{is_kept};
ghost use Rattle.sql_eval.specs.Groups.{CanBeSummed};
ghost use Rattle.sql_eval.specs.Queries.{IsAnswer};
ghost use Rattle.sql_eval.specs.KeyOrder.{on_lent, key_cmp};
ghost use Rattle.shard_store.specs.Tables.{key_at, has_key};
ghost use Rattle.shard_store.specs.Slots.{rows_in};
ghost use Rattle.shard_store.specs.inner.Joined.{rows_lent};
ghost use Rattle.shard_store.specs.inner.Overlays.{ColumnKeys, left_of};

use crate::by_value::all_of;
use crate::key::RowKey;
use crate::left::{SlotsLeft, next_left, slots_left};
use crate::primary::are_key_ordinals;
use crate::removed_rows::{Gap, RemovedRows};
use crate::shared_row::SharedRows;
use crate::stored::StoredTables;
use crate::table::StoredTable;
use crate::table_rows::TableRows;
use sql_eval::{
    Query, RowSource, Table, all_kept, has_key_among, in_key_order, same_row, select_from,
};
use sql_tree::Condition;
use std::alloc::{AllocError, Global};
use std::marker::Model;
use vt_value::{Items, Row};

/// The rows of a table with changes that the table does not have. Contracts see the rows, and the ordinals of the key columns.
#[derive(Drop)]
pub struct Overlay<'a> {
    stored: &'a StoredTable,
    // rows in slots that the changes take away
    gone: RemovedRows<'a>,
    // the rows outside the slots, and those that the changes add
    others: Vec<&'a Row>,
}

impl<'a> Model for Overlay<'a> {
    ghost use Rattle.std.specs.Prelude.{◌≡◌, ◌++◌};
    ghost use Rattle.shard_store.specs.Slots.{rows_in};
    ghost use Rattle.shard_store.specs.Stores.{ChangedView};
    ghost use Rattle.shard_store.specs.inner.Joined.{rows_lent};
    ghost use Rattle.shard_store.specs.inner.Overlays.{left_of};

    ghost Value = { ChangedView };

    ghost view = { λ o. record { rows = left_of o.gone (rows_in o.stored.now.slots) ++ rows_lent o.others.items; ordinals = o.stored.now.ordinals } };

    ghost invariant = { λ o. o.gone.columns ≡ o.stored.now.ordinals };
}

/// Rows of an overlay that are still to come. Contracts see the rows.
#[derive(Drop)]
pub struct RowsLeft<'a, 'b> {
    slots: SlotsLeft<'a>,
    gone: &'b RemovedRows<'a>,
    // keys after the last one that was looked up, none of which is gone
    gap: Option<Gap<'a>>,
    others: &'b [&'a Row],
    // the ordinal of the next of the others
    next: usize,
}

impl<'a, 'b> Model for RowsLeft<'a, 'b> {
    ghost use Rattle.std.specs.Prelude.{◌++◌, IfSome, List, drop};
    ghost use Rattle.vt_value.specs.declared.value.Value.{Value as V};
    ghost use Rattle.shard_store.specs.inner.Joined.{rows_lent};
    ghost use Rattle.shard_store.specs.inner.Overlays.{left_of};
    ghost use Rattle.shard_store.specs.inner.Gaps.{IsGapIn};
    ghost use Rattle.shard_store.specs.inner.Left.{rows_left, AreKeyed};

    ghost Value = { List (List V) };

    ghost view = { λ r. left_of r.gone.now (rows_left r.slots) ++ rows_lent (drop r.next r.others.now) };

    ghost invariant = { λ r. AreKeyed r.gone.now.columns r.slots × IfSome r.gap (IsGapIn r.gone.now.keys) };
}

impl<'a, 'b> RowSource<'a> for RowsLeft<'a, 'b> {
    ghost to_come = { λ rows. rows };

    fn next_row(&mut self) -> Option<&'a Row> {
        if let Some(row) = next_left(&mut self.slots, self.gone, &mut self.gap) {
            return Some(row);
        }
        if self.next < self.others.len() {
            let row = self.others[self.next];
            self.next += 1;
            return Some(row);
        }
        None
    }
}

// The ordinal of the first row that is this one.
fn ordinal_of(rows: &[&Row], row: &Row) -> Option<usize>
    ensures { result ≡ position (λ r. same_row row.now r.now) rows.now }
{
    rows.iter().position(|r| same_row(row, r))
}

// Removes the first of the rows that is this one.
fn remove_first(rows: &mut Vec<&Row>, row: &Row)
    ensures { rows_lent rows.new.items ≡ without row.now (rows_lent rows.old.items) }
{
    if let Some(ordinal) = ordinal_of(rows.as_slice(), row) {
        rows.remove(ordinal);
    }
}

// Whether a row in slots that isn't gone has a key.
fn has_slot<'a>(stored: &'a StoredTable, gone: &RemovedRows<'a>, key: &RowKey) -> bool
    ensures { result ≡ list_any (has_key stored.now.ordinals key.now.values) (left_of gone.now (rows_in stored.now.slots)) }
{
    match stored.get(key) {
        Some(row) => !gone.has(row),
        None => false,
    }
}

// Whether a row in slots that isn't gone has this row's key.
fn has_slot_of<'a>(
    alloc: Global,
    stored: &'a StoredTable,
    gone: &RemovedRows<'a>,
    row: &Row,
) -> Result<bool, AllocError>
    ensures ok { IfOk result (λ has. has ≡ list_any (has_key stored.now.ordinals (key_at stored.now.ordinals row.now)) (left_of gone.now (rows_in stored.now.slots))) }
{
    let key = stored.key_of(alloc, row)?;
    Ok(has_slot(stored, gone, &key))
}

// Whether one has the key of one of these rows.
fn any_has_slot<'a>(
    alloc: Global,
    stored: &'a StoredTable,
    gone: &RemovedRows<'a>,
    new: &[Row],
) -> Result<bool, AllocError>
    ensures ok { IfOk result (λ has. has ≡ list_any (λ n. list_any (has_key stored.now.ordinals (key_at stored.now.ordinals n)) (left_of gone.now (rows_in stored.now.slots))) new.now) }
{
    for row in new {
        if has_slot_of(alloc, stored, gone, row)? {
            return Ok(true);
        }
    }
    Ok(false)
}

// Whether one of the rows has the primary key of one that is sorted by it.
fn any_lent_has_key(table: &Table, sorted: &[&Row], rows: &[&Row]) -> bool
    requires { IsSorted (on_lent (key_cmp table.now)) sorted.now }
    ensures { result ≡ list_any (λ r. list_any (λ n. same_row (key_of table.now n) (key_of table.now r)) (rows_lent sorted.now)) (rows_lent rows.now) }
{
    for row in rows {
        if has_key_among(table, sorted, row) {
            return true;
        }
    }
    false
}

// Whether one of the rows that a source lends has the primary key of one that is sorted by it.
fn any_has_key_among<'a, S: RowSource<'a>>(table: &Table, sorted: &[&Row], rows: S) -> bool
    requires { IsSorted (on_lent (key_cmp table.now)) sorted.now }
    ensures { result ≡ list_any (λ r. list_any (λ n. same_row (key_of table.now n) (key_of table.now r)) (rows_lent sorted.now)) (S.to_come rows) }
{
    let mut rows = rows;
    while let Some(row) = rows.next_row() {
        if has_key_among(table, sorted, row) {
            return true;
        }
    }
    false
}

// Whether a row, whose key is given, is in a slot and isn't gone: then it is there once.
fn is_left<'a>(stored: &StoredTable, gone: &RemovedRows<'a>, key: &RowKey, row: &'a Row) -> bool
    requires ordinals { gone.now.columns ≡ stored.now.ordinals }
    requires key { key.now.values ≡ key_at stored.now.ordinals row.now }
    ensures is { result ≡ list_any (same_row row.now) (left_of gone.now (rows_in stored.now.slots)) }
    ensures once { IsTrue result → (more : ColumnKeys) → more.columns ≡ gone.now.columns
        → ((key : List V) → list_any (same_row key) more.keys ≡ (same_row key (key_at gone.now.columns row.now) || list_any (same_row key) gone.now.keys))
        → left_of more (rows_in stored.now.slots) ≡ without row.now (left_of gone.now (rows_in stored.now.slots)) }
{
    match stored.get(key) {
        Some(found) => same_row(row, found) && !gone.has(row),
        None => false,
    }
}

impl<'a> Overlay<'a> {
    // Promise: The rows of a table with changes that it doesn't have, of which no other row is copied: a row that is added comes after the
    // others, and one that is removed is the first that is this one. What is read of them is what is read of that list
    // With: Overlay::{add, remove, all, chosen, kept, select, has_any_key}, StoredTables::overlay
    /// The rows of a table, without any change. Refuses for want of memory.
    pub fn of(alloc: Global, table: &'a TableRows) -> Result<Overlay<'a>, AllocError>
        ensures rows { IfOk result (λ overlay. overlay.rows ≡ table.now.rows) }
    {
        let others = all_of(alloc, SharedRows::new(table.unslotted.as_slice()))?;
        Ok(Overlay {
            stored: &table.stored,
            gone: RemovedRows::new(alloc, table.stored.key_columns()),
            others,
        })
    }

    /// Adds a row. Refuses for want of memory.
    pub fn add(&mut self, row: &'a Row) -> Result<(), AllocError>
        ensures ok { OnOk result (self.new.rows ≡ self.old.rows ++ row.now ∷ []) }
    {
        self.others.push(row)?;
        Ok(())
    }

    /// Removes the first row that is this one. Refuses for want of memory.
    pub fn remove(&mut self, alloc: Global, row: &'a Row) -> Result<(), AllocError>
        ensures ok { OnOk result (self.new.rows ≡ without row.now self.old.rows) }
    {
        let key = self.stored.key_of(alloc, row)?;
        if is_left(self.stored, &self.gone, &key, row) {
            self.gone.add(row)?;
            return Ok(());
        }
        remove_first(&mut self.others, row);
        Ok(())
    }

    /// All rows.
    pub fn all<'b>(&'b self) -> RowsLeft<'a, 'b>
        ensures { result ≡ self.now.rows }
    {
        RowsLeft {
            slots: SlotsLeft::All(self.stored.slots()),
            gone: &self.gone,
            gap: None,
            others: self.others.as_slice(),
            next: 0,
        }
    }

    /// Rows among which are all whose condition is true. Refuses for want of memory.
    pub fn chosen<'b>(
        &'b self,
        alloc: Global,
        condition: &'a Option<Condition<usize>>,
    ) -> Result<RowsLeft<'a, 'b>, AllocError>
        ensures ok { IfOk result (λ rows. filter (is_kept condition.now) rows ≡ filter (is_kept condition.now) self.now.rows) }
    {
        let slots = slots_left(alloc, self.stored, condition)?;
        Ok(RowsLeft {
            slots,
            gone: &self.gone,
            gap: None,
            others: self.others.as_slice(),
            next: 0,
        })
    }

    /// Copies of the rows whose condition is true. Refuses for want of memory.
    pub fn kept(
        &self,
        alloc: Global,
        condition: &'a Option<Condition<usize>>,
    ) -> Result<Items<Row>, AllocError>
        ensures ok { IfOk result (λ list. list ≡ filter (is_kept condition.now) self.now.rows) }
    {
        let rows = self.chosen(alloc, condition)?;
        all_kept(alloc, condition, rows)
    }

    /// What a query gives over the rows. Refuses for want of memory.
    pub fn select(&self, alloc: Global, query: &'a Query) -> Result<Items<Row>, AllocError>
        requires summed { is_aggregated query.now ≡ true → CanBeSummed (filter (is_kept query.now.filter) self.now.rows) }
        ensures ok { IfOk result (IsAnswer query.now self.now.rows) }
    {
        let rows = self.chosen(alloc, &query.filter)?;
        select_from(alloc, query, rows)
    }

    // Whether a row has the primary key of one of these, if the ordinals of the key columns tell which are the same.
    fn has_any_keyed(&self, alloc: Global, table: &Table, new: &[Row]) -> Result<bool, AllocError>
        requires { (a b : List V) → same_row (key_at self.now.ordinals a) (key_at self.now.ordinals b) ≡ same_row (key_of table.now a) (key_of table.now b) }
        ensures ok { IfOk result (λ has. has ≡ list_any (λ n. list_any (λ r. same_row (key_of table.now n) (key_of table.now r)) self.now.rows) new.now) }
    {
        if any_has_slot(alloc, self.stored, &self.gone, new)? {
            return Ok(true);
        }
        let sorted = in_key_order(alloc, table, new)?;
        Ok(any_lent_has_key(table, sorted.as_slice(), self.others.as_slice()))
    }

    /// Whether a row has the primary key of one of these. Refuses for want of memory.
    pub fn has_any_key(&self, alloc: Global, table: &Table, new: &[Row]) -> Result<bool, AllocError>
        ensures ok { IfOk result (λ has. has ≡ list_any (λ n. list_any (λ r. same_row (key_of table.now n) (key_of table.now r)) self.now.rows) new.now) }
    {
        if are_key_ordinals(alloc, table, self.stored.key_columns())? {
            return self.has_any_keyed(alloc, table, new);
        }
        let sorted = in_key_order(alloc, table, new)?;
        Ok(any_has_key_among(table, sorted.as_slice(), self.all()))
    }
}

impl StoredTables {
    /// The rows of the table at an ordinal, without any change. Refuses for want of memory.
    pub fn overlay(&self, alloc: Global, ordinal: usize) -> Result<Overlay<'_>, AllocError>
        requires { ordinal < length self.now.rows }
        ensures ok { IfOk result (λ overlay. overlay.rows ≡ rows_of self.now.rows ordinal) }
    {
        Overlay::of(alloc, &self.tables[ordinal])
    }
}
