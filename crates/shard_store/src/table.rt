//! The rows of a table whose keys differ, each in the slot of its key.
ghost use Rattle.std.specs.Prelude.{◌≡◌, ◌<◌, ◌^◌, ◌&&◌, not, ◌++◌, ◌∷◌, [], IsSome, IsTrue, IfOk, IfErr, OnOk, OnErr, IsPermutation, IfSome, IsSorted, Some, None, List, reverse, option_to_list, option_copied, filter, length, is_some, if◌then◌else◌};
ghost use Rattle.std.specs.List.{AllByRecursion, list_any};
ghost use Rattle.std.specs.List.Sorted.{IsStrictlySortedBy};
ghost use Rattle.std.specs.Map.{keys_of};
ghost use Rattle.vt_value.specs.declared.value.Value.{Value as V};
ghost use Rattle.vt_value.specs.Values.{value_at};
ghost use Rattle.sql_eval.specs.Database.{same_row, without};
ghost use Rattle.sql_eval.specs.Orders.{row_cmp};
ghost use Rattle.sql_eval.specs.Conditions.{is_kept};
ghost use Rattle.key_intervals.specs.Intervals.{is_below};
ghost use Rattle.key_intervals.specs.inner.Walks.{walked};
ghost use Rattle.shard_store.specs.Keys.{row_key_cmp};
ghost use Rattle.shard_store.specs.Slots.{rows_in, slot_at, row_at, slots_from, with_slot, without_slot, is_before};
ghost use Rattle.shard_store.specs.Tables.{key_at, has_key, begins_with, IsAtItsKey};
ghost use Rattle.shard_store.specs.inner.Chosen.{lies_between};
ghost use Rattle.shard_store.specs.inner.Slots.{is_row, IsAfterFirst};
ghost use Rattle.shard_store.specs.RowsAfter.{comes_after, IsInOrder};

use crate::key::RowKey;
use crate::key_values::KeyValues;
use crate::shared_row::{SharedRow, SlotRow};
use crate::slots::Slots;
use crate::walk::{RowsBack, RowsBetween, RowsInOrder};
use key_intervals::{Direction, KeyInterval, walk_direction};
use row_chunks::Walk;
use sql_eval::{Query, Table};
use sql_tree::{Condition, Key};
use std::alloc::{AllocError, Global};
use std::marker::Model;
use std::slice;
use vt_value::{Items, Row, Value, copy};

/// The rows of a table, each in the slot of its own key: the values of the table's key columns. No two rows have the same key.
/// Contracts see the slots, in the order of the keys, and the ordinals of the key columns.
#[derive(Drop)]
pub struct StoredTable {
    slots: Slots,
    ordinals: Items<usize>,
    count: usize,
}

impl Model for StoredTable {
    ghost use Rattle.shard_store.specs.Tables.{TableView, IsStored};

    ghost Value = { TableView };

    ghost view = { λ t. record { slots = t.slots.slots; ready = t.slots.ready; ordinals = t.ordinals } };

    ghost invariant = { λ t. IsStored t.ordinals t.slots.slots t.count };
}

/// A copy of the value of a row at an ordinal: NULL after its last one. Refuses for want of memory.
fn copy_at(alloc: Global, row: &Row, ordinal: usize) -> Result<Value, AllocError>
    ensures ok { IfOk result (λ v. v ≡ value_at row.now ordinal) }
{
    match row.as_slice().get(ordinal) {
        Some(value) => copy(alloc, value),
        None => Ok(Value::Null),
    }
}

fn values_at(alloc: Global, ordinals: &[usize], row: &Row) -> Result<Row, AllocError>
    ensures ok { IfOk result (λ values. values ≡ key_at ordinals.now row.now) }
{
    let mut values = Items::new(alloc);
    for ordinal in ordinals {
        values.push(copy_at(alloc, row, *ordinal)?)?;
    }
    Ok(values)
}

// An equal list. Refuses for want of memory.
fn copied(alloc: Global, ordinals: &[usize]) -> Result<Items<usize>, AllocError>
    ensures ok { IfOk result (λ list. list ≡ ordinals.now) }
{
    let mut list = Items::new(alloc);
    for ordinal in ordinals {
        list.push(*ordinal)?;
    }
    Ok(list)
}

fn key_values(alloc: Global, ordinals: &[usize], row: &Row) -> Result<KeyValues, AllocError>
    ensures ok { IfOk result (λ values. values ≡ key_at ordinals.now row.now) }
{
    match ordinals {
        [ordinal] => KeyValues::of_one(alloc, copy_at(alloc, row, *ordinal)?),
        _ => KeyValues::new(alloc, values_at(alloc, ordinals, row)?),
    }
}

// A key before which others are, if there is one.
fn key_below(alloc: Global, below: Option<Row>) -> Result<Option<RowKey>, AllocError>
    ensures ok { IfOk result (λ key. (k : RowKey) → is_before key k ≡ is_below below k.values) }
{
    match below {
        Some(values) => {
            let values = KeyValues::new(alloc, values)?;
            Ok(Some(RowKey { values }))
        }
        None => Ok(None),
    }
}

impl StoredTable {
    /// A table without rows, whose key columns are at these ordinals.
    pub fn new(alloc: Global, ordinals: Items<usize>) -> StoredTable
        ensures slots { result.slots ≡ [] }
        ensures ordinals { result.ordinals ≡ ordinals }
    {
        StoredTable {
            slots: Slots::new(alloc),
            ordinals,
            count: 0,
        }
    }

    /// The ordinals of the key columns.
    pub fn key_columns(&self) -> &[usize]
        ensures { result.now ≡ self.now.ordinals }
    {
        self.ordinals.as_slice()
    }

    /// The key of a row of this table. Refuses for want of memory.
    pub fn key_of(&self, alloc: Global, row: &Row) -> Result<RowKey, AllocError>
        ensures ok { IfOk result (λ key. key.values ≡ key_at self.now.ordinals row.now) }
    {
        let values = key_values(alloc, self.ordinals.as_slice(), row)?;
        Ok(RowKey { values })
    }

    /// How many rows the table has.
    pub fn row_count(&self) -> usize
        ensures count { result ≡ length (rows_in self.now.slots) }
        ensures small { result < 2 ^ 63 }
    {
        let _slots = self.slots.len();
        self.count
    }

    /// All rows, in the order of their keys.
    pub fn rows(&self) -> RowsInOrder<'_>
        ensures { result ≡ rows_in self.now.slots }
    {
        self.slots.rows()
    }

    /// All slots, in the order of their keys. The rows in them are at their keys.
    pub(crate) fn slots(&self) -> Walk<'_, RowKey, SlotRow>
        ensures slots { result ≡ self.now.slots }
        ensures keyed { AllByRecursion (IsAtItsKey self.now.ordinals) result }
        ensures ascend { IsStrictlySortedBy row_key_cmp (keys_of self.now.slots) }
    {
        let _slots = self.slots.len();
        self.slots.all()
    }

    /// The rows in the order of their keys, from a key on.
    pub fn rows_from(&self, key: &RowKey) -> RowsInOrder<'_>
        ensures { result ≡ rows_in (slots_from key.now self.now.slots) }
    {
        self.slots.rows_from(key)
    }

    /// Whether the key columns are those of the primary key, in its order.
    pub(crate) fn is_by_primary_key(&self, table: &Table) -> bool
        ensures { IsTrue result → self.now.ordinals ≡ table.now.primary_key }
    {
        self.key_columns() == table.primary_key.as_slice()
    }

    // The rows from the key of a row on.
    fn rows_from_row(&self, alloc: Global, row: &Row) -> Result<RowsInOrder<'_>, AllocError>
        ensures ok { IfOk result (λ rows. rows ≡ rows_in (slots_from (record { values = key_at self.now.ordinals row.now }) self.now.slots)) }
    {
        let key = self.key_of(alloc, row)?;
        Ok(self.slots.rows_from(&key))
    }

    /// Rows in slots among which are all after a row; all, if they aren't in the order of primary keys.
    pub(crate) fn rows_after(
        &self,
        alloc: Global,
        table: &Table,
        in_order: bool,
        last: Option<&Row>,
    ) -> Result<RowsInOrder<'_>, AllocError>
        requires { IsTrue in_order → self.now.ordinals ≡ table.now.primary_key }
        ensures rows { IfOk result (λ rows. filter (comes_after table.now (option_copied last.entry)) rows ≡ filter (comes_after table.now (option_copied last.entry)) (rows_in self.now.slots)) }
        ensures order { IfOk result (λ rows. IsTrue in_order → IsInOrder table.now rows) }
    {
        let _slots = self.slots.len();
        match last {
            Some(last) if in_order => self.rows_from_row(alloc, last),
            _ => Ok(self.slots.rows()),
        }
    }

    /// The rows whose first key column has a value, in the order of their keys. Refuses for want of memory for that value's key.
    pub fn rows_with<'a>(
        &'a self,
        alloc: Global,
        value: &'a Value,
    ) -> Result<RowsBetween<'a>, AllocError>
        requires { 0 < length self.now.ordinals }
        ensures ok { IfOk result (λ rows. rows ≡ filter (begins_with self.now.ordinals value.now) (rows_in self.now.slots)) }
    {
        let rows = self.slots.rows_with(alloc, value)?;
        Ok(rows)
    }

    /// The rows whose keys lie in an interval and begin with a value, if one is given, in the order of their keys. Refuses for want of memory.
    pub(crate) fn rows_inside<'a>(
        &'a self,
        alloc: Global,
        first: Option<&'a Value>,
        keys: KeyInterval,
    ) -> Result<RowsBetween<'a>, AllocError>
        requires { IsAfterFirst first (record { values = keys.from }) }
        ensures ok { IfOk result (λ rows. rows ≡ filter (λ row. lies_between first.entry keys (key_at self.now.ordinals row)) (rows_in self.now.slots)) }
    {
        let _slots = self.slots.len();
        let KeyInterval { from, below } = keys;
        let values = KeyValues::new(alloc, from)?;
        let below = key_below(alloc, below)?;
        Ok(self.slots.rows_between(first, &RowKey { values }, below))
    }

    /// The rows whose keys lie in an interval, in the reverse order of their keys. Refuses for want of memory.
    pub(crate) fn rows_back(
        &self,
        alloc: Global,
        keys: KeyInterval,
    ) -> Result<RowsBack<'_>, AllocError>
        ensures ok { IfOk result (λ rows. rows ≡ reverse (filter (λ row. lies_between None keys (key_at self.now.ordinals row)) (rows_in self.now.slots))) }
    {
        let _slots = self.slots.len();
        let KeyInterval { from, below } = keys;
        let values = KeyValues::new(alloc, from)?;
        let below = key_below(alloc, below)?;
        Ok(self.slots.rows_back(RowKey { values }, below))
    }

    /// The direction of a walk that meets the rows which a query's condition keeps in the order of its ORDER BY, if one does.
    pub(crate) fn direction(&self, query: &Query) -> Option<Direction>
        ensures { IfSome result (λ d. IsSorted (row_cmp query.now.order_by) (walked d (filter (is_kept query.now.filter) (rows_in self.now.slots)))) }
    {
        let _slots = self.slots.len();
        walk_direction(
            &query.filter,
            self.ordinals.as_slice(),
            query.order_by.as_slice(),
        )
    }

    /// The direction of a walk that meets the rows which a condition keeps in the order of a column, if one does.
    pub(crate) fn direction_to(
        &self,
        condition: &Option<Condition<usize>>,
        key: &Key<usize>,
    ) -> Option<Direction>
        ensures { IfSome result (λ d. IsSorted (row_cmp (key.now ∷ [])) (walked d (filter (is_kept condition.now) (rows_in self.now.slots)))) }
    {
        let _slots = self.slots.len();
        walk_direction(condition, self.ordinals.as_slice(), slice::from_ref(key))
    }

    /// The row that has a key, if one has it.
    pub fn get(&self, key: &RowKey) -> Option<&Row>
        ensures { option_to_list (option_copied result) ≡ filter (has_key self.now.ordinals key.now.values) (rows_in self.now.slots) }
    {
        let _slots = self.slots.len();
        self.slots.get(key)
    }

    /// Whether a row has a key.
    pub fn contains(&self, key: &RowKey) -> bool
        ensures { result ≡ list_any (has_key self.now.ordinals key.now.values) (rows_in self.now.slots) }
    {
        let _slots = self.slots.len();
        // mostly the key of a new row has no slot
        self.slots.has(key) && self.get(key).is_some()
    }

    /// Whether this row, whose key is given, is there.
    pub fn holds(&self, key: &RowKey, row: &Row) -> bool
        requires { key.now.values ≡ key_at self.now.ordinals row.now }
        ensures is { result ≡ list_any (same_row row.now) (rows_in self.now.slots) }
        ensures at { IsTrue result → row_at self.now.slots key.now ≡ Some row.now }
    {
        let _slots = self.slots.len();
        self.slots.holds(key, row)
    }

    /// Makes a slot for a key, if it has none, and has it ready. Refuses for want of memory; the slots stay as they are.
    pub fn reserve(&mut self, alloc: Global, key: &RowKey) -> Result<(), AllocError>
        ensures rows { rows_in self.new.slots ≡ rows_in self.old.slots }
        ensures ok { OnOk result (IsSome (slot_at self.new.slots key.now)) }
        ensures ready { OnOk result (IsSome (slot_at self.new.ready key.now)) }
        ensures kept { (k : RowKey) → IsSome (slot_at self.old.slots k) → slot_at self.new.slots k ≡ slot_at self.old.slots k }
        ensures still { (k : RowKey) → IsSome (slot_at self.old.ready k) → IsSome (slot_at self.new.ready k) }
        ensures slots { OnOk result (self.new.slots ≡ (if is_some (slot_at self.old.slots key.now) then self.old.slots else with_slot key.now self.old.slots)) }
        ensures ordinals { self.new.ordinals ≡ self.old.ordinals }
        ensures unchanged { OnErr result (self.new.slots ≡ self.old.slots) }
    {
        self.slots.reserve(alloc, key)
    }

    /// Gives up the slot of a key, if it is ready and has no row. Takes no memory.
    pub fn sweep(&mut self, key: &RowKey)
        ensures rows { rows_in self.new.slots ≡ rows_in self.old.slots }
        ensures slots { self.new.slots ≡ (if is_some (slot_at self.old.ready key.now) && not (is_some (row_at self.old.slots key.now)) then without_slot key.now self.old.slots else self.old.slots) }
        ensures ordinals { self.new.ordinals ≡ self.old.ordinals }
    {
        self.slots.sweep(key);
    }

    /// Has the slot of a key, and those about it, no longer ready, so that a snapshot can share them. Takes no memory.
    pub fn close(&mut self, key: &RowKey)
        ensures slots { self.new.slots ≡ self.old.slots }
        ensures ordinals { self.new.ordinals ≡ self.old.ordinals }
    {
        self.slots.close(key);
    }

    /// The table as it is now, whatever is changed in either later. Takes the same time for any number of rows. No slot is ready then.
    /// Refuses for want of memory; the slots stay as they are.
    pub fn snapshot(&mut self, alloc: Global) -> Result<StoredTable, AllocError>
        ensures snapshot { IfOk result (λ t. t.slots ≡ self.old.slots) }
        ensures columns { IfOk result (λ t. t.ordinals ≡ self.old.ordinals) }
        ensures slots { self.new.slots ≡ self.old.slots }
        ensures ordinals { self.new.ordinals ≡ self.old.ordinals }
    {
        let ordinals = copied(alloc, self.ordinals.as_slice())?;
        let slots = self.slots.snapshot(alloc)?;
        Ok(StoredTable {
            slots,
            ordinals,
            count: self.count,
        })
    }

    /// Puts a row into the slot of its key, and gives the one that the slot had; gives the row back, if the key has no slot that is ready.
    /// Takes no memory.
    pub fn put(&mut self, key: &RowKey, row: SharedRow) -> Result<Option<SharedRow>, SharedRow>
        requires { key.now.values ≡ key_at self.old.ordinals row }
        ensures rows { IfOk result (λ former. IsPermutation (option_to_list former ++ rows_in self.new.slots) (row ∷ rows_in self.old.slots)) }
        ensures former { IfOk result (λ former. (r : List V) → key.now.values ≡ key_at self.old.ordinals r → list_any (same_row r) (rows_in self.old.slots) ≡ is_row r former) }
        ensures err { IfErr result (λ r. r ≡ row) }
        ensures none { OnErr result (slot_at self.old.ready key.now ≡ None) }
        ensures unchanged { OnErr result (self.new.slots ≡ self.old.slots) }
        ensures still { (k : RowKey) → IsSome (slot_at self.old.ready k) → IsSome (slot_at self.new.ready k) }
        ensures ordinals { self.new.ordinals ≡ self.old.ordinals }
    {
        let _before = self.slots.len();
        let former = match self.slots.put(key, row) {
            Ok(former) => former,
            Err(row) => return Err(row),
        };
        let _after = self.slots.len();
        if former.is_none() {
            self.count += 1;
        }
        Ok(former)
    }

    /// Removes a row, if it is there, whose key's slot is ready; the slot stays. Takes no memory.
    pub fn remove(&mut self, key: &RowKey, row: &Row)
        requires key { key.now.values ≡ key_at self.old.ordinals row.now }
        requires ready { IsSome (slot_at self.old.ready key.now) }
        ensures rows { IsPermutation (rows_in self.new.slots) (without row.now (rows_in self.old.slots)) }
        ensures still { (k : RowKey) → IsSome (slot_at self.old.ready k) → IsSome (slot_at self.new.ready k) }
        ensures ordinals { self.new.ordinals ≡ self.old.ordinals }
    {
        let _slots = self.slots.len();
        if self.slots.holds(key, row) {
            self.slots.take(key);
            self.count -= 1;
        }
    }
}
