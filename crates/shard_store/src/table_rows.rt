//! The rows of a table, without a promise that their keys differ: a row lies in the slot of its key, or in a list if another row has that slot.
ghost use Rattle.std.specs.Prelude.{◌≡◌, ◌+◌, ◌-◌, ◌<◌, ◌≤◌, ◌++◌, ◌∷◌, [], IsSome, IfOk, OnOk, IsPermutation, length, position, vec_len, vec_capacity};
ghost use Rattle.sql_eval.specs.Database.{same_row, without};
ghost use Rattle.shard_store.specs.Slots.{rows_in, slot_at};
ghost use Rattle.shard_store.specs.Tables.{key_at};

use crate::key::RowKey;
use crate::shared_row::{SharedRow, SharedRows};
use crate::table::StoredTable;
use crate::walk::AllRows;
use sql_eval::same_row;
use std::alloc::{AllocError, Global};
use std::marker::Model;
use vt_value::{Items, Row};

// The ordinal of the first row that is this one.
fn ordinal_of(rows: &[SharedRow], row: &Row) -> Option<usize>
    ensures { result ≡ position (λ r. same_row row.now r) rows.now }
{
    rows.iter().position(|r| same_row(row, r.get()))
}

// Removes the first row that is this one, if there is one.
fn remove_row(rows: &mut Vec<SharedRow>, row: &Row)
    ensures rows { rows.new.items ≡ without row.now rows.old.items }
    ensures room { vec_capacity rows.old - vec_len rows.old ≤ vec_capacity rows.new - vec_len rows.new }
{
    if let Some(ordinal) = ordinal_of(rows.as_slice(), row) {
        rows.remove(ordinal);
    }
}

/// The key of a changed row, and whether the change took that from its slot.
#[derive(Drop)]
pub(crate) struct ChangedKey {
    key: RowKey,
    is_taken: bool,
}

// Gives up the slots from which a row was taken that have none.
fn sweep_slots(stored: &mut StoredTable, keys: &[ChangedKey])
    ensures rows { rows_in stored.new.slots ≡ rows_in stored.old.slots }
    ensures ordinals { stored.new.ordinals ≡ stored.old.ordinals }
{
    for changed in keys {
        if changed.is_taken {
            stored.sweep(&changed.key);
        }
    }
}

// Has the slots of these keys no longer ready.
fn close_slots(stored: &mut StoredTable, keys: &mut Vec<ChangedKey>)
    ensures slots { stored.new.slots ≡ stored.old.slots }
    ensures ordinals { stored.new.ordinals ≡ stored.old.ordinals }
{
    while let Some(changed) = keys.pop() {
        stored.close(&changed.key);
    }
}

// Other owners of the rows.
fn shared(alloc: Global, rows: &[SharedRow]) -> Result<Vec<SharedRow>, AllocError>
    ensures ok { IfOk result (λ list. list.items ≡ rows.now) }
{
    let mut list = Vec::new(alloc);
    for row in rows {
        list.push(row.clone()?)?;
    }
    Ok(list)
}

/// The rows of a table in any number, also of one key: each in the slot of its key, or outside the slots if another row has its key
/// or the key has no slot. Contracts see a `RowsView`.
pub struct TableRows {
    pub(crate) stored: StoredTable,
    pub(crate) unslotted: Vec<SharedRow>,
    // whose slots are to be no longer ready, and to be given up if they have no row
    pub(crate) changed: Vec<ChangedKey>,
}

impl Drop for TableRows {
    // Who drops one calls this, and need not know what it owns.
    fn drop(self) {
        let TableRows {
            stored,
            unslotted,
            changed,
        } = self;
        drop(stored);
        drop(unslotted);
        drop(changed);
    }
}

impl Model for TableRows {
    ghost use Rattle.std.specs.Prelude.{◌++◌, ◌-◌, vec_len, vec_capacity};
    ghost use Rattle.shard_store.specs.Slots.{rows_in};
    ghost use Rattle.shard_store.specs.Stores.{RowsView};

    ghost Value = { RowsView };

    ghost view = { λ t. record { rows = rows_in t.stored.slots ++ t.unslotted.items; ready = t.stored.ready; ordinals = t.stored.ordinals; room = vec_capacity t.unslotted - vec_len t.unslotted } };
}

impl TableRows {
    /// No rows, of a table whose key columns are at these ordinals.
    pub fn new(alloc: Global, ordinals: Items<usize>) -> TableRows
        ensures rows { result.rows ≡ [] }
        ensures ordinals { result.ordinals ≡ ordinals }
    {
        TableRows {
            stored: StoredTable::new(alloc, ordinals),
            unslotted: Vec::new(alloc),
            changed: Vec::new(alloc),
        }
    }

    /// The key of a row of this table. Refuses for want of memory.
    pub fn key_of(&self, alloc: Global, row: &Row) -> Result<RowKey, AllocError>
        ensures ok { IfOk result (λ key. key.values ≡ key_at self.now.ordinals row.now) }
    {
        self.stored.key_of(alloc, row)
    }

    /// How many rows the table has.
    pub fn row_count(&self) -> usize
        ensures { result ≡ length self.now.rows }
    {
        self.stored.row_count() + self.unslotted.len()
    }

    /// All rows: those in slots, in the order of their keys, and then the others.
    pub fn all(&self) -> AllRows<'_>
        ensures { result ≡ self.now.rows }
    {
        AllRows {
            slots: self.stored.rows(),
            unslotted: SharedRows::new(self.unslotted.as_slice()),
        }
    }

    // Makes memory for so many more rows without slots.
    fn reserve(&mut self, additional: usize) -> Result<(), AllocError>
        ensures rows { self.new.rows ≡ self.old.rows }
        ensures ordinals { self.new.ordinals ≡ self.old.ordinals }
        ensures ready { self.new.ready ≡ self.old.ready }
        ensures room { self.old.room ≤ self.new.room }
        ensures ok { OnOk result (additional ≤ self.new.room) }
    {
        self.unslotted.reserve(additional)?;
        Ok(())
    }

    // Makes a slot for a key, if it has none, and has it ready.
    fn reserve_slot(&mut self, alloc: Global, key: &RowKey) -> Result<(), AllocError>
        ensures rows { self.new.rows ≡ self.old.rows }
        ensures ordinals { self.new.ordinals ≡ self.old.ordinals }
        ensures room { self.new.room ≡ self.old.room }
        ensures ready { OnOk result (IsSome (slot_at self.new.ready key.now)) }
        ensures still { (k : RowKey) → IsSome (slot_at self.old.ready k) → IsSome (slot_at self.new.ready k) }
    {
        self.stored.reserve(alloc, key)
    }

    /// Makes memory for so many more rows without slots, and a slot for a key that is ready. Refuses for want of memory; the rows stay as they are.
    pub fn make_room(
        &mut self,
        alloc: Global,
        key: &RowKey,
        additional: usize,
    ) -> Result<(), AllocError>
        ensures rows { self.new.rows ≡ self.old.rows }
        ensures ordinals { self.new.ordinals ≡ self.old.ordinals }
        ensures room { self.old.room ≤ self.new.room }
        ensures ok { OnOk result (additional ≤ self.new.room) }
        ensures ready { OnOk result (IsSome (slot_at self.new.ready key.now)) }
        ensures still { (k : RowKey) → IsSome (slot_at self.old.ready k) → IsSome (slot_at self.new.ready k) }
    {
        self.reserve(additional)?;
        self.reserve_slot(alloc, key)
    }

    /// Adds a row. Takes no memory.
    pub fn add(&mut self, key: &RowKey, row: SharedRow)
        requires key { key.now.values ≡ key_at self.old.ordinals row }
        requires room { 0 < self.old.room }
        ensures rows { IsPermutation self.new.rows (self.old.rows ++ row ∷ []) }
        ensures still { (k : RowKey) → IsSome (slot_at self.old.ready k) → IsSome (slot_at self.new.ready k) }
        ensures ordinals { self.new.ordinals ≡ self.old.ordinals }
        ensures room { self.old.room ≤ self.new.room + 1 }
    {
        match self.stored.put(key, row) {
            Ok(None) => {}
            Ok(Some(former)) => self.unslotted.push_reserved(former),
            Err(row) => self.unslotted.push_reserved(row),
        }
    }

    /// Removes a row, if it is there, whose key's slot is ready; the slot stays. Takes no memory.
    pub fn remove(&mut self, key: &RowKey, row: &Row)
        requires key { key.now.values ≡ key_at self.old.ordinals row.now }
        requires ready { IsSome (slot_at self.old.ready key.now) }
        ensures rows { IsPermutation self.new.rows (without row.now self.old.rows) }
        ensures still { (k : RowKey) → IsSome (slot_at self.old.ready k) → IsSome (slot_at self.new.ready k) }
        ensures ordinals { self.new.ordinals ≡ self.old.ordinals }
        ensures room { self.old.room ≤ self.new.room }
    {
        if self.stored.holds(key, row) {
            self.stored.remove(key, row);
        } else {
            remove_row(&mut self.unslotted, row);
        }
    }

    /// Puts a row in the place of another one, whose key is the same; adds it, if the other isn't there. Takes no memory.
    pub fn replace(&mut self, key: &RowKey, old: &Row, new: SharedRow)
        requires old_key { key.now.values ≡ key_at self.old.ordinals old.now }
        requires new_key { key.now.values ≡ key_at self.old.ordinals new }
        requires ready { IsSome (slot_at self.old.ready key.now) }
        requires room { 0 < self.old.room }
        ensures rows { IsPermutation self.new.rows (without old.now self.old.rows ++ new ∷ []) }
        ensures still { (k : RowKey) → IsSome (slot_at self.old.ready k) → IsSome (slot_at self.new.ready k) }
        ensures ordinals { self.new.ordinals ≡ self.old.ordinals }
        ensures room { self.old.room ≤ self.new.room + 1 }
    {
        match self.stored.put(key, new) {
            Ok(Some(former)) => {
                if !same_row(old, former.get()) {
                    remove_row(&mut self.unslotted, old);
                    self.unslotted.push_reserved(former);
                }
            }
            Ok(None) => remove_row(&mut self.unslotted, old),
            Err(_) => unreachable!(),
        }
    }

    /// Makes memory to remember so many more keys of changed rows. Refuses for want of memory; the rows stay as they are.
    pub fn reserve_freed(&mut self, additional: usize) -> Result<(), AllocError>
        ensures unchanged { self.new ≡ self.old }
    {
        self.changed.reserve(additional)?;
        Ok(())
    }

    fn remember(&mut self, key: RowKey, is_taken: bool)
        ensures { self.new ≡ self.old }
    {
        if self.changed.len() < self.changed.capacity() {
            self.changed.push_reserved(ChangedKey { key, is_taken });
        }
    }

    /// Remembers the key of a row that was taken from its slot, which is looked at by `sweep`, if there is memory for that. Takes no memory.
    pub fn free(&mut self, key: RowKey)
        ensures { self.new ≡ self.old }
    {
        self.remember(key, true);
    }

    /// Remembers the key of a row that was put into its slot, which `sweep` has no longer ready, if there is memory for that. Takes no memory.
    pub fn fill(&mut self, key: RowKey)
        ensures { self.new ≡ self.old }
    {
        self.remember(key, false);
    }

    /// Gives up the slots of remembered keys whose rows were taken, if they have none, and has the others no longer ready, so that a snapshot can share them.
    /// Takes no memory.
    pub fn sweep(&mut self)
        ensures rows { self.new.rows ≡ self.old.rows }
        ensures ordinals { self.new.ordinals ≡ self.old.ordinals }
        ensures room { self.new.room ≡ self.old.room }
    {
        sweep_slots(&mut self.stored, self.changed.as_slice());
        close_slots(&mut self.stored, &mut self.changed);
    }

    /// The table as it is now, whatever is changed in either later. Takes the same time for any number of rows in slots. No slot is ready
    /// then. Refuses for want of memory; the rows stay as they are.
    pub fn snapshot(&mut self, alloc: Global) -> Result<TableRows, AllocError>
        ensures snapshot { IfOk result (λ t. t.rows ≡ self.old.rows) }
        ensures columns { IfOk result (λ t. t.ordinals ≡ self.old.ordinals) }
        ensures rows { self.new.rows ≡ self.old.rows }
        ensures ordinals { self.new.ordinals ≡ self.old.ordinals }
        ensures room { self.new.room ≡ self.old.room }
    {
        let unslotted = shared(alloc, self.unslotted.as_slice())?;
        let stored = self.stored.snapshot(alloc)?;
        Ok(TableRows {
            stored,
            unslotted,
            changed: Vec::new(alloc),
        })
    }
}
