//! The tables of a shard. Changes are prepared with all their memory first, and then applied without any.
ghost use Rattle.std.specs.Prelude.{◌≡◌, ◌==◌, ◌+◌, ◌<◌, ◌≤◌, ◌^◌, if◌then◌else◌, ◌++◌, ◌∷◌, [], ℕ, IsTrue, IsSome, map, OnOk, OnErr, IfOk, length, slice_set, count_by, IsPermutation, sum_by, nat_le};
ghost use Rattle.std.specs.List.{AllByRecursion};
ghost use Rattle.sql_eval.specs.RowChange.TheVariants.{Added, Replaced, Removed};
ghost use Rattle.sql_eval.specs.Database.{SameRows, rows_of, without, changed_table, applied, all_applied};
ghost use Rattle.shard_store.specs.Slots.{slot_at};
ghost use Rattle.shard_store.specs.Tables.{key_at};
ghost use Rattle.shard_store.specs.Stores.{ordinals_of, ready_of, room_of, key_in, change_in, changes_in, IsByItsKey, HasReadySlot, HasItsKey, puts_into, HasRoomFor, IsReadyFor};
ghost use Rattle.shard_store.specs.inner.Stores.{DoTheSame};

use crate::key::{KeyedChange, KeyedRow, KeyedSwap, RowKey};
use crate::key_columns::key_ordinals;
use crate::key_values::KeyValues;
use crate::shared_change::{ChangedRows, SharedChange};
use crate::shared_row::SharedRow;
use crate::table_rows::TableRows;
use sql_eval::Table;
use std::alloc::{AllocError, Global};
use std::marker::Model;
use vt_value::{Items, Row};

/// The rows of a shard's tables, in the order of the VSchema. Contracts see a `StoreView`.
pub struct StoredTables {
    pub(crate) tables: Vec<TableRows>,
}

impl Drop for StoredTables {
    // Who drops one calls this, and need not know what it owns.
    fn drop(self) {
        let StoredTables { tables } = self;
        drop(tables);
    }
}

impl Model for StoredTables {
    ghost use Rattle.std.specs.Prelude.{map};
    ghost use Rattle.shard_store.specs.Stores.{StoreView};

    ghost Value = { StoreView };

    ghost view = { λ s. record { rows = map (λ t. t.rows) s.tables.items; ready = map (λ t. t.ready) s.tables.items; ordinals = map (λ t. t.ordinals) s.tables.items; room = map (λ t. t.room) s.tables.items } };
}

fn ordinal_in(change: &KeyedChange) -> usize
    ensures { result ≡ changed_table (change_in change.now) }
{
    match change {
        KeyedChange::Put(ordinal, _) => *ordinal,
        KeyedChange::Take(ordinal, _) => *ordinal,
        KeyedChange::Swap(ordinal, _) => *ordinal,
    }
}

fn key_in(change: &KeyedChange) -> &RowKey
    ensures { result.now ≡ key_in change.now }
{
    match change {
        KeyedChange::Put(_, keyed) => &keyed.key,
        KeyedChange::Take(_, keyed) => &keyed.key,
        KeyedChange::Swap(_, swap) => &swap.key,
    }
}

fn are_same(a: &RowKey, b: &RowKey) -> bool
    ensures { IsTrue result → a.now.values ≡ b.now.values }
{
    a == b
}

// A row in another's place, of both of which another owner is made.
fn swap_of(key: RowKey, old: &SharedRow, new: &SharedRow) -> Result<KeyedSwap, AllocError>
    ensures key { IfOk result (λ s. s.key ≡ key) }
    ensures old { IfOk result (λ s. s.old ≡ old.now) }
    ensures new { IfOk result (λ s. s.new ≡ new.now) }
{
    let old = old.clone()?;
    let new = new.clone()?;
    Ok(KeyedSwap { key, old, new })
}

// Gives up the slots of changed rows that have no row, and has the others no longer ready.
fn sweep_tables(tables: &mut Vec<TableRows>)
    ensures rows { map (λ t. t.rows) tables.new.items ≡ map (λ t. t.rows) tables.old.items }
    ensures ordinals { map (λ t. t.ordinals) tables.new.items ≡ map (λ t. t.ordinals) tables.old.items }
{
    for ordinal in 0..tables.len() {
        tables[ordinal].sweep();
    }
}

// A snapshot of each table.
fn snapshots(alloc: Global, tables: &mut Vec<TableRows>) -> Result<Vec<TableRows>, AllocError>
    ensures snapshot { IfOk result (λ list. map (λ t. t.rows) list.items ≡ map (λ t. t.rows) tables.old.items) }
    ensures columns { IfOk result (λ list. map (λ t. t.ordinals) list.items ≡ map (λ t. t.ordinals) tables.old.items) }
    ensures rows { map (λ t. t.rows) tables.new.items ≡ map (λ t. t.rows) tables.old.items }
    ensures ordinals { map (λ t. t.ordinals) tables.new.items ≡ map (λ t. t.ordinals) tables.old.items }
{
    let mut list = Vec::new(alloc);
    for ordinal in 0..tables.len() {
        list.push(tables[ordinal].snapshot(alloc)?)?;
    }
    Ok(list)
}

impl StoredTables {
    // Promise: A shard's store (`shard::Store`) does any changes, whatever keys their rows have: all memory is made before, together with
    // the changes by their keys, and leaves the rows as they are, also if it is refused; the changes are then done without memory, and
    // leave, as bags, the rows that they should. What a query gives, what a write changes or is refused for, and which rows a condition
    // keeps are those over all rows of the table. What a join gives is what it gives over all pairs of rows of its two tables, whether the
    // store or other sources lend them
    // With: StoredTables::{push_table, row_count, has_at_most, prepare, apply, select, changes, kept, all}, select_joined
    /// No tables.
    pub fn new(alloc: Global) -> StoredTables
        ensures { result.rows ≡ [] }
    {
        StoredTables {
            tables: Vec::new(alloc),
        }
    }

    /// Adds a table without rows after those that are there. Refuses for want of memory; then nothing has changed.
    pub fn push_table(&mut self, alloc: Global, table: &Table) -> Result<(), AllocError>
        ensures ok { OnOk result (self.new.rows ≡ self.old.rows ++ [] ∷ []) }
        ensures unchanged { OnErr result (self.new ≡ self.old) }
    {
        let ordinals = key_ordinals(alloc, table)?;
        self.tables.push(TableRows::new(alloc, ordinals))?;
        Ok(())
    }

    /// How many rows all tables have.
    pub fn row_count(&self) -> usize
        requires { sum_by length self.now.rows < 2 ^ 64 }
        ensures { result ≡ sum_by length self.now.rows }
    {
        let mut count = 0;
        for table in &self.tables {
            count += table.row_count();
        }
        count
    }

    /// Whether all tables together have at most so many rows.
    pub fn has_at_most(&self, most: u64) -> bool
        ensures { result ≡ nat_le (sum_by length self.now.rows) most }
    {
        let mut left = most;
        for table in self.tables.as_slice() {
            let rows = table.row_count() as u64;
            if rows > left {
                return false;
            }
            left -= rows;
        }
        true
    }

    // The key of a row of the table at an ordinal.
    fn key_of(&self, alloc: Global, ordinal: usize, row: &Row) -> Result<RowKey, AllocError>
        ensures ok { IfOk result (λ key. key.values ≡ key_at (ordinals_of self.now ordinal) row.now) }
    {
        match self.tables.get(ordinal) {
            Some(table) => table.key_of(alloc, row),
            None => {
                let values = KeyValues::new(alloc, Items::new(alloc))?;
                Ok(RowKey { values })
            }
        }
    }

    // The row, of which another owner is made, with its key.
    fn keyed_row(
        &self,
        alloc: Global,
        ordinal: usize,
        row: &SharedRow,
    ) -> Result<KeyedRow, AllocError>
        ensures row { IfOk result (λ k. k.row ≡ row.now) }
        ensures key { IfOk result (λ k. k.key.values ≡ key_at (ordinals_of self.now ordinal) row.now) }
    {
        let row = row.clone()?;
        match self.key_of(alloc, ordinal, row.get()) {
            Ok(key) => Ok(KeyedRow { key, row }),
            Err(e) => Err(e),
        }
    }

    // Puts the addition of a row after the changes.
    fn push_put(
        &self,
        alloc: Global,
        ordinal: usize,
        row: &SharedRow,
        keyed: &mut Vec<KeyedChange>,
    ) -> Result<(), AllocError>
        requires { AllByRecursion (IsByItsKey self.now) keyed.old.items }
        ensures keys { OnOk result (AllByRecursion (IsByItsKey self.now) keyed.new.items) }
        ensures changes { OnOk result (changes_in keyed.new.items ≡ changes_in keyed.old.items ++ Added ordinal row.now ∷ []) }
    {
        let row = self.keyed_row(alloc, ordinal, row)?;
        keyed.push(KeyedChange::Put(ordinal, row))?;
        Ok(())
    }

    // Puts the removal of a row after the changes.
    fn push_take(
        &self,
        alloc: Global,
        ordinal: usize,
        row: &SharedRow,
        keyed: &mut Vec<KeyedChange>,
    ) -> Result<(), AllocError>
        requires { AllByRecursion (IsByItsKey self.now) keyed.old.items }
        ensures keys { OnOk result (AllByRecursion (IsByItsKey self.now) keyed.new.items) }
        ensures changes { OnOk result (changes_in keyed.new.items ≡ changes_in keyed.old.items ++ Removed ordinal row.now ∷ []) }
    {
        let row = self.keyed_row(alloc, ordinal, row)?;
        keyed.push(KeyedChange::Take(ordinal, row))?;
        Ok(())
    }

    // Puts a row in another's place after the changes, if both have the same key; tells whether they have.
    fn push_swap(
        &self,
        alloc: Global,
        ordinal: usize,
        old: &SharedRow,
        new: &SharedRow,
        keyed: &mut Vec<KeyedChange>,
    ) -> Result<bool, AllocError>
        requires { AllByRecursion (IsByItsKey self.now) keyed.old.items }
        ensures keys { OnOk result (AllByRecursion (IsByItsKey self.now) keyed.new.items) }
        ensures changes { IfOk result (λ same. changes_in keyed.new.items ≡ (if same then changes_in keyed.old.items ++ Replaced ordinal old.now new.now ∷ [] else changes_in keyed.old.items)) }
    {
        let old_key = self.key_of(alloc, ordinal, old.get())?;
        let key = self.key_of(alloc, ordinal, new.get())?;
        if !are_same(&old_key, &key) {
            return Ok(false);
        }
        let swap = swap_of(key, old, new)?;
        keyed.push(KeyedChange::Swap(ordinal, swap))?;
        Ok(true)
    }

    // Puts a change after the changes: a row in another's place is its removal and then the other's addition, if their keys differ.
    fn push_change(
        &self,
        alloc: Global,
        change: &SharedChange,
        keyed: &mut Vec<KeyedChange>,
    ) -> Result<(), AllocError>
        requires { AllByRecursion (IsByItsKey self.now) keyed.old.items }
        ensures keys { OnOk result (AllByRecursion (IsByItsKey self.now) keyed.new.items) }
        ensures changes { OnOk result (DoTheSame (changes_in keyed.new.items) (changes_in keyed.old.items ++ change.now ∷ [])) }
    {
        match change.rows() {
            ChangedRows::Added(ordinal, row) => self.push_put(alloc, *ordinal, row, keyed),
            ChangedRows::Replaced(ordinal, old, new) => {
                if self.push_swap(alloc, *ordinal, old, new, keyed)? {
                    return Ok(());
                }
                self.push_take(alloc, *ordinal, old, keyed)?;
                self.push_put(alloc, *ordinal, new, keyed)
            }
            ChangedRows::Removed(ordinal, row) => self.push_take(alloc, *ordinal, row, keyed),
        }
    }

    // The changes by keys.
    fn keyed_changes(
        &self,
        alloc: Global,
        changes: &[SharedChange],
    ) -> Result<Vec<KeyedChange>, AllocError>
        ensures keys { IfOk result (λ keyed. AllByRecursion (IsByItsKey self.now) keyed.items) }
        ensures changes { IfOk result (λ keyed. DoTheSame (changes_in keyed.items) changes.now) }
    {
        let mut keyed = Vec::new(alloc);
        for change in changes {
            self.push_change(alloc, change, &mut keyed)?;
        }
        Ok(keyed)
    }

    // Makes memory for so many more rows of the table at an ordinal, and a slot for a key that is ready.
    fn reserve(
        &mut self,
        alloc: Global,
        ordinal: usize,
        key: &RowKey,
        additional: usize,
    ) -> Result<(), AllocError>
        requires { ordinal < length self.old.rows }
        ensures rows { self.new.rows ≡ self.old.rows }
        ensures ordinals { self.new.ordinals ≡ self.old.ordinals }
        ensures ok { OnOk result (additional ≤ room_of self.new ordinal) }
        ensures ready { OnOk result (IsSome (slot_at (ready_of self.new ordinal) key.now)) }
        ensures still { (n : ℕ) (k : RowKey) → IsSome (slot_at (ready_of self.old n) k) → IsSome (slot_at (ready_of self.new n) k) }
        ensures room { (n : ℕ) → room_of self.old n ≤ room_of self.new n }
    {
        self.tables[ordinal].make_room(alloc, key, additional)
    }

    // Makes memory to remember so many more keys of rows that are changed in the table at an ordinal.
    fn reserve_freed(&mut self, ordinal: usize, additional: usize) -> Result<(), AllocError>
        requires { ordinal < length self.old.rows }
        ensures unchanged { self.new ≡ self.old }
    {
        self.tables[ordinal].reserve_freed(additional)
    }

    // Makes memory for a change, one of so many.
    fn reserve_for(
        &mut self,
        alloc: Global,
        change: &KeyedChange,
        changes: usize,
    ) -> Result<(), AllocError>
        requires { changed_table (change_in change.now) < length self.old.rows }
        ensures rows { self.new.rows ≡ self.old.rows }
        ensures ordinals { self.new.ordinals ≡ self.old.ordinals }
        ensures ok { OnOk result (changes ≤ room_of self.new (changed_table (change_in change.now))) }
        ensures ready { OnOk result (HasReadySlot self.new change.now) }
        ensures still { (n : ℕ) (k : RowKey) → IsSome (slot_at (ready_of self.old n) k) → IsSome (slot_at (ready_of self.new n) k) }
        ensures room { (n : ℕ) → room_of self.old n ≤ room_of self.new n }
    {
        let ordinal = ordinal_in(change);
        self.reserve_freed(ordinal, changes)?;
        self.reserve(alloc, ordinal, key_in(change), changes)
    }

    // Makes memory for the changes.
    fn reserve_all(&mut self, alloc: Global, keyed: &[KeyedChange]) -> Result<(), AllocError>
        requires { AllByRecursion (λ c. changed_table (change_in c) < length self.old.rows) keyed.now }
        ensures rows { self.new.rows ≡ self.old.rows }
        ensures ordinals { self.new.ordinals ≡ self.old.ordinals }
        ensures ok { OnOk result (HasRoomFor self.new keyed.now) }
        ensures ready { OnOk result (AllByRecursion (HasReadySlot self.new) keyed.now) }
    {
        for change in keyed {
            self.reserve_for(alloc, change, keyed.len())?;
        }
        Ok(())
    }

    /// The changes by keys, with all memory that they need; the rows stay as they are. Refuses for want of memory.
    pub fn prepare(
        &mut self,
        alloc: Global,
        changes: &[SharedChange],
    ) -> Result<Vec<KeyedChange>, AllocError>
        requires { AllByRecursion (λ c. changed_table c < length self.old.rows) changes.now }
        ensures ready { IfOk result (λ keyed. IsReadyFor self.new changes.now keyed.items) }
        ensures rows { self.new.rows ≡ self.old.rows }
        ensures ordinals { self.new.ordinals ≡ self.old.ordinals }
    {
        let keyed = self.keyed_changes(alloc, changes)?;
        match self.reserve_all(alloc, keyed.as_slice()) {
            Ok(()) => Ok(keyed),
            Err(e) => Err(e),
        }
    }

    fn put(&mut self, ordinal: usize, key: &RowKey, row: SharedRow)
        requires key { key.now.values ≡ key_at (ordinals_of self.old ordinal) row }
        requires room { 0 < room_of self.old ordinal }
        ensures rows { SameRows self.new.rows (applied (Added ordinal row) self.old.rows) }
        ensures ordinals { self.new.ordinals ≡ self.old.ordinals }
        ensures room { (n : ℕ) → room_of self.old n ≤ room_of self.new n + (if ordinal == n then 1 else 0) }
        ensures still { (n : ℕ) (k : RowKey) → IsSome (slot_at (ready_of self.old n) k) → IsSome (slot_at (ready_of self.new n) k) }
    {
        self.tables[ordinal].add(key, row);
    }

    fn take(&mut self, ordinal: usize, key: &RowKey, row: &Row)
        requires key { key.now.values ≡ key_at (ordinals_of self.old ordinal) row.now }
        requires ready { IsSome (slot_at (ready_of self.old ordinal) key.now) }
        ensures rows { SameRows self.new.rows (applied (Removed ordinal row.now) self.old.rows) }
        ensures ordinals { self.new.ordinals ≡ self.old.ordinals }
        ensures room { (n : ℕ) → room_of self.old n ≤ room_of self.new n }
        ensures still { (n : ℕ) (k : RowKey) → IsSome (slot_at (ready_of self.old n) k) → IsSome (slot_at (ready_of self.new n) k) }
    {
        if ordinal < self.tables.len() {
            self.tables[ordinal].remove(key, row);
        }
    }

    fn swap(&mut self, ordinal: usize, key: &RowKey, old: &Row, new: SharedRow)
        requires old_key { key.now.values ≡ key_at (ordinals_of self.old ordinal) old.now }
        requires new_key { key.now.values ≡ key_at (ordinals_of self.old ordinal) new }
        requires ready { IsSome (slot_at (ready_of self.old ordinal) key.now) }
        requires room { 0 < room_of self.old ordinal }
        ensures rows { SameRows self.new.rows (applied (Replaced ordinal old.now new) self.old.rows) }
        ensures ordinals { self.new.ordinals ≡ self.old.ordinals }
        ensures room { (n : ℕ) → room_of self.old n ≤ room_of self.new n + (if ordinal == n then 1 else 0) }
        ensures still { (n : ℕ) (k : RowKey) → IsSome (slot_at (ready_of self.old n) k) → IsSome (slot_at (ready_of self.new n) k) }
    {
        self.tables[ordinal].replace(key, old, new);
    }

    // Remembers the key of a row that was taken from the table at an ordinal.
    fn free(&mut self, ordinal: usize, key: RowKey)
        ensures { self.new ≡ self.old }
    {
        if ordinal < self.tables.len() {
            self.tables[ordinal].free(key);
        }
    }

    // Remembers the key of a row that was put into the table at an ordinal.
    fn fill(&mut self, ordinal: usize, key: RowKey)
        ensures { self.new ≡ self.old }
    {
        if ordinal < self.tables.len() {
            self.tables[ordinal].fill(key);
        }
    }

    // Gives up the slots of changed rows that have no row, and has the others no longer ready.
    fn sweep(&mut self)
        ensures rows { self.new.rows ≡ self.old.rows }
        ensures ordinals { self.new.ordinals ≡ self.old.ordinals }
    {
        sweep_tables(&mut self.tables);
    }

    fn apply_one(&mut self, change: KeyedChange)
        requires key { HasItsKey self.old change }
        requires room { (n : ℕ) → IsTrue (puts_into n change) → 0 < room_of self.old n }
        ensures rows { SameRows self.new.rows (applied (change_in change) self.old.rows) }
        ensures ordinals { self.new.ordinals ≡ self.old.ordinals }
        ensures room { (n : ℕ) → room_of self.old n ≤ room_of self.new n + count_by (puts_into n) (change ∷ []) }
        ensures still { (n : ℕ) (k : RowKey) → IsSome (slot_at (ready_of self.old n) k) → IsSome (slot_at (ready_of self.new n) k) }
    {
        match change {
            KeyedChange::Put(ordinal, keyed) => {
                let KeyedRow { key, row } = keyed;
                self.put(ordinal, &key, row);
                self.fill(ordinal, key);
            }
            KeyedChange::Take(ordinal, keyed) => {
                let KeyedRow { key, row } = keyed;
                self.take(ordinal, &key, row.get());
                self.free(ordinal, key);
            }
            KeyedChange::Swap(ordinal, swap) => {
                let KeyedSwap { key, old, new } = swap;
                self.swap(ordinal, &key, old.get(), new);
                self.fill(ordinal, key);
            }
        }
    }

    /// Does the changes, in order, gives up the slots of their keys that have no row then, and has the others no longer ready. Takes no
    /// memory.
    pub fn apply(&mut self, changes: Vec<KeyedChange>)
        requires keys { AllByRecursion (HasItsKey self.old) changes.items }
        requires room { HasRoomFor self.old changes.items }
        ensures rows { SameRows self.new.rows (all_applied (changes_in changes.items) self.old.rows) }
        ensures ordinals { self.new.ordinals ≡ self.old.ordinals }
    {
        for change in changes {
            self.apply_one(change);
        }
        self.sweep();
    }
    // Promise: A snapshot has the rows of its moment
    /// The tables as they are now, whatever is changed in either later. Takes time for each table, and not for each row. What was made
    /// ready before has to be made ready again. Refuses for want of memory; the rows stay as they are.
    pub fn snapshot(&mut self, alloc: Global) -> Result<StoredTables, AllocError>
        ensures snapshot { IfOk result (λ s. s.rows ≡ self.old.rows) }
        ensures columns { IfOk result (λ s. s.ordinals ≡ self.old.ordinals) }
        ensures rows { self.new.rows ≡ self.old.rows }
        ensures ordinals { self.new.ordinals ≡ self.old.ordinals }
    {
        let tables = snapshots(alloc, &mut self.tables)?;
        Ok(StoredTables { tables })
    }
}
