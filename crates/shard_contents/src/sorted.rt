//! Tables in the order of their primary keys, which a shard that stores them in another order keeps while they are copied to targets.
ghost use Rattle.std.specs.Prelude.{◌≡◌, ◌<◌, ◌≤◌, ◌==◌, ◌++◌, ◌∷◌, [], None, IsSome, IfOk, IfSome, OnOk, IsPermutation, true, option_copied, length, position};
ghost use Rattle.vschema.specs.Database.{Database, rows_of, without, all_applied};
ghost use Rattle.shard_store.specs.Slots.{slot_at};
ghost use Rattle.shard_store.specs.Tables.{key_at};
ghost use Rattle.shard_contents.specs.Copying.{is_left_to_copy};
ghost use Rattle.shard_contents.specs.inner.Placed.{AreFirst};
ghost use Rattle.shard_contents.specs.inner.Stores.{row_after};
ghost use Rattle.shard_contents.specs.inner.StoredLogs.{StoredLog, count_of, stored_since};
ghost use Rattle.shard_contents.specs.inner.Earlier.{changes_by, left_of, HadRows, AllHadRows, IsCurrentTable};

use crate::contents::Contents;
use crate::copying::NextTable;
use crate::kept_entry::{KeptEntry, few_entries};
use crate::next_rows::{COPY_STEP, first_wanted};
use crate::rows_left::{RowsLeft, put_left, put_some};
use crate::stored_entries::StoredEntries;
use shard_store::{
    AllRows, ChangedRows, RowKey, RowSource, SharedChange, SharedRow, StoredTables, TableRows,
};
use std::alloc::{AllocError, Global};
use std::marker::Model;
use vschema::{Place, Table};
use vt_value::{Items, Row, copy_row};

/// The rows of a table in the order of its primary key, as they were when the shard had stored so many entries, and those that are still to
/// be put in order. Contracts see an `EarlierTable`.
pub struct SortedTable {
    table: usize,
    stored: usize,
    rows: TableRows,
    left: Option<RowsLeft>,
}

impl Drop for SortedTable {
    // Who drops one calls this, and need not know what it owns.
    fn drop(self) {
        let SortedTable {
            table: _,
            stored: _,
            rows,
            left,
        } = self;
        drop(rows);
        drop(left);
    }
}

impl Model for SortedTable {
    ghost use Rattle.std.specs.Prelude.{◌++◌};
    ghost use Rattle.shard_contents.specs.inner.Earlier.{EarlierTable, left_of};

    ghost Value = { EarlierTable };

    ghost view = { λ t. record { table = t.table; stored = t.stored; rows = t.rows.rows ++ left_of t.left } };
}

// The key of a row, with memory to put the row in or to take it out.
fn make_room(alloc: Global, rows: &mut TableRows, row: &Row) -> Result<RowKey, AllocError>
    ensures rows { rows.new.rows ≡ rows.old.rows }
    ensures key { IfOk result (λ key. key.values ≡ key_at rows.new.ordinals row.now) }
    ensures room { OnOk result (0 < rows.new.room) }
    ensures ready { IfOk result (λ key. IsSome (slot_at rows.new.ready key)) }
{
    let key = rows.key_of(alloc, row)?;
    rows.make_room(alloc, &key, 1)?;
    Ok(key)
}

// Adds a copy of a row.
pub(crate) fn add_copy(alloc: Global, rows: &mut TableRows, row: &Row) -> Result<(), AllocError>
    ensures ok { OnOk result (IsPermutation rows.new.rows (rows.old.rows ++ row.now ∷ [])) }
{
    let key = make_room(alloc, rows, row)?;
    let row = SharedRow::new(alloc, copy_row(alloc, row)?)?;
    rows.add(&key, row);
    Ok(())
}

// Removes a row, if it is there, and gives up the slot of its key.
fn remove(alloc: Global, rows: &mut TableRows, row: &Row) -> Result<(), AllocError>
    ensures ok { OnOk result (IsPermutation rows.new.rows (without row.now rows.old.rows)) }
{
    rows.reserve_freed(1)?;
    let key = make_room(alloc, rows, row)?;
    rows.remove(&key, row);
    rows.free(key);
    rows.sweep();
    Ok(())
}

// Does a change of one of these rows, with a copy of the row that it puts in.
fn change(alloc: Global, rows: &mut TableRows, change: &SharedChange) -> Result<(), AllocError>
    ensures ok { OnOk result (IsPermutation rows.new.rows (row_after change.now rows.old.rows)) }
{
    match change.rows() {
        ChangedRows::Added(_, row) => add_copy(alloc, rows, row.get()),
        ChangedRows::Replaced(_, old, new) => {
            remove(alloc, rows, old.get())?;
            add_copy(alloc, rows, new.get())
        }
        ChangedRows::Removed(_, row) => remove(alloc, rows, row.get()),
    }
}

// Does those of the changes that are of the table at an ordinal, whose rows these are.
fn change_all(
    alloc: Global,
    table: usize,
    rows: &mut TableRows,
    changes: &[SharedChange],
) -> Result<(), AllocError>
    ensures ok { OnOk result ((db : Database) → table < length db → IsPermutation rows.old.rows (rows_of db table)
        → IsPermutation rows.new.rows (rows_of (all_applied changes.now db) table)) }
{
    for done in changes {
        if done.table() == table {
            change(alloc, rows, done)?;
        }
    }
    Ok(())
}

// Does what entries change of the table at an ordinal, whose rows these are.
fn change_by(
    alloc: Global,
    table: usize,
    rows: &mut TableRows,
    entries: &[KeptEntry],
) -> Result<(), AllocError>
    ensures ok { OnOk result ((db : Database) → table < length db → IsPermutation rows.old.rows (rows_of db table)
        → IsPermutation rows.new.rows (rows_of (all_applied (changes_by entries.now) db) table)) }
{
    for entry in entries {
        change_all(alloc, table, rows, entry.changes())?;
    }
    Ok(())
}

// Adds copies of rows.
pub(crate) fn add_copies(
    alloc: Global,
    rows: &mut TableRows,
    all: AllRows<'_>,
) -> Result<(), AllocError>
    ensures ok { OnOk result (IsPermutation rows.new.rows (rows.old.rows ++ all.entry)) }
{
    let mut all = all;
    while let Some(row) = all.next_row() {
        add_copy(alloc, rows, row)?;
    }
    Ok(())
}

impl SortedTable {
    // The table at a place as it is, when so many entries are stored. Takes as long as sorting its rows.
    fn new(
        alloc: Global,
        store: &StoredTables,
        place: usize,
        table: &Table,
        stored: usize,
    ) -> Result<SortedTable, AllocError>
        requires { place < length store.now.rows }
        ensures ok { IfOk result (IsCurrentTable place stored store.now.rows) }
    {
        let key = Items::from_slice(alloc, table.primary_key.as_slice())?;
        let mut rows = TableRows::new(alloc, key);
        add_copies(alloc, &mut rows, store.all(place))?;
        Ok(SortedTable {
            table: place,
            stored,
            rows,
            left: None,
        })
    }

    // The table at a place as it is, of which no row is put in order yet, when so many entries are stored.
    fn begun(
        alloc: Global,
        store: &mut StoredTables,
        place: usize,
        table: &Table,
        stored: usize,
    ) -> Result<SortedTable, AllocError>
        requires { place < length store.old.rows }
        ensures ok { IfOk result (IsCurrentTable place stored store.old.rows) }
        ensures rows { store.new.rows ≡ store.old.rows }
    {
        let left = RowsLeft::new(alloc, store, place)?;
        let key = Items::from_slice(alloc, table.primary_key.as_slice())?;
        Ok(SortedTable {
            table: place,
            stored,
            rows: TableRows::new(alloc, key),
            left: Some(left),
        })
    }

    // Puts all rows in order, and brings them forward by the entries that were stored since.
    fn bring_forward(&mut self, alloc: Global, stored: &StoredEntries) -> Result<(), AllocError>
        requires there { stored.now.log.first ≤ self.old.stored }
        requires within { self.old.stored ≤ count_of stored.now.log }
        ensures table { self.new.table ≡ self.old.table }
        ensures stored { OnOk result (self.new.stored ≡ count_of stored.now.log) }
        ensures rows { OnOk result ((db : Database) → self.old.table < length db → IsPermutation self.old.rows (rows_of db self.old.table)
            → IsPermutation self.new.rows (rows_of (all_applied (changes_by (stored_since stored.now.log self.old.stored)) db) self.old.table)) }
    {
        put_left(alloc, &mut self.rows, &mut self.left)?;
        let since = stored.since(self.stored);
        change_by(alloc, self.table, &mut self.rows, since)?;
        self.stored = stored.len();
        Ok(())
    }

    // Brings the rows forward by some of the entries that were stored since, and answers whether more were.
    fn bring_some(&mut self, alloc: Global, stored: &StoredEntries) -> Result<bool, AllocError>
        requires there { stored.now.log.first ≤ self.old.stored }
        requires within { self.old.stored ≤ count_of stored.now.log }
        ensures had { OnOk result ((now : Database) → self.old.table < length now → HadRows stored.now.log now self.old → HadRows stored.now.log now self.new) }
    {
        put_left(alloc, &mut self.rows, &mut self.left)?;
        let since = stored.since(self.stored);
        let count = few_entries(since);
        change_by(alloc, self.table, &mut self.rows, &since[..count])?;
        if count > usize::MAX - self.stored {
            // never were so many stored
            return Err(AllocError);
        }
        self.stored += count;
        Ok(count < since.len())
    }

    // Puts some more rows in order, or, once all are, brings them forward by some entries. Answers whether more is left to do.
    fn go_on(&mut self, alloc: Global, stored: &StoredEntries) -> Result<bool, AllocError>
        requires there { stored.now.log.first ≤ self.old.stored }
        requires within { self.old.stored ≤ count_of stored.now.log }
        ensures had { OnOk result ((now : Database) → self.old.table < length now → HadRows stored.now.log now self.old → HadRows stored.now.log now self.new) }
    {
        match self.left.take() {
            Some(left) => {
                self.left = put_some(alloc, &mut self.rows, left)?;
                Ok(true)
            }
            None => self.bring_some(alloc, stored),
        }
    }

    // Of its rows that lie in the place beyond the last one, the first by key, as many as one step copies. All rows are put in order first.
    fn first_wanted(
        &mut self,
        alloc: Global,
        place: &Place,
        table: &Table,
        last: Option<&Row>,
    ) -> Result<Vec<Row>, AllocError>
        ensures ok { IfOk result (λ first. AreFirst table.now (is_left_to_copy place.now table.now (option_copied last.entry)) self.new.rows first.items) }
        ensures table { OnOk result (self.new.table ≡ self.old.table) }
        ensures stored { OnOk result (self.new.stored ≡ self.old.stored) }
        ensures rows { OnOk result (IsPermutation self.new.rows self.old.rows) }
    {
        put_left(alloc, &mut self.rows, &mut self.left)?;
        let rows = self.rows.rows_after(alloc, table, last)?;
        first_wanted(alloc, place, table, last, rows)
    }
}

// Where among these tables the one at an ordinal of the VSchema is.
fn ordinal_of(tables: &[SortedTable], table: usize) -> Option<usize>
    ensures { result ≡ position (λ t. t.table == table) tables.now }
{
    tables.iter().position(|t| t.table == table)
}

/// Tables in the order of their primary keys, each once. Contracts see a list of `EarlierTable`s.
pub struct SortedTables {
    tables: Vec<SortedTable>,
    // one whose rows were copied, until somebody drops it without the shard's lock
    done: Option<SortedTable>,
}

impl Drop for SortedTables {
    // Who drops one calls this, and need not know what it owns.
    fn drop(self) {
        let SortedTables { tables, done } = self;
        drop(tables);
        drop(done);
    }
}

impl Model for SortedTables {
    ghost use Rattle.std.specs.Prelude.{List};
    ghost use Rattle.shard_contents.specs.inner.Earlier.{EarlierTable};

    ghost Value = { List EarlierTable };

    ghost view = { λ t. t.tables.items };
}

impl SortedTables {
    /// No tables. Takes no memory.
    pub fn new(alloc: Global) -> SortedTables
        ensures { result ≡ [] }
    {
        SortedTables {
            tables: Vec::new(alloc),
            done: None,
        }
    }

    /// Drops all tables. Takes no memory.
    pub fn clear(&mut self)
        ensures { self.new ≡ [] }
    {
        self.tables.clear();
        self.done = None;
    }

    /// Hands out the table whose rows were copied last, if it wasn't yet: to drop it takes time in its rows, which nobody has to wait for.
    pub fn take_done(&mut self) -> Option<SortedTable>
        ensures { self.new ≡ self.old }
    {
        self.done.take()
    }

    // Takes out the table at an ordinal of the VSchema, if it is there.
    fn take(&mut self, place: usize) -> Option<SortedTable>
        ensures had { (log : StoredLog) (now : Database) → AllHadRows log now self.old → AllHadRows log now self.new }
        ensures taken { IfSome result (λ t. (t.table ≡ place) × ((log : StoredLog) (now : Database) → AllHadRows log now self.old → HadRows log now t)) }
    {
        let at = ordinal_of(self.tables.as_slice(), place)?;
        Some(self.tables.remove(at))
    }

    // Takes out the table at an ordinal, brought forward to what is stored; makes it if it isn't there. If memory is wanting it is gone.
    fn take_current(
        &mut self,
        alloc: Global,
        contents: &Contents,
        place: usize,
        table: &Table,
    ) -> Result<SortedTable, AllocError>
        requires there { place < length contents.now.store.rows }
        requires had { AllHadRows contents.now.stored.log contents.now.store.rows self.old }
        ensures had { AllHadRows contents.now.stored.log contents.now.store.rows self.new }
        ensures ok { IfOk result (IsCurrentTable place (count_of contents.now.stored.log) contents.now.store.rows) }
    {
        match self.take(place) {
            Some(mut sorted) => {
                sorted.bring_forward(alloc, &contents.stored)?;
                Ok(sorted)
            }
            None => SortedTable::new(alloc, &contents.store, place, table, contents.stored.len()),
        }
    }

    // Keeps a table of which so many rows were copied last. If these were the last of all it is done.
    fn keep(&mut self, sorted: SortedTable, copied: usize) -> Result<(), AllocError>
        ensures had { (log : StoredLog) (now : Database) → HadRows log now sorted → AllHadRows log now self.old → AllHadRows log now self.new }
    {
        if copied < COPY_STEP {
            self.done = Some(sorted);
            return Ok(());
        }
        self.tables.push(sorted)?;
        Ok(())
    }

    // Of the rows of the table that lie in the place beyond the last one, the first by key, as many as one step copies. The table is kept
    // unless these are its last.
    fn first_wanted(
        &mut self,
        alloc: Global,
        contents: &Contents,
        place: &Place,
        table: &Table,
        next: &NextTable,
    ) -> Result<Vec<Row>, AllocError>
        requires there { next.now.table < length contents.now.store.rows }
        requires followed { contents.now.stored.log.is_followed ≡ true }
        requires had { AllHadRows contents.now.stored.log contents.now.store.rows self.old }
        ensures had { AllHadRows contents.now.stored.log contents.now.store.rows self.new }
        ensures ok { IfOk result (λ first. AreFirst table.now (is_left_to_copy place.now table.now next.now.after) (rows_of contents.now.store.rows next.now.table) first.items) }
    {
        let mut sorted = self.take_current(alloc, contents, next.table, table)?;
        let first = sorted.first_wanted(alloc, place, table, next.after.as_ref())?;
        self.keep(sorted, first.len())?;
        Ok(first)
    }
}

impl SortedTables {
    /// Puts some more rows of the table at a place in the order of its primary key, or, once all are, brings them forward by some of the entries
    /// that were stored since; nothing, if the table is stored in that order. Answers whether more is left to do. If memory is wanting the
    /// table is gone.
    pub fn sort_some(
        &mut self,
        alloc: Global,
        store: &mut StoredTables,
        stored: &StoredEntries,
        place: usize,
        table: &Table,
    ) -> Result<bool, AllocError>
        requires there { place < length store.old.rows }
        requires followed { stored.now.log.is_followed ≡ true }
        requires had { AllHadRows stored.now.log store.old.rows self.old }
        ensures had { AllHadRows stored.now.log store.old.rows self.new }
        ensures rows { store.new.rows ≡ store.old.rows }
    {
        if store.rows_after(alloc, place, table, None)?.in_order {
            return Ok(false);
        }
        match self.take(place) {
            Some(mut sorted) => {
                let more = sorted.go_on(alloc, stored)?;
                self.keep(sorted, COPY_STEP)?;
                Ok(more)
            }
            None => {
                let begun = SortedTable::begun(alloc, store, place, table, stored.len())?;
                self.keep(begun, COPY_STEP)?;
                Ok(true)
            }
        }
    }
}

impl Contents {
    /// Of the rows of a table that lie in the place beyond the last one, the first by key, as many as one step copies. A table that isn't
    /// stored in the order of its primary key is kept so until its last step. What isn't sorted yet of it is sorted then, which takes as long as
    /// that. Refuses for want of memory.
    pub fn first_wanted(
        &self,
        alloc: Global,
        sorted: &mut SortedTables,
        place: &Place,
        table: &Table,
        next: &NextTable,
    ) -> Result<Vec<Row>, AllocError>
        requires there { next.now.table < length self.now.store.rows }
        requires followed { self.now.stored.log.is_followed ≡ true }
        requires had { AllHadRows self.now.stored.log self.now.store.rows sorted.old }
        ensures had { AllHadRows self.now.stored.log self.now.store.rows sorted.new }
        ensures ok { IfOk result (λ first. AreFirst table.now (is_left_to_copy place.now table.now next.now.after) (rows_of self.now.store.rows next.now.table) first.items) }
    {
        let last = next.after.as_ref();
        let rows = self.store.rows_after(alloc, next.table, table, last)?;
        if rows.in_order {
            return first_wanted(alloc, place, table, last, rows);
        }
        sorted.first_wanted(alloc, self, place, table, next)
    }
}
