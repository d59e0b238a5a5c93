//! A Copy: which rows it takes, and its entry, made in memory before it is appended.
ghost use Rattle.std.specs.Prelude.{◌≡◌, ◌<◌, ◌++◌, ◌∷◌, [], ◌&&◌, ◌==◌, None, IfOk, IfSome, OnOk, map, length, option_copied, vec_len, vec_capacity};
ghost use Rattle.std.specs.List.{AllByRecursion};
ghost use Rattle.vschema.specs.declared.changes.RowChange as row;
ghost use Rattle.vschema.specs.Database.{SameRows, all_applied, changed_table, changed_row, change_lies_in, restricted_changes};
ghost use Rattle.shard_law.specs.Entry.{Entry};
ghost use Rattle.shard_law.specs.Event.{Event};
ghost use Rattle.shard_law.specs.ShardRunRuns.{mode, held_changes};
ghost use Rattle.shard_law.specs.Copies.{is_last};
ghost use Rattle.shard_store.specs.Stores.{IsReadyFor};
ghost use Rattle.shard_contents.specs.Progress.{step_position, last_row};
ghost use Rattle.shard_contents.specs.Kept.{keep};
ghost use Rattle.shard_law.specs.Openings.{row_count};
ghost use Rattle.shard_contents.specs.inner.Rowed.{row_of, first_named};
ghost use Rattle.shard_contents.specs.inner.Copying.{has_room_to_copy};

use crate::contents::Contents;
use crate::copies::copy_shard;
use crate::next_rows::{COPY_STEP, lies_in};
use crate::target_steps::{TargetStep, keep};
use shard_law::{Copied, Entry, Event, MOST_ENTRIES};
use shard_store::{KeyedChange, SharedChange, SharedRow, StoredTables};
use std::alloc::{AllocError, Global};
use vschema::{Place, RowChange, VSchema};
use vt_value::{Items, Row, copy_row};

/// The table that a target copies next from a source, by its ordinal in the VSchema, and the last row of it that the target has.
#[derive(Drop)]
pub struct NextTable {
    pub table: usize,
    pub after: Option<Row>,
}

/// How far a target has come with a source.
#[derive(Drop)]
pub struct SourceProgress {
    /// After how many of the source's stored entries it stands. None before its first Copy from there.
    pub stands_after: Option<u128>,
    /// Where it copies on. None if it has copied all tables.
    pub next: Option<NextTable>,
}

impl TargetStep {
    // After how many of the source's stored entries the target stands after the step.
    pub fn step_position(&self) -> u128
        ensures { result ≡ step_position self.now }
    {
        match self {
            TargetStep::Followed { log_position, .. } => u128::from(*log_position) + 1,
            TargetStep::Copied { log_position, .. } => u128::from(*log_position),
        }
    }

    // The last row that it copied of the table from the source.
    pub fn row_of(&self, source: usize, table: usize) -> Option<&Row>
        ensures { option_copied result ≡ row_of source table self.now }
    {
        match self {
            TargetStep::Followed { .. } => None,
            TargetStep::Copied {
                source: from,
                table: of,
                row,
                ..
            } => {
                if *from == source && *of == table {
                    row.as_ref()
                } else {
                    None
                }
            }
        }
    }
}

pub fn changed_row(change: &RowChange) -> &Row
    ensures { result.now ≡ changed_row change.now }
{
    match change {
        RowChange::Added(_, row) => row,
        RowChange::Replaced(_, _, new) => new,
        RowChange::Removed(_, row) => row,
    }
}

fn change_lies_in(schema: &VSchema, place: &Place, change: &SharedChange) -> bool
    requires { changed_table change.now < length schema.now.tables }
    ensures { result ≡ change_lies_in schema.now place.now change.now }
{
    let table = &schema.tables.as_slice()[change.table()];
    lies_in(place, table, change.row())
}

// Equal changes, of the rows that lie in the place.
pub fn restricted_changes(
    alloc: Global,
    schema: &VSchema,
    place: &Place,
    changes: &[SharedChange],
) -> Result<Items<RowChange>, AllocError>
    requires { AllByRecursion (λ c. changed_table c < length schema.now.tables) changes.now }
    ensures ok { IfOk result (λ kept. kept ≡ restricted_changes schema.now place.now changes.now) }
{
    let mut kept = Items::new(alloc);
    for change in changes {
        if change_lies_in(schema, place, change) {
            kept.push(change.copy(alloc)?)?;
        }
    }
    Ok(kept)
}

// The first by name of two tables, if the other was found.
pub fn first_named(schema: &VSchema, n: usize, found: Option<usize>) -> usize
    requires n { n < length schema.now.tables }
    requires found { IfSome found (λ m. m < length schema.now.tables) }
    ensures { result ≡ first_named schema.now n found }
{
    let tables = schema.tables.as_slice();
    match found {
        Some(m)
            if !tables[n]
                .name
                .as_slice()
                .cmp(tables[m].name.as_slice())
                .is_lt() => m,
        _ => n,
    }
}

// An equal row.
pub fn copied(alloc: Global, row: Option<&Row>) -> Result<Option<Row>, AllocError>
    ensures ok { IfOk result (λ r. r ≡ option_copied row.entry) }
{
    match row {
        Some(row) => Ok(Some(copy_row(alloc, row)?)),
        None => Ok(None),
    }
}

fn last_row(alloc: Global, rows: &[Row]) -> Result<Option<Row>, AllocError>
    ensures ok { IfOk result (λ last. last ≡ last_row rows.now) }
{
    copied(alloc, rows.last())
}

// The rows as changes that add them to a table.
fn added(alloc: Global, table: usize, rows: &[Row]) -> Result<Vec<SharedChange>, AllocError>
    ensures ok { IfOk result (λ changes. changes.items ≡ map (row.RowChange.Added table) rows.now) }
{
    let mut changes = Vec::new(alloc);
    for row in rows {
        let row = SharedRow::new(alloc, copy_row(alloc, row)?)?;
        changes.push(SharedChange::added(table, row))?;
    }
    Ok(changes)
}

// A Copy for which all memory is made: its entry, its rows once more by keys, and the step that it is.
#[derive(Drop)]
pub struct PreparedCopy {
    pub entry: Entry,
    pub changes: Vec<KeyedChange>,
    pub step: TargetStep,
}

// The rows as additions by keys, with room for them in the store.
fn prepare_rows(
    alloc: Global,
    store: &mut StoredTables,
    table: usize,
    rows: &[Row],
) -> Result<Vec<KeyedChange>, AllocError>
    requires { table < length store.old.rows }
    ensures ready { IfOk result (λ keyed. IsReadyFor store.new (map (row.RowChange.Added table) rows.now) keyed.items) }
    ensures rows { store.new.rows ≡ store.old.rows }
{
    let changes = added(alloc, table, rows)?;
    store.prepare(alloc, changes.as_slice())
}

impl Contents {
    /// Whether a Copy of so many rows passes no limit, once the shard has so many entries.
    pub fn has_room_to_copy(&self, entries: u64, rows: usize) -> bool
        ensures { result ≡ has_room_to_copy self.now.limits entries (row_count self.now.store.rows) rows }
    {
        let added = rows as u64;
        entries < MOST_ENTRIES
            && added <= self.limits.rows
            && self.store.has_at_most(self.limits.rows - added)
    }

    // Makes all memory of a Copy; what the shard holds stays as it is.
    pub fn prepare_copy(&mut self, alloc: Global, taken: Copied) -> Result<PreparedCopy, AllocError>
        requires { taken.table < length self.old.store.rows }
        ensures entry { IfOk result (λ p. p.entry ≡ record { shard = self.old.shard; event = Event.Copy taken }) }
        ensures step { IfOk result (λ p. p.step ≡ TargetStep.Copied taken.source taken.table taken.log_position (is_last taken) (last_row taken.rows)) }
        ensures ready { IfOk result (λ p. IsReadyFor self.new.store (held_changes p.entry.event) p.changes.items) }
        ensures one_step { OnOk result (vec_len self.new.steps < vec_capacity self.new.steps) }
        ensures shard { self.new.shard ≡ self.old.shard }
        ensures rows { self.new.store.rows ≡ self.old.store.rows }
        ensures mode { self.new.mode ≡ self.old.mode }
        ensures stored { self.new.stored.log ≡ self.old.stored.log }
        ensures steps { self.new.steps.items ≡ self.old.steps.items }
        ensures same_limits { self.new.limits ≡ self.old.limits }
    {
        let changes = prepare_rows(alloc, &mut self.store, taken.table, taken.rows.as_slice())?;
        self.steps.reserve(1)?;
        let step = TargetStep::Copied {
            source: taken.source,
            table: taken.table,
            log_position: taken.log_position,
            last: taken.rows.len() < COPY_STEP,
            row: last_row(alloc, taken.rows.as_slice())?,
        };
        let shard = copy_shard(alloc, &self.shard)?;
        let event = Event::Copy(taken);
        Ok(PreparedCopy {
            entry: Entry { shard, event },
            changes,
            step,
        })
    }

    // Takes over a Copy for which memory was made. Takes no memory.
    pub fn take_copy(&mut self, prepared: PreparedCopy)
        requires ready { IsReadyFor self.old.store (held_changes prepared.entry.event) prepared.changes.items }
        requires one_step { vec_len self.old.steps < vec_capacity self.old.steps }
        ensures rows { SameRows self.new.store.rows (all_applied (held_changes prepared.entry.event) self.old.store.rows) }
        ensures stored { self.new.stored ≡ self.old.stored }
        ensures steps { self.new.steps.items ≡ keep prepared.step self.old.steps.items }
        ensures shard { self.new.shard ≡ self.old.shard }
        ensures mode { self.new.mode ≡ self.old.mode }
        ensures limits { self.new.limits ≡ self.old.limits }
    {
        let PreparedCopy {
            entry: _,
            changes,
            step,
        } = prepared;
        self.store.apply(changes);
        keep(&mut self.steps, step);
    }
}
