//! What a shard holds, apart from its seat: rows, stored entries, mode and place. A commit is made in two parts: one takes all memory and may be
//! refused, the other changes the rows and can't fail.
ghost use Rattle.std.specs.Prelude.{◌≡◌, ◌+◌, ◌<◌, ◌≤◌, ◌^◌, ◌++◌, ◌∷◌, [], Ok, IfOk, IfErr, OnOk, IsTrue, length, slice_index_or, vec_len, vec_capacity};
ghost use Rattle.vschema.specs.Schema.{no_table};
ghost use Rattle.vschema.specs.declared.changes.Write.{Write as WrittenStatement};
ghost use Rattle.std.specs.List.{AllByRecursion};
ghost use Rattle.vschema.specs.Database.{SameRows, all_applied, changed_table};
ghost use Rattle.shard_store.specs.Writes.{written_table, changes_of};
ghost use Rattle.shard_law.specs.Openings.{row_count};
ghost use Rattle.shard_law.specs.ShardRunRuns.{held_changes};
ghost use Rattle.shard_store.specs.Stores.{IsReadyFor};
ghost use Rattle.shard_contents.specs.Kept.{keep};
ghost use Rattle.shard_contents.specs.KeptEntries.{kept_of};
ghost use Rattle.shard_contents.specs.Commits.{inserted_rows, commit_entry};
ghost use Rattle.shard_contents.specs.inner.Commits.{has_room, IsUnprepared};
ghost use Rattle.shard_contents.specs.inner.StoredLogs.{HasPlaceFor, HasStoredNext, count_of};

use crate::copies::{copy_shard, one, with_owned};
use crate::kept_entry::KeptEntry;
use crate::stored_entries::StoredEntries;
use crate::target_steps::{TargetStep, keep};
use shard_law::{Commit, Entry, Event, Follow, Limits, MOST_ENTRIES, Mode, ShardRecord};
use shard_store::{KeyedChange, StoredTables};
use std::alloc::{AllocError, Global};
use vschema::{RowChange, VSchema, Write};
use vt_value::{Items, Refusal};

/// What a shard holds besides its seat.
pub struct Contents {
    pub shard: ShardRecord,
    pub store: StoredTables,
    pub mode: Mode,
    pub stored: StoredEntries,
    // how far a target has come with its sources
    pub steps: Vec<TargetStep>,
    pub limits: Limits,
}

impl Drop for Contents {
    // Who drops one calls this, and need not know what it owns.
    fn drop(self) {
        let Contents {
            shard,
            store,
            mode: _,
            stored,
            steps,
            limits: _,
        } = self;
        drop(shard);
        drop(store);
        drop(stored);
        drop(steps);
    }
}

/// The session that commits, and the number of its statement.
#[derive(Clone, Copy)]
pub struct StatementId {
    pub session: u64,
    pub number: u64,
}

/// A commit for which all memory is made: its entry, what is kept of that, its changes once more by keys, and how many rows it changes.
#[derive(Drop)]
pub struct Prepared {
    pub entry: Entry,
    pub kept: KeptEntry,
    pub changes: Vec<KeyedChange>,
    pub count: u64,
}

// Promise: The ordinal of the table that a write changes
/// The ordinal of the table that a write changes.
pub fn written_table(write: &Write) -> usize
    ensures { result ≡ written_table write.now }
{
    match write {
        Write::Insert(ordinal, _) => *ordinal,
        Write::Update(ordinal, _, _) => *ordinal,
        Write::Delete(ordinal, _) => *ordinal,
    }
}

fn inserted(write: &Write) -> usize
    ensures { result ≡ length (inserted_rows write.now) }
{
    match write {
        Write::Insert(_, rows) => rows.len(),
        _ => 0,
    }
}

fn commit_entry(
    alloc: Global,
    shard: &ShardRecord,
    statement_id: StatementId,
    statements: Items<Write>,
    changes: Items<RowChange>,
) -> Result<Entry, AllocError>
    ensures ok { (write : WrittenStatement) → statements ≡ write ∷ [] → IfOk result (λ e. e ≡ commit_entry shard.now statement_id.session statement_id.number write changes) }
{
    let shard = copy_shard(alloc, shard)?;
    let event = Event::Commit(Commit {
        session: statement_id.session,
        number: statement_id.number,
        statements,
        changes,
    });
    Ok(Entry { shard, event })
}

impl Contents {
    // Whether one more stored entry with this write passes no limit.
    fn has_room(&self, entries: u64, write: &Write) -> bool
        requires { row_count self.now.store.rows ≤ self.now.limits.rows }
        ensures { result ≡ has_room self.now.limits entries (count_of self.now.stored.log) (row_count self.now.store.rows) write.now }
    {
        let left = self.limits.rows - self.store.row_count() as u64;
        entries < MOST_ENTRIES
            && (self.stored.len() as u64) < self.limits.stored
            && inserted(write) as u64 <= left
    }

    // The changes of the write, unless it has a primary key that is there already or passes a limit.
    fn changes(
        &self,
        alloc: Global,
        entries: u64,
        schema: &VSchema,
        write: &Write,
    ) -> Result<Items<RowChange>, Refusal>
        requires there { written_table write.now < length schema.now.tables }
        requires within { row_count self.now.store.rows ≤ self.now.limits.rows }
        ensures changes { IfOk result (λ changes. changes_of schema.now write.now self.now.store.rows ≡ Ok changes) }
        ensures limits { OnOk result (IsTrue (has_room self.now.limits entries (count_of self.now.stored.log) (row_count self.now.store.rows) write.now)) }
        ensures err { IfErr result (IsUnprepared schema.now self.now.limits entries (count_of self.now.stored.log) self.now.store.rows write.now) }
    {
        let ordinal = written_table(write);
        let table = &schema.tables.as_slice()[ordinal];
        let changes = self.store.changes(alloc, table, write)?;
        if !self.has_room(entries, write) {
            return Err(Refusal::ShardFull);
        }
        Ok(changes)
    }

    // The changes of the write, as they are kept, and by keys, with room for them in the store and for an entry.
    fn changes_ready(
        &mut self,
        alloc: Global,
        entries: u64,
        schema: &VSchema,
        write: &Write,
    ) -> Result<(Items<RowChange>, (KeptEntry, Vec<KeyedChange>)), Refusal>
        requires there { written_table write.now < length schema.now.tables }
        requires tables { length self.old.store.rows ≡ length schema.now.tables }
        requires within { row_count self.old.store.rows ≤ self.old.limits.rows }
        ensures changes { IfOk result (λ r. changes_of schema.now write.now self.old.store.rows ≡ Ok r.0) }
        ensures kept { IfOk result (λ r. r.1.0 ≡ r.0) }
        ensures ready { IfOk result (λ r. IsReadyFor self.new.store r.0 r.1.1.items) }
        ensures one_more { IfOk result (λ r. HasPlaceFor self.new.stored r.1.0) }
        ensures limits { OnOk result (IsTrue (has_room self.old.limits entries (count_of self.old.stored.log) (row_count self.old.store.rows) write.now)) }
        ensures err { IfErr result (IsUnprepared schema.now self.old.limits entries (count_of self.old.stored.log) self.old.store.rows write.now) }
        ensures shard { self.new.shard ≡ self.old.shard }
        ensures rows { self.new.store.rows ≡ self.old.store.rows }
        ensures mode { self.new.mode ≡ self.old.mode }
        ensures stored { self.new.stored.log ≡ self.old.stored.log }
        ensures steps { self.new.steps.items ≡ self.old.steps.items }
        ensures same_limits { self.new.limits ≡ self.old.limits }
    {
        let changes = self.changes(alloc, entries, schema, write)?;
        let room = self.make_room(alloc, changes.as_slice())?;
        Ok((changes, room))
    }

    /// Makes all memory of a commit of the write, once the shard has so many entries. It refuses a primary key that is there
    /// already, what passes a limit, and for want of memory; what the shard holds stays as it is.
    pub fn prepare(
        &mut self,
        alloc: Global,
        entries: u64,
        statement_id: StatementId,
        schema: &VSchema,
        write: Write,
    ) -> Result<Prepared, Refusal>
        requires there { written_table write < length schema.now.tables }
        requires tables { length self.old.store.rows ≡ length schema.now.tables }
        requires within { row_count self.old.store.rows ≤ self.old.limits.rows }
        ensures changes { IfOk result (λ p. changes_of schema.now write self.old.store.rows ≡ Ok (held_changes p.entry.event)) }
        ensures entry { IfOk result (λ p. p.entry ≡ commit_entry self.old.shard statement_id.session statement_id.number write (held_changes p.entry.event)) }
        ensures count { IfOk result (λ p. p.count ≡ length (held_changes p.entry.event)) }
        ensures kept { IfOk result (λ p. p.kept ≡ kept_of p.entry) }
        ensures ready { IfOk result (λ p. IsReadyFor self.new.store (held_changes p.entry.event) p.changes.items) }
        ensures one_more { IfOk result (λ p. HasPlaceFor self.new.stored p.kept) }
        ensures limits { OnOk result (IsTrue (has_room self.old.limits entries (count_of self.old.stored.log) (row_count self.old.store.rows) write)) }
        ensures err { IfErr result (IsUnprepared schema.now self.old.limits entries (count_of self.old.stored.log) self.old.store.rows write) }
        ensures shard { self.new.shard ≡ self.old.shard }
        ensures rows { self.new.store.rows ≡ self.old.store.rows }
        ensures mode { self.new.mode ≡ self.old.mode }
        ensures stored { self.new.stored.log ≡ self.old.stored.log }
        ensures steps { self.new.steps.items ≡ self.old.steps.items }
        ensures same_limits { self.new.limits ≡ self.old.limits }
    {
        // it is moved once, to where it stays
        let statements = one(alloc, write)?;
        let ready = self.changes_ready(alloc, entries, schema, &statements.as_slice()[0]);
        let ((changes, (kept, keyed)), statements) = with_owned(ready, statements)?;
        let count = changes.len() as u64;
        let entry = commit_entry(alloc, &self.shard, statement_id, statements, changes)?;
        Ok(Prepared {
            entry,
            kept,
            changes: keyed,
            count,
        })
    }

    /// Makes all memory of a following step; what the shard holds stays as it is.
    pub fn prepare_follow(&mut self, alloc: Global, taken: Follow) -> Result<Prepared, AllocError>
        requires { AllByRecursion (λ c. changed_table c < length self.old.store.rows) taken.changes }
        ensures changes { IfOk result (λ p. held_changes p.entry.event ≡ taken.changes) }
        ensures entry { IfOk result (λ p. p.entry ≡ record { shard = self.old.shard; event = Event.Follow taken }) }
        ensures kept { IfOk result (λ p. p.kept ≡ kept_of p.entry) }
        ensures ready { IfOk result (λ p. IsReadyFor self.new.store (held_changes p.entry.event) p.changes.items) }
        ensures one_more { IfOk result (λ p. HasPlaceFor self.new.stored p.kept) }
        ensures one_step { OnOk result (vec_len self.new.steps < vec_capacity self.new.steps) }
        ensures shard { self.new.shard ≡ self.old.shard }
        ensures rows { self.new.store.rows ≡ self.old.store.rows }
        ensures mode { self.new.mode ≡ self.old.mode }
        ensures stored { self.new.stored.log ≡ self.old.stored.log }
        ensures steps { self.new.steps.items ≡ self.old.steps.items }
        ensures same_limits { self.new.limits ≡ self.old.limits }
    {
        let (kept, keyed) = self.make_room(alloc, taken.changes.as_slice())?;
        self.steps.reserve(1)?;
        let shard = copy_shard(alloc, &self.shard)?;
        let count = taken.changes.len() as u64;
        Ok(Prepared {
            entry: Entry {
                shard,
                event: Event::Follow(taken),
            },
            kept,
            changes: keyed,
            count,
        })
    }

    /// Takes over a commit for which memory was made, and answers how many rows it changes. Takes no memory.
    pub fn take(&mut self, prepared: Prepared) -> u64
        requires ready { IsReadyFor self.old.store (held_changes prepared.entry.event) prepared.changes.items }
        requires kept { prepared.kept ≡ kept_of prepared.entry }
        requires one_more { HasPlaceFor self.old.stored prepared.kept }
        ensures count { result ≡ prepared.count }
        ensures rows { SameRows self.new.store.rows (all_applied (held_changes prepared.entry.event) self.old.store.rows) }
        ensures stored { HasStoredNext self.old.stored.log (kept_of prepared.entry) self.new.stored.log }
        ensures steps { self.new.steps ≡ self.old.steps }
        ensures shard { self.new.shard ≡ self.old.shard }
        ensures mode { self.new.mode ≡ self.old.mode }
        ensures limits { self.new.limits ≡ self.old.limits }
    {
        let Prepared {
            entry: _,
            kept,
            changes: keyed,
            count,
        } = prepared;
        self.store.apply(keyed);
        self.stored.push_reserved(kept);
        count
    }
    /// Takes over a step with a source for which memory was made. Takes no memory.
    pub fn take_step(&mut self, prepared: Prepared, step: TargetStep)
        requires ready { IsReadyFor self.old.store (held_changes prepared.entry.event) prepared.changes.items }
        requires kept { prepared.kept ≡ kept_of prepared.entry }
        requires one_more { HasPlaceFor self.old.stored prepared.kept }
        requires one_step { vec_len self.old.steps < vec_capacity self.old.steps }
        ensures rows { SameRows self.new.store.rows (all_applied (held_changes prepared.entry.event) self.old.store.rows) }
        ensures stored { HasStoredNext self.old.stored.log (kept_of prepared.entry) self.new.stored.log }
        ensures steps { self.new.steps.items ≡ keep step self.old.steps.items }
        ensures shard { self.new.shard ≡ self.old.shard }
        ensures mode { self.new.mode ≡ self.old.mode }
        ensures limits { self.new.limits ≡ self.old.limits }
    {
        let _ = self.take(prepared);
        keep(&mut self.steps, step);
    }
}
