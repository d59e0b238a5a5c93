//! A read of many rows: the look and a snapshot under the shard's lock, and the rows that the query gives once the lock is given back.
ghost use Rattle.std.specs.Prelude.{◌≡◌, List, IfOk, OnErr};
ghost use Rattle.shard_contents.specs.Queries.{Allowed};
ghost use Rattle.shard_run.specs.declared.ShardRecord as which;
ghost use Rattle.shard_run.specs.declared.Entry.{Entry};
ghost use Rattle.shard_run.specs.Runs.{Opening};
ghost use Rattle.shard_contents.specs.Shards.{AnswersQuery};
ghost use Rattle.shard_contents.specs.Transactions.{HasReadIn};
ghost use Rattle.shard.specs.BegunReads.{HasBegunRead};
ghost use Rattle.shard.specs.inner.Snapshots.{HasBegunIn, HasRows, IsGivenBy, IsReadable, IsToRead};

use shard_contents::{
    OwnChanges, Pending, ReadOutcome, Reading, StoredTables, select_in_transaction,
};
use std::alloc::{AllocError, Global};
use std::marker::Model;
use std::sync::Arc;
use vschema::Query;
use vt_value::{Items, Row};

/// A read that looks at more rows of a table than so many has a snapshot of them, and the lock is given back before it looks.
pub const MOST_ROWS_UNDER_LOCK: usize = 256;

/// The rows of a shard that serves as they were at a look, and how many entries it had then. Contracts see a `SnapshotView`.
#[derive(Drop)]
pub struct Snapshot {
    pub(crate) store: StoredTables,
    pub(crate) entries: u64,
    // shared with the shard, which so knows whether there is one
    pub(crate) reader: Arc<()>,
}

impl Model for Snapshot {
    ghost use Rattle.vschema.specs.declared.schema.Query as asked;
    ghost use Rattle.vschema.specs.Sources.{source_rows};
    ghost use Rattle.shard_contents.specs.Groups.{CanBeSummed};
    ghost use Rattle.shard.specs.Snapshots.{SnapshotView};

    ghost Value = { SnapshotView };

    ghost view = { λ s. record { rows = s.store.rows; entries = s.entries } };

    // A shard has few rows, so counts and sums of what any query is over fit.
    ghost invariant = { λ s. (q : asked.Query) → CanBeSummed (source_rows q s.store.rows) };
}

/// What a read has after its look: all that it answers, or the rows over which it has to answer yet.
#[derive(Drop)]
pub enum BegunRead {
    Answered(ReadOutcome),
    Begun(Snapshot),
}

impl Snapshot {
    // What the query gives over the rows.
    fn select(&self, alloc: Global, query: &Query) -> Result<Reading, AllocError>
        ensures rows { IfOk result (λ r. Allowed query.now self.now.rows r.rows) }
        ensures entries { IfOk result (λ r. r.entries ≡ self.now.entries) }
    {
        let rows = self.store.select(alloc, query)?;
        Ok(Reading {
            rows,
            entries: self.entries,
        })
    }
}

impl BegunRead {
    /// Whether it gave, or has yet to look at, at most so many rows of the table of this ordinal.
    pub fn is_small(&self, table: usize, most: usize) -> bool {
        match self {
            BegunRead::Answered(ReadOutcome::Rows(reading)) => reading.rows.len() <= most,
            BegunRead::Answered(ReadOutcome::NotServing) => true,
            BegunRead::Begun(snapshot) => snapshot.store.row_count_of(table) <= most,
        }
    }

    // Promise: A read may be finished at any time after its look, without the shard's lock: it gives what the shard answered then
    /// What the shard answers to the query, as of its look. That is an answer whatever happened to the shard since, also if it was retired:
    /// the rows that it had while it served are those of a prefix of the run. Refuses only for want of memory.
    pub fn finish(self, alloc: Global, query: &Query) -> Result<ReadOutcome, AllocError>
        ensures read { IfOk result (λ r. (o : Opening) (run : List Entry) (s : which.ShardRecord) → HasBegunRead o run s query.now self → AnswersQuery o run s query.now r) }
    {
        match self {
            BegunRead::Answered(outcome) => Ok(outcome),
            BegunRead::Begun(snapshot) => {
                let reading = snapshot.select(alloc, query)?;
                Ok(ReadOutcome::Rows(reading))
            }
        }
    }
}

/// What a read in a transaction has after its look: the rows that the query gives, or those over which it has to answer yet.
#[derive(Drop)]
pub enum RowsIn {
    Selected(Items<Row>),
    ToSelect(StoredTables),
}

/// The same, and how many entries the shard had then, and how many stored ones.
#[derive(Drop)]
pub struct BegunReadIn {
    pub rows: RowsIn,
    pub entries: u64,
    pub stored: usize,
}

/// The rows that a query gives with these changes, or, if it looks at many, a snapshot of those over which it has to answer yet. Refuses only
/// for want of memory.
pub fn rows_in(
    store: &mut StoredTables,
    alloc: Global,
    query: &Query,
    changes: &OwnChanges,
) -> Result<RowsIn, AllocError>
    requires { IsReadable query.now changes.now store.old.rows }
    ensures rows { IfOk result (HasRows query.now changes.now store.old.rows) }
    ensures readable { IfOk result (IsToRead query.now changes.now) }
    ensures unchanged { store.new.rows ≡ store.old.rows }
{
    if store.scans(query, MOST_ROWS_UNDER_LOCK) {
        let snapshot = store.snapshot(alloc)?;
        return Ok(RowsIn::ToSelect(snapshot));
    }
    let rows = select_in_transaction(alloc, store, query, changes)?;
    Ok(RowsIn::Selected(rows))
}

impl RowsIn {
    // What the query gives with these changes.
    fn select(
        self,
        alloc: Global,
        query: &Query,
        changes: &OwnChanges,
    ) -> Result<Items<Row>, AllocError>
        requires readable { IsToRead query.now changes.now self }
        ensures ok { IfOk result (IsGivenBy query.now changes.now self) }
    {
        match self {
            RowsIn::Selected(rows) => Ok(rows),
            RowsIn::ToSelect(store) => select_in_transaction(alloc, &store, query, changes),
        }
    }
}

impl BegunReadIn {
    /// What the shard answers to the query in the transaction, as of its look. The tables that the query is over are touched then. Refuses
    /// only for want of memory; then the transaction stays as it was.
    pub fn finish(
        self,
        alloc: Global,
        tx: &mut Pending,
        query: &Query,
    ) -> Result<Reading, AllocError>
        requires readable { IsToRead query.now tx.old.changes self.rows }
        ensures read { IfOk result (λ r. (o : Opening) (run : List Entry) (s : which.ShardRecord) → HasBegunIn o s tx.old run query.now self
            → HasReadIn o s tx.old run query.now r.rows r.entries tx.new) }
        ensures unchanged { OnErr result (tx.new ≡ tx.old) }
    {
        let BegunReadIn {
            rows,
            entries,
            stored,
        } = self;
        let rows = rows.select(alloc, query, &tx.changes)?;
        tx.touch(query, stored)?;
        Ok(Reading { rows, entries })
    }
}
