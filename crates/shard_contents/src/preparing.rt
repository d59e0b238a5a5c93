//! What a transaction's commit needs before its entry is appended.
ghost use Rattle.std.specs.Prelude.{◌≡◌, ◌+◌, ◌<◌, ◌≤◌, nat_le, ◌^◌, ◌++◌, ◌∷◌, [], true, IfOk, IfErr, OnOk, OnErr, length, count_by};
ghost use Rattle.std.specs.List.{AllByRecursion};
ghost use Rattle.vschema.specs.Database.{changed_table};
ghost use Rattle.shard_law.specs.Openings.{row_count};
ghost use Rattle.shard_law.specs.ShardRunRuns.{held_changes};
ghost use Rattle.shard_store.specs.Stores.{IsReadyFor};
ghost use Rattle.shard_contents.specs.KeptEntries.{kept_of};
ghost use Rattle.shard_contents.specs.Transactions.{entry_of};
ghost use Rattle.shard_contents.specs.Commits.{is_added, is_removed};
ghost use Rattle.shard_contents.specs.inner.Transactions.{has_room_for, IsAllUnprepared};
ghost use Rattle.shard_contents.specs.inner.StoredLogs.{HasPlaceFor, count_of};

use crate::contents::{Contents, Prepared, StatementId};
use crate::copies::copy_shard;
use crate::kept_entry::KeptEntry;
use crate::pending::Pending;
use shard_law::{Commit, Entry, Event, MOST_ENTRIES};
use shard_store::KeyedChange;
use std::alloc::{AllocError, Global};
use std::mem;
use vschema::RowChange;
use vt_value::{Items, Refusal};

fn is_added(change: &RowChange) -> bool
    ensures { result ≡ is_added change.now }
{
    match change {
        RowChange::Added(_, _) => true,
        RowChange::Replaced(_, _, _) => false,
        RowChange::Removed(_, _) => false,
    }
}

fn is_removed(change: &RowChange) -> bool
    ensures { result ≡ is_removed change.now }
{
    match change {
        RowChange::Added(_, _) => false,
        RowChange::Replaced(_, _, _) => false,
        RowChange::Removed(_, _) => true,
    }
}

fn added(changes: &[RowChange]) -> usize
    ensures { result ≡ count_by is_added changes.now }
{
    changes.iter().filter(|change| is_added(change)).count()
}

fn removed(changes: &[RowChange]) -> usize
    ensures { result ≡ count_by is_removed changes.now }
{
    changes.iter().filter(|change| is_removed(change)).count()
}

impl Pending {
    // Gives its writes and changes away, as the commit of this session's statement.
    fn give(&mut self, alloc: Global, statement_id: StatementId) -> Commit
        ensures { result ≡ record { session = statement_id.session; number = statement_id.number; statements = self.old.writes; changes = self.old.changes } }
    {
        let writes = mem::replace(&mut self.writes, Vec::new(alloc));
        let changes = self.changes.take(alloc);
        Commit {
            session: statement_id.session,
            number: statement_id.number,
            statements: Items::from_vec(writes),
            changes: Items::from_vec(changes),
        }
    }
}

impl Contents {
    // Whether the rows, with those that are added and without those that are removed, are within the limit.
    fn has_rows_for(&self, changes: &[RowChange]) -> bool
        requires most { self.now.limits.rows ≤ 2 ^ 20 }
        ensures { result ≡ nat_le (row_count self.now.store.rows + count_by is_added changes.now) (self.now.limits.rows + count_by is_removed changes.now) }
    {
        let added = added(changes) as u64;
        let most = self.limits.rows + removed(changes) as u64;
        added <= most && self.store.has_at_most(most - added)
    }

    /// Whether one more stored entry with these changes passes no limit, once the shard has so many entries.
    pub fn has_room_for(&self, entries: u64, changes: &[RowChange]) -> bool
        requires most { self.now.limits.rows ≤ 2 ^ 20 }
        ensures { result ≡ has_room_for self.now.limits entries (count_of self.now.stored.log) (row_count self.now.store.rows) changes.now }
    {
        entries < MOST_ENTRIES
            && (self.stored.len() as u64) < self.limits.stored
            && self.has_rows_for(changes)
    }

    // The changes as they are kept, and by keys, with room for them in the store and for an entry.
    pub(crate) fn make_room(
        &mut self,
        alloc: Global,
        changes: &[RowChange],
    ) -> Result<(KeptEntry, Vec<KeyedChange>), AllocError>
        requires { AllByRecursion (λ c. changed_table c < length self.old.store.rows) changes.now }
        ensures kept { IfOk result (λ r. r.0 ≡ changes.now) }
        ensures ready { IfOk result (λ r. IsReadyFor self.new.store changes.now r.1.items) }
        ensures one_more { IfOk result (λ r. HasPlaceFor self.new.stored r.0) }
        ensures shard { self.new.shard ≡ self.old.shard }
        ensures rows { self.new.store.rows ≡ self.old.store.rows }
        ensures mode { self.new.mode ≡ self.old.mode }
        ensures stored { self.new.stored.log ≡ self.old.stored.log }
        ensures steps { self.new.steps.items ≡ self.old.steps.items }
        ensures same_limits { self.new.limits ≡ self.old.limits }
    {
        let kept = KeptEntry::new(alloc, changes)?;
        self.stored.reserve(&kept)?;
        let keyed = self.store.prepare(alloc, kept.changes())?;
        Ok((kept, keyed))
    }

    /// Makes all memory of a transaction's commit, once the shard has so many entries, and takes over its writes and changes. It refuses
    /// what passes a limit, and for want of memory; then what the shard holds and the transaction stay as they are.
    pub fn prepare_in(
        &mut self,
        alloc: Global,
        entries: u64,
        statement_id: StatementId,
        tx: &mut Pending,
    ) -> Result<Prepared, Refusal>
        requires there { AllByRecursion (λ c. changed_table c < length self.old.store.rows) tx.old.changes }
        requires within { row_count self.old.store.rows ≤ self.old.limits.rows }
        requires most { self.old.limits.rows ≤ 2 ^ 20 }
        ensures changes { IfOk result (λ p. held_changes p.entry.event ≡ tx.old.changes) }
        ensures kept { IfOk result (λ p. p.kept ≡ kept_of p.entry) }
        ensures entry { IfOk result (λ p. p.entry ≡ entry_of self.old.shard statement_id.session statement_id.number tx.old.writes tx.old.changes) }
        ensures ready { IfOk result (λ p. IsReadyFor self.new.store (held_changes p.entry.event) p.changes.items) }
        ensures one_more { IfOk result (λ p. HasPlaceFor self.new.stored p.kept) }
        ensures limits { OnOk result (has_room_for self.old.limits entries (count_of self.old.stored.log) (row_count self.old.store.rows) tx.old.changes ≡ true) }
        ensures err { IfErr result (IsAllUnprepared self.old.limits entries (count_of self.old.stored.log) (row_count self.old.store.rows) tx.old.changes) }
        ensures unchanged { OnErr result (tx.new ≡ tx.old) }
        ensures shard { self.new.shard ≡ self.old.shard }
        ensures rows { self.new.store.rows ≡ self.old.store.rows }
        ensures mode { self.new.mode ≡ self.old.mode }
        ensures stored { self.new.stored.log ≡ self.old.stored.log }
        ensures steps { self.new.steps.items ≡ self.old.steps.items }
        ensures same_limits { self.new.limits ≡ self.old.limits }
    {
        if !self.has_room_for(entries, tx.changes.as_slice()) {
            return Err(Refusal::ShardFull);
        }
        let count = tx.changes.as_slice().len() as u64;
        let (kept, keyed) = self.make_room(alloc, tx.changes.as_slice())?;
        let shard = match copy_shard(alloc, &self.shard) {
            Ok(shard) => shard,
            Err(_) => return Err(Refusal::OutOfMemory),
        };
        let entry = Entry {
            shard,
            event: Event::Commit(tx.give(alloc, statement_id)),
        };
        Ok(Prepared {
            entry,
            kept,
            changes: keyed,
            count,
        })
    }
}
