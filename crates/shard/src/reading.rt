//! How a shard is read: one look at its journal, and what the query gives over exactly the rows that the run then leaves on it.
ghost use Rattle.std.specs.Prelude.{◌≡◌, ◌≤◌, ◌^◌, ◌++◌, ◌∷◌, [], true, IfOk, length};
ghost use Rattle.journal.specs.Runs.{IsLegal};
ghost use Rattle.journal.specs.Views.{IsLater};
ghost use Rattle.shard_run.specs.Runs.{shard_rows, mode, answers_queries, entries_on};
ghost use Rattle.shard_run.specs.Openings.{row_count};
ghost use Rattle.shard_contents.specs.Queries.{Allowed};
ghost use Rattle.shard_contents.specs.Legal.{IsOnItsSlot};
ghost use Rattle.shard_contents.specs.Entries.{MayFollow, slot_of, commit_of, seat_view};
ghost use Rattle.shard_contents.specs.Shards.{AnswersQuery};
ghost use Rattle.shard.specs.Snapshots.{IsSnapshotAt};
ghost use Rattle.shard.specs.BegunReads.{HasBegunRead};

use crate::snapshot::{BegunRead, MOST_ROWS_UNDER_LOCK, Snapshot};
use crate::state::ShardState;
use crate::world::{LookingShardPass, ShardPass, World};
use journal::Naming;
use shard_contents::{ReadOutcome, Reading};
use shard_run::Mode;
use std::alloc::{AllocError, Global};
use std::sync::Arc;
use vschema::Query;

fn serves(mode: Mode) -> bool
    ensures { result ≡ answers_queries mode }
{
    matches!(mode, Mode::Serving | Mode::Frozen)
}

impl<W: World, J: Naming> ShardState<W, J> {
    // What the query gives over the rows of a shard that serves, and has so many entries.
    fn read_serving(
        &self,
        alloc: Global,
        entries: u64,
        query: &Query,
    ) -> Result<Reading, AllocError>
        requires serves { answers_queries (mode W.opening self.now.seen self.now.shard.slot) ≡ true }
        requires legal { IsLegal (MayFollow W.opening) self.now.seen }
        ensures rows { IfOk result (λ r. Allowed query.now (shard_rows W.opening self.now.seen self.now.shard) r.rows) }
        ensures entries { IfOk result (λ r. r.entries ≡ entries) }
        ensures few { row_count (shard_rows W.opening self.now.seen self.now.shard) ≤ 2 ^ 20 }
    {
        let rows = self.contents.store.select(alloc, query)?;
        Ok(Reading { rows, entries })
    }

    // What the next snapshot shares with the shard.
    fn reader(&mut self, alloc: Global) -> Result<Arc<()>, AllocError>
        ensures unchanged { self.new ≡ self.old }
    {
        if let Some(shared) = &self.readers {
            return Arc::try_clone(shared);
        }
        let first = Arc::new(alloc, ())?;
        let reader = Arc::try_clone(&first)?;
        self.readers = Some(first);
        Ok(reader)
    }

    // The rows of a shard that serves, as they are, and has so many entries.
    fn snapshot(&mut self, alloc: Global, entries: u64) -> Result<Snapshot, AllocError>
        requires serves { answers_queries (mode W.opening self.old.seen self.old.shard.slot) ≡ true }
        requires legal { IsLegal (MayFollow W.opening) self.old.seen }
        requires entries { entries ≡ length (entries_on self.old.shard.slot self.old.seen) }
        ensures snapshot { IfOk result (IsSnapshotAt W.opening self.old.seen self.old.shard) }
        ensures unchanged { self.new ≡ self.old }
    {
        let reader = self.reader(alloc)?;
        let store = self.contents.store.snapshot(alloc)?;
        Ok(Snapshot {
            store,
            entries,
            reader,
        })
    }

    /// Whether a read over a snapshot of its rows is under way: one that outlasts them here frees them.
    pub fn is_read(&self) -> bool {
        match &self.readers {
            Some(shared) => Arc::strong_count(shared) > 1,
            None => false,
        }
    }

    // What a read has once the shard was looked at, and has so many entries, with all that has to be done under its lock.
    fn begun(&mut self, alloc: Global, entries: u64, query: &Query) -> Result<BegunRead, AllocError>
        requires legal { IsLegal (MayFollow W.opening) self.old.seen }
        requires entries { entries ≡ length (entries_on self.old.shard.slot self.old.seen) }
        ensures begun { IfOk result (HasBegunRead W.opening self.old.seen self.old.shard query.now) }
        ensures unchanged { self.new ≡ self.old }
    {
        if !serves(self.contents.mode) {
            return Ok(BegunRead::Answered(ReadOutcome::NotServing));
        }
        if self.contents.store.scans(query, MOST_ROWS_UNDER_LOCK) {
            let snapshot = self.snapshot(alloc, entries)?;
            return Ok(BegunRead::Begun(snapshot));
        }
        let reading = self.read_serving(alloc, entries, query)?;
        Ok(BegunRead::Answered(ReadOutcome::Rows(reading)))
    }

    // The look of a read, with all that has to be done under the shard's lock.
    pub(crate) fn begin_read(
        &mut self,
        alloc: Global,
        pass: &mut ShardPass<W, J>,
        query: &Query,
    ) -> Result<BegunRead, AllocError>
        ensures seen { IsLater slot_of commit_of (MayFollow W.opening) (seat_view self.old) pass.old self.new.seen }
        ensures begun { IfOk result (HasBegunRead W.opening self.new.seen self.old.shard query.now) }
        ensures shard { self.new.shard ≡ self.old.shard }
        ensures same { self.new ≡ record self.old { seen = self.new.seen } }
        ensures stands { IsOnItsSlot W.opening self.new.seen self.old.shard }
        ensures pass { pass.new ≡ record pass.old { seen = self.new.seen; looks = pass.old.looks ++ (self.old.shard.slot, length self.new.seen) ∷ [] } }
    {
        let entries = self.look(pass);
        self.begun(alloc, entries, query)
    }

    // That by a pass that may only look.
    pub(crate) fn begin_read_for(
        &mut self,
        alloc: Global,
        pass: &mut LookingShardPass<W, J>,
        query: &Query,
    ) -> Result<BegunRead, AllocError>
        ensures seen { IsLater slot_of commit_of (MayFollow W.opening) (seat_view self.old) pass.old self.new.seen }
        ensures begun { IfOk result (HasBegunRead W.opening self.new.seen self.old.shard query.now) }
        ensures shard { self.new.shard ≡ self.old.shard }
        ensures same { self.new ≡ record self.old { seen = self.new.seen } }
        ensures stands { IsOnItsSlot W.opening self.new.seen self.old.shard }
        ensures pass { pass.new ≡ record pass.old { seen = self.new.seen; looks = pass.old.looks ++ (self.old.shard.slot, length self.new.seen) ∷ [] } }
    {
        let entries = self.look_for(pass);
        self.begun(alloc, entries, query)
    }

    // Promise: A read makes one look, which the pass keeps; its answer is one of the query's over what the run leaves on the shard at that
    // look, if it serves and has at most 2^20 rows, with the number of the shard's entries then; else it says that the shard doesn't
    // serve
    /// What the query gives over the rows that the run, as it is, leaves on the shard, if it serves: one look, which the pass keeps.
    /// Refuses only for want of memory; then too the look was made.
    pub fn read(
        &mut self,
        alloc: Global,
        pass: &mut ShardPass<W, J>,
        query: &Query,
    ) -> Result<ReadOutcome, AllocError>
        ensures seen { IsLater slot_of commit_of (MayFollow W.opening) (seat_view self.old) pass.old self.new.seen }
        ensures read { IfOk result (AnswersQuery W.opening self.new.seen self.old.shard query.now) }
        ensures shard { self.new.shard ≡ self.old.shard }
        ensures same { self.new ≡ record self.old { seen = self.new.seen } }
        ensures stands { IsOnItsSlot W.opening self.new.seen self.old.shard }
        ensures pass { pass.new ≡ record pass.old { seen = self.new.seen; looks = pass.old.looks ++ (self.old.shard.slot, length self.new.seen) ∷ [] } }
    {
        let begun = self.begin_read(alloc, pass, query)?;
        let outcome = begun.finish(alloc, query)?;
        Ok(outcome)
    }
}
