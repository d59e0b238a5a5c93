//! How a target takes over what its sources have: how far it has come with each, what a source has for it then, and the Copy.
ghost use Rattle.std.specs.Prelude.{◌≡◌, ◌⊎◌, ◌<◌, ◌≤◌, ◌^◌, ◌&&◌, ◌||◌, ◌==◌, ℕ, true, not, None, Some, IsSome, IsTrue, IfOk, IfSome, IfErr, OnOk, OnErr, MatchOption, filter, length, option_copied};
ghost use Rattle.std.specs.List.{AllByRecursion};
ghost use Rattle.vt_value.specs.Values as values;
ghost use Rattle.vschema.specs.WellFormed.{is_vschema};
ghost use Rattle.vschema.specs.declared.changes.RowChange as row;
ghost use Rattle.vschema.specs.Database.{changed_table, changed_row, restricted_changes};
ghost use Rattle.journal.specs.Runs.{IsLegal};
ghost use Rattle.journal.specs.Views.{PassView};
ghost use Rattle.shard_run.specs.declared.Entry.{Entry};
ghost use Rattle.shard_run.specs.declared.Event.{Event};
ghost use Rattle.shard_run.specs.Runs.{mode, answers_queries, entries_on, stored_on, stored_changes, shard_rows};
ghost use Rattle.shard_run.specs.Openings.{row_count};
ghost use Rattle.shard_run.specs.Copies.{position, table_at, has_copied_all, is_copied, change_is_copied};
ghost use Rattle.shard_contents.specs.Progress.{step_position};
ghost use Rattle.shard_contents.specs.Entries.{MayFollow, HasLooked, HasAppended};
ghost use Rattle.shard_contents.specs.Copying.{HasCopiedAll, IsNextTable, IsProgress, IsEntryFor, IsCopyFor, IsNextCopy, PassesLimit, is_reached};
ghost use Rattle.shard_contents.specs.inner.Rowed.{first_named};
ghost use Rattle.shard.specs.inner.Reached.{IsLastCopy, is_whole};

use crate::state::ShardState;
use crate::world::{ShardPass, World};
use journal::Naming;
use shard_contents::{
    NextTable, SortedTable, SourceProgress, TargetStep, changed_row, changed_table, copied,
    copy_change, first_named, is_reached, restricted_changes,
};
use shard_run::{Copied, Entry, Follow, Mode};
use std::alloc::{AllocError, Global};
use vschema::{Place, RowChange, VSchema};
use vt_value::{Items, Refusal, Row};

// Whether a table is wholly copied, if the last Copy was of another one or of it.
fn is_whole(schema: &VSchema, keyspace: usize, reached: usize, last: bool, n: usize) -> bool
    requires n { n < length schema.now.tables }
    requires reached { reached < length schema.now.tables }
    ensures { result ≡ is_whole schema.now keyspace reached last n }
{
    if n == reached {
        return last;
    }
    let tables = schema.tables.as_slice();
    tables[n].keyspace == keyspace
        && tables[n]
            .name
            .as_slice()
            .cmp(tables[reached].name.as_slice())
            .is_lt()
}

impl<W: World, J: Naming> ShardState<W, J> {
    // The last Copy from a source, which determines which tables are copied, since they are in the order of their names.
    fn last_copy(&self, source: usize) -> Option<&TargetStep>
        requires lives { mode W.opening self.now.seen self.now.shard.slot ≡ Mode.Retired → ⊥ }
        ensures { IsLastCopy W.opening self.now.seen self.now.shard source (option_copied result) }
    {
        // for what their types say: the run is legal, and the shard is on its slot
        let _slot = self.seat.slot();
        let _shard = self.shard();
        let steps = self.contents.steps.as_slice();
        let mut end = steps.len();
        while end > 0 {
            let step = &steps[end - 1];
            if step.is_copy_from(source) {
                return Some(step);
            }
            end -= 1;
        }
        None
    }

    // Whether it has copied the whole table from a source.
    fn has_copied(&self, schema: &VSchema, source: usize, n: usize) -> bool
        requires schema { schema.now ≡ W.opening.schema }
        requires lives { mode W.opening self.now.seen self.now.shard.slot ≡ Mode.Retired → ⊥ }
        requires there { n < length schema.now.tables }
        ensures { result ≡ has_copied_all self.now.seen self.now.shard.slot source n }
    {
        match self.last_copy(source) {
            Some(TargetStep::Copied { table, last, .. }) => {
                is_whole(schema, self.shard().place.keyspace, *table, *last, n)
            }
            _ => false,
        }
    }

    // The table of the last Copy from a source, if it has more rows.
    fn begun_table(&self, source: usize) -> Option<usize>
        requires lives { mode W.opening self.now.seen self.now.shard.slot ≡ Mode.Retired → ⊥ }
        ensures { IfSome result (IsNextTable W.opening self.now.seen self.now.shard source) }
    {
        match self.last_copy(source) {
            Some(TargetStep::Copied { table, last, .. }) => {
                if *last { None } else { Some(*table) }
            }
            _ => None,
        }
    }

    // Whether a table is of its keyspace and not wholly copied from the source.
    fn is_unfinished(&self, schema: &VSchema, source: usize, n: usize) -> bool
        requires schema { schema.now ≡ W.opening.schema }
        requires lives { mode W.opening self.now.seen self.now.shard.slot ≡ Mode.Retired → ⊥ }
        requires there { n < length schema.now.tables }
        ensures { result ≡ (((table_at schema.now n).keyspace == self.now.shard.place.keyspace) && not (has_copied_all self.now.seen self.now.shard.slot source n)) }
    {
        schema.tables.as_slice()[n].keyspace == self.shard().place.keyspace
            && !self.has_copied(schema, source, n)
    }

    // The first table of its keyspace that isn't wholly copied, if none is begun.
    fn first_unfinished(&self, schema: &VSchema, source: usize) -> Option<usize>
        requires schema { schema.now ≡ W.opening.schema }
        requires lives { mode W.opening self.now.seen self.now.shard.slot ≡ Mode.Retired → ⊥ }
        ensures { MatchOption result (HasCopiedAll W.opening self.now.seen self.now.shard source) (IsNextTable W.opening self.now.seen self.now.shard source) }
    {
        let mut found = None;
        for n in 0..schema.tables.len() {
            if self.is_unfinished(schema, source, n) {
                found = Some(first_named(schema, n, found));
            }
        }
        found
    }

    /// The first table of its keyspace, by name, that it hasn't wholly copied from a source, by its slot. Takes no memory. It walks the tables
    /// only if the last Copy ended one.
    pub fn next_table(&self, schema: &VSchema, source: usize) -> Option<usize>
        requires schema { schema.now ≡ W.opening.schema }
        requires lives { mode W.opening self.now.seen self.now.shard.slot ≡ Mode.Retired → ⊥ }
        ensures { MatchOption result (HasCopiedAll W.opening self.now.seen self.now.shard source) (IsNextTable W.opening self.now.seen self.now.shard source) }
    {
        match self.begun_table(source) {
            Some(table) => Some(table),
            None => self.first_unfinished(schema, source),
        }
    }

    // The last row of the table that it copied from the source, which determines what is copied of it.
    fn last_copied(&self, source: usize, table: usize) -> Option<&Row>
        requires lives { mode W.opening self.now.seen self.now.shard.slot ≡ Mode.Retired → ⊥ }
        requires legal { IsLegal (MayFollow W.opening) self.now.seen }
        ensures { (row : values.Row) → is_copied W.opening.schema self.now.seen self.now.shard.slot source table row
            ≡ (has_copied_all self.now.seen self.now.shard.slot source table || is_reached (table_at W.opening.schema table) (option_copied result) row) }
    {
        // for what its type says: the world opens
        let _ = &self.seat;
        match self.last_copy(source) {
            Some(step) => step.row_of(source, table),
            None => None,
        }
    }

    /// After how many of a source's stored entries it stands, by the source's slot; none before its first Copy from there. Takes no memory.
    pub fn position_in(&self, source: usize) -> Option<u128>
        requires lives { mode W.opening self.now.seen self.now.shard.slot ≡ Mode.Retired → ⊥ }
        ensures { result ≡ position self.now.seen self.now.shard.slot source }
    {
        match self.last_step(source) {
            Some(step) => Some(step.step_position()),
            None => None,
        }
    }

    // Where it copies on with the source.
    fn next_rows(
        &self,
        alloc: Global,
        schema: &VSchema,
        source: usize,
    ) -> Result<Option<NextTable>, AllocError>
        requires schema { schema.now ≡ W.opening.schema }
        requires lives { mode W.opening self.now.seen self.now.shard.slot ≡ Mode.Retired → ⊥ }
        requires legal { IsLegal (MayFollow W.opening) self.now.seen }
        ensures next { IfOk result (λ next. MatchOption next (HasCopiedAll W.opening self.now.seen self.now.shard source)
            (λ n. IsNextTable W.opening self.now.seen self.now.shard source n.table
            × ((row : values.Row) → is_copied W.opening.schema self.now.seen self.now.shard.slot source n.table row ≡ is_reached (table_at W.opening.schema n.table) n.after row))) }
    {
        let Some(table) = self.next_table(schema, source) else {
            return Ok(None);
        };
        let after = copied(alloc, self.last_copied(source, table))?;
        Ok(Some(NextTable { table, after }))
    }

    // Promise: A target returns how far it has come with a source, and from where it copies; a source returns what it has for it next: its entry
    // at a position, cut to the target's place, or that none is left; else at most 100 rows of a table of that place, in the order of their
    // keys, after the last that was copied, and whether they are the last. What is followed is cut to what is copied
    // With: ShardState::{position_in, copied_changes, entry_for, rows_to_copy}
    /// How far a target that follows has come with a source, by its slot. Refuses for want of memory.
    pub fn progress(
        &self,
        alloc: Global,
        schema: &VSchema,
        source: usize,
    ) -> Result<SourceProgress, AllocError>
        requires schema { schema.now ≡ W.opening.schema }
        requires following { mode W.opening self.now.seen self.now.shard.slot ≡ Mode.Following }
        requires legal { IsLegal (MayFollow W.opening) self.now.seen }
        ensures progress { IfOk result (IsProgress W.opening self.now.seen self.now.shard source) }
    {
        let stands_after = self.position_in(source);
        let next = self.next_rows(alloc, schema, source)?;
        Ok(SourceProgress { stands_after, next })
    }

    // Whether the row of a table is copied from the source.
    fn is_copied(&self, schema: &VSchema, source: usize, n: usize, row: &Row) -> bool
        requires schema { schema.now ≡ W.opening.schema }
        requires lives { mode W.opening self.now.seen self.now.shard.slot ≡ Mode.Retired → ⊥ }
        requires legal { IsLegal (MayFollow W.opening) self.now.seen }
        requires there { n < length schema.now.tables }
        ensures { result ≡ is_copied W.opening.schema self.now.seen self.now.shard.slot source n row.now }
    {
        let last = self.last_copied(source, n);
        self.has_copied(schema, source, n) || is_reached(&schema.tables.as_slice()[n], last, row)
    }

    // Whether a change is of a row that is copied from the source.
    fn change_is_copied(&self, schema: &VSchema, source: usize, change: &RowChange) -> bool
        requires schema { schema.now ≡ W.opening.schema }
        requires lives { mode W.opening self.now.seen self.now.shard.slot ≡ Mode.Retired → ⊥ }
        requires legal { IsLegal (MayFollow W.opening) self.now.seen }
        requires there { changed_table change.now < length schema.now.tables }
        ensures { result ≡ change_is_copied W.opening.schema self.now.seen self.now.shard.slot source change.now }
    {
        self.is_copied(schema, source, changed_table(change), changed_row(change))
    }

    /// Of what a source's entry changes in a target's place, the changes of rows that the target has copied from there.
    pub fn copied_changes(
        &self,
        alloc: Global,
        schema: &VSchema,
        taken: &Follow,
    ) -> Result<Follow, AllocError>
        requires schema { schema.now ≡ W.opening.schema }
        requires lives { mode W.opening self.now.seen self.now.shard.slot ≡ Mode.Retired → ⊥ }
        requires legal { IsLegal (MayFollow W.opening) self.now.seen }
        requires there { AllByRecursion (λ c. changed_table c < length schema.now.tables) taken.now.changes }
        ensures ok { IfOk result (λ f. f ≡ record taken.now { changes = filter (change_is_copied W.opening.schema self.now.seen self.now.shard.slot taken.now.source) taken.now.changes }) }
    {
        let mut changes = Items::new(alloc);
        for change in taken.changes.as_slice() {
            if self.change_is_copied(schema, taken.source, change) {
                changes.push(copy_change(alloc, change)?)?;
            }
        }
        Ok(Follow {
            source: taken.source,
            log_position: taken.log_position,
            changes,
        })
    }

    /// What the entry that the shard has stored at a position, counted from 0, changes in a target's place. None if it hasn't stored so
    /// many. Refuses for want of memory, and if the entry was stored before the shard was copied from, since it isn't kept then.
    pub fn entry_for(
        &self,
        alloc: Global,
        schema: &VSchema,
        place: &Place,
        at: u64,
    ) -> Result<Option<Follow>, AllocError>
        requires schema { schema.now ≡ W.opening.schema }
        requires lives { mode W.opening self.now.seen self.now.shard.slot ≡ Mode.Retired → ⊥ }
        requires legal { IsLegal (MayFollow W.opening) self.now.seen }
        ensures entry { IfOk result (λ r. MatchOption r (length (stored_on self.now.shard.slot self.now.seen) ≤ at)
            (λ f. (f.log_position ≡ at) × IsEntryFor W.opening self.now.seen self.now.shard.slot place.now f)) }
    {
        let stored = &self.contents.stored;
        if at >= stored.len() as u64 {
            return Ok(None);
        }
        // No target meets this: the shard keeps its entries from the target's first Copy on, and the target stands at that or after it.
        let Some(entry) = stored.get(at as usize) else {
            return Err(AllocError);
        };
        let changes = restricted_changes(alloc, schema, place, entry.changes())?;
        Ok(Some(Follow {
            source: self.slot(),
            log_position: at,
            changes,
        }))
    }

    /// The next rows of a table for a target, as a shard that serves has them: of those that lie in the target's place after the last row
    /// there, the first 100 by primary key. A table that isn't stored in the order of its primary key is kept in that order until its last
    /// step; what `sort_some` hasn't sorted of it is sorted now, which takes as long as that. From then on the shard keeps what its entries
    /// change. Refuses for want of memory.
    pub fn rows_to_copy(
        &mut self,
        alloc: Global,
        schema: &VSchema,
        place: &Place,
        next: &NextTable,
    ) -> Result<Copied, AllocError>
        requires schema { schema.now ≡ W.opening.schema }
        requires formed { IsTrue (is_vschema W.opening.schema) }
        requires serves { answers_queries (mode W.opening self.old.seen self.old.shard.slot) ≡ true }
        requires legal { IsLegal (MayFollow W.opening) self.old.seen }
        requires there { next.now.table < length schema.now.tables }
        ensures copy { IfOk result (λ c. (c.table ≡ next.now.table) × IsCopyFor W.opening self.old.seen self.old.shard place.now next.now.after c) }
        ensures unchanged { self.new ≡ record self.old { kept_from = self.new.kept_from } }
        ensures followed { IsSome self.new.kept_from }
        ensures kept { (n : ℕ) → self.old.kept_from ≡ Some n → self.new.kept_from ≡ Some n }
    {
        let source = self.slot();
        let stored = self.stored();
        let table = &schema.tables.as_slice()[next.table];
        // the target asks for the entries that come after these rows
        self.contents.stored.follow();
        let rows = self
            .contents
            .first_wanted(alloc, &mut self.sorted, place, table, next)?;
        Ok(Copied {
            source,
            table: next.table,
            log_position: stored,
            rows: Items::from_vec(rows),
        })
    }

    /// Puts some more rows of a table in the order of its primary key, or brings them forward by some of the entries that came since, if the table
    /// isn't stored in that order. Answers whether more is left to do until `rows_to_copy` has all in order. From then on the shard keeps
    /// what its entries change. Takes no longer than a step that copies, but for an entry that changes many rows. Refuses for want of memory.
    pub fn sort_some(
        &mut self,
        alloc: Global,
        schema: &VSchema,
        table: usize,
    ) -> Result<bool, AllocError>
        requires schema { schema.now ≡ W.opening.schema }
        requires serves { answers_queries (mode W.opening self.old.seen self.old.shard.slot) ≡ true }
        requires there { table < length schema.now.tables }
        ensures unchanged { self.new ≡ record self.old { kept_from = self.new.kept_from } }
        ensures followed { IsSome self.new.kept_from }
        ensures kept { (n : ℕ) → self.old.kept_from ≡ Some n → self.new.kept_from ≡ Some n }
    {
        let declared = &schema.tables.as_slice()[table];
        let contents = &mut self.contents;
        contents.stored.follow();
        self.sorted.sort_some(
            alloc,
            &mut contents.store,
            &contents.stored,
            table,
            declared,
        )
    }

    /// Hands out a table that it had in order, if all of its rows were copied: its drop takes time in its rows, so it is for after the lock. Takes
    /// no memory.
    pub fn take_done(&mut self) -> Option<SortedTable>
        ensures { self.new ≡ self.old }
    {
        self.sorted.take_done()
    }

    /// Drops the tables that it keeps in order for targets, as when these are given up. Takes no memory.
    pub fn drop_sorted(&mut self)
        ensures { self.new ≡ self.old }
    {
        self.sorted.clear();
    }

    // Promise: What a shard's entries change is kept from the time on when rows are first sorted or copied from it, until `unfollow`; its rows are
    // kept until it is retired and `drop_rows`. Each of these two gives them up, and no other call does
    // With: ShardState::{drop_rows, sort_some, look}
    // Clauses: same, unchanged, followed, kept
    /// Gives up what it keeps for targets, as when none of them follows it any more: what its entries changed, and the tables in order. Takes
    /// no memory.
    pub fn unfollow(&mut self)
        ensures { self.new ≡ record self.old { kept_from = None } }
    {
        self.sorted.clear();
        self.contents.stored.unfollow();
    }

    // Promise: A Copy is exactly one entry, after a look. It is done only if the target had fewer than 2^40 entries, and has no more rows
    // then than it may. It is refused for want of memory, or if it passes one of these limits (F24): for rows only if the target would
    // have more than it may, with that entry after the run. A refused one could have come next, and appended nothing
    /// Takes over the rows of a Copy that is next for it, on a target that follows: one look, which the pass keeps, and then one entry.
    /// Refuses for want of memory, and what would pass a limit of the shard; then the look was made, and nothing else.
    pub fn copy(
        &mut self,
        alloc: Global,
        pass: &mut ShardPass<W, J>,
        taken: Copied,
    ) -> Result<(), Refusal>
        requires following { mode W.opening self.old.seen self.old.shard.slot ≡ Mode.Following }
        requires next { IsNextCopy W.opening pass.old.seen self.old taken }
        ensures copied { OnOk result ((looked : PassView Entry) × HasLooked W.opening self.old.shard.slot pass.old looked
            × HasAppended W.opening (record self.old { seen = looked.seen }) (Event.Copy taken) looked pass.new) }
        ensures room { OnOk result (length (entries_on self.old.shard.slot self.old.seen) < 2 ^ 40) }
        ensures rows { OnOk result (row_count (shard_rows W.opening pass.new.seen self.old.shard) ≤ W.limits.rows) }
        ensures looked { OnErr result (HasLooked W.opening self.old.shard.slot pass.old pass.new) }
        ensures may { OnErr result (MayFollow W.opening pass.new.seen (record { shard = self.old.shard; event = Event.Copy taken })) }
        ensures err { IfErr result (λ e. (e ≡ Refusal.OutOfMemory) ⊎ ((e ≡ Refusal.ShardFull) × PassesLimit W.opening W.limits pass.new.seen self.old.shard (Event.Copy taken))) }
        ensures seen { self.new.seen ≡ pass.new.seen }
        ensures shard { self.new.shard ≡ self.old.shard }
        ensures same { self.new ≡ record self.old { seen = self.new.seen } }
    {
        // a target gives no rows, so it keeps no table in order
        self.sorted.clear();
        let entries = self.seat.look(pass);
        let rows = taken.rows.len();
        if !self.contents.has_room_to_copy(entries, rows) {
            return Err(Refusal::ShardFull);
        }
        let prepared = self.contents.prepare_copy(alloc, taken)?;
        self.seat.append(pass, &prepared.entry);
        self.contents.take_copy(prepared);
        Ok(())
    }
}
