//! The state under a shard's lock. Each call looks at the journal once, and then answers, commits or changes the mode over exactly the rows
//! that the run leaves on the shard.
ghost use Rattle.std.specs.Prelude.{◌≡◌, ◌↔◌, IsTrue, ◌⊎◌, ◌+◌, ◌<◌, ◌≤◌, ◌^◌, ◌++◌, ◌∷◌, [], ℕ, true, false, List, Some, IsSome, IfOk, IfErr, MatchOption, None, OnOk, OnErr, Contains, length, vec_len};
ghost use Rattle.vschema.specs.TypedWrites.{IsTypedWrite};
ghost use Rattle.journal.specs.Views.{IsLater};
ghost use Rattle.shard_run.specs.declared.Entry.{Entry};
ghost use Rattle.shard_run.specs.declared.Event.{Event};
ghost use Rattle.shard_run.specs.Runs.{shard_rows, mode, mode_after, answers_queries, entries_on, stored_on};
ghost use Rattle.shard_contents.specs.Legal.{May};
ghost use Rattle.shard_run.specs.Openings.{row_count};
ghost use Rattle.journal.specs.Runs.{IsLegal};
ghost use Rattle.shard_contents.specs.Entries.{MayFollow, slot_of, commit_of};
ghost use Rattle.shard_contents.specs.Shards.{beyond, IsAfter};
ghost use Rattle.shard_contents.specs.inner.Shards.{is_plain};

use crate::world::{LookingShardPass, ShardLaw, ShardPass, World};
use journal::{Naming, ShardSeat};
use shard_contents::{
    CommitOutcome, Contents, Limits, SortedTables, StatementId, StoredEntries, StoredTables,
    TargetStep,
};
use shard_run::{Entry, Event, Follow, Mode, ShardRecord};
use std::alloc::Global;
use std::marker::Model;
use std::mem::replace;
use std::sync::Arc;
use vschema::{Place, VSchema, Write};
use vt_value::{Items, Refusal};

/// What lies under a shard's lock: its rows, its mode and the entries that it stores, with the seat whose run says so.
/// Contracts see a `ShardView`: which shard it is, the run that its seat has seen, from which stored entry on it has what they change, and of how
/// many tables it has the rows.
#[derive(Drop)]
pub struct ShardState<W: World, J: Naming> {
    pub(crate) seat: ShardSeat<ShardLaw<W>, J>,
    pub(crate) contents: Contents,
    // while they are copied to targets, the tables that are stored in another order than that of their primary keys
    pub(crate) sorted: SortedTables,
    // once it is retired, those that take its place
    pub(crate) targets: Items<ShardRecord>,
    // whether it is the target of a workflow that was given up: no run says so
    pub(crate) given_up: bool,
    // what each snapshot of its rows shares with it, once there was one
    pub(crate) readers: Option<Arc<()>>,
}

impl<W: World, J: Naming> Model for ShardState<W, J> {
    ghost use Rattle.shard_contents.specs.Entries.{ShardView};
    ghost use Rattle.shard_contents.specs.Shards.{IsAfter, RetiredFor, state_view};
    ghost use Rattle.shard_contents.specs.inner.Earlier.{AllHadRows};
    ghost use Rattle.std.specs.Coded.{codes};
    ghost use Rattle.shard_run.specs.contracts.Entry as entry;
    ghost use Rattle.shard_run.specs.contracts.ShardRecord as which;

    ghost Value = { ShardView };

    ghost coded = { Prim.hlevel (codes, entry.the_row.coded, which.the_row.coded) };

    ghost view = { λ s. state_view s.seat.seen s.contents };

    // What it holds is what the run that it has seen leaves on it, and the tables in order had their rows when they say.
    ghost invariant = { λ s. IsAfter W.opening W.limits s.seat s.contents × RetiredFor W.opening s.seat.seen s.contents.shard s.targets
        × AllHadRows s.contents.stored.log s.contents.store.rows s.sorted };
}

// Appends the shard's entry of an event that isn't stored, after which it has this mode, and gives the event back. Takes no memory.
pub(crate) fn append_event<W: World, J: Naming>(
    seat: &mut ShardSeat<ShardLaw<W>, J>,
    contents: &mut Contents,
    pass: &mut ShardPass<W, J>,
    event: Event,
    next: Mode,
) -> Event
    requires after { IsAfter W.opening W.limits seat.old contents.old }
    requires lives { mode W.opening seat.old.seen contents.old.shard.slot ≡ Mode.Retired → ⊥ }
    requires next { next ≡ mode_after (mode W.opening seat.old.seen contents.old.shard.slot) event }
    requires plain { is_plain event ≡ true }
    requires within { answers_queries next ≡ true → row_count contents.old.store.rows ≤ W.limits.rows }
    requires room { length (entries_on contents.old.shard.slot seat.old.seen) < 2 ^ 40 + beyond next }
    requires lawful { (run : List Entry) → IsLater slot_of commit_of (MayFollow W.opening) seat.old pass.old run → May W.opening run contents.old.shard event }
    ensures event { result ≡ event }
    ensures after { IsAfter W.opening W.limits seat.new contents.new }
    ensures seen { (run : List Entry) × IsLater slot_of commit_of (MayFollow W.opening) seat.old pass.old run × (seat.new.seen ≡ run ++ record { shard = contents.old.shard; event = event } ∷ []) }
    ensures legal { IsLegal (MayFollow W.opening) seat.new.seen }
    ensures seat { seat.new ≡ record seat.old { seen = seat.new.seen } }
    ensures pass { pass.new ≡ record pass.old { seen = seat.new.seen } }
    ensures shard { contents.new.shard ≡ contents.old.shard }
    ensures stored { contents.new.stored.log ≡ contents.old.stored.log }
    ensures rows { contents.new.store.rows ≡ contents.old.store.rows }
    ensures now { mode W.opening seat.new.seen contents.new.shard.slot ≡ next }
{
    let none = ShardRecord {
        slot: contents.shard.slot,
        place: Place {
            keyspace: contents.shard.place.keyspace,
            range: contents.shard.place.range,
        },
        sources: Items::new(*contents.steps.allocator()),
    };
    let shard = replace(&mut contents.shard, none);
    let entry = Entry { shard, event };
    seat.append(pass, &entry);
    let Entry { shard, event } = entry;
    contents.shard = shard;
    contents.mode = next;
    event
}

impl<W: World, J: Naming> ShardState<W, J> {
    ghost use mathlib.Core.List.{IsPrefix};
    ghost use Rattle.journal.specs.Runs.{NumbersBelow};
    ghost use Rattle.shard_run.specs.Runs.{first_rows, shard_rows};
    ghost use Rattle.shard_run.specs.Openings.{IsOpening};
    ghost use Rattle.shard_run.specs.Copies.{position};
    ghost use Rattle.shard_contents.specs.Progress.{step_position};
    ghost use Rattle.shard_contents.specs.Legal.{IsOnItsSlot, MayRetire, MayServe};
    ghost use Rattle.journal.specs.Views.{PassView};
    ghost use Rattle.shard_contents.specs.Entries.{HasLooked, HasAppended, opening_shards, seat_view};
    ghost use Rattle.shard_contents.specs.Shards.{IsNext};
    ghost use Rattle.shard_contents.specs.Commits.{IsPlaced, HasCommitted, IsCommitRefusal, HasAnswered};
    ghost use Rattle.shard_contents.specs.Copying.{PassesLimit};
    ghost use Rattle.shard_contents.specs.Law.{SourcesApart};

    // Promise: A shard's rows (as bags), mode, stored entries, targets and how far it has come with each source are those that the run
    // which its seat has seen leaves on it, within its limits if it serves: the invariant of the type. It is an opening shard or a
    // target
    // With: ShardState::{shard, slot, stands_at, is, stored, mode, last_step, next_table, look, invariant}
    /// A shard with its first rows, of each table of the VSchema: an opening one, or a target on a slot of its own. Nothing has happened
    /// on its slot.
    pub fn new(
        alloc: Global,
        seat: ShardSeat<ShardLaw<W>, J>,
        shard: ShardRecord,
        store: StoredTables,
        first_mode: Mode,
        limits: Limits,
    ) -> ShardState<W, J>
        requires opens { IsOpening W.opening }
        requires fresh { entries_on shard.slot seat.seen ≡ [] }
        requires slot { seat.slot ≡ shard.slot }
        requires stands { IsOnItsSlot W.opening seat.seen shard }
        requires first_mode { first_mode ≡ mode W.opening [] shard.slot }
        requires rows { store.rows ≡ first_rows W.opening shard }
        requires tables { length store.rows ≡ length W.opening.schema.tables }
        requires limits { limits ≡ W.limits }
        requires most_rows { limits.rows ≤ 2 ^ 20 }
        requires most_stored { limits.stored ≤ 2 ^ 20 }
        requires within { row_count store.rows ≤ limits.rows }
        ensures seen { result.seen ≡ seat.seen }
        ensures shard { result.shard ≡ shard }
        ensures kept { result.kept_from ≡ None }
        ensures tables { result.tables ≡ length store.rows }
    {
        let contents = Contents {
            shard,
            store,
            mode: first_mode,
            stored: StoredEntries::new(alloc),
            steps: Vec::new(alloc),
            limits,
        };
        ShardState {
            seat,
            contents,
            sorted: SortedTables::new(alloc),
            targets: Items::new(alloc),
            given_up: false,
            readers: None,
        }
    }

    /// Which shard it is.
    pub fn shard(&self) -> &ShardRecord
        ensures shard { result.now ≡ self.now.shard }
        ensures stands { IsOnItsSlot W.opening self.now.seen self.now.shard }
    {
        &self.contents.shard
    }

    /// The slot that the shard is on.
    pub fn slot(&self) -> usize
        ensures slot { result ≡ self.now.shard.slot }
    {
        self.contents.shard.slot
    }

    /// Whether it is the shard of this slot and place.
    pub fn stands_at(&self, slot: usize, place: &Place) -> bool
        ensures { IsTrue result ↔ ((self.now.shard.slot ≡ slot) × (self.now.shard.place ≡ place.now)) }
    {
        let shard = &self.contents.shard;
        shard.slot == slot
            && shard.place.keyspace == place.keyspace
            && shard.place.range == place.range
    }

    /// Whether it is the shard of this slot and place, and no target that follows its sources.
    pub fn is_found_at(&self, slot: usize, place: &Place) -> bool
        ensures at { result ≡ true → (self.now.shard.slot ≡ slot) × (self.now.shard.place ≡ place.now) }
        ensures past { result ≡ true → mode W.opening self.now.seen self.now.shard.slot ≡ Mode.Following → ⊥ }
        ensures found { (self.now.shard.slot ≡ slot) × (self.now.shard.place ≡ place.now) → (mode W.opening self.now.seen self.now.shard.slot ≡ Mode.Following → ⊥) → result ≡ true }
    {
        if !self.stands_at(slot, place) {
            return false;
        }
        match self.mode() {
            Mode::Following => false,
            _ => true,
        }
    }

    /// Whether it is this shard.
    pub fn is(&self, shard: &ShardRecord) -> bool
        ensures { IsTrue result ↔ (self.now.shard ≡ shard.now) }
    {
        self.stands_at(shard.slot, &shard.place)
            && self.contents.shard.sources.as_slice() == shard.sources.as_slice()
    }

    /// How many entries a shard that isn't retired has stored.
    pub fn stored(&self) -> u64
        requires lives { mode W.opening self.now.seen self.now.shard.slot ≡ Mode.Retired → ⊥ }
        ensures { result ≡ length (stored_on self.now.shard.slot self.now.seen) }
    {
        self.contents.stored.len() as u64
    }

    // Promise: A shard that serves returns how many rows it has
    /// How many rows a shard that serves has, of all tables.
    pub fn rows(&self) -> u64
        requires serves { answers_queries (mode W.opening self.now.seen self.now.shard.slot) ≡ true }
        ensures { result ≡ row_count (shard_rows W.opening self.now.seen self.now.shard) }
    {
        self.contents.store.row_count() as u64
    }

    /// The last step with a source by which the shard came forward: after it the shard stands in the source, and without one it has no
    /// position there.
    pub fn last_step(&self, source: usize) -> Option<&TargetStep>
        requires lives { mode W.opening self.now.seen self.now.shard.slot ≡ Mode.Retired → ⊥ }
        ensures { MatchOption result (position self.now.seen self.now.shard.slot source ≡ None) (λ step. position self.now.seen self.now.shard.slot source ≡ Some (step_position step.now)) }
    {
        let steps = self.contents.steps.as_slice();
        let mut end = steps.len();
        while end > 0 {
            let step = &steps[end - 1];
            if step.source() == source {
                return Some(step);
            }
            end -= 1;
        }
        None
    }

    /// What the shard does. The rows of a dropped one are gone, and it is retired.
    pub fn mode(&self) -> Mode
        ensures { (result ≡ mode W.opening self.now.seen self.now.shard.slot)
            ⊎ ((result ≡ Mode.Dropped) × (mode W.opening self.now.seen self.now.shard.slot ≡ Mode.Retired)) }
    {
        self.contents.mode
    }

    /// One look, which the pass keeps. Answers how many entries the shard has.
    pub fn look(&mut self, pass: &mut ShardPass<W, J>) -> u64
        ensures seen { IsLater slot_of commit_of (MayFollow W.opening) (seat_view self.old) pass.old self.new.seen }
        ensures count { result ≡ length (entries_on self.old.shard.slot self.new.seen) }
        ensures shard { self.new.shard ≡ self.old.shard }
        ensures same { self.new ≡ record self.old { seen = self.new.seen } }
        ensures stands { IsOnItsSlot W.opening self.new.seen self.old.shard }
        ensures mode { mode W.opening self.new.seen self.old.shard.slot ≡ mode W.opening self.old.seen self.old.shard.slot }
        ensures pass { pass.new ≡ record pass.old { seen = self.new.seen; looks = pass.old.looks ++ (self.old.shard.slot, length self.new.seen) ∷ [] } }
    {
        self.seat.look(pass)
    }

    /// That by a pass that may only look.
    pub fn look_for(&mut self, pass: &mut LookingShardPass<W, J>) -> u64
        ensures seen { IsLater slot_of commit_of (MayFollow W.opening) (seat_view self.old) pass.old self.new.seen }
        ensures count { result ≡ length (entries_on self.old.shard.slot self.new.seen) }
        ensures shard { self.new.shard ≡ self.old.shard }
        ensures same { self.new ≡ record self.old { seen = self.new.seen } }
        ensures stands { IsOnItsSlot W.opening self.new.seen self.old.shard }
        ensures mode { mode W.opening self.new.seen self.old.shard.slot ≡ mode W.opening self.old.seen self.old.shard.slot }
        ensures pass { pass.new ≡ record pass.old { seen = self.new.seen; looks = pass.old.looks ++ (self.old.shard.slot, length self.new.seen) ∷ [] } }
    {
        self.seat.look_for(pass)
    }

    // Commits the write on a shard that takes it.
    fn commit_serving(
        &mut self,
        alloc: Global,
        pass: &mut ShardPass<W, J>,
        schema: &VSchema,
        write: Write,
    ) -> Result<u64, Refusal>
        requires serving { mode W.opening self.old.seen self.old.shard.slot ≡ Mode.Serving }
        requires schema { schema.now ≡ W.opening.schema }
        requires typed { IsTypedWrite W.opening.schema write }
        requires placed { IsPlaced W.opening.schema self.old.shard.place write }
        requires session { IsSome pass.old.session }
        requires above { (n : ℕ) → pass.old.session ≡ Some n → NumbersBelow commit_of n pass.old.statements pass.old.seen }
        ensures committed { IfOk result (λ count. HasCommitted W.opening W.limits self.old.shard pass.old write count pass.new) }
        ensures looked { OnErr result (HasLooked W.opening self.old.shard.slot pass.old pass.new) }
        ensures refused { IfErr result (IsCommitRefusal W.opening W.limits self.old.shard pass.new.seen write) }
        ensures seen { self.new.seen ≡ pass.new.seen }
        ensures later { IsPrefix self.old.seen self.new.seen }
        ensures entry { OnOk result ((e : Entry) × (entries_on self.old.shard.slot self.new.seen ≡ entries_on self.old.shard.slot self.old.seen ++ e ∷ [])) }
        ensures alone { OnErr result (entries_on self.old.shard.slot self.new.seen ≡ entries_on self.old.shard.slot self.old.seen) }
        ensures shard { self.new.shard ≡ self.old.shard }
        ensures same { self.new ≡ record self.old { seen = self.new.seen } }
        ensures stands { IsOnItsSlot W.opening self.new.seen self.old.shard }
    {
        let statement_id = StatementId {
            session: pass.session().unwrap(),
            number: pass.statements(),
        };
        let entries = self.seat.look(pass);
        let prepared = self
            .contents
            .prepare(alloc, entries, statement_id, schema, write)?;
        self.seat.append(pass, &prepared.entry);
        Ok(self.contents.take(prepared))
    }

    // Promise: A commit of a write on a serving shard is one look and exactly one entry, with the pass's session, the statement's number,
    // the write and its changes; its count is what the write gives over the one database before the entry, in the shard's place. If the
    // shard is frozen or doesn't serve, the write comes back after one look
    // Clauses: answered, seen, later, shard, stands
    // Promise: It is refused only for its cause at the look's run, and then nothing is appended: a primary key that is there (F12), a limit
    // of rows, stored entries or entries (F24), or memory
    // Clauses: refused, looked
    /// Commits one write of the pass's session, under the number of its statement, if the shard serves and isn't frozen: one look,
    /// which the pass keeps, and then one entry. Answers how many rows it added, removed or really changed; else the look was made, and
    /// the write comes back. It refuses a primary key that is there already, what would pass a limit of the shard, and for want of
    /// memory; then the look was made, and nothing else.
    pub fn commit(
        &mut self,
        alloc: Global,
        pass: &mut ShardPass<W, J>,
        schema: &VSchema,
        write: Write,
    ) -> Result<CommitOutcome, Refusal>
        requires schema { schema.now ≡ W.opening.schema }
        requires typed { IsTypedWrite W.opening.schema write }
        requires placed { IsPlaced W.opening.schema self.old.shard.place write }
        requires session { IsSome pass.old.session }
        requires above { (n : ℕ) → pass.old.session ≡ Some n → NumbersBelow commit_of n pass.old.statements pass.old.seen }
        ensures answered { IfOk result (λ c. HasAnswered W.opening W.limits self.old.shard pass.old write c pass.new) }
        ensures looked { OnErr result (HasLooked W.opening self.old.shard.slot pass.old pass.new) }
        ensures refused { IfErr result (IsCommitRefusal W.opening W.limits self.old.shard pass.new.seen write) }
        ensures serving { OnErr result (mode W.opening pass.new.seen self.old.shard.slot ≡ Mode.Serving) }
        ensures seen { self.new.seen ≡ pass.new.seen }
        ensures later { IsPrefix self.old.seen self.new.seen }
        ensures shard { self.new.shard ≡ self.old.shard }
        ensures same { self.new ≡ record self.old { seen = self.new.seen } }
        ensures stands { IsOnItsSlot W.opening self.new.seen self.old.shard }
    {
        match self.contents.mode {
            Mode::Serving => {
                let count = self.commit_serving(alloc, pass, schema, write)?;
                Ok(CommitOutcome::Count(count))
            }
            Mode::Frozen => {
                let _ = self.look(pass);
                Ok(CommitOutcome::Frozen(write))
            }
            _ => {
                let _ = self.look(pass);
                Ok(CommitOutcome::NotServing(write))
            }
        }
    }

    // Promise: A following step takes over the source's next entry as one entry, after a look. It is done only if the target had fewer than
    // 2^40 entries and fewer stored ones than it may; then it has no more rows than it may, if no two sources of it overlap. It is refused for
    // want of memory, or if it passes one of these limits (F24): for rows only if the target would have more than it may, with that
    // entry after the run. A refused one could have come next, and appended nothing
    /// Takes over what the source's next stored entry changes in its place: one look, which the pass keeps, and then one entry. Refuses for
    /// want of memory, and what would pass a limit of the shard; then the look was made, and nothing else.
    pub fn follow(
        &mut self,
        alloc: Global,
        pass: &mut ShardPass<W, J>,
        taken: Follow,
    ) -> Result<(), Refusal>
        requires following { mode W.opening self.old.seen self.old.shard.slot ≡ Mode.Following }
        requires next { IsNext W.opening pass.old.seen self.old taken }
        ensures followed { OnOk result ((looked : PassView Entry) × HasLooked W.opening self.old.shard.slot pass.old looked
            × HasAppended W.opening (record self.old { seen = looked.seen }) (Event.Follow taken) looked pass.new) }
        ensures room { OnOk result ((length (entries_on self.old.shard.slot self.old.seen) < 2 ^ 40) × (length (stored_on self.old.shard.slot self.old.seen) < W.limits.stored)) }
        ensures rows { OnOk result (SourcesApart W.opening pass.new.seen self.old.shard → row_count (shard_rows W.opening pass.new.seen self.old.shard) ≤ W.limits.rows) }
        ensures looked { OnErr result (HasLooked W.opening self.old.shard.slot pass.old pass.new) }
        ensures may { OnErr result (MayFollow W.opening pass.new.seen (record { shard = self.old.shard; event = Event.Follow taken })) }
        ensures err { IfErr result (λ e. (e ≡ Refusal.OutOfMemory) ⊎ ((e ≡ Refusal.ShardFull) × PassesLimit W.opening W.limits pass.new.seen self.old.shard (Event.Follow taken))) }
        ensures seen { self.new.seen ≡ pass.new.seen }
        ensures shard { self.new.shard ≡ self.old.shard }
        ensures same { self.new ≡ record self.old { seen = self.new.seen } }
    {
        // a target gives no rows, so it keeps no table in order
        self.sorted.clear();
        let entries = self.seat.look(pass);
        let changes = taken.changes.as_slice();
        if !self.contents.has_room_for(entries, changes) {
            return Err(Refusal::ShardFull);
        }
        let came = TargetStep::Followed {
            source: taken.source,
            log_position: taken.log_position,
        };
        let step = self.contents.prepare_follow(alloc, taken)?;
        self.seat.append(pass, &step.entry);
        self.contents.take_step(step, came);
        Ok(())
    }
}
