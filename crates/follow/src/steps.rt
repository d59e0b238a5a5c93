//! One step: a look at the target, then one at the source, then, if something is left, an entry of the target. The target's lock is held for
//! the whole step, and the source's for the look at it, so that the target is as it was when the entry comes. Locks are taken in this order
//! alone, target before source, and a target never is a source of its own sources, so no two steps wait for each other. A table that the source
//! stores in another order than that of its primary key is put in order before the look at the source, some rows at a time.
ghost use Rattle.std.specs.Prelude.{◌≡◌, ◌⊎◌, ◌<◌, ◌≤◌, ◌^◌, true, Some, IsTrue, IfOk, IfErr, IfSome, OnOk, OnErr, MatchOption, Contains, map};
ghost use Rattle.std.specs.List.{AllByRecursion};
ghost use Rattle.shard.specs.WellFormed.{is_vschema};
ghost use Rattle.journal.specs.Runs.{IsLegal};
ghost use Rattle.shard_run.specs.declared.Entry.{Entry};
ghost use Rattle.shard_run.specs.declared.Follow as follow;
ghost use Rattle.shard_run.specs.Runs.{mode, answers_queries, shard_rows};
ghost use Rattle.shard_run.specs.Openings.{IsOpening, row_count};
ghost use Rattle.shard.specs.Law.{SourcesApart};
ghost use Rattle.shard.specs.Entries.{MayFollow};
ghost use Rattle.shard.specs.Copying.{IsEntryFor, IsNextCopy};
ghost use Rattle.follow.specs.Steps.{IsOnward, HasMoved, HasMovedWith, IsFull};
ghost use Rattle.follow.specs.Turns.{IsOneStep, IsOneStepWith, IsNoStep, IsNoStepWith};
ghost use Rattle.follow.specs.inner.NextEntries.{IsNextForTarget, IsOneLook, NoneLeft, IsNextEntry, IsTakeable, HasTaken};

use crate::modes::{answers, follows};
use crate::workflow_shard::WorkflowShard;
use journal::Naming;
use shard::{Place, ShardPass, ShardState, VSchema, World};
use shard_run::{Copied, Follow, Mode};
use std::alloc::{AllocError, Global};
use std::sync::Wait;
use vt_value::Refusal;

// How often a source has some more rows put in order before a step: enough for a table of 2^20 rows, and as many entries meanwhile.
const MOST_GOES: usize = 1 << 15;

/// What a target did.
#[derive(Clone, Copy, Debug, PartialEq, Eq)]
pub enum Step {
    /// It copied rows.
    Copied,
    /// It took over what an entry of the source changes.
    Followed,
    /// Nothing: it was level with the source.
    Level,
}

// What a source has for a target.
#[derive(Drop)]
enum NextEntry {
    Entry(Follow),
    Rows(Copied),
    Nothing,
}

// The entry that is next for a target, if one is left.
fn next_entry<W: World, J: Naming>(
    state: &ShardState<W, J>,
    alloc: Global,
    schema: &VSchema,
    place: &Place,
    stands_after: Option<u128>,
) -> Result<Option<Follow>, AllocError>
    requires schema { schema.now ≡ W.opening.schema }
    requires serves { answers_queries (mode W.opening state.now.seen state.now.shard.slot) ≡ true }
    requires legal { IsLegal (MayFollow W.opening) state.now.seen }
    ensures entry { IfOk result (λ r. MatchOption r (NoneLeft state.now.seen state.now.shard.slot stands_after)
        (λ f. (stands_after ≡ Some f.log_position) × IsEntryFor W.opening state.now.seen state.now.shard.slot place.now f)) }
{
    let Some(stands_after) = stands_after else {
        return Ok(None);
    };
    if stands_after >= u128::from(state.stored()) {
        return Ok(None);
    }
    state.entry_for(alloc, schema, place, stands_after as u64)
}

// What a source that serves has for a target that follows. How far the target has copied it is asked only once no entry is left.
fn next_for<W: World, J: Naming>(
    state: &mut ShardState<W, J>,
    alloc: Global,
    schema: &VSchema,
    target: &ShardState<W, J>,
) -> Result<NextEntry, AllocError>
    requires schema { schema.now ≡ W.opening.schema }
    requires formed { IsTrue (is_vschema W.opening.schema) }
    requires serves { answers_queries (mode W.opening state.old.seen state.old.shard.slot) ≡ true }
    requires legal { IsLegal (MayFollow W.opening) state.old.seen }
    requires follows { mode W.opening target.now.seen target.now.shard.slot ≡ Mode.Following }
    requires came { IsLegal (MayFollow W.opening) target.now.seen }
    ensures given { IfOk result (IsNextForTarget W.opening state.old.seen state.old.shard target.now) }
{
    let source = state.slot();
    let place = &target.shard().place;
    if let Some(entry) = next_entry(state, alloc, schema, place, target.position_in(source))? {
        return Ok(NextEntry::Entry(entry));
    }
    let progress = target.progress(alloc, schema, source)?;
    match &progress.next {
        Some(next) => {
            let rows = state.rows_to_copy(alloc, schema, place, next)?;
            Ok(NextEntry::Rows(rows))
        }
        None => Ok(NextEntry::Nothing),
    }
}

// Whether the source has an entry left for a target that stands after so many.
fn has_entry<W: World, J: Naming>(state: &ShardState<W, J>, stands_after: Option<u128>) -> bool
    requires lives { mode W.opening state.now.seen state.now.shard.slot ≡ Mode.Retired → ⊥ }
{
    match stands_after {
        Some(stands_after) => stands_after < u128::from(state.stored()),
        None => false,
    }
}

// Has a source that serves put some more rows in order of the table that the target copies next, unless an entry is left. Answers whether more
// are left.
fn sort_for<W: World, J: Naming>(
    state: &mut ShardState<W, J>,
    alloc: Global,
    schema: &VSchema,
    target: &ShardState<W, J>,
) -> Result<bool, AllocError>
    requires schema { schema.now ≡ W.opening.schema }
    requires serves { answers_queries (mode W.opening state.old.seen state.old.shard.slot) ≡ true }
    requires follows { mode W.opening target.now.seen target.now.shard.slot ≡ Mode.Following }
{
    let source = state.slot();
    if has_entry(state, target.position_in(source)) {
        return Ok(false);
    }
    match target.next_table(schema, source) {
        Some(table) => state.sort_some(alloc, schema, table),
        None => Ok(false),
    }
}

// That under the source's lock. It is no look: the pass learns nothing of it. A table that is done is dropped once the lock is free.
fn sort_next<W: World, J: Naming>(
    rt: &impl Wait,
    alloc: Global,
    schema: &VSchema,
    source: &WorkflowShard<W, J>,
    target: &ShardState<W, J>,
) -> Result<bool, AllocError>
    requires schema { schema.now ≡ W.opening.schema }
    requires follows { mode W.opening target.now.seen target.now.shard.slot ≡ Mode.Following }
{
    let mut state = source
        .shard
        .state()
        .lock_when(rt, |state| state.is(&source.which) && answers(state));
    let done = state.take_done();
    let more = sort_for(&mut state, alloc, schema, target);
    drop(state);
    drop(done);
    more
}

// Has the source put the rows in order that the target copies next. Between two goes its lock is free, so that who asks the source meanwhile
// waits for a go at most, or for the two that it takes to be let in first. The goes are bounded, for a source whose entries come faster than
// they are taken into the order: what is left then the step does.
fn sort_ahead<W: World, J: Naming>(
    rt: &impl Wait,
    alloc: Global,
    schema: &VSchema,
    source: &WorkflowShard<W, J>,
    target: &ShardState<W, J>,
) -> Result<(), AllocError>
    requires schema { schema.now ≡ W.opening.schema }
    requires follows { mode W.opening target.now.seen target.now.shard.slot ≡ Mode.Following }
{
    for _ in 0..MOST_GOES {
        if !sort_next(rt, alloc, schema, source, target)? {
            return Ok(());
        }
    }
    Ok(())
}

// What the source gives at a look under its lock, once it serves.
fn next_from<W: World, J: Naming>(
    rt: &impl Wait,
    alloc: Global,
    pass: &mut ShardPass<W, J>,
    schema: &VSchema,
    source: &WorkflowShard<W, J>,
    target: &ShardState<W, J>,
) -> Result<NextEntry, AllocError>
    requires schema { schema.now ≡ W.opening.schema }
    requires formed { IsTrue (is_vschema W.opening.schema) }
    requires legal { IsLegal (MayFollow W.opening) pass.old.seen }
    requires follows { mode W.opening target.now.seen target.now.shard.slot ≡ Mode.Following }
    requires came { IsLegal (MayFollow W.opening) target.now.seen }
    ensures given { IfOk result (IsNextForTarget W.opening pass.new.seen source.now.which target.now) }
    ensures looked { IsOneLook source.now.which.slot pass.old pass.new }
    ensures onward { IsOnward W.opening pass.old pass.new }
{
    let mut state = source
        .shard
        .state()
        .lock_when(rt, |state| state.is(&source.which) && answers(state));
    let _ = state.look(pass);
    next_for(&mut state, alloc, schema, target)
}

// Follows the entry that is next for the target.
fn follow_entry<W: World, J: Naming>(
    state: &mut ShardState<W, J>,
    alloc: Global,
    pass: &mut ShardPass<W, J>,
    schema: &VSchema,
    entry: &Follow,
) -> Result<(), Refusal>
    requires schema { schema.now ≡ W.opening.schema }
    requires following { mode W.opening state.old.seen state.old.shard.slot ≡ Mode.Following }
    requires mine { IsLegal (MayFollow W.opening) state.old.seen }
    requires legal { IsLegal (MayFollow W.opening) pass.old.seen }
    requires next { IsNextEntry W.opening pass.old.seen state.old entry.now }
    ensures taken { OnOk result (HasTaken W.opening state.old.shard (NextEntry.Entry entry.now) pass.old pass.new Step.Followed) }
    ensures within { OnOk result (SourcesApart W.opening pass.new.seen state.old.shard → row_count (shard_rows W.opening pass.new.seen state.old.shard) ≤ W.limits.rows) }
    ensures refused { OnErr result ((pass.new ≡ pass.old) ⊎ IsOneLook state.old.shard.slot pass.old pass.new) }
    ensures onward { IsOnward W.opening pass.old pass.new }
    ensures err { IfErr result (λ e. (e ≡ Refusal.OutOfMemory) ⊎ ((e ≡ Refusal.ShardFull) × IsFull W.opening W.limits state.old.shard pass.new.seen)) }
{
    let taken = state.copied_changes(alloc, schema, entry)?;
    state.follow(alloc, pass, taken)
}

// Copies the rows that are next for the target.
fn copy_rows<W: World, J: Naming>(
    state: &mut ShardState<W, J>,
    alloc: Global,
    pass: &mut ShardPass<W, J>,
    rows: Copied,
) -> Result<(), Refusal>
    requires following { mode W.opening state.old.seen state.old.shard.slot ≡ Mode.Following }
    requires legal { IsLegal (MayFollow W.opening) pass.old.seen }
    requires next { IsNextCopy W.opening pass.old.seen state.old rows }
    ensures taken { OnOk result (HasTaken W.opening state.old.shard (NextEntry.Rows rows) pass.old pass.new Step.Copied) }
    ensures within { OnOk result (row_count (shard_rows W.opening pass.new.seen state.old.shard) ≤ W.limits.rows) }
    ensures refused { OnErr result ((pass.new ≡ pass.old) ⊎ IsOneLook state.old.shard.slot pass.old pass.new) }
    ensures onward { IsOnward W.opening pass.old pass.new }
    ensures err { IfErr result (λ e. (e ≡ Refusal.OutOfMemory) ⊎ ((e ≡ Refusal.ShardFull) × IsFull W.opening W.limits state.old.shard pass.new.seen)) }
{
    state.copy(alloc, pass, rows)
}

// Takes over what the source has for the target.
fn take<W: World, J: Naming>(
    state: &mut ShardState<W, J>,
    alloc: Global,
    pass: &mut ShardPass<W, J>,
    schema: &VSchema,
    given: NextEntry,
) -> Result<Step, Refusal>
    requires schema { schema.now ≡ W.opening.schema }
    requires following { mode W.opening state.old.seen state.old.shard.slot ≡ Mode.Following }
    requires mine { IsLegal (MayFollow W.opening) state.old.seen }
    requires legal { IsLegal (MayFollow W.opening) pass.old.seen }
    requires given { IsTakeable W.opening pass.old.seen state.old given }
    ensures taken { IfOk result (HasTaken W.opening state.old.shard given pass.old pass.new) }
    ensures copied_within { IfOk result (λ step. step ≡ Step.Copied → row_count (shard_rows W.opening pass.new.seen state.old.shard) ≤ W.limits.rows) }
    ensures followed_within { IfOk result (λ step. step ≡ Step.Followed → SourcesApart W.opening pass.new.seen state.old.shard → row_count (shard_rows W.opening pass.new.seen state.old.shard) ≤ W.limits.rows) }
    ensures refused { OnErr result ((pass.new ≡ pass.old) ⊎ IsOneLook state.old.shard.slot pass.old pass.new) }
    ensures onward { IsOnward W.opening pass.old pass.new }
    ensures err { IfErr result (λ e. (e ≡ Refusal.OutOfMemory) ⊎ ((e ≡ Refusal.ShardFull) × IsFull W.opening W.limits state.old.shard pass.new.seen)) }
{
    match given {
        NextEntry::Entry(entry) => {
            follow_entry(state, alloc, pass, schema, &entry)?;
            Ok(Step::Followed)
        }
        NextEntry::Rows(rows) => {
            copy_rows(state, alloc, pass, rows)?;
            Ok(Step::Copied)
        }
        NextEntry::Nothing => Ok(Step::Level),
    }
}

// One step of a target that follows, whose lock is held until its end, so that nothing comes to it meanwhile.
fn come_forward<W: World, J: Naming>(
    rt: &impl Wait,
    alloc: Global,
    pass: &mut ShardPass<W, J>,
    schema: &VSchema,
    source: &WorkflowShard<W, J>,
    state: &mut ShardState<W, J>,
) -> Result<Step, Refusal>
    requires opens { IsOpening W.opening }
    requires schema { schema.now ≡ W.opening.schema }
    requires formed { IsTrue (is_vschema W.opening.schema) }
    requires following { mode W.opening state.old.seen state.old.shard.slot ≡ Mode.Following }
    requires of_source { Contains state.old.shard.sources source.now.which.slot }
    requires legal { IsLegal (MayFollow W.opening) pass.old.seen }
    ensures moved { IfOk result (HasMoved W.opening source.now.which state.old.shard pass.old pass.new) }
    ensures once { IfOk result (IsOneStep source.now.which state.old.shard pass.old pass.new) }
    ensures copied_within { IfOk result (λ step. step ≡ Step.Copied → row_count (shard_rows W.opening pass.new.seen state.old.shard) ≤ W.limits.rows) }
    ensures followed_within { IfOk result (λ step. step ≡ Step.Followed → SourcesApart W.opening pass.new.seen state.old.shard → row_count (shard_rows W.opening pass.new.seen state.old.shard) ≤ W.limits.rows) }
    ensures nothing { OnErr result (IsNoStep source.now.which state.old.shard pass.old pass.new) }
    ensures onward { IsOnward W.opening pass.old pass.new }
    ensures err { IfErr result (λ e. (e ≡ Refusal.OutOfMemory) ⊎ ((e ≡ Refusal.ShardFull) × IsFull W.opening W.limits state.old.shard pass.new.seen)) }
{
    let _ = state.look(pass);
    sort_ahead(rt, alloc, schema, source, state)?;
    let given = next_from(rt, alloc, pass, schema, source, state)?;
    take(state, alloc, pass, schema, given)
}

// Promise: A step of a target with one of its sources, or with the first of several that it isn't level with, appends exactly one entry, a
// Copy after all that the source had stored at a look of the step, or a Follow; or none, and then the target was level with what the
// source had stored at a look. Its pass looks once at the target and once at the source, once more at the target right before the entry, and
// nowhere else. Each Copy and each Follow makes a look at the target right before it, and takes what a look at the source showed, so there is no
// second one. A freeze, a thaw, a retirement and a target that serves make two looks at their shard in a row, so the pass has none of them.
// Without an entry nothing was appended after the last look. After a Copy the target has no more rows than it may, and after a Follow too, if
// no two sources of it overlap
// With: bring_forward_with
// Clauses: moved, once, copied_within, followed_within, onward
// Promise: It is refused for want of memory, or if a Copy or a Follow that may come next passes a limit of the target (F24): it has 2^40
// entries, it stores as many as it may, which counts for a Follow alone, or with the step it would have more rows than it may. The looks of
// its pass are then the first of those of a step with an entry, and nothing was appended after the last
// With: bring_forward_with
// Clauses: err, nothing
/// Brings a target forward with a source of it: it takes over the entry that is next, if one is left, else it copies the next rows, at
/// most 100 of them, else it is level. At most one entry is appended. Refuses for want of memory, and what would pass a limit of the target;
/// then nothing was appended.
pub fn bring_forward<W: World, J: Naming>(
    rt: &impl Wait,
    alloc: Global,
    pass: &mut ShardPass<W, J>,
    schema: &VSchema,
    source: &WorkflowShard<W, J>,
    target: &WorkflowShard<W, J>,
) -> Result<Step, Refusal>
    requires opens { IsOpening W.opening }
    requires schema { schema.now ≡ W.opening.schema }
    requires formed { IsTrue (is_vschema W.opening.schema) }
    requires of_source { Contains target.now.which.sources source.now.which.slot }
    requires legal { IsLegal (MayFollow W.opening) pass.old.seen }
    ensures moved { IfOk result (HasMoved W.opening source.now.which target.now.which pass.old pass.new) }
    ensures once { IfOk result (IsOneStep source.now.which target.now.which pass.old pass.new) }
    ensures copied_within { IfOk result (λ step. step ≡ Step.Copied → row_count (shard_rows W.opening pass.new.seen target.now.which) ≤ W.limits.rows) }
    ensures followed_within { IfOk result (λ step. step ≡ Step.Followed → SourcesApart W.opening pass.new.seen target.now.which → row_count (shard_rows W.opening pass.new.seen target.now.which) ≤ W.limits.rows) }
    ensures nothing { OnErr result (IsNoStep source.now.which target.now.which pass.old pass.new) }
    ensures onward { IsOnward W.opening pass.old pass.new }
    ensures err { IfErr result (λ e. (e ≡ Refusal.OutOfMemory) ⊎ ((e ≡ Refusal.ShardFull) × IsFull W.opening W.limits target.now.which pass.new.seen)) }
{
    let mut state = target
        .shard
        .state()
        .lock_when(rt, |state| state.is(&target.which) && follows(state));
    come_forward(rt, alloc, pass, schema, source, &mut state)
}

/// Brings a target forward with the first of these sources of it, in their order, that it isn't level with. Refuses as `bring_forward` does.
pub fn bring_forward_with<W: World, J: Naming>(
    rt: &impl Wait,
    alloc: Global,
    pass: &mut ShardPass<W, J>,
    schema: &VSchema,
    sources: &[WorkflowShard<W, J>],
    target: &WorkflowShard<W, J>,
) -> Result<Step, Refusal>
    requires opens { IsOpening W.opening }
    requires schema { schema.now ≡ W.opening.schema }
    requires formed { IsTrue (is_vschema W.opening.schema) }
    requires of_source { AllByRecursion (λ s. Contains target.now.which.sources s.which.slot) sources.now }
    requires legal { IsLegal (MayFollow W.opening) pass.old.seen }
    ensures moved { IfOk result (HasMovedWith W.opening (map (λ s. s.which) sources.now) target.now.which pass.old pass.new) }
    ensures once { IfOk result (IsOneStepWith (map (λ s. s.which) sources.now) target.now.which pass.old pass.new) }
    ensures copied_within { IfOk result (λ step. step ≡ Step.Copied → row_count (shard_rows W.opening pass.new.seen target.now.which) ≤ W.limits.rows) }
    ensures followed_within { IfOk result (λ step. step ≡ Step.Followed → SourcesApart W.opening pass.new.seen target.now.which → row_count (shard_rows W.opening pass.new.seen target.now.which) ≤ W.limits.rows) }
    ensures nothing { OnErr result (IsNoStepWith (map (λ s. s.which) sources.now) target.now.which pass.old pass.new) }
    ensures onward { IsOnward W.opening pass.old pass.new }
    ensures err { IfErr result (λ e. (e ≡ Refusal.OutOfMemory) ⊎ ((e ≡ Refusal.ShardFull) × IsFull W.opening W.limits target.now.which pass.new.seen)) }
{
    for source in sources {
        let step = bring_forward(rt, alloc, pass, schema, source, target)?;
        if step != Step::Level {
            return Ok(step);
        }
    }
    Ok(Step::Level)
}
