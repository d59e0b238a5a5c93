//! The steps that change a shard's mode, each under its lock, once it is in the mode that the controller left it in.
ghost use Rattle.std.specs.Prelude.{◌≡◌, ◌≤◌, ◌^◌, ◌∷◌, [], true, false, IsTrue, IfOk, IfErr, OnOk, OnErr, length, map};
ghost use Rattle.journal.specs.Runs.{IsLegal};
ghost use Rattle.shard_run.specs.declared.Event.{Event};
ghost use Rattle.shard_run.specs.Runs.{mode, stored_on, entries_on, shard_rows};
ghost use Rattle.shard_run.specs.Openings.{IsOpening, row_count};
ghost use Rattle.shard_contents.specs.Entries.{MayFollow};
ghost use Rattle.follow.specs.Steps.{IsOnward, HasStepped};
ghost use Rattle.follow.specs.Turns.{HasLookedAt};
ghost use Rattle.reshard_cutover.specs.Looks.{HasLookedForOneChange};
ghost use Rattle.reshard_cutover.specs.Steps.{has_source, AreRetired, IsTargetOf, FitTargets};
ghost use Rattle.reshard_cutover.specs.inner.Steps.{IsUpTo, AreFollowed};

use follow::{MOST_ENTRIES, Shard, ShardPass, ShardState, WorkflowShard, World, follows};
use journal::Naming;
use shard_contents::VSchema;
use shard_run::Mode;
use std::sync::Wait;
use vt_value::{Items, Refusal};

/// A source of a workflow, and how many entries it had stored when it was looked at, frozen.
#[derive(Drop)]
pub struct SourceShard<W: World, J: Naming> {
    pub member: WorkflowShard<W, J>,
    pub stored: u64,
}

/// Whether the shard serves and isn't frozen.
pub fn serves<W: World, J: Naming>(state: &ShardState<W, J>) -> bool
    ensures yes { result ≡ true → mode W.opening state.now.seen state.now.shard.slot ≡ Mode.Serving }
    ensures no { result ≡ false → mode W.opening state.now.seen state.now.shard.slot ≡ Mode.Serving → ⊥ }
{
    match state.mode() {
        Mode::Serving => true,
        _ => false,
    }
}

// Promise: A step of a cutover is exactly one entry of its shard, made after a look under its lock: a freeze (refused only at 2^40
// entries), a thaw, a retirement for targets that together hold the shard's place, when it has stored just so many entries, and a target
// that serves once its sources, of which there may be several, are retired for it and it has copied all tables and followed all that they
// stored. A freeze, a retirement, and a target that serves each look at their shard three times, and nowhere else: so the pass changes no other's mode,
// and that one's once
// With: thaw, retire, serve
/// Freezes the shard, and answers how many entries it has stored. Refuses if it has too many entries; then nothing was appended. Takes no
/// memory.
pub fn freeze<W: World, J: Naming>(
    rt: &impl Wait,
    shard: &Shard<W, J>,
    which: &shard_run::ShardRecord,
    pass: &mut ShardPass<W, J>,
) -> Result<u64, Refusal>
    requires legal { IsLegal (MayFollow W.opening) pass.old.seen }
    ensures ok { OnOk result (HasStepped W.opening which.now Event.Freeze pass.old pass.new) }
    ensures stored { IfOk result (λ stored. stored ≡ length (stored_on which.now.slot pass.new.seen)) }
    ensures once { OnOk result (HasLookedForOneChange which.now.slot pass.old pass.new) }
    ensures full { IfErr result (λ e. (e ≡ Refusal.ShardFull) × (2 ^ 40 ≤ length (entries_on which.now.slot pass.new.seen))) }
    ensures refused { OnErr result (HasLookedAt (which.now.slot ∷ []) pass.old pass.new) }
    ensures onward { OnErr result (IsOnward W.opening pass.old pass.new) }
{
    let mut state = shard
        .state()
        .lock_when(rt, |state| state.is(which) && serves(state));
    let entries = state.look(pass);
    if entries >= MOST_ENTRIES {
        return Err(Refusal::ShardFull);
    }
    let stored = state.stored();
    state.freeze(pass);
    Ok(stored)
}

fn is_frozen<W: World, J: Naming>(state: &ShardState<W, J>) -> bool
    ensures { result ≡ true → mode W.opening state.now.seen state.now.shard.slot ≡ Mode.Frozen }
{
    state.mode() == Mode::Frozen
}

/// Thaws the shard. Takes no memory.
pub fn thaw<W: World, J: Naming>(
    rt: &impl Wait,
    shard: &Shard<W, J>,
    which: &shard_run::ShardRecord,
    pass: &mut ShardPass<W, J>,
)
    requires legal { IsLegal (MayFollow W.opening) pass.old.seen }
    ensures { HasStepped W.opening which.now Event.Thaw pass.old pass.new }
{
    let mut state = shard
        .state()
        .lock_when(rt, |state| state.is(which) && is_frozen(state));
    let _ = state.look(pass);
    state.thaw(pass);
}

// Whether the shard is frozen, and has stored so many entries.
fn is_frozen_after<W: World, J: Naming>(state: &ShardState<W, J>, stored: u64) -> bool
    ensures frozen { result ≡ true → mode W.opening state.now.seen state.now.shard.slot ≡ Mode.Frozen }
    ensures stored { result ≡ true → stored ≡ length (stored_on state.now.shard.slot state.now.seen) }
{
    is_frozen(state) && state.stored() == stored
}

/// Retires the shard, which has stored so many entries, for its targets, whose list was made before. Takes no memory.
pub fn retire<W: World, J: Naming>(
    rt: &impl Wait,
    shard: &Shard<W, J>,
    which: &shard_run::ShardRecord,
    pass: &mut ShardPass<W, J>,
    targets: Items<shard_run::ShardRecord>,
    stored: u64,
)
    requires legal { IsLegal (MayFollow W.opening) pass.old.seen }
    requires fit { FitTargets which.now targets }
    ensures retired { HasStepped W.opening which.now (Event.Retire targets) pass.old pass.new }
    ensures stored { stored ≡ length (stored_on which.now.slot pass.new.seen) }
    ensures once { HasLookedForOneChange which.now.slot pass.old pass.new }
{
    let mut state = shard.state().lock_when(rt, |state| {
        state.is(which) && is_frozen_after(state, stored)
    });
    let _ = state.look(pass);
    state.retire(pass, targets);
}

// Whether the target has copied each table of its keyspace from the source, and stands after all that it has stored.
fn is_up_to<W: World, J: Naming>(
    state: &ShardState<W, J>,
    schema: &VSchema,
    source: &SourceShard<W, J>,
) -> bool
    requires schema { schema.now ≡ W.opening.schema }
    requires lives { mode W.opening state.now.seen state.now.shard.slot ≡ Mode.Retired → ⊥ }
    ensures { result ≡ true → IsUpTo W.opening state.now.seen state.now.shard (source.now.member.which, source.now.stored) }
{
    let slot = source.member.which.slot;
    if state.next_table(schema, slot).is_some() {
        return false;
    }
    match state.position_in(slot) {
        Some(stands_after) => stands_after == u128::from(source.stored),
        None => true,
    }
}

/// Whether the target takes from the shard on this slot.
pub fn is_source_of(target: &shard_run::ShardRecord, slot: usize) -> bool
    ensures { result ≡ has_source slot target.now }
{
    target.sources.as_slice().contains(&slot)
}

// Whether the source is none of the target's, or the target is level with it.
fn is_done_with<W: World, J: Naming>(
    state: &ShardState<W, J>,
    schema: &VSchema,
    source: &SourceShard<W, J>,
) -> bool
    requires schema { schema.now ≡ W.opening.schema }
    requires lives { mode W.opening state.now.seen state.now.shard.slot ≡ Mode.Retired → ⊥ }
    ensures { result ≡ true → IsTrue (has_source source.now.member.which.slot state.now.shard)
        → IsUpTo W.opening state.now.seen state.now.shard (source.now.member.which, source.now.stored) }
{
    let slot = source.member.which.slot;
    if is_source_of(state.shard(), slot) {
        is_up_to(state, schema, source)
    } else {
        true
    }
}

// Whether the target is level with those of these sources that are its own.
fn is_level<W: World, J: Naming>(
    state: &ShardState<W, J>,
    schema: &VSchema,
    sources: &[SourceShard<W, J>],
) -> bool
    requires schema { schema.now ≡ W.opening.schema }
    requires lives { mode W.opening state.now.seen state.now.shard.slot ≡ Mode.Retired → ⊥ }
    ensures { result ≡ true → AreFollowed W.opening state.now.seen state.now.shard (map (λ s. (s.member.which, s.stored)) sources.now) }
{
    for source in sources {
        if !is_done_with(state, schema, source) {
            return false;
        }
    }
    true
}

// Whether it is the target, which follows, is level with its sources, and has no more rows than a shard that serves may have.
fn may_serve<W: World, J: Naming>(
    state: &ShardState<W, J>,
    target: &shard_run::ShardRecord,
    schema: &VSchema,
    sources: &[SourceShard<W, J>],
) -> bool
    requires schema { schema.now ≡ W.opening.schema }
    ensures is { result ≡ true → state.now.shard ≡ target.now }
    ensures follows { result ≡ true → mode W.opening state.now.seen state.now.shard.slot ≡ Mode.Following }
    ensures level { result ≡ true → AreFollowed W.opening state.now.seen state.now.shard (map (λ s. (s.member.which, s.stored)) sources.now) }
    ensures few { result ≡ true → row_count (shard_rows W.opening state.now.seen state.now.shard) ≤ W.limits.rows }
{
    state.is(target) && follows(state) && is_level(state, schema, sources) && state.fits()
}

/// Serves a target that has copied and followed all that its sources have stored, and has no more rows than a shard that serves may have,
/// once its sources are retired for it. Takes no memory.
pub fn serve<W: World, J: Naming>(
    rt: &impl Wait,
    target: &WorkflowShard<W, J>,
    pass: &mut ShardPass<W, J>,
    schema: &VSchema,
    sources: &[SourceShard<W, J>],
)
    requires opens { IsOpening W.opening }
    requires schema { schema.now ≡ W.opening.schema }
    requires legal { IsLegal (MayFollow W.opening) pass.old.seen }
    requires of_sources { IsTargetOf (map (λ s. s.member.which) sources.now) target.now.which }
    requires retired { AreRetired pass.old.seen target.now.which (map (λ s. (s.member.which, s.stored)) sources.now) }
    ensures served { HasStepped W.opening target.now.which Event.Serve pass.old pass.new }
    ensures once { HasLookedForOneChange target.now.which.slot pass.old pass.new }
{
    let which = &target.which;
    let mut state = target
        .shard
        .state()
        .lock_when(rt, |state| may_serve(state, which, schema, sources));
    let _ = state.look(pass);
    state.serve(pass);
}
