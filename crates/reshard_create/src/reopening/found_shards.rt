//! The shards of a workflow that stopped, each looked at once under its lock.
ghost use Rattle.shard_run.specs.declared.ShardRecord as which;
ghost use Rattle.std.specs.Prelude.{◌≡◌, ◌∷◌, [], IfOk, OnOk, map};
ghost use Rattle.journal.specs.Runs.{IsLegal};
ghost use Rattle.shard_run.specs.Runs.{mode};
ghost use Rattle.shard_law.specs.Entries.{MayFollow};
ghost use Rattle.reshard_cutover.specs.FollowSteps.{IsOnward};
ghost use Rattle.shard.specs.Seats.{seat_of, place_at};
ghost use Rattle.reshard_create.specs.reopening.Rebuilt.{IsFound, AreFound};
ghost use Rattle.reshard_create.specs.Looked.{slots_of, HasLookedAlong};
ghost use Rattle.reshard_cutover.specs.Turns.{HasLookedAt};
ghost use Rattle.reshard_create.specs.reopening.inner.Snapshots.{IsSnapshot};

use journal::Naming;
use reshard_cutover::WorkflowShard;
use serving::ShardReference;
use shard::{Place, Shard, ShardPass, ShardState, World, copy_shard};
use shard_run::Mode;
use std::alloc::{AllocError, Global};
use std::sync::{Arc, Wait};
use vt_value::Items;

/// A shard, its mode in the run, the targets that it named, if it is retired, how many entries it has stored, if it is frozen, and whether
/// its rows are gone, or its workflow was given up.
#[derive(Drop)]
pub(crate) struct FoundShard<W: World, J: Naming> {
    pub(crate) member: WorkflowShard<W, J>,
    pub(crate) mode: Mode,
    pub(crate) named: Items<shard_run::ShardRecord>,
    pub(crate) stored: u64,
    pub(crate) dropped: bool,
    pub(crate) given_up: bool,
}

// What one look at a shard shows of it.
#[derive(Drop)]
struct ShardSnapshot {
    which: shard_run::ShardRecord,
    mode: Mode,
    named: Items<shard_run::ShardRecord>,
    stored: u64,
    dropped: bool,
    given_up: bool,
}

// The mode by the run, which doesn't know whether rows are gone.
fn mode_of<W: World, J: Naming>(state: &ShardState<W, J>) -> Mode
    ensures { result ≡ mode W.opening state.now.seen state.now.shard.slot }
{
    match state.mode() {
        Mode::Dropped => Mode::Retired,
        other => other,
    }
}

fn is_dropped<W: World, J: Naming>(state: &ShardState<W, J>) -> bool {
    state.mode() == Mode::Dropped
}

// How many entries it has stored, if it is frozen.
fn stored_of<W: World, J: Naming>(state: &ShardState<W, J>) -> u64 {
    if state.mode() == Mode::Frozen {
        state.stored()
    } else {
        0
    }
}

// Copies of these shards.
fn copy_shards(
    alloc: Global,
    shards: &[shard_run::ShardRecord],
) -> Result<Items<shard_run::ShardRecord>, AllocError>
    ensures ok { IfOk result (λ copies. copies ≡ shards.now) }
{
    let mut copies = Items::new(alloc);
    for shard in shards {
        copies.push(copy_shard(alloc, shard)?)?;
    }
    Ok(copies)
}

// One look at the shard.
fn look_at<W: World, J: Naming>(
    state: &mut ShardState<W, J>,
    alloc: Global,
    pass: &mut ShardPass<W, J>,
) -> Result<ShardSnapshot, AllocError>
    requires legal { IsLegal (MayFollow W.opening) pass.old.seen }
    ensures seen { IfOk result (λ g. IsSnapshot W.opening pass.new.seen state.old.shard.slot state.old.shard.place g.which g.mode g.named) }
    ensures looked { HasLookedAt (state.old.shard.slot ∷ []) pass.old pass.new }
    ensures onward { IsOnward W.opening pass.old pass.new }
{
    let _ = state.look(pass);
    let which = copy_shard(alloc, state.shard())?;
    let named = copy_shards(alloc, state.named())?;
    Ok(ShardSnapshot {
        which,
        mode: mode_of(state),
        named,
        stored: stored_of(state),
        dropped: is_dropped(state),
        given_up: state.is_given_up(),
    })
}

// Looks at the shard of a part under its lock.
fn look_locked<W: World, J: Naming>(
    rt: &impl Wait,
    alloc: Global,
    pass: &mut ShardPass<W, J>,
    part: &ShardReference<Shard<W, J>>,
) -> Result<ShardSnapshot, AllocError>
    requires legal { IsLegal (MayFollow W.opening) pass.old.seen }
    ensures seen { IfOk result (λ g. IsSnapshot W.opening pass.new.seen part.now.0 (place_at part.now) g.which g.mode g.named) }
    ensures looked { HasLookedAt (part.now.0 ∷ []) pass.old pass.new }
    ensures onward { IsOnward W.opening pass.old pass.new }
{
    let place = Place {
        keyspace: part.keyspace(),
        range: part.range(),
    };
    let slot = part.slot();
    let mut state = part
        .shard()
        .state()
        .lock_when(rt, |state| state.stands_at(slot, &place));
    look_at(&mut state, alloc, pass)
}

fn found_of<W: World, J: Naming>(
    part: &ShardReference<Shard<W, J>>,
    snapshot: ShardSnapshot,
) -> Result<FoundShard<W, J>, AllocError>
    ensures which { IfOk result (λ f. f.member.which ≡ snapshot.which) }
    ensures mode { IfOk result (λ f. f.mode ≡ snapshot.mode) }
    ensures named { IfOk result (λ f. f.named ≡ snapshot.named) }
    ensures shard { IfOk result (λ f. f.member.shard.value ≡ part.now) }
{
    let shard = Arc::try_clone(part.shard())?;
    let ShardSnapshot {
        which,
        mode,
        named,
        stored,
        dropped,
        given_up,
    } = snapshot;
    Ok(FoundShard {
        member: WorkflowShard { which, shard },
        mode,
        named,
        stored,
        dropped,
        given_up,
    })
}

// The shard of a part.
fn find<W: World, J: Naming>(
    rt: &impl Wait,
    alloc: Global,
    pass: &mut ShardPass<W, J>,
    part: &ShardReference<Shard<W, J>>,
) -> Result<FoundShard<W, J>, AllocError>
    requires legal { IsLegal (MayFollow W.opening) pass.old.seen }
    ensures found { IfOk result (λ f. IsFound W.opening pass.old pass.new (f.member.which, f.mode, f.named)) }
    ensures seat { IfOk result (λ f. seat_of f.member.which ≡ part.now) }
    ensures looked { HasLookedAt (part.now.0 ∷ []) pass.old pass.new }
    ensures shard { IfOk result (λ f. f.member.shard.value ≡ part.now) }
    ensures onward { IsOnward W.opening pass.old pass.new }
{
    let snapshot = look_locked(rt, alloc, pass, part)?;
    let found = found_of(part, snapshot)?;
    Ok(found)
}

/// The shards of the parts, and the mode that a look at each finds.
pub(crate) fn find_all<W: World, J: Naming>(
    rt: &impl Wait,
    alloc: Global,
    pass: &mut ShardPass<W, J>,
    parts: &[ShardReference<Shard<W, J>>],
) -> Result<Vec<FoundShard<W, J>>, AllocError>
    requires legal { IsLegal (MayFollow W.opening) pass.old.seen }
    ensures found { IfOk result (λ found. AreFound W.opening pass.old pass.new parts.now (map (λ f. (f.member.which, f.mode, f.named)) found.items)) }
    ensures shards { IfOk result (λ found. map (λ f. f.member.shard.value) found.items ≡ parts.now) }
    ensures looked { HasLookedAlong (slots_of parts.now) pass.old pass.new }
    ensures all { OnOk result (HasLookedAt (slots_of parts.now) pass.old pass.new) }
    ensures onward { IsOnward W.opening pass.old pass.new }
{
    let mut found = Vec::new(alloc);
    for part in parts {
        found.push(find(rt, alloc, pass, part)?)?;
    }
    Ok(found)
}

/// Whether the rows of one of them are gone.
pub(crate) fn any_dropped<W: World, J: Naming>(found: &[FoundShard<W, J>]) -> bool {
    for one in found {
        if one.dropped {
            return true;
        }
    }
    false
}

/// Whether the workflow of one of them was given up.
pub(crate) fn any_given_up<W: World, J: Naming>(found: &[FoundShard<W, J>]) -> bool {
    for one in found {
        if one.given_up {
            return true;
        }
    }
    false
}
