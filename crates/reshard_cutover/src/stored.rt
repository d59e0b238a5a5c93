//! How many entries a source has stored that is frozen, or retired already, and how many are left for a target to follow.
ghost use Rattle.std.specs.Prelude.{◌≡◌, ◌<◌, length, map, slice_set};

use crate::steps::{SourceShard, is_source_of};
use crate::target::TargetShard;
use follow::{ShardState, WorkflowShard, World};
use journal::Naming;
use shard_run::Mode;
use std::sync::Wait;

// Promise: What a source had stored when it was frozen is noted as it was counted
/// Notes how many entries a source had stored when it was frozen.
pub fn note_stored<W: World, J: Naming>(sources: &mut [SourceShard<W, J>], at: usize, stored: u64)
    requires there { at < length sources.old }
    ensures shards { map (λ s. s.member.which) sources.new ≡ map (λ s. s.member.which) sources.old }
    ensures stored { map (λ s. s.stored) sources.new ≡ slice_set (map (λ s. s.stored) sources.old) at stored }
{
    sources[at].stored = stored;
}

// After how many of the source's entries the target stands, if it lives and has copied from there.
fn after_in<W: World, J: Naming>(state: &ShardState<W, J>, slot: usize) -> Option<u64> {
    let lives = match state.mode() {
        Mode::Following => true,
        Mode::Serving => true,
        _ => false,
    };
    if !lives {
        return None;
    }
    match state.position_in(slot) {
        Some(stands_after) => Some(u64::try_from(stands_after).unwrap_or(0)),
        None => None,
    }
}

// How many entries a retired source has stored: its targets were level with it.
fn stored_by<W: World, J: Naming>(
    rt: &impl Wait,
    slot: usize,
    targets: &[TargetShard<W, J>],
) -> u64 {
    for target in targets {
        if is_source_of(&target.member.which, slot) {
            return after_in(&target.member.shard.lock(rt), slot).unwrap_or(0);
        }
    }
    0
}

// How many entries a source has stored, unless it is retired.
fn stored_in<W: World, J: Naming>(state: &ShardState<W, J>) -> u64 {
    match state.mode() {
        Mode::Serving => state.stored(),
        Mode::Frozen => state.stored(),
        _ => 0,
    }
}

// How many of a source's entries the target is yet to follow. Before its first rows of there it has none to follow.
fn left_of<W: World, J: Naming>(
    rt: &impl Wait,
    source: &WorkflowShard<W, J>,
    target: &WorkflowShard<W, J>,
) -> u64 {
    let after = after_in(&target.shard.lock(rt), source.which.slot);
    match after {
        Some(after) => stored_in(&source.shard.lock(rt)).saturating_sub(after),
        None => 0,
    }
}

/// How many entries of its sources a target is yet to follow. Each lock is held by itself, so more may be stored meanwhile.
pub fn entries_left<W: World, J: Naming>(rt: &impl Wait, target: &TargetShard<W, J>) -> u64 {
    let mut left = 0u64;
    for source in target.sources.as_slice() {
        left = left.saturating_add(left_of(rt, source, &target.member));
    }
    left
}

/// Notes how many entries the retired ones, which are the first, have stored.
pub fn note_retired<W: World, J: Naming>(
    rt: &impl Wait,
    sources: &mut [SourceShard<W, J>],
    retired: usize,
    targets: &[TargetShard<W, J>],
)
    ensures { map (λ s. s.member.which) sources.new ≡ map (λ s. s.member.which) sources.old }
{
    for at in 0..sources.len() {
        if at >= retired {
            return;
        }
        let stored = stored_by(rt, sources[at].member.which.slot, targets);
        note_stored(sources, at, stored);
    }
}
