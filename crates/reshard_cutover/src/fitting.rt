//! Whether the targets have no more rows than shards that serve may have.
ghost use Rattle.std.specs.Prelude.{◌≡◌, ◌<◌, ◌≤◌, ◌∷◌, [], true, false, Contains, map};
ghost use Rattle.std.specs.List.{AllByRecursion};
ghost use Rattle.journal.specs.Runs.{IsLegal};
ghost use Rattle.shard_run.specs.Runs.{shard_rows};
ghost use Rattle.shard_run.specs.Openings.{row_count};
ghost use Rattle.shard_contents.specs.Entries.{MayFollow};
ghost use Rattle.follow.specs.Steps.{IsOnward};
ghost use Rattle.follow.specs.Turns.{HasLookedAt, EndsInLook, IsCutShort};
ghost use Rattle.reshard_cutover.specs.TargetSources.{TargetWithSources};
ghost use Rattle.reshard_cutover.specs.Looks.{IsOverfull, IsWithinRows};

use crate::target::TargetShard;
use follow::{ShardPass, WorkflowShard, World, follows};
use journal::Naming;
use std::sync::Wait;

// Whether a target's rows fit, asked under its lock, once it follows.
fn fits<W: World, J: Naming>(
    rt: &impl Wait,
    member: &WorkflowShard<W, J>,
    pass: &mut ShardPass<W, J>,
) -> bool
    requires legal { IsLegal (MayFollow W.opening) pass.old.seen }
    ensures many { result ≡ false → W.limits.rows < row_count (shard_rows W.opening pass.new.seen member.now.which) }
    ensures few { result ≡ true → row_count (shard_rows W.opening pass.new.seen member.now.which) ≤ W.limits.rows }
    ensures looked { HasLookedAt (member.now.which.slot ∷ []) pass.old pass.new }
    ensures ends { EndsInLook pass.new }
    ensures onward { IsOnward W.opening pass.old pass.new }
{
    let mut state = member
        .shard
        .state()
        .lock_when(rt, |state| state.is(&member.which) && follows(state));
    let _ = state.look(pass);
    state.fits()
}

// Promise: Before the first source retires, each target is looked at, once: yes is answered only if each had no more rows than a shard that
// serves may have, and no only if one had more
/// Whether each of the targets has no more rows than a shard that serves may have. Takes no memory.
pub fn all_fit<W: World, J: Naming>(
    rt: &impl Wait,
    targets: &[TargetShard<W, J>],
    pass: &mut ShardPass<W, J>,
) -> bool
    requires legal { IsLegal (MayFollow W.opening) pass.old.seen }
    ensures many { result ≡ false → (t : TargetWithSources) × Contains (map (λ t. (t.member.which, map (λ s. s.which) t.sources.items)) targets.now) t × IsOverfull W.opening W.limits t.0 pass.old pass.new }
    ensures few { result ≡ true → AllByRecursion (λ t. IsWithinRows W.opening W.limits t.0 pass.old pass.new) (map {B = TargetWithSources} (λ t. (t.member.which, map (λ s. s.which) t.sources.items)) targets.now) }
    ensures looked { result ≡ true → HasLookedAt (map (λ t. t.0.slot) (map {B = TargetWithSources} (λ t. (t.member.which, map (λ s. s.which) t.sources.items)) targets.now)) pass.old pass.new }
    ensures short { result ≡ false → IsCutShort (map (λ t. t.0.slot) (map {B = TargetWithSources} (λ t. (t.member.which, map (λ s. s.which) t.sources.items)) targets.now)) pass.old pass.new }
    ensures onward { IsOnward W.opening pass.old pass.new }
{
    for target in targets {
        if !fits(rt, &target.member, pass) {
            return false;
        }
    }
    true
}
