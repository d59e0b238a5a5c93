//! Sources that are retired give up their rows.
ghost use Rattle.std.specs.Prelude.{◌≡◌, ◌∷◌, [], true, map};
ghost use Rattle.std.specs.List.{AllByRecursion};
ghost use Rattle.journal.specs.Runs.{IsLegal};
ghost use Rattle.shard_run.specs.Runs.{mode};
ghost use Rattle.shard_contents.specs.Entries.{MayFollow};
ghost use Rattle.follow.specs.Steps.{IsOnward};
ghost use Rattle.follow.specs.Turns.{HasLookedAt};
ghost use Rattle.reshard_cutover.specs.Looks.{IsOutOfUse};

use crate::steps::SourceShard;
use follow::{ShardPass, ShardState, WorkflowShard, World};
use journal::Naming;
use shard_run::Mode;
use std::sync::Wait;

// Whether the shard is retired, and so out of use, with its rows or without.
fn is_out_of_use<W: World, J: Naming>(state: &ShardState<W, J>) -> bool
    ensures { result ≡ true → mode W.opening state.now.seen state.now.shard.slot ≡ Mode.Retired }
{
    match state.mode() {
        Mode::Retired => true,
        Mode::Dropped => true,
        _ => false,
    }
}

// Drops the rows of a shard under its lock, once it is out of use.
fn drop_rows<W: World, J: Naming>(
    rt: &impl Wait,
    member: &WorkflowShard<W, J>,
    pass: &mut ShardPass<W, J>,
)
    requires legal { IsLegal (MayFollow W.opening) pass.old.seen }
    ensures out { mode W.opening pass.new.seen member.now.which.slot ≡ Mode.Retired }
    ensures looked { HasLookedAt (member.now.which.slot ∷ []) pass.old pass.new }
    ensures onward { IsOnward W.opening pass.old pass.new }
{
    let mut state = member.shard.state().lock_when(
        rt,
        |state| state.is(&member.which) && is_out_of_use(state),
    );
    let _ = state.look(pass);
    state.drop_rows();
}

/// Drops the rows of each of the sources, which are retired. Takes no memory.
pub fn drop_all<W: World, J: Naming>(
    rt: &impl Wait,
    sources: &[SourceShard<W, J>],
    pass: &mut ShardPass<W, J>,
)
    requires legal { IsLegal (MayFollow W.opening) pass.old.seen }
    ensures out { AllByRecursion (λ s. IsOutOfUse W.opening s pass.old pass.new) (map (λ s. s.member.which) sources.now) }
    ensures looked { HasLookedAt (map (λ s. s.slot) (map (λ s. s.member.which) sources.now)) pass.old pass.new }
    ensures onward { IsOnward W.opening pass.old pass.new }
{
    for source in sources {
        drop_rows(rt, &source.member, pass);
    }
}
