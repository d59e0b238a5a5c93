//! What earlier calls did is looked at again under the locks: which sources are retired, and which targets serve.
ghost use Rattle.std.specs.Prelude.{List, [], ◌∷◌, Contains, IsTrue, map};
ghost use Rattle.std.specs.List.{AllByRecursion};
ghost use Rattle.journal.specs.Runs.{IsLegal};
ghost use Rattle.shard_run.specs.Openings.{IsOpening};
ghost use Rattle.shard_contents.specs.Entries.{MayFollow};
ghost use Rattle.follow.specs.Steps.{IsOnward};
ghost use Rattle.follow.specs.Turns.{EachInTurn, HasLookedAt};
ghost use Rattle.reshard_cutover.specs.TargetSources.{TargetWithSources};
ghost use Rattle.reshard_cutover.specs.Steps.{has_source, IsRetired, AreRetired};
ghost use Rattle.reshard_cutover.specs.Looks.{HasLookedOnlyAt, IsGone, HasBegunToServe, HaveServed, IsCutOver, slots_of_both};

use crate::steps::{SourceShard, is_source_of, serves};
use crate::target::TargetShard;
use follow::{ShardPass, WorkflowShard, World};
use journal::Naming;
use shard_run::ShardRecord;
use std::sync::Wait;

// Looks at the source once it is retired for the target, and has stored as many entries as it is said to have.
fn confirm<W: World, J: Naming>(
    rt: &impl Wait,
    source: &SourceShard<W, J>,
    target: &ShardRecord,
    pass: &mut ShardPass<W, J>,
)
    requires legal { IsLegal (MayFollow W.opening) pass.old.seen }
    ensures retired { (targets : List ShardRecord) × IsRetired pass.new.seen (source.now.member.which, source.now.stored) targets × Contains targets target.now }
    ensures alone { HasLookedOnlyAt source.now.member.which.slot pass.old pass.new }
    ensures onward { IsOnward W.opening pass.old pass.new }
{
    let mut state = source.member.shard.state().lock_when(rt, |state| {
        state.is(&source.member.which) && state.is_retired_for(target, source.stored)
    });
    let _ = state.look(pass);
}

// Confirms that a source is retired for the target, if it is one of the target's.
fn confirm_own<W: World, J: Naming>(
    rt: &impl Wait,
    source: &SourceShard<W, J>,
    target: &ShardRecord,
    pass: &mut ShardPass<W, J>,
)
    requires legal { IsLegal (MayFollow W.opening) pass.old.seen }
    ensures retired { IsTrue (has_source source.now.member.which.slot target.now)
        → (targets : List ShardRecord) × IsRetired pass.new.seen (source.now.member.which, source.now.stored) targets × Contains targets target.now }
    ensures alone { HasLookedOnlyAt source.now.member.which.slot pass.old pass.new }
    ensures onward { IsOnward W.opening pass.old pass.new }
{
    if is_source_of(target, source.member.which.slot) {
        confirm(rt, source, target, pass);
    }
}

/// Looks until each source of the target is retired for it. Takes no memory.
pub fn confirm_retired<W: World, J: Naming>(
    rt: &impl Wait,
    sources: &[SourceShard<W, J>],
    target: &ShardRecord,
    pass: &mut ShardPass<W, J>,
)
    requires opens { IsOpening W.opening }
    requires legal { IsLegal (MayFollow W.opening) pass.old.seen }
    ensures retired { AreRetired pass.new.seen target.now (map (λ s. (s.member.which, s.stored)) sources.now) }
    ensures looked { EachInTurn (λ s. HasLookedOnlyAt s.slot) (map (λ s. s.member.which) sources.now) pass.old pass.new }
    ensures onward { IsOnward W.opening pass.old pass.new }
{
    for source in sources {
        confirm_own(rt, source, target, pass);
    }
}

// Looks at the source once it is retired.
fn confirm_gone<W: World, J: Naming>(
    rt: &impl Wait,
    member: &WorkflowShard<W, J>,
    pass: &mut ShardPass<W, J>,
)
    requires legal { IsLegal (MayFollow W.opening) pass.old.seen }
    ensures gone { IsGone pass.new.seen member.now.which }
    ensures looked { HasLookedAt (member.now.which.slot ∷ []) pass.old pass.new }
    ensures onward { IsOnward W.opening pass.old pass.new }
{
    let mut state = member
        .shard
        .state()
        .lock_when(rt, |state| state.is(&member.which) && state.is_retired());
    let _ = state.look(pass);
}

// Looks at the target once it serves.
fn confirm_served<W: World, J: Naming>(
    rt: &impl Wait,
    member: &WorkflowShard<W, J>,
    pass: &mut ShardPass<W, J>,
)
    requires opens { IsOpening W.opening }
    requires legal { IsLegal (MayFollow W.opening) pass.old.seen }
    ensures served { HasBegunToServe pass.new.seen member.now.which }
    ensures looked { HasLookedAt (member.now.which.slot ∷ []) pass.old pass.new }
    ensures onward { IsOnward W.opening pass.old pass.new }
{
    let which = &member.which;
    let mut state = member.shard.state().lock_when(rt, |state| {
        state.is(which) && serves(state) && !which.sources.as_slice().is_empty()
    });
    let _ = state.look(pass);
}

fn all_gone<W: World, J: Naming>(
    rt: &impl Wait,
    sources: &[SourceShard<W, J>],
    pass: &mut ShardPass<W, J>,
)
    requires legal { IsLegal (MayFollow W.opening) pass.old.seen }
    ensures gone { AllByRecursion (IsGone pass.new.seen) (map (λ s. s.member.which) sources.now) }
    ensures looked { HasLookedAt (map (λ s. s.slot) (map (λ s. s.member.which) sources.now)) pass.old pass.new }
    ensures onward { IsOnward W.opening pass.old pass.new }
{
    for source in sources {
        confirm_gone(rt, &source.member, pass);
    }
}

fn all_served<W: World, J: Naming>(
    rt: &impl Wait,
    targets: &[TargetShard<W, J>],
    pass: &mut ShardPass<W, J>,
)
    requires opens { IsOpening W.opening }
    requires legal { IsLegal (MayFollow W.opening) pass.old.seen }
    ensures served { HaveServed pass.new.seen (map (λ t. (t.member.which, map (λ s. s.which) t.sources.items)) targets.now) }
    ensures looked { HasLookedAt (map (λ t. t.0.slot) (map {B = TargetWithSources} (λ t. (t.member.which, map (λ s. s.which) t.sources.items)) targets.now)) pass.old pass.new }
    ensures onward { IsOnward W.opening pass.old pass.new }
{
    for target in targets {
        confirm_served(rt, &target.member, pass);
    }
}

/// Looks once at each source, when it is retired, and then once at each target, when it serves. Takes no memory.
pub fn confirm_cutover<W: World, J: Naming>(
    rt: &impl Wait,
    sources: &[SourceShard<W, J>],
    targets: &[TargetShard<W, J>],
    pass: &mut ShardPass<W, J>,
)
    requires opens { IsOpening W.opening }
    requires legal { IsLegal (MayFollow W.opening) pass.old.seen }
    ensures looked { HasLookedAt (slots_of_both (map (λ s. s.member.which) sources.now) (map (λ t. (t.member.which, map (λ s. s.which) t.sources.items)) targets.now)) pass.old pass.new }
    ensures through { IsCutOver pass.new.seen (map (λ s. s.member.which) sources.now) (map (λ t. (t.member.which, map (λ s. s.which) t.sources.items)) targets.now) }
    ensures onward { IsOnward W.opening pass.old pass.new }
{
    all_gone(rt, sources, pass);
    all_served(rt, targets, pass);
}
