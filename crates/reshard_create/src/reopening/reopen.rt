//! Makes a workflow again whose controller stopped, from a look at each of its shards.
ghost use Rattle.std.specs.Prelude.{◌≡◌, ◌⊎◌, ◌≤◌, ◌++◌, true, IfOk, IfErr, OnOk, IsPermutation, drop, length, map};
ghost use Rattle.journal.specs.Runs.{IsLegal};
ghost use Rattle.serving.specs.Partitions.{IsPartition, AreOf};
ghost use Rattle.shard_law.specs.Entries.{MayFollow};
ghost use Rattle.reshard_cutover.specs.FollowSteps.{IsOnward};
ghost use Rattle.reshard_cutover.specs.Steps.{named_for};
ghost use Rattle.reshard_create.specs.reopening.Rebuilt.{AreMadeAgain, IsReopenRefusal, IsRefitted};
ghost use Rattle.reshard_create.specs.Looked.{slots_of, HasLookedAlong};
ghost use Rattle.reshard_cutover.specs.Turns.{HasLookedAt};
ghost use Rattle.reshard_create.specs.reopening.inner.Snapshots.{IsBoth};

use crate::reopening::cutover_progress::CutoverProgress;
use crate::reopening::found_shards::{FoundShard, any_dropped, any_given_up, find_all};
use crate::reopening::rebuild::{RebuiltWorkflow, rebuild_workflow};
use journal::Naming;
use reshard_cutover::{ReshardFault, SourceShard, TargetShard, named_of_all, next_partition};
use serving::{Partition, ShardReference};
use shard::{Shard, ShardPass, World};
use std::alloc::{AllocError, Global};
use std::sync::Wait;
use vt_value::Items;

// The sources and the targets, as looks found them.
#[derive(Drop)]
struct FoundShards<W: World, J: Naming> {
    sources: Vec<FoundShard<W, J>>,
    targets: Vec<FoundShard<W, J>>,
}

fn find_both<W: World, J: Naming>(
    rt: &impl Wait,
    alloc: Global,
    pass: &mut ShardPass<W, J>,
    from: &[ShardReference<Shard<W, J>>],
    into: &[ShardReference<Shard<W, J>>],
) -> Result<FoundShards<W, J>, AllocError>
    requires legal { IsLegal (MayFollow W.opening) pass.old.seen }
    ensures found { IfOk result (λ b. IsBoth W.opening pass.old pass.new from.now into.now (map (λ f. (f.member.which, f.mode, f.named)) b.sources.items)
        (map (λ f. (f.member.which, f.mode, f.named)) b.targets.items)) }
    ensures shards { IfOk result (λ b. map (λ f. f.member.shard.value) b.targets.items ≡ into.now) }
    ensures looked { HasLookedAlong (slots_of (from.now ++ into.now)) pass.old pass.new }
    ensures all { OnOk result (HasLookedAt (slots_of (from.now ++ into.now)) pass.old pass.new) }
    ensures onward { IsOnward W.opening pass.old pass.new }
{
    let sources = find_all(rt, alloc, pass, from)?;
    let targets = find_all(rt, alloc, pass, into)?;
    Ok(FoundShards { sources, targets })
}

// Whether a workflow that is so far can't go on: it is through, and rows of a source are gone, or no source is retired, and it was given up.
fn is_over<W: World, J: Naming>(progress: CutoverProgress, both: &FoundShards<W, J>) -> bool
    ensures { result ≡ true → (progress.served ≡ length both.now.targets.items) ⊎ (progress.retired ≡ 0) }
{
    if progress.served == both.targets.len() && any_dropped(both.sources.as_slice()) {
        return true;
    }
    progress.retired == 0 && any_given_up(both.targets.as_slice())
}

// The workflow of the shards of these parts.
// It is handed what `Workflow::reopen` takes.
fn find_again<W: World, J: Naming>(
    rt: &impl Wait,
    alloc: Global,
    pass: &mut ShardPass<W, J>,
    keyspace: usize,
    parts: &[ShardReference<Shard<W, J>>],
    from: &[ShardReference<Shard<W, J>>],
    into: &[ShardReference<Shard<W, J>>],
) -> Result<RebuiltWorkflow<W, J>, ReshardFault>
    requires legal { IsLegal (MayFollow W.opening) pass.old.seen }
    requires partition { IsPartition parts.now }
    requires home { AreOf keyspace parts.now }
    ensures made { IfOk result (λ a. AreMadeAgain W.opening pass.old pass.new keyspace parts.now from.now into.now (map (λ s. s.member.which) a.sources.items)
        (map (λ t. (t.member.which, map (λ s. s.which) t.sources.items)) a.targets.items) a.progress.frozen a.progress.retired a.progress.served) }
    ensures fit { IfOk result (λ a. IsRefitted keyspace a.rest.items (map (λ s. s.member.which) a.sources.items)
        (map (λ t. (t.member.which, map (λ s. s.which) t.sources.items)) a.targets.items) (map (λ t. t.member.shard.value) a.targets.items)) }
    ensures looked { HasLookedAlong (slots_of (from.now ++ into.now)) pass.old pass.new }
    ensures all { OnOk result (HasLookedAt (slots_of (from.now ++ into.now)) pass.old pass.new) }
    ensures refused { IfErr result (IsReopenRefusal W.opening pass.old pass.new keyspace from.now into.now) }
    ensures onward { IsOnward W.opening pass.old pass.new }
{
    let both = find_both(rt, alloc, pass, from, into)?;
    let Some(again) = rebuild_workflow(
        rt,
        alloc,
        keyspace,
        parts,
        from,
        into,
        both.sources.as_slice(),
        both.targets.as_slice(),
    )?
    else {
        return Err(ReshardFault::WrongState);
    };
    if is_over(again.progress, &both) {
        return Err(ReshardFault::WrongState);
    }
    Ok(again)
}

/// The memory of the steps that are left: for each source that isn't retired the targets that it names, and the next partition.
#[derive(Drop)]
pub struct CutoverMemory<W: World, J: Naming> {
    pub named: Vec<Items<shard_run::ShardRecord>>,
    pub next: Box<Partition<Shard<W, J>>>,
}

fn unretired<W: World, J: Naming>(
    sources: &[SourceShard<W, J>],
    retired: usize,
) -> &[SourceShard<W, J>]
    requires { retired ≤ length sources.now }
    ensures { result.now ≡ drop retired sources.now }
{
    &sources[retired..]
}

fn memory_of<W: World, J: Naming>(
    alloc: Global,
    keyspace: usize,
    retired: usize,
    rest: &[ShardReference<Shard<W, J>>],
    sources: &[SourceShard<W, J>],
    targets: &[TargetShard<W, J>],
) -> Result<CutoverMemory<W, J>, AllocError>
    requires few { retired ≤ length sources.now }
    requires next { IsPartition (rest.now ++ map (λ t. t.member.shard.value) targets.now) }
    requires home { AreOf keyspace (rest.now ++ map (λ t. t.member.shard.value) targets.now) }
    ensures named { IfOk result (λ m. m.named.items ≡ map (λ s. named_for s.member.which (map (λ t. t.member.which) targets.now)) (drop retired sources.now)) }
    ensures next { IfOk result (λ m. AreOf keyspace m.next.value) }
    ensures parts { IfOk result (λ m. IsPermutation (rest.now ++ map (λ t. t.member.shard.value) targets.now) m.next.value) }
{
    let next = next_partition(alloc, keyspace, rest, targets)?;
    let named = named_of_all(alloc, unretired(sources, retired), targets)?;
    Ok(CutoverMemory { named, next })
}

/// What a workflow is made again of, and its memory.
#[derive(Drop)]
pub struct ReopenedWorkflow<W: World, J: Naming> {
    pub again: RebuiltWorkflow<W, J>,
    pub memory: CutoverMemory<W, J>,
}

/// The workflow of the shards of these parts, each looked at under its lock, and the memory of the steps that are left. Refuses if the
/// shards aren't the sources and the targets of one, with the other parts of the partition, as a cutover leaves them; if a source that is
/// retired didn't name a target that takes from it; if the sources' rows were dropped, or the workflow was given up; and for want of memory.
/// It is handed what `Workflow::reopen` takes.
pub fn reopen_workflow<W: World, J: Naming>(
    rt: &impl Wait,
    alloc: Global,
    pass: &mut ShardPass<W, J>,
    keyspace: usize,
    parts: &[ShardReference<Shard<W, J>>],
    from: &[ShardReference<Shard<W, J>>],
    into: &[ShardReference<Shard<W, J>>],
) -> Result<ReopenedWorkflow<W, J>, ReshardFault>
    requires legal { IsLegal (MayFollow W.opening) pass.old.seen }
    requires partition { IsPartition parts.now }
    requires home { AreOf keyspace parts.now }
    ensures made { IfOk result (λ t. AreMadeAgain W.opening pass.old pass.new keyspace parts.now from.now into.now (map (λ s. s.member.which) t.again.sources.items)
        (map (λ t. (t.member.which, map (λ s. s.which) t.sources.items)) t.again.targets.items) t.again.progress.frozen t.again.progress.retired t.again.progress.served) }
    ensures fit { IfOk result (λ t. IsRefitted keyspace t.again.rest.items (map (λ s. s.member.which) t.again.sources.items)
        (map (λ t. (t.member.which, map (λ s. s.which) t.sources.items)) t.again.targets.items) (map (λ t. t.member.shard.value) t.again.targets.items)) }
    ensures named { IfOk result (λ t. t.memory.named.items
        ≡ map (λ s. named_for s.member.which (map (λ t. t.member.which) t.again.targets.items)) (drop t.again.progress.retired t.again.sources.items)) }
    ensures next { IfOk result (λ t. AreOf keyspace t.memory.next.value) }
    ensures parts { IfOk result (λ t. IsPermutation (t.again.rest.items ++ map (λ t. t.member.shard.value) t.again.targets.items) t.memory.next.value) }
    ensures looked { HasLookedAlong (slots_of (from.now ++ into.now)) pass.old pass.new }
    ensures all { OnOk result (HasLookedAt (slots_of (from.now ++ into.now)) pass.old pass.new) }
    ensures refused { IfErr result (IsReopenRefusal W.opening pass.old pass.new keyspace from.now into.now) }
    ensures onward { IsOnward W.opening pass.old pass.new }
{
    let again = find_again(rt, alloc, pass, keyspace, parts, from, into)?;
    let memory = memory_of(
        alloc,
        keyspace,
        again.progress.retired,
        again.rest.as_slice(),
        again.sources.as_slice(),
        again.targets.as_slice(),
    )?;
    Ok(ReopenedWorkflow { again, memory })
}
