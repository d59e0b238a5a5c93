//! What a workflow begins with: its sources, its targets, and the parts of the partition that stay.
ghost use Rattle.std.specs.Prelude.{◌≡◌, ◌≤◌, ◌++◌, ◌<◌, ◌+◌, true, false, IfOk, IfErr, OnOk, OnErr, IsPermutation, IsSorted, map, reverse, length};
ghost use Rattle.std.specs.List.{AllByRecursion};
ghost use Rattle.keyrange.specs.Names.{IsNamed};
ghost use Rattle.journal.specs.Runs.{IsLegal};
ghost use Rattle.shard_run.specs.Openings.{IsOpening};
ghost use Rattle.shard_law.specs.Entries.{MayFollow};
ghost use Rattle.serving.specs.Partitions.{IsPartition, AreOf};
ghost use Rattle.reshard_cutover.specs.FollowSteps.{IsOnward};
ghost use Rattle.reshard_create.specs.Configs.{IsFree, IsReshardConfig};
ghost use Rattle.reshard_create.specs.split.Splits.{IsSplit, target_seats};
ghost use Rattle.reshard_create.specs.split.Choices.{DoNotOverlap, begin_cmp};
ghost use Rattle.reshard_create.specs.Begun.{AreSources, HasBegun, IsCreateRefusal};
ghost use Rattle.reshard_create.specs.Looked.{HasLookedAtParts, HasLookedAtEach};
ghost use Rattle.reshard_create.specs.inner.Created.{IsSurvey};

use crate::config::ReshardConfig;
use crate::looks::look_at_each;
use crate::partition_parts::choose;
use crate::sources::find_sources;
use crate::split::MOST_PARTS;
use crate::targets::make_targets;
use journal::{Naming, ShardSeat};
use keyrange::KeyRange;
use reshard_cutover::{ReshardFault, SourceShard, TargetShard};
use serving::{Partition, ShardReference};
use shard::{Shard, ShardLaw, ShardPass, VSchema, World};
use std::alloc::{AllocError, Global};
use std::sync::Wait;

/// Sources, the targets that replace them, and the parts that stay.
#[derive(Drop)]
pub struct NewWorkflow<W: World, J: Naming> {
    pub sources: Vec<SourceShard<W, J>>,
    pub targets: Vec<TargetShard<W, J>>,
    pub rest: Vec<ShardReference<Shard<W, J>>>,
}

// The ranges in the order of their begins.
fn in_order(alloc: Global, ranges: &[KeyRange]) -> Result<Vec<KeyRange>, AllocError>
    ensures ok { IfOk result (λ r. IsPermutation ranges.now r.items) }
    ensures rise { IfOk result (λ r. IsSorted begin_cmp r.items) }
{
    let mut ordered = Vec::from_slice(alloc, ranges)?;
    ordered.sort_unstable_by(|a, b| a.begin.as_slice().cmp(b.begin.as_slice()));
    Ok(ordered)
}

// The sources in the order of their begins.
fn by_begin<W: World, J: Naming>(sources: Vec<SourceShard<W, J>>) -> Vec<SourceShard<W, J>>
    ensures same { IsPermutation sources.items result.items }
    ensures rise { IsSorted begin_cmp (map (λ s. s.member.which.place.range) result.items) }
{
    let mut ordered = sources;
    ordered.sort_unstable_by(|a, b| {
        let first = &a.member.which.place.range;
        let second = &b.member.which.place.range;
        first.begin.as_slice().cmp(second.begin.as_slice())
    });
    ordered
}

// Whether so many parts are more than there are slots.
fn are_too_many(rest: usize, targets: usize) -> bool
    ensures yes { result ≡ true → 64 < rest + targets }
    ensures no { result ≡ false → rest + targets ≤ 64 }
{
    rest > MOST_PARTS || targets > MOST_PARTS - rest
}

// The sources of a workflow, and the parts that stay.
#[derive(Drop)]
struct WorkflowSources<W: World, J: Naming> {
    sources: Vec<SourceShard<W, J>>,
    rest: Vec<ShardReference<Shard<W, J>>>,
}

// The sources of these ranges, if targets of those may take their place, for which so many slots are free.
// It is handed what `begin` takes.
fn survey<W: World, J: Naming>(
    rt: &impl Wait,
    alloc: Global,
    pass: &mut ShardPass<W, J>,
    keyspace: usize,
    free: usize,
    current: &Partition<Shard<W, J>>,
    sources: &[KeyRange],
    targets: &[KeyRange],
) -> Result<WorkflowSources<W, J>, ReshardFault>
    requires legal { IsLegal (MayFollow W.opening) pass.old.seen }
    requires home { AreOf keyspace current.now }
    ensures found { IfOk result (λ f. IsSurvey keyspace sources.now targets.now current.now (map (λ s. s.member.which) f.sources.items) f.rest.items) }
    ensures are { IfOk result (λ f. AreSources W.opening pass.old pass.new keyspace sources.now (map (λ s. s.member.which) f.sources.items)) }
    ensures rise { IfOk result (λ f. IsSorted begin_cmp (map (λ s. s.member.which.place.range) f.sources.items)) }
    ensures apart { OnOk result (DoNotOverlap targets.now) }
    ensures partition { IsPartition current.now }
    ensures enough { OnOk result (length targets.now ≤ free) }
    ensures looked { HasLookedAtParts W.opening keyspace pass.old pass.new }
    ensures each { IfOk result (λ f. HasLookedAtEach (map (λ s. s.slot) (map (λ s. s.member.which) f.sources.items)) pass.old pass.new) }
    ensures onward { IsOnward W.opening pass.old pass.new }
    ensures err { IfErr result (IsCreateRefusal W.opening pass.old pass.new keyspace free sources.now targets.now) }
{
    let chosen = choose(alloc, current.parts(), sources)?;
    let found = find_sources(rt, alloc, pass, keyspace, &chosen, sources, targets)?;
    if free < targets.len() {
        return Err(ReshardFault::FewSlots);
    }
    if are_too_many(chosen.rest.len(), targets.len()) {
        look_at_each(rt, pass, keyspace, chosen.rest.as_slice());
        return Err(ReshardFault::FewSlots);
    }
    Ok(WorkflowSources {
        sources: by_begin(found),
        rest: chosen.rest,
    })
}

/// The sources of these ranges, and targets of those, on the last of the free slots. Refuses if no source is named, one is named twice or
/// isn't a range of the partition, or its shard doesn't serve or is frozen; if two targets overlap; if they don't hold what the sources
/// do; if too few slots are free; and for want of memory. Then no slot is taken.
/// It is handed what `Workflow::create` takes, and the workflow's own slots.
pub fn begin<W: World, J: Naming>(
    rt: &impl Wait,
    alloc: Global,
    pass: &mut ShardPass<W, J>,
    schema: &VSchema,
    free: &mut Vec<ShardSeat<ShardLaw<W>, J>>,
    config: ReshardConfig,
    current: &Partition<Shard<W, J>>,
    sources: &[KeyRange],
    targets: &[KeyRange],
) -> Result<NewWorkflow<W, J>, ReshardFault>
    requires opens { IsOpening W.opening }
    requires schema { schema.now ≡ W.opening.schema }
    requires config { IsReshardConfig W.opening W.limits config }
    requires legal { IsLegal (MayFollow W.opening) pass.old.seen }
    requires free { AllByRecursion (IsFree W.opening) free.old.items }
    requires home { AreOf config.keyspace current.now }
    requires named { AllByRecursion IsNamed targets.now }
    ensures begun { IfOk result (λ b. HasBegun W.opening pass.old pass.new (map (λ s. s.member.which) b.sources.items) (map (λ t. (t.member.which, map (λ s. s.which) t.sources.items)) b.targets.items)
        config.keyspace sources.now targets.now) }
    ensures split { IfOk result (λ b. IsSplit (map (λ s. s.member.which) b.sources.items) (map (λ t. (t.member.which, map (λ s. s.which) t.sources.items)) b.targets.items)) }
    ensures seated { IfOk result (λ b. map (λ t. t.member.shard.value) b.targets.items
        ≡ target_seats (map (λ t. (t.member.which, map (λ s. s.which) t.sources.items)) b.targets.items)) }
    ensures next { IfOk result (λ b. IsPartition (b.rest.items ++ map (λ t. t.member.shard.value) b.targets.items)) }
    ensures at_home { IfOk result (λ b. AreOf config.keyspace (b.rest.items ++ map (λ t. t.member.shard.value) b.targets.items)) }
    ensures free { AllByRecursion (IsFree W.opening) free.new.items }
    ensures looked { HasLookedAtParts W.opening config.keyspace pass.old pass.new }
    ensures each { IfOk result (λ b. HasLookedAtEach (map (λ s. s.slot) (map (λ s. s.member.which) b.sources.items)) pass.old pass.new) }
    ensures onward { IsOnward W.opening pass.old pass.new }
    ensures err { IfErr result (IsCreateRefusal W.opening pass.old pass.new config.keyspace (length free.old.items) sources.now targets.now) }
    ensures taken { IfOk result (λ b. map (λ s. s.slot) free.old.items ≡ map (λ s. s.slot) free.new.items ++ reverse (map (λ t. t.member.which.slot) b.targets.items)) }
    ensures kept { OnErr result (map (λ s. s.slot) free.new.items ≡ map (λ s. s.slot) free.old.items) }
{
    let found = survey(
        rt,
        alloc,
        pass,
        config.keyspace,
        free.len(),
        current,
        sources,
        targets,
    )?;
    let ranges = in_order(alloc, targets)?;
    let made = make_targets(
        rt,
        alloc,
        free,
        schema,
        config,
        found.sources.as_slice(),
        ranges.as_slice(),
    )?;
    Ok(NewWorkflow {
        sources: found.sources,
        targets: made,
        rest: found.rest,
    })
}
