//! Sources, and targets that take from them, are made again of shards that were found, if they are those of one workflow.
ghost use Rattle.std.specs.Prelude.{◌≡◌, ◌++◌, ℕ, true, false, IfOk, IfSome, MatchOption, map};
ghost use Rattle.std.specs.List.{AllByRecursion};
ghost use Rattle.keyrange.specs.Names.{IsNamed};
ghost use Rattle.serving.specs.Partitions.{IsPartition, AreOf};
ghost use Rattle.shard.specs.Seats.{seat_of};
ghost use Rattle.reshard_create.specs.reopening.Rebuilt.{IsCutoverProgress, TakesThose, IsWorkflowAt, MayReplace, others, IsRefitted};
ghost use Rattle.reshard_create.specs.reopening.inner.Snapshots.{IsRebuiltTarget};

use crate::reopening::cutover_progress::{CutoverProgress, progress_of};
use crate::reopening::found_shards::FoundShard;
use crate::reopening::named_targets::all_named;
use crate::reopening::remaining_parts::{may_replace, others_of};
use crate::split::{copy_member, overlapping_sources};
use journal::Naming;
use reshard_cutover::{SourceShard, TargetShard, note_retired};
use serving::ShardReference;
use shard::{Shard, World};
use std::alloc::{AllocError, Global};
use std::sync::Wait;

// The shards as sources.
fn as_sources<W: World, J: Naming>(
    alloc: Global,
    found: &[FoundShard<W, J>],
) -> Result<Vec<SourceShard<W, J>>, AllocError>
    ensures ok { IfOk result (λ sources. map (λ s. s.member.which) sources.items ≡ map (λ f. f.member.which) found.now) }
{
    let mut sources = Vec::new(alloc);
    for one in found {
        let member = copy_member(alloc, &one.member)?;
        sources.push(SourceShard {
            member,
            stored: one.stored,
        })?;
    }
    Ok(sources)
}

fn modes_of<W: World, J: Naming>(
    alloc: Global,
    found: &[FoundShard<W, J>],
) -> Result<Vec<shard_run::Mode>, AllocError>
    ensures ok { IfOk result (λ modes. modes.items ≡ map (λ f. f.mode) found.now) }
{
    let mut modes = Vec::new(alloc);
    for one in found {
        modes.push(one.mode)?;
    }
    Ok(modes)
}

fn same_slots(a: &[usize], b: &[usize]) -> bool
    ensures yes { result ≡ true → a.now ≡ b.now }
    ensures no { result ≡ false → a.now ≡ b.now → ⊥ }
{
    a == b
}

// The shard as a target, if it takes from those of the sources that overlap it.
fn target_of<W: World, J: Naming>(
    alloc: Global,
    found: &FoundShard<W, J>,
    sources: &[SourceShard<W, J>],
) -> Result<Option<TargetShard<W, J>>, AllocError>
    ensures which { IfOk result (λ r. MatchOption r (TakesThose (map (λ s. s.member.which) sources.now) found.now.member.which → ⊥)
        (λ t. t.member.which ≡ found.now.member.which)) }
    ensures shard { IfOk result (λ r. IfSome r (λ t. t.member.shard.value ≡ found.now.member.shard.value)) }
    ensures taken { IfOk result (λ r. IfSome r (λ t. IsRebuiltTarget (map (λ s. s.member.which) sources.now) (t.member.which, map (λ s. s.which) t.sources.items))) }
{
    let which = &found.member.which;
    let own = overlapping_sources(alloc, &which.place.range, sources)?;
    if !same_slots(own.slots.as_slice(), which.sources.as_slice()) {
        return Ok(None);
    }
    let member = copy_member(alloc, &found.member)?;
    Ok(Some(TargetShard {
        member,
        sources: own.members,
    }))
}

// The targets with their sources, none if one of them doesn't fit.
fn targets_of<W: World, J: Naming>(
    alloc: Global,
    found: &[FoundShard<W, J>],
    sources: &[SourceShard<W, J>],
) -> Result<Option<Vec<TargetShard<W, J>>>, AllocError>
    ensures which { IfOk result (λ r. MatchOption r (AllByRecursion (TakesThose (map (λ s. s.member.which) sources.now)) (map (λ f. f.member.which) found.now) → ⊥)
        (λ ts. map (λ t. t.member.which) ts.items ≡ map (λ f. f.member.which) found.now)) }
    ensures shards { IfOk result (λ r. IfSome r (λ ts. map (λ t. t.member.shard.value) ts.items ≡ map (λ f. f.member.shard.value) found.now)) }
    ensures taken { IfOk result (λ r. IfSome r (λ ts. AllByRecursion (IsRebuiltTarget (map (λ s. s.member.which) sources.now))
        (map (λ t. (t.member.which, map (λ s. s.which) t.sources.items)) ts.items))) }
{
    let mut targets = Vec::new(alloc);
    for one in found {
        let Some(target) = target_of(alloc, one, sources)? else {
            return Ok(None);
        };
        targets.push(target)?;
    }
    Ok(Some(targets))
}

// How far their cutover is, if they are those of one.
fn progress_of_found<W: World, J: Naming>(
    alloc: Global,
    sources: &[FoundShard<W, J>],
    targets: &[FoundShard<W, J>],
) -> Result<Option<CutoverProgress>, AllocError>
    ensures progress { IfOk result (λ r. MatchOption r
        ((frozen retired served : ℕ) → IsCutoverProgress (map (λ f. f.mode) sources.now) (map (λ f. f.mode) targets.now) frozen retired served → ⊥)
        (λ c. IsCutoverProgress (map (λ f. f.mode) sources.now) (map (λ f. f.mode) targets.now) c.frozen c.retired c.served)) }
{
    let of_sources = modes_of(alloc, sources)?;
    let of_targets = modes_of(alloc, targets)?;
    Ok(progress_of(of_sources.as_slice(), of_targets.as_slice()))
}

// Sources and targets.
#[derive(Drop)]
struct SourcesAndTargets<W: World, J: Naming> {
    sources: Vec<SourceShard<W, J>>,
    targets: Vec<TargetShard<W, J>>,
}

// The shards as sources and targets, if each target takes from those of the sources that overlap it.
fn sides_of<W: World, J: Naming>(
    rt: &impl Wait,
    alloc: Global,
    retired: usize,
    sources: &[FoundShard<W, J>],
    targets: &[FoundShard<W, J>],
) -> Result<Option<SourcesAndTargets<W, J>>, AllocError>
    ensures sources { IfOk result (λ r. IfSome r (λ s. map (λ s. s.member.which) s.sources.items ≡ map (λ f. f.member.which) sources.now)) }
    ensures targets { IfOk result (λ r. MatchOption r (AllByRecursion (TakesThose (map (λ f. f.member.which) sources.now)) (map (λ f. f.member.which) targets.now) → ⊥)
        (λ s. map (λ t. t.member.which) s.targets.items ≡ map (λ f. f.member.which) targets.now)) }
    ensures shards { IfOk result (λ r. IfSome r (λ s. map (λ t. t.member.shard.value) s.targets.items ≡ map (λ f. f.member.shard.value) targets.now)) }
    ensures taken { IfOk result (λ r. IfSome r (λ s. AllByRecursion (IsRebuiltTarget (map (λ f. f.member.which) sources.now))
        (map (λ t. (t.member.which, map (λ s. s.which) t.sources.items)) s.targets.items))) }
{
    let mut own = as_sources(alloc, sources)?;
    let Some(made) = targets_of(alloc, targets, own.as_slice())? else {
        return Ok(None);
    };
    note_retired(rt, own.as_mut_slice(), retired, made.as_slice());
    Ok(Some(SourcesAndTargets {
        sources: own,
        targets: made,
    }))
}

// The other parts of the partition, if the shards may take one another's place with them.
fn rest_of<W: World, J: Naming>(
    alloc: Global,
    keyspace: usize,
    parts: &[ShardReference<Shard<W, J>>],
    from: &[ShardReference<Shard<W, J>>],
    into: &[ShardReference<Shard<W, J>>],
) -> Result<Option<Vec<ShardReference<Shard<W, J>>>>, AllocError>
    ensures rest { IfOk result (λ r. MatchOption r (MayReplace keyspace (others (from.now ++ into.now) parts.now) from.now into.now → ⊥)
        (λ rest. (rest.items ≡ others (from.now ++ into.now) parts.now) × MayReplace keyspace (others (from.now ++ into.now) parts.now) from.now into.now)) }
{
    let rest = others_of(alloc, parts, from, into)?;
    if may_replace(alloc, keyspace, rest.as_slice(), from, into)? {
        Ok(Some(rest))
    } else {
        Ok(None)
    }
}

/// What a workflow is made again of: its sources, its targets, the parts that stay, and how far its cutover is.
#[derive(Drop)]
pub struct RebuiltWorkflow<W: World, J: Naming> {
    pub sources: Vec<SourceShard<W, J>>,
    pub targets: Vec<TargetShard<W, J>>,
    pub rest: Vec<ShardReference<Shard<W, J>>>,
    pub progress: CutoverProgress,
}

/// The workflow of these shards, with the other parts of the partition, if they are those of one.
/// It is handed what `Workflow::reopen` takes, and the shards that were found there.
pub(crate) fn rebuild_workflow<W: World, J: Naming>(
    rt: &impl Wait,
    alloc: Global,
    keyspace: usize,
    parts: &[ShardReference<Shard<W, J>>],
    from: &[ShardReference<Shard<W, J>>],
    into: &[ShardReference<Shard<W, J>>],
    sources: &[FoundShard<W, J>],
    targets: &[FoundShard<W, J>],
) -> Result<Option<RebuiltWorkflow<W, J>>, AllocError>
    requires sources { map (λ f. seat_of f.member.which) sources.now ≡ from.now }
    requires targets { map (λ f. seat_of f.member.which) targets.now ≡ into.now }
    requires shards { map (λ f. f.member.shard.value) targets.now ≡ into.now }
    requires named { AllByRecursion (λ f. IsNamed f.member.which.place.range) targets.now }
    requires partition { IsPartition parts.now }
    requires home { AreOf keyspace parts.now }
    ensures stopped { IfOk result (λ r. MatchOption r ((frozen retired served : ℕ)
        → IsWorkflowAt keyspace parts.now from.now into.now (map (λ f. (f.member.which, f.mode, f.named)) sources.now) (map (λ f. (f.member.which, f.mode, f.named)) targets.now) frozen retired served → ⊥)
        (λ f. IsWorkflowAt keyspace parts.now from.now into.now (map (λ f. (f.member.which, f.mode, f.named)) sources.now) (map (λ f. (f.member.which, f.mode, f.named)) targets.now)
        f.progress.frozen f.progress.retired f.progress.served)) }
    ensures sources { IfOk result (λ r. IfSome r (λ f. map (λ s. s.member.which) f.sources.items ≡ map (λ f. f.member.which) sources.now)) }
    ensures targets { IfOk result (λ r. IfSome r (λ f. map (λ t. t.member.which) f.targets.items ≡ map (λ f. f.member.which) targets.now)) }
    ensures taken { IfOk result (λ r. IfSome r (λ f. AllByRecursion (IsRebuiltTarget (map (λ f. f.member.which) sources.now))
        (map (λ t. (t.member.which, map (λ s. s.which) t.sources.items)) f.targets.items))) }
    ensures fit { IfOk result (λ r. IfSome r (λ f. IsRefitted keyspace f.rest.items (map (λ s. s.member.which) f.sources.items)
        (map (λ t. (t.member.which, map (λ s. s.which) t.sources.items)) f.targets.items) (map (λ t. t.member.shard.value) f.targets.items))) }
{
    let Some(progress) = progress_of_found(alloc, sources, targets)? else {
        return Ok(None);
    };
    let Some(rest) = rest_of(alloc, keyspace, parts, from, into)? else {
        return Ok(None);
    };
    if !all_named(sources, targets) {
        return Ok(None);
    }
    let Some(sides) = sides_of(rt, alloc, progress.retired, sources, targets)? else {
        return Ok(None);
    };
    Ok(Some(RebuiltWorkflow {
        sources: sides.sources,
        targets: sides.targets,
        rest,
        progress,
    }))
}
