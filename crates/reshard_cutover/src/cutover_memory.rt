//! The memory of a cutover, which is made before its first step: the next partition, and for each source the targets that it names.
ghost use Rattle.std.specs.Prelude.{◌≡◌, ◌++◌, IfOk, IsPermutation, map, filter};
ghost use Rattle.serving.specs.Partitions.{IsPartition, AreOf};
ghost use Rattle.reshard_cutover.specs.Steps.{has_source, named_for};

use crate::steps::{SourceShard, is_source_of};
use crate::target::TargetShard;
use follow::{Shard, World};
use journal::Naming;
use serving::{Partition, ShardReference, copy_part};
use shard_contents::copy_shard;
use std::alloc::{AllocError, Global};
use std::cmp::Ordering;
use std::sync::Arc;
use vt_value::Items;

// Those of the targets that take from the source.
fn named_of<W: World, J: Naming>(
    alloc: Global,
    source: usize,
    targets: &[TargetShard<W, J>],
) -> Result<Items<shard_run::ShardRecord>, AllocError>
    ensures ok { IfOk result (λ named. named ≡ filter (has_source source) (map (λ t. t.member.which) targets.now)) }
{
    let mut named = Items::new(alloc);
    for target in targets {
        let which = &target.member.which;
        if is_source_of(which, source) {
            named.push(copy_shard(alloc, which)?)?;
        }
    }
    Ok(named)
}

/// For each source those of the targets that take from it.
pub fn named_of_all<W: World, J: Naming>(
    alloc: Global,
    sources: &[SourceShard<W, J>],
    targets: &[TargetShard<W, J>],
) -> Result<Vec<Items<shard_run::ShardRecord>>, AllocError>
    ensures ok { IfOk result (λ named. named.items ≡ map (λ s. named_for s.member.which (map (λ t. t.member.which) targets.now)) sources.now) }
{
    let mut all = Vec::new(alloc);
    for source in sources {
        let named = named_of(alloc, source.member.which.slot, targets)?;
        all.push(named)?;
    }
    Ok(all)
}

fn by_begin<W: World, J: Naming>(
    a: &ShardReference<Shard<W, J>>,
    b: &ShardReference<Shard<W, J>>,
) -> Ordering {
    let (one, other) = (a.range(), b.range());
    one.begin.as_slice().cmp(other.begin.as_slice())
}

// The parts that stay and those of the targets, in the order of their ranges.
fn next_parts<W: World, J: Naming>(
    alloc: Global,
    rest: &[ShardReference<Shard<W, J>>],
    targets: &[TargetShard<W, J>],
) -> Result<Vec<ShardReference<Shard<W, J>>>, AllocError>
    ensures ok { IfOk result (λ parts. IsPermutation (rest.now ++ map (λ t. t.member.shard.value) targets.now) parts.items) }
{
    let mut parts = Vec::new(alloc);
    for part in rest {
        parts.push(copy_part(part)?)?;
    }
    for target in targets {
        let shard = Arc::try_clone(&target.member.shard)?;
        parts.push(ShardReference::new(shard))?;
    }
    parts.sort_unstable_by(|a, b| by_begin(a, b));
    Ok(parts)
}

/// The next partition of the keyspace: the parts that stay, and those of the targets.
pub fn next_partition<W: World, J: Naming>(
    alloc: Global,
    keyspace: usize,
    rest: &[ShardReference<Shard<W, J>>],
    targets: &[TargetShard<W, J>],
) -> Result<Box<Partition<Shard<W, J>>>, AllocError>
    requires next { IsPartition (rest.now ++ map (λ t. t.member.shard.value) targets.now) }
    requires home { AreOf keyspace (rest.now ++ map (λ t. t.member.shard.value) targets.now) }
    ensures next { IfOk result (λ partition. AreOf keyspace partition.value) }
    ensures parts { IfOk result (λ partition. IsPermutation (rest.now ++ map (λ t. t.member.shard.value) targets.now) partition.value) }
{
    let parts = next_parts(alloc, rest, targets)?;
    Ok(Box::new(alloc, Partition::new(keyspace, parts))?)
}
