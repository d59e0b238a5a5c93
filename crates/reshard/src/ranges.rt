//! Which ranges are served while there is a workflow.
ghost use Rattle.std.specs.Prelude.{◌≡◌, ◌++◌, IfOk, OnOk, drop, map, take};
ghost use Rattle.reshard.specs.Served.{AreServed};

use crate::workflow::Workflow;
use journal::Naming;
use keyrange::KeyRange;
use reshard_create::{SourceShard, TargetShard, World, next_ranges};
use std::alloc::{AllocError, Global};

// The sources after the first so many.
fn without_first<W: World, J: Naming>(
    sources: &[SourceShard<W, J>],
    n: usize,
) -> &[SourceShard<W, J>]
    ensures { result.now ≡ drop n sources.now }
{
    if n < sources.len() {
        &sources[n..]
    } else {
        &sources[sources.len()..]
    }
}

// The first so many targets.
fn first<W: World, J: Naming>(targets: &[TargetShard<W, J>], n: usize) -> &[TargetShard<W, J>]
    ensures { result.now ≡ take n targets.now }
{
    if n < targets.len() {
        &targets[..n]
    } else {
        targets
    }
}

fn ranges_of_sources<W: World, J: Naming>(
    alloc: Global,
    sources: &[SourceShard<W, J>],
) -> Result<Vec<KeyRange>, AllocError>
    ensures ok { IfOk result (λ ranges. ranges.items ≡ map (λ s. s.member.which.place.range) sources.now) }
{
    let mut ranges = Vec::new(alloc);
    for source in sources {
        ranges.push(source.member.which.place.range)?;
    }
    Ok(ranges)
}

fn put_targets<W: World, J: Naming>(
    ranges: &mut Vec<KeyRange>,
    targets: &[TargetShard<W, J>],
) -> Result<(), AllocError>
    ensures ok { OnOk result (ranges.new.items ≡ ranges.old.items ++ map (λ t. t.member.which.place.range) targets.now) }
{
    for target in targets {
        ranges.push(target.member.which.place.range)?;
    }
    Ok(())
}

fn ranges_of_both<W: World, J: Naming>(
    alloc: Global,
    sources: &[SourceShard<W, J>],
    targets: &[TargetShard<W, J>],
) -> Result<Vec<KeyRange>, AllocError>
    ensures ok { IfOk result (λ ranges. ranges.items ≡ map (λ s. s.member.which.place.range) sources.now ++ map (λ t. t.member.which.place.range) targets.now) }
{
    let mut ranges = ranges_of_sources(alloc, sources)?;
    put_targets(&mut ranges, targets)?;
    Ok(ranges)
}

impl<W: World, J: Naming> Workflow<W, J> {
    // Promise: While there is a workflow, the ranges that are served are those of the parts that stay, which with the targets make a partition
    // of the keyspace, of the sources that aren't retired, and of the targets that serve already
    /// The ranges of the shards that serve now, or are frozen: of the parts that the workflow leaves, of its sources that aren't retired, and
    /// of its targets that serve. Refuses for want of memory.
    pub fn served_ranges(&self, alloc: Global) -> Result<Vec<KeyRange>, AllocError>
        ensures ok { IfOk result (λ ranges. AreServed self.now ranges.items) }
    {
        let own = ranges_of_both(
            alloc,
            without_first(self.sources.as_slice(), self.retired),
            first(self.targets.as_slice(), self.served),
        )?;
        next_ranges(alloc, self.rest.as_slice(), own.as_slice())
    }
}
