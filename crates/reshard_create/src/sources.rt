//! Which shards a workflow replaces, and whether these targets may replace them.
ghost use Rattle.std.specs.Prelude.{◌≡◌, ◌⊎◌, ◌++◌, ℕ, List, IfOk, IfErr, IfSome, OnOk, MatchOption, IsSome, Contains, map, length};
ghost use Rattle.std.specs.List.{AllByRecursion};
ghost use Rattle.keyrange.specs.Ranges.{Cover};
ghost use Rattle.serving.specs.Partitions.{Seat, AreOf};
ghost use Rattle.journal.specs.Runs.{IsLegal};
ghost use Rattle.shard_law.specs.Entries.{MayFollow};
ghost use Rattle.reshard_cutover.specs.FollowSteps.{IsOnward};
ghost use Rattle.reshard_create.specs.split.Choices.{DoNotOverlap};
ghost use Rattle.reshard_create.specs.Begun.{WasSeen, IsServing, IsAway, EndsInLookAt, AreSources, IsCreateRefusal};
ghost use Rattle.reshard_create.specs.inner.Created.{AreToldApart, HasSeen, HasLookedAtAll, HasLookedAlongParts};

use crate::looks::look_at_each;
use crate::partition_parts::{ChosenParts, any_overlap};
use crate::split::next_ranges;
use crate::targets::source_of;
use journal::Naming;
use keyrange::{KeyRange, covers_once};
use reshard_cutover::{ReshardFault, SourceShard};
use serving::ShardReference;
use shard::{Shard, ShardPass, World};
use std::alloc::{AllocError, Global};
use std::sync::Wait;
use vt_value::Refusal;

// The shards of the parts, if each serves and isn't frozen.
pub(crate) fn sources_of<W: World, J: Naming>(
    rt: &impl Wait,
    alloc: Global,
    pass: &mut ShardPass<W, J>,
    keyspace: usize,
    parts: &[ShardReference<Shard<W, J>>],
) -> Result<Option<Vec<SourceShard<W, J>>>, AllocError>
    requires legal { IsLegal (MayFollow W.opening) pass.old.seen }
    requires home { AreOf keyspace parts.now }
    ensures found { IfOk result (λ r. MatchOption r ((seat : Seat) × Contains parts.now seat × HasSeen W.opening pass.old pass.new keyspace IsAway seat × EndsInLookAt seat.0 pass.new)
        (λ sources. (map (λ s. (s.member.which.slot, s.member.which.place.range, s.member.which.place.keyspace)) sources.items ≡ parts.now)
        × AllByRecursion (λ s. s.member.which.place.keyspace ≡ keyspace) sources.items)) }
    ensures looked { HasLookedAlongParts W.opening pass.old pass.new keyspace parts.now }
    ensures all { IfOk result (λ r. IsSome r → HasLookedAtAll W.opening pass.old pass.new keyspace parts.now) }
    ensures served { IfOk result (λ r. IfSome r (λ sources. AllByRecursion (λ s. WasSeen W.opening pass.old pass.new IsServing s.member.which) sources.items)) }
    ensures onward { IsOnward W.opening pass.old pass.new }
{
    let mut sources = Vec::new(alloc);
    for part in parts {
        let Some(member) = source_of(rt, alloc, pass, keyspace, part)? else {
            return Ok(None);
        };
        sources.push(SourceShard { member, stored: 0 })?;
    }
    Ok(Some(sources))
}

// Whether targets of these ranges fit the parts that stay.
pub(crate) fn test_targets<W: World, J: Naming>(
    alloc: Global,
    rest: &[ShardReference<Shard<W, J>>],
    targets: &[KeyRange],
) -> Result<(), ReshardFault>
    ensures ok { OnOk result (Cover (map (λ s. s.1) rest.now ++ targets.now)) }
    ensures apart { OnOk result (DoNotOverlap targets.now) }
    ensures err { IfErr result (λ e. (e ≡ ReshardFault.Refused Refusal.OutOfMemory) ⊎ (((e ≡ ReshardFault.Overlap) × (DoNotOverlap targets.now → ⊥))
        ⊎ ((e ≡ ReshardFault.Gap) × DoNotOverlap targets.now × (Cover (map (λ s. s.1) rest.now ++ targets.now) → ⊥)))) }
{
    if any_overlap(targets) {
        return Err(ReshardFault::Overlap);
    }
    let ranges = next_ranges(alloc, rest, targets)?;
    if covers_once(ranges.as_slice()) {
        Ok(())
    } else {
        Err(ReshardFault::Gap)
    }
}

// The sources of these ranges, if targets of those may take their place.
// It is handed what `begin` takes, and the parts that were chosen.
pub(crate) fn find_sources<W: World, J: Naming>(
    rt: &impl Wait,
    alloc: Global,
    pass: &mut ShardPass<W, J>,
    keyspace: usize,
    chosen: &ChosenParts<Shard<W, J>>,
    sources: &[KeyRange],
    targets: &[KeyRange],
) -> Result<Vec<SourceShard<W, J>>, ReshardFault>
    requires legal { IsLegal (MayFollow W.opening) pass.old.seen }
    requires parts { (seats : List Seat) × AreToldApart keyspace sources.now seats chosen.now.taken.items chosen.now.rest.items }
    ensures found { IfOk result (λ found. (map (λ s. (s.member.which.slot, s.member.which.place.range, s.member.which.place.keyspace)) found.items ≡ chosen.now.taken.items)
        × AllByRecursion (λ s. s.member.which.place.keyspace ≡ keyspace) found.items) }
    ensures are { IfOk result (λ found. AreSources W.opening pass.old pass.new keyspace sources.now (map (λ s. s.member.which) found.items)) }
    ensures cover { OnOk result (Cover (map (λ s. s.1) chosen.now.rest.items ++ targets.now)) }
    ensures count { OnOk result (length chosen.now.taken.items ≡ length sources.now) }
    ensures apart { OnOk result (DoNotOverlap targets.now) }
    ensures onward { IsOnward W.opening pass.old pass.new }
    ensures looked { HasLookedAlongParts W.opening pass.old pass.new keyspace (chosen.now.taken.items ++ chosen.now.rest.items) }
    ensures all { OnOk result (HasLookedAtAll W.opening pass.old pass.new keyspace chosen.now.taken.items) }
    ensures err { IfErr result (λ e. (free : ℕ) → IsCreateRefusal W.opening pass.old pass.new keyspace free sources.now targets.now e) }
{
    if sources.is_empty() {
        return Err(ReshardFault::WrongSource);
    }
    if chosen.taken.len() != sources.len() {
        look_at_each(rt, pass, keyspace, chosen.taken.as_slice());
        look_at_each(rt, pass, keyspace, chosen.rest.as_slice());
        return Err(ReshardFault::WrongSource);
    }
    let Some(found) = sources_of(rt, alloc, pass, keyspace, chosen.taken.as_slice())? else {
        return Err(ReshardFault::WrongSource);
    };
    match test_targets(alloc, chosen.rest.as_slice(), targets) {
        Ok(()) => Ok(found),
        Err(fault) => Err(fault),
    }
}
