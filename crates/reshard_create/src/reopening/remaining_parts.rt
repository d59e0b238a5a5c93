//! Which parts of a partition stay with the shards of a workflow, and whether these may take one another's place there.
ghost use Rattle.std.specs.Prelude.{◌≡◌, ◌↔◌, ◌≤◌, ◌+◌, ◌==◌, ◌++◌, true, false, not, IsTrue, IfOk};
ghost use Rattle.std.specs.List.{list_any};
ghost use Rattle.keyrange.specs.Ranges.{Cover};
ghost use Rattle.serving.specs.Partitions.{AreOf, ranges};
ghost use Rattle.reshard_create.specs.reopening.Rebuilt.{others, MayReplace};

use crate::split::{MOST_PARTS, next_ranges};
use keyrange::covers_once;
use serving::{Seated, ShardReference, copy_part};
use std::alloc::{AllocError, Global};

/// Whether one of the parts is on the slot.
pub fn stands_on<S: Seated + Drop>(slot: usize, parts: &[ShardReference<S>]) -> bool
    ensures { result ≡ list_any (λ seat. seat.0 == slot) parts.now }
{
    parts.iter().any(|part| part.slot() == slot)
}

fn is_other<S: Seated + Drop>(
    part: &ShardReference<S>,
    from: &[ShardReference<S>],
    into: &[ShardReference<S>],
) -> bool
    ensures { result ≡ not (list_any (λ seat. seat.0 == part.now.0) (from.now ++ into.now)) }
{
    let slot = part.slot();
    !stands_on(slot, from) && !stands_on(slot, into)
}

/// Of the parts those that are on the slots of none of these.
pub(crate) fn others_of<S: Seated + Drop>(
    alloc: Global,
    parts: &[ShardReference<S>],
    from: &[ShardReference<S>],
    into: &[ShardReference<S>],
) -> Result<Vec<ShardReference<S>>, AllocError>
    ensures ok { IfOk result (λ rest. rest.items ≡ others (from.now ++ into.now) parts.now) }
{
    let mut rest = Vec::new(alloc);
    for part in parts {
        if is_other(part, from, into) {
            rest.push(copy_part(part)?)?;
        }
    }
    Ok(rest)
}

fn are_of<S: Seated + Drop>(parts: &[ShardReference<S>], keyspace: usize) -> bool
    ensures yes { result ≡ true → AreOf keyspace parts.now }
    ensures no { result ≡ false → AreOf keyspace parts.now → ⊥ }
{
    parts.iter().all(|part| part.keyspace() == keyspace)
}

// Whether both together have each keyspace id once.
fn cover<S: Seated + Drop>(
    alloc: Global,
    rest: &[ShardReference<S>],
    parts: &[ShardReference<S>],
) -> Result<bool, AllocError>
    ensures ok { IfOk result (λ b. IsTrue b ↔ Cover (ranges rest.now ++ ranges parts.now)) }
{
    let own = next_ranges(alloc, parts, &[])?;
    let all = next_ranges(alloc, rest, own.as_slice())?;
    Ok(covers_once(all.as_slice()))
}

// Whether so many parts are no more than a partition has.
fn are_few(rest: usize, into: usize) -> bool
    ensures yes { result ≡ true → rest + into ≤ 64 }
    ensures no { result ≡ false → rest + into ≤ 64 → ⊥ }
{
    rest <= MOST_PARTS && into <= MOST_PARTS - rest
}

/// Whether the ones may take the place of the others with the rest.
pub(crate) fn may_replace<S: Seated + Drop>(
    alloc: Global,
    keyspace: usize,
    rest: &[ShardReference<S>],
    from: &[ShardReference<S>],
    into: &[ShardReference<S>],
) -> Result<bool, AllocError>
    ensures yes { IfOk result (λ b. b ≡ true → MayReplace keyspace rest.now from.now into.now) }
    ensures no { IfOk result (λ b. b ≡ false → MayReplace keyspace rest.now from.now into.now → ⊥) }
{
    if from.is_empty() {
        return Ok(false);
    }
    if !are_of(from, keyspace) {
        return Ok(false);
    }
    if !are_of(into, keyspace) {
        return Ok(false);
    }
    if !are_few(rest.len(), into.len()) {
        return Ok(false);
    }
    if !cover(alloc, rest, from)? {
        return Ok(false);
    }
    cover(alloc, rest, into)
}
