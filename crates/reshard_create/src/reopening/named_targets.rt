//! Whether the sources that are retired named the targets that take from them.
ghost use Rattle.std.specs.Prelude.{◌≡◌, true, false, Contains, IsTrue, map};
ghost use Rattle.std.specs.List.{AllByRecursion};
ghost use Rattle.reshard_cutover.specs.Steps.{has_source};
ghost use Rattle.reshard_create.specs.reopening.Rebuilt.{NamedThose};

use crate::reopening::found_shards::FoundShard;
use journal::Naming;
use reshard_cutover::is_source_of;
use shard::World;
use shard_run::{Mode, ShardRecord};

fn is_same(one: &ShardRecord, other: &ShardRecord) -> bool
    ensures yes { result ≡ true → one.now ≡ other.now }
    ensures no { result ≡ false → one.now ≡ other.now → ⊥ }
{
    one.slot == other.slot
        && one.place.keyspace == other.place.keyspace
        && one.place.range == other.place.range
        && one.sources.as_slice() == other.sources.as_slice()
}

fn is_among(shard: &ShardRecord, shards: &[ShardRecord]) -> bool
    ensures yes { result ≡ true → Contains shards.now shard.now }
    ensures no { result ≡ false → Contains shards.now shard.now → ⊥ }
{
    for other in shards {
        if is_same(other, shard) {
            return true;
        }
    }
    false
}

// Whether the target is one of these, if it takes from the source on the slot.
fn is_named(target: &ShardRecord, slot: usize, named: &[ShardRecord]) -> bool
    ensures yes { result ≡ true → IsTrue (has_source slot target.now) → Contains named.now target.now }
    ensures no { result ≡ false → (IsTrue (has_source slot target.now) → Contains named.now target.now) → ⊥ }
{
    if is_source_of(target, slot) {
        return is_among(target, named);
    }
    true
}

// Whether each target that takes from the source on the slot is one of these.
fn are_named<W: World, J: Naming>(
    targets: &[FoundShard<W, J>],
    slot: usize,
    named: &[ShardRecord],
) -> bool
    ensures yes { result ≡ true → AllByRecursion (λ t. IsTrue (has_source slot t) → Contains named.now t) (map (λ f. f.member.which) targets.now) }
    ensures no { result ≡ false → AllByRecursion (λ t. IsTrue (has_source slot t) → Contains named.now t) (map (λ f. f.member.which) targets.now) → ⊥ }
{
    for target in targets {
        if !is_named(&target.member.which, slot, named) {
            return false;
        }
    }
    true
}

fn is_retired(mode: Mode) -> bool
    ensures yes { result ≡ true → mode ≡ Mode.Retired }
    ensures no { result ≡ false → mode ≡ Mode.Retired → ⊥ }
{
    match mode {
        Mode::Retired => true,
        _ => false,
    }
}

// Whether the source named the targets that take from it, if it is retired.
fn named_those<W: World, J: Naming>(source: &FoundShard<W, J>, targets: &[FoundShard<W, J>]) -> bool
    ensures yes { result ≡ true → NamedThose (map (λ f. f.member.which) targets.now) (source.now.member.which, source.now.mode, source.now.named) }
    ensures no { result ≡ false → NamedThose (map (λ f. f.member.which) targets.now) (source.now.member.which, source.now.mode, source.now.named) → ⊥ }
{
    if is_retired(source.mode) {
        return are_named(targets, source.member.which.slot, source.named.as_slice());
    }
    true
}

/// Whether each retired source named the targets that take from it.
pub(crate) fn all_named<W: World, J: Naming>(
    sources: &[FoundShard<W, J>],
    targets: &[FoundShard<W, J>],
) -> bool
    ensures yes { result ≡ true → AllByRecursion (NamedThose (map (λ f. f.member.which) targets.now)) (map (λ f. (f.member.which, f.mode, f.named)) sources.now) }
    ensures no { result ≡ false → AllByRecursion (NamedThose (map (λ f. f.member.which) targets.now)) (map (λ f. (f.member.which, f.mode, f.named)) sources.now) → ⊥ }
{
    for source in sources {
        if !named_those(source, targets) {
            return false;
        }
    }
    true
}
