//! Which parts of a partition a statement needs.
ghost use Rattle.std.specs.Prelude.{ℕ, ◌≡◌, ◌≤◌, ◌∷◌, [], IfOk, IfErr, MatchOption, length};
ghost use Rattle.std.specs.List.{AllByRecursion};
ghost use Rattle.journal.specs.Runs.{IsLegal};
ghost use Rattle.shard.specs.Entries.{MayFollow};
ghost use Rattle.serving.specs.Partitions.{AreOf};
ghost use Rattle.shard_calls.specs.Answers.{needed, HasGone, WasFound, IsFoundPartition};

use journal::Naming;
use planner::{Route, single_id, takes_by};
use serving::{Partition, Seated, ShardReference};
use shard::{Shard, ShardPass, World};
use std::sync::Wait;
use vschema::Table;
use vt_value::Refusal;

/// The part's shard.
pub fn shard_of<W: World, J: Naming>(part: &ShardReference<Shard<W, J>>) -> &Shard<W, J>
    ensures { result.now ≡ part.now }
{
    part.shard()
}

/// The one part that a write on the table with this route needs, if it needs one. Refuses if it needs several.
pub fn only_needed<'e, S: Seated + Drop>(
    parts: &'e [ShardReference<S>],
    table: &Table,
    route: &Route,
) -> Result<Option<&'e ShardReference<S>>, Refusal>
    ensures ok { IfOk result (λ found. MatchOption found
        (needed table.now route.now parts.now ≡ [])
        (λ part. needed table.now route.now parts.now ≡ part.now ∷ [])) }
    ensures err { IfErr result (λ e. (e ≡ Refusal.SeveralShards)
        × (2 ≤ length (needed table.now route.now parts.now))) }
{
    let mut found = None;
    let id = single_id(table, route);
    for part in parts {
        if takes_by(table, route, &id, &part.range()) {
            if found.is_some() {
                return Err(Refusal::SeveralShards);
            }
            found = Some(part);
        }
    }
    Ok(found)
}

/// Looks at the shard of each part, which the pass keeps. Takes no memory.
pub fn look_at_each<W: World, J: Naming>(
    rt: &impl Wait,
    pass: &mut ShardPass<W, J>,
    parts: &[ShardReference<Shard<W, J>>],
)
    requires legal { IsLegal (MayFollow W.opening) pass.old.seen }
    ensures found { AllByRecursion (WasFound W.opening pass.old.seen pass.new.seen) parts.now }
    ensures gone { HasGone W.opening pass.old pass.new }
{
    for part in parts {
        shard_of(part).look(rt, pass);
    }
}

/// Looks at each shard of a partition by which a statement is refused: so its cause is of shards that were there in the call. Takes no memory.
pub fn find_partition<W: World, J: Naming>(
    rt: &impl Wait,
    pass: &mut ShardPass<W, J>,
    partition: &Partition<Shard<W, J>>,
)
    requires legal { IsLegal (MayFollow W.opening) pass.old.seen }
    ensures found { (keyspace : ℕ) → AreOf keyspace partition.now → IsFoundPartition W.opening pass.old.seen pass.new.seen keyspace partition.now }
    ensures gone { HasGone W.opening pass.old pass.new }
{
    look_at_each(rt, pass, partition.parts());
}
