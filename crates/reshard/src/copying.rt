//! Before a cutover each target copies all tables of its sources, while these serve.
ghost use Rattle.std.specs.Prelude.{◌≡◌, ◌≤◌, ◌∷◌, [], IfErr, IsTrue, OnOk, OnErr, map};
ghost use Rattle.std.specs.List.{AllByRecursion};
ghost use Rattle.shard_run.specs.WellFormed.{is_vschema};
ghost use Rattle.journal.specs.Runs.{IsLegal};
ghost use Rattle.shard_run.specs.Openings.{IsOpening};
ghost use Rattle.reshard_create.specs.Entries.{MayFollow};
ghost use Rattle.reshard_create.specs.FollowSteps.{IsOnward};
ghost use Rattle.reshard_create.specs.Overlapping.{TakeFromOwn};
ghost use Rattle.reshard_create.specs.TargetSources.{TargetWithSources};
ghost use Rattle.reshard_create.specs.FirstMoves.{IsMoveRefusal};
ghost use Rattle.reshard.specs.Cutover.{HasMovedOn, HaveCome, HasCopiedAllOf, HasMovedUntilRefused, HaveComeUntilRefused};

use journal::Naming;
use reshard_create::{ReshardFault, ShardPass, Step, TargetShard, World, entries_left, move_first};
use shard_run::VSchema;
use std::alloc::Global;
use std::slice;
use std::sync::Wait;
use vt_value::Refusal;

// A target that follows so many entries one after the other, and is never level between them, is outrun: its sources are written faster.
const OUTRUN: u64 = 1 << 16;

// How many entries a target of which so many are left may follow one after the other.
pub(crate) fn most_followed(left: u64) -> u64
    ensures { 65536 ≤ result }
{
    left.saturating_mul(2).saturating_add(OUTRUN)
}

// Brings a target forward until it has copied all of its sources, and is level with them, or is outrun.
fn copy_from_sources<W: World, J: Naming>(
    rt: &impl Wait,
    alloc: Global,
    pass: &mut ShardPass<W, J>,
    schema: &VSchema,
    target: &TargetShard<W, J>,
) -> Result<(), Refusal>
    requires opens { IsOpening W.opening }
    requires schema { schema.now ≡ W.opening.schema }
    requires formed { IsTrue (is_vschema W.opening.schema) }
    requires own { TakeFromOwn ((target.now.member.which, map (λ s. s.which) target.now.sources.items) ∷ []) }
    requires legal { IsLegal (MayFollow W.opening) pass.old.seen }
    ensures copied { OnOk result (HasCopiedAllOf W.opening pass.old pass.new (target.now.member.which, map (λ s. s.which) target.now.sources.items)) }
    ensures come { OnOk result (HasMovedOn ((target.now.member.which, map (λ s. s.which) target.now.sources.items) ∷ []) pass.old pass.new) }
    ensures refused { IfErr result (λ e. IsMoveRefusal W.opening W.limits ((target.now.member.which, map (λ s. s.which) target.now.sources.items) ∷ []) pass.new (ReshardFault.Refused e)) }
    ensures until { OnErr result (HasMovedUntilRefused ((target.now.member.which, map (λ s. s.which) target.now.sources.items) ∷ []) pass.old pass.new) }
    ensures onward { IsOnward W.opening pass.old pass.new }
{
    let one = slice::from_ref(target);
    let mut left = most_followed(entries_left(rt, target));
    for _ in rt.forever() {
        match move_first(rt, alloc, pass, schema, one)? {
            Step::Level => return Ok(()),
            Step::Copied => left = OUTRUN,
            Step::Followed => {
                if left <= 1 {
                    return Ok(());
                }
                left -= 1;
            }
        }
    }
    unreachable!()
}

// Has each of the targets copy all of its sources. What is stored meanwhile is followed, but for what comes once the target was level, or is
// outrun.
pub(crate) fn copy_all<W: World, J: Naming>(
    rt: &impl Wait,
    alloc: Global,
    pass: &mut ShardPass<W, J>,
    schema: &VSchema,
    targets: &[TargetShard<W, J>],
) -> Result<(), Refusal>
    requires opens { IsOpening W.opening }
    requires schema { schema.now ≡ W.opening.schema }
    requires formed { IsTrue (is_vschema W.opening.schema) }
    requires own { TakeFromOwn (map (λ t. (t.member.which, map (λ s. s.which) t.sources.items)) targets.now) }
    requires legal { IsLegal (MayFollow W.opening) pass.old.seen }
    ensures copied { OnOk result (AllByRecursion (HasCopiedAllOf W.opening pass.old pass.new)
        (map {B = TargetWithSources} (λ t. (t.member.which, map (λ s. s.which) t.sources.items)) targets.now)) }
    ensures come { OnOk result (HaveCome (map (λ t. (t.member.which, map (λ s. s.which) t.sources.items)) targets.now) pass.old pass.new) }
    ensures refused { IfErr result (λ e. IsMoveRefusal W.opening W.limits (map (λ t. (t.member.which, map (λ s. s.which) t.sources.items)) targets.now) pass.new (ReshardFault.Refused e)) }
    ensures until { OnErr result (HaveComeUntilRefused (map (λ t. (t.member.which, map (λ s. s.which) t.sources.items)) targets.now) pass.old pass.new) }
    ensures onward { IsOnward W.opening pass.old pass.new }
{
    for target in targets {
        copy_from_sources(rt, alloc, pass, schema, target)?;
    }
    Ok(())
}
